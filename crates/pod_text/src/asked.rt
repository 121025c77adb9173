//! What is asked for in the text of a book.

use cni_addr::Items;
use packet_probe::Packet;
use plugin_requests::RawList;

/// What is printed of the commands.
#[derive(Clone, Copy, Debug, PartialEq, Eq)]
pub enum CommandPart {
    /// A line for each command that has an answer, in file order.
    Lines,
    /// One line in place of these: the numbers of calls, commands and leases, and of the commands that were done.
    Summary,
}

/// The parts that the text of a book is to have. They come in this order.
#[derive(Drop)]
pub struct Asked {
    pub commands: CommandPart,
    /// Where the requests to plugins are asked for, the plan's lists as they were read: a line for each request that
    /// a command which was done made of a plugin.
    pub requests: Option<Items<RawList>>,
    /// A line for each call of the history.
    pub trace: bool,
    /// A line for each object of the host.
    pub dump: bool,
    /// A line for each of these: what becomes of it by the host's rules.
    pub packets: Items<Packet>,
}

/// The parts that the text of a session is to have after its answers. They come in this order.
#[derive(Clone, Copy, Debug, PartialEq, Eq)]
pub struct SessionAsked {
    /// A line for each call of the history.
    pub trace: bool,
    /// A line for each object of the host.
    pub dump: bool,
}
