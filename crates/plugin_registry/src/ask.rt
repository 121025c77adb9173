//! What a plugin needs of a task, and what it is asked.

use cni_addr::{Duplicate, Items, NoMemory, Text};
use kernel_types::{Att, Given};

/// The form of an option's value.
#[derive(Clone, Copy, Drop)]
pub enum Form {
    /// Any text.
    Any,
    /// The name of an interface, as `eth0`.
    IfName,
    /// The decimal digits of a number within these bounds, without a sign or a leading zero.
    Number { least: u32, most: u32 },
    /// An address of either family, without a prefix.
    Address,
}

/// An option that a plugin looks at.
#[derive(Drop)]
pub struct Need {
    pub key: Text,
    pub form: Form,
    /// Whether the option must be there.
    pub must: bool,
}

/// An option of a task: a value under a key.
#[derive(Drop)]
pub struct Opt {
    pub key: Text,
    pub value: Text,
}

impl Duplicate for Opt {
    fn copy(&self) -> Result<Opt, NoMemory> {
        Ok(Opt {
            key: self.key.copy()?,
            value: self.value.copy()?,
        })
    }
}

/// What a plugin is asked at an ADD.
#[derive(Drop)]
pub struct Ask {
    pub att: Att,
    /// The container's namespace, which is never the host's.
    pub netns: Text,
    /// All options of the task, those that no need names too.
    pub options: Items<Opt>,
    /// What the attachment was leased, one of each range set.
    pub given: Items<Given>,
}
