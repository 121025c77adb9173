//! Commands of a pod file.

ghost use Rattle.std.specs.Prelude.{◌≡◌, Some};
ghost use Rattle.pod_file.specs.Commands.{is_of_network, needs_table, is_exclusive_verb, verb_text, verb_named};

use cni_addr::{Items, Text};
use kernel_types::Table;

/// What a command does: a verb of the CNI specification (section 2, "Execution Protocol"), or a change from outside.
#[derive(Clone, Copy, PartialEq, Eq)]
pub enum Verb {
    Add,
    Check,
    Del,
    Gc,
    Status,
    Version,
    NsAdd,
    NsDel,
    Drop,
    Flush,
}

impl Verb {
    /// Every verb once.
    pub const ALL: [Verb; 10] = [
        Verb::Add,
        Verb::Check,
        Verb::Del,
        Verb::Gc,
        Verb::Status,
        Verb::Version,
        Verb::NsAdd,
        Verb::NsDel,
        Verb::Drop,
        Verb::Flush,
    ];

    /// Whether the verb is one of the CNI specification's, which speak of a network.
    pub fn is_of_network(self) -> bool
        ensures { result ≡ is_of_network self }
    {
        match self {
            Verb::Add | Verb::Check | Verb::Del | Verb::Gc | Verb::Status | Verb::Version => true,
            Verb::NsAdd | Verb::NsDel | Verb::Drop | Verb::Flush => false,
        }
    }

    /// Whether the verb empties a table, which its command must name.
    pub(crate) fn needs_table(self) -> bool
        ensures { result ≡ needs_table self }
    {
        matches!(self, Verb::Flush)
    }

    /// Whether the verb's command has its round for itself.
    pub(crate) fn is_exclusive(self) -> bool
        ensures { result ≡ is_exclusive_verb self }
    {
        match self {
            Verb::Gc | Verb::Status | Verb::NsAdd | Verb::NsDel | Verb::Drop | Verb::Flush => true,
            Verb::Add | Verb::Check | Verb::Del | Verb::Version => false,
        }
    }
}

/// The verb as pod files and the output spell it. Takes no memory.
pub fn verb_text(verb: Verb) -> &'static str
    ensures text { result.now ≡ verb_text verb }
    ensures named_again { verb_named (verb_text verb) ≡ Some verb }
{
    match verb {
        Verb::Add => "ADD",
        Verb::Check => "CHECK",
        Verb::Del => "DEL",
        Verb::Gc => "GC",
        Verb::Status => "STATUS",
        Verb::Version => "VERSION",
        Verb::NsAdd => "NSADD",
        Verb::NsDel => "NSDEL",
        Verb::Drop => "DROP",
        Verb::Flush => "FLUSH",
    }
}

/// The verb that the text names. Takes no memory.
pub fn verb_named(text: &str) -> Option<Verb>
    ensures { result ≡ verb_named text.now }
{
    Verb::ALL
        .iter()
        .copied()
        .find(|verb| text == verb_text(*verb))
}

/// A port mapping as it was written: numbers and texts that an ADD tests when it runs.
#[derive(PartialEq, Eq, Drop)]
pub struct RawMapping {
    pub host_port: u64,
    pub container_port: u64,
    pub protocol: Text,
    pub host_ip: Text,
}

/// An attachment that a GC is to keep.
#[derive(PartialEq, Eq, Drop)]
pub struct ValidAtt {
    pub container: Text,
    pub ifname: Text,
}

/// One command. `number` counts from 1 in file order. What a verb doesn't use is kept and not used.
#[derive(PartialEq, Eq, Drop)]
pub struct Command {
    pub number: u32,
    pub verb: Verb,
    pub network: Text,
    pub container: Text,
    pub netns: Text,
    pub ifname: Text,
    pub args: Text,
    pub mappings: Items<RawMapping>,
    pub valid: Items<ValidAtt>,
    pub table: Option<Table>,
    pub stop: Option<u32>,
    pub faults: Items<u32>,
}
