//! What an ADD has made so far.

ghost use Rattle.std.specs.Prelude.{IfOk};
ghost use Rattle.session_verbs.specs.Adds.{IsUnbegun};

use cni_addr::{Addr, Items, NoMemory};
use kernel_types::{Att, Kind};
use session_laws::Row;
use std::alloc::Global;

/// What an ADD has made so far. Who runs the ADD makes it beforehand, so that what was made can be kept without more
/// memory, however the ADD ends.
#[derive(Drop)]
pub struct Begun {
    pub row: Row,
    /// What was leased, in order. It has room for an address of each range set.
    pub given: Vec<Addr>,
    /// Whether Begin was granted.
    pub begun: bool,
}

impl Begun {
    /// Nothing is made yet by the ADD of this number, whose plugin is of these kinds.
    pub fn of(
        alloc: Global,
        task: u32,
        att: Att,
        kinds: Items<Kind>,
        sets: usize,
    ) -> Result<Begun, NoMemory>
        ensures { IfOk result (IsUnbegun task att kinds sets) }
    {
        let given = Vec::with_capacity(alloc, sets)?;
        Ok(Begun {
            row: Row {
                task,
                att,
                kinds,
                calls: Items::new(alloc),
                cached: None,
            },
            given,
            begun: false,
        })
    }
}
