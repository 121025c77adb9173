//! The calls of a command that are to fail.

ghost use Rattle.std.specs.Prelude.{◌≡◌, ℕ, ◌+◌, ◌==◌, IfOk};
ghost use Rattle.std.specs.List.{list_any};
ghost use Rattle.pod_file.specs.Faults.{are_after};

use cni_addr::NoMemory;
use std::alloc::Global;
use std::collections::BTreeSet;
use std::marker::Model;

/// How many calls stand before each of the calls that are to fail, each number once.
///
/// The numbers are in order and not hashed: whoever writes a file chooses them, and could choose those that collide.
#[derive(Drop)]
pub struct Faults {
    before: BTreeSet<u64>,
}

impl Model for Faults {
    ghost use Rattle.std.specs.Prelude.{List, ℕ};

    ghost Value = { List ℕ };

    ghost view = { λ f. f.before.keys };
}

impl Faults {
    /// The faults of these numbers, from 1, in any order. It takes n log n steps for n numbers, and no memory where
    /// there are none.
    pub fn of(alloc: Global, numbers: &[u32]) -> Result<Faults, NoMemory>
        ensures { IfOk result (λ faults. (made : ℕ) → are_after made faults
            ≡ list_any (λ k. k == made + 1) numbers.now) }
    {
        let mut before = BTreeSet::new(alloc);
        for number in numbers {
            if *number > 0 {
                before.insert((*number - 1) as u64)?;
            }
        }
        Ok(Faults { before })
    }

    /// Whether the call after so many is to fail. It takes log n steps for n faults.
    pub fn are_after(&self, made: u64) -> bool
        ensures { result ≡ are_after made self.now }
    {
        self.before.contains(&made)
    }
}
