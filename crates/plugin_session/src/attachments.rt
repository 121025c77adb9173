//! The attachments that a session's tasks speak of, by their numbers.

ghost use Rattle.std.specs.Prelude.{◌≡◌, ◌≤◌, ◌<◌, ℕ, List, Option, None, Some, length, slice_get, IfOk};
ghost use Rattle.session_laws.specs.Kept.{AreNumbered};
ghost use Rattle.session_file.specs.WellFormed.{most_tasks};

use cni_addr::NoMemory;
use session_file::Task;
use std::alloc::Global;
use std::collections::BTreeMap;

/// The number of each task's attachment, and a place for each attachment's last row.
#[derive(Drop)]
pub(crate) struct Numbered {
    pub numbers: Vec<u32>,
    pub last_rows: Vec<Option<u32>>,
}

/// Numbers the attachments of the tasks in the order in which they are first spoken of, and leaves a place for the last
/// row of each. Whoever writes the tasks chooses their names, and could choose many of one hash, so they are looked up
/// by their order.
pub(crate) fn number_attachments(alloc: Global, tasks: &[Task]) -> Result<Numbered, NoMemory>
    requires { length tasks.now ≤ most_tasks }
    ensures numbered { IfOk result (λ numbered. (network : List ℕ)
        → AreNumbered network tasks.now numbered.numbers.items (length numbered.last_rows.items)) }
    ensures none { IfOk result (λ numbered. (k : ℕ) (place : Option ℕ)
        → slice_get numbered.last_rows.items k ≡ Some place → place ≡ None) }
{
    let mut known: BTreeMap<(&str, &str), u32> = BTreeMap::new(alloc);
    let mut numbers = Vec::new(alloc);
    let mut last_rows = Vec::new(alloc);
    for task in tasks {
        let words = (task.container.as_str(), task.ifname.as_str());
        let found = known.get(&words).copied();
        let number = found.unwrap_or(last_rows.len() as u32);
        if found.is_none() {
            known.insert(words, number)?;
            last_rows.push(None)?;
        }
        numbers.push(number)?;
    }
    Ok(Numbered { numbers, last_rows })
}
