//! Which worker steps which command.

ghost use Rattle.std.specs.Prelude.{◌<◌, length};

use kernel_model::Kernel;
use pod_workers::Book;
use std::alloc::Global;
use std::collections::BTreeMap;

/// A command that a worker steps to its answer.
#[derive(Clone, Copy)]
pub(crate) struct Owned {
    pub command: u32,
    pub worker: usize,
}

/// The commands of the current round that have no answer, in file order. The round's containers are numbered from 0 by
/// first occurrence, and the commands of one all go to the worker of its number modulo the number of workers.
pub(crate) fn share_out<K: Kernel + Drop>(
    alloc: Global,
    book: &Book<K>,
    workers: u8,
) -> Option<Vec<Owned>>
    requires some { 0 < workers }
    requires left { book.now.round < length book.now.plan.pods.rounds }
{
    let mut containers: BTreeMap<&str, usize> = BTreeMap::new(alloc);
    let mut owned = Vec::new(alloc);
    for command in book.current_round() {
        let place = place_of(&mut containers, command.container.as_str())?;
        if book.answer(command.number).is_none() {
            let worker = place % workers as usize;
            owned
                .push(Owned {
                    command: command.number,
                    worker,
                })
                .ok()?;
        }
    }
    Some(owned)
}

/// The container's number, which is the next one where it is new. Whoever writes a plan chooses its containers, and
/// could choose many of one hash, so they are looked up by their order.
fn place_of<'a>(containers: &mut BTreeMap<&'a str, usize>, container: &'a str) -> Option<usize> {
    if let Some(place) = containers.get(container).copied() {
        return Some(place);
    }
    let next = containers.len();
    containers.insert(container, next).ok()?;
    Some(next)
}
