//! Slots: a list with one place for each command, where something may lie.

ghost use Rattle.std.specs.Prelude.{◌≡◌, ◌<◌, None, Some, IfOk, length, replicate, slice_get, slice_set};

use cni_addr::NoMemory;
use std::alloc::Global;

/// As many places as are asked for, with nothing in them.
pub(crate) fn blanks<T: Drop>(alloc: Global, count: usize) -> Result<Vec<Option<T>>, NoMemory>
    ensures { IfOk result (λ blanks. blanks.items ≡ replicate count None) }
{
    let mut blanks = Vec::with_capacity(alloc, count)?;
    for _made in 0..count {
        blanks.push(None)?;
    }
    Ok(blanks)
}

/// Takes out what lies at a place.
pub(crate) fn take_at<T: Drop>(items: &mut Vec<Option<T>>, n: usize) -> Option<T>
    requires { n < length items.old.items }
    ensures taken { slice_get items.old.items n ≡ Some result }
    ensures left { items.new.items ≡ slice_set items.old.items n None }
{
    items[n].take()
}

pub(crate) fn put_at<T: Drop>(items: &mut Vec<Option<T>>, n: usize, item: T)
    requires { n < length items.old.items }
    ensures { items.new.items ≡ slice_set items.old.items n (Some item) }
{
    items[n] = Some(item);
}
