//! What runs were told of their cached results.

ghost use Rattle.std.specs.Prelude.{IfOk};
ghost use Rattle.pod_text.specs.Requests.{IsToldIn};

use cni_addr::{Duplicate, NoMemory, RefCounted};
use cni_result::Cached;
use kernel_types::Reply;
use pod_workers::Entry;
use std::alloc::Global;
use std::collections::BTreeMap;

/// The cached results that runs were told, by the numbers of their commands.
pub(crate) type Told = BTreeMap<u32, RefCounted<Cached>>;

/// What the history tells each command. It takes one pass over the history, whose results it shares.
pub(crate) fn told_in(alloc: Global, history: &[Entry]) -> Result<Told, NoMemory>
    ensures { IfOk result (IsToldIn history.now) }
{
    let mut told = BTreeMap::new(alloc);
    for entry in history {
        if let Reply::Entry(Some(cached)) = &entry.reply {
            told.insert(entry.command, cached.copy()?)?;
        }
    }
    Ok(told)
}
