//! Cached results.

ghost use Rattle.std.specs.Prelude.{◌≡◌, IfOk, OnErr};
ghost use Rattle.kernel_types.specs.Apply.Calls.{cache_put_of, cache_get_of};

use super::Tables;
use cni_addr::{Duplicate, NoMemory, RefCounted};
use cni_result::Cached;
use kernel_types::{Att, CachedObj, Reply, Tag};
use std::alloc::Global;

impl Tables {
    /// The cached result of an attachment that has none. It is shared with the caller.
    #[inline(never)]
    pub fn cache_put(
        &mut self,
        alloc: Global,
        att: &Att,
        cached: &RefCounted<Cached>,
    ) -> Result<Reply, NoMemory>
        ensures ok { IfOk result (λ reply. (self.new, reply) ≡ cache_put_of self.old att.now cached.now) }
        ensures err { OnErr result (self.new ≡ self.old) }
    {
        let tag = Tag::Own(att.copy()?);
        if self.cached.find(att).is_some() {
            return Ok(Reply::Taken(tag));
        }
        let cached = cached.copy()?;
        self.cached.push(alloc, CachedObj { cached, tag })?;
        Ok(Reply::Done)
    }

    /// The cached result of the attachment, shared with the caller.
    #[inline(never)]
    pub fn cache_get(&self, att: &Att) -> Result<Reply, NoMemory>
        ensures { IfOk result (λ reply. (self.now, reply) ≡ cache_get_of self.now att.now) }
    {
        match self.cached.find(att) {
            Some(entry) => {
                let cached = entry.cached.copy()?;
                Ok(Reply::Entry(Some(cached)))
            }
            None => Ok(Reply::Entry(None)),
        }
    }
}
