//! Cached results.

ghost use Rattle.std.specs.Prelude.{◌≡◌, IfOk, OnErr};
ghost use Rattle.kernel_types.specs.Apply.Calls.{cache_put_of, cache_get_of};

use super::HostLists;
use crate::lists::{any_own, find_own};
use cni_addr::{Duplicate, NoMemory, RefCounted};
use cni_result::Cached;
use kernel_types::{Att, CachedObj, Reply, Tag};

impl HostLists {
    pub(crate) fn cache_put(
        &mut self,
        att: &Att,
        cached: &RefCounted<Cached>,
    ) -> Result<Reply, NoMemory>
        ensures ok { IfOk result (λ reply. (self.new, reply) ≡ cache_put_of self.old att.now cached.now) }
        ensures err { OnErr result (self.new ≡ self.old) }
    {
        let tag = Tag::Own(att.copy()?);
        if any_own(&self.cached, att) {
            return Ok(Reply::Taken(tag));
        }
        let cached = cached.copy()?;
        self.cached.push(CachedObj { cached, tag })?;
        Ok(Reply::Done)
    }

    pub(crate) fn cache_get(&self, att: &Att) -> Result<Reply, NoMemory>
        ensures { IfOk result (λ reply. (self.now, reply) ≡ cache_get_of self.now att.now) }
    {
        match find_own(&self.cached, att) {
            Some(entry) => {
                let cached = entry.cached.copy()?;
                Ok(Reply::Entry(Some(cached)))
            }
            None => Ok(Reply::Entry(None)),
        }
    }
}
