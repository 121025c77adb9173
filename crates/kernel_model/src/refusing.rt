//! A kernel that refuses memory where a test wants it.

ghost use Rattle.std.specs.Prelude.{◌≡◌, true, false, IfOk, IsErr, IsOk, OnErr};
ghost use Rattle.kernel_model.specs.Refusing.{refuses, with_next_call};
ghost use Rattle.kernel_types.specs.Allowed.{IsAllowed};
ghost use Rattle.kernel_types.specs.Apply.{apply};
ghost use Rattle.kernel_types.specs.Replies.{is_fault, needs_no_memory};
ghost use Rattle.kernel_types.specs.Sound.{IsSound};

use crate::kernel::Kernel;
use cni_addr::{Items, NoMemory};
use kernel_types::{Call, Host, Reply};
use std::alloc::Global;
use std::marker::Model;

/// A kernel over another one, for tests: it refuses the calls of some numbers memory, and hands the others on.
///
/// Calls are numbered from 1 up to `u64::MAX`, those that never need memory among them. A call whose number is among
/// the refused ones answers [`NoMemory`], and the inner kernel isn't asked; but not one that never needs memory
/// ([`Call::needs_no_memory`]), which the inner kernel answers as it does every other call.
#[derive(Drop)]
pub struct RefusingKernel<K> {
    inner: K,
    refuse: Items<u64>,
    calls: u64,
}

impl<K> Model for RefusingKernel<K> {
    ghost use Rattle.kernel_model.specs.Refusing.{Refusing};

    ghost Value = { Refusing K };

    ghost view = { λ k. record { inner = k.inner; refuse = k.refuse; calls = k.calls } };
}

impl<K> RefusingKernel<K> {
    /// The kernel that refuses the calls of these numbers, in any order. Takes no memory.
    pub fn of(inner: K, refuse: Items<u64>) -> RefusingKernel<K>
        ensures { result ≡ record { inner = inner; refuse = refuse; calls = 0 } }
    {
        RefusingKernel {
            inner,
            refuse,
            calls: 0,
        }
    }

    /// Counts a call, and says whether it is refused.
    fn next_refuses(&mut self, call: &Call) -> bool
        ensures refuses { result ≡ refuses self.old call.now }
        ensures counts { self.new ≡ with_next_call self.old }
    {
        if self.calls == u64::MAX {
            return false;
        }
        self.calls += 1;
        self.refuse.as_slice().contains(&self.calls) && !call.needs_no_memory()
    }
}

impl<K: Kernel> RefusingKernel<K> {
    /// Opens the fact that the inner kernel's host is sound to a caller's proof, by asking for a copy of it.
    fn is_sound(&self, alloc: Global)
        ensures { IsSound (K.host self.now.inner) }
    {
        drop(self.inner.host(alloc));
    }
}

impl<K: Kernel> Kernel for RefusingKernel<K> {
    ghost host = { λ k. K.host k.inner };

    fn call(&mut self, alloc: Global, call: &Call) -> Result<Reply, NoMemory>
        requires { IsAllowed (K.host self.old.inner) call.now }
        ensures ok { IfOk result (λ reply. (K.host self.new.inner, reply) ≡ apply (K.host self.old.inner) call.now) }
        ensures err { OnErr result (K.host self.new.inner ≡ K.host self.old.inner) }
        ensures frees { needs_no_memory call.now ≡ true → IsOk result }
        ensures never { IfOk result (λ reply. is_fault reply ≡ false) }
        ensures sound { IsSound (K.host self.new.inner) }
        ensures refused { refuses self.old call.now ≡ true → IsErr result × (self.new ≡ with_next_call self.old) }
        ensures counts { self.new ≡ record (with_next_call self.old) { inner = self.new.inner } }
    {
        if self.next_refuses(call) {
            self.is_sound(alloc);
            return Err(NoMemory);
        }
        self.inner.call(alloc, call)
    }

    fn host(&self, alloc: Global) -> Result<Host, NoMemory> {
        self.inner.host(alloc)
    }
}
