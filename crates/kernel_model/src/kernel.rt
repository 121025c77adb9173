//! What a kernel is.

ghost use Rattle.std.specs.Prelude.{◌≡◌, true, false, IfOk, OnErr, IsOk};
ghost use Rattle.kernel_types.specs.Apply.{apply};
ghost use Rattle.kernel_types.specs.Allowed.{IsAllowed};
ghost use Rattle.kernel_types.specs.Replies.{is_fault, needs_no_memory};
ghost use Rattle.kernel_types.specs.Sound.{IsSound};

use cni_addr::NoMemory;
use kernel_types::{Call, Host, Reply};
use std::alloc::Global;

/// A kernel, by the sound host that it means.
pub trait Kernel {
    ghost use Rattle.kernel_types.specs.declared.object.Host.{Host};

    ghost host: { Self → Host };

    /// Makes one call: host and reply are those of `apply`. One that runs out of memory leaves the host as it was; none
    /// does that only removes, changes numbers in place or asks for a truth value. The reply `Fault` is never a
    /// kernel's: whoever makes a command's calls gives it in the kernel's place.
    fn call(&mut self, alloc: Global, call: &Call) -> Result<Reply, NoMemory>
        requires { IsAllowed (host self.old) call.now }
        ensures ok { IfOk result (λ reply. (host self.new, reply) ≡ apply (host self.old) call.now) }
        ensures err { OnErr result (host self.new ≡ host self.old) }
        ensures frees { needs_no_memory call.now ≡ true → IsOk result }
        ensures never { IfOk result (λ reply. is_fault reply ≡ false) }
        ensures sound { IsSound (host self.new) };

    /// A copy of the host. What it costs is the kernel's own to say.
    fn host(&self, alloc: Global) -> Result<Host, NoMemory>
        ensures copy { IfOk result (λ h. h ≡ host self.now) }
        ensures sound { IsSound (host self.now) };
}
