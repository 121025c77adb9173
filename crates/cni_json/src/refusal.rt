//! Errors of readers of members.

ghost use Rattle.std.specs.Prelude.{◌≡◌, Bool, true};
ghost use Rattle.cni_addr.specs.declared.memory.NoMemory.{NoMemory};

use cni_addr::NoMemory;

/// Why a reader gives no value. Some errors say that memory ran out (`is_out_of_memory`), and that which [`NoMemory`]
/// becomes is one of them.
pub trait Refusal: From<NoMemory> {
    ghost is_out_of_memory: { Self → Bool };

    ghost tells_out_of_memory: { (n : NoMemory) (e : Self) → Self.From.from_gives n e → is_out_of_memory e ≡ true };
}
