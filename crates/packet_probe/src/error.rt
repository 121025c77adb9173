//! Why a packet file is refused.

ghost use Rattle.std.specs.Prelude.{◌≡◌};
ghost use Rattle.std.proofs.Common.{rules};
ghost use Rattle.packet_probe.specs.Refusals.{is_out_of_memory};
ghost use Rattle.packet_probe.specs.declared.error.PacketsError.TheVariants as refusal;

use cni_addr::NoMemory;
use cni_json::Refusal;

/// Why a packet file is refused: the first cause in this order.
#[derive(Clone, Copy, Debug, PartialEq, Eq)]
pub enum PacketsError {
    /// The bytes are no JSON text.
    Decode,
    /// A number is no whole number of 64 bits.
    Number,
    /// There is no list, or one of more than 65,536 members.
    List,
    /// The member at this place, from 0, is no packet: it is the first that isn't.
    Packet { at: u32 },
    /// Memory ran out.
    NoMemory,
}

impl From<NoMemory> for PacketsError {
    ghost from_gives = { λ _ e. e ≡ refusal.NoMemory };

    fn from(_refused: NoMemory) -> PacketsError {
        PacketsError::NoMemory
    }
}

impl Refusal for PacketsError {
    ghost is_out_of_memory = { is_out_of_memory };

    ghost tells_out_of_memory = { λ n e is. Prim.search rules };
}
