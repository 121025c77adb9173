//! Why a plugin refuses what it is asked.

ghost use Rattle.std.specs.Prelude.{◌≡◌};
ghost use Rattle.std.proofs.Common.{rules};
ghost use Rattle.exec_protocol.specs.Refusals.{conf_refusal, is_out_of_memory, prev_refusal};
ghost use Rattle.exec_protocol.specs.declared.error.RequestError.TheVariants as refusal;

use cni_addr::{NoMemory, Text};
use cni_json::Refusal;
use cni_result::ResultError;
use net_conf::ConfError;

/// Why a plugin refuses what it is asked: the first cause, where the words come before the request.
#[derive(PartialEq, Eq, Drop)]
pub enum RequestError {
    /// These environment variables are wrong, with `, ` between their names. `CNI_COMMAND` stands alone: only a known
    /// command tests the others.
    Env { names: Text },
    /// The request is wrong, and not by the result in it.
    Conf(ConfError),
    /// The result in the request is wrong.
    Prev(ResultError),
    /// Memory ran out.
    NoMemory,
}

impl From<NoMemory> for RequestError {
    ghost from_gives = { λ _ e. e ≡ refusal.NoMemory };

    fn from(_refused: NoMemory) -> RequestError {
        RequestError::NoMemory
    }
}

impl From<ConfError> for RequestError {
    ghost from_gives = { λ refused e. e ≡ conf_refusal refused };

    fn from(refused: ConfError) -> RequestError {
        match refused {
            ConfError::NoMemory => RequestError::NoMemory,
            other => RequestError::Conf(other),
        }
    }
}

impl From<ResultError> for RequestError {
    ghost from_gives = { λ refused e. e ≡ prev_refusal refused };

    fn from(refused: ResultError) -> RequestError {
        match refused {
            ResultError::NoMemory => RequestError::NoMemory,
            other => RequestError::Prev(other),
        }
    }
}

impl Refusal for RequestError {
    ghost is_out_of_memory = { is_out_of_memory };

    ghost tells_out_of_memory = { λ n e is. Prim.search rules };
}
