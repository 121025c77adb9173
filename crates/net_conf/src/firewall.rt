//! The `firewall` plugin.

ghost use Rattle.std.specs.Prelude.{◌≡◌, false};
ghost use Rattle.serde_json.specs.View.{view};
ghost use Rattle.serde_json.specs.Written.{has_float};
ghost use Rattle.cni_json.specs.Outcome.{Gives};
ghost use Rattle.net_conf.specs.Accepted as accepted;
ghost use Rattle.net_conf.specs.Firewall as defined;
ghost use Rattle.net_conf.specs.Refusals.{is_out_of_memory};

use crate::accepted::{Accepted, all_supported};
use crate::chained::FirewallConf;
use crate::error::ConfError;
use cni_json::Value;
use std::alloc::Global;

/// The configuration of the `firewall` plugin, from its object in a list.
#[tactic(auto, using(cni_json::proofs::Steps::steps), unfolding(crate::specs::Firewall::firewall_at))]
pub fn firewall(alloc: Global, object: &Value) -> Result<FirewallConf, ConfError>
    requires { has_float (view object.now) ≡ false }
    ensures { Gives is_out_of_memory result (defined.firewall_at (view object.now)) }
{
    firewall_supported(alloc, object)?;
    Ok(FirewallConf)
}

fn firewall_supported(alloc: Global, object: &Value) -> Result<(), ConfError>
    requires { has_float (view object.now) ≡ false }
    ensures { Gives is_out_of_memory result (accepted.all_supported defined.firewall_rows (view object.now)) }
{
    all_supported(
        alloc,
        object,
        &[
            ("backend", Accepted::Backend),
            ("iptablesAdminChainName", Accepted::AnyText),
            ("ingressPolicy", Accepted::OpenPolicy),
        ],
    )
}
