//! The `ptp` plugin.

ghost use Rattle.std.specs.Prelude.{◌≡◌, codes, false, ok_or};
ghost use Rattle.serde_json.specs.View.{view};
ghost use Rattle.serde_json.specs.Written.{has_float};
ghost use Rattle.cni_json.specs.Outcome.{Gives};
ghost use Rattle.net_conf.specs.Ptp as defined;
ghost use Rattle.net_conf.specs.Refusals.{is_out_of_memory};
ghost use Rattle.net_conf.specs.declared.error.ConfError.TheVariants as refusal;

use crate::error::{ConfError, invalid};
use crate::first::{HostLocalConf, PtpConf};
use crate::ipam::addressing_of;
use crate::members::{flag, mtu};
use cni_json::Value;
use std::alloc::Global;

/// The configuration of the `ptp` plugin, from its object in a list.
#[tactic(auto, using(cni_json::proofs::Steps::steps), unfolding(crate::specs::Ptp::ptp_at))]
pub fn ptp(alloc: Global, object: &Value) -> Result<PtpConf, ConfError>
    requires { has_float (view object.now) ≡ false }
    ensures { Gives is_out_of_memory result (defined.ptp_at (view object.now)) }
{
    let ip_masq = flag(alloc, object, "ipMasq", false)?;
    let mtu = mtu(alloc, object)?;
    let addressing = addressing_of(alloc, object)?;
    let ipam = ipam_or_refused(alloc, addressing.ipam)?;
    Ok(PtpConf {
        ip_masq,
        mtu,
        ipam,
        dns: addressing.dns,
    })
}

#[tactic(auto, using(cni_json::proofs::Steps::steps))]
fn ipam_or_refused(alloc: Global, ipam: Option<HostLocalConf>) -> Result<HostLocalConf, ConfError>
    ensures { Gives is_out_of_memory result (ok_or ipam (refusal.Invalid (codes "ipam"))) }
{
    ipam.ok_or_else(|| invalid(alloc, "ipam"))
}
