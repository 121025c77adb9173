//! What a configuration says of its addresses, also one that gives none. Nothing here takes memory.

ghost use Rattle.std.specs.Prelude.{◌≡◌};
ghost use Rattle.std.specs.Option.{option_copied};
ghost use Rattle.host_local.specs.Conf.{routes_of};

use cni_result::RouteEntry;
use net_conf::HostLocalConf;

/// The configured routes; none where no addresses are given.
pub fn routes_of(ipam: Option<&HostLocalConf>) -> &[RouteEntry]
    ensures { result.now ≡ routes_of (option_copied ipam.entry) }
{
    match ipam {
        Some(conf) => conf.routes.as_slice(),
        None => &[],
    }
}
