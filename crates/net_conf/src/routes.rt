//! Configured routes.

ghost use Rattle.std.specs.Prelude.{codes};
ghost use Rattle.serde_json.specs.View.{view};
ghost use Rattle.cni_json.specs.Outcome.{Gives, TellsAs};
ghost use Rattle.net_conf.specs.Routes as routes;
ghost use Rattle.net_conf.specs.Refusals.{is_out_of_memory};
ghost use Rattle.net_conf.specs.declared.error.ConfError.TheVariants as refusal;

use crate::error::{ConfError, invalid};
use crate::members::addr_if;
use cni_addr::{Addr, Cidr, Family, Items, network_of, read_cidr};
use cni_json::{Field, Value, field_str, read_list_or};
use cni_result::RouteEntry;
use std::alloc::Global;

/// The routes, none where there is no list of them.
#[tactic(auto, using(cni_json::proofs::Steps::steps), unfolding(crate::specs::Routes::routes_at))]
pub fn routes(alloc: Global, object: &Value) -> Result<Items<RouteEntry>, ConfError>
    ensures { Gives is_out_of_memory result (routes.routes_at (view object.now)) }
{
    read_list_or(
        alloc,
        object,
        "routes",
        || wrong(alloc),
        |member| route(alloc, member),
    )
}

#[tactic(auto, using(cni_json::proofs::Steps::steps), unfolding(crate::specs::Routes::route_at))]
fn route(alloc: Global, member: &Value) -> Result<RouteEntry, ConfError>
    ensures { Gives is_out_of_memory result (routes.route_at (view member.now)) }
{
    let dst = destination(alloc, member)?;
    let gw = hop(alloc, member, dst.addr.family)?;
    Ok(RouteEntry { dst, gw })
}

#[tactic(auto, using(cni_json::proofs::Steps::steps), unfolding(crate::specs::Routes::destination_at))]
fn destination(alloc: Global, member: &Value) -> Result<Cidr, ConfError>
    ensures { Gives is_out_of_memory result (routes.destination_at (view member.now)) }
{
    let Field::Here(text) = field_str(member, "dst") else {
        return Err(wrong(alloc));
    };
    read_cidr(text.as_bytes())
        .map(|cidr| network_of(&cidr))
        .ok_or_else(|| wrong(alloc))
}

fn hop(alloc: Global, member: &Value, family: Family) -> Result<Option<Addr>, ConfError>
    ensures { Gives is_out_of_memory result (routes.hop_at family (view member.now)) }
{
    addr_if(alloc, member, "routes", "gw", |addr| addr.family == family)
}

fn wrong(alloc: Global) -> ConfError
    ensures { TellsAs is_out_of_memory result (refusal.Invalid (codes "routes")) }
{
    invalid(alloc, "routes")
}
