//! The gateways of routes that name none.

ghost use Rattle.std.specs.Prelude.{◌≡◌};
ghost use Rattle.plugin_base.specs.Families as families;

use crate::families::first_given;
use cni_addr::{Addr, Family};
use kernel_types::Given;
use std::marker::Model;

/// The given addresses, with the gateway of each family's first one found once. Contracts see the addresses.
#[derive(Drop)]
pub struct Gateways<'a> {
    given: &'a [Given],
    v4: Option<Addr>,
    v6: Option<Addr>,
}

impl<'a> Model for Gateways<'a> {
    ghost use Rattle.std.specs.Prelude.{◌≡◌, List};
    ghost use Rattle.cni_addr.specs.declared.address.Family.TheVariants.{V4, V6};
    ghost use Rattle.kernel_types.specs.declared.call.Given.{Given};
    ghost use Rattle.plugin_base.specs.Families.{family_gateway};

    ghost Value = { List Given };

    ghost view = { λ g. g.given.now };

    ghost invariant = { λ g. (g.v4 ≡ family_gateway V4 g.given.now) × (g.v6 ≡ family_gateway V6 g.given.now) };
}

fn family_gateway(given: &[Given], family: Family) -> Option<Addr>
    ensures { result ≡ families.family_gateway family given.now }
{
    first_given(given, family).map(|g| g.gateway)
}

impl<'a> Gateways<'a> {
    /// Those of the given addresses. Takes no memory; linear in the addresses.
    pub fn of(given: &'a [Given]) -> Gateways<'a>
        ensures { result ≡ given.now }
    {
        Gateways {
            given,
            v4: family_gateway(given, Family::V4),
            v6: family_gateway(given, Family::V6),
        }
    }

    /// The gateway of the first given address of the family.
    pub fn of_family(&self, family: Family) -> Option<Addr>
        ensures { result ≡ families.family_gateway family self.now }
    {
        match family {
            Family::V4 => self.v4,
            Family::V6 => self.v6,
        }
    }
}
