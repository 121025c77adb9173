//! Addresses of a family.

ghost use Rattle.std.specs.Prelude.{◌≡◌};
ghost use Rattle.std.specs.Option.{option_copied};
ghost use Rattle.plugin_base.specs.Families as families;

use cni_addr::{Cidr, Family};
use cni_result::IpEntry;
use kernel_types::Given;

fn is_of_family(address: &Cidr, family: Family) -> bool
    ensures { result ≡ families.is_of_family family address.now }
{
    address.addr.family == family
}

/// The first address of the family. Takes no memory, and the time of those before it.
pub fn first_of_family<'a>(ips: &'a [IpEntry], family: Family) -> Option<&'a IpEntry>
    ensures { option_copied result ≡ families.first_of_family family ips.now }
{
    ips.iter().find(|ip| is_of_family(&ip.address, family))
}

/// The first given address of the family. Takes no memory, and the time of those before it.
pub fn first_given<'a>(given: &'a [Given], family: Family) -> Option<&'a Given>
    ensures { option_copied result ≡ families.first_given family given.now }
{
    given.iter().find(|g| is_of_family(&g.address, family))
}

/// Whether an address of the family is given. Takes no memory, and the time of those before the first.
pub fn has_family(given: &[Given], family: Family) -> bool
    ensures { result ≡ families.has_family family given.now }
{
    given.iter().any(|g| is_of_family(&g.address, family))
}
