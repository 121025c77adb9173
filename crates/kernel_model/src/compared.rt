//! Objects that are compared as a whole.

ghost use Rattle.std.specs.Prelude.{◌≡◌};
ghost use Rattle.std.specs.List.{list_any};

use cni_addr::RefCounted;
use kernel_types::{AddrObj, Lease, Link, RouteObj, Rule, Setting};

/// An object that is compared as a whole. Its test is the one that the calls are defined by.
pub(crate) trait Compared {
    ghost use Rattle.std.specs.Prelude.{Bool};

    ghost same: { Self → Self → Bool };

    fn is_same(&self, other: &Self) -> bool
        ensures { result ≡ same self.now other.now };
}

impl Compared for Link {
    ghost use Rattle.kernel_types.specs.Equal.{link_eq};

    ghost same = { link_eq };

    fn is_same(&self, other: &Link) -> bool {
        self == other
    }
}

impl Compared for AddrObj {
    ghost use Rattle.kernel_types.specs.Equal.{addr_obj_eq};

    ghost same = { addr_obj_eq };

    fn is_same(&self, other: &AddrObj) -> bool {
        self == other
    }
}

impl Compared for RouteObj {
    ghost use Rattle.kernel_types.specs.Equal.{route_eq};

    ghost same = { route_eq };

    fn is_same(&self, other: &RouteObj) -> bool {
        self == other
    }
}

impl Compared for RefCounted<Rule> {
    ghost use Rattle.kernel_types.specs.Equal.{rule_eq};

    ghost same = { rule_eq };

    fn is_same(&self, other: &RefCounted<Rule>) -> bool {
        self == other
    }
}

impl Compared for Setting {
    ghost use Rattle.kernel_types.specs.Equal.{setting_eq};

    ghost same = { setting_eq };

    fn is_same(&self, other: &Setting) -> bool {
        self == other
    }
}

impl Compared for Lease {
    ghost use Rattle.kernel_types.specs.Equal.{lease_eq};

    ghost same = { lease_eq };

    fn is_same(&self, other: &Lease) -> bool {
        self == other
    }
}

/// Whether an equal object is there.
pub(crate) fn contains<T: Compared>(objects: &[T], object: &T) -> bool
    ensures { result ≡ list_any (λ x. T.same x object.now) objects.now }
{
    objects.iter().any(|x| x.is_same(object))
}
