//! The groups of rows that a table leads to: those of an owner, of a network, and at a site.

use crate::row::{Row, Test};
use cni_addr::Text;
use std::marker::PhantomData;

/// The rows of an owner.
#[derive(Drop)]
pub(crate) struct OfOwner<'a, K, L, O, P> {
    pub(crate) owner: &'a O,
    pub(crate) row: PhantomData<(K, L, P)>,
}

impl<K: Eq, L: Eq, O: Eq, P: Eq, T: Row<K, L, O, P>> Test<T> for OfOwner<'_, K, L, O, P> {
    ghost use Rattle.object_tables.specs.Table.{has_key};

    ghost passes = { λ group row. has_key O.eq T.owner_of group.owner.now row };

    fn passes(&self, row: &T) -> bool {
        row.is_owned_by(self.owner)
    }
}

/// The rows of a network.
#[derive(Drop)]
pub(crate) struct OfNetwork<'a, K, L, O, P> {
    pub(crate) network: &'a Text,
    pub(crate) row: PhantomData<(K, L, O, P)>,
}

impl<K: Eq, L: Eq, O: Eq, P: Eq, T: Row<K, L, O, P>> Test<T> for OfNetwork<'_, K, L, O, P> {
    ghost use Rattle.std.specs.Str.{bytes_eq};
    ghost use Rattle.object_tables.specs.Table.{has_key};

    ghost passes = { λ group row. has_key bytes_eq T.network_of group.network.now row };

    fn passes(&self, row: &T) -> bool {
        row.is_in_network(self.network)
    }
}

/// The rows at a site.
#[derive(Drop)]
pub(crate) struct AtSite<'a, K, L, O, P> {
    pub(crate) site: &'a P,
    pub(crate) row: PhantomData<(K, L, O)>,
}

impl<K: Eq, L: Eq, O: Eq, P: Eq, T: Row<K, L, O, P>> Test<T> for AtSite<'_, K, L, O, P> {
    ghost use Rattle.object_tables.specs.Table.{has_key};

    ghost passes = { λ group row. has_key P.eq T.site_of group.site.now row };

    fn passes(&self, row: &T) -> bool {
        row.is_at(self.site)
    }
}

/// The rows of a group that pass a test.
#[derive(Drop)]
pub(crate) struct Within<'a, G, Q> {
    pub(crate) group: &'a G,
    pub(crate) test: &'a Q,
}

impl<T, G: Test<T>, Q: Test<T>> Test<T> for Within<'_, G, Q> {
    ghost use Rattle.std.specs.Prelude.{◌&&◌};

    ghost passes = { λ both row. G.passes both.group.now row && Q.passes both.test.now row };

    fn passes(&self, row: &T) -> bool {
        self.group.passes(row) && self.test.passes(row)
    }
}
