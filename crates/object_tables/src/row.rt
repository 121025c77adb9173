//! What a table asks of its rows.

use cni_addr::{NoMemory, Text};

/// An object of a table. It may have a key, an alias as a second key, an owner, a network and a site. No two objects of
/// a table have the same key or alias; an owner, a network and a site may have many.
pub trait Row<K: Eq, L: Eq, O: Eq, P: Eq> {
    ghost use Rattle.std.specs.Prelude.{ℕ, List, Option, ◌≡◌, Bool, IfOk};
    ghost use Rattle.std.specs.Option.{option_copied};
    ghost use Rattle.std.specs.Str.{bytes_eq};
    ghost use Rattle.object_tables.specs.Table.{has_key};

    ghost key_of: { Self → Option K };

    ghost alias_of: { Self → Option L };

    ghost owner_of: { Self → Option O };

    ghost network_of: { Self → Option (List ℕ) };

    ghost site_of: { Self → Option P };

    /// A copy of the key.
    fn key(&self) -> Result<Option<K>, NoMemory>
        ensures { IfOk result (λ key. key ≡ key_of self.now) };

    /// A copy of the alias.
    fn alias(&self) -> Result<Option<L>, NoMemory>
        ensures { IfOk result (λ alias. alias ≡ alias_of self.now) };

    /// The owner, if it has one.
    fn owner(&self) -> Option<&O>
        ensures { option_copied result ≡ owner_of self.now };

    /// The network, if it has one.
    fn network(&self) -> Option<&Text>
        ensures { option_copied result ≡ network_of self.now };

    /// A copy of the site.
    fn site(&self) -> Result<Option<P>, NoMemory>
        ensures { IfOk result (λ site. site ≡ site_of self.now) };

    /// Whether this is its key.
    fn has_key(&self, key: &K) -> bool
        ensures { result ≡ has_key K.eq key_of key.now self.now };

    /// Whether this is its alias.
    fn has_alias(&self, alias: &L) -> bool
        ensures { result ≡ has_key L.eq alias_of alias.now self.now };

    /// Whether this is its owner.
    fn is_owned_by(&self, owner: &O) -> bool
        ensures { result ≡ has_key O.eq owner_of owner.now self.now }
    {
        match self.owner() {
            Some(own) => own == owner,
            None => false,
        }
    }

    /// Whether this is its network.
    fn is_in_network(&self, network: &Text) -> bool
        ensures { result ≡ has_key bytes_eq network_of network.now self.now }
    {
        match self.network() {
            Some(own) => own == network,
            None => false,
        }
    }

    /// Whether this is its site.
    fn is_at(&self, site: &P) -> bool
        ensures { result ≡ has_key P.eq site_of site.now self.now };
}

/// A test of rows.
pub trait Test<T> {
    ghost use Rattle.std.specs.Prelude.{Bool, ◌≡◌};

    ghost passes: { Self → T → Bool };

    /// Whether the row passes.
    fn passes(&self, row: &T) -> bool
        ensures { result ≡ passes self.now row.now };
}

/// A change of a row in place.
pub trait Change<T> {
    ghost use Rattle.std.specs.Prelude.{◌≡◌};

    ghost changed: { Self → T → T };

    /// Makes the change.
    fn change(&self, row: &mut T)
        ensures { row.new ≡ changed self.now row.old };
}
