//! A table of objects in the order in which they came, that finds each by its key and by its alias, and leads to those
//! of an owner, of a network and at a site.

ghost use Rattle.std.specs.Prelude.{◌≡◌, ◌&&◌, ◌++◌, ◌∷◌, [], false, find, filter, map, not, if◌then◌else◌, Some};
ghost use Rattle.std.specs.Prelude.{IfOk, OnOk, OnErr};
ghost use Rattle.std.specs.List.{list_any, filter_map};
ghost use Rattle.std.specs.Option.{option_copied, option_map, option_to_list};
ghost use Rattle.std.specs.Str.{bytes_eq};
ghost use Rattle.cni_addr.specs.Lists.{each_key_once, without_first};
ghost use Rattle.object_tables.specs.Table.{has_key, has_same_key, HasEachKeyOnce};
ghost use Rattle.object_tables.specs.Places.{at_first};

use crate::groups::{AtSite, OfNetwork, OfOwner, Within};
use crate::indexes::{first_place, is_keyed_at, note_group, note_place, note_unless_there, tidy};
use crate::keyed::{KeyedMap, KeyedState};
use crate::row::{Change, Row, Test};
use crate::walks::{any_along, copied, empty_along, owners_in, row_at};
use cni_addr::{Duplicate, Items, NoMemory, Text};
use std::alloc::Global;
use std::collections::VecDeque;
use std::hash::Hash;
use std::marker::{Model, PhantomData};

/// Rows at places, which they keep, with indexes of their places. A row that goes leaves its place empty, and the
/// indexes as they are: what they say of an empty place is ignored, and a trail forgets it where it is next walked.
#[derive(Drop)]
pub struct Table<
    K: Eq + Hash + Drop,
    L: Eq + Hash + Drop,
    O: Eq + Hash + Drop,
    P: Eq + Hash + Drop,
    T: Row<K, L, O, P> + Drop,
> {
    places: Vec<Option<T>>,
    by_key: KeyedMap<K, usize>,
    by_alias: KeyedMap<L, usize>,
    trails: KeyedMap<O, VecDeque<usize>>,
    networks: KeyedMap<Text, VecDeque<usize>>,
    sites: KeyedMap<P, VecDeque<usize>>,
}

impl<
    K: Eq + Hash + Drop,
    L: Eq + Hash + Drop,
    O: Eq + Hash + Drop,
    P: Eq + Hash + Drop,
    T: Row<K, L, O, P> + Drop,
> Model for Table<K, L, O, P, T> {
    ghost use Rattle.std.specs.Prelude.{List};
    ghost use Rattle.std.specs.Str.{bytes_eq};
    ghost use Rattle.object_tables.specs.Places.{rows_of};
    ghost use Rattle.object_tables.specs.Table.{IsIndex, AreTrails};

    ghost Value = { List T };

    ghost view = { λ t. rows_of t.places.items };

    ghost invariant = { λ t. IsIndex K.eq T.key_of t.places.items t.by_key
        × IsIndex L.eq T.alias_of t.places.items t.by_alias
        × AreTrails O.eq T.owner_of t.places.items t.trails
        × AreTrails bytes_eq T.network_of t.places.items t.networks
        × AreTrails P.eq T.site_of t.places.items t.sites };
}

/// The row at the place that is noted, if there is one.
fn row_noted<T>(places: &[Option<T>], place: Option<usize>) -> Option<&T>
    ensures { option_copied result ≡ at_first places.now (option_to_list place) }
{
    match place {
        Some(place) => row_at(places, place),
        None => None,
    }
}

impl<
    K: Eq + Hash + Drop,
    L: Eq + Hash + Drop,
    O: Eq + Hash + Duplicate + Drop,
    P: Eq + Hash + Drop,
    T: Row<K, L, O, P> + Drop,
> Table<K, L, O, P, T> {
    /// A table without rows. Takes no memory.
    pub fn new(alloc: Global, state: KeyedState) -> Table<K, L, O, P, T>
        ensures { result ≡ [] }
    {
        Table {
            places: Vec::new(alloc),
            by_key: KeyedMap::with_hasher(alloc, state),
            by_alias: KeyedMap::with_hasher(alloc, state),
            trails: KeyedMap::with_hasher(alloc, state),
            networks: KeyedMap::with_hasher(alloc, state),
            sites: KeyedMap::with_hasher(alloc, state),
        }
    }

    /// The table of these rows.
    pub fn of_rows(
        alloc: Global,
        state: KeyedState,
        rows: Items<T>,
    ) -> Result<Table<K, L, O, P, T>, NoMemory>
        requires keys { HasEachKeyOnce K.eq T.key_of rows }
        requires aliases { HasEachKeyOnce L.eq T.alias_of rows }
        ensures { IfOk result (λ table. table ≡ rows) }
    {
        let mut table = Table::new(alloc, state);
        for row in rows.into_vec() {
            table.push(alloc, row)?;
        }
        Ok(table)
    }

    /// The row of this key.
    pub fn find(&self, key: &K) -> Option<&T>
        ensures { option_copied result ≡ find (has_key K.eq T.key_of key.now) self.now }
    {
        match row_noted(&self.places, self.by_key.get(key).copied()) {
            Some(row) if row.has_key(key) => Some(row),
            _ => None,
        }
    }

    /// The row of this alias.
    pub fn find_alias(&self, alias: &L) -> Option<&T>
        ensures { option_copied result ≡ find (has_key L.eq T.alias_of alias.now) self.now }
    {
        match row_noted(&self.places, self.by_alias.get(alias).copied()) {
            Some(row) if row.has_alias(alias) => Some(row),
            _ => None,
        }
    }

    /// Puts a row at the end.
    pub fn push(&mut self, alloc: Global, row: T) -> Result<(), NoMemory>
        requires key { (key : K) → T.key_of row ≡ Some key → list_any (has_key K.eq T.key_of key) self.old ≡ false }
        requires alias { (alias : L) → T.alias_of row ≡ Some alias
            → list_any (has_key L.eq T.alias_of alias) self.old ≡ false }
        ensures ok { OnOk result (self.new ≡ self.old ++ row ∷ []) }
        ensures err { OnErr result (self.new ≡ self.old) }
    {
        self.push_unless_there(alloc, row)?;
        Ok(())
    }

    /// Puts a row at the end unless one of its key is there, and says whether it did. A new key is hashed once.
    pub fn push_unless_there(&mut self, alloc: Global, row: T) -> Result<bool, NoMemory>
        requires alias { (alias : L) → T.alias_of row ≡ Some alias
            → list_any (has_key L.eq T.alias_of alias) self.old ≡ false }
        ensures new { IfOk result (λ is_new. is_new ≡ not (list_any (has_same_key K.eq T.key_of row) self.old)) }
        ensures ok { IfOk result (λ is_new. self.new ≡ (if is_new then self.old ++ row ∷ [] else self.old)) }
        ensures err { OnErr result (self.new ≡ self.old) }
    {
        let key = row.key()?;
        let alias = row.alias()?;
        let owner = copied(row.owner())?;
        let network = copied(row.network())?;
        let site = row.site()?;
        let place = self.places.len();
        self.places.push(None)?;
        if !note_unless_there(&self.places, &mut self.by_key, key, place)? {
            self.places.pop();
            return Ok(false);
        }
        note_place(&mut self.by_alias, alias, place)?;
        note_group(alloc, &mut self.trails, owner, place)?;
        note_group(alloc, &mut self.networks, network, place)?;
        note_group(alloc, &mut self.sites, site, place)?;
        self.places[place] = Some(row);
        Ok(true)
    }

    /// Whether a row is this owner's.
    pub fn has_owned(&mut self, owner: &O) -> bool
        ensures found { result ≡ list_any (has_key O.eq T.owner_of owner.now) self.old }
        ensures same { self.new ≡ self.old }
    {
        let group = OfOwner {
            owner,
            row: PhantomData,
        };
        first_place(&self.places, &mut self.trails, owner, &group).is_some()
    }

    /// Takes the first row of this owner out.
    pub fn take_first_owned(&mut self, owner: &O) -> Option<T>
        ensures first { result ≡ find (has_key O.eq T.owner_of owner.now) self.old }
        ensures rest { self.new ≡ without_first (has_key O.eq T.owner_of owner.now) self.old }
    {
        let group = OfOwner {
            owner,
            row: PhantomData,
        };
        match first_place(&self.places, &mut self.trails, owner, &group) {
            Some(place) => self.places[place].take(),
            None => None,
        }
    }

    /// Takes the first row at this site out.
    pub fn take_first_at(&mut self, site: &P) -> Option<T>
        ensures first { result ≡ find (has_key P.eq T.site_of site.now) self.old }
        ensures rest { self.new ≡ without_first (has_key P.eq T.site_of site.now) self.old }
    {
        let group = AtSite {
            site,
            row: PhantomData,
        };
        match first_place(&self.places, &mut self.sites, site, &group) {
            Some(place) => self.places[place].take(),
            None => None,
        }
    }

    /// Takes each row at this site out.
    pub fn remove_at(&mut self, site: &P)
        ensures { self.new ≡ filter (λ row. not (has_key P.eq T.site_of site.now row)) self.old }
    {
        while let Some(row) = self.take_first_at(site) {
            drop(row);
        }
    }

    /// Takes the row of this key out.
    pub fn take(&mut self, key: &K) -> Option<T>
        ensures row { result ≡ find (has_key K.eq T.key_of key.now) self.old }
        ensures rest { self.new ≡ filter (λ row. not (has_key K.eq T.key_of key.now row)) self.old }
    {
        match self.by_key.get(key).copied() {
            Some(place) if is_keyed_at(&self.places, place, key) => self.places[place].take(),
            _ => None,
        }
    }

    /// Changes the row of this key in place. The change leaves all that rows are found by as it is.
    pub fn update<C: Change<T>>(&mut self, key: &K, change: &C)
        requires key { (row : T) → T.key_of (C.changed change.now row) ≡ T.key_of row }
        requires alias { (row : T) → T.alias_of (C.changed change.now row) ≡ T.alias_of row }
        requires owner { (row : T) → T.owner_of (C.changed change.now row) ≡ T.owner_of row }
        requires network { (row : T) → T.network_of (C.changed change.now row) ≡ T.network_of row }
        requires site { (row : T) → T.site_of (C.changed change.now row) ≡ T.site_of row }
        ensures { self.new
            ≡ map (λ row. if has_key K.eq T.key_of key.now row then C.changed change.now row else row) self.old }
    {
        if let Some(place) = self.by_key.get(key).copied() {
            change_if(&mut self.places[place], key, change);
        }
    }

    /// A copy of the rows, of as many steps as there ever were rows.
    pub fn copies(&self, alloc: Global) -> Result<Items<T>, NoMemory>
    where
        T: Duplicate,
        ensures { IfOk result (λ rows. rows ≡ self.now) }
    {
        let mut rows = Items::new(alloc);
        for place in self.places.iter() {
            push_copy(&mut rows, place)?;
        }
        Ok(rows)
    }

    /// The owners of the rows of this network, each once, in the order of their first rows. It takes a step for each of
    /// these rows, and for each that went since it was last asked.
    pub fn owners(&mut self, alloc: Global, network: &Text) -> Result<Items<O>, NoMemory>
        ensures ok { IfOk result (λ owners. owners ≡ each_key_once O.eq
            (filter_map T.owner_of (filter (has_key bytes_eq T.network_of network.now) self.old))) }
        ensures same { self.new ≡ self.old }
    {
        let group = OfNetwork {
            network,
            row: PhantomData,
        };
        tidy(&self.places, &mut self.networks, network, &group);
        owners_in(alloc, &self.places, &self.networks, network)
    }

    /// Whether a row of this owner passes a test. Linear in the rows of the owner.
    pub fn any_owned<Q: Test<T> + Drop>(&self, owner: &O, test: &Q) -> bool
        ensures { result ≡ list_any (λ row. has_key O.eq T.owner_of owner.now row && Q.passes test.now row) self.now }
    {
        let group = OfOwner {
            owner,
            row: PhantomData,
        };
        let within = Within {
            group: &group,
            test,
        };
        match self.trails.get(owner) {
            Some(trail) => any_along(&self.places, trail, &within),
            None => false,
        }
    }

    /// Whether a row at this site passes a test. Linear in the rows that ever were at the site.
    pub fn any_at<Q: Test<T> + Drop>(&self, site: &P, test: &Q) -> bool
        ensures { result ≡ list_any (λ row. has_key P.eq T.site_of site.now row && Q.passes test.now row) self.now }
    {
        let group = AtSite {
            site,
            row: PhantomData,
        };
        let within = Within {
            group: &group,
            test,
        };
        match self.sites.get(site) {
            Some(trail) => any_along(&self.places, trail, &within),
            None => false,
        }
    }

    /// Takes out each row of this owner that passes a test. Linear in the rows of the owner.
    pub fn remove_owned<Q: Test<T> + Drop>(&mut self, owner: &O, gone: &Q)
        ensures { self.new
            ≡ filter (λ row. not (has_key O.eq T.owner_of owner.now row && Q.passes gone.now row)) self.old }
    {
        let group = OfOwner {
            owner,
            row: PhantomData,
        };
        let within = Within {
            group: &group,
            test: gone,
        };
        if let Some(trail) = self.trails.get(owner) {
            empty_along(&mut self.places, trail, &within);
        }
    }
}

/// Changes the row at a place, if it has this key.
fn change_if<K: Eq, L: Eq, O: Eq, P: Eq, T: Row<K, L, O, P>, C: Change<T>>(
    place: &mut Option<T>,
    key: &K,
    change: &C,
)
    ensures { place.new
        ≡ option_map (λ row. if has_key K.eq T.key_of key.now row then C.changed change.now row else row) place.old }
{
    if let Some(row) = place {
        if row.has_key(key) {
            change.change(row);
        }
    }
}

/// Adds a copy of the row at a place, if there is one.
fn push_copy<T: Duplicate + Drop>(rows: &mut Items<T>, place: &Option<T>) -> Result<(), NoMemory>
    ensures { OnOk result (rows.new ≡ rows.old ++ option_to_list place.now) }
{
    if let Some(row) = place {
        rows.push(row.copy()?)?;
    }
    Ok(())
}
