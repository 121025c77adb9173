//! Walks along a trail.

ghost use Rattle.std.specs.Prelude.{◌≡◌, set, fold, IfOk, OnOk};
ghost use Rattle.std.specs.List.{filter_map, list_any};
ghost use Rattle.std.specs.Option.{option_copied, option_to_list};
ghost use Rattle.std.specs.Str.{bytes_eq};
ghost use Rattle.cni_addr.specs.Lists.{each_key_once, push_unless_there};
ghost use Rattle.object_tables.specs.Places.{emptied, emptied_at, passes, row_at, rows_at};
ghost use Rattle.object_tables.specs.Trails.{trail_of};

use crate::indexes::passes_at;
use crate::keyed::{KeyedMap, KeyedState};
use crate::row::{Row, Test};
use cni_addr::{Duplicate, Items, NoMemory, Text};
use indexmap::IndexSet;
use std::alloc::Global;
use std::collections::VecDeque;
use std::hash::Hash;

/// The row at a place, if there is one.
pub(crate) fn row_at<T>(places: &[Option<T>], place: usize) -> Option<&T>
    ensures { option_copied result ≡ row_at places.now place }
{
    match places.get(place) {
        Some(Some(row)) => Some(row),
        _ => None,
    }
}

/// A copy of what is there.
pub(crate) fn copied<T: Duplicate>(value: Option<&T>) -> Result<Option<T>, NoMemory>
    ensures { IfOk result (λ twin. twin ≡ option_copied value.entry) }
{
    match value {
        Some(value) => Ok(Some(value.copy()?)),
        None => Ok(None),
    }
}

/// Empties each place of the trail whose row passes.
pub(crate) fn empty_along<T: Drop, Q: Test<T>>(
    places: &mut Vec<Option<T>>,
    trail: &VecDeque<usize>,
    gone: &Q,
)
    ensures { places.new.items ≡ emptied_at (Q.passes gone.now) places.old.items trail.now.items }
{
    for index in 0..trail.len() {
        empty_at(places, trail[index], gone);
    }
}

/// Empties the place if its row passes.
fn empty_at<T: Drop, Q: Test<T>>(places: &mut Vec<Option<T>>, place: usize, gone: &Q)
    ensures { places.new.items
        ≡ set places.old.items place (emptied (Q.passes gone.now) (row_at places.old.items place)) }
{
    if passes_at(places, place, gone) {
        places[place] = None;
    }
}

/// Whether a row at a place of the trail passes.
pub(crate) fn any_along<T, Q: Test<T>>(
    places: &[Option<T>],
    trail: &VecDeque<usize>,
    test: &Q,
) -> bool
    ensures { result ≡ list_any (λ p. passes (Q.passes test.now) (row_at places.now p)) trail.now.items }
{
    trail.iter().any(|place| passes_at(places, *place, test))
}

/// The owners of the rows at the places of the trail, each once, in the order of their first rows.
fn owners_at<K: Eq, L: Eq, O: Eq + Hash + Duplicate + Drop, P: Eq, T: Row<K, L, O, P>>(
    alloc: Global,
    state: KeyedState,
    places: &[Option<T>],
    trail: &VecDeque<usize>,
) -> Result<Items<O>, NoMemory>
    ensures { IfOk result (λ owners. owners
        ≡ each_key_once O.eq (filter_map T.owner_of (rows_at places.now trail.now.items))) }
{
    let mut owners = IndexSet::with_hasher(alloc, state);
    for index in 0..trail.len() {
        add_owner(&mut owners, row_at(places, trail[index]))?;
    }
    let owners: Vec<O> = owners.into_iter().collect(alloc)?;
    Ok(Items::of_vec(owners))
}

/// The owners of the rows to which a network's trail leads, each once, in the order of their first rows.
pub(crate) fn owners_in<K: Eq, L: Eq, O: Eq + Hash + Duplicate + Drop, P: Eq, T: Row<K, L, O, P>>(
    alloc: Global,
    places: &[Option<T>],
    trails: &KeyedMap<Text, VecDeque<usize>>,
    network: &Text,
) -> Result<Items<O>, NoMemory>
    ensures { IfOk result (λ owners. owners
        ≡ each_key_once O.eq (filter_map T.owner_of (rows_at places.now (trail_of bytes_eq trails.now network.now)))) }
{
    match trails.get(network) {
        Some(trail) => owners_at(alloc, *trails.hasher(), places, trail),
        None => Ok(Items::new(alloc)),
    }
}

/// Adds the owner of the row, if it has one that isn't there.
fn add_owner<K: Eq, L: Eq, O: Eq + Hash + Duplicate + Drop, P: Eq, T: Row<K, L, O, P>>(
    owners: &mut IndexSet<O, KeyedState>,
    row: Option<&T>,
) -> Result<(), NoMemory>
    ensures { OnOk result (owners.new.keys ≡ fold (push_unless_there O.eq) owners.old.keys
        (filter_map T.owner_of (option_to_list (option_copied row.entry)))) }
{
    let Some(row) = row else {
        return Ok(());
    };
    if let Some(owner) = copied(row.owner())? {
        owners.insert(owner)?;
    }
    Ok(())
}
