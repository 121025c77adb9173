//! The indexes of a table: what they note of a place.

ghost use Rattle.std.specs.Prelude.{◌≡◌, ℕ, Option, drop, ◌&&◌, ◌++◌, ◌∷◌, [], not, if◌then◌else◌};
ghost use Rattle.std.specs.Prelude.{IfOk, OnOk, OnErr};
ghost use Rattle.object_tables.specs.Places.{first_of, passes, passing, row_at};
ghost use Rattle.object_tables.specs.Table.{has_key, is_key, is_noted, place_of, AreTrails};
ghost use Rattle.object_tables.specs.Trails.{trail_of};

use crate::keyed::KeyedMap;
use crate::row::{Row, Test};
use cni_addr::NoMemory;
use indexmap::map::Entry;
use std::alloc::Global;
use std::collections::VecDeque;
use std::hash::Hash;

/// Notes the place of a key, if there is one, in place of an earlier.
pub(crate) fn note_place<K: Eq + Hash + Drop>(
    index: &mut KeyedMap<K, usize>,
    key: Option<K>,
    place: usize,
) -> Result<(), NoMemory>
    ensures ok { OnOk result ((q : K) → place_of K.eq index.new q
        ≡ (if is_key K.eq key q then place ∷ [] else place_of K.eq index.old q)) }
    ensures err { OnErr result ((q : K) → place_of K.eq index.new q ≡ place_of K.eq index.old q) }
{
    if let Some(key) = key {
        index.insert(key, place)?;
    }
    Ok(())
}

/// Notes the place of a key, if there is one, unless a row of the key is at the place that is noted. Says whether it is
/// a key of no row. The key is hashed once.
pub(crate) fn note_unless_there<K: Eq + Hash + Drop, L: Eq, O: Eq, P: Eq, T: Row<K, L, O, P>>(
    places: &[Option<T>],
    index: &mut KeyedMap<K, usize>,
    key: Option<K>,
    place: usize,
) -> Result<bool, NoMemory>
    ensures new { IfOk result (λ is_new. is_new ≡ not (is_noted K.eq T.key_of places.now index.old key)) }
    ensures ok { IfOk result (λ is_new. (q : K) → place_of K.eq index.new q
        ≡ (if is_new && is_key K.eq key q then place ∷ [] else place_of K.eq index.old q)) }
    ensures err { OnErr result ((q : K) → place_of K.eq index.new q ≡ place_of K.eq index.old q) }
{
    let Some(key) = key else {
        return Ok(true);
    };
    match index.entry(key)? {
        Entry::Occupied(mut entry) => {
            if is_keyed_at(places, *entry.get(), entry.key()) {
                return Ok(false);
            }
            entry.insert(place);
        }
        Entry::Vacant(entry) => {
            entry.insert(place);
        }
    }
    Ok(true)
}

/// Whether the row at the place is there, and has this key.
pub(crate) fn is_keyed_at<K: Eq, L: Eq, O: Eq, P: Eq, T: Row<K, L, O, P>>(
    places: &[Option<T>],
    place: usize,
    key: &K,
) -> bool
    ensures { result ≡ passes (has_key K.eq T.key_of key.now) (row_at places.now place) }
{
    match places.get(place) {
        Some(Some(row)) => row.has_key(key),
        _ => false,
    }
}

/// Adds a place at the end of a group's trail, if there is one.
pub(crate) fn note_group<G: Eq + Hash + Drop>(
    alloc: Global,
    trails: &mut KeyedMap<G, VecDeque<usize>>,
    group: Option<G>,
    place: usize,
) -> Result<(), NoMemory>
    ensures ok { OnOk result ((q : G) → trail_of G.eq trails.new q
        ≡ (if is_key G.eq group q then trail_of G.eq trails.old q ++ place ∷ [] else trail_of G.eq trails.old q)) }
    ensures err { OnErr result ((q : G) → trail_of G.eq trails.new q ≡ trail_of G.eq trails.old q) }
{
    let Some(group) = group else {
        return Ok(());
    };
    if let Some(trail) = trails.get_mut(&group) {
        trail.push_back(place)?;
        return Ok(());
    }
    let mut trail = VecDeque::new(alloc);
    trail.push_back(place)?;
    trails.insert(group, trail)?;
    Ok(())
}

/// The first place of a trail whose row passes. The places before it are forgotten.
fn first_in<T, Q: Test<T>>(
    places: &[Option<T>],
    trail: &mut VecDeque<usize>,
    test: &Q,
) -> Option<usize>
    ensures first { result ≡ first_of (passing (Q.passes test.now) places.now trail.old.items) }
    ensures rest { passing (Q.passes test.now) places.now trail.new.items
        ≡ passing (Q.passes test.now) places.now trail.old.items }
    ensures kept { (n : ℕ) × (trail.new.items ≡ drop n trail.old.items) }
{
    for _ in 0..trail.len() {
        if let Some(place) = trail.front().copied() {
            if passes_at(places, place, test) {
                return Some(place);
            }
        }
        trail.pop_front();
    }
    None
}

/// Whether the row at the place is there, and passes.
pub(crate) fn passes_at<T, Q: Test<T>>(places: &[Option<T>], place: usize, test: &Q) -> bool
    ensures { result ≡ passes (Q.passes test.now) (row_at places.now place) }
{
    match places.get(place) {
        Some(Some(row)) => test.passes(row),
        _ => false,
    }
}

/// The first place of the group's rows, which are those that pass. The places before it are forgotten.
pub(crate) fn first_place<G: Eq + Hash, T, Q: Test<T>>(
    places: &[Option<T>],
    trails: &mut KeyedMap<G, VecDeque<usize>>,
    group: &G,
    test: &Q,
) -> Option<usize>
    ensures first { result ≡ first_of (passing (Q.passes test.now) places.now (trail_of G.eq trails.old group.now)) }
    ensures trails { (group_of : T → Option G)
        → ((row : T) → Q.passes test.now row ≡ has_key G.eq group_of group.now row)
        → AreTrails G.eq group_of places.now trails.old → AreTrails G.eq group_of places.now trails.new }
{
    match trails.get_mut(group) {
        Some(trail) => first_in(places, trail, test),
        None => None,
    }
}

/// Forgets the places of a trail whose rows don't pass. Takes no memory.
fn keep_passing<T, Q: Test<T>>(places: &[Option<T>], trail: &mut VecDeque<usize>, test: &Q)
    ensures { trail.new.items ≡ passing (Q.passes test.now) places.now trail.old.items }
{
    trail.retain(|place| passes_at(places, *place, test));
}

/// Forgets the places of the group's trail that aren't those of its rows, which are those that pass. Takes no memory.
pub(crate) fn tidy<G: Eq + Hash, T, Q: Test<T>>(
    places: &[Option<T>],
    trails: &mut KeyedMap<G, VecDeque<usize>>,
    group: &G,
    test: &Q,
)
    ensures trail { trail_of G.eq trails.new group.now
        ≡ passing (Q.passes test.now) places.now (trail_of G.eq trails.old group.now) }
    ensures trails { (group_of : T → Option G)
        → ((row : T) → Q.passes test.now row ≡ has_key G.eq group_of group.now row)
        → AreTrails G.eq group_of places.now trails.old → AreTrails G.eq group_of places.now trails.new }
{
    match trails.get_mut(group) {
        Some(trail) => keep_passing(places, trail, test),
        None => {}
    }
}
