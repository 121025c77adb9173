//! What is read of an opening so far, in order and by key, so that no name and no place is sought by going through all.
//! Whoever writes a file chooses its names, and could choose many of one hash, so they are looked up by their order.
//! Most names differ at their ends, so these are compared first, as numbers.

ghost use Rattle.std.specs.Prelude.{◌≡◌, [], ◌∷◌, ◌++◌, not, if◌then◌else◌, IfOk};
ghost use Rattle.std.specs.List.{list_any};
ghost use Rattle.std.specs.Str.{bytes_eq};
ghost use Rattle.kernel_types.specs.Terms.{is_at};
ghost use Rattle.pod_file.specs.Indexed as indexed;

use cni_addr::{Duplicate, Items, NoMemory, Text};
use kernel_types::Link;
use std::alloc::Global;
use std::collections::BTreeSet;
use std::marker::Model;

/// The last eight bytes of the name as a number.
#[tactic(auto, unfolding(crate::specs::Indexed::end_of))]
fn end_of(name: &str) -> u64
    ensures { result ≡ indexed.end_of name.now }
{
    let mut number: u64 = 0;
    for byte in name.as_bytes() {
        number = number.wrapping_mul(256).wrapping_add(u64::from(*byte));
    }
    number
}

/// The name behind its end.
fn ended(name: &Text) -> Result<(u64, Text), NoMemory>
    ensures { IfOk result (λ ended. ended ≡ (indexed.end_of name.now, name.now)) }
{
    Ok((end_of(name.as_str()), name.copy()?))
}

/// Names in order.
#[derive(Drop)]
pub(crate) struct Names {
    in_order: Vec<Text>,
    keys: BTreeSet<(u64, Text)>,
}

impl Model for Names {
    ghost use Rattle.std.specs.Prelude.{List, ℕ};
    ghost use Rattle.std.specs.BTreeSet.{contains};
    ghost use Rattle.pod_file.specs.Indexed.{HasNames, name_cmp};

    ghost Value = { List (List ℕ) };

    ghost view = { λ n. n.in_order.items };

    ghost invariant = { λ n. HasNames (contains name_cmp n.keys) n.in_order.items };
}

impl Names {
    /// No names. Takes no memory.
    pub(crate) fn new(alloc: Global) -> Names
        ensures { result ≡ [] }
    {
        Names {
            in_order: Vec::new(alloc),
            keys: BTreeSet::new(alloc),
        }
    }

    /// Whether the name is one of these.
    pub(crate) fn contains(&self, name: &Text) -> Result<bool, NoMemory>
        ensures { IfOk result (λ found. found ≡ list_any (bytes_eq name.now) self.now) }
    {
        Ok(self.keys.contains(&ended(name)?))
    }

    /// Puts the name at the end unless it is one of these, and says whether it did. One search does both.
    pub(crate) fn enter(&mut self, name: Text) -> Result<bool, NoMemory>
        ensures { IfOk result (λ is_new. (is_new ≡ not (list_any (bytes_eq name) self.old))
            × (self.new ≡ (if is_new then self.old ++ name ∷ [] else self.old))) }
    {
        // room first, so that no key is there without its name
        self.in_order.reserve(1)?;
        let key = ended(&name)?;
        let is_new = self.keys.insert(key)?;
        if is_new {
            self.in_order.push(name).unwrap();
        }
        Ok(is_new)
    }

    pub(crate) fn as_slice(&self) -> &[Text]
        ensures { result.now ≡ self.now }
    {
        self.in_order.as_slice()
    }
}

/// Links in order. The key of a link is its namespace and its name.
#[derive(Drop)]
pub(crate) struct PlacedLinks {
    in_order: Vec<Link>,
    places: BTreeSet<((u64, Text), Text)>,
}

impl Model for PlacedLinks {
    ghost use Rattle.std.specs.Prelude.{List};
    ghost use Rattle.std.specs.BTreeSet.{contains};
    ghost use Rattle.kernel_types.specs.declared.object.Link.{Link};
    ghost use Rattle.pod_file.specs.Indexed.{HasPlaces, link_place_cmp};

    ghost Value = { List Link };

    ghost view = { λ l. l.in_order.items };

    ghost invariant = { λ l. HasPlaces (contains link_place_cmp l.places) l.in_order.items };
}

impl PlacedLinks {
    /// No links. Takes no memory.
    pub(crate) fn new(alloc: Global) -> PlacedLinks
        ensures { result ≡ [] }
    {
        PlacedLinks {
            in_order: Vec::new(alloc),
            places: BTreeSet::new(alloc),
        }
    }

    /// Puts the link at the end unless one of these stands at its place, and says whether it did. One search does both.
    pub(crate) fn enter(&mut self, link: Link) -> Result<bool, NoMemory>
        ensures { IfOk result (λ is_new. (is_new ≡ not (list_any (is_at link.ns link.name) self.old))
            × (self.new ≡ (if is_new then self.old ++ link ∷ [] else self.old))) }
    {
        // room first, so that no place is there without its link
        self.in_order.reserve(1)?;
        let place = place_of(&link)?;
        let is_new = self.places.insert(place)?;
        if is_new {
            self.in_order.push(link).unwrap();
        } else {
            drop(link);
        }
        Ok(is_new)
    }

    pub(crate) fn as_slice(&self) -> &[Link]
        ensures { result.now ≡ self.now }
    {
        self.in_order.as_slice()
    }

    pub(crate) fn into_items(self) -> Items<Link>
        ensures { result ≡ self }
    {
        let PlacedLinks {
            in_order,
            places: _,
        } = self;
        Items::of_vec(in_order)
    }
}

/// The place of a link: its name behind its end, and its namespace.
fn place_of(link: &Link) -> Result<((u64, Text), Text), NoMemory>
    ensures { IfOk result (λ place. place ≡ ((indexed.end_of link.now.name, link.now.name), link.now.ns)) }
{
    Ok((ended(&link.name)?, link.ns.copy()?))
}
