//! Lists of objects in which each key stands once, and the calls that ask for them.

ghost use Rattle.std.specs.Prelude.{◌≡◌, ◌≤◌, ◌++◌, [], ◌∷◌, List, length, map, true, if◌then◌else◌};
ghost use Rattle.std.specs.Prelude.{IfOk, OnErr, OnOk};
ghost use Rattle.std.specs.List.{list_any};
ghost use Rattle.cni_addr.specs.Lists.{each_key_once, push_unless_there};
ghost use Rattle.plugin_base.specs.EachKey.{AreKeysOf, Begins};

use crate::asked::Asked;
use cni_addr::NoMemory;
use kernel_types::Call;
use std::alloc::Global;
use std::cmp::Ordering;
use std::collections::BTreeSet;
use std::marker::Model;

/// So many objects are told apart as they come, one by one. Most attachments ask for no more of a kind.
const MOST_SCANNED: usize = 8;

/// Objects in the order in which they came, each key once. Contracts see it as their list.
#[derive(Drop)]
pub struct EachKeyOnce<T: Asked> {
    /// What was pushed. Behind the first few, what has the key of another is passed over where calls are made of them.
    pushed: Vec<T>,
}

impl<T: Asked> Model for EachKeyOnce<T> {
    ghost use Rattle.std.specs.Prelude.{◌≡◌, ◌≤◌, List, length};
    ghost use Rattle.cni_addr.specs.Lists.{each_key_once};

    ghost Value = { List T };

    ghost view = { λ e. each_key_once T.same_key e.pushed.items };

    ghost invariant = { λ e. length e.pushed.items ≤ 8 → each_key_once T.same_key e.pushed.items ≡ e.pushed.items };
}

impl<T: Asked> EachKeyOnce<T> {
    /// None. Takes no memory.
    pub fn new(alloc: Global) -> EachKeyOnce<T>
        ensures { result ≡ [] }
    {
        EachKeyOnce {
            pushed: Vec::new(alloc),
        }
    }

    /// Puts the object at the end, unless one with its key is there, or leaves the objects as they were. The time is
    /// bounded, however many are there.
    #[tactic(auto, using(crate::proofs::KeysOnce::once_pushed, crate::proofs::KeysOnce::once_few))]
    pub fn push(&mut self, object: T) -> Result<(), NoMemory>
        ensures ok { OnOk result (self.new ≡ push_unless_there T.same_key self.old object) }
        ensures err { OnErr result (self.new ≡ self.old) }
    {
        if self.pushed.len() < MOST_SCANNED {
            return push_scanned(&mut self.pushed, object);
        }
        self.pushed.push(object)?;
        Ok(())
    }
}

/// Whether one of the objects has the key.
fn has_same<T: Asked>(objects: &[T], object: &T) -> bool
    ensures { result ≡ list_any (T.same_key object.now) objects.now }
{
    objects.iter().any(|other| object.has_key(other))
}

fn push_scanned<T: Asked>(objects: &mut Vec<T>, object: T) -> Result<(), NoMemory>
    ensures ok { OnOk result (objects.new.items ≡ push_unless_there T.same_key objects.old.items object) }
    ensures err { OnErr result (objects.new.items ≡ objects.old.items) }
{
    if !has_same(objects.as_slice(), &object) {
        objects.push(object)?;
    }
    Ok(())
}

/// An object, in the order of its key. Contracts see the key.
#[derive(Drop)]
struct ByKey<'a, T: Asked> {
    object: &'a T,
}

impl<'a, T: Asked> Model for ByKey<'a, T> {
    ghost Value = { T.Key };

    ghost view = { λ x. T.key_of x.object.now };
}

impl<T: Asked> PartialEq for ByKey<'_, T> {
    ghost eq = { T.Key.eq };

    ghost laws = { T.Key.PartialEq.laws };

    fn eq(&self, other: &Self) -> bool {
        self.cmp(other).is_eq()
    }
}

impl<T: Asked> Eq for ByKey<'_, T> {
    ghost laws = { T.Key.Eq.laws };
}

impl<T: Asked> PartialOrd for ByKey<'_, T> {
    ghost partial_cmp = { T.Key.partial_cmp };

    ghost laws = { T.Key.PartialOrd.laws };

    fn partial_cmp(&self, other: &Self) -> Option<Ordering> {
        Some(self.cmp(other))
    }
}

impl<T: Asked> Ord for ByKey<'_, T> {
    ghost cmp = { T.Key.cmp };

    ghost total = { T.Key.Ord.total };

    ghost matches_partial_cmp = { T.Key.Ord.matches_partial_cmp };

    ghost matches_eq = { T.Key.Ord.matches_eq };

    fn cmp(&self, other: &Self) -> Ordering {
        self.object.key_order(other.object)
    }
}

/// Puts the calls that ask for the objects at the end, or leaves the calls as they were. Where there are more than a
/// few objects, each key is sought by its order, and a list in which a key stands again is gone through twice.
#[tactic(auto, using(crate::proofs::Beginnings::begins_cut))]
pub fn ask_all<T: Asked>(calls: &mut Vec<Call>, objects: EachKeyOnce<T>) -> Result<(), NoMemory>
    ensures ok { OnOk result (calls.new.items ≡ calls.old.items ++ map T.call_for objects) }
    ensures err { OnErr result (calls.new.items ≡ calls.old.items) }
{
    let EachKeyOnce { pushed } = objects;
    let before = calls.len();
    let asked = ask_pushed(calls, pushed);
    if asked.is_err() {
        calls.truncate(before);
    }
    asked
}

/// Puts the calls at the end, or the first of them.
#[tactic(auto, using(crate::proofs::Beginnings::begins_itself))]
fn ask_pushed<T: Asked>(calls: &mut Vec<Call>, objects: Vec<T>) -> Result<(), NoMemory>
    requires { length objects.items ≤ 8 → each_key_once T.same_key objects.items ≡ objects.items }
    ensures ok { OnOk result
        (calls.new.items ≡ calls.old.items ++ map T.call_for (each_key_once T.same_key objects.items)) }
    ensures kept { Begins calls.old.items calls.new.items }
{
    let alloc = *calls.allocator();
    if objects.len() <= MOST_SCANNED || has_each_key_once(alloc, objects.as_slice())? {
        ask_each(calls, objects)
    } else {
        ask_new(calls, objects.as_slice())
    }
}

/// Puts the calls at the end, or the first of them.
#[tactic(auto, using(crate::proofs::Beginnings::begins_itself, crate::proofs::Beginnings::begins_push))]
fn ask_each<T: Asked>(calls: &mut Vec<Call>, objects: Vec<T>) -> Result<(), NoMemory>
    ensures ok { OnOk result (calls.new.items ≡ calls.old.items ++ map T.call_for objects.items) }
    ensures kept { Begins calls.old.items calls.new.items }
{
    let alloc = *calls.allocator();
    calls.reserve(objects.len())?;
    for object in objects {
        calls.push(object.ask(alloc)?)?;
    }
    Ok(())
}

/// Notes the key of the object, and says whether it is new.
fn note_key<'a, T: Asked>(
    keys: &mut BTreeSet<(u64, ByKey<'a, T>)>,
    object: &'a T,
) -> Result<bool, NoMemory>
    ensures keys { OnOk result ((xs : List T)
        → AreKeysOf T.Key.cmp (λ x. (T.mark_of x, T.key_of x)) T.same_key keys.old xs
        → AreKeysOf T.Key.cmp (λ x. (T.mark_of x, T.key_of x)) T.same_key keys.new (xs ++ object.now ∷ [])) }
    ensures new { IfOk result (λ is_new. (xs : List T)
        → AreKeysOf T.Key.cmp (λ x. (T.mark_of x, T.key_of x)) T.same_key keys.old xs
        → each_key_once T.same_key (xs ++ object.now ∷ [])
        ≡ (if is_new then each_key_once T.same_key xs ++ object.now ∷ [] else each_key_once T.same_key xs)) }
{
    Ok(keys.insert((object.mark(), ByKey { object }))?)
}

/// Whether no object has the key of one before it.
fn has_each_key_once<T: Asked>(alloc: Global, objects: &[T]) -> Result<bool, NoMemory>
    ensures { IfOk result (λ once. once ≡ true → each_key_once T.same_key objects.now ≡ objects.now) }
{
    let mut keys = BTreeSet::new(alloc);
    for object in objects {
        if !note_key(&mut keys, object)? {
            return Ok(false);
        }
    }
    Ok(true)
}

/// Puts a call at the end for each object that doesn't have the key of one before it, or the first of them.
#[tactic(auto, using(crate::proofs::Beginnings::begins_itself, crate::proofs::Beginnings::begins_push))]
fn ask_new<T: Asked>(calls: &mut Vec<Call>, objects: &[T]) -> Result<(), NoMemory>
    ensures ok { OnOk result
        (calls.new.items ≡ calls.old.items ++ map T.call_for (each_key_once T.same_key objects.now)) }
    ensures kept { Begins calls.old.items calls.new.items }
{
    let alloc = *calls.allocator();
    let mut keys = BTreeSet::new(alloc);
    for object in objects {
        if note_key(&mut keys, object)? {
            calls.push(object.copy()?.ask(alloc)?)?;
        }
    }
    Ok(())
}
