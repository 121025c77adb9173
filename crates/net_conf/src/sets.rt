//! The sets of ranges.

ghost use Rattle.std.specs.Prelude.{◌≡◌, ◌+◌, IfOk};
ghost use Rattle.std.specs.List.{list_all};
ghost use Rattle.serde_json.specs.Data.{array};
ghost use Rattle.serde_json.specs.Events.{items_len};
ghost use Rattle.serde_json.specs.View.{view, items_view};
ghost use Rattle.cni_json.specs.Outcome.{Gives, GivesAs};
ghost use Rattle.net_conf.specs.Refusals.{is_out_of_memory};
ghost use Rattle.net_conf.specs.Sets as defined;

use crate::apart::share_no_address;
use crate::error::{ConfError, invalid};
use crate::range_sets::{MOST_SETS, RangeSets};
use crate::ranges::range;
use cni_addr::{Family, Items, NoMemory, Range, RangeSet, RefCounted};
use cni_json::{Field, Value, field_list, member, read_each, read_each_after};
use std::alloc::Global;

/// The set that the object's own `subnet` gives, and then those of its `ranges`.
#[tactic(auto, using(cni_json::proofs::Steps::steps))]
pub fn sets(alloc: Global, object: &Value) -> Result<RangeSets, ConfError>
    ensures { Gives is_out_of_memory result (defined.sets_at (view object.now)) }
{
    let sets = own_and_listed(alloc, object)?;
    Ok(RangeSets::of_items(sets))
}

#[tactic(auto, using(cni_json::proofs::Steps::steps), unfolding(crate::specs::Sets::sets_at))]
fn own_and_listed(alloc: Global, object: &Value) -> Result<Items<RefCounted<RangeSet>>, ConfError>
    ensures { Gives is_out_of_memory result (defined.sets_at (view object.now)) }
{
    let listed = listed(alloc, object)?;
    let has_own = has_subnet(object);
    well_formed(alloc, has_own, listed)?;
    let own = own_sets(alloc, has_own, object)?;
    let sets = read_each_after(own, listed, |_, member| set(alloc, member))?;
    separate(alloc, sets.as_slice())?;
    Ok(sets)
}

#[tactic(auto, using(cni_json::proofs::Steps::steps), unfolding(crate::specs::Sets::listed_at))]
fn listed<'a>(alloc: Global, object: &'a Value) -> Result<&'a [Value], ConfError>
    ensures { GivesAs is_out_of_memory (λ list. items_view list.now) result
        (defined.listed_at (view object.entry.now)) }
{
    match field_list(object, "ranges") {
        Field::Absent => Ok(&[]),
        Field::WrongKind => Err(invalid(alloc, "ranges")),
        Field::Here(list) => Ok(list),
    }
}

fn has_subnet(object: &Value) -> bool
    ensures { result ≡ defined.has_subnet (view object.now) }
{
    member(object, "subnet").is_some()
}

#[tactic(auto, using(cni_json::proofs::Steps::steps, crate::proofs::ValueLemmas::tests))]
fn well_formed(alloc: Global, has_own: bool, listed: &[Value]) -> Result<(), ConfError>
    ensures { Gives is_out_of_memory result (defined.well_formed has_own (items_view listed.now)) }
{
    (is_set_count(has_own, listed) && all_set_forms(listed))
        .then_some(())
        .ok_or_else(|| invalid(alloc, "ranges"))
}

#[tactic(auto, using(crate::proofs::ValueLemmas::counts))]
fn is_set_count(has_own: bool, listed: &[Value]) -> bool
    ensures { result ≡ defined.is_set_count (defined.one_if has_own + items_len (items_view listed.now)) }
{
    if has_own {
        listed.len() < MOST_SETS
    } else {
        1 <= listed.len() && listed.len() <= MOST_SETS
    }
}

fn all_set_forms(listed: &[Value]) -> bool
    ensures { result ≡ list_all (λ set. defined.is_set (view set)) listed.now }
{
    listed.iter().all(|set| is_set_form(set))
}

fn is_set_form(set: &Value) -> bool
    ensures { result ≡ defined.is_set (view set.now) }
{
    match set {
        Value::Array(ranges) => is_set_list(ranges.as_slice()),
        _ => false,
    }
}

#[tactic(auto, using(crate::proofs::ValueLemmas::by_length))]
fn is_set_list(ranges: &[Value]) -> bool
    ensures { result ≡ defined.is_set (array (items_view ranges.now)) }
{
    match ranges {
        [] => false,
        [_, ..] => all_objects(ranges),
    }
}

fn all_objects(ranges: &[Value]) -> bool
    ensures { result ≡ list_all (λ range. defined.is_object (view range)) ranges.now }
{
    ranges.iter().all(|range| range.is_object())
}

#[tactic(auto, using(cni_json::proofs::Steps::steps))]
fn own_sets(
    alloc: Global,
    has_own: bool,
    object: &Value,
) -> Result<Items<RefCounted<RangeSet>>, ConfError>
    ensures { Gives is_out_of_memory result (defined.own_sets_of has_own (view object.now)) }
{
    let mut own = Items::new(alloc);
    if has_own {
        let range = range(alloc, object)?;
        let mut ranges = Items::new(alloc);
        ranges.push(range)?;
        let set = RefCounted::of(alloc, RangeSet { ranges })?;
        own.push(set)?;
    }
    Ok(own)
}

#[tactic(auto, using(cni_json::proofs::Steps::steps))]
fn set(alloc: Global, member: &Value) -> Result<RefCounted<RangeSet>, ConfError>
    ensures { Gives is_out_of_memory result (defined.set_of (view member.now)) }
{
    match member {
        Value::Array(list) => {
            let ranges = read_each(alloc, list.as_slice(), |member| range(alloc, member))?;
            Ok(RefCounted::of(alloc, RangeSet { ranges })?)
        }
        _ => Err(invalid(alloc, "ranges")),
    }
}

#[tactic(auto, using(cni_json::proofs::Steps::steps))]
fn separate(alloc: Global, sets: &[RefCounted<RangeSet>]) -> Result<(), ConfError>
    ensures { Gives is_out_of_memory result (defined.separate sets.now) }
{
    let mut ranges = ranges_of(alloc, sets)?;
    (share_no_address(&mut ranges) && all_of_one_family(sets))
        .then_some(())
        .ok_or_else(|| invalid(alloc, "ranges"))
}

/// All ranges, set by set.
fn ranges_of(alloc: Global, sets: &[RefCounted<RangeSet>]) -> Result<Vec<Range>, NoMemory>
    ensures { IfOk result (λ all. all.items ≡ defined.ranges_of sets.now) }
{
    let mut all = Vec::new(alloc);
    for set in sets {
        all.extend_from_slice(set.get().ranges.as_slice())?;
    }
    Ok(all)
}

fn all_of_one_family(sets: &[RefCounted<RangeSet>]) -> bool
    ensures { result ≡ list_all defined.is_of_one_family sets.now }
{
    sets.iter().all(|set| is_of_one_family(set.get()))
}

fn is_of_one_family(set: &RangeSet) -> bool
    ensures { result ≡ defined.is_of_one_family set.now }
{
    match set.ranges.as_slice() {
        [] => true,
        [first, others @ ..] => all_have_family(first.subnet.addr.family, others),
    }
}

fn all_have_family(family: Family, ranges: &[Range]) -> bool
    ensures { result ≡ list_all (defined.is_range_of family) ranges.now }
{
    ranges
        .iter()
        .all(|range| range.subnet.addr.family == family)
}
