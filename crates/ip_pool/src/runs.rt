//! Runs of addresses in a sorted vector. Nothing here takes memory.

ghost use Rattle.std.specs.Prelude.{◌≡◌, ◌+◌, ◌≤◌, ◌<◌, true, false, length, take, drop, ◌++◌, find, vec_len};
ghost use Rattle.std.specs.Prelude.{option_to_list};
ghost use Rattle.std.specs.List.{list_all, HoldsAt};
ghost use Rattle.std.specs.Vec.{vec_capacity};
ghost use Rattle.ip_pool.specs.Runs.{are_runs, ends_before, first_of, is_in_run, is_in_runs, size_of};
ghost use Rattle.ip_pool.specs.RunEdits.{is_next, part_above, part_below, run_up_to, with_addr, without_addr};

use cni_addr::Addr;

/// The addresses from the number `first` to the address `last`, both taken in, in the family of `last`.
#[derive(Clone, Copy)]
pub(crate) struct Run {
    pub(crate) first: u128,
    pub(crate) last: Addr,
}

/// Whether the run ends before the address, and more than `gap` numbers before it in the same family.
fn ends_before(run: &Run, gap: u128, addr: &Addr) -> bool
    ensures { result ≡ ends_before gap addr.now run.now }
{
    if run.last.family == addr.family {
        run.last.bits < addr.bits && gap < addr.bits - run.last.bits
    } else {
        (run.last.family as u8) < (addr.family as u8)
    }
}

/// Whether the run has the address.
fn has(run: &Run, addr: &Addr) -> bool
    ensures { result ≡ is_in_run addr.now run.now }
{
    addr.family == run.last.family && run.first <= addr.bits && addr.bits <= run.last.bits
}

/// Whether the address is the next one after the run.
fn is_after(run: &Run, addr: &Addr) -> bool
    ensures { result ≡ is_next run.now.last addr.now }
{
    run.last.family == addr.family && run.last.bits < addr.bits && addr.bits - run.last.bits == 1
}

/// Whether the run begins with the address after this one.
fn begins_after(run: &Run, addr: &Addr) -> bool
    ensures { result ≡ is_next addr.now (first_of run.now) }
{
    addr.family == run.last.family && addr.bits < run.first && run.first - addr.bits == 1
}

/// How many of the runs end more than `gap` numbers before the address. A binary search.
fn place_of(runs: &[Run], gap: u128, addr: &Addr) -> usize
    requires { are_runs runs.now ≡ true }
    ensures within { result ≤ length runs.now }
    ensures before { list_all (ends_before gap addr.now) (take result runs.now) ≡ true }
    ensures at { result < length runs.now
        → HoldsAt (λ r. ends_before gap addr.now r ≡ false) runs.now result }
{
    runs.partition_point(|run| ends_before(run, gap, addr))
}

/// The run that has the address.
pub(crate) fn run_with(runs: &[Run], addr: &Addr) -> Option<Run>
    requires { are_runs runs.now ≡ true }
    ensures { result ≡ find (is_in_run addr.now) runs.now }
{
    let place = place_of(runs, 0, addr);
    if place == runs.len() {
        return None;
    }
    let run = runs[place];
    if has(&run, addr) { Some(run) } else { None }
}

/// Begins a run with the address at its place, or lets the run there begin with it where they touch.
fn begin_run(runs: &mut Vec<Run>, place: usize, addr: &Addr)
    requires within { place ≤ vec_len runs.old }
    requires room { vec_len runs.old < vec_capacity runs.old }
    ensures items { runs.new.items
        ≡ take place runs.old.items ++ run_up_to addr.now.bits addr.now (drop place runs.old.items) }
    ensures capacity { vec_capacity runs.new ≡ vec_capacity runs.old }
{
    if place < runs.len() && begins_after(&runs[place], addr) {
        runs[place].first = addr.bits;
    } else {
        let run = Run {
            first: addr.bits,
            last: *addr,
        };
        runs.insert(place, run).unwrap();
    }
}

/// Lets the run at the place end with the address. Where the next run touches it, the two become one.
fn extend_run(runs: &mut Vec<Run>, place: usize, addr: &Addr)
    requires within { place < vec_len runs.old }
    ensures items { HoldsAt
        (λ r. runs.new.items
        ≡ take place runs.old.items ++ run_up_to r.first addr.now (drop (place + 1) runs.old.items))
        runs.old.items place }
    ensures capacity { vec_capacity runs.new ≡ vec_capacity runs.old }
{
    let next = place + 1;
    if next < runs.len() && begins_after(&runs[next], addr) {
        runs[next].first = runs[place].first;
        let _joined = runs.remove(place);
    } else {
        runs[place].last = *addr;
    }
}

/// Adds the address: to the runs that it touches, which become one, or as a run of its own. The later runs move only
/// where their number changes.
pub(crate) fn add_addr(runs: &mut Vec<Run>, addr: &Addr)
    requires runs { are_runs runs.old.items ≡ true }
    requires room { vec_len runs.old < vec_capacity runs.old }
    ensures items { runs.new.items ≡ with_addr addr.now runs.old.items }
    ensures capacity { vec_capacity runs.new ≡ vec_capacity runs.old }
{
    let place = place_of(runs, 1, addr);
    if place < runs.len() && is_after(&runs[place], addr) {
        extend_run(runs, place, addr);
    } else {
        begin_run(runs, place, addr);
    }
}

/// The part of the run below the address, which the run has.
fn part_below(run: &Run, addr: &Addr) -> Option<Run>
    ensures { option_to_list result ≡ part_below addr.now run.now }
{
    if addr.bits <= run.first {
        return None;
    }
    let last = Addr {
        family: addr.family,
        bits: addr.bits - 1,
    };
    Some(Run { last, ..*run })
}

/// The part of the run above the address, which the run has.
fn part_above(run: &Run, addr: &Addr) -> Option<Run>
    ensures { option_to_list result ≡ part_above addr.now run.now }
{
    if run.last.bits <= addr.bits {
        return None;
    }
    let first = addr.bits + 1;
    Some(Run { first, ..*run })
}

/// Puts what is left of the run at the place in its stead.
fn put_parts(runs: &mut Vec<Run>, place: usize, below: Option<Run>, above: Option<Run>)
    requires within { place < vec_len runs.old }
    requires room { vec_len runs.old + length (option_to_list below) + length (option_to_list above)
        ≤ vec_capacity runs.old + 1 }
    ensures items { runs.new.items ≡ take place runs.old.items
        ++ (option_to_list below ++ (option_to_list above ++ drop (place + 1) runs.old.items)) }
    ensures capacity { vec_capacity runs.new ≡ vec_capacity runs.old }
{
    match (below, above) {
        (None, None) => {
            let _gone = runs.remove(place);
        }
        (Some(below), None) => runs[place] = below,
        (None, Some(above)) => runs[place] = above,
        (Some(below), Some(above)) => {
            runs[place] = above;
            runs.insert(place, below).unwrap();
        }
    }
}

/// Takes the address out of the run that has it, which may split it. Says whether it was there. The later runs move
/// only where their number changes.
pub(crate) fn remove_addr(runs: &mut Vec<Run>, addr: &Addr) -> bool
    requires runs { are_runs runs.old.items ≡ true }
    requires room { size_of runs.old.items ≤ vec_capacity runs.old }
    ensures found { result ≡ is_in_runs addr.now runs.old.items }
    ensures items { runs.new.items ≡ without_addr addr.now runs.old.items }
    ensures capacity { vec_capacity runs.new ≡ vec_capacity runs.old }
{
    let place = place_of(runs, 0, addr);
    if place == runs.len() {
        return false;
    }
    let run = runs[place];
    if !has(&run, addr) {
        return false;
    }
    put_parts(runs, place, part_below(&run, addr), part_above(&run, addr));
    true
}
