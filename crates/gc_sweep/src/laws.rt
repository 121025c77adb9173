//! Laws of GCs that are alone with a host. Each function does nothing: its contract is the law, and a proof
//! above gets it by calling the function.

ghost use Rattle.gc_sweep.specs.Bound.{GcBound};
ghost use Rattle.gc_sweep.specs.Sweep.{YesKeeps, AlwaysBounded, OverExcused, FaultsNamed};

/// A GC that is answered `ok` leaves exactly what is kept of the host. (One that its list disables is skipped,
/// which is another answer.)
#[tactic(auto, using(crate::proofs::Leaves::yes_keeps))]
pub fn a_clean_collection_leaves_what_is_kept()
    ensures { YesKeeps }
{}

/// A GC, wherever it stopped, loses nothing that is kept and adds nothing.
pub fn every_collection_is_bounded()
    ensures { AlwaysBounded }
{}

/// A call about what a GC that came to its end leaves over was faulty.
pub fn what_is_left_over_is_excused()
    ensures { OverExcused }
{}

/// The answer of a GC that its list doesn't end before its first call is `ok` where no call was faulty, and
/// else an error that names every one that was.
pub fn every_fault_is_named()
    ensures { FaultsNamed }
{}

/// A GC makes six calls at most, for each stale attachment those of a DEL and six more, and one for each object that
/// isn't kept.
#[tactic(auto, using(crate::proofs::Calls::gc_bound))]
pub fn a_collection_makes_few_calls()
    ensures { GcBound }
{}
