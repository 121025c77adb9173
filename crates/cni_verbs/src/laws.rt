//! What holds of every run.

ghost use Rattle.cni_verbs.specs.AddCalls.{AddMakesItsCalls, AddMayBeGranted};
ghost use Rattle.cni_verbs.specs.Laws.{EachStateCallsOrIsOver};

/// In each state a run makes one call and is open, or it is over and finishes, as the script's turn says. So exactly
/// one of [`Run::next`](crate::Run::next) and [`Run::answer`](crate::Run::answer) is None.
#[tactic(auto, using(crate::proofs::CallsOrOver::calls_or_over))]
pub fn a_run_calls_or_is_over()
    ensures { EachStateCallsOrIsOver }
{}

/// An ADD that its fields don't refuse makes just `add_calls`, in their order, and is then answered with its result,
/// where each call is granted: each lease with an address, and each other call with Done.
#[tactic(auto, using(crate::proofs::AddCalls::add_makes_its_calls))]
pub fn an_add_makes_its_calls()
    ensures { AddMakesItsCalls }
{}

/// Whichever addresses it is leased, one a range set, there are replies that grant it all.
#[tactic(auto, using(crate::proofs::AddCalls::add_may_be_granted))]
pub fn an_add_may_be_granted()
    ensures { AddMayBeGranted }
{}
