//! Laws of the given addresses, as functions without a body: a caller learns the law by the call.

ghost use Rattle.host_local.specs.Laws.{CandidatesAreGiven};

/// Where each address is a candidate of the set of its place, [`given_of`](crate::given_of) drops none: they are given
/// in order. A kernel leases candidates alone, so nothing that an ADD was leased is left out of its result.
#[tactic(auto, using(crate::proofs::LeaseLemmas::given_candidates))]
pub fn candidates_are_given()
    ensures { CandidatesAreGiven }
{}
