//! Laws of the candidates and of the choice, as functions without a body.
//!
//! A crate above uses a law by calling its function where the law is needed: after the call the proof knows what the
//! function ensures. A proof file may instead import the lemma that the answer to the law names, as
//! `Rattle.ip_pool.proofs.Choice.{next-one}` for [`next_address_is_one`].

ghost use Rattle.ip_pool.specs.Laws.{CandidatesAreListed, CandidatesAreDistinct, ApartSharesNone};
ghost use Rattle.ip_pool.specs.Laws.{PickIsNextAddress, PickIsFreeCandidate, NoneWhereExhausted};
ghost use Rattle.ip_pool.specs.Laws.{NextAddressIsOne, ChoiceDependsOnTakenAlone};

/// An address is listed among the candidates exactly where it is one.
pub fn candidates_are_listed()
    ensures { CandidatesAreListed }
{}

/// Ranges that lie apart give each candidate once.
pub fn candidates_are_distinct()
    ensures { CandidatesAreDistinct }
{}

/// [`is_apart`](crate::is_apart) means that: two ranges lie apart exactly where no address is between start and end
/// of both.
pub fn apart_shares_none()
    ensures { ApartSharesNone }
{}

/// What a search in order picks is the next address, or none where none is left, for ranges that lie apart and a
/// last address that is a candidate.
pub fn pick_is_the_next_address()
    ensures { PickIsNextAddress }
{}

/// There is one next address at most: two answers that are right are the same.
pub fn next_address_is_one()
    ensures { NextAddressIsOne }
{}

/// What is picked is a candidate and free, for every set and every last address.
pub fn pick_is_a_free_candidate()
    ensures { PickIsFreeCandidate }
{}

/// None is picked, and none is free, exactly where every candidate is taken.
pub fn none_where_exhausted()
    ensures { NoneWhereExhausted }
{}

/// The choice depends on which addresses are taken alone: two lists of the same addresses give the same answers.
pub fn choice_depends_on_taken_alone()
    ensures { ChoiceDependsOnTakenAlone }
{}
