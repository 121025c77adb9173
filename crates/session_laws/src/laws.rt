//! What a task's entries do to a host, each law carried by a function that does nothing.

ghost use Rattle.session_laws.specs.Laws.{EachAddLeavesOthers, EachAddMakesParts, EachAddStaysReady};
ghost use Rattle.session_laws.specs.Laws.{EachAddedIsWhole, EachDelLeavesOthers, EachDelMakesParts};
ghost use Rattle.session_laws.specs.Laws.{EachDelOnlyRemoves, EachDelStaysReady, EachDeletedIsGone};
ghost use Rattle.session_laws.specs.Laws.{EachIdleDelLeavesTheHost, EachPartIsOfItsKinds, EachRefusedAddIsUndone};
ghost use Rattle.session_laws.specs.Laws.{EachUnbegunAddIsUndone, EachUnbegunAddLeavesTheHost};
ghost use Rattle.session_laws.specs.Laws.{EachUnpooledAddLeasesNothing};

// ---- ADD

/// Wherever an ADD stands, stopped, refused or undone halfway, its attachment has nothing but what its row says. One
/// that is over and wasn't refused has all of it. Without pools nothing of it is a lease.
pub fn an_add_makes_what_its_row_says()
    ensures parts { EachAddMakesParts }
    ensures whole { EachAddedIsWhole }
    ensures unpooled { EachUnpooledAddLeasesNothing }
{}

/// An ADD is refused by its first entry that is not granted. Where that is Begin, it is the only one. Else nothing of
/// the attachment is left, unless a later entry is a fault.
pub fn a_refused_add_is_undone()
    ensures begun { EachRefusedAddIsUndone }
    ensures unbegun { EachUnbegunAddIsUndone }
{}

/// An ADD whose Begin wasn't granted leaves the host.
pub fn an_unbegun_add_leaves_the_host()
    ensures { EachUnbegunAddLeavesTheHost }
{}

/// An ADD keeps its pools ready, and leaves what other attachments have.
pub fn an_add_leaves_the_rest()
    ensures ready { EachAddStaysReady }
    ensures others { EachAddLeavesOthers }
{}

// ---- DEL

/// A DEL without a fault leaves nothing of its attachment, and one that finds nothing leaves the host.
pub fn a_deletion_leaves_nothing()
    ensures gone { EachDeletedIsGone }
    ensures idle { EachIdleDelLeavesTheHost }
{}

/// Wherever a DEL stands, it has only removed objects of its attachment.
pub fn a_deletion_only_removes()
    ensures removes { EachDelOnlyRemoves }
    ensures parts { EachDelMakesParts }
    ensures others { EachDelLeavesOthers }
    ensures ready { EachDelStaysReady }
{}

/// What a row lets its attachment have is of the kinds that a deletion by the row deletes.
pub fn a_row_names_the_kinds_of_its_part()
    ensures { EachPartIsOfItsKinds }
{}
