//! What the view tells of what a session keeps, carried by a function that does nothing.

ghost use Rattle.session_laws.specs.Steps.{TheFirstViewIsKept};
ghost use Rattle.plugin_session.specs.Kept.{TheViewIsKept};

/// What is kept of a session is kept of its view, and is there before the first task.
pub fn views_are_kept()
    ensures view { TheViewIsKept }
    ensures first { TheFirstViewIsKept }
{}
