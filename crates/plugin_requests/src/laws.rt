//! What is true of the definitions, without any call.

ghost use Rattle.plugin_requests.specs.Laws.{RawListsAreTheirLists};

/// A raw list is refused exactly as the network list of the same bytes, and has that list.
pub fn a_raw_list_has_its_list()
    ensures { RawListsAreTheirLists }
{}
