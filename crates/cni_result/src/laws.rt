//! What is true of the definitions, without any call.

ghost use Rattle.cni_result.specs.Laws.{MappingsAreReadAgain, ResultsAreReadAgain};

/// The data that a result is printed as is read as that result, if there is no `mtu` before 1.1.0 and each address is
/// on an interface of the list or on none. That the line of such data is read as that data is a law of `cni_json`.
pub fn a_result_is_read_again()
    ensures { ResultsAreReadAgain }
{}

/// The data that a port mapping is printed as is read as that mapping, whatever its ports and its address are.
pub fn a_mapping_is_read_again()
    ensures { MappingsAreReadAgain }
{}
