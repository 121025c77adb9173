//! What is true of the definitions, without any call.

ghost use Rattle.exec_protocol.specs.Laws.{RequestsAreReadAgain};
ghost use Rattle.exec_protocol.specs.Works.{EachWorkIsOfTheAdd};

use cni_result::laws::{a_mapping_is_read_again, a_result_is_read_again};

/// What was printed of a request to a plugin of a list is read as that request: its plugin, the result, the mappings
/// that the plugin asks for and the attachments to keep. It asks that the result can be read again, and is there where
/// a chained plugin is to add.
pub fn a_request_is_read_again()
    ensures { RequestsAreReadAgain }
{
    a_result_is_read_again();
    a_mapping_is_read_again();
}

/// What each plugin of an ADD makes of the request that it reads, with the words of the ADD, is its part of the ADD:
/// joined in list order between the call that begins it and the one that caches its result, the plugins' calls are all
/// that the ADD makes, and each result is in the next request. So it is the same whether one program makes the calls of
/// all plugins or each plugin those of its own request.
#[tactic(auto, using(crate::proofs::Works::each_work_is_of_the_add))]
pub fn each_work_is_of_the_add()
    ensures { EachWorkIsOfTheAdd }
{}
