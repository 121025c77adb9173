//! What every session file that is read keeps. The function does nothing: what it ensures is the law, and a proof above
//! this crate gets it by calling the function.

ghost use Rattle.std.specs.Prelude.{◌≡◌, ℕ, List, Ok, IfErr, false};
ghost use Rattle.session_file.specs.SessionFile.{is_of_round, session_of};
ghost use Rattle.session_file.specs.WellFormed.{IsSessionConf};
ghost use Rattle.session_file.specs.declared.session.SessionConf.{SessionConf};

use net_conf::plugin_laws;
use pod_file::pod_file_laws;

/// A session file that is read is well formed: its opening is as a pod file's, its pools are as a list's, and it has at
/// most 65,536 tasks, each of one of the four verbs. None is refused for commands that must stand alone in a round.
pub fn session_file_laws()
    ensures well_formed { (bytes : List ℕ) (conf : SessionConf) → session_of bytes ≡ Ok conf → IsSessionConf conf }
    ensures never_alone { (bytes : List ℕ) → IfErr (session_of bytes) (λ e. is_of_round e ≡ false) }
{
    plugin_laws();
    pod_file_laws();
}
