//! The session that a file comes to, or why there is none.

ghost use Rattle.std.specs.Prelude.{◌≡◌, ◌≤◌, IfOk};
ghost use Rattle.session_file.specs.WellFormed.{IsSessionConf};
ghost use Rattle.tool_plan.specs.Causes.{GivesJudged, GivesStored};
ghost use Rattle.tool_plan.specs.Verdict.{judged_session, stored_session};

use crate::lines::error_line;
use crate::plan::{NoPlan, keep, read_bytes};
use crate::refusals::pods_error;
use cni_io::Files;
use pod_file::PodError;
use session_file::{SessionConf, read_session};
use std::alloc::Global;

/// Reads the session file. Its bytes are kept if it is taken.
#[tactic(auto, using(crate::proofs::Stopping::stopping), unfolding(crate::specs::Verdict::stored_session))]
pub(crate) fn read_session_file<F: Files>(
    alloc: Global,
    files: &mut F,
    file: &str,
    taken: &mut Vec<Vec<u8>>,
) -> Result<SessionConf, NoPlan>
    ensures gives { GivesStored (λ conf. conf) (F.files files.old)
        (F.failure_count files.old) (F.failure_count files.new)
        (λ name. name ≡ file.now) (λ stored. stored_session stored file.now) result }
    ensures well_formed { IfOk result IsSessionConf }
    ensures keeps { F.files files.new ≡ F.files files.old }
    ensures later { F.failure_count files.old ≤ F.failure_count files.new }
{
    let bytes = read_bytes(alloc, files, file)?;
    let conf = session_of_bytes(alloc, bytes.as_slice(), file)?;
    keep(taken, bytes)?;
    Ok(conf)
}

#[tactic(auto, using(crate::proofs::Stopping::stopping))]
fn session_of_bytes(alloc: Global, bytes: &[u8], file: &str) -> Result<SessionConf, NoPlan>
    ensures gives { GivesJudged result (judged_session file.now bytes.now) }
    ensures well_formed { IfOk result IsSessionConf }
{
    match read_session(alloc, bytes) {
        Ok(conf) => Ok(conf),
        Err(PodError::NoMemory) => Err(NoPlan::NoMemory),
        Err(end) => Err(NoPlan::Line(error_line(alloc, &pods_error(alloc, &end)?, file)?)),
    }
}
