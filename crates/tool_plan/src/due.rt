//! What the words and the files come to, before anything runs.

ghost use Rattle.std.specs.Prelude.{◌≡◌, Some};
ghost use Rattle.tool_words.specs.Words.{IsWithinLimits, words_given};
ghost use Rattle.tool_plan.specs.Dues.{ComesToDue, NameNoFile};
ghost use Rattle.tool_plan.specs.Seen.{files_seen};
ghost use Rattle.tool_plan.specs.Verdict.{asked_of, command_part_of, session_asked_of};

use crate::generated::generated_input;
use crate::plan::{NoPlan, PlanInput, read_input};
use crate::session::read_session_file;
use cni_addr::Text;
use cni_io::Files;
use pod_text::{Asked, CommandPart, SessionAsked};
use pod_workers::Plan;
use session_file::SessionConf;
use sha2::{Digest, Sha512_256};
use std::alloc::Global;
use tool_words::{Source, Words, WordsEnd, read_words};

/// What is to be carried out.
#[derive(Drop)]
pub enum Due {
    Plan(DuePlan),
    Session(DueSession),
}

/// A plan that is to be carried out, and how.
#[derive(Drop)]
pub struct DuePlan {
    /// How many threads are to make a round, 1 to 16.
    pub threads: u8,
    pub plan: Plan,
    /// What is to be printed of it.
    pub asked: Asked,
    /// SHA-512/256 of the words and of all bytes that were read, which nobody who writes them can choose.
    pub digest: [u8; 32],
}

/// A session that is to be run.
#[derive(Drop)]
pub struct DueSession {
    pub conf: SessionConf,
    /// What is to be printed of it.
    pub asked: SessionAsked,
    /// As in [`DuePlan`].
    pub digest: [u8; 32],
}

/// Reads the words and then the files that they name, if they name any: the pod file first, then the network lists in
/// their order, then the packet file, up to the first that is refused or can't be read; or the session file alone.
pub fn read_due<F: Files>(alloc: Global, words: &[Text], files: &mut F) -> Result<Due, NoPlan>
    ensures comes { ComesToDue words.now (files_seen F.files F.failure_count files.old files.new) result }
    ensures keeps { F.files files.new ≡ F.files files.old }
    ensures untouched { NameNoFile words.now → files.new ≡ files.old }
{
    match read_words(alloc, words) {
        Ok(taken) => read_due_of(alloc, words, &taken, files),
        Err(WordsEnd::Usage) => Err(NoPlan::Usage),
        Err(WordsEnd::NoMemory) => Err(NoPlan::NoMemory),
    }
}

/// A digest of the words and of the bytes of the files.
fn digest_of(words: &[Text], taken: &[Vec<u8>]) -> [u8; 32] {
    let mut digest = Sha512_256::new();
    for word in words {
        digest.update(word.as_str().as_bytes());
    }
    for bytes in taken {
        digest.update(bytes.as_slice());
    }
    digest.finalize()
}

/// The same, once the words are taken.
fn read_due_of<F: Files>(
    alloc: Global,
    given: &[Text],
    words: &Words,
    files: &mut F,
) -> Result<Due, NoPlan>
    requires taken { words_given given.now ≡ Some words.now }
    requires limits { IsWithinLimits words.now }
    ensures comes { ComesToDue given.now (files_seen F.files F.failure_count files.old files.new) result }
    ensures keeps { F.files files.new ≡ F.files files.old }
    ensures untouched { NameNoFile given.now → files.new ≡ files.old }
{
    let mut taken = Vec::new(alloc);
    match &words.source {
        Source::Files(named) => {
            let input = read_input(alloc, files, named, &mut taken)?;
            let digest = digest_of(given, taken.as_slice());
            Ok(Due::Plan(due_plan(words, input, digest)))
        }
        Source::Generated { count, stop_at } => {
            let made = generated_input(alloc, *count, *stop_at)?;
            let digest = digest_of(given, taken.as_slice());
            Ok(Due::Plan(due_plan(words, made, digest)))
        }
        Source::Session { file } => {
            let conf = read_session_file(alloc, files, file.as_str(), &mut taken)?;
            let digest = digest_of(given, taken.as_slice());
            Ok(Due::Session(due_session(words, conf, digest)))
        }
    }
}

/// What the words ask for of this input.
fn due_plan(words: &Words, input: PlanInput, digest: [u8; 32]) -> DuePlan
    ensures threads { result.threads ≡ words.now.threads }
    ensures plan { result.plan ≡ input.plan }
    ensures asked { result.asked ≡ asked_of words.now input }
{
    let PlanInput {
        plan,
        requests,
        packets,
    } = input;
    DuePlan {
        threads: words.threads,
        plan,
        asked: Asked {
            commands: command_part_of(&words.source),
            requests,
            trace: words.trace,
            dump: words.dump,
            packets,
        },
        digest,
    }
}

/// What the words ask for of this session.
fn due_session(words: &Words, conf: SessionConf, digest: [u8; 32]) -> DueSession
    ensures conf { result.conf ≡ conf }
    ensures asked { result.asked ≡ session_asked_of words.now }
{
    DueSession {
        conf,
        asked: SessionAsked {
            trace: words.trace,
            dump: words.dump,
        },
        digest,
    }
}

fn command_part_of(source: &Source) -> CommandPart
    ensures { result ≡ command_part_of source.now }
{
    match source {
        Source::Generated { .. } => CommandPart::Summary,
        Source::Files(_) | Source::Session { .. } => CommandPart::Lines,
    }
}
