//! Where the pods come from, or the tasks.

ghost use Rattle.std.specs.Prelude.{◌≡◌, IfOk};
ghost use Rattle.tool_words.specs.Source.{begins_plainly, count_of, files_of, generated_of, is_alone, session_of};
ghost use Rattle.tool_words.specs.Source.{source_of};

use cni_addr::{Items, NoMemory, Text};
use std::alloc::Global;

/// What stands before the number of pods that are to be generated.
const GENERATED: &str = "gen:";

/// What stands before the name of a session file.
const SESSION: &str = "reg:";

/// The most pods that may be generated.
const MOST_PODS: u32 = 10_000;

/// The most lists that may be named.
const MOST_LISTS: usize = 64;

/// Where what is to be done comes from, with what this source alone takes.
#[derive(Drop)]
pub enum Source {
    /// A pod file and network lists.
    Files(Named),
    /// The generator, which makes pods and their network.
    Generated {
        /// How many pods, 1 to 10,000.
        count: u32,
        /// As in [`Named`].
        stop_at: Option<u32>,
    },
    /// The session file of this name, with the tasks of plugins that a caller brings.
    Session {
        file: Text,
    },
}

/// The files that are named, and what is asked of them.
#[derive(Drop)]
pub struct Named {
    /// The pod file's name.
    pub pods: Text,
    /// The network lists' names, at most 64.
    pub lists: Items<Text>,
    /// The number, from 1, of the history's entry after which the rest of its round is stopped.
    pub stop_at: Option<u32>,
    /// The plugins' requests are to be printed.
    pub requests: bool,
    /// The packet file's name, where it is to be printed what becomes of packets.
    pub packets: Option<Text>,
}

/// What the words name, as a source.
pub(crate) fn source_of(alloc: Global, named: Named) -> Result<Option<Source>, NoMemory>
    ensures { IfOk result (λ source. source ≡ source_of named) }
{
    if let Some(number) = named.pods.as_str().strip_prefix(GENERATED) {
        return Ok(generated(number, &named));
    }
    if let Some(file) = named.pods.as_str().strip_prefix(SESSION) {
        return session(alloc, file, &named);
    }
    Ok(files(named))
}

fn generated(number: &str, named: &Named) -> Option<Source>
    ensures { result ≡ generated_of number.now named.now }
{
    match read_count(number) {
        Some(count) if is_alone(named) => Some(Source::Generated {
            count,
            stop_at: named.stop_at,
        }),
        _ => None,
    }
}

fn session(alloc: Global, file: &str, named: &Named) -> Result<Option<Source>, NoMemory>
    ensures { IfOk result (λ source. source ≡ session_of file.now named.now) }
{
    if !is_alone(named) || named.stop_at.is_some() {
        return Ok(None);
    }
    Ok(Some(Source::Session {
        file: Text::of(alloc, file)?,
    }))
}

fn is_alone(named: &Named) -> bool
    ensures { result ≡ is_alone named.now }
{
    named.lists.as_slice().is_empty() && !named.requests && named.packets.is_none()
}

fn files(named: Named) -> Option<Source>
    ensures { result ≡ files_of named }
{
    if named.lists.as_slice().len() > MOST_LISTS {
        return None;
    }
    Some(Source::Files(named))
}

/// The number of pods that the text spells.
fn read_count(text: &str) -> Option<u32>
    ensures { result ≡ count_of text.now }
{
    // `parse` takes a sign and leading zeros too.
    if !begins_plainly(text.as_bytes()) {
        return None;
    }
    let Ok(count) = text.parse::<u32>() else {
        return None;
    };
    if count <= MOST_PODS {
        Some(count)
    } else {
        None
    }
}

fn begins_plainly(digits: &[u8]) -> bool
    ensures { result ≡ begins_plainly digits.now }
{
    match digits {
        [b'1'..=b'9', ..] => true,
        _ => false,
    }
}
