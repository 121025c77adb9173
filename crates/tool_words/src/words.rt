//! What the words of the program say.

ghost use Rattle.std.specs.Prelude.{◌≡◌, IfOk, map, option_map};
ghost use Rattle.clap.specs.Matches.{found_of};
ghost use Rattle.clap.specs.Walk.{rows_of};
ghost use Rattle.clap.specs.declared.builder.value_parser.ValueParser.TheVariants as parser;
ghost use Rattle.tool_words.specs.Command.{counts_to, greatest_entry, requests_flag, stop_at_option};
ghost use Rattle.tool_words.specs.Parse.{Passes};
ghost use Rattle.tool_words.specs.Source.{IsStopWithin};
ghost use Rattle.tool_words.specs.Words.{IsWithinLimits, Reads, named_in, words_given};

use crate::command::{DUMP_FLAG, PODS_WORD, PROBE_OPTION, REQUESTS_FLAG, TRACE_FLAG};
use crate::parse::{flag, lists, parse, stop_at, text, threads};
use crate::source::{Named, Source, source_of};
use clap::ArgMatches;
use cni_addr::{Items, NoMemory, Text};
use std::alloc::Global;

/// What the words say.
#[derive(Drop)]
pub struct Words {
    /// How many threads are to make a round: the number that `--threads` gives, 1 to 16, and 1 where it gives none.
    pub threads: u8,
    /// The calls are to be printed after the answers.
    pub trace: bool,
    /// The host is to be printed at the end.
    pub dump: bool,
    pub source: Source,
}

/// Why the words were not read.
#[derive(Clone, Copy, Debug, PartialEq, Eq)]
pub enum WordsEnd {
    /// The command line doesn't take the words.
    Usage,
    /// Memory ran out.
    NoMemory,
}

impl From<NoMemory> for WordsEnd {
    ghost use Rattle.tool_words.specs.declared.words.WordsEnd.TheVariants as ends;

    ghost from_gives = { λ _ e. e ≡ ends.NoMemory };

    fn from(_refused: NoMemory) -> WordsEnd {
        WordsEnd::NoMemory
    }
}

/// Reads the words, without the program's own name, as clap takes them (its documentation of `Command` and `Arg`).
///
/// Words that clap takes are refused where they name more than 64 lists. Where PODS begins `gen:`, a number from 1 to
/// 10,000 stands behind it, without a sign or a leading zero, and no list, `--requests` or `--probe` beside it; where
/// it begins `reg:`, none of these stands beside it either, and no `--stop-at`. Else they are refused too.
pub fn read_words(alloc: Global, words: &[Text]) -> Result<Words, WordsEnd>
    ensures exact { Reads (words_given words.now) result }
    ensures limits { IfOk result IsWithinLimits }
{
    let matches = parse(alloc, words)?;
    let Some(pods) = text(&matches, PODS_WORD) else {
        return Err(WordsEnd::Usage);
    };
    let named = read_named(alloc, &matches, pods)?;
    let Some(source) = source_of(alloc, named)? else {
        return Err(WordsEnd::Usage);
    };
    Ok(Words {
        threads: threads(&matches).unwrap_or(1),
        trace: flag(&matches, TRACE_FLAG),
        dump: flag(&matches, DUMP_FLAG),
        source,
    })
}

/// What the matches name beside this PODS.
fn read_named<'a>(alloc: Global, matches: &ArgMatches<'a>, pods: &str) -> Result<Named, NoMemory>
    requires stop_at { Passes matches.now stop_at_option (counts_to greatest_entry) }
    requires flag { Passes matches.now requests_flag parser.Bool }
    ensures named { IfOk result (λ named. named ≡ named_in (rows_of (found_of matches.now)) pods.now) }
    ensures stop { IfOk result (λ named. IsStopWithin named.stop_at) }
{
    Ok(Named {
        pods: Text::of(alloc, pods)?,
        lists: copied_texts(alloc, lists(matches))?,
        stop_at: stop_at(matches),
        requests: flag(matches, REQUESTS_FLAG),
        packets: copied_text(alloc, text(matches, PROBE_OPTION))?,
    })
}

fn copied_texts(alloc: Global, texts: &[&str]) -> Result<Items<Text>, NoMemory>
    ensures { IfOk result (λ copies. copies ≡ map (λ s. s.now) texts.now) }
{
    let mut copies = Items::new(alloc);
    for text in texts {
        copies.push(Text::of(alloc, text)?)?;
    }
    Ok(copies)
}

fn copied_text(alloc: Global, text: Option<&str>) -> Result<Option<Text>, NoMemory>
    ensures { IfOk result (λ copy. copy ≡ option_map (λ s. s.now) text.entry) }
{
    match text {
        Some(text) => Ok(Some(Text::of(alloc, text)?)),
        None => Ok(None),
    }
}
