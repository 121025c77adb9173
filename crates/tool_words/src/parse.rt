//! A parse of the words, and what single arguments have in it.

ghost use Rattle.std.specs.Prelude.{◌≡◌, ◌≤◌, IfSome, map, option_map};
ghost use Rattle.clap.specs.Matches.{found_of};
ghost use Rattle.clap.specs.Walk.{first_of, rows_of};
ghost use Rattle.clap.specs.declared.builder.value_parser.ValueParser.TheVariants as parser;
ghost use Rattle.tool_words.specs.Command.{counts_to, greatest_entry, most_threads, stop_at_option, threads_option};
ghost use Rattle.tool_words.specs.Parse.{Parses, Passes};
ghost use Rattle.tool_words.specs.Words.{has_flag, lists_at, number_at};

use crate::command::{LISTS_WORD, STOP_AT_OPTION, THREADS_OPTION, make_command};
use crate::words::WordsEnd;
use clap::ArgMatches;
use clap::error::ErrorKind;
use cni_addr::Text;
use std::alloc::Global;

/// The matches of the words, as clap takes them for the command.
pub(crate) fn parse<'a>(alloc: Global, words: &'a [Text]) -> Result<ArgMatches<'a>, WordsEnd>
    ensures { Parses words.entry.now result }
{
    let Ok(command) = make_command(alloc) else {
        return Err(WordsEnd::NoMemory);
    };
    match command.try_get_matches_from(words) {
        Ok(matches) => Ok(matches),
        Err(error) => match error.kind() {
            ErrorKind::OutOfMemory => Err(WordsEnd::NoMemory),
            _ => Err(WordsEnd::Usage),
        },
    }
}

pub(crate) fn threads<'a>(matches: &ArgMatches<'a>) -> Option<u8>
    requires { Passes matches.now threads_option (counts_to most_threads) }
    ensures value { result ≡ number_at threads_option (rows_of (found_of matches.now)) }
    ensures range { IfSome result (λ n. (1 ≤ n) × (n ≤ most_threads)) }
{
    matches.get_one(THREADS_OPTION)
}

pub(crate) fn stop_at<'a>(matches: &ArgMatches<'a>) -> Option<u32>
    requires { Passes matches.now stop_at_option (counts_to greatest_entry) }
    ensures value { result ≡ number_at stop_at_option (rows_of (found_of matches.now)) }
    ensures range { IfSome result (λ n. (1 ≤ n) × (n ≤ greatest_entry)) }
{
    matches.get_one(STOP_AT_OPTION)
}

pub(crate) fn flag<'a>(matches: &ArgMatches<'a>, name: &str) -> bool
    requires { Passes matches.now name.now parser.Bool }
    ensures { result ≡ has_flag name.now (rows_of (found_of matches.now)) }
{
    matches.get_flag(name)
}

pub(crate) fn text<'a>(matches: &ArgMatches<'a>, name: &str) -> Option<&'a str>
    ensures { option_map (λ s. s.now) result ≡ first_of name.now (rows_of (found_of matches.now)) }
{
    matches.get_str(name)
}

pub(crate) fn lists<'m, 'a>(matches: &'m ArgMatches<'a>) -> &'m [&'a str]
    ensures { map (λ v. v.now) result.now ≡ lists_at (rows_of (found_of matches.entry.now)) }
{
    matches.get_strs(LISTS_WORD).unwrap_or_default()
}
