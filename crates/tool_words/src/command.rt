//! The command line by the builder of clap.

ghost use Rattle.std.specs.Prelude.{◌≡◌, IfOk};
ghost use Rattle.clap.specs.Words.{app_of};
ghost use Rattle.tool_words.specs.Command.{IsArg, bare_app, flag_rule, list_rule, pods_rule, probe_rule, stop_rule};
ghost use Rattle.tool_words.specs.Command.{the_app, threads_rule};

use clap::{Arg, ArgAction, Command, value_parser};
use std::alloc::{AllocError, Global};

/// The most threads that may be asked for.
const MOST_THREADS: i64 = 16;

// What the command line calls its options, flags and words.

pub(crate) const THREADS_OPTION: &str = "threads";

pub(crate) const STOP_AT_OPTION: &str = "stop-at";

pub(crate) const TRACE_FLAG: &str = "trace";

pub(crate) const DUMP_FLAG: &str = "dump";

pub(crate) const REQUESTS_FLAG: &str = "requests";

pub(crate) const PROBE_OPTION: &str = "probe";

pub(crate) const PODS_WORD: &str = "PODS";

pub(crate) const LISTS_WORD: &str = "LIST";

fn threads<'a>(alloc: Global) -> Arg<'a>
    ensures { IsArg result threads_rule }
{
    Arg::new(alloc, THREADS_OPTION)
        .long(THREADS_OPTION)
        .value_parser(value_parser!(u8).range(1..=MOST_THREADS))
}

fn stop_at<'a>(alloc: Global) -> Arg<'a>
    ensures { IsArg result stop_rule }
{
    Arg::new(alloc, STOP_AT_OPTION)
        .long(STOP_AT_OPTION)
        .value_parser(value_parser!(u32).range(1..))
}

fn flag<'a>(alloc: Global, name: &'a str) -> Arg<'a>
    ensures { IsArg result (flag_rule name.entry.now) }
{
    Arg::new(alloc, name)
        .long(name)
        .action(ArgAction::SetTrue)
        .value_parser(value_parser!(bool))
}

fn probe<'a>(alloc: Global) -> Arg<'a>
    ensures { IsArg result probe_rule }
{
    Arg::new(alloc, PROBE_OPTION).long(PROBE_OPTION)
}

fn pods<'a>(alloc: Global) -> Arg<'a>
    ensures { IsArg result pods_rule }
{
    Arg::new(alloc, PODS_WORD).required(true)
}

fn list<'a>(alloc: Global) -> Arg<'a>
    ensures { IsArg result list_rule }
{
    Arg::new(alloc, LISTS_WORD).num_args(0..)
}

fn bare<'a>(alloc: Global) -> Command<'a>
    ensures { app_of result ≡ bare_app }
{
    Command::new(alloc, "cnitool")
        .no_binary_name(true)
        .disable_help_flag(true)
        .disable_version_flag(true)
}

/// The command: options, flags, PODS and LISTs.
pub(crate) fn make_command<'a>(alloc: Global) -> Result<Command<'a>, AllocError>
    ensures { IfOk result (λ c. app_of c ≡ the_app) }
{
    let with_threads = bare(alloc).arg(threads(alloc))?;
    let with_stop = with_threads.arg(stop_at(alloc))?;
    let with_trace = with_stop.arg(flag(alloc, TRACE_FLAG))?;
    let with_dump = with_trace.arg(flag(alloc, DUMP_FLAG))?;
    let with_requests = with_dump.arg(flag(alloc, REQUESTS_FLAG))?;
    let with_probe = with_requests.arg(probe(alloc))?;
    let with_pods = with_probe.arg(pods(alloc))?;
    let with_list = with_pods.arg(list(alloc))?;
    Ok(with_list)
}
