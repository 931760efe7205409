//! The values of the options that several commands have.

ghost use Rattle.std.specs.Prelude.{◌<◌, ◌≤◌};
ghost use Rattle.raftlog.specs.Words.{IsFlag, IsFormAsked, IsNumberIfNamed, IsVersionAsked};

use crate::host::Host;
use clap::ArgMatches;
use raft_base::Version;
use raft_recover::MAX_WORKERS;
use raft_report::Form;
use std::thread::available_parallelism;

/// Returns the number that the words of a command name by the option `name`; `None` if they name none.
pub(crate) fn number_of(words: &ArgMatches<'_>, name: &str) -> Option<u64>
    ensures { IsNumberIfNamed words.now name.now result }
{
    words.get_one::<u64>(name)
}

/// Tests whether the words of a command have the flag `name`.
pub(crate) fn has_flag(words: &ArgMatches<'_>, name: &str) -> bool
    ensures { IsFlag words.now name.now result }
{
    words.get_flag(name)
}

/// Returns the format version that the words of a command name; version 2 if they name none.
pub(crate) fn version_of(words: &ArgMatches<'_>) -> Version
    ensures { IsVersionAsked words.now result }
{
    match number_of(words, "format") {
        Some(1) => Version::V1,
        _ => Version::V2,
    }
}

/// Returns the form in which to print: JSON if the words of a command have `--json`, else text.
pub(crate) fn form_of(words: &ArgMatches<'_>) -> Form
    ensures { IsFormAsked words.now result }
{
    if has_flag(words, "json") {
        Form::Json
    } else {
        Form::Text
    }
}

/// Returns how many threads to use, 1 to 256: as many as the words of a command name, or as the machine has processors if they name none; 1
/// if that isn't known.
pub(crate) fn workers_of<R: Host>(rt: &R, words: &ArgMatches<'_>) -> usize
    ensures { (0 < result) × (result ≤ 256) }
{
    let count = match number_of(words, "workers") {
        Some(count) => count.min(MAX_WORKERS as u64) as usize,
        None => match available_parallelism(rt) {
            Ok(count) => count.get(),
            Err(_) => 1,
        },
    };
    count.clamp(1, MAX_WORKERS)
}
