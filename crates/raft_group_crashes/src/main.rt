//! Crashes a store with atomic groups in random histories. `raft_group_crashes SEED HISTORIES BY_BYTES` tries
//! `HISTORIES` of them, with the seeds from `SEED` on, and in the first `BY_BYTES` of them a crash at each
//! byte. The status is 1 if a store recovered something else than it had to.
//!
//! The store is written over the calls below `Engine`, which has no atomic groups of its own.
#![tactic(auto)]

mod crashes;
mod folder_pipe;
mod logs;
mod store;

use raft_base::Result;
use raft_recover::command_words;
use std::process::ExitCode;

/// What is printed for `--help`, and for other words that ask for nothing.
const USAGE: &str =
    "usage: raft_group_crashes SEED HISTORIES BY_BYTES   (crashes a store with atomic groups in so many random histories from a seed on)";

/// Does what the words of the command line ask for. Returns the status with which the process ends: 0 if each
/// store had what it must have, 1 if one had something else, and 2, with a hint at the words, if they ask for
/// nothing.
///
/// # Errors
///
/// Those of [`crashes::try_histories`]; `Io` for the words or the output.
fn main(rt: HostRuntime) -> Result<ExitCode> {
    let words = command_words(&rt)?;
    if words.first().is_some_and(|word: &String| word.as_str() == "--help"
        || word.as_str() == "-h")
    {
        println!(rt; "{USAGE}")?;
        return Ok(ExitCode::SUCCESS);
    }
    let Some((seed, histories, by_bytes)) = parse_seed_and_counts(words.as_slice()) else {
        eprintln!(rt; "{USAGE}")?;
        return Ok(ExitCode::from(2));
    };
    if crashes::try_histories(&rt, seed, histories, by_bytes)? {
        Ok(ExitCode::SUCCESS)
    } else {
        Ok(ExitCode::FAILURE)
    }
}

/// Returns the three numbers that `words` name: the seed, how many histories there are, and in how many of
/// these a crash is tried at each byte. Returns `None` if `words` aren't three numbers.
fn parse_seed_and_counts(words: &[String]) -> Option<(u64, u64, u64)> {
    let [seed, histories, by_bytes] = words else {
        return None;
    };
    Some((
        seed.as_str().parse::<u64>().ok()?,
        histories.as_str().parse::<u64>().ok()?,
        by_bytes.as_str().parse::<u64>().ok()?,
    ))
}
