//! Crashes an engine in histories of all that the engine does, and opens what is left.
//!
//! `raft_crashes SEED COUNT` goes through some histories that are written down, each of which lost records or
//! brought some back in an engine that broke a rule, and then through COUNT random ones, with the seeds from
//! SEED on. After each *ask*, a call of the engine on its files, it tries crashes: what was synced is left,
//! and of the rest a prefix of each queue. What is left is recovered and opened, and the openings crash in
//! turn. The records have to be those of the batches that are left, by plain maps that know nothing of the
//! engine. The status is 1 if something else was read.
#![tactic(auto)]

mod choice;
mod crashes;
mod disk;
mod faults;
mod found;
mod history;
mod noted_files;
mod queue_disk;
mod random;

use crashes::{Crashes, Host};
use raft_base::Result;
use raft_recover::command_words;
use std::process::ExitCode;

/// What is printed for `--help`, and for other words that ask for nothing.
const USAGE: &str =
    "usage: raft_crashes SEED COUNT   (crashes an engine anywhere in COUNT random histories from a seed on)";

/// Does what the words of the command line ask for. Returns the status with which the process ends: 0 if all
/// records were those that there must be, 1 if some weren't, and 2, with a hint at the words, if they ask for
/// nothing.
///
/// # Errors
///
/// Those of [`try_all_histories`]; `Io` for the words or the output.
fn main(rt: HostRuntime) -> Result<ExitCode> {
    let words = command_words(&rt)?;
    if words.first().is_some_and(|word: &String| word.as_str() == "--help"
        || word.as_str() == "-h")
    {
        println!(rt; "{USAGE}")?;
        return Ok(ExitCode::SUCCESS);
    }
    let Some((seed, count)) = parse_seed_and_count(words.as_slice()) else {
        eprintln!(rt; "{USAGE}")?;
        return Ok(ExitCode::from(2));
    };
    if try_all_histories(&rt, seed, count)? {
        Ok(ExitCode::SUCCESS)
    } else {
        Ok(ExitCode::FAILURE)
    }
}

/// Returns the seed and the count that `words` name, or `None` if they aren't two numbers.
fn parse_seed_and_count(words: &[String]) -> Option<(u64, u64)> {
    let [seed, count] = words else {
        return None;
    };
    Some((
        seed.as_str().parse::<u64>().ok()?,
        count.as_str().parse::<u64>().ok()?,
    ))
}

/// Goes through the histories that are written down, and through `count` random ones with the seeds from
/// `seed` on, and prints how much was tried and how many differences there were. Returns whether there were
/// none.
///
/// # Errors
///
/// `Io` for the output; `Memory`; those of beginning a history.
fn try_all_histories<R: Host>(rt: &R, seed: u64, count: u64) -> Result<bool> {
    let mut crashes = Crashes {
        rt,
        tried: 0,
        recoveries: 0,
        different: 0,
    };
    let faults = faults::try_written_histories(&mut crashes)?;
    for number in 0..count {
        random::try_random_history(&mut crashes, seed.wrapping_add(number))?;
    }
    eprintln!(rt;
        "{} crashes, {} recoveries",
        crashes.tried, crashes.recoveries
    )?;
    let different = crashes.different;
    println!(rt;
        "{faults} histories of faults, {count} from seed {seed} on: {different} different"
    )?;
    Ok(crashes.different == 0)
}
