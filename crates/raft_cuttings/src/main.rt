//! Recovers log files at every cutting: cuts the list of their batches, 16 at most, into segments in every
//! possible way. The words of the command line are those of `raftlog recover`. For each cutting, the segments
//! are read and merged from the left, from the right and by halves, and by 1 to 4 workers. If all give the
//! same, status and lines are those of `raftlog recover`. If one gives something else than the batches uncut,
//! the status is 3, and a line on standard error says which.
#![tactic(auto)]

mod cuttings;

use cuttings::{Answer, Found, Way};
use raft_records::Result;
use raft_recover::command_words;
use std::io::Write;
use std::process::ExitCode;

/// The status if all cuttings give the same tables.
const DONE: u8 = 0;

/// The status if all cuttings are refused, or the files can't be read or the lines printed.
const REFUSED: u8 = 1;

/// The status for words that ask for nothing or can't be read.
const MISUSED: u8 = 2;

/// The status if a cutting gives something else than the batches uncut.
const DIFFERENT: u8 = 3;

/// What is printed for `--help`, and for words that ask for nothing.
const USAGE: &str =
    "usage: raft_cuttings recover <queue> <version> <workers> <seq>=<path>..   (recovers files of at most 16 batches at every cutting)";

/// Does what the words of the command line ask for, and returns the status with which the process ends. The
/// status is 0 if all cuttings give the same tables, and for `--help`; 1 if they are all refused, the files
/// can't be read or have more than 16 batches, or the lines can't be printed; 2 for words that ask for
/// nothing or can't be read; 3 if one cutting gives something else.
fn main(rt: HostRuntime) -> ExitCode {
    let Ok(words) = command_words(&rt) else {
        return ExitCode::from(MISUSED);
    };
    if words.first().is_some_and(|word: &String| word.as_str() == "--help"
        || word.as_str() == "-h")
    {
        let _ = println!(rt; "{USAGE}");
        return ExitCode::from(DONE);
    }
    let found = cuttings::try_cuttings_of_words(&rt, words.as_slice());
    ExitCode::from(print_found(&rt, found))
}

/// Prints what was found, and returns the status with which the process ends.
fn print_found(rt: &HostRuntime, found: Result<Option<Found>>) -> u8 {
    match found {
        Ok(Some(Found::Same(answer))) => print_answer(rt, answer),
        Ok(Some(Found::Different { cutting, way })) => print_difference(rt, cutting, way),
        Ok(None) => {
            let _ = eprintln!(rt; "{USAGE}");
            MISUSED
        }
        Err(_) => REFUSED,
    }
}

/// Prints the lines of `answer`. Returns the status with which the process ends: 0 once they are printed; 1
/// if they can't be, or for a refusal, for which it prints nothing.
fn print_answer(rt: &HostRuntime, answer: Answer) -> u8 {
    let Answer::Lines(lines) = answer else {
        return REFUSED;
    };
    if rt.stdout().write_all(&lines).is_ok() {
        DONE
    } else {
        REFUSED
    }
}

/// Prints on standard error that the cutting numbered `cutting`, read and merged in this `way`, gives
/// something else. Returns the status 3.
fn print_difference(rt: &HostRuntime, cutting: u64, way: Way) -> u8 {
    let way = match way {
        Way::Left => "from the left",
        Way::Right => "from the right",
        Way::Halves => "by halves",
        Way::Workers(_) => "by workers",
    };
    let _ = eprintln!(rt; "raft_cuttings: cutting {cutting}, {way}: other than the batches uncut");
    DIFFERENT
}
