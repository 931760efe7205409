//! Times the libraries of this repository. Without words it does nothing. Each word names what is timed;
//! `recover` and the words after it, which are those of `raftlog recover`, time the recovery of files, and
//! with `merge` before them the merging of contexts.
#![tactic(auto)]

mod batches;
mod blocks;
mod checksum;
mod key_values;
mod logs;
mod merges;
mod numbers;
mod recovery;
mod shared;
mod tables;
mod timing;

use logs::{LogTimes, print_log_times};
use raft_records::Result;
use raft_recover::command_words;
use std::io;

/// Times what the words of the command line name, and prints the times. What can't be timed is reported on
/// standard error.
///
/// # Errors
///
/// Those of reading the words and of the output.
fn main(rt: HostRuntime) -> io::Result<()> {
    let words = command_words(&rt)?;
    match words.as_slice().split_first() {
        Some((word, _)) if word.as_str() == "recover" => {
            print_times_or_error(&rt, "", recovery::time_recovery(&rt, words.as_slice()))
        }
        Some((word, behind)) if word.as_str() == "merge" => {
            print_times_or_error(&rt, "merge ", merges::time_merges(&rt, behind))
        }
        _ => {
            for word in &words {
                let timed = if word.as_str() == "shared" {
                    shared::time_shared_tables(&rt, rt.alloc())
                } else {
                    time_named_work(&rt, word.as_str())
                };
                print_error(&rt, timed)?;
            }
            Ok(())
        }
    }
}

/// Prints the two times of `times` in milliseconds, or its error on standard error. For `Ok(None)` it prints
/// on standard error which words the program takes: those of `raftlog recover`, after the word or words
/// `before`.
///
/// # Errors
///
/// Those of the output.
fn print_times_or_error(
    rt: &HostRuntime,
    before: &str,
    times: Result<Option<LogTimes>>,
) -> io::Result<()> {
    match times {
        Ok(times) => print_log_times(rt, before, times),
        Err(e) => print_error(rt, Err(e)),
    }
}

/// Prints the error of `timed` on standard error. Does nothing if there is none.
///
/// # Errors
///
/// Those of the output.
fn print_error(rt: &HostRuntime, timed: Result<()>) -> io::Result<()> {
    match timed {
        Ok(()) => Ok(()),
        Err(e) => eprintln!(rt; "raft_bench: {e}"),
    }
}

/// Times what `word` names, and prints a line for each work. For other words it prints the usage on standard
/// error.
///
/// # Errors
///
/// Those of what is timed, and of the output.
fn time_named_work(rt: &HostRuntime, word: &str) -> Result<()> {
    match word {
        "crc32" => checksum::time_checksums(rt),
        "varint" => numbers::time_numbers(rt),
        "batches" => batches::time_batches(rt),
        "memtable" => Ok(tables::time_tables(rt)?),
        "blocks" => Ok(blocks::time_blocks(rt)?),
        _ => Ok(eprintln!(rt;
            "usage: raft_bench [crc32] [varint] [batches] [memtable] [blocks] [shared], or recover .., or merge .."
        )?),
    }
}
