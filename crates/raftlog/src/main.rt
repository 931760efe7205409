//! The program `raftlog`: it looks into the log files of an engine. It prints an item batch, the tables that files give, or what stands in
//! a folder.
#![tactic(auto)]

mod check;
mod command_line;
mod cut;
mod dump;
mod errors;
mod files;
mod host;
mod lost;
mod options;
mod output;
mod plain;
mod progress;
mod regions;
mod source;
mod streams;
mod tools;

use raft_recover::{command_words, run_in_pieces, run_without_words};
use std::io::ErrorKind;
use std::process::ExitCode;

/// Does what the words of the command line ask for, and ends with the status of that.
fn main(rt: HostRuntime) -> ExitCode {
    let mut err = rt.stderr();
    let status = match command_words(&rt) {
        Ok(mut words) if plain::asks_for_plain_recovery(words.as_slice()) => {
            let _ = words.remove(1);
            plain::run_plain_recovery(&rt, words.as_slice(), &mut rt.stdout(), &mut err)
        }
        Ok(words) if tools::asks_for_tool(words.as_slice()) => {
            tools::run_command(&rt, words.as_slice(), &mut rt.stdout(), &mut err)
        }
        Ok(words) if tools::names_no_command(words.as_slice()) => {
            tools::refuse_words(words.as_slice(), &mut err)
        }
        Ok(words) => {
            let (mut input, mut out) = (rt.stdin(), rt.stdout());
            run_in_pieces(&rt, words.as_slice(), &mut input, &mut out, &mut err)
        }
        Err(error) if error.kind() == ErrorKind::InvalidData => tools::refuse_encoding(&mut err),
        Err(error) => run_without_words(&error, &mut err),
    };
    ExitCode::from(status)
}
