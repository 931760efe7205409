//! Dispatch of the commands that look into a folder, and the statuses with which they end.

use crate::check::run_check;
use crate::command_line::parser_of_commands;
use crate::cut::run_cut;
use crate::dump::run_dump;
use crate::errors::{ToolError, ToolResult};
use crate::files::print_files;
use crate::host::Host;
use crate::regions::show_regions;
use clap::ArgMatches;
use std::io::Write;

/// The first words that ask for a command which looks into a folder, or for help.
const FIRST_WORDS: [&str; 6] = ["check", "regions", "dump", "files", "cut", "help"];

/// The words that ask for help with any command, or for the version.
const HELP_WORDS: [&str; 4] = ["--help", "-h", "--version", "-V"];

/// What is printed to say which commands there are.
const USAGE: &str = "\
usage: raftlog check|regions|dump|files <folder>     (or files, by --append and --rewrite)
       raftlog cut --dry-run|--yes <folder>
       raftlog batch <queue> <seq> <version>
       raftlog recover [--plain] <queue> <version> <workers> <seq>=<path>..
For more: raftlog --help, or raftlog <command> --help
";

/// What is printed if a word isn't UTF-8.
const NO_UTF8: &str = "\
raftlog: a word isn't UTF-8: a folder or file whose path isn't can be named by a link to it, or from within by `.`
";

/// The status if the command is done. After `check` and `dump` it also says that nothing is wrong, after `regions`, `files` and `cut` that
/// an opening accepts the files.
pub(crate) const DONE: u8 = 0;

/// The status if `check` or `dump` finds that something is wrong with the files, if an opening refuses them, or if a command isn't done.
pub(crate) const WRONG: u8 = 1;

/// The status if the words of the command line ask for nothing that can be done.
pub(crate) const MISUSED: u8 = 2;

/// Tests whether the words of a command line ask for a command that looks into a folder, or for help with any command.
pub(crate) fn asks_for_tool(words: &[String]) -> bool {
    match words.first() {
        Some(word) if FIRST_WORDS.contains(&word.as_str()) => true,
        Some(word) if is_help(word) => true,
        Some(_) => words.get(1).is_some_and(|word: &String| is_help(word)),
        None => false,
    }
}

/// Tests whether a word asks for help, or for the version.
fn is_help(word: &String) -> bool {
    HELP_WORDS.contains(&word.as_str())
}

/// Tests whether the first word is neither `batch` nor `recover`, or there is no word. Asked after [`asks_for_tool`], this says that no
/// command is named.
pub(crate) fn names_no_command(words: &[String]) -> bool {
    match words.first() {
        Some(word) => word.as_str() != "batch" && word.as_str() != "recover",
        None => true,
    }
}

/// Prints on `err` that the first word names no command, and which commands there are. Returns the status to end with.
pub(crate) fn refuse_words<E: Write>(words: &[String], err: &mut E) -> u8 {
    let _ = match words.first() {
        Some(word) => writeln!(err, "raftlog: {word}: the first word names a command"),
        None => writeln!(err, "raftlog: the first word names a command"),
    };
    let _ = err.write_all(USAGE.as_bytes());
    MISUSED
}

/// Prints on `err` that a word isn't UTF-8, and which commands there are. Returns the status to end with.
pub(crate) fn refuse_encoding<E: Write>(err: &mut E) -> u8 {
    let _ = err.write_all(NO_UTF8.as_bytes());
    let _ = err.write_all(USAGE.as_bytes());
    MISUSED
}

/// Does what the words of a command that looks into a folder ask for, and prints the answer, or its help, on `out`. Returns the status to
/// end with. If it isn't done, a line on `err` says why. It isn't inlined, so that the other commands don't pay for its frame.
#[inline(never)]
pub(crate) fn run_command<'a, R: Host, W: Write, E: Write>(
    rt: &'a R,
    words: &'a [String],
    out: &mut W,
    err: &mut E,
) -> u8 {
    let command = match parser_of_commands(rt.alloc()) {
        Ok(command) => command,
        Err(_) => return refuse_command(&ToolError::Memory, err),
    };
    match command.try_get_matches_from(without_help_of_help(words)) {
        Ok(matches) => match answer_command(rt, &matches, out) {
            Ok(status) => status,
            Err(error) => refuse_command(&error, err),
        },
        Err(shown) if shown.exit_code() == 0 => match write!(out, "{shown}") {
            Ok(()) => DONE,
            Err(error) => refuse_command(&ToolError::Output(error), err),
        },
        Err(shown) => {
            let _ = write!(err, "{shown}");
            MISUSED
        }
    }
}

/// Returns the words, without the second one if they are `help` and a word that asks for help, as `help --help`.
fn without_help_of_help(words: &[String]) -> &[String] {
    match words {
        [first, second] if first.as_str() == "help" && is_help(second) => words.split_at(1).0,
        _ => words,
    }
}

/// Prints on `err` why a command isn't done. Returns the status to end with.
fn refuse_command<E: Write>(error: &ToolError, err: &mut E) -> u8 {
    let _ = writeln!(err, "raftlog: {error}");
    match error {
        ToolError::Misused(_) => MISUSED,
        _ => WRONG,
    }
}

/// Does what the parsed words of a command ask for. Returns the status to end with.
///
/// # Errors
///
/// Those of the command; `Misused` if the words name no command.
fn answer_command<'a, R: Host, W: Write>(
    rt: &'a R,
    matches: &ArgMatches<'a>,
    out: &mut W,
) -> ToolResult<u8> {
    match matches.subcommand() {
        Some(("check", words)) => run_check(rt, words, out),
        Some(("regions", words)) => show_regions(rt, words, out),
        Some(("dump", words)) => run_dump(rt, words, out),
        Some(("files", words)) => print_files(rt, words, out),
        Some(("cut", words)) => run_cut(rt, words, out),
        _ => Err(ToolError::Misused("no command is named: raftlog --help")),
    }
}
