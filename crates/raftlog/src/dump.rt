//! The command `raftlog dump`: the batches of files, item by item.

ghost use Rattle.std.specs.Prelude.{◌<◌, IfOk};
ghost use Rattle.raft_survey.specs.DumpedFiles.{AreDumped};
ghost use Rattle.raftlog.specs.Commands.{IsDumpDone, IsSaidIn};
ghost use Rattle.raftlog.specs.Words.{IsSelectionAsked};

use crate::errors::{ToolError, ToolResult};
use crate::host::Host;
use crate::lost::LostEntries;
use crate::options::{form_of, has_flag, number_of, version_of};
use crate::output::Lines;
use crate::source::{Found, find_files};
use crate::tools::{DONE, WRONG};
use clap::ArgMatches;
use raft_base::{AllocResult, LogQueue, Result, Version};
use raft_listing::{Selection, TextDump};
use raft_reading::ReadFiles;
use raft_report::{Form, JsonDump, append_json_missing_files, write_text};
use raft_survey::{BothSizes, append_missing_files, print_dump, walk_files};
use std::alloc::Global;
use std::io::Write;

/// Prints which files are missing, and the batches of the files that are there, item by item. Returns the status to end with.
///
/// # Errors
///
/// `Misused` if no index is at or above that of `--from` and below that of `--to`; `NothingOf` if nothing is printed of the region of
/// `--region`; those of the files and of the output; `Memory`. Some lines may be printed then.
pub(crate) fn run_dump<'a, R: Host, W: Write>(
    rt: &'a R,
    words: &ArgMatches<'a>,
    out: &mut W,
) -> ToolResult<u8> {
    let selection = selection_of(words)?;
    let times = if selection.values { 2 } else { 1 };
    let found = find_files(rt, words, times)?;
    let has_missing = print_missing_files(rt.alloc(), &found.sizes, form_of(words), out)?;
    let dumped = dump_selected(rt, words, &found, selection, out);
    found.source.end_progress();
    Ok(if dumped? || has_missing { WRONG } else { DONE })
}

/// Returns what the words of the command select. If they name no indexes, these are all below 2^64 - 1.
///
/// # Errors
///
/// `Misused` if they select no index at all.
fn selection_of(words: &ArgMatches<'_>) -> ToolResult<Selection>
    ensures asked { IfOk result (IsSelectionAsked words.now) }
    ensures some { IfOk result (λ selection. selection.from < selection.to) }
{
    let selection = Selection {
        region: number_of(words, "region"),
        from: number_of(words, "from").unwrap_or(0),
        to: number_of(words, "to").unwrap_or(u64::MAX),
        values: has_flag(words, "values"),
    };
    if selection.from >= selection.to {
        return Err(ToolError::Misused("no index is at or above --from and below --to"));
    }
    Ok(selection)
}

/// Prints a line for each gap between the file numbers of a queue, for both queues. Returns whether there is a gap.
///
/// # Errors
///
/// `Output` if the output takes no more; `Memory`. Some lines may be printed after the first.
fn print_missing_files<W: Write>(
    alloc: Global,
    sizes: &BothSizes,
    form: Form,
    out: &mut W,
) -> ToolResult<bool> {
    let mut text = String::new(alloc);
    append_missing_in_form(form, LogQueue::Append, sizes, &mut text)?;
    append_missing_in_form(form, LogQueue::Rewrite, sizes, &mut text)?;
    write_text(out, text.as_str())?;
    Ok(!text.is_empty())
}

/// Appends a line for each gap between the file numbers of one queue, as text or as JSON.
///
/// # Errors
///
/// Fails only if there is no memory. Some lines may then be appended.
fn append_missing_in_form(
    form: Form,
    queue: LogQueue,
    sizes: &BothSizes,
    text: &mut String,
) -> AllocResult<()> {
    match form {
        Form::Text => append_missing_files(queue, sizes.files_of(queue), text),
        Form::Json => append_json_missing_files(queue, sizes.files_of(queue), text),
    }
}

/// Prints the selected items of found files, batch by batch. Returns whether a batch can't be read, or with `--values` a selected entry
/// can't be. For the latter the files are walked through once more, unless a batch couldn't be read anyway.
///
/// # Errors
///
/// `NothingOf` if nothing is printed of the selected region; those of the files and of the output; `Memory`. Some lines may be printed
/// then.
fn dump_selected<R: Host, W: Write>(
    rt: &R,
    words: &ArgMatches<'_>,
    found: &Found<'_, R>,
    selection: Selection,
    out: &mut W,
) -> ToolResult<bool> {
    let (alloc, version, form) = (rt.alloc(), version_of(words), form_of(words));
    let out = found.source.output_over_bar(out);
    let (_out, dumped) = dump_files(
        alloc,
        &found.source,
        &found.sizes,
        version,
        selection,
        form,
        out,
    )?;
    if let (Some(region), true) = (selection.region, dumped.is_empty) {
        return Err(ToolError::NothingOf(region));
    }
    if dumped.is_damaged || !selection.values {
        return Ok(dumped.is_damaged);
    }
    let mut look = LostEntries::new(selection);
    walk_files(alloc, &found.source, version, &found.sizes, &mut look)?;
    Ok(look.is_any)
}

/// What came of a dump.
#[derive(Clone, Copy, PartialEq, Eq, Debug)]
struct Dumped {
    /// Whether nothing was printed.
    is_empty: bool,
    /// Whether there was a byte at which no batch could be read.
    is_damaged: bool,
}

/// Prints what stands in the files of both queues, many lines at once. Returns the output again, and what came of the dump.
///
/// # Errors
///
/// Those of the files and of the output; `Memory`. Some lines may then be printed, and the output is lost.
fn dump_files<S: ReadFiles, W: Write + Drop>(
    alloc: Global,
    source: &S,
    sizes: &BothSizes,
    version: Version,
    selection: Selection,
    form: Form,
    out: W,
) -> ToolResult<(W, Dumped)>
    ensures { IfOk result (λ dumped. IsDumpDone form (S.gives source.now) version sizes.now.append.items
        sizes.now.rewrite.items selection (W.contents out) (W.contents dumped.0) dumped.1.is_damaged) }
{
    let lines = Lines::new(alloc, out)?;
    let (lines, printed) = print_batches(alloc, source, sizes, version, selection, form, lines);
    let is_empty = lines.is_empty();
    let (out, is_damaged) = lines.finish(printed)?;
    Ok((
        out,
        Dumped {
            is_empty,
            is_damaged,
        },
    ))
}

/// Prints what stands in the files of both queues, as text or as JSON. Returns the output again, and whether there was a byte at which no
/// batch could be read, or the error of [`print_dump`].
fn print_batches<S: ReadFiles, W: Write + Drop>(
    alloc: Global,
    source: &S,
    sizes: &BothSizes,
    version: Version,
    selection: Selection,
    form: Form,
    lines: W,
) -> (W, Result<bool>)
    ensures { IfOk result.1 (λ is_damaged. AreDumped (IsSaidIn form) (S.gives source.now) version sizes.now.append.items
        sizes.now.rewrite.items selection (W.contents lines) (W.contents result.0) is_damaged) }
{
    match form {
        Form::Text => print_dump(alloc, source, version, sizes, TextDump, selection, lines),
        Form::Json => print_dump(alloc, source, version, sizes, JsonDump, selection, lines),
    }
}
