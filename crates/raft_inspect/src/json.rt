//! What an opening would do, and the verdict of a check, as lines of JSON. Each call fails for want of memory alone, and some of its text
//! may then be appended.

ghost use Rattle.std.specs.Prelude.{◌≡◌, ◌++◌, string_bytes, None, Some, OnOk};
ghost use Rattle.raft_report.specs.JsonData.{json_line};
ghost use Rattle.raft_inspect.specs.Printed.{verdict_word};
ghost use Rattle.raft_inspect.specs.PrintedJson.{cut_data, empty_json, ending_json, opening_json, refused_data, verdict_data};

use crate::findings::Findings;
use crate::opening::Opening;
use raft_base::{AllocResult, Error, LogQueue};
use raft_engine::CutTail;
use raft_report::{QueueName, append_json_no_files, reason_as_json};
use std::alloc::Global;

/// Appends what an opening would do: a line if it refuses the files, else a line for each queue.
///
/// # Errors
///
/// Fails only if there is no memory. Some lines may then be appended.
pub(crate) fn append_json_opening(
    alloc: Global,
    opening: &Opening,
    text: &mut String,
) -> AllocResult<()>
    ensures { OnOk result (string_bytes text.new ≡ string_bytes text.old ++ opening_json opening.now) }
{
    match opening {
        Opening::Refuses(error) => append_json_refusal(alloc, error, text),
        Opening::Opens(recovered) => {
            append_json_cut_line(alloc, LogQueue::Append, &recovered.append, text)?;
            append_json_cut_line(alloc, LogQueue::Rewrite, &recovered.rewrite, text)
        }
    }
}

/// Appends the line which says that an opening refuses the files, and why.
fn append_json_refusal(alloc: Global, error: &Error, text: &mut String) -> AllocResult<()>
    ensures { OnOk result (string_bytes text.new ≡ string_bytes text.old ++ json_line (refused_data error.now)) }
{
    let why = reason_as_json(alloc, error)?;
    writeln!(text, "{{\"opening\":\"refused\",\"why\":{why}}}")
}

/// Appends the line which says what an opening would cut off the last file of `queue`; for `None`, that it is nothing.
fn append_json_cut_line(
    alloc: Global,
    queue: LogQueue,
    cut: &Option<CutTail>,
    text: &mut String,
) -> AllocResult<()>
    ensures { OnOk result (string_bytes text.new ≡ string_bytes text.old ++ json_line (cut_data queue cut.now)) }
{
    match cut {
        None => append_json_no_cut_line(queue, text),
        Some(tail) => append_json_tail_line(alloc, queue, tail, text),
    }
}

/// Appends the line which says that an opening would cut nothing off `queue`.
fn append_json_no_cut_line(queue: LogQueue, text: &mut String) -> AllocResult<()>
    ensures { OnOk result (string_bytes text.new ≡ string_bytes text.old ++ json_line (cut_data queue None)) }
{
    let (cut, name) = (0u64, QueueName(queue));
    writeln!(
        text,
        "{{\"cut\":{cut},\"opening\":\"opens\",\"queue\":{name}}}"
    )
}

/// Appends the line which says that an opening would cut a tail off the last file of `queue`: its file, offset, length and reason.
fn append_json_tail_line(
    alloc: Global,
    queue: LogQueue,
    tail: &CutTail,
    text: &mut String,
) -> AllocResult<()>
    ensures { OnOk result (string_bytes text.new ≡ string_bytes text.old ++ json_line (cut_data queue (Some tail.now))) }
{
    let why = reason_as_json(alloc, &tail.error)?;
    writeln!(
        text,
        "{{\"cut\":{},\"file\":{},\"offset\":{},\"opening\":\"opens\",\"queue\":{},\"why\":{why}}}",
        tail.len,
        tail.file,
        tail.offset,
        QueueName(queue)
    )
}

/// Appends the end of a check: a line for each queue that has no files, what an opening would do, and the verdict.
///
/// # Errors
///
/// Fails only if there is no memory. Some lines may then be appended.
pub(crate) fn append_json_ending(
    alloc: Global,
    found: &Findings,
    text: &mut String,
) -> AllocResult<()>
    ensures { OnOk result (string_bytes text.new ≡ string_bytes text.old ++ ending_json found.now) }
{
    append_json_no_files_if_empty(LogQueue::Append, found.append_files, text)?;
    append_json_no_files_if_empty(LogQueue::Rewrite, found.rewrite_files, text)?;
    append_json_opening(alloc, &found.opening, text)?;
    append_json_verdict(found, text)
}

/// Appends the line of a queue without files if it has none; else nothing. `files` says how many it has.
fn append_json_no_files_if_empty(
    queue: LogQueue,
    files: usize,
    text: &mut String,
) -> AllocResult<()>
    ensures { OnOk result (string_bytes text.new ≡ string_bytes text.old ++ empty_json queue files) }
{
    if files == 0 {
        return append_json_no_files(queue, text);
    }
    Ok(())
}

/// Appends the last line of a check, its verdict: `sound`, `damaged`, or `empty`.
fn append_json_verdict(found: &Findings, text: &mut String) -> AllocResult<()>
    ensures { OnOk result (string_bytes text.new ≡ string_bytes text.old ++ json_line (verdict_data (verdict_word found.now))) }
{
    let word = found.verdict();
    writeln!(text, "{{\"verdict\":\"{word}\"}}")
}
