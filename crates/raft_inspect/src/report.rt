//! The lines that say what an opening would do, and that a queue has no files. Each call that appends fails for want of memory alone, and
//! some of its text may then be appended.

ghost use Rattle.std.specs.Prelude.{◌≡◌, ◌++◌, codes, string_bytes, None, Some, IfErr, OnErr, OnOk};
ghost use Rattle.std.specs.Io.KnownBytes.{Appends};
ghost use Rattle.raft_listing.specs.Reasons.{reason_text};
ghost use Rattle.raft_inspect.specs.CutShort.{IsTextCutShort};
ghost use Rattle.raft_inspect.specs.Faults.{IsUnprinted};
ghost use Rattle.raft_inspect.specs.Printed.{cut_line, empty_line, opening_text, refused_line, tail_words};
ghost use Rattle.raft_inspect.specs.PrintedForms.{opening_lines};

use crate::json::append_json_opening;
use crate::opening::Opening;
use raft_base::{AllocResult, Error, LogQueue};
use raft_engine::CutTail;
use raft_listing::append_reason;
use raft_replay::segment::queue_name;
use raft_report::{Form, PrintResult, write_text};
use raft_survey::append_no_files;
use std::alloc::Global;
use std::io::Write;

/// Prints to `out` what an opening would do: a line if it refuses the files, else a line for each queue.
///
/// # Errors
///
/// `Output` if the output takes no more; `Files` of `Memory`. Nothing is printed then, or a prefix, but not all of it.
pub fn print_opening<W: Write>(
    form: Form,
    alloc: Global,
    opening: &Opening,
    out: &mut W,
) -> PrintResult<()>
    ensures ok { OnOk result (Appends (W.contents out.old) (W.contents out.new) (opening_lines form opening.now)) }
    ensures cut_short { OnErr result (IsTextCutShort (W.contents out.old) (W.contents out.new) (opening_lines form opening.now)) }
    ensures fault { IfErr result IsUnprinted }
{
    let mut text = String::new(alloc);
    append_opening_in_form(form, alloc, opening, &mut text)?;
    write_text(out, text.as_str())
}

/// Appends what an opening would do, as text or as JSON.
///
/// # Errors
///
/// Fails only if there is no memory. Some lines may then be appended.
fn append_opening_in_form(
    form: Form,
    alloc: Global,
    opening: &Opening,
    text: &mut String,
) -> AllocResult<()>
    ensures { OnOk result (string_bytes text.new ≡ string_bytes text.old ++ opening_lines form opening.now) }
{
    match form {
        Form::Text => append_opening(opening, text),
        Form::Json => append_json_opening(alloc, opening, text),
    }
}

/// Appends what an opening would do, as text: a line if it refuses the files, else a line for each queue.
///
/// # Errors
///
/// Fails only if there is no memory. Some of the text may then be appended.
pub(crate) fn append_opening(opening: &Opening, text: &mut String) -> AllocResult<()>
    ensures { OnOk result (string_bytes text.new ≡ string_bytes text.old ++ opening_text opening.now) }
{
    match opening {
        Opening::Refuses(error) => append_refusal(error, text),
        Opening::Opens(recovered) => {
            append_cut_line(LogQueue::Append, &recovered.append, text)?;
            append_cut_line(LogQueue::Rewrite, &recovered.rewrite, text)
        }
    }
}

/// Appends the line which says that an opening refuses the files, and why.
fn append_refusal(error: &Error, text: &mut String) -> AllocResult<()>
    ensures { OnOk result (string_bytes text.new ≡ string_bytes text.old ++ refused_line (reason_text error.now)) }
{
    text.push_str("opening: refused: ")?;
    append_reason_line(error, text)
}

/// Appends the line which says what an opening would cut off the last file of `queue`; for `None`, that it is nothing.
fn append_cut_line(queue: LogQueue, cut: &Option<CutTail>, text: &mut String) -> AllocResult<()>
    ensures { OnOk result (string_bytes text.new ≡ string_bytes text.old ++ cut_line queue cut.now) }
{
    match cut {
        None => append_no_cut_line(queue, text),
        Some(tail) => append_tail_line(queue, tail, text),
    }
}

/// Appends the line which says that an opening would cut nothing off `queue`.
fn append_no_cut_line(queue: LogQueue, text: &mut String) -> AllocResult<()>
    ensures { OnOk result (string_bytes text.new ≡ string_bytes text.old ++ cut_line queue None) }
{
    let name = queue_name(queue);
    writeln!(
        text,
        "opening: would open, and cut nothing of the {name} queue"
    )
}

/// Appends the line which says that an opening would cut a tail off the last file of `queue`, and why.
fn append_tail_line(queue: LogQueue, tail: &CutTail, text: &mut String) -> AllocResult<()>
    ensures { OnOk result (string_bytes text.new ≡ string_bytes text.old ++ cut_line queue (Some tail.now)) }
{
    append_tail_words(queue, tail, text)?;
    append_reason_line(&tail.error, text)
}

/// Appends the line about a tail up to the reason: how many bytes of which file would be cut off, and from which offset on.
fn append_tail_words(queue: LogQueue, tail: &CutTail, text: &mut String) -> AllocResult<()>
    ensures { OnOk result (string_bytes text.new ≡ string_bytes text.old ++ tail_words queue tail.now) }
{
    let name = queue_name(queue);
    write!(
        text,
        "opening: would open, and cut {} bytes of {name} file {} from offset {} on: ",
        tail.len, tail.file, tail.offset
    )
}

/// Appends the text of an error, and ends the line.
fn append_reason_line(reason: &Error, text: &mut String) -> AllocResult<()>
    ensures { OnOk result (string_bytes text.new ≡ string_bytes text.old ++ (reason_text reason.now ++ codes "\n")) }
{
    append_reason(reason, text)?;
    text.push_str("\n")
}

/// Appends the line of a queue without files if it has none; else nothing. `files` says how many it has.
///
/// # Errors
///
/// Fails only if there is no memory. Some of the line may then be appended.
pub(crate) fn append_no_files_if_empty(
    queue: LogQueue,
    files: usize,
    text: &mut String,
) -> AllocResult<()>
    ensures { OnOk result (string_bytes text.new ≡ string_bytes text.old ++ empty_line queue files) }
{
    if files == 0 {
        return append_no_files(queue, text);
    }
    Ok(())
}
