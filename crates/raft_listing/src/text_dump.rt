//! The text form of a dump: a line for each batch and each item.

ghost use Rattle.std.specs.Prelude.{◌≡◌, ◌≤◌, ◌++◌, length, string_bytes, OnOk};
ghost use Rattle.raft_listing.specs.Dumped.{batch_line, damage_line, file_words};

use crate::damage::append_reason;
use crate::dump::DumpForm;
use crate::items::append_items;
use crate::selection::Selection;
use raft_base::{AllocResult, Error, Result};
use raft_records::{FilePart, LogItem};
use raft_replay::segment::queue_name;

/// Writes a dump as text. A batch of which some item is selected gets a line with its file, its offset, its length in bytes and the number
/// of all its items; a line for each selected item follows. A byte at which no batch can be read gets a line with the reason, whatever is
/// selected.
#[derive(Clone, Copy, PartialEq, Eq, Debug)]
pub struct TextDump;

impl DumpForm for TextDump {
    ghost use Rattle.raft_listing.specs.Dumped.{IsMetText};

    ghost says = { IsMetText };

    /// Appends a line for the batch that stands from position `at` to position `next` of the part's bytes, and below it the lines of its
    /// selected items. Appends nothing if none of `items` is selected.
    ///
    /// # Errors
    ///
    /// `Memory`. Some of the text may then be appended.
    fn append_batch(
        &self,
        part: &FilePart,
        at: usize,
        next: usize,
        items: &[LogItem],
        selection: &Selection,
        text: &mut String,
    ) -> Result<()> {
        let mut lines = String::new(part.allocator());
        append_items(part, items, selection, &mut lines)?;
        if lines.is_empty() {
            return Ok(());
        }
        append_batch_line(part, at, next, items.len(), text)?;
        text.push_str(lines.as_str())?;
        Ok(())
    }

    /// Appends a line which says that no batch can be read at position `at` of the part's bytes, and why. It does so whatever is selected.
    ///
    /// # Errors
    ///
    /// Fails only if there is no memory. Some of the line may then be appended.
    fn append_damage(
        &self,
        part: &FilePart,
        at: usize,
        _next: Option<usize>,
        reason: &Error,
        _selection: &Selection,
        text: &mut String,
    ) -> AllocResult<()> {
        append_damage_line(part, at, reason, text)
    }
}

/// Appends the words with which a line begins: the queue and the number of the part's file, and the offset in that file of position `at` of
/// the part. Fails only if there is no memory; some of the words may then be appended.
fn append_file_and_offset(part: &FilePart, at: usize, text: &mut String) -> AllocResult<()>
    requires { at ≤ length part.now.bytes }
    ensures { OnOk result (string_bytes text.new ≡ string_bytes text.old ++ file_words part.now at) }
{
    let id = part.id();
    let queue = queue_name(id.queue);
    let offset = part.offset() + at as u64;
    write!(text, "{queue} file {} offset {offset}", id.seq)
}

/// Appends the line of a batch with `count` items that stands from position `at` to position `next` of the part's bytes. Fails only if
/// there is no memory; some of the line may then be appended.
fn append_batch_line(
    part: &FilePart,
    at: usize,
    next: usize,
    count: usize,
    text: &mut String,
) -> AllocResult<()>
    requires { (at ≤ length part.now.bytes) × (at ≤ next) }
    ensures { OnOk result (string_bytes text.new ≡ string_bytes text.old ++ batch_line part.now at next count) }
{
    append_file_and_offset(part, at, text)?;
    let len = next - at;
    writeln!(text, " length {len} items {count}")
}

/// Appends a line which says that no batch can be read at position `at` of the part's bytes, for `reason`. Fails only if there is no
/// memory; some of the line may then be appended.
fn append_damage_line(
    part: &FilePart,
    at: usize,
    reason: &Error,
    text: &mut String,
) -> AllocResult<()>
    requires { at ≤ length part.now.bytes }
    ensures { OnOk result (string_bytes text.new ≡ string_bytes text.old ++ damage_line part.now at reason.now) }
{
    append_file_and_offset(part, at, text)?;
    text.push_str(" unreadable: ")?;
    append_reason(reason, text)?;
    text.push_str("\n")
}
