//! Dumps of log files as lines of JSON. Each call that appends fails for want of memory alone, and some of its text may then be appended.

ghost use Rattle.std.specs.Prelude.{◌≡◌, ◌≤◌, ◌++◌, length, string_bytes, OnOk};
ghost use Rattle.raft_report.specs.JsonData.{json_line};
ghost use Rattle.raft_report.specs.JsonItems.{place_data};
ghost use Rattle.raft_report.specs.JsonPieces.{place_front};

use crate::json::{QueueName, reason_as_json};
use crate::json_items::append_json_items;
use raft_base::{AllocResult, Error, Result};
use raft_listing::{DumpForm, Selection};
use raft_records::{FilePart, LogItem};

/// Writes a dump as lines of JSON: one for each selected item, and one for each byte at which no batch can be read. Keys, values and the
/// bytes of entries are in hex.
#[derive(Clone, Copy, PartialEq, Eq, Debug)]
pub struct JsonDump;

impl DumpForm for JsonDump {
    ghost use Rattle.raft_report.specs.JsonItems.{IsMetJson};

    ghost says = { IsMetJson };

    /// Appends a line for each selected item of the batch that stands at position `at` of the part's bytes; the batch itself has none.
    ///
    /// # Errors
    ///
    /// `Memory`. Some lines may then be appended.
    fn append_batch(
        &self,
        part: &FilePart,
        at: usize,
        _next: usize,
        items: &[LogItem],
        selection: &Selection,
        text: &mut String,
    ) -> Result<()> {
        append_json_items(part, at, items, selection, text)
    }

    /// Appends a line which says that no batch can be read at position `at` of the part's bytes, and why. It does so whatever is selected.
    ///
    /// # Errors
    ///
    /// Fails only if there is no memory. Some of the line may then be appended.
    fn append_damage(
        &self,
        part: &FilePart,
        at: usize,
        _next: Option<usize>,
        reason: &Error,
        _selection: &Selection,
        text: &mut String,
    ) -> AllocResult<()> {
        append_json_damage_line(part, at, reason, text)
    }
}

/// Appends the line of a byte at which no batch can be read: position `at` of the part's bytes, and `reason`.
fn append_json_damage_line(
    part: &FilePart,
    at: usize,
    reason: &Error,
    text: &mut String,
) -> AllocResult<()>
    requires { at ≤ length part.now.bytes }
    ensures { OnOk result (string_bytes text.new ≡ string_bytes text.old ++ json_line (place_data part.now at reason.now)) }
{
    append_place_members(part, at, text)?;
    let why = reason_as_json(part.allocator(), reason)?;
    writeln!(text, ",\"what\":\"unreadable\",\"why\":{why}}}")
}

/// Appends the first members of the line of a byte, position `at` of the part's bytes: the number of the file, the offset in it, and the
/// queue.
fn append_place_members(part: &FilePart, at: usize, text: &mut String) -> AllocResult<()>
    requires { at ≤ length part.now.bytes }
    ensures { OnOk result (string_bytes text.new ≡ string_bytes text.old ++ place_front part.now at) }
{
    let (name, file) = (QueueName(part.id().queue), part.id().seq);
    let offset = part.offset() + at as u64;
    write!(
        text,
        "{{\"file\":{file},\"offset\":{offset},\"queue\":{name}"
    )
}
