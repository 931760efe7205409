//! What is found in log files, as lines of JSON. Each call that appends fails for want of memory alone, and some of its text may then be
//! appended.

ghost use Rattle.std.specs.Prelude.{◌≡◌, ◌++◌, map, string_bytes, None, OnOk};
ghost use Rattle.raft_report.specs.JsonData.{json_line, list_of};
ghost use Rattle.raft_report.specs.JsonLines.{damage_data, kept_data, lost_data, missing_data, missing_files_json, missing_json, no_files_data, scan_data, scan_json, unreadable_data};
ghost use Rattle.serde_json.specs.Written.{compact_text};

use crate::json::{QueueName, append_comma_if, reason_as_json, text_as_json};
use raft_base::{AllocResult, Error, FileSeq, LogQueue};
use raft_listing::{Damage, DamageKind, FileScan, Loss, missing_between};
use raft_reading::FileSize;
use std::alloc::Global;

/// Appends the line of the scan of one file. If files are missing before it, a line for them comes first: `last` is the number of the file
/// before, `None` if the scanned one is the first.
///
/// # Errors
///
/// Fails only if there is no memory. Some of the lines may then be appended.
pub fn append_json_scan(
    alloc: Global,
    queue: LogQueue,
    last: Option<FileSeq>,
    scan: &FileScan,
    text: &mut String,
) -> AllocResult<()>
    ensures { OnOk result (string_bytes text.new ≡ string_bytes text.old ++ scan_json queue last scan.now) }
{
    append_json_missing_if_any(queue, missing_between(last, scan.seq), text)?;
    append_json_file(alloc, queue, scan, text)
}

/// Appends the line of the scan of one file: its queue, number and length, how many batches can be read and up to which offset, how many
/// bytes at its end weren't searched, and its damage, as a list.
fn append_json_file(
    alloc: Global,
    queue: LogQueue,
    scan: &FileScan,
    text: &mut String,
) -> AllocResult<()>
    ensures { OnOk result (string_bytes text.new ≡ string_bytes text.old ++ json_line (scan_data queue scan.now)) }
{
    let (batches, bytes) = (scan.batches, scan.len);
    write!(
        text,
        "{{\"batches\":{batches},\"bytes\":{bytes},\"damage\":"
    )?;
    append_damage_list(alloc, scan.damages.as_slice(), text)?;
    let (name, file, read, unseen) = (QueueName(queue), scan.seq, scan.read, scan.unseen);
    writeln!(
        text,
        ",\"file\":{file},\"queue\":{name},\"read\":{read},\"unseen\":{unseen}}}"
    )
}

/// Appends the list of the places in a file where something can't be read, in brackets.
fn append_damage_list(alloc: Global, damages: &[Damage], text: &mut String) -> AllocResult<()>
    ensures { OnOk result (string_bytes text.new
        ≡ string_bytes text.old ++ compact_text (list_of (map damage_data damages.now))) }
{
    text.push('[')?;
    let mut later = false;
    for damage in damages {
        append_comma_if(later, text)?;
        append_damage_object(alloc, damage, text)?;
        later = true;
    }
    text.push(']')
}

/// Appends the object of one place where something can't be read.
fn append_damage_object(alloc: Global, damage: &Damage, text: &mut String) -> AllocResult<()>
    ensures { OnOk result (string_bytes text.new ≡ string_bytes text.old ++ compact_text (damage_data damage.now)) }
{
    match &damage.kind {
        DamageKind::Batch(reason) => append_unreadable_batch(alloc, damage.offset, reason, text),
        DamageKind::Entries {
            region,
            first,
            last,
            loss,
        } => append_lost_entries(alloc, damage.offset, *region, (*first, *last), *loss, text),
    }
}

/// Appends the object of a place at which no batch can be read: its `offset` in the file, and the reason.
fn append_unreadable_batch(
    alloc: Global,
    offset: u64,
    reason: &Error,
    text: &mut String,
) -> AllocResult<()>
    ensures { OnOk result (string_bytes text.new
        ≡ string_bytes text.old ++ compact_text (unreadable_data offset reason.now)) }
{
    let why = reason_as_json(alloc, reason)?;
    write!(
        text,
        "{{\"kind\":\"batch\",\"offset\":{offset},\"why\":{why}}}"
    )
}

/// Appends the object of entries that can't be read: their region, the first and the last index, which are `entries`, both included, the
/// `offset` of their batch in the file, and the reason.
fn append_lost_entries(
    alloc: Global,
    offset: u64,
    region: u64,
    entries: (u64, u64),
    loss: Loss,
    text: &mut String,
) -> AllocResult<()>
    ensures { OnOk result (string_bytes text.new
        ≡ string_bytes text.old ++ compact_text (lost_data offset region entries loss)) }
{
    let why = text_as_json(alloc, loss.words())?;
    let (first, last) = entries;
    write!(
        text,
        "{{\"first\":{first},\"kind\":\"entries\",\"last\":{last},\"offset\":{offset},\"region\":{region},\"why\":{why}}}"
    )
}

/// Appends a line for each gap between the file numbers of a queue, with the first and the last number that are missing there. `sizes` has
/// the files that are there, oldest first.
///
/// # Errors
///
/// Fails only if there is no memory. Some lines may then be appended.
pub fn append_json_missing_files(
    queue: LogQueue,
    sizes: &[FileSize],
    text: &mut String,
) -> AllocResult<()>
    ensures { OnOk result (string_bytes text.new
        ≡ string_bytes text.old ++ missing_files_json queue None (map (λ size. size.seq) sizes.now)) }
{
    let mut last = None;
    for size in sizes {
        append_json_missing_if_any(queue, missing_between(last, size.seq), text)?;
        last = Some(size.seq);
    }
    Ok(())
}

/// Appends a line for the files that are missing in a gap. `numbers` are the first and the last number missing there; for `None` nothing is
/// appended.
fn append_json_missing_if_any(
    queue: LogQueue,
    numbers: Option<(FileSeq, FileSeq)>,
    text: &mut String,
) -> AllocResult<()>
    ensures { OnOk result (string_bytes text.new ≡ string_bytes text.old ++ missing_json queue numbers) }
{
    match numbers {
        Some(numbers) => append_json_missing_line(queue, numbers, text),
        None => Ok(()),
    }
}

/// Appends the line for the files that are missing, from the first of `numbers` to the last, both included.
fn append_json_missing_line(
    queue: LogQueue,
    numbers: (FileSeq, FileSeq),
    text: &mut String,
) -> AllocResult<()>
    ensures { OnOk result (string_bytes text.new ≡ string_bytes text.old ++ json_line (missing_data queue numbers)) }
{
    let ((first, last), name) = (numbers, QueueName(queue));
    writeln!(
        text,
        "{{\"missing_from\":{first},\"missing_to\":{last},\"queue\":{name}}}"
    )
}

/// Appends the line of a queue that has no files.
///
/// # Errors
///
/// Fails only if there is no memory. Some of the line may then be appended.
pub fn append_json_no_files(queue: LogQueue, text: &mut String) -> AllocResult<()>
    ensures { OnOk result (string_bytes text.new ≡ string_bytes text.old ++ json_line (no_files_data queue)) }
{
    let (files, name) = (0_u64, QueueName(queue));
    writeln!(text, "{{\"files\":{files},\"queue\":{name}}}")
}

/// Appends the line of `len` bytes that were cut off a file and are kept in the file at `path`.
///
/// # Errors
///
/// Fails only if there is no memory. Some of the line may then be appended.
pub fn append_json_kept(alloc: Global, len: usize, path: &str, text: &mut String) -> AllocResult<()>
    ensures { OnOk result (string_bytes text.new ≡ string_bytes text.old ++ json_line (kept_data len path.now)) }
{
    let path = text_as_json(alloc, path)?;
    writeln!(text, "{{\"bytes\":{len},\"kept\":{path}}}")
}
