//! The lines of a check as text: what a scan of a file has found, and which files are missing. Each call that appends fails for want of
//! memory alone, and some of its text may then be appended.

ghost use Rattle.std.specs.Fmt.{decimal};
ghost use Rattle.std.specs.Prelude.{◌≡◌, ◌++◌, codes, map, string_bytes, None, OnOk};
ghost use Rattle.std.specs.List.{flat_map};
ghost use Rattle.raft_survey.specs.Reported.{batches_words, damage_line, damage_words, end_words, entries_words, file_line, length_words, lost_words, missing_line, missing_text, missing_words, no_files_line, place_words, scan_text, unreadable_words, unsearched_line, unsearched_words, unseen_line};

use raft_base::{AllocResult, Error, FileSeq, LogQueue};
use raft_listing::{Damage, DamageKind, FileScan, Loss, append_reason, missing_between};
use raft_reading::FileSize;
use raft_replay::segment::queue_name;

/// Appends the lines of the scan of one file:
/// - a line for the files that are missing before it, if there are any: `last` is the number of the file before, `None` if it is the first;
/// - a line with its length, the number of batches that can be read, and the offset up to which they can be from its first byte on;
/// - a line for each place where something can't be read;
/// - a line for the bytes at its end that weren't searched, if there are any.
///
/// # Errors
///
/// Fails only if there is no memory. Some lines may then be appended.
pub fn append_scan(
    queue: LogQueue,
    last: Option<FileSeq>,
    scan: &FileScan,
    text: &mut String,
) -> AllocResult<()>
    ensures { OnOk result (string_bytes text.new ≡ string_bytes text.old ++ scan_text queue last scan.now) }
{
    append_missing_if_any(queue, missing_between(last, scan.seq), text)?;
    append_file_line(queue, scan, text)?;
    append_damage_lines(queue, scan.seq, scan.len, scan.damages.as_slice(), text)?;
    append_unsearched_if_any(queue, scan, text)
}

/// Appends a line for the bytes at the end of a file that weren't searched for batches; nothing if there are none.
fn append_unsearched_if_any(queue: LogQueue, scan: &FileScan, text: &mut String) -> AllocResult<()>
    ensures { OnOk result (string_bytes text.new ≡ string_bytes text.old ++ unseen_line queue scan.now) }
{
    if scan.unseen == 0 {
        return Ok(());
    }
    append_unsearched_line(queue, scan, text)
}

/// Appends a line for the `unseen` bytes at the end of a file that weren't searched for batches, with the offset at which they begin.
fn append_unsearched_line(queue: LogQueue, scan: &FileScan, text: &mut String) -> AllocResult<()>
    ensures { OnOk result (string_bytes text.new ≡ string_bytes text.old ++ unsearched_line queue scan.now) }
{
    append_file_and_offset(queue, scan.seq, scan.len.saturating_sub(scan.unseen), text)?;
    append_unsearched_words(scan.unseen, text)
}

/// Appends the words that say that `count` bytes weren't searched for batches, and ends the line.
fn append_unsearched_words(count: u64, text: &mut String) -> AllocResult<()>
    ensures { OnOk result (string_bytes text.new ≡ string_bytes text.old ++ unsearched_words count) }
{
    writeln!(
        text,
        "the {count} bytes from there on weren't searched for batches"
    )
}

/// Appends the line of a file: its length, the number of batches that can be read, and the offset up to which they can be.
fn append_file_line(queue: LogQueue, scan: &FileScan, text: &mut String) -> AllocResult<()>
    ensures { OnOk result (string_bytes text.new ≡ string_bytes text.old ++ file_line queue scan.now) }
{
    append_file_length(queue, scan.seq, scan.len, text)?;
    append_batch_count(scan.batches, text)?;
    append_read_end(scan.read, text)
}

/// Appends the words that say that a file can be read from its first byte up to the offset `read`, and ends the line.
fn append_read_end(read: u64, text: &mut String) -> AllocResult<()>
    ensures { OnOk result (string_bytes text.new ≡ string_bytes text.old ++ end_words read) }
{
    writeln!(text, ", read from offset 0 to {read}")
}

/// Appends the queue and the number of a file, and its length of `len` bytes.
fn append_file_length(queue: LogQueue, seq: FileSeq, len: u64, text: &mut String) -> AllocResult<()>
    ensures { OnOk result (string_bytes text.new ≡ string_bytes text.old ++ length_words queue seq len) }
{
    let name = queue_name(queue);
    write!(text, "{name} file {seq}: {len} bytes, ")
}

/// Appends the number of batches, in the singular for 1.
fn append_batch_count(count: u64, text: &mut String) -> AllocResult<()>
    ensures { OnOk result (string_bytes text.new ≡ string_bytes text.old ++ batches_words count) }
{
    if count == 1 {
        return text.push_str("1 batch");
    }
    write!(text, "{count} batches")
}

/// Appends a line for each place in a file where something can't be read. `len` is the length of the file in bytes.
fn append_damage_lines(
    queue: LogQueue,
    seq: FileSeq,
    len: u64,
    damages: &[Damage],
    text: &mut String,
) -> AllocResult<()>
    ensures { OnOk result (string_bytes text.new
        ≡ string_bytes text.old ++ flat_map (damage_line queue seq len) damages.now) }
{
    for damage in damages {
        append_damage_line(queue, seq, len, damage, text)?;
    }
    Ok(())
}

/// Appends the line of a place where something can't be read, in a file of `len` bytes.
fn append_damage_line(
    queue: LogQueue,
    seq: FileSeq,
    len: u64,
    damage: &Damage,
    text: &mut String,
) -> AllocResult<()>
    ensures { OnOk result (string_bytes text.new ≡ string_bytes text.old ++ damage_line queue seq len damage.now) }
{
    append_file_and_offset(queue, seq, damage.offset, text)?;
    append_damage_words(len, damage, text)?;
    text.push_str("\n")
}

/// Appends the words with which the line of a place in a file begins: two spaces, the queue, the number of the file, and the offset.
fn append_file_and_offset(
    queue: LogQueue,
    seq: FileSeq,
    offset: u64,
    text: &mut String,
) -> AllocResult<()>
    ensures { OnOk result (string_bytes text.new ≡ string_bytes text.old ++ place_words queue seq offset) }
{
    let name = queue_name(queue);
    write!(text, "  {name} file {seq} offset {offset}: ")
}

/// Appends what can't be read at a place, and why. `len` is the length of the file, by which the line says how far before its end the place
/// is.
fn append_damage_words(len: u64, damage: &Damage, text: &mut String) -> AllocResult<()>
    ensures { OnOk result (string_bytes text.new
        ≡ string_bytes text.old ++ damage_words len damage.now.offset damage.now.kind) }
{
    match &damage.kind {
        DamageKind::Batch(reason) => {
            append_unreadable_batch(len.saturating_sub(damage.offset), reason, text)
        }
        DamageKind::Entries {
            region,
            first,
            last,
            loss,
        } => append_lost_entries(*region, *first, *last, *loss, text),
    }
}

/// Appends that no batch can be read at a place `left` bytes before the end of its file, and the reason.
fn append_unreadable_batch(left: u64, reason: &Error, text: &mut String) -> AllocResult<()>
    ensures { OnOk result (string_bytes text.new ≡ string_bytes text.old ++ unreadable_words left reason.now) }
{
    write!(
        text,
        "no batch can be read there, {left} bytes before the end: "
    )?;
    append_reason(reason, text)
}

/// Appends that the entries of `region` with the indexes `first` to `last`, both included, can't be read, and the reason.
fn append_lost_entries(
    region: u64,
    first: u64,
    last: u64,
    loss: Loss,
    text: &mut String,
) -> AllocResult<()>
    ensures { OnOk result (string_bytes text.new ≡ string_bytes text.old ++ lost_words region first last loss) }
{
    append_entry_indexes(first, last, text)?;
    let why = loss.words();
    append_region_and_reason(region, why, text)
}

/// Appends the end of a sentence about entries: that they are of `region` and can't be read, and the reason `why`.
fn append_region_and_reason(region: u64, why: &str, text: &mut String) -> AllocResult<()>
    ensures { OnOk result (string_bytes text.new
        ≡ string_bytes text.old ++ (codes " of region " ++ (decimal region ++ (codes " can't be read: " ++ why.now)))) }
{
    write!(text, " of region {region} can't be read: {why}")
}

/// Appends the indexes `first` to `last` of entries, both included; one index if they are the same.
fn append_entry_indexes(first: u64, last: u64, text: &mut String) -> AllocResult<()>
    ensures { OnOk result (string_bytes text.new ≡ string_bytes text.old ++ entries_words first last) }
{
    if first == last {
        return write!(text, "entry {first}");
    }
    write!(text, "entries {first} to {last}")
}

/// Appends a line for the files that are missing in a gap. `numbers` are the first and the last number missing there; for `None` nothing is
/// appended.
fn append_missing_if_any(
    queue: LogQueue,
    numbers: Option<(FileSeq, FileSeq)>,
    text: &mut String,
) -> AllocResult<()>
    ensures { OnOk result (string_bytes text.new ≡ string_bytes text.old ++ missing_line queue numbers) }
{
    let Some((first, last)) = numbers else {
        return Ok(());
    };
    text.push_str(queue_name(queue))?;
    append_missing_words(first, last, text)
}

/// Appends that the files with the numbers `first` to `last`, both included, are missing, and ends the line.
fn append_missing_words(first: FileSeq, last: FileSeq, text: &mut String) -> AllocResult<()>
    ensures { OnOk result (string_bytes text.new ≡ string_bytes text.old ++ missing_words first last) }
{
    if first == last {
        return writeln!(text, " file {first}: missing");
    }
    writeln!(text, " files {first} to {last}: missing")
}

/// Appends a line for each gap between the file numbers of a queue, with the first and the last number that are missing there. `sizes` has
/// the files that are there, oldest first.
///
/// # Errors
///
/// Fails only if there is no memory. Some lines may then be appended.
pub fn append_missing_files(
    queue: LogQueue,
    sizes: &[FileSize],
    text: &mut String,
) -> AllocResult<()>
    ensures { OnOk result (string_bytes text.new
        ≡ string_bytes text.old ++ missing_text queue None (map (λ size. size.seq) sizes.now)) }
{
    let mut last = None;
    for size in sizes {
        append_missing_if_any(queue, missing_between(last, size.seq), text)?;
        last = Some(size.seq);
    }
    Ok(())
}

/// Appends the line of a queue that has no files.
///
/// # Errors
///
/// Fails only if there is no memory. Some of the line may then be appended.
pub fn append_no_files(queue: LogQueue, text: &mut String) -> AllocResult<()>
    ensures { OnOk result (string_bytes text.new ≡ string_bytes text.old ++ no_files_line queue) }
{
    let name = queue_name(queue);
    writeln!(text, "{name}: no files")
}
