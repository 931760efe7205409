//! Scans of files, which may be damaged, batch by batch.

ghost use Rattle.std.specs.Prelude.{◌≡◌, ◌+◌, ◌-◌, ◌^◌, ◌<◌, ◌≤◌, ◌++◌, ◌&&◌, ◌≢◌, ℕ, List, length, drop, IfOk, IfErr, OnOk, string_bytes};
ghost use Rattle.raft_recover.specs.Common.{IsBatchAt, IsNextFault, HasNoFront, signature_in, IsReadable, IsBlockState, block_place, IsFound, EndsWithin, next_after, is_undamaged, place_words, block_word, reason_text, finding_line};
ghost use Rattle.raft_recover.specs.Common.{end_line, IsScanned};

use raft_base::{AllocResult, Error, FileBlockHandle, Result};
use raft_records::{FilePart, LogItemBatch, entries_block_in, next_batch};
use raft_replay::cutting::{batch_length, read_batch_header};
use raft_replay::segment::queue_name;
use std::alloc::Global;

/// The length of the header of a log batch, in bytes.
const HEADER_LEN: usize = 16;

/// Whether a batch has an entry block, and whether that ends in its checksum.
#[derive(Clone, Copy, PartialEq, Eq, Debug)]
pub enum BlockState {
    /// It has no entry block.
    Absent,
    /// The entry block ends in its checksum.
    Whole,
    /// The entry block doesn't end in its checksum.
    Broken,
}

/// What a scan finds at a position of a part.
#[derive(Debug, Drop)]
pub enum Finding {
    /// A batch that can be read.
    Batch {
        /// How many bytes it has.
        len: usize,
        /// How many items it has.
        items: usize,
        /// Its entry block.
        block: BlockState,
    },
    /// No batch that can be read.
    Damage {
        /// Why not.
        reason: Error,
        /// The length that a header there gives for its batch, if the part has as many bytes.
        len: Option<usize>,
    },
}

impl Finding {
    /// Tests whether a batch was found that can be read, and its entry block, if it has one, ends in its
    /// checksum.
    fn is_undamaged(&self) -> bool
        ensures { result ≡ is_undamaged self.now }
    {
        match self {
            Finding::Batch { block, .. } => !matches!(block, BlockState::Broken),
            Finding::Damage { .. } => false,
        }
    }

    /// Returns the position at which a scan goes on after it found this at position `at`: after a batch and,
    /// with `past_damage`, after damage with a header that gives its length. Returns `None` if the scan ends
    /// there.
    fn next_scan_position(self, at: usize, past_damage: bool) -> Option<usize>
        requires { EndsWithin (2 ^ 64 - 1) at self }
        ensures { result ≡ next_after past_damage at self }
    {
        match self {
            Finding::Batch { len, .. } => Some(at + len),
            Finding::Damage { len, .. } if past_damage => Some(at + len?),
            Finding::Damage { .. } => None,
        }
    }
}

/// Scans a part batch by batch, and appends lines on what it finds to `text`. For each batch a line has its
/// file, its offset, its length, the number of its items and the state of its entry block, as
/// `append file 3 offset 0 length 34 items 1 entries whole`. Where no batch can be read, a line has the
/// reason. The scan ends there or, with `past_damage`, goes on where a header says that the next batch
/// begins. At the end of the part a line says so. Returns whether everything can be read.
///
/// # Errors
///
/// `Memory` alone. Some lines may have been appended then.
pub fn append_scan(
    alloc: Global,
    part: &FilePart,
    past_damage: bool,
    text: &mut String,
) -> Result<bool>
    ensures ok { IfOk result (λ undamaged. (lines : List ℕ)
        × (string_bytes text.new ≡ string_bytes text.old ++ lines)
        × IsScanned past_damage part.entry.now undamaged lines) }
    ensures memory { IfErr result (λ e. e ≡ Error.Memory) }
{
    let mut at = 0;
    let mut undamaged = true;
    while at < part.bytes().len() {
        let finding = finding_at(alloc, part, at)?;
        append_finding(part, at, &finding, text)?;
        undamaged = are_both_true(undamaged, finding.is_undamaged());
        let Some(next) = finding.next_scan_position(at, past_damage) else {
            return Ok(undamaged);
        };
        at = next;
    }
    append_end_line(part, text)?;
    Ok(undamaged)
}

/// Tests whether `first` and `second` are both true. Unlike with `&&`, the second is always computed.
pub(crate) fn are_both_true(first: bool, second: bool) -> bool
    ensures { result ≡ first && second }
{
    first && second
}

/// Returns what stands at position `at` of a part. The position is before the end of the part.
///
/// # Errors
///
/// `Memory` alone.
fn finding_at(alloc: Global, part: &FilePart, at: usize) -> Result<Finding>
    requires { at < length part.now.bytes }
    ensures ok { IfOk result (IsFound part.now at) }
    ensures memory { IfErr result (λ e. e ≡ Error.Memory) }
{
    match next_batch(part, at) {
        Ok(Some((batch, next))) => Ok(batch_finding(alloc, part, at, &batch, next)),
        Ok(None) => unreachable!(),
        Err(reason) => damage_finding(alloc, part, at, reason),
    }
}

/// Returns the finding for `batch`, which can be read at position `at` of `part`. `next` is the position
/// after it; only the contract needs it.
fn batch_finding(
    alloc: Global,
    part: &FilePart,
    at: usize,
    batch: &LogItemBatch,
    next: usize,
) -> Finding
    requires { IsBatchAt part.now at batch.now next }
    ensures { IsFound part.now at result }
{
    let (_, left) = part.bytes().split_at(at);
    let Some((items_at, len)) = read_batch_header(alloc, left) else {
        unreachable!()
    };
    Finding::Batch {
        len,
        items: batch.iter().as_slice().len(),
        block: block_state(part, at, items_at),
    }
}

/// Returns the finding for position `at` of a part, where no batch can be read for this `reason`.
///
/// # Errors
///
/// `Memory`, if that is the reason.
fn damage_finding(alloc: Global, part: &FilePart, at: usize, reason: Error) -> Result<Finding>
    requires inside { at ≤ length part.now.bytes }
    requires none { reason ≢ Error.Memory
        → HasNoFront (λ bytes. IsReadable bytes (signature_in part.now.version part.now.id.seq))
        (drop at part.now.bytes) }
    requires fault { IsNextFault (signature_in part.now.version part.now.id.seq)
        (drop at part.now.bytes) reason }
    ensures ok { IfOk result (IsFound part.now at) }
    ensures memory { IfErr result (λ e. e ≡ Error.Memory) }
{
    match reason {
        Error::Memory => Err(Error::Memory),
        reason => {
            let (_, left) = part.bytes().split_at(at);
            let len = batch_length(alloc, left);
            Ok(Finding::Damage { reason, len })
        }
    }
}

/// Returns whether the batch at position `at` of a part has an entry block, and whether that ends in its
/// checksum. The items begin `items_at` bytes after `at`.
fn block_state(part: &FilePart, at: usize, items_at: usize) -> BlockState
    requires header { 16 ≤ items_at }
    requires inside { at + items_at ≤ length part.now.bytes }
    ensures { IsBlockState part.now (block_place part.now at items_at) result }
{
    let place = FileBlockHandle {
        id: part.id(),
        offset: part.offset() + at as u64 + HEADER_LEN as u64,
        len: items_at - HEADER_LEN,
    };
    if place.len == 0 {
        return BlockState::Absent;
    }
    match entries_block_in(part, place) {
        Ok(_) => BlockState::Whole,
        Err(_) => BlockState::Broken,
    }
}

/// Appends the line of what was found at position `at` of a part to `text`.
///
/// # Errors
///
/// `AllocError` if there is no memory. Some of the text may have been appended then.
fn append_finding(part: &FilePart, at: usize, found: &Finding, text: &mut String) -> AllocResult<()>
    requires { at ≤ length part.now.bytes }
    ensures { OnOk result
        (string_bytes text.new ≡ string_bytes text.old ++ finding_line part.now at found.now) }
{
    append_place(part, at, text)?;
    match found {
        Finding::Batch { len, items, block } => {
            let block = block_word(*block);
            writeln!(text, " length {len} items {items} entries {block}")
        }
        Finding::Damage { reason, .. } => {
            let left = part.bytes().len() - at;
            let reason = reason_text(reason);
            writeln!(text, " left {left} unreadable: {reason}")
        }
    }
}

/// Appends the line for the end of `part` to `text`, as `append file 3 offset 1024 end`.
///
/// # Errors
///
/// `AllocError` if there is no memory. Some of the text may have been appended then.
fn append_end_line(part: &FilePart, text: &mut String) -> AllocResult<()>
    ensures { OnOk result (string_bytes text.new ≡ string_bytes text.old ++ end_line part.now) }
{
    append_place(part, part.bytes().len(), text)?;
    text.push_str(" end\n")
}

/// Appends the queue, the number of the file, and the offset in the file of position `at` of a part to
/// `text`, as `append file 3 offset 1024`.
///
/// # Errors
///
/// `AllocError` if there is no memory. Some of the text may have been appended then.
fn append_place(part: &FilePart, at: usize, text: &mut String) -> AllocResult<()>
    requires { at ≤ length part.now.bytes }
    ensures { OnOk result
        (string_bytes text.new ≡ string_bytes text.old ++ place_words part.now at) }
{
    let id = part.id();
    let queue = queue_name(id.queue);
    let offset = part.offset() + at as u64;
    write!(text, "{queue} file {} offset {offset}", id.seq)
}

/// Returns the word for the state `block` of an entry block: `none`, `whole` or `broken`.
fn block_word(block: BlockState) -> &'static str
    ensures { result.now ≡ block_word block }
{
    match block {
        BlockState::Absent => "none",
        BlockState::Whole => "whole",
        BlockState::Broken => "broken",
    }
}

/// Returns `reason`, why no batch can be read, in words.
fn reason_text(reason: &Error) -> &str
    ensures { result.now ≡ reason_text reason.now }
{
    match reason {
        Error::Corruption(text) => text.as_str(),
        Error::Codec(_) => "a number is cut short or none",
        Error::Io(_) => "an item ends before its type",
        _ => "unknown",
    }
}
