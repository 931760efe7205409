//! Reading the entry block of a batch: it is read once, and not again for each of its entries.

ghost use Rattle.std.specs.Prelude.{◌≡◌, Some, IfErr, IfOk, IfSome};
ghost use Rattle.raft_records.specs.FilePart.{Part};
ghost use Rattle.raft_listing.specs.ReadBlocks.{IsReadBlock, IsReadOf};
ghost use Rattle.raft_listing.specs.Stretches.{IsLossIn};

use crate::damage::Loss;
use crate::selection::Selection;
use raft_base::{EntryIndex, Error, FileBlockHandle, Result};
use raft_records::{FilePart, LogItem, LogItemContent, entries_block_in};

/// An entry block that was read: its place, and its entry bytes if they can be read.
#[derive(Clone, Copy)]
pub struct ReadBlock<'a> {
    /// The file, the offset and the length of the block.
    pub place: FileBlockHandle,
    /// The entry bytes, without their checksum. `None` if no block stands at the place, or its checksum doesn't hold.
    pub entries: Option<&'a [u8]>,
}

/// The bytes of one entry, or the reason why they can't be read.
#[derive(Clone, Copy)]
pub enum BytesOfEntry<'a> {
    /// The bytes.
    Read(&'a [u8]),
    /// The bytes can't be read, for this reason.
    Lost(Loss),
}

/// Reads the entry block at `place` in the part. A block that can't be read is no error: its `entries` are `None`.
///
/// # Errors
///
/// `Memory` alone.
fn read_block(part: &FilePart, place: FileBlockHandle) -> Result<ReadBlock<'_>>
    ensures place { IfOk result (λ block. block.place ≡ place) }
    ensures read { IfOk result (IsReadBlock part.now) }
    ensures memory { IfErr result (λ e. e ≡ Error.Memory) }
{
    match entries_block_in(part, place) {
        Ok(entries) => Ok(ReadBlock {
            place,
            entries: Some(entries),
        }),
        Err(Error::Memory) => Err(Error::Memory),
        Err(_) => Ok(ReadBlock {
            place,
            entries: None,
        }),
    }
}

/// Reads the entry block that the first entry of an item names: of the first item in which it names one. As a rule all items of a batch
/// share that block. Returns `None` if there is no such item.
///
/// # Errors
///
/// `Memory` alone.
pub(crate) fn read_first_block<'a>(
    part: &'a FilePart,
    items: &[LogItem],
) -> Result<Option<ReadBlock<'a>>>
    ensures ok { IfOk result (λ block. IfSome block (IsReadBlock part.now)) }
    ensures memory { IfErr result (λ e. e ≡ Error.Memory) }
{
    for item in items {
        if let Some(place) = first_block_place(item) {
            let block = read_block(part, place)?;
            return Ok(Some(block));
        }
    }
    Ok(None)
}

/// Reads the entry block of a batch, as far as a dump needs it: `None` if `selection` doesn't ask for values, or no item's first entry
/// names a block. Else it is the block of the first item whose first entry names one.
///
/// # Errors
///
/// `Memory` alone.
pub fn needed_block<'a>(
    part: &'a FilePart,
    items: &[LogItem],
    selection: &Selection,
) -> Result<Option<ReadBlock<'a>>>
    ensures ok { IfOk result (λ block. IfSome block (IsReadBlock part.now)) }
    ensures memory { IfErr result (λ e. e ≡ Error.Memory) }
{
    if selection.values {
        return read_first_block(part, items);
    }
    Ok(None)
}

/// Returns the place of the entry block that the first entry of `item` names. `None` if the item has no entries, or the first one names no
/// block.
fn first_block_place(item: &LogItem) -> Option<FileBlockHandle> {
    match &item.content {
        LogItemContent::EntryIndexes(entries) => entries.0.first()?.entries,
        LogItemContent::Command(_) | LogItemContent::Kv(_) => None,
    }
}

/// Returns the reason why the bytes of `entry` can't be read, or `None` if they can be. `known` is a block that was read already: if the
/// entry is in it, it isn't read again.
///
/// # Errors
///
/// `Memory` alone.
#[tactic(auto, using(crate::proofs::LossLemmas::bytes_can_be_read))]
pub(crate) fn loss_of_entry(
    part: &FilePart,
    entry: &EntryIndex,
    known: Option<ReadBlock<'_>>,
) -> Result<Option<Loss>>
    requires { IfSome known (IsReadBlock part.now) }
    ensures ok { IfOk result (IsLossIn part.now entry.now) }
    ensures memory { IfErr result (λ e. e ≡ Error.Memory) }
{
    match bytes_of_entry(part, entry, known)? {
        BytesOfEntry::Read(_) => Ok(None),
        BytesOfEntry::Lost(loss) => Ok(Some(loss)),
    }
}

/// Returns the bytes of `entry`, or the reason why they can't be read. `known` is a block of this part that was read already: if the entry
/// is in it, it isn't read again.
///
/// # Errors
///
/// `Memory` alone: bytes that can't be read are no error.
pub fn bytes_of_entry<'a>(
    part: &'a FilePart,
    entry: &EntryIndex,
    known: Option<ReadBlock<'a>>,
) -> Result<BytesOfEntry<'a>>
    requires { IfSome known (IsReadBlock part.now) }
    ensures ok { IfOk result (IsReadOf part.now entry.now) }
    ensures memory { IfErr result (λ e. e ≡ Error.Memory) }
{
    let Some(place) = entry.entries else {
        return Ok(BytesOfEntry::Lost(Loss::Unplaced));
    };
    let block = block_at(part, place, known)?;
    Ok(entry_bytes_in_block(block, entry))
}

/// Returns the block at `place`: `known` if it stands there, else the one that is read from the part.
///
/// # Errors
///
/// `Memory` alone.
fn block_at<'a>(
    part: &'a FilePart,
    place: FileBlockHandle,
    known: Option<ReadBlock<'a>>,
) -> Result<ReadBlock<'a>>
    requires { IfSome known (IsReadBlock part.now) }
    ensures place { IfOk result (λ block. block.place ≡ place) }
    ensures read { IfOk result (IsReadBlock part.now) }
    ensures memory { IfErr result (λ e. e ≡ Error.Memory) }
{
    let Some(block) = known else {
        return read_block(part, place);
    };
    if block.place != place {
        return read_block(part, place);
    }
    Ok(block)
}

/// Returns the bytes of `entry`, which is in `block`, or the reason why they can't be read: the block can't be, or is too short.
fn entry_bytes_in_block<'a>(block: ReadBlock<'a>, entry: &EntryIndex) -> BytesOfEntry<'a>
    ensures { (part : Part) → IsReadBlock part block.entry → entry.now.entries ≡ Some block.entry.place
        → IsReadOf part entry.now result }
{
    let Some(bytes) = block.entries else {
        return BytesOfEntry::Lost(Loss::Block);
    };
    let begin = entry.entry_offset as usize;
    let end = begin + entry.entry_len as usize;
    if end > bytes.len() {
        return BytesOfEntry::Lost(Loss::Outside);
    }
    BytesOfEntry::Read(&bytes[begin..end])
}
