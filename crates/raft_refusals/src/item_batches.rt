//! Item batches: lists of items, without entry bytes.

ghost use Rattle.std.specs.Prelude.{◌≡◌};

use crate::calls::Call;
use crate::found::{Found, call_twice, is_lack_of_memory};
use crate::steps::proposal_with_text;
use raft_records::{
    Command, CompressionType, EntryIndex, Error, FileBlockHandle, FileId, LogFileContext,
    LogItemBatch, LogQueue, Result, Version,
};
use std::alloc::Global;

/// A change of an item batch. Where no region is named, it is region 1.
#[derive(Clone, Copy)]
enum Change {
    /// A compaction to an index is added.
    Command(u64),
    /// A put of a key and a value is added.
    Put(&'static [u8], &'static [u8]),
    /// A put of a key and a message is added.
    PutMessage(&'static [u8], &'static [u8]),
    /// A deletion of a key is added.
    Delete(&'static [u8]),
    /// Two items of another batch are moved after the batch's own.
    Merge,
    /// Two entries of a region are added, with the first index and the two lengths.
    Entries(u64, u64, (u16, u16)),
}

/// The changes that the row `item-batches` makes.
static CHANGES: [Change; 5] = [
    Change::Command(7),
    Change::Put(b"put", b"put_v"),
    Change::PutMessage(b"k", b"line"),
    Change::Delete(b""),
    Change::Merge,
];

/// The changes that the row `item-batch-entries` makes. The last entry has the greatest index that an entry
/// can have.
static ENTRIES: [Change; 5] = [
    Change::Entries(7, 10, (2, 1)),
    Change::Entries(300, 1, (5, 0)),
    Change::Entries(7, 12, (0, 300)),
    Change::Entries(8, 300, (1, 1)),
    Change::Entries(1, 18_446_744_073_709_551_613, (128, 16_384)),
];

/// Adds to `found` a line with the bytes of an item batch without items, and one with those after all of
/// `CHANGES` were made, in hexadecimal digits. If a call of the batch returns `Memory`, notes in `found`
/// whether it left what it must leave, and makes it once more.
///
/// # Errors
///
/// That of the first call that fails; `Memory` only if a call returns it twice, or there is none for
/// something else.
pub(crate) fn encode_both_batches(found: &mut Found) -> Result<()> {
    let mut batch = LogItemBatch::default(found.alloc);
    encode_and_retry(found, &mut batch)?;
    for change in &CHANGES {
        change_and_retry(found, &mut batch, *change)?;
    }
    encode_and_retry(found, &mut batch)
}

/// Adds to `found` a line with the bytes of an item batch with five items of entries, in hexadecimal digits.
/// For the first and the fifth of them the batch needs more memory for its list of items. If a call of the
/// batch returns `Memory`, notes in `found` whether it left what it must leave, and makes it once more.
///
/// # Errors
///
/// That of the first call that fails; `Memory` only if a call returns it twice, or there is none for
/// something else.
pub(crate) fn encode_five_entry_items(found: &mut Found) -> Result<()> {
    let mut batch = LogItemBatch::default(found.alloc);
    for change in &ENTRIES {
        change_and_retry(found, &mut batch, *change)?;
    }
    encode_and_retry(found, &mut batch)
}

/// Makes `change` of `batch`. If that returns `Memory`, notes in `found` whether the batch is unchanged, and
/// tries once more.
///
/// # Errors
///
/// Those of [`change_batch`]; `Memory` also if there is none for a copy of the batch.
fn change_and_retry(found: &mut Found, batch: &mut LogItemBatch, change: Change) -> Result<()> {
    let before = batch.clone()?;
    call_twice!(found; change_batch(found.alloc, batch, change);
        *batch == before && batch.entries_size() == before.entries_size())
}

/// Makes `change` of `batch`: adds the item that it names, or merges another batch.
///
/// # Errors
///
/// Those of the batch's call.
fn change_batch(alloc: Global, batch: &mut LogItemBatch, change: Change) -> Result<()> {
    match change {
        Change::Command(index) => batch.add_command(1, Command::Compact { index }),
        Change::Put(key, value) => put_value(alloc, batch, key, value),
        Change::PutMessage(key, text) => {
            let value = proposal_with_text(alloc, text)?;
            batch.put_message(1, Vec::from_slice(alloc, key)?, &value)
        }
        Change::Delete(key) => batch.delete(1, Vec::from_slice(alloc, key)?),
        Change::Merge => merge_two_commands(alloc, batch),
        Change::Entries(region, first, lengths) => add_two_entries(
            alloc, batch, region, first, lengths,
        ),
    }
}

/// Returns an entry with this `index`, of `entry_len` bytes, which has no place.
fn entry_of_len(index: u64, entry_len: u32) -> EntryIndex
    ensures index { result.index ≡ index }
    ensures len { result.entry_len ≡ entry_len }
{
    EntryIndex {
        index,
        entry_len,
        ..EntryIndex::default()
    }
}

/// Adds an item with two entries of `region`, at the indexes `first` and `first + 1`, of these `lengths` in
/// bytes.
///
/// # Errors
///
/// `Failed` if the batch has more than 1,000,000 entry bytes or `first + 1` would be above 2^64 - 2;
/// `Memory`.
fn add_two_entries(
    alloc: Global,
    batch: &mut LogItemBatch,
    region: u64,
    first: u64,
    lengths: (u16, u16),
) -> Result<()> {
    if batch.entries_size() > 1_000_000 || first > 18_446_744_073_709_551_613 {
        return Err(Error::Failed);
    }
    let (one, other) = (u32::from(lengths.0), u32::from(lengths.1));
    let entries = Vec::from_slice(
        alloc,
        &[entry_of_len(first, one), entry_of_len(first + 1, other)],
    )?;
    batch.add_entry_indexes(region, entries)
}

/// Adds a put of `value` under `key` of region 1 to `batch`.
///
/// # Errors
///
/// `Memory` alone. The batch is unchanged then.
fn put_value(alloc: Global, batch: &mut LogItemBatch, key: &[u8], value: &[u8]) -> Result<()> {
    let value = Vec::from_slice(alloc, value)?;
    batch.put(1, Vec::from_slice(alloc, key)?, value)
}

/// Moves two commands, of the regions 2 and 3, from another batch to the end of `batch`. Does nothing if
/// `batch` has entry bytes.
///
/// # Errors
///
/// `Memory` alone. The batch is unchanged then.
fn merge_two_commands(alloc: Global, batch: &mut LogItemBatch) -> Result<()> {
    let mut behind = LogItemBatch::default(alloc);
    behind.add_command(2, Command::Clean)?;
    behind.add_command(3, Command::Truncate { index: 300 })?;
    if batch.entries_size() != 0 || behind.entries_size() != 0 {
        return Ok(());
    }
    batch.merge(&mut behind)
}

/// Appends the bytes of `batch` to the byte 0x21, and adds a line with all in hexadecimal digits. If encoding
/// returns `Memory`, notes in `found` whether that byte is still alone, and tries once more.
///
/// # Errors
///
/// `Memory` alone.
fn encode_and_retry(found: &mut Found, batch: &mut LogItemBatch) -> Result<()> {
    let mut out = Vec::from_slice(found.alloc, b"!")?;
    call_twice!(found; batch.encode(&mut out); out.as_slice() == [b'!'].as_slice())?;
    found.append_hex_line(out.as_slice())
}

/// The calls of the row `item-batch-bytes`.
pub(crate) static ITEM_BATCHES: [Call; 7] = [
    Call::ReadBatch(b"\x00\x81\xef\x02\xd2", Version::V2, 12),
    Call::ReadBatch(b"\x00\x81\xef\x02\xd2", Version::V2, 13),
    Call::ReadBatch(b"\x00\x8d\xef\x02\xd2", Version::V1, 12),
    Call::ReadBatch(b"\x01\x01\x02\x01\x5a\x80\x0b\xdd", Version::V1, 12),
    Call::ReadBatch(
        b"\x01\x07\x01\x02\x0a\x02\x03\xa7\xb3\xdf\x17",
        Version::V1,
        12,
    ),
    Call::ReadBatch(b"", Version::V1, 12),
    Call::ReadBatch(b"\x8d\xef\x02\xd2", Version::V1, 12),
];

/// Reads `bytes` as an item batch of the append file numbered `seq`, in this `version`. Adds a line with the
/// number of its items and of the bytes after the last one, as `items 1 rest 0`. If that returns `Memory`,
/// notes in `found` whether the slice is unchanged.
///
/// # Errors
///
/// Those of [`LogItemBatch::decode`].
pub(crate) fn read_batch(
    found: &mut Found,
    bytes: &[u8],
    version: Version,
    seq: u64,
) -> Result<()> {
    let context = LogFileContext::new(FileId::new(LogQueue::Append, seq), version);
    let place = FileBlockHandle {
        id: context.id,
        offset: 0,
        len: 0,
    };
    let alloc = found.alloc;
    let mut buf = bytes;
    let answer = LogItemBatch::decode(alloc, &mut buf, place, CompressionType::None, &context);
    found.note_what_refusal_left(!is_lack_of_memory(&answer) || buf == bytes);
    let batch = answer?;
    let items = batch.iter().as_slice().len();
    found.append_line(format!(in alloc; "items {items} rest {}", buf.len())?.as_str())
}
