//! Tests a batch with many entry bytes and a long value, one with many items, and a part with long batches.

ghost use Rattle.std.specs.Prelude.{◌≡◌, OnOk};
ghost use Rattle.raft_records.specs.LogBatch.{is_open};

use crate::file_parts::is_prefix_of_part_readable;
use raft_records::{
    Command, CompressionType, EntryIndex, Error, FileBlockHandle, FileId, FilePart, LogBatch,
    LogFileContext, LogItem, LogItemContent, LogQueue, Result, Version, is_consecutive, next_batch,
};
use raft_trials::again;
use std::alloc::Global;
use std::process::Abort;

/// How many entries the large batch has.
const ENTRIES: u64 = 5_000;

/// The length of each entry, in bytes.
const LENGTH: usize = 200;

/// The length of its value, in bytes.
const VALUE: usize = 1 << 16;

/// The offset of its item batch: behind the header, the entry bytes and their checksum.
const ITEM_OFFSET: usize = 16 + 5_000 * LENGTH + 4;

/// Adds the [`ENTRIES`] large entries to `batch`, from index 1 on.
///
/// # Errors
///
/// Those of [`LogBatch::add_raw_entries`]; `Memory`. The batch is still open then.
fn add_large_entries(alloc: Global, batch: &mut LogBatch) -> Result<()>
    requires { batch.old.stage ≡ is_open }
    ensures { OnOk result (batch.new.stage ≡ is_open) }
{
    let mut indexes = Vec::new(alloc);
    let mut texts = Vec::new(alloc);
    for index in 1..=ENTRIES {
        indexes.push(EntryIndex {
            index,
            ..EntryIndex::default()
        })?;
        let mut text = Vec::new(alloc);
        text.resize(LENGTH, (index % 251) as u8)?;
        texts.push(text)?;
    }
    if indexes.len() != texts.len() || !is_consecutive(&indexes) {
        return Err(Error::Failed);
    }
    batch.add_raw_entries(7, indexes, texts)
}

/// Makes the bytes of an open batch, and returns them as a part of version 2.
///
/// # Errors
///
/// `Failed` if the batch isn't open; those of [`LogBatch::finish_populate`] and [`FilePart::new`]; `Memory`.
fn part_with_batch(alloc: Global, mut batch: LogBatch) -> Result<FilePart> {
    if !batch.is_open() {
        return Err(Error::Failed);
    }
    batch.finish_populate()?;
    let file = FileId::new(LogQueue::Append, 12);
    batch.prepare_write(&LogFileContext::new(file, Version::V2));
    let bytes = Vec::from_slice(alloc, batch.encoded_bytes())?;
    FilePart::new(file, Version::V2, 0, bytes)
}

/// Returns a part with the large batch alone.
///
/// # Errors
///
/// Those of [`add_large_entries`] and [`part_with_batch`]; `Memory`.
fn part_with_large_batch(alloc: Global) -> Result<FilePart> {
    let mut batch = LogBatch::default(alloc);
    add_large_entries(alloc, &mut batch)?;
    let mut value = Vec::new(alloc);
    value.resize(VALUE, 0xab)?;
    batch.put(7, Vec::new(alloc), value)?;
    part_with_batch(alloc, batch)
}

/// Tests whether there are `len` bytes, all of them equal to `byte`.
fn are_all_bytes_equal(bytes: &[u8], len: usize, byte: u8) -> bool {
    for found in bytes {
        if *found != byte {
            return false;
        }
    }
    bytes.len() == len
}

/// Tests whether each entry of the large batch in a part has its bytes.
///
/// # Errors
///
/// Those of [`LogBatch::decode_entries_block`].
fn has_entry_bytes(alloc: Global, part: &FilePart) -> Result<bool> {
    let block = part.bytes().get(16..).unwrap_or(&[]);
    let place = FileBlockHandle {
        id: part.id(),
        offset: 16,
        len: ITEM_OFFSET.saturating_sub(16),
    };
    let entries = LogBatch::decode_entries_block(alloc, block, place, CompressionType::None)?;
    let mut index = 0u64;
    for text in entries.as_slice().chunks(LENGTH) {
        index = index.saturating_add(1);
        if !are_all_bytes_equal(text, LENGTH, (index % 251) as u8) {
            return Ok(false);
        }
    }
    Ok(entries.len() == ITEM_OFFSET.saturating_sub(20) && index == ENTRIES)
}

/// Tests whether an item has all entries, the last of them at its place, or the value.
fn is_item_complete(item: &LogItem) -> bool {
    match &item.content {
        LogItemContent::EntryIndexes(entries) => match entries.0.last() {
            Some(last) => {
                entries.0.len() as u64 == ENTRIES
                    && last.index == ENTRIES
                    && last.entry_offset == 4_999 * 200
                    && last.entry_len == 200
            }
            None => false,
        },
        LogItemContent::Kv(kv) => match &kv.value {
            Some(value) => are_all_bytes_equal(value.as_slice(), VALUE, 0xab),
            None => false,
        },
        LogItemContent::Command(_) => false,
    }
}

/// Tests whether the large batch is read as it was made.
///
/// # Errors
///
/// Those of making and reading the batch; `Memory`.
fn is_large_batch_read(alloc: Global) -> Result<bool> {
    let part = part_with_large_batch(alloc)?;
    let Some((batch, end)) = next_batch(&part, 0)? else {
        return Ok(false);
    };
    for item in batch.iter() {
        if !is_item_complete(item) {
            return Ok(false);
        }
    }
    Ok(end == part.bytes().len() && batch.iter().count() == 2 && has_entry_bytes(alloc, &part)?)
}

/// Tests that a batch of large items is read as it was made, with the bytes of each entry.
#[test]
fn large_batches_are_read_as_they_were_written(rt: HostRuntime) {
    assert!(rt; matches!(again!(is_large_batch_read(rt.alloc())), Ok(true)));
}

/// How many items the batch with many items has.
const ITEMS: u64 = 10_000;

/// Returns the batch with many items: each compacts a region, up to the number of the region.
///
/// # Errors
///
/// `Memory` alone: the batch stays open.
fn batch_with_many_items(alloc: Global) -> Result<LogBatch> {
    let mut batch = LogBatch::default(alloc);
    for id in 0..ITEMS {
        if !batch.is_open() {
            return Err(Error::Failed);
        }
        batch.add_command(id, Command::Compact { index: id })?;
    }
    Ok(batch)
}

/// Returns how many items there are, if they compact the regions from 0 on, each up to its number; else `None`.
fn count_compactions(items: &[LogItem]) -> Option<u64> {
    let mut id = 0u64;
    for item in items {
        match &item.content {
            LogItemContent::Command(Command::Compact { index })
                if *index == id && item.raft_group_id == id => {}
            _ => return None,
        }
        id = id.saturating_add(1);
    }
    Some(id)
}

/// Tests whether the batch with many items is read as it was made.
///
/// # Errors
///
/// Those of making and reading the batch; `Memory`.
fn are_many_items_read(alloc: Global) -> Result<bool> {
    let part = part_with_batch(alloc, batch_with_many_items(alloc)?)?;
    let Some((batch, end)) = next_batch(&part, 0)? else {
        return Ok(false);
    };
    Ok(end == part.bytes().len() && count_compactions(batch.as_slice()) == Some(ITEMS))
}

/// Tests that a batch of many items is read as it was made.
#[test]
fn batches_of_many_items_are_read_as_they_were_written(rt: HostRuntime) {
    assert!(rt; matches!(again!(are_many_items_read(rt.alloc())), Ok(true)));
}

/// The length of the value of each of three long batches, in bytes.
const LONG: usize = 700_000;

/// The length of a long batch: a header, and an item batch with the number of items, the item and a checksum.
const BATCH: usize = 16 + 1 + 2 + 3 + 3 + LONG + 4;

/// Appends the bytes of a long batch, signed for file 12.
///
/// # Errors
///
/// Those of [`part_with_batch`]; `Memory`. `bytes` is unchanged then.
fn append_long_batch(alloc: Global, bytes: &mut Vec<u8>) -> Result<()> {
    let mut value = Vec::new(alloc);
    value.resize(LONG, 0xab)?;
    let mut batch = LogBatch::default(alloc);
    batch.put(7, Vec::from_slice(alloc, b"k")?, value)?;
    bytes.extend_from_slice(part_with_batch(alloc, batch)?.bytes())?;
    Ok(())
}

/// Returns a part of file 12 with three long batches, without its last `missing` bytes.
///
/// # Errors
///
/// Those of [`append_long_batch`] and [`FilePart::new`].
fn part_with_long_batches(alloc: Global, missing: usize) -> Result<FilePart> {
    let mut bytes = Vec::new(alloc);
    for _ in 0..3 {
        append_long_batch(alloc, &mut bytes)?;
    }
    bytes.truncate(bytes.len().saturating_sub(missing));
    FilePart::new(FileId::new(LogQueue::Append, 12), Version::V2, 0, bytes)
}

/// Tests whether a part of three long batches, without its last `missing` bytes, is readable up to `end`, and the batch
/// there is refused for `reason`.
///
/// # Errors
///
/// Those of [`part_with_long_batches`] and [`is_prefix_of_part_readable`].
fn is_readable_to(alloc: Global, missing: usize, end: usize, reason: &str) -> Result<bool> {
    is_prefix_of_part_readable(&part_with_long_batches(alloc, missing)?, end, reason)
}

/// Asserts how far a part of three long batches is readable without its last bytes.
///
/// # Errors
///
/// Those of [`is_readable_to`].
fn check_long_parts(rt: &impl Abort, alloc: Global) -> Result<()> {
    for &(missing, end, reason) in &[
        (0, 3 * BATCH, ""),
        (1, 2 * BATCH, "a log batch of 700029 bytes is cut short"),
        (BATCH, 2 * BATCH, ""),
        (BATCH + 1, BATCH, "a log batch of 700029 bytes is cut short"),
    ] {
        assert!(rt; is_readable_to(alloc, missing, end, reason)?, "{missing}");
    }
    Ok(())
}

/// Tests how far a part of long batches is readable if it lacks its last bytes.
#[test]
fn long_parts_are_readable_to_the_last_whole_batch(rt: HostRuntime) {
    assert!(rt; again!(check_long_parts(&rt, rt.alloc())).is_ok());
}
