//! Tests batches of items, as the Rust crate writes them.

ghost use Rattle.std.specs.Prelude.{◌≡◌};

use raft_records::{EntryIndex, FileId, LogFileContext, LogItemBatch, LogQueue, Result, Version};
use raft_trials::again;
use std::alloc::Global;
use std::process::Abort;

/// The way in which a batch is made.
#[derive(Clone, Copy)]
enum Made {
    Empty,
    PutAndDelete,
    Merged,
}

/// A batch: how it is made, its approximate size, the index of its first entry, if it has one, how many items it has,
/// and its bytes in the append file with a version and a number.
type Row = (Made, usize, Option<u64>, usize, Version, u64, &'static [u8]);

static ROWS: [Row; 7] = [
    (
        Made::Empty,
        12,
        None,
        0,
        Version::V1,
        12,
        b"\x00\x8d\xef\x02\xd2",
    ),
    (
        Made::Empty,
        12,
        None,
        0,
        Version::V2,
        12,
        b"\x00\x81\xef\x02\xd2",
    ),
    (
        Made::Empty,
        12,
        None,
        0,
        Version::V2,
        13,
        b"\x00\x80\xef\x02\xd2",
    ),
    (
        Made::Empty,
        12,
        None,
        0,
        Version::V2,
        0x1_0000_000c,
        b"\x00\x81\xef\x02\xd2",
    ),
    (
        Made::Empty,
        12,
        None,
        0,
        Version::V2,
        u64::MAX,
        b"\x00\x72\x10\xfd\x2d",
    ),
    (
        Made::PutAndDelete,
        72,
        None,
        2,
        Version::V1,
        12,
        b"\x02\x01\x03\x01\x03put\x05put_v\x01\x03\x02\x00\xf3\xf9\x46\xa8",
    ),
    (
        Made::Merged,
        102,
        Some(10),
        2,
        Version::V1,
        12,
        b"\x02\x07\x01\x03\x0a\x01\x02\x03\x08\x01\x02\x01\x04\x05\xdc\x30\x8b\x52",
    ),
];

/// Returns the rows of item batches.
fn item_batch_rows() -> &'static [Row] {
    &ROWS
}

/// Returns a batch of a put and a delete.
///
/// # Errors
///
/// Those of the batch's calls; `Memory`.
fn batch_of_put_and_delete(alloc: Global) -> Result<LogItemBatch> {
    let mut batch = LogItemBatch::with_capacity(alloc, 2)?;
    let key = Vec::from_slice(alloc, b"put")?;
    batch.put(1, key, Vec::from_slice(alloc, b"put_v")?)?;
    batch.delete(1, Vec::new(alloc))?;
    Ok(batch)
}

/// Returns an entry of one byte with an index.
pub(crate) fn entry_with_index(index: u64) -> EntryIndex
    ensures index { result.index ≡ index }
    ensures len { result.entry_len ≡ 1 }
{
    EntryIndex {
        index,
        entry_len: 1,
        ..EntryIndex::default()
    }
}

/// Returns a batch with three entries of region 7, into which one with two entries of region 8 was merged.
///
/// # Errors
///
/// Those of the batch's calls; `Memory`.
fn batch_after_merge(alloc: Global) -> Result<LogItemBatch> {
    let mut batch = LogItemBatch::default(alloc);
    batch.add_entry_indexes(
        7,
        Vec::from_slice(
            alloc,
            &[
                entry_with_index(10),
                entry_with_index(11),
                entry_with_index(12),
            ],
        )?,
    )?;
    let mut behind = LogItemBatch::default(alloc);
    behind.add_entry_indexes(
        8,
        Vec::from_slice(alloc, &[entry_with_index(1), entry_with_index(2)])?,
    )?;
    batch.merge(&mut behind)?;
    Ok(batch)
}

/// Returns the batch that a row names.
///
/// # Errors
///
/// Those of the batch's calls; `Memory`.
fn batch_of_row(alloc: Global, made: Made) -> Result<LogItemBatch> {
    match made {
        Made::Empty => Ok(LogItemBatch::default(alloc)),
        Made::PutAndDelete => batch_of_put_and_delete(alloc),
        Made::Merged => batch_after_merge(alloc),
    }
}

/// Encodes `batch`, signs it for append file `seq` of this version, and returns the bytes.
///
/// # Errors
///
/// Those of [`LogItemBatch::encode`].
fn sealed_bytes_in_file(
    alloc: Global,
    batch: &mut LogItemBatch,
    seq: u64,
    version: Version,
) -> Result<Vec<u8>> {
    let context = LogFileContext::new(FileId::new(LogQueue::Append, seq), version);
    let mut buf = Vec::new(alloc);
    batch.encode(&mut buf)?;
    batch.prepare_write(buf.as_mut_slice(), &context);
    Ok(buf)
}

/// Tests whether the batch of a row has its size, its first index, its bytes and its number of items.
///
/// # Errors
///
/// Those of the batch's calls; `Memory`.
fn row_holds(alloc: Global, row: &Row) -> Result<bool> {
    let (made, approximate_size, first_index, items, version, seq, bytes) = *row;
    let mut batch = batch_of_row(alloc, made)?;
    let index = match batch.entry_index() {
        Some(entry) => Some(entry.index),
        None => None,
    };
    let is_seen_so = batch.approximate_size() == approximate_size && index == first_index;
    let written = sealed_bytes_in_file(alloc, &mut batch, seq, version)?;
    Ok(is_seen_so && written.as_slice() == bytes && batch.drain().count() == items)
}

/// Tests that each item batch of the rows has its size, its first index, its bytes and its number of items.
#[test]
fn item_batches_have_the_bytes_of_the_rows(rt: HostRuntime) {
    assert!(rt; again!(check_each_item_batch_row(&rt, rt.alloc())).is_ok());
}

/// Asserts that the batch of each row is as [`row_holds`] tests.
///
/// # Errors
///
/// Those of [`row_holds`].
fn check_each_item_batch_row(rt: &impl Abort, alloc: Global) -> Result<()> {
    for row in item_batch_rows() {
        assert!(rt; row_holds(alloc, row)?, "of {:?}", row.6);
    }
    Ok(())
}
