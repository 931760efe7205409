//! Tests long runs over many places, merges of long tables, and a long value.

use crate::store::Call::{Append, Replay, Rewrite};
use crate::store::{Call, LogStore};
use raft_memtable::{FileId, LogQueue, MemTable, Result, TableChange};
use raft_trials::again;
use std::alloc::Global;

/// What a table has: its first and its last index, how many entries are rewritten, how many blocks there are, and how
/// many entries are fetched.
type Shape = (Option<u64>, Option<u64>, usize, usize, usize);

/// Returns the indexes and the counts of a table, and how many entries it returns.
///
/// # Errors
///
/// Those of [`MemTable::fetch_entries_to`].
fn indexes_and_counts(alloc: Global, table: &MemTable) -> Result<Shape> {
    let (first, last) = (table.first_index(), table.last_index());
    let mut fetched = Vec::new(alloc);
    if let (Some(first), Some(last)) = (first, last) {
        table.fetch_entries_to(first, last.saturating_add(1), None, &mut fetched)?;
    }
    let blocks = table.block_count();
    Ok((first, last, table.rewrite_count(), blocks, fetched.len()))
}

/// Tests whether 5,000 entries in 100 blocks are appended, and their older half is rewritten, each by a single change.
///
/// # Errors
///
/// Those of the table's calls; `Memory`.
fn is_older_half_rewritten(alloc: Global) -> Result<bool> {
    let mut store = LogStore::new(alloc);
    let _appended = store.call_and_retry(Append((0, 5_000, 1)), true)?;
    let appended = indexes_and_counts(alloc, &store.table)?;
    let _rewritten = store.call_and_retry(Rewrite((0, 2_525, 1), Some(1)), true)?;
    Ok(
        appended == (Some(0), Some(4_999), 0, 100, 5_000)
            && indexes_and_counts(alloc, &store.table)?
                == (Some(0), Some(4_999), 2_525, 101, 5_000),
    )
}

/// A call on each of two empty stores, whether the second table is merged into the first as the appended one (or else
/// as the newer neighbor), and the table then.
type MergeRow = (Call, Call, bool, Shape);

static MERGES: [MergeRow; 3] = [
    (
        Replay(LogQueue::Append, (0, 5_000, 1)),
        Replay(LogQueue::Append, (4_000, 9_000, 1)),
        false,
        (Some(0), Some(8_999), 0, 180, 9_000),
    ),
    (
        Replay(LogQueue::Rewrite, (0, 5_000, 1)),
        Replay(LogQueue::Rewrite, (4_000, 9_000, 1)),
        false,
        (Some(0), Some(8_999), 9_000, 180, 9_000),
    ),
    (
        Replay(LogQueue::Rewrite, (0, 5_000, 1)),
        Replay(LogQueue::Append, (4_000, 9_000, 1)),
        true,
        (Some(0), Some(8_999), 4_000, 180, 9_000),
    ),
];

/// Returns the rows of merges.
fn rows_of_merges() -> &'static [MergeRow] {
    &MERGES
}

/// Tests whether the tables of a row are merged into the table that it has.
///
/// # Errors
///
/// Those of the table's calls; `Memory`.
fn is_row_merged(alloc: Global, row: &MergeRow) -> Result<bool> {
    let (older, newer, is_append, merged) = *row;
    let mut store = LogStore::with_calls(alloc, &[older])?;
    let mut table = LogStore::with_calls(alloc, &[newer])?.table;
    store.merge(&mut table, is_append)?;
    Ok(indexes_and_counts(alloc, &store.table)? == merged)
}

/// Tests whether the empty key gets a value of 64 KiB, and has none once it is deleted.
///
/// # Errors
///
/// Those of the table's calls; `Memory`.
fn is_long_value_deleted(alloc: Global) -> Result<bool> {
    let mut store = LogStore::new(alloc);
    let mut value = Vec::new(alloc);
    value.resize(1 << 16, 0xab)?;
    store.put(b"", value.as_slice(), FileId::new(LogQueue::Append, 1))?;
    let has_value = store.table.get(b"") == Some(value.as_slice());
    let key = Vec::new(alloc);
    store.make(TableChange::Delete { key })?;
    Ok(has_value && store.table.get(b"").is_none() && store.table.key_count() == 0)
}

/// Tests whether each row of merges holds, a rewriting of half a table is made, and a long value is deleted.
///
/// # Errors
///
/// Those of the table's calls; `Memory`.
fn are_all_large_changes_made(alloc: Global) -> Result<bool> {
    for row in rows_of_merges() {
        if !is_row_merged(alloc, row)? {
            return Ok(false);
        }
    }
    Ok(is_older_half_rewritten(alloc)? && is_long_value_deleted(alloc)?)
}

/// Tests that tables of thousands of entries are rewritten and merged, and a long value put and deleted.
#[test]
fn large_tables_are_changed_and_merged(rt: HostRuntime) {
    assert!(rt; matches!(again!(are_all_large_changes_made(rt.alloc())), Ok(true)));
}
