//! Tests calls of a table through the log store of a Raft node: what they return, and what the store has then.

use crate::rows::{Row, lists_of_rows};
use crate::store::Answer::{Corruption, Done, Full, InvalidArgument};
use crate::store::Call::{Append, Compact, Count, Group, Put, Replay};
use crate::store::{Answer, Call, LogStore, Run, Shape, to_answer};
use raft_memtable::{Error, FileSeq, LogQueue, MemTable, Result};
use raft_trials::again;
use std::alloc::Global;
use std::process::Abort;

/// Tests whether a table keeps its entries in these blocks, each given as the number of its file and how many entries
/// it has.
fn has_blocks(table: &MemTable, want: &[(FileSeq, usize)]) -> bool {
    let blocks = table.blocks();
    blocks.len() == want.len()
        && table.block_count() == want.len()
        && blocks.iter().zip(want).all(|(block, want)| block.handle.id.seq == want.0
            && block.spans.len() == want.1)
}

/// Makes the calls of rows on an empty store, and asserts that each leaves what its row says: once by the calls
/// themselves, and once by changes that are values.
///
/// # Errors
///
/// `Memory` if there is none twice in a row; an error for which there is no [`Answer`].
fn make_and_check_rows(rt: &impl Abort, alloc: Global, rows: &[Row]) -> Result<()> {
    for &by_value in &[false, true] {
        let mut store = LogStore::new(alloc);
        for (call, answer, shape, blocks) in rows {
            assert!(rt;
                store.call_and_retry(*call, by_value)? == *answer,
                "{call:?}"
            );
            assert!(rt; store.indexes_and_counts() == *shape, "{call:?}");
            assert!(rt; has_blocks(&store.table, blocks), "{call:?}");
        }
    }
    Ok(())
}

/// Tests that the calls of the rows, one after another, give their answers and leave what the rows say.
#[test]
fn calls_change_the_store_as_the_rows_say(rt: HostRuntime) -> Result<()> {
    for rows in lists_of_rows() {
        make_and_check_rows(&rt, rt.alloc(), rows)?;
    }
    Ok(())
}

const MAX: u64 = u64::MAX;

/// A call on an empty store, a queue and a run that is tried then, whether the run is put, and the store after it.
type TriedRow = (Call, LogQueue, Run, bool, Shape);

/// Runs that are tried on a store with the entries 10 to 19 in the append queue, on one with these in the rewrite
/// queue, and on one without entries that has room for three.
static TRIED: [TriedRow; 9] = [
    (
        Append((10, 20, 1)),
        LogQueue::Append,
        (20, 25, 2),
        true,
        ((10, 25), (15, 1), (0, 0, 0)),
    ),
    (
        Append((10, 20, 1)),
        LogQueue::Append,
        (15, 18, 2),
        true,
        ((10, 18), (8, 1), (0, 0, 0)),
    ),
    (
        Append((10, 20, 1)),
        LogQueue::Append,
        (5, 8, 2),
        true,
        ((5, 8), (3, 2), (0, 0, 0)),
    ),
    (
        Append((10, 20, 1)),
        LogQueue::Append,
        (21, 25, 2),
        false,
        ((10, 20), (10, 1), (0, 0, 0)),
    ),
    (
        Append((10, 20, 1)),
        LogQueue::Rewrite,
        (20, 25, 2),
        false,
        ((10, 20), (10, 1), (0, 0, 0)),
    ),
    (
        Replay(LogQueue::Rewrite, (10, 20, 1)),
        LogQueue::Rewrite,
        (15, 18, 2),
        true,
        ((10, 18), (0, 0), (13, 5, 1)),
    ),
    (
        Replay(LogQueue::Rewrite, (10, 20, 1)),
        LogQueue::Rewrite,
        (21, 25, 2),
        true,
        ((21, 25), (0, 0), (14, 10, 2)),
    ),
    (
        Replay(LogQueue::Rewrite, (10, 20, 1)),
        LogQueue::Append,
        (20, 25, 2),
        false,
        ((10, 20), (0, 0), (10, 0, 1)),
    ),
    (
        Count(LogQueue::Append, MAX - 3),
        LogQueue::Append,
        (0, 5, 1),
        false,
        ((0, 0), (MAX - 3, 0), (0, 0, 0)),
    ),
];

/// Returns the rows of runs that are tried.
fn rows_of_tried_runs() -> &'static [TriedRow] {
    &TRIED
}

/// Makes a call on an empty store, and tries a run. Returns whether the run was put, and the store after it.
///
/// # Errors
///
/// Those of [`LogStore::call_by_method`] and [`LogStore::try_replay`].
fn try_run(alloc: Global, call: Call, queue: LogQueue, run: Run) -> Result<(bool, Shape)> {
    let mut store = LogStore::new(alloc);
    store.call_by_method(call)?;
    let put = store.try_replay(queue, run)?;
    Ok((put, store.indexes_and_counts()))
}

/// Tests which runs a store takes when they are tried, and what it has then.
#[test]
fn runs_are_put_only_where_they_leave_no_hole(rt: HostRuntime) -> Result<()> {
    for (call, queue, run, put, shape) in rows_of_tried_runs() {
        let found = again!(try_run(rt.alloc(), *call, *queue, *run))?;
        assert!(rt; found == (*put, *shape), "{call:?} {queue:?} {run:?}");
    }
    Ok(())
}

/// A call on each of two empty stores, whether the second table is merged into the first as the appended one (or else
/// as the newer neighbor), the answer of the merge, and the first store after it.
type MergeRow = (Call, Call, bool, Answer, Shape);

/// Merges. In the second half one table is empty, or both.
static MERGES: [MergeRow; 19] = [
    (
        Append((10, 20, 1)),
        Append((15, 18, 2)),
        false,
        Done,
        ((10, 18), (8, 1), (0, 0, 0)),
    ),
    (
        Append((10, 20, 1)),
        Append((25, 30, 2)),
        false,
        Corruption,
        ((10, 20), (10, 1), (0, 0, 0)),
    ),
    (
        Replay(LogQueue::Rewrite, (10, 20, 1)),
        Replay(LogQueue::Rewrite, (25, 30, 2)),
        false,
        Done,
        ((25, 30), (0, 0), (15, 10, 2)),
    ),
    (
        Append((10, 20, 1)),
        Replay(LogQueue::Rewrite, (20, 30, 2)),
        false,
        InvalidArgument,
        ((10, 20), (10, 1), (0, 0, 0)),
    ),
    (
        Put(LogQueue::Rewrite, 5),
        Group(1, 9),
        false,
        Done,
        ((0, 0), (0, 0), (1, 0, 1)),
    ),
    (
        Count(LogQueue::Append, MAX),
        Append((0, 1, 1)),
        false,
        Full,
        ((0, 0), (MAX, 0), (0, 0, 0)),
    ),
    (
        Replay(LogQueue::Rewrite, (10, 20, 1)),
        Append((25, 30, 2)),
        true,
        Done,
        ((25, 30), (5, 2), (10, 10, 0)),
    ),
    (
        Put(LogQueue::Rewrite, 1),
        Put(LogQueue::Append, 2),
        true,
        Done,
        ((0, 0), (1, 2), (1, 1, 0)),
    ),
    (
        Replay(LogQueue::Rewrite, (10, 20, 1)),
        Group(1, 9),
        true,
        InvalidArgument,
        ((10, 20), (0, 0), (10, 0, 1)),
    ),
    (
        Append((10, 20, 1)),
        Append((20, 30, 2)),
        true,
        InvalidArgument,
        ((10, 20), (10, 1), (0, 0, 0)),
    ),
    (
        Append((10, 20, 1)),
        Compact(0),
        false,
        Done,
        ((10, 20), (10, 1), (0, 0, 0)),
    ),
    (
        Compact(0),
        Append((10, 20, 1)),
        false,
        Done,
        ((10, 20), (10, 1), (0, 0, 0)),
    ),
    (
        Replay(LogQueue::Rewrite, (10, 20, 1)),
        Compact(0),
        false,
        Done,
        ((10, 20), (0, 0), (10, 0, 1)),
    ),
    (
        Compact(0),
        Replay(LogQueue::Rewrite, (10, 20, 1)),
        false,
        Done,
        ((10, 20), (0, 0), (10, 0, 1)),
    ),
    (
        Compact(0),
        Compact(0),
        false,
        Done,
        ((0, 0), (0, 0), (0, 0, 0)),
    ),
    (
        Replay(LogQueue::Rewrite, (10, 20, 1)),
        Compact(0),
        true,
        Done,
        ((10, 20), (0, 0), (10, 0, 1)),
    ),
    (
        Compact(0),
        Append((10, 20, 1)),
        true,
        Done,
        ((10, 20), (10, 1), (0, 0, 0)),
    ),
    (
        Compact(0),
        Compact(0),
        true,
        Done,
        ((0, 0), (0, 0), (0, 0, 0)),
    ),
    (
        Put(LogQueue::Rewrite, 1),
        Compact(0),
        true,
        Done,
        ((0, 0), (0, 0), (1, 0, 1)),
    ),
];

/// Returns the rows of merges.
fn rows_of_merges() -> &'static [MergeRow] {
    &MERGES
}

/// What a table has: its first and its last index, how many keys, and the files of its atomic group.
type Seen = (Option<u64>, Option<u64>, usize, Option<(FileSeq, FileSeq)>);

/// What an empty table has.
const EMPTY: Seen = (None, None, 0, None);

/// Returns the first and the last index of a table, how many keys it has, and the first and the last file of its group.
fn indexes_and_counts(table: &MemTable) -> Seen {
    (
        table.first_index(),
        table.last_index(),
        table.key_count(),
        table.atomic_group(),
    )
}

/// Makes a call on each of two empty stores, and merges the second table into the first. Returns the answer, the first
/// store, and whether the second table is then empty, or, where the merge was refused, as it was.
///
/// # Errors
///
/// Those of the two calls; `Memory`. A refused merge is in the result.
fn merge_two_stores(
    alloc: Global,
    older: Call,
    newer: Call,
    is_append: bool,
) -> Result<(Answer, Shape, bool)> {
    let mut store = LogStore::with_calls(alloc, &[older])?;
    let mut table = LogStore::with_calls(alloc, &[newer])?.table;
    let before = indexes_and_counts(&table);
    let given = store.merge(&mut table, is_append);
    let left = if given.is_ok() { EMPTY } else { before };
    let is_left = indexes_and_counts(&table) == left;
    Ok((
        to_answer(given.map(|()| 0))?,
        store.indexes_and_counts(),
        is_left,
    ))
}

/// Tests what a table has after a merge, and that the other table is left without records.
#[test]
fn tables_merge_as_the_rows_say(rt: HostRuntime) -> Result<()> {
    for (older, newer, is_append, answer, shape) in rows_of_merges() {
        let given = again!(merge_two_stores(rt.alloc(), *older, *newer, *is_append))?;
        assert!(rt; given == (*answer, *shape, true), "{older:?} {newer:?}");
    }
    Ok(())
}

/// The text of the error for a run of region 7 that leaves a hole.
const HOLE: &str =
    "region 7: a run from index 25 on leaves a hole behind the entries, which end before index 20";

/// Tests whether a call was refused as `Corruption` with this text.
fn is_corruption_with_text(given: Result<u64>, text: &str) -> bool {
    match given {
        Err(Error::Corruption(found)) => found.as_str() == text,
        _ => false,
    }
}

/// Tests whether a hole is refused with its text: one that an append leaves, a replayed run, and a table that is
/// merged.
///
/// # Errors
///
/// Those of calls that are to succeed; `Memory`.
fn are_holes_named(alloc: Global) -> Result<bool> {
    let (older, newer) = ((10, 20, 1), (25, 30, 2));
    let mut store = LogStore::with_calls(alloc, &[Append(older)])?;
    let appended = is_corruption_with_text(store.call_by_method(Append(newer)), HOLE);
    let replayed = is_corruption_with_text(
        store.call_by_method(Replay(LogQueue::Append, newer)),
        HOLE,
    );
    let mut table = LogStore::with_calls(alloc, &[Append(newer)])?.table;
    let merged = is_corruption_with_text(store.merge(&mut table, false).map(|()| 0), HOLE);
    Ok(appended && replayed && merged)
}

/// Tests that a hole is refused with its text, by whatever call it would be left.
#[test]
fn refused_holes_are_named(rt: HostRuntime) -> Result<()> {
    assert!(rt; are_holes_named(rt.alloc())?);
    Ok(())
}
