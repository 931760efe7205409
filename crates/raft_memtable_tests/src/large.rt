//! Tests contexts with many regions, many groups, long stretches, many deleted keys, long runs and many batches.

use crate::files::{context_of_files, file_with_batch, replay_file};
use crate::groups::{add_marker, keys_and_group_of_region, part_with_marker, rewrite_file};
use crate::overlays::{Word, context_of_words};
use AtomicGroupStatus::{Begin, End};
use raft_memtable::{
    Error, FileId, LogQueue, MemTable, MemTableAccessor, MemTableRecoverContext, Result,
};
use raft_records::{AtomicGroupStatus, Command, FilePart, LogBatch, LogItemBatch};
use raft_trials::again;
use std::alloc::Global;
use std::ops::Range;

/// How many groups begin before one of them ends.
const GROUPS: u64 = 12;

/// How many keys each of two batches of a group puts.
const LONG: u64 = 1_200;

/// How many regions a context names.
const REGIONS: u64 = 600;

/// How many keys a context deletes.
const DELETED: u64 = 100;

/// How many batches a context replays.
const BATCHES: u64 = 100_000;

/// Returns a context that has replayed a batch with this status for each group: from `first_group` on to the last one,
/// and then the others, in the files from `first_seq` on. The batch of group n puts a key of region n.
///
/// # Errors
///
/// Those of the contexts' calls; `Memory`.
fn context_with_groups(
    alloc: Global,
    status: AtomicGroupStatus,
    key: &[u8],
    first_seq: u64,
    first_group: u64,
) -> Result<MemTableRecoverContext> {
    let mut context = MemTableRecoverContext::new(alloc)?;
    for number in 0..GROUPS {
        let seq = first_seq.saturating_add(number);
        let group = first_group.saturating_add(number) % GROUPS;
        replay_file(
            &mut context,
            &part_with_marker(alloc, group, group, status, key, seq)?,
        )?;
    }
    Ok(context)
}

/// Tests whether all groups take effect in a merge with a context that ends them, the second half of them first, so
/// that some groups are within others, and some begin before another one and end within it.
///
/// # Errors
///
/// Those of the contexts' calls; `Memory`.
fn do_all_groups_take_effect(alloc: Global) -> Result<bool> {
    let mut context = context_with_groups(alloc, Begin, b"k1", 1, 0)?;
    context.merge(
        context_with_groups(alloc, End, b"k2", 101, GROUPS / 2)?,
        LogQueue::Rewrite,
    )?;
    let accessor = context.finish()?;
    let mut all = accessor.stats().live_entries(LogQueue::Rewrite) == 24;
    for group in 0..GROUPS {
        let end = group.saturating_add(GROUPS / 2) % GROUPS;
        let files = (group.saturating_add(1), end.saturating_add(101));
        all &= keys_and_group_of_region(&accessor, group)
            == ([true, true, false, false], Some(files));
    }
    Ok(all)
}

/// A change of a key.
#[derive(Clone, Copy, PartialEq)]
enum Change {
    /// Puts a value of so many bytes.
    Put(usize),
    Delete,
}

use Change::{Delete, Put};

/// Adds a change of the key with a number to a batch. The key is the eight bytes of the number; that with the number 0
/// is empty.
///
/// # Errors
///
/// `Failed` if the batch isn't open; those of the batch's call; `Memory`. The batch has the items that it had then.
fn add_key_change(
    alloc: Global,
    batch: &mut LogBatch,
    region: u64,
    number: u64,
    change: Change,
) -> Result<()> {
    let mut key = Vec::new(alloc);
    if number > 0 {
        key.extend_from_slice(&number.to_be_bytes())?;
    }
    let mut value = Vec::new(alloc);
    if let Put(len) = change {
        value.resize(len, 0xab)?;
    }
    if !batch.is_open() {
        return Err(Error::Failed);
    }
    match change {
        Put(_) => batch.put(region, key, value),
        Delete => batch.delete(region, key),
    }
}

/// Returns a part whose batch changes the keys with these numbers in region 5, if `is_of_one_region`, else the empty
/// key in the regions with these numbers; with a group marker of group 9, if a status is given.
///
/// # Errors
///
/// Those of making the batch and its bytes; `Memory`.
fn part_with_changes(
    alloc: Global,
    file: FileId,
    status: Option<AtomicGroupStatus>,
    numbers: Range<u64>,
    is_of_one_region: bool,
    change: Change,
) -> Result<FilePart> {
    let mut batch = LogBatch::default(alloc);
    if let Some(status) = status {
        add_marker(alloc, 9, status, &mut batch)?;
    }
    for number in numbers {
        if is_of_one_region {
            add_key_change(alloc, &mut batch, 5, number, change)?;
        } else {
            add_key_change(alloc, &mut batch, number, 0, change)?;
        }
    }
    if !batch.is_open() {
        return Err(Error::Failed);
    }
    file_with_batch(alloc, file, batch)
}

/// Returns how many tables there are, and how many keys they have together.
fn table_and_key_counts(accessor: &MemTableAccessor) -> (u64, usize) {
    let tables = accessor.fold(0u64, |count: u64, _: &MemTable| count.saturating_add(1));
    let keys = accessor.fold(0usize, |count: usize, table: &MemTable| {
        count.saturating_add(table.key_count())
    });
    (tables, keys)
}

/// Replays two parts in a context each, merges these, and returns the tables.
///
/// # Errors
///
/// Those of the contexts' calls; `Memory`.
fn merge_parts(
    alloc: Global,
    queue: LogQueue,
    older: FilePart,
    newer: FilePart,
) -> Result<MemTableAccessor> {
    let mut context = context_of_files(alloc, &[older])?;
    context.merge(context_of_files(alloc, &[newer])?, queue)?;
    context.finish()
}

/// Tests whether region 5 has the first and the last key that a group puts in two batches.
fn has_first_and_last_key(accessor: &MemTableAccessor) -> bool {
    let last = (2 * LONG - 1).to_be_bytes();
    accessor.get(5).is_some_and(|table| table.get(&last).is_some() && table.get(b"").is_some())
}

/// Tests whether a group of many items takes effect as a whole when a batch with as many items ends it.
///
/// # Errors
///
/// Those of the contexts' calls; `Memory`.
fn does_long_group_take_effect(alloc: Global) -> Result<bool> {
    let begun = part_with_changes(alloc, rewrite_file(1), Some(Begin), 0..LONG, true, Put(1))?;
    let ended = part_with_changes(
        alloc,
        rewrite_file(2),
        Some(End),
        LONG..2 * LONG,
        true,
        Put(1),
    )?;
    let accessor = merge_parts(alloc, LogQueue::Rewrite, begun, ended)?;
    Ok(table_and_key_counts(&accessor) == (1, 2_400) && has_first_and_last_key(&accessor))
}

/// A file of the append queue.
const APPENDED: FileId = FileId {
    queue: LogQueue::Append,
    seq: 1,
};

/// Tests whether contexts that put a key of many regions each, half of which are the same, are merged.
///
/// # Errors
///
/// Those of the contexts' calls; `Memory`.
fn are_regions_merged(alloc: Global) -> Result<bool> {
    let older = part_with_changes(alloc, APPENDED, None, 0..REGIONS, false, Put(1))?;
    let newer = part_with_changes(
        alloc,
        APPENDED,
        None,
        300..300 + REGIONS,
        false,
        Put(1 << 10),
    )?;
    let accessor = merge_parts(alloc, LogQueue::Append, older, newer)?;
    Ok(table_and_key_counts(&accessor) == (900, 900))
}

/// Returns a context that has read changes of keys in region 5: each row changes the keys with the numbers from its
/// first on and below its second.
///
/// # Errors
///
/// Those of the contexts' calls; `Memory`.
fn context_with_changes(
    alloc: Global,
    rows: &[(u64, u64, Change)],
) -> Result<MemTableRecoverContext> {
    let mut context = MemTableRecoverContext::new(alloc)?;
    for &(first, end, change) in rows {
        let part = part_with_changes(alloc, APPENDED, None, first..end, true, change)?;
        replay_file(&mut context, &part)?;
    }
    Ok(context)
}

/// Returns a context that has put keys, from the empty one on, and deleted as many others, merged with a newer one that
/// has deleted all that were put but the last.
///
/// # Errors
///
/// Those of the contexts' calls; `Memory`.
fn context_with_deletions(alloc: Global) -> Result<MemTableRecoverContext> {
    let older = [
        (0, DELETED + 1, Put(1 << 16)),
        (DELETED + 1, 2 * DELETED + 1, Delete),
    ];
    let mut context = context_with_changes(alloc, &older)?;
    let newer = context_with_changes(alloc, &[(0, DELETED, Delete)])?;
    context.merge(newer, LogQueue::Append)?;
    Ok(context)
}

/// Tests whether the keys that both contexts delete, the empty one among them, are removed, also if an older context
/// has put them, and the other key stays.
///
/// # Errors
///
/// Those of the contexts' calls; `Memory`.
fn are_deletions_merged(alloc: Global) -> Result<bool> {
    let mut context = context_with_changes(alloc, &[(DELETED + 1, 2 * DELETED + 1, Put(1))])?;
    context.merge(context_with_deletions(alloc)?, LogQueue::Append)?;
    let accessor = context.finish()?;
    Ok(has_long_value(&accessor, DELETED) && table_and_key_counts(&accessor) == (1, 1))
}

/// Tests whether region 5's key with a number has a value of 64 KiB.
fn has_long_value(accessor: &MemTableAccessor, number: u64) -> bool {
    let value = accessor
        .get(5)
        .and_then(|table| table.get(&number.to_be_bytes()));
    value.is_some_and(|value| value.len() == 1 << 16 && value.iter().all(|byte| *byte == 0xab))
}

/// The first and the last index of region 1, and how many records are live in each queue.
type Shape = (Option<u64>, Option<u64>, usize, usize);

/// Returns the first and the last index of region 1, and how many records are live in each queue.
fn indexes_and_counts(accessor: &MemTableAccessor) -> Shape {
    let table = accessor.get(1);
    let stats = accessor.stats();
    (
        table.and_then(|table| table.first_index()),
        table.and_then(|table| table.last_index()),
        stats.live_entries(LogQueue::Append),
        stats.live_entries(LogQueue::Rewrite),
    )
}

const OLDER: Word = Word::Run(0, 5_000);

const NEWER: Word = Word::Run(4_000, 9_000);

/// The queues of an older and of a newer long run, and what region 1 has after both.
static RUNS: [(LogQueue, LogQueue, Shape); 3] = [
    (
        LogQueue::Append,
        LogQueue::Append,
        (Some(0), Some(8_999), 9_000, 0),
    ),
    (
        LogQueue::Rewrite,
        LogQueue::Rewrite,
        (Some(0), Some(8_999), 0, 9_000),
    ),
    (
        LogQueue::Rewrite,
        LogQueue::Append,
        (Some(0), Some(8_999), 5_000, 4_000),
    ),
];

/// Returns the rows of two long runs.
fn rows_of_long_runs() -> &'static [(LogQueue, LogQueue, Shape)] {
    &RUNS
}

/// Reads an older and a newer long run in a context each. Returns both merged, or, if they are of different queues, the
/// newer one put over the older one.
///
/// # Errors
///
/// Those of the contexts' calls; `Memory`.
fn context_of_both_runs(
    alloc: Global,
    older: LogQueue,
    newer: LogQueue,
) -> Result<MemTableRecoverContext> {
    let mut context = context_of_words(alloc, older, &[OLDER])?;
    let appended = context_of_words(alloc, newer, &[NEWER])?;
    if older == newer {
        context.merge(appended, newer)?;
    } else {
        context.merge_append_context(appended)?;
    }
    Ok(context)
}

/// Tests whether long runs are merged and put over each other as the rows say, and two long runs that one context reads
/// give the same.
///
/// # Errors
///
/// Those of the contexts' calls; `Memory`.
fn are_long_runs_merged(alloc: Global) -> Result<bool> {
    for &(older, newer, merged) in rows_of_long_runs() {
        if indexes_and_counts(&context_of_both_runs(alloc, older, newer)?.finish()?) != merged {
            return Ok(false);
        }
    }
    let read = context_of_words(alloc, LogQueue::Append, &[OLDER, NEWER])?;
    Ok(indexes_and_counts(&read.finish()?) == (Some(0), Some(8_999), 9_000, 0))
}

/// Returns a context that has replayed many batches, each a compaction of region 5 that wasn't read from a file.
///
/// # Errors
///
/// Those of the contexts' calls; `Memory`.
fn context_of_many_batches(alloc: Global) -> Result<MemTableRecoverContext> {
    let mut context = MemTableRecoverContext::new(alloc)?;
    for _ in 0..BATCHES {
        let mut batch = LogItemBatch::default(alloc);
        batch.add_command(5, Command::Compact { index: 1 })?;
        context.replay(batch, APPENDED)?;
    }
    Ok(context)
}

/// Tests whether two contexts of many batches are merged, and have a single table then.
///
/// # Errors
///
/// Those of the contexts' calls; `Memory`.
fn are_many_batches_merged(alloc: Global) -> Result<bool> {
    let mut context = context_of_many_batches(alloc)?;
    context.merge(context_of_many_batches(alloc)?, LogQueue::Append)?;
    Ok(table_and_key_counts(&context.finish()?) == (1, 0))
}

/// Tests whether large contexts are merged: with many groups, keys, regions, deletions and batches, and with long runs.
///
/// # Errors
///
/// Those of the contexts' calls; `Memory`.
fn are_all_large_contexts_merged(alloc: Global) -> Result<bool> {
    Ok(
        do_all_groups_take_effect(alloc)?
            && does_long_group_take_effect(alloc)?
            && are_regions_merged(alloc)?
            && are_deletions_merged(alloc)?
            && are_long_runs_merged(alloc)?
            && are_many_batches_merged(alloc)?,
    )
}

/// Tests merges of contexts with many groups, keys, regions, deletions and batches, and with long runs.
#[test]
fn large_contexts_are_merged(rt: HostRuntime) {
    assert!(rt; matches!(again!(are_all_large_contexts_merged(rt.alloc())), Ok(true)));
}
