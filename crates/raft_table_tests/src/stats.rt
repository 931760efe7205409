//! Tests counts of live records: those of a table, and by themselves.

use crate::store::Call::{Append, Put};
use crate::store::LogStore;
use raft_memtable::{Error, GlobalStats, LogQueue, MemTable, Result};
use raft_trials::again;
use std::alloc::Global;
use std::process::Abort;

/// Returns how many records are live in the append queue, and how many were written to the rewrite queue and deleted
/// from it.
fn live_written_and_deleted(stats: &GlobalStats) -> [usize; 3] {
    [
        stats.live_entries(LogQueue::Append),
        stats.rewrite_entries(),
        stats.deleted_rewrite_entries(),
    ]
}

/// Asserts the counts when a table of ten appended entries and a rewritten key is added, subtracted, and added again
/// where there is no room.
///
/// # Errors
///
/// `Full` if an addition that is to succeed has no room.
fn check_adding_and_subtracting(rt: &impl Abort, table: &MemTable) -> Result<()> {
    let mut stats = GlobalStats::default();
    stats.add_table(table)?;
    assert!(rt; live_written_and_deleted(&stats) == [10, 1, 0]);
    stats.delete_table(table);
    assert!(rt; live_written_and_deleted(&stats) == [0, 1, 1]);
    stats.add(LogQueue::Append, usize::MAX - 9)?;
    assert!(rt; matches!(stats.add_table(table), Err(Error::Full)));
    assert!(rt; live_written_and_deleted(&stats) == [usize::MAX - 9, 1, 1]);
    Ok(())
}

/// Asserts the counts of a table with appended entries and a rewritten key.
///
/// # Errors
///
/// Those of [`check_adding_and_subtracting`], and of the table's calls; `Memory`.
fn check_counts_of_table(rt: &impl Abort, alloc: Global) -> Result<()> {
    let calls = [Append((0, 10, 1)), Put(LogQueue::Rewrite, 5)];
    let store = LogStore::with_calls(alloc, &calls)?;
    check_adding_and_subtracting(rt, &store.table)
}

/// Tests the live counts when a table is added, subtracted, and added where there is no room.
#[test]
fn tables_are_added_to_the_counts_and_subtracted(rt: HostRuntime) -> Result<()> {
    again!(check_counts_of_table(&rt, rt.alloc()))
}

/// Tests that records deleted from the rewrite queue make room for new ones where the count is at its highest number.
#[test]
fn deleted_records_make_room_for_new_ones(rt: HostRuntime) -> Result<()> {
    let mut stats = GlobalStats::default();
    stats.add(LogQueue::Rewrite, usize::MAX)?;
    stats.delete(LogQueue::Rewrite, 10);
    assert!(rt; live_written_and_deleted(&stats) == [0, usize::MAX, 10]);
    assert_eq!(rt; stats.live_entries(LogQueue::Rewrite), usize::MAX - 10);
    stats.add(LogQueue::Rewrite, 4)?;
    assert!(rt; live_written_and_deleted(&stats) == [0, usize::MAX - 6, 0]);
    Ok(())
}

/// Tests that the count of the append queue refuses to pass its highest number, and goes down with each deletion.
#[test]
fn deleted_records_of_the_append_queue_are_subtracted(rt: HostRuntime) -> Result<()> {
    let mut stats = GlobalStats::default();
    stats.add(LogQueue::Append, usize::MAX)?;
    assert!(rt; matches!(stats.add(LogQueue::Append, 1), Err(Error::Full)));
    assert!(rt; live_written_and_deleted(&stats) == [usize::MAX, 0, 0]);
    stats.delete(LogQueue::Append, 10);
    assert!(rt; live_written_and_deleted(&stats) == [usize::MAX - 10, 0, 0]);
    stats.add(LogQueue::Append, 10)?;
    assert!(rt; live_written_and_deleted(&stats) == [usize::MAX, 0, 0]);
    Ok(())
}

/// Tests that a reset leaves the number of live records, and sets that of the deleted ones to 0.
#[test]
fn counters_of_the_rewrite_queue_are_reset(rt: HostRuntime) -> Result<()> {
    let mut stats = GlobalStats::default();
    stats.add(LogQueue::Append, 3)?;
    stats.add(LogQueue::Rewrite, 10)?;
    stats.delete(LogQueue::Rewrite, 4);
    stats.reset_rewrite_counters();
    assert!(rt; live_written_and_deleted(&stats) == [3, 6, 0]);
    assert_eq!(rt; stats.live_entries(LogQueue::Rewrite), 6);
    Ok(())
}
