//! Tables that threads share, from `raft_recover`.
//!
//! Each function pins names or types: it compiles only as long as these are there as it writes them. None is called for
//! its effect, but where the test at the end says so.

use raft_recover::{
    FileSeq, GlobalStats, LogBatch, LogItem, LogQueue, MemTable, MemTableAccessor, Result,
    SharedAccessor, Slot, TableChange,
};
use std::alloc::Global;
use std::sync::Wait;
use std::vec;

/// Compiles only as long as `Slot::new` and `Slot::number` have these types.
fn slots() {
    let _new: fn(Global, usize) -> Slot = Slot::new;
    let _number: fn(&Slot) -> usize = Slot::number;
}

/// Compiles only as long as `Slot::table` takes `slot` and `number`, and returns `Option<&MemTable>`.
fn table_of_slots<'a>(slot: &'a Slot, number: u64) -> Option<&'a MemTable> {
    Slot::table(slot, number)
}

/// Compiles only as long as `Slot::stats` takes `slot`, and returns `&GlobalStats`.
fn stats_of_slots<'a>(slot: &'a Slot) -> &'a GlobalStats {
    Slot::stats(slot)
}

/// Compiles only as long as `Slot::cleaned_regions` takes `slot`, and returns `&[u64]`.
fn cleaned_regions_of_slots<'a>(slot: &'a Slot) -> &'a [u64] {
    Slot::cleaned_regions(slot)
}

/// Compiles only as long as these functions of `Slot` have these types: `change`, `get_or_insert`, `take_tables`,
/// `insert`, `remove`, `apply_rewrite_atomic_group`, `check_append_writes`, `apply_append_write`, `apply_rewrite_write`
/// and `take_cleaned_region_logs`.
fn changes_of_slots() {
    let _change: fn(&mut Slot, u64, TableChange) -> Result<u64> = Slot::change;
    let _get_or_insert: fn(&mut Slot, u64) -> Result<()> = Slot::get_or_insert;
    let _take_tables: fn(&mut Slot, &mut MemTableAccessor) = Slot::take_tables;
    let _insert: fn(&mut Slot, u64, MemTable) -> Result<Option<MemTable>> = Slot::insert;
    let _remove: fn(&mut Slot, u64, bool) -> Result<Option<MemTable>> = Slot::remove;
    let _atomic_group: fn(&mut Slot, u64, FileSeq, FileSeq) -> Result<()> =
        Slot::apply_rewrite_atomic_group;
    let _check_append_writes: fn(&Slot, &[LogItem]) -> Result<()> = Slot::check_append_writes;
    let _append_write: fn(&mut Slot, LogItem) -> Result<()> = Slot::apply_append_write;
    let _rewrite_write: fn(&mut Slot, LogItem, Option<FileSeq>, FileSeq) -> Result<()> =
        Slot::apply_rewrite_write;
    let _take_logs: fn(&mut Slot, &mut LogBatch) -> Result<()> = Slot::take_cleaned_region_logs;
}

/// Compiles only as long as `SharedAccessor::new`, `SharedAccessor::from_core` and `SharedAccessor::into_core` have
/// these types.
fn tables<R: Wait>() {
    let _new: fn(Global) -> SharedAccessor = SharedAccessor::new;
    let _from_core: fn(Global, MemTableAccessor) -> Result<SharedAccessor> =
        SharedAccessor::from_core;
    let _into_core: fn(SharedAccessor) -> Result<MemTableAccessor> = SharedAccessor::into_core;
}

/// Compiles only as long as `SharedAccessor::change` takes `shared`, `rt`, `number` and `change`, and returns
/// `Result<u64>`.
fn change_of_tables<R: Wait>(
    shared: &SharedAccessor,
    rt: &R,
    number: u64,
    change: TableChange,
) -> Result<u64> {
    SharedAccessor::change::<R>(shared, rt, number, change)
}

/// Compiles only as long as `SharedAccessor::get_or_insert` takes `shared`, `rt` and `number`, and returns
/// `Result<()>`.
fn get_or_insert_of_tables<R: Wait>(shared: &SharedAccessor, rt: &R, number: u64) -> Result<()> {
    SharedAccessor::get_or_insert::<R>(shared, rt, number)
}

/// Inserts the table of a region, by `SharedAccessor::insert`; a table of another region isn't inserted.
///
/// # Errors
///
/// Those of `SharedAccessor::insert`.
fn insert_of_tables<R: Wait>(
    shared: &SharedAccessor,
    rt: &R,
    number: u64,
    table: MemTable,
) -> Result<Option<MemTable>> {
    if table.region_id() != number {
        return Ok(None);
    }
    SharedAccessor::insert::<R>(shared, rt, number, table)
}

/// Returns the region id of a table by a call on the table; `None` if the region has none.
fn with_table_of_tables<R: Wait>(shared: &SharedAccessor, rt: &R, number: u64) -> Option<u64> {
    SharedAccessor::with_table(shared, rt, number, |table: &MemTable| -> u64 {
        table.region_id()
    })
}

/// Drops all entries of a region but the last one, and returns how many were dropped.
///
/// # Errors
///
/// Those of `SharedAccessor::with_table_mut`.
fn with_table_mut_of_tables<R: Wait>(shared: &SharedAccessor, rt: &R, number: u64) -> Result<u64> {
    let compact = |table: &MemTable| -> TableChange {
        match table.last_index() {
            Some(index) => TableChange::Compact { index },
            None => TableChange::Keep,
        }
    };
    SharedAccessor::with_table_mut(shared, rt, number, compact)
}

/// Returns how many tables a walk over all of them visits.
fn fold_of_tables<R: Wait>(shared: &SharedAccessor, rt: &R) -> u64 {
    let init: u64 = 0;
    SharedAccessor::fold(shared, rt, init, |count: u64, _: &MemTable| -> u64 {
        count.wrapping_add(1)
    })
}

/// Returns the ids of the regions whose tables have no entries.
///
/// # Errors
///
/// Those of `SharedAccessor::collect`.
fn collect_of_tables<R: Wait>(shared: &SharedAccessor, rt: &R) -> Result<Vec<u64>> {
    SharedAccessor::collect(shared, rt, |table: &MemTable| -> bool {
        table.last_index().is_none()
    })
}

/// Compiles only as long as `apply_append_writes` takes a `Vec` of items.
fn apply_append_writes_of_items<R: Wait>(
    shared: &SharedAccessor,
    rt: &R,
    items: Vec<LogItem>,
) -> Result<()> {
    SharedAccessor::apply_append_writes(shared, rt, items)
}

/// Compiles only as long as `apply_rewrite_writes` takes a `Vec` of items.
fn apply_rewrite_writes_of_items<R: Wait>(
    shared: &SharedAccessor,
    rt: &R,
    items: Vec<LogItem>,
    watermark: Option<FileSeq>,
    new_file: FileSeq,
) -> Result<()> {
    SharedAccessor::apply_rewrite_writes(shared, rt, items, watermark, new_file)
}

/// Applies items to the tables as new ones of the append queue, in the form in which a batch hands them out.
///
/// # Errors
///
/// Those of `SharedAccessor::apply_append_writes`.
fn appended_items<R: Wait>(
    shared: &SharedAccessor,
    rt: &R,
    items: vec::IntoIter<LogItem>,
) -> Result<()> {
    SharedAccessor::apply_append_writes(shared, rt, items)
}

/// Applies items to the tables as rewritten to a file, in the form in which a batch hands them out.
///
/// # Errors
///
/// Those of `SharedAccessor::apply_rewrite_writes`.
fn rewritten_items<R: Wait>(
    shared: &SharedAccessor,
    rt: &R,
    items: vec::IntoIter<LogItem>,
    watermark: Option<FileSeq>,
    new_file: FileSeq,
) -> Result<()> {
    SharedAccessor::apply_rewrite_writes(shared, rt, items, watermark, new_file)
}

/// Applies a group of rewrite files, by `SharedAccessor::apply_rewrite_atomic_group`; nothing if it ends before it
/// begins.
///
/// # Errors
///
/// Those of `SharedAccessor::apply_rewrite_atomic_group`.
fn apply_rewrite_atomic_group_of_items<R: Wait>(
    shared: &SharedAccessor,
    rt: &R,
    number: u64,
    start: FileSeq,
    end: FileSeq,
) -> Result<()> {
    if start > end {
        return Ok(());
    }
    SharedAccessor::apply_rewrite_atomic_group::<R>(shared, rt, number, start, end)
}

/// Takes the cleaned regions into an open batch, by `SharedAccessor::take_cleaned_region_logs`; none into another.
///
/// # Errors
///
/// Those of `SharedAccessor::take_cleaned_region_logs`.
fn take_cleaned_region_logs_of_tables<R: Wait>(
    shared: &SharedAccessor,
    rt: &R,
    logs: &mut LogBatch,
) -> Result<()> {
    if !logs.is_open() {
        return Ok(());
    }
    SharedAccessor::take_cleaned_region_logs::<R>(shared, rt, logs)
}

/// Compiles only as long as `SharedAccessor::remove` takes `shared`, `rt`, `number` and `record`, and returns
/// `Result<Option<MemTable>>`.
fn remove_of_tables<R: Wait>(
    shared: &SharedAccessor,
    rt: &R,
    number: u64,
    record: bool,
) -> Result<Option<MemTable>> {
    SharedAccessor::remove::<R>(shared, rt, number, record)
}

/// Compiles only as long as `SharedAccessor::is_empty` takes `shared` and `rt`, and returns `bool`.
fn is_empty_of_tables<R: Wait>(shared: &SharedAccessor, rt: &R) -> bool {
    SharedAccessor::is_empty::<R>(shared, rt)
}

/// Compiles only as long as `SharedAccessor::live_entries` takes `shared`, `rt` and `queue`, and returns `u128`.
fn live_entries_of_tables<R: Wait>(shared: &SharedAccessor, rt: &R, queue: LogQueue) -> u128 {
    SharedAccessor::live_entries::<R>(shared, rt, queue)
}

/// Tests that the names above are exported with these types, and that what they give is as it is written here.
#[test]
fn shared_tables_are_handed_on(rt: HostRuntime) {
    slots();
    changes_of_slots();
    tables::<HostRuntime>();
    let shared = SharedAccessor::new(rt.alloc());
    assert!(rt; shared.is_empty(&rt) && fold_of_tables(&shared, &rt) == 0);
    assert!(rt; with_table_of_tables(&shared, &rt, 7).is_none());
}
