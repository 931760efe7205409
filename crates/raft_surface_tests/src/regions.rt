//! The tables of all regions, from `raft_memtable`.
//!
//! Each function pins names or types: it compiles only as long as these are there as it writes them. None is called for
//! its effect, but where the test at the end says so.

use raft_memtable::{
    AllocResult, FileSeq, GlobalStats, LogBatch, LogItem, MemTable, MemTableAccessor, RegionTables,
    Result, TableChange, slot_of,
};
use std::alloc::{AllocError, Global};
use std::vec;

/// Compiles only as long as accessors, slots of regions and tables of regions are made and asked by these names.
fn tables() {
    let _new: fn(Global) -> Result<MemTableAccessor> = MemTableAccessor::new;
    let _is_empty: fn(&MemTableAccessor) -> bool = MemTableAccessor::is_empty;
    let _totals: fn(&MemTableAccessor) -> (u128, u128) = MemTableAccessor::totals;
    let _slot_of: fn(u64) -> usize = slot_of;
    let _region_tables: fn(Global) -> RegionTables = RegionTables::new;
    let _no_memory: AllocResult<u8> = Err(AllocError);
}

/// Compiles only as long as `MemTableAccessor::stats` takes `accessor`, and returns `&GlobalStats`.
fn stats_of_tables<'a>(accessor: &'a MemTableAccessor) -> &'a GlobalStats {
    MemTableAccessor::stats(accessor)
}

/// Compiles only as long as `MemTableAccessor::cleaned_regions` takes `accessor`, and returns `&[u64]`.
fn cleaned_regions_of_tables<'a>(accessor: &'a MemTableAccessor) -> &'a [u64] {
    MemTableAccessor::cleaned_regions(accessor)
}

/// Compiles only as long as `MemTableAccessor::tables` takes `accessor`, and returns `Result<Vec<&MemTable>>`.
fn tables_of_tables<'a>(accessor: &'a MemTableAccessor) -> Result<Vec<&'a MemTable>> {
    MemTableAccessor::tables(accessor)
}

/// Compiles only as long as `MemTableAccessor::get` takes `accessor` and `number`, and returns `Option<&MemTable>`.
fn get_of_tables<'a>(accessor: &'a MemTableAccessor, number: u64) -> Option<&'a MemTable> {
    MemTableAccessor::get(accessor, number)
}

/// Compiles only as long as `MemTableAccessor::get_or_insert` takes `accessor` and `number`, and returns
/// `Result<&MemTable>`.
fn get_or_insert_of_tables<'a>(
    accessor: &'a mut MemTableAccessor,
    number: u64,
) -> Result<&'a MemTable> {
    MemTableAccessor::get_or_insert(accessor, number)
}

/// Compiles only as long as these have these types: `change`, `check_append_writes`, `insert`, `remove`,
/// `take_cleaned_region_logs`, `apply_rewrite_atomic_group`, `merge_newer_neighbor` and `merge_append_table` of
/// `MemTableAccessor`; `check_append_items` of `RegionTables`.
fn changes() {
    let _change: fn(&mut MemTableAccessor, u64, TableChange) -> Result<u64> =
        MemTableAccessor::change;
    let _check_append_writes: fn(&MemTableAccessor, &[LogItem]) -> Result<()> =
        MemTableAccessor::check_append_writes;
    let _check_append_items: fn(&RegionTables, &[LogItem]) -> Result<()> =
        RegionTables::check_append_items;
    let _insert: fn(&mut MemTableAccessor, u64, MemTable) -> Result<Option<MemTable>> =
        MemTableAccessor::insert;
    let _remove: fn(&mut MemTableAccessor, u64, bool) -> Result<Option<MemTable>> =
        MemTableAccessor::remove;
    let _take_logs: fn(&mut MemTableAccessor) -> Result<LogBatch> =
        MemTableAccessor::take_cleaned_region_logs;
    let _atomic_group: fn(&mut MemTableAccessor, u64, FileSeq, FileSeq) -> Result<()> =
        MemTableAccessor::apply_rewrite_atomic_group;
    let _newer: fn(&mut MemTableAccessor, MemTableAccessor) -> Result<()> =
        MemTableAccessor::merge_newer_neighbor;
    let _appended: fn(&mut MemTableAccessor, MemTableAccessor) -> Result<()> =
        MemTableAccessor::merge_append_table;
}

/// Compiles only as long as `apply_append_writes` takes a `Vec` of items.
fn apply_append_writes_of_items(
    accessor: &mut MemTableAccessor,
    items: Vec<LogItem>,
) -> Result<()> {
    MemTableAccessor::apply_append_writes(accessor, items)
}

/// Compiles only as long as `replay_append_writes` takes a `Vec` of items.
fn replay_append_writes_of_items(
    accessor: &mut MemTableAccessor,
    items: Vec<LogItem>,
) -> Result<()> {
    MemTableAccessor::replay_append_writes(accessor, items)
}

/// Compiles only as long as `replay_rewrite_writes` takes a `Vec` of items.
fn replay_rewrite_writes_of_items(
    accessor: &mut MemTableAccessor,
    items: Vec<LogItem>,
) -> Result<()> {
    MemTableAccessor::replay_rewrite_writes(accessor, items)
}

/// Compiles only as long as `apply_rewrite_writes` takes a `Vec` of items.
fn apply_rewrite_writes_of_items(
    accessor: &mut MemTableAccessor,
    items: Vec<LogItem>,
    watermark: Option<FileSeq>,
    new_file: FileSeq,
) -> Result<()> {
    MemTableAccessor::apply_rewrite_writes(accessor, items, watermark, new_file)
}

/// Applies items to the tables as new ones of the append queue, in the form in which a batch hands them out.
///
/// # Errors
///
/// Those of `MemTableAccessor::apply_append_writes`.
fn appended_items(accessor: &mut MemTableAccessor, items: vec::IntoIter<LogItem>) -> Result<()> {
    MemTableAccessor::apply_append_writes(accessor, items)
}

/// Replays items into the tables as ones of the append queue, in the form in which a batch hands them out.
///
/// # Errors
///
/// Those of `MemTableAccessor::replay_append_writes`.
fn replayed_items(accessor: &mut MemTableAccessor, items: vec::IntoIter<LogItem>) -> Result<()> {
    MemTableAccessor::replay_append_writes(accessor, items)
}

/// Replays items into the tables as ones of the rewrite queue, in the form in which a batch hands them out.
///
/// # Errors
///
/// Those of `MemTableAccessor::replay_rewrite_writes`.
fn replayed_rewrites(accessor: &mut MemTableAccessor, items: vec::IntoIter<LogItem>) -> Result<()> {
    MemTableAccessor::replay_rewrite_writes(accessor, items)
}

/// Applies items to the tables as rewritten to a file, in the form in which a batch hands them out.
///
/// # Errors
///
/// Those of `MemTableAccessor::apply_rewrite_writes`.
fn rewritten_items(
    accessor: &mut MemTableAccessor,
    items: vec::IntoIter<LogItem>,
    watermark: Option<FileSeq>,
    new_file: FileSeq,
) -> Result<()> {
    MemTableAccessor::apply_rewrite_writes(accessor, items, watermark, new_file)
}

/// Returns how many tables a walk over all of them visits.
fn fold_of_walks(accessor: &MemTableAccessor) -> u64 {
    let init: u64 = 0;
    MemTableAccessor::fold(accessor, init, |count: u64, _: &MemTable| -> u64 {
        count.wrapping_add(1)
    })
}

/// Returns the tables of the region `id`, from a walk over all tables.
///
/// # Errors
///
/// Those of `MemTableAccessor::collect`.
fn collect_of_walks<'a>(accessor: &'a MemTableAccessor, id: u64) -> Result<Vec<&'a MemTable>> {
    MemTableAccessor::collect(accessor, |table: &MemTable| -> bool {
        table.region_id() == id
    })
}

/// Returns how many tables there are after empty lists of items were applied: none.
///
/// # Errors
///
/// Those of the calls.
fn met_in_none(alloc: Global) -> Result<u64> {
    let mut accessor = MemTableAccessor::new(alloc)?;
    apply_append_writes_of_items(&mut accessor, Vec::new(alloc))?;
    appended_items(&mut accessor, LogBatch::default(alloc).drain())?;
    Ok(fold_of_walks(&accessor))
}

/// Tests that the names above are exported with these types, and that what they give is as it is written here.
#[test]
fn regions_are_handed_on(rt: HostRuntime) {
    tables();
    changes();
    assert!(rt; slot_of(0) == 0);
    assert!(rt; matches!(met_in_none(rt.alloc()), Ok(0) | Err(_)));
}
