//! Tests that calls of an accessor answer, count and leave what their rows say, and that a region has the slot that
//! raft-engine gives it.

use crate::calls::{Call, call_accessor, tables_after_calls};
use crate::items::{Item, NEW, result_or_fault};
use crate::rows::{Outline, Row, lists_of_rows};
use crate::seen::{live_written_and_deleted, take_cleaned_of_accessor};
use raft_memtable::{LogQueue, MemTable, MemTableAccessor, Result, slot_of};
use raft_trials::again;
use std::alloc::Global;

/// Returns the first index of a table, the one past its last index, and how many records it has in each queue; 0 for
/// an index where it has no entries.
fn indexes_and_counts(table: &MemTable) -> Outline {
    (
        table.first_index().unwrap_or(0),
        table.last_index().map_or(0, |last| last.saturating_add(1)),
        table.records(LogQueue::Append),
        table.records(LogQueue::Rewrite),
    )
}

/// Makes the call of a row, and tests whether it returns and leaves what the row says.
///
/// # Errors
///
/// That of the call, unless it is a [`Fault`](crate::items::Fault).
fn is_call_as_row_says(alloc: Global, core: &mut MemTableAccessor, row: &Row) -> Result<bool> {
    let (call, expected, numbers, (region, table)) = *row;
    let answer = result_or_fault(call_accessor(alloc, core, call))?.map(|answer| answer.0);
    let is_counted = live_written_and_deleted(core.stats()) == numbers;
    Ok(answer == expected && is_counted && core.get(region).map(indexes_and_counts) == table)
}

/// Tests whether the calls of each list of rows are as the rows say, one after another on a new accessor.
///
/// # Errors
///
/// Those of [`is_call_as_row_says`].
fn are_all_calls_as_rows_say(alloc: Global) -> Result<bool> {
    for rows in lists_of_rows() {
        let mut core = MemTableAccessor::new(alloc)?;
        for row in *rows {
            if !is_call_as_row_says(alloc, &mut core, row)? {
                return Ok(false);
            }
        }
    }
    Ok(true)
}

/// Tests that each call of the rows gives its answer, and leaves the tables and live counts of the row.
#[test]
fn each_call_changes_tables_and_is_counted(rt: HostRuntime) {
    assert!(rt; matches!(again!(are_all_calls_as_rows_say(rt.alloc())), Ok(true)));
}

/// A call, a region, and the table that `get_or_insert` returns for it then: its outline and its value of `k`; and how
/// many tables there are.
type Handed = (Call, u64, Outline, Option<&'static [u8]>, usize);

/// Rows of calls on an accessor without tables, one after the other. The regions 3 and 73 belong to one slot.
static HANDED: [Handed; 12] = [
    (Call::Nothing, 3, (0, 0, 0, 0), None, 1),
    (
        Call::AppendWrites(&[Item::Put(3, b"k", true, Some(NEW))]),
        3,
        (0, 0, 1, 0),
        Some(b"v"),
        1,
    ),
    (
        Call::AppendWrites(&[Item::Entries(3, 10, 20, NEW)]),
        3,
        (10, 20, 11, 0),
        Some(b"v"),
        1,
    ),
    (Call::Nothing, 73, (0, 0, 0, 0), None, 2),
    (
        Call::AppendWrites(&[Item::Entries(73, 1, 4, NEW)]),
        73,
        (1, 4, 3, 0),
        None,
        2,
    ),
    (Call::Nothing, 3, (10, 20, 11, 0), Some(b"v"), 2),
    (
        Call::RewriteWrites(&[Item::Put(3, b"k", true, Some(NEW))], Some(1), 50),
        3,
        (10, 20, 10, 1),
        Some(b"v"),
        2,
    ),
    (
        Call::AppendWrites(&[Item::Delete(3, b"k")]),
        3,
        (10, 20, 10, 0),
        None,
        2,
    ),
    (Call::Remove(3, false), 3, (0, 0, 0, 0), None, 2),
    (Call::Nothing, 73, (1, 4, 3, 0), None, 2),
    (Call::Nothing, 0, (0, 0, 0, 0), None, 3),
    (Call::Nothing, u64::MAX, (0, 0, 0, 0), None, 4),
];

/// Returns the rows of tables that are handed out.
fn rows_of_handed_tables() -> &'static [Handed] {
    &HANDED
}

/// Tests whether a table is that of the row's region, with the outline and the value that the row has.
fn is_table_of_row(table: &MemTable, row: &Handed) -> bool {
    let (_, region, expected, value, _) = *row;
    table.region_id() == region && indexes_and_counts(table) == expected && table.get(b"k") == value
}

/// Makes the call of a row, and tests whether `get_or_insert` then returns the row's table, twice, and so does `get`.
///
/// # Errors
///
/// Those of the calls; `Memory`.
fn is_own_table_handed_out(
    alloc: Global,
    core: &mut MemTableAccessor,
    row: &Handed,
) -> Result<bool> {
    let (call, region, _, _, count) = *row;
    call_accessor(alloc, core, call)?;
    let is_first = is_table_of_row(core.get_or_insert(region)?, row);
    let is_second = is_table_of_row(core.get_or_insert(region)?, row);
    let is_found = core
        .get(region)
        .is_some_and(|table| is_table_of_row(table, row));
    Ok(is_first && is_second && is_found && core.tables()?.len() == count)
}

/// Tests whether each row hands out its region's own table, one after another on one accessor.
///
/// # Errors
///
/// Those of the calls; `Memory`.
fn are_own_tables_handed_out(alloc: Global) -> Result<bool> {
    let mut core = MemTableAccessor::new(alloc)?;
    for row in rows_of_handed_tables() {
        if !is_own_table_handed_out(alloc, &mut core, row)? {
            return Ok(false);
        }
    }
    Ok(true)
}

/// Tests that a region is given its own table, also when it is asked for twice.
#[test]
fn get_or_insert_returns_the_table_of_its_region(rt: HostRuntime) {
    assert!(rt; matches!(again!(are_own_tables_handed_out(rt.alloc())), Ok(true)));
}

/// Calls that clean the regions 3, 5 and 3 again.
const CLEANED: &[Call] = &[Call::Replay(
    LogQueue::Append,
    &[Item::Clean(3), Item::Clean(5), Item::Clean(3)],
)];

/// Tests whether the cleaned regions are taken in order, with a `Clean` for each, and only once.
///
/// # Errors
///
/// Those of the calls; `Memory`.
fn are_cleaned_regions_taken_once(alloc: Global) -> Result<bool> {
    let mut core = tables_after_calls(alloc, CLEANED)?;
    let listed = core.cleaned_regions() == [3, 5, 3].as_slice();
    let first = take_cleaned_of_accessor(alloc, &mut core)?;
    let second = take_cleaned_of_accessor(alloc, &mut core)?;
    Ok(listed && first.as_slice() == [3, 5, 3].as_slice() && second.is_empty())
}

/// Tests that the cleaned regions are taken in order, with a `Clean` for each, and only once.
#[test]
fn cleaned_regions_are_handed_out_in_order_and_once(rt: HostRuntime) {
    assert!(rt; matches!(again!(are_cleaned_regions_taken_once(rt.alloc())), Ok(true)));
}

/// Tests that the numbers of slots are those that raft-engine gives.
#[test]
fn a_region_has_one_slot(rt: HostRuntime) {
    for &(region, slot) in &[
        (0, 0),
        (1, 101),
        (2, 10),
        (3, 112),
        (10, 121),
        (20, 114),
        (73, 112),
        (127, 37),
    ] {
        assert_eq!(rt; slot_of(region), slot);
    }
}
