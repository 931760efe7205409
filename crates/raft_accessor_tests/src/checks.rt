//! Tests the checks of new items, which have no places yet.

use crate::calls::{Call, tables_after_calls};
use crate::items::{Item, NEW, entries_without_places, to_log_items};
use raft_memtable::{Error, MemTableAccessor, Result, slot_of};
use raft_records::LogItem;
use raft_recover::Slot;
use raft_trials::again;
use std::alloc::Global;

/// The calls that make the tables which the items are checked against.
const FIRST: &[Call] = &[Call::AppendWrites(&[Item::Entries(1, 10, 20, NEW)])];

/// Items, and the text with which they are refused; an empty text where they are accepted. Before them region 1 has the
/// entries 10 to 19, and the other regions have no tables.
static ROWS: [(&[Item], &str); 12] = [
    (
        &[
            Item::Run(1, &[20, 21]),
            Item::Run(2, &[7, 8]),
            Item::Run(1, &[15]),
            Item::Run(1, &[]),
            Item::Run(2, &[9]),
            Item::Delete(3, b"k"),
            Item::Run(1, &[10]),
        ],
        "",
    ),
    (
        &[
            Item::Compact(1, 30),
            Item::Run(1, &[40]),
            Item::Clean(1),
            Item::Run(1, &[3, 4]),
            Item::Truncate(1, 3),
            Item::Run(1, &[8]),
        ],
        "",
    ),
    (&[Item::Put(3, b"__\x01", false, None)], ""),
    (
        &[Item::Run(1, &[21])],
        "region 1: a run from index 21 on leaves a hole behind the entries, which end before index 20",
    ),
    (
        &[Item::Run(1, &[9, 10])],
        "region 1: a run from index 9 on begins in front of the first entry 10",
    ),
    (
        &[Item::Run(1, &[15]), Item::Run(1, &[17])],
        "region 1: a run from index 17 on leaves a hole behind the entries, which end before index 16",
    ),
    (
        &[Item::Truncate(1, 12), Item::Run(1, &[13])],
        "region 1: a run from index 13 on leaves a hole behind the entries, which end before index 12",
    ),
    (
        &[Item::Compact(1, 15), Item::Run(1, &[14])],
        "region 1: a run from index 14 on begins in front of the first entry 15",
    ),
    (
        &[Item::Run(2, &[5]), Item::Run(2, &[4])],
        "region 2: a run from index 4 on begins in front of the first entry 5",
    ),
    (
        &[Item::Clean(1), Item::Run(1, &[3, 4]), Item::Run(1, &[6])],
        "region 1: a run from index 6 on leaves a hole behind the entries, which end before index 5",
    ),
    (
        &[Item::Run(2, &[5, 7])],
        "region 2: the indexes of a run from 5 on are not consecutive",
    ),
    (
        &[Item::Put(3, b"k", false, None)],
        "region 3: a key is put without value",
    ),
];

/// Returns the rows of items, each with the text with which they are refused.
fn rows_of_tested_items() -> &'static [(&'static [Item], &'static str)] {
    &ROWS
}

/// Tests whether a check has refused items with this text, or accepted them, if it is empty.
///
/// # Errors
///
/// That of the check, unless it is `Corruption`.
fn is_refused_with_text(tested: Result<()>, text: &str) -> Result<bool> {
    match tested {
        Ok(()) => Ok(text.is_empty()),
        Err(Error::Corruption(why)) => Ok(why.as_str() == text),
        Err(other) => Err(other),
    }
}

/// Tests whether the items of a row are refused with its text, or accepted, by the accessor and by the slot of region
/// 1.
///
/// # Errors
///
/// That of a check, unless it is `Corruption`; `Memory`.
fn are_row_items_checked(
    alloc: Global,
    tables: &MemTableAccessor,
    slot: &Slot,
    row: &[Item],
    text: &str,
) -> Result<bool> {
    let items = to_log_items(alloc, row)?;
    Ok(
        is_refused_with_text(tables.check_append_writes(&items), text)?
            && is_refused_with_text(slot.check_append_writes(&items), text)?,
    )
}

/// Tests whether the items of each row are refused with its text, or accepted, by an accessor and by a slot.
///
/// # Errors
///
/// That of a check, unless it is `Corruption`; those of the calls before; `Memory`.
fn are_all_rows_checked(alloc: Global) -> Result<bool> {
    let mut slot = Slot::new(alloc, slot_of(1));
    slot.take_tables(&mut tables_after_calls(alloc, FIRST)?);
    let tables = tables_after_calls(alloc, FIRST)?;
    for (row, text) in rows_of_tested_items() {
        if !are_row_items_checked(alloc, &tables, &slot, row, text)? {
            return Ok(false);
        }
    }
    Ok(true)
}

/// Tests that an accessor and a slot refuse the same new items, with the same texts, before they are written.
#[test]
fn new_items_are_tested_before_they_are_written(rt: HostRuntime) {
    assert!(rt; matches!(again!(are_all_rows_checked(rt.alloc())), Ok(true)));
}

/// Returns 300 items of one entry each, and one more. The 300 are in the regions from 1 on, each with index 10, if
/// `is_apart`; else in region 1, from index 1 on. The last one is of region 1, with the index `last`.
///
/// # Errors
///
/// `Memory` alone.
fn many_items(alloc: Global, is_apart: bool, last: u64) -> Result<Vec<LogItem>> {
    let mut items = Vec::new(alloc);
    for number in 1..=300 {
        let (region, index) = if is_apart { (number, 10) } else { (1, number) };
        items.push(LogItem::new_entry_indexes(region, entries_without_places(alloc, &[index])?))?;
    }
    items.push(LogItem::new_entry_indexes(1, entries_without_places(alloc, &[last])?))?;
    Ok(items)
}

/// Tests whether the items of [`many_items`] are refused with this text where there are no tables, or accepted, if it
/// is empty.
///
/// # Errors
///
/// That of a check, unless it is `Corruption`; `Memory`.
fn are_many_items_refused_with(
    alloc: Global,
    is_apart: bool,
    last: u64,
    text: &str,
) -> Result<bool> {
    let items = many_items(alloc, is_apart, last)?;
    let tables = MemTableAccessor::new(alloc)?;
    let slot = Slot::new(alloc, slot_of(1));
    let tested = tables.check_append_writes(&items);
    Ok(
        is_refused_with_text(tested, text)?
            && is_refused_with_text(slot.check_append_writes(&items), text)?,
    )
}

/// Tests whether lists of many items are accepted up to an index, and refused behind it.
///
/// # Errors
///
/// Those of [`are_many_items_refused_with`].
fn are_all_many_items_checked(alloc: Global) -> Result<bool> {
    for &(is_apart, last, text) in &[
        (true, 11, ""),
        (
            true,
            12,
            "region 1: a run from index 12 on leaves a hole behind the entries, which end before index 11",
        ),
        (false, 301, ""),
        (
            false,
            302,
            "region 1: a run from index 302 on leaves a hole behind the entries, which end before index 301",
        ),
    ] {
        if !are_many_items_refused_with(alloc, is_apart, last, text)? {
            return Ok(false);
        }
    }
    Ok(true)
}

/// Tests lists of hundreds of new items, which are accepted or refused by their last one.
#[test]
fn many_new_items_are_tested_before_they_are_written(rt: HostRuntime) {
    assert!(rt; matches!(again!(are_all_many_items_checked(rt.alloc())), Ok(true)));
}
