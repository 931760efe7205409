//! Tests tables and cleaned regions in each of the 128 slots: no call and no walk leaves a slot out.

use crate::items::{Item, NEW, new_run, to_log_items};
use crate::seen::{
    Seen, live_written_and_deleted, shape_of_table, summarize_accessor, summarize_shared_tables,
};
use raft_memtable::{MemTableAccessor, Result, TableChange, slot_of};
use raft_recover::{SharedAccessor, Slot};
use raft_trials::again;
use std::alloc::Global;
use std::sync::Wait;

/// How many regions there are. A third of them gets an entry and a key, a third a table without records, and a third is
/// cleaned.
const REGIONS: u64 = 2_200;

/// Tests whether each of the 128 slots has a region of the third numbered `third`.
fn has_each_slot_a_region(third: u64) -> bool {
    let mut filled = [false; 128];
    for region in 0..REGIONS {
        if region % 3 == third {
            filled[slot_of(region)] = true;
        }
    }
    filled.iter().all(|slot| *slot)
}

/// Returns a change that appends an entry to the table of a region. Its index differs for a thousand regions.
///
/// # Errors
///
/// `Memory` alone.
fn append_change(alloc: Global, region: u64) -> Result<TableChange> {
    let index = region % 1000;
    Ok(TableChange::Append(new_run(alloc, index, index + 1, NEW)?))
}

/// Fills the table of a region in an accessor: appends an entry, and rewrites a key of its own.
///
/// # Errors
///
/// Those of the calls; `Memory`.
fn fill_accessor(alloc: Global, core: &mut MemTableAccessor, region: u64) -> Result<()> {
    let key = [Item::PutOwnKey(region, NEW)];
    core.change(region, append_change(alloc, region)?)?;
    core.apply_append_writes(to_log_items(alloc, &key)?)?;
    core.apply_rewrite_writes(to_log_items(alloc, &key)?, Some(1), 50)
}

/// Fills the shared table of a region: appends an entry, and rewrites a key of its own.
///
/// # Errors
///
/// Those of the calls; `Memory`.
fn fill_shared<R: Wait>(rt: &R, alloc: Global, shared: &SharedAccessor, region: u64) -> Result<()> {
    let key = [Item::PutOwnKey(region, NEW)];
    shared.change(rt, region, append_change(alloc, region)?)?;
    shared.apply_append_writes(rt, to_log_items(alloc, &key)?)?;
    shared.apply_rewrite_writes(rt, to_log_items(alloc, &key)?, Some(1), 50)
}

/// Returns an accessor with all regions.
///
/// # Errors
///
/// Those of the calls; `Memory`.
fn new_filled_accessor(alloc: Global) -> Result<MemTableAccessor> {
    let mut core = MemTableAccessor::new(alloc)?;
    for region in 0..REGIONS {
        match region % 3 {
            0 => fill_accessor(alloc, &mut core, region)?,
            1 => {
                core.change(region, TableChange::Keep)?;
            }
            _ => core.apply_append_writes(to_log_items(alloc, &[Item::Clean(region)])?)?,
        }
    }
    Ok(core)
}

/// Fills shared tables by their own calls, and returns what they have.
///
/// # Errors
///
/// Those of the calls; `Memory`.
fn see_filled_shared_tables<R: Wait>(rt: &R, alloc: Global) -> Result<Seen> {
    let shared = SharedAccessor::new(alloc);
    for region in 0..REGIONS {
        match region % 3 {
            0 => fill_shared(rt, alloc, &shared, region)?,
            1 => shared.get_or_insert(rt, region)?,
            _ => shared.apply_append_writes(rt, to_log_items(alloc, &[Item::Clean(region)])?)?,
        }
    }
    summarize_shared_tables(rt, alloc, &shared)
}

/// Makes shared tables of an accessor with all regions, and returns what they have.
///
/// # Errors
///
/// Those of the calls; `Memory`.
fn see_shared_from_accessor<R: Wait>(rt: &R, alloc: Global) -> Result<Seen> {
    let shared = SharedAccessor::from_core(alloc, new_filled_accessor(alloc)?)?;
    summarize_shared_tables(rt, alloc, &shared)
}

/// Tests whether both have what the accessor has: 734 tables with an entry and a key, 733 without records, and 733
/// cleaned regions.
///
/// # Errors
///
/// Those of the calls; `Memory`.
fn are_all_tables_seen<R: Wait>(rt: &R, alloc: Global) -> Result<bool> {
    let expected = summarize_accessor(alloc, &mut new_filled_accessor(alloc)?)?;
    Ok(
        expected.has(1_467, 733, (734, 734))
            && see_filled_shared_tables(rt, alloc)? == expected
            && see_shared_from_accessor(rt, alloc)? == expected,
    )
}

/// Tests that shared tables with regions in each of the 128 slots have all that an accessor has.
#[test]
fn no_slot_is_left_out(rt: HostRuntime) {
    assert!(rt;
        has_each_slot_a_region(0) && has_each_slot_a_region(1) && has_each_slot_a_region(2)
    );
    assert!(rt; matches!(again!(are_all_tables_seen(&rt, rt.alloc())), Ok(true)));
}

/// Tests whether the tables of an accessor are as they were once they were shared and are an accessor's again.
///
/// # Errors
///
/// Those of the calls; `Memory`.
fn are_tables_back(alloc: Global) -> Result<bool> {
    let shared = SharedAccessor::from_core(alloc, new_filled_accessor(alloc)?)?;
    let mut core = shared.into_core()?;
    let mut expected = new_filled_accessor(alloc)?;
    Ok(summarize_accessor(alloc, &mut core)? == summarize_accessor(alloc, &mut expected)?)
}

/// Tests that tables that were shared are an accessor's again, as they were before.
#[test]
fn shared_tables_become_an_accessor_again(rt: HostRuntime) {
    assert!(rt; matches!(again!(are_tables_back(rt.alloc())), Ok(true)));
}

/// Tests whether a slot has the table of a region as it was before, if the region belongs to the slot, and none
/// otherwise.
fn has_own_table(slot: &Slot, region: u64, before: &MemTableAccessor) -> bool {
    let found = slot.table(region).map(shape_of_table);
    if slot.number() == slot_of(region) {
        found == before.get(region).map(shape_of_table)
    } else {
        found.is_none()
    }
}

/// Tests whether a slot has the tables of its own regions as they were before, and no others.
fn has_own_tables_alone(slot: &Slot, before: &MemTableAccessor) -> bool {
    (0..REGIONS).all(|region| has_own_table(slot, region, before))
}

/// How many of the regions 0, 3, .. 2,199 belong to each slot, by the formula of `hash_u64`. Each of them has an
/// appended entry and a rewritten key.
static FILLED: [usize; 128] = [
    9, 6, 8, 4, 6, 4, 2, 3, 6, 12, 11, 6, 4, 3, 6, 4, 6, 5, 3, 3, 5, 6, 3, 6, 2, 6, 8, 4, 8, 3, 1,
    8, 7, 2, 11, 4, 6, 6, 6, 5, 4, 5, 4, 7, 9, 6, 3, 4, 5, 6, 6, 9, 6, 5, 6, 8, 6, 10, 3, 8, 5, 10,
    4, 4, 11, 7, 7, 3, 2, 7, 8, 5, 10, 6, 3, 10, 5, 4, 3, 6, 2, 9, 6, 8, 6, 4, 7, 5, 4, 8, 5, 3, 8,
    9, 3, 4, 7, 3, 3, 3, 6, 6, 5, 6, 4, 7, 6, 5, 4, 10, 2, 5, 6, 6, 6, 4, 3, 8, 7, 5, 13, 6, 4, 10,
    4, 7, 12, 2,
];

/// Returns how many filled regions each slot has.
fn filled_regions_by_slot() -> &'static [usize; 128] {
    &FILLED
}

/// Tests whether a slot counts the records of `own` filled regions, and the accessor those of 734 such regions without
/// the first `taken` ones.
fn are_slot_counts_right(slot: &Slot, own: usize, core: &MemTableAccessor, taken: usize) -> bool {
    let left = 734usize.saturating_sub(taken);
    live_written_and_deleted(slot.stats()) == (own, own, 0)
        && live_written_and_deleted(core.stats()) == (left, 734, taken)
}

/// Tests whether each slot takes its own tables out of an accessor, with their counts, which then has none.
///
/// # Errors
///
/// Those of the calls; `Memory`.
fn takes_each_slot_its_own(alloc: Global) -> Result<bool> {
    let before = new_filled_accessor(alloc)?;
    let mut core = new_filled_accessor(alloc)?;
    let mut taken = 0usize;
    for number in 0..128 {
        let own = filled_regions_by_slot()[number];
        let mut slot = Slot::new(alloc, number);
        slot.take_tables(&mut core);
        taken = taken.saturating_add(own);
        if !has_own_tables_alone(&slot, &before)
            || !are_slot_counts_right(&slot, own, &core, taken)
        {
            return Ok(false);
        }
    }
    Ok(core.is_empty() && taken == 734)
}

/// Tests that each slot takes its own tables out of an accessor, with their counts, until none are left.
#[test]
fn each_slot_takes_its_tables(rt: HostRuntime) {
    assert!(rt; matches!(again!(takes_each_slot_its_own(rt.alloc())), Ok(true)));
}

/// Tests whether shared tables aren't empty exactly as long as a region has a table. It is made, removed, and listed as
/// cleaned.
///
/// # Errors
///
/// Those of the calls; `Memory`.
fn is_single_table_met<R: Wait>(rt: &R, shared: &SharedAccessor, region: u64) -> Result<bool> {
    let before = shared.is_empty(rt);
    shared.get_or_insert(rt, region)?;
    let between = shared.is_empty(rt);
    let _removed = shared.remove(rt, region, true)?;
    Ok(before && !between && shared.is_empty(rt))
}

/// Tests for each region whether shared tables with its table alone aren't empty: the first table is in a slot without
/// cleaned regions, the others in one with some.
///
/// # Errors
///
/// Those of the calls; `Memory`.
fn is_each_table_met<R: Wait>(rt: &R, alloc: Global) -> Result<bool> {
    let shared = SharedAccessor::new(alloc);
    for region in 0..REGIONS {
        if !is_single_table_met(rt, &shared, region)? {
            return Ok(false);
        }
    }
    Ok(true)
}

/// Tests for each region that shared tables aren't empty just as long as it has a table.
#[test]
fn is_empty_sees_each_table(rt: HostRuntime) {
    assert!(rt; matches!(again!(is_each_table_met(&rt, rt.alloc())), Ok(true)));
}
