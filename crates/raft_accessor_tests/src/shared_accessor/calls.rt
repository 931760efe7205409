//! Tests that each call of shared tables leaves what the accessor's call of the same name leaves.

use crate::calls::{
    Answer, Call, Change, answer_of_number, answer_of_table, answer_without_value, call_accessor,
    compaction_change, new_other_table, tables_after_calls, to_table_change,
};
use crate::items::{Fault, Item, NEW, NEWER, REWRITTEN, result_or_fault, to_log_items};
use crate::seen::{REGION, summarize_accessor, summarize_shared_tables, take_cleaned_of_shared};
use raft_memtable::{Error, LogQueue, MemTableAccessor, Result};
use raft_recover::SharedAccessor;
use raft_trials::again;
use std::alloc::Global;
use std::sync::Wait;

/// A region that has no table at first.
const FRESH: u64 = 4;

/// Calls that make tables of three regions, one of them rewritten in part and one in two files, and list two others as
/// cleaned.
const MADE: &[Call] = &[
    Call::AppendWrites(&[
        Item::Entries(1, 10, 20, NEW),
        Item::Put(1, b"k", true, Some(NEW)),
        Item::Entries(2, 10, 20, NEW),
        Item::Put(2, b"k", true, Some(NEW)),
        Item::Entries(3, 10, 20, NEW),
        Item::Put(3, b"k", true, Some(NEW)),
        Item::Entries(3, 13, 20, NEWER),
    ]),
    Call::RewriteWrites(
        &[
            Item::Entries(2, 10, 15, REWRITTEN),
            Item::Put(2, b"k", true, Some(REWRITTEN)),
        ],
        Some(1),
        50,
    ),
    Call::AtomicGroup(2),
    Call::Remove(9, true),
    Call::Remove(2000, true),
];

/// A call that cleans regions, and writes one of them again.
const CLEANED_AND_WRITTEN: &[Call] = &[Call::AppendWrites(&[
    Item::Entries(REGION, 10, 20, NEW),
    Item::Clean(REGION),
    Item::Clean(3),
    Item::Entries(REGION, 30, 33, NEWER),
    Item::Put(REGION, b"k", true, Some(NEWER)),
    Item::Clean(4),
])];

/// A call that makes a table with a single, rewritten entry.
const REWRITTEN_ALONE: &[Call] = &[Call::Replay(
    LogQueue::Rewrite,
    &[Item::Entries(REGION, 10, 11, REWRITTEN)],
)];

/// Entries and a key of the region, and another region that is cleaned.
const NEW_ITEMS: &[Item] = &[
    Item::Entries(REGION, 20, 23, NEW),
    Item::Put(REGION, b"m", true, Some(NEW)),
    Item::Clean(3),
];

/// Truncations of three regions: with a table of the append queue, with a rewritten one, and without one.
const TRUNCATIONS: &[Item] = &[
    Item::Truncate(REGION, 15),
    Item::Truncate(2, 13),
    Item::Truncate(FRESH, 5),
];

/// Entries of the region, others after a hole, and a key of another region.
const ITEMS_WITH_HOLE: &[Item] = &[
    Item::Entries(REGION, 20, 22, NEW),
    Item::Entries(REGION, 30, 31, NEW),
    Item::Put(2, b"m", true, Some(NEW)),
];

/// Entries and a key of the region that were rewritten.
const REWRITTEN_ITEMS: &[Item] = &[
    Item::Entries(REGION, 10, 15, REWRITTEN),
    Item::Put(REGION, b"k", true, Some(REWRITTEN)),
];

/// Rewritten items of the region, a compaction that is refused, and a key of another region.
const WITH_COMPACTION: &[Item] = &[
    Item::Entries(REGION, 10, 15, REWRITTEN),
    Item::Put(REGION, b"k", true, Some(REWRITTEN)),
    Item::Compact(REGION, 12),
    Item::Put(3, b"k", true, Some(REWRITTEN)),
];

/// Rewritten items of the region, a truncation that is refused, and a key of another region.
const WITH_TRUNCATION: &[Item] = &[
    Item::Entries(REGION, 10, 15, REWRITTEN),
    Item::Put(REGION, b"k", true, Some(REWRITTEN)),
    Item::Truncate(REGION, 12),
    Item::Put(3, b"k", true, Some(REWRITTEN)),
];

/// Rewritten items of the region, a deletion that is refused, and a key of another region.
const WITH_DELETION: &[Item] = &[
    Item::Entries(REGION, 10, 15, REWRITTEN),
    Item::Put(REGION, b"k", true, Some(REWRITTEN)),
    Item::Delete(REGION, b"k"),
    Item::Put(3, b"k", true, Some(REWRITTEN)),
];

/// Rewritten items of the region, a key without a value, which is refused, and a key of another region.
const WITHOUT_VALUE: &[Item] = &[
    Item::Entries(REGION, 10, 15, REWRITTEN),
    Item::Put(REGION, b"k", true, Some(REWRITTEN)),
    Item::Put(REGION, b"k", false, None),
    Item::Put(3, b"k", true, Some(REWRITTEN)),
];

/// Calls that make tables, a call that is then made, and its fault, if it is refused.
type Row = (&'static [Call], Call, Option<Fault>);

static CALLS: [Row; 36] = [
    (&[], Call::Nothing, None),
    (CLEANED_AND_WRITTEN, Call::Nothing, None),
    (REWRITTEN_ALONE, Call::Nothing, None),
    (MADE, Call::Nothing, None),
    (MADE, Call::WithTableMut(REGION), None),
    (MADE, Call::WithTableMut(FRESH), None),
    (MADE, Call::Change(REGION, Change::Truncate(15)), None),
    (MADE, Call::Change(2, Change::Truncate(12)), None),
    (MADE, Call::Change(FRESH, Change::Truncate(5)), None),
    (MADE, Call::Change(REGION, Change::Put), None),
    (MADE, Call::Change(FRESH, Change::Put), None),
    (
        MADE,
        Call::Change(REGION, Change::Append(30, 32, NEW)),
        Some(Fault::Corruption),
    ),
    (
        MADE,
        Call::Change(REGION, Change::Append(20, 22, REWRITTEN)),
        Some(Fault::InvalidArgument),
    ),
    (MADE, Call::GetOrInsert(REGION), None),
    (MADE, Call::GetOrInsert(FRESH), None),
    (MADE, Call::Insert(REGION), None),
    (MADE, Call::Insert(FRESH), None),
    (MADE, Call::Remove(REGION, true), None),
    (MADE, Call::Remove(FRESH, true), None),
    (MADE, Call::Remove(REGION, false), None),
    (MADE, Call::Remove(FRESH, false), None),
    (MADE, Call::AppendWrites(NEW_ITEMS), None),
    (MADE, Call::AppendWrites(TRUNCATIONS), None),
    (
        MADE,
        Call::AppendWrites(ITEMS_WITH_HOLE),
        Some(Fault::Corruption),
    ),
    (
        MADE,
        Call::RewriteWrites(REWRITTEN_ITEMS, Some(1), 40),
        None,
    ),
    // Entries of a file above the gate stay, and so does all that isn't rewritten where there is none.
    (
        MADE,
        Call::RewriteWrites(
            &[
                Item::Entries(3, 10, 15, REWRITTEN),
                Item::Put(3, b"k", true, Some(REWRITTEN)),
            ],
            Some(1),
            40,
        ),
        None,
    ),
    (MADE, Call::RewriteWrites(REWRITTEN_ITEMS, None, 40), None),
    (
        MADE,
        Call::RewriteWrites(
            &[
                Item::Entries(2, 10, 15, REWRITTEN),
                Item::Put(2, b"k", true, Some(REWRITTEN)),
            ],
            None,
            60,
        ),
        None,
    ),
    // A region with a table, and one without.
    (
        MADE,
        Call::RewriteWrites(&[Item::Clean(REGION), Item::Clean(FRESH)], Some(1), 40),
        None,
    ),
    (
        MADE,
        Call::RewriteWrites(WITH_COMPACTION, Some(1), 40),
        Some(Fault::Corruption),
    ),
    (
        MADE,
        Call::RewriteWrites(WITH_TRUNCATION, Some(1), 40),
        Some(Fault::Corruption),
    ),
    (
        MADE,
        Call::RewriteWrites(WITH_DELETION, Some(1), 40),
        Some(Fault::Corruption),
    ),
    (
        MADE,
        Call::RewriteWrites(WITHOUT_VALUE, Some(1), 40),
        Some(Fault::Corruption),
    ),
    (MADE, Call::AtomicGroup(REGION), None),
    (MADE, Call::AtomicGroup(FRESH), None),
    (MADE, Call::TakeCleaned, None),
];

/// Returns the rows of calls.
fn rows_of_calls() -> &'static [Row] {
    &CALLS
}

/// Makes a call of shared tables, and returns its answer.
///
/// # Errors
///
/// Those of the call; `Failed` if shared tables don't have it; `Memory`.
fn call_shared<R: Wait>(
    rt: &R,
    alloc: Global,
    shared: &SharedAccessor,
    call: Call,
) -> Result<Answer> {
    match call {
        Call::Nothing => Ok((0, None)),
        Call::WithTableMut(id) => answer_of_number(shared.with_table_mut(
            rt,
            id,
            compaction_change,
        )),
        Call::Change(id, change) => answer_of_number(shared.change(
            rt,
            id,
            to_table_change(alloc, change)?,
        )),
        Call::GetOrInsert(id) => answer_without_value(shared.get_or_insert(rt, id)),
        Call::Insert(id) => {
            let other = new_other_table(alloc, id)?;
            answer_of_table(shared.insert(rt, other.region_id(), other))
        }
        Call::Remove(id, is_listed) => answer_of_table(shared.remove(rt, id, is_listed)),
        Call::AppendWrites(given) => answer_without_value(shared.apply_append_writes(
            rt,
            to_log_items(alloc, given)?,
        )),
        Call::RewriteWrites(given, gate, seq) => {
            answer_without_value(shared.apply_rewrite_writes(
                rt,
                to_log_items(alloc, given)?,
                gate,
                seq,
            ))
        }
        Call::AtomicGroup(id) => answer_without_value(shared.apply_rewrite_atomic_group(
            rt, id, 49, 50,
        )),
        Call::TakeCleaned => Ok((
            take_cleaned_of_shared(rt, alloc, shared)?.len() as u64,
            None,
        )),
        _ => Err(Error::Failed),
    }
}

/// Tests whether cleaned regions of one slot stay listed in order, each as often as it was cleaned.
///
/// # Errors
///
/// Those of the calls; `Memory`.
fn is_cleaned_list_kept<R: Wait>(rt: &R, alloc: Global) -> Result<bool> {
    let mut core = MemTableAccessor::new(alloc)?;
    for &region in &[3, 73, 3, 3] {
        core.remove(region, true)?;
    }
    let shared = SharedAccessor::from_core(alloc, core)?;
    Ok(take_cleaned_of_shared(rt, alloc, &shared)?.as_slice() == [3, 73, 3, 3].as_slice())
}

/// Tests whether regions that were cleaned are listed, and one that was written again has its table, also once the
/// tables were shared and are an accessor's again.
///
/// # Errors
///
/// Those of the calls; `Memory`.
fn is_rewritten_region_back(alloc: Global) -> Result<bool> {
    let shared = SharedAccessor::from_core(alloc, tables_after_calls(alloc, CLEANED_AND_WRITTEN)?)?;
    let mut core = shared.into_core()?;
    let seen = summarize_accessor(alloc, &mut core)?;
    let mut expected = tables_after_calls(alloc, CLEANED_AND_WRITTEN)?;
    Ok(seen.has(1, 3, (4, 0)) && seen == summarize_accessor(alloc, &mut expected)?)
}

/// Tests whether the call of a row returns and leaves the same in shared tables and in an accessor, and is refused for
/// the row's fault, or not at all.
///
/// # Errors
///
/// That of a call, unless it is a [`Fault`](crate::items::Fault); those of the calls before; `Memory`.
fn is_row_alike<R: Wait>(rt: &R, alloc: Global, row: &Row) -> Result<bool> {
    let (made, call, fault) = *row;
    let shared = SharedAccessor::from_core(alloc, tables_after_calls(alloc, made)?)?;
    let answer = result_or_fault(call_shared(rt, alloc, &shared, call))?;
    let mut core = tables_after_calls(alloc, made)?;
    let expected = result_or_fault(call_accessor(alloc, &mut core, call))?;
    Ok(
        answer == expected
            && answer.err() == fault
            && summarize_shared_tables(rt, alloc, &shared)?
                == summarize_accessor(alloc, &mut core)?,
    )
}

/// Tests whether the calls of all rows leave the same in shared tables and in an accessor.
///
/// # Errors
///
/// Those of [`is_row_alike`], [`is_cleaned_list_kept`] and [`is_rewritten_region_back`].
fn are_all_rows_alike<R: Wait>(rt: &R, alloc: Global) -> Result<bool> {
    for row in rows_of_calls() {
        if !is_row_alike(rt, alloc, row)? {
            return Ok(false);
        }
    }
    Ok(is_cleaned_list_kept(rt, alloc)? && is_rewritten_region_back(alloc)?)
}

/// Tests that each call returns and leaves the same in shared tables as in an accessor.
#[test]
fn shared_tables_answer_as_an_accessor_does(rt: HostRuntime) {
    assert!(rt; matches!(again!(are_all_rows_alike(&rt, rt.alloc())), Ok(true)));
}
