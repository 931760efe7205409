//! Calls of tables that threads share, and of one slot.

use crate::found::{Found, call_twice};
use crate::seen::{hash_of_regions, hash_of_table};
use crate::steps::{Step, written_batch};
use crate::tables::put_change;
use crate::writes::{Call, THIRD, Write, print_regions, tables_after_calls};
use raft_memtable::{Error, FileId, FileSeq, LogQueue, MemTable, Result, slot_of};
use raft_records::LogBatch;
use raft_recover::{SharedAccessor, Slot};
use std::alloc::Global;
use std::sync::Wait;

/// What makes the tables at first: region 1 with entries and a key, regions 3 and 5 cleaned.
static FIRST: [Call; 4] = [
    Call::Write(Write::Append, 1, Step::Run(1, 10, 20)),
    Call::Write(Write::Append, 1, Step::Put(1, b"k", b"v")),
    Call::Write(Write::Append, 1, Step::Clean(3)),
    Call::Write(Write::Append, 1, Step::Clean(5)),
];

/// The calls that the row `shared` makes of shared tables.
static CALLS: [Call; 13] = [
    Call::Write(Write::Append, 2, Step::Run(1, 20, 25)),
    Call::Write(Write::Append, 2, Step::Put(2, b"k", b"v")),
    Call::Write(Write::Append, 2, Step::Truncate(1, 22)),
    Call::Write(Write::Rewrite(Some(1)), 50, Step::Run(1, 10, 15)),
    Call::Write(Write::Rewrite(Some(1)), 50, Step::Put(1, b"k", b"v")),
    Call::Write(Write::Append, 2, Step::Clean(7)),
    Call::Put(4),
    Call::Make(7),
    Call::Insert(8),
    Call::Remove(5, true),
    Call::Remove(9, true),
    Call::Group(5, 49, 50),
    Call::Group(7, 49, 50),
];

/// Returns the calls that the row makes of shared tables.
fn shared_calls() -> &'static [Call] {
    &CALLS
}

/// The sum of the hashes of all tables, and how many records are live in the append and in the rewrite queue.
type SharedSeen = (u64, u128, u128);

/// Returns what the tables of `shared` have now, reduced to a few numbers. Two results are compared to see
/// whether a refused call has changed anything.
fn summarize_shared_tables<R: Wait>(rt: &R, shared: &SharedAccessor) -> SharedSeen {
    (
        shared.fold(
            rt,
            0u64,
            |sum, table: &MemTable| sum.wrapping_add(hash_of_table(table)),
        ),
        shared.live_entries(rt, LogQueue::Append),
        shared.live_entries(rt, LogQueue::Rewrite),
    )
}

/// Returns shared tables that have what the calls `FIRST` make.
///
/// # Errors
///
/// Those of these calls; `Memory`.
fn new_filled_shared_tables(alloc: Global) -> Result<SharedAccessor> {
    SharedAccessor::from_core(alloc, tables_after_calls(alloc, &FIRST)?)
}

/// Makes the calls of the row, one after another, of the same shared tables. Adds a line with how many
/// records are live after each, and a last one with how many tables there are and the sum of their regions'
/// ids.
///
/// # Errors
///
/// That of the first call that fails, also when it is tried again.
pub(crate) fn make_shared_calls<R: Wait>(rt: &R, found: &mut Found) -> Result<()> {
    let shared = new_filled_shared_tables(found.alloc)?;
    for call in shared_calls() {
        call_and_retry(rt, found, &shared, *call)?;
    }
    let ids = shared.collect(rt, |_: &MemTable| true)?;
    let mut sum = 0u64;
    for id in &ids {
        sum = sum.wrapping_add(*id);
    }
    let alloc = found.alloc;
    found.append_line(format!(in alloc; "{} tables, ids {sum}", ids.len())?.as_str())
}

/// Makes one call of `shared`, and adds a line with how many records are live in each queue, as `live 12 0`.
/// If the call returns `Memory`, notes in `found` whether no record has changed, and makes it once more.
///
/// # Errors
///
/// Those of [`make_one_call`]; `Memory`.
fn call_and_retry<R: Wait>(
    rt: &R,
    found: &mut Found,
    shared: &SharedAccessor,
    call: Call,
) -> Result<()> {
    let before = summarize_shared_tables(rt, shared);
    call_twice!(found; make_one_call(rt, found.alloc, shared, call); summarize_shared_tables(rt, shared) == before)?;
    let alloc = found.alloc;
    let (_, append, rewrite) = summarize_shared_tables(rt, shared);
    found.append_line(format!(in alloc; "live {append} {rewrite}")?.as_str())
}

/// Makes one call of `shared`.
///
/// # Errors
///
/// `Failed` for a group whose first file is above its last one; those of the call.
fn make_one_call<R: Wait>(
    rt: &R,
    alloc: Global,
    shared: &SharedAccessor,
    call: Call,
) -> Result<()> {
    match call {
        Call::Write(how, seq, step) => write_one_step(rt, alloc, shared, how, seq, step),
        Call::Put(id) => {
            shared.change(rt, id, put_change(alloc, b"k", THIRD)?)?;
            Ok(())
        }
        Call::Make(id) => shared.get_or_insert(rt, id),
        Call::Insert(id) => {
            let _replaced = shared.insert(rt, id, MemTable::new(alloc, id))?;
            Ok(())
        }
        Call::Remove(id, is_listed) => {
            let _removed = shared.remove(rt, id, is_listed)?;
            Ok(())
        }
        Call::Group(id, start, end) if start <= end => {
            shared.apply_rewrite_atomic_group(rt, id, start, end)
        }
        Call::Group(..) => Err(Error::Failed),
    }
}

/// Writes an item with `step` to the tables of `shared`, as one of the file numbered `seq`: as a rewritten
/// one if `how` says so, else as a new one.
///
/// # Errors
///
/// Those of the write; `Memory`.
fn write_one_step<R: Wait>(
    rt: &R,
    alloc: Global,
    shared: &SharedAccessor,
    how: Write,
    seq: FileSeq,
    step: Step,
) -> Result<()> {
    let mut batch = written_batch(alloc, FileId::new(how.queue(), seq), step)?;
    match how {
        Write::Rewrite(gate) => shared.apply_rewrite_writes(rt, batch.drain(), gate, seq),
        _ => shared.apply_append_writes(rt, batch.drain()),
    }
}

/// Returns shared tables whose slots 0, 92, 112 and 127 list cleaned regions. Slot 112 lists one region
/// twice.
///
/// # Errors
///
/// `Memory` alone.
fn new_tables_with_cleaned_regions<R: Wait>(rt: &R, alloc: Global) -> Result<SharedAccessor> {
    let shared = new_filled_shared_tables(alloc)?;
    for &region in &[105, 69, 3] {
        let _removed = shared.remove(rt, region, true)?;
    }
    Ok(shared)
}

/// Takes the cleaned regions of all slots into a batch, and adds a line with each region in it. If that
/// returns `Memory`, tries once more: the lines then show whether a region was lost, or came twice.
///
/// # Errors
///
/// That of the first call that fails.
pub(crate) fn take_and_print_cleaned<R: Wait>(rt: &R, found: &mut Found) -> Result<()> {
    let shared = new_tables_with_cleaned_regions(rt, found.alloc)?;
    let mut logs = LogBatch::default(found.alloc);
    call_twice!(found; take_cleaned_of_all_slots(rt, &shared, &mut logs); true)?;
    print_regions(found, logs)
}

/// Moves the cleaned regions of all slots into `logs`, an open batch, as items that clean them.
///
/// # Errors
///
/// `Failed` for a batch that isn't open; `Memory`.
fn take_cleaned_of_all_slots<R: Wait>(
    rt: &R,
    shared: &SharedAccessor,
    logs: &mut LogBatch,
) -> Result<()> {
    if !logs.is_open() {
        return Err(Error::Failed);
    }
    shared.take_cleaned_region_logs(rt, logs)
}

/// Takes the cleaned regions of a slot that lists one region twice into a batch. Adds a line with how many
/// the slot still lists, and one with each region in the batch.
///
/// # Errors
///
/// That of the first call that fails.
pub(crate) fn take_twice_listed_region(found: &mut Found) -> Result<()> {
    let mut slot = Slot::new(found.alloc, slot_of(3));
    remove_region_3(&mut slot)?;
    remove_region_3(&mut slot)?;
    let mut logs = LogBatch::default(found.alloc);
    take_and_retry(found, &mut slot, &mut logs)?;
    let alloc = found.alloc;
    found.append_line(format!(in alloc; "{} left", slot.cleaned_regions().len())?.as_str())?;
    print_regions(found, logs)
}

/// Removes region 3 from its slot, and so lists it as cleaned.
///
/// # Errors
///
/// `Failed` for a slot that isn't that of region 3; `Memory`.
fn remove_region_3(slot: &mut Slot) -> Result<()> {
    if slot_of(3) != slot.number() {
        return Err(Error::Failed);
    }
    let _removed = slot.remove(3, true)?;
    Ok(())
}

/// Moves the cleaned regions of `slot` into `logs`. If that returns `Memory`, notes in `found` whether both
/// are unchanged, and tries once more.
///
/// # Errors
///
/// Those of [`take_cleaned_of_slot`]; `Memory` also if there is none for a copy of the batch.
fn take_and_retry(found: &mut Found, slot: &mut Slot, logs: &mut LogBatch) -> Result<()> {
    let before = logs.clone()?;
    let listed = hash_of_regions(slot.cleaned_regions());
    call_twice!(found; take_cleaned_of_slot(slot, logs);
        *logs == before && hash_of_regions(slot.cleaned_regions()) == listed)
}

/// Moves the cleaned regions of `slot` into `logs`, an open batch, as items that clean them.
///
/// # Errors
///
/// `Failed` for a batch that isn't open; `Memory`.
fn take_cleaned_of_slot(slot: &mut Slot, logs: &mut LogBatch) -> Result<()> {
    if !logs.is_open() {
        return Err(Error::Failed);
    }
    slot.take_cleaned_region_logs(logs)
}
