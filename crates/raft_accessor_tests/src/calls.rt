//! Calls that change the tables of an accessor.

ghost use Rattle.raft_memtable.specs.TableEntries.{IsRunIn};

use crate::items::{Item, NEW, new_run, to_log_items};
use crate::seen::{Shape, shape_of_table, take_cleaned_of_accessor};
use raft_memtable::{
    EntryIndex, Error, FileId, FileSeq, LogQueue, MemTable, MemTableAccessor, Result, TableChange,
    is_run,
};
use std::alloc::Global;

/// A change of a table.
#[derive(Clone, Copy)]
pub(crate) enum Change {
    /// Appends entries from an index on and below another, which are in a file.
    Append(u64, u64, FileId),
    /// Rewrites such entries to a file, with a gate.
    Rewrite(u64, u64, FileId, Option<FileSeq>),
    Compact(u64),
    Truncate(u64),
    Put,
}

/// A call that changes tables. The first number in a call on a single region is the region.
#[derive(Clone, Copy)]
pub(crate) enum Call {
    Nothing,
    WithTableMut(u64),
    Change(u64, Change),
    GetOrInsert(u64),
    Insert(u64),
    /// Removes the table of a region; the second field says whether the region is listed as cleaned.
    Remove(u64, bool),
    AppendWrites(&'static [Item]),
    /// Applies rewritten items, with a gate and the file to which keys are rewritten.
    RewriteWrites(&'static [Item], Option<FileSeq>, FileSeq),
    AtomicGroup(u64),
    TakeCleaned,
    /// Replays items of a queue.
    Replay(LogQueue, &'static [Item]),
    /// Tries to replay entries of a region from an index on and below another, which are in a file.
    TryReplay(u64, u64, u64, FileId),
    /// Merges, as the newer neighbor, the tables of another accessor that has replayed items of a queue.
    MergeNewer(LogQueue, &'static [Item]),
    /// Merges such tables as the appended ones.
    MergeAppend(LogQueue, &'static [Item]),
}

/// The number that a call returns, and the table, if it returns one.
pub(crate) type Answer = (u64, Option<Shape>);

/// Returns the answer of a call that returns nothing.
///
/// # Errors
///
/// That of the call.
pub(crate) fn answer_without_value(called: Result<()>) -> Result<Answer> {
    called?;
    Ok((0, None))
}

/// Returns the answer of a call that returns a number.
///
/// # Errors
///
/// That of the call.
pub(crate) fn answer_of_number(called: Result<u64>) -> Result<Answer> {
    Ok((called?, None))
}

/// Returns the answer of a call that returns a table, or none.
///
/// # Errors
///
/// That of the call.
pub(crate) fn answer_of_table(called: Result<Option<MemTable>>) -> Result<Answer> {
    Ok((0, called?.as_ref().map(shape_of_table)))
}

/// Returns a change that puts a key with the value `v`.
///
/// # Errors
///
/// `Memory` alone.
fn put_change(alloc: Global, key: &[u8]) -> Result<TableChange> {
    Ok(TableChange::Put {
        key: Vec::from_slice(alloc, key)?,
        value: Vec::from_slice(alloc, b"v".as_slice())?,
        file_id: NEW,
    })
}

/// Returns a change of a table as the value that the calls take.
///
/// # Errors
///
/// `Memory` alone.
pub(crate) fn to_table_change(alloc: Global, change: Change) -> Result<TableChange> {
    match change {
        Change::Append(start, end, file) => {
            Ok(TableChange::Append(new_run(alloc, start, end, file)?))
        }
        Change::Rewrite(start, end, file, gate) => Ok(TableChange::Rewrite {
            entries: new_run(alloc, start, end, file)?,
            gate,
        }),
        Change::Compact(index) => Ok(TableChange::Compact { index }),
        Change::Truncate(index) => Ok(TableChange::Truncate { index }),
        Change::Put => put_change(alloc, b"n".as_slice()),
    }
}

/// Returns a table of a region with other entries and another key than the calls make.
///
/// # Errors
///
/// Those of the accessor's calls; `Failed` if the region has no table.
pub(crate) fn new_other_table(alloc: Global, id: u64) -> Result<MemTable> {
    let mut core = MemTableAccessor::new(alloc)?;
    core.change(id, TableChange::Append(new_run(alloc, 50, 53, NEW)?))?;
    core.change(id, put_change(alloc, b"z".as_slice())?)?;
    match core.remove(id, false)? {
        Some(table) => Ok(table),
        None => Err(Error::Failed),
    }
}

/// Returns a change that drops all entries but the last one, if the table has a key `k` and entries, else those below
/// 12.
pub(crate) fn compaction_change(table: &MemTable) -> TableChange {
    match (table.last_index(), table.get(b"k")) {
        (Some(index), Some(_)) => TableChange::Compact { index },
        _ => TableChange::Compact { index: 12 },
    }
}

/// Makes the change that [`compaction_change`] returns for the table of a region, or for an empty one where there is
/// none. Returns how many entries it dropped.
///
/// # Errors
///
/// Those of [`MemTableAccessor::change`].
fn compact_in_accessor(alloc: Global, core: &mut MemTableAccessor, id: u64) -> Result<u64> {
    let change = match core.get(id) {
        Some(table) => compaction_change(table),
        None => compaction_change(&MemTable::new(alloc, id)),
    };
    core.change(id, change)
}

/// Makes a call of an accessor, and returns its answer.
///
/// # Errors
///
/// Those of the call; `Memory`.
pub(crate) fn call_accessor(
    alloc: Global,
    core: &mut MemTableAccessor,
    call: Call,
) -> Result<Answer> {
    match call {
        Call::Nothing => Ok((0, None)),
        Call::WithTableMut(id) => answer_of_number(compact_in_accessor(alloc, core, id)),
        Call::Change(id, change) => answer_of_number(core.change(
            id,
            to_table_change(alloc, change)?,
        )),
        Call::GetOrInsert(id) => {
            core.get_or_insert(id)?;
            Ok((0, None))
        }
        Call::Insert(id) => {
            let other = new_other_table(alloc, id)?;
            answer_of_table(core.insert(other.region_id(), other))
        }
        Call::Remove(id, is_listed) => answer_of_table(core.remove(id, is_listed)),
        Call::AppendWrites(given) => answer_without_value(core.apply_append_writes(to_log_items(
            alloc, given,
        )?)),
        Call::RewriteWrites(given, gate, seq) => {
            answer_without_value(core.apply_rewrite_writes(to_log_items(alloc, given)?, gate, seq))
        }
        Call::AtomicGroup(id) => answer_without_value(core.apply_rewrite_atomic_group(id, 49, 50)),
        Call::TakeCleaned => Ok((take_cleaned_of_accessor(alloc, core)?.len() as u64, None)),
        _ => answer_of_number(make_accessor_only_call(alloc, core, call)),
    }
}

/// Makes a call of an accessor that shared tables don't have. Returns its number; 0 for a call without one.
///
/// # Errors
///
/// Those of the call; `Failed` if shared tables have it; `Memory`.
fn make_accessor_only_call(alloc: Global, core: &mut MemTableAccessor, call: Call) -> Result<u64> {
    match call {
        Call::Replay(queue, given) => replay_items(alloc, core, queue, given)?,
        Call::TryReplay(id, start, end, file) => {
            return put_run_or_fail(core, id, new_run(alloc, start, end, file)?, file.queue);
        }
        Call::MergeNewer(queue, given) => {
            core.merge_newer_neighbor(tables_after_replay(alloc, queue, given)?)?;
        }
        Call::MergeAppend(queue, given) => {
            core.merge_append_table(tables_after_replay(alloc, queue, given)?)?;
        }
        _ => return Err(Error::Failed),
    }
    Ok(0)
}

/// Returns a new accessor on which these calls were made.
///
/// # Errors
///
/// That of the first call that fails; no further one is made then.
pub(crate) fn tables_after_calls(alloc: Global, calls: &[Call]) -> Result<MemTableAccessor> {
    let mut core = MemTableAccessor::new(alloc)?;
    for call in calls {
        call_accessor(alloc, &mut core, *call)?;
    }
    Ok(core)
}

/// Replays items of a queue in an accessor.
///
/// # Errors
///
/// Those of the replay; `Memory`.
fn replay_items(
    alloc: Global,
    core: &mut MemTableAccessor,
    queue: LogQueue,
    given: &[Item],
) -> Result<()> {
    let items = to_log_items(alloc, given)?;
    match queue {
        LogQueue::Append => core.replay_append_writes(items),
        LogQueue::Rewrite => core.replay_rewrite_writes(items),
    }
}

/// Returns an accessor that has replayed items of a queue.
///
/// # Errors
///
/// Those of the replay; `Memory`.
fn tables_after_replay(alloc: Global, queue: LogQueue, given: &[Item]) -> Result<MemTableAccessor> {
    let mut core = MemTableAccessor::new(alloc)?;
    replay_items(alloc, &mut core, queue, given)?;
    Ok(core)
}

/// Tries to replay a run, and once more where it isn't put, which may be for lack of memory. Returns where the region's
/// entries ended before; `None` where the run isn't put.
fn try_run_twice(
    core: &mut MemTableAccessor,
    queue: LogQueue,
    region: u64,
    run: &[EntryIndex],
) -> Option<u64>
    requires { IsRunIn queue run.now }
{
    match core.try_replay_run(queue, region, run) {
        Some(end) => Some(end),
        None => core.try_replay_run(queue, region, run),
    }
}

/// Replays a run, and returns where the region's entries ended before.
///
/// # Errors
///
/// `Failed` if it isn't a run of the queue, or isn't put.
fn put_run_or_fail(
    core: &mut MemTableAccessor,
    region: u64,
    run: Vec<EntryIndex>,
    queue: LogQueue,
) -> Result<u64> {
    if !is_run(&run, queue) {
        return Err(Error::Failed);
    }
    match try_run_twice(core, queue, region, &run) {
        Some(end) => Ok(end),
        None => Err(Error::Failed),
    }
}
