//! The records of one region, and what a step does to them.

ghost use Rattle.std.specs.Prelude.{◌≡◌, ◌≢◌, ℕ, Some, None, option_map, IfOk, IfErr, OnOk};
ghost use Rattle.std.specs.FinMap as finite;
ghost use Rattle.raft_plain.specs.Common.{nat_cmp, IsOrdered, from, below, end_of, empty_table, table_of, leaves_hole, entries_after_replay, after_step, step_shown, with_table, keys_shown, table_shown, tables_shown};

use raft_base::{AllocResult, EntryIndex, Error, FileId, FileSeq, LogQueue, Result};
use raft_table::Step;
use std::alloc::Global;
use std::collections::BTreeMap;

/// The value of a key, and where it was written to.
#[derive(Debug, Drop)]
pub struct Stored {
    /// The value.
    pub value: Vec<u8>,
    /// The file that key and value were written to.
    pub file: FileId,
}

/// What is stored under each key.
pub type Keys = BTreeMap<Vec<u8>, Stored>;

/// Entries in order of index.
pub type Entries = Vec<EntryIndex>;

/// The records of one region.
#[derive(Debug, Drop)]
pub struct Region {
    /// Its entries, in order of index.
    pub entries: Entries,
    /// Its key values.
    pub keys: Keys,
    /// The first and the last file number of the region's last atomic group.
    pub group: Option<(FileSeq, FileSeq)>,
}

/// The records of each region that is there, by its id.
pub type Regions = BTreeMap<u64, Region>;

/// Returns `region` after `step`, which was read from `queue`, or `None` if the step cleans it.
///
/// # Errors
///
/// `Corruption` if a run leaves a hole in the append queue; `Memory`. The region is dropped then.
pub(crate) fn apply_step_to_region(
    alloc: Global,
    queue: LogQueue,
    mut region: Region,
    step: &Step,
) -> Result<Option<Region>>
    ensures ok { IfOk result (λ r. (id : ℕ)
        → after_step queue (table_shown id region) (step_shown step.now)
        ≡ Some (option_map (table_shown id) r)) }
    ensures refused { IfErr result (λ e. e ≢ Error.Memory → (id : ℕ)
        → after_step queue (table_shown id region) (step_shown step.now) ≡ None) }
{
    match step {
        Step::Run(run) => {
            region.entries = apply_run(alloc, queue, region.entries, run)?;
            Ok(Some(region))
        }
        Step::Compact { index } => {
            region.entries = entries_from(region.entries, *index);
            Ok(Some(region))
        }
        Step::Truncate { index } => {
            region.entries = entries_below(region.entries, *index);
            Ok(Some(region))
        }
        Step::Put {
            key,
            value,
            file_id,
        } => {
            region.keys = insert_pair(alloc, region.keys, key, value, *file_id)?;
            Ok(Some(region))
        }
        Step::Del { key } => {
            region.keys = remove_key(region.keys, key);
            Ok(Some(region))
        }
        Step::AtomicGroup {
            first_seq,
            last_seq,
        } => {
            region.group = Some((*first_seq, *last_seq));
            Ok(Some(region))
        }
        Step::Clean => Ok(None),
    }
}

/// Returns `entries` with `run`, which was read from `queue`, in place of those from its first index on. A
/// run after a hole is refused in the append queue; in the rewrite queue it replaces all entries. A run
/// without entries changes nothing.
///
/// # Errors
///
/// `Corruption` for a hole in the append queue; `Memory`.
fn apply_run(alloc: Global, queue: LogQueue, entries: Entries, run: &Entries) -> Result<Entries>
    ensures ok { IfOk result (λ es. entries_after_replay queue entries.items run.now.items
        ≡ Some es.items) }
    ensures refused { IfErr result (λ e. e ≢ Error.Memory
        → entries_after_replay queue entries.items run.now.items ≡ None) }
{
    let Some(first) = run.first() else {
        return Ok(entries);
    };
    let start = first.index;
    if leaves_hole(entries.as_slice(), start) {
        return match queue {
            LogQueue::Append => Err(Error::corruption(alloc, "a run behind a hole")),
            LogQueue::Rewrite => Ok(Vec::from_slice(alloc, run.as_slice())?),
        };
    }
    let mut kept = entries_below(entries, start);
    kept.extend_from_slice(run.as_slice())?;
    Ok(kept)
}

/// Tests whether there is a hole between the last of `entries` and a run from index `start` on. False if
/// there are no entries.
fn leaves_hole(entries: &[EntryIndex], start: u64) -> bool
    ensures { result ≡ leaves_hole entries.now start }
{
    !entries.is_empty() && end_of(entries) < start as u128
}

/// Returns the greatest index of `entries` plus one, or 0 if there are none.
pub(crate) fn end_of(entries: &[EntryIndex]) -> u128
    ensures { result ≡ end_of entries.now }
{
    let mut end: u128 = 0;
    for entry in entries {
        end = end.max(entry.index as u128 + 1);
    }
    end
}

/// Returns those of `entries` that are at or above `index`, in order.
fn entries_from(mut entries: Entries, index: u64) -> Entries
    ensures { result.items ≡ from index entries.items }
{
    entries.retain(|entry| index <= entry.index);
    entries
}

/// Returns those of `entries` that are below `index`, in order.
fn entries_below(mut entries: Entries, index: u64) -> Entries
    ensures { result.items ≡ below index entries.items }
{
    entries.retain(|entry| entry.index < index);
    entries
}

/// Returns `keys` with a copy of `value`, which stands in `file`, under a copy of `key`. It replaces the
/// value that the key had.
///
/// # Errors
///
/// `AllocError` if there is no memory.
fn insert_pair(
    alloc: Global,
    mut keys: Keys,
    key: &Vec<u8>,
    value: &Vec<u8>,
    file: FileId,
) -> AllocResult<Keys>
    ensures { IfOk result (λ new. keys_shown new ≡ finite.insert (keys_shown keys)
        key.now.items (record { value = value.now.items; file = file })) }
{
    let key = Vec::from_slice(alloc, key.as_slice())?;
    let value = Vec::from_slice(alloc, value.as_slice())?;
    keys.insert(key, Stored { value, file })?;
    Ok(keys)
}

/// Returns `keys` without `key` and its value.
pub(crate) fn remove_key(mut keys: Keys, key: &Vec<u8>) -> Keys
    ensures { keys_shown result ≡ finite.remove (keys_shown keys) key.now.items }
{
    keys.retain(|own, _| own.as_slice().cmp(key.as_slice()).is_ne());
    keys
}

/// Returns `region` if it is there, else one without records.
pub(crate) fn region_or_empty(alloc: Global, region: Option<Region>) -> Region
    ensures { (id : ℕ) → table_shown id result
        ≡ table_of id (option_map (table_shown id) region) }
{
    match region {
        Some(region) => region,
        None => Region {
            entries: Vec::new(alloc),
            keys: BTreeMap::new(alloc),
            group: None,
        },
    }
}

/// Returns `regions` with `region` as the records of the region `id`. If `region` is `None`, the region isn't
/// there any more.
///
/// # Errors
///
/// `AllocError` if there is no memory.
pub(crate) fn set_region(
    mut regions: Regions,
    id: u64,
    region: Option<Region>,
) -> AllocResult<Regions>
    requires { IsOrdered nat_cmp regions }
    ensures ordered { IfOk result (IsOrdered nat_cmp) }
    ensures ok { IfOk result (λ new. tables_shown new
        ≡ with_table (tables_shown regions) id (option_map (table_shown id) region)) }
{
    match region {
        Some(region) => {
            regions.insert(id, region)?;
            Ok(regions)
        }
        None => {
            let _ = regions.remove(&id);
            Ok(regions)
        }
    }
}

/// Takes the region `id` out of `regions`. Returns it, or `None` if it isn't there, and the other regions.
pub(crate) fn take_region(mut regions: Regions, id: u64) -> (Option<Region>, Regions)
    requires { IsOrdered nat_cmp regions }
    ensures ordered { IsOrdered nat_cmp result.1 }
    ensures own { option_map (table_shown id) result.0 ≡ finite.get (tables_shown regions) id }
    ensures others { tables_shown result.1 ≡ finite.remove (tables_shown regions) id }
{
    let own = regions.remove(&id);
    (own, regions)
}
