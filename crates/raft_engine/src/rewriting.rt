//! Making batches that move records of a region to the rewrite queue. With a gate, which is the number of an append file, the
//! records move that are in append files numbered at or below it; without one those that are in rewrite files.

ghost use Rattle.std.specs.Prelude.{◌≡◌, ◌≢◌, length, map, IfOk, IfErr, None, OnOk, OnErr};
ghost use Rattle.raft_base.specs.Runs.{IsConsecutive};
ghost use Rattle.raft_records.specs.LogBatch.{is_open};
ghost use Rattle.raft_table.specs.KeyValues.{pairs_shown};
ghost use Rattle.raft_engine_laws.specs.Moving.{AreOrdinary};
ghost use Rattle.raft_engine.specs.Moved.{AreRegions};
ghost use Rattle.raft_engine.specs.Reads.{AreOnlyRead};
ghost use Rattle.raft_engine.specs.Parts.{IsFirstPart};
ghost use Rattle.raft_engine.specs.Rewriting.{IsBatchMoving, IsNextPart, moving_entries, moving_pairs, pairs_with, with_puts};
ghost use Rattle.raft_engine.specs.Unmoved.{AreKeysRefused, IsBatchRefused};

use crate::block_reads::read_joined_entries;
use crate::parts::count_in_next_part;
use raft_accessor::MemTableAccessor;
use raft_base::{EntryIndex, Error, FileSeq, Result};
use raft_files::EngineFiles;
use raft_records::LogBatch;
use raft_table::MemTable;
use std::alloc::Global;

/// Returns the entries of a table that move. With a gate these are the appended ones, from the first one on while their file
/// is numbered at or below it; without one those that are in rewrite files.
///
/// # Errors
///
/// `Memory` alone.
pub fn entries_to_move(
    alloc: Global,
    table: &MemTable,
    gate: Option<FileSeq>,
) -> Result<Vec<EntryIndex>>
    ensures ok { IfOk result (λ es. es.items ≡ moving_entries gate table.now.entries) }
    ensures consecutive { IfOk result (λ es. IsConsecutive es.items) }
    ensures memory { IfErr result (λ e. e ≡ Error.Memory) }
{
    table.holds_one_run();
    let mut entries = Vec::new(alloc);
    match gate {
        Some(gate) => {
            table.fetch_entry_indexes_before(gate, &mut entries)?;
            Ok(entries)
        }
        None => {
            table.fetch_rewritten_entry_indexes(&mut entries)?;
            Ok(entries)
        }
    }
}

/// Returns the keys of a table that move, with their values. With a gate these are those in append files numbered at or below
/// it; without one those in rewrite files.
///
/// # Errors
///
/// `Memory` alone.
pub fn pairs_to_move(
    alloc: Global,
    table: &MemTable,
    gate: Option<FileSeq>,
) -> Result<Vec<(Vec<u8>, Vec<u8>)>>
    ensures ok { IfOk result (λ ps. pairs_shown ps.items ≡ moving_pairs gate table.now.keys) }
    ensures memory { IfErr result (λ e. e ≡ Error.Memory) }
{
    let mut pairs = Vec::new(alloc);
    match gate {
        Some(gate) => {
            table.fetch_kvs_before(gate, &mut pairs)?;
            Ok(pairs)
        }
        None => {
            table.fetch_rewritten_kvs(&mut pairs)?;
            Ok(pairs)
        }
    }
}

/// Adds to `batch` that the keys of `pairs` get their values in `region`, in order.
///
/// # Errors
///
/// `InvalidArgument` if a key is that of the group markers; `Memory`. The pairs before it may have been added then.
pub fn put_pairs(batch: &mut LogBatch, region: u64, pairs: Vec<(Vec<u8>, Vec<u8>)>) -> Result<()>
    requires { batch.old.stage ≡ is_open }
    ensures ok { OnOk result (batch.new ≡ with_puts batch.old region (pairs_shown pairs.items)) }
    ensures ordinary { OnOk result (AreOrdinary (pairs_shown pairs.items)) }
    ensures refused { IfErr result (λ e. e ≢ Error.Memory
        → AreKeysRefused (pairs_shown pairs.items) e) }
{
    for (key, value) in pairs {
        batch.put(region, key, value)?;
    }
    Ok(())
}

/// Returns how many of the entries that move, from the first one on, are in the next batch: with a gate those of the first
/// part (see [`count_in_next_part`]), without one all.
pub fn count_in_next_batch(entries: &[EntryIndex], gate: Option<FileSeq>) -> usize
    ensures part { gate ≢ None → IsFirstPart entries.now result }
    ensures all { gate ≡ None → result ≡ length entries.now }
{
    match gate {
        Some(_) => count_in_next_part(entries),
        None => entries.len(),
    }
}

/// Returns the next batch that moves records of a table: with the entries `part`, whose bytes it reads, each block once for
/// all neighbors in it; and with all keys that move, if no entries are `left` after these.
///
/// # Errors
///
/// Those of [`read_joined_entries`]; `Full` if the bytes of the entries are 2^31 or more; `InvalidArgument` if a key is that of
/// the group markers; `Memory`. Only reads were asked then.
pub fn next_moving_batch<F: EngineFiles>(
    alloc: Global,
    files: &mut F,
    table: &MemTable,
    gate: Option<FileSeq>,
    part: &[EntryIndex],
    left: &[EntryIndex],
) -> Result<LogBatch>
    requires next { IsNextPart gate (moving_entries gate table.now.entries) part.now left.now }
    requires consecutive { IsConsecutive part.now }
    ensures ok { IfOk result (IsBatchMoving gate left.now table.now (F.asked files.old)
        (F.asked files.new)) }
    ensures err { OnErr result (AreOnlyRead (F.asked files.old) (F.asked files.new)) }
    ensures refused { IfErr result (λ e. e ≢ Error.Memory → IsBatchRefused F.may_fail gate left.now table.now
        (F.asked files.old) (F.asked files.new) e) }
{
    let pairs = pairs_of_next_batch(alloc, table, gate, left)?;
    let region = table.region_id();
    let bytes = read_joined_entries(alloc, files, region, part)?;
    let mut batch = LogBatch::default(alloc);
    batch.add_joined_entries(region, Vec::from_slice(alloc, part)?, bytes.as_slice())?;
    put_pairs(&mut batch, region, pairs)?;
    Ok(batch)
}

/// Returns the keys, with their values, that go into a batch of a table that moves: all that move if `left` is empty, so that
/// no batch follows, else none.
///
/// # Errors
///
/// `Memory` alone.
fn pairs_of_next_batch(
    alloc: Global,
    table: &MemTable,
    gate: Option<FileSeq>,
    left: &[EntryIndex],
) -> Result<Vec<(Vec<u8>, Vec<u8>)>>
    ensures ok { IfOk result (λ ps. pairs_shown ps.items
        ≡ pairs_with left.now (moving_pairs gate table.now.keys)) }
    ensures memory { IfErr result (λ e. e ≡ Error.Memory) }
{
    if left.is_empty() {
        pairs_to_move(alloc, table, gate)
    } else {
        Ok(Vec::new(alloc))
    }
}

/// Returns the ids of all regions that have a table, in no set order.
///
/// # Errors
///
/// `Memory` alone.
pub fn regions_of(accessor: &MemTableAccessor) -> Result<Vec<u64>>
    ensures ok { IfOk result (λ regions. AreRegions accessor.now.tables regions.items) }
    ensures memory { IfErr result (λ e. e ≡ Error.Memory) }
{
    let tables = accessor.tables()?;
    region_ids_of(*tables.allocator(), tables.as_slice())
}

/// Returns the region ids of `tables`, in their order.
///
/// # Errors
///
/// `Memory` alone.
fn region_ids_of(alloc: Global, tables: &[&MemTable]) -> Result<Vec<u64>>
    ensures ok { IfOk result (λ ids. ids.items ≡ map (λ t. t.now.region_id) tables.now) }
    ensures memory { IfErr result (λ e. e ≡ Error.Memory) }
{
    let mut ids = Vec::new(alloc);
    for table in tables {
        ids.push(table.region_id())?;
    }
    Ok(ids)
}
