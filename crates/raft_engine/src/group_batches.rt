//! Making the batches of an atomic group that move a region's rewritten records.

ghost use Rattle.std.specs.Prelude.{◌≡◌, ◌≢◌, None, Some, IfOk, IfErr, OnOk, OnErr};
ghost use Rattle.raft_base.specs.Runs.{IsConsecutive};
ghost use Rattle.raft_records.specs.Group.{IsRunning};
ghost use Rattle.raft_records.specs.declared.atomic_group.AtomicGroupStatus.TheVariants.{Begin, End};
ghost use Rattle.raft_table.specs.KeyValues.{pairs_shown};
ghost use Rattle.raft_engine_laws.specs.Moving.{AreOrdinary};
ghost use Rattle.raft_engine.specs.GroupBatches.{marker_batch};
ghost use Rattle.raft_engine.specs.GroupParts.{ArePartsAdded, ArePartsRefused, IsGroupInParts, IsGroupRefused, IsPartRead, IsPartRefused};
ghost use Rattle.raft_engine.specs.Reads.{AreOnlyRead};
ghost use Rattle.raft_engine.specs.Rewriting.{with_puts};
ghost use Rattle.raft_engine.specs.Unmoved.{AreKeysRefused};

use crate::block_reads::read_joined_entries;
use crate::parts::count_in_next_part;
use crate::rewriting::{entries_to_move, pairs_to_move, put_pairs};
use raft_base::{EntryIndex, Error, Result};
use raft_files::EngineFiles;
use raft_records::{AtomicGroupBuilder, LogBatch};
use raft_table::MemTable;
use std::alloc::Global;

/// Returns the batches of the atomic group numbered `group` that move what a table has in rewrite files: a Begin, a batch for
/// each part of the entries (see [`count_in_next_part`]), and an End with the keys. It reads the bytes of the entries, each
/// block of a part once for all neighbors in it.
///
/// # Errors
///
/// Those of [`read_joined_entries`]; `Full` if the entries of a part have 2^31 bytes or more; `InvalidArgument` if a key is
/// that of the group markers; `Memory`. Only reads were asked then.
pub fn moving_group_batches<F: EngineFiles>(
    alloc: Global,
    files: &mut F,
    table: &MemTable,
    group: u64,
) -> Result<Vec<LogBatch>>
    ensures ok { IfOk result (λ batches. IsGroupInParts table.now (F.asked files.old)
        (F.asked files.new) group batches.items) }
    ensures err { OnErr result (AreOnlyRead (F.asked files.old) (F.asked files.new)) }
    ensures refused { IfErr result (λ e. e ≢ Error.Memory → IsGroupRefused F.may_fail table.now
        (F.asked files.old) (F.asked files.new) e) }
{
    let entries = entries_to_move(alloc, table, None)?;
    let pairs = pairs_to_move(alloc, table, None)?;
    let region = table.region_id();
    let mut builder = AtomicGroupBuilder::with_id(group);
    let mut batches = Vec::new(alloc);
    batches.push(new_begin_batch(alloc, &mut builder)?)?;
    push_part_batches(
        files,
        region,
        entries.as_slice(),
        &mut builder,
        &mut batches,
    )?;
    batches.push(new_end_batch(alloc, region, pairs, &mut builder)?)?;
    Ok(batches)
}

/// Returns the batch that begins the group of `builder`: it has the Begin marker alone.
///
/// # Errors
///
/// `Memory` alone.
fn new_begin_batch(alloc: Global, builder: &mut AtomicGroupBuilder) -> Result<LogBatch>
    requires { builder.old.state ≡ None }
    ensures ok { IfOk result (λ batch. batch ≡ marker_batch builder.old.id Begin) }
    ensures state { OnOk result (builder.new ≡ record builder.old { state = Some Begin }) }
    ensures memory { IfErr result (λ e. e ≡ Error.Memory) }
{
    let mut batch = LogBatch::default(alloc);
    builder.begin(&mut batch)?;
    Ok(batch)
}

/// Adds to `batches` those that go on with the group of `builder`: one for each part of the `entries` of `region`, whose bytes
/// it reads.
///
/// # Errors
///
/// Those of [`read_joined_entries`]; `Full` if the entries of a part have 2^31 bytes or more. Only reads were asked then, and
/// some batches may have been added.
fn push_part_batches<F: EngineFiles>(
    files: &mut F,
    region: u64,
    entries: &[EntryIndex],
    builder: &mut AtomicGroupBuilder,
    batches: &mut Vec<LogBatch>,
) -> Result<()>
    requires running { IsRunning builder.old.state }
    requires consecutive { IsConsecutive entries.now }
    ensures ok { OnOk result (ArePartsAdded entries.now builder.old.id region (F.asked files.old)
        (F.asked files.new) batches.old.items batches.new.items) }
    ensures state { OnOk result (IsRunning builder.new.state) }
    ensures id { OnOk result (builder.new.id ≡ builder.old.id) }
    ensures err { OnErr result (AreOnlyRead (F.asked files.old) (F.asked files.new)) }
    ensures refused { IfErr result (λ e. e ≢ Error.Memory → ArePartsRefused F.may_fail region entries.now
        (F.asked files.old) (F.asked files.new) e) }
{
    let mut rest = entries;
    while !rest.is_empty() {
        let (part, behind) = rest.split_at(count_in_next_part(rest));
        batches.push(new_part_batch(*batches.allocator(), files, region, part, builder)?)?;
        rest = behind;
    }
    Ok(())
}

/// Returns a batch that goes on with the group of `builder`: it has a Middle marker and the `entries` of `region`, whose bytes
/// it reads.
///
/// # Errors
///
/// Those of [`read_joined_entries`]; `Full` if the bytes of the entries are 2^31 or more. Only reads were asked then.
fn new_part_batch<F: EngineFiles>(
    alloc: Global,
    files: &mut F,
    region: u64,
    entries: &[EntryIndex],
    builder: &mut AtomicGroupBuilder,
) -> Result<LogBatch>
    requires running { IsRunning builder.old.state }
    requires consecutive { IsConsecutive entries.now }
    ensures ok { IfOk result (IsPartRead builder.old.id region entries.now (F.asked files.old)
        (F.asked files.new)) }
    ensures state { OnOk result (IsRunning builder.new.state) }
    ensures id { OnOk result (builder.new.id ≡ builder.old.id) }
    ensures err { OnErr result (AreOnlyRead (F.asked files.old) (F.asked files.new)) }
    ensures refused { IfErr result (λ e. e ≢ Error.Memory → IsPartRefused F.may_fail region entries.now
        (F.asked files.old) (F.asked files.new) e) }
{
    let bytes = read_joined_entries(alloc, files, region, entries)?;
    let mut batch = LogBatch::default(alloc);
    builder.add(&mut batch)?;
    batch.add_joined_entries(region, Vec::from_slice(alloc, entries)?, bytes.as_slice())?;
    Ok(batch)
}

/// Returns the batch that ends the group of `builder`: it has the End marker, and puts the keys of `pairs` in `region`.
///
/// # Errors
///
/// `InvalidArgument` if a key is that of the group markers; `Memory`.
fn new_end_batch(
    alloc: Global,
    region: u64,
    pairs: Vec<(Vec<u8>, Vec<u8>)>,
    builder: &mut AtomicGroupBuilder,
) -> Result<LogBatch>
    requires { IsRunning builder.old.state }
    ensures ok { IfOk result (λ batch. batch
        ≡ with_puts (marker_batch builder.old.id End) region (pairs_shown pairs.items)) }
    ensures ordinary { OnOk result (AreOrdinary (pairs_shown pairs.items)) }
    ensures refused { IfErr result (λ e. e ≢ Error.Memory
        → AreKeysRefused (pairs_shown pairs.items) e) }
{
    let mut batch = LogBatch::default(alloc);
    builder.end(&mut batch)?;
    put_pairs(&mut batch, region, pairs)?;
    Ok(batch)
}
