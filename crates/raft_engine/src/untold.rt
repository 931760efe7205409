//! Finding out what items take away of the tables, which the rewrite queue has to be told before files are deleted or records
//! move.

ghost use Rattle.std.specs.Prelude.{◌≡◌, [], ◌∷◌, ◌++◌, IfErr, IfOk, OnOk, map};
ghost use Rattle.std.specs.FinMap as finite;
ghost use Rattle.raft_base.specs.Runs.{end_of};
ghost use Rattle.raft_records.specs.Item.{entries_item, item_of, pair, pair_of};
ghost use Rattle.raft_records.specs.LogBatch.{empty_batch, is_open};
ghost use Rattle.raft_table.specs.Steps.{table_of};
ghost use Rattle.raft_engine_laws.specs.Telling.{taking_items, told_items, told_of};

use raft_accessor::MemTableAccessor;
use raft_base::{EntryIndex, Error, Result};
use raft_records::{Command, KeyValue, LogBatch, LogItem, LogItemContent, OpType};
use std::alloc::Global;

/// Returns what `items` take away of the tables to which they will be written, as a batch that tells it: each command, each
/// deletion of a key, and, for each run of entries that begins below the end of its table, the truncation there. Other items
/// take nothing away.
///
/// # Errors
///
/// `Memory` alone.
pub fn removals_by_items(
    alloc: Global,
    accessor: &MemTableAccessor,
    items: &[LogItem],
) -> Result<LogBatch>
    ensures ok { IfOk result (λ taken. taken ≡ record empty_batch {
      items = told_items (taking_items accessor.now.tables (map item_of items.now));
    }) }
    ensures memory { IfErr result (λ e. e ≡ Error.Memory) }
{
    let mut taken = LogBatch::default(alloc);
    for item in items {
        tell_item(&mut taken, accessor, item)?;
    }
    Ok(taken)
}

/// Adds to `taken` what one item takes away.
///
/// # Errors
///
/// `Memory` alone. Nothing is added then.
fn tell_item(taken: &mut LogBatch, accessor: &MemTableAccessor, item: &LogItem) -> Result<()>
    requires { taken.old.stage ≡ is_open }
    ensures ok { OnOk result (taken.new ≡ record taken.old {
      items = taken.old.items
          ++ told_items (taking_items accessor.now.tables (item_of item.now ∷ []));
    }) }
    ensures memory { IfErr result (λ e. e ≡ Error.Memory) }
{
    let region = item.raft_group_id;
    match &item.content {
        LogItemContent::EntryIndexes(entries) => {
            tell_run(taken, accessor, region, entries.0.as_slice())
        }
        LogItemContent::Command(command) => taken.add_command(region, command.clone()?),
        LogItemContent::Kv(change) => tell_pair(region, change, taken),
    }
}

/// Adds to `taken` the truncation at the first index of `run`, if that is below the end of the region's table; else nothing.
///
/// # Errors
///
/// `Memory` alone. Nothing is added then.
fn tell_run(
    taken: &mut LogBatch,
    accessor: &MemTableAccessor,
    region: u64,
    run: &[EntryIndex],
) -> Result<()>
    requires { taken.old.stage ≡ is_open }
    ensures ok { OnOk result (taken.new ≡ record taken.old {
      items = taken.old.items
          ++ told_items (taking_items accessor.now.tables (entries_item region run.now ∷ []));
    }) }
    ensures memory { IfErr result (λ e. e ≡ Error.Memory) }
{
    let Some(first) = run.first() else {
        return Ok(());
    };
    let index = first.index;
    if index < end_of_region_table(accessor, region) {
        return taken.add_command(region, Command::Truncate { index });
    }
    Ok(())
}

/// Returns the index after the last entry of a region's table, or 0 if it has no table.
fn end_of_region_table(accessor: &MemTableAccessor, region: u64) -> u64
    ensures { result ≡ end_of (table_of region (finite.get accessor.now.tables region)).entries }
{
    match accessor.get(region) {
        Some(table) => table.end(),
        None => 0,
    }
}

/// Adds to `told` the deletion of a key, if `change` is one; a put takes nothing away.
///
/// # Errors
///
/// `Memory` alone. Nothing is added then.
fn tell_pair(region: u64, change: &KeyValue, told: &mut LogBatch) -> Result<()>
    requires { told.old.stage ≡ is_open }
    ensures ok { OnOk result (told.new ≡ record told.old {
      items = told.old.items
          ++ told_of region (pair (pair_of change.now));
    }) }
    ensures memory { IfErr result (λ e. e ≡ Error.Memory) }
{
    match change.op_type {
        OpType::Put => Ok(()),
        OpType::Del => told.delete(region, change.key.clone()?),
    }
}
