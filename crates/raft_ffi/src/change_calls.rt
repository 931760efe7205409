//! Exported calls that change the table of one region.

ghost use Rattle.std.specs.Prelude.{◌≡◌, IsTrue, is_some, map, OnOk, OnErr, IfOk, IfErr};
ghost use Rattle.raft_ffi.specs.Words.{Append, Rewrite, AreAppended, AreDropped, AreRewritten, AreUnappended, AreUnrewritten, BothHold, HasText, IsAllowed, IsAnswer, IsChangeFault, IsChangedIfMemory, IsChangedOrRefused, IsChangedTo};
ghost use Rattle.raft_ffi.specs.Words.{IsCompacted, IsDeleted, IsKeyRewritten, IsKeyUnrewritten, IsMemoryOr, IsPut, IsRunIn, IsTruncated, IsUnput, IsChangeOr, after_change, entry_of, id_of, number_in, table_in};

use crate::entries::{Entry, entry_indexes};
use crate::handles::{Handle, Tables, answer_with_value, unwrap_or_return, with_value};
use crate::status::{Maybe, Status, to_queue};
use raft_accessor::MemTableAccessor;
use raft_base::{Error, FileId, Result};
use raft_table::TableChange;
use std::alloc::Global;

/// Appends `entries`, new ones of the append queue, to the table of a region. The region's entries from their first index on
/// are dropped before; without new entries nothing is changed. The code is 0, or that of the error, as 1 (`InvalidArgument`)
/// if the indexes of `entries` don't rise by one. The tables are unchanged after an error.
#[unsafe(no_mangle)]
pub extern "C" fn raft_ffi_tables_append(
    alloc: Global,
    tables: &mut Tables,
    region: u64,
    entries: &[Entry],
    text: &mut [u8],
) -> Status
    requires held { IsTrue (is_some tables.old.value) }
    ensures changed { IsChangedOrRefused result.code (AreAppended (map entry_of entries.now) region) (AreUnappended (map entry_of
        entries.now) region) tables.old.value tables.new.value }
    ensures accepted { result.code ≡ 0 → IsRunIn Append (map entry_of entries.now) }
    ensures text { HasText result text.old text.new }
{
    let run = unwrap_or_return!(entry_indexes(alloc, entries), alloc, text);
    answer_with_value!(held in tables, alloc, text; change_table(&mut *held, region, TableChange::Append(run)))
}

/// Drops the entries of a region below `index`, and sets `dropped` to how many those were. The code is 0, or 11 (`Memory`).
/// The tables are unchanged after an error.
#[unsafe(no_mangle)]
pub extern "C" fn raft_ffi_tables_compact(
    alloc: Global,
    tables: &mut Tables,
    region: u64,
    index: u64,
    dropped: &mut u64,
    text: &mut [u8],
) -> Status
    requires held { IsTrue (is_some tables.old.value) }
    ensures changed { IsChangedIfMemory result.code (IsCompacted index region) tables.old.value tables.new.value }
    ensures dropped { result.code ≡ 0 → BothHold (AreDropped dropped.new region) tables.old.value tables.new.value }
    ensures text { HasText result text.old text.new }
{
    answer_with_value!(held in tables, alloc, dropped, text; change_table(&mut *held, region, TableChange::Compact { index }))
}

/// Drops the entries of a region from `index` on, and sets `dropped` to how many those were. The code is 0, or 11 (`Memory`).
/// The tables are unchanged after an error.
#[unsafe(no_mangle)]
pub extern "C" fn raft_ffi_tables_truncate(
    alloc: Global,
    tables: &mut Tables,
    region: u64,
    index: u64,
    dropped: &mut u64,
    text: &mut [u8],
) -> Status
    requires held { IsTrue (is_some tables.old.value) }
    ensures changed { IsChangedIfMemory result.code (IsTruncated index region) tables.old.value tables.new.value }
    ensures dropped { result.code ≡ 0 → BothHold (AreDropped dropped.new region) tables.old.value tables.new.value }
    ensures text { HasText result text.old text.new }
{
    answer_with_value!(held in tables, alloc, dropped, text; change_table(&mut *held, region, TableChange::Truncate { index }))
}

/// Sets the value of `key` of a region to `value`, which was written to file `seq` of a queue. The code is 0; 9 (`Full`), if
/// more than 2^64 - 1 records would be live in that queue; or 11 (`Memory`). The tables are unchanged after an error.
#[unsafe(no_mangle)]
pub extern "C" fn raft_ffi_tables_put(
    alloc: Global,
    tables: &mut Tables,
    region: u64,
    key: &[u8],
    value: &[u8],
    is_rewrite: bool,
    seq: u64,
    text: &mut [u8],
) -> Status
    requires held { IsTrue (is_some tables.old.value) }
    ensures changed { IsChangedOrRefused result.code (IsPut key.now value.now (id_of is_rewrite seq) region) (IsUnput key.now (id_of
        is_rewrite seq) region) tables.old.value tables.new.value }
    ensures text { HasText result text.old text.new }
{
    let file = FileId::new(to_queue(is_rewrite), seq);
    answer_with_value!(held in tables, alloc, text; put_copied_pair(alloc, &mut *held, region, key, value, file))
}

/// Deletes `key` of a region with its value. The code is 0, or 11 (`Memory`). The tables are unchanged after an error.
#[unsafe(no_mangle)]
pub extern "C" fn raft_ffi_tables_delete(
    alloc: Global,
    tables: &mut Tables,
    region: u64,
    key: &[u8],
    text: &mut [u8],
) -> Status
    requires held { IsTrue (is_some tables.old.value) }
    ensures changed { IsChangedIfMemory result.code (IsDeleted key.now region) tables.old.value tables.new.value }
    ensures text { HasText result text.old text.new }
{
    let key = unwrap_or_return!(Vec::from_slice(alloc, key), alloc, text);
    answer_with_value!(held in tables, alloc, text; change_table(&mut *held, region, TableChange::Delete { key }))
}

/// Moves entries of a region to new places. `entries` name the entries, with their places in the rewrite queue. Only those
/// move that may: with a gate those in append files numbered at or below it, without one those that are rewritten already. The
/// code is 0, or that of the error, as 1 (`InvalidArgument`) if the indexes of `entries` don't rise by one. The tables are
/// unchanged after an error.
#[unsafe(no_mangle)]
pub extern "C" fn raft_ffi_tables_rewrite(
    alloc: Global,
    tables: &mut Tables,
    region: u64,
    entries: &[Entry],
    gate: Maybe,
    text: &mut [u8],
) -> Status
    requires held { IsTrue (is_some tables.old.value) }
    ensures changed { IsChangedOrRefused result.code (AreRewritten (number_in gate) (map entry_of entries.now) region)
        (AreUnrewritten (number_in gate) (map entry_of entries.now) region) tables.old.value tables.new.value }
    ensures accepted { result.code ≡ 0 → IsRunIn Rewrite (map entry_of entries.now) }
    ensures text { HasText result text.old text.new }
{
    let entries = unwrap_or_return!(entry_indexes(alloc, entries), alloc, text);
    let gate = gate.to_option();
    answer_with_value!(held in tables, alloc, text; change_table(&mut *held, region, TableChange::Rewrite { entries, gate }))
}

/// Moves `key` of a region, with its value, to file `seq` of the rewrite queue. One in the append queue moves only if there is
/// a gate and its file is numbered at or below it; one in the rewrite queue always does. The code is 0, or that of the error,
/// as 2 (`Corruption`) if the pair is in a later rewrite file. The tables are unchanged after an error.
#[unsafe(no_mangle)]
pub extern "C" fn raft_ffi_tables_rewrite_key(
    alloc: Global,
    tables: &mut Tables,
    region: u64,
    key: &[u8],
    gate: Maybe,
    seq: u64,
    text: &mut [u8],
) -> Status
    requires held { IsTrue (is_some tables.old.value) }
    ensures changed { IsChangedOrRefused result.code (IsKeyRewritten (number_in gate) seq key.now region) (IsKeyUnrewritten
        (number_in gate) seq key.now region) tables.old.value tables.new.value }
    ensures text { HasText result text.old text.new }
{
    answer_with_value!(held in tables, alloc, text; rewrite_key(alloc, &mut *held, region, key, gate.to_option(), seq))
}

/// Applies `change` to the table of a region. Returns how many entries a compaction or a truncation drops, and 0 for any other
/// change.
///
/// # Errors
///
/// Those of [`MemTableAccessor::change`]. The tables are unchanged then.
fn change_table(tables: &mut MemTableAccessor, region: u64, change: TableChange) -> Result<u64>
    ensures ok { OnOk result (IsChangedTo (after_change (table_in tables.old.tables region) change)
        region tables.old tables.new) }
    ensures answer { IfOk result (IsAnswer change (table_in tables.old.tables region) (table_in tables.new.tables region)) }
    ensures allowed { OnOk result (IsAllowed change) }
    ensures err { OnErr result (tables.new ≡ tables.old) }
    ensures fault { IfErr result (IsMemoryOr (IsChangeFault (table_in tables.old.tables region) tables.old.counts change)) }
{
    let answer = tables.change(region, change);
    tables.counts_are_exact();
    answer
}

/// Puts copies of a key and its value into the table of a region, as written to the file `file_id`. Returns 0.
///
/// # Errors
///
/// Those of [`MemTableAccessor::change`]. The tables are unchanged then.
fn put_copied_pair(
    alloc: Global,
    tables: &mut MemTableAccessor,
    region: u64,
    key: &[u8],
    value: &[u8],
    file_id: FileId,
) -> Result<u64>
    ensures changed { IsChangeOr result (IsPut key.now value.now file_id region)
        (IsUnput key.now file_id region) tables.old tables.new }
{
    let key = Vec::from_slice(alloc, key)?;
    let value = Vec::from_slice(alloc, value)?;
    change_table(
        tables,
        region,
        TableChange::Put {
            key,
            value,
            file_id,
        },
    )
}

/// Moves a key of a region to file `seq` of the rewrite queue, if the gate allows it. Returns 0.
///
/// # Errors
///
/// Those of [`MemTableAccessor::change`]. The tables are unchanged then.
fn rewrite_key(
    alloc: Global,
    tables: &mut MemTableAccessor,
    region: u64,
    key: &[u8],
    gate: Option<u64>,
    seq: u64,
) -> Result<u64>
    ensures changed { IsChangeOr result (IsKeyRewritten gate seq key.now region)
        (IsKeyUnrewritten gate seq key.now region) tables.old tables.new }
{
    let key = Vec::from_slice(alloc, key)?;
    change_table(tables, region, TableChange::RewriteKey { key, gate, seq })
}
