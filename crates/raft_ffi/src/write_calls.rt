//! Exported calls that make tables, change those of several regions, and test and hand out batches for them. Some are for
//! tables that are divided into slots: each slot has the tables of the regions whose slot number is its own.

ghost use Rattle.std.specs.Prelude.{◌≡◌, ◌≢◌, ◌≤◌, IsTrue, IfErr, OnOk, OnErr, Some, None, is_some, ◌<◌, false, map, IfOk};
ghost use Rattle.raft_ffi.specs.Words.{AcceptsOncePlaced, AcceptsShareOncePlaced, AllHold, Appending, AreAllOrSomeWritten, AreMergedOrLeft, AreRefusedOncePlaced, AreWritten, BothHold, HasText, Holds, IsAppendCheckFault, IsAppendTested};
ghost use Rattle.raft_ffi.specs.Words.{IsAppendedFault, IsChangedIfMemory, IsCodeForBoth, IsCodeOf, IsGroupSet, IsMadeIfMemory, IsMoveFault, IsMoved, IsNewerFault, IsRemoved, IsShareRefused, IsStoppedAt, Rewriting, cleans_of, item_of};
ghost use Rattle.raft_ffi.specs.Words.{no_tables, number_in, share_of, slot_of, with_appended, with_newer, without_cleaned};
ghost use Rattle.std.specs.FinMap as finite;

use crate::handles::{
    Batch, Handle, Items, Tables, answer_with_value, unwrap_or_return, with_value,
};
use crate::item_list::ItemList;
use crate::status::{Maybe, Status, memory_code};
use raft_accessor::{MemTableAccessor, slot_of};
use raft_base::{Error, Result};
use raft_records::{LogBatch, LogItem};
use std::alloc::Global;

/// Evaluates an expression that changes tables, and returns its result. Then it cites the law that their counts are exact.
macro_rules! change_counted {
    ($tables:ident; $change:expr) => {{
        let answer = $change;
        $tables.counts_are_exact();
        answer
    }};
}

/// Makes tables of no region in `tables`, which is empty before. Returns 0, or 11 (`Memory`): it stays empty then.
#[unsafe(no_mangle)]
pub extern "C" fn raft_ffi_tables_new(alloc: Global, tables: &mut Tables) -> u32
    requires empty { tables.old.value ≡ None }
    ensures made { IsMadeIfMemory result no_tables tables.new.value }
{
    let held = unwrap_or_return!(MemTableAccessor::new(alloc));
    memory_code(&tables.put_new(alloc, held))
}

/// Sets the first and the last file of a region's atomic group, `start` and `end`, once the group's End is written. `start` is
/// at most `end`. Returns 0, or 11 (`Memory`): the tables are unchanged then.
#[unsafe(no_mangle)]
pub extern "C" fn raft_ffi_tables_atomic_group(
    alloc: Global,
    tables: &mut Tables,
    region: u64,
    start: u64,
    end: u64,
) -> u32
    requires held { IsTrue (is_some tables.old.value) }
    requires range { start ≤ end }
    ensures changed { IsChangedIfMemory result (IsGroupSet start end region) tables.old.value tables.new.value }
{
    answer_with_value!(held in tables, alloc; change_counted!(held; held.apply_rewrite_atomic_group(region, start, end)))
}

/// Removes the table of a region, if there is one, and subtracts its records from the live counts; `found` says whether there was
/// one. With `is_listed` the region is also appended to the cleaned regions, even if it has no table.
///
/// Returns 0, or 11 (`Memory`), which comes only with `is_listed`: the tables are unchanged then, and `found` isn't set.
#[unsafe(no_mangle)]
pub extern "C" fn raft_ffi_tables_remove(
    alloc: Global,
    tables: &mut Tables,
    region: u64,
    is_listed: bool,
    found: &mut bool,
) -> u32
    requires held { IsTrue (is_some tables.old.value) }
    ensures ok { result ≡ 0 → BothHold (IsRemoved region is_listed) tables.old.value tables.new.value }
    ensures found { result ≡ 0 → Holds (λ old. found.new ≡ is_some (finite.get old.tables region)) tables.old.value }
    ensures err { result ≢ 0 → tables.new.value ≡ tables.old.value }
    ensures fault { result ≢ 0 → (result ≡ 11) × IsTrue is_listed }
{
    let removed =
        with_value!(held in tables, alloc; change_counted!(held; held.remove(region, is_listed)));
    *found = unwrap_or_return!(removed).is_some();
    0
}

/// Merges `newer`, the tables of later batches, into `tables`, region by region. `newer` is gone then. The cleaned regions
/// stay. The code is 0, or that of the error. After an error each region has its old table or the merged one; after 11
/// (`Memory`) that of one region may be lost.
#[unsafe(no_mangle)]
pub extern "C" fn raft_ffi_tables_merge_newer(
    alloc: Global,
    tables: &mut Tables,
    newer: Tables,
    text: &mut [u8],
) -> Status
    requires held { IsTrue (is_some tables.old.value) }
    requires newer { IsTrue (is_some newer.value) }
    ensures merged { AreMergedOrLeft with_newer IsNewerFault result.code newer.value tables.old.value tables.new.value }
    ensures text { HasText result text.old text.new }
{
    answer_with_value!(held in tables, alloc, text; change_counted!(held; held.merge_newer_neighbor(newer.into_held())))
}

/// Merges `append`, appended tables, into `tables`, rewritten ones, region by region. `append` is gone then. The cleaned
/// regions stay. The code is 0, or that of the error. After an error each region has its old table or the merged one; after 11
/// (`Memory`) that of one region may be lost.
#[unsafe(no_mangle)]
pub extern "C" fn raft_ffi_tables_merge_append(
    alloc: Global,
    tables: &mut Tables,
    append: Tables,
    text: &mut [u8],
) -> Status
    requires held { IsTrue (is_some tables.old.value) }
    requires append { IsTrue (is_some append.value) }
    ensures merged { AreMergedOrLeft with_appended IsAppendedFault result.code append.value tables.old.value tables.new.value }
    ensures text { HasText result text.old text.new }
{
    answer_with_value!(held in tables, alloc, text; change_counted!(held; held.merge_append_table(append.into_held())))
}

/// Writes `items`, those of a batch of the append queue, to the tables, in order. `items` is gone then. The code is 0, or that of
/// the error of the first item that is refused: those before it are written then, and nothing else.
#[unsafe(no_mangle)]
pub extern "C" fn raft_ffi_tables_apply_append(
    alloc: Global,
    tables: &mut Tables,
    items: Items,
    text: &mut [u8],
) -> Status
    requires held { IsTrue (is_some tables.old.value) }
    requires items { IsTrue (is_some items.value) }
    ensures written { AreAllOrSomeWritten Appending result.code items.value tables.old.value tables.new.value }
    ensures text { HasText result text.old text.new }
{
    answer_with_value!(held in tables, alloc, text; apply_append(&mut *held, items.into_held()))
}

/// Writes items of the append queue to the tables, in order.
///
/// # Errors
///
/// Those of [`MemTableAccessor::apply_append_writes`]. The items before the refused one are written then.
pub(crate) fn apply_append(accessor: &mut MemTableAccessor, items: ItemList) -> Result<()>
    ensures ok { OnOk result (AreWritten Appending items accessor.old accessor.new) }
    ensures refused { IfErr result (IsStoppedAt Appending items accessor.old accessor.new) }
{
    accessor.apply_append_writes(items.into_items())
}

/// Writes `items`, which were rewritten to file `seq` of the rewrite queue, to the tables, in order; `gate` says which places
/// move, as for [`raft_ffi_tables_rewrite`]. `items` is gone then. The code is 0, or that of the error of the first item that is
/// refused: those before it are written then, and nothing else.
#[unsafe(no_mangle)]
pub extern "C" fn raft_ffi_tables_apply_rewrite(
    alloc: Global,
    tables: &mut Tables,
    items: Items,
    gate: Maybe,
    seq: u64,
    text: &mut [u8],
) -> Status
    requires held { IsTrue (is_some tables.old.value) }
    requires items { IsTrue (is_some items.value) }
    ensures written { AreAllOrSomeWritten (Rewriting (number_in gate) seq) result.code items.value tables.old.value tables.new.value }
    ensures text { HasText result text.old text.new }
{
    answer_with_value!(held in tables, alloc, text; apply_rewrite(&mut *held, items.into_held(), gate.to_option(), seq))
}

/// Writes items that were rewritten to file `seq` of the rewrite queue to the tables, in order. `gate` limits which places
/// move.
///
/// # Errors
///
/// Those of [`MemTableAccessor::apply_rewrite_writes`]. The items before the refused one are written then.
pub(crate) fn apply_rewrite(
    accessor: &mut MemTableAccessor,
    items: ItemList,
    gate: Option<u64>,
    seq: u64,
) -> Result<()>
    ensures ok { OnOk result (AreWritten (Rewriting gate seq) items accessor.old accessor.new) }
    ensures refused { IfErr result (IsStoppedAt (Rewriting gate seq) items accessor.old accessor.new) }
{
    accessor.apply_rewrite_writes(items.into_items(), gate, seq)
}

/// Tests whether the tables would accept the items of `batch` once it is written to the append queue, at whatever place. It
/// changes nothing. The code is 0 if they would. Else it is that of the error with which the first item that isn't accepted
/// would be refused, or 11 (`Memory`).
#[unsafe(no_mangle)]
pub extern "C" fn raft_ffi_tables_check_append(
    alloc: Global,
    tables: &mut Tables,
    batch: &mut Batch,
    text: &mut [u8],
) -> Status
    requires held { IsTrue (is_some tables.old.value) }
    requires batch { IsTrue (is_some batch.old.value) }
    ensures tested { IsAppendTested result.code AcceptsOncePlaced (λ b. b.items) tables.old.value tables.new.value
        batch.old.value batch.new.value }
    ensures text { HasText result text.old text.new }
{
    answer_with_value!(held in tables, alloc, text; with_value!(logs in batch, alloc; check_append(&*held, &*logs)))
}

/// Checks that the tables accept the items of `batch` once it is written to the append queue, at whatever place.
///
/// # Errors
///
/// Those of [`MemTableAccessor::check_append_writes`].
fn check_append(accessor: &MemTableAccessor, batch: &LogBatch) -> Result<()>
    ensures ok { OnOk result (AcceptsOncePlaced accessor.now batch.now) }
    ensures refused { IfErr result (λ e. e ≢ Error.Memory → AreRefusedOncePlaced accessor.now.tables batch.now.items) }
    ensures fault { IfErr result (IsAppendCheckFault accessor.now.tables batch.now.items) }
{
    accessor.check_append_writes(batch.items())
}

/// Moves the cleaned regions into `batch`, which is empty before: an open batch with a `Clean` for each, in order. The list of
/// the tables is empty then. Returns 0, or 11 (`Memory`): the list is unchanged then, and `batch` stays empty.
#[unsafe(no_mangle)]
pub extern "C" fn raft_ffi_tables_cleaned_logs(
    alloc: Global,
    tables: &mut Tables,
    batch: &mut Batch,
) -> u32
    requires held { IsTrue (is_some tables.old.value) }
    requires empty { batch.old.value ≡ None }
    ensures changed { IsChangedIfMemory result (λ old new. new ≡ without_cleaned old) tables.old.value tables.new.value }
    ensures logs { result ≡ 0 → BothHold (λ old logs. logs ≡ cleans_of old.cleaned) tables.old.value batch.new.value }
    ensures batch_err { result ≢ 0 → batch.new.value ≡ None }
{
    answer_with_value!(held in tables, alloc; take_cleaned_regions(alloc, &mut *held, batch))
}

/// Moves the cleaned regions into `batch`: an open batch with a `Clean` for each, in order. The box for it is allocated before
/// the list is emptied.
///
/// # Errors
///
/// `Memory` alone. The list is unchanged then, and `batch` stays empty.
fn take_cleaned_regions(
    alloc: Global,
    accessor: &mut MemTableAccessor,
    batch: &mut Batch,
) -> Result<()>
    requires empty { batch.old.value ≡ None }
    ensures ok { OnOk result (accessor.new ≡ without_cleaned accessor.old) }
    ensures logs { OnOk result (batch.new.value ≡ Some (cleans_of accessor.old.cleaned)) }
    ensures err { OnErr result (accessor.new ≡ accessor.old) }
    ensures batch_err { OnErr result (batch.new.value ≡ None) }
    ensures memory { IfErr result (λ e. e ≡ Error.Memory) }
{
    let mut held = Box::new(alloc, LogBatch::default(alloc))?;
    *held = accessor.take_cleaned_region_logs()?;
    batch.put(held);
    Ok(())
}

/// Returns the number of the slot that holds a region's table, which is below 128.
#[unsafe(no_mangle)]
pub extern "C" fn raft_ffi_slot_of(region: u64) -> usize
    ensures value { result ≡ slot_of region }
    ensures bound { result < 128 }
{
    slot_of(region)
}

/// Moves the table of a region, if there is one, from `tables` to `to`, in place of the one that the region has there. Both
/// lists of cleaned regions stay. The code is 0; 9 (`Full`), if more than 2^64 - 1 records would be live in a queue of `to`;
/// or 11 (`Memory`). After an error the region's table is lost, and `to` is unchanged.
#[unsafe(no_mangle)]
pub extern "C" fn raft_ffi_tables_move_table(
    alloc: Global,
    tables: &mut Tables,
    to: &mut Tables,
    region: u64,
    text: &mut [u8],
) -> Status
    requires held { IsTrue (is_some tables.old.value) }
    requires to { IsTrue (is_some to.old.value) }
    ensures removed { BothHold (IsRemoved region false) tables.old.value tables.new.value }
    ensures ok { result.code ≡ 0 → AllHold (IsMoved region) tables.old.value to.old.value to.new.value }
    ensures err { result.code ≢ 0 → to.new.value ≡ to.old.value }
    ensures fault { result.code ≢ 0 → IsCodeForBoth (IsMoveFault region) tables.old.value to.old.value result.code }
    ensures text { HasText result text.old text.new }
{
    answer_with_value!(held in tables, alloc, text; with_value!(others in to, alloc; move_table(&mut *held, &mut *others, region)))
}

/// Tests whether the tables of slot `number` would accept the items of `batch` whose regions are of that slot, once it is written
/// to the append queue, at whatever place. It changes nothing. The code is as that of [`raft_ffi_tables_check_append`].
#[unsafe(no_mangle)]
pub extern "C" fn raft_ffi_slot_check_append(
    alloc: Global,
    tables: &mut Tables,
    number: usize,
    batch: &mut Batch,
    text: &mut [u8],
) -> Status
    requires held { IsTrue (is_some tables.old.value) }
    requires batch { IsTrue (is_some batch.old.value) }
    ensures tested { IsAppendTested result.code (AcceptsShareOncePlaced number) (λ b. share_of number b.items)
        tables.old.value tables.new.value batch.old.value batch.new.value }
    ensures text { HasText result text.old text.new }
{
    answer_with_value!(held in tables, alloc, text; with_value!(logs in batch, alloc; check_share(alloc, &*held, number, &*logs)))
}

/// Writes the items of the append queue whose regions are of slot `number` to the tables of that slot, in order. `items` stays as
/// it is. The code is 0, or that of the error of the first item that is refused: those before it are written then, and nothing
/// else; none if there is no memory for copies of the items.
#[unsafe(no_mangle)]
pub extern "C" fn raft_ffi_slot_apply_append(
    alloc: Global,
    tables: &mut Tables,
    number: usize,
    items: &mut Items,
    text: &mut [u8],
) -> Status
    requires held { IsTrue (is_some tables.old.value) }
    requires items { IsTrue (is_some items.old.value) }
    ensures same { items.new.value ≡ items.old.value }
    ensures ok { result.code ≡ 0 → AllHold (λ xs. AreWritten Appending (share_of number xs))
        items.old.value tables.old.value tables.new.value }
    ensures refused { result.code ≢ 0 → AllHold (λ xs old new. IsCodeOf (IsShareRefused Appending (share_of number xs)
        old new) result.code) items.old.value tables.old.value tables.new.value }
    ensures text { HasText result text.old text.new }
{
    answer_with_value!(held in tables, alloc, text; with_value!(list in items, alloc; append_share(alloc, &mut *held, number, &*list)))
}

/// Writes the items whose regions are of slot `number`, and which were rewritten to file `seq` of the rewrite queue, to the
/// tables of that slot, in order; `gate` says which places move, as for [`raft_ffi_tables_rewrite`]. `items` stays as it is. The
/// code is 0, or that of the error of the first item that is refused: those before it are written then, and nothing else; none if
/// there is no memory for copies of the items.
#[unsafe(no_mangle)]
pub extern "C" fn raft_ffi_slot_apply_rewrite(
    alloc: Global,
    tables: &mut Tables,
    number: usize,
    items: &mut Items,
    gate: Maybe,
    seq: u64,
    text: &mut [u8],
) -> Status
    requires held { IsTrue (is_some tables.old.value) }
    requires items { IsTrue (is_some items.old.value) }
    ensures same { items.new.value ≡ items.old.value }
    ensures ok { result.code ≡ 0 → AllHold (λ xs. AreWritten (Rewriting (number_in gate) seq) (share_of number xs))
        items.old.value tables.old.value tables.new.value }
    ensures refused { result.code ≢ 0 → AllHold (λ xs old new. IsCodeOf (IsShareRefused (Rewriting (number_in gate) seq)
        (share_of number xs) old new) result.code) items.old.value tables.old.value tables.new.value }
    ensures text { HasText result text.old text.new }
{
    answer_with_value!(held in tables, alloc, text; with_value!(list in items, alloc; rewrite_share(alloc, &mut *held, number, &*list, gate.to_option(), seq)))
}

/// Moves the table of a region, if there is one, to the tables `to`, in place of the one that the region has there.
///
/// # Errors
///
/// `Full` if more than 2^64 - 1 records would be live in a queue of `to`; `Memory`. The region's table is lost then, and `to`
/// is unchanged.
fn move_table(from: &mut MemTableAccessor, to: &mut MemTableAccessor, region: u64) -> Result<()>
    ensures removed { IsRemoved region false from.old from.new }
    ensures ok { OnOk result (IsMoved region from.old to.old to.new) }
    ensures err { OnErr result (to.new ≡ to.old) }
    ensures fault { IfErr result (IsMoveFault region from.old to.old) }
{
    let _ = from.get(region);
    let taken = change_counted!(from; from.remove(region, false));
    to.counts_are_exact();
    match taken {
        Ok(Some(table)) => {
            to.insert(region, table)?;
            to.counts_are_exact();
            Ok(())
        }
        Ok(None) => Ok(()),
        Err(_) => unreachable!(),
    }
}

/// Checks that the tables of slot `slot` accept those items of a batch whose regions are of the slot, once the batch is
/// written to the append queue, at whatever place.
///
/// # Errors
///
/// Those of [`MemTableAccessor::check_append_writes`]; `Memory` for copies of the items.
fn check_share(alloc: Global, tables: &MemTableAccessor, slot: usize, logs: &LogBatch) -> Result<()>
    ensures ok { OnOk result (AcceptsShareOncePlaced slot tables.now logs.now) }
    ensures refused { IfErr result (λ e. e ≢ Error.Memory
        → AreRefusedOncePlaced tables.now.tables (share_of slot logs.now.items)) }
    ensures fault { IfErr result (IsAppendCheckFault tables.now.tables (share_of slot logs.now.items)) }
{
    let share = share_of(alloc, slot, logs.items())?;
    tables.check_append_writes(share.as_slice())
}

/// Writes copies of those items whose regions are of slot `slot` to its tables, in order, as new ones of the append queue.
///
/// # Errors
///
/// Those of [`apply_append`]: the items before the refused one are written then. `Memory` for the copies: none is written
/// then.
fn append_share(
    alloc: Global,
    tables: &mut MemTableAccessor,
    slot: usize,
    items: &ItemList,
) -> Result<()>
    ensures ok { OnOk result (AreWritten Appending (share_of slot items.now) tables.old tables.new) }
    ensures refused { IfErr result (IsShareRefused Appending (share_of slot items.now) tables.old tables.new) }
{
    let share = share_of(alloc, slot, items.as_slice())?;
    apply_append(tables, ItemList::of_items(share))
}

/// Writes copies of those items whose regions are of slot `number` to its tables, in order, as rewritten to file `seq` of the
/// rewrite queue. `gate` limits which places move.
///
/// # Errors
///
/// Those of [`apply_rewrite`]: the items before the refused one are written then. `Memory` for the copies: none is written
/// then.
fn rewrite_share(
    alloc: Global,
    accessor: &mut MemTableAccessor,
    number: usize,
    items: &ItemList,
    gate: Option<u64>,
    seq: u64,
) -> Result<()>
    ensures ok { OnOk result (AreWritten (Rewriting gate seq) (share_of number items.now) accessor.old accessor.new) }
    ensures refused { IfErr result (IsShareRefused (Rewriting gate seq) (share_of number items.now) accessor.old accessor.new) }
{
    let share = share_of(alloc, number, items.as_slice())?;
    apply_rewrite(accessor, ItemList::of_items(share), gate, seq)
}

/// Returns copies of those items whose regions are of slot `number`, in order.
///
/// # Errors
///
/// `Memory` alone.
fn share_of(alloc: Global, number: usize, items: &[LogItem]) -> Result<Vec<LogItem>>
    ensures ok { IfOk result (λ share. map item_of share.items ≡ share_of number (map item_of items.now)) }
    ensures memory { IfErr result (λ e. e ≡ Error.Memory) }
{
    let mut share = Vec::new(alloc);
    for item in items {
        if slot_of(item.raft_group_id) == number {
            share.push(item.clone()?)?;
        }
    }
    Ok(share)
}
