//! Exported calls that read tables: those behind a handle of tables, and those of an engine.

ghost use Rattle.std.specs.Prelude.{◌≡◌, ◌≢◌, IsTrue, is_some, ◌+◌, [], true, false, OnOk, IfOk, IfErr, option_map};
ghost use Rattle.raft_ffi.specs.Words.{Rewrite, AreEntriesIn, AreRegionsIn, HasText, Holds, IsCopied, IsEntryIn, IsFetchFault, IsFetched, IsFound, IsRead, IsReadIfMemory, IsReadOrRefused, IsSummaryIn, IsValueIn, appended_before, end_of};
ghost use Rattle.raft_ffi.specs.Words.{entry_at, live, moving_entries, number_in, placed_in, queue_of, range_answer, start_of, table_in, value_in};

use crate::entries::{Entry, copy_entries, to_plain_entry};
use crate::handles::{Engine, Handle, Tables, answer_with_value, unwrap_or_return, with_value};
use crate::status::{Maybe, Status, copy_found, copy_front, to_queue};
use raft_accessor::MemTableAccessor;
use raft_base::{EntryIndex, Error, LogQueue, Result};
use raft_engine::rewriting::{entries_to_move, regions_of};
use raft_table::MemTable;
use std::alloc::Global;

/// What the table of a region has.
#[repr(C)]
#[derive(Clone, Copy)]
pub struct Summary {
    /// The number of entries.
    pub entries: usize,
    /// The number of keys.
    pub keys: usize,
    /// The index of the first entry.
    pub first: Maybe,
    /// The least file of the table in the append queue (`MemTable::min_file_seq`).
    pub append_seq: Maybe,
    /// The least file of the table in the rewrite queue.
    pub rewrite_seq: Maybe,
}

/// Returns how many records are live in a queue.
#[unsafe(no_mangle)]
pub extern "C" fn raft_ffi_tables_live(
    alloc: Global,
    tables: &mut Tables,
    is_rewrite: bool,
) -> usize
    requires held { IsTrue (is_some tables.old.value) }
    ensures live { IsRead (λ a. result ≡ live (queue_of is_rewrite) a.counts) tables.old.value tables.new.value }
{
    with_value!(held in tables, alloc; held.stats().live_entries(to_queue(is_rewrite)))
}

/// Returns whether a region has a table. If it has one, `summary` is set to what that has.
#[unsafe(no_mangle)]
pub extern "C" fn raft_ffi_tables_summary(
    alloc: Global,
    tables: &mut Tables,
    region: u64,
    summary: &mut Summary,
) -> bool
    requires held { IsTrue (is_some tables.old.value) }
    ensures found { IsRead (IsSummaryIn region result summary.new) tables.old.value tables.new.value }
{
    with_value!(held in tables, alloc; set_summary(&*held, region, summary))
}

/// Lists in `regions` the regions that have a table, in rising order, as many as there is room for. Sets `count` to how many
/// there are, which may be more. Returns 0, or 11 (`Memory`): nothing is set then.
#[unsafe(no_mangle)]
pub extern "C" fn raft_ffi_tables_regions(
    alloc: Global,
    tables: &mut Tables,
    regions: &mut [u64],
    count: &mut usize,
) -> u32
    requires held { IsTrue (is_some tables.old.value) }
    ensures found { IsReadIfMemory result (λ a. AreRegionsIn a.tables regions.old regions.new count.new) tables.old.value
        tables.new.value }
{
    answer_with_value!(held in tables, alloc; copy_regions(&*held, regions, count))
}

/// Lists in `regions` the regions that were cleaned, in order, as many as there is room for. Returns how many there are, which
/// may be more.
#[unsafe(no_mangle)]
pub extern "C" fn raft_ffi_tables_cleaned(
    alloc: Global,
    tables: &mut Tables,
    regions: &mut [u64],
) -> usize
    requires held { IsTrue (is_some tables.old.value) }
    ensures found { IsRead (λ a. IsCopied a.cleaned regions.old regions.new result) tables.old.value tables.new.value }
{
    with_value!(held in tables, alloc; copy_front(held.cleaned_regions(), regions))
}

/// Returns whether a region has an entry with the index `index`. If it has one, `entry` is set to it.
#[unsafe(no_mangle)]
pub extern "C" fn raft_ffi_tables_entry(
    alloc: Global,
    tables: &mut Tables,
    region: u64,
    index: u64,
    entry: &mut Entry,
) -> bool
    requires held { IsTrue (is_some tables.old.value) }
    ensures found { IsRead (IsEntryIn region index result entry.new) tables.old.value tables.new.value }
{
    with_value!(held in tables, alloc; set_entry(&*held, region, index, entry))
}

/// Lists in `entries` the entries of a region from `begin` on and below `end`, as many as there is room for. Sets `count` to
/// how many there are, which may be more. With a maximal size it stops before the first entry with which the total of lengths
/// passes that size and exceeds the entry's own length. A region without a table has no entries.
///
/// The code is 0, or 11 (`Memory`), or, where the range isn't empty, 7 (`EntryCompacted`), if it begins below the first entry,
/// or 8 (`EntryNotFound`), if there are no entries or it ends above their end. Nothing is listed after an error.
#[unsafe(no_mangle)]
pub extern "C" fn raft_ffi_tables_entries(
    alloc: Global,
    tables: &mut Tables,
    region: u64,
    begin: u64,
    end: u64,
    max_size: Maybe,
    entries: &mut [Entry],
    count: &mut usize,
    text: &mut [u8],
) -> Status
    requires held { IsTrue (is_some tables.old.value) }
    ensures found { IsReadOrRefused result.code
        (λ a. IsFetched (number_in max_size) begin end (table_in a.tables region).entries entries.old entries.new count.new)
        (λ a. IsFetchFault (range_answer begin end (table_in a.tables region).entries)) tables.old.value tables.new.value }
    ensures text { HasText result text.old text.new }
{
    let range = (begin, end);
    answer_with_value!(held in tables, alloc, text; copy_entries_in_range(alloc, &*held, region, range, max_size.to_size_option(), entries, count))
}

/// Lists in `entries` the appended entries of a region, from the first one on while their file is numbered at or below `gate`,
/// as many as there is room for. Sets `count` to how many there are, which may be more. Returns 0, or 11 (`Memory`): nothing
/// is set then.
#[unsafe(no_mangle)]
pub extern "C" fn raft_ffi_tables_entries_before(
    alloc: Global,
    tables: &mut Tables,
    region: u64,
    gate: u64,
    entries: &mut [Entry],
    count: &mut usize,
) -> u32
    requires held { IsTrue (is_some tables.old.value) }
    ensures found { IsReadIfMemory result (λ a. AreEntriesIn (appended_before gate (table_in a.tables region).entries) entries.old
        entries.new count.new) tables.old.value tables.new.value }
{
    let found = unwrap_or_return!(
        with_value!(held in tables, alloc; copy_moving_entries(alloc, &*held, region, Some(gate)))
    );
    *count = copy_entries(&found, entries);
    0
}

/// Lists in `entries` the rewritten entries of a region, as many as there is room for. Sets `count` to how many there are,
/// which may be more. Returns 0, or 11 (`Memory`): nothing is set then.
#[unsafe(no_mangle)]
pub extern "C" fn raft_ffi_tables_rewritten_entries(
    alloc: Global,
    tables: &mut Tables,
    region: u64,
    entries: &mut [Entry],
    count: &mut usize,
) -> u32
    requires held { IsTrue (is_some tables.old.value) }
    ensures found { IsReadIfMemory result (λ a. AreEntriesIn (placed_in Rewrite (table_in a.tables region).entries) entries.old
        entries.new count.new) tables.old.value tables.new.value }
{
    let found = unwrap_or_return!(
        with_value!(held in tables, alloc; copy_moving_entries(alloc, &*held, region, None))
    );
    *count = copy_entries(&found, entries);
    0
}

/// Returns whether `key` of a region has a value. If it has one, as many of its bytes are copied into `value` as there is room
/// for, and `len` is set to how many it has, which may be more.
#[unsafe(no_mangle)]
pub extern "C" fn raft_ffi_tables_value(
    alloc: Global,
    tables: &mut Tables,
    region: u64,
    key: &[u8],
    value: &mut [u8],
    len: &mut usize,
) -> bool
    requires held { IsTrue (is_some tables.old.value) }
    ensures found { IsRead (IsValueIn region key.now result value.old value.new len.new) tables.old.value tables.new.value }
{
    with_value!(held in tables, alloc; copy_found(value_of(&*held, region, key), value, len))
}

/// Frees the tables.
#[unsafe(no_mangle)]
pub extern "C" fn raft_ffi_tables_drop(tables: Tables)
    requires held { IsTrue (is_some tables.value) }
{
    drop(tables.into_box());
}

/// Returns how many records of the engine's tables are live in a queue.
#[unsafe(no_mangle)]
pub extern "C" fn raft_ffi_engine_live(
    alloc: Global,
    engine: &mut Engine,
    is_rewrite: bool,
) -> usize
    requires held { IsTrue (is_some engine.old.value) }
    ensures live { IsRead (λ e. result ≡ live (queue_of is_rewrite) e.accessor.counts) engine.old.value engine.new.value }
{
    with_value!(held in engine, alloc; held.engine.accessor().stats().live_entries(to_queue(is_rewrite)))
}

/// Returns whether a region has a table. If it has one, `summary` is set to what that has.
#[unsafe(no_mangle)]
pub extern "C" fn raft_ffi_engine_summary(
    alloc: Global,
    engine: &mut Engine,
    region: u64,
    summary: &mut Summary,
) -> bool
    requires held { IsTrue (is_some engine.old.value) }
    ensures found { IsRead (λ e. IsSummaryIn region result summary.new e.accessor) engine.old.value engine.new.value }
{
    with_value!(held in engine, alloc; set_summary(held.engine.accessor(), region, summary))
}

/// Lists in `regions` the regions that have a table, in rising order, as many as there is room for. Sets `count` to how many
/// there are, which may be more. Returns 0, or 11 (`Memory`): nothing is set then.
#[unsafe(no_mangle)]
pub extern "C" fn raft_ffi_engine_regions(
    alloc: Global,
    engine: &mut Engine,
    regions: &mut [u64],
    count: &mut usize,
) -> u32
    requires held { IsTrue (is_some engine.old.value) }
    ensures found { IsReadIfMemory result (λ e. AreRegionsIn e.accessor.tables regions.old regions.new count.new) engine.old.value
        engine.new.value }
{
    answer_with_value!(held in engine, alloc; copy_regions(held.engine.accessor(), regions, count))
}

/// Returns whether a region has an entry with the index `index`. If it has one, `entry` is set to it.
#[unsafe(no_mangle)]
pub extern "C" fn raft_ffi_engine_entry(
    alloc: Global,
    engine: &mut Engine,
    region: u64,
    index: u64,
    entry: &mut Entry,
) -> bool
    requires held { IsTrue (is_some engine.old.value) }
    ensures found { IsRead (λ e. IsEntryIn region index result entry.new e.accessor) engine.old.value engine.new.value }
{
    with_value!(held in engine, alloc; set_entry(held.engine.accessor(), region, index, entry))
}

/// Lists in `entries` the entries of a region from `begin` on and below `end`, and sets `count` to how many there are, as
/// [`raft_ffi_tables_entries`] does. Its code is as there.
#[unsafe(no_mangle)]
pub extern "C" fn raft_ffi_engine_entries(
    alloc: Global,
    engine: &mut Engine,
    region: u64,
    begin: u64,
    end: u64,
    max_size: Maybe,
    entries: &mut [Entry],
    count: &mut usize,
    text: &mut [u8],
) -> Status
    requires held { IsTrue (is_some engine.old.value) }
    ensures found { IsReadOrRefused result.code
        (λ e. IsFetched (number_in max_size) begin end (table_in e.accessor.tables region).entries entries.old entries.new count.new)
        (λ e. IsFetchFault (range_answer begin end (table_in e.accessor.tables region).entries)) engine.old.value engine.new.value }
    ensures text { HasText result text.old text.new }
{
    let range = (begin, end);
    answer_with_value!(held in engine, alloc, text; copy_entries_in_range(alloc, held.engine.accessor(), region, range, max_size.to_size_option(), entries, count))
}

/// Returns whether `key` of a region has a value. If it has one, as many of its bytes are copied into `value` as there is room
/// for, and `len` is set to how many it has, which may be more.
#[unsafe(no_mangle)]
pub extern "C" fn raft_ffi_engine_value(
    alloc: Global,
    engine: &mut Engine,
    region: u64,
    key: &[u8],
    value: &mut [u8],
    len: &mut usize,
) -> bool
    requires held { IsTrue (is_some engine.old.value) }
    ensures found { IsRead (λ e. IsValueIn region key.now result value.old value.new len.new e.accessor) engine.old.value
        engine.new.value }
{
    with_value!(held in engine, alloc; copy_found(value_of(held.engine.accessor(), region, key), value, len))
}

/// Returns whether a region has entries. If it has, `index` is set to their least index.
#[unsafe(no_mangle)]
pub extern "C" fn raft_ffi_engine_first_index(
    alloc: Global,
    engine: &mut Engine,
    region: u64,
    index: &mut u64,
) -> bool
    requires held { IsTrue (is_some engine.old.value) }
    ensures same { engine.new.value ≡ engine.old.value }
    ensures some { result ≡ true → Holds (λ e. ((table_in e.accessor.tables region).entries ≢ [])
        × (index.new ≡ start_of (table_in e.accessor.tables region).entries)) engine.old.value }
    ensures none { result ≡ false → Holds (λ e. (table_in e.accessor.tables region).entries ≡ []) engine.old.value }
{
    let found = with_value!(held in engine, alloc; held.engine.first_index(region));
    set_if_found(found, index)
}

/// Returns whether a region has entries. If it has, `index` is set to their greatest index.
#[unsafe(no_mangle)]
pub extern "C" fn raft_ffi_engine_last_index(
    alloc: Global,
    engine: &mut Engine,
    region: u64,
    index: &mut u64,
) -> bool
    requires held { IsTrue (is_some engine.old.value) }
    ensures same { engine.new.value ≡ engine.old.value }
    ensures some { result ≡ true → Holds (λ e. index.new + 1 ≡ end_of (table_in e.accessor.tables region).entries) engine.old.value }
    ensures none { result ≡ false → Holds (λ e. (table_in e.accessor.tables region).entries ≡ []) engine.old.value }
{
    let found = with_value!(held in engine, alloc; held.engine.last_index(region));
    set_if_found(found, index)
}

/// Sets `number` to a number that was found. Returns whether one was; for `None` nothing is changed.
fn set_if_found(found: Option<u64>, number: &mut u64) -> bool
    ensures { IsFound (λ n. number.new ≡ n) found result }
{
    let Some(found) = found else {
        return false;
    };
    *number = found;
    true
}

/// Sets `summary` to what the table of a region has. Returns whether there is one; without it nothing is changed.
fn set_summary(accessor: &MemTableAccessor, region: u64, summary: &mut Summary) -> bool
    ensures { IsSummaryIn region result summary.new accessor.now }
{
    let Some(table) = accessor.get(region) else {
        return false;
    };
    *summary = Summary {
        entries: table.entries_count(),
        keys: table.key_count(),
        first: Maybe::of_option(table.first_index()),
        append_seq: Maybe::of_option(table.min_file_seq(LogQueue::Append)),
        rewrite_seq: Maybe::of_option(table.min_file_seq(LogQueue::Rewrite)),
    };
    true
}

/// Sets `entry` to the entry of a region with the index `index`. Returns whether there is one; without it nothing is changed.
fn set_entry(accessor: &MemTableAccessor, region: u64, index: u64, entry: &mut Entry) -> bool
    ensures { IsEntryIn region index result entry.new accessor.now }
{
    let Some(found) = entry_at(accessor, region, index) else {
        return false;
    };
    *entry = to_plain_entry(&found);
    true
}

/// Returns the entry of a region with the index `index`; `None` if there is none.
fn entry_at(accessor: &MemTableAccessor, region: u64, index: u64) -> Option<EntryIndex>
    ensures { result ≡ entry_at index (table_in accessor.now.tables region).entries }
{
    accessor.get(region)?.get_entry(index)
}

/// Returns the value of a region's key; `None` if the key has none.
fn value_of<'a>(accessor: &'a MemTableAccessor, region: u64, key: &[u8]) -> Option<&'a [u8]>
    ensures { option_map (λ v. v.now) result ≡ value_in accessor.now.tables region key.now }
{
    accessor.get(region)?.get(key)
}

/// Copies the regions that have a table into `room`, in rising order, as many as there is room for. Sets `count` to how many
/// there are.
///
/// # Errors
///
/// `Memory` alone. Nothing is copied then.
fn copy_regions(accessor: &MemTableAccessor, room: &mut [u64], count: &mut usize) -> Result<()>
    ensures ok { OnOk result (AreRegionsIn accessor.now.tables room.old room.new count.new) }
    ensures memory { IfErr result (λ e. e ≡ Error.Memory) }
{
    let mut regions = regions_of(accessor)?;
    regions.sort_unstable();
    *count = copy_front(regions.as_slice(), room);
    Ok(())
}

/// Copies the entries of a region whose indexes are in the half-open `range` into `entries`, as many as there is room for, up
/// to the one with which they pass `max_size`. Sets `count` to how many there are. A region without a table has no entries.
///
/// # Errors
///
/// Those of [`MemTable::fetch_entries_to`]. Nothing is copied then.
fn copy_entries_in_range(
    alloc: Global,
    accessor: &MemTableAccessor,
    region: u64,
    range: (u64, u64),
    max_size: Option<usize>,
    entries: &mut [Entry],
    count: &mut usize,
) -> Result<()>
    ensures ok { OnOk result (IsFetched max_size range.0 range.1
        (table_in accessor.now.tables region).entries entries.old entries.new count.new) }
    ensures fault { IfErr result (IsFetchFault (range_answer range.0 range.1 (table_in accessor.now.tables region).entries)) }
{
    let (begin, end) = range;
    let mut found = Vec::new(alloc);
    match accessor.get(region) {
        Some(table) => table.fetch_entries_to(begin, end, max_size, &mut found)?,
        None => {
            MemTable::new(alloc, region).fetch_entries_to(begin, end, max_size, &mut found)?;
        }
    }
    *count = copy_entries(&found, entries);
    Ok(())
}

/// Returns the entries of a region that a move takes: with a gate the appended ones, from the first one on while their file is
/// numbered at or below it; without one those that are rewritten already. A region without a table has none.
///
/// # Errors
///
/// `Memory` alone.
fn copy_moving_entries(
    alloc: Global,
    accessor: &MemTableAccessor,
    region: u64,
    gate: Option<u64>,
) -> Result<Vec<EntryIndex>>
    ensures ok { IfOk result (λ v. v.items ≡ moving_entries gate (table_in accessor.now.tables region).entries) }
    ensures memory { IfErr result (λ e. e ≡ Error.Memory) }
{
    match accessor.get(region) {
        Some(table) => entries_to_move(alloc, table, gate),
        None => Ok(Vec::new(alloc)),
    }
}
