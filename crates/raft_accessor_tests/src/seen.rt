//! What an accessor, or shared tables, have: to be compared.

use raft_memtable::{Error, FileSeq, GlobalStats, LogQueue, MemTable, MemTableAccessor, Result};
use raft_records::{Command, LogBatch, LogItemContent};
use raft_recover::SharedAccessor;
use std::alloc::Global;
use std::sync::Wait;

/// The region that most calls are for, and whose table is looked up.
pub(crate) const REGION: u64 = 1;

/// The place of an entry: the number of its file, the offset and the length of its block, its offset and its length
/// within the block.
type Place = (FileSeq, u64, usize, u32, u32);

/// What a table has: its region, its first and last index, its records and its oldest file in each queue, its atomic
/// group, the place of its last entry, and its keys and values.
pub(crate) type Shape = (
    u64,
    (Option<u64>, Option<u64>),
    (u128, u128),
    (Option<FileSeq>, Option<FileSeq>),
    Option<(FileSeq, FileSeq)>,
    (Option<Place>, u64),
);

/// Returns the place of a table's last entry; `None` where there is none.
fn place_of_last_entry(table: &MemTable) -> Option<Place> {
    let entry = table.get_entry(table.last_index()?)?;
    let handle = entry.entries?;
    Some((
        handle.id.seq,
        handle.offset,
        handle.len,
        entry.entry_offset,
        entry.entry_len,
    ))
}

/// Returns a hash of the bytes of all keys and values of a table.
fn hash_of_pairs(table: &MemTable) -> u64 {
    let mut seen = 0u64;
    let _ = table.scan(None, None, false, |key, value| {
        for byte in key.iter().chain(value) {
            seen = seen.wrapping_mul(257).wrapping_add(u64::from(*byte));
        }
        true
    });
    seen
}

/// Returns what the tests compare of a table: its region, its first and last index, how many records it has in each
/// queue and the least file there, its group, the place of its last entry, and a hash of its pairs.
pub(crate) fn shape_of_table(table: &MemTable) -> Shape {
    (
        table.region_id(),
        (table.first_index(), table.last_index()),
        (
            table.records(LogQueue::Append),
            table.records(LogQueue::Rewrite),
        ),
        (
            table.min_file_seq(LogQueue::Append),
            table.min_file_seq(LogQueue::Rewrite),
        ),
        table.atomic_group(),
        (place_of_last_entry(table), hash_of_pairs(table)),
    )
}

/// Returns how many records are live in the append queue, were written to the rewrite queue, and were deleted from it.
pub(crate) fn live_written_and_deleted(stats: &GlobalStats) -> (usize, usize, usize) {
    (
        stats.live_entries(LogQueue::Append),
        stats.rewrite_entries(),
        stats.deleted_rewrite_entries(),
    )
}

/// What an accessor or shared tables have: the table of `REGION`, all tables by region, the live counts, whether there
/// are no tables, and the cleaned regions.
#[derive(PartialEq, Drop)]
pub(crate) struct Seen {
    found: Option<Shape>,
    tables: Vec<Shape>,
    /// The sum of what [`sum_of_table`] returns for all tables that a walk meets.
    read: u64,
    /// The regions whose tables have an entry and a key.
    full: Vec<u64>,
    live: (u128, u128),
    is_empty: bool,
    cleaned: Vec<u64>,
}

impl Seen {
    /// Tests whether there are so many tables, so many cleaned regions, and so many live records in each queue.
    pub(crate) fn has(&self, tables: usize, cleaned: usize, live: (u128, u128)) -> bool {
        (self.tables.len(), self.cleaned.len(), self.live) == (tables, cleaned, live)
    }
}

/// Returns one number of a table's region, entries and keys.
fn sum_of_table(table: &MemTable) -> u64 {
    let mut seen = hash_of_pairs(table);
    for index in &[table.first_index(), table.last_index()] {
        seen = seen.wrapping_mul(257).wrapping_add(index.unwrap_or(0));
    }
    seen.wrapping_mul(257).wrapping_add(table.region_id())
}

/// Tests whether a table has an entry and a key.
fn has_entry_and_key(table: &MemTable) -> bool {
    table.first_index().is_some() && hash_of_pairs(table) != 0
}

/// Returns the regions that the items of a batch clean, in order.
///
/// # Errors
///
/// `Failed` if an item isn't a `Clean`; `Memory`.
fn regions_cleaned_by(alloc: Global, mut logs: LogBatch) -> Result<Vec<u64>> {
    let mut regions = Vec::new(alloc);
    for item in logs.drain() {
        if !matches!(item.content, LogItemContent::Command(Command::Clean)) {
            return Err(Error::Failed);
        }
        regions.push(item.raft_group_id)?;
    }
    Ok(regions)
}

/// Takes the cleaned regions of shared tables, and returns them in order. Where the call runs out of memory, what it
/// took is in the batch, and a second call takes the rest.
///
/// # Errors
///
/// That of the second call, if the first one failed; those of [`regions_cleaned_by`].
pub(crate) fn take_cleaned_of_shared<R: Wait>(
    rt: &R,
    alloc: Global,
    shared: &SharedAccessor,
) -> Result<Vec<u64>> {
    let mut logs = LogBatch::default(alloc);
    if shared.take_cleaned_region_logs(rt, &mut logs).is_err() {
        shared.take_cleaned_region_logs(rt, &mut logs)?;
    }
    regions_cleaned_by(alloc, logs)
}

/// Takes the cleaned regions of an accessor, and returns them in order.
///
/// # Errors
///
/// Those of [`MemTableAccessor::take_cleaned_region_logs`] and [`regions_cleaned_by`].
pub(crate) fn take_cleaned_of_accessor(
    alloc: Global,
    core: &mut MemTableAccessor,
) -> Result<Vec<u64>> {
    regions_cleaned_by(alloc, core.take_cleaned_region_logs()?)
}

/// Returns the shapes of all tables of an accessor, sorted by region.
///
/// # Errors
///
/// `Memory` alone.
fn shapes_of_accessor(alloc: Global, core: &MemTableAccessor) -> Result<Vec<Shape>> {
    let mut tables = Vec::new(alloc);
    for table in core.tables()? {
        tables.push(shape_of_table(table))?;
    }
    tables.sort()?;
    Ok(tables)
}

/// Returns the regions of an accessor whose tables have an entry and a key.
///
/// # Errors
///
/// `Memory` alone.
fn full_regions_of_accessor(alloc: Global, core: &MemTableAccessor) -> Result<Vec<u64>> {
    let mut full = Vec::new(alloc);
    let kept = core.collect(|table: &MemTable| has_entry_and_key(table))?;
    for table in kept {
        full.push(table.region_id())?;
    }
    full.sort()?;
    Ok(full)
}

/// Returns what an accessor has, and takes its cleaned regions.
///
/// # Errors
///
/// Those of [`take_cleaned_of_accessor`]; `Memory`.
pub(crate) fn summarize_accessor(alloc: Global, core: &mut MemTableAccessor) -> Result<Seen> {
    let mut cleaned = take_cleaned_of_accessor(alloc, core)?;
    cleaned.sort()?;
    let stats = core.stats();
    Ok(Seen {
        found: core.get(REGION).map(shape_of_table),
        tables: shapes_of_accessor(alloc, core)?,
        read: core.fold(0u64, |sum: u64, table: &MemTable| {
            sum.wrapping_add(sum_of_table(table))
        }),
        full: full_regions_of_accessor(alloc, core)?,
        live: (
            stats.live_entries(LogQueue::Append) as u128,
            stats.live_entries(LogQueue::Rewrite) as u128,
        ),
        is_empty: core.is_empty(),
        cleaned,
    })
}

/// Returns the shape of a shared table; `None` where the region has none.
fn shape_of_shared_table<R: Wait>(rt: &R, shared: &SharedAccessor, region: u64) -> Option<Shape> {
    shared.with_table(rt, region, shape_of_table)
}

/// Returns the shapes of all shared tables, sorted by region.
///
/// # Errors
///
/// `Memory` alone.
fn shapes_of_shared_tables<R: Wait>(
    rt: &R,
    alloc: Global,
    shared: &SharedAccessor,
) -> Result<Vec<Shape>> {
    let mut tables = Vec::new(alloc);
    for region in shared.collect(rt, |_: &MemTable| true)? {
        if let Some(shape) = shape_of_shared_table(rt, shared, region) {
            tables.push(shape)?;
        }
    }
    tables.sort()?;
    Ok(tables)
}

/// Returns the regions whose shared tables have an entry and a key.
///
/// # Errors
///
/// `Memory` alone.
fn full_regions_of_shared<R: Wait>(rt: &R, shared: &SharedAccessor) -> Result<Vec<u64>> {
    let mut full = shared.collect(rt, has_entry_and_key)?;
    full.sort()?;
    Ok(full)
}

/// Returns what shared tables have, and takes their cleaned regions.
///
/// # Errors
///
/// Those of [`take_cleaned_of_shared`]; `Memory`.
pub(crate) fn summarize_shared_tables<R: Wait>(
    rt: &R,
    alloc: Global,
    shared: &SharedAccessor,
) -> Result<Seen> {
    let mut seen = Seen {
        found: shape_of_shared_table(rt, shared, REGION),
        tables: shapes_of_shared_tables(rt, alloc, shared)?,
        read: shared.fold(rt, 0u64, |sum, table: &MemTable| {
            sum.wrapping_add(sum_of_table(table))
        }),
        full: full_regions_of_shared(rt, shared)?,
        live: (
            shared.live_entries(rt, LogQueue::Append),
            shared.live_entries(rt, LogQueue::Rewrite),
        ),
        is_empty: shared.is_empty(rt),
        cleaned: Vec::new(alloc),
    };
    // The last of the calls: each of the others sees the slots with their cleaned regions.
    seen.cleaned = take_cleaned_of_shared(rt, alloc, shared)?;
    seen.cleaned.sort()?;
    Ok(seen)
}
