//! How many bytes of each file are live, and which regions have their oldest records there. Each call fails for want of memory alone; one
//! that appends may then have appended some of its text.

ghost use Rattle.std.specs.Prelude.{◌≡◌, option_copied};
ghost use Rattle.raft_report.specs.JsonLines.{live_in};

use crate::region_order::sort_by_region;
use raft_base::{AllocResult, FileId, FileSeq, LogQueue, Result};
use raft_reading::FileSize;
use raft_recover::{MemTable, MemTableAccessor};
use raft_replay::segment::queue_name;
use std::alloc::Global;
use std::collections::BTreeMap;

/// The length of a file's bar, in characters.
const BAR_LEN: u64 = 40;

/// The greatest number of regions that are named for a file.
const NAMED_REGIONS: usize = 10;

/// What the tables need of a file.
#[derive(Drop)]
pub struct FileUse {
    /// The number of bytes of live entries in it. Key values, headers and items aren't counted.
    pub live: u64,
    /// The regions whose oldest file of the queue it is, by [`MemTable::min_file_seq`], by rising id.
    pub regions: Vec<u64>,
}

/// The files of a queue that tables need, by their numbers, with what is needed of each.
pub type FileUses = BTreeMap<FileSeq, FileUse>;

/// Returns which files of `queue` the tables need, by their numbers: how many bytes of live entries each file has, and which regions have
/// their oldest record there. A file with neither isn't in the result.
///
/// # Errors
///
/// `Memory` alone.
pub fn uses_of(alloc: Global, tables: &MemTableAccessor, queue: LogQueue) -> Result<FileUses> {
    let mut uses = BTreeMap::new(alloc);
    let mut tables = tables.tables()?;
    sort_by_region(&mut tables);
    for table in tables {
        add_table_uses(alloc, table, queue, &mut uses)?;
    }
    Ok(uses)
}

/// Adds to `uses` what one table needs of the files of `queue`: the bytes of its entries in each, and its region to its oldest file.
///
/// # Errors
///
/// `Memory` alone. Some of it may have been added then.
fn add_table_uses(
    alloc: Global,
    table: &MemTable,
    queue: LogQueue,
    uses: &mut FileUses,
) -> Result<()> {
    for block in table.blocks() {
        if block.handle.id.queue == queue {
            let mut live: u64 = 0;
            for span in &block.spans {
                live = live.saturating_add(u64::from(span.1));
            }
            add_live_bytes(alloc, block.handle.id, live, uses)?;
        }
    }
    if let Some(oldest) = table.min_file_seq(queue) {
        add_live_bytes(alloc, FileId::new(queue, oldest), 0, uses)?;
        if let Some(file_use) = uses.get_mut(&oldest) {
            file_use.regions.push(table.region_id())?;
        }
    }
    Ok(())
}

/// Adds `live` to the bytes of live entries in the file `id`, which gets an element of `uses` if it has none. The queue of `id` is ignored.
fn add_live_bytes(alloc: Global, id: FileId, live: u64, uses: &mut FileUses) -> Result<()> {
    match uses.get_mut(&id.seq) {
        Some(file_use) => file_use.live = file_use.live.saturating_add(live),
        None => {
            let regions = Vec::new(alloc);
            uses.insert(id.seq, FileUse { live, regions })?;
        }
    }
    Ok(())
}

/// Appends a line for each file of `sizes`: its length, a bar that shows how much of it is live entries, and the regions whose oldest file
/// it is. `uses` has what the tables need of the files of `queue`.
///
/// # Errors
///
/// Fails only if there is no memory. Some lines may then be appended.
pub fn append_uses(
    queue: LogQueue,
    sizes: &[FileSize],
    uses: &FileUses,
    text: &mut String,
) -> AllocResult<()> {
    for size in sizes {
        append_use_line(queue, size, uses.get(&size.seq), text)?;
    }
    Ok(())
}

/// Appends the line of one file of `queue`, with a line break: its name, its length, a bar that shows how much of it is live entries, and
/// the regions whose oldest file it is. `file_use` is what the tables need of the file, `None` if they need nothing of it.
///
/// # Errors
///
/// Fails only if there is no memory. A part of the line may then be appended.
fn append_use_line(
    queue: LogQueue,
    size: &FileSize,
    file_use: Option<&FileUse>,
    text: &mut String,
) -> AllocResult<()> {
    append_name_and_bar(queue, size, live_bytes_in(file_use), text)?;
    append_regions_of(file_use, text)?;
    text.push('\n')
}

/// Returns the number of bytes of live entries in a file; 0 for `None`.
pub(crate) fn live_bytes_in(file_use: Option<&FileUse>) -> u64
    ensures { result ≡ live_in (option_copied file_use.entry) }
{
    match file_use {
        Some(file_use) => file_use.live,
        None => 0,
    }
}

/// Appends the start of a file's line: its name, its length, a bar, and how many of its bytes are those of live entries.
fn append_name_and_bar(
    queue: LogQueue,
    size: &FileSize,
    live: u64,
    text: &mut String,
) -> AllocResult<()> {
    let name = queue_name(queue);
    write!(text, "{name:<7} {:>6} {:>12} B |", size.seq, size.len)?;
    let full = filled_parts(live, size.len, BAR_LEN);
    for at in 0..BAR_LEN {
        text.push(if at < full { '#' } else { ' ' })?;
    }
    let percent = filled_parts(live, size.len, 100);
    write!(text, "| {percent:>3} % live, {live} B of entries")
}

/// Returns how many of `parts` equal parts of `whole` are filled by `some`, rounded down and at most `parts`. Returns 0 if `whole` is 0.
pub(crate) fn filled_parts(some: u64, whole: u64, parts: u64) -> u64 {
    match some.saturating_mul(parts).checked_div(whole) {
        Some(share) => share.min(parts),
        None => 0,
    }
}

/// Appends the regions whose oldest file it is, with words in front of them; nothing for `None`, or if there are no such regions.
///
/// # Errors
///
/// Fails only if there is no memory. Some of the text may then be appended.
pub(crate) fn append_regions_of(file_use: Option<&FileUse>, text: &mut String) -> AllocResult<()> {
    match file_use {
        Some(file_use) => append_regions(file_use.regions.as_slice(), text),
        None => Ok(()),
    }
}

/// Appends words for the regions whose oldest file it is: at most ten of them by their ids, and how many more there are. Appends nothing
/// for no regions.
fn append_regions(regions: &[u64], text: &mut String) -> AllocResult<()> {
    if regions.is_empty() {
        return Ok(());
    }
    text.push_str(if regions.len() == 1 {
        "; the oldest file of region"
    } else {
        "; the oldest file of regions"
    })?;
    for region in regions.iter().take(NAMED_REGIONS) {
        write!(text, " {region}")?;
    }
    if regions.len() > NAMED_REGIONS {
        write!(
            text,
            " and {} more",
            regions.len().saturating_sub(NAMED_REGIONS)
        )?;
    }
    Ok(())
}
