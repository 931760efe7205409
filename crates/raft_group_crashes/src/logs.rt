//! Reads the batches that the log files of a folder hold.

ghost use Rattle.std.specs.Prelude.{◌≤◌, length};

use crate::folder_pipe::{Disk, FolderPipe};
use raft_base::{Error, LogQueue, Result};
use raft_memtable::{MemTable, MemTableAccessor};
use raft_records::{
    AtomicGroupStatus, Command, EntryIndexes, FilePart, LogBatch, LogItem, LogItemBatch,
    LogItemContent, OpType, next_batch, readable_front,
};
use raft_recover::Segment;
use std::alloc::Global;

/// The files of both queues, each file as a segment.
#[derive(Drop)]
pub(crate) struct Logs {
    /// Those of the append queue, in order.
    pub(crate) append: Vec<Segment>,
    /// Those of the rewrite queue, in order.
    pub(crate) rewrite: Vec<Segment>,
}

impl Logs {
    /// Reads all files of both queues of `pipe`. A torn tail of the last file of a queue, the bytes of a
    /// batch that wasn't written to its end, is cut off, on the disk too.
    ///
    /// # Errors
    ///
    /// `Io` for a file; `Memory`.
    pub(crate) fn read<R: Disk>(alloc: Global, pipe: &FolderPipe<'_, R>) -> Result<Logs> {
        Ok(Logs {
            append: read_segments(alloc, pipe, LogQueue::Append)?,
            rewrite: read_segments(alloc, pipe, LogQueue::Rewrite)?,
        })
    }

    /// Returns what the batches of the append queue take away, in order, as items: their compactions,
    /// truncations and deletions, and for each run the truncation at its first index.
    ///
    /// # Errors
    ///
    /// Those of [`next_batch`]; `Memory`.
    pub(crate) fn collect_tombstones(&self, alloc: Global) -> Result<Vec<LogItem>> {
        let mut tombstones = Vec::new(alloc);
        for part in self.append.iter().flatten() {
            for (batch, _) in &read_batches(alloc, part)? {
                push_tombstones(&mut tombstones, batch.iter().as_slice(), None)?;
            }
        }
        Ok(tombstones)
    }

    /// Returns the greatest number of an atomic group in the rewrite queue, or 0 if there is none.
    ///
    /// # Errors
    ///
    /// Those of [`next_batch`]; `Corruption` for a group marker with an unknown status; `Memory`.
    pub(crate) fn last_group_number(&self, alloc: Global) -> Result<u64> {
        let mut last = 0;
        for part in self.rewrite.iter().flatten() {
            for (batch, _) in &read_batches(alloc, part)? {
                for item in batch.iter() {
                    if let Some((group, _)) = AtomicGroupStatus::parse(alloc, item)? {
                        last = group.max(last);
                    }
                }
            }
        }
        Ok(last)
    }
}

/// Appends what `items` take away to `tombstones`: compactions, truncations and deletions as they are, and
/// for each run the truncation at its first index. With `tables`, which don't have the items yet, a run is
/// left out that begins at or after the end of its region's entries there, and so takes nothing away. Cleans
/// are left out, as the tables list those regions.
///
/// # Errors
///
/// `Memory` alone. Some of them may have been appended then.
pub(crate) fn push_tombstones(
    tombstones: &mut Vec<LogItem>,
    items: &[LogItem],
    tables: Option<&MemTableAccessor>,
) -> Result<()> {
    for item in items {
        let region = item.raft_group_id;
        match &item.content {
            LogItemContent::Command(Command::Clean) => {}
            LogItemContent::Command(_) => tombstones.push(item.clone()?)?,
            LogItemContent::Kv(pair) if pair.op_type == OpType::Put => {}
            LogItemContent::Kv(_) => tombstones.push(item.clone()?)?,
            LogItemContent::EntryIndexes(run) => {
                if let Some(index) = first_overwritten(region, run, tables) {
                    tombstones.push(LogItem::new_command(region, Command::Truncate { index }))?;
                }
            }
        }
    }
    Ok(())
}

/// Returns the first index of `run` if the run replaces entries of `region`: if the region's entries in
/// `tables` end after that index, or if there are no `tables` to tell. Returns `None` otherwise, and for a
/// run without entries.
fn first_overwritten(
    region: u64,
    run: &EntryIndexes,
    tables: Option<&MemTableAccessor>,
) -> Option<u64> {
    let first = run.0.first()?.index;
    let Some(tables) = tables else {
        return Some(first);
    };
    let end = tables.get(region).map(|table: &MemTable| table.end());
    if first < end.unwrap_or(0) {
        Some(first)
    } else {
        None
    }
}

/// Returns the files of `queue`, each as a segment. A torn tail of the last one is cut off, on the disk too.
///
/// # Errors
///
/// `Io` for a file; `Memory`.
fn read_segments<R: Disk>(
    alloc: Global,
    pipe: &FolderPipe<'_, R>,
    queue: LogQueue,
) -> Result<Vec<Segment>> {
    let mut files = pipe.read_files(queue)?;
    if let Some(last) = files.last_mut() {
        cut_torn_tail(pipe, last)?;
    }
    let mut segments = Vec::new(alloc);
    for file in files {
        segments.push(vec![in alloc; file]?)?;
    }
    Ok(segments)
}

/// Cuts `file`, the last one of a queue, where its readable batches end, on the disk too. If a readable batch
/// follows an unreadable one, the file is damaged, and left as it is: a recovery refuses it.
///
/// # Errors
///
/// `Memory`; those of the system.
fn cut_torn_tail<R: Disk>(pipe: &FolderPipe<'_, R>, file: &mut FilePart) -> Result<()> {
    match readable_front(file) {
        (_, None) => Ok(()),
        (_, Some(Error::Memory)) => Err(Error::Memory),
        (end, Some(_)) => {
            if is_damaged(file, end)? {
                return Ok(());
            }
            let torn = file.split_off(end)?;
            pipe.cut_file(torn.id(), torn.offset())
        }
    }
}

/// Tests whether a readable batch follows the unreadable one at position `at` of `file`, at the place where
/// the header of the latter says that it ends.
///
/// # Errors
///
/// `Memory` alone.
fn is_damaged(file: &FilePart, at: usize) -> Result<bool>
    requires { at ≤ length file.now.bytes }
{
    let (_, mut bytes) = file.bytes().split_at(at);
    let Ok((_, _, len)) = LogBatch::decode_header(file.allocator(), &mut bytes) else {
        return Ok(false);
    };
    let end = at.saturating_add(len);
    if end >= file.bytes().len() {
        return Ok(false);
    }
    match next_batch(file, end) {
        Ok(_) => Ok(true),
        Err(Error::Memory) => Err(Error::Memory),
        Err(_) => Ok(false),
    }
}

/// Returns the batches of `part`, each with the position in the part at which the next one begins.
///
/// # Errors
///
/// Those of [`next_batch`]; `Memory`.
pub(crate) fn read_batches(alloc: Global, part: &FilePart) -> Result<Vec<(LogItemBatch, usize)>> {
    let mut batches = Vec::new(alloc);
    let mut at = 0;
    while let Some((batch, behind)) = next_batch(part, at)? {
        batches.push((batch, behind))?;
        at = behind;
    }
    Ok(batches)
}
