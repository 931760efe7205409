//! How the changes of a region are chosen, in histories that are written down and in random ones.

use raft_base::{FileId, LogFileContext, LogQueue, Result, Version};
use raft_records::LogBatch;
use raft_samples::{Change, Dice, Proposal, Records, draw_entries_between};
use std::alloc::Global;

/// How a change is chosen.
#[derive(Clone, Copy)]
pub(crate) enum Choice {
    /// Any change that the region may have.
    Any,
    /// Entries in place of all of the region or of all but the first one, and a compaction to their end.
    Replacement,
    /// An entry of so many bytes after the region's last one or, if the region has four or more entries, a
    /// compaction.
    Long(usize),
    /// Entries from the first index on and below the second.
    Entries(u64, u64),
    /// An entry at this index, whose bytes are those of a sound batch in this version.
    SoundBatch(u64, Version),
    /// A value of the key `k`.
    Put(&'static str),
    /// A deletion of the key `k`.
    Delete,
    /// A compaction to this index.
    Compact(u64),
    /// A truncation at this index.
    Truncate(u64),
    /// A clean of the region.
    Clean,
}

impl Choice {
    /// Returns the change to write to a region that has `records`. What this choice leaves open, such as the
    /// bytes of entries, is drawn by `dice`.
    ///
    /// # Errors
    ///
    /// `Memory` alone.
    pub(crate) fn draw_change(
        self,
        alloc: Global,
        dice: &mut Dice,
        records: &Records,
    ) -> Result<Change> {
        Ok(match self {
            Choice::Any => Change::draw_any(alloc, dice, records)?,
            Choice::Replacement => Change::draw_replacement(alloc, dice, records)?,
            Choice::Long(len) => draw_long_change(alloc, dice, records, len)?,
            Choice::Entries(first, end) => {
                Change::Append(draw_entries_between(alloc, dice, first, end)?)
            }
            Choice::SoundBatch(index, version) => append_of_one_entry(
                index,
                sound_batch_bytes(alloc, version)?,
            )?,
            Choice::Put(value) => {
                let value = Vec::from_slice(alloc, value.as_bytes())?;
                Change::Put(Vec::from_slice(alloc, b"k")?, value)
            }
            Choice::Delete => Change::Delete(Vec::from_slice(alloc, b"k")?),
            Choice::Compact(index) => Change::Compact(index),
            Choice::Truncate(index) => Change::Truncate(index),
            Choice::Clean => Change::Clean,
        })
    }
}

/// Returns the change that appends an entry of `len` bytes to `records` or, if there are four entries or
/// more, the compaction to the last one. So few long entries are kept.
///
/// # Errors
///
/// `Memory` alone.
fn draw_long_change(
    alloc: Global,
    dice: &mut Dice,
    records: &Records,
    len: usize,
) -> Result<Change> {
    let end = records.end_index();
    if records.entries.len() > 3 {
        return Ok(Change::Compact(end.saturating_sub(1)));
    }
    append_of_one_entry(end, vec![in alloc; dice.draw_letter(); len]?)
}

/// Returns the change that appends one entry with the index `index` and the bytes `text`.
///
/// # Errors
///
/// `Memory` alone.
fn append_of_one_entry(index: u64, text: Vec<u8>) -> Result<Change> {
    let alloc = *text.allocator();
    Ok(Change::Append(vec![in alloc; Proposal { index, text }]?))
}

/// Returns the bytes of a batch of this `version` that puts one value under the key `k` of region 1, signed
/// for append file 1. An entry with these bytes must not be taken for a batch.
///
/// # Errors
///
/// `Memory` alone.
fn sound_batch_bytes(alloc: Global, version: Version) -> Result<Vec<u8>> {
    let mut batch = LogBatch::default(alloc);
    batch.put(
        1,
        Vec::from_slice(alloc, b"k")?,
        Vec::from_slice(alloc, b"sound")?,
    )?;
    batch.finish_populate()?;
    batch.prepare_write(&LogFileContext::new(FileId::new(LogQueue::Append, 1), version));
    Ok(Vec::from_slice(alloc, batch.encoded_bytes())?)
}
