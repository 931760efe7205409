//! Batches, and what recovery has to give for them: the lines of their tables, the places of entries, the values of
//! keys, the files of groups, and how many items may wait.

use raft_base::{EntryIndex, FileBlockHandle, FileId, FileSeq, LogQueue, Result};
use raft_memtable::MemTableAccessor;
use raft_recover::recovered::recovered_text;
use std::alloc::Global;

/// The place of an entry of one byte: its region and its index, the number of its file, the offset and the length of
/// its block, and its offset within the block.
pub(crate) type Place = (u64, u64, FileSeq, u64, usize, u32);

/// A region, a key, and its value; `None` where the region must not have the key.
pub(crate) type Pair = (u64, &'static [u8], Option<&'static [u8]>);

/// A region, and the first and the last file of its last atomic group, if it has one.
pub(crate) type Group = (u64, Option<(FileSeq, FileSeq)>);

/// Batches of a queue, and what recovery has to give for them. A batch is the number of its file, and its bytes in
/// version 1, in base 16. Batches with the same number are in one file.
#[derive(Clone, Copy)]
pub(crate) struct Row {
    pub(crate) queue: LogQueue,
    pub(crate) batches: &'static [(FileSeq, &'static str)],
    /// The lines of their tables; `None` where they have to be refused as `Corruption`.
    pub(crate) lines: Option<&'static str>,
    /// The places of some entries, or of all.
    pub(crate) places: &'static [Place],
    pub(crate) pairs: &'static [Pair],
    pub(crate) groups: &'static [Group],
    /// How many items of groups may wait at most after the last batch.
    pub(crate) waiting: u128,
}

/// A row of the append queue, from which others take what they don't set themselves.
pub(crate) const APPEND: Row = Row {
    queue: LogQueue::Append,
    batches: &[],
    lines: None,
    places: &[],
    pairs: &[],
    groups: &[],
    waiting: 0,
};

/// A row of the rewrite queue, from which others take what they don't set themselves.
pub(crate) const REWRITE: Row = Row {
    queue: LogQueue::Rewrite,
    ..APPEND
};

impl Row {
    /// Tests whether tables have what the row expects: never, if it expects a refusal.
    pub(crate) fn is_met(&self, alloc: Global, tables: &MemTableAccessor) -> Result<bool> {
        let Some(lines) = self.lines else {
            return Ok(false);
        };
        let text = recovered_text(alloc, tables)?;
        Ok(text.as_str() == lines && self.has_places_values_and_groups(tables))
    }

    /// Tests whether tables have the places, values and groups of the row.
    fn has_places_values_and_groups(&self, tables: &MemTableAccessor) -> bool {
        let queue = self.queue;
        self.places
            .iter()
            .all(|place| is_placed(tables, queue, place))
            && self.pairs.iter().all(|pair| has_pair(tables, pair))
            && self.groups.iter().all(|group| has_group(tables, group))
    }
}

/// Tests whether an entry is at its place, in a file of a queue.
fn is_placed(tables: &MemTableAccessor, queue: LogQueue, place: &Place) -> bool {
    let (region, index, seq, offset, len, entry_offset) = *place;
    let entry = EntryIndex {
        index,
        entries: Some(FileBlockHandle {
            id: FileId::new(queue, seq),
            offset,
            len,
        }),
        entry_offset,
        entry_len: 1,
        ..EntryIndex::default()
    };
    match tables.get(region) {
        Some(table) => table.get_entry(index) == Some(entry),
        None => false,
    }
}

/// Tests whether a region's key has its value, or, without a value, isn't there.
fn has_pair(tables: &MemTableAccessor, pair: &Pair) -> bool {
    let (region, key, value) = *pair;
    match tables.get(region) {
        Some(table) => table.get(key) == value,
        None => false,
    }
}

/// Tests whether the last group of a region has its files.
fn has_group(tables: &MemTableAccessor, group: &Group) -> bool {
    let (region, files) = *group;
    match tables.get(region) {
        Some(table) => table.atomic_group() == files,
        None => false,
    }
}
