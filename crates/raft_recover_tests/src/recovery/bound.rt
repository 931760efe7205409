//! Computes what a context of some batches may hold, from the list of these batches.

use AtomicGroupStatus::{Begin, End};
use raft_base::{FileId, LogQueue, Result};
use raft_memtable::Kept;
use raft_records::{
    AtomicGroupStatus, Command, EntryIndex, KeyValue, LogItem, LogItemBatch, LogItemContent,
    OpType, is_reserved,
};
use std::alloc::Global;

/// A group marker: the group of a batch, and its place in it.
#[derive(Clone, Copy, Debug)]
struct Marker {
    group: u64,
    status: AtomicGroupStatus,
}

/// A batch in a file, and its group marker.
#[derive(Debug, Drop)]
pub(crate) struct Written {
    pub(crate) batch: LogItemBatch,
    pub(crate) file: FileId,
    marker: Option<Marker>,
}

/// Returns the first group marker of a batch. The append queue has none.
fn marker_of(alloc: Global, batch: &LogItemBatch, queue: LogQueue) -> Result<Option<Marker>> {
    if queue == LogQueue::Append {
        return Ok(None);
    }
    for item in batch.iter() {
        if let Some((group, status)) = AtomicGroupStatus::parse(alloc, item)? {
            return Ok(Some(Marker { group, status }));
        }
    }
    Ok(None)
}

/// Tests whether an item changes the group markers' key.
fn is_skipped(item: &LogItem) -> bool {
    match &item.content {
        LogItemContent::Kv(kv) => is_reserved(kv.key.as_slice()),
        _ => false,
    }
}

impl Written {
    /// Returns a batch as it was written to a file, with its group marker.
    pub(crate) fn new(alloc: Global, batch: LogItemBatch, file: FileId) -> Result<Written> {
        let marker = marker_of(alloc, &batch, file.queue)?;
        Ok(Written {
            batch,
            file,
            marker,
        })
    }

    /// Returns the group that the batch belongs to; `None` where it has no group marker.
    fn group(&self) -> Option<u64> {
        match self.marker {
            Some(marker) => Some(marker.group),
            None => None,
        }
    }

    /// Returns the batch's status in a group; `None` where it doesn't belong to it.
    fn status_in(&self, group: u64) -> Option<AtomicGroupStatus> {
        match self.marker {
            Some(marker) if marker.group == group => Some(marker.status),
            _ => None,
        }
    }

    /// Returns how many items the batch has, without group markers.
    fn len(&self) -> u128 {
        let mut count = 0u128;
        for item in self.batch.iter() {
            if !is_skipped(item) {
                count = count.saturating_add(1);
            }
        }
        count
    }
}

/// An entry of a region.
#[derive(Clone, Copy, PartialEq, Eq, Debug)]
struct Entry {
    region: u64,
    index: u64,
}

/// A key of a region.
#[derive(Clone, Copy, PartialEq, Eq, Debug)]
struct Key<'a> {
    region: u64,
    key: &'a [u8],
}

/// The result of one reading of batches, in plain lists: the entries and keys that there are, the keys that were
/// deleted since the last `Clean` of their region, the regions that were named, and how many were cleaned.
#[derive(Drop)]
struct Reading<'a> {
    entries: Vec<Entry>,
    keys: Vec<Key<'a>>,
    deleted: Vec<Key<'a>>,
    regions: Vec<u64>,
    cleaned: u128,
}

impl<'a> Reading<'a> {
    /// Returns the result of reading batches in order. A run that leaves a hole is read as in the rewrite queue, where
    /// it replaces all entries; the append queue refuses it.
    fn of_batches(alloc: Global, batches: &'a [Written]) -> Result<Reading<'a>> {
        let mut reading = Reading {
            entries: Vec::new(alloc),
            keys: Vec::new(alloc),
            deleted: Vec::new(alloc),
            regions: Vec::new(alloc),
            cleaned: 0,
        };
        for end in 1..=batches.len() {
            reading.take_effect(&batches[..end])?;
        }
        Ok(reading)
    }

    /// Applies what takes effect with the last of the batches.
    fn take_effect(&mut self, batches: &'a [Written]) -> Result<()> {
        let (Some(last), Some(first)) = (batches.last(), first_taking_effect(batches)) else {
            return Ok(());
        };
        for written in batches.iter().skip(first) {
            if written.group() == last.group() {
                self.take_items(&written.batch)?;
            }
        }
        Ok(())
    }

    /// Applies the items of a batch, but for group markers.
    fn take_items(&mut self, batch: &'a LogItemBatch) -> Result<()> {
        for item in batch.iter() {
            if !is_skipped(item) {
                self.take_item(item)?;
            }
        }
        Ok(())
    }

    /// Applies an item.
    fn take_item(&mut self, item: &'a LogItem) -> Result<()> {
        let region = item.raft_group_id;
        if !self.regions.contains(&region) {
            self.regions.push(region)?;
        }
        match &item.content {
            LogItemContent::EntryIndexes(run) => self.put_run(region, run.0.as_slice()),
            LogItemContent::Command(Command::Compact { index }) => {
                self.compact(region, *index);
                Ok(())
            }
            LogItemContent::Command(Command::Truncate { index }) => {
                self.truncate(region, *index);
                Ok(())
            }
            LogItemContent::Command(Command::Clean) => {
                self.clean(region);
                Ok(())
            }
            LogItemContent::Kv(kv) => self.take_pair(region, kv),
        }
    }

    /// Removes the region's entries below an index.
    fn compact(&mut self, region: u64, index: u64) {
        self.entries
            .retain(|e| e.region != region || e.index >= index);
    }

    /// Removes the region's entries from an index on.
    fn truncate(&mut self, region: u64, index: u64) {
        self.entries
            .retain(|e| e.region != region || e.index < index);
    }

    /// Removes the region's entries and keys, and counts the cleaning.
    fn clean(&mut self, region: u64) {
        self.entries.retain(|e| e.region != region);
        self.keys.retain(|k| k.region != region);
        self.deleted.retain(|k| k.region != region);
        self.cleaned = self.cleaned.saturating_add(1);
    }

    /// Tests whether a run from this index on leaves a hole after the region's entries.
    fn leaves_hole(&self, region: u64, start: u64) -> bool {
        let mut hole = false;
        for entry in &self.entries {
            if entry.region == region {
                hole = entry.index.saturating_add(1) < start;
            }
        }
        hole
    }

    /// Puts a run in place of the region's entries from its start on, or of all, if it leaves a hole behind them.
    fn put_run(&mut self, region: u64, run: &[EntryIndex]) -> Result<()> {
        let Some(first) = run.first() else {
            return Ok(());
        };
        let start = first.index;
        let hole = self.leaves_hole(region, start);
        self.entries
            .retain(|e| e.region != region || (!hole && e.index < start));
        for entry in run {
            self.entries.push(Entry {
                region,
                index: entry.index,
            })?;
        }
        Ok(())
    }

    /// Puts a key, or removes it and notes that it is deleted.
    fn take_pair(&mut self, region: u64, kv: &'a KeyValue) -> Result<()> {
        let key = Key {
            region,
            key: kv.key.as_slice(),
        };
        self.keys.retain(|k| *k != key);
        if kv.op_type == OpType::Put {
            self.keys.push(key)?;
            return Ok(());
        }
        self.deleted.retain(|k| *k != key);
        self.deleted.push(key)?;
        Ok(())
    }
}

/// Returns the position of the first batch that takes effect with the last one; `None` where nothing takes effect.
fn first_taking_effect(batches: &[Written]) -> Option<usize> {
    let (last, before) = batches.split_last()?;
    match last.marker {
        None => Some(before.len()),
        Some(marker) if marker.status == End => open_begin_of_group(before, marker.group),
        Some(_) => None,
    }
}

/// Returns the position at which a group begins that is still open after the batches; `None` where it isn't open.
fn open_begin_of_group(batches: &[Written], group: u64) -> Option<usize> {
    let mut at = batches.len();
    for written in batches.iter().rev() {
        at = at.saturating_sub(1);
        match written.status_in(group) {
            Some(Begin) => return Some(at),
            Some(End) => return None,
            _ => {}
        }
    }
    None
}

/// Returns how many items of a group come before its first `End`, that one included, or in all batches, if there is
/// none; 0 if a `Begin` comes before.
fn count_items_before_end(batches: &[Written], group: u64) -> u128 {
    let mut count = 0u128;
    for written in batches {
        let status = written.status_in(group);
        if status == Some(Begin) {
            return 0;
        }
        if status.is_some() {
            count = count.saturating_add(written.len());
        }
        if status == Some(End) {
            return count;
        }
    }
    count
}

/// Returns how many items a group has that is still open after the batches; 0 where it isn't open.
fn count_items_of_open_group(batches: &[Written], group: u64) -> u128 {
    let Some(first) = open_begin_of_group(batches, group) else {
        return 0;
    };
    let mut count = 0u128;
    for written in batches.iter().skip(first) {
        if written.group() == Some(group) {
            count = count.saturating_add(written.len());
        }
    }
    count
}

/// Returns the groups that have a group marker, each once.
fn groups_with_markers(alloc: Global, batches: &[Written]) -> Result<Vec<u64>> {
    let mut groups = Vec::new(alloc);
    for written in batches {
        if let Some(group) = written.group() {
            if !groups.contains(&group) {
                groups.push(group)?;
            }
        }
    }
    Ok(groups)
}

/// Returns what a context of these batches may hold.
pub(crate) fn bound_of_batches(alloc: Global, batches: &[Written]) -> Result<Kept> {
    let reading = Reading::of_batches(alloc, batches)?;
    let groups = groups_with_markers(alloc, batches)?;
    let mut waiting_items = 0u128;
    for group in &groups {
        let waiting = count_items_before_end(batches, *group).saturating_add(
            count_items_of_open_group(batches, *group),
        );
        waiting_items = waiting_items.saturating_add(waiting);
    }
    Ok(Kept {
        entries: reading.entries.len() as u128,
        keys: reading.keys.len() as u128,
        marks: reading.regions.len() as u128 + groups.len() as u128,
        deleted_keys: reading.deleted.len() as u128,
        cleaned: reading.cleaned,
        waiting_items,
    })
}

/// Tests whether a context holds just the entries and key values that it should, and of all else no more than it may.
pub(crate) fn is_within(kept: Kept, bound: Kept) -> bool {
    kept.entries == bound.entries
        && kept.keys == bound.keys
        && kept.marks <= bound.marks
        && kept.deleted_keys <= bound.deleted_keys
        && kept.cleaned == bound.cleaned
        && kept.waiting_items <= bound.waiting_items
}
