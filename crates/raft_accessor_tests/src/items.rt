//! Items of several regions, and the errors of calls.

use raft_memtable::{EntryIndex, Error, FileBlockHandle, FileId, LogQueue, Result};
use raft_records::{Command, LogItem, LogItemContent, OpType};
use std::alloc::Global;

pub(crate) const NEW: FileId = FileId {
    queue: LogQueue::Append,
    seq: 1,
};

pub(crate) const NEWER: FileId = FileId {
    queue: LogQueue::Append,
    seq: 2,
};

/// A rewrite file numbered above each file to which a key is rewritten, so that those show as the oldest.
pub(crate) const REWRITTEN: FileId = FileId {
    queue: LogQueue::Rewrite,
    seq: 70,
};

/// An item of a region.
#[derive(Clone, Copy)]
pub(crate) enum Item {
    /// Entries from an index to below another, in a file.
    Entries(u64, u64, u64, FileId),
    /// Entries of a region with these indexes, without places.
    Run(u64, &'static [u64]),
    /// A key that is put, whether it has a value, and its file.
    Put(u64, &'static [u8], bool, Option<FileId>),
    /// The eight bytes of the region's number as a key that is put, in a file.
    PutOwnKey(u64, FileId),
    Delete(u64, &'static [u8]),
    Compact(u64, u64),
    Truncate(u64, u64),
    Clean(u64),
}

/// Returns entries from `start` on and below `end`, each of them another byte of one block of `file`.
///
/// # Errors
///
/// `Memory` alone.
pub(crate) fn new_run(
    alloc: Global,
    start: u64,
    end: u64,
    file: FileId,
) -> Result<Vec<EntryIndex>> {
    let mut run = Vec::new(alloc);
    for index in start..end {
        run.push(EntryIndex {
            index,
            entries: Some(FileBlockHandle {
                id: file,
                offset: 0,
                len: 100,
            }),
            entry_offset: (index % 100) as u32,
            entry_len: 1,
            ..EntryIndex::default()
        })?;
    }
    Ok(run)
}

/// Returns entries with these indexes, without places.
///
/// # Errors
///
/// `Memory` alone.
pub(crate) fn entries_without_places(alloc: Global, indexes: &[u64]) -> Result<Vec<EntryIndex>> {
    let mut run = Vec::new(alloc);
    for &index in indexes {
        run.push(EntryIndex {
            index,
            entry_len: 1,
            ..EntryIndex::default()
        })?;
    }
    Ok(run)
}

/// Returns an item that puts a key, with a value or without, in a file.
///
/// # Errors
///
/// `Memory` alone.
fn put_item(
    alloc: Global,
    region: u64,
    key: &[u8],
    has_value: bool,
    file: Option<FileId>,
) -> Result<LogItem> {
    let mut value = None;
    if has_value {
        value = Some(Vec::from_slice(alloc, b"v".as_slice())?);
    }
    let key = Vec::from_slice(alloc, key)?;
    let mut item = LogItem::new_kv(region, OpType::Put, key, value);
    if let LogItemContent::Kv(kv) = &mut item.content {
        kv.file_id = file;
    }
    Ok(item)
}

/// Returns the log item that an item of a list describes.
///
/// # Errors
///
/// `Memory` alone.
fn to_log_item(alloc: Global, item: Item) -> Result<LogItem> {
    Ok(match item {
        Item::Entries(region, start, end, file) => {
            LogItem::new_entry_indexes(region, new_run(alloc, start, end, file)?)
        }
        Item::Run(region, indexes) => {
            LogItem::new_entry_indexes(region, entries_without_places(alloc, indexes)?)
        }
        Item::Put(region, key, has_value, file) => put_item(alloc, region, key, has_value, file)?,
        Item::PutOwnKey(region, file) => {
            put_item(alloc, region, &region.to_be_bytes(), true, Some(file))?
        }
        Item::Delete(region, key) => {
            LogItem::new_kv(region, OpType::Del, Vec::from_slice(alloc, key)?, None)
        }
        Item::Compact(region, index) => LogItem::new_command(region, Command::Compact { index }),
        Item::Truncate(region, index) => LogItem::new_command(region, Command::Truncate { index }),
        Item::Clean(region) => LogItem::new_command(region, Command::Clean),
    })
}

/// Returns the log items that a list describes.
///
/// # Errors
///
/// `Memory` alone.
pub(crate) fn to_log_items(alloc: Global, given: &[Item]) -> Result<Vec<LogItem>> {
    let mut items = Vec::new(alloc);
    for &one in given {
        items.push(to_log_item(alloc, one)?)?;
    }
    Ok(items)
}

/// The kind of error with which a call is refused.
#[derive(Clone, Copy, PartialEq)]
pub(crate) enum Fault {
    Corruption,
    InvalidArgument,
}

/// Returns what a call returned: its result, or its fault.
///
/// # Errors
///
/// That of the call, unless it is a [`Fault`].
pub(crate) fn result_or_fault<X: Drop>(given: Result<X>) -> Result<std::result::Result<X, Fault>> {
    match given {
        Ok(answer) => Ok(Ok(answer)),
        Err(Error::Corruption(_)) => Ok(Err(Fault::Corruption)),
        Err(Error::InvalidArgument(_)) => Ok(Err(Fault::InvalidArgument)),
        Err(other) => Err(other),
    }
}
