//! Entries as plain data that crosses to C.

ghost use Rattle.std.specs.Prelude.{◌≡◌, map, IfOk, IfErr};
ghost use Rattle.raft_ffi.specs.Words.{AreEntriesIn, entry_of};

use crate::status::{is_rewrite_queue, to_queue};
use raft_base::{CompressionType, EntryIndex, Error, FileBlockHandle, FileId, Result};
use std::alloc::Global;

/// An entry with its place. Its entry bytes aren't compressed.
#[repr(C)]
#[derive(Clone, Copy)]
pub struct Entry {
    /// Its index.
    pub index: u64,
    /// The number of the file with its entry block.
    pub seq: u64,
    /// The offset of the entry block in the file.
    pub offset: u64,
    /// The length of the entry block in bytes.
    pub len: usize,
    /// Where the bytes of the entry begin in the entry bytes of the block.
    pub entry_offset: u32,
    /// How many bytes the entry has.
    pub entry_len: u32,
    /// Whether the file is of the rewrite queue.
    pub is_rewrite: bool,
    /// Whether it has a place: without one the numbers of its block say nothing.
    pub is_placed: bool,
}

/// Returns an entry as tables and batches take it.
pub(crate) fn entry_index(entry: &Entry) -> EntryIndex
    ensures { result ≡ entry_of entry.now }
{
    let place = FileBlockHandle {
        id: FileId::new(to_queue(entry.is_rewrite), entry.seq),
        offset: entry.offset,
        len: entry.len,
    };
    EntryIndex {
        index: entry.index,
        entries: if entry.is_placed { Some(place) } else { None },
        compression_type: CompressionType::None,
        entry_offset: entry.entry_offset,
        entry_len: entry.entry_len,
    }
}

/// Returns entries as tables and batches take them.
///
/// # Errors
///
/// `Memory` alone.
pub(crate) fn entry_indexes(alloc: Global, entries: &[Entry]) -> Result<Vec<EntryIndex>>
    ensures ok { IfOk result (λ v. v.items ≡ map entry_of entries.now) }
    ensures memory { IfErr result (λ e. e ≡ Error.Memory) }
{
    let mut found = Vec::with_capacity(alloc, entries.len())?;
    for entry in entries {
        found.push(entry_index(entry))?;
    }
    Ok(found)
}

/// Returns an entry as plain data. Without a place the numbers of its block are 0.
pub(crate) fn to_plain_entry(entry: &EntryIndex) -> Entry
    ensures { entry_of result ≡ entry.now }
{
    match entry.entries {
        Some(place) => Entry {
            index: entry.index,
            seq: place.id.seq,
            offset: place.offset,
            len: place.len,
            entry_offset: entry.entry_offset,
            entry_len: entry.entry_len,
            is_rewrite: is_rewrite_queue(place.id.queue),
            is_placed: true,
        },
        None => Entry {
            index: entry.index,
            seq: 0,
            offset: 0,
            len: 0,
            entry_offset: entry.entry_offset,
            entry_len: entry.entry_len,
            is_rewrite: false,
            is_placed: false,
        },
    }
}

/// Copies entries into `room` as plain data, as many as there is room for. Returns how many entries there are, which may be
/// more.
pub(crate) fn copy_entries(found: &[EntryIndex], room: &mut [Entry]) -> usize
    ensures { AreEntriesIn found.now room.old room.new result }
{
    let count = found.len().min(room.len());
    for k in 0..count {
        room[k] = to_plain_entry(&found[k]);
    }
    found.len()
}
