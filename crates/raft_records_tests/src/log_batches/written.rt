//! Tests batches that are signed for files and written, and the places of their items.

use super::{append_file_context, batch_with_each_kind_of_item, read_back};
use raft_records::{
    Command, CompressionType, Error, FileBlockHandle, FileId, LogItem, LogItemContent, LogQueue,
    ReactiveBytes, Result, Version,
};
use raft_trials::again;
use std::alloc::Global;

/// Tests whether the items of a log batch with these entry bytes are read from its bytes, as a batch of append file
/// `seq`.
///
/// # Errors
///
/// Those of reading the header and the block; that of reading the items, unless it is `Corruption`.
fn are_items_read(alloc: Global, bytes: &[u8], seq: u64, entry_bytes: &[u8]) -> Result<bool> {
    let Some((_offset, entries, items)) = read_back(
        alloc,
        bytes,
        &append_file_context(seq, Version::V2),
    )?
    else {
        return Ok(false);
    };
    match items {
        Ok(items) => Ok(entries.as_slice() == entry_bytes && !items.into_items().is_empty()),
        Err(Error::Corruption(_text)) => Ok(false),
        Err(e) => Err(e),
    }
}

/// Tests whether a batch that is signed for three files, one after the other, is read each time as one of that file
/// alone.
///
/// # Errors
///
/// Those of making the batch, and of [`are_items_read`].
fn is_read_where_signed(alloc: Global) -> Result<bool> {
    let mut batch = batch_with_each_kind_of_item(alloc)?;
    batch.finish_populate()?;
    let mut same = true;
    for &seq in &[12, 18, 2001] {
        if !batch.ready() {
            return Ok(false);
        }
        let bytes = batch.as_bytes(&append_file_context(seq, Version::V2));
        for &reader in &[12, 18, 2001] {
            same &= are_items_read(alloc, bytes, reader, b"abc")? == (seq == reader);
        }
    }
    Ok(same)
}

/// Tests that a batch that is signed for three files in turn is read each time in that file alone.
#[test]
fn a_batch_is_read_in_the_file_of_its_last_signing(rt: HostRuntime) {
    assert!(rt; matches!(again!(is_read_where_signed(rt.alloc())), Ok(true)));
}

/// Tests whether an item has its place: each of its three entries, which are in the block at `handle`, or its key
/// value, which is in the file of that block. A command has none.
fn has_place_of_write(item: &LogItem, handle: FileBlockHandle) -> bool {
    match &item.content {
        LogItemContent::EntryIndexes(entries) => {
            let compression_type = CompressionType::None;
            let mut placed = entries.0.len() == 3;
            for (entry, (entry_offset, entry_len)) in entries
                .0
                .iter()
                .zip(&[(0, 2), (2, 0), (2, 1)])
            {
                placed &= entry.entries == Some(handle)
                    && entry.compression_type == compression_type
                    && (entry.entry_offset, entry.entry_len) == (*entry_offset, *entry_len);
            }
            placed
        }
        LogItemContent::Command(_) => true,
        LogItemContent::Kv(kv) => kv.file_id == Some(handle.id),
    }
}

/// What holds of a batch that was written to file 12 at offset 64, once its items were taken out.
#[derive(Drop)]
struct Drained {
    /// How many of the items have their places in that file.
    placed: usize,
    /// Whether the batch is open and empty.
    is_empty: bool,
    /// How many bytes it has once a command is added.
    len_with_command: usize,
}

/// Writes a batch to file 12, and takes its items out.
///
/// # Errors
///
/// Those of the batch's calls; `Memory`.
fn write_and_drain(alloc: Global) -> Result<Drained> {
    let mut batch = batch_with_each_kind_of_item(alloc)?;
    let len = batch.finish_populate()?;
    let id = FileId::new(LogQueue::Append, 12);
    batch.prepare_write(&append_file_context(12, Version::V2));
    batch.finish_write(FileBlockHandle {
        id,
        offset: 64,
        len,
    });
    let place = FileBlockHandle {
        id,
        offset: 80,
        len: 7,
    };
    let mut placed = 0usize;
    for item in batch.drain() {
        if has_place_of_write(&item, place) {
            placed = placed.saturating_add(1);
        }
    }
    let is_empty = batch.is_open() && batch.is_empty() && batch.approximate_size() == 0;
    batch.add_command(1, Command::Clean)?;
    Ok(Drained {
        placed,
        is_empty,
        len_with_command: batch.finish_populate()?,
    })
}

/// Tests that the items of a written batch have their places, and that the batch is empty once they are taken out.
#[test]
fn items_have_places_after_a_write(rt: HostRuntime) {
    let answer = again!(write_and_drain(rt.alloc()));
    let drained = answer.unwrap_or(Drained {
        placed: 0,
        is_empty: false,
        len_with_command: 0,
    });
    assert!(rt; drained.placed == 6 && drained.is_empty && drained.len_with_command == 24);
}
