//! Times log batches: how fast their bytes are made and signed, and how fast their items are read again.

use crate::timing::{Noise, best_times, print_time_and_speed, time_work};
use raft_records::codec::BytesSlice;
use raft_records::{
    Command, FileBlockHandle, FileId, LogBatch, LogFileContext, LogItemBatch, LogQueue, Message,
    MessageError, MessageExt, Result, Version,
};
use std::alloc::Global;

/// How many bytes each entry has.
const ENTRY_SIZE: usize = 256;

/// An entry whose message is its bytes.
#[derive(Clone, Copy, PartialEq, Debug)]
struct Entry {
    index: u64,
    bytes: [u8; ENTRY_SIZE],
}

impl Message for Entry {
    ghost bytes_of = { λ entry. entry.bytes };

    ghost refuses = { λ entry code. ⊥ };

    /// Appends the bytes of the entry to `buf`.
    ///
    /// # Errors
    ///
    /// `Memory` alone. `buf` is unchanged then.
    fn write_to_vec(&self, buf: &mut Vec<u8>) -> std::result::Result<(), MessageError> {
        match buf.extend_from_slice(self.bytes.as_slice()) {
            Ok(()) => Ok(()),
            Err(_) => Err(MessageError::Memory),
        }
    }
}

/// The kind of entries that the batches have: each is an [`Entry`].
struct Entries;

impl MessageExt for Entries {
    type Entry = Entry;

    ghost index_of = { λ entry. entry.index };

    /// Returns the index of `entry` in its log.
    fn index(entry: &Entry) -> u64 {
        entry.index
    }
}

/// How many batches are timed, and what is in each. Each region adds entries, each fourth one a key value
/// too, each eighth one a command.
#[derive(Clone, Copy)]
struct Shape {
    /// How many batches there are.
    batches: u64,
    /// How many regions each batch has.
    regions: u64,
    /// How many entries each region adds.
    entries: u64,
}

/// Times small batches, as a store of many groups writes them, and larger ones, and prints two lines for each
/// shape.
///
/// # Errors
///
/// `Memory`; `Io` for the clock or the output; those of the batches.
pub(crate) fn time_batches(rt: &HostRuntime) -> Result<()> {
    let shapes = [
        Shape {
            batches: 2_000,
            regions: 8,
            entries: 8,
        },
        Shape {
            batches: 20,
            regions: 728,
            entries: 8,
        },
        Shape {
            batches: 1,
            regions: 10_000,
            entries: 6,
        },
    ];
    for shape in &shapes {
        let encoded = time_writing(rt, *shape)?;
        time_reading(rt, encoded.as_slice())?;
    }
    Ok(())
}

/// Returns the file for which the batches are signed.
fn signing_context() -> LogFileContext {
    LogFileContext::new(FileId::new(LogQueue::Append, 12), Version::V2)
}

/// Times how long it takes to make and sign the bytes of batches of this `shape`, and prints a line. Returns
/// the bytes of each batch.
///
/// # Errors
///
/// `Memory`; `Io` for the clock or the output; those of the batches.
fn time_writing(rt: &HostRuntime, shape: Shape) -> Result<Vec<Vec<u8>>> {
    let messages = new_region_entries(rt.alloc(), shape.entries)?;
    let (best, encoded) = best_times(|| write_batches(rt, shape, messages.as_slice()))?;
    print_time_and_speed(
        rt,
        "finish_populate, prepare_write",
        best,
        "batch",
        encoded.len(),
        total_length(encoded.as_slice()),
    )?;
    Ok(encoded)
}

/// Makes and signs the bytes of batches of this `shape`, whose entries are `messages`. Returns how many
/// nanoseconds that takes, without the filling of the batches, and the bytes of each batch.
///
/// # Errors
///
/// `Memory`; `Io` for the clock; those of the batches.
fn write_batches(
    rt: &HostRuntime,
    shape: Shape,
    messages: &[Entry],
) -> Result<(u64, Vec<Vec<u8>>)> {
    let mut batches = fill_batches(rt.alloc(), shape, messages)?;
    let (taken, sealed) = time_work(rt, || seal_batches(&mut batches))?;
    sealed?;
    Ok((taken, copy_sealed_bytes(rt.alloc(), batches.as_slice())?))
}

/// Times how long it takes to read the items of the batches whose bytes are `encoded`, and prints a line.
///
/// # Errors
///
/// `Memory`; `Io` for the clock or the output; those of [`decode_batches`].
fn time_reading(rt: &HostRuntime, encoded: &[Vec<u8>]) -> Result<()> {
    let (best, (items, bytes)) = best_times(|| -> Result<_> {
        let (taken, decoded) = time_work(rt, || decode_batches(rt.alloc(), encoded))?;
        Ok((taken, decoded?))
    })?;
    print_time_and_speed(
        rt,
        "decode_header, LogItemBatch::decode",
        best,
        "item",
        items,
        bytes,
    )?;
    Ok(())
}

/// Returns the entries that each region adds to a batch: `count` of 256 bytes, with the indexes from 0 on.
///
/// # Errors
///
/// `Memory` alone.
fn new_region_entries(alloc: Global, count: u64) -> Result<Vec<Entry>> {
    let mut noise = Noise::new();
    let mut messages = Vec::new(alloc);
    for index in 0..count {
        let mut bytes = [0; ENTRY_SIZE];
        for byte in &mut bytes {
            *byte = noise.next_byte();
        }
        messages.push(Entry { index, bytes })?;
    }
    Ok(messages)
}

/// Returns open batches of this `shape`, to each of which each region adds the entries `messages`.
///
/// # Errors
///
/// Those of [`add_region_records`]; `Memory`.
fn fill_batches(alloc: Global, shape: Shape, messages: &[Entry]) -> Result<Vec<LogBatch>> {
    let mut batches = Vec::new(alloc);
    for _ in 0..shape.batches {
        let mut batch = LogBatch::default(alloc);
        for region in 0..shape.regions {
            add_region_records(alloc, &mut batch, region, messages)?;
        }
        batches.push(batch)?;
    }
    Ok(batches)
}

/// Adds the records of `region` to `batch`: the entries `messages`, and for some regions a key value and a
/// command.
///
/// # Errors
///
/// Those of the batch's calls; `Memory`. Some of the records may have been added then.
fn add_region_records(
    alloc: Global,
    batch: &mut LogBatch,
    region: u64,
    messages: &[Entry],
) -> Result<()> {
    if batch.is_open() {
        batch.add_entries::<Entries>(region % 1_000 + 1, messages)?;
    }
    if region % 4 == 0 {
        add_key_value(alloc, batch, region)?;
    }
    if batch.is_open() && region % 8 == 0 {
        batch.add_command(region, Command::Compact { index: 100 })?;
    }
    Ok(())
}

/// Adds a key value of `region` to `batch`, if it is open.
///
/// # Errors
///
/// Those of the batch's calls; `Memory`.
fn add_key_value(alloc: Global, batch: &mut LogBatch, region: u64) -> Result<()> {
    let (key, value) = (vec![in alloc; 1, 2]?, vec![in alloc; 7; 32]?);
    if batch.is_open() {
        batch.put(region, key, value)?;
    }
    Ok(())
}

/// Makes the bytes of `batches`, and signs them. This is the work that is timed.
///
/// # Errors
///
/// Those of [`LogBatch::finish_populate`].
fn seal_batches(batches: &mut Vec<LogBatch>) -> Result<()> {
    let context = signing_context();
    for batch in batches.iter_mut() {
        if batch.is_open() {
            batch.finish_populate()?;
        }
        if !batch.is_open() {
            batch.prepare_write(&context);
        }
    }
    Ok(())
}

/// Returns copies of the bytes of those of `batches` that are sealed.
///
/// # Errors
///
/// `Memory` alone.
fn copy_sealed_bytes(alloc: Global, batches: &[LogBatch]) -> Result<Vec<Vec<u8>>> {
    let mut encoded = Vec::new(alloc);
    for batch in batches {
        if batch.is_sealed() {
            encoded.push(Vec::from_slice(alloc, batch.encoded_bytes())?)?;
        }
    }
    Ok(encoded)
}

/// Returns how many bytes the batches `encoded` have together.
fn total_length(encoded: &[Vec<u8>]) -> usize {
    let mut length = 0usize;
    for bytes in encoded {
        length = length.saturating_add(bytes.len());
    }
    length
}

/// Reads the items of the batches whose bytes are `encoded`. This is the work that is timed. Returns how many
/// items there are, and how many bytes the item batches have.
///
/// # Errors
///
/// Those of [`LogBatch::decode_header`] and [`LogItemBatch::decode`].
fn decode_batches(alloc: Global, encoded: &[Vec<u8>]) -> Result<(usize, usize)> {
    let context = signing_context();
    let (mut items, mut bytes) = (0usize, 0usize);
    for batch in encoded {
        let mut front: BytesSlice<'_> = batch.as_slice();
        let (offset, compression_type, len) = LogBatch::decode_header(alloc, &mut front)?;
        let mut item_batch = batch.get(offset..len).unwrap_or(&[]);
        bytes = bytes.saturating_add(item_batch.len());
        let place = FileBlockHandle {
            id: context.id,
            offset: 16,
            len: offset - 16,
        };
        let read = LogItemBatch::decode(alloc, &mut item_batch, place, compression_type, &context)?;
        items = items.saturating_add(read.iter().count());
    }
    Ok((items, bytes))
}
