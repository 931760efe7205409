//! Parts of files, and the batches that are read of them.

use crate::calls::Call;
use crate::found::{Found, is_lack_of_memory};
use raft_records::{
    CompressionType, Error, FileBlockHandle, FileId, FilePart, LogBatch, LogQueue, Result, Version,
    next_batch,
};
use raft_recover::cut_part;
use std::alloc::Global;

/// The bytes of two batches: one with two entries of region 7, and one that cleans region 1.
const BYTES: &[u8] = b"\
\x00\x00\x00\x00\x00\x00\x22\x00\x00\x00\x00\x00\x00\x00\x00\x17abc\xc2\x41\x24\x35\
\x01\x07\x01\x02\x0a\x02\x03\xa7\xb3\xdf\x17\
\x00\x00\x00\x00\x00\x00\x18\x00\x00\x00\x00\x00\x00\x00\x00\x10\
\x01\x01\x02\x01\x5a\x80\x0b\xdd";

/// The calls of the row `parts`: both batches, the end, and the second batch without its last byte.
pub(crate) static PARTS: [Call; 4] = [
    Call::Next(58, 0),
    Call::Next(58, 34),
    Call::Next(58, 58),
    Call::Next(57, 34),
];

/// The calls of the row `blocks`: the header and the entry bytes of the first batch, and others that are too
/// short or too long.
pub(crate) static BLOCKS: [Call; 6] = [
    Call::Header(58),
    Call::Header(15),
    Call::Header(0),
    Call::Block(7),
    Call::Block(8),
    Call::Block(0),
];

/// The calls of the row `cuts`.
pub(crate) static CUTS: [Call; 2] = [Call::Cut(Version::V1), Call::Cut(Version::V2)];

/// Returns the first `len` bytes of `BYTES`, and the bytes after them. If there are fewer than `len`, it
/// returns all, and none after them.
fn split_bytes(len: usize) -> (&'static [u8], &'static [u8]) {
    BYTES.split_at(len.min(BYTES.len()))
}

/// Returns a part with the first `len` bytes of `BYTES`, as those of append file 12 in this `version`.
///
/// # Errors
///
/// `Memory` alone.
fn part_with_first_bytes(alloc: Global, version: Version, len: usize) -> Result<FilePart> {
    let (front, _) = split_bytes(len);
    let bytes = Vec::from_slice(alloc, front)?;
    FilePart::new(FileId::new(LogQueue::Append, 12), version, 0, bytes)
}

/// Reads the batch at position `at` of a part that has the first `len` bytes of `BYTES`. Adds a line with the
/// number of its items and where it ends, as `items 1 up to 34`, or `end` at the end of the part.
///
/// # Errors
///
/// `Failed` if `at` is after the end of the part; those of [`next_batch`].
pub(crate) fn read_next_batch(found: &mut Found, len: usize, at: usize) -> Result<()> {
    let alloc = found.alloc;
    let part = part_with_first_bytes(alloc, Version::V1, len)?;
    if at > part.bytes().len() {
        return Err(Error::Failed);
    }
    match next_batch(&part, at)? {
        Some((batch, behind)) => {
            let items = batch.iter().as_slice().len();
            found.append_line(format!(in alloc; "items {items} up to {behind}")?.as_str())
        }
        None => found.append_line("end"),
    }
}

/// Reads a header from the first `len` bytes of `BYTES`, and adds a line with what it says, as
/// `offset 23 length 34`. If that returns `Memory`, notes in `found` whether the slice is unchanged.
///
/// # Errors
///
/// Those of [`LogBatch::decode_header`].
pub(crate) fn read_header(found: &mut Found, len: usize) -> Result<()> {
    let alloc = found.alloc;
    let (bytes, _) = split_bytes(len);
    let mut buf = bytes;
    let answer = LogBatch::decode_header(alloc, &mut buf);
    found.note_what_refusal_left(!is_lack_of_memory(&answer) || buf == bytes);
    let (offset, _, len) = answer?;
    found.append_line(format!(in alloc; "offset {offset} length {len}")?.as_str())
}

/// Reads the entry block of `len` bytes that begins at byte 16 of `BYTES`, and adds a line with its entry
/// bytes in hexadecimal digits.
///
/// # Errors
///
/// Those of [`LogBatch::decode_entries_block`].
pub(crate) fn read_entry_block(found: &mut Found, len: usize) -> Result<()> {
    let place = FileBlockHandle {
        id: FileId::new(LogQueue::Append, 12),
        offset: 16,
        len,
    };
    let (_, bytes) = split_bytes(16);
    let none = CompressionType::None;
    let entries = LogBatch::decode_entries_block(found.alloc, bytes, place, none)?;
    found.append_hex_line(entries.as_slice())
}

/// Cuts a part of this `version` after its first batch, clones the rest, and cuts the same part between
/// batches into eight at most. Adds a line with the version, the offset and the length of the clone, and with
/// the number of parts.
///
/// # Errors
///
/// `Memory` alone.
pub(crate) fn cut_by_batches(found: &mut Found, version: Version) -> Result<()> {
    let alloc = found.alloc;
    let mut front = part_with_first_bytes(alloc, version, 58)?;
    let rest = split_after_first_batch(found, &mut front)?;
    let clone = rest.clone()?;
    let parts = cut_part(alloc, part_with_first_bytes(alloc, version, 58)?, 8)?;
    let (version, offset, len) = (clone.version(), clone.offset(), clone.bytes().len());
    found.append_line(format!(in alloc;
        "version {version} rest at {offset} of {len}, parts {}",
        parts.len()
    )?
    .as_str())
}

/// Cuts `front` after its first batch, and returns the rest. If that returns `Memory`, notes in `found`
/// whether the part is unchanged.
///
/// # Errors
///
/// `Memory` alone.
fn split_after_first_batch(found: &mut Found, front: &mut FilePart) -> Result<FilePart> {
    let at = front.bytes().len().min(34);
    let answer = front.split_off(at);
    found.note_what_refusal_left(
        !is_lack_of_memory(&answer) || front.bytes() == BYTES && front.offset() == 0,
    );
    answer
}
