//! Entry blocks in parts of files, and the bytes of single entries in them.

ghost use Rattle.std.specs.Prelude.{◌≡◌, ◌+◌, ◌-◌, ◌<◌, ◌≤◌, ℕ, List, length, take, drop, IfOk, IfErr, OnOk, OnErr, MatchOption};
ghost use Rattle.raft_records.specs.Common.{IsAnyCorruption, IsPlaceIn, HasEntryBlock, IsBlockFault};

use crate::FilePart;
use crate::header::lent_entry_block;
use raft_base::{EntryIndex, Error, FileBlockHandle, Result};
use std::alloc::Global;

/// Returns the entry bytes of the entry block at `place` in the part: those of all entries of a batch,
/// without their checksum, which is checked. [`entry_bytes`] finds the bytes of one entry among them. The
/// result is empty if the length of `place` is 0. Nothing is copied.
///
/// # Errors
///
/// `Corruption` if `place` doesn't lie in the part, or the checksum is wrong; `Memory` if there is none for
/// its text.
pub fn entries_block_in(part: &FilePart, place: FileBlockHandle) -> Result<&[u8]>
    ensures ok { IfOk result (λ entries. HasEntryBlock part.now place entries.now) }
    ensures refused { OnErr result ((entries : List ℕ) → HasEntryBlock part.now place entries → ⊥) }
    ensures fault { IfErr result (IsBlockFault part.now place) }
{
    let alloc = part.allocator();
    match bytes_from_place(part, place) {
        Some(bytes) => lent_entry_block(alloc, bytes, place.len),
        None => Err(Error::Corruption(format!(in alloc;
            "the entry block at offset {} of file {} isn't in the part",
            place.offset, place.id.seq
        )?)),
    }
}

/// Returns the bytes of the part from the start of `place` to the end of the part. Returns `None` if `place`
/// is in another file, or doesn't lie in the part.
fn bytes_from_place(part: &FilePart, place: FileBlockHandle) -> Option<&[u8]>
    ensures { MatchOption result (IsPlaceIn part.now place → ⊥)
        (λ bytes. IsPlaceIn part.now place
        × (bytes.now ≡ drop (place.offset - part.now.offset) part.now.bytes)) }
{
    if place.id != part.id() || place.offset < part.offset() {
        return None;
    }
    let bytes = part.bytes();
    let begin = place.offset - part.offset();
    if begin > bytes.len() as u64 {
        return None;
    }
    let (_, rest) = bytes.split_at(begin as usize);
    (place.len <= rest.len()).then_some(rest)
}

/// Returns the bytes of `entry` among `entries`, the entry bytes of its block, which [`entries_block_in`] or
/// [`LogBatch::decode_entries_block`](crate::LogBatch::decode_entries_block) returned. Nothing is copied;
/// `alloc` is for the text of an error.
///
/// # Errors
///
/// `Corruption` if the entry would end after the end of `entries`; `Memory` if there is none for its text.
pub fn entry_bytes<'a>(alloc: Global, entries: &'a [u8], entry: &EntryIndex) -> Result<&'a [u8]>
    ensures ok { IfOk result (λ bytes. bytes.now
        ≡ take entry.now.entry_len (drop entry.now.entry_offset entries.now)) }
    ensures accepted { OnOk result
        (entry.now.entry_offset + entry.now.entry_len ≤ length entries.now) }
    ensures refused { OnErr result
        (length entries.now < entry.now.entry_offset + entry.now.entry_len) }
    ensures fault { IfErr result IsAnyCorruption }
{
    let begin = entry.entry_offset as usize;
    let end = begin + entry.entry_len as usize;
    if end > entries.len() {
        return Err(Error::Corruption(format!(in alloc;
            "entry {} ends at byte {end} of an entry block with {} entry bytes",
            entry.index,
            entries.len()
        )?));
    }
    Ok(&entries[begin..end])
}
