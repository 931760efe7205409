//! Recognizes batches of which the end is missing.

ghost use Rattle.std.specs.Prelude.{◌≡◌, ◌↔◌, ◌≤◌, drop, length, IfErr, IfOk, IsTrue};
ghost use Rattle.raft_codec.specs.Reading.{HasNoFront};
ghost use Rattle.raft_tail.specs.Tails.{AreWhole, IsBroken, IsBrokenOff};

use crate::header::{LOG_BATCH_HEADER_LEN, read_header};
use crate::items::begins_with_whole_items;
use raft_base::{Error, LogFileContext, Result};
use raft_records::FilePart;
use std::alloc::Global;

/// Tests whether the bytes of `part` from position `at` to its end can be all that is left of one batch, as a
/// crash leaves it. `at` must be at most the number of bytes.
///
/// # Errors
///
/// `Memory` alone.
pub fn is_broken_off(part: &FilePart, at: usize) -> Result<bool>
    requires { at ≤ length part.now.bytes }
    ensures ok { IfOk result (λ broken. IsTrue broken ↔ IsBrokenOff part.now at) }
    ensures memory { IfErr result (λ e. e ≡ Error.Memory) }
{
    let file = LogFileContext::new(part.id(), part.version());
    let (_, rest) = part.bytes().split_at(at);
    can_be_cut_batch(part.allocator(), rest, file.get_signature())
}

/// Tests whether `bytes` can be all that is left of one batch that was to be signed with `signature`: they
/// are too few for a header, or they have one, are fewer than it says, and have no whole items where it says
/// that they begin.
///
/// # Errors
///
/// `Memory` alone.
fn can_be_cut_batch(alloc: Global, bytes: &[u8], signature: Option<u32>) -> Result<bool>
    ensures ok { IfOk result (λ broken. IsTrue broken ↔ IsBroken signature bytes.now) }
    ensures memory { IfErr result (λ e. e ≡ Error.Memory) }
{
    if bytes.len() < LOG_BATCH_HEADER_LEN {
        return Ok(true);
    }
    match read_header(bytes) {
        Some((offset, len)) if bytes.len() < len => lacks_items(alloc, bytes, offset, signature),
        _ => Ok(false),
    }
}

/// Tests whether no whole items stand at `offset` of `bytes`, that is items with their checksum, signed with
/// `signature`, right after them.
///
/// # Errors
///
/// `Memory` alone.
fn lacks_items(alloc: Global, bytes: &[u8], offset: usize, signature: Option<u32>) -> Result<bool>
    ensures ok { IfOk result (λ unfinished. IsTrue unfinished ↔ HasNoFront (AreWhole signature) (drop offset bytes.now)) }
    ensures memory { IfErr result (λ e. e ≡ Error.Memory) }
{
    if offset > bytes.len() {
        return Ok(true);
    }
    let (_, item_bytes) = bytes.split_at(offset);
    Ok(!begins_with_whole_items(alloc, item_bytes, signature)?)
}
