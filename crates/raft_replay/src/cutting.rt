//! Cuts parts of files between batches, so that several workers can read one file.

ghost use Rattle.std.specs.Prelude.{◌≡◌, ◌<◌, ◌≤◌, ℕ, List, [], ◌∷◌, All, IfOk, IfErr, IfSome, IfNone, length};
ghost use Rattle.raft_replay.specs.Common.{HasHeader, Part, Event, ArePartsOf, BatchesMeet, bytes_before, rest_of, AreCutFrom, HoldsFrom};

use raft_base::{Error, Result};
use raft_records::{FilePart, LogBatch};
use std::alloc::Global;
use std::mem;

/// Cuts a part between batches into at most `count` parts of about one length, and at least into one. Their
/// bytes, one after the other, are those of `part`, each at its own offset in the file. No byte is copied.
///
/// Replaying the parts in order does the same as replaying `part`, even if it can't be read: a cut is made
/// only at an offset to which the headers of batches lead from the first byte on. After bytes that are no
/// header there is no cut.
///
/// # Errors
///
/// `Memory` alone. `part` is lost then.
pub fn cut_part(alloc: Global, part: FilePart, count: usize) -> Result<Vec<FilePart>>
    ensures same { IfOk result (λ parts. AreCutFrom part parts.items) }
    ensures bytes { IfOk result (λ parts. ArePartsOf part parts.items) }
    ensures file { IfOk result (λ parts. All (λ p. p.id ≡ part.id) parts.items) }
    ensures some { IfOk result (λ parts. 0 < length parts.items) }
    ensures few { 0 < count → IfOk result (λ parts. length parts.items ≤ count) }
    ensures memory { IfErr result (λ e. e ≡ Error.Memory) }
{
    let least = (part.bytes().len() / count.max(1)).max(1);
    let mut parts = Vec::new(alloc);
    let mut left = part;
    while parts.len() + 1 < count {
        let Some(at) = batch_end(alloc, &left, least) else {
            break;
        };
        let behind = left.split_off(at)?;
        parts.push(mem::replace(&mut left, behind))?;
    }
    parts.push(left)?;
    Ok(parts)
}

/// Returns the position in `part` of the first end of a batch that is at least `least` bytes from its start.
/// Returns `None` if that is the end of the part, or the headers of batches don't lead there. `alloc` is for
/// the text of an error that is dropped.
fn batch_end(alloc: Global, part: &FilePart, least: usize) -> Option<usize>
    ensures inside { IfSome result (λ at. at < length part.now.bytes) }
    ensures met { IfSome result (BatchesMeet part.now) }
{
    let bytes = part.bytes();
    let mut at = 0;
    while at < least {
        let (_, left) = bytes.split_at(at);
        at += batch_length(alloc, left)?;
    }
    if at < bytes.len() { Some(at) } else { None }
}

/// Returns the length in bytes of the batch whose header is at the start of `bytes`. Returns `None` if there
/// is no header, or there are fewer bytes than it says.
#[doc(hidden)]
pub fn batch_length(alloc: Global, bytes: &[u8]) -> Option<usize>
    ensures header { IfSome result (λ len. (offset : ℕ) × HasHeader bytes.now offset len) }
    ensures some { IfSome result (λ len. 0 < len) }
    ensures whole { IfSome result (λ len. len ≤ length bytes.now) }
    ensures none { IfNone result
        ((offset len : ℕ) → HasHeader bytes.now offset len → length bytes.now < len) }
{
    let (_, len) = read_batch_header(alloc, bytes)?;
    if len <= bytes.len() { Some(len) } else { None }
}

/// Reads the header of a batch at the start of `bytes`. Returns the offset of the item batch in the batch,
/// and the length of the whole batch, both in bytes. Returns `None` if there is no header.
#[doc(hidden)]
pub fn read_batch_header(alloc: Global, bytes: &[u8]) -> Option<(usize, usize)>
    ensures some { IfSome result (λ header. HasHeader bytes.now header.0 header.1) }
    ensures none { IfNone result ((offset len : ℕ) → HasHeader bytes.now offset len → ⊥) }
{
    let mut rest = bytes;
    if let Ok((offset, _, len)) = LogBatch::decode_header(alloc, &mut rest) {
        return Some((offset, len));
    }
    None
}

/// States that a part may be cut wherever a batch ends. If its bytes before an offset are batches that can be
/// read, reading its two pieces in order gives what reading the part gives. This is a law: it computes
/// nothing.
pub fn parts_are_cut_where_batches_end()
    ensures { (part : Part) (at : ℕ) (first : List Event) → at ≤ length part.bytes
        → HoldsFrom (bytes_before part at) 0 first
        → AreCutFrom part (bytes_before part at ∷ rest_of part at ∷ []) }
{}
