//! Searches for batches that were signed for another file.

ghost use Rattle.std.specs.Prelude.{◌≡◌, ◌↔◌, ◌<◌, length, Some, IfErr, IfOk, IsTrue, MatchOption};
ghost use Rattle.raft_base.specs.Signature.{signature_in};
ghost use Rattle.raft_tail.specs.Tails.{IsElsewhere, IsNextElsewhere, IsSignedFor, IsSoundAt, in_file};
ghost use Rattle.raft_tail.specs.Passing.{IsItemSigner, IsSigner};

use crate::errors::check_not_memory;
use crate::header::read_header;
use raft_base::{Error, FileId, FileSeq, LogFileContext, Result};
use raft_checksum::crc32;
use raft_codec::codec;
use raft_records::{FilePart, next_in};

/// Batches signed for a file with this number or a higher one aren't looked for: bytes may give any number of
/// 32 bits by chance.
const SEQ_LIMIT: FileSeq = 1 << 24;

/// The length of a checksum, in bytes.
const LOG_BATCH_CHECKSUM_LEN: usize = 4;

/// Returns the first position from `from` on at which a batch stands that can't be read in the part's file,
/// but in another file, numbered 1 to 2^24 - 1. Returns it with the number of that file, or `None` if there
/// is no such position. In version 1 there is none: a batch doesn't say which file it was written for.
///
/// At each position it looks at 16 bytes. If these can be the header of a batch that ends within the part, it
/// computes the checksum of its items.
///
/// # Errors
///
/// `Memory` alone.
pub fn signed_elsewhere(part: &FilePart, from: usize) -> Result<Option<(usize, FileSeq)>>
    ensures ok { IfOk result (IsNextElsewhere part.now from) }
    ensures memory { IfErr result (λ e. e ≡ Error.Memory) }
{
    let file = LogFileContext::new(part.id(), part.version());
    let Some(own) = file.get_signature() else {
        return Ok(None);
    };
    for at in from..part.bytes().len() {
        if let Some(seq) = other_file_of_batch_at(part, own, at)? {
            return Ok(Some((at, seq)));
        }
    }
    Ok(None)
}

/// Returns the number of the other file that the batch at position `at` of `part` was signed for. Returns
/// `None` if no batch stands there, it can be read in the part's file, whose signature is `own`, or the
/// number isn't 1 to 2^24 - 1.
///
/// # Errors
///
/// `Memory` alone.
#[inline(always)]
fn other_file_of_batch_at(part: &FilePart, own: u32, at: usize) -> Result<Option<FileSeq>>
    requires inside { at < length part.now.bytes }
    requires own { signature_in part.now.version part.now.id.seq ≡ Some own }
    ensures ok { IfOk result (λ seq.
        MatchOption seq (¬ (IsElsewhere part.now at)) (IsSignedFor part.now at)) }
    ensures memory { IfErr result (λ e. e ≡ Error.Memory) }
{
    let (_, rest) = part.bytes().split_at(at);
    let Some(signer) = batch_signature(rest) else {
        return Ok(None);
    };
    let seq = FileSeq::from(signer);
    if signer == own || seq == 0 || seq >= SEQ_LIMIT {
        return Ok(None);
    }
    if can_read_batch_in_file(part, seq, at)? {
        Ok(Some(seq))
    } else {
        Ok(None)
    }
}

/// Returns the one signature with which a batch at the start of `bytes` can be signed, by the checksum of its
/// items. A signature is the low 32 bits of a file's number. Returns `None` if no header stands there, the
/// bytes end before its batch does, or the batch has no items.
#[inline(always)]
fn batch_signature(bytes: &[u8]) -> Option<u32>
    ensures { IsSigner bytes.now result }
{
    match read_header(bytes) {
        Some((offset, len)) if len <= bytes.len() => {
            let (batch, _) = bytes.split_at(len);
            let (_, item_bytes) = batch.split_at(offset);
            item_batch_signature(item_bytes)
        }
        _ => None,
    }
}

/// Takes all of `bytes` for an item batch, whose last 4 bytes are its checksum, and returns the signature
/// with which that checksum is right: the CRC-32 of the other bytes, combined by exclusive or with the
/// checksum that stands there. Whether the items can be read isn't tested. Returns `None` if there are no
/// bytes before a checksum.
#[inline(never)]
fn item_batch_signature(bytes: &[u8]) -> Option<u32>
    ensures { IsItemSigner bytes.now result }
{
    if bytes.len() <= LOG_BATCH_CHECKSUM_LEN {
        return None;
    }
    let (content, mut seal) = bytes.split_at(bytes.len() - LOG_BATCH_CHECKSUM_LEN);
    match codec::decode_u32_le(&mut seal) {
        Ok(found) => Some(crc32(content) ^ found),
        Err(_) => None,
    }
}

/// Tests whether the batch at position `at` of `part` could be read if the part were of the file numbered
/// `seq`.
///
/// # Errors
///
/// `Memory` alone.
fn can_read_batch_in_file(part: &FilePart, seq: FileSeq, at: usize) -> Result<bool>
    requires { at < length part.now.bytes }
    ensures ok { IfOk result (λ readable. IsTrue readable ↔ IsSoundAt (in_file seq part.now) at) }
    ensures memory { IfErr result (λ e. e ≡ Error.Memory) }
{
    let id = FileId::new(part.id().queue, seq);
    let file = LogFileContext::new(id, part.version());
    match next_in(part.allocator(), &file, part.offset(), part.bytes(), at) {
        Ok(next) => Ok(next.is_some()),
        Err(error) => {
            check_not_memory(error)?;
            Ok(false)
        }
    }
}
