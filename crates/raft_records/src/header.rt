//! The header and the entry block of a log batch, and how its bytes are made and signed.

ghost use Rattle.std.specs.Prelude.{◌≡◌, ◌≢◌, ℕ, ◌+◌, ◌≤◌, ◌<◌, ◌^◌, List, ◌++◌, [], length, take, drop, IfOk, IfErr, OnOk, OnErr};
ghost use Rattle.raft_records.specs.Common.{Reads, HasNoFront, IsBig, IsHeader, IsHeaderFault, IsEntryBlockOf, IsLentBlockFault, header_bytes, entry_block, item_offset, encoded, encoded_length, log_batch_bytes, IsUnsealed, IsHeld};
ghost use Rattle.raft_records.specs.Common.{entry_bytes_in, IsEncoded, item_batch_bytes, checksum_bytes, signature_of, Keeps, uncompressed};

use crate::LogItemBatch;
use crate::checksum::{LOG_BATCH_CHECKSUM_LEN, verify_checksum};
use byteorder::{BigEndian, ByteOrder, LittleEndian};
use raft_base::{AllocResult, CompressionType, Error, LogFileContext, Result};
use raft_checksum::crc32;
use raft_codec::codec;
use std::alloc::Global;

/// The length of the header of a log batch, in bytes.
pub(crate) const LOG_BATCH_HEADER_LEN: usize = 16;

/// The length of a batch in bytes must be below this, since a header has 56 bits for it.
const LENGTH_LIMIT: u64 = 1 << 56;

/// Reads the header of a log batch from the start of `bytes`. Returns the offset of the item batch from the
/// start of the batch, the compression type, and the length of the batch in bytes; and the bytes after the
/// header.
///
/// # Errors
///
/// `Corruption` if there are fewer than 16 bytes, the compression type is unknown, or the offset is less than
/// 16 or above the length; `Memory` if there is none for its text.
#[tactic(auto, using(crate::proofs::HeaderLemmas::header_read, crate::proofs::HeaderLemmas::too_short_for_header))]
pub(crate) fn parse_header(
    alloc: Global,
    bytes: &[u8],
) -> Result<((usize, CompressionType, usize), &[u8])>
    ensures ok { IfOk result (λ read. Reads IsHeader bytes.now read.1.now read.0) }
    ensures refused { OnErr result (HasNoFront IsHeader bytes.now) }
    ensures fault { IfErr result (IsHeaderFault bytes.now) }
{
    let len = bytes.len();
    if len < LOG_BATCH_HEADER_LEN {
        return Err(Error::Corruption(format!(in alloc; "Log batch header too short: {len}")?));
    }
    let (len_and_type, behind) = parse_u64(bytes);
    let (offset, rest) = parse_u64(behind);
    let compression_type = CompressionType::from_u8(alloc, (len_and_type % 256) as u8)?;
    let len = len_and_type / 256;
    if offset > len {
        return Err(Error::corruption(alloc, "Log item offset exceeds log batch length"));
    }
    if offset < LOG_BATCH_HEADER_LEN as u64 {
        return Err(Error::corruption(
            alloc,
            "Log item offset is smaller than log batch header length",
        ));
    }
    Ok(((offset as usize, compression_type, len as usize), rest))
}

/// Reads a big-endian number of eight bytes from the start of `bytes`, which has at least eight, and returns
/// it with the bytes after it.
fn parse_u64(bytes: &[u8]) -> (u64, &[u8])
    requires { 8 ≤ length bytes.now }
    ensures read { Reads (IsBig 8) bytes.now result.1.now result.0 }
    ensures len { length bytes.now ≡ 8 + length result.1.now }
{
    let mut rest = bytes;
    match codec::decode_u64(&mut rest) {
        Ok(number) => (number, rest),
        Err(_) => unreachable!(),
    }
}

/// Writes a header over the first 16 bytes of `buf`: that of an uncompressed batch of `len` bytes, whose item
/// batch begins at `offset`.
fn write_header(buf: &mut [u8], offset: usize, len: usize)
    requires room { 16 ≤ length buf.old }
    requires fits { len < 2 ^ 56 }
    ensures { buf.new ≡ header_bytes offset uncompressed len ++ drop 16 buf.old }
{
    let compression_type = CompressionType::None.to_u8();
    BigEndian::write_u64(buf, len as u64 * 256 + u64::from(compression_type));
    BigEndian::write_u64(&mut buf[8..], offset as u64);
}

/// Makes sure that `buf` has room for a header, 16 bytes, at its start. If it has fewer bytes, they are
/// replaced by 16 zeros; else it stays as it is.
///
/// # Errors
///
/// `AllocError` if there is no memory for the 16 bytes. `buf` is empty then.
pub(crate) fn reserve_header(buf: &mut Vec<u8>) -> AllocResult<()>
    ensures ok { OnOk result (16 ≤ length buf.new.items) }
    ensures same { drop 16 buf.new.items ≡ drop 16 buf.old.items }
{
    if buf.len() < LOG_BATCH_HEADER_LEN {
        buf.clear();
        buf.extend_from_slice(&[0; LOG_BATCH_HEADER_LEN])?;
    }
    Ok(())
}

/// Appends the checksum of the entry bytes, which are all bytes of `buf` after the 16 of the header. Without
/// entry bytes nothing is appended.
///
/// # Errors
///
/// `AllocError` if there is no memory to grow `buf`, which is unchanged then.
fn append_entries_checksum(buf: &mut Vec<u8>) -> AllocResult<()>
    requires { 16 ≤ length buf.old.items }
    ensures ok { OnOk result
        (buf.new.items ≡ take 16 buf.old.items ++ entry_block (drop 16 buf.old.items)) }
    ensures err { OnErr result (buf.new.items ≡ buf.old.items) }
{
    if buf.len() == LOG_BATCH_HEADER_LEN {
        return Ok(());
    }
    let mut seal = [0; LOG_BATCH_CHECKSUM_LEN];
    LittleEndian::write_u32(&mut seal, crc32(&buf[LOG_BATCH_HEADER_LEN..]));
    buf.extend_from_slice(&seal)
}

/// Returns the offset of the item batch in a log batch with `entries_size` entry bytes: it is after the
/// header and, if there are entry bytes, after their checksum.
pub(crate) fn item_batch_offset(entries_size: u32) -> usize
    ensures { (entry_bytes : List ℕ) → length entry_bytes ≡ entries_size →
        result ≡ item_offset entry_bytes }
{
    if entries_size == 0 {
        LOG_BATCH_HEADER_LEN
    } else {
        LOG_BATCH_HEADER_LEN + entries_size as usize + LOG_BATCH_CHECKSUM_LEN
    }
}

/// Returns the entry bytes of the entry block at the start of `bytes`, without their checksum, which is
/// checked. The block with its checksum has `len` bytes; the result is empty if that is 0. Nothing is copied.
///
/// # Errors
///
/// `Corruption` if `bytes` is shorter than `len`, `len` is from 1 to 4, or the checksum is wrong; `Memory` if
/// there is none for its text.
pub fn lent_entry_block(alloc: Global, bytes: &[u8], len: usize) -> Result<&[u8]>
    ensures ok { IfOk result (λ entries. IsEntryBlockOf len bytes.now entries.now) }
    ensures refused { OnErr result ((entries : List ℕ) → IsEntryBlockOf len bytes.now entries → ⊥) }
    ensures fault { IfErr result (IsLentBlockFault len bytes.now) }
{
    if len == 0 {
        return Ok(&[]);
    }
    if bytes.len() < len {
        return Err(Error::Corruption(format!(in alloc;
            "an entry block of {len} bytes is cut short"
        )?));
    }
    let (block, _) = bytes.split_at(len);
    verify_checksum(alloc, block, None)
}

/// Completes the bytes of a batch in `buf`, which has 16 bytes of room for the header and then the entry
/// bytes: appends the checksum of the entry bytes and the item batch, and fills in the header. The checksum
/// of the item batch is left 0. `item_batch` has items.
///
/// # Errors
///
/// `Full` if the batch would have 2^56 bytes or more; `Memory`. `buf` may have more bytes at its end then;
/// the bytes before are unchanged.
#[tactic(auto, using(crate::proofs::BufferLemmas::closed_keeps, crate::proofs::BufferLemmas::behind_keeps))]
pub(crate) fn complete_batch(buf: &mut Vec<u8>, item_batch: &mut LogItemBatch) -> Result<()>
    requires room { 16 ≤ length buf.old.items }
    requires some { item_batch.old ≢ [] }
    ensures ok { OnOk result (IsUnsealed item_batch.old (drop 16 buf.old.items) buf.new.items) }
    ensures accepted { OnOk result (encoded_length item_batch.old (drop 16 buf.old.items)
        < 2 ^ 56) }
    ensures same { item_batch.new ≡ item_batch.old }
    ensures err { OnErr result (Keeps buf.old.items buf.new.items) }
    ensures fault { IfErr result (λ e. e ≢ Error.Memory →
        (e ≡ Error.Full) × (2 ^ 56 ≤ encoded_length item_batch.old (drop 16 buf.old.items))) }
{
    append_entries_checksum(buf)?;
    let offset = buf.len();
    item_batch.encode(buf)?;
    let len = buf.len();
    if len as u64 >= LENGTH_LIMIT {
        return Err(Error::Full);
    }
    write_header(buf.as_mut_slice(), offset, len);
    Ok(())
}

/// Sets the checksum of the item batch in `buf`, which has the bytes of a whole batch, signed for the file of
/// `context`. `buf` is empty, and stays so, if the batch has no items.
pub(crate) fn seal_batch(item_batch: &LogItemBatch, buf: &mut Vec<u8>, context: &LogFileContext)
    requires { IsHeld encoded item_batch.now (entry_bytes_in item_batch.now buf.old.items)
        buf.old.items }
    ensures { buf.new.items ≡ log_batch_bytes (signature_of context.now) item_batch.now
        (entry_bytes_in item_batch.now buf.old.items) }
{
    // A batch without items has no bytes.
    if buf.is_empty() {
        return;
    }
    let offset = item_batch_offset(item_batch.entries_size());
    seal_item_batch(item_batch, buf.as_mut_slice(), offset, context);
}

/// Sets the checksum of the item batch that begins at `offset` of `buf`, signed for the file of `context`.
fn seal_item_batch(
    item_batch: &LogItemBatch,
    buf: &mut [u8],
    offset: usize,
    context: &LogFileContext,
)
    requires within { offset ≤ length buf.old }
    requires encoded { IsEncoded item_batch.now (drop offset buf.old) }
    ensures { buf.new ≡ take offset buf.old ++ (item_batch_bytes item_batch.now
        ++ checksum_bytes (signature_of context.now) (item_batch_bytes item_batch.now)) }
{
    item_batch.prepare_write(&mut buf[offset..], context);
}
