//! Exported calls that read bytes alone, without a handle.

ghost use Rattle.std.specs.Prelude.{◌≡◌, ◌≢◌, ◌+◌, ◌^◌, ◌<◌, ℕ, List, length, drop, take, IfOk, OnOk, OnErr, IfErr};
ghost use Rattle.raft_ffi.specs.Words.{AreBatchesUpTo, HasLength, HasNoFront, HasText, IsAnyCorruption, IsCodeOf, IsEntryBlockOf, IsHeader, IsNextFault, crc32_of, file_of, part_of, signature_of};

use crate::status::{File, Status, status_of, store_and_answer};
use raft_base::{LogFileContext, Result, crc32};
use raft_records::{LogBatch, lent_entry_block, next_in};
use std::alloc::Global;

/// Returns the length in bytes of the log batch whose header stands at the start of `bytes`, or 0 if no header stands there.
/// So files can be cut between batches. Whether the batch can be read, or is all there, isn't tested.
#[unsafe(no_mangle)]
pub extern "C" fn raft_ffi_batch_len(alloc: Global, bytes: &[u8]) -> usize
    ensures none { result ≡ 0 → HasNoFront IsHeader bytes.now }
    ensures some { result ≢ 0 → HasLength bytes.now result }
{
    let mut rest = bytes;
    match LogBatch::decode_header(alloc, &mut rest) {
        Ok((_, _, len)) => len,
        Err(_) => 0,
    }
}

/// Sets `len` to how many of `bytes`, from the first one on, are readable batches, one after another; `bytes` stand in `file`
/// from `offset` on. The code is 0 if they are all of `bytes`. Else it is that of the error for which the batch after them
/// can't be read, with its text in `text`.
#[unsafe(no_mangle)]
pub extern "C" fn raft_ffi_readable_front(
    alloc: Global,
    file: File,
    offset: u64,
    bytes: &[u8],
    len: &mut usize,
    text: &mut [u8],
) -> Status
    requires ends { offset + length bytes.now < 2 ^ 64 }
    ensures readable { AreBatchesUpTo (part_of (file_of file) offset bytes.now) len.new }
    ensures whole { result.code ≡ 0 → len.new ≡ length bytes.now }
    ensures cut { result.code ≢ 0 → len.new < length bytes.now }
    ensures fault { result.code ≢ 0 → IsCodeOf (IsNextFault (signature_of (file_of file)) (drop len.new bytes.now)) result.code }
    ensures text { HasText result text.old text.new }
{
    let (end, answer) = walk_readable_batches(alloc, &file.to_context(), offset, bytes);
    *len = end;
    status_of(alloc, &answer, text)
}

/// Returns how many of `bytes`, from the first one on, are readable batches, one after another, and the error for which no
/// batch can be read after them: `Ok` if they are all of `bytes`. These stand in `file` from `offset` on.
fn walk_readable_batches(
    alloc: Global,
    file: &LogFileContext,
    offset: u64,
    bytes: &[u8],
) -> (usize, Result<()>)
    requires ends { offset + length bytes.now < 2 ^ 64 }
    ensures readable { AreBatchesUpTo (part_of file.now offset bytes.now) result.0 }
    ensures whole { OnOk result.1 (result.0 ≡ length bytes.now) }
    ensures cut { OnErr result.1 (result.0 < length bytes.now) }
    ensures fault { IfErr result.1 (IsNextFault (signature_of file.now) (drop result.0 bytes.now)) }
{
    let mut at = 0;
    loop {
        match next_in(alloc, file, offset, bytes, at) {
            Ok(Some((_, next))) => at = next,
            Ok(None) => return (at, Ok(())),
            Err(error) => return (at, Err(error)),
        }
    }
}

/// Returns the CRC-32 of `bytes`.
#[unsafe(no_mangle)]
pub extern "C" fn raft_ffi_crc32(bytes: &[u8]) -> u32
    ensures { result ≡ crc32_of bytes.now }
{
    crc32(bytes)
}

/// Checks `bytes`, a whole entry block, against its checksum, and sets `len` to how many of them, from the first one on, are
/// its entry bytes: 0 for a block without bytes. The code is 0; 2 (`Corruption`), if they aren't such a block; or 11
/// (`Memory`). `len` isn't set after an error.
#[unsafe(no_mangle)]
pub extern "C" fn raft_ffi_block_entries(
    alloc: Global,
    bytes: &[u8],
    len: &mut usize,
    text: &mut [u8],
) -> Status
    ensures ok { result.code ≡ 0 → IsEntryBlockOf (length bytes.now) bytes.now (take len.new bytes.now) }
    ensures refused { result.code ≢ 0 → (entries : List ℕ) → IsEntryBlockOf (length bytes.now) bytes.now entries → ⊥ }
    ensures fault { result.code ≢ 0 → IsCodeOf IsAnyCorruption result.code }
    ensures text { HasText result text.old text.new }
{
    store_and_answer(alloc, entries_len(alloc, bytes), len, text)
}

/// Returns how many bytes of a whole entry block, from the first one on, are its entry bytes: 0 for a block without bytes.
///
/// # Errors
///
/// `Corruption` if the block has one to four bytes, or its checksum doesn't hold; `Memory` if there is none for the text.
fn entries_len(alloc: Global, bytes: &[u8]) -> Result<usize>
    ensures ok { IfOk result (λ n. IsEntryBlockOf (length bytes.now) bytes.now (take n bytes.now)) }
    ensures refused { OnErr result ((entries : List ℕ) → IsEntryBlockOf (length bytes.now) bytes.now entries → ⊥) }
    ensures fault { IfErr result IsAnyCorruption }
{
    Ok(lent_entry_block(alloc, bytes, bytes.len())?.len())
}
