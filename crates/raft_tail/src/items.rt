//! Recognizes items at the start of bytes whose end isn't known. Items are skipped, and nothing is kept
//! of them.

ghost use Rattle.std.specs.Prelude.{◌≡◌, ◌↔◌, ◌-◌, ◌^◌, ◌<◌, ◌≤◌, IfErr, IfOk, IfSome, IsTrue, MatchOption, OnSome};
ghost use Rattle.raft_codec.specs.Reading.{HasNoFront, Reads};
ghost use Rattle.raft_records.specs.Entries.{entry_between};
ghost use Rattle.raft_records.specs.Grammar.{AreTails, IsCommand, IsContent, IsEntries, IsItem, IsKeyValue, IsTail};
ghost use Rattle.raft_records.specs.ItemBatch.{AreItems, signed_crc};
ghost use Rattle.raft_codec.specs.Varint.{IsVarint};
ghost use Rattle.raft_tail.specs.Passing.{AreCounted, BeginsWhole, ContentPasses, EntriesPass, ItemPasses, Passes, TailsPass};

use raft_base::{Error, Result};
use raft_checksum::crc32;
use raft_codec::codec;
use raft_records::{Command, KeyValue};
use std::alloc::Global;

/// The type byte of an item of entries.
const TYPE_ENTRIES: u8 = 1;

/// The type byte of an item of a command.
const TYPE_COMMAND: u8 = 2;

/// The type byte of an item of a change of a key.
const TYPE_KV: u8 = 3;

/// Tests whether whole items stand at the start of `bytes`: their count, as many items, and right after them
/// their checksum, signed with `signature`. More bytes may follow.
///
/// # Errors
///
/// `Memory` alone.
pub(crate) fn begins_with_whole_items(
    alloc: Global,
    bytes: &[u8],
    signature: Option<u32>,
) -> Result<bool>
    ensures ok { IfOk result (λ whole. IsTrue whole ↔ BeginsWhole signature bytes.now) }
    ensures memory { IfErr result (λ e. e ≡ Error.Memory) }
{
    let Some(mut rest) = skip_count_and_items(alloc, bytes)? else {
        return Ok(false);
    };
    let (content, _) = bytes.split_at(bytes.len() - rest.len());
    match codec::decode_u32_le(&mut rest) {
        Ok(found) => Ok(found == sign_checksum(crc32(content), signature)),
        Err(_) => Ok(false),
    }
}

/// Signs `checksum` with `signature`, by exclusive or; the same call takes a signature off again. Without a
/// signature it returns `checksum`.
fn sign_checksum(checksum: u32, signature: Option<u32>) -> u32
    ensures { result ≡ signed_crc signature checksum }
{
    match signature {
        Some(signature) => checksum ^ signature,
        None => checksum,
    }
}

/// Returns the bytes after a count of items and that many items, or `None` if these don't stand at the start
/// of `bytes`.
///
/// # Errors
///
/// `Memory` alone.
fn skip_count_and_items(alloc: Global, bytes: &[u8]) -> Result<Option<&[u8]>>
    ensures ok { IfOk result (λ passed. MatchOption passed (HasNoFront AreCounted bytes.now)
        (λ rest. Passes AreCounted bytes.now rest.now)) }
    ensures memory { IfErr result (λ e. e ≡ Error.Memory) }
{
    match parse_number(bytes) {
        Some((count, behind)) => skip_items(alloc, behind, count),
        None => Ok(None),
    }
}

/// Returns the bytes after `count` items, or `None` if fewer stand at the start of `bytes`.
///
/// # Errors
///
/// `Memory` alone.
fn skip_items(alloc: Global, bytes: &[u8], count: u64) -> Result<Option<&[u8]>>
    ensures ok { IfOk result (λ passed. MatchOption passed (HasNoFront (AreItems count) bytes.now)
        (λ rest. Passes (AreItems count) bytes.now rest.now)) }
    ensures memory { IfErr result (λ e. e ≡ Error.Memory) }
{
    let mut rest = bytes;
    let mut offset = 0;
    for _ in 0..count {
        let Some((end, behind)) = skip_item(alloc, rest, offset)? else {
            return Ok(None);
        };
        rest = behind;
        offset = end;
    }
    Ok(Some(rest))
}

/// Skips the item at the start of `bytes`, whose entries begin at offset `start` of the entry bytes of
/// the batch. Returns the offset at which its entries end (`start` if it has none), and the bytes after the
/// item. Returns `None` if no item stands there.
///
/// # Errors
///
/// `Memory` alone.
fn skip_item(alloc: Global, bytes: &[u8], start: u32) -> Result<Option<(u32, &[u8])>>
    ensures ok { IfOk result (λ passed. MatchOption passed (HasNoFront (IsItem start) bytes.now)
        (λ item. ItemPasses start bytes.now item.1.now item.0)) }
    ensures memory { IfErr result (λ e. e ≡ Error.Memory) }
{
    match parse_number(bytes) {
        Some((_, behind)) => skip_content(alloc, behind, start),
        None => Ok(None),
    }
}

/// Skips an item whose region id was skipped already: `bytes` begin with its type byte. Its entries
/// begin at offset `start` of the entry bytes of the batch. Returns the offset at which they end (`start` if
/// it has none), and the bytes after the item. Returns `None` if the rest of an item doesn't stand there.
///
/// # Errors
///
/// `Memory` alone.
fn skip_content(alloc: Global, bytes: &[u8], start: u32) -> Result<Option<(u32, &[u8])>>
    ensures ok { IfOk result (λ passed. MatchOption passed (HasNoFront (IsContent start) bytes.now)
        (λ content. ContentPasses start bytes.now content.1.now content.0)) }
    ensures memory { IfErr result (λ e. e ≡ Error.Memory) }
{
    let Some((kind, behind)) = bytes.split_first() else {
        return Ok(None);
    };
    match *kind {
        TYPE_ENTRIES => Ok(skip_entry_indexes(behind, start)),
        TYPE_COMMAND => match skip_command(alloc, behind) {
            Some(rest) => Ok(Some((start, rest))),
            None => Ok(None),
        },
        TYPE_KV => match skip_key_change(alloc, behind)? {
            Some(rest) => Ok(Some((start, rest))),
            None => Ok(None),
        },
        _ => Ok(None),
    }
}

/// Returns the bytes after a command, or `None` if none stands at the start of `bytes`.
fn skip_command(alloc: Global, bytes: &[u8]) -> Option<&[u8]>
    ensures { MatchOption result (HasNoFront IsCommand bytes.now)
        (λ rest. Passes IsCommand bytes.now rest.now) }
{
    let mut rest = bytes;
    match Command::decode(alloc, &mut rest) {
        Ok(_) => Some(rest),
        Err(_) => None,
    }
}

/// Returns the bytes after a change of a key, or `None` if none stands at the start of `bytes`.
///
/// # Errors
///
/// `Memory` alone.
fn skip_key_change(alloc: Global, bytes: &[u8]) -> Result<Option<&[u8]>>
    ensures ok { IfOk result (λ passed. MatchOption passed (HasNoFront IsKeyValue bytes.now)
        (λ rest. Passes IsKeyValue bytes.now rest.now)) }
    ensures memory { IfErr result (λ e. e ≡ Error.Memory) }
{
    let mut rest = bytes;
    match KeyValue::decode(alloc, &mut rest) {
        Ok(_) => Ok(Some(rest)),
        Err(Error::Memory) => Err(Error::Memory),
        Err(_) => Ok(None),
    }
}

/// Skips the indexes of entries at the start of `bytes`. The entries begin at offset `start` of the
/// entry bytes of the batch. Returns the offset at which they end, and the bytes after the indexes. Returns
/// `None` if no such indexes stand there.
fn skip_entry_indexes(bytes: &[u8], start: u32) -> Option<(u32, &[u8])>
    ensures { MatchOption result (HasNoFront (IsEntries start) bytes.now)
        (λ entries. EntriesPass start bytes.now entries.1.now entries.0) }
{
    let (count, behind) = parse_number(bytes)?;
    if count == 0 {
        return Some((start, behind));
    }
    let (first, tails) = parse_number(behind)?;
    skip_tail_offsets(tails, count, first, start)
}

/// Skips `count` tail offsets at the start of `bytes`: the offsets at which entries end in the entry
/// bytes of the batch. The indexes of the entries rise from `first` on, and the first entry begins at offset
/// `start`. Returns the last tail offset (`start` if `count` is 0), and the bytes after it. Returns `None` if
/// there aren't as many.
fn skip_tail_offsets(bytes: &[u8], count: u64, first: u64, start: u32) -> Option<(u32, &[u8])>
    ensures { MatchOption result (HasNoFront (AreTails count (first, start)) bytes.now)
        (λ tails. TailsPass count (first, start) bytes.now tails.1.now tails.0) }
{
    let mut rest = bytes;
    let mut index = first;
    let mut offset = start;
    for _ in 0..count {
        let (tail, behind) = parse_tail_offset(rest, index, offset)?;
        rest = behind;
        index += 1;
        offset = tail;
    }
    Some((offset, rest))
}

/// Reads the tail offset of the entry with the index `index`, which begins at `offset`, from the start of
/// `bytes`. Returns it with the bytes after it. Returns `None` if there is none, it is below `offset` or
/// above 2^32 - 1, or the index is 2^64 - 1.
fn parse_tail_offset(bytes: &[u8], index: u64, offset: u32) -> Option<(u32, &[u8])>
    ensures tail { MatchOption result (HasNoFront (IsTail (index, offset)) bytes.now) (λ tail.
        Reads (IsTail (index, offset)) bytes.now tail.1.now (entry_between index offset tail.0)) }
    ensures ends { IfSome result (λ tail. offset ≤ tail.0) }
    ensures bounded { OnSome result (index < 2 ^ 64 - 1) }
{
    if index == u64::MAX {
        return None;
    }
    let (tail, rest) = parse_number(bytes)?;
    if tail < u64::from(offset) || tail > u64::from(u32::MAX) {
        return None;
    }
    Some((tail as u32, rest))
}

/// Reads a number in base 128 from the start of `bytes`. Returns it with the bytes after it, or `None` if
/// none stands there.
#[inline(always)]
fn parse_number(bytes: &[u8]) -> Option<(u64, &[u8])>
    ensures { MatchOption result (HasNoFront IsVarint bytes.now)
        (λ number. Reads IsVarint bytes.now number.1.now number.0) }
{
    codec::parse_var_u64(bytes).ok()
}
