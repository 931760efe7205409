//! How items are read, with keys and values left in the bytes that they are read from.
//!
//! Each function reads from the start of `bytes`, and returns what it read with the bytes after it. `start`
//! is the offset in the entry bytes of the batch at which the entries of an item begin, which is the end of
//! those before. Numbers of at most four bytes are *short*: most items have no others, and are read faster by
//! functions that return `None` for any other item.

ghost use Rattle.std.specs.Prelude.{◌≡◌, ◌≢◌, ◌⊎◌, List, [], IfOk, IfErr, ◌≤◌, ◌<◌, ◌^◌, ℕ, ◌+◌, ◌∷◌, IfSome, IfNone};
ghost use Rattle.raft_records.specs.Common.{Reads, HasNoFront, IsContentFault, IsEntriesFault, IsItemFault, IsMemory, IsTailsFault, AreTails, IsContent, IsEntries, IsItem, Item, AreItems, AreItemsFault, AreEntriesRead, AreHeldAs};
ghost use Rattle.raft_records.specs.Common.{AreTailsRead, IsContentRead, IsItemRead, reached, EntryIndex, entry_between, span_of, vec_len, vec_capacity, IsByteString, IsKeyValue, Pair, pair, IsHeldAs};

use crate::entry_indexes::{parse_short_tail, parse_tail};
use crate::key_value::parse_pair;
use crate::log_item::{TYPE_COMMAND, TYPE_ENTRIES, TYPE_KV};
use crate::{Command, ReadContent, ReadItem};
use raft_base::{CompressionType, EntryIndex, Error, Result};
use raft_codec::codec;
use std::alloc::Global;
use std::io::{self, ErrorKind};

/// What a reader keeps of each entry: the whole entry, or its span only.
pub(crate) trait Kept: Sized {
    /// What is kept of this entry.
    ghost kept_of: { EntryIndex → Self };

    /// Returns what is kept of the entry `index`, which begins at `offset` in the entry bytes of its batch
    /// and ends at `tail`.
    fn from_tail(index: u64, offset: u32, tail: u32) -> Self
        requires { offset ≤ tail }
        ensures { result ≡ kept_of (entry_between index offset tail) };
}

impl Kept for EntryIndex {
    ghost kept_of = { λ e. e };

    /// Returns the whole entry `index`, without a place, from `offset` to `tail` of the entry bytes.
    #[inline(always)]
    fn from_tail(index: u64, offset: u32, tail: u32) -> EntryIndex {
        EntryIndex {
            index,
            entries: None,
            compression_type: CompressionType::None,
            entry_offset: offset,
            entry_len: tail - offset,
        }
    }
}

/// The span of an entry: its offset and its length.
impl Kept for (u32, u32) {
    ghost kept_of = { span_of };

    /// Returns the span from `offset` to `tail` of the entry bytes: `offset` and the length. The index isn't
    /// kept.
    #[inline(always)]
    fn from_tail(_index: u64, offset: u32, tail: u32) -> (u32, u32) {
        (offset, tail - offset)
    }
}

/// Reads `count` items from the start of `bytes` into `items`, and the spans of their entries into `spans`;
/// both are empty before. Returns the bytes after them. A false `count` can't make it allocate much: it makes
/// room for no more items than `bytes` can have.
///
/// # Errors
///
/// Those of [`LogItem::decode`](crate::LogItem::decode). Some items and spans may have been added then.
pub(super) fn read_items<'a>(
    alloc: Global,
    bytes: &'a [u8],
    count: u64,
    items: &mut Vec<ReadItem<'a>>,
    spans: &mut Vec<(u32, u32)>,
) -> Result<&'a [u8]>
    requires no_items { items.old.items ≡ [] }
    requires no_spans { spans.old.items ≡ [] }
    ensures ok { IfOk result (λ rest. (read : List Item) ×
        Reads (AreItems count) bytes.now rest.now read
        × AreHeldAs items.new.items spans.new.items read) }
    ensures refused { IfErr result (λ e. e ≢ Error.Memory → HasNoFront (AreItems count) bytes.now) }
    ensures fault { IfErr result (AreItemsFault count bytes.now) }
{
    // Each item takes three bytes at least, so no count makes more room than bytes are there.
    let room = count.min(bytes.len() as u64 / 3);
    items.reserve(room as usize)?;
    let mut rest = bytes;
    let mut offset = 0;
    for _ in 0..count {
        let (end, behind) = match read_short_item(rest, offset, items, spans) {
            Some(read) => read,
            None => read_item(alloc, rest, offset, items, spans)?,
        };
        rest = behind;
        offset = end;
    }
    Ok(rest)
}

/// Reads one item from the start of `bytes` into `items`, and the spans of its entries, which begin at
/// `start`, into `spans`. Returns where its entries end, and the bytes after the item.
///
/// # Errors
///
/// Those of [`LogItem::decode`](crate::LogItem::decode). Some spans may have been added then.
#[inline(never)]
#[tactic(auto, using(crate::proofs::ReadBatchLemmas::held_item))]
fn read_item<'a>(
    alloc: Global,
    bytes: &'a [u8],
    start: u32,
    items: &mut Vec<ReadItem<'a>>,
    spans: &mut Vec<(u32, u32)>,
) -> Result<(u32, &'a [u8])>
    ensures ok { IfOk result (λ read. IsItemRead items.old.items items.new.items
        (reached bytes.now start spans.old.items) (reached read.1.now read.0 spans.new.items)) }
    ensures refused { IfErr result (λ e. e ≢ Error.Memory → HasNoFront (IsItem start) bytes.now) }
    ensures fault { IfErr result (λ e. IsMemory e ⊎ IsItemFault start bytes.now e) }
{
    let (region, behind) = codec::parse_var_u64(bytes)?;
    let (content, end, rest) = read_content(alloc, behind, start, spans)?;
    items.push(ReadItem { region, content })?;
    Ok((end, rest))
}

/// Reads the content of an item from the start of `bytes`, with its type byte. What is kept of its entries,
/// which begin at `start`, is appended to `kept`. Returns the content, where its entries end (`start` if it
/// has none), and the bytes after the content.
///
/// # Errors
///
/// Those of [`LogItem::decode`](crate::LogItem::decode). Some entries may have been kept then.
#[tactic(auto, using(crate::proofs::ReadBatchLemmas::entries_are_content, crate::proofs::ReadBatchLemmas::command_read, crate::proofs::ReadBatchLemmas::pair_read))]
pub(crate) fn read_content<'a, T: Kept>(
    alloc: Global,
    bytes: &'a [u8],
    start: u32,
    kept: &mut Vec<T>,
) -> Result<(ReadContent<'a>, u32, &'a [u8])>
    ensures ok { IfOk result (λ read. IsContentRead T.kept_of read.0
        (reached bytes.now start kept.old.items) (reached read.2.now read.1 kept.new.items)) }
    ensures refused { IfErr result (λ e. e ≢ Error.Memory → HasNoFront (IsContent start) bytes.now) }
    ensures fault { IfErr result (IsContentFault start bytes.now) }
{
    let Some((kind, behind)) = bytes.split_first() else {
        return Err(Error::Io(io::Error::new(ErrorKind::UnexpectedEof, "eof")));
    };
    let kind = *kind;
    match kind {
        TYPE_ENTRIES => {
            let (first, count, end, rest) = read_entries(alloc, behind, start, kept)?;
            Ok((ReadContent::Run { first, count }, end, rest))
        }
        TYPE_COMMAND => {
            let (command, rest) = Command::parse(alloc, behind)?;
            Ok((ReadContent::Command(command), start, rest))
        }
        TYPE_KV => {
            let (key, value, rest) = parse_pair(alloc, behind)?;
            match value {
                Some(value) => Ok((ReadContent::Put { key, value }, start, rest)),
                None => Ok((ReadContent::Delete { key }, start, rest)),
            }
        }
        _ => Err(Error::Corruption(format!(in alloc; "Unrecognized log item type: {kind}")?)),
    }
}

/// Reads the entries of an item from the start of `bytes`, after its type byte. What is kept of them is
/// appended to `kept`; the first begins at `start`. Returns the index of the first entry and their number,
/// both 0 if there are none; where the entries end; and the bytes after them.
///
/// # Errors
///
/// Those of [`EntryIndexes::decode`](crate::EntryIndexes::decode). Some entries may have been kept then.
#[tactic(auto, using(crate::proofs::ReadBatchLemmas::no_entries_read, crate::proofs::ReadBatchLemmas::run_read_of))]
pub(crate) fn read_entries<'a, T: Kept>(
    alloc: Global,
    bytes: &'a [u8],
    start: u32,
    kept: &mut Vec<T>,
) -> Result<(u64, usize, u32, &'a [u8])>
    ensures ok { IfOk result (λ read. AreEntriesRead T.kept_of read.0 read.1
        (reached bytes.now start kept.old.items) (reached read.3.now read.2 kept.new.items)) }
    ensures refused { IfErr result (λ e. e ≢ Error.Memory → HasNoFront (IsEntries start) bytes.now) }
    ensures fault { IfErr result (IsEntriesFault start bytes.now) }
{
    let (count, behind) = codec::parse_var_u64(bytes)?;
    if count == 0 {
        return Ok((0, 0, start, behind));
    }
    let (first, tails) = codec::parse_var_u64(behind)?;
    let (end, rest) = read_tails(alloc, tails, count, first, start, kept)?;
    Ok((first, count as usize, end, rest))
}

/// Reads the tail offsets of `count` entries from the start of `bytes`. Their indexes rise by one from
/// `first`, and the first entry begins at `start`. What is kept of each is appended to `kept`. Returns where
/// the entries end, and the bytes after the tail offsets. A false `count` can't make it allocate much: it
/// makes room for no more entries than `bytes` can have.
///
/// # Errors
///
/// Those of [`EntryIndexes::decode`](crate::EntryIndexes::decode). Some entries may have been kept then.
#[inline(never)]
fn read_tails<'a, T: Kept>(
    alloc: Global,
    bytes: &'a [u8],
    count: u64,
    first: u64,
    start: u32,
    kept: &mut Vec<T>,
) -> Result<(u32, &'a [u8])>
    ensures ok { IfOk result (λ read. AreTailsRead T.kept_of count first
        (reached bytes.now start kept.old.items) (reached read.1.now read.0 kept.new.items)) }
    ensures refused { IfErr result (λ e. e ≢ Error.Memory →
        HasNoFront (AreTails count (first, start)) bytes.now) }
    ensures fault { IfErr result (IsTailsFault count (first, start) bytes.now) }
{
    // Each entry takes a byte at least, so no count makes more room than bytes are there.
    let room = count.min(bytes.len() as u64);
    kept.reserve(room as usize)?;
    let mut rest = bytes;
    let mut index = first;
    let mut offset = start;
    // Where none of their indexes is 2^64 - 1, no index is tested by itself.
    let bounded = count <= u64::MAX - first;
    for _ in 0..count {
        let (tail, behind) = match parse_short_tail(rest, offset, bounded) {
            Some(read) => read,
            None => parse_tail(alloc, rest, index, offset)?,
        };
        kept.push_reserved(T::from_tail(index, offset, tail));
        rest = behind;
        index += 1;
        offset = tail;
    }
    Ok((offset, rest))
}

/// The byte of [`OpType::Put`](crate::OpType::Put).
const PUT: u8 = 1;

/// Reads one item from the start of `bytes`, if it is a run or a put whose numbers are all short, and `items`
/// and `spans` have room for it. Returns where its entries end, and the bytes after the item. Otherwise it
/// returns `None` and adds nothing; [`read_item`] then reads the item, or makes the error.
#[inline(always)]
fn read_short_item<'a>(
    bytes: &'a [u8],
    start: u32,
    items: &mut Vec<ReadItem<'a>>,
    spans: &mut Vec<(u32, u32)>,
) -> Option<(u32, &'a [u8])>
    ensures some { IfSome result (λ read. IsItemRead items.old.items items.new.items
        (reached bytes.now start spans.old.items) (reached read.1.now read.0 spans.new.items)) }
    ensures items { IfNone result (items.new.items ≡ items.old.items) }
    ensures spans { IfNone result (spans.new.items ≡ spans.old.items) }
{
    if items.len() >= items.capacity() {
        return None;
    }
    let (region, behind) = codec::parse_short_var_u64(bytes)?;
    let (content, end, rest) = read_short_content(behind, start, spans)?;
    items.push_reserved(ReadItem { region, content });
    Some((end, rest))
}

/// Reads the content of an item from the start of `bytes`, with its type byte, if it is a run or a put whose
/// numbers are all short. Spans are appended to `spans`, if that has room. Returns the content, where its
/// entries end, and the bytes after the content. Otherwise it returns `None`, and `spans` is unchanged.
#[inline(always)]
fn read_short_content<'a>(
    bytes: &'a [u8],
    start: u32,
    spans: &mut Vec<(u32, u32)>,
) -> Option<(ReadContent<'a>, u32, &'a [u8])>
    ensures some { IfSome result (λ read. IsContentRead span_of read.0
        (reached bytes.now start spans.old.items) (reached read.2.now read.1 spans.new.items)) }
    ensures none { IfNone result (spans.new.items ≡ spans.old.items) }
{
    let [kind, first, behind @ ..] = bytes else {
        return None;
    };
    let kind = *kind;
    let first = *first;
    match kind {
        TYPE_ENTRIES => read_short_run(first, behind, start, spans),
        TYPE_KV if first == PUT => {
            let (content, rest) = parse_short_put(behind)?;
            Some((content, start, rest))
        }
        _ => None,
    }
}

/// Reads the entries of a run from the start of `bytes`, after its type byte and the byte `count`, if all
/// numbers are short. Returns the run, where its entries end, and the bytes after them. Returns `None`, and
/// adds no span, if `count` isn't from 1 to 127, `spans` has no room for as many, or a number isn't short.
#[inline(always)]
fn read_short_run<'a>(
    count: u8,
    bytes: &'a [u8],
    start: u32,
    spans: &mut Vec<(u32, u32)>,
) -> Option<(ReadContent<'a>, u32, &'a [u8])>
    ensures some { IfSome result (λ read. IsContentRead span_of read.0
        (reached (1 ∷ count ∷ bytes.now) start spans.old.items)
        (reached read.2.now read.1 spans.new.items)) }
    ensures none { IfNone result (spans.new.items ≡ spans.old.items) }
{
    let count = usize::from(count);
    if count == 0 || count >= 0x80 || spans.capacity() - spans.len() < count {
        return None;
    }
    let (first, tails) = codec::parse_short_var_u64(bytes)?;
    let (end, rest) = read_short_spans(tails, count, start, spans)?;
    Some((ReadContent::Run { first, count }, end, rest))
}

/// Reads the key and the value of a put from the start of `bytes`, after its operation, if both lengths are
/// short. Returns the put and the bytes after it, or `None` if there is no such put.
#[inline(always)]
fn parse_short_put(bytes: &[u8]) -> Option<(ReadContent<'_>, &[u8])>
    ensures { IfSome result (λ read. (p : Pair) ×
        Reads IsKeyValue (1 ∷ bytes.now) read.1.now p × IsHeldAs read.0 [] (pair p)) }
{
    let (key, behind) = parse_short_byte_string(bytes)?;
    let (value, rest) = parse_short_byte_string(behind)?;
    Some((ReadContent::Put { key, value }, rest))
}

/// Reads the tail offsets of `count` entries from the start of `bytes`, and appends their spans to `spans`,
/// which has room for them. The first entry begins at `start`. Returns where the entries end, and the bytes
/// after the tail offsets. Returns `None`, and adds no span, if a tail offset isn't short or is below the one
/// before it.
#[inline(always)]
fn read_short_spans<'a>(
    bytes: &'a [u8],
    count: usize,
    start: u32,
    spans: &mut Vec<(u32, u32)>,
) -> Option<(u32, &'a [u8])>
    requires { vec_len spans.old + count ≤ vec_capacity spans.old }
    ensures some { IfSome result (λ read. (first : ℕ) → first + count < 2 ^ 64 →
        AreTailsRead span_of count first
        (reached bytes.now start spans.old.items) (reached read.1.now read.0 spans.new.items)) }
    ensures none { IfNone result (spans.new.items ≡ spans.old.items) }
{
    let len = spans.len();
    let mut rest = bytes;
    let mut offset = start;
    for _ in 0..count {
        let Some((tail, behind)) = parse_short_tail(rest, offset, true) else {
            spans.truncate(len);
            return None;
        };
        spans.push_reserved((offset, tail - offset));
        rest = behind;
        offset = tail;
    }
    Some((offset, rest))
}

/// Reads a length of at most four bytes and as many bytes from the start of `bytes`. Returns those bytes, and
/// the bytes after them. Returns `None` if there is no such length, or fewer bytes are left.
#[inline(always)]
#[tactic(auto, using(crate::proofs::ItemLemmas::text_read, raft_codec::proofs::VarintLemmas::short_is_read))]
fn parse_short_byte_string(bytes: &[u8]) -> Option<(&[u8], &[u8])>
    ensures { IfSome result (λ read. Reads IsByteString bytes.now read.1.now read.0.now) }
{
    let (len, rest) = codec::parse_short_var_u64(bytes)?;
    if len > rest.len() as u64 {
        return None;
    }
    Some(rest.split_at(len as usize))
}
