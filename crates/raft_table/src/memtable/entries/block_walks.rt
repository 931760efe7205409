//! Walks over the entries of some blocks, in order.
//!
//! Each walk goes over the entries at the positions `start..end` of all entries; `spot` is the spot of the
//! entry at `start`: the number of its block, and its position in it.

ghost use Rattle.std.specs.Prelude.{◌≡◌, ◌+◌, ◌-◌, ◌≤◌, ◌<◌, ◌^◌, ◌++◌, ℕ, List, map, take, drop, slice_index_or, length, Some};
ghost use Rattle.raft_table.specs.Common.{prefix_len, vec_len, vec_capacity, EntryIndex, entries_of_block, BlockSpans, block_spans, shown, entries_in_blocks, AreDistinctBlocks, count, without_span, with_spans, IsAt, IsPart, IsLimitCount};
ghost use Rattle.raft_table.specs.Common.{may_move};

use crate::memtable::block::Block;
use crate::memtable::entries::{Blocks, Spot};
use raft_base::{EntryIndex, FileBlockHandle, FileSeq, LogQueue};

/// Appends the entries at the positions `start..end` to `vec`, which has room for them. `first` is the index
/// of the entry at position 0, and `spot` the spot of that at `start`.
///
/// The entries are appended without their spans first, and a second walk sets these. The spans of each block
/// are elsewhere in memory, and a walk that does little else can have those of several blocks fetched at
/// once.
pub(super) fn push_entries(
    vec: &mut Vec<EntryIndex>,
    first: u64,
    blocks: &Blocks,
    spot: Spot,
    start: usize,
    end: usize,
)
    requires part { IsPart (shown blocks.now) spot start end }
    requires bounded { first + end < 2 ^ 64 }
    requires room { vec_len vec.old + (end - start) ≤ vec_capacity vec.old }
    ensures { vec.new.items ≡ vec.old.items ++ drop start
        (take end (entries_in_blocks first (shown blocks.now))) }
{
    let len = vec.len();
    push_without_spans(vec, first, blocks, spot, start, end);
    set_spans(vec, len, blocks, spot, start, end);
}

/// Appends the entries at the positions `start..end` to `vec`, with offset and length 0: the first walk of
/// [`push_entries`].
fn push_without_spans(
    vec: &mut Vec<EntryIndex>,
    first: u64,
    blocks: &Blocks,
    spot: Spot,
    start: usize,
    end: usize,
)
    requires part { IsPart (shown blocks.now) spot start end }
    requires bounded { first + end < 2 ^ 64 }
    requires room { vec_len vec.old + (end - start) ≤ vec_capacity vec.old }
    ensures { vec.new.items ≡ vec.old.items
        ++ map without_span (drop start (take end (entries_in_blocks first (shown blocks.now)))) }
{
    let (mut nth, mut at) = spot;
    let mut done = start;
    while done < end {
        let block = &blocks[nth];
        let count = (block.spans.len() - at).min(end - done);
        push_block_without_spans(vec, first + done as u64, block, at, count);
        done += count;
        nth += 1;
        at = 0;
    }
}

/// Appends `count` entries of `block`, from position `at` in it on, to `vec`, with offset and length 0. The
/// first has the index `first`.
fn push_block_without_spans(
    vec: &mut Vec<EntryIndex>,
    first: u64,
    block: &Block,
    at: usize,
    count: usize,
)
    requires within { at + count ≤ length block.now.spans.items }
    requires bounded { first + count < 2 ^ 64 }
    requires room { vec_len vec.old + count ≤ vec_capacity vec.old }
    ensures items { vec.new.items
        ≡ vec.old.items
        ++ map without_span
        (entries_of_block first block.now.handle (take count (drop at block.now.spans.items))) }
    ensures len { vec_len vec.new ≡ vec_len vec.old + count }
    ensures capacity { vec_capacity vec.new ≡ vec_capacity vec.old }
{
    let handle = block.handle;
    for index in first..first + count as u64 {
        vec.push_reserved(EntryIndex {
            index,
            entries: Some(handle),
            ..EntryIndex::default()
        });
    }
}

/// Sets the offsets and lengths of the entries that [`push_without_spans`] appended after the first `len`
/// entries of `vec`: the second walk of [`push_entries`].
fn set_spans(
    vec: &mut Vec<EntryIndex>,
    len: usize,
    blocks: &Blocks,
    spot: Spot,
    start: usize,
    end: usize,
)
    requires part { IsPart (shown blocks.now) spot start end }
    requires there { len + (end - start) ≤ length vec.old.items }
    ensures { (i : ℕ) (front : List EntryIndex) → length front ≡ len → vec.old.items ≡ front
        ++ map without_span (drop start
        (take end (entries_in_blocks i
        (shown blocks.now)))) → vec.new.items ≡ front
        ++ drop start (take end (entries_in_blocks i (shown blocks.now))) }
{
    let (mut nth, mut at) = spot;
    let mut done = start;
    while done < end {
        let block = &blocks[nth];
        let count = (block.spans.len() - at).min(end - done);
        set_spans_of_block(vec, len + (done - start), block, at, count);
        done += count;
        nth += 1;
        at = 0;
    }
}

/// Sets the offsets and lengths of `count` entries of `vec`, from position `len` on, to the spans of `block`
/// from position `at` in it on.
fn set_spans_of_block(vec: &mut Vec<EntryIndex>, len: usize, block: &Block, at: usize, count: usize)
    requires within { at + count ≤ length block.now.spans.items }
    requires there { len + count ≤ length vec.old.items }
    ensures items { vec.new.items ≡ take len vec.old.items
        ++ with_spans (take count (drop at block.now.spans.items)) (drop len vec.old.items) }
    ensures len { length vec.new.items ≡ length vec.old.items }
{
    let mut i = len;
    for span in block.spans.range(at..at + count) {
        let entry = &mut vec[i];
        entry.entry_offset = span.0;
        entry.entry_len = span.1;
        i += 1;
    }
}

/// Returns how many of the entries at the positions `start..end` come before the first one that a rewriting
/// with this `gate` may not move ([`is_movable`]). `spot` is the spot of the entry at `start`. The entries of
/// a block have one place, so it looks at each block once.
pub(super) fn count_movable_from(
    blocks: &Blocks,
    spot: Spot,
    start: usize,
    end: usize,
    gate: Option<FileSeq>,
) -> usize
    requires { IsPart (shown blocks.now) spot start end }
    ensures { (i : ℕ) → result ≡ prefix_len (may_move gate)
        (drop start (take end (entries_in_blocks i (shown blocks.now)))) }
{
    let (mut nth, mut at) = spot;
    let mut done = start;
    while done < end {
        let block = &blocks[nth];
        if !is_movable(&block.handle, gate) {
            return done - start;
        }
        done += (block.spans.len() - at).min(end - done);
        nth += 1;
        at = 0;
    }
    end - start
}

/// Tests whether a rewriting may move an entry away from the place `handle`: with a `gate`, if the number of
/// its file is at most `gate`; without one, if it is in the rewrite queue.
#[tactic(auto, unfolding(crate::specs::TableEntries::is_placed_in, crate::specs::Rewriting::is_placed_before))]
fn is_movable(handle: &FileBlockHandle, gate: Option<FileSeq>) -> bool
    ensures { (e : EntryIndex) → e.entries ≡ Some handle.now → result ≡ may_move gate e }
{
    match gate {
        Some(gate) => handle.id.seq <= gate,
        None => matches!(handle.id.queue, LogQueue::Rewrite),
    }
}

/// Returns how many of the entries at the positions `start..end` a fetch with this `limit` in bytes returns:
/// those before the first one with which the total length exceeds `limit`, unless no entry before that one
/// has any bytes. `spot` is the spot of the entry at `start`.
pub(super) fn count_within_limit_from(
    blocks: &Blocks,
    mut spot: Spot,
    start: usize,
    end: usize,
    limit: usize,
) -> usize
    requires { IsPart (shown blocks.now) spot start end }
    ensures { (i : ℕ) → IsLimitCount (Some limit)
        (drop start (take end (entries_in_blocks i (shown blocks.now)))) result }
{
    let mut total = 0u128;
    for i in start..end {
        let block = &blocks[spot.0];
        let sum = total + u128::from(block.spans[spot.1].1);
        if sum > limit as u128 && total > 0 {
            return i - start;
        }
        total = sum;
        spot = next_spot(block, spot);
    }
    end - start
}

/// Returns the spot after `spot`: the next one in `block`, which is the block of `spot`, or the first one of
/// the next block.
fn next_spot(block: &Block, spot: Spot) -> Spot
    requires within { spot.0 + 1 < 2 ^ 64 }
    requires inside { spot.1 < length block.now.spans.items }
    ensures { (p : ℕ) (bs : List BlockSpans) → IsAt p bs spot.0 spot.1 → AreDistinctBlocks bs
        → block_spans block.now ≡ slice_index_or bs spot.0 (block_spans block.now)
        → p + 1 < count bs
        → IsAt (p + 1) bs result.0 result.1 }
{
    let (nth, at) = spot;
    if at + 1 < block.spans.len() {
        return (nth, at + 1);
    }
    (nth + 1, 0)
}
