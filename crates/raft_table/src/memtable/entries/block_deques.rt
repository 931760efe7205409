//! How the blocks of a table's entries are kept, found and replaced.
//!
//! The *first indexes* of a table are those of the first entry of each block, kept in a deque of their own
//! (`Starts`), or not at all if there are few blocks. The *spot* of an entry is the number of its block and
//! its position in it.

ghost use Rattle.std.specs.Prelude.{◌≡◌, ◌≢◌, ◌+◌, ◌⊎◌, ◌-◌, ◌≤◌, ◌<◌, ℕ, List, [], ◌∷◌, ◌++◌, length, take, drop, slice_index_or, ◌^◌, MatchBool, OnOk, OnErr, IfOk};
ghost use Rattle.raft_table.specs.Common.{deque_len, deque_capacity, BlockSpans, block_spans, shown, count, starts_of, AreStarts, first_of_last, joined_blocks, seam, IsIndexOf, IsAt};

use crate::memtable::block::Block;
use crate::memtable::entries::{Blocks, Spans, Spot, Starts};
use raft_base::{AllocResult, FileBlockHandle};
use std::alloc::Global;
use std::collections::VecDeque;
use std::mem::swap;

/// Entries in at most this many blocks needn't keep first indexes: the blocks are walked to find an entry.
pub(super) const FEW: usize = 3;

/// Returns the spot of the entry at position `at` of the entries, counted from 0. If `starts` has the first
/// indexes, the block is found by them ([`find_spot`]); else the blocks are walked. `first` is the index of
/// the first entry, and `len` the number of all entries; they are for a good guess of the block.
pub(super) fn spot_at_position(
    blocks: &Blocks,
    starts: &Starts,
    first: u64,
    len: usize,
    at: usize,
) -> Spot
    requires starts { AreStarts first (shown blocks.now) starts.now.items }
    requires within { (at < count (shown blocks.now))
        × (first + count (shown blocks.now) < 2 ^ 64) }
    ensures { IsAt at (shown blocks.now) result.0 result.1 }
{
    if starts.is_empty() {
        return walk_to_spot(blocks, at);
    }
    find_spot(starts, first, len, first + at as u64)
}

/// Returns the spot of the entry that has `behind` entries before it, by a walk over the blocks.
fn walk_to_spot(blocks: &Blocks, behind: usize) -> Spot
    requires { behind < count (shown blocks.now) }
    ensures { IsAt behind (shown blocks.now) result.0 result.1 }
{
    let mut nth = 0;
    let mut rest = behind;
    while blocks[nth].spans.len() <= rest {
        rest -= blocks[nth].spans.len();
        nth += 1;
    }
    (nth, rest)
}

/// Returns the spot of the entry at `index`. Its block is guessed from the index of the first entry,
/// `first`, and the number of entries, `len`, as if all blocks were equally long; a wrong guess is found
/// out, and the block searched ([`binary_search_spot`]). Wrong numbers make a wrong guess, never a wrong
/// spot.
pub(super) fn find_spot(starts: &Starts, first: u64, len: usize, index: u64) -> Spot
    requires { IsIndexOf starts.now.items index }
    ensures { (i : ℕ) (bs : List BlockSpans) → starts.now.items ≡ starts_of i bs → i ≤ index →
        index < i + count bs → IsAt (index - i) bs result.0 result.1 }
{
    let last = starts.len() - 1;
    let behind = index.wrapping_sub(first).wrapping_mul(starts.len() as u64);
    let guess = ((behind / (len as u64).max(1)) as usize).min(last);
    let low = starts[guess];
    if low <= index && (guess == last || index < starts[guess + 1]) {
        return (guess, (index - low) as usize);
    }
    binary_search_spot(starts, index)
}

/// Returns the spot of the entry at `index`, by a binary search in the first indexes.
pub(super) fn binary_search_spot(starts: &Starts, index: u64) -> Spot
    requires { IsIndexOf starts.now.items index }
    ensures { (i : ℕ) (bs : List BlockSpans) → starts.now.items ≡ starts_of i bs → i ≤ index →
        index < i + count bs → IsAt (index - i) bs result.0 result.1 }
{
    let last = starts.len() - 1;
    let start = starts[last];
    if start <= index {
        return (last, (index - start) as usize);
    }
    let nth = starts.partition_point(|start: &u64| -> bool { *start <= index }) - 1;
    let start = starts[nth];
    (nth, (index - start) as usize)
}

/// Returns where the first `kept` entries end: in how many blocks they are, and how many of them are in the
/// last of these blocks. Both are 0 if `kept` is 0. `first` is the index of the first entry.
pub(super) fn spot_after_kept(starts: &Starts, first: u64, kept: usize) -> Spot
    requires bounded { first + kept < 2 ^ 64 }
    requires within { 0 < kept → IsIndexOf starts.now.items (first + (kept - 1)) }
    ensures none { kept ≡ 0 → (result.0 ≡ 0) × (result.1 ≡ 0) }
    ensures some { (bs : List BlockSpans) → 0 < kept → starts.now.items ≡ starts_of first bs →
        kept ≤ count bs
        → IsAt (kept - 1) bs (result.0 - 1) (result.1 - 1) × (0 < result.0) × (0 < result.1) }
{
    if kept == 0 {
        return (0, 0);
    }
    let (nth, last) = binary_search_spot(starts, first + (kept - 1) as u64);
    (nth + 1, last + 1)
}

/// Returns a copy of `spans` without the first `dropped` ones.
///
/// # Errors
///
/// `AllocError` if there is no memory for the copy.
pub(super) fn copy_spans_after(alloc: Global, spans: &Spans, dropped: usize) -> AllocResult<Spans>
    requires { dropped ≤ length spans.now.items }
    ensures ok { IfOk result (λ behind. behind.items ≡ drop dropped spans.now.items) }
{
    let mut behind = VecDeque::with_capacity(alloc, spans.len() - dropped)?;
    for i in dropped..spans.len() {
        behind.push_back_reserved(spans[i]);
    }
    Ok(behind)
}

/// Tests whether the places `a` and `b` have the same file, offset and length.
#[inline(always)]
pub(super) fn is_same_place(a: &FileBlockHandle, b: &FileBlockHandle) -> bool
    ensures { MatchBool result (a.now ≡ b.now) (a.now ≢ b.now) }
{
    a == b
}

/// Replaces the blocks from `spot` up to position `rest` by those of `more`: the first `spot.0` blocks stay,
/// the last of them with its first `spot.1` spans, and so do the blocks from position `rest` on. Does the
/// same with the first indexes, in `starts` and `more_starts`, and leaves `more` and `more_starts` empty. If
/// the last block before those of `more` has the same place as the first of them, the two become one block.
///
/// # Errors
///
/// `AllocError` if there is no memory for the blocks. All four deques are unchanged then.
pub(super) fn replace_blocks(
    blocks: &mut Blocks,
    starts: &mut Starts,
    spot: Spot,
    rest: usize,
    more: &mut Blocks,
    more_starts: &mut Starts,
) -> AllocResult<()>
    requires order { spot.0 ≤ rest }
    requires within { rest ≤ length blocks.old.items }
    requires kept { (d : Block) → 0 < spot.0
        → spot.1 ≤ length (slice_index_or blocks.old.items (spot.0 - 1) d).spans.items }
    requires starts { length starts.old.items ≡ length blocks.old.items }
    requires more { (0 < length more.old.items) ×
        (length more_starts.old.items ≡ length more.old.items) }
    ensures blocks { OnOk result (shown blocks.new
        ≡ joined_blocks (first_of_last spot.1 (take spot.0 (shown blocks.old)))
        (shown more.old) ++ drop rest (shown blocks.old)) }
    ensures starts { OnOk result (starts.new.items ≡ take spot.0 starts.old.items
        ++ drop (seam (take spot.0 (shown blocks.old))
        (shown more.old)) more_starts.old.items ++ drop rest starts.old.items) }
    ensures emptied { OnOk result ((more.new.items ≡ []) × (more_starts.new.items ≡ [])) }
    ensures err { OnErr result ((shown blocks.new ≡ shown blocks.old)
        × (starts.new.items ≡ starts.old.items) × (shown more.new ≡ shown more.old)
        × (more_starts.new.items ≡ more_starts.old.items)) }
{
    reserve_in_either(blocks, more)?;
    reserve_in_either(starts, more_starts)?;
    join_at_seam(blocks, spot, more, more_starts)?;
    splice(blocks, spot.0, rest, more);
    splice(starts, spot.0, rest, more_starts);
    Ok(())
}

/// Replaces the blocks from `spot` on by those of `more`, as [`replace_blocks`] does, without first indexes,
/// and leaves `more` empty: the first `spot.0` blocks stay, the last of them with its first `spot.1` spans.
///
/// # Errors
///
/// `AllocError` if there is no memory for the blocks. Both deques are unchanged then.
pub(super) fn replace_blocks_without_starts(
    blocks: &mut Blocks,
    spot: Spot,
    more: &mut Blocks,
) -> AllocResult<()>
    requires within { (0 < spot.0) × (spot.0 ≤ length blocks.old.items) }
    requires kept { (d : Block) → 0 < spot.0
        → spot.1 ≤ length (slice_index_or blocks.old.items (spot.0 - 1) d).spans.items }
    requires more { 0 < length more.old.items }
    ensures ok { OnOk result (shown blocks.new
        ≡ joined_blocks (first_of_last spot.1 (take spot.0 (shown blocks.old))) (shown more.old)) }
    ensures emptied { OnOk result (more.new.items ≡ []) }
    ensures err { OnErr result ((shown blocks.new ≡ shown blocks.old)
        × (shown more.new ≡ shown more.old)) }
{
    blocks.reserve(more.len())?;
    let mut no_starts = VecDeque::new(*blocks.allocator());
    join_at_seam(blocks, spot, more, &mut no_starts)?;
    blocks.truncate(spot.0);
    append_within_capacity(blocks, more);
    Ok(())
}

/// Makes room for the items of both deques in one of them, so that [`splice`] can't fail: in `deque` if it
/// has the room already or isn't shorter, else in `more`.
///
/// # Errors
///
/// `AllocError` if there is no memory for it. The items of both are unchanged then.
fn reserve_in_either<T>(deque: &mut VecDeque<T>, more: &mut VecDeque<T>) -> AllocResult<()>
    ensures items { (deque.new.items ≡ deque.old.items) × (more.new.items ≡ more.old.items) }
    ensures len { (deque_len deque.new ≡ deque_len deque.old) ×
        (deque_len more.new ≡ deque_len more.old) }
    ensures ok { OnOk result ((deque_len deque.new + deque_len more.new ≤ deque_capacity deque.new)
        ⊎ (deque_len deque.new + deque_len more.new ≤ deque_capacity more.new)) }
{
    let missing = deque.capacity() - deque.len() < more.len();
    if missing && deque.len() < more.len() {
        return more.reserve(deque.len());
    }
    deque.reserve(more.len())
}

/// Joins two lists of blocks where they meet, as the first half of [`replace_blocks`]. The last of the first
/// `spot.0` blocks keeps its first `spot.1` spans. If the first block of `more` has the same place, its
/// spans are moved to the end of those, and it is removed from `more`, and its first index from
/// `more_starts`. Without such a block (`spot.0` is 0) nothing changes.
///
/// # Errors
///
/// `AllocError` if there is no memory for the spans. All deques are unchanged then.
fn join_at_seam(
    blocks: &mut Blocks,
    spot: Spot,
    more: &mut Blocks,
    more_starts: &mut Starts,
) -> AllocResult<()>
    requires within { spot.0 ≤ length blocks.old.items }
    requires kept { (d : Block) → 0 < spot.0
        → spot.1 ≤ length (slice_index_or blocks.old.items (spot.0 - 1) d).spans.items }
    requires more { 0 < length more.old.items }
    ensures front { OnOk result (take spot.0 (shown blocks.new) ++ shown more.new
        ≡ joined_blocks (first_of_last spot.1 (take spot.0 (shown blocks.old))) (shown more.old)) }
    ensures behind { OnOk result ((n : ℕ) → spot.0 ≤ n
        → drop n (shown blocks.new) ≡ drop n (shown blocks.old)) }
    ensures starts { OnOk result (more_starts.new.items
        ≡ drop (seam (take spot.0 (shown blocks.old)) (shown more.old)) more_starts.old.items) }
    ensures room { (deque_len blocks.new ≡ deque_len blocks.old)
        × (deque_capacity blocks.new ≡ deque_capacity blocks.old) }
    ensures fewer { (deque_len more.new ≤ deque_len more.old)
        × (deque_len more_starts.new ≤ deque_len more_starts.old) }
    ensures kept_room { (deque_capacity more.new ≡ deque_capacity more.old)
        × (deque_capacity more_starts.new ≡ deque_capacity more_starts.old) }
    ensures err { OnErr result ((shown blocks.new ≡ shown blocks.old)
        × (shown more.new ≡ shown more.old) × (more_starts.new.items ≡ more_starts.old.items)) }
{
    let (nth, kept) = spot;
    if nth == 0 {
        return Ok(());
    }
    let last = nth - 1;
    if !is_same_place(&blocks[last].handle, &more[0].handle) {
        blocks[last].spans.truncate(kept);
        return Ok(());
    }
    lengthen_block(&mut blocks[last], kept, &mut more[0].spans)?;
    drop_first_item(more);
    drop_first_item(more_starts);
    Ok(())
}

/// Removes the first item of `deque`, if there is one.
fn drop_first_item<T: Drop>(deque: &mut VecDeque<T>)
    ensures items { deque.new.items ≡ drop 1 deque.old.items }
    ensures fewer { deque_len deque.new ≤ deque_len deque.old }
    ensures capacity { deque_capacity deque.new ≡ deque_capacity deque.old }
{
    drop(deque.pop_front());
}

/// Fills `starts` with the first index of each block, unless it has them already. `first` is the index of the
/// first entry.
///
/// # Errors
///
/// `AllocError` if there is no memory for them. `starts` is unchanged then.
#[inline(always)]
pub(super) fn ensure_starts(blocks: &Blocks, starts: &mut Starts, first: u64) -> AllocResult<()>
    requires starts { AreStarts first (shown blocks.now) starts.old.items }
    requires bounded { 0 < length blocks.now.items → first + count (shown blocks.now) < 2 ^ 64 }
    ensures ok { OnOk result (starts.new.items ≡ starts_of first (shown blocks.now)) }
    ensures err { OnErr result (starts.new.items ≡ starts.old.items) }
{
    if !starts.is_empty() {
        return Ok(());
    }
    starts.reserve(blocks.len())?;
    push_starts(blocks, starts, first);
    Ok(())
}

/// Appends the first index of each block to `starts`, which is empty and has room for them. `first` is the
/// index of the first entry.
#[inline(never)]
fn push_starts(blocks: &Blocks, starts: &mut Starts, first: u64)
    requires none { starts.old.items ≡ [] }
    requires room { length blocks.now.items ≤ deque_capacity starts.old }
    requires bounded { 0 < length blocks.now.items → first + count (shown blocks.now) < 2 ^ 64 }
    ensures { starts.new.items ≡ starts_of first (shown blocks.now) }
{
    let mut index = first;
    for i in 0..blocks.len() {
        starts.push_back_reserved(index);
        index += blocks[i].spans.len() as u64;
    }
}

/// Appends `block` to `blocks`, and `index`, the index of its first entry, to `starts`. If the last block has
/// the same place, only the spans are appended, to that block.
///
/// # Errors
///
/// `AllocError` if there is no memory for it. The items of both deques are unchanged then, and `block` is
/// dropped.
#[inline(always)]
pub(super) fn push_block_with_start(
    blocks: &mut Blocks,
    starts: &mut Starts,
    index: u64,
    block: Block,
) -> AllocResult<()>
    ensures blocks { OnOk result (shown blocks.new
        ≡ joined_blocks (shown blocks.old) (block_spans block ∷ [])) }
    ensures starts { OnOk result (starts.new.items ≡ starts.old.items
        ++ drop (seam (shown blocks.old) (block_spans block ∷ [])) (index ∷ [])) }
    ensures err { OnErr result ((shown blocks.new ≡ shown blocks.old)
        × (starts.new.items ≡ starts.old.items)) }
{
    starts.reserve(1)?;
    let len = blocks.len();
    push_block(blocks, block)?;
    if len == blocks.len() {
        return Ok(());
    }
    starts.push_back_reserved(index);
    Ok(())
}

/// Appends `block` to `blocks`. If the last block has the same place, only the spans are appended, to that
/// block.
///
/// # Errors
///
/// `AllocError` if there is no memory for it. `blocks` is unchanged then, and `block` is dropped.
#[inline(always)]
pub(super) fn push_block(blocks: &mut Blocks, mut block: Block) -> AllocResult<()>
    ensures ok { OnOk result (shown blocks.new
        ≡ joined_blocks (shown blocks.old) (block_spans block ∷ [])) }
    ensures err { OnErr result (shown blocks.new ≡ shown blocks.old) }
{
    let len = blocks.len();
    if len > 0 {
        let last = len - 1;
        if is_same_place(&blocks[last].handle, &block.handle) {
            let kept = blocks[last].spans.len();
            return lengthen_block(&mut blocks[last], kept, &mut block.spans);
        }
    }
    if blocks.capacity() == 0 {
        blocks.reserve_exact(FEW)?;
    }
    blocks.push_back(block)?;
    Ok(())
}

/// Keeps the first `kept` spans of `block`, and moves the spans of `more` to their end.
///
/// # Errors
///
/// `AllocError` if there is no memory for them. `block` and `more` are unchanged then.
#[inline(never)]
fn lengthen_block(block: &mut Block, kept: usize, more: &mut Spans) -> AllocResult<()>
    requires { kept ≤ length block.old.spans.items }
    ensures handle { block.new.handle ≡ block.old.handle }
    ensures ok { OnOk result (block.new.spans.items
        ≡ take kept block.old.spans.items ++ more.old.items) }
    ensures err { OnErr result ((block.new.spans.items ≡ block.old.spans.items) ×
        (more.new.items ≡ more.old.items)) }
{
    let len = block.spans.len();
    block.spans.reserve(more.len().saturating_sub(len - kept))?;
    block.spans.truncate(kept);
    if block.spans.append(more).is_err() {
        unreachable!()
    }
    Ok(())
}

/// Replaces the items of `deque` from position `kept` up to position `rest` by those of `more`, and leaves
/// `more` empty. If both are equally many, the new ones are put at the positions of the old ones. Otherwise
/// one of the deques must have room for all items ([`reserve_in_either`]), and `deque` then has its memory.
fn splice<T: Drop>(deque: &mut VecDeque<T>, kept: usize, rest: usize, more: &mut VecDeque<T>)
    requires order { kept ≤ rest }
    requires within { rest ≤ deque_len deque.old }
    requires room { (deque_len deque.old + deque_len more.old ≤ deque_capacity deque.old)
        ⊎ (deque_len deque.old + deque_len more.old ≤ deque_capacity more.old) }
    ensures items { deque.new.items
        ≡ take kept deque.old.items ++ more.old.items ++ drop rest deque.old.items }
    ensures emptied { more.new.items ≡ [] }
{
    let as_many = more.len() == rest - kept;
    if as_many {
        return overwrite_items(deque, kept, more);
    }
    let behind = deque.len() - rest;
    let has_room = more.len() <= deque.capacity() - deque.len();
    deque.rotate_left(rest);
    deque.truncate(behind + kept);
    if has_room {
        append_within_capacity(deque, more);
        deque.rotate_left(behind);
        return;
    }
    append_within_capacity(more, deque);
    more.rotate_right(kept);
    swap(deque, more);
}

/// Puts the items of `more` in place of as many items of `deque`, from position `at` on, and leaves `more`
/// empty.
fn overwrite_items<T: Drop>(deque: &mut VecDeque<T>, at: usize, more: &mut VecDeque<T>)
    requires within { at + deque_len more.old ≤ deque_len deque.old }
    ensures items { deque.new.items ≡ take at deque.old.items ++ more.old.items
        ++ drop (at + deque_len more.old) deque.old.items }
    ensures emptied { more.new.items ≡ [] }
{
    let mut next = at;
    while let Some(item) = more.pop_front() {
        deque[next] = item;
        next += 1;
    }
}

/// Moves the items of `more` to the end of `deque`, which has room for them, so that it can't fail.
fn append_within_capacity<T>(deque: &mut VecDeque<T>, more: &mut VecDeque<T>)
    requires room { deque_len deque.old + deque_len more.old ≤ deque_capacity deque.old }
    ensures items { deque.new.items ≡ deque.old.items ++ more.old.items }
    ensures len { deque_len deque.new ≡ deque_len deque.old + deque_len more.old }
    ensures emptied { more.new.items ≡ [] }
{
    if deque.append(more).is_err() {
        unreachable!()
    }
}
