//! How the first or the last entries of a table are dropped.

ghost use Rattle.std.specs.Prelude.{◌≡◌, ◌≢◌, ◌+◌, ◌≤◌, ◌<◌, [], length, take, drop, set, slice_index_or};
ghost use Rattle.raft_table.specs.Common.{Block, shown, first_of_last, without_first_of_first, end_of, below, from, AreCounted, AreRecounted, counts_without, entries_within};

use crate::global_stats::GlobalStats;
use crate::memtable::entries::block_deques::spot_at_position;
use crate::memtable::entries::{Blocks, Entries, Starts};
use crate::memtable::mark::cap_at_cut;
use raft_base::LogQueue;
use std::collections::VecDeque;

impl Entries {
    /// Drops the entries below `index`, subtracts them from the live counts, and returns how many it dropped.
    pub fn compact_to(&mut self, index: u64, stats: &mut GlobalStats) -> u64
        requires { AreCounted self.old stats.old }
        ensures entries { self.new ≡ from index self.old }
        ensures dropped { result + length self.new ≡ length self.old }
        ensures counts { stats.new ≡ counts_without (below index self.old) stats.old }
        ensures recounted { AreRecounted self.old self.new stats.old stats.new }
    {
        let count = index.saturating_sub(self.first).min(self.len as u64) as usize;
        if count == 0 {
            return 0;
        }
        let rewritten = self.rewritten.min(count);
        self.drop_front(count);
        stats.delete(LogQueue::Rewrite, rewritten);
        stats.delete(LogQueue::Append, count - rewritten);
        count as u64
    }

    /// Drops the entries at or above `index`, subtracts them from the live counts, and returns how many it
    /// dropped.
    pub fn truncate_from(&mut self, index: u64, stats: &mut GlobalStats) -> u64
        requires { AreCounted self.old stats.old }
        ensures entries { self.new ≡ below index self.old }
        ensures dropped { result + length self.new ≡ length self.old }
        ensures counts { stats.new ≡ counts_without (from index self.old) stats.old }
        ensures recounted { AreRecounted self.old self.new stats.old stats.new }
    {
        if self.len == 0 {
            return 0;
        }
        let keep = index.saturating_sub(self.first).min(self.len as u64) as usize;
        let dropped = self.len - keep;
        let (rewritten, appended) = self.count_after(keep);
        self.keep_front(keep);
        stats.delete(LogQueue::Rewrite, rewritten);
        stats.delete(LogQueue::Append, appended);
        dropped as u64
    }

    /// Drops the entries below `index` and, with a `cut`, those at or above it, and subtracts them from the
    /// live counts. Joins of tables use it for what newer steps took away.
    pub fn keep_within(&mut self, index: u64, cut: Option<u64>, stats: &mut GlobalStats)
        requires { AreCounted self.old stats.old }
        ensures entries { self.new ≡ entries_within index cut self.old }
        ensures recounted { AreRecounted self.old self.new stats.old stats.new }
    {
        self.compact_to(index, stats);
        let Some(cut) = cut else {
            return;
        };
        self.truncate_from(cut, stats);
    }

    /// Returns the index after that of the last entry, or 0 if there are no entries.
    pub fn end(&self) -> u64
        ensures { result ≡ end_of self.now }
    {
        self.holds_one_run();
        match self.last_index() {
            Some(last) => last + 1,
            None => 0,
        }
    }

    /// Returns the index after that of the last entry at or above `index` and, with a `cut`, below it.
    /// Returns 0 if there is no such entry.
    pub fn end_within(&self, index: u64, cut: Option<u64>) -> u64
        ensures { result ≡ end_of (entries_within index cut self.now) }
    {
        let end = cap_at_cut(self.end(), cut);
        if self.first.max(index) < end {
            return end;
        }
        0
    }

    /// Drops the first `count` entries. The live counts are left to the caller.
    fn drop_front(&mut self, count: usize)
        requires { count ≤ length self.old }
        ensures { self.new ≡ drop count self.old }
    {
        if count == self.len {
            self.clear();
            return;
        }
        let index = self.first + count as u64;
        let (nth, dropped) = spot_at_position(
            &self.blocks,
            &self.starts,
            self.first,
            self.len,
            count,
        );
        drop_front_blocks(&mut self.blocks, nth, dropped);
        drop_front_starts(&mut self.starts, nth, index);
        self.first = index;
        self.len -= count;
        self.rewritten -= self.rewritten.min(count);
    }

    /// Drops all entries but the first `count`. The live counts are left to the caller.
    fn keep_front(&mut self, count: usize)
        requires { count ≤ length self.old }
        ensures { self.new ≡ take count self.old }
    {
        if count == 0 {
            self.clear();
            return;
        }
        let (nth, last) = spot_at_position(
            &self.blocks,
            &self.starts,
            self.first,
            self.len,
            count - 1,
        );
        keep_front_blocks(&mut self.blocks, nth, last + 1);
        self.starts.truncate(nth + 1);
        self.len = count;
        self.rewritten = self.rewritten.min(count);
    }

    /// Drops all entries. The live counts are left to the caller.
    pub(super) fn clear(&mut self)
        ensures { self.new ≡ [] }
    {
        self.blocks.clear();
        self.starts.clear();
        self.len = 0;
        self.rewritten = 0;
    }
}

/// Drops the blocks after the one at position `nth`, and all but the first `kept` spans of that one.
fn keep_front_blocks(blocks: &mut Blocks, nth: usize, kept: usize)
    requires nth { nth < length blocks.old.items }
    ensures { shown blocks.new ≡ first_of_last kept (take (nth + 1) (shown blocks.old)) }
{
    blocks.truncate(nth + 1);
    blocks[nth].spans.truncate(kept);
}

/// Drops the blocks before the one at position `nth`, and the first `dropped` spans of that one.
fn drop_front_blocks(blocks: &mut Blocks, nth: usize, dropped: usize)
    requires nth { nth < length blocks.old.items }
    requires dropped { (d : Block) → dropped
        ≤ length (slice_index_or blocks.old.items nth d).spans.items }
    ensures { shown blocks.new ≡ without_first_of_first dropped (drop nth (shown blocks.old)) }
{
    drop_first_items(blocks, nth);
    drop_first_items(&mut blocks[0].spans, dropped);
}

/// Drops the first indexes of the blocks before the one at position `nth`, and sets that block's first index
/// to `index`. If `starts` is empty, since first indexes aren't kept, it stays empty.
fn drop_front_starts(starts: &mut Starts, nth: usize, index: u64)
    requires { starts.old.items ≢ [] → nth < length starts.old.items }
    ensures none { starts.old.items ≡ [] → starts.new.items ≡ [] }
    ensures some { starts.old.items ≢ [] → starts.new.items
        ≡ set (drop nth starts.old.items) 0 index }
{
    if starts.is_empty() {
        return;
    }
    drop_first_items(starts, nth);
    starts[0] = index;
}

/// Drops the first `count` items of `deque`, which has as many.
fn drop_first_items<T: Drop>(deque: &mut VecDeque<T>, count: usize)
    requires { count ≤ length deque.old.items }
    ensures { deque.new.items ≡ drop count deque.old.items }
{
    for _ in 0..count {
        drop(deque.pop_front());
    }
}
