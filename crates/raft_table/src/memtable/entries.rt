//! [`Entries`]: the entries of a region's table, in order of their indexes. Their *end* is the index after
//! that of the last one.

ghost use Rattle.std.specs.Prelude.{◌≡◌, ◌≢◌, ◌+◌, ◌<◌, [], length, MatchOption};
ghost use Rattle.raft_table.specs.Common.{shown, entries_in_blocks, AreDistinctBlocks, block_count, end_of, AreTableEntries, start_of, entry_at, entry_count};

mod block_deques;
mod block_walks;
mod compact_truncate;
mod fetch;
mod places;
mod put_runs;
mod runs;

use crate::memtable::block::Block;
use crate::memtable::entries::block_deques::spot_at_position;
use raft_base::{CompressionType, EntryIndex, LogQueue};
use std::alloc::Global;
use std::collections::VecDeque;
use std::marker::Model;

/// The blocks of a table, in order of their entries' indexes.
type Blocks = VecDeque<Block>;

/// The index of the first entry of each block. It is empty if these aren't kept: entries in at most `FEW`
/// blocks needn't keep them, since a walk over the blocks is quick.
type Starts = VecDeque<u64>;

/// The offset of each entry of a block in its entry block, and its length in bytes.
type Spans = VecDeque<(u32, u32)>;

/// Where an entry is kept: the number of its block, and its position in that block, both counted from 0.
type Spot = (usize, usize);

/// The entries of a region's table: one run of indexes, in which rewritten entries come before appended ones.
///
/// They are kept in blocks: neighbors that have the same place share one, so an entry itself takes 8 bytes.
#[derive(Drop)]
pub struct Entries {
    /// The index of the first entry; any number if there are no entries.
    first: u64,
    /// The number of entries in all blocks.
    len: usize,
    /// The entries, in blocks. No block is empty, and neighboring blocks have different places.
    blocks: Blocks,
    /// The index of the first entry of each block, or nothing.
    starts: Starts,
    /// The number of entries whose place is in the rewrite queue.
    rewritten: usize,
}

/// Where a run begins, compared with the entries of a table.
#[derive(Clone, Copy)]
enum Start {
    /// Among the entries or right after them: this many of them are below its first index.
    Joins(usize),
    /// Below the first entry.
    InFront,
    /// Above the end of the entries, so that indexes between would be missing.
    BehindHole,
}

/// The indexes that a run shares with the entries of a table.
#[derive(Clone, Copy)]
struct Overlap {
    /// The position among the entries of the first shared index.
    at: usize,
    /// The position in the run of the first shared index.
    skipped: usize,
    /// The number of shared indexes, at least 1.
    count: usize,
}

impl Model for Entries {
    ghost use Rattle.std.specs.Prelude.{List};
    ghost use Rattle.raft_base.specs.declared.entry_index.EntryIndex.{EntryIndex};
    ghost use Rattle.raft_table.specs.Blocks.{blocks_shown, entries_in_blocks};
    ghost use Rattle.raft_table.specs.BlockWords.{AreKept, AreStarts, starts_of};

    ghost Value = { List EntryIndex };

    ghost view = { λ a. entries_in_blocks a.first (blocks_shown a.blocks.items) };

    ghost invariant = { λ a.
        AreKept a.first a.len (blocks_shown a.blocks.items)
        (starts_of a.first (blocks_shown a.blocks.items)) a.rewritten
        × AreStarts a.first (blocks_shown a.blocks.items) a.starts.items };
}

impl Entries {
    /// Returns no entries. Blocks will be allocated from `alloc`; nothing is allocated yet.
    pub fn new(alloc: Global) -> Entries
        ensures { result ≡ [] }
    {
        Entries {
            first: 0,
            len: 0,
            blocks: VecDeque::new(alloc),
            starts: VecDeque::new(alloc),
            rewritten: 0,
        }
    }

    /// States that the entries are one run, each has a place, and the rewritten ones come first. This is a
    /// law: it computes nothing, and bodies call it so that their proofs know this of the entries.
    pub fn holds_one_run(&self)
        ensures { AreTableEntries self.now }
    {
        let _ = &self.blocks;
    }

    /// Returns the blocks of the entries, in order of their indexes. No block is empty, and neighboring
    /// blocks have different places.
    pub fn blocks(&self) -> &VecDeque<Block>
        ensures entries { entries_in_blocks (start_of self.now) (shown result.now) ≡ self.now }
        ensures distinct { AreDistinctBlocks (shown result.now) }
        ensures count { length result.now.items ≡ block_count self.now }
    {
        &self.blocks
    }

    /// Returns the index of the first entry, or `None` if there are no entries.
    pub fn first_index(&self) -> Option<u64>
        ensures { MatchOption result (self.now ≡ []) (λ i. (self.now ≢ []) ×
            (i ≡ start_of self.now)) }
    {
        if self.len == 0 {
            return None;
        }
        Some(self.first)
    }

    /// Returns the index of the last entry, or `None` if there are no entries.
    pub fn last_index(&self) -> Option<u64>
        ensures { MatchOption result (self.now ≡ []) (λ i. i + 1 ≡ end_of self.now) }
    {
        if self.len == 0 {
            return None;
        }
        Some(self.first + (self.len - 1) as u64)
    }

    /// Returns the number of entries in all blocks.
    #[tactic(auto, using(crate::proofs::BlockCuts::kept_facts))]
    pub fn len(&self) -> usize
        ensures { result ≡ length self.now }
    {
        self.len
    }

    /// Returns the number of entries whose place is in a file of `queue`.
    pub fn count_in(&self, queue: LogQueue) -> usize
        ensures { result ≡ entry_count queue self.now }
    {
        match queue {
            LogQueue::Append => self.len - self.rewritten,
            LogQueue::Rewrite => self.rewritten,
        }
    }

    /// Returns the allocator that blocks are allocated from.
    pub(crate) fn allocator(&self) -> Global {
        *self.blocks.allocator()
    }

    /// Returns the entry at `index`, with its place, or `None` if there is no entry at it.
    pub fn get(&self, index: u64) -> Option<EntryIndex>
        ensures { result ≡ entry_at index self.now }
    {
        if index < self.first {
            return None;
        }
        let at = (index - self.first) as usize;
        if at >= self.len {
            return None;
        }
        let (nth, below) = spot_at_position(&self.blocks, &self.starts, self.first, self.len, at);
        let block = &self.blocks[nth];
        let span = block.spans[below];
        Some(EntryIndex {
            index,
            entries: Some(block.handle),
            compression_type: CompressionType::None,
            entry_offset: span.0,
            entry_len: span.1,
        })
    }
}
