//! How entries are fetched from a table, and how many of them a fetch or a rewriting takes.

ghost use Rattle.std.specs.Prelude.{◌≡◌, ◌+◌, ◌-◌, ◌≤◌, ◌<◌, ◌++◌, take, drop, length, OnOk, OnErr, IfErr};
ghost use Rattle.raft_table.specs.Common.{prefix_len, slice_get, Append, Rewrite, placed_in, Fetches, IsFetchFault, IsLimitCount, range_answer, appended_before, entry_seq, first_entry_seq, may_move};

use crate::memtable::entries::Entries;
use crate::memtable::entries::block_deques::spot_at_position;
use crate::memtable::entries::block_walks::{
    count_movable_from, count_within_limit_from, push_entries,
};
use raft_base::{EntryIndex, Error, FileSeq, LogQueue, Result};

impl Entries {
    /// Appends the entries with indexes in `begin..end` to `vec`, in order. With a `limit` in bytes, it ends
    /// before the first entry with which the total length exceeds `limit`, unless no entry before it has any
    /// bytes.
    ///
    /// # Errors
    ///
    /// For a range that isn't empty: `EntryNotFound` if there are no entries; `EntryCompacted` if `begin` is
    /// below the first entry; `EntryNotFound` if `end` is above the end of the entries; else `Memory` alone.
    /// `vec` is unchanged then.
    pub fn fetch_to(
        &self,
        begin: u64,
        end: u64,
        limit: Option<usize>,
        vec: &mut Vec<EntryIndex>,
    ) -> Result<()>
        ensures ok { OnOk result
            (Fetches limit begin end self.now vec.old.items vec.new.items
            (range_answer begin end self.now)) }
        ensures fault { IfErr result (IsFetchFault (range_answer begin end self.now)) }
        ensures err { OnErr result (vec.new.items ≡ vec.old.items) }
    {
        if end <= begin {
            return Ok(());
        }
        if self.len == 0 {
            return Err(Error::EntryNotFound);
        }
        if begin < self.first {
            return Err(Error::EntryCompacted);
        }
        if end - self.first > self.len as u64 {
            return Err(Error::EntryNotFound);
        }
        let start = (begin - self.first) as usize;
        let count = self.count_within_limit(start, (end - self.first) as usize, limit);
        self.push_range_into(vec, start, start + count)
    }

    /// Appends all entries whose place is in the rewrite queue to `vec`, in order.
    ///
    /// # Errors
    ///
    /// `Memory` alone. `vec` is unchanged then.
    pub fn fetch_rewritten(&self, vec: &mut Vec<EntryIndex>) -> Result<()>
        ensures ok { OnOk result (vec.new.items ≡ vec.old.items ++ placed_in Rewrite self.now) }
        ensures err { OnErr result (vec.new.items ≡ vec.old.items) }
        ensures memory { IfErr result (λ e. e ≡ Error.Memory) }
    {
        self.push_range_into(vec, 0, self.rewritten)
    }

    /// Appends entries whose place is in the append queue to `vec`, from the first such entry on, as long as
    /// the numbers of their files are at most `gate`.
    ///
    /// # Errors
    ///
    /// `Memory` alone. `vec` is unchanged then.
    pub fn fetch_appended_up_to(&self, gate: FileSeq, vec: &mut Vec<EntryIndex>) -> Result<()>
        ensures ok { OnOk result (vec.new.items ≡ vec.old.items ++ appended_before gate self.now) }
        ensures err { OnErr result (vec.new.items ≡ vec.old.items) }
        ensures memory { IfErr result (λ e. e ≡ Error.Memory) }
    {
        let start = self.rewritten;
        let count = self.count_movable(start, self.len, Some(gate));
        self.push_range_into(vec, start, start + count)
    }

    /// Returns the number of the file of the entry at position `at`, counted from 0, or `None` if there are
    /// no more than `at` entries.
    pub fn seq_at(&self, at: usize) -> Option<FileSeq>
        ensures { result ≡ entry_seq (slice_get self.now at) }
    {
        if at >= self.len {
            return None;
        }
        let (nth, _) = spot_at_position(&self.blocks, &self.starts, self.first, self.len, at);
        Some(self.blocks[nth].handle.id.seq)
    }

    /// Returns the number of the file of the first entry whose place is in `queue`, or `None` if there is no
    /// such entry.
    pub fn first_entry_seq_in(&self, queue: LogQueue) -> Option<FileSeq>
        ensures { result ≡ first_entry_seq queue self.now }
    {
        match queue {
            LogQueue::Append => self.seq_at(self.rewritten),
            LogQueue::Rewrite if self.rewritten == 0 => None,
            LogQueue::Rewrite => self.seq_at(0),
        }
    }

    /// Returns how many of the entries at the positions `at..end` come before the first one that a rewriting
    /// with this `gate` may not move: one whose file number is above `gate` or, without a gate, one that
    /// isn't rewritten already.
    pub(super) fn count_movable(&self, at: usize, end: usize, gate: Option<FileSeq>) -> usize
        requires order { at ≤ end }
        requires within { end ≤ length self.now }
        ensures { result ≡ prefix_len (may_move gate) (drop at (take end self.now)) }
    {
        if at == end {
            return 0;
        }
        let spot = spot_at_position(&self.blocks, &self.starts, self.first, self.len, at);
        count_movable_from(&self.blocks, spot, at, end, gate)
    }

    /// Returns how many of the entries at the positions `start..end` a fetch with this `limit` in bytes
    /// returns ([`Entries::fetch_to`]): all of them without a limit.
    fn count_within_limit(&self, start: usize, end: usize, limit: Option<usize>) -> usize
        requires order { start ≤ end }
        requires within { end ≤ length self.now }
        ensures { IsLimitCount limit (drop start (take end self.now)) result }
    {
        let Some(limit) = limit else {
            return end - start;
        };
        if start == end {
            return 0;
        }
        let spot = spot_at_position(&self.blocks, &self.starts, self.first, self.len, start);
        count_within_limit_from(&self.blocks, spot, start, end, limit)
    }

    /// Appends the entries at the positions `start..end` to `vec`.
    ///
    /// # Errors
    ///
    /// `Memory` alone. `vec` is unchanged then.
    fn push_range_into(&self, vec: &mut Vec<EntryIndex>, start: usize, end: usize) -> Result<()>
        requires order { start ≤ end }
        requires within { end ≤ length self.now }
        ensures ok { OnOk result (vec.new.items ≡ vec.old.items ++ drop start (take end self.now)) }
        ensures err { OnErr result (vec.new.items ≡ vec.old.items) }
        ensures memory { IfErr result (λ e. e ≡ Error.Memory) }
    {
        vec.reserve(end - start)?;
        if start < end {
            let spot = spot_at_position(&self.blocks, &self.starts, self.first, self.len, start);
            push_entries(vec, self.first, &self.blocks, spot, start, end);
        }
        Ok(())
    }
}
