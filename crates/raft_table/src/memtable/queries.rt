//! Queries of a table: counts, fetches, scans and least files, and laws of them.

ghost use Rattle.std.specs.Prelude.{◌≡◌, ◌<◌, ℕ, List, [], Option, Some, None, nat_lt, length, false, true, if◌then◌else◌, ◌+◌, ◌&&◌, nat_le, ◌≤◌, ◌++◌, ◌⊎◌, suc, ◌^◌, map, reverse, All, Contains, ◌-◌, IsOk, OnOk, OnErr, IfOk, IfErr, filter};
ghost use Rattle.raft_table.specs.Common.{LogQueue, EntryIndex, Append, Rewrite, start_of, entry_at, below, from, AreTableEntries, Keys, Table, entries_after_append, entries_after_replay, nat_cmp, slice_cmp, IsStrictlySortedBy, Error};
ghost use Rattle.raft_table.specs.Common.{Counts, live, RisesFrom, end_of, entries_between, entry_count, Found, range_answer, total_len, IsLimitCount, FetchesWithin, value_at, least, is_between, pairs_between, live_of, IsTableRunFault};
ghost use Rattle.raft_table.specs.Common.{CalledAtTwo, slice_get, option_copied, placed_in, Fetches, IsFetchFault, appended_before, block_count, entry_seq, is_some_before, pairs_shown, pairs_up_to, VisitsUntilFalse, least_of};
ghost use Rattle.raft_table.specs.Common.{at_most_group_seq};
ghost use Rattle.std.specs.FinMap as finite;
ghost use Rattle.std.specs.FinSet as finset;

use crate::memtable::MemTable;
use crate::memtable::mark::{Mark, lesser_or_only};
use raft_base::{AllocResult, EntryIndex, Error, FileId, FileSeq, LogQueue, Result};

impl MemTable {
    /// Returns the number of blocks that the entries are in.
    pub fn block_count(&self) -> usize
        ensures { result ≡ block_count self.now.entries }
    {
        self.entries.blocks().len()
    }

    /// Returns the number of entries of both queues.
    pub fn entries_count(&self) -> usize
        ensures { result ≡ length self.now.entries }
    {
        self.entries.len()
    }

    /// Returns the number of keys that have a value.
    pub fn key_count(&self) -> usize
        ensures { result ≡ finite.len self.now.keys }
    {
        self.keys.len()
    }

    /// Appends the entries with indexes in `begin..end` to `vec`, in order. With a `max_size` in bytes, it
    /// ends before the first entry with which the total length exceeds `max_size`, unless no entry before it
    /// has any bytes. So at least the first entry is appended.
    ///
    /// # Errors
    ///
    /// For a range that isn't empty: `EntryNotFound` if there are no entries; `EntryCompacted` if `begin` is
    /// below the first entry; `EntryNotFound` if `end` is above the end of the entries; else `Memory` alone.
    /// `vec` is unchanged then.
    pub fn fetch_entries_to(
        &self,
        begin: u64,
        end: u64,
        max_size: Option<usize>,
        vec: &mut Vec<EntryIndex>,
    ) -> Result<()>
        ensures ok { OnOk result (Fetches max_size begin end self.now.entries vec.old.items
            vec.new.items (range_answer begin end self.now.entries)) }
        ensures fault { IfErr result (IsFetchFault (range_answer begin end self.now.entries)) }
        ensures err { OnErr result (vec.new.items ≡ vec.old.items) }
    {
        self.entries.fetch_to(begin, end, max_size, vec)
    }

    /// Appends entries whose place is in the append queue to `vec`: from the first such entry on, as long as
    /// the numbers of their files are at most `gate`.
    ///
    /// # Errors
    ///
    /// `Memory` alone. `vec` is unchanged then.
    pub fn fetch_entry_indexes_before(&self, gate: FileSeq, vec: &mut Vec<EntryIndex>) -> Result<()>
        ensures ok { OnOk result (vec.new.items
            ≡ vec.old.items ++ appended_before gate self.now.entries) }
        ensures err { OnErr result (vec.new.items ≡ vec.old.items) }
        ensures memory { IfErr result (λ e. e ≡ Error.Memory) }
    {
        self.entries.fetch_appended_up_to(gate, vec)
    }

    /// Appends all entries whose place is in the rewrite queue to `vec`, in order.
    ///
    /// # Errors
    ///
    /// `Memory` alone. `vec` is unchanged then.
    pub fn fetch_rewritten_entry_indexes(&self, vec: &mut Vec<EntryIndex>) -> Result<()>
        ensures ok { OnOk result (vec.new.items
            ≡ vec.old.items ++ placed_in Rewrite self.now.entries) }
        ensures err { OnErr result (vec.new.items ≡ vec.old.items) }
        ensures memory { IfErr result (λ e. e ≡ Error.Memory) }
    {
        self.entries.fetch_rewritten(vec)
    }

    /// Appends copies of the keys and values in files of the append queue with numbers at most `gate` to
    /// `vec`, in the order of the keys.
    ///
    /// # Errors
    ///
    /// `Memory` alone. `vec` is unchanged then.
    pub fn fetch_kvs_before(&self, gate: FileSeq, vec: &mut Vec<(Vec<u8>, Vec<u8>)>) -> Result<()>
        ensures ok { OnOk result (pairs_shown vec.new.items
            ≡ pairs_shown vec.old.items ++ pairs_up_to Append (Some gate) self.now.keys) }
        ensures err { OnErr result (vec.new.items ≡ vec.old.items) }
        ensures memory { IfErr result (λ e. e ≡ Error.Memory) }
    {
        self.keys.fetch(LogQueue::Append, Some(gate), vec)?;
        Ok(())
    }

    /// Appends copies of the keys and values in files of the rewrite queue to `vec`, in the order of the
    /// keys.
    ///
    /// # Errors
    ///
    /// `Memory` alone. `vec` is unchanged then.
    pub fn fetch_rewritten_kvs(&self, vec: &mut Vec<(Vec<u8>, Vec<u8>)>) -> Result<()>
        ensures ok { OnOk result (pairs_shown vec.new.items
            ≡ pairs_shown vec.old.items ++ pairs_up_to Rewrite None self.now.keys) }
        ensures err { OnErr result (vec.new.items ≡ vec.old.items) }
        ensures memory { IfErr result (λ e. e ≡ Error.Memory) }
    {
        self.keys.fetch(LogQueue::Rewrite, None, vec)?;
        Ok(())
    }

    /// Returns copies of the keys of this table that the steps of `mark` delete, in the order of their bytes.
    ///
    /// # Errors
    ///
    /// `AllocError` if there is no memory for them.
    #[doc(hidden)]
    pub fn keys_deleted_by(&self, mark: &Mark) -> AllocResult<Vec<Vec<u8>>>
        ensures { IfOk result (λ keys. map (λ k. k.items) keys.items
            ≡ filter (finset.contains mark.now.deleted) (finite.keys self.now.keys)) }
    {
        self.keys.keys_in(mark.deleted_keys())
    }

    /// Calls `f` with each key that is at least `start` and below `end`, and its value, until `f` returns
    /// false. Keys come in the order of their bytes or, with `reverse`, in the opposite order. A bound that
    /// is `None` doesn't limit its side. If `start` is above `end`, `f` isn't called. The result is always
    /// `Ok`; it is a `Result` since raft-engine's is.
    pub fn scan<F: FnMut(&[u8], &[u8]) -> bool>(
        &self,
        start: Option<&[u8]>,
        end: Option<&[u8]>,
        reverse: bool,
        f: F,
    ) -> Result<()>
        requires { F.IsAlwaysCallable f }
        ensures ok { IsOk result }
        ensures visits { (last : F)
            × VisitsUntilFalse (CalledAtTwo F.FnMut) f (pairs_between (option_copied start.entry)
            (option_copied end.entry) reverse self.now.keys) last }
    {
        self.keys.scan(start, end, reverse, f);
        Ok(())
    }

    /// Returns the lowest file number that the table still needs in `queue`: the lesser of that of the first
    /// entry in `queue` and the lowest one of its key values there. In the rewrite queue, a number that is at
    /// most that of the last file of the region's atomic group is lowered to that of the group's first file,
    /// if that is lower. Returns `None` if the table has no record in `queue`.
    ///
    /// No record of a recovered table is in a file with a lower number. In a table that was changed since,
    /// that holds as long as the file numbers of its entries in the queue don't fall from one index to the
    /// next. They would fall if rewritten entries were rewritten again from the first one on, but not all of
    /// them. So rewrite all of a region's rewritten entries at once, in one batch or one atomic group.
    pub fn min_file_seq(&self, queue: LogQueue) -> Option<FileSeq>
        ensures { result ≡ least_of queue self.now }
    {
        let least = lesser_or_only(
            self.entries.first_entry_seq_in(queue),
            self.keys.least_seq_in(queue),
        );
        match queue {
            LogQueue::Append => least,
            LogQueue::Rewrite => lower_to_group_start(self.atomic_group, least),
        }
    }

    /// Tests whether there are at least `count` entries, and the number of the file of the `count`th one is
    /// at most that of `gate`; queues aren't compared. `count` must be at least 1.
    pub fn has_at_least_some_entries_before(&self, gate: FileId, count: usize) -> bool
        requires { 0 < count }
        ensures { result
            ≡ is_some_before gate.seq (entry_seq (slice_get self.now.entries (count - 1))) }
    {
        self.entries
            .seq_at(count - 1)
            .is_some_and(|seq| seq <= gate.seq)
    }
}

/// Returns `seq`, lowered to the first file of `atomic_group` if it is at most the group's last file. Returns
/// `None` if `seq` is `None`.
fn lower_to_group_start(
    atomic_group: Option<(FileSeq, FileSeq)>,
    seq: Option<FileSeq>,
) -> Option<FileSeq>
    ensures { result ≡ at_most_group_seq atomic_group seq }
{
    match (atomic_group, seq) {
        (Some((first_seq, last_seq)), Some(seq)) if seq <= last_seq => Some(seq.min(first_seq)),
        (_, seq) => seq,
    }
}

/// States that a run is refused with `Full` only if the live count of its queue and the length of the run
/// together are more than 2^64 - 1. This is a law: it computes nothing.
#[tactic(auto, using(crate::proofs::RunCounts::append_full, crate::proofs::RunCounts::replay_full))]
pub fn full_runs_pass_the_limit()
    ensures append { (q : LogQueue) (counts : Counts) (es run : List EntryIndex)
        → IsTableRunFault q counts es (entries_after_append es run) Error.Full
        → 2 ^ 64 ≤ live q counts + length run }
    ensures replay { (rule q : LogQueue) (counts : Counts) (es run : List EntryIndex)
        → IsTableRunFault q counts es (entries_after_replay rule es run) Error.Full
        → 2 ^ 64 ≤ live q counts + length run }
{}

/// States that a table has as many entries as the end of its entries is above the first index, that each
/// entry is in one of the two queues, and that the records in the two queues together are all entries and key
/// values. This is a law: it computes nothing.
#[tactic(auto, using(crate::proofs::SizeLemmas::length_by_ends, crate::proofs::SizeLemmas::entries_of_both, crate::proofs::SizeLemmas::records_of_both))]
pub fn tables_add_up()
    ensures length { (es : List EntryIndex) → AreTableEntries es → 0 < length es →
        start_of es + length es ≡ end_of es }
    ensures entries { (es : List EntryIndex) → AreTableEntries es
        → entry_count Append es + entry_count Rewrite es ≡ length es }
    ensures records { (t : Table) → AreTableEntries t.entries
        → live_of Append t + live_of Rewrite t ≡ length t.entries + finite.len t.keys }
{}

/// States what a fetch returns. A range that is found has every index from its begin to below its end once,
/// in order. Without a limit all of it is returned. With a limit, the first entry is returned, and then as
/// many as have at most that many bytes together; only entries without bytes come before one that exceeds the
/// limit alone. A limit allows exactly one answer. This is a law: it computes nothing.
#[tactic(auto, using(crate::proofs::SizeLemmas::between_by_index, crate::proofs::SizeLemmas::found_is_whole, crate::proofs::SizeLemmas::unlimited_is_all, crate::proofs::SizeLemmas::first_is_fetched, crate::proofs::SizeLemmas::limit_is_kept, crate::proofs::SizeLemmas::one_limit_count))]
pub fn fetches_answer_ranges()
    ensures between { (begin end i : ℕ) (es : List EntryIndex)
        → entry_at i (entries_between begin end es)
        ≡ (if nat_le begin i && nat_lt i end then entry_at i es else None) }
    ensures whole { (begin end : ℕ) (es : List EntryIndex) → AreTableEntries es →
        range_answer begin end es ≡ Found
        → RisesFrom begin (entries_between begin end es)
        × (begin + length (entries_between begin end es) ≡ end) }
    ensures unlimited { (es old new : List EntryIndex) → FetchesWithin None es old new →
        new ≡ old ++ es }
    ensures first { (limit : Option ℕ) (es : List EntryIndex) (n : ℕ) → IsLimitCount limit es n →
        0 < length es → 0 < n }
    ensures limited { (limit n : ℕ) (es : List EntryIndex) → IsLimitCount (Some limit) es (suc n)
        → (total_len (suc n) es ≤ limit) ⊎ (total_len n es ≡ 0) }
    ensures one { (limit : Option ℕ) (es : List EntryIndex) (m n : ℕ) → IsLimitCount limit es m
        → IsLimitCount limit es n → m ≡ n }
{}

/// States that a scan visits exactly the pairs whose key is at least the first bound and below the second
/// one, in the order of the keys or in the opposite order. This is a law: it computes nothing.
#[tactic(auto, using(crate::proofs::SizeLemmas::visited_are_pairs, crate::proofs::SizeLemmas::pairs_are_visited, crate::proofs::SizeLemmas::visits_rise))]
pub fn scans_visit_pairs()
    ensures visited { (start end : Option (List ℕ)) (keys : Keys) →
        All (λ p. (value_at keys p.0 ≡ Some p.1)
        × (is_between start end p.0 ≡ true)) (pairs_between start end false keys) }
    ensures pairs { (start end : Option (List ℕ)) (keys : Keys) (key value : List ℕ)
        → value_at keys key ≡ Some value → is_between start end key ≡ true
        → Contains (pairs_between start end false keys) (key, value) }
    ensures order { (start end : Option (List ℕ)) (keys : Keys)
        → IsStrictlySortedBy (slice_cmp nat_cmp)
        (map (λ p. p.0) (pairs_between start end false keys)) }
    ensures reversed { (start end : Option (List ℕ)) (keys : Keys)
        → pairs_between start end true keys ≡ reverse (pairs_between start end false keys) }
{}

/// States that the least of some numbers is one of them, and none of them is lower; there is no least one
/// only if there are no numbers. This is a law: it computes nothing.
pub fn least_is_lowest()
    ensures none { (ns : List ℕ) → least ns ≡ None → ns ≡ [] }
    ensures found { (ns : List ℕ) (n : ℕ) → least ns ≡ Some n → Contains ns n }
    ensures lowest { (ns : List ℕ) (n : ℕ) → least ns ≡ Some n → All (λ m. n ≤ m) ns }
{}
