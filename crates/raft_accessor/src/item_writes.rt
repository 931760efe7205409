//! Log items written to the tables of one slot: new ones, ones that are read again, and rewritten ones.

ghost use Rattle.std.specs.Prelude.{◌≢◌, ℕ, List, map, Option, OnOk, IfErr};
ghost use Rattle.raft_accessor.specs.Common.{IsCorruption, item_of, content_of, entries_item, command_item, pair, pair_of, Counts, Table, IsCounted, table_in, AreAcceptedOncePlaced, AreRefusedOncePlaced, IsAppendCheckFault, IsItemWritten};
ghost use Rattle.raft_accessor.specs.Common.{IsReplayed, pair_change, Appending, Replaying, Rewriting, IsWriteFault, writing_shown};

use crate::append_check::AppendCheck;
use crate::region_tables::RegionTables;
use raft_base::{EntryIndex, Error, FileSeq, LogQueue, Result};
use raft_history::RegionStep;
use raft_records::{Command, KeyValue, LogItem, LogItemContent, OpType, is_reserved};
use raft_table::{GlobalStats, MemTable, is_run};

/// How items are written to tables.
#[doc(hidden)]
#[derive(Clone, Copy)]
pub enum Writing {
    /// As new ones of the append queue.
    Appending,
    /// As ones that were read again from this queue.
    Replaying(LogQueue),
    /// As ones that were rewritten to the file of the rewrite queue that has the second number. The first is
    /// the gate, which limits what moves ([`RegionTables::rewrite_item`]).
    Rewriting(Option<FileSeq>, FileSeq),
}

impl RegionTables {
    /// Checks that [`append_item`](RegionTables::append_item) would accept `items`, in order, once their
    /// entries have a place and their key values a file in the append queue, whatever place and file. All
    /// their regions are of this slot. It changes nothing.
    ///
    /// # Errors
    ///
    /// `Corruption` if an item would be refused; the text names the region and the reason and, for entries,
    /// the index at which they begin. `Memory`.
    pub fn check_append_items(&self, items: &[LogItem]) -> Result<()>
        ensures ok { OnOk result (AreAcceptedOncePlaced self.now (map item_of items.now)) }
        ensures refused { IfErr result (λ e. e ≢ Error.Memory
            → AreRefusedOncePlaced self.now (map item_of items.now)) }
        ensures fault { IfErr result (IsAppendCheckFault self.now (map item_of items.now)) }
    {
        let mut check = AppendCheck::new(self.alloc);
        for item in items {
            check.check_next_item(item, self.get(item.raft_group_id))?;
        }
        Ok(())
    }

    /// Writes one item to the table of its region, as `how` says. Unless it is rewritten or read from the
    /// rewrite queue, a `Clean` also appends its region to `cleaned`. `stats` are the live counts, which
    /// follow the change.
    ///
    /// # Errors
    ///
    /// Those of [`RegionTables::append_item`], [`RegionTables::replay_item`] or
    /// [`RegionTables::rewrite_item`]. Tables, counts and `cleaned` are unchanged then.
    #[inline(always)]
    pub fn write_item(
        &mut self,
        how: Writing,
        item: LogItem,
        stats: &mut GlobalStats,
        cleaned: &mut Vec<u64>,
    ) -> Result<()>
        requires { IsCounted (table_in self.old item.raft_group_id) stats.old }
        ensures { IsItemWritten (writing_shown how) (item_of item)
            self.old stats.old cleaned.old.items result self.new stats.new cleaned.new.items }
    {
        match how {
            Writing::Appending => self.append_item(item, stats, cleaned),
            Writing::Replaying(queue) => self.replay_item(queue, item, stats, cleaned),
            Writing::Rewriting(gate, seq) => self.rewrite_item(item, gate, seq, stats),
        }
    }

    /// Writes a new item of the append queue to the table of its region. A `Clean` also appends the region to
    /// `cleaned`. `stats` are the live counts, which follow the change.
    ///
    /// # Errors
    ///
    /// `Corruption` if the indexes of the entries don't rise by one, or an entry has no place in the append
    /// queue ([`is_run`]), or [`MemTable::append`] refuses where they start; and if a put has no value, no
    /// file or a file of the rewrite queue, but under the reserved key of group markers it needs neither.
    /// `Full` if more than 2^64 - 1 records would be live in the queue; `Memory`. Tables, counts and
    /// `cleaned` are unchanged then.
    pub fn append_item(
        &mut self,
        item: LogItem,
        stats: &mut GlobalStats,
        cleaned: &mut Vec<u64>,
    ) -> Result<()>
        requires { IsCounted (table_in self.old item.raft_group_id) stats.old }
        ensures { IsItemWritten Appending (item_of item)
            self.old stats.old cleaned.old.items result self.new stats.new cleaned.new.items }
    {
        let LogItem {
            raft_group_id,
            content,
        } = item;
        match content {
            LogItemContent::EntryIndexes(entries) => {
                self.append_entries(raft_group_id, entries.0, stats)
            }
            content => {
                let other = LogItem {
                    raft_group_id,
                    content,
                };
                self.replay_item(LogQueue::Append, other, stats, cleaned)
            }
        }
    }

    /// Writes an item that was read from `queue` to the table of its region: makes the one change that it
    /// stands for, its [`RegionStep`]. Anything under the reserved key of group markers changes nothing. In
    /// the append queue a `Clean` also appends the region to `cleaned`. `stats` are the live counts, which
    /// follow the change. Recovery makes the same changes beside the region marks, by
    /// `MarkedTables::take_step` of `raft_contexts`.
    ///
    /// # Errors
    ///
    /// `Corruption` if the indexes of the entries don't rise by one, or an entry has no place in `queue`
    /// ([`is_run`]), or they would leave a hole in the append queue; and if a put has no value, no file or a
    /// file of the other queue, but under the reserved key of group markers it needs neither.
    /// `InvalidArgument` for entries if the table has records of the other queue; `Full` if more than
    /// 2^64 - 1 records would be live in the queue; `Memory`. Tables, counts and `cleaned` are unchanged
    /// then.
    pub fn replay_item(
        &mut self,
        queue: LogQueue,
        item: LogItem,
        stats: &mut GlobalStats,
        cleaned: &mut Vec<u64>,
    ) -> Result<()>
        requires { IsCounted (table_in self.old item.raft_group_id) stats.old }
        ensures { IsItemWritten (Replaying queue) (item_of item)
            self.old stats.old cleaned.old.items result self.new stats.new cleaned.new.items }
    {
        self.check_replayed_item(queue, &item)?;
        match RegionStep::of_item(item) {
            Some(step) => self.take_step(queue, step.region, step.step, stats, cleaned),
            None => Ok(()),
        }
    }

    /// Writes an item that was rewritten to the file numbered `seq` of the rewrite queue to the table of its
    /// region: entries get their new places, or a key its new file. `gate` limits what moves. With one,
    /// entries move whose file is numbered at or below it; without one, those that are rewritten already. A
    /// key value in an append file moves only with a gate at or above that file, a rewritten one always. A
    /// `Clean` and a group marker change nothing. `stats` are the live counts, which follow the change.
    ///
    /// # Errors
    ///
    /// `Corruption` for a `Compact` and a `Truncate`; for a deletion and a put without a value, unless they
    /// are under the reserved key of group markers; if the indexes of the entries don't rise by one, or an
    /// entry has no place in the rewrite queue ([`is_run`]); and where [`MemTable::rewrite`] or
    /// [`MemTable::rewrite_key`] returns it. `Full` if more than 2^64 - 1 records would be live in the
    /// rewrite queue; `Memory`. Tables and counts are unchanged then.
    pub fn rewrite_item(
        &mut self,
        item: LogItem,
        gate: Option<FileSeq>,
        seq: FileSeq,
        stats: &mut GlobalStats,
    ) -> Result<()>
        requires { IsCounted (table_in self.old item.raft_group_id) stats.old }
        ensures { (list : List ℕ)
            → IsItemWritten (Rewriting gate seq) (item_of item) self.old stats.old list result
            self.new stats.new list }
    {
        let LogItem {
            raft_group_id: id,
            content,
        } = item;
        match content {
            LogItemContent::EntryIndexes(entries) => {
                self.rewrite_entries(id, entries.0, gate, seq, stats)
            }
            LogItemContent::Command(command) => self.rewrite_command(id, command),
            LogItemContent::Kv(kv) => self.rewrite_pair(id, kv, gate, seq, stats),
        }
    }

    /// Returns a `Corruption` with the text `text`, or `Memory` if there is none for the text.
    fn corruption(&self, text: &str) -> Error
        ensures { IsCorruption text.now result }
    {
        Error::corruption(self.alloc, text)
    }

    /// Appends `run`, new entries of the append queue, to the table of the region `id`.
    ///
    /// # Errors
    ///
    /// `Corruption` if their indexes don't rise by one, or an entry has no place in the append queue
    /// ([`is_run`]); those of [`MemTable::append`]. Tables and counts are unchanged then.
    fn append_entries(
        &mut self,
        id: u64,
        run: Vec<EntryIndex>,
        stats: &mut GlobalStats,
    ) -> Result<()>
        requires { IsCounted (table_in self.old id) stats.old }
        ensures { (list : List ℕ)
            → IsItemWritten Appending (entries_item id run.items)
            self.old stats.old list result self.new stats.new list }
    {
        if !is_run(&run, LogQueue::Append) {
            return Err(self.corruption(
                "indexes don't rise by one, or a place is not in the append queue",
            ));
        }
        self.append_run(id, run, stats)
    }

    /// Gives entries of the region `id` the places of `run`, which was written to the rewrite queue. With a
    /// `gate`, entries move whose file is numbered at or below it; without one, those that are rewritten
    /// already.
    ///
    /// # Errors
    ///
    /// `Corruption` if the indexes of `run` don't rise by one, or one of its entries has no place in the
    /// rewrite queue ([`is_run`]); those of [`MemTable::rewrite`]. Tables and counts are unchanged then.
    fn rewrite_entries(
        &mut self,
        id: u64,
        run: Vec<EntryIndex>,
        gate: Option<FileSeq>,
        seq: FileSeq,
        stats: &mut GlobalStats,
    ) -> Result<()>
        requires { IsCounted (table_in self.old id) stats.old }
        ensures { (list : List ℕ)
            → IsItemWritten (Rewriting gate seq) (entries_item id run.items)
            self.old stats.old list result self.new stats.new list }
    {
        if !is_run(&run, LogQueue::Rewrite) {
            return Err(self.corruption(
                "indexes don't rise by one, or a place is not in the rewrite queue",
            ));
        }
        self.rewrite_run(id, run, gate, stats)
    }

    /// Checks a command among rewritten items: a `Clean` is accepted and changes nothing, any other is
    /// refused.
    ///
    /// # Errors
    ///
    /// `Corruption` for a `Compact` or a `Truncate`; `Memory` if there is none for its text.
    fn rewrite_command(&self, id: u64, command: Command) -> Result<()>
        ensures { (gate : Option ℕ) (seq : ℕ) (counts : Counts) (list : List ℕ)
            → IsItemWritten (Rewriting gate seq) (command_item id command)
            self.now counts list result self.now counts list }
    {
        match command {
            Command::Clean => Ok(()),
            Command::Compact { index: _ } => Err(self.corruption("a compaction is rewritten")),
            Command::Truncate { index: _ } => Err(self.corruption("a truncation is rewritten")),
        }
    }

    /// Checks that `item`, which was read from `queue`, may stand there.
    ///
    /// # Errors
    ///
    /// `Corruption` if the indexes of its entries don't rise by one, or an entry has no place in the queue
    /// ([`is_run`]), or a put, other than one under the reserved key of group markers, has no value, no file
    /// or a file of the other queue; `Memory` if there is none for the text.
    fn check_replayed_item(&self, queue: LogQueue, item: &LogItem) -> Result<()>
        ensures ok { OnOk result (IsReplayed queue (content_of item.now.content)) }
        ensures fault { (id : ℕ) (o : Option Table) (live : ℕ) → IfErr result
            (IsWriteFault (Replaying queue) id o live (content_of item.now.content)) }
    {
        match &item.content {
            LogItemContent::EntryIndexes(entries) => {
                if is_run(&entries.0, queue) {
                    return Ok(());
                }
                Err(self.corruption("indexes don't rise by one, or a place is in the other queue"))
            }
            LogItemContent::Command(_) => Ok(()),
            LogItemContent::Kv(kv) => self.check_replayed_pair(queue, kv),
        }
    }

    /// Checks that `kv`, a change of a key that was read from `queue`, may stand there. Under the reserved
    /// key of group markers any may.
    ///
    /// # Errors
    ///
    /// `Corruption` for a put without a value, without a file or with a file of the other queue; `Memory` if
    /// there is none for the text.
    fn check_replayed_pair(&self, queue: LogQueue, kv: &KeyValue) -> Result<()>
        ensures ok { OnOk result (IsReplayed queue (pair (pair_of kv.now))) }
        ensures fault { (id : ℕ) (o : Option Table) (live : ℕ) → IfErr result
            (IsWriteFault (Replaying queue) id o live (pair (pair_of kv.now))) }
    {
        if is_reserved(&kv.key) {
            return Ok(());
        }
        match (kv.op_type, &kv.value, kv.file_id) {
            (OpType::Del, _, _) => Ok(()),
            (OpType::Put, None, _) => Err(self.corruption("a key is put without value")),
            (OpType::Put, Some(_), None) => Err(self.corruption("a key is put without file")),
            (OpType::Put, Some(_), Some(file)) => {
                if file.queue == queue {
                    return Ok(());
                }
                Err(self.corruption("a key is put in the other queue"))
            }
        }
    }

    /// Moves the value of a key of the region `id` to the file numbered `seq` of the rewrite queue. One in an
    /// append file moves only with a `gate` at or above that file, a rewritten one always. Anything under the
    /// reserved key of group markers changes nothing.
    ///
    /// # Errors
    ///
    /// `Corruption` for a deletion and a put without a value under another key; those of
    /// [`MemTable::rewrite_key`]. Tables and counts are unchanged then.
    fn rewrite_pair(
        &mut self,
        id: u64,
        kv: KeyValue,
        gate: Option<FileSeq>,
        seq: FileSeq,
        stats: &mut GlobalStats,
    ) -> Result<()>
        requires { IsCounted (table_in self.old id) stats.old }
        ensures { (list : List ℕ)
            → IsItemWritten (Rewriting gate seq) (pair_change id (pair_of kv))
            self.old stats.old list result self.new stats.new list }
    {
        if is_reserved(&kv.key) {
            return Ok(());
        }
        match kv.op_type {
            OpType::Put => {
                if kv.value.is_none() {
                    return Err(self.corruption("a key is rewritten without value"));
                }
                self.rewrite_key(id, kv.key, gate, seq, stats)
            }
            OpType::Del => Err(self.corruption("a deletion is rewritten")),
        }
    }
}
