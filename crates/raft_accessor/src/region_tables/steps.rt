//! Steps and rewritings on the table of one region, which is made where there is none. The caller has tested
//! that runs and files are of the queue.

ghost use Rattle.std.specs.Prelude.{◌≡◌, ◌≢◌, [], List, ℕ, length, true, Ok, Err, OnOk, if◌then◌else◌};
ghost use Rattle.raft_accessor.specs.Common.{Memory, LogQueue, Append, Rewrite, file_at, entries_after_rewrite, counts_after_rewrite, IsRewriteFault, entries_after_append, counts_with_run, IsTableRunFault, step_shown, Put, after_append};
ghost use Rattle.raft_accessor.specs.Common.{after_rewrite, after_rewrite_key, with_rewritten_key, leaves_append, IsKeyRewriteFault, IsCounted, IsRunIn, IsStepOfQueue, table_in, IsStepTaken, BecomesOutcome};
ghost use Rattle.raft_table.specs.Steps.{Clean};

use crate::region_tables::RegionTables;
use raft_base::{EntryIndex, FileId, FileSeq, LogQueue, Result};
use raft_table::{GlobalStats, Step};

impl RegionTables {
    /// Appends `run`, a new one of the append queue, to the table of the region `id`. A region without a
    /// table gets an empty one first.
    ///
    /// # Errors
    ///
    /// Those of [`MemTable::append`]; `Memory`. Tables and counts are unchanged then, and no table has been
    /// made.
    pub(crate) fn append_run(
        &mut self,
        id: u64,
        run: Vec<EntryIndex>,
        stats: &mut GlobalStats,
    ) -> Result<()>
        requires run { IsRunIn Append run.items }
        requires counted { IsCounted (table_in self.old id) stats.old }
        ensures outcome { BecomesOutcome (after_append (table_in self.old id) run.items)
            (IsTableRunFault Append stats.old (table_in self.old id).entries
            (entries_after_append (table_in self.old id).entries run.items))
            self.old id stats.old result self.new stats.new }
        ensures counts { OnOk result (stats.new
            ≡ counts_with_run Append (table_in self.old id).entries run.items stats.old) }
    {
        self.update(id, stats, move |table, stats| table.append(run, stats))
    }

    /// Applies `step`, which was read from `queue`, to the table of the region `id`. A region without a table
    /// gets an empty one first. A clean removes the table; in the append queue it also appends the region to
    /// `cleaned`.
    ///
    /// # Errors
    ///
    /// Those of [`MemTable::take_step`]; `Memory`. Tables, counts and `cleaned` are unchanged then.
    pub(crate) fn take_step(
        &mut self,
        queue: LogQueue,
        id: u64,
        step: Step,
        stats: &mut GlobalStats,
        cleaned: &mut Vec<u64>,
    ) -> Result<()>
        requires of_queue { IsStepOfQueue queue (step_shown step) }
        requires counted { IsCounted (table_in self.old id) stats.old }
        ensures { IsStepTaken queue id (step_shown step)
            self.old stats.old cleaned.old.items result self.new stats.new cleaned.new.items }
    {
        if step.is_clean() {
            return self.clean_region(queue, id, stats, cleaned);
        }
        self.update(id, stats, move |table, stats| {
            table.take_step(queue, step, stats)
        })
    }

    /// Puts copies of `key` and `value`, whose record stands in `file`, into the table of the region `id`, if
    /// that has entries. Returns whether it did.
    ///
    /// Returns false, and changes nothing, if the table has no entries or there is none, or if it would
    /// refuse the put, for lack of memory too.
    pub(crate) fn try_put(
        &mut self,
        id: u64,
        key: &[u8],
        value: &[u8],
        file: FileId,
        stats: &mut GlobalStats,
    ) -> bool
        requires { IsCounted (table_in self.old id) stats.old }
        ensures taken { (queue : LogQueue) (list : List ℕ) → IsStepTaken queue id
            (Put key.now value.now file) self.old stats.old list
            (if result then Ok tt else Err Memory) self.new stats.new list }
        ensures entries { result ≡ true → (table_in self.old id).entries ≢ [] }
    {
        let Some(table) = self.tables.get_mut(&id) else {
            return false;
        };
        table.boxed.try_put(key, value, file, stats)
    }

    /// Removes the table of the region `id`, if there is one. In the append queue the region is also appended
    /// to `cleaned`.
    ///
    /// # Errors
    ///
    /// `Memory`, which can come only in the append queue. Tables, counts and `cleaned` are unchanged then.
    fn clean_region(
        &mut self,
        queue: LogQueue,
        id: u64,
        stats: &mut GlobalStats,
        cleaned: &mut Vec<u64>,
    ) -> Result<()>
        requires { IsCounted (table_in self.old id) stats.old }
        ensures { IsStepTaken queue id Clean
            self.old stats.old cleaned.old.items result self.new stats.new cleaned.new.items }
    {
        match queue {
            LogQueue::Append => {
                cleaned.push(id)?;
                self.remove(id, stats);
                Ok(())
            }
            LogQueue::Rewrite => {
                self.remove(id, stats);
                Ok(())
            }
        }
    }

    /// Gives entries of the region `id` the places of `run`, which was written to the rewrite queue
    /// ([`MemTable::rewrite`]). With a `gate`, entries move whose file is numbered at or below it; without
    /// one, those that are rewritten already. A region without a table gets an empty one first.
    ///
    /// # Errors
    ///
    /// Those of [`MemTable::rewrite`]; `Memory`. Tables and counts are unchanged then.
    pub(crate) fn rewrite_run(
        &mut self,
        id: u64,
        run: Vec<EntryIndex>,
        gate: Option<FileSeq>,
        stats: &mut GlobalStats,
    ) -> Result<()>
        requires run { IsRunIn Rewrite run.items }
        requires counted { IsCounted (table_in self.old id) stats.old }
        ensures outcome { BecomesOutcome (after_rewrite gate (table_in self.old id) run.items)
            (IsRewriteFault (length run.items) stats.old
            (entries_after_rewrite gate run.items (table_in self.old id).entries))
            self.old id stats.old result self.new stats.new }
        ensures counts { OnOk result (stats.new
            ≡ counts_after_rewrite gate run.items (table_in self.old id).entries stats.old) }
    {
        self.update(id, stats, move |table, stats| {
            table.rewrite(run, gate, stats)
        })
    }

    /// Moves the value of `key` of the region `id` to the file numbered `seq` of the rewrite queue
    /// ([`MemTable::rewrite_key`]). One in an append file moves only with a `gate` at or above that file, a
    /// rewritten one always. A region without a table gets an empty one first.
    ///
    /// # Errors
    ///
    /// Those of [`MemTable::rewrite_key`]; `Memory`. Tables and counts are unchanged then.
    pub(crate) fn rewrite_key(
        &mut self,
        id: u64,
        key: Vec<u8>,
        gate: Option<FileSeq>,
        seq: FileSeq,
        stats: &mut GlobalStats,
    ) -> Result<()>
        requires { IsCounted (table_in self.old id) stats.old }
        ensures outcome { BecomesOutcome
            (after_rewrite_key gate seq (table_in self.old id) key.items)
            (IsKeyRewriteFault stats.old
            (after_rewrite_key gate seq (table_in self.old id) key.items))
            self.old id stats.old result self.new stats.new }
        ensures counts { OnOk result (stats.new
            ≡ with_rewritten_key
            (leaves_append gate (file_at (table_in self.old id).keys key.items)) stats.old) }
    {
        self.update(id, stats, move |table, stats| {
            table.rewrite_key(key, gate, seq, stats)
        })
    }
}
