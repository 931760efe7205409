//! How the steps of read batches change a table.

ghost use Rattle.std.specs.Prelude.{◌≡◌, ◌<◌, [], Some, false, if◌then◌else◌, ◌≢◌, MatchBool, OnOk, OnErr, IfErr};
ghost use Rattle.raft_table.specs.Common.{LogQueue, Append, Rewrite, Step, Error, with_added, file_at, other, step_shown, after_step, with_pair, with_pair_deleted, IsCounted, IsRecounted, IsStepOfQueue, LeavesTable, IsUnmixed};
ghost use Rattle.raft_table.specs.Common.{counts_after_step, IsStepFault};

use crate::global_stats::GlobalStats;
use crate::memtable::MemTable;
use crate::step::Step;
use raft_base::{Error, FileId, LogQueue, Result};

impl MemTable {
    /// Makes the change of `step`, which was read from `queue`, and counts it. `step` must not be
    /// [`Step::Clean`], which leaves no table.
    ///
    /// # Errors
    ///
    /// For a run, `InvalidArgument` if the table has records of the other queue, and the errors of
    /// [`MemTable::replay_append`] or [`MemTable::replay_rewrite`]. For a put, those of [`MemTable::put`].
    /// Other steps aren't refused. The table and the counts are unchanged then, and `step` is dropped.
    pub fn take_step(&mut self, queue: LogQueue, step: Step, stats: &mut GlobalStats) -> Result<()>
        requires of_queue { IsStepOfQueue queue (step_shown step) }
        requires stays { LeavesTable (step_shown step) }
        requires counted { IsCounted self.old stats.old }
        ensures ok { OnOk result (after_step queue self.old (step_shown step)
            ≡ Some (Some self.new)) }
        ensures accepted { OnOk result (IsUnmixed queue self.old (step_shown step)) }
        ensures counts { OnOk result (stats.new
            ≡ counts_after_step queue self.old (step_shown step) stats.old) }
        ensures fault { IfErr result (IsStepFault queue self.old stats.old (step_shown step)) }
        ensures err { OnErr result ((self.new ≡ self.old) × (stats.new ≡ stats.old)) }
        ensures recounted { IsRecounted self.old self.new stats.old stats.new }
        ensures region { self.new.region_id ≡ self.old.region_id }
    {
        match step {
            Step::Run(run) => {
                if self.records(queue.other()) > 0 {
                    let text = match queue {
                        LogQueue::Append => "the table has rewritten records",
                        LogQueue::Rewrite => "the table has appended records",
                    };
                    return Err(Error::invalid_argument(self.entries.allocator(), text));
                }
                self.entries.replay_run(self.region_id, &run, queue, stats)
            }
            Step::Compact { index } => {
                self.compact_to(index, stats);
                Ok(())
            }
            Step::Truncate { index } => {
                self.truncate_from(index, stats);
                Ok(())
            }
            Step::Put {
                key,
                value,
                file_id,
            } => self.put(key, value, file_id, stats),
            Step::Del { key } => {
                self.delete(&key, stats);
                Ok(())
            }
            Step::AtomicGroup {
                first_seq,
                last_seq,
            } => {
                self.atomic_group = Some((first_seq, last_seq));
                Ok(())
            }
            Step::Clean => unreachable!(),
        }
    }

    /// Gives a copy of `key` a copy of `value`, as [`MemTable::put`] does, if the table has entries. Returns
    /// whether it did. It returns false if the table has no entries, `put` would be refused, or there is no
    /// memory for the copies; the table and the counts are unchanged then.
    #[doc(hidden)]
    pub fn try_put(
        &mut self,
        key: &[u8],
        value: &[u8],
        file_id: FileId,
        stats: &mut GlobalStats,
    ) -> bool
        requires { IsCounted self.old stats.old }
        ensures done { MatchBool result
            ((self.new ≡ with_pair self.old key.now value.now file_id)
            × (stats.new ≡ with_added file_id.queue 1
            (with_pair_deleted (file_at self.old.keys key.now) stats.old))
            × (self.old.entries ≢ []))
            ((self.new ≡ self.old) × (stats.new ≡ stats.old)) }
        ensures recounted { IsRecounted self.old self.new stats.old stats.new }
        ensures region { self.new.region_id ≡ self.old.region_id }
    {
        let Some(_) = self.first_index() else {
            return false;
        };
        let alloc = self.entries.allocator();
        let Ok(key) = Vec::from_slice(alloc, key) else {
            return false;
        };
        let Ok(value) = Vec::from_slice(alloc, value) else {
            return false;
        };
        self.put(key, value, file_id, stats).is_ok()
    }
}
