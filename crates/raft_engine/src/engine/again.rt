//! Moving rewritten records to a new file of the rewrite queue, and deleting files that no table needs.

ghost use Rattle.std.specs.Prelude.{◌≡◌, [], ◌∷◌, ◌++◌, IfErr, IfOk, OnOk, true};
ghost use Rattle.raft_base.specs.declared.pipe_log.LogQueue.TheVariants.{Rewrite};
ghost use Rattle.raft_files.specs.Asks.{Sync, ask};
ghost use Rattle.raft_engine.specs.Broken.{IsBroken};
ghost use Rattle.raft_engine.specs.Moved.{IsReady};
ghost use Rattle.raft_engine.specs.MovedAgain.{AreMovedAgain, AreUnmovedAgain, IsRewriteRotated, IsRewriteUnrotated};
ghost use Rattle.raft_engine.specs.Purged.{AreDeleted, AreExpired, AreFilesPurged, AreFilesUnpurged, delete_asks};
ghost use Rattle.raft_engine.specs.PurgedRewrites.{AreRewritesPurged, AreRewritesUnpurged};

use super::Engine;
use crate::purge::{count_below, delete_oldest, least_needed_file};
use crate::queue_files::pick_queue_files;
use crate::rewriting::regions_of;
use crate::stored::asks_are_stored;
use raft_base::{Error, LogQueue, Result};
use raft_files::EngineFiles;

impl<F: EngineFiles> Engine<F> {
    /// Moves what the tables have in rewrite files to a new one of them, so that the older rewrite files may be deleted
    /// ([`Engine::purge_rewrite_files`]). What the tables have stays the same, in other places. What moved isn't synced yet.
    ///
    /// First the append queue is synced, and what batches took away and isn't in the rewrite queue yet is written there. Then
    /// that queue is synced, and a new file is begun in it. Then, region by region, the rewritten entries are read, and
    /// written with the rewritten keys to the new file: in one batch, or, if they are of several blocks and have more than 4
    /// KiB together, in an atomic group of several.
    ///
    /// # Errors
    ///
    /// - `Failed` if the engine isn't intact; `Full` if what has to be written first has 2^56 bytes or more, or the last
    ///   rewrite file more than 2^63; `Memory`. The engine is unchanged then.
    /// - Those of `EngineFiles::append`, since the disk is full for instance, where it takes back what it wrote, unless that is a
    ///   batch of a group. The append queue is synced then, a new file may be begun and the records of some regions moved, and
    ///   the engine is intact.
    /// - `Full` if that file has the greatest number, or `Memory`. What was taken away is written then, and no file begun.
    /// - `Full` if a batch has 2^31 bytes of entries or 2^56 bytes in all, or would begin past 2^63 in the new file;
    ///   `Corruption` if the bytes of an entry aren't found at its place; `InvalidArgument` if a key is that of the group
    ///   markers; those of `EngineFiles::read`; `Memory`. The records of some regions moved then, and the engine is intact.
    /// - Any other of `EngineFiles`. The engine isn't intact any more. A group of which not all batches were put changes
    ///   nothing.
    /// - Once all batches of a region were put: `Memory`; `Full` if the live records of the rewrite queue and those that the
    ///   next item names are 2^64 or more together; `Corruption` if the tables don't take an item. The engine isn't intact any
    ///   more.
    pub fn rewrite_again(&mut self) -> Result<()>
        ensures ok { OnOk result (AreMovedAgain self.old self.new) }
        ensures accepted { OnOk result (self.old.intact ≡ true) }
        ensures err { IfErr result (AreUnmovedAgain F.may_fail self.old self.new) }
    {
        if !self.intact {
            return Err(Error::Failed);
        }
        let regions = regions_of(&self.accessor)?;
        self.tell_rewrite_queue()?;
        self.rotate_rewrite()?;
        self.move_regions_again(regions.as_slice())
    }

    /// Syncs the rewrite queue, and begins a new file in it, to which the next batch goes.
    ///
    /// # Errors
    ///
    /// `Full` if the last file has the greatest number, `Memory`: the engine is unchanged then. Those of `EngineFiles::sync`
    /// and `EngineFiles::rotate`: the engine isn't intact any more.
    fn rotate_rewrite(&mut self) -> Result<()>
        requires { self.old.intact ≡ true }
        ensures ok { OnOk result (IsRewriteRotated self.old self.new) }
        ensures err { IfErr result (IsRewriteUnrotated F.may_fail self.old self.new) }
    {
        asks_are_stored();
        self.rewrite.close_last()?;
        self.intact = false;
        self.rewrite.begin_next(&mut self.files, LogQueue::Rewrite)?;
        self.intact = true;
        Ok(())
    }

    /// Deletes the rewrite files that no table needs, the oldest first, but never the last one. Returns how many were deleted.
    /// Before that it syncs the append queue, writes to the rewrite queue what batches took away and isn't there yet, and
    /// syncs that queue too, so that what moved lasts before its old place goes. If there is no such file nothing is asked.
    ///
    /// # Errors
    ///
    /// `Failed` if the engine isn't intact; `Full` if there is such a file, and what has to be written has 2^56 bytes or more,
    /// or the last rewrite file more than 2^63; `Memory`. The engine is unchanged then. Those of `EngineFiles`, if there is
    /// such a file: of an append that is taken back, as on a full disk, once the append queue is synced, and nothing else is
    /// changed; any other, and the engine isn't intact any more.
    pub fn purge_rewrite_files(&mut self) -> Result<usize>
        ensures ok { IfOk result (λ count. AreRewritesPurged count self.old self.new) }
        ensures accepted { OnOk result (self.old.intact ≡ true) }
        ensures err { IfErr result (AreRewritesUnpurged F.may_fail self.old self.new) }
    {
        self.purge_queue(LogQueue::Rewrite)
    }

    /// Deletes the files of `queue` that no table needs, the oldest first, but never the last one. Returns how many were
    /// deleted. Before that it writes to the rewrite queue what batches took away and isn't there yet, and syncs both queues.
    /// If there is no such file nothing is asked.
    ///
    /// # Errors
    ///
    /// Those of [`Engine::purge_rewrite_files`].
    pub(crate) fn purge_queue(&mut self, queue: LogQueue) -> Result<usize>
        ensures ok { IfOk result (λ count. AreFilesPurged queue count self.old self.new) }
        ensures accepted { OnOk result (self.old.intact ≡ true) }
        ensures err { IfErr result (AreFilesUnpurged F.may_fail queue self.old self.new) }
    {
        if !self.intact {
            return Err(Error::Failed);
        }
        let count = self.count_expired_files(queue)?;
        if count == 0 {
            return Ok(0);
        }
        self.tell_rewrite_queue()?;
        self.delete_expired_files(queue, count)?;
        Ok(count)
    }

    /// Returns how many files of `queue`, from the oldest one on, no table needs. The last file is never counted.
    ///
    /// # Errors
    ///
    /// `Memory` alone.
    fn count_expired_files(&self, queue: LogQueue) -> Result<usize>
        requires { self.now.intact ≡ true }
        ensures ok { IfOk result (AreExpired queue self.now) }
        ensures memory { IfErr result (λ e. e ≡ Error.Memory) }
    {
        let files = pick_queue_files(queue, &self.append, &self.rewrite);
        let least = least_needed_file(&self.accessor, queue, files.seq)?;
        Ok(count_below(&files.closed, least))
    }

    /// Syncs the rewrite queue, and deletes the `count` oldest files of `queue`, which no table needs.
    ///
    /// # Errors
    ///
    /// Those of `EngineFiles`: the engine isn't intact any more, and some of the files may be deleted.
    fn delete_expired_files(&mut self, queue: LogQueue, count: usize) -> Result<()>
        requires ready { IsReady self.old }
        requires expired { AreExpired queue self.old count }
        ensures ok { OnOk result (AreDeleted queue count self.old self.new) }
        ensures err { IfErr result (IsBroken F.may_fail (delete_asks queue count ++ ask Rewrite Sync ∷ [])
            self.old self.new) }
    {
        asks_are_stored();
        self.intact = false;
        self.files.sync(LogQueue::Rewrite)?;
        delete_oldest(
            &mut self.files,
            queue,
            count,
            &mut self.append,
            &mut self.rewrite,
        )?;
        self.intact = true;
        Ok(())
    }
}
