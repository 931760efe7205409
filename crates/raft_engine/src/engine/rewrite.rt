//! Moving records to the rewrite queue.

ghost use Rattle.std.specs.Prelude.{◌≡◌, ◌≢◌, ◌++◌, IfErr, None, OnOk, true};
ghost use Rattle.raft_records.specs.LogBatch.{empty_batch};
ghost use Rattle.raft_accessor.specs.Writes.{AreWritten, Rewriting};
ghost use Rattle.raft_engine.specs.Moved.{AreRegionsRewritten, AreSomeRewritten, AreToMove, IsBatchMoved, IsBatchUnmoved, IsReady, IsRegionRewritten, IsRegionUnmoved, IsRewritten, IsTold, IsUnrewritten, IsUntold};
ghost use Rattle.raft_engine.specs.Rewriting.{IsNextPart};
ghost use Rattle.raft_engine.specs.Untaken.{AreTaken};
ghost use Rattle.raft_engine.specs.WrittenBatch.{IsNextRefused, LacksRoom};

use super::Engine;
use crate::limits::LAST_OFFSET;
use crate::moved::moves_are_stored;
use crate::put::{put_unless_empty, try_put};
use crate::read_back::batches_are_read_back;
use crate::rewriting::{count_in_next_batch, entries_to_move, next_moving_batch, regions_of};
use crate::stored::asks_are_stored;
use raft_accessor::MemTableAccessor;
use raft_base::{EntryIndex, Error, FileId, FileSeq, LogFileContext, LogQueue, Result};
use raft_files::EngineFiles;
use raft_records::LogBatch;

impl<F: EngineFiles> Engine<F> {
    /// Moves what the tables have in append files numbered at or below `gate` to the rewrite queue, so that these files may be
    /// deleted ([`Engine::purge_expired_files`]). What the tables have stays the same, in other files.
    ///
    /// First the append queue is synced, and what batches took away and isn't in the rewrite queue yet is written there. Then,
    /// region by region, the entries are read, and written to the last rewrite file part by part, each part in a batch of its
    /// own: the entries of as many blocks as have 4 KiB together at most, or of one block. The last batch of a region has its
    /// keys too.
    ///
    /// # Errors
    ///
    /// - `Failed` if the engine isn't intact; `Full` if what has to be written first has 2^56 bytes or more, or the last
    ///   rewrite file more than 2^63; `Memory`. The engine is unchanged then.
    /// - Those of `EngineFiles::append`, since the disk is full for instance, where it takes back what it wrote. The append queue
    ///   is synced then, the records of some regions may have moved, perhaps also the first entries of one more, and the engine
    ///   is intact.
    /// - `Full` if a batch has 2^31 bytes of entries or 2^56 bytes in all, or the last rewrite file more than 2^63;
    ///   `Corruption` if the bytes of an entry aren't found at its place; `InvalidArgument` if a key is that of the group
    ///   markers; those of `EngineFiles::read`; `Memory`. The records of some regions moved then, perhaps also the first
    ///   entries of one more, and the engine is intact.
    /// - Any other of `EngineFiles`; and, once a batch was put, `Memory`, or `Full` if the live records of the rewrite queue
    ///   and those that its next item names are 2^64 or more together. The engine isn't intact any more.
    pub fn rewrite(&mut self, gate: FileSeq) -> Result<()>
        ensures ok { OnOk result (IsRewritten gate self.old self.new) }
        ensures accepted { OnOk result (self.old.intact ≡ true) }
        ensures err { IfErr result (IsUnrewritten F.may_fail gate self.old self.new) }
    {
        if !self.intact {
            return Err(Error::Failed);
        }
        let regions = regions_of(&self.accessor)?;
        self.tell_rewrite_queue()?;
        self.rewrite_regions(regions.as_slice(), Some(gate))
    }

    /// Moves what the tables of `regions` have in append files numbered at or below `gate`, or without a gate in rewrite
    /// files, one region after another.
    ///
    /// # Errors
    ///
    /// Those of [`Engine::rewrite_region`]. The regions before the refused one moved then.
    pub(crate) fn rewrite_regions(&mut self, regions: &[u64], gate: Option<FileSeq>) -> Result<()>
        requires { IsReady self.old }
        ensures ok { OnOk result (AreRegionsRewritten gate regions.now self.old self.new) }
        ensures err { IfErr result (AreSomeRewritten F.may_fail gate regions.now self.old self.new) }
    {
        for region in regions {
            self.rewrite_region(*region, gate)?;
        }
        Ok(())
    }

    /// Syncs the append queue, and writes to the last rewrite file what batches took away and isn't in that queue yet, if
    /// there is any. The rewrite queue isn't synced.
    ///
    /// # Errors
    ///
    /// `Failed` if the engine isn't intact; `Full` if what has to be written has 2^56 bytes or more, or the last rewrite file
    /// more than 2^63; `Memory`. The engine is unchanged then. Those of `EngineFiles::append`, where it takes back what it wrote:
    /// the append queue is synced then, and nothing else is changed. Any other of `EngineFiles`: the engine isn't intact any
    /// more.
    pub(crate) fn tell_rewrite_queue(&mut self) -> Result<()>
        ensures ok { OnOk result (IsTold self.old self.new) }
        ensures accepted { OnOk result (self.old.intact ≡ true) }
        ensures err { IfErr result (IsUntold F.may_fail self.old self.new) }
    {
        asks_are_stored();
        self.untold.is_read_again();
        if !self.intact {
            return Err(Error::Failed);
        }
        if self.rewrite.len > LAST_OFFSET {
            return Err(Error::Full);
        }
        let mut telling = self.untold.clone()?;
        let len = telling.finish_populate()?;
        let file = LogFileContext::new(
            FileId::new(LogQueue::Rewrite, self.rewrite.seq),
            self.version,
        );
        self.intact = false;
        self.files.sync(LogQueue::Append)?;
        put_unless_empty(
            &mut self.files,
            &file,
            self.rewrite.len,
            &mut telling,
            len,
            &mut self.intact,
        )?;
        self.rewrite.len += len as u64;
        let _told = self.untold.drain();
        self.intact = true;
        Ok(())
    }

    /// Moves what the table of `region` has in append files numbered at or below `gate`, or without a gate in rewrite files,
    /// to the last rewrite file. With a gate it goes in batches of a part of the entries each (see
    /// [`count_in_next_part`](crate::parts::count_in_next_part)), the last one with the keys; without a gate in one batch. A
    /// region without a table is left as it is.
    ///
    /// # Errors
    ///
    /// `Memory`: the engine is unchanged then. Those of [`Engine::move_next_batch`]: the batches before the refused one moved
    /// then.
    pub(crate) fn rewrite_region(&mut self, region: u64, gate: Option<FileSeq>) -> Result<()>
        requires { IsReady self.old }
        ensures ok { OnOk result (IsRegionRewritten gate region self.old self.new) }
        ensures err { IfErr result (IsRegionUnmoved F.may_fail gate region self.old self.new) }
    {
        let Some(table) = self.accessor.get(region) else {
            return Ok(());
        };
        let entries = entries_to_move(self.append.allocator(), table, gate)?;
        let mut rest = entries.as_slice();
        loop {
            let (part, left) = rest.split_at(count_in_next_batch(rest, gate));
            self.move_next_batch(region, gate, part, left)?;
            if left.is_empty() {
                return Ok(());
            }
            rest = left;
        }
    }

    /// Moves the next records of `region` to the last rewrite file in one batch: the entries `part`, whose bytes are read, and
    /// the keys if no entries are `left` after them. `gate` is that of [`Engine::rewrite_region`]. Nothing is put if there is
    /// nothing to move.
    ///
    /// # Errors
    ///
    /// `Full` if the last rewrite file has more than 2^63 bytes, or the batch 2^56 or more, and those of [`next_moving_batch`]:
    /// the engine is unchanged then, but for reads. Those of `EngineFiles::append`: the same holds where it takes back what it
    /// wrote; else, and with those of [`rewrite_items`] once the batch was put, the engine isn't intact any more, and the
    /// tables are unchanged or, once it was put, have the first ones of its items.
    fn move_next_batch(
        &mut self,
        region: u64,
        gate: Option<FileSeq>,
        part: &[EntryIndex],
        left: &[EntryIndex],
    ) -> Result<()>
        requires ready { IsReady self.old }
        requires to_move { AreToMove gate region self.old (part.now ++ left.now) }
        requires next { IsNextPart gate (part.now ++ left.now) part.now left.now }
        ensures ok { OnOk result (IsBatchMoved gate left.now region self.old self.new) }
        ensures left { gate ≢ None → OnOk result (AreToMove gate region self.new left.now) }
        ensures err { IfErr result (IsBatchUnmoved F.may_fail gate left.now region self.old self.new) }
    {
        moves_are_stored();
        batches_are_read_back();
        if self.rewrite.len > LAST_OFFSET {
            return Err(Error::Full);
        }
        let Some(table) = self.accessor.get(region) else {
            return Ok(());
        };
        table.holds_one_run();
        let alloc = self.append.allocator();
        let mut batch = next_moving_batch(alloc, &mut self.files, table, gate, part, left)?;
        if batch.is_empty() {
            return Ok(());
        }
        batch.is_read_again();
        let len = batch.finish_populate()?;
        let file = LogFileContext::new(
            FileId::new(LogQueue::Rewrite, self.rewrite.seq),
            self.version,
        );
        try_put(
            &mut self.files,
            &file,
            self.rewrite.len,
            &mut batch,
            len,
            &mut self.intact,
        )?;
        self.intact = false;
        rewrite_items(&mut self.accessor, &mut batch, gate, self.rewrite.seq)?;
        self.rewrite.len += len as u64;
        self.intact = true;
        Ok(())
    }
}

/// Writes the items of a batch that moves records to file `seq` of the rewrite queue to the tables, in order, which empties
/// the batch. Only those records move that may: with a gate those in append files numbered at or below it, without one those
/// that are rewritten already.
///
/// # Errors
///
/// Those of `apply_rewrite_writes`. The first ones of the items are written then, and the batch is empty too.
pub(super) fn rewrite_items(
    accessor: &mut MemTableAccessor,
    batch: &mut LogBatch,
    gate: Option<FileSeq>,
    seq: FileSeq,
) -> Result<()>
    ensures ok { OnOk result
        (AreWritten (Rewriting gate seq) batch.old.items accessor.old accessor.new) }
    ensures fault { IfErr result
        (IsNextRefused (Rewriting gate seq) batch.old.items accessor.old accessor.new) }
    ensures room { AreTaken gate seq accessor.old.tables batch.old.items → IfErr result LacksRoom }
    ensures emptied { batch.new ≡ empty_batch }
{
    accessor.apply_rewrite_writes(batch.drain(), gate, seq)
}
