//! Moving the rewritten records of regions to a new file of the rewrite queue, in one batch of a region or in an atomic group.

ghost use Rattle.std.specs.Prelude.{◌≡◌, ◌⊎◌, ◌↔◌, IfErr, IfOk, IsTrue, None, OnOk};
ghost use Rattle.std.specs.FinMap as finite;
ghost use Rattle.raft_accessor.specs.Writes.{AreWritten, Rewriting};
ghost use Rattle.raft_engine.specs.GroupPlaces.{items_of_batches};
ghost use Rattle.raft_engine.specs.Moved.{IsReady};
ghost use Rattle.raft_engine.specs.MovedGroups.{AreRegionsMovedAgain, AreSomeRegionsMovedAgain, IsGroupMoved, IsGroupUnmoved, IsOnePartOf, IsRegionMovedAgain, IsRegionUnmovedAgain};
ghost use Rattle.raft_engine.specs.WrittenBatch.{IsNextRefused};

use super::Engine;
use super::rewrite::rewrite_items;
use crate::group_batches::moving_group_batches;
use crate::group_moves::moved_groups_are_stored;
use crate::group_puts::{encode_batches, put_batches};
use crate::moved::moves_are_stored;
use crate::parts::count_in_next_part;
use crate::read_back::batches_are_read_back;
use crate::rewriting::entries_to_move;
use raft_accessor::MemTableAccessor;
use raft_base::{Error, FileId, FileSeq, LogFileContext, LogQueue, Result};
use raft_files::EngineFiles;
use raft_records::LogBatch;

impl<F: EngineFiles> Engine<F> {
    /// Moves what the tables of `regions` have in rewrite files to the last one of them, one region after another.
    ///
    /// # Errors
    ///
    /// Those of [`Engine::move_region_again`]. The regions before the refused one moved then.
    pub(crate) fn move_regions_again(&mut self, regions: &[u64]) -> Result<()>
        requires { IsReady self.old }
        ensures ok { OnOk result (AreRegionsMovedAgain regions.now self.old self.new) }
        ensures err { IfErr result (AreSomeRegionsMovedAgain F.may_fail regions.now self.old self.new) }
    {
        for region in regions {
            self.move_region_again(*region)?;
        }
        Ok(())
    }

    /// Moves what the table of `region` has in rewrite files to the last one of them: in one batch if its entries are one part
    /// (see [`count_in_next_part`]), else in an atomic group. A region without a table is left as it is.
    ///
    /// # Errors
    ///
    /// `Memory`: the engine is unchanged then. Those of [`Engine::rewrite_region`] and [`Engine::move_region_in_group`].
    fn move_region_again(&mut self, region: u64) -> Result<()>
        requires { IsReady self.old }
        ensures ok { OnOk result (IsRegionMovedAgain region self.old self.new) }
        ensures err { IfErr result (IsRegionUnmovedAgain F.may_fail region self.old self.new) }
    {
        if self.moves_in_one_part(region)? {
            return self.rewrite_region(region, None);
        }
        self.move_region_in_group(region)
    }

    /// Tests whether the entries that the table of `region` has in rewrite files are one part: all go into one batch. It is so
    /// without entries, and without a table.
    ///
    /// # Errors
    ///
    /// `Memory` alone.
    fn moves_in_one_part(&self, region: u64) -> Result<bool>
        ensures ok { IfOk result (λ one. IsTrue one ↔ IsOnePartOf region self.now) }
        ensures memory { IfErr result (λ e. e ≡ Error.Memory) }
    {
        let Some(table) = self.accessor.get(region) else {
            return Ok(true);
        };
        let entries = entries_to_move(self.append.allocator(), table, None)?;
        Ok(count_in_next_part(entries.as_slice()) == entries.len())
    }

    /// Moves what the table of `region` has in rewrite files to the last one of them in an atomic group, whose number is that
    /// of the file. The entries are read, and then the batches of the group are put after the file's bytes, one after another.
    /// A region without a table is left as it is.
    ///
    /// # Errors
    ///
    /// - `Full` if a batch would begin past 2^63 in the file, or has 2^56 bytes or more, and those of [`moving_group_batches`].
    ///   The engine is unchanged then, but for reads.
    /// - Those of `EngineFiles::append`. The engine isn't intact any more, the first ones of the batches were put, and the
    ///   tables are unchanged.
    /// - Those of [`rewrite_items`], once all batches were put. The engine isn't intact either, and the tables have the first
    ///   ones of their items.
    fn move_region_in_group(&mut self, region: u64) -> Result<()>
        requires { IsReady self.old }
        ensures ok { OnOk result (((finite.get self.old.accessor.tables region ≡ None) × (self.new ≡ self.old))
            ⊎ IsGroupMoved region self.old self.new) }
        ensures err { IfErr result (IsGroupUnmoved F.may_fail region self.old self.new) }
    {
        moves_are_stored();
        moved_groups_are_stored();
        batches_are_read_back();
        let Some(table) = self.accessor.get(region) else {
            return Ok(());
        };
        let seq = self.rewrite.seq;
        let batches = moving_group_batches(self.append.allocator(), &mut self.files, table, seq)?;
        let (made, end) = encode_batches(batches, self.rewrite.len)?;
        let file = LogFileContext::new(FileId::new(LogQueue::Rewrite, seq), self.version);
        self.intact = false;
        let placed = put_batches(&mut self.files, &file, self.rewrite.len, made)?;
        rewrite_batch_items(&mut self.accessor, placed, seq)?;
        self.rewrite.len = end;
        self.intact = true;
        Ok(())
    }
}

/// Writes the items of batches that move records within the rewrite queue to the tables, one batch after another. The records
/// move to file `seq` of that queue.
///
/// # Errors
///
/// Those of `apply_rewrite_writes`. The first ones of the items are written then.
fn rewrite_batch_items(
    accessor: &mut MemTableAccessor,
    batches: Vec<LogBatch>,
    seq: FileSeq,
) -> Result<()>
    ensures ok { OnOk result (AreWritten (Rewriting None seq) (items_of_batches batches.items)
        accessor.old accessor.new) }
    ensures fault { IfErr result (IsNextRefused (Rewriting None seq)
        (items_of_batches batches.items) accessor.old accessor.new) }
{
    for batch in batches {
        let mut batch = batch;
        rewrite_items(accessor, &mut batch, None, seq)?;
    }
    Ok(())
}
