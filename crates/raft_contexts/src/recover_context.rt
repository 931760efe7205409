//! Contexts, which rebuild the tables of all regions from the batches of a queue.

ghost use Rattle.std.specs.Prelude.{ℕ, ◌≡◌, ◌≢◌, ◌⊎◌, ◌↔◌, [], List, IfOk, IfErr, OnOk, OnErr, IsTrue};
ghost use Rattle.raft_contexts.specs.Common.{Error, LogQueue, Append, Rewrite, Event, IsReadingOfBoth, Suits, IsSmall, IsOfQueue, IsOneReading, kept_of, kept_by, IsAtMost, Tables, event, AreCountsOf, kept_shown, IsOverlaidWith};
ghost use Rattle.raft_contexts.specs.Common.{IsOfBothExactly, IsMergeAppendFault, blank_context, HasRead, HasReadExactly, IsBatchTaken, IsBatchCounted, IsBatchFault, IsMergedWith, IsNeighborFault, refused_stage, Reading, Failed};
ghost use Rattle.raft_contexts.specs.TakenBatches.{IsTakenAway};

use crate::context_stage::ContextStage;
use crate::kept::Kept;
use crate::read_state::ReadState;
use crate::taken_away::TakenAway;
use raft_accessor::MemTableAccessor;
use raft_base::{Error, Factory, FileId, LogQueue, Result};
use raft_history::ReplayMachine;
use raft_records::{LogItemBatch, ReadBatch};
use std::alloc::Global;
use std::marker::Model;

/// What was read of a part of a queue, as if no batch stood before it: the tables of all regions with their
/// live counts, a region mark of each region (`Mark`: what the batches do to any older table of it), the
/// atomic groups that aren't whole yet, and the files.
#[derive(Drop)]
pub struct MemTableRecoverContext {
    state: ReadState,
    stage: ContextStage,
}

impl Model for MemTableRecoverContext {
    ghost use Rattle.raft_contexts.specs.RecoverContext.{RecoverContext};
    ghost use Rattle.raft_contexts.specs.RecoverContextCode.{recover_context_code};

    ghost Value = { RecoverContext };

    ghost coded = { recover_context_code };

    ghost use Rattle.raft_contexts.specs.RecoverContextView.{recover_context_shown, IsContextKept};

    ghost view = { recover_context_shown };

    ghost invariant = { IsContextKept };
}

impl MemTableRecoverContext {
    /// Returns a context that has read nothing.
    ///
    /// # Errors
    ///
    /// `Memory` alone.
    pub fn new(alloc: Global) -> Result<MemTableRecoverContext>
        ensures ok { IfOk result (λ context. context ≡ blank_context) }
        ensures exact { IfOk result (λ context. HasReadExactly context []) }
        ensures memory { IfErr result (λ e. e ≡ Error.Memory) }
    {
        Ok(MemTableRecoverContext {
            state: ReadState::new(alloc)?,
            stage: ContextStage::Reading,
        })
    }

    /// Tests whether the context reads on: no `replay`, `replay_read`, `merge` or
    /// [`MemTableRecoverContext::merge_append_context`] of it has failed, and no `merge_append_context` has
    /// succeeded.
    pub fn reads_on(&self) -> bool
        ensures { IsTrue result ↔ (self.now.stage ≡ Reading) }
    {
        self.stage == ContextStage::Reading
    }

    /// Replays the next batch of a queue, which was written to the file `file_id`. In the rewrite queue the
    /// first group marker of the batch decides: a batch without one takes effect at once, the others once
    /// their group is whole. In the append queue markers are ignored, and each batch takes effect at once.
    ///
    /// # Errors
    ///
    /// `Failed` if the context doesn't read on, and nothing changes then. After any other error the context
    /// has failed, and reads on no more:
    /// - `Corruption` if a place isn't in the file, a put has no value, no file or another file (but under
    ///   the reserved key of group markers it needs neither), entries aren't consecutive, the file is of
    ///   another queue than those before or numbered below the last of them, in the rewrite queue the status
    ///   of a group marker is unknown, or entries leave a hole in the append queue;
    /// - `Full` if the live records, and those that the batch, or the group that it makes whole, names are
    ///   more than 2^64 - 1;
    /// - `Memory`.
    pub fn replay(&mut self, batch: LogItemBatch, file_id: FileId) -> Result<()>
        ensures ok { OnOk result (IsBatchTaken (event batch file_id) self.old self.new) }
        ensures counts { OnOk result (IsBatchCounted (event batch file_id) self.old.context
            self.old.counts self.new.counts) }
        ensures fault { IfErr result (IsBatchFault self.old (event batch file_id)) }
        ensures err { OnErr result (self.new.stage ≡ refused_stage self.old.stage) }
        ensures unchanged { self.old.stage ≢ Reading → self.new ≡ self.old }
        ensures failed { self.old.stage ≢ Reading → IfErr result (λ e. e ≡ Error.Failed) }
    {
        self.stage.begin()?;
        self.state.replay(batch, file_id)?;
        self.stage = ContextStage::Reading;
        Ok(())
    }

    /// Replays a batch as [`MemTableRecoverContext::replay`] does, from the bytes that it was read from: no
    /// `LogItem` is made of most of its items.
    ///
    /// # Errors
    ///
    /// Those of [`MemTableRecoverContext::replay`]; each leaves what it leaves there.
    pub fn replay_read(&mut self, batch: &ReadBatch<'_>, file_id: FileId) -> Result<()>
        ensures ok { OnOk result (IsBatchTaken (event batch.now file_id) self.old self.new) }
        ensures counts { OnOk result (IsBatchCounted (event batch.now file_id) self.old.context
            self.old.counts self.new.counts) }
        ensures fault { IfErr result (IsBatchFault self.old (event batch.now file_id)) }
        ensures err { OnErr result (self.new.stage ≡ refused_stage self.old.stage) }
        ensures unchanged { self.old.stage ≢ Reading → self.new ≡ self.old }
        ensures failed { self.old.stage ≢ Reading → IfErr result (λ e. e ≡ Error.Failed) }
    {
        self.stage.begin()?;
        self.state.replay_read(batch, file_id)?;
        self.stage = ContextStage::Reading;
        Ok(())
    }

    /// Merges `rhs`, the context of the batches that follow directly, into this one. The batches of both are
    /// of `queue`. Groups that begin here and become whole in `rhs` take effect first.
    ///
    /// # Errors
    ///
    /// `Failed` if the context doesn't read on, and nothing changes then. After any other error the context
    /// has failed, and reads on no more:
    /// - `Failed` if `rhs` doesn't read on;
    /// - `InvalidArgument` if either context is of another queue;
    /// - `Corruption` if the first file of `rhs` is numbered below the last one of this context, or entries
    ///   leave a hole in the append queue;
    /// - `Full` if both together have more than 2^64 - 1 records;
    /// - `Memory`.
    pub fn merge(&mut self, rhs: MemTableRecoverContext, queue: LogQueue) -> Result<()>
        ensures ok { OnOk result (IsMergedWith queue rhs self.old self.new) }
        ensures fault { IfErr result (IsNeighborFault queue self.old rhs) }
        ensures err { OnErr result (self.new.stage ≡ refused_stage self.old.stage) }
        ensures unchanged { self.old.stage ≢ Reading → self.new ≡ self.old }
        ensures failed { (self.old.stage ≢ Reading) ⊎ (rhs.stage ≢ Reading)
            → IfErr result (λ e. e ≡ Error.Failed) }
    {
        self.stage.begin()?;
        let MemTableRecoverContext { state, mut stage } = rhs;
        stage.begin()?;
        self.state.merge(state, queue)?;
        self.stage = ContextStage::Reading;
        Ok(())
    }

    /// Puts `append`, the context of the append queue, over this one, that of the rewrite queue. A region
    /// that the append queue names then has its table there over the rewritten one. Its *cut* is the least of
    /// the starts of its runs there and of the indexes of its truncations. Of the rewritten table these stay:
    /// - the entries from the region's greatest compaction on and below the cut, if there is one; but none if
    ///   the append queue has entries that don't begin at the cut, or the rewritten ones don't reach it;
    /// - the key values that the append queue neither puts nor deletes;
    /// - nothing, if the append queue cleaned the region.
    ///
    /// The other regions keep their rewritten tables, and the cleaned regions are those of the append queue.
    /// Groups that aren't whole are dropped. After that only `kept` and `finish` may be called.
    ///
    /// # Errors
    ///
    /// `Failed` if the context doesn't read on, and nothing changes then. After any other error the context
    /// has failed, and reads on no more:
    /// - `Failed` if `append` doesn't read on;
    /// - `InvalidArgument` if this context is of the append queue, or `append` is of the rewrite queue;
    /// - `Full` if both together have more than 2^64 - 1 records;
    /// - `Memory`.
    pub fn merge_append_context(&mut self, append: MemTableRecoverContext) -> Result<()>
        ensures ok { OnOk result (IsOverlaidWith append self.old self.new) }
        ensures exact { (rewrite appended : List Event) → HasReadExactly self.old rewrite
            → HasReadExactly append appended
            → OnOk result (IsOfBothExactly self.new rewrite appended) }
        ensures fault { IfErr result (IsMergeAppendFault self.old append) }
        ensures memory { (rewrite appended : List Event) → IsSmall rewrite → IsSmall appended
            → IsOfQueue Rewrite rewrite → IsOfQueue Append appended → HasRead self.old rewrite
            → HasRead append appended → IfErr result (λ e. e ≡ Error.Memory) }
        ensures err { OnErr result (self.new.stage ≡ refused_stage self.old.stage) }
        ensures unchanged { self.old.stage ≢ Reading → self.new ≡ self.old }
        ensures failed { (self.old.stage ≢ Reading) ⊎ (append.stage ≢ Reading)
            → IfErr result (λ e. e ≡ Error.Failed) }
    {
        self.stage.begin()?;
        let MemTableRecoverContext { state, mut stage } = append;
        stage.begin()?;
        self.state.overlay(state)?;
        self.stage = ContextStage::Overlaid;
        Ok(())
    }

    /// Returns what this context, that of the append queue, takes away from the tables of `rewritten`, the
    /// context of the rewrite queue, as open batches to write to the rewrite queue. For each region with a
    /// rewritten table they have a Clean, if the append queue cleaned it, or else its greatest compaction,
    /// the truncation at its cut ([`MemTableRecoverContext::merge_append_context`]), and the deletion of each
    /// key; but only what takes something away from that table.
    ///
    /// Rewritten entries below the cut may go too, because the append queue's entries don't join them. The
    /// items of such a region are in the batch to write at once, with a compaction to the first of the append
    /// queue's entries. Those of the other regions are in the batch that may be written later.
    ///
    /// # Errors
    ///
    /// `Failed` if either context doesn't read on; `Memory`. Neither context changes.
    #[doc(hidden)]
    pub fn taken_away(&self, alloc: Global, rewritten: &MemTableRecoverContext) -> Result<TakenAway>
        ensures ok { IfOk result (IsTakenAway self.now.context.regions rewritten.now.context.regions.tables) }
        ensures accepted { OnOk result ((self.now.stage ≡ Reading) × (rewritten.now.stage ≡ Reading)) }
        ensures fault { IfErr result (λ e. e ≢ Error.Memory → (e ≡ Error.Failed)
            × ((self.now.stage ≢ Reading) ⊎ (rewritten.now.stage ≢ Reading))) }
    {
        if !self.reads_on() || !rewritten.reads_on() {
            return Err(Error::Failed);
        }
        self.state
            .regions
            .taken_away(alloc, &rewritten.state.regions.accessor)
    }

    /// Returns how much the context holds, in numbers. If it stands for a history exactly, that is no more
    /// than one reading of the history gives, with its groups that aren't whole and the keys that it deletes.
    ///
    /// # Errors
    ///
    /// `Failed` if the context has failed.
    pub fn kept(&self) -> Result<Kept>
        ensures ok { IfOk result (λ kept. kept_shown kept ≡ kept_of self.now.context) }
        ensures little { (queue : LogQueue) (h : List Event) (tables : Tables) (cleaned : List ℕ)
            → HasReadExactly self.now h
            → Suits queue self.now.context.files → IsOneReading queue h tables cleaned
            → IfOk result (λ kept. IsAtMost (kept_shown kept) (kept_by queue h tables)) }
        ensures overlaid { (rewrite append : List Event) → IsOfBothExactly self.now rewrite append
            → IfOk result
            (λ kept. (kept.marks ≡ 0) × (kept.deleted_keys ≡ 0)
            × (kept.waiting_items ≡ 0)) }
        ensures accepted { OnOk result (self.now.stage ≢ Failed) }
        ensures failed { IfErr result (λ e. (e ≡ Error.Failed) × (self.now.stage ≡ Failed)) }
    {
        match self.stage {
            ContextStage::Reading => Ok(self.state.count_kept()),
            ContextStage::Overlaid => Ok(self.state.count_kept_overlaid()),
            ContextStage::Failed => Err(Error::Failed),
        }
    }

    /// Returns the tables of all regions, with the live counts and the regions that were cleaned. The context
    /// is used up: region marks and groups that aren't whole are dropped.
    ///
    /// # Errors
    ///
    /// `Failed` if the context has failed. The tables are dropped then.
    pub fn finish(self) -> Result<MemTableAccessor>
        ensures tables { IfOk result (λ accessor. accessor.tables ≡ self.context.regions.tables) }
        ensures cleaned { IfOk result (λ accessor. accessor.cleaned ≡ self.context.cleaned) }
        ensures exact_counts { IfOk result (λ accessor. AreCountsOf accessor.tables
            accessor.counts) }
        ensures counts { IfOk result (λ accessor. accessor.counts ≡ self.counts) }
        ensures reading { (queue : LogQueue) (h : List Event) → HasReadExactly self h
            → Suits queue self.context.files
            → IfOk result (λ accessor. IsOneReading queue h accessor.tables accessor.cleaned) }
        ensures overlaid { (rewrite append : List Event) → IsOfBothExactly self rewrite append
            → IfOk result
            (λ accessor. IsReadingOfBoth rewrite append accessor.tables accessor.cleaned) }
        ensures accepted { OnOk result (self.stage ≢ Failed) }
        ensures failed { IfErr result (λ e. (e ≡ Error.Failed) × (self.stage ≡ Failed)) }
    {
        let MemTableRecoverContext { state, stage } = self;
        if stage == ContextStage::Failed {
            return Err(Error::Failed);
        }
        let accessor = state.regions.accessor;
        accessor.counts_are_exact();
        Ok(accessor)
    }
}

impl ReplayMachine for MemTableRecoverContext {
    ghost use Rattle.raft_contexts.specs.RecoverContext.{HasRead, HasReadExactly};

    ghost stands_for = { HasRead };

    ghost stands_exactly = { HasReadExactly };

    /// Replays the next batch of a queue, which was written to the file `file_id`, by
    /// [`MemTableRecoverContext::replay`].
    ///
    /// # Errors
    ///
    /// Those of [`MemTableRecoverContext::replay`], which also says what they leave.
    fn replay(&mut self, batch: LogItemBatch, file_id: FileId) -> Result<()> {
        self.replay(batch, file_id)
    }

    /// Replays a batch from the bytes that it was read from, by [`MemTableRecoverContext::replay_read`]: most
    /// of its items aren't copied first.
    ///
    /// # Errors
    ///
    /// Those of [`MemTableRecoverContext::replay`], which also says what they leave.
    fn replay_read(&mut self, batch: &ReadBatch<'_>, file_id: FileId) -> Result<()> {
        self.replay_read(batch, file_id)
    }

    /// Merges `rhs`, the context of the batches that follow directly, all of `queue`, by
    /// [`MemTableRecoverContext::merge`].
    ///
    /// # Errors
    ///
    /// Those of [`MemTableRecoverContext::merge`], which also says what they leave.
    fn merge(&mut self, rhs: MemTableRecoverContext, queue: LogQueue) -> Result<()> {
        self.merge(rhs, queue)
    }

    ghost exact_stands = { λ m h e. record { stage = e.stage; stands = e.exact.stands } };
}

/// Makes contexts that have read nothing.
#[derive(Drop)]
pub struct MemTableRecoverContextFactory;

impl MemTableRecoverContextFactory {
    /// Returns a factory. It has no settings.
    pub fn new() -> MemTableRecoverContextFactory {
        MemTableRecoverContextFactory
    }
}

impl Factory<MemTableRecoverContext> for MemTableRecoverContextFactory {
    ghost use Rattle.std.specs.Prelude.{[]};
    ghost use Rattle.raft_contexts.specs.RecoverContext.{HasReadExactly};

    ghost gives = { λ _ context. HasReadExactly context [] };

    ghost may_refuse = { λ _ e. ⊥ };

    /// Returns a context that has read nothing.
    ///
    /// # Errors
    ///
    /// `Memory` alone.
    fn new_target(&self, alloc: Global) -> Result<MemTableRecoverContext> {
        MemTableRecoverContext::new(alloc)
    }
}
