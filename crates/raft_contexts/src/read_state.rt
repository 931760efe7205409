//! What a context has read of a queue's batches, apart from whether it may read on.

ghost use Rattle.std.specs.Prelude.{◌≡◌, ◌≢◌, true, List, [], ◌∷◌, OnOk, OnErr, IfOk, IfErr, Some, None, map};
ghost use Rattle.raft_contexts.specs.Common.{AllByRecursion, option_map, Rewrite, Item, new_context, Suits, files_of, follows, merged_with, AreMerged, region_steps_or, kept_of, region_steps_of_wholes, event, marker_found, kept_shown};
ghost use Rattle.raft_contexts.specs.Common.{context_in, shown_with, IsOfHistory, IsTakenIn, AreWholesTaken, CanTakeEffect, CanTakeEffectIfAny, reading_on, MayFollow, IsBatchFault, AreNeighbors, IsNeighborFault, no_counts};
ghost use Rattle.raft_contexts.specs.Common.{AreCountsAfterSteps, whole_shown};

mod overlay;

use crate::batch_check::{check_batch, is_lone_read};
use crate::file_range::FileRange;
use crate::kept::Kept;
use crate::marked_tables::MarkedTables;
use crate::waiting_group::WholeGroup;
use crate::waiting_groups::WaitingGroups;
use crate::waiting_items::WaitingItems;
use raft_base::{Error, FileId, LogQueue, Result};
use raft_records::{AtomicGroupStatus, LogItemBatch, ReadBatch};
use std::alloc::Global;

/// What was read: the tables and region marks of all regions, the groups that aren't whole yet, and the files
/// of the batches.
#[derive(Drop)]
pub(crate) struct ReadState {
    /// The tables and region marks of all regions.
    pub(crate) regions: MarkedTables,
    /// The atomic groups that aren't whole yet.
    pub(crate) groups: WaitingGroups,
    /// The files of the batches, or `None` before the first batch.
    pub(crate) files: Option<FileRange>,
    alloc: Global,
}

impl ReadState {
    /// Returns a state in which nothing was read.
    ///
    /// # Errors
    ///
    /// `Memory` alone.
    pub(crate) fn new(alloc: Global) -> Result<ReadState>
        ensures ok { IfOk result (λ state. context_in state ≡ new_context) }
        ensures counts { IfOk result (λ state. state.regions.accessor.counts ≡ no_counts) }
        ensures memory { IfErr result (λ e. e ≡ Error.Memory) }
    {
        Ok(ReadState {
            regions: MarkedTables::new(alloc)?,
            groups: WaitingGroups::new(alloc),
            files: None,
            alloc,
        })
    }

    /// Replays the next batch, which was written to the file `file`.
    ///
    /// # Errors
    ///
    /// Those of [`MemTableRecoverContext::replay`](crate::MemTableRecoverContext::replay) other than
    /// `Failed`. A part of the batch may have taken effect then, so the caller must not use the state any
    /// more.
    pub(crate) fn replay(&mut self, batch: LogItemBatch, file: FileId) -> Result<()>
        requires { IsOfHistory (context_in self.old) }
        ensures { IsTakenIn (event batch file) result self.old self.new }
    {
        self.check_file(file)?;
        match check_batch(self.alloc, &batch, file)? {
            None => self.apply_lone_batch(batch, file),
            Some((id, status)) => self.add_group_batch(id, status, batch, file),
        }
    }

    /// Replays the next batch from the bytes that it was read from. A batch that may have a group marker, or
    /// that was read in another file, is copied first, and then replayed as [`ReadState::replay`] does it.
    ///
    /// # Errors
    ///
    /// Those of [`ReadState::replay`], and `Memory` if there is none for the copy. A part of the batch may
    /// have taken effect then.
    pub(crate) fn replay_read(&mut self, batch: &ReadBatch<'_>, file: FileId) -> Result<()>
        requires { IsOfHistory (context_in self.old) }
        ensures { IsTakenIn (event batch.now file) result self.old self.new }
    {
        if !is_lone_read(batch, file) {
            let batch = batch.to_batch(self.alloc)?;
            return self.replay(batch, file);
        }
        self.check_file(file)?;
        self.regions.apply_read_batch(self.alloc, file, batch)?;
        self.files = FileRange::join_ranges(self.files, Some(FileRange::of_file(file)));
        Ok(())
    }

    /// Checks that the next batch may be in the file `file`: it is of the queue of the files before, and not
    /// numbered below the last of them.
    ///
    /// # Errors
    ///
    /// `Corruption` if it may not be; `Memory` if there is none for its text.
    fn check_file(&self, file: FileId) -> Result<()>
        ensures queue { OnOk result (Suits file.queue (context_in self.now).files) }
        ensures files { OnOk result ((items : List Item)
            → follows (context_in self.now).files (files_of (event items file ∷ [])) ≡ true) }
        ensures fault { IfErr result (λ e. (items : List Item)
            → IsBatchFault (reading_on (context_in self.now)) (event items file) e) }
    {
        if !FileRange::is_of_queue(self.files, file.queue) {
            return Err(Error::corruption(self.alloc, "a batch of the other queue"));
        }
        if !FileRange::is_followed_by(self.files, Some(FileRange::of_file(file))) {
            return Err(Error::corruption(self.alloc, "a batch of a file below the last one"));
        }
        Ok(())
    }

    /// Applies the items of `batch`, which takes effect at once, to the tables and region marks. The caller
    /// has checked that it may stand in the file `file`, and has no group marker that counts.
    ///
    /// # Errors
    ///
    /// Those of [`ReadState::replay`]. Some of the items may have been applied then.
    fn apply_lone_batch(&mut self, batch: LogItemBatch, file: FileId) -> Result<()>
        requires history { IsOfHistory (context_in self.old) }
        requires next { MayFollow (context_in self.old) (event batch file) }
        requires without_marker { marker_found file.queue batch ≡ None }
        ensures { IsTakenIn (event batch file) result self.old self.new }
    {
        self.regions.apply_items(file, batch)?;
        self.files = FileRange::join_ranges(self.files, Some(FileRange::of_file(file)));
        Ok(())
    }

    /// Keeps the items of `batch`, a batch with a marker of the group `id`, until the group is whole. If this
    /// batch makes it whole, all its items are applied. `status` is that of the marker. The caller has
    /// checked that the batch may stand in the file `file`.
    ///
    /// # Errors
    ///
    /// Those of [`ReadState::replay`]. What is known of the group may be lost then.
    fn add_group_batch(
        &mut self,
        id: u64,
        status: AtomicGroupStatus,
        batch: LogItemBatch,
        file: FileId,
    ) -> Result<()>
        requires history { IsOfHistory (context_in self.old) }
        requires next { MayFollow (context_in self.old) (event batch file) }
        requires with_marker { marker_found file.queue batch ≡ Some (id, status) }
        ensures { IsTakenIn (event batch file) result self.old self.new }
    {
        let items = WaitingItems::of_items(batch.into_items())?;
        let whole = self.groups.add_batch(id, status, items, file.seq)?;
        apply_group_if_whole(&mut self.regions, whole)?;
        self.files = FileRange::join_ranges(self.files, Some(FileRange::of_file(file)));
        Ok(())
    }

    /// Merges `newer`, what was read of the batches that follow directly in `queue`, into this. Groups that
    /// begin here and become whole in `newer` take effect first.
    ///
    /// # Errors
    ///
    /// Those of [`MemTableRecoverContext::merge`](crate::MemTableRecoverContext::merge) other than `Failed`.
    /// A part of `newer` may have been merged then, and the rest is dropped.
    pub(crate) fn merge(&mut self, newer: ReadState, queue: LogQueue) -> Result<()>
        requires older { IsOfHistory (context_in self.old) }
        requires newer { IsOfHistory (context_in newer) }
        ensures neighbors { OnOk result (AreNeighbors queue (context_in self.old)
            (context_in newer)) }
        ensures regions { OnOk result (AreMerged queue (context_in self.old) (context_in newer)
            (context_in self.new).regions) }
        ensures merged { OnOk result (context_in self.new
            ≡ merged_with (context_in self.old) (context_in newer) (context_in self.new).regions) }
        ensures history { OnOk result (IsOfHistory (context_in self.new)) }
        ensures fault { IfErr result (IsNeighborFault queue (reading_on (context_in self.old))
            (reading_on (context_in newer))) }
    {
        self.check_neighbor(&newer, queue)?;
        let ReadState {
            regions,
            groups,
            files,
            ..
        } = newer;
        let wholes = self.groups.join(groups)?;
        apply_whole_groups(&mut self.regions, wholes)?;
        self.regions.join(queue, regions)?;
        self.files = FileRange::join_ranges(self.files, files);
        Ok(())
    }

    /// Returns how much the state holds: records, region marks and groups, deleted keys, cleaned regions and
    /// waiting items. Region marks that tables only imply count too.
    pub(crate) fn count_kept(&self) -> Kept
        ensures { kept_shown result ≡ kept_of (context_in self.now) }
    {
        let accessor = &self.regions.accessor;
        let (entries, keys) = accessor.totals();
        Kept {
            entries,
            keys,
            marks: self.regions.marks_count() + self.groups.len() as u128,
            deleted_keys: self.regions.deleted_keys(),
            cleaned: accessor.cleaned_regions().len() as u128,
            waiting_items: self.groups.waiting_items(),
        }
    }

    /// Returns how much the state holds once the append queue was put over it. Only region marks that are
    /// kept count then, as tables imply none any more.
    pub(crate) fn count_kept_overlaid(&self) -> Kept
        ensures { kept_shown result ≡ kept_of (shown_with self.now.regions.marks self.now) }
    {
        let marks = &self.regions.marks;
        Kept {
            marks: marks.len() as u128 + self.groups.len() as u128,
            deleted_keys: marks.deleted_keys(),
            ..self.count_kept()
        }
    }

    /// Checks that `newer` may follow this: both are of `queue`, and its files begin at or above the last one
    /// here.
    ///
    /// # Errors
    ///
    /// `InvalidArgument` for another queue; `Corruption` for a file numbered below; `Memory` if there is none
    /// for the text.
    fn check_neighbor(&self, newer: &ReadState, queue: LogQueue) -> Result<()>
        ensures ok { OnOk result (AreNeighbors queue (context_in self.now)
            (context_in newer.now)) }
        ensures fault { IfErr result (IsNeighborFault queue (reading_on (context_in self.now))
            (reading_on (context_in newer.now))) }
    {
        if !FileRange::is_of_queue(self.files, queue)
            || !FileRange::is_of_queue(newer.files, queue)
        {
            return Err(Error::invalid_argument(self.alloc, "a context of the other queue"));
        }
        if !FileRange::is_followed_by(self.files, newer.files) {
            return Err(Error::corruption(
                self.alloc,
                "the newer context begins in a file below the last one",
            ));
        }
        Ok(())
    }
}

/// Applies the group `whole` to the tables and region marks. Does nothing for `None`.
///
/// # Errors
///
/// Those of [`MarkedTables::apply_group`]. Some of its steps may have been applied then.
fn apply_group_if_whole(regions: &mut MarkedTables, whole: Option<WholeGroup>) -> Result<()>
    requires { CanTakeEffectIfAny (option_map whole_shown whole) }
    ensures wholes { AreWholesTaken (region_steps_or (option_map whole_shown whole)) result
        regions.old regions.new }
    ensures counts { OnOk result (AreCountsAfterSteps Rewrite regions.old.accessor.tables
        (region_steps_or (option_map whole_shown whole)) regions.old.accessor.counts
        regions.new.accessor.counts) }
{
    match whole {
        Some(whole) => regions.apply_group(whole),
        None => Ok(()),
    }
}

/// Applies the groups `wholes`, which became whole, to the tables and region marks, one after another.
///
/// # Errors
///
/// Those of [`MarkedTables::apply_group`]. The groups before the refused one, and some of its own steps, may
/// have been applied then.
fn apply_whole_groups(regions: &mut MarkedTables, wholes: Vec<WholeGroup>) -> Result<()>
    requires { AllByRecursion CanTakeEffect (map whole_shown wholes.items) }
    ensures wholes { AreWholesTaken (region_steps_of_wholes (map whole_shown wholes.items)) result
        regions.old regions.new }
    ensures none { OnErr result (map whole_shown wholes.items ≢ []) }
{
    for whole in wholes {
        regions.apply_group(whole)?;
    }
    Ok(())
}
