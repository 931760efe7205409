//! Whether the atomic groups of batches stand in rows, found out by a machine that batches are replayed into.

ghost use Rattle.std.specs.Prelude.{◌≡◌, ◌≢◌, ◌↔◌, ℕ, List, [], ◌∷◌, ◌++◌, IfErr, IfOk, IsTrue, OnOk, map, None};
ghost use Rattle.raft_base.specs.declared.pipe_log.LogQueue.TheVariants.{Rewrite};
ghost use Rattle.raft_history.specs.Batches.{Event, marker_in};
ghost use Rattle.raft_history.specs.Histories.{HaveStatus};
ghost use Rattle.raft_records.specs.Item.{item_of};
ghost use Rattle.raft_engine_laws.specs.GroupsInRows.{AreGroupsInRows, MayStandBy, open_by};
ghost use Rattle.raft_engine_laws.specs.RowSummaries.{AreJoined, IsSummaryOf};
ghost use Rattle.raft_engine.specs.RowsShown.{AreUnmarked, IsMarkedAs, IsUnmarked, marker_shown, rows_shown};

use raft_base::{Error, Factory, FileId, FileSeq, LogQueue, Result};
use raft_history::ReplayMachine;
use raft_records::{
    AtomicGroupStatus, LogItem, LogItemBatch, ReadBatch, ReadContent, ReadItem, is_reserved,
};
use std::alloc::Global;

/// The text of the error for files in which a group doesn't stand in a row.
pub const OUT_OF_ROW: &str = "the batches of an atomic group don't stand in a row, in one file";

/// What counts of a batch here: its group marker, if it has one, and its file.
#[derive(Clone, Copy)]
pub struct MarkedBatch {
    /// The number of the group, and which of its batches it is.
    pub marker: Option<(u64, AtomicGroupStatus)>,
    /// The number of the file.
    pub seq: FileSeq,
}

/// A summary of the atomic groups of neighboring batches, from which follows whether each group stands in a row: whether each
/// batch that goes on with a group or ends it stands directly after one that begins that group or goes on with it, in the same
/// file. The summaries of neighbors can be joined.
#[derive(Drop)]
pub struct GroupRows {
    /// The first batch; `None` if there is no batch.
    pub first: Option<MarkedBatch>,
    /// The group that the last batch leaves open, and the number of its file.
    pub left: Option<(u64, FileSeq)>,
    /// Whether each batch after the first may stand where it does.
    pub rest_stands: bool,
}

impl GroupRows {
    /// Makes the summary of no batch at all.
    pub fn new() -> GroupRows
        ensures { IsSummaryOf (rows_shown result) [] }
    {
        GroupRows {
            first: None,
            left: None,
            rest_stands: true,
        }
    }

    /// Returns the summary of one batch.
    fn of_batch(batch: MarkedBatch) -> GroupRows
        ensures { (e : Event) → IsMarkedAs e batch → IsSummaryOf (rows_shown result) (e ∷ []) }
    {
        GroupRows {
            first: Some(batch),
            left: group_left_open(batch),
            rest_stands: true,
        }
    }

    /// Tests whether each atomic group of the batches stands in a row, if none comes before them.
    pub fn stand(&self) -> bool
        ensures { (h : List Event) → IsSummaryOf (rows_shown self.now) h → (IsTrue result ↔ AreGroupsInRows h) }
    {
        match self.first {
            Some(first) => self.rest_stands && may_follow(first, None),
            None => self.rest_stands,
        }
    }

    /// Takes in `newer`, the summary of the batches that follow.
    fn join_newer(&mut self, newer: GroupRows)
        ensures { AreJoined (rows_shown self.old) (rows_shown newer) (rows_shown self.new) }
    {
        let Some(first) = newer.first else {
            self.rest_stands = self.rest_stands && newer.rest_stands;
            return;
        };
        let seam = self.first.is_none() || may_follow(first, self.left);
        self.rest_stands = self.rest_stands && seam && newer.rest_stands;
        self.left = newer.left;
        self.first = self.first.or(newer.first);
    }
}

impl ReplayMachine for GroupRows {
    ghost stands_for = { λ rows h. IsSummaryOf (rows_shown rows) h };

    ghost stands_exactly = { λ rows h. IsSummaryOf (rows_shown rows) h };

    /// Takes in a batch: of its items only the first group marker counts.
    ///
    /// # Errors
    ///
    /// `Corruption` if the marker's status is unknown; `Memory`. Nothing is taken in then.
    fn replay(&mut self, batch: LogItemBatch, file_id: FileId) -> Result<()> {
        let items = batch.into_items();
        let marker = marker_of_batch(*items.allocator(), file_id.queue, items.as_slice())?;
        self.join_newer(GroupRows::of_batch(MarkedBatch {
            marker,
            seq: file_id.seq,
        }));
        Ok(())
    }

    /// Takes in a batch that is borrowed. It is copied only if it may have a group marker.
    ///
    /// # Errors
    ///
    /// `Corruption` if the marker's status is unknown; `Memory`. Nothing is taken in then.
    fn replay_read(&mut self, batch: &ReadBatch<'_>, file_id: FileId) -> Result<()> {
        if has_surely_no_marker(batch, file_id.queue) {
            self.join_newer(GroupRows::of_batch(MarkedBatch {
                marker: None,
                seq: file_id.seq,
            }));
            return Ok(());
        }
        let own = batch.to_batch(batch.allocator())?;
        self.replay(own, file_id)
    }

    /// Takes in the summary of the batches that follow. It never fails.
    fn merge(&mut self, rhs: GroupRows, _queue: LogQueue) -> Result<()> {
        self.join_newer(rhs);
        Ok(())
    }

    ghost exact_stands = { λ rows h stands. stands };
}

/// Makes summaries of no batch.
#[derive(Drop)]
pub struct GroupRowsFactory;

impl Factory<GroupRows> for GroupRowsFactory {
    ghost gives = { λ _ rows. IsSummaryOf (rows_shown rows) [] };

    ghost may_refuse = { λ _ e. ⊥ };

    /// Makes the summary of no batch. It never fails.
    fn new_target(&self, _alloc: Global) -> Result<GroupRows> {
        Ok(GroupRows::new())
    }
}

/// Tests whether a batch of `queue`, as it was read, surely has no group marker: `false` says nothing. Batches of the append
/// queue have none.
fn has_surely_no_marker(batch: &ReadBatch<'_>, queue: LogQueue) -> bool
    ensures { IsTrue result → marker_in queue batch.now ≡ None }
{
    match queue {
        LogQueue::Append => true,
        LogQueue::Rewrite => {
            let (_, items, _) = batch.parts();
            surely_none_is_marker(items)
        }
    }
}

/// Tests whether surely none of `items` is a group marker, by their keys: `false` says nothing.
fn surely_none_is_marker(items: &[ReadItem<'_>]) -> bool
    ensures { IsTrue result → AreUnmarked items.now }
{
    items.iter().all(|item| is_surely_no_marker(item))
}

/// Tests whether an item is surely no group marker: it puts no reserved key.
fn is_surely_no_marker(item: &ReadItem<'_>) -> bool
    ensures { IsTrue result → IsUnmarked item.now }
{
    match &item.content {
        ReadContent::Put { key, .. } => !is_reserved(key),
        _ => true,
    }
}

/// Returns the group marker of a batch of `queue`: its first one, if there are more. `None` if it has none, or is of the
/// append queue.
///
/// # Errors
///
/// `Corruption` if the marker's status is unknown; `Memory`.
fn marker_of_batch(
    alloc: Global,
    queue: LogQueue,
    items: &[LogItem],
) -> Result<Option<(u64, AtomicGroupStatus)>>
    ensures ok { IfOk result
        (λ marker. marker_shown marker ≡ marker_in queue (map item_of items.now)) }
    ensures refused { IfErr result
        (λ e. e ≢ Error.Memory → ¬ (HaveStatus queue (map item_of items.now))) }
{
    match queue {
        LogQueue::Append => Ok(None),
        LogQueue::Rewrite => first_marker_of_items(alloc, items),
    }
}

/// Returns the first group marker of `items`; `None` if there is none.
///
/// # Errors
///
/// `Corruption` if a marker's status is unknown; `Memory`.
fn first_marker_of_items(
    alloc: Global,
    items: &[LogItem],
) -> Result<Option<(u64, AtomicGroupStatus)>>
    ensures ok { IfOk result
        (λ marker. marker_shown marker ≡ marker_in Rewrite (map item_of items.now)) }
    ensures refused { IfErr result
        (λ e. e ≢ Error.Memory → ¬ (HaveStatus Rewrite (map item_of items.now))) }
{
    for item in items {
        let marker = AtomicGroupStatus::parse(alloc, item)?;
        if marker.is_some() {
            return Ok(marker);
        }
    }
    Ok(None)
}

/// Tests whether `batch` may stand directly after one that leaves the group `left` open; `None` if it leaves none open, or no
/// batch comes before.
fn may_follow(batch: MarkedBatch, left: Option<(u64, FileSeq)>) -> bool
    ensures { IsTrue result ↔ MayStandBy (marker_shown batch.marker) batch.seq left }
{
    match batch.marker {
        None | Some((_, AtomicGroupStatus::Begin)) => true,
        Some((group, _)) => match left {
            Some((other, file)) => other == group && file == batch.seq,
            None => false,
        },
    }
}

/// Returns the group that `batch` leaves open, with the number of its file; `None` if it leaves none open.
fn group_left_open(batch: MarkedBatch) -> Option<(u64, FileSeq)>
    ensures { result ≡ open_by (marker_shown batch.marker) batch.seq }
{
    match batch.marker {
        None | Some((_, AtomicGroupStatus::End)) => None,
        Some((group, _)) => Some((group, batch.seq)),
    }
}
