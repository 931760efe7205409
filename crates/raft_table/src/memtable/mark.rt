//! [`Mark`]: the region mark of steps, which says what they do to older tables of their region.
//!
//! Words of this file: the *own* table of some steps is what they give alone, from an empty table. A mark is
//! *joined* with that of newer steps, so that it stands for all of them. An index is *barred* if the steps
//! are refused over an older table that has an entry at it.

ghost use Rattle.std.specs.Prelude.{◌≡◌, ◌<◌, ◌||◌, MatchBool, OnOk, OnErr, Some, None};
ghost use Rattle.raft_table.specs.Common.{Append, Rewrite, misses, fresh, is_settled, mark_of, end_at_reach, joined_at, joined_barred, joined_deleted, joined_floor, is_detached, narrowed_bars, with_bounds, at_most_bound, lesser, LogQueue};
ghost use Rattle.raft_table.specs.Common.{step_shown};
ghost use Rattle.std.specs.FinSet as finset;

use crate::memtable::deleted_keys::DeletedKeys;
use crate::step::Step;
use raft_base::{AllocResult, LogQueue};
use std::alloc::Global;
use std::marker::Model;
use std::mem;

/// The barred indexes: from the first number on, and below the second one.
type Bars = Option<(u64, u64)>;

/// The *region mark* of steps on a region: what they do to any older table of it, in a few numbers and the
/// deleted keys.
///
/// With it, the table that the steps alone give (their *own* table) can be put over the table of the steps
/// before them, with the same result as if all steps had been read in order.
#[derive(Debug, Drop)]
pub struct Mark {
    /// What the steps do to older entries, and whether they cleaned the region.
    bounds: Bounds,
    /// The keys that the steps deleted.
    deleted: DeletedKeys,
}

/// A region mark without its deleted keys. The fields are those of `Mark` in `specs/Marks.antt`.
#[derive(Debug, Clone, Copy, Default)]
struct Bounds {
    /// Whether the steps cleaned the region. Steps after that don't count in the mark.
    cleaned: bool,
    /// The first index of the first run, if there is a run.
    reach: Option<u64>,
    /// The highest index of the compactions before that run.
    reach_floor: u64,
    /// The lowest index of the truncations before that run, if there is one.
    reach_cut: Option<u64>,
    /// The steps are refused over an older entry from the first of these indexes on and below the second one.
    barred: Option<(u64, u64)>,
    /// Older entries below this index are dropped.
    floor: u64,
    /// Older entries at or above this index are dropped; `None` if there is neither a run nor a truncation.
    cut: Option<u64>,
}

impl Bounds {
    /// Returns the bounds of one `step`. Steps on key values or an atomic group change no bound.
    fn of_step(step: &Step) -> Bounds
        ensures { with_bounds result ≡ record (mark_of (step_shown step.now))
            { deleted = finset.empty } }
    {
        match step {
            Step::Run(run) => match run.first() {
                Some(first) => Bounds::of_run_from(first.index),
                None => Bounds::default(),
            },
            Step::Compact { index } => Bounds {
                floor: *index,
                ..Bounds::default()
            },
            Step::Truncate { index } => Bounds {
                cut: Some(*index),
                ..Bounds::default()
            },
            Step::Clean => Bounds {
                cleaned: true,
                ..Bounds::default()
            },
            Step::Put { .. } | Step::Del { .. } | Step::AtomicGroup { .. } => Bounds::default(),
        }
    }

    /// Returns the bounds of a run with the first index `start`: it drops older entries from there on, and
    /// the others have to reach it.
    fn of_run_from(start: u64) -> Bounds
        ensures { with_bounds result ≡ record fresh { reach = Some start; cut = Some start } }
    {
        Bounds {
            reach: Some(start),
            cut: Some(start),
            ..Bounds::default()
        }
    }
}

impl Model for Mark {
    ghost use Rattle.raft_table.specs.Marks.{Mark};
    ghost use Rattle.raft_table.specs.MarkCode.{mark_code};

    ghost Value = { Mark };

    ghost coded = { mark_code };

    ghost use Rattle.raft_table.specs.MarkView.{mark_shown};

    ghost view = { mark_shown };
}

impl Mark {
    /// Returns the region mark of no steps, which leaves older tables as they are. Keys will be allocated
    /// from `alloc`.
    pub fn new(alloc: Global) -> Mark
        ensures { result ≡ fresh }
    {
        Mark {
            bounds: Bounds::default(),
            deleted: DeletedKeys::new(alloc),
        }
    }

    /// Returns the region mark of one run with the first index `start`. Keys will be allocated from `alloc`.
    pub fn of_run(alloc: Global, start: u64) -> Mark
        ensures { result ≡ record fresh { reach = Some start; cut = Some start } }
    {
        Mark {
            bounds: Bounds::of_run_from(start),
            deleted: DeletedKeys::new(alloc),
        }
    }

    /// Tests whether the steps cleaned the region, so that nothing of an older table stays.
    pub fn is_cleaned(&self) -> bool
        ensures { result ≡ self.now.cleaned }
    {
        self.bounds.cleaned
    }

    /// Returns the highest index of the compactions before the first run, or 0 if there are none. Older
    /// entries below it don't count when the mark is tested for whether that run leaves a hole.
    pub fn reach_floor(&self) -> u64
        ensures { result ≡ self.now.reach_floor }
    {
        self.bounds.reach_floor
    }

    /// Returns the lowest index of the truncations before the first run, or `None` if there is no such
    /// truncation or no run. Older entries at or above it don't count when the mark is tested for whether
    /// that run leaves a hole.
    pub fn reach_cut(&self) -> Option<u64>
        ensures { result ≡ self.now.reach_cut }
    {
        self.bounds.reach_cut
    }

    /// Returns the indexes at which an older table may have no entry, from the first number on and below the
    /// second one; or `None` if there are none. In the append queue the steps are refused over an older table
    /// with an entry there.
    pub fn barred_indexes(&self) -> Option<(u64, u64)>
        ensures { result ≡ self.now.barred }
    {
        self.bounds.barred
    }

    /// Returns the first index of the first run, or `None` if there was no run before the region was cleaned.
    pub fn reach(&self) -> Option<u64>
        ensures { result ≡ self.now.reach }
    {
        self.bounds.reach
    }

    /// Returns the index below which older entries are dropped, or 0 if none are.
    pub fn floor(&self) -> u64
        ensures { result ≡ self.now.floor }
    {
        self.bounds.floor
    }

    /// Returns the index at and above which older entries are dropped, or `None` if there was neither a run
    /// nor a truncation.
    pub fn cut(&self) -> Option<u64>
        ensures { result ≡ self.now.cut }
    {
        self.bounds.cut
    }

    /// Returns the keys whose older values are dropped, because the steps deleted them. After a clean it
    /// doesn't matter, since then everything older is dropped.
    #[doc(hidden)]
    pub fn deleted_keys(&self) -> &DeletedKeys
        ensures { result.now ≡ self.now.deleted }
    {
        &self.deleted
    }

    /// Tests whether the first run leaves a hole after older entries that end before index `end`. Returns
    /// false if there is no run, or `end` is 0, which stands for no older entries.
    pub fn leaves_hole_after(&self, end: u64) -> bool
        ensures { result ≡ misses self.now.reach end }
    {
        run_leaves_hole(self.bounds.reach, end)
    }

    /// Joins the mark of newer steps to this one, which then stands for the steps of both. `end_at_reach` is
    /// the end of those entries of this mark's own table that the first newer run meets
    /// ([`MemTable::end_at_reach`]). The deleted keys of `newer` may be moved into this mark; its other
    /// values stay.
    ///
    /// # Errors
    ///
    /// `AllocError` if there is no memory for the newer deleted keys. The bounds of both marks are unchanged
    /// then, but one deleted key is lost, and the others are divided between both: neither mark may be used
    /// after that.
    #[tactic(auto, using(crate::proofs::StepMarkLemmas::bounds_joined))]
    pub fn join(&mut self, queue: LogQueue, end_at_reach: u64, newer: &mut Mark) -> AllocResult<()>
        ensures ok { OnOk result (self.new ≡ joined_at queue end_at_reach self.old newer.old) }
        ensures err { OnErr result (self.new ≡ record self.old { deleted = self.new.deleted }) }
        ensures newer { newer.new ≡ record newer.old { deleted = newer.new.deleted } }
    {
        if self.is_settled() {
            return Ok(());
        }
        self.join_deleted(newer)?;
        self.join_bounds(queue, end_at_reach, newer.bounds);
        Ok(())
    }

    /// Joins the mark of one newer run with the first index `start`. `end` is the end of this mark's own
    /// entries before that run, or 0 if there are none.
    pub fn add_run(&mut self, queue: LogQueue, end: u64, start: u64)
        ensures { self.new
            ≡ joined_at queue end self.old (record fresh { reach = Some start; cut = Some start }) }
    {
        if self.covers_run(end, start) {
            return;
        }
        self.join_bounds(queue, end, Bounds::of_run_from(start));
    }

    /// Joins the mark of one newer step. If it is a run, `end` is the end of this mark's own entries before
    /// it, or 0 if there are none. The key of a deletion is copied.
    ///
    /// # Errors
    ///
    /// `AllocError` if there is no memory for that copy. The mark is unchanged then.
    #[tactic(auto, using(crate::proofs::StepMarkLemmas::bounds_joined))]
    pub fn add_step(&mut self, queue: LogQueue, end: u64, step: &Step) -> AllocResult<()>
        ensures ok { OnOk result (self.new
            ≡ joined_at queue end self.old (mark_of (step_shown step.now))) }
        ensures err { OnErr result (self.new ≡ self.old) }
    {
        if self.is_settled() {
            return Ok(());
        }
        self.delete_keys(step)?;
        self.join_bounds(queue, end, Bounds::of_step(step));
        Ok(())
    }

    /// Changes the deleted keys by a newer `step`: adds a copy of the key of a deletion, and removes all keys
    /// for a clean, since nothing older stays after it.
    ///
    /// # Errors
    ///
    /// `AllocError` if there is no memory for the copy. The mark is unchanged then.
    #[tactic(auto, using(crate::proofs::MarkExact::union_empty, crate::proofs::MarkExact::union_one))]
    fn delete_keys(&mut self, step: &Step) -> AllocResult<()>
        ensures ok { OnOk result (self.new ≡ record self.old
            { deleted = joined_deleted self.old (mark_of (step_shown step.now)) }) }
        ensures err { OnErr result (self.new ≡ self.old) }
    {
        match step {
            Step::Del { key } => self.deleted.insert(Vec::from_slice(*key.allocator(), key)?),
            Step::Clean => {
                self.deleted.clear();
                Ok(())
            }
            _ => Ok(()),
        }
    }

    /// Tests whether it is plain that a newer run with the first index `start` leaves the mark as it is, if
    /// own entries end at `end`: there was a run before, `start` isn't below the cut, and own entries reach
    /// up to it. A false result says nothing. It spares [`Mark::add_run`] the work for most runs.
    fn covers_run(&self, end: u64, start: u64) -> bool
        ensures { MatchBool result ((queue : LogQueue) → joined_at queue end self.now
            (record fresh { reach = Some start; cut = Some start }) ≡ self.now) (Unit {0}) }
    {
        let (Some(_), Some(cut)) = (self.bounds.reach, self.bounds.cut) else {
            return false;
        };
        if start < cut || end < start {
            return false;
        }
        0 < end
    }

    /// Tests whether no newer step changes the mark: the region was cleaned. (A mark with a run but no cut
    /// isn't changed either, but no steps give such a mark.)
    fn is_settled(&self) -> bool
        ensures { result ≡ is_settled self.now }
    {
        self.bounds.cleaned || self.bounds.reach.is_some() && self.bounds.cut.is_none()
    }

    /// Joins the bounds of newer steps to those of this mark. `end` is the end of the own entries that the
    /// first newer run meets. The deleted keys are left to the caller.
    #[inline(always)]
    fn join_bounds(&mut self, queue: LogQueue, end: u64, newer: Bounds)
        ensures { self.new ≡ record (joined_at queue end self.old (with_bounds newer))
            { deleted = self.old.deleted } }
    {
        if self.is_settled() {
            return;
        }
        let older = self.bounds;
        let floor = older.floor.max(newer.floor);
        let newer_barred = narrow_bars(older.floor, older.cut, newer.barred);
        match (older.reach, older.cut) {
            (Some(_), Some(cut)) => {
                let bound = cap_at_cut(cut, newer.reach_cut);
                let detached = is_detached(newer.reach, end, bound);
                let met = (older.floor.max(newer.reach_floor), bound);
                self.bounds.barred = joined_bars(queue, detached, older.barred, met, newer_barred);
                let dropped = drops_all_below(newer.reach, end, bound);
                self.bounds.floor = joined_floor(queue, dropped, floor, cut);
            }
            (_, _) => {
                self.bounds.reach = newer.reach;
                if newer.reach.is_some() {
                    self.bounds.reach_floor = older.floor.max(newer.reach_floor);
                    self.bounds.reach_cut = lesser_or_only(older.cut, newer.reach_cut);
                }
                self.bounds.barred = older.barred.or(newer_barred);
                self.bounds.floor = floor;
            }
        }
        self.bounds.cut = lesser_or_only(older.cut, newer.cut);
        self.bounds.cleaned = newer.cleaned;
    }

    /// Joins the deleted keys of newer steps, which are moved out of `newer`. If the newer steps cleaned the
    /// region, their deleted keys replace the older ones.
    ///
    /// # Errors
    ///
    /// `AllocError` if there is no memory for them. One deleted key is lost then, and the others are divided
    /// between both marks.
    fn join_deleted(&mut self, newer: &mut Mark) -> AllocResult<()>
        ensures err { OnErr result (self.new ≡ record self.old { deleted = self.new.deleted }) }
        ensures ok { OnOk result (self.new ≡ record self.old
            { deleted = joined_deleted self.old newer.old }) }
        ensures newer { newer.new ≡ record newer.old { deleted = newer.new.deleted } }
    {
        if newer.bounds.cleaned {
            mem::swap(&mut self.deleted, &mut newer.deleted);
            return Ok(());
        }
        self.deleted.absorb(&mut newer.deleted)
    }
}

/// Tests whether a run with the first index `reach` leaves a hole after entries that end before index `end`.
/// Returns false if there is no run, or `end` is 0, which stands for no entries.
fn run_leaves_hole(reach: Option<u64>, end: u64) -> bool
    ensures { result ≡ misses reach end }
{
    reach.is_some_and(|start| end > 0 && end < start)
}

/// Returns the part of `barred`, the barred indexes of newer steps, at which older steps leave still older
/// entries: from `floor` on and, with a `cut`, below it.
fn narrow_bars(floor: u64, cut: Option<u64>, barred: Bars) -> Bars
    ensures { result ≡ narrowed_bars floor cut barred }
{
    let (from, below) = barred?;
    Some((floor.max(from), cap_at_cut(below, cut)))
}

/// Tests whether the first newer run, with the first index `reach`, meets no own entries (`end` is 0) and
/// starts above `bound`, below which still older entries stay. Any such entry would then leave a hole.
fn is_detached(reach: Option<u64>, end: u64, bound: u64) -> bool
    ensures { result ≡ is_detached reach end bound }
{
    reach.is_some_and(|start| end == 0 && bound < start)
}

/// Tests whether, in the rewrite queue, the first newer run drops all entries below it: it leaves a hole
/// after the own entries, which end at `end`, or it is detached from `bound` ([`is_detached`]).
fn drops_all_below(reach: Option<u64>, end: u64, bound: u64) -> bool
    ensures { result ≡ is_detached reach end bound || misses reach end }
{
    is_detached(reach, end, bound) || run_leaves_hole(reach, end)
}

/// Returns the barred indexes of joined steps. In the append queue these are the `older` ones if there are
/// any; else `met` if the first newer run is `detached`, and the `newer` ones if it isn't. In the rewrite
/// queue, which refuses no hole, they are the `older` ones.
fn joined_bars(queue: LogQueue, detached: bool, older: Bars, met: (u64, u64), newer: Bars) -> Bars
    ensures { result ≡ joined_barred queue detached older met newer }
{
    match (queue, older) {
        (LogQueue::Append, None) => { if detached { Some(met) } else { newer } }
        (_, _) => older,
    }
}

/// Returns the floor of joined steps: `floor`, the higher one of both. If a newer run of the rewrite queue
/// `dropped` all entries below it, the floor is at least `cut`, so that no older entry stays.
fn joined_floor(queue: LogQueue, dropped: bool, floor: u64, cut: u64) -> u64
    ensures { result ≡ joined_floor queue dropped floor cut }
{
    match queue {
        LogQueue::Append => floor,
        LogQueue::Rewrite => { if dropped { floor.max(cut) } else { floor } }
    }
}

/// Returns the lesser one of the bounds `a` and `b`. If one is `None`, it returns the other.
pub(super) fn lesser_or_only(a: Option<u64>, b: Option<u64>) -> Option<u64>
    ensures { result ≡ lesser a b }
{
    match (a, b) {
        (Some(a), Some(b)) => Some(a.min(b)),
        (a, b) => a.or(b),
    }
}

/// Returns the lesser one of `bound` and `other`, or `bound` if `other` is `None`.
pub(super) fn cap_at_cut(bound: u64, other: Option<u64>) -> u64
    ensures { result ≡ at_most_bound bound other }
{
    other.map_or(bound, |other| bound.min(other))
}
