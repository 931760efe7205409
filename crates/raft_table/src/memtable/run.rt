//! [`Run`]: entries that are put into a table; and laws of region marks.

ghost use Rattle.std.specs.Prelude.{◌≡◌, ◌<◌, ℕ, List, [], ◌∷◌, Option, Some, None, false, ◌+◌, ◌≤◌, ◌++◌, length, MatchOption};
ghost use Rattle.raft_table.specs.Common.{LogQueue, EntryIndex, Append, below, Table, Step, AreSteps, table_of, after, least, IsRun, Mark, table_over_older, Stands, joined_mark, mark_of, own_of, HoldsDeleted, IsExactMark, has_clean};
ghost use Rattle.raft_table.specs.Common.{greatest_compaction, least_cut, deleted_of, rewritten_within, overlay, overlay_under, AreUntruncated, reaching_within, IsStep, IsTableOf, run_shown, start_of};
ghost use Rattle.std.specs.FinSet as finset;

use raft_base::{EntryIndex, FileBlockHandle};

/// A run that is put into a table. Its entries have consecutive indexes, and places in one queue.
#[derive(Clone, Copy)]
pub enum Run<'a> {
    /// A list of entries, each with its own place.
    Entries(&'a [EntryIndex]),
    /// Entries of one entry block: an entry for each of `spans` (offset and length), all at the place
    /// `handle`. The first has the index `first`.
    Block {
        first: u64,
        handle: FileBlockHandle,
        spans: &'a [(u32, u32)],
    },
}

impl Run<'_> {
    /// Returns the index of the first entry, or `None` if there are no entries.
    pub(crate) fn first_index(&self) -> Option<u64>
        ensures { MatchOption result (run_shown self.now ≡ [])
            (λ i. (i ≡ start_of (run_shown self.now)) × (0 < length (run_shown self.now))) }
    {
        match self {
            Run::Entries(run) => run.first().map(|entry| entry.index),
            Run::Block { first, spans, .. } => spans.first().map(|_| *first),
        }
    }

    /// Returns the number of entries in the run.
    pub(crate) fn len(&self) -> usize
        ensures { result ≡ length (run_shown self.now) }
    {
        match self {
            Run::Entries(run) => run.len(),
            Run::Block { spans, .. } => spans.len(),
        }
    }
}

/// States that a region mark and an own table stand for steps on a region. Those of one step stand for it.
/// Those of two neighbors, joined, stand for the steps of both; if the join is refused, reading all these
/// steps in order is refused too. The own table is what reading the steps alone gives. The deleted keys of a
/// mark are those that its steps delete, or none after a clean. This is a law: it computes nothing.
pub fn marks_stand_for_steps()
    ensures one { (q : LogQueue) (id : ℕ) (s : Step) → IsStep s →
        Stands q id (mark_of s) (own_of id s) (s ∷ []) }
    ensures joins { (q : LogQueue) (id : ℕ) (m n : Mark) (t u w : Option Table) (ss rs : List Step)
        → AreSteps ss → AreSteps rs → Stands q id m t ss → Stands q id n u rs
        → table_over_older q id n u t ≡ Some w
        → Stands q id (joined_mark q id m t n) w (ss ++ rs) }
    ensures refused { (q : LogQueue) (id : ℕ) (m n : Mark) (t u : Option Table) (ss rs : List Step)
        → Stands q id m t ss → Stands q id n u rs → table_over_older q id n u t ≡ None
        → after q id None (ss ++ rs) ≡ None }
    ensures alone { (q : LogQueue) (id : ℕ) (m : Mark) (t : Option Table) (ss : List Step) →
        Stands q id m t ss → after q id None ss ≡ Some t }
    ensures deleted { (q : LogQueue) (id : ℕ) (m n : Mark) (t : Option Table) (ss rs : List Step) →
        Stands q id m t ss
        → HoldsDeleted m ss → HoldsDeleted n rs → HoldsDeleted (joined_mark q id m t n) (ss ++ rs) }
    ensures few_deleted { (m : Mark) (ss : List Step) → HoldsDeleted m ss
        → finset.len m.deleted ≤ finset.len (deleted_of finset.empty ss) }
{}

/// States that in the append queue a region mark says what an overlay needs to know of its steps: a mark of
/// one step, and one of two neighbors, joined. So the overlay by the mark is the overlay by the steps, and
/// its entries are one run. This is a law: it computes nothing.
pub fn overlays_by_marks()
    ensures one { (s : Step) → IsExactMark (mark_of s) (s ∷ []) }
    ensures joins { (id : ℕ) (m n : Mark) (t : Option Table) (ss rs : List Step) →
        Stands Append id m t ss → IsExactMark m ss → IsExactMark n rs
        → IsExactMark (joined_mark Append id m t n) (ss ++ rs) }
    ensures overlay { (m : Mark) (ss : List Step) (a r : Table) → IsExactMark m ss
        → overlay_under m a r ≡ overlay ss a r }
    ensures run { (id : ℕ) (m : Mark) (a : Option Table) (ss : List Step) (r : Table) → AreSteps ss
        → Stands Append id m a ss → IsTableOf id r
        → IsRun (overlay_under m (table_of id a) r).entries }
{}

/// States which rewritten entries stay in an overlay if no step truncates or cleans. Of those that aren't
/// compacted, all stay if there is no run; else those below the lowest first index of a run stay, but only if
/// they reach up to it. This is a law: it computes nothing.
pub fn overlays_reach_without_truncations()
    ensures { (id : ℕ) (ss : List Step) (appended : Option Table) (es : List EntryIndex) →
        AreSteps ss
        → AreUntruncated ss → has_clean ss ≡ false → after Append id None ss ≡ Some appended
        → rewritten_within (greatest_compaction ss) (least_cut ss) (table_of id appended).entries es
        ≡ reaching_within (greatest_compaction ss) (least_cut ss) es }
{}
