//! Laws of what the rewrite queue has to be told when an engine opens files: what the append files take away
//! from the rewritten tables.

ghost use Rattle.std.specs.Prelude.{◌≡◌, ◌↔◌, None, true, ◌+◌, ◌<◌, ℕ, List, [], ◌∷◌, ◌++◌};
ghost use Rattle.std.specs.FinMap as finite;
ghost use Rattle.raft_base.specs.declared.pipe_log.LogQueue.TheVariants.{Append, Rewrite};
ghost use Rattle.raft_history.specs.Batches.{Event, batches};
ghost use Rattle.raft_history.specs.BothQueues.{IsReadingOfBoth};
ghost use Rattle.raft_base.specs.declared.entry_index.EntryIndex.{EntryIndex};
ghost use Rattle.raft_records.specs.Item.{Item};
ghost use Rattle.raft_contexts.specs.RecoverContext.{HasRead, RecoverContext};
ghost use Rattle.raft_history.specs.Contexts.{Suits};
ghost use Rattle.raft_history.specs.MarkedRegions.{region_in};
ghost use Rattle.raft_history.specs.Effects.{steps_of};
ghost use Rattle.raft_history.specs.Histories.{IsSoundIn};
ghost use Rattle.raft_history.specs.RegionSteps.{RegionStep, Tables, steps_on, steps_of_items};
ghost use Rattle.raft_table.specs.TableEntries.{AreTableEntries};
ghost use Rattle.raft_engine_laws.specs.Groups.{HasNoMarker};
ghost use Rattle.raft_engine_laws.specs.NextBatches.{IsRewrittenNext};
ghost use Rattle.raft_table.specs.Marks.{Mark};
ghost use Rattle.raft_table.specs.Overlay.{IsExactMark, overlay};
ghost use Rattle.raft_table.specs.Steps.{Step, Run, Compact, Truncate, table_of};
ghost use Rattle.raft_table.specs.Table.{Table};
ghost use Rattle.raft_engine_laws.specs.KeptTables.{AreKept};
ghost use Rattle.raft_contexts.specs.TakenAway.{told_by_mark};
ghost use Rattle.raft_engine_laws.specs.MarksTold.{IsToldByMark, Joins, MayBeToldLater, told_at_once};
ghost use Rattle.raft_engine_laws.specs.GroupsInRows.{AreGroupsInRows};
ghost use Rattle.raft_engine_laws.specs.RowSummaries.{Summary, FirstMayStand, IsSummaryOf, AreJoined};
ghost use Rattle.raft_engine_laws.specs.TakenTold.{AreFoundTables, DoesTakenTakeAway, IsTakenToldByMarks, IsTakenToldNowOrLater};
ghost use Rattle.raft_engine_laws.specs.Telling.{AreAllSteps, AreRemovals, SayEnoughAtOpening};

/// States that once the rewrite queue was told what an opening has to tell, the next opening of the same
/// append files has nothing to tell. This is a law: it computes nothing.
pub fn a_second_opening_needs_to_tell_nothing()
    ensures { (append rewrite : List Event) (found : Tables) (cleaned : List ℕ) (e : Event)
        → IsSoundIn Append append → IsSoundIn Rewrite rewrite
        → (both : IsReadingOfBoth rewrite append found cleaned)
        → ((r : ℕ) → AreTableEntries (table_of r (finite.get found r)).entries)
        → IsRewrittenNext rewrite e → HasNoMarker e
        → ((r : ℕ) → AreRemovals (steps_on r (steps_of_items e.items)))
        → ((r : ℕ) → SayEnoughAtOpening (steps_of r (batches append)) (steps_on r (steps_of_items e.items)) (table_of r (finite.get both.rewritten r)) (table_of r (finite.get found r)))
        → (others : Tables) (again : List ℕ) (too : IsReadingOfBoth (rewrite ++ e ∷ []) append others again)
        → (r : ℕ) → SayEnoughAtOpening (steps_of r (batches append)) [] (table_of r (finite.get too.rewritten r)) (table_of r (finite.get others r)) }
{}

/// States that it is enough to tell, at an opening, what a region mark takes away from the rewritten table.
/// It may be told later if the steps leave no rewritten entry before what was found. Nothing is told if
/// nothing needs to be, and what is told only takes away. This is a law: it computes nothing.
pub fn region_marks_tell_enough()
    ensures at_once { (m : Mark) (kept : List Step) (rewritten found : Table) → IsExactMark m kept
        → SayEnoughAtOpening kept (told_at_once m rewritten found) rewritten found }
    ensures nothing { (m : Mark) (kept : List Step) (rewritten found : Table) → IsExactMark m kept
        → SayEnoughAtOpening kept [] rewritten found → told_at_once m rewritten found ≡ [] }
    ensures later { (m : Mark) (kept : List Step) (rewritten found : Table) → IsExactMark m kept
        → Joins kept rewritten found → MayBeToldLater kept (told_by_mark m rewritten) rewritten found }
    ensures removals { (m : Mark) (rewritten : Table) → AreRemovals (told_by_mark m rewritten) }
{}

/// States that each region mark of a context that has read the append queue is exact: it says what the steps
/// on its region take away. This is a law: it computes nothing.
pub fn contexts_hold_exact_marks()
    ensures { (context : RecoverContext) (h : List Event) → HasRead context h → Suits Append context.context.files → (r : ℕ)
        → IsExactMark (region_in context.context.regions r).mark (steps_of r (batches h)) }
{}

/// States why a compaction of rewritten entries that lie before the found ones, and are dropped with them,
/// has to be told at once. As long as it isn't, a truncation that is written to the append queue brings these
/// entries back. The contract has an example of two entries. This is a law: it computes nothing.
pub fn dropped_entries_come_back_until_told()
    ensures { (old new : EntryIndex) (t : Table) → t.entries ≡ old ∷ [] → old.index + 1 < new.index
        → (own none : Table) → own.entries ≡ new ∷ [] → none.entries ≡ []
        → ((overlay (Run (new ∷ []) ∷ []) own t).entries ≡ new ∷ [])
        × ((overlay (Run (new ∷ []) ∷ Truncate new.index ∷ []) none t).entries ≡ old ∷ []) }
{}

/// States that the joined summaries of two neighboring histories are the summary of both, and that a summary
/// tells whether each atomic group is in a row, that is in batches that follow one another in one file. This
/// is a law: it computes nothing.
pub fn joined_summaries_are_summaries_of_both()
    ensures joined { (s t both : Summary) → AreJoined s t both → (h g : List Event) → IsSummaryOf s h → IsSummaryOf t g → IsSummaryOf both (h ++ g) }
    ensures whole { (s : Summary) (h : List Event) → IsSummaryOf s h → (FirstMayStand s.first None × (s.inner ≡ true)) ↔ AreGroupsInRows h }
{}

/// States that nothing was dropped before what is found in files that keep an engine's tables, so everything
/// may be told later. And if nothing was dropped, whoever wrote the files, nothing is told at once. This is a
/// law: it computes nothing.
pub fn own_files_may_be_told_later()
    ensures joins { (content : EntryIndex → List ℕ) (append rewrite : List Event) (untold : List RegionStep) (tables found : Tables) (cleaned : List ℕ)
        → AreKept content append rewrite untold tables
        → (both : IsReadingOfBoth rewrite append found cleaned) → (r : ℕ)
        → Joins (steps_of r (batches append)) (table_of r (finite.get both.rewritten r)) (table_of r (finite.get found r)) }
    ensures at_once { (append rewrite : List Event) (found : Tables) (cleaned : List ℕ)
        → IsSoundIn Append append → IsSoundIn Rewrite rewrite
        → (both : IsReadingOfBoth rewrite append found cleaned)
        → ((r : ℕ) → Joins (steps_of r (batches append)) (table_of r (finite.get both.rewritten r)) (table_of r (finite.get found r)))
        → (items : List Item) → AreAllSteps items → (untold : ℕ → List Step)
        → ((r : ℕ) → IsToldByMark (steps_of r (batches append)) (steps_on r (steps_of_items items)) (untold r) (table_of r (finite.get both.appended r)) (table_of r (finite.get both.rewritten r)))
        → items ≡ [] }
{}

/// States that what a context of the append queue takes away from the tables of one of the rewrite queue
/// (`TakenAway`) is told, region by region, as its marks say: at once, or so that it may be told later. It
/// only takes away, and the entries that both queues give are those of tables. This is a law: it computes
/// nothing.
pub fn taken_away_is_told()
    ensures tells { IsTakenToldByMarks }
    ensures says { IsTakenToldNowOrLater }
    ensures away { DoesTakenTakeAway }
    ensures entries { AreFoundTables }
{}
