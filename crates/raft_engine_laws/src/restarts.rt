//! Laws of a restart. *Kept* tables (`AreKept`) are those of an engine, beside the batches of its files and
//! the steps that the rewrite queue hasn't been told (*untold* ones).

ghost use Rattle.std.specs.Prelude.{ℕ, List, [], ◌∷◌, ◌++◌, flat_map};
ghost use Rattle.std.specs.FinMap as finite;
ghost use Rattle.raft_base.specs.declared.entry_index.EntryIndex.{EntryIndex};
ghost use Rattle.raft_base.specs.declared.pipe_log.LogQueue.TheVariants.{Append, Rewrite};
ghost use Rattle.raft_table.specs.Steps.{table_of};
ghost use Rattle.raft_table.specs.TableEntries.{AreTableEntries};
ghost use Rattle.raft_history.specs.Batches.{Event, batches};
ghost use Rattle.raft_history.specs.BothQueues.{IsReadingOfBoth};
ghost use Rattle.raft_history.specs.Effects.{steps_of};
ghost use Rattle.raft_history.specs.Histories.{IsSoundIn};
ghost use Rattle.raft_history.specs.RegionSteps.{RegionStep, Tables, steps_on, steps_of_items};
ghost use Rattle.raft_engine_laws.specs.Groups.{HasNoMarker};
ghost use Rattle.raft_engine_laws.specs.KeptTables.{AreKept};
ghost use Rattle.raft_engine_laws.specs.NextBatches.{IsRewrittenNext};
ghost use Rattle.raft_engine_laws.specs.Telling.{AreRemovals, SayEnoughAtOpening};

/// States that the tables that a recovery finds in files which keep an engine's tables are kept by the same
/// files. The steps in the append files are untold then. This is a law: it computes nothing.
pub fn found_tables_are_kept()
    ensures { (content : EntryIndex → List ℕ) (append rewrite : List Event)
        (untold : List RegionStep) (tables found : Tables) (cleaned : List ℕ)
        → AreKept content append rewrite untold tables → IsReadingOfBoth rewrite append found cleaned
        → AreKept content append rewrite (flat_map (λ (e : Event). steps_of_items e.items) append) found }
{}

/// States that the tables that a recovery finds in any sound files, whoever wrote them, are kept once the
/// rewrite queue is told what the append files take away and, by a compaction, what lies before the entries
/// that were found. This is a law: it computes nothing.
pub fn opened_tables_are_kept()
    ensures { (content : EntryIndex → List ℕ) (append rewrite : List Event) (found : Tables)
        (cleaned : List ℕ) (e : Event) → IsSoundIn Append append → IsSoundIn Rewrite rewrite
        → (both : IsReadingOfBoth rewrite append found cleaned)
        → ((r : ℕ) → AreTableEntries (table_of r (finite.get found r)).entries)
        → IsRewrittenNext rewrite e → HasNoMarker e
        → ((r : ℕ) → AreRemovals (steps_on r (steps_of_items e.items)))
        → ((r : ℕ) → SayEnoughAtOpening (steps_of r (batches append)) (steps_on r (steps_of_items e.items)) (table_of r (finite.get both.rewritten r)) (table_of r (finite.get found r)))
        → AreKept content append (rewrite ++ e ∷ []) [] found }
{}
