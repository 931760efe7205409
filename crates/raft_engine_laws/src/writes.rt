//! A law on a batch that is written. *Kept* tables (`AreKept`) are those of an engine, beside the batches of
//! its files and the steps that the rewrite queue hasn't been told (*untold* ones).

ghost use Rattle.std.specs.Prelude.{ℕ, List, [], ◌∷◌, ◌++◌};
ghost use Rattle.raft_base.specs.declared.entry_index.EntryIndex.{EntryIndex};
ghost use Rattle.raft_history.specs.Batches.{Event};
ghost use Rattle.raft_history.specs.RegionSteps.{RegionStep, Tables, steps_of_items};
ghost use Rattle.raft_engine_laws.specs.KeptTables.{AreKept};
ghost use Rattle.raft_engine_laws.specs.NextBatches.{IsWrittenNext};

/// States that once a batch is written to the append queue and to the tables, these tables are kept, and the
/// steps of the batch are untold. This is a law: it computes nothing.
pub fn written_batches_are_kept()
    ensures { (content : EntryIndex → List ℕ) (append rewrite : List Event)
        (untold : List RegionStep) (tables new : Tables) (e : Event)
        → AreKept content append rewrite untold tables → IsWrittenNext append tables e new
        → AreKept content (append ++ e ∷ []) rewrite (untold ++ steps_of_items e.items) new }
{}
