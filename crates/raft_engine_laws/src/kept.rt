//! Laws of *kept* tables (`AreKept`): those of an engine, beside the batches of its append and rewrite files,
//! and the steps that the rewrite queue hasn't been told (*untold* ones).

ghost use Rattle.std.specs.Prelude.{ℕ, List, []};
ghost use Rattle.std.specs.FinMap as finite;
ghost use Rattle.raft_base.specs.declared.entry_index.EntryIndex.{EntryIndex};
ghost use Rattle.raft_base.specs.declared.pipe_log.LogQueue.TheVariants.{Append, Rewrite};
ghost use Rattle.raft_history.specs.Batches.{Event};
ghost use Rattle.raft_history.specs.BothQueues.{IsReadingOfBoth};
ghost use Rattle.raft_history.specs.RegionSteps.{RegionStep, Tables};
ghost use Rattle.raft_table.specs.Steps.{table_of};
ghost use Rattle.raft_engine_laws.specs.DeletedFiles.{AreLeastFrom, NeedsNoneBelow};
ghost use Rattle.raft_engine_laws.specs.KeptTables.{AreKept};
ghost use Rattle.raft_engine_laws.specs.MovedRecords.{AreFound};

/// States that empty tables are kept where there are no batches. This is a law: it computes nothing.
pub fn empty_tables_are_kept_without_batches()
    ensures { (content : EntryIndex → List ℕ) → AreKept content [] [] [] finite.empty }
{}

/// States that recovery of both queues finds the records of kept tables, whatever else the files hold. Only
/// places and files of records may differ, if they moved to the rewrite queue. This is a law: it computes
/// nothing.
pub fn kept_tables_are_found()
    ensures { (content : EntryIndex → List ℕ) (append rewrite : List Event)
        (untold : List RegionStep) (tables found : Tables) (cleaned : List ℕ)
        → AreKept content append rewrite untold tables
        → IsReadingOfBoth rewrite append found cleaned → AreFound content tables found }
{}

/// States which files of a queue kept tables don't need: no record of a table is in a file below a number if
/// the least file of each table is at that number or above. For the rewrite queue no step may be untold. This
/// is a law: it computes nothing.
pub fn kept_tables_need_no_files_below_their_least()
    ensures append { (content : EntryIndex → List ℕ) (append rewrite : List Event)
        (untold : List RegionStep) (tables : Tables) → AreKept content append rewrite untold tables
        → (n : ℕ) → AreLeastFrom Append n tables
        → (r : ℕ) → NeedsNoneBelow Append n (table_of r (finite.get tables r)) }
    ensures rewrite { (content : EntryIndex → List ℕ) (append rewrite : List Event)
        (tables : Tables) → AreKept content append rewrite [] tables
        → (n : ℕ) → AreLeastFrom Rewrite n tables
        → (r : ℕ) → NeedsNoneBelow Rewrite n (table_of r (finite.get tables r)) }
{}
