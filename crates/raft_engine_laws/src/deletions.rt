//! A law on files that are deleted, the oldest first. *Kept* tables (`AreKept`) are those of an engine,
//! beside the batches of its files and the steps that the rewrite queue hasn't been told.

ghost use Rattle.std.specs.Prelude.{ℕ, List, [], ◌++◌};
ghost use Rattle.raft_base.specs.declared.entry_index.EntryIndex.{EntryIndex};
ghost use Rattle.raft_base.specs.declared.pipe_log.LogQueue.TheVariants.{Append, Rewrite};
ghost use Rattle.raft_history.specs.Batches.{Event};
ghost use Rattle.raft_history.specs.RegionSteps.{Tables};
ghost use Rattle.raft_engine_laws.specs.DeletedFiles.{AreFilesBelow, AreLeastFrom};
ghost use Rattle.raft_engine_laws.specs.Groups.{EndNoOlderGroup};
ghost use Rattle.raft_engine_laws.specs.KeptTables.{AreKept};

/// States that tables are still kept without the files of a queue below a number, once no step is untold and
/// the least file of each table in the queue is at that number or above. In the rewrite queue the files that
/// stay must end no group that began in those that go. This is a law: it computes nothing.
pub fn files_below_the_least_may_be_deleted()
    ensures append { (content : EntryIndex → List ℕ) (n : ℕ) (gone append rewrite : List Event)
        (tables : Tables) → AreKept content (gone ++ append) rewrite [] tables → AreFilesBelow n gone
        → AreLeastFrom Append n tables → AreKept content append rewrite [] tables }
    ensures rewrite { (content : EntryIndex → List ℕ) (n : ℕ) (append gone rewrite : List Event)
        (tables : Tables) → AreKept content append (gone ++ rewrite) [] tables → AreFilesBelow n gone
        → AreLeastFrom Rewrite n tables
        → EndNoOlderGroup rewrite
        → AreKept content append rewrite [] tables }
{}
