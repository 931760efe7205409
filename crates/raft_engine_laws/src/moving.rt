//! Laws of records that move to the rewrite queue, or from one of its files to another. *Kept* tables
//! (`AreKept`) are those of an engine, beside the batches of its files and the steps that the rewrite queue
//! hasn't been told (*untold* ones).

ghost use Rattle.std.specs.Prelude.{◌≡◌, ℕ, ◌≤◌, List, [], ◌∷◌, ◌++◌, Some, None};
ghost use Rattle.std.specs.FinMap as finite;
ghost use Rattle.raft_base.specs.declared.entry_index.EntryIndex.{EntryIndex};
ghost use Rattle.raft_base.specs.declared.pipe_log.LogQueue.TheVariants.{Rewrite};
ghost use Rattle.raft_records.specs.Item.{Item};
ghost use Rattle.raft_table.specs.KeyValues.{Stored};
ghost use Rattle.raft_table.specs.Steps.{table_of};
ghost use Rattle.raft_table.specs.Table.{Table};
ghost use Rattle.raft_table.specs.TableEntries.{AreTableEntries};
ghost use Rattle.raft_history.specs.Batches.{Event};
ghost use Rattle.raft_history.specs.Histories.{IsOneReading};
ghost use Rattle.raft_history.specs.RegionSteps.{Tables};
ghost use Rattle.raft_accessor.specs.Writes.{Rewriting, after_items};
ghost use Rattle.raft_engine_laws.specs.Groups.{HasNoMarker};
ghost use Rattle.raft_engine_laws.specs.KeptTables.{AreKept};
ghost use Rattle.raft_engine_laws.specs.Moving.{AreRecordsMoved, IsMovingBatch, MoveAgain};
ghost use Rattle.raft_engine_laws.specs.NextBatches.{IsRewrittenNext};

/// States that tables are still kept once records have moved, if no step was untold: with one batch, or with
/// the last one of a whole group, if reading the rewrite files then gives these records at their new places.
/// This is a law: it computes nothing.
pub fn moved_records_are_kept()
    ensures { (content : EntryIndex → List ℕ) (append rewrite : List Event)
        (tables new rewritten put : Tables) (e : Event) → AreKept content append rewrite [] tables
        → IsRewrittenNext rewrite e → IsOneReading Rewrite rewrite rewritten []
        → IsOneReading Rewrite (rewrite ++ e ∷ []) put []
        → ((r : ℕ) → AreRecordsMoved content e.file (table_of r (finite.get tables r)) (table_of r (finite.get new r))
        (table_of r (finite.get rewritten r)) (table_of r (finite.get put r)))
        → AreKept content append (rewrite ++ e ∷ []) [] new }
{}

/// States that a batch without a group marker may move records of one region, once no step is untold: copies
/// of the first of its entries in append files, which the gate lets pass, and of key values, as they were
/// read. The tables are then those that rewriting the batch's items leaves. This is a law: it computes
/// nothing.
pub fn moving_items_move_records()
    ensures { (content : EntryIndex → List ℕ) (append rewrite : List Event) (tables new : Tables)
        (e : Event) → AreKept content append rewrite [] tables → IsRewrittenNext rewrite e → HasNoMarker e
        → (gate id : ℕ) (t : Table) → finite.get tables id ≡ Some t → IsMovingBatch content gate id t e
        → after_items (Rewriting (Some gate) e.file.seq) tables e.items ≡ Some new
        → AreKept content append (rewrite ++ e ∷ []) [] new }
{}

/// States that tables accept items that move records of theirs within the rewrite queue, in any order, if the
/// entries of each table are sound, and none of their rewritten key values is in a file above the one that
/// these move to. This is a law: it computes nothing.
pub fn tables_accept_items_that_move_records()
    ensures { (content : EntryIndex → List ℕ) (seq : ℕ) (tables : Tables) (items : List Item)
        → ((r : ℕ) → AreTableEntries (table_of r (finite.get tables r)).entries)
        → ((r : ℕ) (key : List ℕ) (s : Stored) → finite.get (table_of r (finite.get tables r)).keys key ≡ Some s
        → s.file.queue ≡ Rewrite → s.file.seq ≤ seq)
        → MoveAgain content tables record { queue = Rewrite; seq = seq } items
        → (new : Tables) × (after_items (Rewriting None seq) tables items ≡ Some new) }
{}
