//! Laws of the records of tables: their entries and key values without places and files.

ghost use Rattle.std.specs.Prelude.{◌≡◌, ℕ, List, [], ◌∷◌, ◌++◌, Some};
ghost use Rattle.std.specs.FinMap as finite;
ghost use Rattle.std.specs.List.{AllByRecursion};
ghost use Rattle.raft_base.specs.declared.entry_index.EntryIndex.{EntryIndex};
ghost use Rattle.raft_base.specs.declared.pipe_log.FileId.{FileId};
ghost use Rattle.raft_records.specs.Item.{Item};
ghost use Rattle.raft_table.specs.Steps.{table_of};
ghost use Rattle.raft_table.specs.Table.{Table};
ghost use Rattle.raft_history.specs.Batches.{Event};
ghost use Rattle.raft_history.specs.RegionSteps.{Tables};
ghost use Rattle.raft_accessor.specs.Writes.{Appending, after_items};
ghost use Rattle.raft_engine_laws.specs.MovedRecords.{AreFound};
ghost use Rattle.raft_engine_laws.specs.Moving.{AreRecordsMoved};
ghost use Rattle.raft_engine_laws.specs.Records.{Records, entries_told, no_base, live, AreToldAlike, HasRecords, HaveRecords};

/// States that if tables have the records of a history and accept one more batch, they then have the records
/// of the history with that batch, whatever records there were at first. Of two sets of tables with the same
/// records, each accepts what the other accepts. This is a law: it computes nothing.
pub fn records_come_from_written_batches()
    ensures none { (content : EntryIndex → List ℕ) → HaveRecords content finite.empty (live content no_base []) }
    ensures more { (content : EntryIndex → List ℕ) (base : ℕ → Records) (tables new : Tables) (h : List Event) (e : Event)
        → HaveRecords content tables (live content base h) → after_items Appending tables e.items ≡ Some new
        → HaveRecords content new (live content base (h ++ e ∷ [])) }
    ensures alike { (content : EntryIndex → List ℕ) (tables others new : Tables) (records : ℕ → Records)
        (items : List Item) → HaveRecords content tables records → HaveRecords content others records
        → after_items Appending tables items ≡ Some new
        → (later : Tables) × (after_items Appending others items ≡ Some later) }
{}

/// States that tables that were found have the records of the kept ones, and that a move changes no record,
/// only its place. This is a law: it computes nothing.
pub fn records_stay_when_places_change()
    ensures found { (content : EntryIndex → List ℕ) (kept found : Tables) (records : ℕ → Records)
        → AreFound content kept found → HaveRecords content kept records → HaveRecords content found records }
    ensures moved { (content : EntryIndex → List ℕ) (file : FileId) (t moved rewritten put : Table) (rs : Records)
        → AreRecordsMoved content file t moved rewritten put → HasRecords content t rs
        → HasRecords content moved rs }
{}

/// States when two functions that say the bytes of entries are equally good: if tables have the records of a
/// history by one of them, and both say the same of all entries in the tables and in the batches of the
/// history, they have them by the other. This is a law: it computes nothing.
pub fn agreeing_contents_give_the_same_records()
    ensures { (told content : EntryIndex → List ℕ) (base : ℕ → Records) (tables : Tables) (h : List Event)
        → AllByRecursion (λ (e : Event). AllByRecursion (λ (item : Item). AreToldAlike told content item.content) e.items) h
        → ((r : ℕ) → entries_told told (table_of r (finite.get tables r)).entries ≡ entries_told content (table_of r (finite.get tables r)).entries)
        → HaveRecords content tables (live content base h) → HaveRecords told tables (live told base h) }
{}
