//! Laws on items that are written, read again or rewritten: as steps of a history they do to tables what the
//! items do, and a rewriting changes places alone. Each law is a function with an empty body.

ghost use Rattle.std.specs.Prelude.{◌≡◌, List};
ghost use Rattle.raft_contexts.specs.Common.{Append, Item, Tables, steps_of_items, cleaned_by_steps, Replaying, listed_by_items, AppendedItemsFollow, AreMovedTables, AreRuns, ReadItemsLeaveRuns, ReadingLeavesRuns, RewritingMovesPlaces};
ghost use Rattle.raft_contexts.specs.Common.{AppendedItemsAreListed, AppendedItemsAreRead, ItemsAreRead};
ghost use Rattle.std.specs.FinMap as finite;

/// States that items that are read again leave the tables that their steps leave in a history, and list the
/// regions that these steps clean. This is a law: it computes nothing.
#[tactic(auto, using(crate::proofs::ReadingLemmas::items_read, crate::proofs::ReadingLemmas::items_listed))]
pub fn items_are_read_as_steps()
    ensures tables { ItemsAreRead }
    ensures cleaned { (items : List Item)
        → listed_by_items (Replaying Append) items
        ≡ cleaned_by_steps Append (steps_of_items items) }
{}

/// States that new items that the append queue accepts leave the tables that their steps leave in a history,
/// and list the regions that these steps clean. So what was written is what is read. This is a law: it
/// computes nothing.
pub fn appended_items_are_read_as_steps()
    ensures tables { AppendedItemsAreRead }
    ensures cleaned { AppendedItemsAreListed }
{}

/// States that rewritings change places alone. An engine keeps tables in which some places were rewritten.
/// Their indexes, keys and values are those of the tables that reading the append queue gives, and each place
/// or file that differs is in the rewrite queue. That stays so when items are appended to the kept tables and
/// read again into the others, and when items are rewritten, whatever they are and whatever the gate. The
/// entries of tables that are read are runs. This is a law: it computes nothing.
pub fn rewriting_changes_places_alone()
    ensures appended { AppendedItemsFollow }
    ensures rewritten { RewritingMovesPlaces }
    ensures same { (tables : Tables) → AreMovedTables tables tables }
    ensures runs { ReadItemsLeaveRuns }
    ensures no_tables { AreRuns finite.empty }
    ensures read { ReadingLeavesRuns }
{}
