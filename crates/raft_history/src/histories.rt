//! Laws of histories: what one reading of them, or of both queues, gives.
#![tactic(auto, using(crate::proofs::Laws::history_laws))]

ghost use Rattle.std.specs.Prelude.{◌≡◌, ℕ, List, ◌++◌, Some, None, flat_map};
ghost use Rattle.raft_history.specs.Common.{FileId, LogQueue, Append, Rewrite, Item, AreDecodedIn, entry_at, last_entry, last_pair, after, table_of, RegionStep, Tables, steps_on, steps_of_items, tables_after, Event, IsReadingOfBoth};
ghost use Rattle.raft_history.specs.Common.{PlacedItemsAreInFile, ReadingGoesOn, SoundHistoryGoesOn, AreLeastFiles, HasNoneBelow, AreRewrittenFrom, HaveSameRecords, IsSmall, Sound, IsSoundIn, Apart, AreInFile, IsOfQueue, IsOneReading};
ghost use Rattle.std.specs.FinMap as finite;

/// States that if two histories, one after the other, are small, sound, apart or of one queue, then so is
/// each of them. This is a law: it computes nothing.
pub fn neighbors_keep_what_histories_are()
    ensures small { (h k : List Event) → IsSmall (h ++ k) → IsSmall h × IsSmall k }
    ensures sound { (h k : List Event) → Sound (h ++ k) → Sound h × Sound k }
    ensures apart { (h k : List Event) → Apart (h ++ k) → Apart h × Apart k }
    ensures of_queue { (queue : LogQueue) (h k : List Event) → IsOfQueue queue (h ++ k)
        → IsOfQueue queue h × IsOfQueue queue k }
{}

/// States that the effects of a sound history of the append queue, which ignores group markers, are apart.
/// This is a law: it computes nothing.
pub fn histories_of_the_append_queue_are_apart()
    ensures { (h : List Event) → IsSoundIn Append h → Apart h }
{}

/// States that steps on the tables of all regions give each region the table that its own steps give, in
/// order. If they are refused, the steps of some region alone are refused. This is a law: it computes
/// nothing.
pub fn regions_are_read_one_by_one()
    ensures by_region { (queue : LogQueue) (before after_all : Tables) (steps : List RegionStep)
        → tables_after queue before steps ≡ Some after_all → (r : ℕ)
        → after queue r (finite.get before r) (steps_on r steps) ≡ Some (finite.get after_all r) }
    ensures refused { (queue : LogQueue) (before : Tables) (steps : List RegionStep)
        → tables_after queue before steps ≡ None
        → (r : ℕ) × (after queue r (finite.get before r) (steps_on r steps) ≡ None) }
{}

/// States that in one reading of a sound history of the append queue the last step decides. The entry at an
/// index of a region is that of the last step that concerns the index; the value of a key and its file are
/// those of the last step that concerns the key. The steps on a region are those of its items, in order. This
/// is a law: it computes nothing.
pub fn last_words_stand()
    ensures entries { (h : List Event) (tables : Tables) (cleaned : List ℕ) → IsSoundIn Append h
        → IsOneReading Append h tables cleaned
        → (r i : ℕ)
        → entry_at i (table_of r (finite.get tables r)).entries
        ≡ last_entry i (flat_map (λ e. steps_on r (steps_of_items e.items)) h) }
    ensures keys { (h : List Event) (tables : Tables) (cleaned : List ℕ) → IsSoundIn Append h
        → IsOneReading Append h tables cleaned
        → (r : ℕ) (key : List ℕ)
        → finite.get (table_of r (finite.get tables r)).keys key
        ≡ last_pair key (flat_map (λ e. steps_on r (steps_of_items e.items)) h) }
{}

/// States that, in one reading of a sound history whose effects are apart, no record of a region is in a file
/// below the least file of its queue. The least files of a table are those of all its records, lowered only
/// in the rewrite queue, by its atomic group. This is a law: it computes nothing.
pub fn no_record_is_below_the_least_file()
    ensures equal { (queue : LogQueue) (h : List Event) (tables : Tables) (cleaned : List ℕ)
        → IsSoundIn queue h → Apart h → IsOneReading queue h tables cleaned → (r : ℕ)
        → AreLeastFiles (table_of r (finite.get tables r)) }
    ensures lowest { (queue : LogQueue) (h : List Event) (tables : Tables) (cleaned : List ℕ)
        → IsSoundIn queue h → Apart h → IsOneReading queue h tables cleaned → (r : ℕ) (q : LogQueue)
        → HasNoneBelow q (table_of r (finite.get tables r)) }
{}

/// States that, in a reading of both queues, no record of a region is in a file below the least file of its
/// queue, if both histories are sound and the effects of the rewrite queue's are apart. It is what
/// [`no_record_is_below_the_least_file`] says of one queue. This is a law: it computes nothing.
pub fn no_record_of_both_queues_is_below_the_least_file()
    ensures equal { (rewrite append : List Event) (tables : Tables) (cleaned : List ℕ)
        → IsSoundIn Rewrite rewrite → Apart rewrite → IsSoundIn Append append
        → IsReadingOfBoth rewrite append tables cleaned → (r : ℕ)
        → AreLeastFiles (table_of r (finite.get tables r)) }
    ensures lowest { (rewrite append : List Event) (tables : Tables) (cleaned : List ℕ)
        → IsSoundIn Rewrite rewrite → Apart rewrite → IsSoundIn Append append
        → IsReadingOfBoth rewrite append tables cleaned → (r : ℕ) (q : LogQueue)
        → HasNoneBelow q (table_of r (finite.get tables r)) }
{}

/// States that both queues together give what the append queue gives alone, if the append queue has all its
/// batches, and each record of the rewrite queue is one that the append queue had at some time: the same
/// entries and key values, with places and files, and the same cleaned regions. Nothing is said of atomic
/// groups: a region that the append queue didn't clean has that of the rewrite queue. This is a law: it
/// computes nothing.
pub fn rewritten_records_add_nothing()
    ensures records { (rewrite append : List Event) (tables appended : Tables)
        (cleaned own_cleaned : List ℕ) → IsSoundIn Append append → AreRewrittenFrom append rewrite
        → IsReadingOfBoth rewrite append tables cleaned
        → IsOneReading Append append appended own_cleaned → HaveSameRecords tables appended }
    ensures cleaned { (rewrite append : List Event) (tables appended : Tables)
        (cleaned own_cleaned : List ℕ) → IsReadingOfBoth rewrite append tables cleaned
        → IsOneReading Append append appended own_cleaned → cleaned ≡ own_cleaned }
{}

/// States that the items that `next_batch` returns are allowed in a batch of their file, as histories
/// require. So nobody needs to test them. This is a law: it computes nothing.
pub fn read_items_are_in_their_file()
    ensures { (file : FileId) (items : List Item) → AreDecodedIn file items → AreInFile file items }
{}

/// States that the items of a batch are allowed in a file, as histories require, once `finish_write` has
/// placed them there. This is a law: it computes nothing.
pub fn placed_items_are_in_their_file()
    ensures { PlacedItemsAreInFile }
{}

/// States how one reading of a sound history of the append queue goes on with one more batch. If the batch's
/// file isn't below the last one, its items are allowed in that file, and its steps aren't refused, then the
/// longer history is sound, and the tables after these steps are those of one reading of it. This is a law:
/// it computes nothing.
pub fn readings_go_on()
    ensures sound { SoundHistoryGoesOn }
    ensures reading { ReadingGoesOn }
{}

/// States that any two readings of one history give the same tables and cleaned regions. This is a law: it
/// computes nothing.
pub fn readings_agree()
    ensures tables { (queue : LogQueue) (h : List Event) (m n : Tables) (a b : List ℕ)
        → IsOneReading queue h m a → IsOneReading queue h n b → m ≡ n }
    ensures cleaned { (queue : LogQueue) (h : List Event) (m n : Tables) (a b : List ℕ)
        → IsOneReading queue h m a → IsOneReading queue h n b → a ≡ b }
{}
