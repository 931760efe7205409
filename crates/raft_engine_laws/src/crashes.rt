//! Laws of an engine that may crash at any moment: what a restart finds then, and what may be done to the two
//! queues.
//!
//! A *deed* (`Deed`) is what was done to a queue: a batch was written, all was synced, files were deleted, or
//! the machine crashed. The deeds of both queues are *safe* (`IsSafe`) if the engine's tables have the
//! records that all written batches make, and whatever a crash leaves of the files is read as the records of
//! those batches of the append queue that it left. A step of the append queue is *untold* until a batch of
//! the rewrite queue takes away what the step takes away; *telling* is to write such a batch.

ghost use Rattle.std.specs.Prelude.{◌≡◌, ℕ, List, [], ◌∷◌, ◌++◌, Some, None, flat_map};
ghost use Rattle.std.specs.FinMap as finite;
ghost use Rattle.raft_base.specs.declared.entry_index.EntryIndex.{EntryIndex};
ghost use Rattle.raft_base.specs.declared.pipe_log.LogQueue.TheVariants.{Append, Rewrite};
ghost use Rattle.raft_table.specs.Steps.{table_of};
ghost use Rattle.raft_table.specs.Table.{Table};
ghost use Rattle.raft_table.specs.TableEntries.{AreTableEntries};
ghost use Rattle.raft_history.specs.Batches.{Event, batches};
ghost use Rattle.raft_history.specs.BothQueues.{IsReadingOfBoth};
ghost use Rattle.raft_history.specs.Effects.{steps_of};
ghost use Rattle.raft_history.specs.Histories.{Apart, IsOneReading, IsSoundIn};
ghost use Rattle.raft_history.specs.RegionSteps.{RegionStep, Tables, steps_on, steps_of_items};
ghost use Rattle.raft_accessor.specs.Writes.{Appending, Rewriting, after_items};
ghost use Rattle.raft_engine_laws.specs.DeletedFiles.{AreLeastFrom};
ghost use Rattle.raft_engine_laws.specs.Groups.{EndNoOlderGroup, HasNoMarker, LeavesOpen, IsWholeGroup};
ghost use Rattle.raft_engine_laws.specs.MarksTold.{IsToldNowOrLater};
ghost use Rattle.raft_engine_laws.specs.Moving.{AreRecordsMoved, IsMovingBatch, MoveAgain};
ghost use Rattle.raft_engine_laws.specs.Records.{Records, no_base, live, HaveRecords};
ghost use Rattle.raft_engine_laws.specs.Crashes.{Deed, Write, Sync, Delete, Crash, written, synced, MayStand, MayBeGone, in_files_from, AreInFileOf, FilesEndNoOlderGroup, IsSynced, IsLeft, IsNextIn, LoseNothing, IsSafe};
ghost use Rattle.raft_engine_laws.specs.Telling.{AreRemovals, SayEnough, SayEnoughAtOpening, SayTheSame, taking_steps};

/// States what is found whenever the machine crashes, if the deeds of both queues are safe. Whatever is left
/// of both queues, each by itself, can be read. The reading of both has the records that there were at first,
/// as changed by those batches of the append queue that the crash left: all that were synced, and a prefix of
/// those written since. So only a written batch changes records, and after a crash it is there whole or not
/// at all. This is a law: it computes nothing.
pub fn nothing_is_lost()
    ensures { (content : EntryIndex → List ℕ) (base : ℕ → Records) (appended rewritten : List Deed) (untold : List RegionStep)
        (tables : Tables) → IsSafe content base appended rewritten untold tables
        → LoseNothing content base appended rewritten }
{}

/// States what a crash may leave of a queue: exactly the prefixes of the written batches that have all synced
/// ones. This is a law: it computes nothing.
pub fn crashes_leave_prefixes_with_all_synced_batches()
    ensures front { (deeds : List Deed) (more lost : List Event) → written deeds ≡ (synced deeds ++ more) ++ lost
        → MayStand deeds (synced deeds ++ more) }
    ensures only { (deeds : List Deed) (h : List Event) → MayStand deeds h
        → (more : List Event) × (lost : List Event) × (h ≡ synced deeds ++ more) × (written deeds ≡ h ++ lost) }
{}

/// States that two queues to which nothing was done are safe. This is a law: it computes nothing.
pub fn empty_queues_are_safe()
    ensures { (content : EntryIndex → List ℕ) → IsSafe content no_base [] [] [] finite.empty }
{}

/// States that a batch that the tables accept may be written to the append queue at any time. Its steps are
/// untold then. Of them only those have to be told that take something away from the tables: no put, and no
/// run that begins after all entries of its region. This is a law: it computes nothing.
pub fn writing_is_safe()
    ensures all { (content : EntryIndex → List ℕ) (base : ℕ → Records) (appended rewritten : List Deed) (untold : List RegionStep)
        (tables new : Tables) (e : Event) → IsSafe content base appended rewritten untold tables
        → IsNextIn Append appended e → after_items Appending tables e.items ≡ Some new
        → IsSafe content base (Write e ∷ appended) rewritten (untold ++ steps_of_items e.items) new }
    ensures taking { (content : EntryIndex → List ℕ) (base : ℕ → Records) (appended rewritten : List Deed) (untold : List RegionStep)
        (tables new : Tables) (e : Event) → IsSafe content base appended rewritten untold tables
        → IsNextIn Append appended e → after_items Appending tables e.items ≡ Some new
        → IsSafe content base (Write e ∷ appended) rewritten (untold ++ taking_steps tables (steps_of_items e.items)) new }
{}

/// States that each queue may be synced at any time. This is a law: it computes nothing.
pub fn syncing_is_safe()
    ensures append { (content : EntryIndex → List ℕ) (base : ℕ → Records) (appended rewritten : List Deed) (untold : List RegionStep)
        (tables : Tables) → IsSafe content base appended rewritten untold tables
        → IsSafe content base (Sync ∷ appended) rewritten untold tables }
    ensures rewrite { (content : EntryIndex → List ℕ) (base : ℕ → Records) (appended rewritten : List Deed) (untold : List RegionStep)
        (tables : Tables) → IsSafe content base appended rewritten untold tables
        → IsSafe content base appended (Sync ∷ rewritten) untold tables }
{}

/// States when the rewrite queue may be told, by a batch, what untold steps take away: all of it or some,
/// once the append queue is synced. Other steps may stand for the untold ones if they say the same. Steps
/// needn't be told that take away nothing of what the rewrite files give, whichever of these files are gone.
/// This is a law: it computes nothing.
pub fn telling_is_safe()
    ensures told { (content : EntryIndex → List ℕ) (base : ℕ → Records) (appended rewritten : List Deed) (untold : List RegionStep)
        (tables : Tables) (e : Event) → IsSafe content base appended rewritten untold tables
        → IsNextIn Rewrite rewritten e → IsSynced appended → HasNoMarker e
        → (others : List RegionStep) → ((r : ℕ) → AreRemovals (steps_on r (steps_of_items e.items)))
        → ((r : ℕ) → SayTheSame (steps_on r (steps_of_items e.items) ++ steps_on r others) (steps_on r untold))
        → IsSafe content base appended (Write e ∷ rewritten) others tables }
    ensures same { (content : EntryIndex → List ℕ) (base : ℕ → Records) (appended rewritten : List Deed) (untold : List RegionStep)
        (tables : Tables) → IsSafe content base appended rewritten untold tables
        → (other : List RegionStep) → ((r : ℕ) → SayTheSame (steps_on r other) (steps_on r untold))
        → IsSafe content base appended rewritten other tables }
    ensures quiet { (content : EntryIndex → List ℕ) (base : ℕ → Records) (appended rewritten : List Deed) (untold : List RegionStep)
        (tables : Tables) → IsSafe content base appended rewritten untold tables → (fewer : List RegionStep)
        → ((n : ℕ) (before : Tables) → MayBeGone rewritten n
        → IsOneReading Rewrite (in_files_from n (written rewritten)) before []
        → (r : ℕ) → SayEnough (steps_on r untold) (steps_on r fewer) (table_of r (finite.get before r)).entries)
        → IsSafe content base appended rewritten fewer tables }
{}

/// States that a batch that begins an atomic group, or goes on with one, may be written to the rewrite queue
/// at any time. This is a law: it computes nothing.
pub fn open_groups_are_safe()
    ensures { (content : EntryIndex → List ℕ) (base : ℕ → Records) (appended rewritten : List Deed) (untold : List RegionStep)
        (tables : Tables) (e : Event) → IsSafe content base appended rewritten untold tables
        → IsNextIn Rewrite rewritten e → LeavesOpen e
        → IsSafe content base appended (Write e ∷ rewritten) untold tables }
{}

/// States when records may move to the rewrite queue: once the append queue is synced and no step is untold.
/// They move with one batch, or with the last batch of a whole group, if their places are right whichever
/// rewrite files may be deleted by then (clause `records`). A batch with copies of one region's records may
/// move them. So may copies of rewritten records of any regions, in one batch, or in a group whose batches
/// follow one another in one file. This is a law: it computes nothing.
pub fn moving_is_safe()
    ensures records { (content : EntryIndex → List ℕ) (base : ℕ → Records) (appended rewritten : List Deed) (tables new : Tables) (e : Event)
        → IsSafe content base appended rewritten [] tables → IsNextIn Rewrite rewritten e → IsSynced appended
        → ((n : ℕ) → MayBeGone rewritten n → Apart (in_files_from n (written rewritten) ++ e ∷ []))
        → ((n : ℕ) (before put : Tables) → MayBeGone rewritten n
        → IsOneReading Rewrite (in_files_from n (written rewritten)) before []
        → IsOneReading Rewrite (in_files_from n (written rewritten) ++ e ∷ []) put []
        → (r : ℕ) → AreRecordsMoved content e.file (table_of r (finite.get tables r)) (table_of r (finite.get new r))
        (table_of r (finite.get before r)) (table_of r (finite.get put r)))
        → IsSafe content base appended (Write e ∷ rewritten) [] new }
    ensures items { (content : EntryIndex → List ℕ) (base : ℕ → Records) (appended rewritten : List Deed) (tables new : Tables) (e : Event)
        → IsSafe content base appended rewritten [] tables → IsNextIn Rewrite rewritten e → IsSynced appended
        → HasNoMarker e → (gate id : ℕ) (t : Table) → finite.get tables id ≡ Some t
        → IsMovingBatch content gate id t e
        → after_items (Rewriting (Some gate) e.file.seq) tables e.items ≡ Some new
        → IsSafe content base appended (Write e ∷ rewritten) [] new }
    ensures again { (content : EntryIndex → List ℕ) (base : ℕ → Records) (appended rewritten : List Deed) (tables new : Tables)
        (e : Event) → IsSafe content base appended rewritten [] tables → IsNextIn Rewrite rewritten e → IsSynced appended
        → HasNoMarker e → MoveAgain content tables e.file e.items
        → after_items (Rewriting None e.file.seq) tables e.items ≡ Some new
        → IsSafe content base appended (Write e ∷ rewritten) [] new }
    ensures group { (content : EntryIndex → List ℕ) (base : ℕ → Records) (appended rewritten : List Deed) (tables new : Tables)
        (e : Event) → IsSafe content base appended rewritten [] tables → IsNextIn Rewrite rewritten e → IsSynced appended
        → (earlier middles : List Event) (g : ℕ) (begin : Event) → written rewritten ≡ earlier ++ begin ∷ middles
        → IsWholeGroup g begin middles e → AreInFileOf e.file.seq (begin ∷ middles)
        → MoveAgain content tables e.file (flat_map (λ (b : Event). b.items) (begin ∷ (middles ++ e ∷ [])))
        → after_items (Rewriting None e.file.seq) tables (flat_map (λ (b : Event). b.items) (begin ∷ (middles ++ e ∷ []))) ≡ Some new
        → IsSafe content base appended (Write e ∷ rewritten) [] new }
{}

/// States when files may be deleted: those of a queue below a number, once no step is untold, both queues are
/// synced, and the least file of each table in the queue is at that number or above. In the rewrite queue the
/// files that stay must end no group that began in those that go. This is a law: it computes nothing.
pub fn deleting_is_safe()
    ensures append { (content : EntryIndex → List ℕ) (base : ℕ → Records) (appended rewritten : List Deed) (tables : Tables) (n : ℕ)
        → IsSafe content base appended rewritten [] tables → IsSynced appended → IsSynced rewritten
        → AreLeastFrom Append n tables → IsSafe content base (Delete n ∷ appended) rewritten [] tables }
    ensures rewrite { (content : EntryIndex → List ℕ) (base : ℕ → Records) (appended rewritten : List Deed) (tables : Tables) (n : ℕ)
        → IsSafe content base appended rewritten [] tables → IsSynced appended → IsSynced rewritten
        → AreLeastFrom Rewrite n tables
        → ((m : ℕ) → MayBeGone (Delete n ∷ rewritten) m → EndNoOlderGroup (in_files_from m (written rewritten)))
        → IsSafe content base appended (Delete n ∷ rewritten) [] tables }
{}

/// States that if each group is in one file, the files that stay end no group that began in the deleted ones,
/// wherever these end. This is a law: it computes nothing.
pub fn groups_in_one_file_let_files_be_deleted()
    ensures none { FilesEndNoOlderGroup [] }
    ensures more { (h k : List Event) (seq : ℕ) → FilesEndNoOlderGroup h → AreInFileOf seq k → EndNoOlderGroup k
        → FilesEndNoOlderGroup (h ++ k) }
{}

/// States that after a crash an engine may go on with the tables that it finds. The steps in the append files
/// that are left are untold then.
///
/// From then on another function may say the bytes of entries (`content`), with other records at first, if
/// the tables that were found have their records by these too. So a batch that was lost says nothing of what
/// is put in its place later. This is a law: it computes nothing.
pub fn restarting_is_safe()
    ensures same { (content : EntryIndex → List ℕ) (base : ℕ → Records) (appended rewritten : List Deed)
        (untold : List RegionStep) (tables found : Tables) → IsSafe content base appended rewritten untold tables
        → (standing append others rewrite : List Event) (left : IsLeft appended standing append)
        (left_too : IsLeft rewritten others rewrite)
        → (cleaned : List ℕ) → IsReadingOfBoth rewrite append found cleaned
        → IsSafe content base (Crash standing left.gone ∷ appended) (Crash others left_too.gone ∷ rewritten)
        (flat_map (λ (e : Event). steps_of_items e.items) append) found }
    ensures other { (content : EntryIndex → List ℕ) (base : ℕ → Records) (appended rewritten : List Deed)
        (untold : List RegionStep) (tables found : Tables) → IsSafe content base appended rewritten untold tables
        → (standing append others rewrite : List Event) (left : IsLeft appended standing append)
        (left_too : IsLeft rewritten others rewrite)
        → (cleaned : List ℕ) → IsReadingOfBoth rewrite append found cleaned
        → (told : EntryIndex → List ℕ) (before : ℕ → Records) → HaveRecords told found (live told before standing)
        → IsSafe told before (Crash standing left.gone ∷ appended) (Crash others left_too.gone ∷ rewritten)
        (flat_map (λ (e : Event). steps_of_items e.items) append) found }
{}

/// States when an engine may go on with the tables that it finds in any sound files, whoever wrote them. The
/// rewrite queue has to be told what the append files take away from the rewritten tables and, by a
/// compaction, what lies before the entries that were found; then it has to be synced. If there is nothing to
/// tell, the engine may go on at once. If the append files leave no rewritten entry before those that were
/// found, in all regions or in some, that may be told later.
///
/// The records that there were at first are then those found ones that no batch of the append files makes. No
/// crash until then loses anything. This is a law: it computes nothing.
pub fn opening_is_safe()
    ensures told { (append rewrite : List Event) (found : Tables) (cleaned : List ℕ) (e : Event)
        → IsSoundIn Append append → IsSoundIn Rewrite rewrite → Apart rewrite
        → (both : IsReadingOfBoth rewrite append found cleaned)
        → ((r : ℕ) → AreTableEntries (table_of r (finite.get found r)).entries)
        → IsNextIn Rewrite (Crash rewrite 0 ∷ []) e → HasNoMarker e
        → ((r : ℕ) → AreRemovals (steps_on r (steps_of_items e.items)))
        → ((r : ℕ) → SayEnoughAtOpening (steps_of r (batches append)) (steps_on r (steps_of_items e.items)) (table_of r (finite.get both.rewritten r)) (table_of r (finite.get found r)))
        → (base : (EntryIndex → List ℕ) → ℕ → Records)
        × ((content : EntryIndex → List ℕ)
        → IsSafe content (base content) (Crash append 0 ∷ []) (Sync ∷ Write e ∷ Crash rewrite 0 ∷ []) [] found)
        × ((content : EntryIndex → List ℕ)
        → LoseNothing content (base content) (Crash append 0 ∷ []) (Write e ∷ Crash rewrite 0 ∷ []))
        × ((content : EntryIndex → List ℕ)
        → LoseNothing content (base content) (Crash append 0 ∷ []) (Crash rewrite 0 ∷ [])) }
    ensures nothing { (append rewrite : List Event) (found : Tables) (cleaned : List ℕ)
        → IsSoundIn Append append → IsSoundIn Rewrite rewrite → Apart rewrite
        → (both : IsReadingOfBoth rewrite append found cleaned)
        → ((r : ℕ) → AreTableEntries (table_of r (finite.get found r)).entries)
        → ((r : ℕ) → SayEnoughAtOpening (steps_of r (batches append)) [] (table_of r (finite.get both.rewritten r)) (table_of r (finite.get found r)))
        → (base : (EntryIndex → List ℕ) → ℕ → Records)
        × ((content : EntryIndex → List ℕ)
        → IsSafe content (base content) (Crash append 0 ∷ []) (Crash rewrite 0 ∷ []) [] found) }
    ensures later { (append rewrite : List Event) (found : Tables) (cleaned : List ℕ)
        → IsSoundIn Append append → IsSoundIn Rewrite rewrite → Apart rewrite
        → (both : IsReadingOfBoth rewrite append found cleaned)
        → ((r : ℕ) → AreTableEntries (table_of r (finite.get found r)).entries)
        → (untold : List RegionStep)
        → ((r : ℕ) → IsToldNowOrLater (steps_of r (batches append)) [] (steps_on r untold) (table_of r (finite.get both.rewritten r)) (table_of r (finite.get found r)))
        → (base : (EntryIndex → List ℕ) → ℕ → Records)
        × ((content : EntryIndex → List ℕ)
        → IsSafe content (base content) (Crash append 0 ∷ []) (Crash rewrite 0 ∷ []) untold found) }
    ensures mixed { (append rewrite : List Event) (found : Tables) (cleaned : List ℕ) (e : Event)
        → IsSoundIn Append append → IsSoundIn Rewrite rewrite → Apart rewrite
        → (both : IsReadingOfBoth rewrite append found cleaned)
        → ((r : ℕ) → AreTableEntries (table_of r (finite.get found r)).entries)
        → IsNextIn Rewrite (Crash rewrite 0 ∷ []) e → HasNoMarker e
        → (untold : List RegionStep)
        → ((r : ℕ) → IsToldNowOrLater (steps_of r (batches append)) (steps_on r (steps_of_items e.items)) (steps_on r untold) (table_of r (finite.get both.rewritten r)) (table_of r (finite.get found r)))
        → (base : (EntryIndex → List ℕ) → ℕ → Records)
        × ((content : EntryIndex → List ℕ)
        → IsSafe content (base content) (Crash append 0 ∷ []) (Sync ∷ Write e ∷ Crash rewrite 0 ∷ []) untold found)
        × ((content : EntryIndex → List ℕ)
        → LoseNothing content (base content) (Crash append 0 ∷ []) (Write e ∷ Crash rewrite 0 ∷ []))
        × ((content : EntryIndex → List ℕ)
        → LoseNothing content (base content) (Crash append 0 ∷ []) (Crash rewrite 0 ∷ [])) }
{}
