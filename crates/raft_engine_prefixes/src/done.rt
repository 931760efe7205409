//! Laws of what is done to a queue by what is asked of its files, and of what a disk leaves of both queues
//! then. An *ask* is a call that an engine makes on its files; a *deed* (`Deed`) is what is done to a queue:
//! a batch is written, all is synced, files are deleted, or the machine crashed.

ghost use Rattle.std.specs.Prelude.{◌≡◌, ℕ, ◌<◌, ◌≤◌, List, [], ◌∷◌, ◌++◌, length};
ghost use Rattle.raft_base.specs.declared.entry_index.EntryIndex.{EntryIndex};
ghost use Rattle.raft_base.specs.declared.pipe_log.FileBlockHandle.{FileBlockHandle};
ghost use Rattle.raft_base.specs.declared.pipe_log.LogQueue.{LogQueue};
ghost use Rattle.raft_base.specs.declared.pipe_log.LogQueue.TheVariants.{Append, Rewrite};
ghost use Rattle.raft_base.specs.declared.pipe_log.Version.{Version};
ghost use Rattle.raft_history.specs.Batches.{Event};
ghost use Rattle.raft_history.specs.RegionSteps.{RegionStep, Tables};
ghost use Rattle.raft_files.specs.Asks.{Act, Ask, Begin, Cut, Delete, Found, Read, Sync, Unsynced, acts_on};
ghost use Rattle.raft_files.specs.Disk.{NumberedBytes, begun, deletions, IsLeftOf};
ghost use Rattle.raft_engine_laws.specs.Records.{Records};
ghost use Rattle.raft_engine_laws.specs.Crashes as queue_deeds;
ghost use Rattle.raft_engine_laws.specs.Crashes.{Deed, Crash, deleted, in_files_from, IsSafe, IsSynced, LoseNothing};
ghost use Rattle.raft_recover.specs.Files.{FilesHold, whole_file};
ghost use Rattle.raft_engine_prefixes.specs.TornTails.{FilesHoldTorn, FoundUndamaged, IsDamagedAt, StopsAt};
ghost use Rattle.raft_engine_prefixes.specs.Done.{AreDone, AreDoneWhole, AreConsecutive, AreRisingFrom, Follows, HoldLeft, HoldRecords, LastFileIsNext, WrittenBatchIsDone, numbers};

/// States which deed each ask of an engine is.
/// - Putting a written batch writes it, and a sync is a sync.
/// - A new file is no deed, if all is synced and its number is above that of the last one and not among those
///   of deleted files.
/// - The deletion of a file that isn't the last one deletes the files below a number above its own, up to
///   that of the next one.
/// - Files that are found when the machine starts, with or without a torn tail, are those that a crash left.
/// - Where a reader stops in the last file, a torn tail may be cut off. That is no deed.
/// - A read is no deed, nor is a sync that fails.
///
/// A batch whose items may stand in the last file is one that may be written next. This is a law: it computes
/// nothing.
pub fn asks_do_deeds()
    ensures none { (queue : LogQueue) (version : Version) → AreDoneWhole queue version [] [] }
    ensures written { WrittenBatchIsDone }
    ensures synced { (queue : LogQueue) (version : Version) (acts : List Act) (deeds : List Deed)
        → AreDoneWhole queue version acts deeds → AreDoneWhole queue version (Sync ∷ acts) (queue_deeds.Sync ∷ deeds) }
    ensures begun { (queue : LogQueue) (version : Version) (acts : List Act) (deeds : List Deed) (seq : ℕ)
        → AreDoneWhole queue version acts deeds → IsSynced deeds → Follows seq (begun acts) → deleted deeds ≤ seq
        → AreDoneWhole queue version (Begin seq ∷ acts) deeds }
    ensures deleted { (queue : LogQueue) (version : Version) (acts : List Act) (deeds : List Deed)
        (gone rest : List NumberedBytes) (oldest next : NumberedBytes) (n : ℕ) → AreDoneWhole queue version acts deeds
        → begun acts ≡ gone ++ oldest ∷ next ∷ rest → deletions acts ≡ length gone → oldest.0 < n → n ≤ next.0
        → AreDoneWhole queue version (Delete ∷ acts) (queue_deeds.Delete n ∷ deeds) }
    ensures found { (queue : LogQueue) (version : Version) (acts : List Act) (deeds : List Deed)
        (files : List NumberedBytes) (standing : List Event) (n : ℕ)
        → FilesHoldTorn queue version files (in_files_from n standing) → AreRisingFrom n (numbers files)
        → AreConsecutive (numbers files)
        → AreDone queue version (Found files ∷ acts) (Crash standing n ∷ deeds) }
    ensures found_whole { (queue : LogQueue) (version : Version) (acts : List Act) (deeds : List Deed)
        (files : List NumberedBytes) (standing : List Event) (n : ℕ)
        → FilesHold queue version files (in_files_from n standing) → AreRisingFrom n (numbers files)
        → AreConsecutive (numbers files)
        → AreDoneWhole queue version (Found files ∷ acts) (Crash standing n ∷ deeds) }
    ensures cut { (queue : LogQueue) (version : Version) (acts : List Act) (deeds : List Deed)
        (closed : List NumberedBytes) (last : NumberedBytes) (at : ℕ) → AreDone queue version acts deeds
        → begun acts ≡ closed ++ last ∷ [] → StopsAt (whole_file queue version last) at
        → AreDoneWhole queue version (Cut at ∷ acts) deeds }
    ensures read { (queue : LogQueue) (version : Version) (acts : List Act) (deeds : List Deed) (place : FileBlockHandle)
        (bytes : List ℕ) → AreDone queue version acts deeds → AreDone queue version (Read place bytes ∷ acts) deeds }
    ensures read_whole { (queue : LogQueue) (version : Version) (acts : List Act) (deeds : List Deed) (place : FileBlockHandle)
        (bytes : List ℕ) → AreDoneWhole queue version acts deeds → AreDoneWhole queue version (Read place bytes ∷ acts) deeds }
    ensures unsynced { (queue : LogQueue) (version : Version) (acts : List Act) (deeds : List Deed)
        → AreDone queue version acts deeds → AreDone queue version (Unsynced ∷ acts) deeds }
    ensures unsynced_whole { (queue : LogQueue) (version : Version) (acts : List Act) (deeds : List Deed)
        → AreDoneWhole queue version acts deeds → AreDoneWhole queue version (Unsynced ∷ acts) deeds }
    ensures next { LastFileIsNext }
{}

/// States that what a crash leaves of a queue's files holds batches that may be left of what was done to the
/// queue, and at most a torn tail after them. This is a law: it computes nothing.
pub fn files_that_are_left_hold_what_may_be_left()
    ensures { (queue : LogQueue) (version : Version) (asked : List Ask) (deeds : List Deed) (files : List NumberedBytes)
        → AreDone queue version (acts_on queue asked) deeds → IsLeftOf queue asked files
        → HoldLeft queue version deeds files }
{}

/// States that no crash damages files. If the files that were found when the machine started weren't damaged,
/// those that a crash leaves aren't either: at the place where a reader stops in the last one there is no
/// damage. So whoever refuses damaged files never refuses what a crash left of files that were accepted. This
/// is a law: it computes nothing.
pub fn no_crash_damages_files()
    ensures { (queue : LogQueue) (version : Version) (asked : List Ask) (deeds : List Deed)
        (closed : List NumberedBytes) (last : NumberedBytes) (at : ℕ)
        → AreDone queue version (acts_on queue asked) deeds → FoundUndamaged queue version (acts_on queue asked)
        → IsLeftOf queue asked (closed ++ last ∷ []) → StopsAt (whole_file queue version last) at
        → ¬ (IsDamagedAt (whole_file queue version last) at) }
{}

/// States that no crash loses records. If what was done to both queues is safe, or at least loses nothing,
/// whatever is left of their files can be read, and gives the records that those batches make which are left
/// of the append queue. This is a law: it computes nothing.
pub fn no_crash_loses_records()
    ensures safe { (content : EntryIndex → List ℕ) (base : ℕ → Records) (version : Version) (asked : List Ask)
        (appended rewritten : List Deed) (untold : List RegionStep) (tables : Tables)
        (append_files rewrite_files : List NumberedBytes)
        → IsSafe content base appended rewritten untold tables
        → AreDone Append version (acts_on Append asked) appended → AreDone Rewrite version (acts_on Rewrite asked) rewritten
        → IsLeftOf Append asked append_files → IsLeftOf Rewrite asked rewrite_files
        → HoldRecords content base version appended rewritten append_files rewrite_files }
    ensures nothing_lost { (content : EntryIndex → List ℕ) (base : ℕ → Records) (version : Version) (asked : List Ask)
        (appended rewritten : List Deed) (append_files rewrite_files : List NumberedBytes)
        → LoseNothing content base appended rewritten
        → AreDone Append version (acts_on Append asked) appended → AreDone Rewrite version (acts_on Rewrite asked) rewritten
        → IsLeftOf Append asked append_files → IsLeftOf Rewrite asked rewrite_files
        → HoldRecords content base version appended rewritten append_files rewrite_files }
{}
