//! Laws of what a disk leaves of one queue: a prefix of the batches that were put into its files. An *ask* is
//! a call that an engine makes on the files.

ghost use Rattle.std.specs.Prelude.{◌≡◌, ℕ, ◌<◌, ◌≤◌, List, [], ◌∷◌, ◌++◌, length, take};
ghost use Rattle.std.specs.List.{AllByRecursion};
ghost use Rattle.raft_base.specs.declared.pipe_log.FileBlockHandle.{FileBlockHandle};
ghost use Rattle.raft_base.specs.declared.pipe_log.LogQueue.{LogQueue};
ghost use Rattle.raft_base.specs.declared.pipe_log.Version.{Version};
ghost use Rattle.raft_history.specs.Batches.{Event};
ghost use Rattle.raft_files.specs.Asks.{Act, Ask, Begin, Cut, Delete, Found, Read, Sync, Unsynced, acts_on};
ghost use Rattle.raft_files.specs.Disk.{NumberedBytes, begun, deletions, files_of, IsLeftOf, MayStand};
ghost use Rattle.raft_replay.specs.Segments.{AreHeldInTurn};
ghost use Rattle.raft_recover.specs.Files.{FilesHold, whole_file};
ghost use Rattle.raft_engine_prefixes.specs.TornTails.{FilesHoldTorn, StopsAt};
ghost use Rattle.raft_engine_prefixes.specs.Prefixes.{ArePut, ArePutWhole, HoldPrefixWith, HoldRestOfPrefix, PutsGoOn, WrittenBatchIsPut};

/// States what each ask of an engine makes of the batches that were put, and of those that are synced. Before
/// the first ask there are none. Putting a written batch adds it. A sync, a new file, and files that are
/// found make all of them synced. Where a reader stops in the last file, the torn tail may be cut off. A
/// deletion changes neither list, as deleted files are counted apart. A read puts nothing, nor does a sync
/// that fails. Asks put one history only, and sync one prefix of it. This is a law: it computes nothing.
pub fn asks_put_batches()
    ensures nothing { (queue : LogQueue) (version : Version) → ArePutWhole queue version [] [] [] }
    ensures written { WrittenBatchIsPut }
    ensures begun { (queue : LogQueue) (version : Version) (acts : List Act) (synced h : List Event)
        (seq : ℕ) → ArePutWhole queue version acts synced h
        → ArePutWhole queue version (Begin seq ∷ acts) h h }
    ensures synced { (queue : LogQueue) (version : Version) (acts : List Act) (synced h : List Event)
        → ArePut queue version acts synced h → ArePut queue version (Sync ∷ acts) h h }
    ensures found { (queue : LogQueue) (version : Version) (acts : List Act) (files : List NumberedBytes) (h : List Event)
        → FilesHoldTorn queue version files h → ArePut queue version (Found files ∷ acts) h h }
    ensures cut { (queue : LogQueue) (version : Version) (acts : List Act) (synced h : List Event)
        (closed : List NumberedBytes) (last : NumberedBytes) (at : ℕ)
        → ArePut queue version acts synced h → begun acts ≡ closed ++ last ∷ []
        → StopsAt (whole_file queue version last) at
        → ArePutWhole queue version (Cut at ∷ acts) synced h }
    ensures deleted { (queue : LogQueue) (version : Version) (acts : List Act) (synced h : List Event)
        → ArePutWhole queue version acts synced h → ArePutWhole queue version (Delete ∷ acts) synced h }
    ensures read { (queue : LogQueue) (version : Version) (acts : List Act) (synced h : List Event) (place : FileBlockHandle)
        (bytes : List ℕ) → ArePut queue version acts synced h → ArePut queue version (Read place bytes ∷ acts) synced h }
    ensures unsynced { (queue : LogQueue) (version : Version) (acts : List Act) (synced h : List Event)
        → ArePut queue version acts synced h → ArePut queue version (Unsynced ∷ acts) synced h }
    ensures one_history { (queue : LogQueue) (version : Version) (acts : List Act)
        (synced synced' h h' : List Event) → ArePut queue version acts synced h
        → ArePut queue version acts synced' h' → (synced ≡ synced') × (h ≡ h') }
{}

/// States what the files of a queue hold if none is deleted: the batches that were put, if nothing is lost.
/// Whatever a crash leaves of the files holds a prefix of these batches, with at least the synced ones, and
/// at most a torn tail after them. After a sync it holds all of them, without a torn tail. This is a law: it
/// computes nothing.
pub fn files_that_stand_hold_a_prefix()
    ensures all { (queue : LogQueue) (version : Version) (acts : List Act) (synced h : List Event)
        → ArePut queue version acts synced h → FilesHoldTorn queue version (begun acts) h }
    ensures front { (queue : LogQueue) (version : Version) (acts : List Act) (synced h : List Event)
        (files : List NumberedBytes) → ArePut queue version acts synced h → MayStand acts files
        → HoldPrefixWith queue version synced h files }
    ensures synced { (queue : LogQueue) (version : Version) (acts : List Act) (synced h : List Event)
        (files : List NumberedBytes) → ArePutWhole queue version acts synced h → MayStand (Sync ∷ acts) files
        → FilesHold queue version files h }
{}

/// States what is left of a queue of which the oldest files, but never the last one, are deleted: it holds
/// the same prefix, without the batches of the oldest files. If nothing is lost and there is no torn tail,
/// the deleted files and those that are there hold all batches together. This is a law: it computes nothing.
pub fn files_that_are_left_hold_the_rest()
    ensures whole { (queue : LogQueue) (version : Version) (asked : List Ask) (synced h : List Event)
        → ArePutWhole queue version (acts_on queue asked) synced h
        → AreHeldInTurn
        (FilesHold queue version (take (deletions (acts_on queue asked)) (begun (acts_on queue asked))))
        (FilesHold queue version (files_of queue asked)) h }
    ensures left { (queue : LogQueue) (version : Version) (asked : List Ask) (synced h : List Event)
        (files : List NumberedBytes) → ArePut queue version (acts_on queue asked) synced h
        → deletions (acts_on queue asked) < length (begun (acts_on queue asked))
        → IsLeftOf queue asked files → HoldRestOfPrefix queue version asked synced h files }
{}

/// States that batches are in the files that hold them: if these are all below a number, or all from it on,
/// so are the files of the batches. This is a law: it computes nothing.
pub fn batches_lie_in_their_files()
    ensures below { (queue : LogQueue) (version : Version) (n : ℕ) (files : List NumberedBytes)
        (h : List Event) → FilesHold queue version files h
        → AllByRecursion (λ (file : NumberedBytes). file.0 < n) files
        → AllByRecursion (λ (e : Event). e.file.seq < n) h }
    ensures from { (queue : LogQueue) (version : Version) (n : ℕ) (files : List NumberedBytes)
        (h : List Event) → FilesHold queue version files h
        → AllByRecursion (λ (file : NumberedBytes). n ≤ file.0) files
        → AllByRecursion (λ (e : Event). n ≤ e.file.seq) h }
{}

/// States that the batches that were put before an act, and those that were synced, are prefixes of those
/// after it. This is a law: it computes nothing.
pub fn puts_go_on()
    ensures { PutsGoOn }
{}
