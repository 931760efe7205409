//! Laws of disks that write unsynced pages in any order. They may leave any bytes after the synced ones.

ghost use Rattle.std.specs.Prelude.{◌<◌, List, length};
ghost use Rattle.raft_base.specs.declared.pipe_log.LogQueue.{LogQueue};
ghost use Rattle.raft_base.specs.declared.pipe_log.Version.{Version};
ghost use Rattle.raft_history.specs.Batches.{Event};
ghost use Rattle.raft_files.specs.Asks.{Act, Ask, acts_on};
ghost use Rattle.raft_files.specs.Disk.{IsLeftUnordered, MayStand, MayStandUnordered, NumberedBytes, begun, deletions};
ghost use Rattle.raft_engine_laws.specs.Crashes.{Deed};
ghost use Rattle.raft_engine_prefixes.specs.Done.{AreDone, HoldLeft};
ghost use Rattle.raft_engine_prefixes.specs.TornTails.{FilesHoldTorn};
ghost use Rattle.raft_engine_prefixes.specs.Prefixes.{AreFirstOf, ArePut};
ghost use Rattle.raft_engine_prefixes.specs.AnyTails.{BeginWithSynced, FilesBeginWith, FilesHoldPrefix, IsUnforgedLeftOf, PrefixesAreUnforged};

/// States that whatever a disk that writes in order may leave, a disk that writes in any order may leave too.
/// This is a law: it computes nothing.
pub fn prefixes_may_stand_unordered()
    ensures { (acts : List Act) (files : List NumberedBytes) → MayStand acts files → MayStandUnordered acts files }
{}

/// States what is read of files that a disk that writes in any order leaves. What is read of any files begins
/// with the batches that they begin with. Whatever may be left of the files of a queue, with any bytes after
/// the synced ones, begins with the synced batches; so does whatever is read of it. This is a law: it
/// computes nothing.
pub fn synced_batches_are_read_first()
    ensures first { (queue : LogQueue) (version : Version) (files : List NumberedBytes) (a g : List Event)
        → FilesHoldPrefix queue version files a → FilesHoldTorn queue version files g → AreFirstOf a g }
    ensures begin { (queue : LogQueue) (version : Version) (acts : List Act) (synced h : List Event) (files : List NumberedBytes)
        → ArePut queue version acts synced h → MayStandUnordered acts files → FilesBeginWith queue version files synced }
    ensures read { (queue : LogQueue) (version : Version) (acts : List Act) (synced h : List Event) (files : List NumberedBytes)
        (read : List Event) → ArePut queue version acts synced h → MayStandUnordered acts files
        → FilesHoldTorn queue version files read → AreFirstOf synced read }
{}

/// States that whatever a disk that writes in any order may leave of a queue's files, with any bytes after
/// the synced ones, begins with the synced batches, apart from those of deleted files. The queue's last file
/// must never be deleted. This is a law: it computes nothing.
pub fn synced_batches_are_left_first()
    ensures { (queue : LogQueue) (version : Version) (asked : List Ask) (synced h : List Event) (files : List NumberedBytes)
        → ArePut queue version (acts_on queue asked) synced h
        → deletions (acts_on queue asked) < length (begun (acts_on queue asked))
        → IsLeftUnordered queue asked files → BeginWithSynced queue version asked synced files }
{}

/// States that what a disk that writes in any order leaves of a queue's files holds batches that a crash may
/// leave of what was done to the queue, if what is read of these files, behind the batches of the deleted
/// ones, is a prefix of what all files of the queue would hold with nothing lost (a batch that was cut off
/// and is read again breaks that). This is a law: it computes nothing.
pub fn unforged_files_hold_what_may_be_left()
    ensures { (queue : LogQueue) (version : Version) (asked : List Ask) (deeds : List Deed) (files : List NumberedBytes)
        (read : List Event) → AreDone queue version (acts_on queue asked) deeds
        → IsUnforgedLeftOf queue version asked files → FilesHoldTorn queue version files read
        → HoldLeft queue version deeds files }
{}

/// States that what a disk that writes in order may leave of a queue's files, one that writes in any order
/// may leave too, and that what is read of them, behind the batches of the deleted ones, is a prefix of what
/// all files of the queue would hold with nothing lost. The queue's last file must never be deleted. This is
/// a law: it computes nothing.
pub fn prefixes_are_unforged()
    ensures { PrefixesAreUnforged }
{}
