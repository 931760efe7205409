//! Laws of the bytes of entries, their contents, as they are known from what was asked of files: from the
//! bytes that were put at an entry's place, and from the sound blocks that were read there.

ghost use Rattle.std.specs.Prelude.{◌≡◌, ℕ, List, ◌∷◌, Some};
ghost use Rattle.raft_base.specs.declared.entry_index.EntryIndex.{EntryIndex};
ghost use Rattle.raft_base.specs.declared.pipe_log.LogQueue.{LogQueue};
ghost use Rattle.raft_files.specs.Asks.{Act, Ask};
ghost use Rattle.raft_files.specs.Disk.{begun};
ghost use Rattle.raft_files.specs.Places.{bytes_at};
ghost use Rattle.raft_engine_prefixes.specs.Contents.{AddedEntriesAreTold, AreBothTold, AreBothTrueReads, AreTold, KeepsBytes, ReadEntryIsTold, WrittenEntryIsTold, content_of};

/// States that what was asked of files never gives one entry two different contents, if the sound blocks that
/// were read are in the files. This is a law: it computes nothing.
pub fn files_tell_contents()
    ensures { (asks : List Ask) → AreBothTrueReads asks → AreBothTold asks (content_of asks) }
{}

/// States that bytes stay where they are in a file, unless some are cut off or files are found. So contents
/// that are known from all that was asked of the files were known from what was asked before. This is a law:
/// it computes nothing.
pub fn told_contents_last()
    ensures bytes { (acts : List Act) (act : Act) (seq offset len : ℕ) (block : List ℕ) → KeepsBytes act
        → bytes_at (begun acts) seq offset len ≡ Some block
        → bytes_at (begun (act ∷ acts)) seq offset len ≡ Some block }
    ensures queue { (queue : LogQueue) (acts : List Act) (act : Act) (content : EntryIndex → List ℕ) → KeepsBytes act
        → AreTold queue (act ∷ acts) content → AreTold queue acts content }
    ensures both { (asks : List Ask) (a : Ask) (content : EntryIndex → List ℕ) → KeepsBytes a.act
        → AreBothTold (a ∷ asks) content → AreBothTold asks content }
{}

/// States which contents are known. Those of a written batch's entries are the byte strings that were added
/// for them. Those of an entry whose block was read, and is sound, are the bytes that were found in it. This
/// is a law: it computes nothing.
pub fn told_contents_are_those_that_were_added()
    ensures entry { WrittenEntryIsTold }
    ensures added { AddedEntriesAreTold }
    ensures read { ReadEntryIsTold }
{}
