//! A law of the entries that are read of a batch.

ghost use Rattle.std.specs.Prelude.{List};
ghost use Rattle.raft_history.specs.Common.{FileId, EntryIndex, IsDecodedIn, entries, IsRunIn};

/// States that the entries of an item that was read from a file are a run of the file's queue, as tables
/// require. So nobody needs to test it. This is a law: it computes nothing.
#[tactic(auto, using(crate::proofs::ReadItemLemmas::read_run))]
pub fn read_entries_are_runs()
    ensures { (file : FileId) (es : List EntryIndex) → IsDecodedIn file (entries es)
        → IsRunIn file.queue es }
{}
