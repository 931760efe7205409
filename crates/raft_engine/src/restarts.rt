//! Laws of what is found again of an engine after a crash.

ghost use Rattle.std.specs.Prelude.{ℕ, List};
ghost use Rattle.raft_base.specs.declared.entry_index.EntryIndex.{EntryIndex};
ghost use Rattle.raft_base.specs.declared.pipe_log.LogQueue.{LogQueue};
ghost use Rattle.raft_base.specs.declared.pipe_log.Version.{Version};
ghost use Rattle.raft_files.specs.Asks.{Ask, NumberedBytes};
ghost use Rattle.raft_engine_laws.specs.Records.{Records};
ghost use Rattle.raft_engine_prefixes.specs.Contents.{AreBothTold};
ghost use Rattle.raft_engine.specs.KeptEngine.{KeptEngine};
ghost use Rattle.raft_engine.specs.Lasting.{IsLasting, IsLastingAfter};
ghost use Rattle.raft_engine.specs.Restarts.{AreFromBefore, FoundContentsStay, FoundEntriesStay, IsFoundByRestarts, IsKeptByRestarts, IsKeptUnordered, ModesAcceptMore, OpenedFoundUndamaged, SyncedBatchesLast};

use crate::engine::Engine;
use crate::stored_found::found_files_are_stored;
use raft_engine_prefixes::contents::told_contents_last;
use raft_engine_prefixes::torn_tails::torn_tails_are_found;
use raft_files::EngineFiles;
use raft_recover::files_hold_few_records;

/// States that restarts find what lasts, whatever files a crash leaves. Every engine that is opened over them, and every
/// recovery of both queues, has the records of what there was before, and of a prefix of the batches that were written, which
/// has at least the synced ones. If the files that were found aren't damaged, these aren't either: they can be read, aren't of
/// the other version, each group stands in a row, and a mode that refuses no tail of them opens them. `recover_both` refuses
/// them for want of memory alone. If nothing is lost, what is found has the records of all batches. This is a law: it computes
/// nothing.
pub fn restarts_find_what_lasts()
    ensures { (content : EntryIndex → List ℕ) (version : Version) (base : ℕ → Records) (asks : List Ask)
        (lasting : IsLastingAfter content version base asks)
        → IsFoundByRestarts content version base asks lasting.synced lasting.batches }
{
    torn_tails_are_found();
    files_hold_few_records();
}

/// States that each recovery mode accepts what the one before it does, from `AbsoluteConsistency` over `TolerateTornTail` to
/// `TolerateTailCorruption`, which refuses no tail. None of them refuses the tail of files of which the last ends with a
/// batch. This is a law: it computes nothing.
pub fn modes_accept_more()
    ensures { (queue : LogQueue) (version : Version) (files : List NumberedBytes) → ModesAcceptMore queue version files }
{}

/// States that the files over which an engine was opened aren't damaged, if the mode `TolerateTornTail` accepts them, as it
/// does those that `open` opens. This is a law: it computes nothing.
pub fn accepted_files_are_undamaged()
    ensures { OpenedFoundUndamaged }
{}

/// States which records there were before the batches that are known of an engine: none if it began its first files, and those
/// that were found if it was opened. One of both is so. This is a law: it computes nothing.
pub fn records_before_are_those_found()
    ensures { (content : EntryIndex → List ℕ) (engine : KeptEngine) (lasting : IsLasting content engine)
        → AreFromBefore content engine.version engine.asks lasting.base }
{
    torn_tails_are_found();
}

/// States that the contents of the entries that an engine finds stay. Let an engine be opened over what a crash left of
/// another one. For each entry whose bytes stand in what was left, the contents that are told by what was asked of the new
/// engine are those that are told by what was asked of the old one. This is a law: it computes nothing.
pub fn found_contents_stay()
    ensures { FoundContentsStay }
{
    found_files_are_stored();
    told_contents_last();
}

/// States that the contents of all entries that an opened engine has are those of the engine that crashed, if the entries of
/// the batches that were found end within their blocks. This is a law: it computes nothing.
pub fn found_entries_stay()
    ensures { FoundEntriesStay }
{
    found_contents_stay();
}

/// States that a batch that was written with a sync is synced once that returns: it is then the last one of those batches that
/// a crash leaves at least, after all that were written before it. This is a law: it computes nothing.
pub fn synced_batches_last()
    ensures { SyncedBatchesLast }
{
    torn_tails_are_found();
}

impl<F: EngineFiles> Engine<F> {
    /// States what is found again after a crash at any moment, in the midst of a call too. An engine that is opened over the
    /// files that are left, and a recovery of both queues of them, has the records of all batches that were synced by then,
    /// and of a prefix of those since, and no others. It has those of an intact engine if all was synced, or if nothing is
    /// lost.
    ///
    /// The files can be read, if those of a queue have fewer than 2^63 bytes. They aren't damaged, if those over which the
    /// engine was opened weren't, as `open` makes sure. `recover_both` refuses them for want of memory alone; `open` and
    /// `open_over` for this, for want of room, or once the files fail. If the engine was opened over damaged files, so it is
    /// of openings in the mode `TolerateTailCorruption`, and of those in the default mode as soon as what is left isn't
    /// damaged.
    ///
    /// The contents of entries are any that are told by what was asked, and the files that are left have these. This is a law:
    /// it computes nothing.
    pub fn what_is_left_is_opened(&self)
        ensures { (content : EntryIndex → List ℕ) → AreBothTold self.now.asks content
            → IsKeptByRestarts content self.now }
    {
        self.nothing_synced_is_lost();
        restarts_find_what_lasts();
        records_before_are_those_found();
    }

    /// States what is found again on a disk that writes pages, and the lengths of files, in any order, so that any bytes may
    /// stand after the synced ones at a crash. Let nothing be readable in the files that are left but what was written. An
    /// engine that is opened over them then has the records of all batches that were synced by then, and of a prefix of those
    /// since, and no others. On such a disk `open` may refuse what is left, as damaged. This is a law: it computes nothing.
    pub fn what_is_left_unordered_is_opened(&self)
        ensures { (content : EntryIndex → List ℕ) → AreBothTold self.now.asks content
            → IsKeptUnordered content self.now }
    {
        self.nothing_synced_is_lost();
        restarts_find_what_lasts();
    }
}
