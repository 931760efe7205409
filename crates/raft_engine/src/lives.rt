//! Laws of the lives of an engine. A life goes from its first files, or from an opening, to a crash: what one leaves, the next
//! ones find.

ghost use Rattle.raft_engine.specs.Lives.{OwnFilesAreToldNothing, SyncedStaysSynced, WhatLastsIsALife, WrittenEntriesAreFound};

use crate::restarts::found_entries_stay;
use crate::stored_found::found_files_are_stored;

/// States that what was asked of an engine is a life of it, if what was synced lasts. This is a law: it computes nothing.
pub fn what_lasts_is_a_life()
    ensures { WhatLastsIsALife }
{}

/// States that what was synced in one life is synced in the next ones, over any number of restarts: the batches that were
/// synced are the first ones of those that are synced later, but for those in files that were deleted. This is a law: it
/// computes nothing.
pub fn synced_batches_stay_synced()
    ensures { SyncedStaysSynced }
{}

/// States that over any number of restarts each engine that is opened has the bytes that were written, for each of its
/// entries, if engines of its version alone wrote the files. This is a law: it computes nothing.
pub fn written_entries_are_found()
    ensures { WrittenEntriesAreFound }
{
    found_entries_stay();
}

/// States that an opening of files that engines of its version alone wrote asks for what is missing in each queue, and for
/// nothing else: it tells the rewrite queue nothing at once. So it is over any number of restarts, whenever the machine
/// crashes. This is a law: it computes nothing.
pub fn own_files_are_told_nothing()
    ensures { OwnFilesAreToldNothing }
{
    found_files_are_stored();
}
