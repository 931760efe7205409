//! A law of what found files store.

ghost use Rattle.raft_engine.specs.FoundRecords.{FoundRecordsLast};
ghost use Rattle.raft_engine.specs.StoredFound.{FoundFilesAreReady, FoundFilesAreStored};

use crate::stored::what_is_done_lasts;
use raft_engine_laws::crashes::{nothing_is_lost, opening_is_safe};
use raft_engine_laws::telling::told_items_take_away_the_same;
use raft_engine_prefixes::contents::told_contents_last;
use raft_engine_prefixes::done::{asks_do_deeds, files_that_are_left_hold_what_may_be_left};
use raft_engine_prefixes::prefixes::asks_put_batches;

/// States what found files store, whoever wrote them. Once what is missing in them was asked, they still hold the same
/// batches. Once the rewrite queue is told what it is to be told, they store the tables that a recovery gives of them. The
/// records that there were before are those found ones that no batch of the append files makes. Whenever the machine crashes
/// meanwhile, the files that are left have the records that were found. This is a law: it computes nothing.
pub fn found_files_are_stored()
    ensures ready { FoundFilesAreReady }
    ensures stored { FoundFilesAreStored }
    ensures records { FoundRecordsLast }
{
    what_is_done_lasts();
    files_that_are_left_hold_what_may_be_left();
    nothing_is_lost();
    told_contents_last();
    asks_do_deeds();
    asks_put_batches();
    opening_is_safe();
    told_items_take_away_the_same();
}
