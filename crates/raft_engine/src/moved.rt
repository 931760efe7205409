//! A law of what the files of an engine store while its records move.

ghost use Rattle.raft_engine.specs.MovedAsks.{MovedBatchesAreStored, PutBatchesAreStored, ReadsAreStored};

use crate::stored::what_is_done_lasts;
use raft_engine_laws::crashes::{moving_is_safe, nothing_is_lost};
use raft_engine_prefixes::contents::{told_contents_are_those_that_were_added, told_contents_last};
use raft_engine_prefixes::done::asks_do_deeds;
use raft_engine_prefixes::prefixes::asks_put_batches;
use raft_history::histories::placed_items_are_in_their_file;

/// States that a read leaves what is stored as it is. Once the append queue is synced, and the rewrite queue is told what
/// batches took away, records of a region may move in one batch: to the rewrite queue, or from rewrite files to the last one.
/// This is a law: it computes nothing.
pub fn moves_are_stored()
    ensures read { ReadsAreStored }
    ensures moved { MovedBatchesAreStored }
    ensures put { PutBatchesAreStored }
{
    what_is_done_lasts();
    nothing_is_lost();
    told_contents_last();
    told_contents_are_those_that_were_added();
    asks_do_deeds();
    asks_put_batches();
    placed_items_are_in_their_file();
    moving_is_safe();
}
