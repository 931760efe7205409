//! Laws of what the files of an engine store, and of what each ask makes of it. An ask is what an engine asked of its files by
//! a call of `EngineFiles`.

ghost use Rattle.raft_base.specs.declared.pipe_log.LogQueue.TheVariants.{Append, Rewrite};
ghost use Rattle.raft_engine.specs.StoredAsks.{DeletionsAreStored, FailedSyncsAreStored, FirstFilesAreStored, NewFilesAreStored, SyncsAreStored, ToldBatchesAreStored, WhatIsDoneLasts, WrittenBatchesAreStored};

use raft_engine_laws::crashes::{
    deleting_is_safe, empty_queues_are_safe, nothing_is_lost, syncing_is_safe, telling_is_safe,
    writing_is_safe,
};
use raft_engine_laws::telling::{
    items_that_take_nothing_away_need_no_telling, told_items_take_away_the_same,
    what_says_the_same_is_as_untold,
};
use raft_engine_prefixes::any_tails::unforged_files_hold_what_may_be_left;
use raft_engine_prefixes::contents::told_contents_last;
use raft_engine_prefixes::done::{asks_do_deeds, files_that_are_left_hold_what_may_be_left};
use raft_engine_prefixes::prefixes::{asks_put_batches, files_that_stand_hold_a_prefix};
use raft_history::histories::placed_items_are_in_their_file;

/// States that the batches that were put outlast a crash, if no crash loses anything of what was done to both queues: whatever
/// is left of the files has the records of a prefix of them, with the synced ones at least. This is a law: it computes
/// nothing.
pub fn what_is_done_lasts()
    ensures { WhatIsDoneLasts }
{
    files_that_are_left_hold_what_may_be_left();
    unforged_files_hold_what_may_be_left();
    files_that_stand_hold_a_prefix();
}

/// States what each ask makes of what is stored:
/// - The first files are stored as no tables.
/// - A sync, also one that fails, and a new file change nothing of what is stored.
/// - A batch that is put after the bytes of the last append file is stored as the tables that take it, and what it takes away
///   is untold: the rewrite queue doesn't say so yet.
/// - Once the append queue is synced, the rewrite queue may be told what is untold, by a batch of commands and deletions.
/// - Then, with both queues synced, files of either may be deleted that no table needs. No group of the rewrite queue ends in
///   another file than that in which it begins, so none is torn by it.
///
/// This is a law: it computes nothing.
pub fn asks_are_stored()
    ensures first { FirstFilesAreStored }
    ensures synced { SyncsAreStored }
    ensures unsynced { FailedSyncsAreStored }
    ensures begun { NewFilesAreStored }
    ensures written { WrittenBatchesAreStored }
    ensures told { ToldBatchesAreStored }
    ensures deleted { DeletionsAreStored Append }
    ensures rewrite_deleted { DeletionsAreStored Rewrite }
{
    what_is_done_lasts();
    nothing_is_lost();
    told_contents_last();
    asks_do_deeds();
    asks_put_batches();
    empty_queues_are_safe();
    syncing_is_safe();
    writing_is_safe();
    items_that_take_nothing_away_need_no_telling();
    what_says_the_same_is_as_untold();
    placed_items_are_in_their_file();
    telling_is_safe();
    told_items_take_away_the_same();
    deleting_is_safe();
}
