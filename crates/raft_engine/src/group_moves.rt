//! Laws of what the files of an engine store while records move in the batches of an atomic group.

ghost use Rattle.raft_engine.specs.GroupAsks.{BegunGroupsAreStored, EndedGroupsArePut, EndedGroupsAreStored, GroupsGoOnStored, MovedGroupsAreStored};

use crate::stored::what_is_done_lasts;
use raft_engine_laws::crashes::{moving_is_safe, nothing_is_lost, open_groups_are_safe};
use raft_engine_prefixes::contents::{told_contents_are_those_that_were_added, told_contents_last};
use raft_engine_prefixes::done::asks_do_deeds;
use raft_engine_prefixes::prefixes::asks_put_batches;
use raft_history::histories::placed_items_are_in_their_file;

/// States that a batch which begins an atomic group, or goes on with the one that was begun last, changes nothing of what is
/// stored. Once the append queue is synced and the rewrite queue is told what batches took away, rewritten records may move
/// with the batch that ends the group, in the file in which it was begun: those that the items of all its batches move, also
/// before the tables take them. This is a law: it computes nothing.
pub fn groups_are_stored()
    ensures begun { BegunGroupsAreStored }
    ensures goes_on { GroupsGoOnStored }
    ensures ended { EndedGroupsAreStored }
    ensures put { EndedGroupsArePut }
{
    what_is_done_lasts();
    nothing_is_lost();
    told_contents_last();
    asks_do_deeds();
    asks_put_batches();
    placed_items_are_in_their_file();
    open_groups_are_safe();
    moving_is_safe();
}

/// States that the rewritten records of a region may move to the last rewrite file in the batches of an atomic group, which
/// are put one after another. Until the End is put, what is stored stays as it was. From then on other tables are stored, and
/// so are those that take the items of all batches. This is a law: it computes nothing.
pub fn moved_groups_are_stored()
    ensures { MovedGroupsAreStored }
{
    groups_are_stored();
    told_contents_last();
    told_contents_are_those_that_were_added();
}
