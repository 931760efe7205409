//! Laws of the tables that the append files give when they are read back.

ghost use Rattle.raft_engine.specs.ReadBack.{MovedBatchesAreReadBack, MovedGroupsAreReadBack, WrittenBatchesAreReadBack};
ghost use Rattle.raft_engine.specs.RoundTrip.{ReadBackIsRoundTrip};

use raft_contexts::reading::{
    appended_items_are_read_as_steps, items_are_read_as_steps, rewriting_changes_places_alone,
};
use raft_engine_prefixes::prefixes::files_that_stand_hold_a_prefix;
use raft_engine_prefixes::torn_tails::torn_tails_are_found;
use raft_history::histories::{
    histories_of_the_append_queue_are_apart, placed_items_are_in_their_file, readings_agree,
    readings_go_on,
};
use raft_recover::files_hold_few_records;

/// States that the append files are read back as the engine's tables. With a batch more they are read back as the tables that
/// take it. If records move to the rewrite queue, in one batch or in a group, they are read back as before, so that only
/// places differ. These are laws: they compute nothing.
pub fn batches_are_read_back()
    ensures written { WrittenBatchesAreReadBack }
    ensures moved { MovedBatchesAreReadBack }
    ensures groups { MovedGroupsAreReadBack }
{
    appended_items_are_read_as_steps();
    items_are_read_as_steps();
    rewriting_changes_places_alone();
    placed_items_are_in_their_file();
    readings_go_on();
}

/// States that tables which are read back from the append files are those that a recovery gives of these files, and that a
/// crash leaves those of a prefix of the batches in them. This is a law: it computes nothing.
pub fn what_is_read_back_is_recovered()
    ensures { ReadBackIsRoundTrip }
{
    torn_tails_are_found();
    files_that_stand_hold_a_prefix();
    files_hold_few_records();
    histories_of_the_append_queue_are_apart();
    readings_agree();
}
