//! Counts the records that are live in a queue.

ghost use Rattle.std.specs.Prelude.{◌≡◌, ◌<◌, ◌^◌};
ghost use Rattle.raft_plain.specs.Common.{is_same, is_placed_in, entry_count, pair_count, live_in_all, keys_shown, tables_shown};

use crate::region::{Keys, Regions};
use raft_base::{EntryIndex, LogQueue};

/// Returns how many entries and key values of all regions have their place or file in `queue`.
pub fn count_live(queue: LogQueue, regions: &Regions) -> u128
    ensures { result ≡ live_in_all queue (tables_shown regions.now) }
{
    let mut count: u128 = 0;
    for region in regions.values() {
        count += count_entries(queue, region.entries.as_slice()) as u128;
        count += count_keys(queue, &region.keys) as u128;
    }
    count
}

/// Returns how many of `entries` have their place in `queue`.
#[tactic(auto, unfolding(raft_table::specs::TableEntries::placed_in))]
fn count_entries(queue: LogQueue, entries: &[EntryIndex]) -> usize
    ensures { result ≡ entry_count queue entries.now }
{
    let mut count = 0;
    for entry in entries {
        if is_placed_in(queue, entry) {
            count += 1;
        }
    }
    count
}

/// Tests whether `entry` has its place in `queue`. False if it has none.
#[tactic(auto, unfolding(raft_table::specs::TableEntries::is_placed_in))]
pub(crate) fn is_placed_in(queue: LogQueue, entry: &EntryIndex) -> bool
    ensures { result ≡ is_placed_in queue entry.now }
{
    entry.entries.is_some_and(|place| place.id.queue == queue)
}

/// Returns how many of `keys` have their value in a file of `queue`.
fn count_keys(queue: LogQueue, keys: &Keys) -> usize
    ensures { result ≡ pair_count queue (keys_shown keys.now) }
{
    let mut count = 0;
    for stored in keys.values() {
        if stored.file.queue == queue {
            count += 1;
        }
    }
    count
}
