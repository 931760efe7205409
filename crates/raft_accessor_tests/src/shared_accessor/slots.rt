//! Tests truncations of the tables of one slot.

ghost use Rattle.std.specs.Prelude.{◌≡◌};

use crate::items::{Fault, new_run, result_or_fault};
use raft_memtable::{FileId, LogQueue, Result, TableChange, slot_of};
use raft_records::{Command, LogItem};
use raft_recover::Slot;
use raft_trials::again;
use std::alloc::Global;

/// Returns an item that truncates region 1.
fn truncation_item(index: u64) -> LogItem
    ensures { result.raft_group_id ≡ 1 }
{
    LogItem::new_command(1, Command::Truncate { index })
}

/// Returns how many records of a slot are live in each queue.
fn live_counts(slot: &Slot) -> (usize, usize) {
    (
        slot.stats().live_entries(LogQueue::Append),
        slot.stats().live_entries(LogQueue::Rewrite),
    )
}

/// Returns the index of the last entry of region 1.
fn last_index(slot: &Slot) -> Option<u64> {
    slot.table(1).and_then(|table| table.last_index())
}

/// Tests truncations of the entries 10 to 19, the first five of which are rewritten: the others are removed in two
/// steps, and rewritten items truncate nothing.
///
/// # Errors
///
/// Those of calls that are to succeed; `Memory`.
fn truncates_appended_and_rewritten(alloc: Global) -> Result<bool> {
    let mut slot = Slot::new(alloc, slot_of(1));
    let appended = new_run(alloc, 10, 20, FileId::new(LogQueue::Append, 1))?;
    slot.change(1, TableChange::Append(appended))?;
    let rewritten = new_run(alloc, 10, 15, FileId::new(LogQueue::Rewrite, 50))?;
    slot.apply_rewrite_write(LogItem::new_entry_indexes(1, rewritten), Some(1), 50)?;
    let dropped = slot.change(1, TableChange::Truncate { index: 17 })?;
    let changed = (dropped, last_index(&slot), live_counts(&slot)) == (3, Some(16), (2, 5));
    slot.apply_append_write(truncation_item(12))?;
    let written = (last_index(&slot), live_counts(&slot)) == (Some(11), (0, 2));
    let refused = result_or_fault(slot.apply_rewrite_write(truncation_item(11), Some(1), 50))?;
    let kept = (last_index(&slot), live_counts(&slot)) == (Some(11), (0, 2));
    Ok(changed && written && refused == Err(Fault::Corruption) && kept)
}

/// Tests truncations of a slot's entries, some of which are rewritten, by new items and by rewritten ones.
#[test]
fn a_slot_truncates_appended_and_rewritten_entries(rt: HostRuntime) {
    assert!(rt;
        matches!(
            again!(truncates_appended_and_rewritten(rt.alloc())),
            Ok(true)
        )
    );
}
