//! Tests what contexts hold: those of rows at each cutting, however they are merged, and some others.

use super::batches::{PUT_K, RUN_10_20};
use super::bound::is_within;
use super::histories::{
    Batch, row_ending_with_hole, row_ending_with_truncation, rows_of_histories,
};
use super::owed::Row;
use super::pieces::{History, merge, replay};
use super::rows::rows;
use super::truncations::rows_of_truncations;
use raft_base::{Error, LogQueue, Result};
use raft_memtable::{Kept, MemTableRecoverContext};
use raft_trials::again;
use std::alloc::Global;

/// Tests at each cutting whether no context of a row's batches holds more than its batches allow, and the merged ones
/// give what the row expects; or, where it expects a refusal, whether the batches can't be read or are refused.
fn do_contexts_of_row_hold_little(alloc: Global, row: &Row) -> Result<bool> {
    match History::from_digits(alloc, row.queue, row.batches) {
        Ok(history) => history.is_row_met_at_each_cutting(row),
        Err(Error::Corruption(_)) => Ok(row.lines.is_none()),
        Err(error) => Err(error),
    }
}

/// Tests at each cutting that no context holds more than its batches allow.
#[test]
fn contexts_of_rows_hold_no_more_than_their_bound(rt: HostRuntime) {
    for list in [rows(), rows_of_truncations(), rows_of_histories()] {
        for row in list {
            let all = again!(do_contexts_of_row_hold_little(rt.alloc(), row));
            assert!(rt; matches!(all, Ok(true)), "{:?}", row.batches);
        }
    }
}

/// Tests the same with two histories that end with a truncation and with a hole.
#[test]
fn contexts_of_histories_hold_no_more_than_their_bound(rt: HostRuntime) {
    for row in [row_ending_with_truncation(), row_ending_with_hole()] {
        let all = again!(do_contexts_of_row_hold_little(rt.alloc(), row));
        assert!(rt; matches!(all, Ok(true)), "{:?}", row.lines);
    }
}

/// The batches that an older and a newer context replay, how often each; and what the newer one, and both merged, may
/// hold.
struct Counted {
    queue: LogQueue,
    older: &'static [Batch],
    newer: &'static [Batch],
    times: usize,
    alone: Kept,
    merged: Kept,
}

const NOTHING: Kept = Kept {
    entries: 0,
    keys: 0,
    marks: 0,
    deleted_keys: 0,
    cleaned: 0,
    waiting_items: 0,
};

const ONE_KEY: Kept = Kept {
    keys: 1,
    marks: 1,
    ..NOTHING
};

/// What the newer context holds at most: the key that is put again may count as deleted.
const TWO_DELETED: Kept = Kept {
    deleted_keys: 2,
    ..ONE_KEY
};

const TWO_WAIT: Kept = Kept {
    marks: 1,
    waiting_items: 2,
    ..NOTHING
};

/// A batch that deletes two keys of region 1, and puts one of them again.
const DELETE_K_AND_J_PUT_J: Batch = (
    1,
    "0000000000002600000000000000001003010302016b010302016a010301016a01769696a0ef",
);

/// A batch that ends a group, and has two keys.
const END_WITH_TWO: Batch = (
    1,
    "0000000000002c00000000000000001003090301035f5f010102050301016b0176050301016a0176ecd19e14",
);

static COUNTED: [Counted; 4] = [
    Counted {
        queue: LogQueue::Append,
        older: &[(1, PUT_K)],
        newer: &[(1, PUT_K)],
        times: 100_000,
        alone: ONE_KEY,
        merged: ONE_KEY,
    },
    Counted {
        queue: LogQueue::Append,
        older: &[(1, RUN_10_20)],
        newer: &[DELETE_K_AND_J_PUT_J],
        times: 1,
        alone: TWO_DELETED,
        merged: Kept {
            entries: 10,
            ..TWO_DELETED
        },
    },
    Counted {
        queue: LogQueue::Append,
        older: &[DELETE_K_AND_J_PUT_J],
        newer: &[DELETE_K_AND_J_PUT_J],
        times: 1,
        alone: TWO_DELETED,
        merged: TWO_DELETED,
    },
    Counted {
        queue: LogQueue::Rewrite,
        older: &[END_WITH_TWO],
        newer: &[END_WITH_TWO],
        times: 1,
        alone: TWO_WAIT,
        merged: TWO_WAIT,
    },
];

/// Returns the rows of counted contexts.
fn rows_of_counted_contexts() -> &'static [Counted] {
    &COUNTED
}

/// Returns a context that has replayed batches so often.
fn replay_repeatedly(
    alloc: Global,
    queue: LogQueue,
    batches: &[Batch],
    times: usize,
) -> Result<MemTableRecoverContext> {
    let history = History::from_digits(alloc, queue, batches)?;
    let mut context = MemTableRecoverContext::new(alloc)?;
    for written in &history.batches {
        for _ in 0..times {
            replay(&mut context, written)?;
        }
    }
    Ok(context)
}

/// Tests whether a context holds no more than `bound`, and exactly as many marks.
fn is_kept_within(context: &MemTableRecoverContext, bound: Kept) -> Result<bool> {
    let kept = context.kept()?;
    Ok(kept.marks == bound.marks && is_within(kept, bound))
}

/// Tests whether the newer context of a row, and then both merged, hold no more than the row says.
fn do_counted_contexts_hold_no_more(alloc: Global, row: &Counted) -> Result<bool> {
    let newer = replay_repeatedly(alloc, row.queue, row.newer, row.times)?;
    let alone = is_kept_within(&newer, row.alone)?;
    let mut context = replay_repeatedly(alloc, row.queue, row.older, row.times)?;
    merge(&mut context, newer, row.queue)?;
    Ok(alone && is_kept_within(&context, row.merged)?)
}

/// Tests that contexts which replay the same batches often hold no more for that.
#[test]
fn repeated_batches_add_nothing_to_a_context(rt: HostRuntime) {
    for row in rows_of_counted_contexts() {
        let held = again!(do_counted_contexts_hold_no_more(rt.alloc(), row));
        assert!(rt; matches!(held, Ok(true)), "{:?}", row.newer);
    }
}
