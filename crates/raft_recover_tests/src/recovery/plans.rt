//! Tests contexts of segments that workers draw in given schedules, merged as plans say.

use super::histories::{row_ending_with_hole, row_ending_with_truncation, rows_of_histories};
use super::owed::Row;
use super::rows::{FIVE_OWED, rows};
use super::truncations::rows_of_truncations;
use super::{count_cuttings, cut_into_segments, do_segments_give_row};
use crate::machines::{join_plans, plan_from_right};
use raft_base::{Error, Result, Version};
use raft_memtable::{MemTableRecoverContext, MemTableRecoverContextFactory};
use raft_recover::{Plan, Segment, piece_count, replay_scheduled};
use raft_trials::again;
use std::alloc::Global;
use std::thread::Threads;

/// The order in which pieces are merged.
#[derive(Clone, Copy)]
enum Order {
    FromLeft,
    FromRight,
    ByHalves,
}

use Order::{ByHalves, FromLeft, FromRight};

/// Which of two workers draws each of up to nine segments.
type Draws = [usize; 9];

/// Draws with which each segment is a piece.
const ALONE: Draws = [0, 1, 0, 1, 0, 1, 0, 1, 0];

/// Draws with which pieces of one segment and of two alternate.
const IN_PAIRS: Draws = [0, 1, 1, 0, 1, 1, 0, 1, 1];

static SCHEDULES: [(Draws, Order); 5] = [
    (ALONE, FromLeft),
    (ALONE, FromRight),
    (ALONE, ByHalves),
    (IN_PAIRS, FromRight),
    (IN_PAIRS, ByHalves),
];

/// Returns the rows of schedules.
fn rows_of_schedules() -> &'static [(Draws, Order)] {
    &SCHEDULES
}

/// Returns the plan that merges so many pieces in an order.
fn plan_in_order(alloc: Global, pieces: usize, order: Order) -> Result<Plan> {
    match order {
        FromLeft => plan_from_left(alloc, pieces),
        FromRight => plan_from_right(alloc, pieces),
        ByHalves => Plan::halves(alloc, pieces.max(1)),
    }
}

/// Returns the plan that merges so many pieces one by one, from the first on.
fn plan_from_left(alloc: Global, pieces: usize) -> Result<Plan> {
    let mut plan = Plan::One;
    for _ in 1..pieces {
        plan = join_plans(alloc, plan, Plan::One)?;
    }
    Ok(plan)
}

/// Returns the context of a row's segments, which two workers draw as `draws` says, and which are merged in an order.
fn context_of_schedule(
    alloc: Global,
    row: &Row,
    segments: &[Segment],
    draws: &[usize],
    order: Order,
) -> Result<MemTableRecoverContext> {
    let plan = plan_in_order(alloc, piece_count(segments.len(), draws), order)?;
    let factory = MemTableRecoverContextFactory::new();
    replay_scheduled(alloc, &factory, segments, row.queue, 2, draws, &plan)
}

/// Tests whether a context gives what a row expects, and has no more items that wait.
fn is_context_right(alloc: Global, row: &Row, context: MemTableRecoverContext) -> Result<bool> {
    let kept = context.kept()?;
    let tables = context.finish()?;
    Ok(row.is_met(alloc, &tables)? && kept.waiting_items <= row.waiting)
}

/// Tests whether the segments of a row give what it expects, or are refused, in each schedule.
fn is_row_met_by_each_schedule(alloc: Global, row: &Row, segments: &[Segment]) -> Result<bool> {
    for (draws, order) in rows_of_schedules() {
        let held = match context_of_schedule(alloc, row, segments, draws, *order) {
            Ok(context) => is_context_right(alloc, row, context)?,
            Err(Error::Corruption(_text)) => row.lines.is_none(),
            Err(error) => return Err(error),
        };
        if !held {
            return Ok(false);
        }
    }
    Ok(true)
}

/// Tests whether the batches of a row give what it expects, or are refused, at each cutting.
fn is_row_met_at_each_cutting(alloc: Global, row: &Row) -> Result<bool> {
    for cuts in 0..count_cuttings(row.batches.len()) {
        let segments = cut_into_segments(alloc, row.queue, Version::V1, row.batches, cuts)?;
        if !is_row_met_by_each_schedule(alloc, row, segments.as_slice())? {
            return Ok(false);
        }
    }
    Ok(true)
}

/// Returns the batches of a row as a segment each, and one more segment, which has no parts: before the batch at
/// position `number`, or behind all.
fn segments_with_empty_one(alloc: Global, row: &Row, number: usize) -> Result<Vec<Segment>> {
    let mut segments = cut_into_segments(alloc, row.queue, Version::V1, row.batches, u64::MAX)?;
    if let Some(nothing) = segments.pop() {
        segments.insert(number.min(segments.len()), nothing)?;
    }
    Ok(segments)
}

/// Tests whether a segment without parts changes nothing, wherever it is among those of a row.
fn changes_empty_segment_nothing(alloc: Global, row: &Row) -> Result<bool> {
    for number in 0..=row.batches.len() {
        let segments = segments_with_empty_one(alloc, row, number)?;
        if !is_row_met_by_each_schedule(alloc, row, segments.as_slice())? {
            return Ok(false);
        }
    }
    Ok(true)
}

/// Tests that a segment without parts changes nothing of what a plan gives.
#[test]
fn plans_pass_segments_without_parts(rt: HostRuntime) {
    assert!(rt;
        matches!(
            again!(changes_empty_segment_nothing(rt.alloc(), &FIVE_OWED)),
            Ok(true)
        )
    );
}

/// Tests whether a segment without parts changes nothing with so many workers.
fn changes_empty_segment_nothing_for_workers<R: Threads + Sync>(
    rt: &R,
    alloc: Global,
    row: &Row,
    workers: usize,
) -> Result<bool> {
    for number in 0..=row.batches.len() {
        let segments = segments_with_empty_one(alloc, row, number)?;
        if !do_segments_give_row(rt, alloc, row, segments.as_slice(), workers)? {
            return Ok(false);
        }
    }
    Ok(true)
}

/// Tests that a segment without parts changes nothing of what workers give.
#[test]
fn workers_pass_segments_without_parts(rt: HostRuntime) {
    for &workers in &[1, 2, 256] {
        let all = again!(changes_empty_segment_nothing_for_workers(
            &rt,
            rt.alloc(),
            &FIVE_OWED,
            workers
        ));
        assert!(rt; matches!(all, Ok(true)), "{workers} workers");
    }
}

/// Tests that each schedule and each cutting gives the tables of the rows.
#[test]
fn plans_give_one_reading_of_rows(rt: HostRuntime) {
    for list in [rows(), rows_of_truncations()] {
        for row in list {
            assert!(rt;
                matches!(
                    again!(is_row_met_at_each_cutting(rt.alloc(), row)),
                    Ok(true)
                )
            );
        }
    }
}

/// Tests that each schedule and each cutting gives the tables of the histories.
#[test]
fn plans_give_one_reading_of_histories(rt: HostRuntime) {
    for row in rows_of_histories() {
        assert!(rt;
            matches!(
                again!(is_row_met_at_each_cutting(rt.alloc(), row)),
                Ok(true)
            )
        );
    }
}

/// Tests the same with a history that ends with a truncation.
#[test]
fn plans_give_one_reading_before_a_truncation(rt: HostRuntime) {
    assert!(rt;
        matches!(
            again!(is_row_met_at_each_cutting(rt.alloc(), row_ending_with_truncation())),
            Ok(true)
        )
    );
}

/// Tests that a history with a hole is refused in each schedule and at each cutting.
#[test]
fn no_plan_hides_a_hole(rt: HostRuntime) {
    assert!(rt;
        matches!(
            again!(is_row_met_at_each_cutting(rt.alloc(), row_ending_with_hole())),
            Ok(true)
        )
    );
}
