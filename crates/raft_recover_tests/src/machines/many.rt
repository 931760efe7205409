//! Tests many pieces: plans that are as deep as they have pieces, and a piece for each of a hundred workers.

use super::list_machine::{List, Lists};
use super::{has_all_batches, join_plans, segment_with_batch, segments_with_batches};
use raft_base::{Factory, LogQueue, Result};
use raft_recover::{
    Gate, Plan, Segment, merge_pieces, replay_scheduled, replay_segment, replay_segments,
};
use raft_trials::{again, wait_until_reached};
use std::alloc::Global;
use std::sync::atomic::{AtomicU64, Ordering};
use std::thread::{Builder, Threads};
use std::time::Clock;

/// How many pieces there are: nested calls for all of them would need more than the stack below.
const PIECES: u64 = 100_000;

/// One in so many segments has a batch.
const SPARSE: u64 = 10_000;

/// The size of the stack on which they are merged: 1 MiB.
const STACK: usize = 1 << 20;

/// Returns a plan that nests its merges as deep as it has pieces, on the left side or on the right.
fn nested_plan(alloc: Global, down_left: bool) -> Result<Plan> {
    let mut plan = Plan::One;
    for _ in 1..PIECES {
        plan = if down_left {
            join_plans(alloc, plan, Plan::One)?
        } else {
            join_plans(alloc, Plan::One, plan)?
        };
    }
    Ok(plan)
}

/// Returns segments, few of which have a batch, in files numbered from 0 on.
fn sparse_segments(alloc: Global) -> Result<Vec<Segment>> {
    let mut segments = Vec::new(alloc);
    for n in 0..PIECES {
        let mut next = Vec::new(alloc);
        if n % SPARSE == 0 {
            next = segment_with_batch(alloc, LogQueue::Append, n / SPARSE)?;
        }
        segments.push(next)?;
    }
    Ok(segments)
}

/// Returns a machine for each segment, which has replayed it.
fn machines_of_segments(alloc: Global, segments: &[Segment]) -> Result<Vec<List>> {
    let mut machines = Vec::new(alloc);
    for segment in segments {
        let mut list = Lists.new_target(alloc)?;
        replay_segment(&mut list, segment)?;
        machines.push(list)?;
    }
    Ok(machines)
}

/// Returns the draws of two workers that draw in turns.
fn draws_in_turn(alloc: Global) -> Result<Vec<usize>> {
    let mut draws = Vec::new(alloc);
    for n in 0..PIECES {
        draws.push((n % 2) as usize)?;
    }
    Ok(draws)
}

/// Tests whether a plan merges the machines of all segments, with all batches in order.
fn does_plan_merge_all<R: Threads + Sync>(
    rt: &R,
    alloc: Global,
    segments: &[Segment],
    plan: &Plan,
) -> Result<bool> {
    let list = merge_pieces(
        rt,
        machines_of_segments(alloc, segments)?,
        plan,
        LogQueue::Append,
    )?;
    Ok(has_all_batches(&list, PIECES / SPARSE))
}

/// Tests whether the segments are read in a schedule of two workers that draw in turns, with all batches in order.
fn does_schedule_read_all(alloc: Global, segments: &[Segment], plan: &Plan) -> Result<bool> {
    let draws = draws_in_turn(alloc)?;
    let queue = LogQueue::Append;
    let list = replay_scheduled(alloc, &Lists, segments, queue, 2, draws.as_slice(), plan)?;
    Ok(has_all_batches(&list, PIECES / SPARSE))
}

/// Tests both with a deep plan, whose pieces are counted, and which is dropped at the end.
fn does_deep_plan_work<R: Threads + Sync>(rt: &R, alloc: Global, down_left: bool) -> Result<bool> {
    let segments = sparse_segments(alloc)?;
    let plan = nested_plan(alloc, down_left)?;
    Ok(
        plan.leaves() == PIECES as usize
            && does_plan_merge_all(rt, alloc, segments.as_slice(), &plan)?
            && does_schedule_read_all(alloc, segments.as_slice(), &plan)?,
    )
}

/// Tests both with a deep plan on a thread with a stack of 1 MiB.
fn does_deep_plan_work_on_small_stack<R: Threads + Send + Sync + Copy + Drop + 'static>(
    rt: R,
    alloc: Global,
    down_left: bool,
) -> Result<bool> {
    let thread = Builder::new()
        .stack_size(STACK)
        .spawn(&rt, move || does_deep_plan_work(&rt, alloc, down_left))?;
    thread.join(&rt)
}

/// Tests that plans which nest as deep as they have pieces are counted, merged and dropped on a stack of 1 MiB.
#[test]
fn plans_as_deep_as_lists_are_long_take_little_stack(rt: HostRuntime) {
    for &down_left in &[true, false] {
        let all = again!(does_deep_plan_work_on_small_stack(rt, rt.alloc(), down_left));
        assert!(rt; matches!(all, Ok(true)), "{down_left}");
    }
}

/// A gate that holds each worker back until so many segments were passed, and counts the workers that saw it.
#[derive(Drop)]
struct FullGate<R: Drop> {
    rt: R,
    all: u64,
    passed: AtomicU64,
    seen: AtomicU64,
}

impl<R: Clock + Send + Sync + Drop> Gate for FullGate<R> {
    /// Counts a pass, and waits for all others. Counts once more if all come in time.
    fn pass(&self, _segment: usize) {
        self.passed.fetch_add(1, Ordering::SeqCst);
        if wait_until_reached(&self.rt, &self.passed, self.all) {
            self.seen.fetch_add(1, Ordering::SeqCst);
        }
    }
}

/// Tests whether a hundred workers, each of which waits until all have drawn, make a hundred pieces, with all batches
/// in order.
fn do_hundred_workers_meet<R: Threads + Clock + Send + Sync + Copy + Drop>(
    rt: &R,
    alloc: Global,
) -> Result<bool> {
    let hundred = segments_with_batches(alloc, 100)?;
    let gate = FullGate {
        rt: *rt,
        all: 100,
        passed: AtomicU64::new(0),
        seen: AtomicU64::new(0),
    };
    let queue = LogQueue::Append;
    let list = replay_segments(rt, alloc, &Lists, hundred.as_slice(), queue, 100, &gate)?;
    Ok(has_all_batches(&list, 100) && gate.seen.load(Ordering::SeqCst) == 100)
}

/// Tests that a hundred workers make a piece each, and that these are merged in order.
#[test]
fn a_hundred_pieces_are_merged(rt: HostRuntime) {
    assert!(rt; matches!(again!(do_hundred_workers_meet(&rt, rt.alloc())), Ok(true)));
}
