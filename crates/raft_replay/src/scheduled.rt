//! Replays segments by a given schedule, on one thread.

ghost use Rattle.std.specs.Prelude.{◌≡◌, ◌≢◌, ◌+◌, ◌^◌, ◌<◌, ◌↔◌, All, EachIndex, List, [], length, slice_index, IfOk, IfErr, IfNone, OnOk, OnSome, IsTrue, if◌then◌else◌, vec_len, Vec};
ghost use Rattle.raft_replay.specs.Common.{Global, Part, IsInvalidArgument, leaves, IsUnderway, CannotBeRead, SegmentsAreOf, IsReplayed, IsSchedule, switches, count_below, pieces_in};

use crate::pieces::merge_one_by_one;
use crate::workers::argument_fault;
use crate::{Plan, Segment, replay_segment};
use raft_base::{Error, Factory, LogQueue, Result};
use raft_history::ReplayMachine;
use raft_records::FilePart;
use std::alloc::Global;

/// Replays segments on the caller's thread as `workers` threads would in one given schedule, so that a
/// schedule can be repeated. `draws[n]` is the number, from 0, of the worker that draws segment `n`; after
/// the end of `draws` worker 0 draws. A worker that draws two segments in a row replays both into one
/// machine. Otherwise a new piece begins, in a machine that `factory` makes and that stands for no batch yet.
/// [`piece_count`] says how many pieces there are, and `plan` in what order they are merged. Without segments
/// it returns a new machine, whatever the plan.
///
/// # Errors
///
/// `InvalidArgument` if `workers` isn't 1 to 256, if a part is of another queue than `queue`, if `draws`
/// names a worker that isn't below `workers`, or if `plan` isn't for as many pieces as there are; `Memory`;
/// the factory's own. Any other comes only if a part isn't a sequence of readable batches, or all batches, in
/// order, can't be read.
pub fn replay_scheduled<M: ReplayMachine, F: Factory<M>>(
    alloc: Global,
    factory: &F,
    segments: &[Segment],
    queue: LogQueue,
    workers: usize,
    draws: &[usize],
    plan: &Plan,
) -> Result<M>
    requires { (m : M) → F.gives factory.now m → M.stands_exactly m [] }
    ensures ok { IfOk result (IsReplayed M.stands_for M.stands_exactly segments.entry.now) }
    ensures accepted { OnOk result (IsSchedule segments.entry.now queue workers draws.entry.now
        plan.entry.now) }
    ensures refused { IsSchedule segments.entry.now queue workers draws.entry.now plan.entry.now
        → IfErr result (λ e. e ≢ Error.Memory → ¬ (F.may_refuse factory.entry.now e)
        → CannotBeRead segments.entry.now) }
    ensures fault { (IsSchedule segments.entry.now queue workers draws.entry.now plan.entry.now → ⊥)
        → IfErr result (λ e. e ≢ Error.Memory → IsInvalidArgument e) }
{
    if let Some(fault) = schedule_fault(segments, queue, workers, draws, plan) {
        return Err(Error::invalid_argument(alloc, fault));
    }
    let mut machines = Vec::new(alloc);
    let last = replay_in_order(alloc, factory, segments, draws, &mut machines)?;
    if segments.is_empty() {
        return Ok(last);
    }
    machines.push(last)?;
    merge_one_by_one(machines, plan, queue)
}

/// Returns how many pieces [`replay_scheduled`] makes of `segments` segments if `draws` names the workers
/// that draw them. It is 0 without segments.
pub fn piece_count(segments: usize, draws: &[usize]) -> usize
    ensures { result ≡ pieces_in segments draws.now }
{
    if segments == 0 {
        return 0;
    }
    let mut pieces = 1;
    for n in 1..segments {
        pieces += usize::from(is_worker_change(draws, n));
    }
    pieces
}

/// Tests whether segment `n` is drawn by another worker than the segment before it. False for segment 0.
fn is_worker_change(draws: &[usize], n: usize) -> bool
    ensures { result ≡ switches draws.now n }
{
    n > 0 && worker_of_segment(draws, n) != worker_of_segment(draws, n - 1)
}

/// Returns the number of the worker that draws segment `n`. It is 0 after the end of `draws`.
fn worker_of_segment(draws: &[usize], n: usize) -> usize
    ensures { result ≡ slice_index draws.now n }
{
    if n < draws.len() { draws[n] } else { 0 }
}

/// Returns why `workers` workers can't replay `segments` of `queue` by the schedule of `draws` and `plan`, in
/// words, or `None` if they can.
fn schedule_fault(
    segments: &[Segment],
    queue: LogQueue,
    workers: usize,
    draws: &[usize],
    plan: &Plan,
) -> Option<&'static str>
    ensures none { IfNone result (IsSchedule segments.entry.now queue workers draws.entry.now
        plan.entry.now) }
    ensures some { OnSome result (IsSchedule segments.entry.now queue workers draws.entry.now
        plan.entry.now → ⊥) }
{
    if let Some(fault) = argument_fault(segments, queue, workers) {
        return Some(fault);
    }
    if !are_known_workers(draws, workers) {
        return Some("a draw of a worker that isn't there");
    }
    if !fits_piece_count(plan, segments.len(), draws) {
        return Some("a plan of another number of pieces");
    }
    None
}

/// Tests whether each number in `draws` is below `workers`, and so that of a worker.
fn are_known_workers(draws: &[usize], workers: usize) -> bool
    ensures { IsTrue result ↔ EachIndex draws.now (λ n. slice_index draws.now n < workers) }
{
    draws.iter().all(|worker| *worker < workers)
}

/// Tests whether `plan` is for as many pieces as `draws` makes of `segments` segments. Without segments any
/// plan is.
fn fits_piece_count(plan: &Plan, segments: usize, draws: &[usize]) -> bool
    requires { segments + 1 < 2 ^ 64 }
    ensures { IsTrue result ↔ (0 < segments → leaves plan.now ≡ pieces_in segments draws.now) }
{
    segments == 0 || plan.leaves() == piece_count(segments, draws)
}

/// Tests whether all parts of all segments are of files of `queue`.
pub(crate) fn are_segments_of_queue(segments: &[Segment], queue: LogQueue) -> bool
    ensures { IsTrue result ↔ SegmentsAreOf queue segments.now }
{
    segments
        .iter()
        .all(|segment| are_parts_of_queue(segment, queue))
}

/// Tests whether all parts of one segment are of files of `queue`.
fn are_parts_of_queue(parts: &Vec<FilePart>, queue: LogQueue) -> bool
    ensures { IsTrue result ↔ All (λ part. part.id.queue ≡ queue) parts.now.items }
{
    parts.iter().all(|part| part.id().queue == queue)
}

/// Replays `segments` in order, a new machine beginning wherever `draws` changes the worker. Returns the last
/// machine; those before it are appended to `machines`, which must be empty.
///
/// # Errors
///
/// The factory's own, those of [`replay_segment`], and `Memory`.
fn replay_in_order<M: ReplayMachine, F: Factory<M>>(
    alloc: Global,
    factory: &F,
    segments: &[Segment],
    draws: &[usize],
    machines: &mut Vec<M>,
) -> Result<M>
    requires factory { (m : M) → F.gives factory.now m → M.stands_exactly m [] }
    requires none { machines.old.items ≡ [] }
    ensures ok { IfOk result (IsUnderway M.stands_exactly segments.entry.now machines.new.items) }
    ensures count { OnOk result (vec_len machines.new
        ≡ count_below (switches draws.entry.now) (length segments.entry.now)) }
    ensures refused { IfErr result (λ e. e ≢ Error.Memory → ¬ (F.may_refuse factory.entry.now e)
        → CannotBeRead segments.entry.now) }
{
    let mut current = factory.new_target(alloc)?;
    for (n, segment) in segments.iter().enumerate() {
        current = next_machine(
            alloc,
            factory,
            machines,
            current,
            is_worker_change(draws, n),
        )?;
        replay_segment(&mut current, segment)?;
    }
    Ok(current)
}

/// Returns the machine for the next segment: `current`, or a new one if `changes` says that another worker
/// draws it. `current` is then appended to `machines`.
///
/// # Errors
///
/// The factory's own, and `Memory`.
fn next_machine<M: ReplayMachine, F: Factory<M>>(
    alloc: Global,
    factory: &F,
    machines: &mut Vec<M>,
    current: M,
    changes: bool,
) -> Result<M>
    requires { (m : M) → F.gives factory.now m → M.stands_exactly m [] }
    ensures ok { IfOk result (λ m. (segments : List (Vec Part Global))
        → IsUnderway M.stands_exactly segments machines.old.items current
        → IsUnderway M.stands_exactly segments machines.new.items m) }
    ensures count { OnOk result (vec_len machines.new ≡ vec_len
        machines.old + (if changes then 1 else 0)) }
    ensures err { IfErr result (λ e. e ≢ Error.Memory → F.may_refuse factory.entry.now e) }
{
    if !changes {
        return Ok(current);
    }
    machines.push(current)?;
    factory.new_target(alloc)
}
