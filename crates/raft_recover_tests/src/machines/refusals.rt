//! Tests that errors of a machine, of an argument and of a factory are passed on as they are.

use super::brackets::{Brackets, Dots};
use super::{join_plans, segment_with_batch};
use crate::waits::WaitGate;
use raft_base::{Error, Factory, LogQueue, Result};
use raft_recover::{Plan, Segment, replay_scheduled, replay_segments};
use raft_trials::again;
use std::alloc::Global;
use std::sync::atomic::{AtomicU64, Ordering};
use std::thread::Threads;
use std::time::Clock;

/// A factory that makes some machines, and refuses the next one.
#[derive(Drop)]
struct Few {
    given: u64,
    asked: AtomicU64,
}

impl Factory<Brackets> for Few {
    ghost use Rattle.std.specs.Prelude.{◌≤◌};

    ghost gives = { λ _ m. m.last ≤ 0 };

    ghost may_refuse = { λ _ _. Unit {0} };

    /// Returns a machine, as long as some are left.
    ///
    /// # Errors
    ///
    /// `TryAgain` once as many were made as this factory gives; `Memory`.
    fn new_target(&self, alloc: Global) -> Result<Brackets> {
        if self.asked.fetch_add(1, Ordering::SeqCst) == self.given {
            return Err(Error::TryAgain(String::new(alloc)));
        }
        Dots.new_target(alloc)
    }
}

/// Which error is expected.
#[derive(Clone, Copy, PartialEq, Eq, Debug)]
enum What {
    Machine,
    History,
    Queue,
}

/// Files of segments, the second of which is of the rewrite queue.
const MIXED: &[(LogQueue, u64)] = &[
    (LogQueue::Append, 0),
    (LogQueue::Rewrite, 1),
    (LogQueue::Append, 2),
];

/// Files of segments, the last of which is below the one before it.
const FALLING: &[(LogQueue, u64)] = &[
    (LogQueue::Append, 1),
    (LogQueue::Append, 2),
    (LogQueue::Append, 1),
];

const TWO: &[(LogQueue, u64)] = &[(LogQueue::Append, 0), (LogQueue::Append, 1)];

/// Whether one worker replays the segments, or a schedule of two pieces, the first of one segment; the files of the
/// segments; how many machines the factory makes; and the error.
const REFUSALS: [(bool, &[(LogQueue, u64)], u64, What); 8] = [
    (false, TWO, 0, What::Machine),
    (false, TWO, 1, What::Machine),
    (false, FALLING, 2, What::History),
    (false, MIXED, 0, What::Queue),
    (true, &[], 0, What::Machine),
    (true, TWO, 0, What::Machine),
    (true, FALLING, 1, What::History),
    (true, MIXED, 0, What::Queue),
];

/// Has one worker replay the segments, or two in a schedule.
fn replay_with_factory<R: Threads + Clock + Send + Sync + Drop>(
    rt: &R,
    alloc: Global,
    by_worker: bool,
    segments: &[Segment],
    few: &Few,
    gate: &WaitGate<R>,
) -> Result<Brackets> {
    let queue = LogQueue::Append;
    if by_worker {
        return replay_segments(rt, alloc, few, segments, queue, 1, gate);
    }
    let two = join_plans(alloc, Plan::One, Plan::One)?;
    replay_scheduled(alloc, few, segments, queue, 2, &[0, 1, 1], &two)
}

/// Returns the error, if there is one, and whether no segment was passed and no machine was made.
fn error_and_progress<R: Threads + Clock + Send + Sync + Copy + Drop>(
    rt: &R,
    alloc: Global,
    by_worker: bool,
    files: &[(LogQueue, u64)],
    given: u64,
) -> Result<(Option<What>, bool)> {
    let mut segments = Vec::new(alloc);
    for (queue, seq) in files {
        segments.push(segment_with_batch(alloc, *queue, *seq)?)?;
    }
    let asked = AtomicU64::new(0);
    let few = Few { given, asked };
    let gate = WaitGate::new(*rt, alloc, (0, 0), 0)?;
    let refused = match replay_with_factory(
        rt,
        alloc,
        by_worker,
        segments.as_slice(),
        &few,
        &gate,
    ) {
        Err(Error::TryAgain(_)) => Some(What::Machine),
        Err(Error::Corruption(_)) => Some(What::History),
        Err(Error::InvalidArgument(_)) => Some(What::Queue),
        Err(error) => return Err(error),
        Ok(_) => None,
    };
    let untouched = few.asked.load(Ordering::SeqCst) == 0
        && gate.passed.load(Ordering::SeqCst) == 0;
    Ok((refused, untouched))
}

/// Tests that each error is passed on as it is, and a part of another queue is refused before anything is done.
#[test]
fn errors_of_machines_are_returned_as_they_are(rt: HostRuntime) {
    for &(by_worker, files, given, what) in &REFUSALS {
        let answer = again!(error_and_progress(&rt, rt.alloc(), by_worker, files, given));
        assert!(rt;
            answer.is_ok_and(|(refused, untouched)| {
                refused == Some(what) && untouched == (what == What::Queue)
            }),
            "{what:?} by {by_worker}"
        );
    }
}
