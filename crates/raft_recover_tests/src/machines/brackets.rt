//! A machine that writes down what was replayed and merged, and tests of what it writes.

use crate::machines::{plan_from_right, plan_of_pairs, segments_with_batches};
use crate::waits::WaitGate;
use raft_base::{Error, Factory, FileId, LogQueue, Result};
use raft_records::LogItemBatch;
use raft_recover::{Plan, ReplayMachine, merge_pieces, replay_scheduled, replay_segments};
use raft_trials::again;
use std::alloc::Global;
use std::sync::atomic::Ordering;
use std::thread::Threads;
use std::time::Clock;

/// A machine that is a text: a dot for a new machine, a stroke for each batch, and brackets around what was merged. It
/// refuses a batch in a file below that of the batch before.
#[derive(Drop)]
pub(crate) struct Brackets {
    text: String,
    pub(crate) last: u64,
}

impl ReplayMachine for Brackets {
    ghost use Rattle.std.specs.Prelude.{◌≤◌};
    ghost use Rattle.raft_memtable.specs.Histories.{last_from};

    ghost stands_for = { λ m h. m.last ≤ last_from 0 h };

    ghost stands_exactly = { λ m h. m.last ≤ last_from 0 h };

    ghost exact_stands = { λ m h e. e };

    /// Appends `/` to the text, which stands for a batch.
    ///
    /// # Errors
    ///
    /// `Corruption` if `file_id` is below the last file; `Memory`.
    fn replay(&mut self, _batch: LogItemBatch, file_id: FileId) -> Result<()> {
        if file_id.seq < self.last {
            return Err(Error::Corruption(String::new(*self.text.allocator())));
        }
        self.text.push('/')?;
        self.last = file_id.seq;
        Ok(())
    }

    /// Puts the texts of both machines, in brackets, in place of this one's.
    ///
    /// # Errors
    ///
    /// `Memory` alone.
    fn merge(&mut self, rhs: Self, _queue: LogQueue) -> Result<()> {
        let mut text = String::new(*self.text.allocator());
        write!(text, "({}{})", self.text, rhs.text)?;
        self.text = text;
        self.last = rhs.last;
        Ok(())
    }
}

/// Makes machines that have replayed nothing.
pub(crate) struct Dots;

impl Factory<Brackets> for Dots {
    ghost use Rattle.std.specs.Prelude.{◌≤◌};

    ghost gives = { λ _ m. m.last ≤ 0 };

    ghost may_refuse = { λ _ e. ⊥ };

    /// Returns a machine with the text `.`.
    ///
    /// # Errors
    ///
    /// `Memory` alone.
    fn new_target(&self, alloc: Global) -> Result<Brackets> {
        Ok(Brackets {
            text: String::from_str(alloc, ".")?,
            last: 0,
        })
    }
}

/// Returns the text of five segments that two workers draw as `draws` says, and a plan merges.
fn text_of_schedule(alloc: Global, draws: &[usize], plan: &Plan) -> Result<String> {
    let five = segments_with_batches(alloc, 5)?;
    let queue = LogQueue::Append;
    let machine = replay_scheduled(alloc, &Dots, five.as_slice(), queue, 2, draws, plan)?;
    Ok(machine.text)
}

/// Returns the text of `count` new machines that a plan merges.
fn text_of_new_machines<R: Threads + Sync>(
    rt: &R,
    alloc: Global,
    count: usize,
    plan: &Plan,
) -> Result<String> {
    let mut machines = Vec::new(alloc);
    for _ in 0..count {
        machines.push(Dots.new_target(alloc)?)?;
    }
    Ok(merge_pieces(rt, machines, plan, LogQueue::Append)?.text)
}

/// Tests whether pieces are made as draws say, and merged as each of two plans says.
fn do_plans_decide_merges<R: Threads + Sync>(rt: &R, alloc: Global) -> Result<bool> {
    Ok(
        is_text_of_plan(
            rt,
            alloc,
            &plan_of_pairs(alloc)?,
            "((././/)(././))",
            "((..)(..))",
        )? && is_text_of_plan(
            rt,
            alloc,
            &plan_from_right(alloc, 4)?,
            "(./(.//(././)))",
            "(.(.(..)))",
        )?,
    )
}

/// Tests whether a plan gives the text `drawn` for five segments that two workers draw, and `new` for four new
/// machines.
fn is_text_of_plan<R: Threads + Sync>(
    rt: &R,
    alloc: Global,
    plan: &Plan,
    drawn: &str,
    new: &str,
) -> Result<bool> {
    Ok(
        text_of_schedule(alloc, &[0, 1, 1, 0, 1], plan)?.as_str() == drawn
            && text_of_new_machines(rt, alloc, 4, plan)?.as_str() == new,
    )
}

/// Tests whether worker 0 draws the segments behind the end of the draws, and a plan of four pieces doesn't merge
/// another number of them.
fn do_schedules_end_by_rule<R: Threads + Sync>(rt: &R, alloc: Global) -> Result<bool> {
    if text_of_schedule(alloc, &[1], &plan_from_right(alloc, 2)?)?.as_str() != "(././///)" {
        return Ok(false);
    }
    let pairs = plan_of_pairs(alloc)?;
    for &count in &[0, 3, 5] {
        match text_of_new_machines(rt, alloc, count, &pairs) {
            Err(Error::InvalidArgument(_)) => {}
            Err(error) => return Err(error),
            Ok(_) => return Ok(false),
        }
    }
    Ok(true)
}

/// Tests that pieces are made as draws say, and merged as the plan says.
#[test]
fn pieces_are_merged_as_the_plan_says(rt: HostRuntime) {
    assert!(rt; matches!(again!(do_plans_decide_merges(&rt, rt.alloc())), Ok(true)));
    assert!(rt; matches!(again!(do_schedules_end_by_rule(&rt, rt.alloc())), Ok(true)));
}

/// How many workers replay how many segments, how many of these, from the first on, wait until all are passed, and the
/// text. A piece is a row of segments that one worker drew; pieces are merged in halves.
const WORKED: [(usize, u64, usize, &str); 3] = [
    (1, 5, 0, "./////"),
    (2, 5, 1, "(././///)"),
    (4, 4, 4, "((././)(././))"),
];

/// Tests whether workers who replay segments, of which `waiting` wait, give this text, and as many segments have
/// waited.
fn is_text_of_workers<R: Threads + Clock + Send + Sync + Copy + Drop>(
    rt: &R,
    alloc: Global,
    workers: usize,
    count: u64,
    waiting: usize,
    text: &str,
) -> Result<bool> {
    let segments = segments_with_batches(alloc, count)?;
    let gate = WaitGate::new(*rt, alloc, (0, waiting), count)?;
    let queue = LogQueue::Append;
    let machine = replay_segments(rt, alloc, &Dots, segments.as_slice(), queue, workers, &gate)?;
    let seen = gate.seen.load(Ordering::SeqCst);
    Ok(machine.text.as_str() == text && seen == waiting as u64)
}

/// Tests for several numbers of workers which pieces they make, and that these are merged by halves.
#[test]
fn workers_make_pieces_and_merge_them_by_halves(rt: HostRuntime) {
    for &(workers, count, waiting, text) in &WORKED {
        let worked = again!(is_text_of_workers(&rt, rt.alloc(), workers, count, waiting, text));
        assert!(rt; matches!(worked, Ok(true)), "{workers} workers");
    }
}
