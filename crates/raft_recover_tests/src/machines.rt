//! Tests tickets, plans, given schedules and workers, with a machine that keeps a list of batches.

mod brackets;
mod cut_parts;
pub(crate) mod list_machine;
mod many;
mod refusals;

use crate::waits::{WaitGate, Waits};
use list_machine::{List, Lists};
use raft_base::{Error, Factory, FileId, LogQueue, Result, Version};
use raft_records::FilePart;
use raft_recover::{
    Gate, Plan, Segment, Tickets, merge_pieces, piece_count, replay_scheduled, replay_segment,
    replay_segments,
};
use raft_trials::again;
use std::alloc::Global;
use std::sync::atomic::{AtomicU64, Ordering};
use std::thread::Threads;
use std::time::Clock;

/// A log batch of version 1: region 1 with `Clean`.
const CLEAN: &[u8; 24] =
    b"\x00\x00\x00\x00\x00\x00\x18\x00\x00\x00\x00\x00\x00\x00\x00\x10\x01\x01\x02\x01\x5a\x80\x0b\xdd";

/// Returns a segment of one batch, in file `seq` of a queue.
fn segment_with_batch(alloc: Global, queue: LogQueue, seq: u64) -> Result<Segment> {
    let id = FileId::new(queue, seq);
    let part = FilePart::new(id, Version::V1, 0, Vec::from_slice(alloc, CLEAN)?)?;
    let mut segment = Vec::new(alloc);
    segment.push(part)?;
    Ok(segment)
}

/// Returns `count` segments of one batch each, in append files numbered from 0 on.
fn segments_with_batches(alloc: Global, count: u64) -> Result<Vec<Segment>> {
    let mut segments = Vec::new(alloc);
    for seq in 0..count {
        segments.push(segment_with_batch(alloc, LogQueue::Append, seq)?)?;
    }
    Ok(segments)
}

/// Tests whether a list has the batches of [`segments_with_batches`], in order.
fn has_all_batches(list: &List, count: u64) -> bool {
    let mut seq = 0;
    for kept in &list.kept {
        if kept.file.seq != seq || seq >= count {
            return false;
        }
        seq += 1;
    }
    seq == count
}

/// Tests whether nothing is drawn where there are no tickets, and one step finds that out.
fn draws_nothing_without_tickets(alloc: Global) -> Result<bool> {
    let (tickets, mut seats) = Tickets::open(alloc, 0, 1)?;
    let Some(mut seat) = seats.pop() else {
        return Ok(false);
    };
    let none = tickets.draw(&mut seat);
    seats.push(seat)?;
    Ok(none.is_none() && tickets.close(seats) == 1)
}

/// Returns whether two seats draw three tickets in turn, each once, and how many steps that took.
fn draw_by_two_seats(alloc: Global) -> Result<(bool, usize)> {
    let (tickets, mut seats) = Tickets::open(alloc, 3, 2)?;
    let (Some(mut second), Some(mut first)) = (seats.pop(), seats.pop()) else {
        return Ok((false, 0));
    };
    let one = (tickets.draw(&mut first), tickets.draw(&mut second));
    let two = (tickets.draw(&mut first), tickets.draw(&mut second));
    let last = (tickets.draw(&mut second), tickets.draw(&mut first));
    seats.push(first)?;
    seats.push(second)?;
    let all = one == (Some(0), Some(1)) && two == (Some(2), None) && last == (None, None);
    Ok((all, tickets.close(seats)))
}

/// Tests that two seats draw three tickets in turn, and that no ticket is drawn where there are none.
#[test]
fn tickets_are_drawn_in_turn_and_once(rt: HostRuntime) {
    assert!(rt; matches!(again!(draw_by_two_seats(rt.alloc())), Ok((true, 5))));
    assert!(rt; matches!(again!(draws_nothing_without_tickets(rt.alloc())), Ok(true)));
}

/// Tests that tickets of too many numbers or seats, or of no seat, are refused.
#[test]
fn too_many_seats_are_refused(rt: HostRuntime) {
    for &(total, seats) in &[(1 << 62, 1), (3, 0), (3, 1 << 62)] {
        let refused = again!(Tickets::open(rt.alloc(), total, seats));
        assert!(rt; matches!(refused, Err(Error::InvalidArgument(_))));
    }
}

/// Tests how many pieces five segments make as draws say, and that none make no piece.
#[test]
fn pieces_of_a_schedule_are_counted(rt: HostRuntime) {
    for &(draws, pieces) in &[
        ([0, 1, 1, 0, 1].as_slice(), 4),
        ([0].as_slice(), 1),
        ([1].as_slice(), 2),
    ] {
        assert_eq!(rt; piece_count(5, draws), pieces);
        assert_eq!(rt; piece_count(0, draws), 0);
    }
}

/// Returns the plan that merges what two plans give.
pub(crate) fn join_plans(alloc: Global, left: Plan, right: Plan) -> Result<Plan> {
    Ok(Plan::Join(Box::new(alloc, left)?, Box::new(alloc, right)?))
}

/// Returns the plan that merges four pieces by pairs.
fn plan_of_pairs(alloc: Global) -> Result<Plan> {
    let left = join_plans(alloc, Plan::One, Plan::One)?;
    let right = join_plans(alloc, Plan::One, Plan::One)?;
    join_plans(alloc, left, right)
}

/// Returns the plan that merges so many pieces one by one, from the last one on.
pub(crate) fn plan_from_right(alloc: Global, pieces: usize) -> Result<Plan> {
    let mut plan = Plan::One;
    for _ in 1..pieces {
        plan = join_plans(alloc, Plan::One, plan)?;
    }
    Ok(plan)
}

/// Returns the batches of segments that workers draw as `draws` says, and a plan merges.
fn read_by_schedule(
    alloc: Global,
    segments: &[Segment],
    workers: usize,
    draws: &[usize],
    plan: &Plan,
) -> Result<List> {
    replay_scheduled(
        alloc,
        &Lists,
        segments,
        LogQueue::Append,
        workers,
        draws,
        plan,
    )
}

/// Returns `count` segments: the first has one batch, and each other one batch more than the one before it.
fn segments_of_rising_length(alloc: Global, count: u64) -> Result<Vec<Segment>> {
    let mut segments = Vec::new(alloc);
    for seq in 0..count {
        let mut rising = segment_with_batch(alloc, LogQueue::Append, seq)?;
        for _ in 0..seq {
            let mut one = segment_with_batch(alloc, LogQueue::Append, seq)?;
            rising.append(&mut one)?;
        }
        segments.push(rising)?;
    }
    Ok(segments)
}

/// Returns the batches of segments as one machine reads them, in order.
fn read_by_one_machine(alloc: Global, segments: &[Segment]) -> Result<List> {
    let mut list = Lists.new_target(alloc)?;
    for segment in segments {
        replay_segment(&mut list, segment)?;
    }
    Ok(list)
}

/// Tests whether `count` segments, drawn by two workers in a schedule for five, have the same batches as one reading,
/// and `batches` of them.
fn is_read_as_once(alloc: Global, count: u64, batches: usize, plan: &Plan) -> Result<bool> {
    let segments = segments_of_rising_length(alloc, count)?;
    let list = read_by_schedule(alloc, segments.as_slice(), 2, &[0, 1, 1, 0, 1], plan)?;
    let one = read_by_one_machine(alloc, segments.as_slice())?;
    Ok(list.kept.len() == batches && list.has_same_batches(&one))
}

/// Tests whether five segments that two workers draw make four pieces, which are merged in pairs, and one by one.
fn do_schedules_read_as_once(alloc: Global) -> Result<bool> {
    let pairs = plan_of_pairs(alloc)?;
    Ok(
        is_read_as_once(alloc, 5, 15, &pairs)?
            && is_read_as_once(alloc, 5, 15, &plan_from_right(alloc, 4)?)?
            && is_read_as_once(alloc, 0, 0, &pairs)?,
    )
}

/// How many workers there are, which of them draws each of five segments, and why that is refused with a plan for three
/// pieces; an empty text where it isn't.
const SCHEDULES: [(usize, &[usize], &str); 8] = [
    (2, &[0, 1, 1, 0, 0], ""),
    (256, &[0, 1, 1, 0, 0], ""),
    (2, &[0, 1, 1, 0, 1], "a plan of another number of pieces"),
    (2, &[0, 2, 2, 0, 0], "a draw of a worker that isn't there"),
    (2, &[0, 2], "a draw of a worker that isn't there"),
    // The sixth draw is of no segment.
    (
        2,
        &[0, 1, 1, 0, 0, 2],
        "a draw of a worker that isn't there",
    ),
    (
        0,
        &[0, 1, 1, 0, 0],
        "another number of workers than 1 to 256",
    ),
    (
        257,
        &[0, 1, 1, 0, 0],
        "another number of workers than 1 to 256",
    ),
];

/// Tests whether a schedule of `number` segments, with a plan for three pieces, is refused with this text, or read, if
/// it is empty.
fn is_schedule_refused_with(
    alloc: Global,
    number: u64,
    workers: usize,
    draws: &[usize],
    text: &str,
) -> Result<bool> {
    let segments = segments_with_batches(alloc, number)?;
    let three = plan_from_right(alloc, 3)?;
    match read_by_schedule(alloc, segments.as_slice(), workers, draws, &three) {
        Ok(list) => Ok(text.is_empty() && has_all_batches(&list, number)),
        Err(Error::InvalidArgument(told)) => Ok(told.as_str() == text),
        Err(error) => Err(error),
    }
}

/// Tests whether each schedule is refused or read as its row says; and whether any plan fits where there are no
/// segments.
fn are_misfits_refused(alloc: Global) -> Result<bool> {
    for &(workers, draws, text) in &SCHEDULES {
        if !is_schedule_refused_with(alloc, 5, workers, draws, text)? {
            return Ok(false);
        }
    }
    Ok(
        is_schedule_refused_with(alloc, 0, 2, &[1], "")?
            && is_schedule_refused_with(alloc, 0, 2, &[2], "a draw of a worker that isn't there")?,
    )
}

/// Tests that schedules whose draws, workers or plan don't fit the segments are refused.
#[test]
fn schedules_that_dont_fit_are_refused(rt: HostRuntime) {
    assert!(rt; matches!(again!(are_misfits_refused(rt.alloc())), Ok(true)));
}

/// Tests that segments that two workers draw give the batches of one reading, however they are merged.
#[test]
fn schedules_give_one_reading(rt: HostRuntime) {
    assert!(rt; matches!(again!(do_schedules_read_as_once(rt.alloc())), Ok(true)));
}

/// A gate that notes which segments were passed, and how many.
#[derive(Drop)]
struct ToldGate {
    /// A bit for each segment below 64 that was passed; `high` has those from 64 on.
    low: AtomicU64,
    high: AtomicU64,
    count: AtomicU64,
}

impl Gate for ToldGate {
    /// Notes that `segment`, below 128, was passed, and counts the pass.
    fn pass(&self, segment: usize) {
        let bit = 1u64 << (segment % 64);
        match segment / 64 {
            0 => self.low.fetch_or(bit, Ordering::SeqCst),
            1 => self.high.fetch_or(bit, Ordering::SeqCst),
            _ => 0,
        };
        self.count.fetch_add(1, Ordering::SeqCst);
    }
}

impl ToldGate {
    /// Tests whether the segments 0 to 99 were passed, each once.
    fn was_told_hundred_segments(&self) -> bool {
        self.low.load(Ordering::SeqCst) == u64::MAX
            && self.high.load(Ordering::SeqCst) == (1 << 36) - 1
            && self.count.load(Ordering::SeqCst) == 100
    }
}

/// Tests whether so many workers read a hundred segments, and pass each once.
fn is_read_by_workers<R: Threads + Sync>(rt: &R, alloc: Global, workers: usize) -> Result<bool> {
    let hundred = segments_with_batches(alloc, 100)?;
    let gate = ToldGate {
        low: AtomicU64::new(0),
        high: AtomicU64::new(0),
        count: AtomicU64::new(0),
    };
    let queue = LogQueue::Append;
    let list = replay_segments(rt, alloc, &Lists, hundred.as_slice(), queue, workers, &gate)?;
    Ok(has_all_batches(&list, 100) && gate.was_told_hundred_segments())
}

/// Tests that 1 to 256 workers read all segments in order, and other numbers are refused.
#[test]
fn workers_give_one_reading(rt: HostRuntime) {
    for &workers in &[1, 2, 4, 256] {
        assert!(rt;
            matches!(
                again!(is_read_by_workers(&rt, rt.alloc(), workers)),
                Ok(true)
            )
        );
    }
    for &workers in &[0, 257] {
        let refused = again!(is_read_by_workers(&rt, rt.alloc(), workers));
        assert!(rt; matches!(refused, Err(Error::InvalidArgument(_))));
    }
}

/// Tests whether two workers read three segments with a gate that holds one segment back until all were passed. `held`
/// is the range of the segments that it holds back.
fn do_workers_pass_held_segment<R: Threads + Clock + Send + Sync + Copy + Drop>(
    rt: &R,
    alloc: Global,
    held: (usize, usize),
) -> Result<bool> {
    let three = segments_with_batches(alloc, 3)?;
    let gate = WaitGate::new(*rt, alloc, held, 3)?;
    let list = replay_segments(
        rt,
        alloc,
        &Lists,
        three.as_slice(),
        LogQueue::Append,
        2,
        &gate,
    )?;
    let seen = gate.seen.load(Ordering::SeqCst);
    Ok(has_all_batches(&list, 3) && seen == 1)
}

/// Tests that a worker that is held back holds no other one back.
#[test]
fn no_worker_waits_for_another(rt: HostRuntime) {
    for &held in &[(0, 1), (1, 2)] {
        assert!(rt;
            matches!(
                again!(do_workers_pass_held_segment(&rt, rt.alloc(), held)),
                Ok(true)
            )
        );
    }
}

/// Merges four machines of a batch each in pairs. Returns whether all batches are there, in order, and how many merges
/// saw that two had begun.
fn merge_four_at_once<R: Threads + Clock + Send + Sync + Copy + Drop>(
    rt: &R,
    alloc: Global,
) -> Result<(bool, u64)> {
    let gate = WaitGate::new(*rt, alloc, (0, 0), 0)?;
    let mut machines = Vec::new(alloc);
    for seq in 0..4 {
        let mut machine = gate.new_target(alloc)?;
        replay_segment(
            &mut machine,
            &segment_with_batch(alloc, LogQueue::Append, seq)?,
        )?;
        machines.push(machine)?;
    }
    let merged = merge_pieces(rt, machines, &plan_of_pairs(alloc)?, LogQueue::Append)?;
    Ok((
        has_all_batches(&merged.list, 4),
        gate.seen.load(Ordering::SeqCst),
    ))
}

/// Has four workers replay four segments. Returns whether all batches are there, in order; and the sum of how many of
/// the four passes saw that all were passed, how many of the four replays saw that their segment was passed, and how
/// many of the three merges saw that two had begun.
fn replay_four_at_once<R: Threads + Clock + Send + Sync + Copy + Drop>(
    rt: &R,
    alloc: Global,
) -> Result<(bool, u64)> {
    let four = segments_with_batches(alloc, 4)?;
    let gate = WaitGate::new(*rt, alloc, (0, 4), 4)?;
    let merged: Waits<R> = replay_segments(
        rt,
        alloc,
        &gate,
        four.as_slice(),
        LogQueue::Append,
        4,
        &gate,
    )?;
    Ok((
        has_all_batches(&merged.list, 4),
        gate.seen.load(Ordering::SeqCst),
    ))
}

/// Tests that merges of different pieces, and workers on different segments, run at the same time.
#[test]
fn workers_and_merges_run_at_once(rt: HostRuntime) {
    assert!(rt; matches!(again!(merge_four_at_once(&rt, rt.alloc())), Ok((true, 3))));
    assert!(rt; matches!(again!(replay_four_at_once(&rt, rt.alloc())), Ok((true, 11))));
}
