//! Replays segments by several workers, each of which always takes the next segment that is left.

ghost use Rattle.std.specs.Prelude.{◌≡◌, ◌≢◌, ◌+◌, ◌^◌, ◌<◌, ◌≤◌, List, [], length, All, IfOk, IfErr, IfNone, OnOk, OnErr, OnSome, Vec, vec_len};
ghost use Rattle.raft_replay.specs.Common.{Global, Part, IsInvalidArgument, IsPieceOf, CoverOnce, AreDone, Gives, Tickets, IsSeatOf, IsNewSeatOf, IsBack, IsWork, HasRefusal, CannotBeRead, MayReplay, SegmentsAreOf, IsReplayed};

use crate::piece::Piece;
use crate::pieces::{MAX_LEVELS, merge_in_parallel};
use crate::scheduled::are_segments_of_queue;
use crate::{Gate, Plan, Segment};
use raft_base::{Error, Factory, LogQueue, Result};
use raft_history::ReplayMachine;
use raft_tickets::{TicketSeat, Tickets};
use std::alloc::Global;
use std::thread;
use std::thread::Threads;

/// The greatest number of workers.
pub const MAX_WORKERS: usize = 256;

/// What the number of segments must stay below, since [`Tickets::open`] wants it so.
pub const SEGMENT_LIMIT: usize = 1 << 62;

/// Replays all segments by `workers` workers, 1 to 256, and returns one machine. Each worker draws the next
/// segment that is left, calls `gate` with its number, and replays it. The machines, or pieces, are then
/// merged by halves. The result is the same however the batches are divided into segments, and whatever turns
/// the workers take: the machine stands for all batches in order, as [`ReplayMachine`] defines it. It does so
/// exactly if no group shares a region with a batch or a group that it overlaps. The machines that `factory`
/// makes must stand for no batch.
///
/// No more workers are started than there are segments. The caller does the work of one for which no thread
/// can be started. A worker that draws two segments in a row replays both into one machine; otherwise it
/// begins a new one, and all are held until the last segment is replayed. So hand in few segments, one to
/// four for each worker, of about one size.
///
/// # Errors
///
/// `InvalidArgument` for another number of workers, for 2^62 segments or more, and for a part of another
/// queue than `queue`; `Memory`; the factory's own. Any other comes only if a part isn't a sequence of
/// readable batches, or all batches, in order, can't be read.
pub fn replay_segments<M: ReplayMachine, F: Factory<M>, G: Gate, R: Threads + Sync>(
    rt: &R,
    alloc: Global,
    factory: &F,
    segments: &[Segment],
    queue: LogQueue,
    workers: usize,
    gate: &G,
) -> Result<M>
    requires { (m : M) → F.gives factory.now m → M.stands_exactly m [] }
    ensures ok { IfOk result (IsReplayed M.stands_for M.stands_exactly segments.entry.now) }
    ensures accepted { OnOk result (MayReplay queue workers segments.entry.now) }
    ensures refused { MayReplay queue workers segments.entry.now
        → IfErr result (λ e. e ≢ Error.Memory → ¬ (F.may_refuse factory.entry.now e)
        → CannotBeRead segments.entry.now) }
    ensures fault { ¬ (MayReplay queue workers segments.entry.now)
        → IfErr result (λ e. e ≢ Error.Memory → IsInvalidArgument e) }
{
    check_arguments(alloc, segments, queue, workers)?;
    replay_accepted(rt, alloc, factory, segments, queue, workers, gate)
}

/// Replays all segments by `workers` workers, as [`replay_segments`] does, without a check of its arguments:
/// call [`check_arguments`] first.
///
/// # Errors
///
/// `Memory`; the factory's own. Any other comes only if a part isn't a sequence of readable batches, or all
/// batches, in order, can't be read.
#[doc(hidden)]
pub fn replay_accepted<M: ReplayMachine, F: Factory<M>, G: Gate, R: Threads + Sync>(
    rt: &R,
    alloc: Global,
    factory: &F,
    segments: &[Segment],
    queue: LogQueue,
    workers: usize,
    gate: &G,
) -> Result<M>
    requires factory { (m : M) → F.gives factory.now m → M.stands_exactly m [] }
    requires accepted { MayReplay queue workers segments.now }
    ensures ok { IfOk result (IsReplayed M.stands_for M.stands_exactly segments.entry.now) }
    ensures refused { IfErr result (λ e. e ≢ Error.Memory → ¬ (F.may_refuse factory.entry.now e)
        → CannotBeRead segments.entry.now) }
{
    let pieces = replay_into_pieces(rt, alloc, factory, segments, workers, gate)?;
    let machines = Piece::machines_in_order(alloc, pieces)?;
    if machines.is_empty() {
        return factory.new_target(alloc);
    }
    let plan = Plan::halves(alloc, machines.len())?;
    merge_in_parallel(rt, machines, &plan, queue, MAX_LEVELS)
}

/// Checks that `workers` workers may replay these segments of `queue`, as [`replay_segments`] asks.
///
/// # Errors
///
/// `InvalidArgument` for another number of workers than 1 to 256, for a part of another queue and for 2^62
/// segments or more; `Memory` if there is none for the text.
#[doc(hidden)]
pub fn check_arguments(
    alloc: Global,
    segments: &[Segment],
    queue: LogQueue,
    workers: usize,
) -> Result<()>
    ensures ok { OnOk result (MayReplay queue workers segments.entry.now) }
    ensures err { OnErr result (¬ (MayReplay queue workers segments.entry.now)) }
    ensures fault { IfErr result (λ e. e ≢ Error.Memory → IsInvalidArgument e) }
{
    if let Some(fault) = argument_fault(segments, queue, workers) {
        return Err(Error::invalid_argument(alloc, fault));
    }
    if segments.len() >= SEGMENT_LIMIT {
        return Err(Error::invalid_argument(alloc, "2^62 segments or more"));
    }
    Ok(())
}

/// Returns why `workers` workers may not replay these segments of `queue`, in words: another number than 1 to
/// 256, or a part of another queue. Returns `None` if they may.
pub(crate) fn argument_fault(
    segments: &[Segment],
    queue: LogQueue,
    workers: usize,
) -> Option<&'static str>
    ensures none { IfNone result ((0 < workers) × (workers ≤ 256)
        × SegmentsAreOf queue segments.entry.now) }
    ensures some { OnSome result ((0 < workers) × (workers ≤ 256)
        × SegmentsAreOf queue segments.entry.now → ⊥) }
{
    if workers == 0 || workers > MAX_WORKERS {
        return Some("another number of workers than 1 to 256");
    }
    if !are_segments_of_queue(segments, queue) {
        return Some("a part of another queue");
    }
    None
}

/// Runs as many of `workers` workers as there are segments for, and returns the pieces that they made of all
/// `segments`, in no set order.
///
/// # Errors
///
/// Those of [`replay_accepted`]. All pieces are dropped then.
fn replay_into_pieces<M: ReplayMachine, F: Factory<M>, G: Gate, R: Threads + Sync>(
    rt: &R,
    alloc: Global,
    factory: &F,
    segments: &[Segment],
    workers: usize,
    gate: &G,
) -> Result<Vec<Piece<M>>>
    requires factory { (m : M) → F.gives factory.now m → M.stands_exactly m [] }
    requires workers { (0 < workers) × (workers ≤ 256) × (length segments.now < 2 ^ 62) }
    ensures pieces { IfOk result (λ v. All (IsPieceOf M.stands_exactly segments.entry.now)
        v.items) }
    ensures tile { IfOk result (λ v. CoverOnce segments.entry.now v.items) }
    ensures refused { IfErr result (λ e. e ≢ Error.Memory → ¬ (F.may_refuse factory.entry.now e)
        → CannotBeRead segments.entry.now) }
{
    let count = workers.min(segments.len());
    if count == 0 {
        return Ok(Vec::new(alloc));
    }
    let (tickets, seats) = Tickets::open(alloc, segments.len(), count)?;
    let worked = run_workers(rt, alloc, factory, segments, &tickets, gate, seats)?;
    let (seats, pieces) = collect_seats_and_pieces(worked)?;
    tickets.close(seats);
    Ok(pieces)
}

/// Returns all seats and all pieces of `worked`, which is what each worker gave back.
///
/// # Errors
///
/// That of the first worker, in order, that had one; `Memory`. All pieces are dropped then.
fn collect_seats_and_pieces<M: ReplayMachine>(
    worked: Vec<Worked<M>>,
) -> Result<(Vec<TicketSeat>, Vec<Piece<M>>)>
    ensures ok { (segments : List (Vec Part Global)) (tickets : Tickets)
        → All (IsBack M.stands_exactly segments tickets) worked.items
        → IfOk result (λ r. AreDone M.stands_exactly segments tickets r.0.items r.1.items) }
    ensures count { IfOk result (λ r. vec_len r.0 ≡ vec_len worked) }
    ensures refused { IfErr result (λ e. e ≢ Error.Memory → HasRefusal worked.items e) }
{
    let alloc = *worked.allocator();
    let mut seats = Vec::with_capacity(alloc, worked.len())?;
    let mut pieces = Vec::new(alloc);
    for Worked { seat, pieces: made } in worked {
        let mut made = made?;
        pieces.append(&mut made)?;
        seats.push(seat)?;
    }
    Ok((seats, pieces))
}

/// What a worker gives back: its seat, and its pieces or the error that ended it. What they always are stands
/// in the contract of the closure that workers run (`IsWork`).
#[derive(Drop)]
struct Worked<M: ReplayMachine> {
    /// The seat by which the worker drew.
    seat: TicketSeat,
    /// What it made of the segments that it drew, or the error that ended it.
    pieces: Result<Vec<Piece<M>>>,
}

/// Runs a worker for each of `seats`, all at the same time, and returns what each gave back, in the order of
/// the seats.
///
/// # Errors
///
/// `Memory` alone. The error of a worker is in what it gave back.
fn run_workers<M: ReplayMachine, F: Factory<M>, G: Gate, R: Threads + Sync>(
    rt: &R,
    alloc: Global,
    factory: &F,
    segments: &[Segment],
    tickets: &Tickets,
    gate: &G,
    seats: Vec<TicketSeat>,
) -> Result<Vec<Worked<M>>>
    requires factory { (m : M) → F.gives factory.now m → M.stands_exactly m [] }
    requires seats { All (IsNewSeatOf tickets.now) seats.items }
    requires total { tickets.now.total ≡ length segments.now }
    ensures given { IfOk result (λ v. All (IsWork M.stands_exactly
        (F.may_refuse factory.entry.now) segments.entry.now tickets.entry.now) v.items) }
    ensures count { IfOk result (λ v. vec_len v ≡ vec_len seats) }
    ensures fault { IfErr result (λ e. e ≡ Error.Memory) }
{
    let one = |mut seat: TicketSeat| -> Worked<M>
        requires { IsNewSeatOf tickets.now seat × (tickets.now.total ≡ length segments.now)
            × ((m : M) → F.gives factory.now m → M.stands_exactly m []) }
        ensures { IsWork M.stands_exactly (F.may_refuse factory.entry.now) segments.entry.now
            tickets.entry.now result }
    {
        let pieces = replay_drawn_segments(alloc, factory, segments, tickets, gate, &mut seat);
        Worked { seat, pieces }
    };
    Ok(thread::map_vec(rt, seats, &one)?)
}

/// Replays those of `segments` that one worker draws with `seat`, until none is left, and returns its pieces.
///
/// # Errors
///
/// The factory's own, those of [`replay_segment`], and `Memory`. The worker draws no further segments then,
/// and its pieces are dropped.
fn replay_drawn_segments<M: ReplayMachine, F: Factory<M>, G: Gate>(
    alloc: Global,
    factory: &F,
    segments: &[Segment],
    tickets: &Tickets,
    gate: &G,
    seat: &mut TicketSeat,
) -> Result<Vec<Piece<M>>>
    requires factory { (m : M) → F.gives factory.now m → M.stands_exactly m [] }
    requires seat { IsNewSeatOf tickets.now seat.old }
    requires total { tickets.now.total ≡ length segments.now }
    ensures seat { IsSeatOf tickets.entry.now seat.new }
    ensures given { Gives M.stands_exactly (F.may_refuse factory.entry.now) segments.entry.now
        seat.new.drawn result }
{
    let mut pieces = Vec::new(alloc);
    while let Some(number) = tickets.draw(seat) {
        gate.pass(number);
        let piece = Piece::take_last_or_begin(alloc, factory, &mut pieces, number)?;
        pieces.push(piece.replay_next(segments)?)?;
    }
    Ok(pieces)
}
