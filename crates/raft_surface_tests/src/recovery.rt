//! Segments, plans, tickets, workers and what the program does, from `raft_recover`.
//!
//! Each function pins names or types: it compiles only as long as these are there as it writes them. None is called for
//! its effect, but where the test at the end says so.

use raft_records::LogFileContext;
use raft_recover::files::file_segments;
use raft_recover::recovered::recovered_text;
use raft_recover::shares::equal_shares;
use raft_recover::{
    AllocResult, Error, Factory, FileId, FilePart, FileSeq, Gate, LogQueue, MAX_WORKERS, MemTable,
    MemTableAccessor, MemTableRecoverContext, MemTableRecoverContextFactory, OpenGate, Plan,
    ReplayMachine, Result, Segment, SharedFiles, TicketSeat, Tickets, Version, append_scan,
    command_words, cut_part, merge_pieces, piece_count, print_recovered, recover, recover_both,
    recover_bytes, recover_segments, replay_bytes, replay_scheduled, replay_segment,
    replay_segments, run, run_in_pieces, run_scan, run_without_words, scan_without_words,
    segments_read_as_one_history,
};
use std::alloc::Global;
use std::io;
use std::io::{Read, Write};
use std::rt::{Env, Files};
use std::thread::Threads;

/// Compiles only as long as `Tickets::open`, `Tickets::draw` and `Tickets::close` have these types.
fn tickets() {
    let _open: fn(Global, usize, usize) -> Result<(Tickets, Vec<TicketSeat>)> = Tickets::open;
    let _draw: fn(&Tickets, &mut TicketSeat) -> Option<usize> = Tickets::draw;
    let _close: fn(Tickets, Vec<TicketSeat>) -> usize = Tickets::close;
}

/// Compiles only as long as `Plan::leaves`, `Plan::halves`, `piece_count` and `cut_part` have these types.
fn plans() {
    let _leaves: fn(&Plan) -> usize = Plan::leaves;
    let _halves: fn(Global, usize) -> Result<Plan> = Plan::halves;
    let _piece_count: fn(usize, &[usize]) -> usize = piece_count;
    let _cut_part: fn(Global, FilePart, usize) -> Result<Vec<FilePart>> = cut_part;
}

/// Returns the plan that merges what two plans make.
///
/// # Errors
///
/// `AllocError` if there is no memory for the boxes.
fn join_of_plans(alloc: Global, left: Plan, right: Plan) -> AllocResult<Plan> {
    Ok(Plan::Join(Box::new(alloc, left)?, Box::new(alloc, right)?))
}

/// Returns equal shares: at least one is asked for, of at least one byte.
///
/// # Errors
///
/// Those of `equal_shares`.
fn equal_shares_of_plans(
    alloc: Global,
    segments: &[Segment],
    count: usize,
    least: usize,
) -> Result<Vec<Segment>> {
    equal_shares(alloc, segments, count.max(1), least.max(1))
}

/// Compiles only as long as a `Gate` is passed with a count.
fn pass_of_gates<G: Gate>(gate: &G, count: usize) {
    G::pass(gate, count)
}

/// Compiles only as long as `replay_segment` takes any `ReplayMachine` and a segment.
fn replay_segment_of_machines<M: ReplayMachine, F: Factory<M>>(
    machine: &mut M,
    segments: &Segment,
) -> Result<()> {
    replay_segment::<M>(machine, segments)
}

/// Compiles only as long as `merge_pieces` takes a `Vec` of any machines, a plan and a queue, and returns one machine.
fn merge_pieces_of_workers<M: ReplayMachine, F: Factory<M>, G: Gate, R: Threads + Sync>(
    rt: &R,
    pieces: Vec<M>,
    plan: &Plan,
    queue: LogQueue,
) -> Result<M> {
    merge_pieces::<M, R>(rt, pieces, plan, queue)
}

/// Replays the batches in the bytes of a file, which stand there from an offset below 2^32 on. Does nothing
/// for 2^32 bytes or more.
///
/// # Errors
///
/// Those of `replay_bytes`.
fn replay_bytes_of_machines<M: ReplayMachine>(
    machine: &mut M,
    alloc: Global,
    file: &LogFileContext,
    offset: u32,
    bytes: &[u8],
) -> Result<()> {
    if bytes.len() >= 1 << 32 {
        return Ok(());
    }
    let offset: u64 = u64::from(offset);
    replay_bytes::<M>(machine, alloc, file, offset, bytes)
}

/// Replays segments in a given schedule, with a given plan of merges.
///
/// # Errors
///
/// Those of `replay_scheduled`.
fn replay_scheduled_of_schedules(
    alloc: Global,
    factory: &MemTableRecoverContextFactory,
    segments: &[Segment],
    queue: LogQueue,
    workers: usize,
    draws: &[usize],
    plan: &Plan,
) -> Result<MemTableRecoverContext> {
    replay_scheduled(alloc, factory, segments, queue, workers, draws, plan)
}

/// Replays segments by workers, each of which passes `gate` before it draws one.
///
/// # Errors
///
/// Those of `replay_segments`.
fn replay_segments_of_workers<R: Threads + Sync, G: Gate>(
    rt: &R,
    alloc: Global,
    factory: &MemTableRecoverContextFactory,
    segments: &[Segment],
    queue: LogQueue,
    workers: usize,
    gate: &G,
) -> Result<MemTableRecoverContext> {
    replay_segments(rt, alloc, factory, segments, queue, workers, gate)
}

/// Compiles only for a type that several threads can use at once.
fn is_shared<T: Send + Sync>() {}

/// Compiles only if every gate can be used by several threads.
fn is_shared_gate<G: Gate>() {
    is_shared::<G>();
}

/// Runs the program on these words, and returns the status to end with.
fn run_of_programs<S: Files + AllocGlobal + Threads + Sync, R: Read, W: Write, E: Write>(
    rt: &S,
    words: &[String],
    input: &mut R,
    out: &mut W,
    err: &mut E,
) -> u8 {
    run::<S, R, W, E>(rt, words, input, out, err)
}

/// Runs the program that reads files in pieces on these words, and returns the status to end with.
fn run_of_programs_in_pieces<
    S: SharedFiles + Files + AllocGlobal + Threads + Sync,
    R: Read,
    W: Write,
    E: Write,
>(rt: &S, words: &[String], input: &mut R, out: &mut W, err: &mut E) -> u8 {
    run_in_pieces::<S, R, W, E>(rt, words, input, out, err)
}

/// Reads the first byte of a file, and returns the length of the file.
///
/// # Errors
///
/// Those of the files.
fn read_of_files<S: SharedFiles>(
    files: &S,
    path: &str,
    bytes: &mut Vec<u8>,
) -> io::Result<Option<u64>> {
    files.read_file(path, 0, 1, bytes)?;
    files.file_len(path)
}

/// Returns the words of the command line, or the status to end with if they can't be had.
///
/// # Errors
///
/// The status to end with, once the error is printed.
fn words_of_programs<S: Env + AllocGlobal, E: Write>(
    rt: &S,
    err: &mut E,
) -> std::result::Result<Vec<String>, u8> {
    let words: io::Result<Vec<String>> = command_words::<S>(rt);
    match words {
        Ok(words) => Ok(words),
        Err(error) => Err(run_without_words::<E>(&error, err)),
    }
}

/// Runs the scan of files on these words, and returns the status to end with.
fn run_scan_of_scans<S: Files + AllocGlobal, W: Write, E: Write>(
    rt: &S,
    words: &[String],
    out: &mut W,
    err: &mut E,
) -> u8 {
    run_scan::<S, W, E>(rt, words, out, err)
}

/// Compiles only as long as `scan_without_words` takes the reason why there are no words, and returns the status to end
/// with.
fn scan_without_words_of_scans<E: Write>(error: &io::Error, err: &mut E) -> u8 {
    scan_without_words::<E>(error, err)
}

/// Compiles only as long as `append_scan` has this type.
fn scans() {
    let _append_scan: fn(Global, &FilePart, bool, &mut String) -> Result<bool> = append_scan;
}

/// Returns the parts of a segment, which is a list of them.
fn parts_of(segment: Segment) -> Vec<FilePart> {
    segment
}

/// Compiles only as long as `MemTableAccessor::get_or_insert` takes `accessor` and `number`, and returns
/// `Result<&MemTable>`.
fn get_or_insert_of_recoveries<'a>(
    accessor: &'a mut MemTableAccessor,
    number: u64,
) -> Result<&'a MemTable> {
    MemTableAccessor::get_or_insert(accessor, number)
}

/// Compiles only as long as `recovered_text` and `file_segments` have these types.
fn recoveries<R: Threads + Sync, W: Write>() {
    let _recovered_text: fn(Global, &MemTableAccessor) -> Result<String> = recovered_text;
    let _file_segments: fn(LogQueue, Version, Vec<(FileSeq, Vec<u8>)>) -> Result<Vec<Segment>> =
        file_segments;
}

/// Compiles only as long as `recover` takes `rt`, `alloc`, `segments`, `queue` and `count`, and returns
/// `Result<MemTableAccessor>`.
fn recover_of_recoveries<R: Threads + Sync, W: Write>(
    rt: &R,
    alloc: Global,
    segments: &[Segment],
    queue: LogQueue,
    count: usize,
) -> Result<MemTableAccessor> {
    recover::<R>(rt, alloc, segments, queue, count)
}

/// Compiles only as long as `recover_both` takes `rt`, `alloc`, `rewrite`, `append` and `workers`, and returns
/// `Result<MemTableAccessor>`.
fn recover_both_of_recoveries<R: Threads + Sync>(
    rt: &R,
    alloc: Global,
    rewrite: &[Segment],
    append: &[Segment],
    workers: usize,
) -> Result<MemTableAccessor> {
    recover_both::<R>(rt, alloc, rewrite, append, workers)
}

/// Compiles only as long as `recover_segments` takes `rt`, `alloc`, `segments`, `queue` and `workers`, and returns
/// `Result<MemTableAccessor>`.
fn recover_segments_of_recoveries<R: Threads + Sync>(
    rt: &R,
    alloc: Global,
    segments: &[Segment],
    queue: LogQueue,
    workers: usize,
) -> Result<MemTableAccessor> {
    recover_segments::<R>(rt, alloc, segments, queue, workers)
}

/// Compiles only as long as `recover_bytes` takes the bytes of files, and prints to any `Write`.
fn recover_bytes_of_recoveries<R: Threads + Sync, W: Write>(
    rt: &R,
    alloc: Global,
    queue: LogQueue,
    version: Version,
    count: usize,
    files: Vec<(FileSeq, Vec<u8>)>,
    writer: &mut W,
) -> Result<()> {
    recover_bytes::<R, W>(rt, alloc, queue, version, count, files, writer)
}

/// Compiles only as long as `print_recovered` prints an accessor to any `Write`.
fn print_recovered_of_recoveries<R: Threads + Sync, W: Write>(
    alloc: Global,
    accessor: &MemTableAccessor,
    writer: &mut W,
) -> Result<()> {
    print_recovered::<W>(alloc, accessor, writer)
}

/// Returns how many pieces a plan merges. The match names every variant.
fn leaves_of(plan: &Plan) -> usize {
    match plan {
        Plan::One => 1,
        Plan::Join(left, right) => left.leaves().saturating_add(right.leaves()),
    }
}

/// Tests that the names above are exported with these types, and that what they give is as it is written here.
#[test]
fn recovery_is_handed_on(rt: HostRuntime) {
    tickets();
    plans();
    scans();
    is_shared_gate::<OpenGate>();
    assert!(rt; parts_of(Vec::new(rt.alloc())).is_empty());
    segments_read_as_one_history();
    let file = FileId::new(LogQueue::Append, 1);
    assert!(rt; file.seq == 1 && MAX_WORKERS == 256 && leaves_of(&Plan::One) == 1);
    assert!(rt; matches!(Error::Memory, raft_base::Error::Memory));
}
