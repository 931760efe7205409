//! Recoveries of segments: by several workers, by given draws, and by pieces.

use crate::calls::Call;
use crate::found::Found;
use crate::histories::{APPENDED, FIVE, History, NONE, REWRITTEN, batch_segments};
use crate::writes::print_tables;
use raft_memtable::{
    Error, LogQueue, MemTableAccessor, MemTableRecoverContext, MemTableRecoverContextFactory,
    Result,
};
use raft_records::{FileId, LogFileContext, Version, print_batch};
use raft_recover::{
    OpenGate, Plan, Segment, Tickets, merge_pieces, piece_count, recover, recover_bytes,
    replay_scheduled, replay_segment, replay_segments,
};
use std::alloc::Global;
use std::io::ErrorKind;
use std::thread::Threads;

/// How segments are recovered.
#[derive(Clone, Copy)]
pub(crate) enum How {
    /// By so many workers, after the segments were divided into shares.
    Shares(usize),
    /// By so many workers, each drawing the next segment.
    Workers(usize),
    /// By given draws: the numbers of the workers that draw each next segment.
    Draws(&'static [usize]),
    /// Each by a context of its own. These are merged by halves.
    Pieces,
}

/// The call of the row `tickets`.
pub(crate) static TICKETS: [Call; 1] = [Call::Tickets];

/// The calls of the row `shares`. Each history gives the same tables, whatever the number of workers.
pub(crate) static SHARES: [Call; 6] = [
    Call::Recover(APPENDED, How::Shares(1)),
    Call::Recover(REWRITTEN, How::Shares(1)),
    Call::Recover(APPENDED, How::Shares(2)),
    Call::Recover(REWRITTEN, How::Shares(2)),
    Call::Recover(APPENDED, How::Shares(4)),
    Call::Recover(REWRITTEN, How::Shares(4)),
];

/// How two workers draw eight segments.
const EIGHT_DRAWS: &[usize] = &[0, 0, 1, 1, 0, 1];

/// How two workers draw five segments, and make four pieces of them.
const FIVE_DRAWS: &[usize] = &[0, 1, 1, 0, 1];

/// The calls of the row `draws`.
pub(crate) static DRAWS: [Call; 10] = [
    Call::Recover(APPENDED, How::Workers(1)),
    Call::Recover(REWRITTEN, How::Workers(1)),
    Call::Recover(APPENDED, How::Draws(EIGHT_DRAWS)),
    Call::Recover(REWRITTEN, How::Draws(EIGHT_DRAWS)),
    Call::CountPieces(5, FIVE_DRAWS),
    Call::Recover(FIVE, How::Draws(FIVE_DRAWS)),
    Call::Recover(NONE, How::Workers(1)),
    Call::Recover(FIVE, How::Workers(1)),
    Call::Recover(FIVE, How::Workers(0)),
    Call::Recover(FIVE, How::Workers(257)),
];

/// The calls of the row `workers`.
pub(crate) static WORKERS: [Call; 6] = [
    Call::Recover(APPENDED, How::Workers(2)),
    Call::Recover(REWRITTEN, How::Workers(2)),
    Call::Recover(APPENDED, How::Workers(4)),
    Call::Recover(REWRITTEN, How::Workers(4)),
    Call::Recover(FIVE, How::Workers(2)),
    Call::Recover(FIVE, How::Workers(256)),
];

/// The calls of the row `pieces`.
pub(crate) static PIECES: [Call; 2] = [
    Call::Recover(APPENDED, How::Pieces),
    Call::Recover(REWRITTEN, How::Pieces),
];

/// The calls of the row `prints`: two item batches, and three files. These have a batch with two entries of
/// region 7, a batch that cleans region 1, and the first batch without its last byte.
pub(crate) static PRINTS: [Call; 5] = [
    Call::PrintBatch(b"\x01\x01\x02\x01\x5a\x80\x0b\xdd"),
    Call::PrintBatch(b"\x01\x07\x01\x02\x0a\x02\x03\xa7\xb3\xdf\x17"),
    Call::PrintFile(
        b"\x00\x00\x00\x00\x00\x00\x22\x00\x00\x00\x00\x00\x00\x00\x00\x17abc\xc2\x41\x24\x35\x01\x07\x01\x02\x0a\x02\x03\xa7\xb3\xdf\x17",
    ),
    Call::PrintFile(
        b"\x00\x00\x00\x00\x00\x00\x18\x00\x00\x00\x00\x00\x00\x00\x00\x10\x01\x01\x02\x01\x5a\x80\x0b\xdd",
    ),
    Call::PrintFile(
        b"\x00\x00\x00\x00\x00\x00\x22\x00\x00\x00\x00\x00\x00\x00\x00\x17abc\xc2\x41\x24\x35\x01\x07\x01\x02\x0a\x02\x03\xa7\xb3\xdf",
    ),
];

/// Recovers `history` as `how` says, and adds the lines of the tables to `found`.
///
/// # Errors
///
/// Those of [`recover_tables_of_queue`]; `Memory`.
pub(crate) fn recover_history<R: Threads + Sync>(
    rt: &R,
    found: &mut Found,
    history: History,
    how: How,
) -> Result<()> {
    let segments = batch_segments(found.alloc, history.queue, history.batches)?;
    let tables = recover_tables_of_queue(rt, found.alloc, segments.as_slice(), history.queue, how)?;
    print_tables(found, &tables)
}

/// Recovers `segments` of `queue` as `how` says, and returns the tables.
///
/// # Errors
///
/// Those of the recovery; `Failed` for draws or pieces without segments.
fn recover_tables_of_queue<R: Threads + Sync>(
    rt: &R,
    alloc: Global,
    segments: &[Segment],
    queue: LogQueue,
    how: How,
) -> Result<MemTableAccessor> {
    let factory = MemTableRecoverContextFactory::new();
    let context = match how {
        How::Shares(workers) => return recover(rt, alloc, segments, queue, workers),
        How::Workers(workers) => {
            replay_segments(rt, alloc, &factory, segments, queue, workers, &OpenGate)?
        }
        How::Draws(draws) => replay_by_draws(alloc, segments, queue, draws)?,
        How::Pieces => merge_read_pieces(rt, alloc, segments, queue)?,
    };
    context.finish()
}

/// Replays `segments` of `queue`, which two workers draw, and returns the context. `draws` has the number, 0
/// or 1, of the worker that draws each next segment. The pieces are merged by halves.
///
/// # Errors
///
/// `Failed` without segments; those of [`replay_scheduled`].
fn replay_by_draws(
    alloc: Global,
    segments: &[Segment],
    queue: LogQueue,
    draws: &[usize],
) -> Result<MemTableRecoverContext> {
    let count = piece_count(segments.len(), draws);
    if count == 0 {
        return Err(Error::Failed);
    }
    let plan = Plan::halves(alloc, count)?;
    let factory = MemTableRecoverContextFactory::new();
    replay_scheduled(alloc, &factory, segments, queue, 2, draws, &plan)
}

/// Reads each of `segments` of `queue` with a context of its own, and merges these contexts by halves.
/// Returns the result.
///
/// # Errors
///
/// `Failed` without segments; those of [`replay_segment`] and [`merge_pieces`].
fn merge_read_pieces<R: Threads + Sync>(
    rt: &R,
    alloc: Global,
    segments: &[Segment],
    queue: LogQueue,
) -> Result<MemTableRecoverContext> {
    if segments.is_empty() {
        return Err(Error::Failed);
    }
    let plan = Plan::halves(alloc, segments.len())?;
    let pieces = read_segments(alloc, segments)?;
    merge_pieces(rt, pieces, &plan, queue)
}

/// Returns a context for each of `segments`, which has read it.
///
/// # Errors
///
/// Those of [`replay_segment`]; `Memory`.
fn read_segments(alloc: Global, segments: &[Segment]) -> Result<Vec<MemTableRecoverContext>> {
    let mut pieces = Vec::new(alloc);
    for segment in segments {
        let mut piece = MemTableRecoverContext::new(alloc)?;
        replay_segment(&mut piece, segment)?;
        pieces.push(piece)?;
    }
    Ok(pieces)
}

/// Opens tickets for three numbers and two seats, closes them at once, and adds a line with how many numbers
/// were drawn: none.
///
/// # Errors
///
/// Those of [`Tickets::open`]; `Memory`.
pub(crate) fn draw_tickets(found: &mut Found) -> Result<()> {
    let alloc = found.alloc;
    let (tickets, seats) = Tickets::open(alloc, 3, 2)?;
    let drawn = tickets.close(seats);
    found.append_line(format!(in alloc; "{drawn} drawn")?.as_str())
}

/// Adds a line with how many pieces `segments` segments make if `draws` has the number of the worker that
/// draws each next one.
///
/// # Errors
///
/// `Memory` alone.
pub(crate) fn count_pieces(found: &mut Found, segments: usize, draws: &[usize]) -> Result<()> {
    let pieces = piece_count(segments, draws);
    let alloc = found.alloc;
    found.append_line(format!(in alloc; "{pieces} pieces")?.as_str())
}

/// Tests whether `answer` says that a call found no memory: it is `Memory`, or, of a reader or writer, an
/// `Io` of the kind `OutOfMemory`.
fn is_lack_of_memory_in_io(answer: &Result<()>) -> bool {
    match answer {
        Err(Error::Memory) => true,
        Err(Error::Io(error)) => error.kind() == ErrorKind::OutOfMemory,
        _ => false,
    }
}

/// Adds `out`, the lines that a call printed, which returned `answer`. Notes in `found` whether a call that
/// failed has printed nothing.
///
/// # Errors
///
/// That of the call, as `Memory` if its reader or writer found none; `Memory`.
fn append_printed_lines(found: &mut Found, answer: Result<()>, out: &[u8]) -> Result<()> {
    found.note_what_refusal_left(answer.is_ok() || out.is_empty());
    if is_lack_of_memory_in_io(&answer) {
        return Err(Error::Memory);
    }
    answer?;
    found.lines.extend_from_slice(out)?;
    Ok(())
}

/// Prints `bytes` as an item batch of append file 12, as `raftlog batch` does, and adds the lines to `found`.
///
/// # Errors
///
/// Those of [`print_batch`]; `Memory`.
pub(crate) fn print_item_batch(found: &mut Found, bytes: &[u8]) -> Result<()> {
    let context = LogFileContext::new(FileId::new(LogQueue::Append, 12), Version::V1);
    let mut out = Vec::new(found.alloc);
    let answer = print_batch(found.alloc, &mut &bytes[..], &mut out, &context);
    append_printed_lines(found, answer, out.as_slice())
}

/// Recovers append file 12 with these `bytes`, prints its tables as `raftlog recover` does, and adds the
/// lines to `found`.
///
/// # Errors
///
/// Those of [`recover_bytes`]; `Memory`.
pub(crate) fn recover_and_print_file<R: Threads + Sync>(
    rt: &R,
    found: &mut Found,
    bytes: &[u8],
) -> Result<()> {
    let alloc = found.alloc;
    let bytes = Vec::from_slice(alloc, bytes)?;
    let files = vec![in alloc; (12, bytes)]?;
    let mut out = Vec::new(alloc);
    let answer = recover_bytes(rt, alloc, LogQueue::Append, Version::V1, 1, files, &mut out);
    append_printed_lines(found, answer, out.as_slice())
}
