//! Cuts the batches of files into segments in every possible way, and compares what is read of each cutting.
//! A cutting has a number: if its bit `n` is set, a segment ends after batch `n`.

use raft_memtable::{LogQueue, MemTableAccessor, MemTableRecoverContext};
use raft_records::{Error, FilePart, Result};
use raft_recover::files::file_segments;
use raft_recover::request::{RecoverWords, Request, read_files};
use raft_recover::{
    Plan, Segment, cut_part, merge_pieces, print_recovered, recover_segments, replay_segment,
};
use std::alloc::Global;
use std::mem;
use std::rt::Files;
use std::thread::Threads;

/// The most batches that are cut. More would have more than 2^15 cuttings.
const MOST_BATCHES: usize = 16;

/// What reading the batches gives.
#[derive(Debug, Drop)]
pub(crate) enum Answer {
    /// The lines that `raftlog recover` prints for the tables.
    Lines(Vec<u8>),
    /// A refusal, whatever its reason.
    Refused,
}

/// What all cuttings give.
#[derive(Drop)]
pub(crate) enum Found {
    /// All give this.
    Same(Answer),
    /// This cutting, read and merged in this way, gives something else than the batches uncut.
    Different { cutting: u64, way: Way },
}

/// How segments are read and merged.
#[derive(Clone, Copy)]
pub(crate) enum Way {
    /// Each is read by itself. They are merged from the first one on.
    Left,
    /// Each is read by itself. They are merged from the last one on.
    Right,
    /// Each is read by itself. They are merged by halves.
    Halves,
    /// This many workers read them.
    Workers(usize),
}

/// The ways that are tried at each cutting.
static WAYS: [Way; 7] = [
    Way::Left,
    Way::Right,
    Way::Halves,
    Way::Workers(1),
    Way::Workers(2),
    Way::Workers(3),
    Way::Workers(4),
];

/// Returns what all cuttings of the files give that `words` name, which are those of `raftlog recover`.
/// Returns `None` for other words.
///
/// # Errors
///
/// Those of reading the files; `InvalidArgument` for more than 16 batches; `Memory`.
pub(crate) fn try_cuttings_of_words<R: Threads + Files + AllocGlobal + Sync>(
    rt: &R,
    words: &[String],
) -> Result<Option<Found>> {
    let Some(Request::Recover(asked)) = Request::parse(rt.alloc(), words)? else {
        return Ok(None);
    };
    Ok(Some(try_cuttings_of_files(rt, asked)?))
}

/// Reads the files that `asked` names at every cutting, in every way, up to the first one that gives
/// something else than the batches uncut. Returns what they give.
///
/// # Errors
///
/// Those of [`try_cuttings_of_words`].
fn try_cuttings_of_files<R: Threads + Files + AllocGlobal + Sync>(
    rt: &R,
    asked: RecoverWords<'_>,
) -> Result<Found> {
    let queue = asked.queue;
    let files = read_files(rt, asked.paths.as_slice())?;
    let segments = file_segments(queue, asked.version, files)?;
    let batches = split_into_batches(rt.alloc(), segments)?;
    if batches.len() > MOST_BATCHES {
        return Err(Error::invalid_argument(rt.alloc(), "too many batches"));
    }
    let whole = recover_cutting(rt, &batches, queue, 0, Way::Left)?;
    for cutting in 0..1u64 << batches.len().saturating_sub(1) {
        if let Some(way) = find_other_way(rt, &batches, queue, cutting, &whole)? {
            return Ok(Found::Different { cutting, way });
        }
    }
    Ok(Found::Same(whole))
}

/// Returns a way in which the cutting numbered `cutting` gives something else than `whole`, or `None` if
/// there is none. `batches` are those of `queue`.
///
/// # Errors
///
/// `Memory`; `Io` if the lines can't grow.
fn find_other_way<R: Threads + AllocGlobal + Sync>(
    rt: &R,
    batches: &[FilePart],
    queue: LogQueue,
    cutting: u64,
    whole: &Answer,
) -> Result<Option<Way>> {
    for &way in &WAYS {
        if !is_same_answer(&recover_cutting(rt, batches, queue, cutting, way)?, whole) {
            return Ok(Some(way));
        }
    }
    Ok(None)
}

/// Tests whether `left` and `right` have the same lines, or are both refusals, whatever their reasons.
fn is_same_answer(left: &Answer, right: &Answer) -> bool {
    match (left, right) {
        (Answer::Lines(left), Answer::Lines(right)) => left.as_slice() == right.as_slice(),
        (Answer::Refused, Answer::Refused) => true,
        _ => false,
    }
}

/// Returns what `batches` of `queue` give, cut by `cutting`, and read and merged in this `way`.
///
/// # Errors
///
/// `Memory`; `Io` if the lines can't grow. Any other refusal is an answer.
fn recover_cutting<R: Threads + AllocGlobal + Sync>(
    rt: &R,
    batches: &[FilePart],
    queue: LogQueue,
    cutting: u64,
    way: Way,
) -> Result<Answer> {
    let segments = cut_segments(rt.alloc(), batches, cutting)?;
    let read = match way {
        Way::Workers(workers) => {
            recover_segments(rt, rt.alloc(), segments.as_slice(), queue, workers)
        }
        _ => read_and_merge_segments(rt, segments.as_slice(), queue, way),
    };
    match read {
        Ok(tables) => Ok(Answer::Lines(print_to_lines(rt.alloc(), &tables)?)),
        Err(Error::Memory) => Err(Error::Memory),
        Err(_) => Ok(Answer::Refused),
    }
}

/// Reads `segments` one by one, and merges what was read by the plan of this `way`. Returns the tables.
///
/// # Errors
///
/// Those of [`replay_segment`] and [`merge_pieces`]; `Memory`.
fn read_and_merge_segments<R: Threads + AllocGlobal + Sync>(
    rt: &R,
    segments: &[Segment],
    queue: LogQueue,
    way: Way,
) -> Result<MemTableAccessor> {
    let pieces = read_segments(rt.alloc(), segments)?;
    let plan = merge_plan(rt.alloc(), pieces.len(), way)?;
    merge_pieces(rt, pieces, &plan, queue)?.finish()
}

/// Returns a context for each of `segments`, which has read it.
///
/// # Errors
///
/// Those of [`replay_segment`]; `Memory`.
fn read_segments(alloc: Global, segments: &[Segment]) -> Result<Vec<MemTableRecoverContext>> {
    let mut pieces = Vec::new(alloc);
    for segment in segments {
        pieces.push(read_segment(alloc, segment)?)?;
    }
    Ok(pieces)
}

/// Returns a context that has read `segment`.
///
/// # Errors
///
/// Those of [`replay_segment`]; `Memory`.
fn read_segment(alloc: Global, segment: &Segment) -> Result<MemTableRecoverContext> {
    let mut context = MemTableRecoverContext::new(alloc)?;
    replay_segment(&mut context, segment)?;
    Ok(context)
}

/// Returns the plan that merges `count` pieces from the left, from the right, or else by halves, as `way`
/// says.
///
/// # Errors
///
/// `Memory` alone.
fn merge_plan(alloc: Global, count: usize, way: Way) -> Result<Plan> {
    let mut plan = Plan::One;
    match way {
        Way::Left => {
            for _ in 1..count {
                plan = Plan::Join(Box::new(alloc, plan)?, Box::new(alloc, Plan::One)?);
            }
            Ok(plan)
        }
        Way::Right => {
            for _ in 1..count {
                plan = Plan::Join(Box::new(alloc, Plan::One)?, Box::new(alloc, plan)?);
            }
            Ok(plan)
        }
        _ => Plan::halves(alloc, count.max(1)),
    }
}

/// Returns `batches` as segments: one ends after batch `n` if bit `n` of `cutting` is set, and the last one
/// at the end.
///
/// # Errors
///
/// `Memory` alone.
fn cut_segments(alloc: Global, batches: &[FilePart], cutting: u64) -> Result<Vec<Segment>> {
    let mut segments = Vec::new(alloc);
    let mut segment = Vec::new(alloc);
    let mut rest = cutting;
    for batch in batches {
        segment.push(batch.clone()?)?;
        if rest % 2 == 1 {
            segments.push(mem::replace(&mut segment, Vec::new(alloc)))?;
        }
        rest /= 2;
    }
    segments.push(segment)?;
    Ok(segments)
}

/// Returns a part for each batch of `segments`, and one for each empty file.
///
/// # Errors
///
/// `Memory` alone.
fn split_into_batches(alloc: Global, segments: Vec<Segment>) -> Result<Vec<FilePart>> {
    let mut batches = Vec::new(alloc);
    for segment in segments {
        for part in segment {
            let count = part.bytes().len();
            for batch in cut_part(alloc, part, count)? {
                batches.push(batch)?;
            }
        }
    }
    Ok(batches)
}

/// Returns the lines that `raftlog recover` prints for `tables`.
///
/// # Errors
///
/// `Memory`; `Io` if the lines can't grow.
fn print_to_lines(alloc: Global, tables: &MemTableAccessor) -> Result<Vec<u8>> {
    let mut lines = Vec::new(alloc);
    print_recovered(alloc, tables, &mut lines)?;
    Ok(lines)
}
