//! Tests the texts of errors: where reading stopped, and why.

use crate::recovery::histories::{APPENDED, WITH_A_HOLE};
use crate::recovery::{count_cuttings, cut_into_segments, files_of_batches};
use raft_base::{Error, FileId, FileSeq, LogQueue, Result, Version};
use raft_records::FilePart;
use raft_recover::files::file_segments;
use raft_recover::recovery::recover_segments;
use raft_recover::{MemTableAccessor, Segment, recover, recover_both};
use raft_trials::again;
use std::alloc::Global;
use std::thread::Threads;

/// The text for each of the appended batches, if it lacks its last byte.
static CUT_SHORT: [&str; 8] = [
    "append file 1, offset 0: a log batch of 44 bytes is cut short",
    "append file 1, offset 44: a log batch of 37 bytes is cut short",
    "append file 2, offset 0: a log batch of 30 bytes is cut short",
    "append file 2, offset 30: a log batch of 31 bytes is cut short",
    "append file 3, offset 0: a log batch of 42 bytes is cut short",
    "append file 3, offset 42: a log batch of 24 bytes is cut short",
    "append file 4, offset 0: a log batch of 33 bytes is cut short",
    "append file 5, offset 0: a log batch of 40 bytes is cut short",
];

/// The text for the hole behind the appended batches.
const PLACED_HOLE: &str =
    "append file 5, offset 40: region 1: a run from index 12 on leaves a hole behind the entries, which end before index 10";

/// A batch of 24 bytes with `Clean`.
const CLEAN: &str = "00000000000018000000000000000010010102015a800bdd";

/// Batches with a right checksum, whose items end too early, or begin with no number for a region; and the text for
/// each behind a batch of 24 bytes.
static SPELLINGS: [(&str, &str); 3] = [
    (
        "0000000000001700000000000000001001010248e39609",
        "Codec Error: append file 1, offset 24: eof",
    ),
    (
        "0000000000001600000000000000001001012813c52f",
        "IO Error: Custom { kind: UnexpectedEof, error: \"append file 1, offset 24: eof\" }",
    ),
    (
        "0000000000002100000000000000001001ffffffffffffffffff0202018a06a554",
        "Codec Error: append file 1, offset 24: overflow",
    ),
];

/// Returns the rows of batches that are refused.
fn rows_of_refused_batches() -> &'static [(&'static str, &'static str)] {
    &SPELLINGS
}

/// The calls that return tables.
#[derive(Clone, Copy)]
enum Call {
    Recover,
    RecoverSegments,
    /// Recovers both queues, the other one without segments.
    RecoverBoth,
}

use Call::{Recover, RecoverBoth, RecoverSegments};

/// Makes a call that reads segments as those of a queue with so many workers, and returns its result.
fn recover_by_call<R: Threads + Sync>(
    rt: &R,
    alloc: Global,
    call: Call,
    segments: &[Segment],
    queue: LogQueue,
    workers: usize,
) -> Result<MemTableAccessor> {
    match (call, queue) {
        (Recover, _) => recover(rt, alloc, segments, queue, workers),
        (RecoverSegments, _) => recover_segments(rt, alloc, segments, queue, workers),
        (RecoverBoth, LogQueue::Append) => recover_both(rt, alloc, &[], segments, workers),
        (RecoverBoth, LogQueue::Rewrite) => recover_both(rt, alloc, segments, &[], workers),
    }
}

/// Returns the text with which a call refuses segments, as `Corruption` or as `InvalidArgument`, read as those of a
/// queue with so many workers; an empty text where they are read.
fn refusal_text<R: Threads + Sync>(
    rt: &R,
    alloc: Global,
    call: Call,
    segments: &[Segment],
    queue: LogQueue,
    workers: usize,
) -> Result<String> {
    match recover_by_call(rt, alloc, call, segments, queue, workers) {
        Ok(_tables) => Ok(String::new(alloc)),
        Err(Error::Corruption(text)) => Ok(text),
        Err(Error::InvalidArgument(text)) => Ok(text),
        Err(error) => Err(error),
    }
}

/// Returns the text with which batches of the append queue are refused, each as a part of its own.
fn refusal_of_parts<R: Threads + Sync>(
    rt: &R,
    alloc: Global,
    call: Call,
    batches: &[(FileSeq, &str)],
    cuts: u64,
    queue: LogQueue,
    workers: usize,
) -> Result<String> {
    let segments = cut_into_segments(alloc, LogQueue::Append, Version::V1, batches, cuts)?;
    refusal_text(rt, alloc, call, segments.as_slice(), queue, workers)
}

/// Returns the text with which the files of batches of the append queue are refused, each as a part of all its batches.
fn refusal_of_files<R: Threads + Sync>(
    rt: &R,
    alloc: Global,
    call: Call,
    batches: &[(FileSeq, &str)],
    workers: usize,
) -> Result<String> {
    let files = files_of_batches(alloc, Version::V1, batches)?;
    let segments = file_segments(LogQueue::Append, Version::V1, files)?;
    refusal_text(
        rt,
        alloc,
        call,
        segments.as_slice(),
        LogQueue::Append,
        workers,
    )
}

/// Returns the appended batches, of which the one at position `number` lacks its last byte.
fn batches_cut_short(alloc: Global, number: usize) -> Result<Vec<(FileSeq, &'static str)>> {
    let mut batches = Vec::from_slice(alloc, APPENDED.as_slice())?;
    if let Some((_, digits)) = batches.get_mut(number) {
        *digits = digits.get(..digits.len().saturating_sub(2)).unwrap_or("");
    }
    Ok(batches)
}

/// Returns for each batch of [`APPENDED`], in order, the text of the error that reading gives if its last byte is gone.
fn texts_for_cut_batches() -> &'static [&'static str] {
    &CUT_SHORT
}

/// Tests whether a batch that is cut short is refused with this text, which has its place: in one segment, and in a
/// segment for each batch.
fn is_cut_batch_refused_with<R: Threads + Sync>(
    rt: &R,
    alloc: Global,
    number: usize,
    text: &str,
) -> Result<bool> {
    let batches = batches_cut_short(alloc, number)?;
    let batches = batches.as_slice();
    let one = refusal_of_parts(rt, alloc, Recover, batches, 0, LogQueue::Append, 1)?;
    let many = refusal_of_parts(
        rt,
        alloc,
        RecoverSegments,
        batches,
        u64::MAX,
        LogQueue::Append,
        4,
    )?;
    Ok(one.as_str() == text && many.as_str() == text)
}

/// Tests that the refusal of a batch that is cut short names its file and its offset.
#[test]
fn refusals_of_cut_batches_name_file_and_offset(rt: HostRuntime) {
    for (number, text) in texts_for_cut_batches().iter().enumerate() {
        let told = again!(is_cut_batch_refused_with(&rt, rt.alloc(), number, text));
        assert!(rt; matches!(told, Ok(true)), "batch {number}");
    }
}

/// Returns the place at the start of a text.
fn place_in_text(text: &str) -> &str {
    match text.split_once(": ") {
        Some((place, _)) => place,
        None => text,
    }
}

/// Tests whether the error for a batch that is cut short names its place, also where its file is a single part.
fn is_place_of_cut_batch_named<R: Threads + Sync>(
    rt: &R,
    alloc: Global,
    number: usize,
    text: &str,
) -> Result<bool> {
    let batches = batches_cut_short(alloc, number)?;
    for &(call, workers) in &[(Recover, 1), (RecoverSegments, 3), (RecoverBoth, 2)] {
        let told = refusal_of_files(rt, alloc, call, batches.as_slice(), workers)?;
        if place_in_text(told.as_str()) != place_in_text(text) {
            return Ok(false);
        }
    }
    Ok(true)
}

/// Tests that the refusal names the place of the batch also where its file is a single part.
#[test]
fn refusals_in_files_name_the_batch(rt: HostRuntime) {
    for (number, text) in texts_for_cut_batches().iter().enumerate() {
        let told = again!(is_place_of_cut_batch_named(&rt, rt.alloc(), number, text));
        assert!(rt; matches!(told, Ok(true)), "batch {number}");
    }
}

/// Tests whether a hole is refused with the same text at each seventh cutting, with one to four workers, and in whole
/// files.
fn is_hole_refused_at_each_cutting<R: Threads + Sync>(rt: &R, alloc: Global) -> Result<bool> {
    let batches = WITH_A_HOLE.as_slice();
    for seventh in 0..count_cuttings(batches.len()) / 7 {
        let cuts = 7 * seventh;
        let workers = 1 + (cuts % 4) as usize;
        let text = refusal_of_parts(
            rt,
            alloc,
            RecoverSegments,
            batches,
            cuts,
            LogQueue::Append,
            workers,
        )?;
        if text.as_str() != PLACED_HOLE {
            return Ok(false);
        }
    }
    let one = refusal_of_parts(rt, alloc, Recover, batches, 0, LogQueue::Append, 1)?;
    let whole = refusal_of_files(rt, alloc, RecoverBoth, batches, 2)?;
    Ok(one.as_str() == PLACED_HOLE && whole.as_str() == PLACED_HOLE)
}

/// Tests that a hole is refused with the same text, however the batches are cut and by how many workers they are
/// read.
#[test]
fn holes_are_refused_with_one_text_at_each_cutting(rt: HostRuntime) {
    assert!(rt;
        matches!(
            again!(is_hole_refused_at_each_cutting(&rt, rt.alloc())),
            Ok(true)
        )
    );
}

/// Tests whether a call refuses so many workers on a queue with this text, or takes them, if it is empty.
fn is_worker_count_refused_with<R: Threads + Sync>(
    rt: &R,
    alloc: Global,
    call: Call,
    queue: LogQueue,
    workers: usize,
    text: &str,
) -> Result<bool> {
    let told = refusal_of_parts(rt, alloc, call, APPENDED.as_slice(), 1, queue, workers)?;
    Ok(told.as_str() == text)
}

const OTHER_WORKERS: &str = "another number of workers than 1 to 256";

/// Tests which numbers of workers each call takes, for each queue.
#[test]
fn wrong_numbers_of_workers_are_refused(rt: HostRuntime) {
    for &call in &[Recover, RecoverSegments, RecoverBoth] {
        for &(queue, workers, text) in &[
            (LogQueue::Append, 0, OTHER_WORKERS),
            (LogQueue::Append, 1, ""),
            (LogQueue::Append, 256, ""),
            (LogQueue::Append, 257, OTHER_WORKERS),
            (LogQueue::Rewrite, 1, OTHER_QUEUE),
        ] {
            let told = again!(is_worker_count_refused_with(
                &rt,
                rt.alloc(),
                call,
                queue,
                workers,
                text
            ));
            assert!(rt; matches!(told, Ok(true)), "{workers} workers: {text}");
        }
    }
}

/// The queue of each part of three segments.
type Queues = [&'static [LogQueue]; 3];

const APPEND_PARTS: Queues = [
    &[LogQueue::Append],
    &[LogQueue::Append, LogQueue::Append],
    &[LogQueue::Append],
];

const REWRITE_PARTS: Queues = [
    &[LogQueue::Rewrite],
    &[LogQueue::Rewrite, LogQueue::Rewrite],
    &[LogQueue::Rewrite],
];

/// Queues of parts, of which one is the rewrite queue.
const MIXED_PARTS: Queues = [
    &[LogQueue::Append],
    &[LogQueue::Append, LogQueue::Rewrite],
    &[LogQueue::Append],
];

const OTHER_QUEUE: &str = "a part of another queue";

/// The queues of parts, the queue that they are read as, and the text of the error; an empty text where they are read.
static MIXTURES: [(Queues, LogQueue, &str); 6] = [
    (APPEND_PARTS, LogQueue::Append, ""),
    (MIXED_PARTS, LogQueue::Append, OTHER_QUEUE),
    (REWRITE_PARTS, LogQueue::Append, OTHER_QUEUE),
    (REWRITE_PARTS, LogQueue::Rewrite, ""),
    (MIXED_PARTS, LogQueue::Rewrite, OTHER_QUEUE),
    (APPEND_PARTS, LogQueue::Rewrite, OTHER_QUEUE),
];

/// Returns the rows of segments with parts of several queues.
fn rows_of_mixed_segments() -> &'static [(Queues, LogQueue, &'static str)] {
    &MIXTURES
}

/// Returns segments of parts without bytes, of these queues.
fn empty_segments(alloc: Global, queues: &Queues) -> Result<Vec<Segment>> {
    let mut segments = Vec::new(alloc);
    for &parts in queues {
        segments.push(empty_segment(alloc, parts)?)?;
    }
    Ok(segments)
}

/// Returns a segment of parts without bytes, one of each of these queues.
fn empty_segment(alloc: Global, queues: &[LogQueue]) -> Result<Segment> {
    let mut segment = Vec::new(alloc);
    for &queue in queues {
        let file = FileId::new(queue, 1);
        segment.push(FilePart::new(file, Version::V1, 0, Vec::new(alloc))?)?;
    }
    Ok(segment)
}

/// Tests whether each call refuses such segments with the text of a row, read as those of a queue with two workers.
fn is_mixture_refused_with<R: Threads + Sync>(
    rt: &R,
    alloc: Global,
    queues: &Queues,
    queue: LogQueue,
    text: &str,
) -> Result<bool> {
    let segments = empty_segments(alloc, queues)?;
    for &call in &[Recover, RecoverSegments, RecoverBoth] {
        if refusal_text(rt, alloc, call, segments.as_slice(), queue, 2)?.as_str() != text {
            return Ok(false);
        }
    }
    Ok(true)
}

/// Tests that each call refuses segments with parts of another queue, with a text that names both.
#[test]
fn parts_of_another_queue_are_refused(rt: HostRuntime) {
    for (row, (queues, queue, text)) in rows_of_mixed_segments().iter().enumerate() {
        let told = again!(is_mixture_refused_with(&rt, rt.alloc(), queues, *queue, text));
        assert!(rt; matches!(told, Ok(true)), "row {row}");
    }
}

/// Tests whether a call refuses a batch behind another one with this text: each as a part of its own, and both as one
/// part.
fn is_batch_refused_with<R: Threads + Sync>(
    rt: &R,
    alloc: Global,
    digits: &str,
    text: &str,
) -> Result<bool> {
    let batches = [(1, CLEAN), (1, digits)];
    let segments = cut_into_segments(alloc, LogQueue::Append, Version::V1, &batches, 1)?;
    let files = files_of_batches(alloc, Version::V1, &batches)?;
    let whole = file_segments(LogQueue::Append, Version::V1, files)?;
    for read in [segments.as_slice(), whole.as_slice()] {
        let told = match recover(rt, alloc, read, LogQueue::Append, 2) {
            Ok(_tables) => return Ok(false),
            Err(Error::Memory) => return Err(Error::Memory),
            Err(error) => format!(in alloc; "{error}")?,
        };
        if told.as_str() != text {
            return Ok(false);
        }
    }
    Ok(true)
}

/// Tests that a damaged batch behind another one is refused with its file and its offset.
#[test]
fn refusals_of_damaged_batches_name_file_and_offset(rt: HostRuntime) {
    for &(digits, text) in rows_of_refused_batches() {
        let told = again!(is_batch_refused_with(&rt, rt.alloc(), digits, text));
        assert!(rt; matches!(told, Ok(true)), "{text}");
    }
}
