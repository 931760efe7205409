//! The found files of one queue, and what is missing in them before an engine can write to them.

ghost use Rattle.std.specs.Prelude.{◌≡◌, ◌≢◌, ◌<◌, ◌≤◌, ◌^◌, List, [], ◌∷◌, ◌++◌, length, map, IfErr, IfOk, MatchOption, OnOk};
ghost use Rattle.raft_base.specs.declared.pipe_log.LogQueue.TheVariants.{Append};
ghost use Rattle.raft_files.specs.Asks.{NumberedBytes};
ghost use Rattle.raft_files.specs.Disk.{cut_last};
ghost use Rattle.raft_files.specs.HeldFiles.{file_shown};
ghost use Rattle.raft_recover.specs.Files.{AreWholeFiles};
ghost use Rattle.raft_engine.specs.CutTails.{IsTailTold};
ghost use Rattle.raft_engine.specs.DamagedBatches.{AreDamagedTold};
ghost use Rattle.raft_engine.specs.FoundFiles.{AreApartAs, IsFoundFault};
ghost use Rattle.raft_engine.specs.FoundQueues.{IsFoundQueue, IsLastOf, IsMissingOf, IsReadyQueue, begun_or_first, known_with, left_by};
ghost use Rattle.raft_engine.specs.QueueFilesOf.{AreOf};
ghost use Rattle.raft_engine_prefixes.specs.Done.{AreConsecutive, numbers};

use crate::blocks::check_blocks;
use crate::damaged::{damaged_batches, damaged_batches_alone};
use crate::found::{check_numbers, check_tail, tail_of};
use crate::limits::FIRST_SEQ;
use crate::missing::Missing;
use crate::queue_files::QueueFiles;
use crate::recovered::{CutTail, DamagedBatch};
use crate::recovery_mode::RecoveryMode;
use raft_base::{Error, FileId, FileSeq, LogQueue, Result, Version};
use raft_records::FilePart;
use raft_recover::file_segments;
use raft_replay::Segment;
use std::thread::Threads;

/// The found files of a queue, with all their bytes.
#[derive(Drop)]
pub struct FoundQueue {
    /// A segment for each file, of one part, which has all its bytes.
    pub segments: Vec<Segment>,
    /// What is known of the files; without files, of the first one that will be begun.
    pub known: QueueFiles,
}

/// What is known of a queue's found files that may be opened: what is missing before anything can be put after them, and the
/// files as they are once that was asked.
#[derive(Drop)]
pub struct ReadyQueue {
    /// What is missing.
    pub missing: Missing,
    /// What is known of the files once what is missing was asked.
    pub known: QueueFiles,
}

impl FoundQueue {
    /// Turns the found files of a queue into segments to be read, and notes what is known of them. `files` are their numbers
    /// and bytes, oldest first; no byte is copied.
    ///
    /// # Errors
    ///
    /// `Corruption` if the number of a file isn't one above that of the file before it; if files are missing between two, the
    /// text names the first one missing. `Memory`.
    pub fn of(
        queue: LogQueue,
        version: Version,
        files: Vec<(FileSeq, Vec<u8>)>,
    ) -> Result<FoundQueue>
        ensures ok { IfOk result (IsFoundQueue queue version (map file_shown files.items)) }
        ensures fault { IfErr result (λ e. e ≢ Error.Memory → AreApartAs queue (map file_shown files.items) e) }
    {
        check_numbers(queue, &files)?;
        let known = known_files(&files)?;
        let segments = file_segments(queue, version, files)?;
        Ok(FoundQueue { segments, known })
    }

    /// Returns the tail of the last file: its bytes from the first one on at which no batch can be read. `None` if all of it
    /// can be read, or there is no file.
    ///
    /// # Errors
    ///
    /// `Memory` alone.
    pub fn find_tail(&self) -> Result<Option<CutTail>>
        ensures ok { (queue : LogQueue) (version : Version) (files : List NumberedBytes) → IsFoundQueue queue version files self.now
            → IfOk result (IsTailTold queue version files) }
        ensures memory { IfErr result (λ e. e ≡ Error.Memory) }
    {
        match last_file_part(self.segments.as_slice()) {
            Some(last) => tail_of(last),
            None => Ok(None),
        }
    }

    /// Returns the batches of the last file, before its `tail`, whose entries are damaged, in order. They are looked for by
    /// `workers` threads. `tail` is what [`FoundQueue::find_tail`] returns.
    ///
    /// # Errors
    ///
    /// `Memory` alone.
    pub fn find_damaged<R: Threads + Sync>(
        &self,
        rt: &R,
        tail: &Option<CutTail>,
        workers: usize,
    ) -> Result<Vec<DamagedBatch>>
        requires { (queue : LogQueue) × (version : Version) × (files : List NumberedBytes)
            × IsFoundQueue queue version files self.now × IsTailTold queue version files tail.now }
        ensures ok { (version : Version) (files : List NumberedBytes) → IsFoundQueue Append version files self.now
            → IfOk result (λ damaged. AreDamagedTold version files damaged.items) }
        ensures memory { IfErr result (λ e. e ≡ Error.Memory) }
    {
        match last_file_part(self.segments.as_slice()) {
            Some(last) => damaged_batches(rt, last, tail, workers),
            None => Ok(Vec::new(self.known.allocator())),
        }
    }

    /// Returns the batches of the last file, before its `tail`, whose entries are damaged, in order, as
    /// [`FoundQueue::find_damaged`] does, but on the caller's thread. `tail` is what [`FoundQueue::find_tail`] returns.
    ///
    /// # Errors
    ///
    /// `Memory` alone.
    pub fn find_damaged_alone(&self, tail: &Option<CutTail>) -> Result<Vec<DamagedBatch>>
        requires { (queue : LogQueue) × (version : Version) × (files : List NumberedBytes)
            × IsFoundQueue queue version files self.now × IsTailTold queue version files tail.now }
        ensures ok { (version : Version) (files : List NumberedBytes) → IsFoundQueue Append version files self.now
            → IfOk result (λ damaged. AreDamagedTold version files damaged.items) }
        ensures memory { IfErr result (λ e. e ≡ Error.Memory) }
    {
        match last_file_part(self.segments.as_slice()) {
            Some(last) => damaged_batches_alone(last, tail),
            None => Ok(Vec::new(self.known.allocator())),
        }
    }

    /// Checks that the found files may be opened in `mode`. Returns what has to be asked before anything can be put after them
    /// (a first file, or the cut of `tail`), with what is known of the files once that is done; and their segments, unchanged.
    /// Nothing is asked of the files yet. `tail` is what [`FoundQueue::find_tail`] returned.
    ///
    /// # Errors
    ///
    /// `Corruption` if `mode` doesn't allow that tail to be cut, the last file is of the other version, or a batch of the last
    /// rewrite file has damaged entries; `InvalidArgument` if the last file is one of raft-engine; `Memory`.
    pub fn into_ready(
        self,
        mode: RecoveryMode,
        tail: Option<CutTail>,
    ) -> Result<(ReadyQueue, Vec<Segment>)>
        requires { (queue : LogQueue) × (version : Version) × (files : List NumberedBytes)
            × IsFoundQueue queue version files self × IsTailTold queue version files tail }
        ensures ok { (queue : LogQueue) (version : Version) (files : List NumberedBytes) → IsFoundQueue queue version files self
            → IsTailTold queue version files tail → IfOk result (λ both. IsReadyQueue mode queue version files both.0) }
        ensures segments { IfOk result (λ both. both.1.items ≡ self.segments.items) }
        ensures fault { (queue : LogQueue) (version : Version) (files : List NumberedBytes) → IsFoundQueue queue version files self
            → IsTailTold queue version files tail → IfErr result (λ e. e ≢ Error.Memory → IsFoundFault mode queue version files e) }
    {
        let FoundQueue { segments, known } = self;
        let missing = find_missing(mode, segments.as_slice(), tail)?;
        let known = known_after_asking(known, &missing);
        Ok((ReadyQueue { missing, known }, segments))
    }
}

/// Returns what is known of `files`, or of the first file that will be begun if there is none.
///
/// # Errors
///
/// `Memory` alone.
fn known_files(files: &Vec<(FileSeq, Vec<u8>)>) -> Result<QueueFiles>
    ensures ok { IfOk result (AreOf (begun_or_first (map file_shown files.now.items))) }
    ensures room { IfOk result (λ known. known.len < 2 ^ 63) }
    ensures memory { IfErr result (λ e. e ≡ Error.Memory) }
{
    if files.is_empty() {
        return Ok(QueueFiles::first(*files.allocator(), FIRST_SEQ));
    }
    QueueFiles::of(files)
}

/// Returns what is known of files once `missing` was asked, given what is known of them before: a cut makes the last one
/// shorter.
fn known_after_asking(known: QueueFiles, missing: &Missing) -> QueueFiles
    ensures { result ≡ known_with missing.now known }
{
    match missing {
        Missing::Cut(tail) => QueueFiles {
            len: tail.offset,
            ..known
        },
        Missing::Nothing | Missing::FirstFile => known,
    }
}

/// Returns the last file of a queue as a part. `None` if the queue has no file.
pub fn last_file_part(segments: &[Segment]) -> Option<&FilePart>
    ensures { (queue : LogQueue) (version : Version) (files : List NumberedBytes) → AreWholeFiles queue version files segments.now
        → MatchOption result (files ≡ []) (λ part. IsLastOf queue version files part.now) }
{
    let (last, _) = segments.split_last()?;
    let (part, _) = last.split_last()?;
    Some(part)
}

/// Returns what is missing in a queue's files before anything can be put after them. The last one of `segments` has `tail`.
///
/// # Errors
///
/// Those of [`check_tail`] and of [`check_blocks`].
fn find_missing(mode: RecoveryMode, segments: &[Segment], tail: Option<CutTail>) -> Result<Missing>
    requires { (queue : LogQueue) × (version : Version) × (files : List NumberedBytes)
        × AreWholeFiles queue version files segments.now × IsTailTold queue version files tail }
    ensures ok { (queue : LogQueue) (version : Version) (files : List NumberedBytes) → AreWholeFiles queue version files segments.now
        → IsTailTold queue version files tail → AreConsecutive (numbers files) → IfOk result (IsMissingOf mode queue version files) }
    ensures fault { (queue : LogQueue) (version : Version) (files : List NumberedBytes) → AreWholeFiles queue version files segments.now
        → IsTailTold queue version files tail → IfErr result (λ e. e ≢ Error.Memory → IsFoundFault mode queue version files e) }
{
    let Some(last) = last_file_part(segments) else {
        return Ok(Missing::FirstFile);
    };
    check_tail(mode, last, &tail)?;
    check_blocks(last, &tail)?;
    match tail {
        None => Ok(Missing::Nothing),
        Some(tail) => Ok(Missing::Cut(tail)),
    }
}

/// Turns the segments of a queue's found files into those of the files that are there once `missing` was asked: adds an empty
/// first file, or cuts the last one. No byte is copied.
///
/// # Errors
///
/// `Memory` alone. The last file may be lost then.
pub fn complete_segments(
    queue: LogQueue,
    version: Version,
    missing: &Missing,
    segments: &mut Vec<Segment>,
) -> Result<()>
    requires { (mode : RecoveryMode) × (files : List NumberedBytes) × AreWholeFiles queue version files segments.old.items
        × IsMissingOf mode queue version files missing.now }
    ensures ok { (mode : RecoveryMode) (files : List NumberedBytes) → AreWholeFiles queue version files segments.old.items
        → IsMissingOf mode queue version files missing.now
        → OnOk result (AreWholeFiles queue version (left_by missing.now files) segments.new.items) }
    ensures memory { IfErr result (λ e. e ≡ Error.Memory) }
{
    match missing {
        Missing::Nothing => Ok(()),
        Missing::FirstFile => add_first_segment(queue, version, segments),
        Missing::Cut(tail) => cut_last_segment(segments, tail.offset as usize),
    }
}

/// Adds the segment of a queue's first file, which is empty.
///
/// # Errors
///
/// `Memory` alone.
fn add_first_segment(queue: LogQueue, version: Version, segments: &mut Vec<Segment>) -> Result<()>
    ensures ok { OnOk result (AreWholeFiles queue version [] segments.old.items
        → AreWholeFiles queue version ((1, []) ∷ []) segments.new.items) }
    ensures memory { IfErr result (λ e. e ≡ Error.Memory) }
{
    let alloc = *segments.allocator();
    let id = FileId::new(queue, FIRST_SEQ);
    let bytes = Vec::new(alloc);
    let first = FilePart::new(id, version, 0, bytes)?;
    segments.push(vec![in alloc; first]?)?;
    Ok(())
}

/// Cuts the last file of `segments` to its first `at` bytes. There is one, and it has as many.
///
/// # Errors
///
/// `Memory` alone. The file may be lost then.
fn cut_last_segment(segments: &mut Vec<Segment>, at: usize) -> Result<()>
    requires { (queue : LogQueue) × (version : Version) × (closed : List NumberedBytes) × (last : NumberedBytes)
        × AreWholeFiles queue version (closed ++ last ∷ []) segments.old.items × (at ≤ length last.1) }
    ensures ok { (queue : LogQueue) (version : Version) (files : List NumberedBytes) → AreWholeFiles queue version files segments.old.items
        → OnOk result (AreWholeFiles queue version (cut_last at files) segments.new.items) }
    ensures memory { IfErr result (λ e. e ≡ Error.Memory) }
{
    let Some(mut segment) = segments.pop() else {
        unreachable!()
    };
    let Some(mut part) = segment.pop() else {
        unreachable!()
    };
    part.split_off(at)?;
    segment.push(part)?;
    segments.push(segment)?;
    Ok(())
}
