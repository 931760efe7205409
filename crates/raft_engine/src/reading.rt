//! Reading found files, and what that gives.

ghost use Rattle.std.specs.Prelude.{◌≡◌, ◌≢◌, ◌⊎◌, List, map, IfErr, IfOk, OnOk};
ghost use Rattle.raft_base.specs.declared.pipe_log.LogQueue.TheVariants.{Append, Rewrite};
ghost use Rattle.raft_files.specs.Asks.{NumberedBytes};
ghost use Rattle.raft_files.specs.HeldFiles.{file_shown};
ghost use Rattle.raft_engine.specs.CutTails.{IsTailTold};
ghost use Rattle.raft_engine.specs.DamagedBatches.{AreDamagedTold};
ghost use Rattle.raft_engine.specs.FileSegments.{AreSegmentsOfFiles};
ghost use Rattle.raft_engine.specs.FoundFiles.{IsFoundFault};
ghost use Rattle.raft_engine.specs.FoundQueues.{IsFoundQueue, left_by};
ghost use Rattle.raft_engine.specs.ReadContexts.{AreReadBy, HaveReadFound};
ghost use Rattle.raft_engine.specs.ReadFound.{AreReadFound, AreReadyFiles, IsNoRefusal};
ghost use Rattle.raft_engine.specs.Unopened.{AreBothAccepted, AreUngroupedAs, AreUnrecoveredAs, IsOpeningRefusal, IsTooLongAs};

use crate::both_reading::read_both;
use crate::found_queue::{FoundQueue, ReadyQueue, complete_segments};
use crate::groups::check_groups;
use crate::missing::Missing;
use crate::queue_files::QueueFiles;
use crate::recovered::{CutTail, DamagedBatch};
use crate::recovery_mode::RecoveryMode;
use crate::segments::check_few_bytes;
use raft_accessor::MemTableAccessor;
use raft_base::{Error, FileSeq, LogQueue, Result, Version};
use raft_contexts::MemTableRecoverContext;
use raft_engine_laws::openings::taken_away_is_told;
use raft_engine_prefixes::torn_tails::torn_tails_are_found;
use raft_records::LogBatch;
use raft_recover::{files_hold_few_records, replay_both};
use raft_replay::{Segment, segments_read_as_one_history};
use std::alloc::Global;
use std::thread::Threads;

/// What is known of the found files of both queues that may be opened.
#[derive(Drop)]
pub struct Ready {
    /// What is known of the append files.
    pub append: ReadyQueue,
    /// What is known of the rewrite files.
    pub rewrite: ReadyQueue,
}

/// Found files of both queues that may be opened, with their segments.
#[derive(Drop)]
pub struct ReadySegments {
    /// What is known of the files.
    pub ready: Ready,
    /// The segments of the append files.
    pub append: Vec<Segment>,
    /// The segments of the rewrite files.
    pub rewrite: Vec<Segment>,
}

/// What the reading of found files gives, before anything is asked of them: what is missing in each queue, the files that are
/// there once that was asked, their tables, and what the rewrite queue is to be told, at once or later. To tell it means to
/// put a batch there of commands and deletions, which say what the append files took away of rewritten records.
#[derive(Drop)]
pub struct Reading {
    /// What is missing in the append queue.
    pub append_missing: Missing,
    /// What is missing in the rewrite queue.
    pub rewrite_missing: Missing,
    /// The append files that are there once what is missing was asked.
    pub append: QueueFiles,
    /// The rewrite files that are there once what is missing was asked.
    pub rewrite: QueueFiles,
    /// The tables of all regions, with the cleaned regions and the live counts.
    pub accessor: MemTableAccessor,
    /// What the rewrite queue is to be told at once, as an encoded batch.
    pub told: LogBatch,
    /// The length of that batch in bytes; 0 if it has no items.
    pub told_len: usize,
    /// What the rewrite queue may be told later.
    pub untold: LogBatch,
}

/// What the reading of found files gives, and which batches of the last append file have damaged entries.
#[derive(Drop)]
pub struct ReadFiles {
    /// What the reading gives.
    pub reading: Reading,
    /// The batches of the last append file with damaged entries, in order.
    pub damaged: Vec<DamagedBatch>,
}

impl Ready {
    /// Checks that the found files of both queues may be opened in `mode`. Returns what is known of them, and their segments,
    /// unchanged. `append_tail` and `rewrite_tail` are what [`FoundQueue::find_tail`] returned of each queue.
    ///
    /// # Errors
    ///
    /// Those of [`FoundQueue::into_ready`].
    fn of(
        mode: RecoveryMode,
        append: FoundQueue,
        append_tail: Option<CutTail>,
        rewrite: FoundQueue,
        rewrite_tail: Option<CutTail>,
    ) -> Result<ReadySegments>
        requires { (version : Version) × (append_files : List NumberedBytes) × (rewrite_files : List NumberedBytes)
            × IsFoundQueue Append version append_files append × IsFoundQueue Rewrite version rewrite_files rewrite
            × IsTailTold Append version append_files append_tail × IsTailTold Rewrite version rewrite_files rewrite_tail }
        ensures ok { (version : Version) (append_files rewrite_files : List NumberedBytes) → IsFoundQueue Append version append_files append
            → IsFoundQueue Rewrite version rewrite_files rewrite → IsTailTold Append version append_files append_tail
            → IsTailTold Rewrite version rewrite_files rewrite_tail
            → IfOk result (λ both. AreReadyFiles mode version append_files rewrite_files both.ready) }
        ensures append_segments { IfOk result (λ both. both.append.items ≡ append.segments.items) }
        ensures rewrite_segments { IfOk result (λ both. both.rewrite.items ≡ rewrite.segments.items) }
        ensures fault { (version : Version) (append_files rewrite_files : List NumberedBytes) → IsFoundQueue Append version append_files append
            → IsFoundQueue Rewrite version rewrite_files rewrite → IsTailTold Append version append_files append_tail
            → IsTailTold Rewrite version rewrite_files rewrite_tail → IfErr result (λ e. e ≢ Error.Memory
            → IsFoundFault mode Append version append_files e ⊎ IsFoundFault mode Rewrite version rewrite_files e) }
    {
        let (append_ready, append_segments) = append.into_ready(mode, append_tail)?;
        let (rewrite_ready, rewrite_segments) = rewrite.into_ready(mode, rewrite_tail)?;
        Ok(ReadySegments {
            ready: Ready {
                append: append_ready,
                rewrite: rewrite_ready,
            },
            append: append_segments,
            rewrite: rewrite_segments,
        })
    }

    /// Puts `appended`, the context that has read the append files, over `rewritten`, that of the rewrite files, and finds out
    /// what the rewrite queue has to be told of what the append files take away. Returns all that the reading of these files
    /// gives.
    ///
    /// # Errors
    ///
    /// `Full` if what has to be told at once has 2^56 bytes or more; `Memory`. The contexts are gone then.
    pub fn with_contexts(
        self,
        alloc: Global,
        appended: MemTableRecoverContext,
        rewritten: MemTableRecoverContext,
    ) -> Result<Reading>
        ensures ok { (mode : RecoveryMode) (version : Version) (append_files rewrite_files : List NumberedBytes) → AreReadyFiles mode version append_files rewrite_files self
            → AreReadBy version (left_by self.append.missing append_files) (left_by self.rewrite.missing rewrite_files) appended rewritten
            → IfOk result (AreReadFound version append_files rewrite_files) }
        ensures fault { (version : Version) (append_left rewrite_left : List NumberedBytes) → AreReadBy version append_left rewrite_left appended rewritten
            → IfErr result (λ e. e ≢ Error.Memory → IsTooLongAs version append_left rewrite_left e) }
    {
        taken_away_is_told();
        let Ready { append, rewrite } = self;
        let taken = appended.taken_away(alloc, &rewritten)?;
        let mut both = rewritten;
        both.merge_append_context(appended)?;
        let accessor = both.finish()?;
        let mut told = taken.at_once;
        told.is_read_again();
        let told_len = told.finish_populate()?;
        Ok(Reading {
            append_missing: append.missing,
            rewrite_missing: rewrite.missing,
            append: append.known,
            rewrite: rewrite.known,
            accessor,
            told,
            told_len,
            untold: taken.later,
        })
    }
}

impl ReadySegments {
    /// Checks that the found files of both queues may be opened in `mode`, and turns their segments into those of the files
    /// that are there once what is missing was asked. `append_tail` is what [`FoundQueue::find_tail`] returned of the append
    /// queue; the last rewrite file is read here to find its tail.
    ///
    /// # Errors
    ///
    /// Those of [`FoundQueue::into_ready`]; `Full` if the files of a queue have 2^63 bytes or more then.
    fn of(
        mode: RecoveryMode,
        version: Version,
        append: FoundQueue,
        append_tail: Option<CutTail>,
        rewrite: FoundQueue,
    ) -> Result<ReadySegments>
        requires { (append_files : List NumberedBytes) × (rewrite_files : List NumberedBytes)
            × IsFoundQueue Append version append_files append × IsFoundQueue Rewrite version rewrite_files rewrite
            × IsTailTold Append version append_files append_tail }
        ensures ok { (append_files rewrite_files : List NumberedBytes) → IsFoundQueue Append version append_files append
            → IsFoundQueue Rewrite version rewrite_files rewrite → IsTailTold Append version append_files append_tail → IfOk result (λ both. AreReadyFiles mode version append_files rewrite_files both.ready
            × AreSegmentsOfFiles Append version (left_by both.ready.append.missing append_files) both.append.items
            × AreSegmentsOfFiles Rewrite version (left_by both.ready.rewrite.missing rewrite_files) both.rewrite.items) }
        ensures fault { (append_files rewrite_files : List NumberedBytes) → IsFoundQueue Append version append_files append
            → IsFoundQueue Rewrite version rewrite_files rewrite → IsTailTold Append version append_files append_tail
            → IfErr result (IsOpeningRefusal IsNoRefusal mode version append_files rewrite_files) }
    {
        let rewrite_tail = rewrite.find_tail()?;
        let mut both = Ready::of(mode, append, append_tail, rewrite, rewrite_tail)?;
        complete_segments(
            LogQueue::Append,
            version,
            &both.ready.append.missing,
            &mut both.append,
        )?;
        complete_segments(
            LogQueue::Rewrite,
            version,
            &both.ready.rewrite.missing,
            &mut both.rewrite,
        )?;
        check_few_bytes(both.append.as_slice())?;
        check_few_bytes(both.rewrite.as_slice())?;
        Ok(both)
    }
}

/// Reads found files by `workers` threads, each byte once, and recovers the tables of those that are there once what is
/// missing was asked. It also checks the entries of the last append file. `append` and `rewrite` are the numbers and bytes of
/// each queue's files, oldest first.
///
/// # Errors
///
/// Those of [`FoundQueue::of`] and of [`FoundQueue::into_ready`], and those of [`read_again_in_order`]: if the files are
/// refused they are read once more, since the error must be that of a tail which `mode` refuses, if there is one, before any
/// other.
pub fn read_found_files<R: Threads + Sync>(
    rt: &R,
    alloc: Global,
    mode: RecoveryMode,
    version: Version,
    append: Vec<(FileSeq, Vec<u8>)>,
    rewrite: Vec<(FileSeq, Vec<u8>)>,
    workers: usize,
) -> Result<ReadFiles>
    ensures ok { IfOk result (λ read. AreReadFound version (map file_shown append.items)
        (map file_shown rewrite.items) read.reading) }
    ensures damaged { IfOk result (λ read. AreDamagedTold version (map file_shown append.items) read.damaged.items) }
    ensures accepted { OnOk result (AreBothAccepted mode version (map file_shown append.items)
        (map file_shown rewrite.items)) }
    ensures fault { IfErr result (IsOpeningRefusal (AreUnrecoveredAs version workers) mode version (map file_shown append.items)
        (map file_shown rewrite.items)) }
{
    let append = FoundQueue::of(LogQueue::Append, version, append)?;
    let rewrite = FoundQueue::of(LogQueue::Rewrite, version, rewrite)?;
    let (segments, rewrite_segments) = (append.segments.as_slice(), rewrite.segments.as_slice());
    let read = match read_both(rt, alloc, rewrite_segments, segments, workers) {
        Ok(read) => read,
        Err(Error::Memory) => return Err(Error::Memory),
        Err(_) => return read_again_in_order(rt, alloc, mode, version, append, rewrite, workers),
    };
    files_hold_few_records();
    torn_tails_are_found();
    let (appended, rewritten) = (read.appended, read.rewritten);
    let damaged = append.find_damaged(rt, &appended.tail, workers)?;
    let both = Ready::of(mode, append, appended.tail, rewrite, rewritten.tail)?;
    let reading = both
        .ready
        .with_contexts(alloc, appended.machine, rewritten.machine)?;
    Ok(ReadFiles { reading, damaged })
}

/// Reads found files that a reading has refused once more, in the order in which errors have to be reported.
///
/// # Errors
///
/// Those of `ReadySegments::of` and of `replay_both`; `InvalidArgument` if an atomic group of the rewrite files doesn't stand
/// in a row, in one file; `Full` if what has to be told at once has 2^56 bytes or more; `Memory`.
fn read_again_in_order<R: Threads + Sync>(
    rt: &R,
    alloc: Global,
    mode: RecoveryMode,
    version: Version,
    append: FoundQueue,
    rewrite: FoundQueue,
    workers: usize,
) -> Result<ReadFiles>
    requires { (append_files : List NumberedBytes) × (rewrite_files : List NumberedBytes)
        × IsFoundQueue Append version append_files append × IsFoundQueue Rewrite version rewrite_files rewrite }
    ensures ok { (append_files rewrite_files : List NumberedBytes) → IsFoundQueue Append version append_files append
        → IsFoundQueue Rewrite version rewrite_files rewrite → IfOk result (λ read. AreReadFound version append_files rewrite_files read.reading) }
    ensures damaged { (append_files : List NumberedBytes) → IsFoundQueue Append version append_files append
        → IfOk result (λ read. AreDamagedTold version append_files read.damaged.items) }
    ensures accepted { (append_files rewrite_files : List NumberedBytes) → IsFoundQueue Append version append_files append
        → IsFoundQueue Rewrite version rewrite_files rewrite → OnOk result (AreBothAccepted mode version append_files rewrite_files) }
    ensures fault { (append_files rewrite_files : List NumberedBytes) → IsFoundQueue Append version append_files append
        → IsFoundQueue Rewrite version rewrite_files rewrite
        → IfErr result (IsOpeningRefusal (AreUnrecoveredAs version workers) mode version append_files rewrite_files) }
{
    files_hold_few_records();
    segments_read_as_one_history();
    let tail = append.find_tail()?;
    let damaged = append.find_damaged(rt, &tail, workers)?;
    let both = ReadySegments::of(mode, version, append, tail, rewrite)?;
    let (append, rewrite) = (both.append.as_slice(), both.rewrite.as_slice());
    let (rewritten, appended) = replay_both(rt, alloc, rewrite, append, workers)?;
    check_groups(alloc, rewrite)?;
    let reading = both.ready.with_contexts(alloc, appended, rewritten)?;
    Ok(ReadFiles { reading, damaged })
}

/// Returns what the reading of found files gives, as [`read_found_files`] does, from contexts of the caller: `appended` has
/// read the batches of the append files and `rewritten` those of the rewrite files, each up to the tail of the last file. It
/// starts no threads.
///
/// # Errors
///
/// Those of [`read_found_files`], but never for a batch that can't be read or can't follow, nor for the number of workers.
pub fn read_with_contexts(
    alloc: Global,
    mode: RecoveryMode,
    version: Version,
    append: Vec<(FileSeq, Vec<u8>)>,
    rewrite: Vec<(FileSeq, Vec<u8>)>,
    appended: MemTableRecoverContext,
    rewritten: MemTableRecoverContext,
) -> Result<ReadFiles>
    requires { HaveReadFound version (map file_shown append.items) (map file_shown rewrite.items) appended rewritten }
    ensures ok { IfOk result (λ read. AreReadFound version (map file_shown append.items)
        (map file_shown rewrite.items) read.reading) }
    ensures damaged { IfOk result (λ read. AreDamagedTold version (map file_shown append.items) read.damaged.items) }
    ensures accepted { OnOk result (AreBothAccepted mode version (map file_shown append.items)
        (map file_shown rewrite.items)) }
    ensures fault { IfErr result (IsOpeningRefusal (AreUngroupedAs version) mode version (map file_shown append.items)
        (map file_shown rewrite.items)) }
{
    torn_tails_are_found();
    files_hold_few_records();
    segments_read_as_one_history();
    let append = FoundQueue::of(LogQueue::Append, version, append)?;
    let rewrite = FoundQueue::of(LogQueue::Rewrite, version, rewrite)?;
    let tail = append.find_tail()?;
    let damaged = append.find_damaged_alone(&tail)?;
    let both = ReadySegments::of(mode, version, append, tail, rewrite)?;
    check_groups(alloc, both.rewrite.as_slice())?;
    let reading = both.ready.with_contexts(alloc, appended, rewritten)?;
    Ok(ReadFiles { reading, damaged })
}
