//! Contexts that read batches, are merged, and are put over one another.

use crate::found::Found;
use crate::histories::{Batch, History, batch_segments, part_with_batch};
use crate::steps::Step;
use crate::writes::print_tables;
use raft_memtable::{Error, FileId, LogItemBatch, LogQueue, MemTableRecoverContext, Result};
use raft_records::{FilePart, next_batch};
use raft_recover::Segment;

/// Reads each batch of `history` with a context of its own, merges the contexts, and adds the lines of the
/// tables that this gives.
///
/// # Errors
///
/// That of the first call that fails.
pub(crate) fn merge_history(found: &mut Found, history: History) -> Result<()> {
    let context = merge_batches(found, history.queue, history.batches)?;
    finish_and_print_context(found, context)
}

/// Finishes `context`, and adds the lines of its tables, as [`print_tables`] does.
///
/// # Errors
///
/// `Failed` for a failed context; `Memory`.
fn finish_and_print_context(found: &mut Found, context: MemTableRecoverContext) -> Result<()> {
    let tables = context.finish()?;
    print_tables(found, &tables)
}

/// Reads each of `batches` of `queue` with a context of its own, and returns these contexts merged.
///
/// # Errors
///
/// Those of [`merge_segments`].
fn merge_batches(
    found: &mut Found,
    queue: LogQueue,
    batches: &[Batch],
) -> Result<MemTableRecoverContext> {
    let segments = batch_segments(found.alloc, queue, batches)?;
    merge_segments(found, queue, segments.as_slice())
}

/// Reads each of `segments` with a context of its own, and returns these contexts merged, from the first one
/// on. If a merge is refused, notes in `found` whether the context is failed.
///
/// # Errors
///
/// That of the first reading or merge that is refused; `Memory`.
fn merge_segments(
    found: &mut Found,
    queue: LogQueue,
    segments: &[Segment],
) -> Result<MemTableRecoverContext> {
    let mut context = MemTableRecoverContext::new(found.alloc)?;
    for segment in segments {
        let newer = read_segment(found, segment)?;
        let answer = context.merge(newer, queue);
        note_failed_context(found, &mut context, &answer);
        answer?;
    }
    Ok(context)
}

/// Returns a context that has read the first batch of each part of `segment`.
///
/// # Errors
///
/// Those of [`replay_first_batch`].
fn read_segment(found: &mut Found, segment: &Segment) -> Result<MemTableRecoverContext> {
    let mut context = MemTableRecoverContext::new(found.alloc)?;
    for part in segment {
        replay_first_batch(found, &mut context, part)?;
    }
    Ok(context)
}

/// Replays the first batch of `part` into `context`. Does nothing if the part has no bytes. If the batch is
/// refused, notes in `found` whether the context is failed.
///
/// # Errors
///
/// Those of [`next_batch`] and [`MemTableRecoverContext::replay`].
fn replay_first_batch(
    found: &mut Found,
    context: &mut MemTableRecoverContext,
    part: &FilePart,
) -> Result<()> {
    let Some((batch, _)) = next_batch(part, 0)? else {
        return Ok(());
    };
    let answer = context.replay(batch, part.id());
    note_failed_context(found, context, &answer);
    answer
}

/// Notes in `found` whether `context` is failed, so that a further `replay` and a `kept` return `Failed`.
/// Does nothing unless `answer`, the result of its last call, is an error.
fn note_failed_context(
    found: &mut Found,
    context: &mut MemTableRecoverContext,
    answer: &Result<()>,
) {
    if answer.is_ok() {
        return;
    }
    let file = FileId::new(LogQueue::Append, u64::MAX);
    let again = context.replay(LogItemBatch::default(found.alloc), file);
    let kept = context.kept();
    found.note_what_refusal_left(
        matches!(again, Err(Error::Failed)) && matches!(kept, Err(Error::Failed)),
    );
}

/// Reads the batches `rewritten` of the rewrite queue and `appended` of the append queue, puts the context of
/// the append queue over that of the rewrite queue, and adds the lines of the tables that this gives. If that
/// is refused, notes in `found` whether the context is failed.
///
/// # Errors
///
/// That of the first call that fails.
pub(crate) fn overlay_histories(
    found: &mut Found,
    rewritten: &[Batch],
    appended: &[Batch],
) -> Result<()> {
    let mut context = merge_batches(found, LogQueue::Rewrite, rewritten)?;
    let append = merge_batches(found, LogQueue::Append, appended)?;
    let answer = context.merge_append_context(append);
    note_failed_context(found, &mut context, &answer);
    answer?;
    finish_and_print_context(found, context)
}

/// Adds a line with what a context holds after 20 batches that put the same key.
///
/// # Errors
///
/// That of the first call that fails.
pub(crate) fn print_kept_of_many_puts(found: &mut Found) -> Result<()> {
    let mut context = MemTableRecoverContext::new(found.alloc)?;
    for seq in 1..21u64 {
        let file = FileId::new(LogQueue::Append, seq);
        let part = part_with_batch(found.alloc, file, 0, &[Step::Put(1, b"k", b"v")])?;
        replay_first_batch(found, &mut context, &part)?;
    }
    print_kept(found, &context)
}

/// Adds a line with what the context of `history` holds.
///
/// # Errors
///
/// That of the first call that fails.
pub(crate) fn print_kept_of_history(found: &mut Found, history: History) -> Result<()> {
    let context = merge_batches(found, history.queue, history.batches)?;
    print_kept(found, &context)
}

/// Adds a line with what `context` holds, in numbers, as `entries 5 keys 1 marks 2 deleted 0 cleaned 0
/// waiting 3`.
///
/// # Errors
///
/// `Failed` for a failed context; `Memory`.
fn print_kept(found: &mut Found, context: &MemTableRecoverContext) -> Result<()> {
    let kept = context.kept()?;
    let alloc = found.alloc;
    let (entries, keys, marks) = (kept.entries, kept.keys, kept.marks);
    let (deleted, cleaned, waiting) = (kept.deleted_keys, kept.cleaned, kept.waiting_items);
    found.append_line(format!(in alloc;
        "entries {entries} keys {keys} marks {marks} deleted {deleted} cleaned {cleaned} waiting {waiting}"
    )?.as_str())
}
