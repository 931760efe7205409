//! Tests batches and contexts that don't fit a context: each call is refused, and so are all later ones.

use super::Word::{Clean, Put, Run, Truncate};
use super::{
    NONE, Shape, Word, context_of_words, overlay_of_words, part_with_word, replay_words,
    shape_of_region_1,
};
use crate::files::{replay_file, replay_without_copy};
use raft_memtable::{Error, FileId, Kept, LogQueue, MemTableRecoverContext, Result};
use raft_trials::again;
use std::alloc::Global;

/// The error with which a call is refused, and its text.
#[derive(Clone, Copy)]
enum Refusal {
    Corruption(&'static str),
    InvalidArgument(&'static str),
    Failed,
}

/// Tests whether a call is refused with this error.
///
/// # Errors
///
/// `Memory`, if the call returned it, whatever `refusal` is.
fn is_refused_as(answer: Result<()>, refusal: Refusal) -> Result<bool> {
    match (answer, refusal) {
        (Err(Error::Memory), _) => Err(Error::Memory),
        (Err(Error::Corruption(text)), Refusal::Corruption(reason)) => Ok(text.as_str() == reason),
        (Err(Error::InvalidArgument(text)), Refusal::InvalidArgument(reason)) => {
            Ok(text.as_str() == reason)
        }
        (Err(Error::Failed), Refusal::Failed) => Ok(true),
        _ => Ok(false),
    }
}

/// The queue of a context whose last file is the second; the queue of a batch, the number of its file, and that of the
/// file as whose it is replayed: an older file, the other queue, and twice another file than the batch's own; and the
/// reason why it is refused.
const BATCHES: [(LogQueue, LogQueue, u64, u64, &str); 4] = [
    (
        LogQueue::Rewrite,
        LogQueue::Rewrite,
        1,
        1,
        "a batch of a file below the last one",
    ),
    (
        LogQueue::Rewrite,
        LogQueue::Append,
        3,
        3,
        "a batch of the other queue",
    ),
    (
        LogQueue::Rewrite,
        LogQueue::Rewrite,
        3,
        4,
        "an item can't stand in a batch of its file",
    ),
    (
        LogQueue::Append,
        LogQueue::Append,
        3,
        4,
        "an item can't stand in a batch of its file",
    ),
];

/// Tests whether a batch of the file `own`, replayed as one of the file `given`, is refused as `Corruption` for this
/// reason, and the context has failed then.
///
/// # Errors
///
/// Those of the calls before; `Memory`.
fn is_batch_refused(
    alloc: Global,
    first: LogQueue,
    own: FileId,
    given: FileId,
    reason: &'static str,
) -> Result<bool> {
    let mut context = context_of_words(alloc, first, &[Put, Put])?;
    let file = part_with_word(alloc, 1, Put, own)?;
    let answer = replay_without_copy(&mut context, &file, given);
    let refused = is_refused_as(answer, Refusal::Corruption(reason))?;
    let again = is_refused_as(replay_file(&mut context, &file), Refusal::Failed)?;
    let failed = matches!(context.finish(), Err(Error::Failed));
    Ok(refused && again && failed)
}

/// What a context has read of its queue.
type Side = (LogQueue, &'static [Word]);

/// The error for a context that isn't of the right queue.
const QUEUE: Refusal = Refusal::InvalidArgument("a context of the other queue");

/// The error for a newer neighbor whose first file is older than the last file of the context.
const FILE: Refusal = Refusal::Corruption("the newer context begins in a file below the last one");

/// Two contexts; whether the second is merged into the first, for the rewrite queue, or put over it; and the error. One
/// of them, or both, are of the wrong queue, or the newer one begins in an older file.
const OTHERS: [(Side, Side, bool, Refusal); 9] = [
    (
        (LogQueue::Append, &[Put]),
        (LogQueue::Rewrite, &[Put]),
        true,
        QUEUE,
    ),
    (
        (LogQueue::Rewrite, &[Put]),
        (LogQueue::Append, &[Put]),
        true,
        QUEUE,
    ),
    (
        (LogQueue::Append, &[Put]),
        (LogQueue::Append, &[Put]),
        true,
        QUEUE,
    ),
    // Their runs leave a hole, for which neighbors of the append queue are refused too.
    (
        (LogQueue::Append, &[Run(10, 20)]),
        (LogQueue::Append, &[Run(40, 45)]),
        true,
        QUEUE,
    ),
    (
        (LogQueue::Rewrite, &[Run(10, 20)]),
        (LogQueue::Append, &[Run(40, 45)]),
        true,
        QUEUE,
    ),
    (
        (LogQueue::Append, &[Put]),
        (LogQueue::Append, &[]),
        false,
        QUEUE,
    ),
    (
        (LogQueue::Rewrite, &[Put]),
        (LogQueue::Rewrite, &[Put]),
        false,
        QUEUE,
    ),
    (
        (LogQueue::Rewrite, &[Put, Put]),
        (LogQueue::Rewrite, &[Put]),
        true,
        FILE,
    ),
    // Of another queue too, which is told first.
    (
        (LogQueue::Append, &[Put, Put]),
        (LogQueue::Append, &[Put]),
        true,
        QUEUE,
    ),
];

/// Tests whether a merge of two contexts, or the second put over the first, is refused with this error, and the first
/// has failed then.
///
/// # Errors
///
/// Those of the calls before; `Memory`.
fn is_other_context_refused(
    alloc: Global,
    older: Side,
    newer: Side,
    is_merged: bool,
    refusal: Refusal,
) -> Result<bool> {
    let mut context = context_of_words(alloc, older.0, older.1)?;
    let newer = context_of_words(alloc, newer.0, newer.1)?;
    let answer = if is_merged {
        context.merge(newer, LogQueue::Rewrite)
    } else {
        context.merge_append_context(newer)
    };
    Ok(is_refused_as(answer, refusal)? && has_failed(alloc, context)?)
}

/// Tests whether a context refuses a batch, a newer neighbor and a context of the append queue as `Failed`.
///
/// # Errors
///
/// `Memory` alone.
fn refuses_all_calls(alloc: Global, context: &mut MemTableRecoverContext) -> Result<bool> {
    let answer = replay_words(alloc, context, LogQueue::Append, 1, &[Put]);
    let replayed = is_refused_as(answer, Refusal::Failed)?;
    let answer = context.merge(MemTableRecoverContext::new(alloc)?, LogQueue::Append);
    let merged = is_refused_as(answer, Refusal::Failed)?;
    let answer = context.merge_append_context(MemTableRecoverContext::new(alloc)?);
    Ok(replayed && merged && is_refused_as(answer, Refusal::Failed)?)
}

/// Tests whether a context has failed: all calls on it are refused, those for what it holds and for its tables too.
///
/// # Errors
///
/// `Memory` alone.
fn has_failed(alloc: Global, mut context: MemTableRecoverContext) -> Result<bool> {
    let refuses = refuses_all_calls(alloc, &mut context)?;
    let kept = matches!(context.kept(), Err(Error::Failed));
    Ok(refuses && kept && matches!(context.finish(), Err(Error::Failed)))
}

/// What two neighbors have read of the append queue, and the reason why they aren't merged: a run of the newer one
/// leaves a hole behind the entries of the older one. Of the last newer one it is only known that its last run starts
/// above its truncation.
const HOLES: [(&[Word], &[Word], &str); 3] = [
    (
        &[Run(10, 20)],
        &[Run(40, 45)],
        "region 1: a run from index 40 on leaves a hole behind the entries, which end before index 20",
    ),
    (
        &[Run(10, 20)],
        &[Truncate(15), Run(16, 17)],
        "region 1: a run from index 16 on leaves a hole behind the entries, which end before index 15",
    ),
    (
        &[Run(10, 30)],
        &[Run(30, 35), Truncate(25), Run(28, 29)],
        "region 1: a run from above index 25 on leaves a hole behind the entries, which end before index 25",
    ),
];

/// Tests whether the merge of a newer neighbor whose run leaves a hole is refused for `reason`, and the context has
/// failed then.
///
/// # Errors
///
/// Those of the calls before; `Memory`.
fn is_hole_refused(
    alloc: Global,
    older: &[Word],
    newer: &[Word],
    reason: &'static str,
) -> Result<bool> {
    let mut context = context_of_words(alloc, LogQueue::Append, older)?;
    let newer = context_of_words(alloc, LogQueue::Append, newer)?;
    let answer = context.merge(newer, LogQueue::Append);
    Ok(is_refused_as(answer, Refusal::Corruption(reason))? && has_failed(alloc, context)?)
}

/// Tests whether a context over which one of the append queue was put takes no further context, and can't be put over
/// another.
///
/// # Errors
///
/// Those of the contexts' calls; `Memory`.
fn takes_no_second_overlay(alloc: Global) -> Result<bool> {
    let mut context = overlay_of_words(alloc, &[Run(10, 20)], &[Put])?;
    let answer = context.merge_append_context(MemTableRecoverContext::new(alloc)?);
    let again = is_refused_as(answer, Refusal::Failed)?;
    let answer = replay_words(alloc, &mut context, LogQueue::Rewrite, 1, &[Clean]);
    let replayed = is_refused_as(answer, Refusal::Failed)?;
    let kept = holds_expected_records(&context)?;
    let mut older = MemTableRecoverContext::new(alloc)?;
    let merged = is_refused_as(older.merge_append_context(context), Refusal::Failed)?;
    Ok(kept && again && replayed && merged)
}

/// What region 1 has once the append queue puts a key, and there are ten rewritten entries.
const TAKEN: Shape = Shape {
    table: true,
    first: Some(10),
    last: Some(19),
    key: true,
    append: 1,
    rewrite: 10,
    ..NONE
};

/// Tests whether a context over which one of the append queue was put still returns its tables, after a replay and a
/// merge that it refused.
///
/// # Errors
///
/// Those of the contexts' calls; `Memory`.
fn finishes_after_overlay(alloc: Global) -> Result<bool> {
    let mut context = overlay_of_words(alloc, &[Run(10, 20)], &[Put])?;
    let answer = replay_words(alloc, &mut context, LogQueue::Rewrite, 1, &[Clean]);
    let replayed = is_refused_as(answer, Refusal::Failed)?;
    let answer = context.merge(MemTableRecoverContext::new(alloc)?, LogQueue::Rewrite);
    let merged = is_refused_as(answer, Refusal::Failed)?;
    let tables = context.finish()?;
    Ok(replayed && merged && shape_of_region_1(&tables) == TAKEN)
}

/// Tests whether a newer context over which one of the append queue was put can't be merged into another, which has
/// failed then.
///
/// # Errors
///
/// Those of the contexts' calls; `Memory`.
fn refuses_overlaid_neighbor(alloc: Global) -> Result<bool> {
    let mut older = context_of_words(alloc, LogQueue::Rewrite, &[Put])?;
    let answer = older.merge(
        overlay_of_words(alloc, &[Run(10, 20)], &[Put])?,
        LogQueue::Rewrite,
    );
    let merged = is_refused_as(answer, Refusal::Failed)?;
    let failed = matches!(older.finish(), Err(Error::Failed));
    Ok(merged && failed)
}

/// Tests whether a context holds ten entries, those of region 2, and a key, and no item of the group that waited.
///
/// # Errors
///
/// Those of [`MemTableRecoverContext::kept`].
fn holds_expected_records(context: &MemTableRecoverContext) -> Result<bool> {
    let stays = Kept {
        entries: 13,
        keys: 1,
        marks: 0,
        deleted_keys: 0,
        cleaned: 0,
        waiting_items: 0,
    };
    Ok(context.kept()? == stays)
}

/// Tests whether batches and contexts that don't fit are refused.
///
/// # Errors
///
/// Those of the calls that are to succeed; `Memory`.
fn are_all_misfits_refused(alloc: Global) -> Result<bool> {
    let mut all = takes_no_second_overlay(alloc)?
        && finishes_after_overlay(alloc)?
        && refuses_overlaid_neighbor(alloc)?;
    for &(first, queue, own, given, reason) in &BATCHES {
        let (own, given) = (FileId::new(queue, own), FileId::new(queue, given));
        all &= is_batch_refused(alloc, first, own, given, reason)?;
    }
    for &(older, newer, is_merged, refusal) in &OTHERS {
        all &= is_other_context_refused(alloc, older, newer, is_merged, refusal)?;
    }
    for &(older, newer, reason) in &HOLES {
        all &= is_hole_refused(alloc, older, newer, reason)?;
    }
    Ok(all)
}

/// Tests that batches and contexts that don't fit are refused, and that a context which refused one has failed.
#[test]
fn batches_and_contexts_that_do_not_fit_are_refused(rt: HostRuntime) {
    assert!(rt; matches!(again!(are_all_misfits_refused(rt.alloc())), Ok(true)));
}
