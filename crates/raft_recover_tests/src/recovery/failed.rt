//! Tests contexts that refused a batch or a neighbor: they take no further call.

use super::batches::{RUN_10_20, RUN_20_25, RUN_35_40, RUN_40_45, TRUNCATE_20};
use super::histories::Batch;
use super::pieces::History;
use raft_base::{Error, FileId, FileSeq, LogQueue, Result};
use raft_memtable::MemTableRecoverContext;
use raft_records::LogItemBatch;
use raft_trials::again;
use std::alloc::Global;

/// The error with which a call is refused.
#[derive(Clone, Copy, PartialEq, Eq)]
enum Refusal {
    Corruption,
    Failed,
    Other,
}

/// Returns with which error a call was refused, if it was. `Memory` is passed on.
fn refusal_of(called: Result<()>) -> Result<Option<Refusal>> {
    match called {
        Ok(()) => Ok(None),
        Err(Error::Corruption(_)) => Ok(Some(Refusal::Corruption)),
        Err(Error::Failed) => Ok(Some(Refusal::Failed)),
        Err(Error::Memory) => Err(Error::Memory),
        Err(_) => Ok(Some(Refusal::Other)),
    }
}

/// Returns with which error the replay of an empty batch of a file is refused, if it is.
fn refusal_of_empty_batch(
    alloc: Global,
    context: &mut MemTableRecoverContext,
    seq: FileSeq,
) -> Result<Option<Refusal>> {
    let file = FileId::new(LogQueue::Append, seq);
    refusal_of(context.replay(LogItemBatch::default(alloc), file))
}

/// Tests whether a context refuses, as `Failed`, the merge of a newer one, and an append context put over it.
fn are_merges_refused_as_failed(
    alloc: Global,
    context: &mut MemTableRecoverContext,
) -> Result<bool> {
    let merged = context.merge(MemTableRecoverContext::new(alloc)?, LogQueue::Append);
    let overlaid = context.merge_append_context(MemTableRecoverContext::new(alloc)?);
    Ok(
        refusal_of(merged)? == Some(Refusal::Failed)
            && refusal_of(overlaid)? == Some(Refusal::Failed),
    )
}

/// Tests whether all calls on a context are refused as `Failed`: a batch of a later file, merges, those for what it
/// holds and for its tables.
fn are_all_calls_refused_as_failed(
    alloc: Global,
    mut context: MemTableRecoverContext,
) -> Result<bool> {
    let replayed = refusal_of_empty_batch(alloc, &mut context, 6)?;
    let failed = are_merges_refused_as_failed(alloc, &mut context)?;
    let held = matches!(context.kept(), Err(Error::Failed));
    Ok(
        replayed == Some(Refusal::Failed)
            && failed
            && held
            && matches!(context.finish(), Err(Error::Failed)),
    )
}

/// Tests whether a context that refused a file below the last one returns `Failed` from then on.
fn does_refused_batch_fail_context(alloc: Global) -> Result<bool> {
    let mut context = MemTableRecoverContext::new(alloc)?;
    for &(seq, refusal) in &[
        (5, None),
        (4, Some(Refusal::Corruption)),
        (6, Some(Refusal::Failed)),
    ] {
        if refusal_of_empty_batch(alloc, &mut context, seq)? != refusal {
            return Ok(false);
        }
    }
    are_all_calls_refused_as_failed(alloc, context)
}

/// Tests that a context that refused a batch refuses all further calls as `Failed`.
#[test]
fn contexts_that_refused_a_batch_stay_failed(rt: HostRuntime) {
    assert!(rt;
        matches!(
            again!(does_refused_batch_fail_context(rt.alloc())),
            Ok(true)
        )
    );
}

/// A run of region 1, and one that leaves a hole behind it.
const WITH_A_HOLE: [Batch; 2] = [(1, RUN_10_20), (2, RUN_40_45)];

/// Merges the context of a history's second batch into that of the first. Returns the first one's context if the merge
/// is refused as damage.
fn context_with_refused_neighbor(history: &History) -> Result<Option<MemTableRecoverContext>> {
    let mut context = history.replay_range(0, 1)?.context;
    let newer = history.replay_range(1, 2)?.context;
    match context.merge(newer, LogQueue::Append) {
        Err(Error::Corruption(_)) => Ok(Some(context)),
        Err(error) => Err(error),
        Ok(()) => Ok(None),
    }
}

/// Tests whether a context that refused its neighbor returns `Failed` from then on.
fn does_refused_neighbor_fail_context(alloc: Global, history: &History) -> Result<bool> {
    let Some(context) = context_with_refused_neighbor(history)? else {
        return Ok(false);
    };
    are_all_calls_refused_as_failed(alloc, context)
}

/// Tests whether a context that refused its neighbor is itself refused as `Failed`: as a newer neighbor, or, with
/// `is_taken_in`, when it is to be put over another.
fn is_failed_context_refused(alloc: Global, history: &History, is_taken_in: bool) -> Result<bool> {
    let Some(failed) = context_with_refused_neighbor(history)? else {
        return Ok(false);
    };
    let mut context = MemTableRecoverContext::new(alloc)?;
    let refused = if is_taken_in {
        context.merge_append_context(failed)
    } else {
        context.merge(failed, LogQueue::Append)
    };
    Ok(refusal_of(refused)? == Some(Refusal::Failed))
}

/// Tests whether such a context is refused in both ways.
fn is_failed_context_refused_everywhere(alloc: Global) -> Result<bool> {
    let history = History::from_digits(alloc, LogQueue::Append, &WITH_A_HOLE)?;
    Ok(
        does_refused_neighbor_fail_context(alloc, &history)?
            && is_failed_context_refused(alloc, &history, false)?
            && is_failed_context_refused(alloc, &history, true)?,
    )
}

/// Tests that a context that refused its neighbor can't be merged nor put over another.
#[test]
fn contexts_that_refused_a_merge_stay_failed(rt: HostRuntime) {
    assert!(rt;
        matches!(
            again!(is_failed_context_refused_everywhere(rt.alloc())),
            Ok(true)
        )
    );
}

/// A batch of an older context and those of a newer one, whose runs leave a hole together; and the text of the error.
/// It names no batch: a context doesn't remember where its runs came from.
static HOLES: [(&[Batch], &str); 2] = [
    (
        &WITH_A_HOLE,
        "region 1: a run from index 40 on leaves a hole behind the entries, which end before index 20",
    ),
    // The newer context's first run fits, and is taken away again.
    (
        &[
            (1, RUN_10_20),
            (2, RUN_20_25),
            (2, TRUNCATE_20),
            (3, RUN_35_40),
        ],
        "region 1: a run from above index 20 on leaves a hole behind the entries, which end before index 20",
    ),
];

/// Returns the text with which the context of the first batch refuses that of the others; an empty text where it
/// doesn't.
fn text_of_refused_merge(alloc: Global, batches: &[Batch]) -> Result<String> {
    let history = History::from_digits(alloc, LogQueue::Append, batches)?;
    let mut context = history.replay_range(0, 1)?.context;
    let newer = history.replay_range(1, batches.len())?.context;
    match context.merge(newer, LogQueue::Append) {
        Ok(()) => Ok(String::new(alloc)),
        Err(Error::Corruption(text)) => Ok(text),
        Err(error) => Err(error),
    }
}

/// Tests the text with which a merge that would leave a hole is refused.
#[test]
fn refused_merges_name_the_hole(rt: HostRuntime) {
    for &(batches, text) in &HOLES {
        let told = again!(text_of_refused_merge(rt.alloc(), batches));
        assert!(rt; told.is_ok_and(|told| told.as_str() == text), "{text}");
    }
}
