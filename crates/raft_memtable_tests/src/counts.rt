//! Tests how many records contexts count as written and deleted: where they only replay, and where a clean meets an
//! older table.

use crate::overlays::{Word, context_of_words};
use LogQueue::{Append, Rewrite};
use Word::{Clean, Compact, Delete, Put, Run, Truncate};
use raft_memtable::{LogQueue, MemTableRecoverContext, Result};
use raft_trials::again;
use std::alloc::Global;

/// How many records are live in the append queue, how many were written to the rewrite queue, and how many deleted from
/// it.
type Counts = (usize, usize, usize);

/// Returns the counts of the tables of a context.
///
/// # Errors
///
/// Those of [`MemTableRecoverContext::finish`].
fn counts_of_context(context: MemTableRecoverContext) -> Result<Counts> {
    let accessor = context.finish()?;
    let stats = accessor.stats();
    Ok((
        stats.live_entries(Append),
        stats.rewrite_entries(),
        stats.deleted_rewrite_entries(),
    ))
}

/// What a context reads of a queue; what a newer one reads of a queue, if there is one; and the counts of both
/// together.
type Row = (
    LogQueue,
    &'static [Word],
    Option<(LogQueue, &'static [Word])>,
    Counts,
);

static ROWS: [Row; 17] = [
    (Rewrite, &[Run(10, 20)], None, (0, 10, 0)),
    (Rewrite, &[Run(10, 20), Run(15, 18)], None, (0, 13, 5)),
    (Rewrite, &[Run(10, 20), Run(30, 32)], None, (0, 12, 10)),
    (Rewrite, &[Run(10, 20), Compact(15)], None, (0, 10, 5)),
    (Rewrite, &[Run(10, 20), Truncate(14)], None, (0, 10, 6)),
    (Rewrite, &[Put, Put], None, (0, 2, 1)),
    (Rewrite, &[Put, Delete], None, (0, 1, 1)),
    (Rewrite, &[Run(10, 20), Put, Clean], None, (0, 11, 11)),
    (
        Rewrite,
        &[Run(10, 20), Clean, Run(30, 32)],
        None,
        (0, 12, 10),
    ),
    (Append, &[Run(10, 20), Run(15, 18), Put], None, (9, 0, 0)),
    (
        Append,
        &[Run(10, 20), Compact(15), Truncate(17), Delete],
        None,
        (2, 0, 0),
    ),
    (Append, &[Run(10, 20), Put, Clean, Put], None, (1, 0, 0)),
    // What a clean takes away of an older table is deleted.
    (
        Rewrite,
        &[Run(10, 20)],
        Some((Rewrite, &[Clean])),
        (0, 10, 10),
    ),
    (
        Rewrite,
        &[Run(10, 20)],
        Some((Rewrite, &[Clean, Put])),
        (0, 11, 10),
    ),
    (
        Rewrite,
        &[Put],
        Some((Rewrite, &[Clean, Run(5, 8)])),
        (0, 4, 1),
    ),
    (
        Rewrite,
        &[Run(10, 20)],
        Some((Append, &[Clean])),
        (0, 10, 10),
    ),
    (
        Rewrite,
        &[Run(10, 20)],
        Some((Append, &[Clean, Put])),
        (1, 10, 10),
    ),
];

/// Returns the rows of contexts.
fn rows_of_contexts() -> &'static [Row] {
    &ROWS
}

/// Returns the counts of a row's contexts: the newer one is merged into the older one, or put over it, if it is of the
/// append queue.
///
/// # Errors
///
/// Those of the contexts' calls; `Memory`.
fn counts_after_merge(alloc: Global, row: &Row) -> Result<Counts> {
    let (queue, older, newer, _) = *row;
    let mut context = context_of_words(alloc, queue, older)?;
    if let Some((queue, words)) = newer {
        let newer = context_of_words(alloc, queue, words)?;
        match queue {
            Rewrite => context.merge(newer, Rewrite)?,
            Append => context.merge_append_context(newer)?,
        }
    }
    counts_of_context(context)
}

/// Tests the live counts of two contexts that are merged, or of which one is put over the other.
#[test]
fn live_counts_are_right_after_merges_of_contexts(rt: HostRuntime) {
    for row in rows_of_contexts() {
        let counts = again!(counts_after_merge(rt.alloc(), row));
        assert!(rt;
            matches!(counts, Ok(counts) if counts == row.3),
            "{:?}",
            row.3
        );
    }
}
