//! Tests contexts of the rewrite queue over which the context of the append queue is put.

ghost use Rattle.std.specs.Prelude.{◌≡◌, OnOk};
ghost use Rattle.raft_records.specs.LogBatch.{is_open};

mod refused;

use crate::files::{file_with_batch, replay_file};
use crate::groups::part_with_marker;
use raft_memtable::{FileId, LogQueue, MemTableAccessor, MemTableRecoverContext, Result};
use raft_records::{AtomicGroupStatus, Command, FilePart, LogBatch};
use raft_samples::{Proposal, Proposals};
use raft_trials::again;
use std::alloc::Global;

/// What a batch does to region 1.
#[derive(Clone, Copy)]
pub(crate) enum Word {
    /// Adds entries from the first index on and below the second.
    Run(u64, u64),
    Compact(u64),
    Truncate(u64),
    Clean,
    Put,
    Delete,
}

use Word::{Clean, Compact, Delete, Put, Run, Truncate};

/// Adds an item for what a word does to a region.
///
/// # Errors
///
/// Those of the batch's call; `Memory`. The batch is still open then.
fn add_word(alloc: Global, region: u64, word: Word, batch: &mut LogBatch) -> Result<()>
    requires { batch.old.stage ≡ is_open }
    ensures { OnOk result (batch.new.stage ≡ is_open) }
{
    match word {
        Run(start, end) => {
            let mut proposals = Vec::new(alloc);
            for index in start..end {
                let text = Vec::from_slice(alloc, b"x")?;
                proposals.push(Proposal { index, text })?;
            }
            batch.add_entries::<Proposals>(region, proposals.as_slice())
        }
        Compact(index) => batch.add_command(region, Command::Compact { index }),
        Truncate(index) => batch.add_command(region, Command::Truncate { index }),
        Clean => batch.add_command(region, Command::Clean),
        Put => batch.put(
            region,
            Vec::from_slice(alloc, b"k")?,
            Vec::from_slice(alloc, b"v")?,
        ),
        Delete => batch.delete(region, Vec::from_slice(alloc, b"k")?),
    }
}

/// Returns a part with a batch of what a word does to a region.
///
/// # Errors
///
/// Those of making the batch and its bytes; `Memory`.
fn part_with_word(alloc: Global, region: u64, word: Word, file: FileId) -> Result<FilePart> {
    let mut batch = LogBatch::default(alloc);
    add_word(alloc, region, word, &mut batch)?;
    file_with_batch(alloc, file, batch)
}

/// Replays a batch for each word, each in a file of its own.
///
/// # Errors
///
/// That of the first batch that is refused; no further one is replayed then. `Memory`.
fn replay_words(
    alloc: Global,
    context: &mut MemTableRecoverContext,
    queue: LogQueue,
    region: u64,
    words: &[Word],
) -> Result<()> {
    let mut seq = 1u64;
    for word in words {
        let part = part_with_word(alloc, region, *word, FileId::new(queue, seq))?;
        replay_file(context, &part)?;
        seq = seq.saturating_add(1);
    }
    Ok(())
}

/// Returns a context that has read batches of a queue with these words on region 1.
///
/// # Errors
///
/// Those of the contexts' calls; `Memory`.
pub(crate) fn context_of_words(
    alloc: Global,
    queue: LogQueue,
    words: &[Word],
) -> Result<MemTableRecoverContext> {
    let mut context = MemTableRecoverContext::new(alloc)?;
    replay_words(alloc, &mut context, queue, 1, words)?;
    Ok(context)
}

/// What region 1 has once the context of the append queue was put over.
#[derive(Clone, Copy, PartialEq, Debug)]
struct Shape {
    /// Whether it has a table.
    table: bool,
    first: Option<u64>,
    last: Option<u64>,
    key: bool,
    /// How many records are live in each queue.
    append: usize,
    rewrite: usize,
    cleaned: usize,
    /// Whether the other regions are as the rewrite queue has left them.
    beside: bool,
}

/// No table and no record.
const NONE: Shape = Shape {
    table: false,
    first: None,
    last: None,
    key: false,
    append: 0,
    rewrite: 0,
    cleaned: 0,
    beside: true,
};

/// What both queues do to region 1, and what it has then.
struct Row {
    rewritten: &'static [Word],
    appended: &'static [Word],
    shape: Shape,
}

static ROWS: [Row; 18] = [
    // The entries below the least start stay, whatever the first start is.
    Row {
        rewritten: &[Run(10, 20)],
        appended: &[Run(30, 40), Run(20, 25)],
        shape: Shape {
            table: true,
            first: Some(10),
            last: Some(24),
            append: 5,
            rewrite: 10,
            ..NONE
        },
    },
    // They don't reach the start.
    Row {
        rewritten: &[Run(10, 15)],
        appended: &[Run(20, 30)],
        shape: Shape {
            table: true,
            first: Some(20),
            last: Some(29),
            append: 10,
            ..NONE
        },
    },
    Row {
        rewritten: &[Run(10, 20)],
        appended: &[Clean, Run(30, 35)],
        shape: Shape {
            table: true,
            first: Some(30),
            last: Some(34),
            append: 5,
            cleaned: 1,
            ..NONE
        },
    },
    // The append queue doesn't name the region.
    Row {
        rewritten: &[Run(10, 20), Put],
        appended: &[],
        shape: Shape {
            table: true,
            first: Some(10),
            last: Some(19),
            key: true,
            rewrite: 11,
            ..NONE
        },
    },
    Row {
        rewritten: &[Put],
        appended: &[Delete],
        shape: Shape {
            table: true,
            ..NONE
        },
    },
    // A compaction drops what was written after a run that starts below it.
    Row {
        rewritten: &[Run(10, 20)],
        appended: &[Run(15, 18), Compact(18)],
        shape: Shape {
            table: true,
            ..NONE
        },
    },
    Row {
        rewritten: &[],
        appended: &[Put],
        shape: Shape {
            table: true,
            key: true,
            append: 1,
            ..NONE
        },
    },
    Row {
        rewritten: &[Run(10, 20), Put],
        appended: &[Clean],
        shape: Shape { cleaned: 1, ..NONE },
    },
    Row {
        rewritten: &[Put],
        appended: &[Put],
        shape: Shape {
            table: true,
            key: true,
            append: 1,
            ..NONE
        },
    },
    Row {
        rewritten: &[Run(10, 20)],
        appended: &[Compact(15)],
        shape: Shape {
            table: true,
            first: Some(15),
            last: Some(19),
            rewrite: 5,
            ..NONE
        },
    },
    // A truncation drops the rewritten entries from its index on, also where a run is put there again.
    Row {
        rewritten: &[Run(10, 20)],
        appended: &[Truncate(15)],
        shape: Shape {
            table: true,
            first: Some(10),
            last: Some(14),
            rewrite: 5,
            ..NONE
        },
    },
    Row {
        rewritten: &[Run(10, 20)],
        appended: &[Truncate(15), Run(15, 18)],
        shape: Shape {
            table: true,
            first: Some(10),
            last: Some(17),
            append: 3,
            rewrite: 5,
            ..NONE
        },
    },
    Row {
        rewritten: &[Run(10, 20)],
        appended: &[Run(20, 30), Truncate(12)],
        shape: Shape {
            table: true,
            first: Some(10),
            last: Some(11),
            rewrite: 2,
            ..NONE
        },
    },
    // The appended entries begin past the cut, so none of the rewritten ones stay.
    Row {
        rewritten: &[Run(10, 20)],
        appended: &[Run(20, 30), Truncate(20), Run(25, 30)],
        shape: Shape {
            table: true,
            first: Some(25),
            last: Some(29),
            append: 5,
            ..NONE
        },
    },
    Row {
        rewritten: &[Run(0, 1)],
        appended: &[Truncate(1), Run(2, 3)],
        shape: Shape {
            table: true,
            first: Some(2),
            last: Some(2),
            append: 1,
            ..NONE
        },
    },
    Row {
        rewritten: &[Run(0, 2)],
        appended: &[Truncate(1), Run(2, 3)],
        shape: Shape {
            table: true,
            first: Some(2),
            last: Some(2),
            append: 1,
            ..NONE
        },
    },
    // Without appended entries the rewritten ones needn't reach the cut.
    Row {
        rewritten: &[Run(0, 1)],
        appended: &[Truncate(2)],
        shape: Shape {
            table: true,
            first: Some(0),
            last: Some(0),
            rewrite: 1,
            ..NONE
        },
    },
    Row {
        rewritten: &[],
        appended: &[Truncate(5)],
        shape: Shape {
            table: true,
            ..NONE
        },
    },
];

/// What the rewrite queue does to region 2, which the append queue doesn't name.
const BESIDE: Word = Run(3, 6);

/// Tests whether region 2 has its entries, and region 3 no table, since its group doesn't end.
fn has_only_finished_groups(accessor: &MemTableAccessor) -> bool {
    let table = accessor.get(2);
    let first = table.and_then(|table| table.first_index());
    let last = table.and_then(|table| table.last_index());
    (first, last) == (Some(3), Some(5)) && accessor.get(3).is_none()
}

/// Returns what region 1 has. The three entries of region 2 are subtracted from the counts.
fn shape_of_region_1(accessor: &MemTableAccessor) -> Shape {
    let table = accessor.get(1);
    Shape {
        table: table.is_some(),
        first: table.and_then(|table| table.first_index()),
        last: table.and_then(|table| table.last_index()),
        key: table.is_some_and(|table| table.get(b"k").is_some()),
        append: accessor.stats().live_entries(LogQueue::Append),
        rewrite: accessor
            .stats()
            .live_entries(LogQueue::Rewrite)
            .wrapping_sub(3),
        cleaned: accessor.cleaned_regions().len(),
        beside: has_only_finished_groups(accessor),
    }
}

/// Returns the rows of overlays.
fn rows_of_overlays() -> &'static [Row] {
    &ROWS
}

/// Returns a context of the rewrite queue with these words on region 1, entries of region 2, and a group of region 3
/// that waits for its end.
///
/// # Errors
///
/// Those of the contexts' calls; `Memory`.
fn rewrite_context_with_neighbors(alloc: Global, words: &[Word]) -> Result<MemTableRecoverContext> {
    let mut context = MemTableRecoverContext::new(alloc)?;
    replay_words(alloc, &mut context, LogQueue::Rewrite, 2, &[BESIDE])?;
    let begun = part_with_marker(alloc, 9, 3, AtomicGroupStatus::Begin, b"k1", 1)?;
    replay_file(&mut context, &begun)?;
    replay_words(alloc, &mut context, LogQueue::Rewrite, 1, words)?;
    Ok(context)
}

/// Returns the context of words of the rewrite queue, over which that of words of the append queue was put.
///
/// # Errors
///
/// Those of the contexts' calls; `Memory`.
fn overlay_of_words(
    alloc: Global,
    rewritten: &[Word],
    appended: &[Word],
) -> Result<MemTableRecoverContext> {
    let mut context = rewrite_context_with_neighbors(alloc, rewritten)?;
    context.merge_append_context(context_of_words(alloc, LogQueue::Append, appended)?)?;
    Ok(context)
}

/// Tests whether region 1 has what a row says.
///
/// # Errors
///
/// Those of the contexts' calls; `Memory`.
fn overlay_row_holds(alloc: Global, row: &Row) -> Result<bool> {
    let tables = overlay_of_words(alloc, row.rewritten, row.appended)?.finish()?;
    Ok(shape_of_region_1(&tables) == row.shape)
}

/// Tests what a region has once its append queue is put over its rewrite queue.
#[test]
fn what_the_append_queue_says_wins_over_the_rewrite_queue(rt: HostRuntime) {
    for row in rows_of_overlays() {
        assert!(rt; matches!(again!(overlay_row_holds(rt.alloc(), row)), Ok(true)));
    }
}
