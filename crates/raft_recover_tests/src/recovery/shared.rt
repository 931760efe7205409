//! Tests recovered tables that threads share.

use super::histories::rows_of_histories;
use super::rows::FIVE_OWED;
use super::{cut_into_segments, owed};
use raft_base::{FileSeq, LogQueue, Result, Version};
use raft_memtable::MemTable;
use raft_records::LogBatch;
use raft_recover::{SharedAccessor, recover};
use raft_trials::again;
use std::alloc::Global;
use std::sync::Wait;
use std::thread::Threads;

/// What a table has: its region, its first and last index, how many keys, and its oldest file in each queue.
type Shape = (
    u64,
    (Option<u64>, Option<u64>),
    usize,
    (Option<FileSeq>, Option<FileSeq>),
);

/// What the shared tables of a history have.
struct Row {
    tables: &'static [Shape],
    cleaned: &'static [u64],
    /// How many records are live in the append queue and in the rewrite queue.
    live: (u128, u128),
}

static FIVE: Row = Row {
    tables: &[
        (1, (Some(3), Some(5)), 0, (Some(1), None)),
        (2, (None, None), 1, (Some(4), None)),
    ],
    cleaned: &[],
    live: (4, 0),
};

/// Rows of the appended history, in which region 2 was cleaned and has a table again; of the rewritten one; and of one
/// with a truncation.
static HISTORIES: [Row; 3] = [
    Row {
        tables: &[
            (1, (Some(3), Some(9)), 0, (Some(1), None)),
            (2, (Some(50), Some(51)), 0, (Some(4), None)),
            (3, (None, None), 1, (Some(5), None)),
        ],
        cleaned: &[2],
        live: (10, 0),
    },
    Row {
        tables: &[
            (5, (Some(3), Some(7)), 0, (None, Some(2))),
            (6, (None, None), 1, (None, Some(2))),
        ],
        cleaned: &[],
        live: (0, 6),
    },
    Row {
        tables: &[(1, (Some(10), Some(17)), 0, (Some(1), None))],
        cleaned: &[],
        live: (8, 0),
    },
];

/// Returns the rows of histories.
fn history_rows() -> &'static [Row] {
    &HISTORIES
}

/// Returns what the tests compare of a table.
fn shape_of_table(table: &MemTable) -> Shape {
    (
        table.region_id(),
        (table.first_index(), table.last_index()),
        table.key_count(),
        (
            table.min_file_seq(LogQueue::Append),
            table.min_file_seq(LogQueue::Rewrite),
        ),
    )
}

/// Returns the shape of a shared table; `None` where the region has none.
fn shape_of_shared_table<R: Wait>(rt: &R, shared: &SharedAccessor, region: u64) -> Option<Shape> {
    shared.with_table(rt, region, shape_of_table)
}

/// Returns what the shared tables have, by region.
fn shapes_of_shared_tables<R: Wait>(
    rt: &R,
    alloc: Global,
    shared: &SharedAccessor,
) -> Result<Vec<Shape>> {
    let mut shapes = Vec::new(alloc);
    for region in shared.collect(rt, |_: &MemTable| true)? {
        if let Some(shape) = shape_of_shared_table(rt, shared, region) {
            shapes.push(shape)?;
        }
    }
    shapes.sort()?;
    Ok(shapes)
}

/// Takes the cleaned regions, as a batch.
fn take_cleaned_logs<R: Wait>(rt: &R, alloc: Global, shared: &SharedAccessor) -> Result<LogBatch> {
    let mut logs = LogBatch::default(alloc);
    shared.take_cleaned_region_logs(rt, &mut logs)?;
    Ok(logs)
}

/// Takes the cleaned regions, and returns them.
fn take_cleaned_regions<R: Wait>(
    rt: &R,
    alloc: Global,
    shared: &SharedAccessor,
) -> Result<Vec<u64>> {
    let mut logs = take_cleaned_logs(rt, alloc, shared)?;
    let mut regions = Vec::new(alloc);
    for item in logs.drain() {
        regions.push(item.raft_group_id)?;
    }
    Ok(regions)
}

/// Recovers the tables of a history, and shares them.
fn recover_and_share<R: Threads + Wait + Sync>(
    rt: &R,
    alloc: Global,
    history: &owed::Row,
) -> Result<SharedAccessor> {
    let segments = cut_into_segments(alloc, history.queue, Version::V1, history.batches, 0)?;
    let tables = recover(rt, alloc, segments.as_slice(), history.queue, 1)?;
    SharedAccessor::from_core(alloc, tables)
}

/// Tests whether the shared tables of a history have what its row says, and, once they are an accessor's again, all
/// that recovery has to give.
fn is_history_shared_as_row_says<R: Threads + Wait + Sync>(
    rt: &R,
    alloc: Global,
    history: &owed::Row,
    row: &Row,
) -> Result<bool> {
    let shared = recover_and_share(rt, alloc, history)?;
    let shown = live_counts(rt, &shared) == row.live
        && shapes_of_shared_tables(rt, alloc, &shared)?.as_slice() == row.tables
        && take_cleaned_regions(rt, alloc, &shared)?.as_slice() == row.cleaned;
    let core = recover_and_share(rt, alloc, history)?.into_core()?;
    Ok(shown && history.is_met(alloc, &core)?)
}

/// Returns how many records are live in the append queue and in the rewrite queue.
fn live_counts<R: Wait>(rt: &R, shared: &SharedAccessor) -> (u128, u128) {
    (
        shared.live_entries(rt, LogQueue::Append),
        shared.live_entries(rt, LogQueue::Rewrite),
    )
}

/// Tests that recovered tables, once they are shared, have what their rows say, and the same as an accessor again.
#[test]
fn recovered_tables_are_shared(rt: HostRuntime) {
    assert!(rt;
        matches!(
            again!(is_history_shared_as_row_says(&rt, rt.alloc(), &FIVE_OWED, &FIVE)),
            Ok(true)
        )
    );
    for (history, row) in rows_of_histories().iter().zip(history_rows()) {
        let held = again!(is_history_shared_as_row_says(&rt, rt.alloc(), history, row));
        assert!(rt; matches!(held, Ok(true)), "{:?}", row.tables);
    }
}
