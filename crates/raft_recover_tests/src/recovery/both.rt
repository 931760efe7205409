//! Tests recoveries of both queues in one call.

use raft_base::{
    CompressionType, EntryIndex, Error, FileId, LogFileContext, LogQueue, Result, Version,
    is_consecutive,
};
use raft_records::{Command, FilePart, LogBatch};
use raft_recover::recovered::recovered_text;
use raft_recover::{Segment, recover_both};
use raft_trials::again;
use std::alloc::Global;
use std::thread::Threads;

/// A record that is written to a queue.
#[derive(Clone, Copy)]
pub(super) enum Record {
    /// Entries of region 1 from an index on and below another, in a batch each.
    Run(u64, u64),
    /// A value of a key of region 1.
    Put,
    /// A deletion of that key.
    Delete,
    /// A compaction of region 1 up to an index.
    Compact(u64),
    /// A clean of a region.
    Clean(u64),
}

use Record::{Clean, Compact, Delete, Put, Run};

/// What is written to both queues, and the lines that both give together.
struct Row {
    rewritten: &'static [Record],
    appended: &'static [Record],
    lines: &'static str,
}

static ROWS: [Row; 6] = [
    // The appended entries join the rewritten ones where they begin.
    Row {
        rewritten: &[Run(10, 20)],
        appended: &[Run(30, 40), Run(20, 25)],
        lines: "1 entries 10..25 keys 0 append 3 rewrite 3\ncleaned -\nlive 5 10\n",
    },
    // They would leave a hole after them.
    Row {
        rewritten: &[Run(10, 15)],
        appended: &[Run(20, 30)],
        lines: "1 entries 20..30 keys 0 append 3 rewrite -\ncleaned -\nlive 10 0\n",
    },
    Row {
        rewritten: &[Run(10, 20)],
        appended: &[],
        lines: "1 entries 10..20 keys 0 append - rewrite 3\ncleaned -\nlive 0 10\n",
    },
    Row {
        rewritten: &[],
        appended: &[Run(5, 9)],
        lines: "1 entries 5..9 keys 0 append 3 rewrite -\ncleaned -\nlive 4 0\n",
    },
    // The append queue still has all that was rewritten: it gives the records alone.
    Row {
        rewritten: &[Run(12, 15), Put],
        appended: &[Run(10, 20), Put, Clean(2)],
        lines: "1 entries 10..20 keys 1 append 3 rewrite -\ncleaned 2\nlive 11 0\n",
    },
    // It does so too where it took away what was rewritten.
    Row {
        rewritten: &[Run(5, 9), Put],
        appended: &[Run(5, 12), Put, Compact(9), Delete, Clean(2)],
        lines: "1 entries 9..12 keys 0 append 3 rewrite -\ncleaned 2\nlive 3 0\n",
    },
];

/// Returns a batch with an entry of region 1 of `len` bytes.
fn batch_with_entry(alloc: Global, index: u64, len: usize) -> Result<LogBatch> {
    let entry = EntryIndex {
        index,
        entries: None,
        compression_type: CompressionType::None,
        entry_offset: 0,
        entry_len: 0,
    };
    let text = vec![in alloc; b'e'; len]?;
    let mut batch = LogBatch::default(alloc);
    let indexes = vec![in alloc; entry]?;
    let texts = vec![in alloc; text]?;
    if indexes.len() != texts.len() || !is_consecutive(&indexes) {
        return Err(Error::Failed);
    }
    batch.add_raw_entries(1, indexes, texts)?;
    Ok(batch)
}

/// Returns the batch of a record that isn't a run.
fn batch_of_record(alloc: Global, record: Record) -> Result<LogBatch> {
    let mut batch = LogBatch::default(alloc);
    match record {
        Run(..) => {}
        Put => batch.put(
            1,
            Vec::from_slice(alloc, b"k")?,
            Vec::from_slice(alloc, b"v")?,
        )?,
        Delete => batch.delete(1, Vec::from_slice(alloc, b"k")?)?,
        Compact(index) => batch.add_command(1, Command::Compact { index })?,
        Clean(region) => batch.add_command(region, Command::Clean)?,
    }
    Ok(batch)
}

/// Appends the bytes of a batch, signed for a file.
fn append_batch(file: FileId, mut batch: LogBatch, bytes: &mut Vec<u8>) -> Result<()> {
    if !batch.is_open() {
        return Err(Error::Failed);
    }
    batch.finish_populate()?;
    batch.prepare_write(&LogFileContext::new(file, Version::V2));
    bytes.extend_from_slice(batch.encoded_bytes())?;
    Ok(())
}

/// Appends the batches of a record to the bytes of a file. Each entry has `len` bytes.
fn append_record(
    alloc: Global,
    file: FileId,
    record: Record,
    len: usize,
    bytes: &mut Vec<u8>,
) -> Result<()> {
    match record {
        Run(start, end) => {
            for index in start..end {
                append_batch(file, batch_with_entry(alloc, index, len)?, bytes)?;
            }
            Ok(())
        }
        other => append_batch(file, batch_of_record(alloc, other)?, bytes),
    }
}

/// Returns the bytes of a file with the batches of records. Each entry has `len` bytes.
pub(super) fn file_bytes(
    alloc: Global,
    file: FileId,
    records: &[Record],
    len: usize,
) -> Result<Vec<u8>> {
    let mut bytes = Vec::new(alloc);
    for &record in records {
        append_record(alloc, file, record, len, &mut bytes)?;
    }
    Ok(bytes)
}

/// Returns a segment with the first file of a queue, which has the batches of records. Each entry has `len` bytes.
fn segment_with_file(
    alloc: Global,
    queue: LogQueue,
    records: &[Record],
    len: usize,
) -> Result<Vec<Segment>> {
    let file = FileId::new(queue, 3);
    let bytes = file_bytes(alloc, file, records, len)?;
    let part = FilePart::new(file, Version::V2, 0, bytes)?;
    let segment = vec![in alloc; part]?;
    Ok(vec![in alloc; segment]?)
}

/// Tests whether the files of a row, whose entries have `len` bytes each, give the lines of the row.
fn row_holds<R: Threads + Sync>(
    rt: &R,
    alloc: Global,
    row: &Row,
    len: usize,
    workers: usize,
) -> Result<bool> {
    let rewrite = segment_with_file(alloc, LogQueue::Rewrite, row.rewritten, len)?;
    let append = segment_with_file(alloc, LogQueue::Append, row.appended, len)?;
    let tables = recover_both(rt, alloc, rewrite.as_slice(), append.as_slice(), workers)?;
    Ok(recovered_text(alloc, &tables)?.as_str() == row.lines)
}

/// Returns the rows of files of both queues.
fn rows_of_both_queues() -> &'static [Row] {
    &ROWS
}

/// Tests short entries, and ones so long that a queue has a MiB or more, and several workers read it.
#[test]
fn both_queues_give_the_tables_of_their_rows(rt: HostRuntime) {
    for row in rows_of_both_queues() {
        for &(len, workers) in &[
            (1, 1),
            (1, 2),
            (1, 4),
            (1 << 18, 1),
            (1 << 18, 2),
            (1 << 18, 4),
        ] {
            assert!(rt;
                matches!(
                    again!(row_holds(&rt, rt.alloc(), row, len, workers)),
                    Ok(true)
                )
            );
        }
    }
}
