//! Batches as they are read, from `raft_records`, and the steps that items are, from `raft_memtable`.
//!
//! Each function pins names or types: it compiles only as long as these are there as it writes them. None is called for
//! its effect, but where the test at the end says so.

use raft_memtable::{MemTableAccessor, RegionStep, Step};
use raft_records::{
    Command, EntryIndex, FileBlockHandle, FileId, FileSeq, LogFileContext, LogItem, LogItemBatch,
    LogQueue, ReadBatch, ReadContent, ReadItem, Result,
};
use std::alloc::Global;

/// Compiles only as long as `ReadBatch::new` takes `alloc` and `file`, and returns `ReadBatch<'a>`.
fn new_of_reads<'a>(alloc: Global, file: FileId) -> ReadBatch<'a> {
    ReadBatch::new(alloc, file)
}

/// Reads the first batch in the bytes of a file, which stand there from an offset below 2^32 on. Returns where
/// the next one begins; `None` for 2^32 bytes or more, which aren't read.
///
/// # Errors
///
/// Those of `ReadBatch::read_next`.
fn read_next_of_reads<'a>(
    batch: &mut ReadBatch<'a>,
    file: &LogFileContext,
    offset: u32,
    bytes: &'a [u8],
) -> Result<Option<usize>> {
    if bytes.len() >= 1 << 32 {
        return Ok(None);
    }
    let offset: u64 = u64::from(offset);
    let at: usize = 0;
    ReadBatch::read_next(batch, file, offset, bytes, at)
}

/// Compiles only as long as `ReadBatch::parts` lends the place, the items, and the span of each item.
fn parts_of_reads<'a, 'b>(
    batch: &'b ReadBatch<'a>,
) -> (FileBlockHandle, &'b [ReadItem<'a>], &'b [(u32, u32)]) {
    ReadBatch::parts(batch)
}

/// Compiles only as long as a `ReadBatch` lends its allocator, and `to_batch` makes a `LogItemBatch` with it.
fn to_batch_of_reads(batch: &ReadBatch<'_>) -> Result<LogItemBatch> {
    let alloc: Global = ReadBatch::allocator(batch);
    ReadBatch::to_batch(batch, alloc)
}

/// What an item may have: the first index, the number of entries, a command, a key and a value.
type Parts<'a> = (u64, usize, Option<Command>, &'a [u8], &'a [u8]);

/// Returns the region of an item, and what it has. The match names every variant of the content.
fn parts_of_item<'a>(item: ReadItem<'a>) -> (u64, Parts<'a>) {
    let parts: Parts<'a> = match item.content {
        ReadContent::Run { first, count } => (first, count, None, b"", b""),
        ReadContent::Command(command) => (0, 0, Some(command), b"", b""),
        ReadContent::Put { key, value } => (0, 0, None, key, value),
        ReadContent::Delete { key } => (0, 0, None, key, b""),
    };
    (item.region, parts)
}

/// What a step may have: entries, numbers, a key and a value.
type StepParts = (
    Option<Vec<EntryIndex>>,
    [u64; 2],
    Option<Vec<u8>>,
    Option<(Vec<u8>, FileId)>,
);

/// Returns what a step has. The match names every variant.
fn parts_of_step(step: Step) -> StepParts {
    match step {
        Step::Run(entries) => (Some(entries), [0, 0], None, None),
        Step::Compact { index } | Step::Truncate { index } => (None, [index, 0], None, None),
        Step::Put {
            key,
            value,
            file_id,
        } => (None, [0, 0], Some(key), Some((value, file_id))),
        Step::Del { key } => (None, [0, 0], Some(key), None),
        Step::AtomicGroup {
            first_seq,
            last_seq,
        } => {
            let seqs: [FileSeq; 2] = [first_seq, last_seq];
            (None, seqs, None, None)
        }
        Step::Clean => (None, [0, 0], None, None),
    }
}

/// Returns the region of a step, and the step itself.
fn region_of(step: RegionStep) -> (u64, Step) {
    (step.region, step.step)
}

/// Compiles only as long as `RegionStep::of_item`, `Step::is_clean` and `MemTableAccessor::take_step` have these types.
fn steps() {
    let _of_item: fn(LogItem) -> Option<RegionStep> = RegionStep::of_item;
    let _is_clean: fn(&Step) -> bool = Step::is_clean;
    let _take_step: fn(&mut MemTableAccessor, LogQueue, u64, Step) -> Result<()> =
        MemTableAccessor::take_step;
}

/// Tests that the names above are exported with these types, and that what they give is as it is written here.
#[test]
fn steps_are_handed_on(rt: HostRuntime) {
    steps();
    let step = RegionStep {
        region: 7,
        step: Step::Compact { index: 5 },
    };
    let (region, step) = region_of(step);
    assert!(rt; region == 7 && !step.is_clean() && parts_of_step(step).1 == [5, 0]);
    let item = ReadItem {
        region: 8,
        content: ReadContent::Run { first: 3, count: 2 },
    };
    assert!(rt; matches!(parts_of_item(item), (8, (3, 2, None, _, _))));
    let batch = new_of_reads(rt.alloc(), FileId::new(LogQueue::Append, 12));
    assert!(rt; parts_of_reads(&batch).0.id.seq == 12);
}
