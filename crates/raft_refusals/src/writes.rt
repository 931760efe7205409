//! Items that are written to the tables of several regions, calls for one region, and tables that are merged.

use crate::calls;
use crate::found::{Found, answer_word, call_twice, is_lack_of_memory};
use crate::seen::{are_live_counts_right, summarize_tables};
use crate::steps::{Step, written_batch};
use crate::tables::put_change;
use raft_memtable::{
    Error, FileId, FileSeq, LogBatch, LogQueue, MemTable, MemTableAccessor, Result,
};
use raft_recover::recovered::recovered_text;
use std::alloc::Global;

/// How an item is written.
#[derive(Clone, Copy)]
pub(crate) enum Write {
    /// As a new one of the append queue.
    Append,
    /// As one that was read from the append queue.
    ReplayAppend,
    /// As one that was read from the rewrite queue.
    ReplayRewrite,
    /// As one that was rewritten, with a gate.
    Rewrite(Option<FileSeq>),
}

impl Write {
    /// Returns the queue whose items are written in this way.
    pub(crate) fn queue(self) -> LogQueue {
        match self {
            Write::Append | Write::ReplayAppend => LogQueue::Append,
            Write::ReplayRewrite | Write::Rewrite(_) => LogQueue::Rewrite,
        }
    }
}

/// A call of an accessor or of shared tables. The first number is the region, except for an item.
#[derive(Clone, Copy)]
pub(crate) enum Call {
    /// An item is written in a way, as one of the file with this number.
    Write(Write, FileSeq, Step),
    /// A key is put, as one of append file 3.
    Put(u64),
    /// An empty table is made.
    Make(u64),
    /// An empty table is put in place of the region's.
    Insert(u64),
    /// The table is removed. The flag says whether the region is listed as cleaned.
    Remove(u64, bool),
    /// The first and the last file of the atomic group are set.
    Group(u64, FileSeq, FileSeq),
}

/// Append file 3.
pub(crate) const THIRD: FileId = FileId {
    queue: LogQueue::Append,
    seq: 3,
};

/// Items of both queues that are written, some of them refused.
const WRITTEN: &[Call] = &[
    Call::Write(Write::Append, 1, Step::Run(1, 1, 4)),
    Call::Write(Write::Append, 1, Step::Run(1, 6, 8)),
    Call::Write(Write::Append, 1, Step::Put(2, b"k", b"v")),
    Call::Write(Write::Append, 1, Step::Run(2, 10, 20)),
    Call::Write(Write::Append, 1, Step::Compact(2, 15)),
    Call::Write(Write::Append, 1, Step::Truncate(2, 18)),
    Call::Write(Write::Append, 1, Step::Truncate(4, 18)),
    Call::Write(Write::Append, 1, Step::Clean(1)),
    Call::Write(Write::Rewrite(Some(1)), 50, Step::Run(2, 15, 17)),
    Call::Write(Write::Rewrite(Some(1)), 50, Step::Put(2, b"k", b"v")),
    Call::Write(Write::Rewrite(Some(1)), 50, Step::Delete(2, b"k")),
    Call::Write(Write::Rewrite(Some(1)), 50, Step::Compact(2, 17)),
    Call::Write(Write::Append, 2, Step::Delete(2, b"k")),
];

/// Items of the append queue that are read again, regions that are cleaned among them.
const CLEANED: &[Call] = &[
    Call::Write(Write::ReplayAppend, 1, Step::Run(5, 10, 20)),
    Call::Write(Write::ReplayAppend, 1, Step::Put(3, b"k", b"v")),
    Call::Write(Write::ReplayAppend, 1, Step::Clean(3)),
    Call::Write(Write::ReplayAppend, 1, Step::Clean(5)),
    Call::Write(Write::ReplayAppend, 1, Step::Clean(3)),
];

/// Items of the rewrite queue that are read again.
const REWRITTEN: &[Call] = &[
    Call::Write(Write::ReplayRewrite, 1, Step::Run(5, 10, 20)),
    Call::Write(Write::ReplayRewrite, 2, Step::Run(5, 25, 30)),
    Call::Write(Write::ReplayRewrite, 2, Step::Put(5, b"k", b"v")),
    Call::Write(Write::ReplayRewrite, 2, Step::Truncate(5, 28)),
    Call::Write(Write::ReplayRewrite, 2, Step::Clean(6)),
];

/// The calls of the row `writes`.
pub(crate) static WRITES: [calls::Call; 3] = [
    calls::Call::Write(WRITTEN),
    calls::Call::Write(CLEANED),
    calls::Call::Write(REWRITTEN),
];

/// Makes `calls`, one after another, beginning without tables. Adds a line with the result of each, and lines
/// with the tables at the end.
///
/// # Errors
///
/// `Memory` alone. Any other error is a result in its line.
pub(crate) fn make_write_calls(found: &mut Found, calls: &[Call]) -> Result<()> {
    let mut tables = MemTableAccessor::new(found.alloc)?;
    for call in calls {
        let answer = call_and_retry(found, &mut tables, *call);
        if is_lack_of_memory(&answer) {
            return answer;
        }
        found.append_line(answer_word(&answer))?;
    }
    print_tables(found, &tables)
}

/// Makes a call and, if it returns `Memory`, makes it once more. Notes in `found` whether the refused call
/// left tables, counts and the list of cleaned regions as they were. After a write the number of tables
/// isn't compared: it may have made one without records.
///
/// # Errors
///
/// Those of [`make_one_call`].
fn call_and_retry(found: &mut Found, tables: &mut MemTableAccessor, call: Call) -> Result<()> {
    let before = summarize_tables(tables);
    call_twice!(found; make_one_call(found.alloc, tables, call); {
        let mut after = summarize_tables(tables);
        if matches!(call, Call::Write(..)) {
            after.tables = before.tables;
        }
        after == before
    })
}

/// Makes one call of `tables`.
///
/// # Errors
///
/// `Failed` for a group whose first file is above its last one; those of the call.
fn make_one_call(alloc: Global, tables: &mut MemTableAccessor, call: Call) -> Result<()> {
    match call {
        Call::Write(how, seq, step) => write_step(alloc, tables, how, seq, step),
        Call::Put(id) => {
            tables.change(id, put_change(alloc, b"k", THIRD)?)?;
            Ok(())
        }
        Call::Make(id) => {
            tables.get_or_insert(id)?;
            Ok(())
        }
        Call::Insert(id) => {
            let _replaced = tables.insert(id, MemTable::new(alloc, id))?;
            Ok(())
        }
        Call::Remove(id, is_listed) => {
            let _removed = tables.remove(id, is_listed)?;
            Ok(())
        }
        Call::Group(id, start, end) if start <= end => {
            tables.apply_rewrite_atomic_group(id, start, end)
        }
        Call::Group(..) => Err(Error::Failed),
    }
}

/// Writes an item with `step` to the tables in the way `how`, as one of the file numbered `seq`.
///
/// # Errors
///
/// Those of the write; `Memory`.
fn write_step(
    alloc: Global,
    tables: &mut MemTableAccessor,
    how: Write,
    seq: FileSeq,
    step: Step,
) -> Result<()> {
    let mut batch = written_batch(alloc, FileId::new(how.queue(), seq), step)?;
    let items = batch.drain();
    match how {
        Write::Append => tables.apply_append_writes(items),
        Write::ReplayAppend => tables.replay_append_writes(items),
        Write::ReplayRewrite => tables.replay_rewrite_writes(items),
        Write::Rewrite(gate) => tables.apply_rewrite_writes(items, gate, seq),
    }
}

/// Adds the lines that `raftlog recover` prints for these tables to `found`, and an empty line.
///
/// # Errors
///
/// `Memory` alone.
pub(crate) fn print_tables(found: &mut Found, tables: &MemTableAccessor) -> Result<()> {
    let text = recovered_text(found.alloc, tables)?;
    found.append_line(text.as_str())
}

/// Returns the tables that `calls` make, beginning without tables.
///
/// # Errors
///
/// That of the first call that fails, as [`make_one_call`] has them.
pub(crate) fn tables_after_calls(alloc: Global, calls: &[Call]) -> Result<MemTableAccessor> {
    let mut tables = MemTableAccessor::new(alloc)?;
    for call in calls {
        make_one_call(alloc, &mut tables, *call)?;
    }
    Ok(tables)
}

/// Takes the list of cleaned regions as a batch. Adds a line with each region in it, and lines with the
/// tables. If taking it returns `Memory`, notes in `found` whether list and tables are unchanged, and tries
/// once more.
///
/// # Errors
///
/// That of the first call that fails.
pub(crate) fn take_and_print_cleaned(found: &mut Found) -> Result<()> {
    let mut tables = tables_after_calls(found.alloc, CLEANED)?;
    let before = summarize_tables(&tables);
    let logs =
        call_twice!(found; tables.take_cleaned_region_logs(); summarize_tables(&tables) == before)?;
    print_regions(found, logs)?;
    print_tables(found, &tables)
}

/// Adds a line with the region of each item of `batch`, in order.
///
/// # Errors
///
/// `Memory` alone.
pub(crate) fn print_regions(found: &mut Found, mut batch: LogBatch) -> Result<()> {
    let alloc = found.alloc;
    for item in batch.drain() {
        found.append_line(format!(in alloc; "{}", item.raft_group_id)?.as_str())?;
    }
    Ok(())
}

/// The calls of the row `regions`.
static CALLS: [Call; 6] = [
    Call::Make(7),
    Call::Insert(8),
    Call::Remove(5, true),
    Call::Remove(9, true),
    Call::Group(5, 49, 50),
    Call::Group(7, 49, 50),
];

/// Makes calls for one region each, and adds lines with the number of tables and with the tables at the end.
///
/// # Errors
///
/// That of the first call that fails, also when it is tried again.
pub(crate) fn call_at_regions(found: &mut Found) -> Result<()> {
    let mut tables = tables_after_calls(found.alloc, REWRITTEN)?;
    for call in &CALLS {
        call_and_retry(found, &mut tables, *call)?;
    }
    let all = tables.tables()?.len();
    let alloc = found.alloc;
    found.append_line(format!(in alloc; "{all} tables")?.as_str())?;
    print_tables(found, &tables)
}

/// The calls of the row `table-merges`.
pub(crate) static MERGES: [calls::Call; 6] = [
    calls::Call::MergeTables(
        &[
            Call::Write(Write::ReplayAppend, 1, Step::Run(1, 10, 20)),
            Call::Write(Write::ReplayAppend, 1, Step::Put(2, b"j", b"v")),
        ],
        &[
            Call::Write(Write::ReplayAppend, 2, Step::Run(1, 15, 18)),
            Call::Write(Write::ReplayAppend, 2, Step::Put(2, b"k", b"v")),
            Call::Write(Write::ReplayAppend, 2, Step::Run(3, 1, 4)),
        ],
        false,
    ),
    calls::Call::MergeTables(
        &[Call::Write(Write::ReplayAppend, 1, Step::Run(1, 10, 20))],
        &[Call::Write(Write::ReplayAppend, 2, Step::Run(1, 25, 30))],
        false,
    ),
    calls::Call::MergeTables(
        &[Call::Write(Write::ReplayRewrite, 1, Step::Run(1, 10, 20))],
        &[Call::Write(Write::ReplayRewrite, 2, Step::Run(1, 25, 30))],
        false,
    ),
    calls::Call::MergeTables(
        &[Call::Write(Write::ReplayAppend, 1, Step::Run(1, 10, 20))],
        &[Call::Write(Write::ReplayRewrite, 2, Step::Run(1, 25, 30))],
        false,
    ),
    calls::Call::MergeTables(
        &[
            Call::Write(Write::ReplayRewrite, 1, Step::Run(1, 10, 20)),
            Call::Write(Write::ReplayRewrite, 1, Step::Put(1, b"j", b"v")),
        ],
        &[
            Call::Write(Write::ReplayAppend, 2, Step::Run(1, 25, 30)),
            Call::Write(Write::ReplayAppend, 2, Step::Put(1, b"k", b"v")),
        ],
        true,
    ),
    calls::Call::MergeTables(
        &[Call::Write(Write::ReplayRewrite, 1, Step::Run(1, 10, 20))],
        &[Call::Write(Write::ReplayRewrite, 2, Step::Run(1, 15, 18))],
        true,
    ),
];

/// Merges the tables that the calls `newer` make into those that the calls `older` make, as those of the
/// append queue if `is_append`, else as newer neighbors. Adds lines with the result and the tables. Notes in
/// `found` whether the live counts agree with the tables, after `Memory` too.
///
/// # Errors
///
/// `Memory`, and those of the calls. Any other error of the merge is the result in the line.
pub(crate) fn merge_accessors(
    found: &mut Found,
    older: &[Call],
    newer: &[Call],
    is_append: bool,
) -> Result<()> {
    let mut tables = tables_after_calls(found.alloc, older)?;
    let newer = tables_after_calls(found.alloc, newer)?;
    let answer = if is_append {
        tables.merge_append_table(newer)
    } else {
        tables.merge_newer_neighbor(newer)
    };
    found.note_what_refusal_left(are_live_counts_right(&tables));
    if is_lack_of_memory(&answer) {
        return answer;
    }
    found.append_line(answer_word(&answer))?;
    print_tables(found, &tables)
}
