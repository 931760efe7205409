//! Tests the lines that tables are printed as.

use raft_memtable::{
    EntryIndex, Error, FileBlockHandle, FileId, LogQueue, MemTableAccessor, Result, TableChange,
};
use raft_recover::print_recovered;
use raft_trials::again;
use std::alloc::Global;
use std::io;
use std::io::{ErrorKind, Write};

const LINES: &str = "\
7 entries 10..12 keys 0 append 12 rewrite -
9 entries - keys 0 append - rewrite -
300 entries - keys 1 append - rewrite 4
cleaned 5 3
live 2 1
";

/// Returns an entry of 1 byte in a file of the append queue.
fn entry_in_append_file(index: u64, seq: u64) -> EntryIndex {
    EntryIndex {
        index,
        entries: Some(FileBlockHandle {
            id: FileId::new(LogQueue::Append, seq),
            offset: 0,
            len: 5,
        }),
        entry_len: 1,
        ..EntryIndex::default()
    }
}

/// Appends two entries to a region.
fn append_two_entries(alloc: Global, accessor: &mut MemTableAccessor, region: u64) -> Result<()> {
    let run = vec![in alloc; entry_in_append_file(10, 12), entry_in_append_file(11, 13)]?;
    accessor.change(region, TableChange::Append(run))?;
    Ok(())
}

/// Puts a key of a region.
fn put_key(alloc: Global, accessor: &mut MemTableAccessor, region: u64) -> Result<()> {
    let put = TableChange::Put {
        key: vec![in alloc; 1]?,
        value: vec![in alloc; 2]?,
        file_id: FileId::new(LogQueue::Rewrite, 4),
    };
    accessor.change(region, put)?;
    Ok(())
}

/// Returns three tables: one with entries, an empty one, and one with a key.
fn new_three_tables(alloc: Global) -> Result<MemTableAccessor> {
    let mut accessor = MemTableAccessor::new(alloc)?;
    put_key(alloc, &mut accessor, 300)?;
    accessor.change(9, TableChange::Keep)?;
    append_two_entries(alloc, &mut accessor, 7)?;
    for &region in &[5, 3] {
        accessor.remove(region, true)?;
    }
    Ok(accessor)
}

/// A writer that takes a few bytes at a time. It is interrupted before each write, and fails after some writes.
#[derive(Drop)]
struct Halting {
    written: Vec<u8>,
    writes: usize,
    fails_behind: usize,
    is_interrupted: bool,
}

impl Write for Halting {
    /// Takes at most seven bytes of `buf`. Returns how many it took.
    ///
    /// # Errors
    ///
    /// `Interrupted` at each second call; `BrokenPipe` after as many writes as this writer takes.
    fn write(&mut self, buf: &[u8]) -> io::Result<usize> {
        self.is_interrupted = !self.is_interrupted;
        if self.is_interrupted {
            return Err(io::Error::from(ErrorKind::Interrupted));
        }
        if self.writes == self.fails_behind {
            return Err(io::Error::from(ErrorKind::BrokenPipe));
        }
        let (taken, _) = buf.split_at(buf.len().min(7));
        self.written.extend_from_slice(taken)?;
        self.writes = self.writes.saturating_add(1);
        Ok(taken.len())
    }

    /// Does nothing.
    fn flush(&mut self) -> io::Result<()> {
        Ok(())
    }
}

/// Prints the lines to a writer that fails after so many writes. Returns what is written, by how many writes, and
/// whether the writer's error is passed on.
fn print_with_failures(
    alloc: Global,
    accessor: &MemTableAccessor,
    fails_behind: usize,
) -> Result<(Halting, bool)> {
    let mut writer = Halting {
        written: Vec::with_capacity(alloc, LINES.len())?,
        writes: 0,
        fails_behind,
        is_interrupted: false,
    };
    match print_recovered(alloc, accessor, &mut writer) {
        Ok(()) => Ok((writer, false)),
        Err(Error::Io(error)) => Ok((writer, error.kind() == ErrorKind::BrokenPipe)),
        Err(error) => Err(error),
    }
}

/// Tests whether the lines are written, and, with a writer that fails after fewer writes, a prefix of them is, and its
/// error is passed on.
fn is_each_failure_returned(alloc: Global) -> Result<bool> {
    let accessor = new_three_tables(alloc)?;
    let count = LINES.len().div_ceil(7);
    for fails_behind in 0..=count {
        let (writer, is_refused) = print_with_failures(alloc, &accessor, fails_behind)?;
        let front = LINES.as_bytes().get(..writer.written.len());
        if is_refused != (fails_behind < count)
            || writer.writes != fails_behind
            || front != Some(writer.written.as_slice())
            || (writer.written.len() == LINES.len()) != (fails_behind == count)
        {
            return Ok(false);
        }
    }
    Ok(true)
}

/// Tests that the lines of tables are written up to the write that fails, whose error is returned.
#[test]
fn each_failing_write_is_returned(rt: HostRuntime) {
    assert!(rt; matches!(again!(is_each_failure_returned(rt.alloc())), Ok(true)));
}
