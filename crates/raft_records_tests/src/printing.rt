//! Tests that a long text is printed whole, and readers and writers that are interrupted or fail.

use raft_records::{
    Error, FileId, LogFileContext, LogQueue, Result, Version, batch_text, print_batch,
};
use raft_trials::again;
use std::alloc::Global;
use std::io;
use std::io::{ErrorKind, Read, Write};

/// Returns the bytes of a batch that puts a value of 100,000 bytes, in a file of version 1.
///
/// # Errors
///
/// `Memory` alone.
fn long_batch_bytes(alloc: Global) -> Result<Vec<u8>> {
    let mut bytes = Vec::from_slice(alloc, b"\x01\x01\x03\x01\x01k\xa0\x8d\x06")?;
    bytes.resize(100_009, 0xab)?;
    bytes.extend_from_slice(b"\x42\x5e\xb9\x6e")?;
    Ok(bytes)
}

/// Prints the batch of [`long_batch_bytes`], and returns the text; `None` if it isn't that of [`batch_text`].
///
/// # Errors
///
/// Those of [`batch_text`] and [`print_batch`]; `Memory`.
fn print_long_batch(alloc: Global) -> Result<Option<String>> {
    let context = LogFileContext::new(FileId::new(LogQueue::Append, 0), Version::V1);
    let bytes = long_batch_bytes(alloc)?;
    let text = batch_text(alloc, bytes.as_slice(), &context)?;
    let mut input = bytes.as_slice();
    let mut printed = Vec::new(alloc);
    print_batch(alloc, &mut input, &mut printed, &context)?;
    Ok(if printed.as_slice() == text.as_bytes() {
        Some(text)
    } else {
        None
    })
}

/// Tests that a batch with a value of 100,000 bytes is printed in full.
#[test]
fn long_batches_are_printed(rt: HostRuntime) {
    // Want of memory inside a reader or a writer is an io error.
    let mut answer = print_long_batch(rt.alloc());
    if matches!(&answer, Err(Error::Memory | Error::Io(_))) {
        answer = print_long_batch(rt.alloc());
    }
    assert!(rt;
        matches!(&answer, Ok(Some(text)) if text.len() == 200_025
        && text.as_str().starts_with("1 put 6b abab")
        && text.as_str().ends_with("ab\nitems 1 rest 0\n"))
    );
}

/// A reader or a writer of bytes, a few at a time. Each second call is interrupted, and after some calls all fail.
#[derive(Drop)]
struct Halting {
    bytes: Vec<u8>,
    /// How many of the bytes were read so far.
    read: usize,
    times: usize,
    fails_behind: usize,
    is_interrupted: bool,
}

impl Halting {
    /// Returns a reader and writer of these bytes that fails after `fails_behind` calls.
    fn new(bytes: Vec<u8>, fails_behind: usize) -> Halting {
        Halting {
            bytes,
            read: 0,
            times: 0,
            fails_behind,
            is_interrupted: false,
        }
    }

    /// Counts a call, unless it is interrupted, as the first and each second one after it are.
    ///
    /// # Errors
    ///
    /// `Interrupted` for these; `BrokenPipe` once `fails_behind` calls are counted.
    fn count_call(&mut self) -> io::Result<()> {
        self.is_interrupted = !self.is_interrupted;
        if self.is_interrupted {
            return Err(io::Error::from(ErrorKind::Interrupted));
        }
        if self.times == self.fails_behind {
            return Err(io::Error::from(ErrorKind::BrokenPipe));
        }
        self.times = self.times.saturating_add(1);
        Ok(())
    }
}

impl Read for Halting {
    /// Reads at most three of the bytes that are left into `buf`, and counts the call. Returns how many it read.
    ///
    /// # Errors
    ///
    /// Those of [`Halting::count_call`].
    fn read(&mut self, buf: &mut [u8]) -> io::Result<usize> {
        self.count_call()?;
        let left = self.bytes.get(self.read..).unwrap_or(&[]);
        let count = left.len().min(buf.len()).min(3);
        let (front, _) = buf.split_at_mut(count);
        let (taken, _) = left.split_at(count);
        front.copy_from_slice(taken);
        self.read = self.read.saturating_add(count);
        Ok(count)
    }
}

impl Write for Halting {
    /// Appends at most three bytes of `buf`, and counts the call. Returns how many it took.
    ///
    /// # Errors
    ///
    /// Those of [`Halting::count_call`].
    fn write(&mut self, buf: &[u8]) -> io::Result<usize> {
        self.count_call()?;
        let (taken, _) = buf.split_at(buf.len().min(3));
        self.bytes.extend_from_slice(taken)?;
        Ok(taken.len())
    }

    /// Does nothing, and never fails.
    fn flush(&mut self) -> io::Result<()> {
        Ok(())
    }
}

/// A batch of 8 bytes. Three reads get all of them, and the fourth nothing more.
const CLEAN: &[u8; 8] = b"\x01\x01\x02\x01\x5a\x80\x0b\xdd";

/// Its lines, of 23 bytes. Eight writes take all of them.
const LINES: &str = "1 clean\nitems 1 rest 0\n";

/// Prints the batch with a reader that fails after so many reads and a writer that fails after so many writes. Returns
/// what is written, and whether the error of one of them is passed on.
///
/// # Errors
///
/// That of printing, unless it is the `BrokenPipe` of the reader or the writer; `Memory`.
fn print_with_failures(alloc: Global, reads: usize, writes: usize) -> Result<(Vec<u8>, bool)> {
    let context = LogFileContext::new(FileId::new(LogQueue::Append, 12), Version::V1);
    let mut reader = Halting::new(Vec::from_slice(alloc, CLEAN)?, reads);
    let mut writer = Halting::new(Vec::with_capacity(alloc, LINES.len())?, writes);
    match print_batch(alloc, &mut reader, &mut writer, &context) {
        Ok(()) => Ok((writer.bytes, false)),
        Err(Error::Io(error)) if error.kind() == ErrorKind::BrokenPipe => Ok((writer.bytes, true)),
        Err(Error::Io(_)) => Err(Error::Memory),
        Err(error) => Err(error),
    }
}

/// Tests whether the first `len` bytes of the lines are written, and there is an error unless these are all.
///
/// # Errors
///
/// Those of [`print_with_failures`].
fn are_first_lines_printed(alloc: Global, reads: usize, writes: usize, len: usize) -> Result<bool> {
    let (written, is_refused) = print_with_failures(alloc, reads, writes)?;
    Ok(LINES.as_bytes().get(..len) == Some(written.as_slice()) && is_refused == (len < LINES.len()))
}

/// Tests whether nothing is written where a read fails, and what earlier writes took is there where a write fails.
///
/// # Errors
///
/// Those of [`print_with_failures`].
fn are_all_failures_returned(alloc: Global) -> Result<bool> {
    for reads in 0..4 {
        if !are_first_lines_printed(alloc, reads, 8, 0)? {
            return Ok(false);
        }
    }
    for writes in 0..9 {
        if !are_first_lines_printed(alloc, 4, writes, LINES.len().min(writes.saturating_mul(3)))? {
            return Ok(false);
        }
    }
    Ok(true)
}

/// Tests that printing returns the error of a reader or a writer that fails, after each number of calls.
#[test]
fn each_failing_read_and_write_is_returned(rt: HostRuntime) {
    assert!(rt; matches!(again!(are_all_failures_returned(rt.alloc())), Ok(true)));
}
