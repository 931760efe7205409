//! Logs that the words of a command line name, and lines of two times of a log.

use crate::timing::quotient_in_tenths;
use raft_records::{LogQueue, Result};
use raft_recover::Segment;
use raft_recover::files::file_segments;
use raft_recover::request::{Request, read_files};
use std::io;
use std::rt::Files;

/// The files of a log, in memory, and how to recover them.
#[derive(Drop)]
pub(crate) struct Log {
    /// The queue of the files.
    pub(crate) queue: LogQueue,
    /// How many workers recover them.
    pub(crate) workers: usize,
    /// A segment for each file.
    pub(crate) segments: Vec<Segment>,
}

/// What was timed, and two of its times, in nanoseconds, each with its name.
#[derive(Drop)]
pub(crate) struct LogTimes {
    /// What was timed.
    pub(crate) name: String,
    /// The first time and its name.
    pub(crate) first: (&'static str, u64),
    /// The second time and its name.
    pub(crate) second: (&'static str, u64),
}

/// Reads the log that the words `recover <queue> <version> <workers> <seq>=<path>..` name. Returns `None` for
/// other words.
///
/// # Errors
///
/// `Io` if a file can't be read; `Memory`.
pub(crate) fn read_log<R: Files + AllocGlobal>(rt: &R, words: &[String]) -> Result<Option<Log>> {
    let Some(Request::Recover(asked)) = Request::parse(rt.alloc(), words)? else {
        return Ok(None);
    };
    let files = read_files(rt, asked.paths.as_slice())?;
    Ok(Some(Log {
        queue: asked.queue,
        workers: asked.workers,
        segments: file_segments(asked.queue, asked.version, files)?,
    }))
}

/// Prints the two times of `times` in milliseconds. For `None` it prints on standard error which words the
/// program takes: those of `raftlog recover`, after the word or words `before`.
///
/// # Errors
///
/// Those of the output.
pub(crate) fn print_log_times(
    rt: &HostRuntime,
    before: &str,
    times: Option<LogTimes>,
) -> io::Result<()> {
    let Some(times) = times else {
        return eprintln!(rt;
            "usage: raft_bench {before}recover <queue> <version> <workers> <seq>=<path>.."
        );
    };
    let ((first, time), (second, other)) = (times.first, times.second);
    let (time, time_tenths) = quotient_in_tenths(time, 1_000_000);
    let (other, other_tenths) = quotient_in_tenths(other, 1_000_000);
    println!(rt;
        "{}: {first} ms {time}.{time_tenths}, {second} ms {other}.{other_tenths}",
        times.name.as_str()
    )
}
