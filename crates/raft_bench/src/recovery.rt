//! Times the recovery of log files.

use crate::logs::{Log, LogTimes, read_log};
use crate::timing::time_work;
use raft_records::Result;
use raft_recover::recover;
use std::rt::Files;
use std::thread::Threads;
use std::time::Clock;

/// How many times a recovery is timed.
const RUNS: usize = 15;

/// Times how long it takes to recover the tables of all regions from the bytes of files in memory. `words`
/// are those of `raftlog recover`. Returns the best and the median of 15 times, or `None` for other words.
///
/// # Errors
///
/// Those of reading the files; those of [`time_one_recovery`]; `Memory`.
pub(crate) fn time_recovery<R: Threads + Files + AllocGlobal + Clock + Sync>(
    rt: &R,
    words: &[String],
) -> Result<Option<LogTimes>> {
    let Some(log) = read_log(rt, words)? else {
        return Ok(None);
    };
    let mut runs = [0; RUNS];
    let mut regions = 0;
    for run in &mut runs {
        (*run, regions) = time_one_recovery(rt, &log)?;
    }
    runs.sort_unstable();
    let workers = log.workers;
    Ok(Some(LogTimes {
        name: format!(in rt.alloc(); "recover, {workers} workers, {regions} regions")?,
        first: ("best", runs[0]),
        second: ("median", runs[RUNS / 2]),
    }))
}

/// Recovers `log` once. Returns how many nanoseconds that takes, and how many regions have a table then.
///
/// # Errors
///
/// Those of [`recover`]; `Io` for the clock; `Memory`.
fn time_one_recovery<R: Threads + AllocGlobal + Clock + Sync>(
    rt: &R,
    log: &Log,
) -> Result<(u64, usize)> {
    let (alloc, segments) = (rt.alloc(), log.segments.as_slice());
    let (taken, tables) = time_work(rt, || recover(rt, alloc, segments, log.queue, log.workers))?;
    Ok((taken, tables?.tables()?.len()))
}
