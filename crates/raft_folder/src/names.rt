//! The names of log files in a folder, and of files that keep what was cut off them.

use raft_base::{AllocResult, FileId, LogQueue};
use std::alloc::Global;

/// What a name in a folder stands for.
pub(crate) enum NameMeaning {
    /// The name is that of this log file.
    Log(FileId),
    /// The name ends like that of a log file but isn't one.
    Misnamed,
    /// The name has nothing to do with log files.
    Other,
}

/// Returns the ending of the names of the files of `queue`: `.raftlog` or `.rewrite`.
fn file_name_ending(queue: LogQueue) -> &'static str {
    match queue {
        LogQueue::Append => ".raftlog",
        LogQueue::Rewrite => ".rewrite",
    }
}

/// Returns the name of the log file `id`, such as `0000000000000001.raftlog`: its number in at least 16
/// digits, and the ending of its queue.
///
/// # Errors
///
/// `AllocError` if there is no memory for it.
pub(crate) fn log_file_name(alloc: Global, id: FileId) -> AllocResult<String> {
    let ending = file_name_ending(id.queue);
    format!(in alloc; "{:016}{ending}", id.seq)
}

/// Returns the name of the file that keeps what was cut off the log file `id` at `offset`, such as
/// `0000000000000001.raftlog.4096.cut`. If other bytes were cut off there before, `nth` is above 1 and part
/// of the name, as in `0000000000000001.raftlog.4096.2.cut`.
///
/// # Errors
///
/// `AllocError` if there is no memory for it.
pub(crate) fn cut_file_name(
    alloc: Global,
    id: FileId,
    offset: u64,
    nth: u64,
) -> AllocResult<String> {
    let ending = file_name_ending(id.queue);
    if nth == 1 {
        return format!(in alloc; "{:016}{ending}.{offset}.cut", id.seq);
    }
    format!(in alloc; "{:016}{ending}.{offset}.{nth}.cut", id.seq)
}

/// Returns what `name`, a name in a folder, stands for.
///
/// # Errors
///
/// `AllocError` if there is no memory for the name that a log file should have.
pub(crate) fn classify_name(alloc: Global, name: &str) -> AllocResult<NameMeaning> {
    for queue in [LogQueue::Append, LogQueue::Rewrite] {
        if let Some(number) = name.strip_suffix(file_name_ending(queue)) {
            return classify_numbered_name(alloc, queue, number, name);
        }
    }
    Ok(NameMeaning::Other)
}

/// Returns what `name` stands for, which is `number` with the ending of the files of `queue`: a log file only
/// if it is exactly as [`log_file_name`] makes it.
///
/// # Errors
///
/// `AllocError` if there is no memory for that name.
fn classify_numbered_name(
    alloc: Global,
    queue: LogQueue,
    number: &str,
    name: &str,
) -> AllocResult<NameMeaning> {
    let Ok(seq) = number.parse::<u64>() else {
        return Ok(NameMeaning::Misnamed);
    };
    let id = FileId::new(queue, seq);
    if log_file_name(alloc, id)?.as_str() == name {
        Ok(NameMeaning::Log(id))
    } else {
        Ok(NameMeaning::Misnamed)
    }
}
