//! The files of an engine, which `raft_files` exports.
//!
//! Each function pins names or types: it compiles only as long as these are there as it writes them. None is called for
//! its effect, but where the test at the end says so.

use raft_base::{Error, FileBlockHandle, FileSeq, LogQueue, Result};
use raft_files::{AppendError, Asked, EngineFiles, MemoryFiles};
use std::alloc::Global;

type LogFiles = Vec<(FileSeq, Vec<u8>)>;

/// Compiles only as long as these functions of `Asked` have these types: `new`, `put`, `begin`, `sync`, `delete`,
/// `cut`, `read` and `found`.
fn asks() {
    let _new: fn() -> Asked = Asked::new;
    let _put: fn(&mut Asked, LogQueue, &[u8]) = Asked::put;
    let _begin: fn(&mut Asked, LogQueue, FileSeq) = Asked::begin;
    let _sync: fn(&mut Asked, LogQueue) = Asked::sync;
    let _delete: fn(&mut Asked, LogQueue) = Asked::delete;
    let _cut: fn(&mut Asked, LogQueue, u64) = Asked::cut;
    let _read: fn(&mut Asked, FileBlockHandle, &[u8]) = Asked::read;
    let _found: fn(&mut Asked, LogQueue, &LogFiles) = Asked::found;
}

/// Compiles only as long as `MemoryFiles::new`, `MemoryFiles::found` and `MemoryFiles::copies` have these types.
fn memory() {
    let _new: fn(Global) -> MemoryFiles = MemoryFiles::new;
    let _found: fn(LogFiles, LogFiles) -> MemoryFiles = MemoryFiles::found;
    let _copies: fn(&MemoryFiles, LogQueue) -> Result<LogFiles> = MemoryFiles::copies;
}

/// Compiles only as long as an `AppendError` is `AsBefore` or `InPart`, each with an `Error`, and `into_error` gives
/// that back.
fn appends() {
    let _as_before: AppendError = AppendError::AsBefore(Error::Failed);
    let _in_part: AppendError = AppendError::InPart(Error::Failed);
    let _into_error: fn(AppendError) -> Error = AppendError::into_error;
}

/// Compiles only as long as `MemoryFiles::files` takes `files` and `queue`, and returns `&LogFiles`.
fn files_of_memory<'a>(files: &'a MemoryFiles, queue: LogQueue) -> &'a LogFiles {
    MemoryFiles::files(files, queue)
}

/// Makes each call of the trait, on any files.
///
/// # Errors
///
/// That of the first call that fails.
fn calls<F: EngineFiles>(files: &mut F, queue: LogQueue, place: FileBlockHandle) -> Result<()> {
    F::rotate(files, queue, 1)?;
    F::append(files, queue, b"x")?;
    F::sync(files, queue)?;
    F::truncate(files, queue, 0)?;
    F::delete_oldest(files, queue)?;
    let _bytes: Vec<u8> = F::read(files, place)?;
    Ok(())
}

/// Tests that the names above are exported with these types, and that what they give is as it is written here.
#[test]
fn files_are_handed_on(_rt: HostRuntime) {
    asks();
    memory();
    appends();
}
