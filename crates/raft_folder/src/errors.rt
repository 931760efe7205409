//! The errors of folders of log files.

use raft_base::{AllocResult, Error};
use std::alloc::{AllocError, AllocFailed, Global};
use std::io;
use thiserror::Error;

/// The reason why a call on a folder was refused. Each but `Memory` names the path that it is about.
#[derive(Debug, Drop, Error)]
pub enum FolderError {
    /// The system refused a request on the file or folder at this path.
    #[error("{0}: {1}")]
    System(String, io::Error),
    /// Another engine has the folder open: it has locked what is at this path, the folder or the file `LOCK` in it.
    #[error("{0}: another engine has the folder open")]
    Locked(String),
    /// The name of the file at this path ends like that of a log file but isn't one.
    #[error("{0}: it isn't the name of a log file")]
    Misnamed(String),
    /// The file at this path begins with raft-engine's header, so its batches can't be read here.
    #[error("{0}: it is a file of raft-engine, which begins with a header of its own")]
    Foreign(String),
    /// The files of the folder at this path don't allow the request, for this reason.
    #[error("{0}: {1}")]
    Refused(String, &'static str),
    /// There is no memory for what the call had to allocate.
    #[error("memory")]
    Memory,
}

/// The result of a call on a folder.
pub type FolderResult<T> = std::result::Result<T, FolderError>;

impl FolderError {
    /// Returns `System` with `path` and the system's `error`, or `Memory` if there is none for the path.
    pub(crate) fn system(alloc: Global, path: &str, error: io::Error) -> FolderError {
        match String::from_str(alloc, path) {
            Ok(path) => FolderError::System(path, error),
            Err(_) => FolderError::Memory,
        }
    }
}

impl From<AllocError> for FolderError {
    /// Returns `Memory`, so that `?` hands on a lack of memory.
    fn from(_: AllocError) -> FolderError {
        FolderError::Memory
    }
}

impl<T: Drop> From<AllocFailed<T>> for FolderError {
    /// Returns `Memory`. The value for which there was no memory is dropped.
    fn from(_: AllocFailed<T>) -> FolderError {
        FolderError::Memory
    }
}

/// Turns an error of a folder's call into one of an engine's call.
impl From<FolderError> for Error {
    /// Returns
    ///
    /// - for `System`: `Io` with the kind of the system's error, and the path and that error's words as the text; or with the error of
    ///   the system itself, if there is no memory for this text;
    /// - for `Locked`: `TryAgain` with the path and the reason;
    /// - for `Misnamed`: `InvalidArgument` with the path and the reason;
    /// - for `Foreign`: `InvalidArgument` with the path and the reason;
    /// - for `Refused`: `InvalidArgument` with the path and the reason;
    /// - for `Memory`: `Memory`.
    ///
    /// It is `Memory` also for the four in between, if there is none for the text.
    fn from(error: FolderError) -> Error {
        match error {
            FolderError::System(path, error) => Error::Io(error_with_path(path, error)),
            FolderError::Locked(path) => match path_with_reason(
                path,
                "another engine has the folder open",
            ) {
                Ok(text) => Error::TryAgain(text),
                Err(_) => Error::Memory,
            },
            FolderError::Misnamed(path) => refusal_of_path(path, "it isn't the name of a log file"),
            FolderError::Foreign(path) => refusal_of_path(path, "it is a file of raft-engine"),
            FolderError::Refused(path, why) => refusal_of_path(path, why),
            FolderError::Memory => Error::Memory,
        }
    }
}

/// Returns an error of the kind of `error` with the text `path: words`, or `error` itself if there is no memory for it.
fn error_with_path(path: String, error: io::Error) -> io::Error {
    let mut text = path;
    match write!(text, ": {error}") {
        Ok(()) => io::Error::new(error.kind(), text.as_str()),
        Err(_) => error,
    }
}

/// Returns `InvalidArgument` with the text `path: why`, or `Memory` if there is none for it.
fn refusal_of_path(path: String, why: &str) -> Error {
    match path_with_reason(path, why) {
        Ok(text) => Error::InvalidArgument(text),
        Err(_) => Error::Memory,
    }
}

/// Returns the text `path: why`, such as `logs: another engine has the folder open`.
///
/// # Errors
///
/// `AllocError` if there is no memory for it.
fn path_with_reason(path: String, why: &str) -> AllocResult<String> {
    let mut text = path;
    text.push_str(": ")?;
    text.push_str(why)?;
    Ok(text)
}
