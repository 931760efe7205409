//! The reasons why a command isn't done.

use raft_base::Error as RaftError;
use raft_folder::FolderError;
use raft_report::PrintError;
use std::alloc::{AllocError, AllocFailed, Global};
use std::io;
use thiserror::Error;

/// The reason why a command isn't done. Its text is what the line on standard error says.
#[derive(Debug, Drop, Error)]
pub(crate) enum ToolError {
    /// The folder, or a file in it, can't be read or changed.
    #[error("{0}")]
    Folder(FolderError),
    /// A file stands at this path, where a folder has to be.
    #[error("{0}: it is a file: name its folder, or the file by --append SEQ=PATH or --rewrite SEQ=PATH")]
    NoFolder(String),
    /// The file at this path can't be read, or written.
    #[error("{0}: {1}")]
    File(String, io::Error),
    /// The files are refused or can't be read, or there is no memory.
    #[error("{0}")]
    Raft(RaftError),
    /// The output takes no more.
    #[error("output: {0}")]
    Output(io::Error),
    /// This region has no table.
    #[error("region {0}: it has no table")]
    NoTable(u64),
    /// The files have nothing of this region that was selected.
    #[error("region {0}: the files have nothing of it that is asked for")]
    NothingOf(u64),
    /// The words of the command ask for nothing that can be done.
    #[error("{0}")]
    Misused(&'static str),
    /// There is no memory.
    #[error("memory")]
    Memory,
}

/// The result of a command.
pub(crate) type ToolResult<T> = std::result::Result<T, ToolError>;

impl ToolError {
    /// Returns the error for a request about the file at `path` that failed with `error`: `File`, or `Memory` if there is none for the
    /// path.
    pub(crate) fn of_file(alloc: Global, path: &str, error: io::Error) -> ToolError {
        match String::from_str(alloc, path) {
            Ok(path) => ToolError::File(path, error),
            Err(_) => ToolError::Memory,
        }
    }
}

impl From<FolderError> for ToolError {
    /// Returns the error as one about the folder.
    fn from(error: FolderError) -> ToolError {
        ToolError::Folder(error)
    }
}

impl From<RaftError> for ToolError {
    /// Returns the error as one about the files, also where it is `Memory`.
    fn from(error: RaftError) -> ToolError {
        ToolError::Raft(error)
    }
}

impl From<PrintError> for ToolError {
    /// Returns an error about the files as `Raft`, and one about the output as `Output`.
    fn from(error: PrintError) -> ToolError {
        match error {
            PrintError::Files(error) => ToolError::Raft(error),
            PrintError::Output(error) => ToolError::Output(error),
        }
    }
}

impl From<AllocError> for ToolError {
    /// Returns `Memory`.
    fn from(_: AllocError) -> ToolError {
        ToolError::Memory
    }
}

impl<T: Drop> From<AllocFailed<T>> for ToolError {
    /// Returns `Memory`. What couldn't be stored is dropped.
    fn from(_: AllocFailed<T>) -> ToolError {
        ToolError::Memory
    }
}
