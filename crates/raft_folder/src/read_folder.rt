//! [`ReadFolder`]: a folder of log files that is only read.

use crate::errors::FolderResult;
use crate::folder::Folder;
use crate::host::FolderHost;
use raft_base::{FileId, FileSeq, LogQueue};

/// A log file in a folder.
#[derive(Clone, Copy, PartialEq, Eq, Debug, Drop)]
pub struct FolderFile {
    /// The number of the file in its queue.
    pub seq: FileSeq,
    /// The length of the file in bytes.
    pub len: u64,
}

/// A folder of log files that is open for reading alone: nothing in it is made, changed or synced, so a permission to read is
/// enough. It has shared locks on the folder and, if it is there, the file `LOCK`. So others may read at the same time, but
/// no engine can open the folder, which might move, delete or cut off what is read.
#[derive(Drop)]
pub struct ReadFolder<'a, R: FolderHost> {
    /// The folder and its open files.
    folder: Folder<'a, R>,
}

impl<'a, R: FolderHost> ReadFolder<'a, R> {
    /// Opens the folder at `path` with all log files in it, to read them.
    ///
    /// # Errors
    ///
    /// `Locked` if an engine that writes has the folder open; `Misnamed` if a name ends like that of a log file but isn't
    /// one; `System`, also if there is no folder; `Memory`.
    pub fn open(rt: &'a R, path: &'a str) -> FolderResult<ReadFolder<'a, R>> {
        let folder = Folder::open_to_read(rt, path)?;
        Ok(ReadFolder { folder })
    }

    /// Returns the number and the length in bytes of each file of `queue`, oldest first.
    ///
    /// # Errors
    ///
    /// `System`; `Memory`.
    pub fn list(&self, queue: LogQueue) -> FolderResult<Vec<FolderFile>> {
        self.folder.list(queue)
    }

    /// Returns the number and the path of each file of `queue`, oldest first.
    ///
    /// # Errors
    ///
    /// `Memory` alone.
    pub fn paths(&self, queue: LogQueue) -> FolderResult<Vec<(FileSeq, String)>> {
        self.folder.paths(queue)
    }

    /// Returns the number and all bytes of each file of `queue`, oldest first.
    ///
    /// # Errors
    ///
    /// `Foreign` if a file begins with raft-engine's header; `System`; `Memory`.
    pub fn bytes_of_files(&self, queue: LogQueue) -> FolderResult<Vec<(FileSeq, Vec<u8>)>> {
        self.folder.bytes_of_files(queue)
    }

    /// Returns the path of the log file `id`, whether it is there or not.
    ///
    /// # Errors
    ///
    /// `Memory` alone.
    pub fn path_of(&self, id: FileId) -> FolderResult<String> {
        self.folder.path_of(id)
    }
}
