//! The locks of a folder.

use crate::errors::{FolderError, FolderResult};
use crate::host::FolderHost;
use std::alloc::Global;
use std::fs;
use std::fs::{File, OpenOptions, TryLockError};

/// The name of the file that is locked besides the folder itself. raft-engine locks only that file.
const LOCK: &str = "LOCK";

/// A folder that is locked for as long as this value lives.
#[derive(Drop)]
pub(crate) struct LockedFolder {
    /// The folder itself, open and locked. It is synced when a name in it is made or deleted. Its lock can't be
    /// circumvented by deleting a file.
    pub(crate) entry: File,
    /// The file `LOCK`, open and locked; `None` for a reader if there is no such file.
    lock: Option<File>,
}

impl LockedFolder {
    /// Locks the folder at `path` and the file `LOCK` in it for an engine that changes the folder. `LOCK` is made if it
    /// isn't there.
    ///
    /// # Errors
    ///
    /// `Locked` if anyone else has locked the folder or `LOCK`; `System`; `Memory`.
    pub(crate) fn lock_exclusively<R: FolderHost>(
        rt: &R,
        path: &str,
    ) -> FolderResult<LockedFolder> {
        let alloc = rt.alloc();
        let entry = open_folder(rt, path)?;
        check_lock_taken(alloc, path, entry.try_lock())?;
        let lock_path = format!(in alloc; "{path}/{LOCK}")?;
        let mut how = OpenOptions::new();
        how.create(true).read(true).write(true);
        let lock = match how.open(rt, lock_path.as_str()) {
            Ok(lock) => lock,
            Err(e) => return Err(FolderError::system(alloc, lock_path.as_str(), e)),
        };
        check_lock_taken(alloc, lock_path.as_str(), lock.try_lock())?;
        Ok(LockedFolder {
            entry,
            lock: Some(lock),
        })
    }

    /// Locks the folder at `path` and the file `LOCK` in it, if it is there, for a reader, who may have no permission
    /// to write. Others may read at the same time.
    ///
    /// # Errors
    ///
    /// `Locked` if an engine that writes has locked the folder or `LOCK`; `System`; `Memory`.
    pub(crate) fn lock_shared<R: FolderHost>(rt: &R, path: &str) -> FolderResult<LockedFolder> {
        let alloc = rt.alloc();
        let entry = open_folder(rt, path)?;
        check_lock_taken(alloc, path, entry.try_lock_shared())?;
        let lock_path = format!(in alloc; "{path}/{LOCK}")?;
        let is_there = fs::exists(rt, lock_path.as_str());
        match is_there {
            Ok(false) => return Ok(LockedFolder { entry, lock: None }),
            Ok(true) => {}
            Err(e) => return Err(FolderError::system(alloc, lock_path.as_str(), e)),
        }
        let lock = match fs::open(rt, lock_path.as_str()) {
            Ok(lock) => lock,
            Err(e) => return Err(FolderError::system(alloc, lock_path.as_str(), e)),
        };
        check_lock_taken(alloc, lock_path.as_str(), lock.try_lock_shared())?;
        Ok(LockedFolder {
            entry,
            lock: Some(lock),
        })
    }
}

/// Opens the folder at `path` itself, as a file.
///
/// # Errors
///
/// `System`; `Memory`.
fn open_folder<R: FolderHost>(rt: &R, path: &str) -> FolderResult<File> {
    match fs::open(rt, path) {
        Ok(entry) => Ok(entry),
        Err(e) => Err(FolderError::system(rt.alloc(), path, e)),
    }
}

/// Checks that `locked`, the answer to a try to lock `path`, says that the lock was taken.
///
/// # Errors
///
/// `Locked` if someone else has it; `System`; `Memory` if there is none for the path.
fn check_lock_taken(
    alloc: Global,
    path: &str,
    locked: std::result::Result<(), TryLockError>,
) -> FolderResult<()> {
    match locked {
        Ok(()) => Ok(()),
        Err(TryLockError::WouldBlock) => Err(FolderError::Locked(String::from_str(alloc, path)?)),
        Err(TryLockError::Error(e)) => Err(FolderError::system(alloc, path, e)),
    }
}
