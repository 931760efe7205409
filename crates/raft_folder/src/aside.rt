//! How bytes are kept in a file of their own before they are cut off a log file.

use crate::errors::{FolderError, FolderResult};
use crate::host::FolderHost;
use crate::names::cut_file_name;
use raft_base::FileId;
use std::io::Write;
use std::{fs, io};

/// The names that are tried for what is cut off one file at one offset have numbers below this.
const MOST_KEPT: u64 = 1 << 32;

/// Writes `bytes`, which are about to be cut off the log file `id` at `offset`, to a file of their own in the
/// folder at the path `folder`. Syncs that file, but not its name, and returns its path.
///
/// # Errors
///
/// `System`; if it came from writing the file, that has been removed, unless this failed too. `Refused` if
/// too much was cut off at this offset before; `Memory`.
pub(crate) fn keep_cut_bytes<R: FolderHost>(
    rt: &R,
    folder: &str,
    id: FileId,
    offset: u64,
    bytes: &[u8],
) -> FolderResult<String> {
    let path = find_free_path(rt, folder, id, offset, bytes)?;
    match write_synced_file(rt, path.as_str(), bytes) {
        Ok(()) => Ok(path),
        Err(e) => {
            let _ = fs::remove_file(rt, path.as_str()); // all of it still stands in the log file
            Err(FolderError::System(path, e))
        }
    }
}

/// Returns the path of the file for `bytes`, which are cut off the log file `id` at `offset`: the first one
/// that [`is_free_for`] for them. So bytes that were kept but not cut off, since an opening ended too early, get
/// no second copy, and other bytes that were cut off there stay.
///
/// # Errors
///
/// `Refused` if no path is free whose number is below `MOST_KEPT`; `System`; `Memory`.
fn find_free_path<R: FolderHost>(
    rt: &R,
    folder: &str,
    id: FileId,
    offset: u64,
    bytes: &[u8],
) -> FolderResult<String> {
    let alloc = rt.alloc();
    for nth in 1..MOST_KEPT {
        let name = cut_file_name(alloc, id, offset, nth)?;
        let path = format!(in alloc; "{folder}/{name}")?;
        if is_free_for(rt, path.as_str(), bytes)? {
            return Ok(path);
        }
    }
    let folder = String::from_str(alloc, folder)?;
    Err(FolderError::Refused(folder, "too much was cut off one place of a file"))
}

/// Tests whether `bytes` may be written to `path`: no file is there, or one whose bytes are a prefix of
/// `bytes`.
///
/// # Errors
///
/// `System` if the file can't be read; `Memory`.
fn is_free_for<R: FolderHost>(rt: &R, path: &str, bytes: &[u8]) -> FolderResult<bool> {
    match fs::exists(rt, path) {
        Ok(false) => return Ok(true),
        Ok(true) => {}
        Err(e) => return Err(FolderError::system(rt.alloc(), path, e)),
    }
    match fs::read(rt, path) {
        Ok(kept) => Ok(bytes.starts_with(&kept)),
        Err(e) => Err(FolderError::system(rt.alloc(), path, e)),
    }
}

/// Writes a file with `bytes` at `path` and syncs it, but not its name. A file that is there is overwritten.
///
/// # Errors
///
/// Those of the system. A part of the file may be there then.
fn write_synced_file<R: FolderHost>(rt: &R, path: &str, bytes: &[u8]) -> io::Result<()> {
    let mut file = fs::create(rt, path)?;
    file.write_all(bytes)?;
    file.sync_all()
}
