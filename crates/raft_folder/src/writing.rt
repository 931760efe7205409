//! How bytes are written to a log file so that, if that fails, none are left.

use std::fs::File;
use std::io;
use std::io::Write;

/// Why bytes weren't written to the end of a file, and what the file has then.
#[derive(Drop)]
pub(crate) struct Unwritten {
    /// The error of the system: that of writing, or that of cutting off what was written, or of the sync, if one of these failed too.
    pub(crate) error: io::Error,
    /// Whether the file has the bytes that it had before, and no others; if some were written, the cut is on the disk.
    pub(crate) is_as_before: bool,
}

/// Writes `bytes` to the end of `file`. If that fails, those that were written are cut off again, and the file is synced, so that
/// no crash brings them back.
///
/// # Errors
///
/// Those of the system. If cutting the bytes off failed too, or that sync, it is the error of this: some of the bytes may be there
/// then, and after a sync that failed earlier ones may be lost at a crash.
pub(crate) fn write_all_or_nothing(
    file: &File,
    bytes: &[u8],
) -> std::result::Result<(), Unwritten> {
    let old = match file.metadata() {
        Ok(metadata) => metadata.len(),
        Err(error) => {
            return Err(Unwritten {
                error,
                is_as_before: true,
            });
        }
    };
    let mut writer = file;
    match writer.write_all(bytes) {
        Ok(()) => Ok(()),
        Err(error) => Err(take_back(file, old, error)),
    }
}

/// Cuts off what was written behind the first `len` bytes of `file` before `error` came. Returns `error`, or that of cutting it off.
fn take_back(file: &File, len: u64, error: io::Error) -> Unwritten {
    match cut_to(file, len) {
        Ok(()) => Unwritten {
            error,
            is_as_before: true,
        },
        Err(failure) => Unwritten {
            error: failure,
            is_as_before: false,
        },
    }
}

/// Cuts `file` to its first `len` bytes, and syncs it.
///
/// # Errors
///
/// Those of the system. The file may be cut then, or not.
fn cut_to(file: &File, len: u64) -> io::Result<()> {
    file.set_len(len)?;
    file.sync_all()
}
