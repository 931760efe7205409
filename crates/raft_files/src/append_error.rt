//! [`AppendError`]: why an append failed, and whether it was taken back.

ghost use Rattle.std.specs.Prelude.{◌≡◌};
ghost use Rattle.raft_files.specs.Appends.{append_fault};

use raft_base::Error;

/// Why bytes weren't put at the end of a file, and what the file has now.
#[derive(Debug, Drop)]
pub enum AppendError {
    /// For this error; the file has the bytes that it had before, and no others, and what was synced still is. What a
    /// failed append left there was cut off, and the cut is on the disk. So the files are asked further calls.
    AsBefore(Error),
    /// For this error; behind the bytes that the file had before some of those that were to be put may stand, from the
    /// first one on.
    InPart(Error),
}

impl AppendError {
    /// Returns the error for which the bytes weren't put.
    pub fn into_error(self) -> Error
        ensures { result ≡ append_fault self }
    {
        match self {
            AppendError::AsBefore(error) | AppendError::InPart(error) => error,
        }
    }
}

impl From<AppendError> for Error {
    ghost use Rattle.std.specs.Prelude.{◌≡◌};
    ghost use Rattle.raft_files.specs.Appends.{append_fault};

    ghost from_gives = { λ failed e. e ≡ append_fault failed };

    /// Returns the error for which the bytes weren't put, so that `?` hands it on.
    fn from(failed: AppendError) -> Error {
        failed.into_error()
    }
}
