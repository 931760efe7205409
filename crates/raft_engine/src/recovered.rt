//! What an opening cuts off found files, and which damaged batches it names.

ghost use Rattle.std.specs.Prelude.{◌<◌, length};
ghost use Rattle.raft_engine.specs.TailsFound.{IsTailFrom};

use raft_base::{Error, FileSeq};
use raft_records::FilePart;

/// The torn tail of a queue's last file, which an opening cuts off: all from the first byte on at which no batch can be read.
#[derive(Drop)]
pub struct CutTail {
    /// The number of the file.
    pub file: FileSeq,
    /// The offset in the file at which the tail begins.
    pub offset: u64,
    /// The length of the tail in bytes.
    pub len: u64,
    /// The error for which no batch can be read there.
    pub error: Error,
}

impl CutTail {
    /// Returns the tail of a whole file from position `at` on, at which no batch can be read for the reason `error`.
    pub(crate) fn from(file: &FilePart, at: usize, error: Error) -> CutTail
        requires { at < length file.now.bytes }
        ensures { IsTailFrom file.now at error result }
    {
        CutTail {
            file: file.id().seq,
            offset: at as u64,
            len: (file.bytes().len() - at) as u64,
            error,
        }
    }
}

/// A batch of the last append file whose entries are damaged. An opening keeps the batch; its entries are refused when they
/// are read.
#[derive(Drop)]
pub struct DamagedBatch {
    /// The number of the file.
    pub file: FileSeq,
    /// The offset in the file at which the batch begins.
    pub offset: u64,
    /// The error with which its entries are refused; its text begins with the file and the offset.
    pub error: Error,
}

/// What an opening cut off the last file of each queue; `None` if all of that file can be read, or there is none.
#[derive(Drop)]
pub struct Recovered {
    /// The tail that the append queue had.
    pub append: Option<CutTail>,
    /// The tail that the rewrite queue had.
    pub rewrite: Option<CutTail>,
}
