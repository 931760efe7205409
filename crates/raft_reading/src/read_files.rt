//! The trait of files that can only be read.

ghost use Rattle.std.specs.Prelude.{ℕ, List, IfErr, OnOk};
ghost use Rattle.raft_reading.specs.Common.{FileId, IoError, IsAppended};

use raft_base::FileId;
use std::io;

/// Files by their ids, which any number of threads read at the same time.
///
/// No contract can say which bytes a file on a disk has. So its bytes are those which reads of it gave, and
/// what is promised of a replay is promised of these. An implementor that knows more, as one over files in
/// memory, says so by `gives`.
pub trait ReadFiles: Sync {
    /// A read of this file at this offset may give these bytes: any, if nothing else is said.
    ghost gives: { Self → FileId → ℕ → List ℕ → Type 0 } = { λ _ _ _ _. Unit {0} };

    /// A read of this file at this offset may fail so: in any way, if nothing else is said.
    ghost may_fail: { Self → FileId → ℕ → IoError → Type 0 } = { λ _ _ _ _. Unit {0} };

    /// Appends `len` bytes of the file `file`, from `offset` on, to `bytes`, or fewer if the file ends
    /// before.
    ///
    /// # Errors
    ///
    /// Those of the implementor, as `NotFound` if it has no such file. Some of the bytes may have been
    /// appended then.
    fn read(&self, file: FileId, offset: u64, len: usize, bytes: &mut Vec<u8>) -> io::Result<()>
        ensures ok { OnOk result (IsAppended (gives self.now file offset) bytes.old.items
            bytes.new.items) }
        ensures err { IfErr result (may_fail self.now file offset) };
}
