//! The trait of files by their paths, which workers read at the same time.

ghost use Rattle.std.specs.Prelude.{ℕ, List, IfErr, OnOk};
ghost use Rattle.raft_recover.specs.Common.{IoError, IsAppended};

use std::io::{Read, Seek, SeekFrom};
use std::{fs, io};

/// Files by their paths, which any number of threads read at the same time.
///
/// Like [`ReadFiles`](raft_reading::ReadFiles) it promises nothing of the bytes of a file on a disk but that
/// reads gave them; an implementor that knows more says so by `gives`.
pub trait SharedFiles: Sync {
    /// A read of the file at this path, from this offset on, may give these bytes: any, if nothing else is said.
    ghost gives: { Self → List ℕ → ℕ → List ℕ → Type 0 } = { λ _ _ _ _. Unit {0} };

    /// A read of the file at this path, from this offset on, may fail so: in any way, if nothing else is said.
    ghost may_fail: { Self → List ℕ → ℕ → IoError → Type 0 } = { λ _ _ _ _. Unit {0} };

    /// Returns the length of the file at `path` in bytes, or `None` if it can't be read at an offset, as a
    /// pipe.
    ///
    /// # Errors
    ///
    /// Those of the system, also if the file may not be read.
    fn file_len(&self, path: &str) -> io::Result<Option<u64>>;

    /// Appends `len` bytes of the file at `path`, from `offset` on, to `bytes`, or fewer if the file ends
    /// before.
    ///
    /// # Errors
    ///
    /// Those of the system. Some of the bytes may have been appended then.
    fn read_file(&self, path: &str, offset: u64, len: usize, bytes: &mut Vec<u8>) -> io::Result<()>
        ensures ok { OnOk result (IsAppended (gives self.now path.now offset) bytes.old.items
            bytes.new.items) }
        ensures err { IfErr result (may_fail self.now path.now offset) };
}

/// Reads regular files at an offset. A file is opened for each read, so few files are open at a time.
impl SharedFiles for HostRuntime {
    /// Returns the length of the regular file at `path` in bytes, or `None` for anything else, as a pipe. The
    /// file is opened, so that it is known that it may be read.
    ///
    /// # Errors
    ///
    /// Those of the system, also if the file may not be read.
    fn file_len(&self, path: &str) -> io::Result<Option<u64>> {
        if !fs::metadata(self, path)?.is_file() {
            return Ok(None);
        }
        Ok(Some(fs::open(self, path)?.metadata()?.len()))
    }

    /// Appends `len` bytes of the file at `path`, from `offset` on, to `bytes`, or fewer if the file ends
    /// before. The file is opened for that, and closed again.
    ///
    /// # Errors
    ///
    /// Those of the system. Some of the bytes may have been appended then.
    fn read_file(
        &self,
        path: &str,
        offset: u64,
        len: usize,
        bytes: &mut Vec<u8>,
    ) -> io::Result<()> {
        let mut file = fs::open(self, path)?;
        file.seek(SeekFrom::Start(offset))?;
        file.take(len as u64).read_to_end(bytes)?;
        Ok(())
    }
}
