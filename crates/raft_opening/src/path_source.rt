//! Reading files by their paths.

ghost use Rattle.std.specs.Prelude.{◌≡◌, map, IfSome};
ghost use Rattle.raft_recover.specs.FileRecovery.{IsNamed};
ghost use Rattle.raft_opening.specs.FolderPaths.{path_shown, paths_of};

use raft_base::{FileId, FileSeq, LogQueue};
use raft_reading::ReadFiles;
use raft_recover::SharedFiles;
use std::io;
use std::io::ErrorKind;

/// The files of a queue by their numbers, which rise, and their paths.
pub(crate) type NumberedPaths = Vec<(FileSeq, String)>;

/// The files of both queues by their paths.
#[derive(Drop)]
pub(crate) struct PathSource<'a, D: SharedFiles> {
    /// What has the files.
    pub(crate) disk: &'a D,
    /// The files of the append queue.
    pub(crate) append: NumberedPaths,
    /// The files of the rewrite queue.
    pub(crate) rewrite: NumberedPaths,
}

impl<D: SharedFiles> ReadFiles for PathSource<'_, D> {
    ghost use Rattle.std.specs.Prelude.{map};
    ghost use Rattle.raft_opening.specs.FolderPaths.{PathsGive, path_shown};

    ghost gives = { λ source. PathsGive (D.gives source.disk.now) (map path_shown source.append.items)
        (map path_shown source.rewrite.items) };

    /// Appends `len` bytes of `file`, from `offset` on, to `bytes`, or fewer if the file ends before.
    ///
    /// # Errors
    ///
    /// `NotFound` if no file of its queue has that number; those of the file. Some of the bytes may have been appended then.
    fn read(&self, file: FileId, offset: u64, len: usize, bytes: &mut Vec<u8>) -> io::Result<()> {
        match path_of_file(
            paths_of_queue(file.queue, &self.append, &self.rewrite),
            file.seq,
        ) {
            Some(path) => self.disk.read_file(path, offset, len, bytes),
            None => Err(io::Error::from(ErrorKind::NotFound)),
        }
    }
}

/// Returns the files of one queue.
fn paths_of_queue<'p>(
    queue: LogQueue,
    append: &'p NumberedPaths,
    rewrite: &'p NumberedPaths,
) -> &'p [(FileSeq, String)]
    ensures { map path_shown result.now
        ≡ paths_of queue (map path_shown append.now.items) (map path_shown rewrite.now.items) }
{
    match queue {
        LogQueue::Append => append.as_slice(),
        LogQueue::Rewrite => rewrite.as_slice(),
    }
}

/// Returns the path of the file numbered `seq`; `None` if there is none. The numbers of `paths` rise.
fn path_of_file(paths: &[(FileSeq, String)], seq: FileSeq) -> Option<&str>
    ensures { IfSome result (λ path. IsNamed (map path_shown paths.now) seq path.now) }
{
    match paths.binary_search_by_key(&seq, |named| named.0) {
        Ok(index) => Some(paths[index].1.as_str()),
        Err(_) => None,
    }
}
