//! Opening an engine over a folder, whose files are read in pieces.

ghost use Rattle.std.specs.Prelude.{map, IfOk};
ghost use Rattle.raft_recover.specs.FileRecovery.{AreSizesOf};
ghost use Rattle.raft_opening.specs.FolderPaths.{IsFolderOpened, path_shown};

use crate::opening::open_in_pieces;
use crate::path_source::{NumberedPaths, PathSource};
use raft_base::{Error, FileId, LogQueue, Result, Version};
use raft_engine::{Opened, RecoveryMode};
use raft_folder::{FolderFiles, FolderHost};
use raft_reading::FileSize;
use raft_recover::SharedFiles;
use std::thread::Threads;

/// The files of a queue in a folder.
#[derive(Drop)]
struct QueuePaths {
    /// Their numbers and paths, oldest first.
    paths: NumberedPaths,
    /// Their numbers and lengths, oldest first.
    sizes: Vec<FileSize>,
}

/// Opens the engine of the folder at `path` by `workers` threads, as [`Engine::open_telling`] does, and reads its files in
/// pieces, as [`open_in_pieces`] does. A folder that isn't there yet is made. Returns with the engine what was cut off, and which
/// batches of the last append file have damaged entries.
///
/// # Errors
///
/// Those of [`FolderFiles::open`], and of [`open_in_pieces`]. The folder is closed then.
pub fn open_folder<'a, R: FolderHost + SharedFiles + Threads>(
    rt: &'a R,
    path: &'a str,
    mode: RecoveryMode,
    version: Version,
    workers: usize,
) -> Result<Opened<FolderFiles<'a, R>>>
    ensures { IfOk result (λ opened. IsFolderOpened (R.gives rt.now) mode version opened.engine opened.recovered
        opened.damaged.items) }
{
    let files = FolderFiles::open_unread(rt, path)?;
    let append = list_paths(rt, &files, LogQueue::Append)?;
    let rewrite = list_paths(rt, &files, LogQueue::Rewrite)?;
    let source = PathSource {
        disk: rt,
        append: append.paths,
        rewrite: rewrite.paths,
    };
    let (append, rewrite) = (append.sizes.as_slice(), rewrite.sizes.as_slice());
    let alloc = rt.alloc();
    match open_in_pieces(
        rt, alloc, mode, version, files, &source, append, rewrite, workers,
    ) {
        Ok(opened) => Ok(opened),
        Err(unopened) => Err(Error::from(unopened)),
    }
}

/// Returns the paths and the lengths of the files of `queue` in a folder.
///
/// # Errors
///
/// Those of the folder; `Memory`.
fn list_paths<R: FolderHost>(
    rt: &R,
    files: &FolderFiles<'_, R>,
    queue: LogQueue,
) -> Result<QueuePaths>
    ensures { IfOk result (λ found. AreSizesOf (map path_shown found.paths.items) found.sizes.items) }
{
    let alloc = rt.alloc();
    let mut paths = Vec::new(alloc);
    let mut sizes = Vec::new(alloc);
    for file in files.list(queue)? {
        let (seq, len) = (file.seq, file.len);
        paths.push((seq, files.path_of(FileId::new(queue, seq))?))?;
        sizes.push(FileSize { seq, len })?;
    }
    Ok(QueuePaths { paths, sizes })
}
