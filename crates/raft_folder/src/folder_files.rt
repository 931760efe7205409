//! [`FolderFiles`]: the files of an engine in a folder.

ghost use Rattle.std.specs.Prelude.{◌≡◌, [], ◌∷◌, map, IfOk};
ghost use Rattle.raft_base.specs.declared.pipe_log.LogQueue.TheVariants.{Append, Rewrite};
ghost use Rattle.raft_files.specs.Asks.{Found, ask};
ghost use Rattle.raft_files.specs.HeldFiles.{file_shown};

use crate::errors::FolderResult;
use crate::folder::{Folder, KeptTail};
use crate::host::FolderHost;
use crate::read_folder::FolderFile;
use raft_base::{Error, FileBlockHandle, FileId, FileSeq, LogQueue, Result};
use raft_files::{AppendError, Asked, EngineFiles, NotesFound};

/// The files of both queues in a folder, named `0000000000000001.raftlog` and `0000000000000001.rewrite`. The folder and a
/// file `LOCK` in it are locked for as long as this value lives. Files with other names are left alone.
///
/// What an opened engine cuts off a file is kept first, in a file beside it whose name says where it was:
/// `0000000000000001.raftlog.4096.cut`, or `0000000000000001.raftlog.4096.2.cut` if something else was cut off there before.
/// Such files are never read as log files, nor deleted: look at them if a batch is missing, and delete them when you like.
///
/// A call is noted if anything is done that may be left half done. An append that fails, since the disk is full for instance, is
/// taken back: the file is cut to the length that it had, and synced. If both succeed the files take further calls. After any other
/// `Err` of a call but `read`, whatever its reason, that of a failed taking back too, every later call fails with `Failed`: open the
/// folder again to find what the disk has; after a failed taking back, once the machine was started again, as after a failed sync.
#[derive(Drop)]
pub struct FolderFiles<'a, R: FolderHost> {
    /// The folder and its open files.
    folder: Folder<'a, R>,
    /// What was asked of the files, for contracts alone.
    asked: Asked,
    /// Whether a call that changes files has begun and hasn't succeeded.
    has_failed: bool,
}

/// What was found in a folder: its files, and their bytes.
#[derive(Drop)]
pub struct FoundFolder<'a, R: FolderHost> {
    /// The opened files, which have noted what was found.
    pub files: FolderFiles<'a, R>,
    /// The number and the bytes of each file of the append queue, oldest first.
    pub append: Vec<(FileSeq, Vec<u8>)>,
    /// The number and the bytes of each file of the rewrite queue, oldest first.
    pub rewrite: Vec<(FileSeq, Vec<u8>)>,
}

impl<'a, R: FolderHost> FolderFiles<'a, R> {
    /// Opens the folder at `path` with all log files in it, locks it, and reads all files. Their bytes and names, and the
    /// name of the folder, are on the disk then. If the folder isn't there it is made, but its parent must be there. Hand
    /// what is found to `Engine::open`.
    ///
    /// # Errors
    ///
    /// `Locked` if another engine has the folder open; `Misnamed` if a name ends like that of a log file but isn't one;
    /// `Foreign` if a file begins with raft-engine's header; `System`; `Memory`.
    pub fn open(rt: &'a R, path: &'a str) -> FolderResult<FoundFolder<'a, R>>
        ensures { IfOk result (λ found. found.files.asked.asks
            ≡ ask Rewrite (Found (map file_shown found.rewrite.items))
            ∷ ask Append (Found (map file_shown found.append.items)) ∷ []) }
    {
        let folder = open_and_sync(rt, path)?;
        let append = folder.bytes_of_files(LogQueue::Append)?;
        let rewrite = folder.bytes_of_files(LogQueue::Rewrite)?;
        let mut asked = Asked::new();
        asked.found(LogQueue::Append, &append);
        asked.found(LogQueue::Rewrite, &rewrite);
        let files = FolderFiles {
            folder,
            asked,
            has_failed: false,
        };
        Ok(FoundFolder {
            files,
            append,
            rewrite,
        })
    }

    /// Opens the folder at `path` with all log files in it and locks it, as [`FolderFiles::open`] does, but reads only the
    /// first bytes of each file, and notes none as found. `open_in_pieces` of `raft_opening` then reads and notes them.
    ///
    /// # Errors
    ///
    /// Those of [`FolderFiles::open`].
    pub fn open_unread(rt: &'a R, path: &'a str) -> FolderResult<FolderFiles<'a, R>>
        ensures { IfOk result (λ files. files.asked.asks ≡ []) }
    {
        let folder = open_and_sync(rt, path)?;
        folder.check_headers(LogQueue::Append)?;
        folder.check_headers(LogQueue::Rewrite)?;
        Ok(FolderFiles {
            folder,
            asked: Asked::new(),
            has_failed: false,
        })
    }

    /// Returns the number and the length in bytes of each file of `queue`, oldest first.
    ///
    /// # Errors
    ///
    /// `System`; `Memory`.
    pub fn list(&self, queue: LogQueue) -> FolderResult<Vec<FolderFile>> {
        self.folder.list(queue)
    }

    /// Returns the number and the path of each file of `queue`, oldest first.
    ///
    /// # Errors
    ///
    /// `Memory` alone.
    pub fn paths(&self, queue: LogQueue) -> FolderResult<Vec<(FileSeq, String)>> {
        self.folder.paths(queue)
    }

    /// Returns the path of the log file `id`, whether it is there or not.
    ///
    /// # Errors
    ///
    /// `Memory` alone.
    pub fn path_of(&self, id: FileId) -> FolderResult<String> {
        self.folder.path_of(id)
    }

    /// Returns what was cut off files since the folder was opened, in order.
    pub fn kept(&self) -> &[KeptTail] {
        self.folder.kept()
    }

    /// Begins a call that changes files: it counts as failed until it succeeds.
    ///
    /// # Errors
    ///
    /// `Failed` if an earlier call failed. Nothing changes then.
    fn begin_change(&mut self) -> Result<()>
        ensures { self.new.asked ≡ self.old.asked }
    {
        if self.has_failed {
            return Err(Error::Failed);
        }
        self.has_failed = true;
        Ok(())
    }
}

impl<R: FolderHost> EngineFiles for FolderFiles<'_, R> {
    ghost asked = { λ files. files.asked.asks };

    /// Writes `bytes` to the end of the last file of `queue`, without syncing it. If that fails, what was written is cut off
    /// again, and the file synced.
    ///
    /// # Errors
    ///
    /// Those of writing: `AsBefore` if all that was written is cut off, and that is synced; the files take further calls then.
    /// `InPart` if that fails too, with the error of the cut or of the sync: every later call fails then, and earlier bytes that
    /// weren't synced may be lost at a crash, as after a failed [`sync`](EngineFiles::sync). `InPart` with `Failed` after an earlier error.
    fn append(&mut self, queue: LogQueue, bytes: &[u8]) -> std::result::Result<(), AppendError> {
        if let Err(error) = self.begin_change() {
            return Err(AppendError::InPart(error));
        }
        match self.folder.append(queue, bytes) {
            Ok(()) => {
                self.asked.put(queue, bytes);
                self.has_failed = false;
                Ok(())
            }
            Err(failed) if failed.is_as_before => {
                self.has_failed = false;
                Err(AppendError::AsBefore(failed.error))
            }
            Err(failed) => {
                self.asked.put(queue, bytes);
                Err(AppendError::InPart(failed.error))
            }
        }
    }

    /// Syncs the last file of `queue`, and makes a new one with the number `seq` after it, whose name is on the disk then.
    ///
    /// # Errors
    ///
    /// Those of the sync and of making the file, and `Failed` after an earlier error. The new file may be there then, or not,
    /// and every later call fails.
    fn rotate(&mut self, queue: LogQueue, seq: FileSeq) -> Result<()> {
        self.begin_change()?;
        self.folder.sync(queue)?;
        self.asked.begin(queue, seq);
        self.folder.create(FileId::new(queue, seq))?;
        self.has_failed = false;
        Ok(())
    }

    /// Syncs the last file of `queue`, which makes everything that was asked of the queue survive a crash: older files were
    /// synced when newer ones were begun, and names when files were made or deleted.
    ///
    /// # Errors
    ///
    /// Those of the sync, which is noted as failed, and `Failed` after an earlier error. Every later call fails then.
    fn sync(&mut self, queue: LogQueue) -> Result<()> {
        self.begin_change()?;
        let synced = self.folder.sync(queue);
        if synced.is_err() {
            self.asked.unsynced(queue);
        }
        synced?;
        self.asked.sync(queue);
        self.has_failed = false;
        Ok(())
    }

    /// Deletes the oldest file of `queue`, whose name is gone from the disk then.
    ///
    /// # Errors
    ///
    /// Those of deleting it, and `Failed` after an earlier error. The file may be gone then, or not, and every later call
    /// fails.
    fn delete_oldest(&mut self, queue: LogQueue) -> Result<()> {
        self.begin_change()?;
        self.asked.delete(queue);
        self.folder.delete_oldest(queue)?;
        self.has_failed = false;
        Ok(())
    }

    /// Cuts the last file of `queue` to its first `len` bytes, if it has more. What is cut off is kept in a file beside it,
    /// and all of this is synced.
    ///
    /// # Errors
    ///
    /// Those of keeping and cutting it, and `Failed` after an earlier error. The file may be cut then, or not, and every
    /// later call fails.
    fn truncate(&mut self, queue: LogQueue, len: u64) -> Result<()> {
        self.begin_change()?;
        self.asked.cut(queue, len);
        self.folder.truncate(queue, len)?;
        self.has_failed = false;
        Ok(())
    }

    /// Returns the bytes at `place`, and notes them.
    ///
    /// # Errors
    ///
    /// Those of reading, after which later calls can still succeed; `Failed` after an earlier error of another call. Nothing
    /// is noted then.
    fn read(&mut self, place: FileBlockHandle) -> Result<Vec<u8>> {
        if self.has_failed {
            return Err(Error::Failed);
        }
        let bytes = self.folder.read(place)?;
        self.asked.read(place, &bytes);
        Ok(bytes)
    }
}

impl<R: FolderHost> NotesFound for FolderFiles<'_, R> {
    /// Makes `found`, which notes the found files of both queues, the list of what was asked so far.
    fn note_found(&mut self, found: Asked) {
        self.asked = found;
    }
}

/// Opens the folder at `path` with all log files in it, to change them, locks it, and syncs all files. Their bytes and names,
/// and the name of the folder, are on the disk then.
///
/// # Errors
///
/// Those of [`Folder::open`], and of the syncs.
fn open_and_sync<'a, R: FolderHost>(rt: &'a R, path: &'a str) -> FolderResult<Folder<'a, R>> {
    let folder = Folder::open(rt, path)?;
    folder.sync_all(LogQueue::Append)?;
    folder.sync_all(LogQueue::Rewrite)?;
    Ok(folder)
}
