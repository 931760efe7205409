//! [`Folder`]: a folder of log files, and what is done to it. Nothing is noted here of what was asked: that
//! is up to its users.

use crate::aside::keep_cut_bytes;
use crate::errors::{FolderError, FolderResult};
use crate::host::FolderHost;
use crate::locking::LockedFolder;
use crate::names::{NameMeaning, classify_name, log_file_name};
use crate::read_folder::FolderFile;
use crate::writing::{Unwritten, write_all_or_nothing};
use raft_base::{Error, FileBlockHandle, FileId, FileSeq, LogQueue};
use std::collections::BTreeMap;
use std::fs::{File, OpenOptions};
use std::os::unix::fs::FileExt;
use std::{fs, io};

/// The first bytes of a file of raft-engine. No batch begins with them.
const FOREIGN_HEADER: &[u8] = b"RAFT-LOG-FILE-HEADER";

/// The end of a log file that was cut off, and is kept in a file of its own.
#[derive(Drop)]
pub struct KeptTail {
    /// The number of bytes that were cut off.
    pub len: usize,
    /// The path of the file that keeps them. Its name has that of the log file, and the offset at which they
    /// began.
    pub kept: String,
}

/// Why bytes weren't written to the end of a log file, and what the file has then.
#[derive(Drop)]
pub(crate) struct Unappended {
    /// The error, with the file's path: that of writing, or that of taking back what was written, if this failed too.
    pub(crate) error: Error,
    /// Whether the file has the bytes that it had before, and no others; if some were written, the cut is on the disk.
    pub(crate) is_as_before: bool,
}

/// The files of a queue, all of them open, by their numbers.
pub(crate) type OpenFiles = BTreeMap<FileSeq, File>;

/// A folder with the log files of both queues, all of them open. It is locked for as long as this value
/// lives.
#[derive(Drop)]
pub(crate) struct Folder<'a, R: FolderHost> {
    /// The machine that has the folder.
    rt: &'a R,
    /// The path of the folder.
    path: &'a str,
    /// The folder itself, open and locked.
    locked: LockedFolder,
    /// The files of the append queue.
    append: OpenFiles,
    /// The files of the rewrite queue.
    rewrite: OpenFiles,
    /// What was cut off files since the folder was opened, in order.
    kept: Vec<KeptTail>,
}

impl<'a, R: FolderHost> Folder<'a, R> {
    /// Opens the folder at `path` with all log files in it, to change them, and locks it for this value
    /// alone. A folder that isn't there is made. The names of the files, and of the folder, are on the disk
    /// then.
    ///
    /// # Errors
    ///
    /// `Locked` if another engine has the folder open; `Misnamed` if a name ends like that of a log file but
    /// isn't one; `System`; `Memory`.
    pub(crate) fn open(rt: &'a R, path: &'a str) -> FolderResult<Folder<'a, R>> {
        if !path_exists(rt, path)? {
            name_path_in_error(rt, path, fs::create_dir(rt, path))?;
        }
        let locked = LockedFolder::lock_exclusively(rt, path)?;
        let mut how = OpenOptions::new();
        how.read(true).append(true);
        let mut folder = Folder::without_files(rt, path, locked);
        folder.open_files(&how)?;
        name_path_in_error(rt, path, folder.sync_names())?;
        Ok(folder)
    }

    /// Opens the folder at `path` with all log files in it, to read them, and locks it with a shared lock.
    /// Nothing is made or synced.
    ///
    /// # Errors
    ///
    /// `Locked` if an engine that writes has the folder open; `Misnamed` if a name ends like that of a log
    /// file but isn't one; `System`, also if there is no folder; `Memory`.
    pub(crate) fn open_to_read(rt: &'a R, path: &'a str) -> FolderResult<Folder<'a, R>> {
        let locked = LockedFolder::lock_shared(rt, path)?;
        let mut how = OpenOptions::new();
        how.read(true);
        let mut folder = Folder::without_files(rt, path, locked);
        folder.open_files(&how)?;
        Ok(folder)
    }

    /// Returns the folder at `path`, which is `locked`, without any open file.
    fn without_files(rt: &'a R, path: &'a str, locked: LockedFolder) -> Folder<'a, R> {
        let alloc = rt.alloc();
        Folder {
            rt,
            path,
            locked,
            append: BTreeMap::new(alloc),
            rewrite: BTreeMap::new(alloc),
            kept: Vec::new(alloc),
        }
    }

    /// Opens all log files in the folder, as `how` says. Other files are left alone.
    ///
    /// # Errors
    ///
    /// `Misnamed` if a name ends like that of a log file but isn't one; `System`; `Memory`. Some of the files
    /// are open then.
    fn open_files(&mut self, how: &OpenOptions) -> FolderResult<()> {
        for entry in name_path_in_error(self.rt, self.path, fs::read_dir(self.rt, self.path))? {
            let entry = name_path_in_error(self.rt, self.path, entry)?;
            self.open_if_log_file(how, entry.file_name())?;
        }
        Ok(())
    }

    /// Opens the file `name` as `how` says, if that is the name of a log file.
    ///
    /// # Errors
    ///
    /// `Misnamed` if `name` ends like that of a log file but isn't one; `Refused` if it isn't a regular file; `System`; `Memory`.
    fn open_if_log_file(&mut self, how: &OpenOptions, name: &str) -> FolderResult<()> {
        let alloc = self.rt.alloc();
        let folder = self.path;
        match classify_name(alloc, name)? {
            NameMeaning::Log(id) => {
                let path = format!(in alloc; "{folder}/{name}")?;
                refuse_irregular_file(self.rt, path.as_str())?;
                let file = name_path_in_error(
                    self.rt,
                    path.as_str(),
                    how.open(self.rt, path.as_str()),
                )?;
                self.files_mut(id.queue).insert(id.seq, file)?;
                Ok(())
            }
            NameMeaning::Misnamed => Err(FolderError::Misnamed(format!(in alloc;
                "{folder}/{name}"
            )?)),
            NameMeaning::Other => Ok(()),
        }
    }

    /// Syncs the names in the folder, and the folder's own name in its parent.
    ///
    /// # Errors
    ///
    /// Those of the system, and that of a lack of memory.
    fn sync_names(&self) -> io::Result<()> {
        self.locked.entry.sync_all()?;
        let parent = format!(in self.rt.alloc(); "{}/..", self.path)?;
        fs::open(self.rt, parent.as_str())?.sync_all()
    }

    /// Returns the open files of `queue`, by their numbers.
    pub(crate) fn files(&self, queue: LogQueue) -> &OpenFiles {
        match queue {
            LogQueue::Append => &self.append,
            LogQueue::Rewrite => &self.rewrite,
        }
    }

    /// Returns the open files of `queue`, to be changed.
    fn files_mut(&mut self, queue: LogQueue) -> &mut OpenFiles {
        match queue {
            LogQueue::Append => &mut self.append,
            LogQueue::Rewrite => &mut self.rewrite,
        }
    }

    /// Returns the number and the length in bytes of each file of `queue`, oldest first.
    ///
    /// # Errors
    ///
    /// `System`; `Memory`.
    pub(crate) fn list(&self, queue: LogQueue) -> FolderResult<Vec<FolderFile>> {
        let mut files = Vec::new(self.rt.alloc());
        for (seq, file) in self.files(queue) {
            let len = self.file_len(FileId::new(queue, *seq), file)?;
            files.push(FolderFile { seq: *seq, len })?;
        }
        Ok(files)
    }

    /// Returns the number and the path of each file of `queue`, oldest first.
    ///
    /// # Errors
    ///
    /// `Memory` alone.
    pub(crate) fn paths(&self, queue: LogQueue) -> FolderResult<Vec<(FileSeq, String)>> {
        let mut paths = Vec::new(self.rt.alloc());
        for seq in self.files(queue).keys() {
            paths.push((*seq, self.path_of(FileId::new(queue, *seq))?))?;
        }
        Ok(paths)
    }

    /// Syncs the files of `queue`, one after another.
    ///
    /// # Errors
    ///
    /// `System`; `Memory`. Some of the files may not be synced then.
    pub(crate) fn sync_all(&self, queue: LogQueue) -> FolderResult<()> {
        for (seq, file) in self.files(queue) {
            self.name_file_in_error(FileId::new(queue, *seq), file.sync_all())?;
        }
        Ok(())
    }

    /// Checks that no file of `queue` begins with raft-engine's header. No batch can be read in such a file,
    /// so all of it would be taken for a torn tail, and cut off.
    ///
    /// # Errors
    ///
    /// `Foreign` if a file does; `System`; `Memory`.
    pub(crate) fn check_headers(&self, queue: LogQueue) -> FolderResult<()> {
        for (seq, file) in self.files(queue) {
            let id = FileId::new(queue, *seq);
            let len = self.file_len(id, file)?.min(FOREIGN_HEADER.len() as u64);
            let begin = self.name_file_in_error(id, self.read_bytes(file, 0, len as usize))?;
            if begin.as_slice() == FOREIGN_HEADER {
                return Err(FolderError::Foreign(self.path_of(id)?));
            }
        }
        Ok(())
    }

    /// Returns the number and all bytes of each file of `queue`, oldest first.
    ///
    /// # Errors
    ///
    /// `Foreign` if a file begins with raft-engine's header ([`Folder::check_headers`]); `System`; `Memory`.
    pub(crate) fn bytes_of_files(&self, queue: LogQueue) -> FolderResult<Vec<(FileSeq, Vec<u8>)>> {
        let mut files = Vec::new(self.rt.alloc());
        for (seq, file) in self.files(queue) {
            let id = FileId::new(queue, *seq);
            let len = self.file_len(id, file)?;
            let bytes = self.name_file_in_error(id, self.read_bytes(file, 0, len as usize))?;
            if bytes.starts_with(FOREIGN_HEADER) {
                return Err(FolderError::Foreign(self.path_of(id)?));
            }
            files.push((*seq, bytes))?;
        }
        Ok(files)
    }

    /// Writes `bytes` to the end of the last file of `queue`, without syncing it.
    ///
    /// # Errors
    ///
    /// `InvalidArgument` if the queue has no file, or `Memory` if there is none for its text; else `Io`. What was written
    /// of the bytes is cut off again, and the file synced; [`Unappended`] says whether that succeeded.
    pub(crate) fn append(
        &self,
        queue: LogQueue,
        bytes: &[u8],
    ) -> std::result::Result<(), Unappended> {
        let (id, file) = match self.last_file(queue) {
            Ok(last) => last,
            Err(error) => {
                return Err(Unappended {
                    error: Error::from(error),
                    is_as_before: true,
                });
            }
        };
        match write_all_or_nothing(file, bytes) {
            Ok(()) => Ok(()),
            Err(unwritten) => Err(self.unappended(id, unwritten)),
        }
    }

    /// Adds the path of the file `id` to the system's error in `unwritten`, if there is memory for it.
    fn unappended(&self, id: FileId, unwritten: Unwritten) -> Unappended {
        let is_as_before = unwritten.is_as_before;
        let error = match self.path_of(id) {
            Ok(path) => Error::from(FolderError::System(path, unwritten.error)),
            Err(_) => Error::Io(unwritten.error),
        };
        Unappended {
            error,
            is_as_before,
        }
    }

    /// Syncs the last file of `queue`, if it has one. The older files were synced when newer ones were begun.
    ///
    /// # Errors
    ///
    /// `System`; `Memory`.
    pub(crate) fn sync(&self, queue: LogQueue) -> FolderResult<()> {
        match self.files(queue).last_key_value() {
            Some((seq, file)) => self.name_file_in_error(FileId::new(queue, *seq), file.sync_all()),
            None => Ok(()),
        }
    }

    /// Makes the file `id`, whose number must be above that of the queue's last file. Its name is on the disk
    /// then.
    ///
    /// # Errors
    ///
    /// `Refused` if its number isn't above; nothing has changed then. `System`, also if there is a file with
    /// that name; `Memory`. The file may be on the disk then, but isn't listed here.
    pub(crate) fn create(&mut self, id: FileId) -> FolderResult<()> {
        if let Some((last, _)) = self.files(id.queue).last_key_value() {
            if id.seq <= *last {
                return Err(self.refusal_because(
                    "a new file has a greater number than the last one",
                ));
            }
        }
        let mut how = OpenOptions::new();
        how.create_new(true).read(true).append(true);
        let path = self.path_of(id)?;
        let file = self.name_file_in_error(id, how.open(self.rt, path.as_str()))?;
        name_path_in_error(self.rt, self.path, self.locked.entry.sync_all())?;
        self.files_mut(id.queue).insert(id.seq, file)?;
        Ok(())
    }

    /// Deletes the oldest file of `queue`, unless it is the only one. Its name is gone from the disk then.
    ///
    /// # Errors
    ///
    /// `Refused` if the queue has fewer than two files; nothing has changed then. `System`; `Memory`. The
    /// file is no longer listed here then, but it may still be on the disk.
    pub(crate) fn delete_oldest(&mut self, queue: LogQueue) -> FolderResult<()> {
        if self.files(queue).len() < 2 {
            return Err(self.refusal_because("a queue keeps its last file"));
        }
        if let Some((seq, _)) = self.files_mut(queue).pop_first() {
            let id = FileId::new(queue, seq);
            let path = self.path_of(id)?;
            self.name_file_in_error(id, fs::remove_file(self.rt, path.as_str()))?;
            name_path_in_error(self.rt, self.path, self.locked.entry.sync_all())?;
        }
        Ok(())
    }

    /// Cuts the last file of `queue` to its first `len` bytes, if it has more. What is cut off is first
    /// written to a file beside it ([`KeptTail`]). Both files are synced then, and so is the new name.
    ///
    /// # Errors
    ///
    /// `Refused` if the queue has no file, or too much was cut off at this offset before; `System`; `Memory`.
    /// The file may be cut then, or not; what was cut off is kept.
    pub(crate) fn truncate(&mut self, queue: LogQueue, len: u64) -> FolderResult<()> {
        let (id, file) = self.last_file(queue)?;
        let old = self.file_len(id, file)?;
        if len >= old {
            return Ok(());
        }
        let tail = self.name_file_in_error(id, self.read_bytes(file, len, (old - len) as usize))?;
        let kept = keep_cut_bytes(self.rt, self.path, id, len, &tail)?;
        name_path_in_error(self.rt, self.path, self.locked.entry.sync_all())?;
        self.name_file_in_error(id, file.set_len(len))?;
        self.name_file_in_error(id, file.sync_all())?;
        let len = tail.len();
        self.kept.push(KeptTail { len, kept })?;
        Ok(())
    }

    /// Returns what was cut off files since the folder was opened, in order.
    pub(crate) fn kept(&self) -> &[KeptTail] {
        &self.kept
    }

    /// Returns the bytes at `place`.
    ///
    /// # Errors
    ///
    /// `Refused` if the queue has no such file; `System`, also if the file ends before the place does;
    /// `Memory`.
    pub(crate) fn read(&self, place: FileBlockHandle) -> FolderResult<Vec<u8>> {
        match self.files(place.id.queue).get(&place.id.seq) {
            Some(file) => self.name_file_in_error(
                place.id,
                self.read_bytes(file, place.offset, place.len),
            ),
            None => Err(self.refusal_because("no file has this place")),
        }
    }

    /// Returns `len` bytes of `file`, from `offset` on.
    ///
    /// # Errors
    ///
    /// Those of the system, also if the file ends before; that of a lack of memory.
    fn read_bytes(&self, file: &File, offset: u64, len: usize) -> io::Result<Vec<u8>> {
        let mut bytes = vec![in self.rt.alloc(); 0; len]?;
        file.read_exact_at(&mut bytes, offset)?;
        Ok(bytes)
    }

    /// Returns the length of `file` in bytes. `id` is its name for the text of an error.
    ///
    /// # Errors
    ///
    /// `System`; `Memory`.
    pub(crate) fn file_len(&self, id: FileId, file: &File) -> FolderResult<u64> {
        match file.metadata() {
            Ok(metadata) => Ok(metadata.len()),
            Err(e) => self.name_file_in_error(id, Err(e)),
        }
    }

    /// Returns the last file of `queue`, with its name.
    ///
    /// # Errors
    ///
    /// `Refused` if the queue has no file; `Memory` if there is none for the path in it.
    fn last_file(&self, queue: LogQueue) -> FolderResult<(FileId, &File)> {
        match self.files(queue).last_key_value() {
            Some((seq, file)) => Ok((FileId::new(queue, *seq), file)),
            None => Err(self.refusal_because("the queue has no file")),
        }
    }

    /// Returns the path of the log file `id`, whether it is there or not.
    ///
    /// # Errors
    ///
    /// `Memory` alone.
    pub(crate) fn path_of(&self, id: FileId) -> FolderResult<String> {
        let name = log_file_name(self.rt.alloc(), id)?;
        Ok(format!(in self.rt.alloc(); "{}/{name}", self.path)?)
    }

    /// Returns the value in `answer`, or adds the path of the file `id` to the system's error in it.
    ///
    /// # Errors
    ///
    /// `System` if `answer` is an error; `Memory` if there is none for the path.
    fn name_file_in_error<T>(&self, id: FileId, answer: io::Result<T>) -> FolderResult<T> {
        match answer {
            Ok(value) => Ok(value),
            Err(e) => Err(FolderError::System(self.path_of(id)?, e)),
        }
    }

    /// Returns `Refused` with the folder's path and the reason `why`, or `Memory` if there is none for the
    /// path.
    fn refusal_because(&self, why: &'static str) -> FolderError {
        match String::from_str(self.rt.alloc(), self.path) {
            Ok(path) => FolderError::Refused(path, why),
            Err(_) => FolderError::Memory,
        }
    }
}

/// Refuses what isn't a regular file: opening a pipe might wait for ever.
///
/// # Errors
///
/// `Refused` if something else is at `path`; `System`; `Memory`.
fn refuse_irregular_file<R: FolderHost>(rt: &R, path: &str) -> FolderResult<()> {
    let metadata = name_path_in_error(rt, path, fs::metadata(rt, path))?;
    if metadata.is_file() {
        return Ok(());
    }
    let path = String::from_str(rt.alloc(), path)?;
    Err(FolderError::Refused(path, "it isn't a regular file"))
}

/// Tests whether there is a file or a folder at `path`.
///
/// # Errors
///
/// `System`; `Memory`.
fn path_exists<R: FolderHost>(rt: &R, path: &str) -> FolderResult<bool> {
    name_path_in_error(rt, path, fs::exists(rt, path))
}

/// Returns the value in `answer`, or adds `path` to the system's error in it.
///
/// # Errors
///
/// `System` if `answer` is an error; `Memory` if there is none for the path.
fn name_path_in_error<R: FolderHost, T>(
    rt: &R,
    path: &str,
    answer: io::Result<T>,
) -> FolderResult<T> {
    match answer {
        Ok(value) => Ok(value),
        Err(e) => Err(FolderError::system(rt.alloc(), path, e)),
    }
}
