//! The log files of both queues in a folder, and the reads and writes of a store on them.

ghost use Rattle.std.specs.Prelude.{◌≡◌, ◌≤◌, ◌<◌, ◌+◌, ◌^◌};

use raft_base::{
    Error, FileBlockHandle, FileId, FileSeq, LogFileContext, LogQueue, PipeLog, ReactiveBytes,
    Result, Version,
};
use raft_records::FilePart;
use std::alloc::Global;
use std::fs;
use std::fs::{File, OpenOptions};
use std::io::{Read, Seek, SeekFrom, Write};
use std::rt::Files;

/// What a pipe needs of the machine: files, and memory.
pub(crate) trait Disk: Files<File = File> + AllocGlobal + Clone + Drop {}

impl<R: Files<File = File> + AllocGlobal + Clone + Drop> Disk for R {}

/// The version of all files.
const VERSION: Version = Version::V2;

/// What was done to the files of a folder.
#[derive(Drop)]
pub(crate) enum FileChange {
    /// These bytes were written to the end of this file, the last one of a queue.
    Written(FileId, Vec<u8>),
    /// The last file of a queue was synced.
    Synced(LogQueue),
    /// The last file of a queue was synced, and the next one begun.
    Begun(FileId),
    /// The files of a queue below this one were deleted, the oldest first.
    DeletedBelow(FileId),
}

/// The numbers of the first and the last file of a queue at one moment.
#[derive(Clone, Copy)]
struct Span {
    first: FileSeq,
    last: FileSeq,
    ghost ordered: { first ≤ last },
    ghost countable: { last + 1 < 2 ^ 64 },
}

/// The log files that stand in a folder at one moment, without file headers. The pipe's calls don't change
/// which ones they are: after a rotation or a purge its owner makes a new pipe by [`FolderPipe::reopen`].
/// Each call opens the file that it needs, unlike an engine, which keeps its files open.
#[derive(Drop)]
pub(crate) struct FolderPipe<'a, R: Disk> {
    rt: &'a R,
    folder: &'a str,
    append: Span,
    rewrite: Span,
}

impl<'a, R: Disk> FolderPipe<'a, R> {
    ghost use Rattle.raft_group_crashes.specs.FileRanges.{range_in};

    /// Opens the pipe over the files in `folder`. A folder that isn't there is made, and so is file 1 of a
    /// queue without files.
    ///
    /// # Errors
    ///
    /// `Io` for the folder or a file; `Full` if the number of a file is so great that none can follow it;
    /// `Memory`.
    pub(crate) fn open(rt: &'a R, folder: &'a str) -> Result<FolderPipe<'a, R>> {
        fs::create_dir_all(rt, folder)?;
        let pipe = FolderPipe {
            rt,
            folder,
            append: find_span_in_folder(rt, folder, LogQueue::Append)?,
            rewrite: find_span_in_folder(rt, folder, LogQueue::Rewrite)?,
        };
        for queue in [LogQueue::Append, LogQueue::Rewrite] {
            pipe.make_file(FileId::new(queue, pipe.queue_span(queue).last))?;
        }
        Ok(pipe)
    }

    /// Returns a pipe over the files that stand in the same folder now, as after a rotation or a deletion.
    ///
    /// # Errors
    ///
    /// Those of [`FolderPipe::open`].
    pub(crate) fn reopen(&self) -> Result<FolderPipe<'a, R>> {
        FolderPipe::open(self.rt, self.folder)
    }

    /// Returns the files of `queue` in order, each as a part with all its bytes.
    ///
    /// # Errors
    ///
    /// `Io` for a file; `Memory`.
    pub(crate) fn read_files(&self, queue: LogQueue) -> Result<Vec<FilePart>> {
        let mut files = Vec::new(self.rt.alloc());
        let span = self.queue_span(queue);
        for seq in span.first..=span.last {
            let id = FileId::new(queue, seq);
            let bytes = fs::read(self.rt, self.path_of(id)?.as_str())?;
            files.push(FilePart::new(id, VERSION, 0, bytes)?)?;
        }
        Ok(files)
    }

    /// Cuts the file `id` to its first `len` bytes, and syncs it.
    ///
    /// # Errors
    ///
    /// `Io` for the file; `Memory`.
    pub(crate) fn cut_file(&self, id: FileId, len: u64) -> Result<()> {
        let mut options = OpenOptions::new();
        let file = options
            .write(true)
            .open(self.rt, self.path_of(id)?.as_str())?;
        file.set_len(len)?;
        Ok(file.sync_all()?)
    }

    /// Returns the path of the file `id` in the folder, in the form of [`file_path`].
    ///
    /// # Errors
    ///
    /// `Memory` alone.
    pub(crate) fn path_of(&self, id: FileId) -> Result<String> {
        file_path(self.rt.alloc(), self.folder, id)
    }

    /// Returns the length of the file `id` in bytes.
    ///
    /// # Errors
    ///
    /// `Io` for the file; `Memory`.
    pub(crate) fn file_len(&self, id: FileId) -> Result<u64> {
        Ok(fs::metadata(self.rt, self.path_of(id)?.as_str())?.len())
    }

    /// Returns the numbers of the first and the last file of `queue`.
    fn queue_span(&self, queue: LogQueue) -> Span
        ensures { (result.first, result.last)
            ≡ range_in (self.now.append.first, self.now.append.last)
            (self.now.rewrite.first, self.now.rewrite.last) queue }
    {
        match queue {
            LogQueue::Append => self.append,
            LogQueue::Rewrite => self.rewrite,
        }
    }

    /// Makes an empty file `id`. Does nothing if it is there.
    ///
    /// # Errors
    ///
    /// `Io` for the file; `Memory`.
    fn make_file(&self, id: FileId) -> Result<()> {
        let mut options = OpenOptions::new();
        options
            .create(true)
            .append(true)
            .open(self.rt, self.path_of(id)?.as_str())?;
        Ok(())
    }
}

/// Removes `folder` with all its files. Does nothing if it isn't there.
///
/// # Errors
///
/// `Io` for the folder.
pub(crate) fn remove_folder<R: Disk>(rt: &R, folder: &str) -> Result<()> {
    if fs::exists(rt, folder)? {
        fs::remove_dir_all(rt, folder)?;
    }
    Ok(())
}

/// Returns the path of the file `id` in `folder`, as `logs/0000000000000001.raftlog`.
///
/// # Errors
///
/// `Memory` alone.
pub(crate) fn file_path(alloc: Global, folder: &str, id: FileId) -> Result<String> {
    let extension = file_extension(id.queue);
    Ok(format!(in alloc; "{folder}/{:016}{extension}", id.seq)?)
}

/// Returns the ending of the names of the files of `queue`: `.raftlog` for the append queue, `.rewrite` for
/// the rewrite queue.
fn file_extension(queue: LogQueue) -> &'static str {
    match queue {
        LogQueue::Append => ".raftlog",
        LogQueue::Rewrite => ".rewrite",
    }
}

/// Returns the numbers of the first and the last file of `queue` in `folder`, or 1 and 1 if there is none.
///
/// # Errors
///
/// `Full` if the number of the last file is so great that none can follow it; those of reading the folder.
fn find_span_in_folder<R: Disk>(rt: &R, folder: &str, queue: LogQueue) -> Result<Span> {
    let (mut first, mut last) = (FileSeq::MAX, 0);
    for entry in fs::read_dir(rt, folder)? {
        let entry = entry?;
        if let Some(seq) = parse_file_name(entry.file_name(), queue) {
            first = first.min(seq);
            last = last.max(seq);
        }
    }
    if first > last {
        return Ok(Span { first: 1, last: 1 });
    }
    if last >= FileSeq::MAX - 1 {
        return Err(Error::Full);
    }
    Ok(Span { first, last })
}

/// Returns the number in `name`, the name of a file of `queue`, such as 1 in `0000000000000001.raftlog`.
/// Returns `None` for any other name.
fn parse_file_name(name: &str, queue: LogQueue) -> Option<FileSeq> {
    name.strip_suffix(file_extension(queue))?
        .parse::<u64>()
        .ok()
}

impl<R: Disk> PipeLog for FolderPipe<'_, R> {
    ghost use Rattle.raft_group_crashes.specs.FileRanges.{range_in};

    ghost file_range_of = { λ pipe queue. range_in (pipe.append.first, pipe.append.last)
        (pipe.rewrite.first, pipe.rewrite.last) queue };

    /// Opens the file of `handle`, and returns the bytes at that place.
    ///
    /// # Errors
    ///
    /// Those of the system, also if the file ends before the place does; `Memory`.
    fn read_bytes(&self, alloc: Global, handle: FileBlockHandle) -> Result<Vec<u8>> {
        let mut file = fs::open(self.rt, self.path_of(handle.id)?.as_str())?;
        file.seek(SeekFrom::Start(handle.offset))?;
        let mut bytes = vec![in alloc; 0; handle.len]?;
        file.read_exact(&mut bytes)?;
        Ok(bytes)
    }

    /// Appends `bytes` to the last file of `queue`, and returns their place. If writing them fails, the file
    /// is cut back to what it had.
    ///
    /// # Errors
    ///
    /// Those of the system; `Memory`. Some of the bytes stay only if the cut fails too.
    fn append<T: ReactiveBytes>(&self, queue: LogQueue, bytes: &mut T) -> Result<FileBlockHandle> {
        let id = FileId::new(queue, self.queue_span(queue).last);
        let bytes = bytes.as_bytes(&LogFileContext::new(id, VERSION));
        let mut options = OpenOptions::new();
        let mut file = options
            .append(true)
            .open(self.rt, self.path_of(id)?.as_str())?;
        let offset = file.seek(SeekFrom::End(0))?;
        if let Err(e) = file.write_all(bytes) {
            file.set_len(offset)?;
            return Err(Error::from(e));
        }
        Ok(FileBlockHandle {
            id,
            offset,
            len: bytes.len(),
        })
    }

    /// Syncs the last file of `queue`, so that what was appended to it survives a crash.
    ///
    /// # Errors
    ///
    /// Those of the system; `Memory`.
    fn sync(&self, queue: LogQueue) -> Result<()> {
        let id = FileId::new(queue, self.queue_span(queue).last);
        Ok(fs::open(self.rt, self.path_of(id)?.as_str())?.sync_all()?)
    }

    /// Returns the numbers of the first and the last file of `queue`.
    fn file_span(&self, queue: LogQueue) -> (FileSeq, FileSeq) {
        let span = self.queue_span(queue);
        (span.first, span.last)
    }

    /// Returns how many bytes the files of `queue` have together, at most 2^64 - 1. A file whose length can't
    /// be read counts as empty.
    fn total_size(&self, queue: LogQueue) -> usize {
        let span = self.queue_span(queue);
        let mut total = 0usize;
        for seq in span.first..=span.last {
            if let Ok(len) = self.file_len(FileId::new(queue, seq)) {
                total = total.saturating_add(len as usize);
            }
        }
        total
    }

    /// Syncs the last file of `queue`, begins the next one, and syncs the folder. The pipe still names the
    /// old last file: make a new one by [`FolderPipe::reopen`].
    ///
    /// # Errors
    ///
    /// Those of the system; `Memory`. The new file may be there then.
    fn rotate(&self, queue: LogQueue) -> Result<()> {
        self.sync(queue)?;
        self.make_file(FileId::new(queue, self.queue_span(queue).last + 1))?;
        Ok(fs::open(self.rt, self.folder)?.sync_all()?)
    }

    /// Deletes the files below `file_id` in its queue, but not the last one. The oldest goes first, so the
    /// files that are left have no gap wherever it stops. Returns how many it deleted.
    ///
    /// # Errors
    ///
    /// Those of the system; `Memory`. Some of the files may be gone then.
    fn purge_to(&self, file_id: FileId) -> Result<usize> {
        let span = self.queue_span(file_id.queue);
        let mut count = 0usize;
        for seq in span.first..file_id.seq.min(span.last) {
            fs::remove_file(
                self.rt,
                self.path_of(FileId::new(file_id.queue, seq))?.as_str(),
            )?;
            count = count.saturating_add(1);
        }
        Ok(count)
    }
}
