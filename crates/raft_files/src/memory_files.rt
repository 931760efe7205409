//! [`MemoryFiles`]: files of an engine in memory, for tests and for programs that crash engines.

ghost use Rattle.raft_base.specs.declared.pipe_log.LogQueue.TheVariants.{Append, Rewrite};
ghost use Rattle.std.specs.Prelude.{◌≡◌, ◌≢◌, ◌<◌, List, [], ◌∷◌, ◌++◌, drop, length, map, None, Some, IfErr, IfOk, IsOk, OnErr, OnOk};
ghost use Rattle.raft_files.specs.Appends.{IsNotAppended, append_fault};
ghost use Rattle.raft_files.specs.Asks.{Begin, Cut, Delete, Found, IsAsked, Put, Read, Sync, ask};
ghost use Rattle.raft_files.specs.Disk.{cut_last, files_of, put_behind};
ghost use Rattle.raft_files.specs.HeldFiles.{IsAt, file_shown};
ghost use Rattle.raft_files.specs.MemoryFaults.{IsMemoryFault};
ghost use Rattle.raft_files.specs.Places.{IsNext, bytes_at, stretch_of};

use crate::{AppendError, Asked, EngineFiles};
use raft_base::{Error, FileBlockHandle, FileSeq, LogQueue, Result};
use std::alloc::Global;
use std::marker::Model;

/// The files of both queues in memory. They have exactly what was asked.
#[derive(Drop)]
pub struct MemoryFiles {
    /// The files of the append queue, each with its number and its bytes, oldest first.
    append: Vec<(FileSeq, Vec<u8>)>,
    /// The files of the rewrite queue, each with its number and its bytes, oldest first.
    rewrite: Vec<(FileSeq, Vec<u8>)>,
    /// What was asked of them.
    asked: Asked,
}

impl Model for MemoryFiles {
    ghost use Rattle.std.specs.Prelude.{List};
    ghost use Rattle.std.specs.Coded.{coded_list};
    ghost use Rattle.raft_files.specs.Asks.{Ask};
    ghost use Rattle.raft_files.specs.AskCode.{ask_code};

    ghost Value = { List Ask };

    ghost coded = { coded_list ask_code };

    ghost use Rattle.raft_files.specs.HeldFilesView.{memory_shown, IsKept};

    ghost view = { memory_shown };

    ghost invariant = { IsKept };
}

impl MemoryFiles {
    /// Returns files of which nothing was asked: there are none. They will allocate from `alloc`.
    pub fn new(alloc: Global) -> MemoryFiles
        ensures { result ≡ [] }
    {
        MemoryFiles {
            append: Vec::new(alloc),
            rewrite: Vec::new(alloc),
            asked: Asked::new(),
        }
    }

    /// Returns files that were found when the machine started: those of each queue, oldest first, each with
    /// its number and its bytes.
    pub fn found(append: Vec<(FileSeq, Vec<u8>)>, rewrite: Vec<(FileSeq, Vec<u8>)>) -> MemoryFiles
        ensures { result ≡ ask Rewrite (Found (map file_shown rewrite.items))
            ∷ ask Append (Found (map file_shown append.items)) ∷ [] }
    {
        let mut asked = Asked::new();
        asked.found(LogQueue::Append, &append);
        asked.found(LogQueue::Rewrite, &rewrite);
        MemoryFiles {
            append,
            rewrite,
            asked,
        }
    }

    /// Returns the files of `queue`, each with its number and its bytes, oldest first.
    pub fn files(&self, queue: LogQueue) -> &Vec<(FileSeq, Vec<u8>)>
        ensures { map file_shown result.now.items ≡ files_of queue self.now }
    {
        match queue {
            LogQueue::Append => &self.append,
            LogQueue::Rewrite => &self.rewrite,
        }
    }

    /// Returns copies of the files of `queue`, each with its number and its bytes, oldest first.
    ///
    /// # Errors
    ///
    /// `Memory` alone.
    pub fn copies(&self, queue: LogQueue) -> Result<Vec<(FileSeq, Vec<u8>)>>
        ensures ok { IfOk result (λ copies. map file_shown copies.items ≡ files_of queue self.now) }
        ensures fault { IfErr result (λ e. e ≡ Error.Memory) }
    {
        copy_files(self.files(queue))
    }

    /// Puts `bytes` at the end of the last file of `queue`, and notes it.
    ///
    /// # Errors
    ///
    /// `InvalidArgument` if the queue has no file; `Memory`. The files are unchanged then, and nothing is
    /// noted.
    fn put_noted(&mut self, queue: LogQueue, bytes: &[u8]) -> Result<()>
        ensures ok { OnOk result (IsAsked (ask queue (Put bytes.now)) self.old self.new) }
        ensures accepted { OnOk result (0 < length (files_of queue self.old)) }
        ensures err { OnErr result (self.new ≡ self.old) }
        ensures fault { 0 < length (files_of queue self.old) → IfErr result (λ e. e ≡ Error.Memory) }
    {
        match queue {
            LogQueue::Append => append_bytes(&mut self.append, bytes)?,
            LogQueue::Rewrite => append_bytes(&mut self.rewrite, bytes)?,
        }
        self.asked.put(queue, bytes);
        Ok(())
    }
}

impl EngineFiles for MemoryFiles {
    ghost asked = { λ f. f };

    ghost may_fail = { IsMemoryFault };

    /// Puts `bytes` at the end of the last file of `queue`.
    ///
    /// # Errors
    ///
    /// `AsBefore` alone, with `InvalidArgument` if the queue has no file, or with `Memory`. The files are
    /// unchanged then, and nothing is noted.
    fn append(&mut self, queue: LogQueue, bytes: &[u8]) -> std::result::Result<(), AppendError>
        ensures ok { OnOk result (IsAsked (ask queue (Put bytes.now)) self.old self.new) }
        ensures accepted { OnOk result (0 < length (files_of queue self.old)) }
        ensures err { OnErr result (self.new ≡ self.old) }
        ensures as_before { IfErr result (λ e. IsNotAppended (ask queue (Put bytes.now)) e self.old self.new) }
        ensures fault { 0 < length (files_of queue self.old) → IfErr result (λ e. append_fault e ≡ Error.Memory) }
    {
        match self.put_noted(queue, bytes) {
            Ok(()) => Ok(()),
            Err(error) => Err(AppendError::AsBefore(error)),
        }
    }

    /// Begins a new file of `queue` with the number `seq` after the last one. What is in memory counts as
    /// synced.
    ///
    /// # Errors
    ///
    /// `InvalidArgument` if `seq` isn't above the number of the last file; `Memory`. The files are unchanged
    /// then, and nothing is noted.
    fn rotate(&mut self, queue: LogQueue, seq: FileSeq) -> Result<()>
        ensures ok { OnOk result (IsAsked (ask queue (Begin seq)) self.old self.new) }
        ensures accepted { OnOk result (IsNext seq (files_of queue self.old)) }
        ensures err { OnErr result (self.new ≡ self.old) }
        ensures fault { IsNext seq (files_of queue self.old) → IfErr result (λ e. e ≡ Error.Memory) }
    {
        match queue {
            LogQueue::Append => begin_file(&mut self.append, seq)?,
            LogQueue::Rewrite => begin_file(&mut self.rewrite, seq)?,
        }
        self.asked.begin(queue, seq);
        Ok(())
    }

    /// Notes a sync of `queue`, and returns `Ok`: there is nothing to write.
    fn sync(&mut self, queue: LogQueue) -> Result<()>
        ensures ok { IsAsked (ask queue Sync) self.old self.new }
        ensures succeeds { IsOk result }
    {
        self.asked.sync(queue);
        Ok(())
    }

    /// Deletes the oldest file of `queue`, which must have at least two files.
    ///
    /// # Errors
    ///
    /// `InvalidArgument` if the queue has fewer than two files; `Memory` if there is none for its text. The
    /// files are unchanged then, and nothing is noted.
    fn delete_oldest(&mut self, queue: LogQueue) -> Result<()>
        ensures ok { OnOk result (IsAsked (ask queue Delete) self.old self.new) }
        ensures accepted { OnOk result (1 < length (files_of queue self.old)) }
        ensures err { OnErr result (self.new ≡ self.old) }
        ensures succeeds { 1 < length (files_of queue self.old) → IsOk result }
    {
        match queue {
            LogQueue::Append => delete_first_file(&mut self.append)?,
            LogQueue::Rewrite => delete_first_file(&mut self.rewrite)?,
        }
        self.asked.delete(queue);
        Ok(())
    }

    /// Cuts the last file of `queue` to its first `len` bytes, if it has more.
    ///
    /// # Errors
    ///
    /// `InvalidArgument` if the queue has no file; `Memory` if there is none for its text. The files are
    /// unchanged then, and nothing is noted.
    fn truncate(&mut self, queue: LogQueue, len: u64) -> Result<()>
        ensures ok { OnOk result (IsAsked (ask queue (Cut len)) self.old self.new) }
        ensures accepted { OnOk result (0 < length (files_of queue self.old)) }
        ensures err { OnErr result (self.new ≡ self.old) }
        ensures succeeds { 0 < length (files_of queue self.old) → IsOk result }
    {
        match queue {
            LogQueue::Append => cut_last_file(&mut self.append, len)?,
            LogQueue::Rewrite => cut_last_file(&mut self.rewrite, len)?,
        }
        self.asked.cut(queue, len);
        Ok(())
    }

    /// Returns a copy of the bytes at `place`, which are those that were put there, and notes the read.
    ///
    /// # Errors
    ///
    /// `InvalidArgument` if no file has this place; `Memory`. Nothing is noted then.
    fn read(&mut self, place: FileBlockHandle) -> Result<Vec<u8>>
        ensures ok { IfOk result (λ bytes. IsAsked (ask place.id.queue (Read place bytes.items)) self.old self.new) }
        ensures there { IfOk result (λ bytes. IsAt self.old place bytes.items) }
        ensures err { OnErr result (self.new ≡ self.old) }
        ensures refused { IfErr result (λ e. e ≢ Error.Memory
            → bytes_at (files_of place.id.queue self.old) place.id.seq place.offset place.len ≡ None) }
        ensures fault { IfErr result (IsMemoryFault self.old (ask place.id.queue (Read place []))) }
    {
        let bytes = read_bytes_at(self.files(place.id.queue), place)?;
        self.asked.read(place, &bytes);
        Ok(bytes)
    }
}

/// Returns copies of `files`, in the same order.
///
/// # Errors
///
/// `Memory` alone.
fn copy_files(files: &Vec<(FileSeq, Vec<u8>)>) -> Result<Vec<(FileSeq, Vec<u8>)>>
    ensures ok { IfOk result (λ copies. map file_shown copies.items ≡ map file_shown files.now.items) }
    ensures fault { IfErr result (λ e. e ≡ Error.Memory) }
{
    let alloc = *files.allocator();
    let mut copies = Vec::new(alloc);
    for (seq, bytes) in files {
        copies.push((*seq, Vec::from_slice(alloc, bytes)?))?;
    }
    Ok(copies)
}

/// Puts `bytes` at the end of the last of `files`.
///
/// # Errors
///
/// `InvalidArgument` if there is no file; `Memory`. The files are unchanged then.
fn append_bytes(files: &mut Vec<(FileSeq, Vec<u8>)>, bytes: &[u8]) -> Result<()>
    ensures ok { OnOk result (map file_shown files.new.items
        ≡ put_behind bytes.now (map file_shown files.old.items)) }
    ensures some { OnOk result (0 < length files.old.items) }
    ensures err { OnErr result (map file_shown files.new.items ≡ map file_shown files.old.items) }
    ensures fault { 0 < length files.old.items → IfErr result (λ e. e ≡ Error.Memory) }
{
    let alloc = *files.allocator();
    let Some(last) = files.last_mut() else {
        return Err(Error::invalid_argument(alloc, "no file of the queue was begun"));
    };
    last.1.extend_from_slice(bytes)?;
    Ok(())
}

/// Adds an empty file with the number `seq` to the end of `files`.
///
/// # Errors
///
/// `InvalidArgument` if `seq` isn't above the number of the last file; `Memory`. The files are unchanged
/// then.
fn begin_file(files: &mut Vec<(FileSeq, Vec<u8>)>, seq: FileSeq) -> Result<()>
    ensures ok { OnOk result (map file_shown files.new.items
        ≡ map file_shown files.old.items ++ (seq, []) ∷ []) }
    ensures accepted { OnOk result (IsNext seq (map file_shown files.old.items)) }
    ensures err { OnErr result (map file_shown files.new.items ≡ map file_shown files.old.items) }
    ensures fault { IsNext seq (map file_shown files.old.items) → IfErr result (λ e. e ≡ Error.Memory) }
{
    let alloc = *files.allocator();
    if let Some(last) = files.last() {
        if last.0 >= seq {
            return Err(Error::invalid_argument(alloc, "a file number isn't above the last one"));
        }
    }
    files.push((seq, Vec::new(alloc)))?;
    Ok(())
}

/// Removes the first of `files`, of which there must be at least two.
///
/// # Errors
///
/// `InvalidArgument` if there are fewer; `Memory` if there is none for its text. The files are unchanged
/// then.
fn delete_first_file(files: &mut Vec<(FileSeq, Vec<u8>)>) -> Result<()>
    ensures ok { OnOk result (map file_shown files.new.items
        ≡ drop 1 (map file_shown files.old.items)) }
    ensures some { OnOk result (1 < length files.old.items) }
    ensures err { OnErr result (files.new.items ≡ files.old.items) }
    ensures succeeds { 1 < length files.old.items → IsOk result }
{
    if files.len() < 2 {
        let alloc = *files.allocator();
        return Err(Error::invalid_argument(alloc, "the last file of a queue stays"));
    }
    let _file = files.remove(0);
    Ok(())
}

/// Cuts the last of `files` to its first `len` bytes, if it has more.
///
/// # Errors
///
/// `InvalidArgument` if there is no file; `Memory` if there is none for its text. The files are unchanged
/// then.
fn cut_last_file(files: &mut Vec<(FileSeq, Vec<u8>)>, len: u64) -> Result<()>
    ensures ok { OnOk result (map file_shown files.new.items
        ≡ cut_last len (map file_shown files.old.items)) }
    ensures some { OnOk result (0 < length files.old.items) }
    ensures err { OnErr result (map file_shown files.new.items ≡ map file_shown files.old.items) }
    ensures succeeds { 0 < length files.old.items → IsOk result }
{
    let alloc = *files.allocator();
    let Some(last) = files.last_mut() else {
        return Err(Error::invalid_argument(alloc, "no file of the queue was begun"));
    };
    last.1.truncate(len as usize);
    Ok(())
}

/// Returns a copy of the bytes at `place`, from the first of `files` that has the number of its file.
///
/// # Errors
///
/// `InvalidArgument` if there is no such file, or it doesn't have all of the place; `Memory`.
fn read_bytes_at(files: &Vec<(FileSeq, Vec<u8>)>, place: FileBlockHandle) -> Result<Vec<u8>>
    ensures ok { IfOk result (λ bytes.
        bytes_at (map file_shown files.now.items) place.id.seq place.offset place.len ≡ Some bytes.items) }
    ensures refused { IfErr result (λ e. e ≢ Error.Memory
        → bytes_at (map file_shown files.now.items) place.id.seq place.offset place.len ≡ None) }
{
    let alloc = *files.allocator();
    for (seq, bytes) in files {
        if *seq == place.id.seq {
            return copy_stretch(bytes, place.offset, place.len);
        }
    }
    Err(Error::invalid_argument(alloc, "no file has this place"))
}

/// Returns a copy of `len` bytes of `bytes`, from `offset` on.
///
/// # Errors
///
/// `InvalidArgument` if there aren't as many; `Memory`.
fn copy_stretch(bytes: &Vec<u8>, offset: u64, len: usize) -> Result<Vec<u8>>
    ensures ok { IfOk result (λ found. stretch_of bytes.now.items offset len ≡ Some found.items) }
    ensures refused { IfErr result (λ e. e ≢ Error.Memory → stretch_of bytes.now.items offset len ≡ None) }
{
    let alloc = *bytes.allocator();
    let begin = offset as usize;
    if begin <= bytes.len() && len <= bytes.len() - begin {
        Ok(Vec::from_slice(alloc, &bytes[begin..begin + len])?)
    } else {
        Err(Error::invalid_argument(alloc, "no file has this place"))
    }
}
