//! The files that a command looks into: those of a folder, or files that are named one by one.

ghost use Rattle.std.specs.Prelude.{◌≡◌, map, IfOk, IfSome};
ghost use Rattle.raft_recover.specs.FileRecovery.{AreSizesOf, IsNamed};
ghost use Rattle.raftlog.specs.Sources.{of_queue, path_shown};

use crate::errors::{ToolError, ToolResult};
use crate::host::{Host, Screen};
use crate::output::OverBar;
use crate::progress::Progress;
use clap::ArgMatches;
use raft_base::{FileId, FileSeq, LogQueue};
use raft_folder::{FolderError, FolderFiles, ReadFolder};
use raft_reading::{FileSize, ReadFiles};
use raft_recover::SharedFiles;
use raft_survey::BothSizes;
use std::alloc::Global;
use std::io;
use std::io::{ErrorKind, Write};

/// How the files of raft-engine begin. No batch begins so.
const FOREIGN_HEADER: &[u8] = b"RAFT-LOG-FILE-HEADER";

/// The numbers and the paths of the files of a queue, by rising numbers.
type Paths = Vec<(FileSeq, String)>;

/// The files of both queues by their paths, to be read at offsets by several threads. Each read moves the progress bar on.
#[derive(Drop)]
pub(crate) struct Source<'a, R: SharedFiles + Screen> {
    /// The machine that has the files.
    rt: &'a R,
    /// What the texts of errors are allocated with.
    alloc: Global,
    /// The files of the append queue.
    append: Paths,
    /// The files of the rewrite queue.
    rewrite: Paths,
    /// How far the reading is, for the bar.
    progress: Progress,
}

/// The files that a command looks into, with their lengths. A folder that was opened for it stays locked as long as this value lives.
#[derive(Drop)]
pub(crate) struct Found<'a, R: Host> {
    /// The files, to be read.
    pub(crate) source: Source<'a, R>,
    /// The numbers and the lengths of the files.
    pub(crate) sizes: BothSizes,
    /// The folder that is locked; `None` if files were named one by one, or the caller has the folder.
    folder: Option<ReadFolder<'a, R>>,
}

impl<R: SharedFiles + Screen> Source<'_, R> {
    /// Clears the progress bar, if it is shown.
    pub(crate) fn end_progress(&self) {
        if let Some(clear) = self.progress.clear() {
            self.rt.show(clear);
        }
    }

    /// Returns an output that writes to `out`, and clears the progress bar first.
    pub(crate) fn output_over_bar<'b, W: Write>(&'b self, out: &'b mut W) -> OverBar<'b, R, W> {
        OverBar::new(self.rt, &self.progress, out)
    }
}

impl<R: SharedFiles + Screen> ReadFiles for Source<'_, R> {
    ghost use Rattle.std.specs.Prelude.{map};
    ghost use Rattle.raft_recover.specs.FileRecovery.{NamedGives};
    ghost use Rattle.raftlog.specs.Sources.{of_queue, path_shown};

    ghost gives = { λ source file. NamedGives (R.gives source.rt.now)
        (of_queue file.queue (map path_shown source.append.items) (map path_shown source.rewrite.items)) file };

    /// Appends `len` bytes of the file, from `offset` on, to `bytes`, or fewer if the file ends before. Shows the bar if it is due.
    ///
    /// # Errors
    ///
    /// Those of the system, with the path at the start of their text; of the kind `NotFound` if no file of the queue has the number. Some
    /// of the bytes may have been appended then.
    fn read(&self, file: FileId, offset: u64, len: usize, bytes: &mut Vec<u8>) -> io::Result<()> {
        let Some(path) = path_of_file(
            paths_of_queue(file.queue, &self.append, &self.rewrite),
            file.seq,
        ) else {
            return Err(io::Error::from(ErrorKind::NotFound));
        };
        if let Some(bar) = self.progress.count_read_bytes(self.rt.millis(), len as u64) {
            self.rt.show(bar.as_str());
        }
        match self.rt.read_file(path, offset, len, bytes) {
            Ok(()) => Ok(()),
            Err(error) => Err(error_with_path(self.alloc, path, error)),
        }
    }
}

/// Returns the files of one queue.
fn paths_of_queue<'p>(
    queue: LogQueue,
    append: &'p Paths,
    rewrite: &'p Paths,
) -> &'p [(FileSeq, String)]
    ensures { map path_shown result.now
        ≡ of_queue queue (map path_shown append.now.items) (map path_shown rewrite.now.items) }
{
    match queue {
        LogQueue::Append => append.as_slice(),
        LogQueue::Rewrite => rewrite.as_slice(),
    }
}

/// Returns the path of the file with the number `seq`; `None` if there is none. `paths` are by rising numbers.
fn path_of_file(paths: &[(FileSeq, String)], seq: FileSeq) -> Option<&str>
    ensures { IfSome result (λ path. IsNamed (map path_shown paths.now) seq path.now) }
{
    match paths.binary_search_by_key(&seq, |named| named.0) {
        Ok(index) => Some(paths[index].1.as_str()),
        Err(_) => None,
    }
}

/// Returns `error` with `path` at the start of its text. If there is no memory for that, it is returned unchanged.
fn error_with_path(alloc: Global, path: &str, error: io::Error) -> io::Error {
    match format!(in alloc; "{path}: {error}") {
        Ok(text) => io::Error::new(error.kind(), text.as_str()),
        Err(_) => error,
    }
}

/// Finds the files that the words of a command name: those of a folder, which is then locked against engines that write, or files that are
/// named one by one. `times` says how often each byte will be read, for the progress bar.
///
/// # Errors
///
/// `Misused` if the words name neither a folder nor files, or both, or name a file wrongly; those of [`files_in_folder`]; `File` if a file
/// can't be read; `Folder` of `Foreign` if one begins with raft-engine's header; `Memory`.
pub(crate) fn find_files<'a, R: Host>(
    rt: &'a R,
    words: &ArgMatches<'a>,
    times: u64,
) -> ToolResult<Found<'a, R>>
    ensures sizes { IfOk result (λ found. AreSizesOf (map path_shown found.source.append.items) found.sizes.append.items
        × AreSizesOf (map path_shown found.source.rewrite.items) found.sizes.rewrite.items) }
    ensures machine { IfOk result (λ found. found.source.rt.now ≡ rt.now) }
{
    let (append, rewrite) = (words.get_strs("append"), words.get_strs("rewrite"));
    match words.get_str("folder") {
        Some(path) if append.is_none() && rewrite.is_none() => files_in_folder(rt, path, times),
        None if append.is_some() || rewrite.is_some() => {
            let append = parse_named_files(rt, append.unwrap_or(&[]))?;
            let rewrite = parse_named_files(rt, rewrite.unwrap_or(&[]))?;
            files_at_paths(rt, append, rewrite, None, times)
        }
        Some(_) => Err(ToolError::Misused(
            "name a folder, or files by --append and --rewrite, and not both",
        )),
        None => Err(ToolError::Misused("name a folder, or files by --append and --rewrite")),
    }
}

/// Finds the files of the folder at `path`, and locks the folder against engines that write. `times` says how often each byte will be read,
/// for the progress bar.
///
/// # Errors
///
/// `NoFolder` if a file stands at the path; those of [`ReadFolder::open`] as `Folder`; `File` if a file can't be read; `Folder` of
/// `Foreign` if one begins with raft-engine's header; `Memory`.
pub(crate) fn files_in_folder<'a, R: Host>(
    rt: &'a R,
    path: &'a str,
    times: u64,
) -> ToolResult<Found<'a, R>>
    ensures sizes { IfOk result (λ found. AreSizesOf (map path_shown found.source.append.items) found.sizes.append.items
        × AreSizesOf (map path_shown found.source.rewrite.items) found.sizes.rewrite.items) }
    ensures machine { IfOk result (λ found. found.source.rt.now ≡ rt.now) }
{
    refuse_file(rt, path)?;
    let folder = ReadFolder::open(rt, path)?;
    let (append, rewrite) = (
        folder.paths(LogQueue::Append)?,
        folder.paths(LogQueue::Rewrite)?,
    );
    files_at_paths(rt, append, rewrite, Some(folder), times)
}

/// Finds the files of a folder that the caller has opened to change it. Each byte will be read once.
///
/// # Errors
///
/// Those of [`FolderFiles`] as `Folder`; `File` if a file can't be read; `Folder` of `Foreign` if one begins with raft-engine's header;
/// `Memory`.
pub(crate) fn files_in_open_folder<'a, R: Host>(
    rt: &'a R,
    folder: &FolderFiles<'a, R>,
) -> ToolResult<Found<'a, R>> {
    let (append, rewrite) = (
        folder.paths(LogQueue::Append)?,
        folder.paths(LogQueue::Rewrite)?,
    );
    files_at_paths(rt, append, rewrite, None, 1)
}

/// Checks that no file stands at `path`, where a folder has to be. Whatever else is there, or that nothing is, is no error here: the
/// opening of the folder tells it.
///
/// # Errors
///
/// `NoFolder` if a file stands there; `Memory`.
pub(crate) fn refuse_file<R: Host>(rt: &R, path: &str) -> ToolResult<()> {
    match rt.file_len(path) {
        Ok(Some(_)) => Err(ToolError::NoFolder(String::from_str(rt.alloc(), path)?)),
        Ok(None) | Err(_) => Ok(()), // whatever else it is, the opening of the folder says
    }
}

/// Returns the numbers and the paths of the files of a queue that `words` name one by one.
///
/// # Errors
///
/// `Misused` if a word isn't a number, `=` and a path, or the numbers don't rise; `Memory`.
fn parse_named_files<R: Host>(rt: &R, words: &[&str]) -> ToolResult<Paths> {
    let mut paths: Paths = Vec::new(rt.alloc());
    for word in words {
        let Some((seq, path)) = parse_named_file(word) else {
            return Err(ToolError::Misused("a file is named as its number, `=` and its path"));
        };
        if paths.last().is_some_and(|last| last.0 >= seq) {
            return Err(ToolError::Misused("files are named by rising numbers"));
        }
        paths.push((seq, String::from_str(rt.alloc(), path)?))?;
    }
    Ok(paths)
}

/// Returns the number and the path of the file that a word names. `None` if the word isn't a number, `=` and a path that isn't empty.
fn parse_named_file(word: &str) -> Option<(FileSeq, &str)> {
    let (seq, path) = word.split_once('=')?;
    if path.is_empty() {
        return None;
    }
    Some((seq.parse::<u64>().ok()?, path))
}

/// Returns the files at the given paths, with their lengths, to be read. `folder` is the folder that stays locked with them. `times` says
/// how often each byte will be read, for the progress bar.
///
/// # Errors
///
/// `File` if a path leads to no regular file that can be read; `Folder` of `Foreign` if a file begins with raft-engine's header; `Memory`.
fn files_at_paths<'a, R: Host>(
    rt: &'a R,
    append: Paths,
    rewrite: Paths,
    folder: Option<ReadFolder<'a, R>>,
    times: u64,
) -> ToolResult<Found<'a, R>>
    ensures paths { IfOk result (λ found. (found.source.append ≡ append) × (found.source.rewrite ≡ rewrite)) }
    ensures machine { IfOk result (λ found. found.source.rt.now ≡ rt.now) }
    ensures sizes { IfOk result (λ found. AreSizesOf (map path_shown append.items) found.sizes.append.items
        × AreSizesOf (map path_shown rewrite.items) found.sizes.rewrite.items) }
{
    let sizes = BothSizes {
        append: sizes_of_files(rt, append.as_slice())?,
        rewrite: sizes_of_files(rt, rewrite.as_slice())?,
    };
    let bytes = total_length(&sizes.append).saturating_add(total_length(&sizes.rewrite));
    let progress = Progress::new(rt.alloc(), rt.millis(), bytes.saturating_mul(times));
    let source = Source {
        rt,
        alloc: rt.alloc(),
        append,
        rewrite,
        progress,
    };
    Ok(Found {
        source,
        sizes,
        folder,
    })
}

/// Returns the length of all files together in bytes, at most 2^64 - 1.
fn total_length(sizes: &[FileSize]) -> u64 {
    let mut bytes: u64 = 0;
    for size in sizes {
        bytes = bytes.saturating_add(size.len);
    }
    bytes
}

/// Returns the number and the length of each file.
///
/// # Errors
///
/// Those of [`size_of_file`].
fn sizes_of_files<R: Host>(rt: &R, paths: &[(FileSeq, String)]) -> ToolResult<Vec<FileSize>>
    ensures { IfOk result (λ sizes. AreSizesOf (map path_shown paths.now) sizes.items) }
{
    let mut sizes = Vec::new(rt.alloc());
    for path in paths {
        let size = size_of_file(rt, path)?;
        sizes.push(size)?;
    }
    Ok(sizes)
}

/// Returns the number and the length of a file.
///
/// # Errors
///
/// `File` if it isn't a regular file that can be read; `Folder` of `Foreign` if it begins with raft-engine's header; `Memory`.
fn size_of_file<R: Host>(rt: &R, file: &(FileSeq, String)) -> ToolResult<FileSize>
    ensures { IfOk result (λ size. size.seq ≡ file.now.0) }
{
    let (seq, path) = file;
    let len = match rt.file_len(path.as_str()) {
        Ok(Some(len)) => len,
        Ok(None) => return Err(irregular_file_error(rt, path)),
        Err(error) => return Err(ToolError::of_file(rt.alloc(), path.as_str(), error)),
    };
    refuse_foreign_header(rt, path)?;
    Ok(FileSize { seq: *seq, len })
}

/// Returns the error for a path that leads to no regular file, which couldn't be read at an offset.
fn irregular_file_error<R: Host>(rt: &R, path: &String) -> ToolError {
    let error = io::Error::new(ErrorKind::InvalidInput, "it isn't a regular file");
    ToolError::of_file(rt.alloc(), path.as_str(), error)
}

/// Checks that the file at `path` doesn't begin with raft-engine's header.
///
/// # Errors
///
/// `Folder` of `Foreign` if it does; `File` if it can't be read; `Memory`.
fn refuse_foreign_header<R: Host>(rt: &R, path: &String) -> ToolResult<()> {
    let mut begin = Vec::new(rt.alloc());
    if let Err(error) = rt.read_file(path.as_str(), 0, FOREIGN_HEADER.len(), &mut begin) {
        return Err(ToolError::of_file(rt.alloc(), path.as_str(), error));
    }
    if begin.as_slice() == FOREIGN_HEADER {
        let path = String::from_str(rt.alloc(), path.as_str())?;
        return Err(ToolError::Folder(FolderError::Foreign(path)));
    }
    Ok(())
}
