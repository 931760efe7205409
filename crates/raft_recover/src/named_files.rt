//! The files that the words of a command line name, read in pieces.

ghost use Rattle.std.specs.Prelude.{◌⊎◌, ℕ, List, IfErr, IfOk, IfSome, OnOk, map};
ghost use Rattle.raft_recover.specs.Common.{AreSizesOf, AsksRecovery, IsFilesFault, IsNamed, IsRecoveryFrontPrinted, IsRecoveryPrinted, Keeps, NamedGives, PrintsFiles, asks_for, path_shown};

use crate::file_recovery::print_files;
use crate::request::RecoverWords;
use crate::shared_files::SharedFiles;
use raft_base::{FileId, FileSeq, Result};
use raft_reading::{FileSize, ReadFiles};
use raft_replay::check_arguments;
use std::alloc::Global;
use std::io;
use std::io::{ErrorKind, Write};
use std::thread::Threads;

/// Files by their numbers, which rise, and their paths.
#[derive(Drop)]
pub(crate) struct NamedFiles<'a, D: SharedFiles> {
    /// What reads the files.
    disk: &'a D,
    /// The number and the path of each file. The numbers rise.
    paths: &'a [(FileSeq, &'a str)],
}

impl<D: SharedFiles> ReadFiles for NamedFiles<'_, D> {
    ghost use Rattle.std.specs.Prelude.{map};
    ghost use Rattle.raft_recover.specs.Common.{NamedGives, path_shown};

    ghost gives = { λ files. NamedGives (D.gives files.disk.now) (map path_shown files.paths.now) };

    /// Appends `len` bytes of the file numbered `file.seq`, from `offset` on, to `bytes`, or fewer if the file
    /// ends before. The queue of `file` isn't looked at.
    ///
    /// # Errors
    ///
    /// `NotFound` if no file has that number, and those of the file. Some of the bytes may have been appended
    /// then.
    fn read(&self, file: FileId, offset: u64, len: usize, bytes: &mut Vec<u8>) -> io::Result<()> {
        let Some(path) = path_of_file(self.paths, file.seq) else {
            return Err(io::Error::from(ErrorKind::NotFound));
        };
        self.disk.read_file(path, offset, len, bytes)
    }
}

/// Returns the path of the file numbered `seq`, or `None` if there is none. The numbers in `paths` must rise.
fn path_of_file<'a>(paths: &[(FileSeq, &'a str)], seq: FileSeq) -> Option<&'a str>
    ensures { IfSome result (λ path. IsNamed (map path_shown paths.now) seq path.now) }
{
    match paths.binary_search_by_key(&seq, |named| named.0) {
        Ok(index) => Some(paths[index].1),
        Err(_) => None,
    }
}

/// Returns the number and the length in bytes of each file that `paths` names. Returns `None` if one of them
/// has no length, as a pipe, or the numbers don't rise, so that two files might have one number.
///
/// # Errors
///
/// `Io` if the length of a file can't be read; `Memory`.
pub(crate) fn sizes_of_files<D: SharedFiles>(
    disk: &D,
    alloc: Global,
    paths: &[(FileSeq, &str)],
) -> Result<Option<Vec<FileSize>>>
    ensures ok { IfOk result (λ r. IfSome r (λ sizes. AreSizesOf (map path_shown paths.now) sizes.items)) }
    ensures fault { IfErr result IsFilesFault }
{
    if !paths.is_sorted_by(|older, newer| older.0 < newer.0) {
        return Ok(None);
    }
    let mut sizes = Vec::with_capacity(alloc, paths.len())?;
    for &(seq, path) in paths {
        let Some(len) = disk.file_len(path)? else {
            return Ok(None);
        };
        sizes.push(FileSize { seq, len })?;
    }
    Ok(Some(sizes))
}

/// Recovers the tables of the files that `ask` names, whose lengths are `sizes`, and prints them on `out`.
/// Workers read the files in pieces.
///
/// # Errors
///
/// `InvalidArgument` for another number of workers than 1 to 256; then those of [`print_files`].
pub(crate) fn print_named_files<S: SharedFiles + Threads, W: Write>(
    rt: &S,
    alloc: Global,
    ask: &RecoverWords<'_>,
    sizes: &[FileSize],
    out: &mut W,
) -> Result<()>
    requires sizes { AreSizesOf (map path_shown ask.now.paths.items) sizes.now }
    ensures read { OnOk result (PrintsFiles
        (NamedGives (S.gives rt.now) (map path_shown ask.now.paths.items)) ask.now.queue ask.now.version
        sizes.now (W.contents out.old) (W.contents out.new)) }
    ensures done { (words : List (List ℕ)) → AsksRecovery words (asks_for ask.now)
        → OnOk result (IsRecoveryPrinted words (W.contents out.old) (W.contents out.new)) }
    ensures silent { (words : List (List ℕ)) → AsksRecovery words (asks_for ask.now)
        → IfErr result (λ _. Keeps (W.contents out.old) (W.contents out.new)
        ⊎ IsRecoveryFrontPrinted words (W.contents out.old) (W.contents out.new)) }
{
    check_arguments(alloc, &[], ask.queue, ask.workers)?;
    let files = NamedFiles {
        disk: rt,
        paths: ask.paths.as_slice(),
    };
    print_files(
        rt,
        alloc,
        &files,
        sizes,
        ask.queue,
        ask.version,
        ask.workers,
        out,
    )
}
