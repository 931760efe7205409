//! Tests recoveries of files that workers read in pieces.

use super::both::{Record, file_bytes};
use Record::{Compact, Run};
use raft_base::{Error, FileId, FileSeq, LogQueue, Result, Version};
use raft_reading::{FileSize, ReadFiles};
use raft_recover::file_recovery::recover_files;
use raft_recover::files::file_segments;
use raft_recover::recovered::recovered_text;
use raft_recover::{MemTableAccessor, SharedFiles, recover, run_in_pieces};
use raft_trials::again;
use std::alloc::Global;
use std::io::ErrorKind;
use std::rt::Files;
use std::thread::Threads;
use std::{fs, io};

/// Files of the append queue in memory, each as its number and its bytes.
#[derive(Drop)]
struct HeldFiles(Vec<(FileSeq, Vec<u8>)>);

impl ReadFiles for HeldFiles {
    /// Appends `len` bytes of `file` from `offset` on to `bytes`; fewer if the file ends before.
    ///
    /// # Errors
    ///
    /// Lack of memory.
    fn read(&self, file: FileId, offset: u64, len: usize, bytes: &mut Vec<u8>) -> io::Result<()> {
        bytes.extend_from_slice(self.slice_of_file(file.seq, offset, len))?;
        Ok(())
    }
}

impl HeldFiles {
    /// Returns `len` bytes of a file from an offset on; fewer where the file ends before.
    fn slice_of_file(&self, seq: FileSeq, offset: u64, len: usize) -> &[u8] {
        for (held, bytes) in &self.0 {
            if *held == seq {
                return slice_from(bytes.as_slice(), offset, len);
            }
        }
        &[]
    }

    /// Returns the number and the length of each file.
    fn file_sizes(&self, alloc: Global) -> Result<Vec<FileSize>> {
        let mut sizes = Vec::new(alloc);
        for (seq, bytes) in &self.0 {
            let len = bytes.len() as u64;
            sizes.push(FileSize { seq: *seq, len })?;
        }
        Ok(sizes)
    }
}

/// Returns `len` bytes from an offset on; fewer where the bytes end before.
fn slice_from(bytes: &[u8], offset: u64, len: usize) -> &[u8] {
    let start = offset.min(bytes.len() as u64) as usize;
    let end = start.saturating_add(len).min(bytes.len());
    bytes.get(start..end).unwrap_or(&[])
}

/// The length of an entry, in bytes.
const ENTRY_LEN: usize = 1 << 18;

/// The files, each as its number and its records. The first one has 8.25 MiB of entries, which are read in three
/// pieces.
static FILES: [(FileSeq, &[Record]); 3] = [
    (1, &[Run(10, 43)]),
    (2, &[Run(43, 44)]),
    (3, &[Compact(20), Run(44, 45)]),
];

/// The lines that these files give.
const LINES: &str = "1 entries 20..45 keys 0 append 1 rewrite -\ncleaned -\nlive 25 0\n";

/// The place at which the last piece of the first file begins, behind two of 4 MiB, as errors name it.
const LAST_PIECE: &str = "append file 1, offset 8388608: ";

/// Returns files with the batches of `FILES`.
fn files_of_both(alloc: Global) -> Result<HeldFiles> {
    let mut files = Vec::new(alloc);
    for &(seq, records) in &FILES {
        let file = FileId::new(LogQueue::Append, seq);
        files.push((seq, file_bytes(alloc, file, records, ENTRY_LEN)?))?;
    }
    Ok(HeldFiles(files))
}

/// Recovers the tables of files with these numbers and lengths, which three workers read.
fn recover_in_pieces<R: Threads + Sync>(
    rt: &R,
    alloc: Global,
    files: &HeldFiles,
    sizes: &[FileSize],
) -> Result<MemTableAccessor> {
    recover_files(rt, alloc, files, sizes, LogQueue::Append, Version::V2, 3)
}

/// Tests whether tables are printed as the lines.
fn are_lines_printed(alloc: Global, tables: &MemTableAccessor) -> Result<bool> {
    Ok(recovered_text(alloc, tables)?.as_str() == LINES)
}

/// Tests whether files that are read in pieces give the lines.
fn do_files_in_pieces_give_lines<R: Threads + Sync>(
    rt: &R,
    alloc: Global,
    files: &HeldFiles,
) -> Result<bool> {
    let sizes = files.file_sizes(alloc)?;
    let tables = recover_in_pieces(rt, alloc, files, sizes.as_slice())?;
    are_lines_printed(alloc, &tables)
}

/// Tests whether `recover` gives the lines for the bytes of the files.
fn do_bytes_of_files_give_lines<R: Threads + Sync>(
    rt: &R,
    alloc: Global,
    files: HeldFiles,
) -> Result<bool> {
    let segments = file_segments(LogQueue::Append, Version::V2, files.0)?;
    let tables = recover(rt, alloc, segments.as_slice(), LogQueue::Append, 3)?;
    are_lines_printed(alloc, &tables)
}

/// Tests whether files are refused if the first one is said to have one byte more than it has: the read of its last
/// piece returns fewer bytes than are wanted.
fn is_shorter_file_refused<R: Threads + Sync>(
    rt: &R,
    alloc: Global,
    files: &HeldFiles,
) -> Result<bool> {
    let mut sizes = files.file_sizes(alloc)?;
    if let Some(first) = sizes.first_mut() {
        first.len = first.len.saturating_add(1);
    }
    is_refused_at_last_piece(alloc, recover_in_pieces(rt, alloc, files, sizes.as_slice()))
}

/// Tests whether a recovery is refused with the place of the last piece. Other errors are passed on.
fn is_refused_at_last_piece(alloc: Global, read: Result<MemTableAccessor>) -> Result<bool> {
    match read {
        Ok(_tables) => Ok(false),
        Err(Error::Io(error)) => {
            let text = format!(in alloc; "{error}")?;
            Ok(error.kind() == ErrorKind::UnexpectedEof && text.starts_with(LAST_PIECE))
        }
        Err(error) => Err(error),
    }
}

/// Returns the path of a file.
fn path_of_file(alloc: Global, seq: FileSeq) -> Result<String> {
    Ok(format!(in alloc; "in_pieces.{seq}.log")?)
}

/// Writes the files, and returns the arguments that have the program recover them.
fn write_files_and_words<S: Files + AllocGlobal>(rt: &S, files: &HeldFiles) -> Result<Vec<String>> {
    let alloc = rt.alloc();
    let mut words = Vec::new(alloc);
    for &word in &["recover", "append", "2", "3"] {
        words.push(String::from_str(alloc, word)?)?;
    }
    for (seq, bytes) in &files.0 {
        let path = path_of_file(alloc, *seq)?;
        fs::write(rt, path.as_str(), bytes.as_slice())?;
        words.push(format!(in alloc; "{seq}={path}")?)?;
    }
    Ok(words)
}

/// Removes the files from the disk.
fn remove_files<S: Files + AllocGlobal>(rt: &S, files: &HeldFiles) -> Result<()> {
    for (seq, _) in &files.0 {
        fs::remove_file(rt, path_of_file(rt.alloc(), *seq)?.as_str())?;
    }
    Ok(())
}

/// Tests whether the program prints the lines of files on a disk. A run that is refused counts as `Memory`.
fn does_program_print_lines<S: SharedFiles + Files + AllocGlobal + Threads + Sync>(
    rt: &S,
    files: &HeldFiles,
) -> Result<bool> {
    let words = write_files_and_words(rt, files)?;
    let mut input = b"".as_slice();
    let mut out = Vec::new(rt.alloc());
    let mut err = Vec::new(rt.alloc());
    let status = run_in_pieces(rt, words.as_slice(), &mut input, &mut out, &mut err);
    remove_files(rt, files)?;
    if status != 0 {
        return Err(Error::Memory);
    }
    Ok(out.as_slice() == LINES.as_bytes())
}

/// Tests whether a read at an offset returns what the file has there: fewer bytes where it ends, and none behind its
/// end.
fn are_reads_at_offsets_right<S: SharedFiles + Files + AllocGlobal>(rt: &S) -> Result<bool> {
    let mut bytes = Vec::new(rt.alloc());
    fs::write(rt, "at_offsets.log", b"0123456789".as_slice())?;
    let len = rt.file_len("at_offsets.log")?;
    rt.read_file("at_offsets.log", 3, 4, &mut bytes)?;
    rt.read_file("at_offsets.log", 8, 4, &mut bytes)?;
    rt.read_file("at_offsets.log", 11, 4, &mut bytes)?;
    fs::remove_file(rt, "at_offsets.log")?;
    let absent = rt.file_len("at_offsets.log");
    Ok(
        len == Some(10)
            && bytes.as_slice() == b"345689".as_slice()
            && rt.file_len(".")?.is_none()
            && absent.is_err_and(|error| error.kind() == ErrorKind::NotFound),
    )
}

/// Tests all ways of reading the files.
fn do_all_ways_hold<S: SharedFiles + Files + AllocGlobal + Threads + Sync>(rt: &S) -> Result<bool> {
    let alloc = rt.alloc();
    let files = files_of_both(alloc)?;
    let read = do_files_in_pieces_give_lines(rt, alloc, &files)?;
    let refused = is_shorter_file_refused(rt, alloc, &files)?;
    let printed = does_program_print_lines(rt, &files)?;
    let recovered = do_bytes_of_files_give_lines(rt, alloc, files)?;
    Ok(read && refused && printed && recovered)
}

/// Tests that files that are read in pieces, as bytes and by the program give the same lines.
#[test]
fn files_are_read_in_pieces(rt: HostRuntime) {
    assert!(rt; matches!(again!(do_all_ways_hold(&rt)), Ok(true)));
}

/// Tests what reads at offsets return, also at the end of a file and beyond it.
#[test]
fn files_are_read_at_offsets(rt: HostRuntime) {
    assert!(rt; matches!(again!(are_reads_at_offsets_right(&rt)), Ok(true)));
}
