//! Files in memory, and files of which a list of asks is kept.

use raft_base::{Error, FileBlockHandle, FileId, FileSeq, LogQueue, Result};
use raft_files::{AppendError, Asked, EngineFiles, MemoryFiles};
use raft_trials::again;
use std::alloc::Global;

/// Files whose calls all succeed or all fail, as `fails` says, and that can't be read.
#[derive(Drop)]
struct Deaf {
    asked: Asked,
    fails: bool,
}

impl Deaf {
    /// Does nothing, unless the calls are to fail.
    ///
    /// # Errors
    ///
    /// `Failed`, if the calls are to fail.
    fn fail_if_wanted(&self) -> Result<()> {
        if self.fails {
            Err(Error::Failed)
        } else {
            Ok(())
        }
    }
}

impl EngineFiles for Deaf {
    ghost asked = { λ f. f.asked.asks };

    /// Notes the call, and fails if the calls are to fail. The bytes are kept nowhere.
    ///
    /// # Errors
    ///
    /// `InPart` with `Failed`, if the calls are to fail.
    fn append(&mut self, queue: LogQueue, bytes: &[u8]) -> std::result::Result<(), AppendError> {
        self.asked.put(queue, bytes);
        match self.fail_if_wanted() {
            Ok(()) => Ok(()),
            Err(error) => Err(AppendError::InPart(error)),
        }
    }

    /// Notes the call, and fails if the calls are to fail.
    ///
    /// # Errors
    ///
    /// `Failed`, if the calls are to fail.
    fn rotate(&mut self, queue: LogQueue, seq: FileSeq) -> Result<()> {
        self.asked.begin(queue, seq);
        self.fail_if_wanted()
    }

    /// Notes the call, unless the calls are to fail.
    ///
    /// # Errors
    ///
    /// `Failed`, if the calls are to fail.
    fn sync(&mut self, queue: LogQueue) -> Result<()> {
        self.fail_if_wanted()?;
        self.asked.sync(queue);
        Ok(())
    }

    /// Notes the call, and fails if the calls are to fail.
    ///
    /// # Errors
    ///
    /// `Failed`, if the calls are to fail.
    fn delete_oldest(&mut self, queue: LogQueue) -> Result<()> {
        self.asked.delete(queue);
        self.fail_if_wanted()
    }

    /// Notes the call, and fails if the calls are to fail.
    ///
    /// # Errors
    ///
    /// `Failed`, if the calls are to fail.
    fn truncate(&mut self, queue: LogQueue, len: u64) -> Result<()> {
        self.asked.cut(queue, len);
        self.fail_if_wanted()
    }

    /// Reads nothing: these files have no bytes.
    ///
    /// # Errors
    ///
    /// `Failed`, always.
    fn read(&mut self, _place: FileBlockHandle) -> Result<Vec<u8>> {
        Err(Error::Failed)
    }
}

/// A call of files that changes something.
#[derive(Clone, Copy)]
enum Ask {
    Rotate(FileSeq),
    Append(&'static str),
    Sync,
    DeleteOldest,
    Truncate(u64),
}

/// All calls, each once.
const ASKS: [(LogQueue, Ask); 12] = [
    (LogQueue::Append, Ask::Rotate(1)),
    (LogQueue::Append, Ask::Append("gone")),
    (LogQueue::Append, Ask::Rotate(2)),
    (LogQueue::Append, Ask::Append("ab")),
    (LogQueue::Append, Ask::Append("cde")),
    (LogQueue::Append, Ask::Sync),
    (LogQueue::Append, Ask::DeleteOldest),
    (LogQueue::Append, Ask::Rotate(4)),
    (LogQueue::Append, Ask::Append("fghi")),
    (LogQueue::Append, Ask::Truncate(3)),
    (LogQueue::Rewrite, Ask::Rotate(9)),
    (LogQueue::Rewrite, Ask::Append("xyz")),
];

/// Makes the call `asked` of the files of `queue`.
///
/// # Errors
///
/// Those of the call.
fn make_call<F: EngineFiles>(files: &mut F, queue: LogQueue, asked: Ask) -> Result<()> {
    match asked {
        Ask::Rotate(seq) => files.rotate(queue, seq),
        Ask::Append(text) => Ok(files.append(queue, text.as_bytes())?),
        Ask::Sync => files.sync(queue),
        Ask::DeleteOldest => files.delete_oldest(queue),
        Ask::Truncate(len) => files.truncate(queue, len),
    }
}

/// Makes all calls of [`ASKS`], each once.
///
/// # Errors
///
/// That of the first call that fails; no further one is made then.
fn make_each_call_once<F: EngineFiles>(files: &mut F) -> Result<()> {
    for &(queue, asked) in &ASKS {
        make_call(files, queue, asked)?;
    }
    Ok(())
}

/// Tests whether files have these numbers and these bytes, given as text.
fn have_numbers_and_bytes(files: &Vec<(FileSeq, Vec<u8>)>, expected: &[(FileSeq, &str)]) -> bool {
    files.len() == expected.len()
        && files.iter().zip(expected).all(|(file, other)| file.0 == other.0
            && file.1.as_slice() == other.1.as_bytes())
}

/// Reads `len` bytes of a file from an offset on.
///
/// # Errors
///
/// Those of [`MemoryFiles::read`].
fn read_at(files: &mut MemoryFiles, id: FileId, offset: u64, len: usize) -> Result<Vec<u8>> {
    files.read(FileBlockHandle { id, offset, len })
}

/// Tests whether a read of `len` bytes at a place returns a text, or, where none is given, is refused.
fn is_read_as(
    files: &mut MemoryFiles,
    id: FileId,
    offset: u64,
    text: Option<&str>,
    len: usize,
) -> bool {
    match (read_at(files, id, offset, len), text) {
        (Ok(bytes), Some(text)) => bytes.as_slice() == text.as_bytes(),
        (Err(Error::InvalidArgument(_)), None) => true,
        _ => false,
    }
}

/// Returns files of which all calls were made, each once.
///
/// # Errors
///
/// Those of [`make_each_call_once`].
fn files_after_all_calls(alloc: Global) -> Result<MemoryFiles> {
    let mut files = MemoryFiles::new(alloc);
    make_each_call_once(&mut files)?;
    Ok(files)
}

/// Tests that files in memory have the numbers and the bytes that all calls, each made once, have to leave.
#[test]
fn memory_files_keep_what_is_asked(rt: HostRuntime) -> Result<()> {
    let files = files_after_all_calls(rt.alloc())?;
    assert!(rt; have_numbers_and_bytes(files.files(LogQueue::Append), &[(2, "abcde"), (4, "fgh")]));
    assert!(rt; have_numbers_and_bytes(files.files(LogQueue::Rewrite), &[(9, "xyz")]));
    Ok(())
}

/// Tests whether files that are made of copies of others have their bytes, and take further calls.
///
/// # Errors
///
/// Those of the files' calls; `Memory`.
fn are_copies_found_again(alloc: Global) -> Result<bool> {
    let left = files_after_all_calls(alloc)?;
    let append = again!(left.copies(LogQueue::Append))?;
    let rewrite = again!(left.copies(LogQueue::Rewrite))?;
    let mut files = MemoryFiles::found(append, rewrite);
    let found = have_numbers_and_bytes(files.files(LogQueue::Append), &[(2, "abcde"), (4, "fgh")]);
    files.append(LogQueue::Rewrite, b"!")?;
    files.delete_oldest(LogQueue::Append)?;
    Ok(
        found
            && have_numbers_and_bytes(files.files(LogQueue::Append), &[(4, "fgh")])
            && have_numbers_and_bytes(files.files(LogQueue::Rewrite), &[(9, "xyz!")]),
    )
}

/// Tests that files made of copies of others have their bytes, and take further calls.
#[test]
fn memory_files_are_found_again(rt: HostRuntime) -> Result<()> {
    assert!(rt; are_copies_found_again(rt.alloc())?);
    Ok(())
}

const ROWS: [(LogQueue, FileSeq, u64, usize, Option<&str>); 9] = [
    (LogQueue::Append, 2, 0, 5, Some("abcde")),
    (LogQueue::Append, 2, 1, 3, Some("bcd")),
    (LogQueue::Append, 4, 3, 0, Some("")),
    (LogQueue::Rewrite, 9, 2, 1, Some("z")),
    (LogQueue::Append, 4, 0, 4, None),
    (LogQueue::Append, 2, 6, 0, None),
    (LogQueue::Append, 2, u64::MAX, 1, None),
    (LogQueue::Append, 1, 0, 4, None),
    (LogQueue::Rewrite, 2, 0, 1, None),
];

/// Tests that a read returns the bytes at its place, and is refused where the file has no such place.
#[test]
fn memory_files_are_read_by_place(rt: HostRuntime) -> Result<()> {
    let mut files = files_after_all_calls(rt.alloc())?;
    for &(queue, seq, offset, len, text) in &ROWS {
        assert!(rt; is_read_as(&mut files, FileId::new(queue, seq), offset, text, len));
    }
    Ok(())
}

/// Tests whether calls that make no sense are refused: bytes without a file to put them into, a new file whose number
/// isn't above the last one, the deletion of the last file.
///
/// # Errors
///
/// That of the one call that is to succeed.
fn are_senseless_calls_refused(alloc: Global) -> Result<bool> {
    let mut files = MemoryFiles::new(alloc);
    let bytes = is_refused(&mut files, Ask::Append("a"));
    let cut = is_refused(&mut files, Ask::Truncate(0));
    make_call(&mut files, LogQueue::Append, Ask::Rotate(3))?;
    let number = is_refused(&mut files, Ask::Rotate(3));
    let last = is_refused(&mut files, Ask::DeleteOldest);
    Ok(
        bytes
            && cut
            && number
            && last
            && have_numbers_and_bytes(files.files(LogQueue::Append), &[(3, "")]),
    )
}

/// Tests whether a call of the append files is refused as `InvalidArgument`.
fn is_refused(files: &mut MemoryFiles, asked: Ask) -> bool {
    matches!(
        make_call(files, LogQueue::Append, asked),
        Err(Error::InvalidArgument(_))
    )
}

/// Tests that files in memory refuse calls that no file can carry out, such as a write where there is no file.
#[test]
fn memory_files_refuse_impossible_calls(rt: HostRuntime) -> Result<()> {
    assert!(rt; are_senseless_calls_refused(rt.alloc())?);
    Ok(())
}

/// Tests that each call is noted and passed on, whether the files carry it out or fail.
#[test]
fn calls_of_files_are_noted(rt: HostRuntime) {
    let mut files = Deaf {
        asked: Asked::new(),
        fails: false,
    };
    assert!(rt; make_each_call_once(&mut files).is_ok());
    files.fails = true;
    assert!(rt; make_each_call_once(&mut files).is_err());
}
