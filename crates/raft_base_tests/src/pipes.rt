//! A pipe of files, and the order of files.

use raft_base::{
    FileBlockHandle, FileId, FileSeq, LogFileContext, LogQueue, PipeLog, ReactiveBytes, Result,
    Version,
};
use std::alloc::Global;
use std::fmt::InlineText;

// A pipe with the files 3 to 7 in each queue, all of them alike.
struct SmallPipe;

impl PipeLog for SmallPipe {
    ghost file_range_of = { λ _ _. (3, 7) };

    /// Returns the first bytes of `small`, at most as many as `handle` says.
    ///
    /// # Errors
    ///
    /// `Memory` alone.
    fn read_bytes(&self, alloc: Global, handle: FileBlockHandle) -> Result<Vec<u8>> {
        let file = b"small";
        Ok(Vec::from_slice(alloc, &file[..handle.len.min(5)])?)
    }

    /// Returns a place in file 7, of the length that `bytes` have there. Keeps nothing, and never fails.
    fn append<T: ReactiveBytes>(&self, queue: LogQueue, bytes: &mut T) -> Result<FileBlockHandle> {
        let id = FileId::new(queue, 7);
        let context = LogFileContext::new(id, Version::V2);
        let len = bytes.as_bytes(&context).len();
        Ok(FileBlockHandle { id, offset: 0, len })
    }

    /// Does nothing, and never fails.
    fn sync(&self, _queue: LogQueue) -> Result<()> {
        Ok(())
    }

    /// Returns the numbers of the first and the last file of this small pipe, for either queue.
    fn file_span(&self, _queue: LogQueue) -> (FileSeq, FileSeq) {
        (3, 7)
    }

    /// Returns 25: the pipe stands for five files of five bytes each.
    fn total_size(&self, _queue: LogQueue) -> usize {
        5 * 5
    }

    /// Does nothing, and never fails.
    fn rotate(&self, _queue: LogQueue) -> Result<()> {
        Ok(())
    }

    /// Returns how many files are to go, 1 if `file_id` is above the first file, else 0. Deletes nothing, and never
    /// fails.
    fn purge_to(&self, file_id: FileId) -> Result<usize> {
        Ok(usize::from(file_id.seq > 3))
    }
}

/// Returns the append file at the fraction `num` / `den` of a small pipe.
fn small_file_at(num: u64, den: u64) -> FileSeq {
    SmallPipe.file_at(LogQueue::Append, num, den.max(1))
}

/// Returns the length that a pipe gives for appended bytes; `None` where it refuses them.
fn appended_len(mut bytes: &&str) -> Option<usize> {
    match SmallPipe.append(LogQueue::Rewrite, &mut bytes) {
        Ok(place) => Some(place.len),
        Err(_) => None,
    }
}

/// Tests which file a pipe names at a fraction of its files, and that bytes to append give their own length.
#[test]
fn pipes_give_the_file_at_a_fraction(rt: HostRuntime) {
    assert_eq!(rt; small_file_at(0, 1), 3);
    assert_eq!(rt; small_file_at(1, 1), 8);
    for &(num, file) in &[(0, 3), (1, 5), (2, 8), (3, 8)] {
        assert_eq!(rt; small_file_at(num, 2), file);
    }
    let bytes = &"abcd";
    assert!(rt; bytes.ready());
    assert!(rt; appended_len(bytes) == Some(4));
}

/// Tests whether a file comes before another.
fn is_before(old: FileId, new: FileId) -> bool {
    old < new
}

/// Returns the file that comes after the other.
fn later_file_of(old: FileId, new: FileId) -> FileId {
    new.max(old)
}

/// Tests that files are ordered by queue and number, and that the queues have the numbers 0 and 1.
#[test]
fn files_and_queues_have_numbers(rt: HostRuntime) {
    let old = FileId::new(LogQueue::Rewrite, u64::MAX);
    let new = FileId::new(LogQueue::Append, 0);
    assert!(rt; is_before(old, new));
    assert!(rt; is_before(new, FileId::new(LogQueue::Append, 1)));
    assert!(rt; later_file_of(old, new) == new);
    assert!(rt; LogQueue::Append as u8 == 0);
    assert!(rt; LogQueue::Rewrite as u8 == 1);
}

/// Tests whether a version prints as a text.
fn is_printed_as(version: Version, text: &str) -> bool {
    let printed = InlineText::<32>::of(version);
    printed.as_str() == text
}

/// Returns the version with a number; `None` where there is none.
fn version_with_number(number: u64) -> Option<Version> {
    Version::from_u64(number)
}

/// Tests the number and the text of each version, whether it signs batches, and that other numbers are no version.
#[test]
fn versions_have_numbers(rt: HostRuntime) {
    for &(version, text, number, signs) in &[
        (Version::V1, "1", 1, false),
        (Version::V2, "2", 2, true),
    ] {
        assert!(rt; is_printed_as(version, text));
        assert!(rt; version.to_u64() == number);
        assert!(rt; version.has_log_signing() == signs);
    }
    assert!(rt; Version::default() == Version::V1);
    for &(number, version) in &[
        (0, None),
        (1, Some(Version::V1)),
        (2, Some(Version::V2)),
        (3, None),
        (u64::MAX, None),
    ] {
        assert!(rt; version_with_number(number) == version, "{number}");
    }
}

/// Tests that files of version 2 are signed by the low 32 bits of their number, and those of version 1 not at all.
#[test]
fn files_have_signatures(rt: HostRuntime) {
    for &(version, seq, signature) in &[
        (Version::V1, 0, None),
        (Version::V1, 12, None),
        (Version::V1, u64::MAX, None),
        (Version::V2, 0, Some(0)),
        (Version::V2, 12, Some(12)),
        (Version::V2, 0xffff_ffff, Some(u32::MAX)),
        (Version::V2, 0x1_0000_0000, Some(0)),
        (Version::V2, 0x1_0000_000c, Some(12)),
        (Version::V2, u64::MAX, Some(u32::MAX)),
    ] {
        for &queue in &[LogQueue::Append, LogQueue::Rewrite] {
            let context = LogFileContext::new(FileId::new(queue, seq), version);
            assert_eq!(rt; context.get_signature(), signature);
        }
    }
}
