//! Tests files that are divided into equal shares.

use raft_base::{EntryIndex, Error, FileSeq, LogQueue, Result, Version};
use raft_records::{FilePart, LogItemContent, entries_block_in, entry_bytes, next_batch};
use raft_recover::Segment;
use raft_recover::files::file_segments;
use raft_recover::shares::equal_shares;
use raft_trials::again;
use std::alloc::Global;
use std::process::Abort;

/// A log batch of version 1: region 1 with `Clean`.
const CLEAN: &[u8; 24] =
    b"\x00\x00\x00\x00\x00\x00\x18\x00\x00\x00\x00\x00\x00\x00\x00\x10\x01\x01\x02\x01\x5a\x80\x0b\xdd";

/// How many files of four batches each there are, how many shares are wanted, of how many bytes at least, and how many
/// bytes each share has.
type Row = (u64, usize, usize, &'static [usize]);

static ROWS: [Row; 9] = [
    (0, 4, 1, &[0]),
    (1, 1, 1, &[96]),
    (1, 2, 1, &[48, 48]),
    (1, 3, 1, &[24, 48, 24]),
    (1, 256, 1, &[24, 24, 24, 24]),
    (1, 256, 48, &[48, 48]),
    (2, 3, 1, &[72, 48, 72]),
    (4, 2, 1, &[192, 192]),
    (5, 256, 1 << 20, &[480]),
];

/// Returns the rows of shares.
fn rows_of_shares() -> &'static [Row] {
    &ROWS
}

/// Returns the bytes of a file of four batches.
fn file_bytes(alloc: Global) -> Result<Vec<u8>> {
    let mut bytes = Vec::new(alloc);
    for _ in 0..4 {
        bytes.extend_from_slice(CLEAN.as_slice())?;
    }
    Ok(bytes)
}

/// Returns so many files, each of the same four batches.
fn files_of_four_batches(alloc: Global, count: u64) -> Result<Vec<(FileSeq, Vec<u8>)>> {
    let mut files = Vec::new(alloc);
    for seq in 0..count {
        files.push((seq, file_bytes(alloc)?))?;
    }
    Ok(files)
}

/// Returns how many bytes each share has of so many files of a version.
fn share_lengths(
    alloc: Global,
    version: Version,
    files: u64,
    count: usize,
    least: usize,
) -> Result<Vec<usize>> {
    let segments = file_segments(
        LogQueue::Append,
        version,
        files_of_four_batches(alloc, files)?,
    )?;
    let mut all = Vec::new(alloc);
    for share in equal_shares(alloc, segments.as_slice(), count.max(1), least.max(1))? {
        let mut bytes = 0usize;
        for part in &share {
            if part.version() != version {
                return Err(Error::Failed);
            }
            bytes = bytes.saturating_add(part.bytes().len());
        }
        all.push(bytes)?;
    }
    Ok(all)
}

/// Tests that files are divided into shares of nearly the same number of bytes.
#[test]
fn shares_are_of_one_length(rt: HostRuntime) -> Result<()> {
    again!(check_each_share_row(&rt, rt.alloc()))
}

/// Tests each row in both versions.
fn check_each_share_row(rt: &impl Abort, alloc: Global) -> Result<()> {
    for &(files, count, least, bytes) in rows_of_shares() {
        for &version in &[Version::V1, Version::V2] {
            let shares = share_lengths(alloc, version, files, count, least)?;
            assert!(rt; shares.as_slice() == bytes, "{files} {count} {least}");
        }
    }
    Ok(())
}

/// A log batch of version 1: region 1 with the entries 5 to 8, each of which has the byte `x`.
const ENTRIES: &[u8; 37] =
    b"\x00\x00\x00\x00\x00\x00\x25\x00\x00\x00\x00\x00\x00\x00\x00\x18xxxx\x77\x64\x15\x6c\x01\x01\x01\x04\x05\x01\x02\x03\x04\x70\xe2\xa6\x5f";

/// Divides a file of three batches with entries into so many shares.
fn divide_file_with_entries(alloc: Global, count: usize) -> Result<Vec<Segment>> {
    let mut bytes = Vec::new(alloc);
    for _ in 0..3 {
        bytes.extend_from_slice(ENTRIES.as_slice())?;
    }
    let files = vec![in alloc; (7u64, bytes)]?;
    let segments = file_segments(LogQueue::Append, Version::V1, files)?;
    equal_shares(alloc, segments.as_slice(), count.max(1), 1)
}

/// Returns how many entries of the batch at byte `at` of a part can be read back from their places, and where the next
/// batch begins.
fn count_entries_read_back(alloc: Global, part: &FilePart, at: usize) -> Result<(u64, usize)> {
    let Some((batch, next)) = next_batch(part, at.min(part.bytes().len()))? else {
        return Ok((0, usize::MAX));
    };
    let mut count = 0u64;
    for item in batch.iter() {
        if let LogItemContent::EntryIndexes(entries) = &item.content {
            count = count.saturating_add(count_entries_with_byte(
                alloc,
                part,
                entries.0.as_slice(),
            )?);
        }
    }
    Ok((count, next))
}

/// Returns how many of the entries have the byte `x` in the part.
fn count_entries_with_byte(alloc: Global, part: &FilePart, entries: &[EntryIndex]) -> Result<u64> {
    let mut count = 0u64;
    for entry in entries {
        let Some(place) = entry.entries else {
            return Ok(0);
        };
        let block = entries_block_in(part, place)?;
        if entry_bytes(alloc, block, entry)? == b"x".as_slice() {
            count = count.saturating_add(1);
        }
    }
    Ok(count)
}

/// Returns how many entries of all shares can be read back from the part that has their batch.
fn count_all_entries_read_back(alloc: Global, shares: &[Segment]) -> Result<u64> {
    let mut count = 0u64;
    for share in shares {
        for part in share {
            let mut at = 0usize;
            for _ in 0..3 {
                let (read, next) = count_entries_read_back(alloc, part, at)?;
                count = count.saturating_add(read);
                at = next;
            }
        }
    }
    Ok(count)
}

/// Tests that each of the twelve entries can be read back, from a single part and from parts that are cut.
#[test]
fn shares_have_the_entries(rt: HostRuntime) {
    for &count in &[1usize, 2, 3] {
        let read = again!(divide_and_count_read_back(rt.alloc(), count));
        assert!(rt;
            matches!(read, Ok((12, shares)) if shares == count),
            "{count} shares"
        );
    }
}

/// Divides the file into `count` shares. Returns how many entries can be read back, and how many shares there are.
fn divide_and_count_read_back(alloc: Global, count: usize) -> Result<(u64, usize)> {
    let shares = divide_file_with_entries(alloc, count)?;
    Ok((
        count_all_entries_read_back(alloc, shares.as_slice())?,
        shares.len(),
    ))
}
