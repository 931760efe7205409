//! Tests parts that are cut between batches.

use super::CLEAN;
use raft_base::{FileId, LogQueue, Result, Version};
use raft_records::FilePart;
use raft_recover::cut_part;
use raft_trials::again;
use std::alloc::Global;

/// How many batches of 24 bytes a part has, how many bytes that are no header behind them, into how many parts it is to
/// be cut, and the lengths of the parts that it is cut into.
static CUTS: [(usize, usize, usize, &[usize]); 9] = [
    (0, 0, 4, &[0]),
    (4, 0, 0, &[96]),
    (4, 0, 1, &[96]),
    (4, 0, 2, &[48, 48]),
    (4, 0, 3, &[48, 48]),
    (4, 0, 4, &[24, 24, 24, 24]),
    (4, 0, 200, &[24, 24, 24, 24]),
    (2, 48, 4, &[24, 24, 48]),
    (0, 96, 4, &[96]),
];

/// Returns the rows of cuts.
fn rows_of_cuts() -> &'static [(usize, usize, usize, &'static [usize])] {
    &CUTS
}

/// The file of all parts, and where in it the first one begins.
const FILE: FileId = FileId {
    queue: LogQueue::Append,
    seq: 1,
};

const FIRST: u64 = 100;

/// Returns the bytes of `batches` batches, each of a region of its own, and `behind` bytes that are no header.
fn bytes_of_batches(alloc: Global, batches: usize, behind: usize) -> Result<Vec<u8>> {
    let mut bytes = Vec::new(alloc);
    for number in 0..batches {
        let mut batch = Vec::from_slice(alloc, CLEAN.as_slice())?;
        if let Some(region) = batch.get_mut(17) {
            *region = (number % 128) as u8;
        }
        bytes.append(&mut batch)?;
    }
    bytes.resize(bytes.len().saturating_add(behind), 255)?;
    Ok(bytes)
}

/// Tests whether parts are of a version, have these lengths, follow one another from the first offset on, and have all
/// these bytes.
fn are_parts_consecutive(
    parts: &[FilePart],
    version: Version,
    lengths: &[usize],
    bytes: &[u8],
) -> bool {
    let mut at = 0usize;
    for (part, length) in parts.iter().zip(lengths) {
        let end = at.saturating_add(*length);
        if part.id() != FILE
            || part.version() != version
            || part.offset() != FIRST.saturating_add(at as u64)
            || bytes.get(at..end) != Some(part.bytes())
        {
            return false;
        }
        at = end;
    }
    parts.len() == lengths.len() && at == bytes.len()
}

/// Tests whether a part of a version is cut as a row says.
fn is_part_cut_as_row_says(
    alloc: Global,
    version: Version,
    batches: usize,
    behind: usize,
    count: usize,
    lengths: &[usize],
) -> Result<bool> {
    let bytes = bytes_of_batches(alloc, batches, behind)?;
    let part = FilePart::new(FILE, version, FIRST, bytes.clone()?)?;
    let parts = cut_part(alloc, part, count)?;
    Ok(are_parts_consecutive(parts.as_slice(), version, lengths, bytes.as_slice()))
}

/// Tests where parts of both versions are cut: only between batches.
#[test]
fn parts_are_cut_between_batches(rt: HostRuntime) {
    for &version in &[Version::V1, Version::V2] {
        for (batches, behind, count, lengths) in rows_of_cuts() {
            let cut = again!(is_part_cut_as_row_says(
                rt.alloc(),
                version,
                *batches,
                *behind,
                *count,
                *lengths
            ));
            assert!(rt; matches!(cut, Ok(true)), "{batches} {behind} {count}");
        }
    }
}
