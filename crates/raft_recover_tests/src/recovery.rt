//! Tests whole recoveries, from files to lines, by any number of workers and however the files are cut.

mod batches;
mod both;
mod bound;
mod failed;
mod histories;
mod kept;
mod owed;
mod pieces;
mod plans;
mod read_files;
mod refusals;
mod rows;
mod shared;
mod truncations;

use histories::{row_ending_with_hole, row_ending_with_truncation, rows_of_histories};
use owed::Row;
use raft_base::{Error, FileId, FileSeq, LogQueue, Result, Version};
use raft_records::FilePart;
use raft_recover::files::file_segments;
use raft_recover::recovery::recover_segments;
use raft_recover::shares::equal_shares;
use raft_recover::{Segment, recover_bytes};
use raft_trials::again;
use rows::rows;
use std::alloc::Global;
use std::thread::Threads;
use truncations::rows_of_truncations;

/// Returns the bytes of digits in base 16.
fn bytes_of_digits(alloc: Global, digits: &str) -> Result<Vec<u8>> {
    hex::decode(alloc, digits).map_err(|_| Error::Memory)
}

/// Returns the bytes of a batch in file `seq` of a version. `digits` are its bytes in version 1, in base 16; in version
/// 2 it is signed for the file, whose number has to be below 256.
fn signed_batch_bytes(
    alloc: Global,
    version: Version,
    seq: FileSeq,
    digits: &str,
) -> Result<Vec<u8>> {
    let mut bytes = bytes_of_digits(alloc, digits)?;
    let checksum = bytes.len().saturating_sub(4);
    if version == Version::V2
        && let Some(byte) = bytes.get_mut(checksum)
    {
        *byte ^= (seq % 256) as u8;
    }
    Ok(bytes)
}

/// Returns batches as segments, with a part for each batch. A segment ends behind each batch whose bit in `cuts` is
/// set.
fn cut_into_segments(
    alloc: Global,
    queue: LogQueue,
    version: Version,
    batches: &[(FileSeq, &str)],
    cuts: u64,
) -> Result<Vec<Segment>> {
    let mut segments = vec![in alloc; Vec::new(alloc)]?;
    let (mut file, mut offset, mut left) = (0u64, 0u64, cuts);
    for (seq, digits) in batches {
        if *seq != file {
            (file, offset) = (*seq, 0);
        }
        let bytes = signed_batch_bytes(alloc, version, file, digits)?;
        let part = FilePart::new(FileId::new(queue, file), version, offset, bytes)?;
        offset = offset.saturating_add(part.bytes().len() as u64);
        push_part(alloc, &mut segments, part, left % 2 == 1)?;
        left /= 2;
    }
    Ok(segments)
}

/// Puts a part into the last segment, and where it is cut after that begins another.
fn push_part(
    alloc: Global,
    segments: &mut Vec<Segment>,
    part: FilePart,
    is_cut: bool,
) -> Result<()> {
    if let Some(segment) = segments.last_mut() {
        segment.push(part)?;
    }
    if is_cut {
        segments.push(Vec::new(alloc))?;
    }
    Ok(())
}

/// Returns in how many ways so many batches can be cut into segments.
fn count_cuttings(batches: usize) -> u64 {
    let mut cuttings = 1u64;
    for _ in 1..batches {
        cuttings = cuttings.saturating_mul(2);
    }
    cuttings
}

/// The versions in which batches are read at each cutting, and by how many workers.
const READINGS: [(Version, usize); 5] = [
    (Version::V1, 1),
    (Version::V1, 2),
    (Version::V1, 3),
    (Version::V1, 4),
    (Version::V2, 256),
];

/// Tests whether the batches of a row give what it expects, or are refused, at each cutting, and as equal shares, which
/// are the same at all cuttings.
fn is_row_met_at_each_cutting<R: Threads + Sync>(rt: &R, alloc: Global, row: &Row) -> Result<bool> {
    for cuts in 0..count_cuttings(row.batches.len()) {
        for &(version, workers) in &READINGS {
            let segments = cut_into_segments(alloc, row.queue, version, row.batches, cuts)?;
            let held = if cuts == 0 {
                do_segments_and_shares_give_row(rt, alloc, row, segments.as_slice(), workers)?
            } else {
                do_segments_give_row(rt, alloc, row, segments.as_slice(), workers)?
            };
            if !held {
                return Ok(false);
            }
        }
    }
    Ok(true)
}

/// Tests whether segments give what a row expects, or are refused, with so many workers.
fn do_segments_give_row<R: Threads + Sync>(
    rt: &R,
    alloc: Global,
    row: &Row,
    segments: &[Segment],
    workers: usize,
) -> Result<bool> {
    match recover_segments(rt, alloc, segments, row.queue, workers) {
        Ok(tables) => row.is_met(alloc, &tables),
        Err(Error::Corruption(_)) => Ok(row.lines.is_none()),
        Err(error) => Err(error),
    }
}

/// Tests whether segments give what a row expects, or are refused, with so many workers: read as they are, and as equal
/// shares.
fn do_segments_and_shares_give_row<R: Threads + Sync>(
    rt: &R,
    alloc: Global,
    row: &Row,
    segments: &[Segment],
    workers: usize,
) -> Result<bool> {
    let shares = equal_shares(alloc, segments, workers.max(1), 1)?;
    Ok(
        do_segments_give_row(rt, alloc, row, segments, workers)?
            && do_segments_give_row(rt, alloc, row, shares.as_slice(), workers)?,
    )
}

/// Tests that the batches of each row give the same tables at each cutting.
#[test]
fn no_cut_changes_the_tables(rt: HostRuntime) {
    for list in [rows(), rows_of_truncations(), rows_of_histories()] {
        for row in list {
            assert!(rt;
                matches!(
                    again!(is_row_met_at_each_cutting(&rt, rt.alloc(), row)),
                    Ok(true)
                )
            );
        }
    }
}

/// Tests the same with histories that end with a truncation and with a hole.
#[test]
fn no_cut_before_one_more_batch_changes_the_tables(rt: HostRuntime) {
    for row in [row_ending_with_truncation(), row_ending_with_hole()] {
        assert!(rt;
            matches!(
                again!(is_row_met_at_each_cutting(&rt, rt.alloc(), row)),
                Ok(true)
            )
        );
    }
}

/// Returns the files of a version, each as its number and the bytes of all its batches.
fn files_of_batches(
    alloc: Global,
    version: Version,
    batches: &[(FileSeq, &str)],
) -> Result<Vec<(FileSeq, Vec<u8>)>> {
    let mut files: Vec<(FileSeq, Vec<u8>)> = Vec::new(alloc);
    let mut last = None;
    for (seq, digits) in batches {
        if last != Some(*seq) {
            files.push((*seq, Vec::new(alloc)))?;
            last = Some(*seq);
        }
        let mut batch = signed_batch_bytes(alloc, version, *seq, digits)?;
        if let Some(file) = files.last_mut() {
            file.1.append(&mut batch)?;
        }
    }
    Ok(files)
}

/// Tests whether the lines of a row are printed for its files. Files as small as these are a single share, which one
/// worker reads.
fn are_lines_printed<R: Threads + Sync>(
    rt: &R,
    alloc: Global,
    row: &Row,
    version: Version,
    workers: usize,
) -> Result<bool> {
    let files = files_of_batches(alloc, version, row.batches)?;
    let mut out = Vec::with_capacity(alloc, 512)?;
    let done = recover_bytes(rt, alloc, row.queue, version, workers, files, &mut out);
    match done {
        Ok(()) => Ok(
            row.lines
                .is_some_and(|lines| out.as_slice() == lines.as_bytes()),
        ),
        Err(Error::Corruption(_)) => Ok(row.lines.is_none() && out.is_empty()),
        Err(error) => Err(error),
    }
}

/// Tests whether the files of a row, as a segment each and cut into up to `workers` shares, give what it expects with
/// as many workers, and its lines are printed.
fn do_files_give_row<R: Threads + Sync>(
    rt: &R,
    alloc: Global,
    row: &Row,
    version: Version,
    workers: usize,
) -> Result<bool> {
    let files = files_of_batches(alloc, version, row.batches)?;
    let segments = file_segments(row.queue, version, files)?;
    Ok(
        do_segments_and_shares_give_row(rt, alloc, row, segments.as_slice(), workers)?
            && are_lines_printed(rt, alloc, row, version, workers)?,
    )
}

/// The versions in which files are read, and by how many workers.
const FILE_READINGS: [(Version, usize); 12] = [
    (Version::V1, 1),
    (Version::V1, 2),
    (Version::V1, 3),
    (Version::V1, 5),
    (Version::V1, 8),
    (Version::V1, 256),
    (Version::V2, 1),
    (Version::V2, 2),
    (Version::V2, 3),
    (Version::V2, 5),
    (Version::V2, 8),
    (Version::V2, 256),
];

/// Tests up to 256 shares, of which there are never more than batches: parts of both versions are cut within a file.
#[test]
fn files_give_the_tables_of_their_rows(rt: HostRuntime) {
    for list in [rows(), rows_of_truncations(), rows_of_histories()] {
        for row in list {
            for &(version, workers) in &FILE_READINGS {
                let held = again!(do_files_give_row(&rt, rt.alloc(), row, version, workers));
                assert!(rt; matches!(held, Ok(true)), "{workers} workers");
            }
        }
    }
}
