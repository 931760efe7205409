//! Tests how workers are divided between two queues, and thousands of files among shares.

use raft_base::{FileSeq, LogQueue, Result, Version};
use raft_recover::files::file_segments;
use raft_recover::recovery::part_of_workers;
use raft_recover::shares::equal_shares;
use raft_trials::again;
use std::alloc::Global;

const MIB: usize = 1 << 20;

/// How many workers there are, how many bytes each of two queues has, and how many of the workers read the first queue.
static PARTS: [(usize, usize, usize, usize); 9] = [
    (2, MIB, 100 * MIB, 1),
    (2, 100 * MIB, MIB, 1),
    (4, MIB, 3 * MIB, 1),
    (4, 3 * MIB, MIB, 3),
    (8, 6 * MIB, 2 * MIB, 6),
    (8, 2 * MIB, 6 * MIB, 2),
    (256, 0, MIB, 1),
    (256, MIB, 0, 255),
    (4, 0, 0, 1),
];

/// Returns the rows of workers and bytes.
fn rows_of_workers() -> &'static [(usize, usize, usize, usize)] {
    &PARTS
}

/// Tests how many of the workers read the first of two queues, by the bytes of both.
#[test]
fn the_longer_queue_has_more_workers(rt: HostRuntime) {
    for &(workers, first, second, part) in rows_of_workers() {
        assert!(rt;
            part_of_workers(workers.max(2), first, second) == part,
            "{workers} {first} {second}"
        );
    }
}

/// How many files there are. Each has three bytes, with which no batch begins.
const FILES: u64 = 5_000;

/// Returns the files.
fn many_small_files(alloc: Global) -> Result<Vec<(FileSeq, Vec<u8>)>> {
    let mut files = Vec::new(alloc);
    for seq in 0..FILES {
        files.push((seq, vec![in alloc; 0xff, 0xff, 0xff]?))?;
    }
    Ok(files)
}

/// Tests whether the files are divided into four shares, each with a fourth of them, in order.
fn are_files_divided(alloc: Global) -> Result<bool> {
    let segments = file_segments(LogQueue::Append, Version::V1, many_small_files(alloc)?)?;
    let shares = equal_shares(alloc, segments.as_slice(), 4, 1)?;
    let mut seq = 0u64;
    for share in &shares {
        if share.len() != 1_250 {
            return Ok(false);
        }
        for part in share {
            if part.id().seq != seq {
                return Ok(false);
            }
            seq = seq.wrapping_add(1);
        }
    }
    Ok(seq == FILES)
}

/// Tests that thousands of files are divided into four shares of as many files each.
#[test]
fn thousands_of_files_are_divided_into_equal_shares(rt: HostRuntime) {
    assert!(rt; matches!(again!(are_files_divided(rt.alloc())), Ok(true)));
}
