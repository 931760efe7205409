//! Histories of both queues, and their batches as segments.

use crate::calls::Call;
use crate::steps::{Step, sealed_batch};
use AtomicGroupStatus::{Begin, End, Middle};
use raft_records::{
    AtomicGroupStatus, Error, FileId, FilePart, FileSeq, LogQueue, Result, Version,
};
use raft_recover::Segment;
use std::alloc::Global;

/// A batch: the number of its file and its steps. Number 0 stands for a segment without batches.
pub(crate) type Batch = (FileSeq, &'static [Step]);

/// The batches of a queue, in order.
#[derive(Clone, Copy)]
pub(crate) struct History {
    /// The queue.
    pub(crate) queue: LogQueue,
    /// Its batches.
    pub(crate) batches: &'static [Batch],
}

/// A history of two regions, with a compaction, a deleted key, and a region that is cleaned and comes again.
pub(crate) const APPENDED: History = History {
    queue: LogQueue::Append,
    batches: &[
        (1, &[Step::Run(1, 1, 5), Step::Put(2, b"k", b"v")]),
        (1, &[Step::Run(1, 5, 9)]),
        (2, &[Step::Compact(1, 3), Step::Delete(2, b"k")]),
        (2, &[Step::Run(1, 7, 8)]),
        (3, &[Step::Run(2, 100, 103), Step::Put(2, b"k", b"v")]),
        (3, &[Step::Clean(2)]),
        (4, &[Step::Run(2, 50, 52)]),
        (5, &[Step::Run(1, 8, 10), Step::Put(3, b"x", b"v")]),
    ],
};

/// A history of the rewrite queue, with a group of three batches, and two that aren't whole.
pub(crate) const REWRITTEN: History = History {
    queue: LogQueue::Rewrite,
    batches: &[
        (1, &[Step::Run(5, 1, 10)]),
        (2, &[Step::Marker(9, Begin), Step::Run(5, 1, 4)]),
        (2, &[Step::Put(6, b"k", b"v")]),
        (3, &[Step::Marker(9, Middle), Step::Run(5, 4, 8)]),
        (3, &[Step::Marker(9, End)]),
        (4, &[Step::Compact(5, 3)]),
        (5, &[Step::Marker(9, End), Step::Run(5, 1, 2)]),
        (5, &[Step::Marker(8, Begin), Step::Put(6, b"z", b"v")]),
    ],
};

/// A history of five segments: two runs, a segment without batches, a compaction of the first region, and a
/// key of a second one.
pub(crate) const FIVE: History = History {
    queue: LogQueue::Append,
    batches: &[
        (1, &[Step::Run(1, 1, 4)]),
        (2, &[Step::Run(1, 4, 6)]),
        (0, &[]),
        (3, &[Step::Compact(1, 3)]),
        (4, &[Step::Put(2, b"k", b"v")]),
    ],
};

/// A history without segments.
pub(crate) const NONE: History = History {
    queue: LogQueue::Append,
    batches: &[],
};

/// The calls of the row `contexts`.
pub(crate) static CONTEXTS: [Call; 13] = [
    Call::Merge(History {
        queue: LogQueue::Append,
        batches: &[
            (1, &[Step::Run(1, 10, 20)]),
            (2, &[Step::Run(1, 15, 18), Step::Compact(1, 18)]),
        ],
    }),
    Call::Merge(History {
        queue: LogQueue::Append,
        batches: &[
            (1, &[Step::Run(1, 10, 20)]),
            (2, &[Step::Compact(1, 20), Step::Run(1, 40, 45)]),
        ],
    }),
    Call::Merge(History {
        queue: LogQueue::Append,
        batches: &[
            (1, &[Step::Run(1, 10, 20)]),
            (2, &[Step::Run(1, 40, 45), Step::Compact(1, 40)]),
        ],
    }),
    Call::Merge(History {
        queue: LogQueue::Rewrite,
        batches: &[
            (1, &[Step::Run(1, 10, 30)]),
            (2, &[Step::Run(1, 35, 40), Step::Run(1, 20, 25)]),
        ],
    }),
    Call::Merge(History {
        queue: LogQueue::Append,
        batches: &[
            (1, &[Step::Put(1, b"k", b"v")]),
            (2, &[Step::Delete(1, b"k"), Step::Put(1, b"k", b"v")]),
        ],
    }),
    Call::Merge(History {
        queue: LogQueue::Append,
        batches: &[(1, &[Step::Clean(1)]), (0, &[])],
    }),
    Call::Merge(History {
        queue: LogQueue::Rewrite,
        batches: &[
            (1, &[Step::Marker(9, Begin), Step::Run(5, 1, 4)]),
            (2, &[Step::Marker(9, Middle), Step::Put(6, b"k", b"v")]),
            (3, &[Step::Marker(9, End)]),
        ],
    }),
    Call::Merge(History {
        queue: LogQueue::Rewrite,
        batches: &[
            (1, &[Step::Marker(9, Begin), Step::Run(5, 1, 4)]),
            (2, &[Step::Marker(9, Middle), Step::Put(6, b"k", b"v")]),
        ],
    }),
    Call::Merge(History {
        queue: LogQueue::Rewrite,
        batches: &[
            (1, &[Step::Marker(9, Begin), Step::Put(5, b"a", b"v")]),
            (2, &[Step::Marker(9, End), Step::Put(5, b"b", b"v")]),
            (3, &[Step::Marker(9, Middle), Step::Put(5, b"c", b"v")]),
            (4, &[Step::Marker(9, End), Step::Put(5, b"d", b"v")]),
        ],
    }),
    Call::Merge(History {
        queue: LogQueue::Rewrite,
        batches: &[
            (1, &[Step::Marker(9, Begin), Step::Put(6, b"a", b"v")]),
            (2, &[Step::Put(7, b"x", b"v")]),
            (2, &[Step::Marker(9, End), Step::Put(6, b"b", b"v")]),
            (3, &[Step::Marker(9, Begin), Step::Put(6, b"c", b"v")]),
        ],
    }),
    Call::Merge(FIVE),
    Call::Merge(History {
        queue: LogQueue::Append,
        batches: &[
            (1, &[Step::Run(1, 10, 20)]),
            (1, &[Step::Truncate(1, 15)]),
            (2, &[Step::Run(1, 15, 18)]),
        ],
    }),
    Call::Merge(History {
        queue: LogQueue::Append,
        batches: &[
            (1, &[Step::Run(1, 10, 20), Step::Compact(1, 20)]),
            (
                2,
                &[
                    Step::Run(1, 20, 30),
                    Step::Truncate(1, 20),
                    Step::Run(1, 25, 30),
                ],
            ),
        ],
    }),
];

/// The calls of the row `long-contexts`, with two longer histories.
pub(crate) static LONG_CONTEXTS: [Call; 2] = [Call::Merge(APPENDED), Call::Merge(REWRITTEN)];

/// The calls of the row `overlays`.
pub(crate) static OVERLAYS: [Call; 5] = [
    Call::Overlay(
        &[(1, &[Step::Run(1, 10, 20), Step::Put(1, b"j", b"v")])],
        &[
            (1, &[Step::Run(1, 30, 40)]),
            (2, &[Step::Run(1, 20, 25), Step::Put(1, b"k", b"v")]),
        ],
    ),
    Call::Overlay(
        &[(1, &[Step::Run(1, 10, 15)])],
        &[(1, &[Step::Run(1, 20, 30)])],
    ),
    Call::Overlay(
        &[(1, &[Step::Run(1, 10, 20)])],
        &[(1, &[Step::Clean(1), Step::Run(1, 30, 35)])],
    ),
    Call::Overlay(
        &[(1, &[Step::Run(1, 10, 20)])],
        &[(
            1,
            &[
                Step::Run(1, 20, 30),
                Step::Truncate(1, 20),
                Step::Run(1, 25, 30),
            ],
        )],
    ),
    Call::Overlay(
        &[(1, &[Step::Run(1, 10, 20)])],
        &[(1, &[Step::Truncate(1, 15)])],
    ),
];

/// The calls of the row `kept`: a context of 20 batches that put one key, and one with groups that aren't
/// whole.
pub(crate) static KEPT: [Call; 2] = [Call::CountPuts, Call::Count(REWRITTEN)];

/// Returns a segment for each of `batches`, with one part that has the batch alone. A batch with the file
/// number 0 stands for a segment without parts.
///
/// # Errors
///
/// Those of [`part_with_batch`]; `Memory`.
pub(crate) fn batch_segments(
    alloc: Global,
    queue: LogQueue,
    batches: &[Batch],
) -> Result<Vec<Segment>> {
    let mut segments = Vec::new(alloc);
    let mut offset = 0u64;
    for &(seq, steps) in batches {
        let mut segment = Vec::new(alloc);
        if seq != 0 {
            segment.push(part_with_batch(alloc, FileId::new(queue, seq), offset, steps)?)?;
        }
        segments.push(segment)?;
        offset = offset.saturating_add(1000);
    }
    Ok(segments)
}

/// Returns a part of `file`, from `offset` on, with the bytes of one batch of `steps`.
///
/// # Errors
///
/// Those of [`sealed_batch`]; `InvalidArgument` if the bytes would end after offset 2^64 - 1; `Memory`.
pub(crate) fn part_with_batch(
    alloc: Global,
    file: FileId,
    offset: u64,
    steps: &[Step],
) -> Result<FilePart> {
    let batch = sealed_batch(alloc, file, steps)?;
    if !batch.is_sealed() {
        return Err(Error::Failed);
    }
    let bytes = Vec::from_slice(alloc, batch.encoded_bytes())?;
    FilePart::new(file, Version::V1, offset, bytes)
}
