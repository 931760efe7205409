//! The range of the files whose batches were read.

ghost use Rattle.std.specs.Prelude.{◌≡◌, ◌↔◌, IsTrue};
ghost use Rattle.raft_contexts.specs.Common.{Suits, follows, joined_files, range_shown, ranges_shown};

use raft_base::{FileId, FileSeq, LogQueue};

/// The queue of some batches, and the numbers of the first and the last of their files.
#[derive(Clone, Copy, Debug)]
pub(crate) struct FileRange {
    queue: LogQueue,
    first_seq: FileSeq,
    last_seq: FileSeq,
}

impl FileRange {
    /// Returns the range that has `file` alone.
    pub(crate) fn of_file(file: FileId) -> FileRange
        ensures { range_shown result
            ≡ record { queue = file.queue; first_seq = file.seq; last_seq = file.seq } }
    {
        FileRange {
            queue: file.queue,
            first_seq: file.seq,
            last_seq: file.seq,
        }
    }

    /// Tests whether the files `files` are of `queue`. True for `None`, which stands for no files.
    pub(crate) fn is_of_queue(files: Option<FileRange>, queue: LogQueue) -> bool
        ensures { IsTrue result ↔ Suits queue (ranges_shown files) }
    {
        match files {
            None => true,
            Some(files) => files.queue == queue,
        }
    }

    /// Tests whether the `newer` files begin at or above the last of the `older` ones. True if there are no
    /// older or no newer ones (`None`). Two segments may share a file, so the same number is allowed.
    pub(crate) fn is_followed_by(older: Option<FileRange>, newer: Option<FileRange>) -> bool
        ensures { result ≡ follows (ranges_shown older) (ranges_shown newer) }
    {
        match (older, newer) {
            (Some(older), Some(newer)) => older.last_seq <= newer.first_seq,
            _ => true,
        }
    }

    /// Returns the range of the `older` files and of the `newer` ones, which follow them. `None` stands for
    /// no files.
    pub(crate) fn join_ranges(
        older: Option<FileRange>,
        newer: Option<FileRange>,
    ) -> Option<FileRange>
        ensures { ranges_shown result ≡ joined_files (ranges_shown older) (ranges_shown newer) }
    {
        match (older, newer) {
            (Some(older), Some(newer)) => Some(FileRange {
                queue: older.queue,
                first_seq: older.first_seq,
                last_seq: newer.last_seq,
            }),
            (Some(older), None) => Some(older),
            (None, newer) => newer,
        }
    }
}
