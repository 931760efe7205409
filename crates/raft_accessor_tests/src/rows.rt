//! Rows of calls on an accessor, one after the other: what they return, the counts, and the tables that they leave.

use crate::calls::{Call, Change};
use crate::items::{Fault, Item, NEW, REWRITTEN};
use crate::refusals::{BESIDE_APPENDED, BESIDE_REWRITTEN};
use raft_memtable::LogQueue;

/// What a table has: its first index and the one past the last, 0 without entries, and how many records in each queue.
pub(crate) type Outline = (u64, u64, u128, u128);

/// A call; its answer; how many records are then live in the append queue, how many were written to the rewrite queue
/// and how many deleted from it; and a region with what its table has.
pub(crate) type Row = (
    Call,
    std::result::Result<u64, Fault>,
    (usize, usize, usize),
    (u64, Option<Outline>),
);

/// Lists of rows. Each begins on an accessor without tables.
static LISTS: [&[Row]; 14] = [
    // Each call counts written and deleted records of the rewrite queue apart.
    &[
        (
            Call::AppendWrites(&[Item::Entries(1, 10, 20, NEW)]),
            Ok(0),
            (10, 0, 0),
            (1, Some((10, 20, 10, 0))),
        ),
        (
            Call::AppendWrites(&[Item::Put(1, b"k", true, Some(NEW))]),
            Ok(0),
            (11, 0, 0),
            (1, Some((10, 20, 11, 0))),
        ),
        (
            Call::RewriteWrites(&[Item::Entries(1, 10, 15, REWRITTEN)], Some(1), 50),
            Ok(0),
            (6, 5, 0),
            (1, Some((10, 20, 6, 5))),
        ),
        (
            Call::RewriteWrites(&[Item::Entries(1, 10, 15, REWRITTEN)], None, 50),
            Ok(0),
            (6, 10, 5),
            (1, Some((10, 20, 6, 5))),
        ),
        (
            Call::RewriteWrites(&[Item::Entries(1, 15, 17, REWRITTEN)], None, 50),
            Ok(0),
            (6, 12, 7),
            (1, Some((10, 20, 6, 5))),
        ),
        (
            Call::RewriteWrites(&[Item::Put(1, b"k", true, Some(REWRITTEN))], None, 50),
            Ok(0),
            (6, 13, 8),
            (1, Some((10, 20, 6, 5))),
        ),
        (
            Call::RewriteWrites(&[Item::Put(1, b"k", true, Some(REWRITTEN))], Some(1), 50),
            Ok(0),
            (5, 14, 8),
            (1, Some((10, 20, 5, 6))),
        ),
        (
            Call::RewriteWrites(&[Item::Clean(1)], Some(1), 50),
            Ok(0),
            (5, 14, 8),
            (1, Some((10, 20, 5, 6))),
        ),
        (
            Call::RewriteWrites(
                &[Item::Entries(1, 15, 17, REWRITTEN), Item::Compact(1, 12)],
                Some(1),
                50,
            ),
            Err(Fault::Corruption),
            (3, 16, 8),
            (1, Some((10, 20, 3, 8))),
        ),
        (
            Call::GetOrInsert(7),
            Ok(0),
            (3, 16, 8),
            (7, Some((0, 0, 0, 0))),
        ),
        (
            Call::AtomicGroup(1),
            Ok(0),
            (3, 16, 8),
            (1, Some((10, 20, 3, 8))),
        ),
        (
            Call::Replay(LogQueue::Rewrite, &[Item::Entries(2, 1, 4, REWRITTEN)]),
            Ok(0),
            (3, 19, 8),
            (2, Some((1, 4, 0, 3))),
        ),
        (
            Call::Replay(LogQueue::Append, &[Item::Entries(3, 1, 6, NEW)]),
            Ok(0),
            (8, 19, 8),
            (3, Some((1, 6, 5, 0))),
        ),
        (
            Call::AppendWrites(&[Item::Compact(1, 12)]),
            Ok(0),
            (8, 19, 10),
            (1, Some((12, 20, 3, 6))),
        ),
        (
            Call::Replay(LogQueue::Rewrite, &[Item::Compact(2, 3)]),
            Ok(0),
            (8, 19, 12),
            (2, Some((3, 4, 0, 1))),
        ),
        (
            Call::Insert(1),
            Ok(0),
            (9, 19, 18),
            (1, Some((50, 53, 4, 0))),
        ),
        (
            Call::Replay(LogQueue::Append, &[Item::Clean(3)]),
            Ok(0),
            (4, 19, 18),
            (3, None),
        ),
        (Call::Remove(2, true), Ok(0), (4, 19, 19), (2, None)),
    ],
    // Changes of one table.
    &[
        (
            Call::Change(1, Change::Append(10, 20, NEW)),
            Ok(0),
            (10, 0, 0),
            (1, Some((10, 20, 10, 0))),
        ),
        (
            Call::Change(1, Change::Rewrite(10, 15, REWRITTEN, Some(1))),
            Ok(0),
            (5, 5, 0),
            (1, Some((10, 20, 5, 5))),
        ),
        (
            Call::Change(1, Change::Rewrite(10, 15, REWRITTEN, None)),
            Ok(0),
            (5, 10, 5),
            (1, Some((10, 20, 5, 5))),
        ),
        (
            Call::Change(1, Change::Compact(12)),
            Ok(2),
            (5, 10, 7),
            (1, Some((12, 20, 5, 3))),
        ),
        (
            Call::Change(1, Change::Append(30, 32, NEW)),
            Err(Fault::Corruption),
            (5, 10, 7),
            (1, Some((12, 20, 5, 3))),
        ),
        (
            Call::Change(1, Change::Append(20, 22, REWRITTEN)),
            Err(Fault::InvalidArgument),
            (5, 10, 7),
            (1, Some((12, 20, 5, 3))),
        ),
        (
            Call::Change(1, Change::Rewrite(16, 18, REWRITTEN, Some(1))),
            Err(Fault::Corruption),
            (5, 10, 7),
            (1, Some((12, 20, 5, 3))),
        ),
        (
            Call::Change(1, Change::Rewrite(15, 18, NEW, Some(1))),
            Err(Fault::InvalidArgument),
            (5, 10, 7),
            (1, Some((12, 20, 5, 3))),
        ),
        (
            Call::Change(1, Change::Append(14, 16, NEW)),
            Ok(0),
            (2, 10, 8),
            (1, Some((12, 16, 2, 2))),
        ),
    ],
    BESIDE_APPENDED,
    BESIDE_REWRITTEN,
    // The items in front of a hole stand, and nothing of those after it.
    &[
        (
            Call::AppendWrites(&[
                Item::Entries(1, 1, 4, NEW),
                Item::Entries(1, 6, 8, NEW),
                Item::Put(2, b"k", true, Some(NEW)),
            ]),
            Err(Fault::Corruption),
            (3, 0, 0),
            (1, Some((1, 4, 3, 0))),
        ),
        (Call::Nothing, Ok(0), (3, 0, 0), (2, None)),
    ],
    // A rewriting refuses deletions, compactions and truncations, and makes no table.
    &[
        (
            Call::RewriteWrites(&[Item::Delete(1, b"k")], Some(1), 50),
            Err(Fault::Corruption),
            (0, 0, 0),
            (1, None),
        ),
        (
            Call::RewriteWrites(&[Item::Compact(1, 7)], Some(1), 50),
            Err(Fault::Corruption),
            (0, 0, 0),
            (1, None),
        ),
        (
            Call::RewriteWrites(&[Item::Truncate(1, 7)], Some(1), 50),
            Err(Fault::Corruption),
            (0, 0, 0),
            (1, None),
        ),
    ],
    // A rewriting passes by a cleaned region, with a table or without one.
    &[
        (
            Call::AppendWrites(&[Item::Entries(1, 10, 20, NEW)]),
            Ok(0),
            (10, 0, 0),
            (1, Some((10, 20, 10, 0))),
        ),
        (
            Call::RewriteWrites(&[Item::Clean(1), Item::Clean(4)], Some(1), 50),
            Ok(0),
            (10, 0, 0),
            (1, Some((10, 20, 10, 0))),
        ),
        (Call::TakeCleaned, Ok(0), (10, 0, 0), (4, None)),
    ],
    // Truncations take entries of the append queue away, and make a table where there is none.
    &[
        (
            Call::AppendWrites(&[Item::Entries(1, 10, 20, NEW)]),
            Ok(0),
            (10, 0, 0),
            (1, Some((10, 20, 10, 0))),
        ),
        (
            Call::AppendWrites(&[Item::Truncate(1, 15), Item::Truncate(4, 3)]),
            Ok(0),
            (5, 0, 0),
            (1, Some((10, 15, 5, 0))),
        ),
        (Call::Nothing, Ok(0), (5, 0, 0), (4, Some((0, 0, 0, 0)))),
        (
            Call::Replay(LogQueue::Append, &[Item::Truncate(1, 10)]),
            Ok(0),
            (0, 0, 0),
            (1, Some((0, 0, 0, 0))),
        ),
    ],
    // Truncations that are read again take rewritten entries away.
    &[
        (
            Call::Replay(
                LogQueue::Rewrite,
                &[
                    Item::Entries(2, 1, 4, REWRITTEN),
                    Item::Put(2, b"k", true, Some(REWRITTEN)),
                ],
            ),
            Ok(0),
            (0, 4, 0),
            (2, Some((1, 4, 0, 4))),
        ),
        (
            Call::Replay(LogQueue::Rewrite, &[Item::Truncate(2, 2)]),
            Ok(0),
            (0, 4, 2),
            (2, Some((1, 2, 0, 2))),
        ),
    ],
    // Cleaned regions are listed as often as they are cleaned, and handed out once.
    &[
        (
            Call::AppendWrites(&[Item::Entries(5, 10, 20, NEW)]),
            Ok(0),
            (10, 0, 0),
            (5, Some((10, 20, 10, 0))),
        ),
        (
            Call::Replay(
                LogQueue::Append,
                &[Item::Clean(3), Item::Clean(5), Item::Clean(3)],
            ),
            Ok(0),
            (0, 0, 0),
            (5, None),
        ),
        (Call::TakeCleaned, Ok(3), (0, 0, 0), (3, None)),
        (Call::TakeCleaned, Ok(0), (0, 0, 0), (5, None)),
    ],
    // Runs of the append queue that are tried, after entries and where there are none.
    &[
        (
            Call::AppendWrites(&[Item::Entries(1, 10, 20, NEW)]),
            Ok(0),
            (10, 0, 0),
            (1, Some((10, 20, 10, 0))),
        ),
        (
            Call::TryReplay(1, 20, 25, NEW),
            Ok(20),
            (15, 0, 0),
            (1, Some((10, 25, 15, 0))),
        ),
        (
            Call::TryReplay(9, 20, 25, NEW),
            Ok(0),
            (20, 0, 0),
            (9, Some((20, 25, 5, 0))),
        ),
    ],
    // The same of the rewrite queue.
    &[
        (
            Call::Replay(
                LogQueue::Rewrite,
                &[
                    Item::Entries(2, 1, 4, REWRITTEN),
                    Item::Put(2, b"k", true, Some(REWRITTEN)),
                ],
            ),
            Ok(0),
            (0, 4, 0),
            (2, Some((1, 4, 0, 4))),
        ),
        (
            Call::TryReplay(2, 4, 9, REWRITTEN),
            Ok(4),
            (0, 9, 0),
            (2, Some((1, 9, 0, 9))),
        ),
        (
            Call::TryReplay(9, 4, 9, REWRITTEN),
            Ok(0),
            (0, 14, 0),
            (9, Some((4, 9, 0, 5))),
        ),
    ],
    // Tables of neighbors are joined region by region, unless a hole is left.
    &[
        (
            Call::Replay(
                LogQueue::Append,
                &[Item::Entries(1, 10, 20, NEW), Item::Entries(3, 1, 4, NEW)],
            ),
            Ok(0),
            (13, 0, 0),
            (1, Some((10, 20, 10, 0))),
        ),
        (
            Call::MergeNewer(
                LogQueue::Append,
                &[Item::Entries(1, 15, 18, NEW), Item::Entries(2, 5, 7, NEW)],
            ),
            Ok(0),
            (13, 0, 0),
            (1, Some((10, 18, 8, 0))),
        ),
        (Call::Nothing, Ok(0), (13, 0, 0), (2, Some((5, 7, 2, 0)))),
        (Call::Nothing, Ok(0), (13, 0, 0), (3, Some((1, 4, 3, 0)))),
        (
            Call::MergeNewer(LogQueue::Append, &[Item::Entries(1, 25, 30, NEW)]),
            Err(Fault::Corruption),
            (13, 0, 0),
            (1, Some((10, 18, 8, 0))),
        ),
    ],
    // An appended table after a hole takes the place of the rewritten one.
    &[
        (
            Call::Replay(
                LogQueue::Rewrite,
                &[
                    Item::Entries(1, 10, 20, REWRITTEN),
                    Item::Entries(2, 1, 4, REWRITTEN),
                ],
            ),
            Ok(0),
            (0, 13, 0),
            (1, Some((10, 20, 0, 10))),
        ),
        (
            Call::MergeAppend(LogQueue::Append, &[Item::Entries(1, 25, 30, NEW)]),
            Ok(0),
            (5, 13, 10),
            (1, Some((25, 30, 5, 0))),
        ),
        (Call::Nothing, Ok(0), (5, 13, 10), (2, Some((1, 4, 0, 3)))),
    ],
];

/// Returns the lists of rows, each of which begins with a new accessor.
pub(crate) fn lists_of_rows() -> &'static [&'static [Row]] {
    &LISTS
}
