//! Rows of calls on an empty store, one after the other, with the store after each.

use crate::counts::{FULL, GROUPS, KEYS, ROOM};
use crate::store::Answer::{Corruption, Done, Dropped};
use crate::store::Call::{Append, Compact, Replay, Rewrite, Truncate};
use crate::store::{Answer, Call, Shape};
use raft_memtable::{FileSeq, LogQueue};

/// A call, what it returns, the store after it, and the blocks in which the table keeps its entries then, each given as
/// the number of its file and how many entries it has.
pub type Row = (Call, Answer, Shape, &'static [(FileSeq, usize)]);

const MAX: u64 = u64::MAX;

static ROWS: [&[Row]; 14] = [
    // Runs that are appended, in place of older entries from their start on.
    &[
        (
            Append((10, 20, 1)),
            Done,
            ((10, 20), (10, 1), (0, 0, 0)),
            &[(1, 10)],
        ),
        (
            Append((20, 30, 2)),
            Done,
            ((10, 30), (20, 1), (0, 0, 0)),
            &[(1, 10), (2, 10)],
        ),
        (
            Append((25, 35, 3)),
            Done,
            ((10, 35), (25, 1), (0, 0, 0)),
            &[(1, 10), (2, 5), (3, 10)],
        ),
        (
            Append((10, 40, 4)),
            Done,
            ((10, 40), (30, 4), (0, 0, 0)),
            &[(4, 30)],
        ),
    ],
    // Blocks that a run cuts, and a compaction and a rewriting after it.
    &[
        (
            Append((10, 20, 1)),
            Done,
            ((10, 20), (10, 1), (0, 0, 0)),
            &[(1, 10)],
        ),
        (
            Append((20, 30, 2)),
            Done,
            ((10, 30), (20, 1), (0, 0, 0)),
            &[(1, 10), (2, 10)],
        ),
        (
            Append((25, 35, 3)),
            Done,
            ((10, 35), (25, 1), (0, 0, 0)),
            &[(1, 10), (2, 5), (3, 10)],
        ),
        (
            Compact(22),
            Dropped(12),
            ((22, 35), (13, 2), (0, 0, 0)),
            &[(2, 3), (3, 10)],
        ),
        (
            Rewrite((22, 27, 50), Some(2)),
            Done,
            ((22, 35), (10, 3), (5, 2, 50)),
            &[(50, 3), (3, 10)],
        ),
    ],
    // Runs of one block of a file, which are joined.
    &[
        (
            Append((10, 12, 1)),
            Done,
            ((10, 12), (2, 1), (0, 0, 0)),
            &[(1, 2)],
        ),
        (
            Append((12, 14, 1)),
            Done,
            ((10, 14), (4, 1), (0, 0, 0)),
            &[(1, 4)],
        ),
        (
            Append((11, 13, 1)),
            Done,
            ((10, 13), (3, 1), (0, 0, 0)),
            &[(1, 3)],
        ),
    ],
    // Where a run may start, by the rule of each call.
    &[
        (
            Append((10, 20, 1)),
            Done,
            ((10, 20), (10, 1), (0, 0, 0)),
            &[(1, 10)],
        ),
        (
            Append((21, 22, 2)),
            Corruption,
            ((10, 20), (10, 1), (0, 0, 0)),
            &[(1, 10)],
        ),
        (
            Append((9, 22, 2)),
            Corruption,
            ((10, 20), (10, 1), (0, 0, 0)),
            &[(1, 10)],
        ),
        (
            Append((9, 9, 2)),
            Done,
            ((10, 20), (10, 1), (0, 0, 0)),
            &[(1, 10)],
        ),
        (
            Replay(LogQueue::Append, (21, 22, 2)),
            Corruption,
            ((10, 20), (10, 1), (0, 0, 0)),
            &[(1, 10)],
        ),
        (
            Replay(LogQueue::Append, (5, 8, 2)),
            Done,
            ((5, 8), (3, 2), (0, 0, 0)),
            &[(2, 3)],
        ),
        (Compact(9), Dropped(3), ((0, 0), (0, 0), (0, 0, 0)), &[]),
        (
            Replay(LogQueue::Rewrite, (10, 20, 3)),
            Done,
            ((10, 20), (0, 0), (10, 0, 3)),
            &[(3, 10)],
        ),
        (
            Replay(LogQueue::Rewrite, (25, 30, 4)),
            Done,
            ((25, 30), (0, 0), (15, 10, 4)),
            &[(4, 5)],
        ),
        (
            Replay(LogQueue::Rewrite, (20, 26, 5)),
            Done,
            ((20, 26), (0, 0), (21, 15, 5)),
            &[(5, 6)],
        ),
    ],
    // The greatest indexes.
    &[(
        Append((MAX - 2, MAX, 1)),
        Done,
        ((MAX - 2, MAX), (2, 1), (0, 0, 0)),
        &[(1, 2)],
    )],
    // Compactions.
    &[
        (
            Append((0, 25, 1)),
            Done,
            ((0, 25), (25, 1), (0, 0, 0)),
            &[(1, 25)],
        ),
        (
            Compact(5),
            Dropped(5),
            ((5, 25), (20, 1), (0, 0, 0)),
            &[(1, 20)],
        ),
        (
            Compact(20),
            Dropped(15),
            ((20, 25), (5, 1), (0, 0, 0)),
            &[(1, 5)],
        ),
        (Compact(20), Done, ((20, 25), (5, 1), (0, 0, 0)), &[(1, 5)]),
        (Compact(0), Done, ((20, 25), (5, 1), (0, 0, 0)), &[(1, 5)]),
    ],
    // Truncations; in their second half the entries below 10 are rewritten.
    &[
        (
            Append((0, 25, 1)),
            Done,
            ((0, 25), (25, 1), (0, 0, 0)),
            &[(1, 25)],
        ),
        (
            Truncate(20),
            Dropped(5),
            ((0, 20), (20, 1), (0, 0, 0)),
            &[(1, 20)],
        ),
        (
            Truncate(20),
            Done,
            ((0, 20), (20, 1), (0, 0, 0)),
            &[(1, 20)],
        ),
        (Truncate(0), Dropped(20), ((0, 0), (0, 0), (0, 0, 0)), &[]),
        (Truncate(0), Done, ((0, 0), (0, 0), (0, 0, 0)), &[]),
        (
            Replay(LogQueue::Rewrite, (0, 10, 50)),
            Done,
            ((0, 10), (0, 0), (10, 0, 50)),
            &[(50, 10)],
        ),
        (
            Append((10, 20, 2)),
            Done,
            ((0, 20), (10, 2), (10, 0, 50)),
            &[(50, 10), (2, 10)],
        ),
        (
            Truncate(5),
            Dropped(15),
            ((0, 5), (0, 0), (10, 5, 50)),
            &[(50, 5)],
        ),
        (
            Append((5, 8, 3)),
            Done,
            ((0, 8), (3, 3), (10, 5, 50)),
            &[(50, 5), (3, 3)],
        ),
    ],
    // A truncation inside a block, at the border of two, inside the first, and of all entries.
    &[
        (
            Append((10, 20, 1)),
            Done,
            ((10, 20), (10, 1), (0, 0, 0)),
            &[(1, 10)],
        ),
        (
            Append((20, 30, 2)),
            Done,
            ((10, 30), (20, 1), (0, 0, 0)),
            &[(1, 10), (2, 10)],
        ),
        (
            Truncate(30),
            Done,
            ((10, 30), (20, 1), (0, 0, 0)),
            &[(1, 10), (2, 10)],
        ),
        (
            Truncate(25),
            Dropped(5),
            ((10, 25), (15, 1), (0, 0, 0)),
            &[(1, 10), (2, 5)],
        ),
        (
            Truncate(20),
            Dropped(5),
            ((10, 20), (10, 1), (0, 0, 0)),
            &[(1, 10)],
        ),
        (
            Truncate(11),
            Dropped(9),
            ((10, 11), (1, 1), (0, 0, 0)),
            &[(1, 1)],
        ),
        (
            Append((11, 13, 3)),
            Done,
            ((10, 13), (3, 1), (0, 0, 0)),
            &[(1, 1), (3, 2)],
        ),
        (Truncate(10), Dropped(3), ((0, 0), (0, 0), (0, 0, 0)), &[]),
    ],
    // Rewritings that divide blocks, and those that are refused or move nothing.
    &[
        (
            Append((0, 10, 1)),
            Done,
            ((0, 10), (10, 1), (0, 0, 0)),
            &[(1, 10)],
        ),
        (
            Append((10, 20, 2)),
            Done,
            ((0, 20), (20, 1), (0, 0, 0)),
            &[(1, 10), (2, 10)],
        ),
        (
            Rewrite((0, 15, 50), Some(1)),
            Done,
            ((0, 20), (10, 2), (15, 5, 50)),
            &[(50, 10), (2, 10)],
        ),
        (
            Rewrite((5, 10, 51), None),
            Done,
            ((0, 20), (10, 2), (20, 10, 50)),
            &[(50, 5), (51, 5), (2, 10)],
        ),
        (
            Rewrite((12, 13, 52), Some(9)),
            Corruption,
            ((0, 20), (10, 2), (20, 10, 50)),
            &[(50, 5), (51, 5), (2, 10)],
        ),
        (
            Rewrite((3, 12, 52), Some(9)),
            Corruption,
            ((0, 20), (10, 2), (20, 10, 50)),
            &[(50, 5), (51, 5), (2, 10)],
        ),
        (
            Rewrite((20, 25, 53), Some(9)),
            Done,
            ((0, 20), (10, 2), (25, 15, 50)),
            &[(50, 5), (51, 5), (2, 10)],
        ),
        (
            Rewrite((10, 20, 54), Some(2)),
            Done,
            ((0, 20), (0, 0), (35, 15, 50)),
            &[(50, 5), (51, 5), (54, 10)],
        ),
        (
            Compact(12),
            Dropped(12),
            ((12, 20), (0, 0), (35, 27, 54)),
            &[(54, 8)],
        ),
    ],
    // Rewritings that end where a block ends: the first block, the next one, the last one, and two as one.
    &[
        (
            Append((0, 10, 1)),
            Done,
            ((0, 10), (10, 1), (0, 0, 0)),
            &[(1, 10)],
        ),
        (
            Append((10, 20, 2)),
            Done,
            ((0, 20), (20, 1), (0, 0, 0)),
            &[(1, 10), (2, 10)],
        ),
        (
            Append((20, 30, 3)),
            Done,
            ((0, 30), (30, 1), (0, 0, 0)),
            &[(1, 10), (2, 10), (3, 10)],
        ),
        (
            Rewrite((0, 10, 50), Some(1)),
            Done,
            ((0, 30), (20, 2), (10, 0, 50)),
            &[(50, 10), (2, 10), (3, 10)],
        ),
        (
            Rewrite((10, 20, 51), Some(3)),
            Done,
            ((0, 30), (10, 3), (20, 0, 50)),
            &[(50, 10), (51, 10), (3, 10)],
        ),
        (
            Rewrite((20, 30, 52), Some(3)),
            Done,
            ((0, 30), (0, 0), (30, 0, 50)),
            &[(50, 10), (51, 10), (52, 10)],
        ),
        (
            Rewrite((0, 20, 53), None),
            Done,
            ((0, 30), (0, 0), (50, 20, 53)),
            &[(53, 20), (52, 10)],
        ),
    ],
    KEYS,
    GROUPS,
    FULL,
    ROOM,
];

/// Returns the lists of rows, each of which begins with an empty store.
pub fn lists_of_rows() -> &'static [&'static [Row]] {
    &ROWS
}
