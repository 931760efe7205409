//! Rows of calls on an empty store that change keys and counts.

use crate::rows::Row;
use crate::store::Answer::{Corruption, Done, Dropped, Full};
use crate::store::Call::{Append, Compact, Count, Delete, Group, Put, Replay, Rewrite, RewriteKey};
use raft_memtable::LogQueue;

const MAX: u64 = u64::MAX;

/// Calls that put, rewrite and delete a key.
pub const KEYS: &[Row] = &[
    (
        Put(LogQueue::Append, 2),
        Done,
        ((0, 0), (1, 2), (0, 0, 0)),
        &[],
    ),
    (
        RewriteKey(Some(1), 50),
        Done,
        ((0, 0), (1, 2), (1, 1, 0)),
        &[],
    ),
    (
        RewriteKey(Some(2), 50),
        Done,
        ((0, 0), (0, 0), (2, 1, 50)),
        &[],
    ),
    (
        RewriteKey(None, 40),
        Corruption,
        ((0, 0), (0, 0), (2, 1, 50)),
        &[],
    ),
    (
        RewriteKey(None, 51),
        Done,
        ((0, 0), (0, 0), (3, 2, 51)),
        &[],
    ),
    (Delete, Done, ((0, 0), (0, 0), (3, 3, 0)), &[]),
    (RewriteKey(None, 52), Done, ((0, 0), (0, 0), (4, 4, 0)), &[]),
    (
        Put(LogQueue::Rewrite, 60),
        Done,
        ((0, 0), (0, 0), (5, 4, 60)),
        &[],
    ),
    (
        Put(LogQueue::Append, 3),
        Done,
        ((0, 0), (1, 3), (5, 5, 0)),
        &[],
    ),
];

/// Calls that set an atomic group, which lowers the least file.
pub const GROUPS: &[Row] = &[
    (Group(3, 7), Done, ((0, 0), (0, 0), (0, 0, 0)), &[]),
    (
        Put(LogQueue::Rewrite, 5),
        Done,
        ((0, 0), (0, 0), (1, 0, 3)),
        &[],
    ),
    (
        Put(LogQueue::Rewrite, 8),
        Done,
        ((0, 0), (0, 0), (2, 1, 8)),
        &[],
    ),
    (
        Put(LogQueue::Rewrite, 2),
        Done,
        ((0, 0), (0, 0), (3, 2, 2)),
        &[],
    ),
];

/// Calls with which a count would pass its limit.
pub const FULL: &[Row] = &[
    (
        Count(LogQueue::Append, MAX - 10),
        Done,
        ((0, 0), (MAX - 10, 0), (0, 0, 0)),
        &[],
    ),
    (
        Append((0, 10, 1)),
        Done,
        ((0, 10), (MAX, 1), (0, 0, 0)),
        &[(1, 10)],
    ),
    (
        Append((10, 11, 2)),
        Full,
        ((0, 10), (MAX, 1), (0, 0, 0)),
        &[(1, 10)],
    ),
    (
        Replay(LogQueue::Append, (9, 11, 2)),
        Full,
        ((0, 10), (MAX, 1), (0, 0, 0)),
        &[(1, 10)],
    ),
    (
        Put(LogQueue::Append, 2),
        Full,
        ((0, 10), (MAX, 1), (0, 0, 0)),
        &[(1, 10)],
    ),
    (
        Count(LogQueue::Rewrite, MAX),
        Done,
        ((0, 10), (MAX, 1), (MAX, 0, 0)),
        &[(1, 10)],
    ),
    (
        Rewrite((0, 5, 50), Some(9)),
        Full,
        ((0, 10), (MAX, 1), (MAX, 0, 0)),
        &[(1, 10)],
    ),
    (
        RewriteKey(None, 50),
        Full,
        ((0, 10), (MAX, 1), (MAX, 0, 0)),
        &[(1, 10)],
    ),
    (
        Append((3, 9, 2)),
        Done,
        ((0, 9), (MAX - 1, 1), (MAX, 0, 0)),
        &[(1, 3), (2, 6)],
    ),
];

/// Calls after which deleted records make room for as many others, once.
pub const ROOM: &[Row] = &[
    (
        Replay(LogQueue::Rewrite, (0, 10, 50)),
        Done,
        ((0, 10), (0, 0), (10, 0, 50)),
        &[(50, 10)],
    ),
    (
        Count(LogQueue::Rewrite, MAX - 10),
        Done,
        ((0, 10), (0, 0), (MAX, 0, 50)),
        &[(50, 10)],
    ),
    (
        Compact(10),
        Dropped(10),
        ((0, 0), (0, 0), (MAX, 10, 0)),
        &[],
    ),
    (
        Count(LogQueue::Rewrite, 4),
        Done,
        ((0, 0), (0, 0), (MAX - 6, 0, 0)),
        &[],
    ),
    (
        Count(LogQueue::Append, MAX),
        Done,
        ((0, 0), (MAX, 0), (MAX - 6, 0, 0)),
        &[],
    ),
    (
        Count(LogQueue::Append, 1),
        Full,
        ((0, 0), (MAX, 0), (MAX - 6, 0, 0)),
        &[],
    ),
];
