//! Tests calls that are refused where tables have entries of a single queue. Each leaves all as it was.

use crate::calls::Call;
use crate::items::{Fault, Item, NEW, REWRITTEN};
use crate::rows::Row;
use raft_memtable::LogQueue;

pub(crate) const BESIDE_APPENDED: &[Row] = &[
    (
        Call::AppendWrites(&[Item::Entries(1, 10, 20, NEW)]),
        Ok(0),
        (10, 0, 0),
        (1, Some((10, 20, 10, 0))),
    ),
    (
        Call::Replay(LogQueue::Rewrite, &[Item::Entries(1, 20, 25, REWRITTEN)]),
        Err(Fault::InvalidArgument),
        (10, 0, 0),
        (1, Some((10, 20, 10, 0))),
    ),
    (
        Call::AppendWrites(&[Item::Entries(1, 20, 25, REWRITTEN)]),
        Err(Fault::Corruption),
        (10, 0, 0),
        (1, Some((10, 20, 10, 0))),
    ),
    (
        Call::AppendWrites(&[Item::Put(1, b"k", false, Some(NEW))]),
        Err(Fault::Corruption),
        (10, 0, 0),
        (1, Some((10, 20, 10, 0))),
    ),
    (
        Call::AppendWrites(&[Item::Put(1, b"k", true, None)]),
        Err(Fault::Corruption),
        (10, 0, 0),
        (1, Some((10, 20, 10, 0))),
    ),
    (
        Call::AppendWrites(&[Item::Put(1, b"k", true, Some(REWRITTEN))]),
        Err(Fault::Corruption),
        (10, 0, 0),
        (1, Some((10, 20, 10, 0))),
    ),
    (
        Call::Replay(
            LogQueue::Append,
            &[Item::Put(1, b"k", true, Some(REWRITTEN))],
        ),
        Err(Fault::Corruption),
        (10, 0, 0),
        (1, Some((10, 20, 10, 0))),
    ),
    (
        Call::RewriteWrites(&[Item::Entries(1, 20, 25, NEW)], Some(1), 50),
        Err(Fault::Corruption),
        (10, 0, 0),
        (1, Some((10, 20, 10, 0))),
    ),
    (
        Call::RewriteWrites(&[Item::Put(1, b"k", false, Some(REWRITTEN))], Some(1), 50),
        Err(Fault::Corruption),
        (10, 0, 0),
        (1, Some((10, 20, 10, 0))),
    ),
    (
        Call::MergeNewer(LogQueue::Rewrite, &[Item::Entries(1, 20, 25, REWRITTEN)]),
        Err(Fault::InvalidArgument),
        (10, 0, 0),
        (1, Some((10, 20, 10, 0))),
    ),
    (
        Call::MergeAppend(LogQueue::Append, &[Item::Entries(1, 20, 25, NEW)]),
        Err(Fault::InvalidArgument),
        (10, 0, 0),
        (1, Some((10, 20, 10, 0))),
    ),
    (
        Call::MergeAppend(LogQueue::Rewrite, &[Item::Entries(1, 20, 25, REWRITTEN)]),
        Err(Fault::InvalidArgument),
        (10, 0, 0),
        (1, Some((10, 20, 10, 0))),
    ),
];

pub(crate) const BESIDE_REWRITTEN: &[Row] = &[
    (
        Call::Replay(LogQueue::Rewrite, &[Item::Entries(1, 10, 20, REWRITTEN)]),
        Ok(0),
        (0, 10, 0),
        (1, Some((10, 20, 0, 10))),
    ),
    (
        Call::Replay(LogQueue::Append, &[Item::Entries(1, 20, 25, NEW)]),
        Err(Fault::InvalidArgument),
        (0, 10, 0),
        (1, Some((10, 20, 0, 10))),
    ),
    (
        Call::Replay(LogQueue::Rewrite, &[Item::Put(1, b"k", true, Some(NEW))]),
        Err(Fault::Corruption),
        (0, 10, 0),
        (1, Some((10, 20, 0, 10))),
    ),
    (
        Call::MergeNewer(LogQueue::Append, &[Item::Entries(1, 20, 25, NEW)]),
        Err(Fault::InvalidArgument),
        (0, 10, 0),
        (1, Some((10, 20, 0, 10))),
    ),
    (
        Call::MergeAppend(LogQueue::Rewrite, &[Item::Entries(1, 20, 25, REWRITTEN)]),
        Err(Fault::InvalidArgument),
        (0, 10, 0),
        (1, Some((10, 20, 0, 10))),
    ),
];
