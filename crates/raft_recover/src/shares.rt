//! Divides segments into shares of about equal length: neighboring parts are put together, and long ones cut.

ghost use Rattle.std.specs.Prelude.{◌≡◌, ◌↔◌, ◌<◌, ◌≤◌, ◌++◌, List, IfOk, IfErr, OnOk, length};
ghost use Rattle.raft_recover.specs.Common.{LogQueue, Event, Part, AreCutInTurn, SegmentsHold, SegmentsAreOf, parts_within, AreDivided};

use raft_base::{Error, Result};
use raft_records::FilePart;
use raft_replay::{Segment, cut_part};
use std::alloc::Global;
use std::mem;

/// How many parts a long part is cut into for each share that it fills, so that shares end near where they
/// should.
const PARTS_PER_SHARE: usize = 4;

/// Divides the parts of segments into at most `count` segments, the *shares*, of about the same number of
/// bytes, `least` or more if there are as many. Neighboring parts are put together, and a part that is longer
/// than a share is cut between batches. The parts of the shares, one after another, have the bytes of those
/// of the segments, each at its offset in its file, and reading them gives the same. No byte is copied.
///
/// # Errors
///
/// `Memory` alone.
pub fn equal_shares(
    alloc: Global,
    segments: &[Segment],
    count: usize,
    least: usize,
) -> Result<Vec<Segment>>
    requires { (0 < count) × (0 < least) }
    ensures same { IfOk result (λ shares. (h : List Event) → SegmentsHold segments.entry.now h
        ↔ SegmentsHold shares.items h) }
    ensures bytes { IfOk result (λ shares. AreCutInTurn (parts_within segments.entry.now)
        (parts_within shares.items)) }
    ensures of_queue { IfOk result (λ shares. (queue : LogQueue)
        → SegmentsAreOf queue segments.entry.now ↔ SegmentsAreOf queue shares.items) }
    ensures few { IfOk result (λ shares. length shares.items ≤ count) }
    ensures memory { IfErr result (λ e. e ≡ Error.Memory) }
{
    let share = (total_bytes(segments) / count).max(least);
    group_into_shares(cut_long_parts(alloc, segments, share)?, share, count)
}

/// Returns how many bytes all parts hold, capped at 2^64 - 1.
/// The parts are those of all `segments`.
pub(crate) fn total_bytes(segments: &[Segment]) -> usize {
    let mut bytes = 0usize;
    for segment in segments {
        for part in segment {
            bytes = bytes.saturating_add(part.bytes().len());
        }
    }
    bytes
}

/// Returns the parts of all segments, in order. Those of `share` bytes or more are cut between batches.
///
/// # Errors
///
/// `Memory` alone.
fn cut_long_parts(alloc: Global, segments: &[Segment], share: usize) -> Result<Vec<FilePart>>
    requires { 0 < share }
    ensures cut { IfOk result (λ parts. AreDivided (parts_within segments.entry.now) parts.items) }
    ensures memory { IfErr result (λ e. e ≡ Error.Memory) }
{
    let mut parts = Vec::new(alloc);
    for segment in segments {
        append_cut_parts(alloc, segment, share, &mut parts)?;
    }
    Ok(parts)
}

/// Appends the parts of the segment `from` to `to`. Those of `share` bytes or more are cut between batches.
///
/// # Errors
///
/// `Memory` alone. Some parts may have been appended then.
fn append_cut_parts(
    alloc: Global,
    from: &Segment,
    share: usize,
    to: &mut Vec<FilePart>,
) -> Result<()>
    requires { 0 < share }
    ensures cut { (these : List Part) → AreDivided these to.old.items
        → OnOk result (AreDivided (these ++ from.now.items) to.new.items) }
    ensures memory { IfErr result (λ e. e ≡ Error.Memory) }
{
    for part in from {
        let count = (part.bytes().len() / share).saturating_mul(PARTS_PER_SHARE);
        to.append(&mut cut_part(alloc, part.clone()?, count)?)?;
    }
    Ok(())
}

/// Puts each part into the share in which its middle lies, where each of `count` shares has `share` bytes.
/// Returns the shares that have parts, in order, but at least one, which may be empty.
///
/// # Errors
///
/// `Memory` alone. The parts are dropped then.
fn group_into_shares(parts: Vec<FilePart>, share: usize, count: usize) -> Result<Vec<Segment>>
    requires { (0 < share) × (0 < count) }
    ensures same { IfOk result (λ shares. parts_within shares.items ≡ parts.items) }
    ensures few { IfOk result (λ shares. length shares.items ≤ count) }
    ensures memory { IfErr result (λ e. e ≡ Error.Memory) }
{
    let alloc = *parts.allocator();
    let mut shares: Vec<Segment> = Vec::new(alloc);
    let mut last: Segment = Vec::new(alloc);
    let mut current = 0usize;
    let mut before = 0usize;
    for part in parts {
        let bytes = part.bytes().len();
        let number = before.saturating_add(bytes / 2) / share;
        end_share(&mut shares, &mut last, number > current, count)?;
        current = number;
        before = before.saturating_add(bytes);
        last.push(part)?;
    }
    shares.push(last)?;
    Ok(shares)
}

/// Moves the share `last` to `shares`, and begins a new one in its place, if `ends` is set. Does nothing if
/// `last` is empty, or is the last one of `count`.
///
/// # Errors
///
/// `Memory` alone. The share is dropped then.
fn end_share(shares: &mut Vec<Segment>, last: &mut Segment, ends: bool, count: usize) -> Result<()>
    ensures same { OnOk result (parts_within shares.new.items ++ last.new.items ≡ parts_within
        shares.old.items ++ last.old.items) }
    ensures few { length shares.old.items < count → OnOk result (length shares.new.items < count) }
    ensures memory { IfErr result (λ e. e ≡ Error.Memory) }
{
    if !ends || last.is_empty() || shares.len() + 1 >= count {
        return Ok(());
    }
    let alloc = *shares.allocator();
    shares.push(mem::replace(last, Vec::new(alloc)))?;
    Ok(())
}
