//! The limit on how many bytes the segments of a queue have.

ghost use Rattle.std.specs.Prelude.{◌≡◌, ◌≤◌, ◌<◌, ◌+◌, ◌^◌, IfErr, MatchOption, OnOk};
ghost use Rattle.raft_replay.specs.WrittenParts.{bytes_of_parts, bytes_of_segments};

use raft_base::{Error, Result};
use raft_replay::Segment;

/// Checks that `segments` have fewer than 2^63 bytes together.
///
/// # Errors
///
/// `Full` alone, if they have as many or more.
pub fn check_few_bytes(segments: &[Segment]) -> Result<()>
    ensures ok { OnOk result (bytes_of_segments segments.now < 2 ^ 63) }
    ensures fault { IfErr result (λ e. (2 ^ 63 ≤ bytes_of_segments segments.now) × (e ≡ Error.Full)) }
{
    let mut left: u64 = (1 << 63) - 1;
    for segment in segments {
        let Some(less) = subtract_segment_bytes(segment, left) else {
            return Err(Error::Full);
        };
        left = less;
    }
    Ok(())
}

/// Returns `count` less the number of bytes that `segment` has; `None` if it has more than `count`.
fn subtract_segment_bytes(segment: &Segment, count: u64) -> Option<u64>
    ensures { MatchOption result (count < bytes_of_parts segment.now.items)
        (λ left. left + bytes_of_parts segment.now.items ≡ count) }
{
    let mut left = count;
    for part in segment {
        left = left.checked_sub(part.bytes().len() as u64)?;
    }
    Some(left)
}
