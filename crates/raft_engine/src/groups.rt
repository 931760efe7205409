//! The check of the atomic groups in the files that are found.

ghost use Rattle.std.specs.Prelude.{◌≢◌, IfErr, OnOk};
ghost use Rattle.raft_replay.specs.Segments.{SegmentsHold};
ghost use Rattle.raft_engine.specs.Markers.{HaveRows, NoneIsInRows};

use crate::group_rows::{GroupRows, OUT_OF_ROW};
use raft_base::{Error, Result};
use raft_replay::{Segment, replay_segment};
use std::alloc::Global;

/// Checks that each atomic group of the batches of `segments` stands in a row: each batch that goes on with a group or ends it
/// stands directly after one that begins that group or goes on with it, in the same file.
///
/// # Errors
///
/// `InvalidArgument` if one doesn't; `Memory`; those of `replay_segment` if the segments can't be read.
pub fn check_groups(alloc: Global, segments: &[Segment]) -> Result<()>
    ensures ok { OnOk result (HaveRows (SegmentsHold segments.now)) }
    ensures fault { IfErr result
        (λ e. e ≢ Error.Memory → NoneIsInRows (SegmentsHold segments.now) e) }
{
    let mut rows = GroupRows::new();
    for segment in segments {
        replay_segment(&mut rows, segment)?;
    }
    if rows.stand() {
        return Ok(());
    }
    Err(Error::invalid_argument(alloc, OUT_OF_ROW))
}
