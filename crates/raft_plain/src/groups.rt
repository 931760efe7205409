//! Atomic groups: the steps of their batches wait until the End of the group is read.

ghost use Rattle.std.specs.Prelude.{◌≡◌, ◌≢◌, ◌++◌, map, option_map, IfOk, IfErr, OnOk};
ghost use Rattle.std.specs.FinMap as finite;
ghost use Rattle.raft_plain.specs.Common.{nat_cmp, IsOrdered, Rewrite, HaveStatus, item_of, first_marker, marker_in, region_step_shown};
ghost use Rattle.raft_plain.specs.Groups.{StretchesGoOn, EffectsAreDefined, marked_steps, effect_after, stretches_after, marker_shown};
ghost use Rattle.raft_plain.specs.Waits.{stretch_shown, stretches_shown};

use raft_base::{AllocResult, Error, FileSeq, LogQueue, Result};
use raft_history::RegionStep;
use raft_records::{AtomicGroupStatus, LogItem};
use raft_table::Step;
use std::alloc::Global;
use std::collections::BTreeMap;

/// Steps on regions, in order.
pub type Steps = Vec<RegionStep>;

/// What was read of a group since its Begin.
#[derive(Debug, Drop)]
pub struct Stretch {
    /// The number of the file of the Begin.
    pub first_seq: FileSeq,
    /// The steps since then, with those of the batch of the Begin.
    pub steps: Steps,
}

/// The stretch of each group that has begun, and that an End would complete, by the number of the group.
pub type Stretches = BTreeMap<u64, Stretch>;

/// Returns the first group marker among `items`, those of a batch of `queue`: the number of its group, and
/// its status. Returns `None` if there is none, and always in the append queue, which ignores markers.
///
/// # Errors
///
/// `Corruption` if the status of a marker is unknown; `Memory` if there is none for the text.
pub(crate) fn find_group_marker(
    alloc: Global,
    queue: LogQueue,
    items: &[LogItem],
) -> Result<Option<(u64, AtomicGroupStatus)>>
    ensures markers { OnOk result (HaveStatus queue (map item_of items.now)) }
    ensures marker { IfOk result (λ marker. option_map marker_shown marker
        ≡ marker_in queue (map item_of items.now)) }
    ensures refused { IfErr result
        (λ e. e ≢ Error.Memory → HaveStatus queue (map item_of items.now) → ⊥) }
{
    match queue {
        LogQueue::Append => Ok(None),
        LogQueue::Rewrite => first_marker(alloc, items),
    }
}

/// Returns the group and the status of the first group marker among `items`, or `None` if there is none. The
/// other markers are parsed too.
///
/// # Errors
///
/// `Corruption` if the status of a marker is unknown; `Memory` if there is none for the text.
fn first_marker(alloc: Global, items: &[LogItem]) -> Result<Option<(u64, AtomicGroupStatus)>>
    ensures markers { OnOk result (HaveStatus Rewrite (map item_of items.now)) }
    ensures marker { IfOk result (λ marker. marker ≡ first_marker (map item_of items.now)) }
    ensures refused { IfErr result
        (λ e. e ≢ Error.Memory → HaveStatus Rewrite (map item_of items.now) → ⊥) }
{
    let mut marker = None;
    for item in items {
        let found = AtomicGroupStatus::parse(alloc, item)?;
        marker = marker.or(found);
    }
    Ok(marker)
}

/// Returns two things after a batch with this `marker` and these `steps`, in the file numbered `seq`. The
/// first is the stretches that wait, where those of `waiting` waited before. The second is the steps that
/// take effect with the batch: its own if it has no marker; those of the whole group if it has the End of one
/// that has begun; else none.
///
/// # Errors
///
/// `AllocError` if there is no memory. Stretches and steps are dropped then.
pub(crate) fn apply_marker(
    alloc: Global,
    waiting: Stretches,
    marker: Option<(u64, AtomicGroupStatus)>,
    steps: Steps,
    seq: FileSeq,
) -> AllocResult<(Stretches, Steps)>
    requires { IsOrdered nat_cmp waiting }
    ensures ordered { IfOk result (λ r. IsOrdered nat_cmp r.0) }
    ensures waiting { IfOk result (λ r. stretches_shown r.0 ≡ stretches_after
        (stretches_shown waiting) (option_map marker_shown marker)
        (map region_step_shown steps.items) seq) }
    ensures effect { IfOk result (λ r. map region_step_shown r.1.items ≡ effect_after
        (stretches_shown waiting) (option_map marker_shown marker)
        (map region_step_shown steps.items) seq) }
{
    let Some((group, status)) = marker else {
        return Ok((waiting, steps));
    };
    let (own, mut others) = take_stretch(waiting, group);
    match status {
        AtomicGroupStatus::Begin => {
            let first_seq = seq;
            others.insert(group, Stretch { first_seq, steps })?;
            Ok((others, Vec::new(alloc)))
        }
        AtomicGroupStatus::Middle => match own {
            Some(stretch) => {
                let first_seq = stretch.first_seq;
                let steps = join_steps(stretch.steps, steps)?;
                others.insert(group, Stretch { first_seq, steps })?;
                Ok((others, Vec::new(alloc)))
            }
            None => Ok((others, Vec::new(alloc))),
        },
        AtomicGroupStatus::End => match own {
            Some(stretch) => {
                let first_seq = stretch.first_seq;
                let steps = join_steps(stretch.steps, steps)?;
                let whole = append_group_marks(alloc, steps, first_seq, seq)?;
                Ok((others, whole))
            }
            None => Ok((others, Vec::new(alloc))),
        },
    }
}

/// Takes the stretch of the group numbered `group` out of `waiting`. Returns it, or `None` if the group
/// hasn't begun, and the other stretches.
fn take_stretch(mut waiting: Stretches, group: u64) -> (Option<Stretch>, Stretches)
    requires { IsOrdered nat_cmp waiting }
    ensures ordered { IsOrdered nat_cmp result.1 }
    ensures own { option_map stretch_shown result.0 ≡ finite.get (stretches_shown waiting) group }
    ensures others { stretches_shown result.1 ≡ finite.remove (stretches_shown waiting) group }
{
    let own = waiting.remove(&group);
    (own, waiting)
}

/// Returns `steps`, those of a whole group, and after them one more for each: it sets the first and the last
/// file of the group, `first_seq` and `last_seq`, for the region of that step.
///
/// # Errors
///
/// `AllocError` if there is no memory.
fn append_group_marks(
    alloc: Global,
    steps: Steps,
    first_seq: u64,
    last_seq: u64,
) -> AllocResult<Steps>
    ensures { IfOk result (λ all. map region_step_shown all.items ≡ marked_steps
        (map region_step_shown steps.items) first_seq last_seq) }
{
    let mut marks = Vec::new(alloc);
    for step in &steps {
        marks.push(RegionStep {
            region: step.region,
            step: Step::AtomicGroup {
                first_seq,
                last_seq,
            },
        })?;
    }
    join_steps(steps, marks)
}

/// Returns `steps`, and `more` after them.
///
/// # Errors
///
/// `AllocError` if there is no memory. The steps are dropped then.
pub(crate) fn join_steps(mut steps: Steps, mut more: Steps) -> AllocResult<Steps>
    ensures { IfOk result (λ all. map region_step_shown all.items
        ≡ map region_step_shown steps.items ++ map region_step_shown more.items) }
{
    steps.append(&mut more)?;
    Ok(steps)
}

/// States that what this crate keeps of groups is what the definitions say: the stretches that wait after
/// each batch, and the steps that take effect with it. This is a law: it computes nothing.
#[tactic(auto, using(crate::proofs::GroupLemmas::stretches_go_on, crate::proofs::GroupLemmas::effects_are_defined))]
pub fn stretches_are_those_of_groups()
    ensures stretches { StretchesGoOn }
    ensures effects { EffectsAreDefined }
{}
