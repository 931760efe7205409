//! What the batches of a history tell of one atomic group. Its batches have markers: a `Begin` and an `End`
//! at the two ends of a *stretch*, and any number of `Middle`s between.

ghost use Rattle.std.specs.Prelude.{◌≡◌, ◌<◌, ◌^◌, length, IfOk};
ghost use Rattle.raft_contexts.specs.Common.{option_map, Ended, joined_group, whole_group, whole_of, one_marker, led_by, carried_stretch, without_marker, held_steps, front_steps, front_shown, stretch_shown, group_shown, whole_shown};

use crate::waiting_items::WaitingItems;
use raft_base::{AllocResult, FileSeq};
use raft_records::AtomicGroupStatus;
use std::alloc::Global;

/// What a history has of a group before its first `Begin`: items of a stretch that may have begun in an older
/// history.
#[doc(hidden)]
#[derive(Debug, Drop)]
pub enum GroupFront {
    /// Neither a `Begin` nor an `End` has come yet. It has the items so far.
    Open(WaitingItems),
    /// An `End` came first. It has the items up to that, and the number of the file of the `End`.
    Ended(WaitingItems, FileSeq),
    /// A `Begin` came first. It ends whatever was open before it, so older items count no more.
    Begun,
}

/// A stretch that has begun and not ended yet.
#[doc(hidden)]
#[derive(Debug, Drop)]
pub struct OpenStretch {
    /// The number of the file of its `Begin`.
    pub first_seq: FileSeq,
    /// Its items so far.
    pub items: WaitingItems,
}

/// What is known of a group.
#[doc(hidden)]
#[derive(Debug, Drop)]
pub struct WaitingGroup {
    /// What came before the first `Begin`.
    pub front: GroupFront,
    /// The last stretch, if it has begun and not ended yet.
    pub stretch: Option<OpenStretch>,
}

/// A group that is whole: `Begin` and `End` have come.
#[doc(hidden)]
#[derive(Debug, Drop)]
pub struct WholeGroup {
    /// Its items, in order.
    pub items: WaitingItems,
    /// The number of the file of its `Begin`.
    pub first_seq: FileSeq,
    /// The number of the file of its `End`.
    pub last_seq: FileSeq,
}

impl GroupFront {
    /// Returns how many items came before the first `Begin` and wait for an older one.
    fn len(&self) -> usize
        ensures { result ≡ length (front_steps (front_shown self.now)) }
    {
        match self {
            GroupFront::Open(items) => items.len(),
            GroupFront::Ended(items, _) => items.len(),
            GroupFront::Begun => 0,
        }
    }

    /// Puts `items`, which are older, before these. If a `Begin` came first they are dropped, since that
    /// `Begin` ends what was open before it.
    ///
    /// # Errors
    ///
    /// `AllocError` if there is no memory. All items are dropped then.
    fn with_older(self, mut items: WaitingItems) -> AllocResult<GroupFront>
        ensures { IfOk result (λ r. front_shown r ≡ led_by items (front_shown self)) }
    {
        match self {
            GroupFront::Open(more) => {
                items.append(more)?;
                Ok(GroupFront::Open(items))
            }
            GroupFront::Ended(more, seq) => {
                items.append(more)?;
                Ok(GroupFront::Ended(items, seq))
            }
            GroupFront::Begun => Ok(GroupFront::Begun),
        }
    }
}

impl WaitingGroup {
    /// Returns what is known of a group of which no marker was read: that it has no items yet.
    pub fn without_marker(alloc: Global) -> WaitingGroup
        ensures { group_shown result ≡ without_marker }
    {
        WaitingGroup {
            front: GroupFront::Open(WaitingItems::new(alloc)),
            stretch: None,
        }
    }

    /// Returns what one batch tells of a group: the batch has a marker of it with this `status`, has these
    /// `items`, and is in the file numbered `seq`.
    pub fn of_one_marker(
        status: AtomicGroupStatus,
        items: WaitingItems,
        seq: FileSeq,
    ) -> WaitingGroup
        ensures { group_shown result ≡ one_marker status items seq }
    {
        let (front, stretch) = match status {
            AtomicGroupStatus::Begin => {
                let first_seq = seq;
                (GroupFront::Begun, Some(OpenStretch { first_seq, items }))
            }
            AtomicGroupStatus::Middle => (GroupFront::Open(items), None),
            AtomicGroupStatus::End => (GroupFront::Ended(items, seq), None),
        };
        WaitingGroup { front, stretch }
    }

    /// Returns how many items wait: those before the first `Begin`, and those of the stretch that is open.
    pub fn len(&self) -> u128
        ensures items { result ≡ length (held_steps (group_shown self.now)) }
        ensures bound { result < 2 ^ 65 }
    {
        let behind = match &self.stretch {
            Some(open) => open.items.len(),
            None => 0,
        };
        self.front.len() as u128 + behind as u128
    }

    /// Joins `newer`, what the history that follows directly tells of the group, to this. Returns what is
    /// known from both and, if an `End` in the newer history ends a stretch that the older one began, the
    /// group that this makes whole.
    ///
    /// # Errors
    ///
    /// `AllocError` if there is no memory to append the newer items to the older ones. All that is known of
    /// the group is dropped then.
    pub fn join(self, newer: WaitingGroup) -> AllocResult<(WaitingGroup, Option<WholeGroup>)>
        ensures known { IfOk result (λ r. group_shown r.0 ≡ joined_group (group_shown self)
            (group_shown newer)) }
        ensures whole { IfOk result (λ r. option_map whole_shown r.1
            ≡ whole_group (group_shown self) (group_shown newer)) }
    {
        let (front, stretch, whole) = match (self.front, newer.front) {
            (GroupFront::Open(items), front) => (front.with_older(items)?, newer.stretch, None),
            (front, GroupFront::Open(items)) => (front, extend_stretch(self.stretch, items)?, None),
            (front, GroupFront::Ended(items, last_seq)) => {
                let whole = end_stretch(self.stretch, items, last_seq)?;
                (front, newer.stretch, whole)
            }
            (front, GroupFront::Begun) => (front, newer.stretch, None),
        };
        Ok((WaitingGroup { front, stretch }, whole))
    }
}

/// Returns `stretch` with `items` after its own. Returns `None` if no stretch is open, and drops the items: no
/// `Begin` came before them.
///
/// # Errors
///
/// `AllocError` if there is no memory. Stretch and items are dropped then.
fn extend_stretch(
    stretch: Option<OpenStretch>,
    items: WaitingItems,
) -> AllocResult<Option<OpenStretch>>
    ensures { IfOk result (λ r. stretch_shown r ≡ carried_stretch (stretch_shown stretch) items) }
{
    let Some(mut open) = stretch else {
        return Ok(None);
    };
    open.items.append(items)?;
    Ok(Some(open))
}

/// Ends `stretch` with `items`, and returns the whole group, whose `End` is in the file numbered `last_seq`.
/// Returns `None` if no stretch is open, and drops the items.
///
/// # Errors
///
/// `AllocError` if there is no memory. Stretch and items are dropped then.
fn end_stretch(
    stretch: Option<OpenStretch>,
    items: WaitingItems,
    last_seq: FileSeq,
) -> AllocResult<Option<WholeGroup>>
    ensures { IfOk result (λ r. option_map whole_shown r ≡ whole_of (stretch_shown stretch)
        (Ended items last_seq)) }
{
    let open = extend_stretch(stretch, items)?;
    Ok(open.map(|open| WholeGroup {
        items: open.items,
        first_seq: open.first_seq,
        last_seq,
    }))
}
