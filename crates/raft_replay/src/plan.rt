//! Plans, which say in what order pieces are merged.

ghost use Rattle.std.specs.Prelude.{◌≡◌, ◌+◌, ◌*◌, ◌-◌, ◌^◌, ◌<◌, min, IfOk, IfErr};
ghost use Rattle.raft_replay.specs.Common.{leaves, IsByHalves, heft};

use raft_base::{Error, Result};
use std::alloc::Global;

/// In what order pieces, machines of neighbors, are merged, two neighbors at a time.
#[derive(Debug)]
pub enum Plan {
    /// One piece as it is.
    One,
    /// First the pieces of the first plan are merged, and those of the second; then the two machines.
    Join(Box<Plan>, Box<Plan>),
}

/// Frees the plan in a loop, so that little stack is needed, however deep it is.
impl Drop for Plan {
    /// Frees the plan in a loop, join by join, so that little stack is needed, however deep it is.
    fn drop(mut self) {
        loop {
            match self {
                Plan::One => return,
                Plan::Join(mut left, right) => {
                    let first = Box::replace(&mut left, Plan::One);
                    self = first.free_or_rotate(left, right);
                }
            }
        }
    }
}

impl Plan {
    /// Returns how many pieces the plan merges, at most 2^64 - 1. Plans that are still to be counted are in a
    /// list on the heap, so that little stack is needed, however deep the plan is. Only if that list can't
    /// grow is one of them counted by a recursive call.
    #[tactic(auto, using(crate::proofs::MergeLemmas::leaves_positive))]
    pub fn leaves(&self) -> usize
        ensures { result ≡ min (leaves self.now) (2 ^ 64 - 1) }
    {
        let Plan::Join(left, _) = self else {
            return 1;
        };
        let mut behind = Vec::new(*Box::allocator(left));
        let mut plan = self;
        let mut count = 0usize;
        loop {
            match plan {
                Plan::Join(left, right) => {
                    let right: &Plan = right;
                    plan = left;
                    if behind.push(right).is_err() {
                        count = count.saturating_add(right.leaves());
                    }
                }
                Plan::One => {
                    count = count.saturating_add(1);
                    let Some(next) = behind.pop() else {
                        return count;
                    };
                    plan = next;
                }
            }
        }
    }

    /// Returns what is still to be freed of a join of this plan and `right`. `room` is the box in which this
    /// plan was. If this plan is one piece, that is `right`. If it is a join, it is turned to the right: its
    /// first plan comes before the join of its second plan and `right`, which uses the box again. So each
    /// step of [`Plan::drop`] leaves less to do.
    fn free_or_rotate(self, mut room: Box<Plan>, right: Box<Plan>) -> Plan
        requires { room.value ≡ Plan.One }
        ensures { heft result < 2 * heft self + heft right.value + 1 }
    {
        match self {
            Plan::One => {
                Box::into_inner(room).free_single_piece();
                Box::into_inner(right)
            }
            Plan::Join(first, middle) => {
                Box::replace(&mut room, Plan::Join(middle, right)).free_single_piece();
                Plan::Join(first, room)
            }
        }
    }

    /// Frees a plan of one piece, which has nothing below it.
    fn free_single_piece(self)
        requires { self ≡ Plan.One }
    {
        let Plan::One = self else { unreachable!() };
    }

    /// Returns the plan that merges `count` pieces by halves: first each half, then both. `count` is at least
    /// 1.
    ///
    /// # Errors
    ///
    /// `Memory` alone.
    pub fn halves(alloc: Global, count: usize) -> Result<Plan>
        requires { 0 < count }
        ensures ok { IfOk result (λ plan. leaves plan ≡ count) }
        ensures halved { IfOk result IsByHalves }
        ensures fault { IfErr result (λ e. e ≡ Error.Memory) }
    {
        if count == 1 {
            return Ok(Plan::One);
        }
        let half = count / 2;
        let left = Plan::halves(alloc, half)?;
        let right = Plan::halves(alloc, count - half)?;
        Ok(Plan::Join(Box::new(alloc, left)?, Box::new(alloc, right)?))
    }
}
