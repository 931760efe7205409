//! Pieces: machines that have replayed neighboring segments.

ghost use Rattle.std.specs.Prelude.{◌≡◌, ◌≢◌, ℕ, ◌+◌, ◌<◌, ◌≤◌, List, [], length, All, IfOk, IfErr, Vec};
ghost use Rattle.raft_replay.specs.Common.{Global, Part, AreInOrder, CannotBeRead};

use crate::{Segment, replay_segment};
use raft_base::{Error, Factory, Result};
use raft_history::ReplayMachine;
use std::alloc::Global;

/// A machine that has replayed `count` neighboring segments, from the one numbered `from` on. It is in a box,
/// so that sorting pieces moves pointers alone.
#[derive(Drop)]
pub(crate) struct Piece<M> {
    /// The number of the first segment.
    from: usize,
    /// How many segments were replayed.
    count: usize,
    /// The machine that replayed them.
    machine: Box<M>,
}

impl<M: ReplayMachine> Piece<M> {
    ghost use Rattle.raft_replay.specs.Covers.{IsPieceOf, CoverOnce, covers, cover_count};

    /// Returns the piece that is to replay the segment numbered `number`: the last of `pieces`, which is
    /// taken out, if it ends right before that segment; else a new one, whose machine `factory` makes.
    ///
    /// # Errors
    ///
    /// The factory's own, and `Memory`.
    pub(crate) fn take_last_or_begin<F: Factory<M>>(
        alloc: Global,
        factory: &F,
        pieces: &mut Vec<Piece<M>>,
        number: usize,
    ) -> Result<Piece<M>>
        requires { (m : M) → F.gives factory.now m → M.stands_exactly m [] }
        ensures next { IfOk result (λ p. p.from + p.count ≡ number) }
        ensures piece { (segments : List (Vec Part Global)) → number ≤ length segments
            → All (IsPieceOf M.stands_exactly segments) pieces.old.items
            → IfOk result (λ p. IsPieceOf M.stands_exactly segments p
            × All (IsPieceOf M.stands_exactly segments) pieces.new.items) }
        ensures covered { IfOk result (λ p. (x : ℕ)
            → cover_count x pieces.new.items + covers p.from p.count x
            ≡ cover_count x pieces.old.items) }
        ensures err { IfErr result (λ e. e ≢ Error.Memory → F.may_refuse factory.entry.now e) }
    {
        let Some(last) = pieces.pop() else {
            return Piece::begin_at(alloc, factory, number);
        };
        if last.from <= number && number - last.from == last.count {
            return Ok(last);
        }
        pieces.push(last)?;
        Piece::begin_at(alloc, factory, number)
    }

    /// Returns a piece that has replayed nothing, and whose first segment will be the one numbered `from`.
    /// `factory` makes its machine.
    ///
    /// # Errors
    ///
    /// The factory's own, and `Memory`.
    fn begin_at<F: Factory<M>>(alloc: Global, factory: &F, from: usize) -> Result<Piece<M>>
        requires { (m : M) → F.gives factory.now m → M.stands_exactly m [] }
        ensures empty { IfOk result (λ p. (p.from ≡ from) × (p.count ≡ 0)) }
        ensures piece { (segments : List (Vec Part Global)) → from ≤ length segments
            → IfOk result (IsPieceOf M.stands_exactly segments) }
        ensures err { IfErr result (λ e. e ≢ Error.Memory → F.may_refuse factory.entry.now e) }
    {
        let machine = factory.new_target(alloc)?;
        let machine = Box::new(alloc, machine)?;
        Ok(Piece {
            from,
            count: 0,
            machine,
        })
    }

    /// Returns the piece after it has replayed the segment that follows its last one in `segments`.
    ///
    /// # Errors
    ///
    /// Those of [`replay_segment`]. The piece is dropped then.
    pub(crate) fn replay_next(mut self, segments: &[Segment]) -> Result<Piece<M>>
        requires inside { self.from + self.count < length segments.now }
        requires piece { IsPieceOf M.stands_exactly segments.now self }
        ensures next { IfOk result (λ p. (p.from ≡ self.from) × (p.count ≡ self.count + 1)) }
        ensures piece { IfOk result (IsPieceOf M.stands_exactly segments.entry.now) }
        ensures refused { IfErr result (λ e. e ≢ Error.Memory → CannotBeRead segments.entry.now) }
    {
        let next = self.from + self.count;
        replay_segment(&mut *self.machine, &segments[next])?;
        self.count += 1;
        Ok(self)
    }

    /// Returns the machines of `pieces`, in the order of their segments.
    ///
    /// # Errors
    ///
    /// `Memory` alone. The pieces are dropped then.
    pub(crate) fn machines_in_order(alloc: Global, mut pieces: Vec<Piece<M>>) -> Result<Vec<M>>
        ensures ok { (segments : List (Vec Part Global))
            → All (IsPieceOf M.stands_exactly segments) pieces.items
            → CoverOnce segments pieces.items
            → IfOk result (λ v. AreInOrder M.stands_exactly segments v.items) }
        ensures fault { IfErr result (λ e. e ≡ Error.Memory) }
    {
        pieces.sort_by_key(|piece| piece.from)?;
        let mut machines = Vec::with_capacity(alloc, pieces.len())?;
        for Piece { machine, .. } in pieces {
            machines.push(Box::into_inner(machine))?;
        }
        Ok(machines)
    }
}
