//! Merges pieces, machines of neighboring segments, by a plan.

ghost use Rattle.std.specs.Prelude.{◌≡◌, ◌≢◌, ◌+◌, ◌*◌, ◌<◌, ◌≤◌, List, ◌∷◌, ◌++◌, length, reverse, IfOk, IfErr, OnOk, vec_len};
ghost use Rattle.raft_replay.specs.Common.{IsSync, IsInvalidArgument, IsMerged, CannotMerge, Merges, ArePlansNext, IsReached, cost, leaves, weigh};
ghost use denote.Param.Send.{IsSend};

use crate::Plan;
use raft_base::{Error, LogQueue, Result};
use raft_history::ReplayMachine;
use std::thread::{Threads, join};

/// Through how many levels of a plan the two branches of a join are merged at the same time. No plan by
/// halves has more.
pub(crate) const MAX_LEVELS: usize = 64;

/// Merges `pieces`, machines of neighbors in order, as the plan says, and returns the one machine that is
/// left. All their batches are of `queue`.
///
/// The two branches of a join are merged on two threads if both have joins of their own, through 64 levels of
/// the plan. What lies deeper is merged one after another. The caller merges a branch for which no thread can
/// be started. However deep the plan is, little stack is needed.
///
/// # Errors
///
/// `InvalidArgument` if the plan is for another number of pieces; else what a merge of two neighbors returns;
/// `Memory`. The pieces are dropped then.
pub fn merge_pieces<M: ReplayMachine, R: Threads + Sync>(
    rt: &R,
    pieces: Vec<M>,
    plan: &Plan,
    queue: LogQueue,
) -> Result<M>
    ensures ok { IfOk result (IsMerged M.stands_for M.stands_exactly pieces.items) }
    ensures accepted { OnOk result (leaves plan.entry.now ≡ length pieces.items) }
    ensures refused { leaves plan.entry.now ≡ length pieces.items
        → IfErr result (λ e. e ≢ Error.Memory → CannotMerge M.stands_for queue pieces.items) }
    ensures fault { leaves plan.entry.now ≢ length pieces.items
        → IfErr result (λ e. e ≢ Error.Memory → IsInvalidArgument e) }
{
    if plan.leaves() != pieces.len() {
        let alloc = *pieces.allocator();
        return Err(Error::invalid_argument(alloc, "the plan merges another number of pieces"));
    }
    merge_in_parallel(rt, pieces, plan, queue, MAX_LEVELS)
}

/// What waits while [`merge_one_by_one`] walks over a plan.
#[derive(Drop)]
pub(crate) enum Waiting<'a, M> {
    /// A plan whose pieces aren't merged yet.
    Unmerged(&'a Plan),
    /// The machine to which the pieces of a plan were merged. It waits for its newer neighbor.
    Merged(M),
}

/// Merges `pieces` as `plan` says, one after another, on the caller's thread. `plan` is for as many pieces.
/// What waits meanwhile is in a list on the heap, so that little stack is needed, however deep the plan is.
///
/// # Errors
///
/// What a merge of two neighbors returns; `Memory`. The pieces are dropped then.
pub(crate) fn merge_one_by_one<M: ReplayMachine>(
    mut pieces: Vec<M>,
    plan: &Plan,
    queue: LogQueue,
) -> Result<M>
    requires { leaves plan.now ≡ vec_len pieces }
    ensures { Merges M.stands_for M.stands_exactly queue pieces.items result }
{
    pieces.reverse();
    let mut waiting = Vec::new(*pieces.allocator());
    let mut merged = take_oldest_piece(plan, &mut waiting, &mut pieces)?;
    while let Some(next) = waiting.pop() {
        merged = merge_or_descend(next, merged, &mut waiting, &mut pieces, queue)?;
    }
    Ok(merged)
}

/// Takes the oldest piece of `plan`, the last of `pieces`, and returns it. For each join on the way down to
/// it, its newer plan is appended to `waiting`.
///
/// # Errors
///
/// `Memory` alone.
fn take_oldest_piece<'a, M: ReplayMachine>(
    mut plan: &'a Plan,
    waiting: &mut Vec<Waiting<'a, M>>,
    pieces: &mut Vec<M>,
) -> Result<M>
    requires { leaves plan.now ≤ vec_len pieces.old }
    ensures ok { (all : List M) → ArePlansNext M.stands_for M.stands_exactly all plan.entry.now
        (reverse waiting.old.items)
        (reverse pieces.old.items) → IfOk result (IsReached M.stands_for M.stands_exactly all
        (reverse waiting.new.items) (reverse pieces.new.items)) }
    ensures cost { OnOk result (weigh cost waiting.new.items + 2 ≡ weigh cost waiting.old.items + 2
        * leaves plan.entry.now) }
    ensures fault { IfErr result (λ e. e ≡ Error.Memory) }
{
    while let Plan::Join(left, right) = plan {
        waiting.push(Waiting::Unmerged(right))?;
        plan = left;
    }
    let Some(piece) = pieces.pop() else {
        unreachable!()
    };
    Ok(piece)
}

/// Takes one step of [`merge_one_by_one`]: `merged` is what was merged last, and `next` is what waited last.
/// If `next` is an older machine, `merged` is merged into it, and the result returned. If it is a newer plan,
/// `merged` waits, and the oldest piece of that plan is returned.
///
/// # Errors
///
/// What a merge of two neighbors returns; `Memory`.
fn merge_or_descend<'a, M: ReplayMachine>(
    next: Waiting<'a, M>,
    merged: M,
    waiting: &mut Vec<Waiting<'a, M>>,
    pieces: &mut Vec<M>,
    queue: LogQueue,
) -> Result<M>
    requires { (all : List M) × IsReached M.stands_for M.stands_exactly all
        (next ∷ reverse waiting.old.items) (reverse pieces.old.items) merged }
    ensures ok { (all : List M) → IsReached M.stands_for M.stands_exactly all
        (next.entry ∷ reverse waiting.old.items)
        (reverse pieces.old.items) merged → IfOk result (IsReached M.stands_for M.stands_exactly all
        (reverse waiting.new.items) (reverse pieces.new.items)) }
    ensures cost { OnOk result (weigh cost waiting.new.items < weigh cost waiting.old.items + cost
        next.entry) }
    ensures refused { IfErr result (λ e. e ≢ Error.Memory → (all : List M)
        → IsReached M.stands_for M.stands_exactly all (next.entry ∷ reverse waiting.old.items)
        (reverse pieces.old.items) merged
        → CannotMerge M.stands_for queue all) }
{
    match next {
        Waiting::Merged(mut older) => {
            older.merge(merged, queue)?;
            Ok(older)
        }
        Waiting::Unmerged(plan) => {
            waiting.push(Waiting::Merged(merged))?;
            take_oldest_piece(plan, waiting, pieces)
        }
    }
}

/// Merges `pieces` as `plan` says, which is for as many pieces. Through `levels` levels of the plan, the two
/// branches of a join are merged on two threads if both have joins of their own. What lies deeper is merged
/// by [`merge_one_by_one`].
///
/// # Errors
///
/// What a merge of two neighbors returns; `Memory`. The pieces are dropped then.
pub(crate) fn merge_in_parallel<M: ReplayMachine, R: Threads + Sync>(
    rt: &R,
    pieces: Vec<M>,
    plan: &Plan,
    queue: LogQueue,
    levels: usize,
) -> Result<M>
    requires { leaves plan.now ≡ vec_len pieces }
    ensures { Merges M.stands_for M.stands_exactly queue pieces.items result }
{
    match plan {
        Plan::Join(left, right) if levels > 0 => {
            let left: &Plan = left;
            let right: &Plan = right;
            let (pieces, rest) = divide_pieces(pieces, left, right)?;
            let below = levels - 1;
            let front = move || -> Result<M>
                requires { IsSync R.row × IsSend M.row × (leaves left.now ≡ vec_len pieces) }
                ensures { Merges M.stands_for M.stands_exactly queue pieces.items result }
            { merge_in_parallel(rt, pieces, left, queue, below) };
            let back = move || -> Result<M>
                requires { IsSync R.row × IsSend M.row × (leaves right.now ≡ vec_len rest) }
                ensures { Merges M.stands_for M.stands_exactly queue rest.items result }
            { merge_in_parallel(rt, rest, right, queue, below) };
            let joins = matches!(left, Plan::Join(_, _)) && matches!(right, Plan::Join(_, _));
            let (older, newer) = call_both(rt, joins, front, back);
            merge_branch_results(older, newer, queue)
        }
        _ => merge_one_by_one(pieces, plan, queue),
    }
}

/// Calls both closures and returns both answers. With `at_once` they run on two threads at the same time,
/// else one after the other.
fn call_both<R: Threads, F: FnOnce() -> A + Send, G: FnOnce() -> B, A: Send, B>(
    rt: &R,
    at_once: bool,
    first: F,
    second: G,
) -> (A, B)
    requires { F.pre first × G.pre second }
    ensures first { F.post first result.0 }
    ensures second { G.post second result.1 }
{
    if at_once {
        return join(rt, first, second);
    }
    let one = first();
    (one, second())
}

/// Divides `all`, the pieces of a join, between its two plans. Returns the first ones, as many as `left`
/// merges, and the others, which `right` merges.
///
/// # Errors
///
/// `Memory` alone.
#[tactic(auto, using(crate::proofs::MergeLemmas::leaves_positive))]
fn divide_pieces<M: ReplayMachine>(
    mut all: Vec<M>,
    left: &Plan,
    right: &Plan,
) -> Result<(Vec<M>, Vec<M>)>
    requires { leaves left.now + leaves right.now ≡ vec_len all }
    ensures ok { IfOk result (λ both. all.items ≡ both.0.items ++ both.1.items) }
    ensures lengths { IfOk result (λ both. (leaves left.entry.now ≡ vec_len both.0)
        × (leaves right.entry.now ≡ vec_len both.1)) }
    ensures some { (0 < leaves left.entry.now) × (0 < leaves right.entry.now) }
    ensures fault { IfErr result (λ e. e ≡ Error.Memory) }
{
    let rest = all.split_off(left.leaves())?;
    Ok((all, rest))
}

/// Merges `newer` into `older`, the machines that two neighboring branches of a plan returned, or their
/// errors.
///
/// # Errors
///
/// The error of the older branch; else that of the newer one; else what the merge of the two machines
/// returns.
fn merge_branch_results<M: ReplayMachine>(
    older: Result<M>,
    newer: Result<M>,
    queue: LogQueue,
) -> Result<M>
    ensures { (xs ys zs : List M) → zs ≡ xs ++ ys
        → Merges M.stands_for M.stands_exactly queue xs older
        → Merges M.stands_for M.stands_exactly queue ys newer
        → Merges M.stands_for M.stands_exactly queue zs result }
{
    let mut older = older?;
    let newer = newer?;
    older.merge(newer, queue)?;
    Ok(older)
}
