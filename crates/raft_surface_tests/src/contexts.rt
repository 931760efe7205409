//! Contexts and the laws of histories, which `raft_memtable` exports.
//!
//! Each function pins names or types: it compiles only as long as these are there as it writes them. None is called for
//! its effect, but where the test at the end says so.

use raft_memtable::contexts::{exact_contexts_are_one_reading, merges_stand_for_both};
use raft_memtable::effects::effects_are_stretches;
use raft_memtable::histories::last_words_stand;
use raft_memtable::read_runs::read_entries_are_runs;
use raft_memtable::reading::items_are_read_as_steps;
use raft_memtable::regions::regions_stand_for_steps;
use raft_memtable::{
    ContextStage, Factory, FileId, Kept, LogItemBatch, LogQueue, MemTableAccessor,
    MemTableRecoverContext, MemTableRecoverContextFactory, RegionMarks, ReplayMachine, Result,
};
use raft_records::ReadBatch;
use std::alloc::Global;

/// Compiles only as long as these have these types: `new`, `reads_on`, `replay`, `merge`, `merge_append_context`,
/// `finish` and `kept` of `MemTableRecoverContext`; `new` of `RegionMarks`.
fn contexts() {
    let _new: fn(Global) -> Result<MemTableRecoverContext> = MemTableRecoverContext::new;
    let _reads_on: fn(&MemTableRecoverContext) -> bool = MemTableRecoverContext::reads_on;
    let _replay: fn(&mut MemTableRecoverContext, LogItemBatch, FileId) -> Result<()> =
        MemTableRecoverContext::replay;
    let _merge: fn(&mut MemTableRecoverContext, MemTableRecoverContext, LogQueue) -> Result<()> =
        MemTableRecoverContext::merge;
    let _overlay: fn(&mut MemTableRecoverContext, MemTableRecoverContext) -> Result<()> =
        MemTableRecoverContext::merge_append_context;
    let _finish: fn(MemTableRecoverContext) -> Result<MemTableAccessor> =
        MemTableRecoverContext::finish;
    let _kept: fn(&MemTableRecoverContext) -> Result<Kept> = MemTableRecoverContext::kept;
    let _marks: fn(Global) -> RegionMarks = RegionMarks::new;
}

/// Compiles only as long as `ReplayMachine::replay` takes `machine`, `batch` and `file`, and returns `Result<()>`.
fn replay_of_machines<M: ReplayMachine>(
    machine: &mut M,
    batch: LogItemBatch,
    file: FileId,
) -> Result<()> {
    M::replay(machine, batch, file)
}

/// Compiles only as long as `MemTableRecoverContext::replay_read` takes `context`, `batch` and `file`, and returns
/// `Result<()>`.
fn replay_read_of_contexts(
    context: &mut MemTableRecoverContext,
    batch: &ReadBatch<'_>,
    file: FileId,
) -> Result<()> {
    MemTableRecoverContext::replay_read(context, batch, file)
}

/// Compiles only as long as `ReplayMachine::replay_read` takes `machine`, `batch` and `file`, and returns `Result<()>`.
fn replay_read_of_machines<M: ReplayMachine>(
    machine: &mut M,
    batch: &ReadBatch<'_>,
    file: FileId,
) -> Result<()> {
    M::replay_read(machine, batch, file)
}

/// Compiles only as long as `ReplayMachine::merge` takes `machine`, `rhs` and `queue`, and returns `Result<()>`.
fn merge_of_machines<M: ReplayMachine>(machine: &mut M, rhs: M, queue: LogQueue) -> Result<()> {
    M::merge(machine, rhs, queue)
}

/// Compiles only for a type that can go to another thread.
fn is_sent<T: Send>() {}

/// Compiles only if every machine that batches are replayed into can go to another thread.
fn is_sent_machine<M: ReplayMachine>() {
    is_sent::<M>();
}

/// Compiles only as long as the factory of contexts is made by `new`, and makes a context by `new_target`.
fn factories() {
    let _new: fn() -> MemTableRecoverContextFactory = MemTableRecoverContextFactory::new;
    let _new_target: fn(&MemTableRecoverContextFactory, Global) -> Result<MemTableRecoverContext> =
        <MemTableRecoverContextFactory as Factory<MemTableRecoverContext>>::new_target;
}

/// Compiles only as long as `raft_memtable` exports the laws of histories under these names.
fn laws() {
    exact_contexts_are_one_reading();
    merges_stand_for_both();
    effects_are_stretches();
    last_words_stand();
    read_entries_are_runs();
    items_are_read_as_steps();
    regions_stand_for_steps();
}

/// Returns the numbers of what a context holds, by the names of all fields.
fn numbers_of(kept: Kept) -> [u128; 6] {
    [
        kept.entries,
        kept.keys,
        kept.marks,
        kept.deleted_keys,
        kept.cleaned,
        kept.waiting_items,
    ]
}

/// Tests that the names above are exported with these types, and that what they give is as it is written here.
#[test]
fn contexts_are_handed_on(rt: HostRuntime) {
    contexts();
    is_sent_machine::<MemTableRecoverContext>();
    factories();
    laws();
    let _stage: Option<ContextStage> = None;
    let kept = Kept {
        entries: 1,
        keys: 2,
        marks: 3,
        deleted_keys: 4,
        cleaned: 5,
        waiting_items: 6,
    };
    assert!(rt; numbers_of(kept) == [1, 2, 3, 4, 5, 6]);
}
