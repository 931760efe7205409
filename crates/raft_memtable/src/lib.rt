//! The tables of regions, and the contexts that rebuild them from log files: the names of `raft_table`,
//! `raft_history`, `raft_accessor` and `raft_contexts` that users need.
#![tactic(auto)]

pub use raft_accessor::{
    MemTableAccessor, RegionTables, accessor, item_writes, region_tables, slot_of,
};
pub use raft_base::{
    AllocResult, EntryIndex, Error, Factory, FileBlockHandle, FileId, FileSeq, LogQueue, Result,
};
pub use raft_contexts::{
    ContextStage, Kept, MemTableRecoverContext, MemTableRecoverContextFactory, RegionMarks,
    context_stage, kept, reading, recover_context, region_marks, waiting_group, waiting_groups,
    waiting_items,
};
pub use raft_history::{
    RegionStep, ReplayMachine, contexts, effects, histories, read_runs, region_step, regions,
    replay_machine,
};
pub use raft_records::{LogBatch, LogItem, LogItemBatch};
pub use raft_table::{
    Block, DeletedKeys, GlobalStats, Mark, MemTable, Run, Step, TableChange, global_stats, is_run,
    memtable, step,
};
