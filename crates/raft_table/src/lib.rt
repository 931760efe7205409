//! The table of one region in memory: where its entries are, its key values, and how many of its records are
//! live.
#![tactic(auto)]

pub mod global_stats;
pub mod memtable;
pub mod step;

pub use global_stats::GlobalStats;
pub use memtable::{Block, DeletedKeys, Mark, MemTable, Run, TableChange, hole_error, is_run};
pub use step::Step;
