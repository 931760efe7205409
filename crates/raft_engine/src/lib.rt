//! An engine over the files of two queues: it writes batches, keeps the tables of them, and loses nothing that was synced.
#![tactic(auto)]

mod block_reads;
mod blocks;
#[doc(hidden)]
pub mod both;
mod both_reading;
mod damaged;
pub mod engine;
#[doc(hidden)]
pub mod found;
#[doc(hidden)]
pub mod found_queue;
mod group_batches;
mod group_moves;
mod group_puts;
#[doc(hidden)]
pub mod group_rows;
mod groups;
#[doc(hidden)]
pub mod limits;
#[doc(hidden)]
pub mod lives;
#[doc(hidden)]
pub mod missing;
#[doc(hidden)]
pub mod moments;
mod moved;
pub mod named_entries;
pub mod of_version;
mod opened;
mod parts;
mod purge;
mod put;
#[doc(hidden)]
pub mod queue_files;
mod queue_reading;
mod read_back;
mod readable_replay;
#[doc(hidden)]
pub mod reading;
mod recovered;
mod recovery_mode;
pub mod restarts;
#[doc(hidden)]
pub mod rewriting;
mod segments;
mod stored;
#[doc(hidden)]
pub mod stored_found;
mod unopened;
mod untold;

pub use engine::Engine;
pub use recovered::{CutTail, DamagedBatch, Recovered};
pub use recovery_mode::RecoveryMode;
pub use unopened::{Opened, Unopened};
