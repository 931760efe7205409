//! The contexts that rebuild the tables of all regions from log files.
#![tactic(auto)]

mod batch_check;
pub mod context_stage;
mod file_range;
pub mod kept;
mod marked_tables;
mod read_state;
pub mod reading;
pub mod recover_context;
pub mod region_marks;
pub mod taken_away;
pub mod waiting_group;
pub mod waiting_groups;
pub mod waiting_items;

pub use context_stage::ContextStage;
pub use kept::Kept;
pub use recover_context::{MemTableRecoverContext, MemTableRecoverContextFactory};
pub use region_marks::RegionMarks;
#[doc(hidden)]
pub use taken_away::TakenAway;
