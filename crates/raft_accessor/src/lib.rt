//! The tables of all regions.
#![tactic(auto)]

pub mod accessor;
mod append_check;
mod boxed_table;
pub mod item_writes;
mod known_extents;
mod neighbor;
pub mod region_tables;

pub use accessor::{MemTableAccessor, slot_of};
#[doc(hidden)]
pub use boxed_table::BoxedTable;
#[doc(hidden)]
pub use item_writes::Writing;
pub use region_tables::RegionTables;
