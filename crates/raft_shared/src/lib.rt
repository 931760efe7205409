//! The tables of all regions, shared by threads.
#![tactic(auto)]

pub mod shared_accessor;
pub mod slot;

pub use shared_accessor::SharedAccessor;
pub use slot::Slot;
