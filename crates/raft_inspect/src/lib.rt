//! Inspects the log files of an engine: checks them, finds out what an opening would do, and recovers their tables. Only a cut
//! ([`cut_as_opened`]) changes files.
#![tactic(auto)]

pub mod check;
pub mod cut;
pub mod findings;
mod json;
pub mod opening;
pub mod report;
pub mod tables;

pub use check::print_check;
pub use cut::cut_as_opened;
pub use findings::Findings;
pub use opening::{Opening, try_opening};
pub use report::print_opening;
pub use tables::read_tables;
