//! Recovery once more, by plain maps and filters, as its definitions say it: slow, for small inputs. It
//! shares the decoding of batches with the other crates, and nothing of their tables. Begin with
//! `recovery.rt`.
#![tactic(auto)]

pub mod batches;
pub mod files;
pub mod groups;
pub mod live;
pub mod overlay;
pub mod parts;
pub mod reading;
pub mod recovery;
pub mod region;
pub mod text;

pub use files::{file_parts, print_files_plainly};
pub use parts::read_parts;
pub use reading::Reading;
pub use recovery::{Recovered, recover_both_plainly, recover_plainly};
pub use region::{Region, Regions, Stored};
pub use text::print_plainly;
