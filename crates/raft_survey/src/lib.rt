//! Looks through whole log files, which are read in pieces: walks, scans for damage, and dumps. Nothing here changes a file.
#![tactic(auto)]

pub mod dumps;
pub mod file_walk;
pub mod report;
pub mod scans;
pub mod sizes;

pub use dumps::print_dump;
pub use file_walk::{walk_file, walk_files};
pub use report::{append_missing_files, append_no_files, append_scan};
pub use scans::scan_file;
pub use sizes::BothSizes;
