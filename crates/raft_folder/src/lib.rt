//! The log files of an engine in a folder.
//!
//! The files are named as those of the Rust crate in `rust/`: `0000000000000001.raftlog` in the append queue,
//! `0000000000000001.rewrite` in the rewrite queue, a file `LOCK`, and `0000000000000001.raftlog.4096.cut` with what was cut
//! off a file at an offset. So each of the two opens folders of the other.
#![tactic(auto)]

mod aside;
pub mod errors;
mod folder;
pub mod folder_files;
pub mod host;
mod locking;
mod names;
pub mod read_folder;
mod writing;

pub use errors::{FolderError, FolderResult};
pub use folder::KeptTail;
pub use folder_files::{FolderFiles, FoundFolder};
pub use host::FolderHost;
pub use read_folder::{FolderFile, ReadFolder};
