//! Replays files that are read in pieces. A piece ends where a batch ends, and its bytes are dropped once
//! they are replayed.
#![tactic(auto)]

pub mod file_pieces;
pub mod queue_files;
pub mod read_files;

pub use file_pieces::{PIECE, replay_file};
pub use queue_files::{FileSize, replay_files};
pub use read_files::ReadFiles;
