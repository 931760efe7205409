//! The readable prefix of a file: its batches up to the first one that can't be read. The file is read in
//! pieces.
#![tactic(auto)]

#[doc(hidden)]
pub mod entry_blocks;
pub mod file_prefix;
#[doc(hidden)]
pub mod pieces;
#[doc(hidden)]
pub mod readable;

pub use file_prefix::{Prefix, ReplayedPrefix, read_prefix, read_rest, read_tail, replay_prefix};
