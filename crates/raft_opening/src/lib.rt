//! Opens an engine over files that are read in pieces: over a folder, or over any files.
#![tactic(auto)]

#[doc(hidden)]
pub mod damaged;
mod file_rest;
pub mod folder;
mod last_file;
pub mod opening;
mod path_source;
#[doc(hidden)]
pub mod piece_reading;
#[doc(hidden)]
pub mod queue_read;
#[doc(hidden)]
pub mod sized_files;
mod sized_reading;

#[doc(hidden)]
pub use file_rest::check_rest;
pub use folder::open_folder;
pub use opening::open_in_pieces;
