//! The files of an engine: what is asked of them, and what may be left of it when the machine crashes.
//!
//! Contracts don't see the contents of files. They see a list of *asks*, what an engine asked of the files of each
//! queue, and say what a crash may leave of them (`specs/Disk.antt`).
#![tactic(auto)]

pub mod append_error;
pub mod asked;
pub mod engine_files;
pub mod found;
pub mod laws;
pub mod memory_files;

pub use append_error::AppendError;
pub use asked::Asked;
pub use engine_files::EngineFiles;
pub use found::{Found, NotesFound};
pub use memory_files::MemoryFiles;
