//! What an opening of found files returns, if it succeeds and if it fails.

use crate::engine::Engine;
use crate::recovered::{DamagedBatch, Recovered};
use raft_base::Error;
use raft_files::EngineFiles;

/// An engine that was opened over found files, with what was cut off these, and what of the last append file can't be read.
#[derive(Drop)]
pub struct Opened<F: EngineFiles> {
    /// The engine.
    pub engine: Engine<F>,
    /// What was cut off each queue.
    pub recovered: Recovered,
    /// The batches of the last append file whose entries are damaged, in order.
    pub damaged: Vec<DamagedBatch>,
}

/// Found files that weren't opened, and why. In a function that returns an `Error`, `?` turns it into its `error`, and drops
/// the files.
#[derive(Drop)]
pub struct Unopened<F: EngineFiles> {
    /// The files. What was asked of them is noted.
    pub files: F,
    /// The error for which they weren't opened.
    pub error: Error,
}

impl<F: EngineFiles + Drop> From<Unopened<F>> for Error {
    ghost use Rattle.std.specs.Prelude.{◌≡◌};

    ghost from_gives = { λ unopened e. e ≡ unopened.error };

    /// Returns the error for which the files weren't opened, and drops the files.
    fn from(unopened: Unopened<F>) -> Error {
        unopened.error
    }
}
