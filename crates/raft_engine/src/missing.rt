//! What is missing in found files before an engine can write to them.

ghost use Rattle.std.specs.Prelude.{◌≡◌, ◌++◌, IfErr, OnOk};
ghost use Rattle.raft_engine.specs.CutTails.{tail_of};
ghost use Rattle.raft_engine.specs.OpeningAsks.{FailsAmong, missing_asks};

use crate::limits::FIRST_SEQ;
use crate::recovered::CutTail;
use raft_base::{LogQueue, Result};
use raft_files::EngineFiles;

/// What is missing in a queue's found files before anything can be put after them.
#[derive(Drop)]
pub enum Missing {
    /// Nothing: all of the last file can be read.
    Nothing,
    /// A first file: the queue has none.
    FirstFile,
    /// The cut of this torn tail, which leaves the last file the bytes before it.
    Cut(CutTail),
}

impl Missing {
    /// Asks `files` for what is missing in `queue`: begins the first file, or cuts the last one. Asks nothing if nothing is
    /// missing.
    ///
    /// # Errors
    ///
    /// Those of `EngineFiles::rotate` and `EngineFiles::truncate`.
    pub fn ask<F: EngineFiles>(&self, files: &mut F, queue: LogQueue) -> Result<()>
        ensures ok { OnOk result (F.asked files.new ≡ missing_asks queue self.now ++ F.asked files.old) }
        ensures err { IfErr result
            (FailsAmong F.may_fail (missing_asks queue self.now) (F.asked files.old) (F.asked files.new)) }
    {
        match self {
            Missing::Nothing => Ok(()),
            Missing::FirstFile => files.rotate(queue, FIRST_SEQ),
            Missing::Cut(tail) => files.truncate(queue, tail.offset),
        }
    }

    /// Returns the torn tail whose cut is missing; `None` if nothing is missing, or a first file is.
    pub fn tail(self) -> Option<CutTail>
        ensures { result ≡ tail_of self }
    {
        match self {
            Missing::Cut(tail) => Some(tail),
            Missing::Nothing | Missing::FirstFile => None,
        }
    }
}
