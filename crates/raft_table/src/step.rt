//! [`Step`]: what an item of a batch does to the table of its region.

ghost use Rattle.std.specs.Prelude.{◌≡◌, MatchBool};
ghost use Rattle.raft_table.specs.Common.{step_shown, Clean, LeavesTable};

use raft_base::{EntryIndex, FileId, FileSeq};

/// What an item of a batch does to the table of its region.
#[derive(Debug, Drop)]
pub enum Step {
    /// Puts a run of entries. A run without entries makes the table if there is none, and changes nothing
    /// else.
    Run(Vec<EntryIndex>),
    /// Drops the entries below `index`.
    Compact {
        index: u64,
    },
    /// Drops the entries at or above `index`.
    Truncate {
        index: u64,
    },
    /// Gives `key` the value `value`, which was written to the file `file_id`.
    Put {
        key: Vec<u8>,
        value: Vec<u8>,
        file_id: FileId,
    },
    /// Removes `key` with its value.
    Del {
        key: Vec<u8>,
    },
    /// Sets the first and the last file of the region's atomic group in the rewrite queue.
    AtomicGroup {
        first_seq: FileSeq,
        last_seq: FileSeq,
    },
    /// Drops the whole table.
    Clean,
}

impl Step {
    /// Tests whether the step is [`Step::Clean`], the only one that leaves its region without a table.
    pub fn is_clean(&self) -> bool
        ensures { MatchBool result (step_shown self.now ≡ Clean) (LeavesTable (step_shown
            self.now)) }
    {
        matches!(self, Step::Clean)
    }
}
