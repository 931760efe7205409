//! What was read of the append queue, put over what was read of the rewrite queue.

ghost use Rattle.std.specs.Prelude.{◌≡◌, OnOk, IfErr};
ghost use Rattle.raft_contexts.specs.Common.{AreOverlaid, AreOfBothQueues, overlaid_with, IsMergeAppendFault, context_in, shown_with, IsOfHistory, reading_on};

use crate::file_range::FileRange;
use crate::read_state::ReadState;
use crate::region_marks::RegionMarks;
use crate::waiting_groups::WaitingGroups;
use raft_base::{Error, LogQueue, Result};

impl ReadState {
    /// Puts `append`, what was read of the append queue, over this, what was read of the rewrite queue.
    /// Region marks, and groups that aren't whole, are dropped.
    ///
    /// # Errors
    ///
    /// `InvalidArgument` if this is of the append queue, or `append` is of the rewrite queue; `Full` if both
    /// together have more than 2^64 - 1 records; `Memory`. Some of the regions may have been overlaid then.
    pub(crate) fn overlay(&mut self, append: ReadState) -> Result<()>
        requires rewritten { IsOfHistory (context_in self.old) }
        requires appended { IsOfHistory (context_in append) }
        ensures queues { OnOk result (AreOfBothQueues (context_in self.old) (context_in append)) }
        ensures tables { OnOk result (AreOverlaid (context_in append).regions
            (context_in self.old).regions.tables (context_in self.new).regions.tables) }
        ensures overlaid { OnOk result (shown_with self.new.regions.marks self.new
            ≡ overlaid_with (context_in self.old) (context_in append)
            (context_in self.new).regions.tables) }
        ensures fault { IfErr result (IsMergeAppendFault (reading_on (context_in self.old))
            (reading_on (context_in append))) }
    {
        self.check_queues(&append)?;
        self.overlay_append_tables(append)
    }

    /// Checks that this was read of the rewrite queue, and `append` of the append queue. What has read
    /// nothing is of either.
    ///
    /// # Errors
    ///
    /// `InvalidArgument` if they weren't; `Memory` if there is none for its text.
    fn check_queues(&self, append: &ReadState) -> Result<()>
        ensures queues { OnOk result (AreOfBothQueues (context_in self.now)
            (context_in append.now)) }
        ensures fault { IfErr result (IsMergeAppendFault (reading_on (context_in self.now))
            (reading_on (context_in append.now))) }
    {
        if !FileRange::is_of_queue(self.files, LogQueue::Rewrite)
            || !FileRange::is_of_queue(append.files, LogQueue::Append)
        {
            return Err(Error::invalid_argument(self.alloc, "a context of the other queue"));
        }
        Ok(())
    }

    /// Puts the tables of `append`, what was read of the append queue, over these, and drops all region marks
    /// and all groups that aren't whole.
    ///
    /// # Errors
    ///
    /// `Full` if both together have more than 2^64 - 1 records; `Memory`. Some of the regions may have been
    /// overlaid then.
    fn overlay_append_tables(&mut self, append: ReadState) -> Result<()>
        requires rewritten { IsOfHistory (context_in self.old) }
        requires appended { IsOfHistory (context_in append) }
        requires queues { AreOfBothQueues (context_in self.old) (context_in append) }
        ensures tables { OnOk result (AreOverlaid (context_in append).regions
            (context_in self.old).regions.tables (context_in self.new).regions.tables) }
        ensures overlaid { OnOk result (shown_with self.new.regions.marks self.new
            ≡ overlaid_with (context_in self.old) (context_in append)
            (context_in self.new).regions.tables) }
        ensures fault { IfErr result (IsMergeAppendFault (reading_on (context_in self.old))
            (reading_on (context_in append))) }
    {
        self.regions.overlay(append.regions)?;
        self.regions.marks = RegionMarks::new(self.alloc);
        self.groups = WaitingGroups::new(self.alloc);
        Ok(())
    }
}
