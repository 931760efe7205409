//! The law that what was written is what is recovered, and files in memory as segments for that.

ghost use Rattle.std.specs.Prelude.{◌≡◌, length, IfErr, IfOk};
ghost use Rattle.raft_files.specs.Disk.{files_of};
ghost use Rattle.raft_recover.specs.Files.{AreWholeFiles};
ghost use Rattle.raft_replay.specs.Segments.{SegmentsAreOf};
ghost use Rattle.raft_engine.specs.RoundTrip.{AreCutFromFiles, HasAllAppended, IsRoundTrip};

use super::Engine;
use crate::read_back::what_is_read_back_is_recovered;
use raft_base::{Error, LogQueue, Result};
use raft_files::{EngineFiles, MemoryFiles};
use raft_recover::{Segment, file_segments};

impl<F: EngineFiles> Engine<F> {
    /// States that what was written is what is recovered, as long as the append files have all that the engine has: it is
    /// intact, no append file was deleted, and rewrite files that were found held no batch, as where it was made new, or
    /// opened over append files alone. From its append files, cut into segments anyhow, `recover` gives its cleaned regions
    /// and its tables, but for the places of records that moved to the rewrite queue. If none moved, it gives the very tables,
    /// places too, and the live counts. So do `recover_both`, and an engine that is opened, if the rewrite files hold no
    /// batch. From what a crash leaves they give exactly what one reading gives of a prefix of the batches, with the synced
    /// ones at least. This is a law: it computes nothing.
    pub fn what_was_written_is_recovered(&self)
        ensures { HasAllAppended self.now → IsRoundTrip self.now }
    {
        what_is_read_back_is_recovered();
        self.accessor.counts_are_exact();
    }
}

impl Engine<MemoryFiles> {
    /// Returns the files of `queue` as segments. Each is of one part, which has a copy of all bytes of its file.
    ///
    /// # Errors
    ///
    /// `Memory` alone.
    pub fn segments(&self, queue: LogQueue) -> Result<Vec<Segment>>
        ensures whole { IfOk result (λ segments. AreWholeFiles queue self.now.version (files_of queue self.now.asks)
            segments.items) }
        ensures cut { IfOk result (λ segments. AreCutFromFiles queue self.now.version (files_of queue self.now.asks)
            segments.items) }
        ensures of_queue { IfOk result (λ segments. SegmentsAreOf queue segments.items) }
        ensures count { IfOk result (λ segments. length segments.items ≡ length (files_of queue self.now.asks)) }
        ensures memory { IfErr result (λ e. e ≡ Error.Memory) }
    {
        file_segments(queue, self.version, self.files.copies(queue)?)
    }
}
