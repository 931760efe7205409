//! The files of both queues, by their numbers and sizes.

ghost use Rattle.std.specs.Prelude.{◌≡◌};

use raft_base::LogQueue;
use raft_reading::FileSize;

/// The files of both queues, oldest first, each with its number and its length in bytes.
#[derive(Drop)]
pub struct BothSizes {
    /// The files of the append queue.
    pub append: Vec<FileSize>,
    /// The files of the rewrite queue.
    pub rewrite: Vec<FileSize>,
}

impl BothSizes {
    /// Returns the files of `queue`, oldest first.
    pub fn files_of(&self, queue: LogQueue) -> &[FileSize]
        ensures append { queue ≡ LogQueue.Append → result.now ≡ self.now.append.items }
        ensures rewrite { queue ≡ LogQueue.Rewrite → result.now ≡ self.now.rewrite.items }
    {
        match queue {
            LogQueue::Append => &self.append,
            LogQueue::Rewrite => &self.rewrite,
        }
    }
}
