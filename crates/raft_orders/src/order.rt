//! [`Order`]: something that is to be done to the files of a queue.

ghost use Rattle.std.specs.Prelude.{◌≡◌};
ghost use Rattle.raft_orders.specs.Orders.{length_put};

use raft_base::{FileSeq, LogQueue};

/// Something that is to be done to the files of a queue.
#[derive(Drop)]
pub struct Order {
    /// The queue whose files are meant.
    pub queue: LogQueue,
    /// What is to be done.
    pub task: Task,
}

/// What is to be done, as the call of [`EngineFiles`](raft_files::EngineFiles) that asked for it says.
#[derive(Drop)]
pub enum Task {
    /// Put these bytes at the end of the last file (`append`).
    Put(Vec<u8>),
    /// Sync the last file, and begin a new one with this number after it (`rotate`).
    Begin(FileSeq),
    /// Sync the queue, so that all that was done to it survives a crash (`sync`).
    Sync,
    /// Delete the oldest file (`delete_oldest`).
    Delete,
    /// Cut the last file to this many bytes, if it has more (`truncate`).
    Cut(u64),
}

impl Order {
    /// Returns how many bytes the order puts, or 0 if its task is another one.
    pub fn bytes_len(&self) -> usize
        ensures { result ≡ length_put self.now.task }
    {
        match &self.task {
            Task::Put(bytes) => bytes.len(),
            _ => 0,
        }
    }
}
