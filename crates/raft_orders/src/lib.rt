//! The files of an engine that are kept by its caller: what the engine asks of them waits as orders, which the
//! caller carries out, and a read returns bytes that the caller has lent before.
#![tactic(auto)]

pub mod handed_files;
pub mod lent_blocks;
pub mod order;
pub mod waiting_orders;

pub use handed_files::HandedFiles;
pub use lent_blocks::LentBlocks;
pub use order::{Order, Task};
pub use waiting_orders::{NumberedOrder, WaitingOrders};
