//! A static library for programs in C and in Rust: the tables of all regions, the contexts that rebuild them, batches and
//! their items, and engines, each behind a handle.
//!
//! A handle that a call makes must be empty before, and each other one must hold a value. A call that returns a `Status` puts
//! the text of its error into `text`, as many bytes as there is room for; `text_len` says how many bytes the text has.
#![tactic(auto)]

mod batch_calls;
mod byte_calls;
mod change_calls;
mod context_calls;
mod engine_calls;
mod entries;
mod handles;
mod held_engine;
mod item_list;
mod moving_calls;
mod opening;
mod order_calls;
mod pair_calls;
mod queue_reader;
mod read_queue;
mod reader_calls;
mod status;
mod table_reads;
mod write_calls;
