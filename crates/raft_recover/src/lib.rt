//! Recovers tables from log files, on 1 to 256 threads. The programs that print them are here too.
#![tactic(auto)]

mod ending;
#[doc(hidden)]
pub mod file_recovery;
pub mod files;
pub(crate) mod named_files;
pub mod program;
pub mod program_in_pieces;
pub mod recovered;
pub mod recovery;
pub mod request;
pub mod scan;
pub mod scan_program;
pub mod shared_files;
pub mod shares;

#[doc(hidden)]
pub use ending::refusal;
pub use files::{file_segments, files_hold_few_records};
pub use program::{command_words, run, run_without_words};
pub use program_in_pieces::run_in_pieces;
pub use raft_accessor::MemTableAccessor;
pub use raft_base::{
    AllocResult, EntryIndex, Error, Factory, FileId, FileSeq, LogQueue, Result, Version,
};
pub use raft_contexts::{MemTableRecoverContext, MemTableRecoverContextFactory};
pub use raft_history::ReplayMachine;
pub use raft_records::{FilePart, LogBatch, LogItem};
pub use raft_replay::{
    Gate, MAX_WORKERS, OpenGate, Plan, Segment, cut_part, gate, merge_pieces,
    parts_are_cut_where_batches_end, piece_count, pieces, plan, replay_bytes, replay_scheduled,
    replay_segment, replay_segments, scheduled, segment, segments_hold_few_records,
    segments_read_as_one_history, workers, written_batches_are_held,
};
pub use raft_shared::{SharedAccessor, Slot, shared_accessor, slot};
pub use raft_table::{GlobalStats, MemTable, TableChange};
pub use raft_tickets::{TicketSeat, Tickets, ticket_seat, tickets};
#[doc(hidden)]
pub use recovered::append_table;
pub use recovered::print_recovered;
#[doc(hidden)]
pub use recovery::replay_both;
pub use recovery::{recover, recover_both, recover_bytes, recover_segments};
pub use scan::append_scan;
pub use scan_program::{run_scan, scan_without_words};
pub use shared_files::SharedFiles;
