//! Replays the segments of a queue into a machine, by one thread or by 1 to 256 workers, and merges what they
//! made.
#![tactic(auto)]

pub mod cutting;
pub mod gate;
mod piece;
pub mod pieces;
pub mod plan;
pub mod scheduled;
pub mod segment;
pub mod workers;

pub use cutting::{cut_part, parts_are_cut_where_batches_end};
pub use gate::{Gate, OpenGate};
pub use pieces::merge_pieces;
pub use plan::Plan;
pub use scheduled::{piece_count, replay_scheduled};
pub use segment::{
    Segment, replay_bytes, replay_segment, segments_hold_few_records, segments_read_as_one_history,
    written_batches_are_held,
};
pub use workers::{MAX_WORKERS, SEGMENT_LIMIT, check_arguments, replay_accepted, replay_segments};
