//! Sizes in bytes as people write them in settings, such as `64MiB`.
#![tactic(auto)]

mod readable_size;
mod size_number;
mod size_text;
mod units;

pub use readable_size::{ReadableSize, size_from_value};
pub use size_text::SizeError;
pub use units::{B, GIB, KIB, MIB, PIB, TIB};
