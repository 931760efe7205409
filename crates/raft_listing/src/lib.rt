//! Reads the batches in parts of log files, one after another: walks that show them to a visitor, scans for damage, and dumps as text.
//! Nothing here changes a file.
#![tactic(auto)]

pub mod blocks;
pub mod damage;
pub mod dump;
mod items;
pub mod missing;
pub mod scan;
pub mod selection;
pub mod shown;
pub mod text_dump;
pub mod walk;

pub use blocks::{BytesOfEntry, ReadBlock, bytes_of_entry, needed_block};
pub use damage::{Damage, DamageKind, Loss, append_reason};
pub use dump::{Dump, DumpForm};
pub use items::group_status_of;
pub use missing::missing_between;
pub use scan::FileScan;
pub use selection::Selection;
pub use shown::append_quoted_or_hex;
pub use text_dump::TextDump;
pub use walk::{PartVisitor, walk_part};
