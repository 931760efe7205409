//! What the example, and the programs that crash engines, write: proposals as entries, and random changes of regions, made in a
//! batch and in plain maps.
#![tactic(auto)]

pub mod change;
pub mod dice;
pub mod proposal;
pub mod records;

pub use change::{Change, draw_entries_between};
pub use dice::Dice;
pub use proposal::{Proposal, Proposals, proposals_from};
pub use records::{Contents, Records, describe_contents, get_or_insert_records, table_entries};
