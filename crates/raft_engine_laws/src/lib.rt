//! Laws of an engine over two queues: of what it writes, moves, deletes, and finds again after a restart, and
//! that no record is lost by it. Each law is a function with an empty body, whose contract is the law.
#![tactic(auto)]

pub mod contents;
pub mod crashes;
pub mod deletions;
pub mod groups;
pub mod kept;
pub mod moving;
pub mod openings;
pub mod records;
pub mod restarts;
pub mod telling;
pub mod writes;
