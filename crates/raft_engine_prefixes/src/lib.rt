//! Laws of an engine's files after a crash: what is left holds a prefix of the batches that were put into
//! them, and at most a torn tail. Each law is a function with an empty body, whose contract is the law.
#![tactic(auto)]

pub mod any_tails;
pub mod contents;
pub mod done;
pub mod entry_places;
pub mod prefixes;
pub mod torn_tails;
