//! Histories of log batches: what they do to the tables of all regions, and laws of reading them.
//!
//! A *history* is the batches of one queue with their files, in order. Its *effects* are the batches without
//! a group marker, and the atomic groups that are whole, each at its last batch. *One reading* of a history
//! is what all its effects give, in order, from no tables. A history is *sound* if nothing in it is refused.
//! Effects are *apart* if a group and another effect that overlaps it name no common region.
//! `docs/DEFINITIONS.md` has all words.
#![tactic(auto)]

pub mod contexts;
pub mod effects;
pub mod histories;
pub mod read_runs;
pub mod region_step;
pub mod regions;
pub mod replay_machine;

pub use region_step::RegionStep;
pub use replay_machine::ReplayMachine;
