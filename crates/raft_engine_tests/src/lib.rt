//! Tests of the rules that an engine over this layer keeps: for each rule a history that breaks it, with what that loses or
//! brings back, and one that keeps it. And tests of `Engine` over files in memory, which is written, opened again and
//! recovered.
//!
//! What tables hold is written as a text: `[1,3)k=v` are the entries with the indexes 1 and 2, and the key `k` with the value
//! `v`.
#![tactic(auto)]

#[cfg(test)]
mod again;
#[cfg(test)]
mod batches;
#[cfg(test)]
mod blocks;
#[cfg(test)]
mod calls;
#[cfg(test)]
mod cases;
#[cfg(test)]
mod engine;
#[cfg(test)]
mod found;
#[cfg(test)]
mod groups;
#[cfg(test)]
mod long;
#[cfg(test)]
mod moved_groups;
#[cfg(test)]
mod no_room;
#[cfg(test)]
mod opening;
#[cfg(test)]
mod pages;
#[cfg(test)]
mod purged;
#[cfg(test)]
mod read;
#[cfg(test)]
mod reads;
#[cfg(test)]
mod reopened;
#[cfg(test)]
mod restarts;
#[cfg(test)]
mod round_trip;
#[cfg(test)]
mod rules;
#[cfg(test)]
mod sized;
#[cfg(test)]
mod stored;
#[cfg(test)]
mod untold;
