//! Tests of `raft_records`.
#![tactic(auto)]

#[cfg(test)]
mod file_parts;
#[cfg(test)]
mod item_batches;
#[cfg(test)]
mod items;
#[cfg(test)]
mod large;
#[cfg(test)]
mod log_batches;
#[cfg(test)]
mod printing;
#[cfg(test)]
mod read_batches;
#[cfg(test)]
mod refusals;
#[cfg(test)]
mod tails;
