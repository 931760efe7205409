//! Tests of `raft_memtable`.
#![tactic(auto)]

#[cfg(test)]
mod counts;
#[cfg(test)]
mod files;
#[cfg(test)]
mod groups;
#[cfg(test)]
mod large;
#[cfg(test)]
mod markers;
#[cfg(test)]
mod one_slot;
#[cfg(test)]
mod overlays;
