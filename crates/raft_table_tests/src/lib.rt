//! Tests of `raft_table`.
#![tactic(auto)]

#[cfg(test)]
mod calls;
#[cfg(test)]
mod counts;
#[cfg(test)]
mod key_values;
#[cfg(test)]
mod large;
#[cfg(test)]
mod queries;
#[cfg(test)]
mod random_calls;
#[cfg(test)]
mod rows;
#[cfg(test)]
mod stats;
#[cfg(test)]
mod store;
