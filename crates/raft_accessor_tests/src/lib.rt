//! Tests of `raft_accessor` and `raft_shared`.
#![tactic(auto)]

#[cfg(test)]
mod accessor;
#[cfg(test)]
mod calls;
#[cfg(test)]
mod checks;
#[cfg(test)]
mod items;
#[cfg(test)]
mod refusals;
#[cfg(test)]
mod rows;
#[cfg(test)]
mod seen;
#[cfg(test)]
mod shared_accessor;
