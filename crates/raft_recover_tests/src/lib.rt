//! Tests of `raft_recover`, and of the workers of `raft_replay`.
#![tactic(auto)]

#[cfg(test)]
mod divided;
#[cfg(test)]
mod lines;
#[cfg(test)]
mod machines;
#[cfg(test)]
mod recovery;
#[cfg(test)]
mod runs;
#[cfg(test)]
mod shares;
#[cfg(test)]
mod waits;
