//! Tests of `raft_base`, of what it re-exports, of `raft_size` and of `raft_files`.
#![tactic(auto)]

#[cfg(test)]
mod checksums;
#[cfg(test)]
mod entries;
#[cfg(test)]
mod errors;
#[cfg(test)]
mod files;
#[cfg(test)]
mod hashes;
#[cfg(test)]
mod numbers;
#[cfg(test)]
mod pipes;
#[cfg(test)]
mod sizes;
