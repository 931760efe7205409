//! Every name that users import, from the crate that hands it on, with the type that it has there: a name that
//! moves or a signature that changes is refused. These names are fixed, since programs stand on them: a rename
//! elsewhere never edits a line of this crate; it is the rename that has to give way. What the names do is tested by
//! the crates of tests of each library.
#![tactic(auto)]

#[cfg(test)]
mod base;
#[cfg(test)]
mod codecs;
#[cfg(test)]
mod contexts;
#[cfg(test)]
mod definitions;
#[cfg(test)]
mod engine;
#[cfg(test)]
mod files;
#[cfg(test)]
mod folders;
#[cfg(test)]
mod items;
#[cfg(test)]
mod log_batches;
#[cfg(test)]
mod parts;
#[cfg(test)]
mod recovery;
#[cfg(test)]
mod regions;
#[cfg(test)]
mod shared;
#[cfg(test)]
mod steps;
#[cfg(test)]
mod tables;
#[cfg(test)]
mod traits;
