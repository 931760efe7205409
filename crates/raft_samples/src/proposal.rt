//! [`Proposal`]: an entry type to copy. A store's own entry types implement the same traits.

use raft_base::{Message, MessageError, MessageExt, Result};
use std::alloc::Global;

/// An entry of a log: a proposal to the replicas of a region.
#[derive(Clone, PartialEq, Drop)]
pub struct Proposal {
    /// The index of the entry in its log.
    pub index: u64,
    /// What is proposed. These are the bytes of the entry.
    pub text: Vec<u8>,
}

/// Returns proposals with the texts `texts` and consecutive indexes, the first of which is `first`.
///
/// # Errors
///
/// `Memory` alone.
pub fn proposals_from(alloc: Global, first: u64, texts: &[&str]) -> Result<Vec<Proposal>> {
    let mut proposals = Vec::new(alloc);
    for (index, text) in (first..).zip(texts) {
        let text = Vec::from_slice(alloc, text.as_bytes())?;
        proposals.push(Proposal { index, text })?;
    }
    Ok(proposals)
}

impl Message for Proposal {
    ghost bytes_of = { λ proposal. proposal.text.items };

    ghost refuses = { λ proposal code. ⊥ };

    /// Appends the text of the proposal to `buf`.
    ///
    /// # Errors
    ///
    /// `Memory` alone; a proposal never refuses. `buf` is unchanged then.
    fn write_to_vec(&self, buf: &mut Vec<u8>) -> std::result::Result<(), MessageError> {
        match buf.extend_from_slice(self.text.as_slice()) {
            Ok(()) => Ok(()),
            Err(_) => Err(MessageError::Memory),
        }
    }
}

/// The type of logs whose entries are proposals, for calls such as `LogBatch::add_entries`.
pub struct Proposals;

impl MessageExt for Proposals {
    /// The type of the entries.
    type Entry = Proposal;

    ghost index_of = { λ proposal. proposal.index };

    /// Returns the index of `proposal` in its log.
    fn index(proposal: &Proposal) -> u64 {
        proposal.index
    }
}
