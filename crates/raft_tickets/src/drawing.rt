//! How seats draw numbers from one shared word, the counter, in the terms of the crate `atomic_table`: a rule
//! on the word, the operation (play) by which a seat draws, and how a seat is split and two are joined. They
//! are for proofs: at run time only the word is changed.

ghost use Rattle.std.specs.Prelude.{◌≡◌, [], ◌++◌, take, drop, replicate};
ghost use Rattle.raft_tickets.specs.Drawing.{HasDrawn, IsDrawn};

use atomic_table::{Join, Play, Shared, Split, TableRule};
use std::collections::LinkedList;

/// The numbers that seats drew, a list for each seat. It is a type for proofs alone: no value of it is made.
pub(crate) type Lists = LinkedList<LinkedList<u64>>;

/// The sizes of tickets.
#[derive(Drop)]
pub(crate) struct Sizes {
    /// The number that drawn numbers must stay below to be returned.
    pub(crate) total: u64,
    /// How many seats draw.
    pub(crate) seats: u64,
}

/// The word that seats share: the counter.
pub(crate) type Word = Shared<(), Lists, Sizes, Drawing>;

/// The rule of the counter: the numbers below it have been drawn, each once.
pub(crate) struct Drawing;

impl TableRule<(), Lists, Sizes> for Drawing {
    ghost holds = { λ sizes s. IsDrawn sizes.total sizes.seats s.words s.views };

    ghost first = { λ sizes. replicate sizes.seats [] };
}

/// The operation by which a seat draws the number that the counter has.
pub(crate) struct Draws;

impl Play<(), Lists> for Draws {
    ghost then = { λ _ me n after. HasDrawn me.0 n after.0 × (after.1 ≡ me.1) };
}

/// The split of a seat by which its first list goes to a new seat.
pub(crate) struct First;

impl Split<Lists> for First {
    ghost left = { λ view. drop 1 view };

    ghost right = { λ view. take 1 view };
}

/// The join of two seats by which the lists of both go to one.
pub(crate) struct Both;

impl Join<Lists> for Both {
    ghost both = { λ view other. view ++ other };

    ghost spent = { [] };
}
