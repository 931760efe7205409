//! How much a context holds, in numbers.

/// How much a context holds. `specs/Kept.antt` of `raft_history` says what each number is for a history,
/// `specs/KeptShown.antt` what it is for a context.
#[derive(Clone, Copy, PartialEq, Eq, Debug)]
pub struct Kept {
    /// Entries in all tables.
    pub entries: u128,
    /// Key values in all tables.
    pub keys: u128,
    /// How many regions have a region mark, plus how many groups have a group marker.
    pub marks: u128,
    /// Deleted keys that the region marks remember.
    pub deleted_keys: u128,
    /// How many regions the list of cleaned ones has; a region may be there twice.
    pub cleaned: u128,
    /// Items of groups that aren't whole yet.
    pub waiting_items: u128,
}
