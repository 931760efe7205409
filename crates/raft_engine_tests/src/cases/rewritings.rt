//! Histories of rewritings: what may not happen between reading records and moving them.

use crate::batches::Part::{Begin, Clean, Compact, Delete, End, Entries, Put, Truncate};
use crate::cases::{APPENDED, Case, REWRITTEN};
use crate::engine::Step;
use crate::engine::Step::{Append, ApplyGroup, Purge, Rewrite, Tell, TellCleaned};

/// Returns the histories of rewritings.
pub fn cases() -> &'static [Case] {
    &CASES
}

static CASES: [Case; 17] = [
    // Rewritten entries of which a prefix is rewritten again: the rest is lost.
    Case {
        steps: &[
            Append(1, &[Entries(1, 5)]),
            Rewrite(1, Some(1), &[Entries(1, 5)]),
            Purge(APPENDED, 1),
            Rewrite(2, None, &[Entries(1, 3)]),
        ],
        kept: "[1,5)",
        found: "[1,3)",
    },
    Case {
        steps: &[
            Append(1, &[Entries(1, 5)]),
            Rewrite(1, Some(1), &[Entries(1, 5)]),
            Purge(APPENDED, 1),
            Rewrite(2, None, &[Entries(1, 5)]),
            Purge(REWRITTEN, 1),
        ],
        kept: "[1,5)",
        found: "[1,5)",
    },
    // A gate at the file that is written to: records that were replaced there meanwhile come back.
    Case {
        steps: &[
            Append(1, &[Put("old"), Entries(6, 9)]),
            Append(1, &[Put("new"), Entries(6, 7)]),
            Rewrite(1, Some(1), &[Put("old"), Entries(6, 9)]),
            Purge(APPENDED, 1),
        ],
        kept: "[6,7)k=new",
        found: "[6,9)k=old",
    },
    Case {
        steps: &[
            Append(1, &[Put("old"), Entries(6, 9)]),
            Append(2, &[Put("new"), Entries(6, 7)]),
            Rewrite(1, Some(1), &[Put("old"), Entries(6, 9)]),
            Purge(APPENDED, 1),
        ],
        kept: "[6,7)k=new",
        found: "[6,7)k=new",
    },
    // Records that are deleted at a deletion, a Clean, a compaction or a truncation that is told between their reading and their rewriting.
    Case {
        steps: &[
            Append(1, &[Put("1")]),
            Append(2, &[Delete]),
            Tell(1, &[Delete]),
            Rewrite(1, Some(1), &[Put("1")]),
            Purge(APPENDED, 2),
        ],
        kept: "",
        found: "k=1",
    },
    Case {
        steps: &[
            Append(1, &[Put("1")]),
            Append(2, &[Delete]),
            Rewrite(1, Some(1), &[Put("1")]),
            Tell(1, &[Delete]),
            Purge(APPENDED, 2),
        ],
        kept: "",
        found: "",
    },
    Case {
        steps: &[
            Append(1, &[Entries(1, 5)]),
            Append(2, &[Clean]),
            TellCleaned(1),
            Rewrite(1, Some(1), &[Entries(1, 5)]),
            Purge(APPENDED, 2),
        ],
        kept: "",
        found: "[1,5)",
    },
    Case {
        steps: &[
            Append(1, &[Entries(1, 5)]),
            Append(2, &[Clean]),
            Rewrite(1, Some(1), &[Entries(1, 5)]),
            TellCleaned(1),
            Purge(APPENDED, 2),
        ],
        kept: "",
        found: "",
    },
    Case {
        steps: &[
            Append(1, &[Entries(1, 5)]),
            Append(2, &[Compact(3)]),
            Tell(1, &[Compact(3)]),
            Rewrite(1, Some(1), &[Entries(1, 5)]),
            Purge(APPENDED, 2),
        ],
        kept: "[3,5)",
        found: "[1,5)",
    },
    Case {
        steps: &[
            Append(1, &[Entries(1, 5)]),
            Append(2, &[Compact(3)]),
            Rewrite(1, Some(1), &[Entries(1, 5)]),
            Tell(1, &[Compact(3)]),
            Purge(APPENDED, 2),
        ],
        kept: "[3,5)",
        found: "[3,5)",
    },
    Case {
        steps: &[
            Append(1, &[Entries(1, 5)]),
            Append(2, &[Truncate(3)]),
            Tell(1, &[Truncate(3)]),
            Rewrite(1, Some(1), &[Entries(1, 5)]),
            Purge(APPENDED, 2),
        ],
        kept: "[1,3)",
        found: "[1,5)",
    },
    Case {
        steps: &[
            Append(1, &[Entries(1, 5)]),
            Append(2, &[Truncate(3)]),
            Rewrite(1, Some(1), &[Entries(1, 5)]),
            Tell(1, &[Truncate(3)]),
            Purge(APPENDED, 2),
        ],
        kept: "[1,3)",
        found: "[1,3)",
    },
    // Two rewritings of a region at once: the one that was read first is written last.
    Case {
        steps: &[
            Append(1, &[Entries(1, 3)]),
            Rewrite(1, Some(1), &[Entries(1, 3)]),
            Append(2, &[Entries(3, 5)]),
            Rewrite(1, Some(2), &[Entries(3, 5)]),
            Rewrite(2, None, &[Entries(1, 3)]),
            Purge(APPENDED, 2),
        ],
        kept: "[1,5)",
        found: "[1,3)",
    },
    Case {
        steps: &[
            Append(1, &[Entries(1, 3)]),
            Rewrite(1, Some(1), &[Entries(1, 3)]),
            Rewrite(2, None, &[Entries(1, 3)]),
            Append(2, &[Entries(3, 5)]),
            Rewrite(2, Some(2), &[Entries(3, 5)]),
            Purge(APPENDED, 2),
            Purge(REWRITTEN, 1),
        ],
        kept: "[1,5)",
        found: "[1,5)",
    },
    // Entries that are replaced once their rewriting is applied, and not before.
    Case {
        steps: &[
            Append(1, &[Entries(1, 3)]),
            Rewrite(1, Some(1), &[Entries(1, 3)]),
            Append(2, &[Entries(3, 5)]),
            Rewrite(1, Some(2), &[Entries(3, 5)]),
            Append(3, &[Entries(2, 6)]),
            Tell(1, &[Truncate(2)]),
            Purge(APPENDED, 2),
        ],
        kept: "[1,6)",
        found: "[1,6)",
    },
    Case {
        steps: &[
            Append(1, &[Entries(1, 3)]),
            Rewrite(1, Some(1), &[Entries(1, 3)]),
            Append(2, &[Entries(3, 5)]),
            Rewrite(1, Some(2), &[Entries(3, 4)]),
            Rewrite(1, Some(2), &[Entries(4, 5)]),
            Append(3, &[Entries(3, 5)]),
            Tell(1, &[Truncate(3)]),
            Purge(APPENDED, 2),
        ],
        kept: "[1,5)",
        found: "[1,5)",
    },
    Case {
        steps: &[
            Append(1, &[Entries(1, 5)]),
            Rewrite(1, Some(1), &[Entries(1, 5)]),
            Purge(APPENDED, 1),
            Rewrite(2, None, &[Begin(9), Entries(1, 3)]),
            Rewrite(2, None, &[End(9), Entries(3, 5)]),
            ApplyGroup(2, 2),
            Append(2, &[Entries(2, 6)]),
            Tell(2, &[Truncate(2)]),
            Purge(REWRITTEN, 1),
        ],
        kept: "[1,6)",
        found: "[1,6)",
    },
];

/// Returns histories whose last step is refused: entries are replaced between their reading and their rewriting.
pub fn histories_with_refused_last_step() -> &'static [&'static [Step]] {
    &REFUSED
}

static REFUSED: [&[Step]; 3] = [
    &[
        Append(1, &[Entries(1, 3)]),
        Rewrite(1, Some(1), &[Entries(1, 3)]),
        Append(2, &[Entries(3, 5)]),
        Append(3, &[Entries(2, 6)]),
        Rewrite(1, Some(2), &[Entries(3, 5)]),
    ],
    // The same run again, and the rewriting in two batches.
    &[
        Append(1, &[Entries(1, 3)]),
        Rewrite(1, Some(1), &[Entries(1, 3)]),
        Append(2, &[Entries(3, 5)]),
        Append(3, &[Entries(3, 5)]),
        Rewrite(1, Some(2), &[Entries(3, 4)]),
        Rewrite(1, Some(2), &[Entries(4, 5)]),
    ],
    // Between the Begin and the End of a group.
    &[
        Append(1, &[Entries(1, 5)]),
        Rewrite(1, Some(1), &[Entries(1, 5)]),
        Purge(APPENDED, 1),
        Rewrite(2, None, &[Begin(9), Entries(1, 3)]),
        Append(2, &[Entries(2, 6)]),
        Rewrite(2, None, &[End(9), Entries(3, 5)]),
    ],
];
