//! Histories of atomic groups.

use crate::batches::Part::{Begin, Clean, Compact, End, Entries, Put};
use crate::cases::{APPENDED, Case, REWRITTEN};
use crate::engine::Step;
use crate::engine::Step::{Append, ApplyGroup, Purge, Read, Rewrite, Tell, TellCleaned};

/// Returns the histories of atomic groups.
pub fn cases() -> &'static [Case] {
    &CASES
}

static CASES: [Case; 15] = [
    // A group that is open when the append file goes, and one that is whole.
    Case {
        steps: &[
            Append(1, &[Entries(1, 5)]),
            Rewrite(1, Some(1), &[Begin(9), Entries(1, 5)]),
            Purge(APPENDED, 1),
        ],
        kept: "[1,5)",
        found: "",
    },
    Case {
        steps: &[
            Append(1, &[Entries(1, 5)]),
            Rewrite(1, Some(1), &[Begin(9), Entries(1, 3)]),
            Rewrite(1, Some(1), &[End(9), Entries(3, 5)]),
            ApplyGroup(1, 1),
            Purge(APPENDED, 1),
        ],
        kept: "[1,5)",
        found: "[1,5)",
    },
    // A group of which the table isn't told: the file of its Begin goes, and with it the group.
    Case {
        steps: &[
            Append(1, &[Entries(1, 5)]),
            Rewrite(1, Some(1), &[Begin(9), Entries(1, 3)]),
            Rewrite(2, Some(1), &[End(9), Entries(3, 5)]),
            Append(2, &[Compact(3)]),
            Tell(2, &[Compact(3)]),
            Purge(APPENDED, 2),
            Purge(REWRITTEN, 1),
        ],
        kept: "[3,5)",
        found: "",
    },
    Case {
        steps: &[
            Append(1, &[Entries(1, 5)]),
            Rewrite(1, Some(1), &[Begin(9), Entries(1, 3)]),
            Rewrite(2, Some(1), &[End(9), Entries(3, 5)]),
            ApplyGroup(1, 2),
            Append(2, &[Compact(3)]),
            Tell(2, &[Compact(3)]),
            Purge(APPENDED, 2),
            Purge(REWRITTEN, 1),
        ],
        kept: "[3,5)",
        found: "[3,5)",
    },
    // A second group while a record is left in the first: the table remembers the second alone.
    Case {
        steps: &[
            Append(1, &[Entries(1, 3), Put("v")]),
            Rewrite(1, Some(1), &[Begin(8), Entries(1, 3)]),
            Rewrite(2, Some(1), &[End(8), Put("v")]),
            ApplyGroup(1, 2),
            Append(2, &[Entries(3, 5)]),
            Rewrite(3, Some(2), &[Begin(9), Entries(3, 4)]),
            Rewrite(3, Some(2), &[End(9), Entries(4, 5)]),
            ApplyGroup(3, 3),
            Append(3, &[Compact(3)]),
            Tell(3, &[Compact(3)]),
            Purge(APPENDED, 3),
            Purge(REWRITTEN, 1),
        ],
        kept: "[3,5)k=v",
        found: "[3,5)",
    },
    Case {
        steps: &[
            Append(1, &[Entries(1, 3), Put("v")]),
            Rewrite(1, Some(1), &[Begin(8), Entries(1, 3)]),
            Rewrite(2, Some(1), &[End(8), Put("v")]),
            ApplyGroup(1, 2),
            Append(2, &[Entries(3, 5)]),
            Rewrite(3, Some(2), &[Entries(3, 5)]),
            Append(3, &[Compact(3)]),
            Tell(3, &[Compact(3)]),
            Purge(APPENDED, 3),
            Purge(REWRITTEN, 1),
        ],
        kept: "[3,5)k=v",
        found: "[3,5)k=v",
    },
    // A Clean that is told while a group of its region is open.
    Case {
        steps: &[
            Append(1, &[Entries(1, 5)]),
            Rewrite(1, Some(1), &[Entries(1, 5)]),
            Purge(APPENDED, 1),
            Rewrite(2, None, &[Begin(9), Entries(1, 5)]),
            Append(2, &[Clean]),
            TellCleaned(2),
            Rewrite(2, None, &[End(9)]),
            Purge(APPENDED, 2),
        ],
        kept: "",
        found: "[1,5)",
    },
    Case {
        steps: &[
            Append(1, &[Entries(1, 5)]),
            Rewrite(1, Some(1), &[Entries(1, 5)]),
            Purge(APPENDED, 1),
            Rewrite(2, None, &[Begin(9), Entries(1, 5)]),
            Append(2, &[Clean]),
            Rewrite(2, None, &[End(9)]),
            TellCleaned(2),
            Purge(APPENDED, 2),
        ],
        kept: "",
        found: "",
    },
    // A file that is deleted while a group is open that moves its records.
    Case {
        steps: &[
            Append(1, &[Entries(1, 5)]),
            Rewrite(1, Some(1), &[Entries(1, 5)]),
            Purge(APPENDED, 1),
            Rewrite(2, None, &[Begin(9), Entries(1, 5)]),
            Purge(REWRITTEN, 1),
        ],
        kept: "[1,5)",
        found: "",
    },
    Case {
        steps: &[
            Append(1, &[Entries(1, 5)]),
            Rewrite(1, Some(1), &[Entries(1, 5)]),
            Purge(APPENDED, 1),
            Rewrite(2, None, &[Begin(9), Entries(1, 5)]),
            Rewrite(2, None, &[End(9)]),
            ApplyGroup(2, 2),
            Purge(REWRITTEN, 1),
        ],
        kept: "[1,5)",
        found: "[1,5)",
    },
    // The same while its second batch isn't written (see `MISSED`).
    Case {
        steps: &[
            Append(1, &[Entries(1, 5)]),
            Rewrite(1, Some(1), &[Entries(1, 5)]),
            Purge(APPENDED, 1),
            Rewrite(2, None, &[Begin(9), Entries(1, 3)]),
            Read(3),
            Rewrite(2, None, &[End(9), Entries(3, 5)]),
            ApplyGroup(2, 2),
            Purge(REWRITTEN, 1),
            Read(3),
        ],
        kept: "[1,5)",
        found: "[1,5)",
    },
    // A group whose entries fall from batch to batch.
    Case {
        steps: &[
            Append(1, &[Entries(1, 5)]),
            Rewrite(1, Some(1), &[Entries(1, 5)]),
            Purge(APPENDED, 1),
            Rewrite(2, None, &[Begin(9), Entries(3, 5)]),
            Rewrite(2, None, &[End(9), Entries(1, 3)]),
            ApplyGroup(2, 2),
            Purge(REWRITTEN, 1),
        ],
        kept: "[1,5)",
        found: "[1,3)",
    },
    Case {
        steps: &[
            Append(1, &[Entries(1, 5)]),
            Rewrite(1, Some(1), &[Entries(1, 5)]),
            Purge(APPENDED, 1),
            Rewrite(2, None, &[Begin(9), Entries(1, 3)]),
            Rewrite(2, None, &[End(9), Entries(3, 5)]),
            ApplyGroup(2, 2),
            Purge(REWRITTEN, 1),
        ],
        kept: "[1,5)",
        found: "[1,5)",
    },
    // A group that begins in one file without records, and has them in the next: the table is to know the first.
    Case {
        steps: &[
            Append(1, &[Entries(1, 5)]),
            Rewrite(1, Some(1), &[Begin(9)]),
            Rewrite(2, Some(1), &[End(9), Entries(1, 5)]),
            ApplyGroup(2, 2),
            Purge(APPENDED, 1),
            Purge(REWRITTEN, 1),
        ],
        kept: "[1,5)",
        found: "",
    },
    Case {
        steps: &[
            Append(1, &[Entries(1, 5)]),
            Rewrite(1, Some(1), &[Begin(9)]),
            Rewrite(2, Some(1), &[End(9), Entries(1, 5)]),
            ApplyGroup(1, 2),
            Purge(APPENDED, 1),
            Purge(REWRITTEN, 1),
        ],
        kept: "[1,5)",
        found: "[1,5)",
    },
];

/// Returns histories whose last step reads an entry of a file that was deleted too early.
pub fn histories_that_miss_a_file() -> &'static [&'static [Step]] {
    &MISSED
}

// A file that is deleted while a group is open that has moved the first of its entries: the table asks for no older file
// than theirs.
static MISSED: [&[Step]; 1] = [&[
    Append(1, &[Entries(1, 5)]),
    Rewrite(1, Some(1), &[Entries(1, 5)]),
    Purge(APPENDED, 1),
    Rewrite(2, None, &[Begin(9), Entries(1, 3)]),
    Purge(REWRITTEN, 1),
    Read(3),
]];
