//! Histories of removals: those that the rewrite queue is told, and those that it isn't.

use crate::batches::Part::{Clean, Compact, Delete, Entries, Put, Truncate};
use crate::cases::{APPENDED, Case};
use crate::engine::Step::{Append, Purge, Restart, Rewrite, Tell, TellCleaned};

/// Returns the histories of removals.
pub fn cases() -> &'static [Case] {
    &CASES
}

static CASES: [Case; 20] = [
    // A Clean that the rewrite queue isn't told: what was rewritten comes back.
    Case {
        steps: &[
            Append(1, &[Entries(1, 5)]),
            Rewrite(1, Some(1), &[Entries(1, 5)]),
            Append(2, &[Clean]),
            Purge(APPENDED, 2),
        ],
        kept: "",
        found: "[1,5)",
    },
    Case {
        steps: &[
            Append(1, &[Entries(1, 5)]),
            Rewrite(1, Some(1), &[Entries(1, 5)]),
            Append(2, &[Clean]),
            TellCleaned(1),
            Purge(APPENDED, 2),
        ],
        kept: "",
        found: "",
    },
    // A Clean that it is told after the rewriting of a new life: that is lost.
    Case {
        steps: &[
            Append(1, &[Entries(1, 5)]),
            Rewrite(1, Some(1), &[Entries(1, 5)]),
            Append(2, &[Clean]),
            Append(3, &[Entries(1, 3)]),
            Rewrite(2, Some(3), &[Entries(1, 3)]),
            TellCleaned(3),
            Purge(APPENDED, 3),
        ],
        kept: "[1,3)",
        found: "",
    },
    // By the rule.
    Case {
        steps: &[
            Append(1, &[Entries(1, 5)]),
            Rewrite(1, Some(1), &[Entries(1, 5)]),
            Append(2, &[Clean]),
            Append(3, &[Entries(1, 3)]),
            TellCleaned(2),
            Rewrite(3, Some(3), &[Entries(1, 3)]),
            Purge(APPENDED, 3),
        ],
        kept: "[1,3)",
        found: "[1,3)",
    },
    // A deletion that it isn't told, and one that it is told.
    Case {
        steps: &[
            Append(1, &[Put("v")]),
            Rewrite(1, Some(1), &[Put("v")]),
            Append(2, &[Delete]),
            Purge(APPENDED, 2),
        ],
        kept: "",
        found: "k=v",
    },
    Case {
        steps: &[
            Append(1, &[Put("v")]),
            Rewrite(1, Some(1), &[Put("v")]),
            Append(2, &[Delete]),
            Tell(1, &[Delete]),
            Purge(APPENDED, 2),
        ],
        kept: "",
        found: "",
    },
    // A compaction.
    Case {
        steps: &[
            Append(1, &[Entries(1, 5)]),
            Rewrite(1, Some(1), &[Entries(1, 5)]),
            Append(2, &[Compact(3)]),
            Purge(APPENDED, 2),
        ],
        kept: "[3,5)",
        found: "[1,5)",
    },
    Case {
        steps: &[
            Append(1, &[Entries(1, 5)]),
            Rewrite(1, Some(1), &[Entries(1, 5)]),
            Append(2, &[Compact(3)]),
            Tell(1, &[Compact(3)]),
            Purge(APPENDED, 2),
        ],
        kept: "[3,5)",
        found: "[3,5)",
    },
    // A truncation.
    Case {
        steps: &[
            Append(1, &[Entries(1, 5)]),
            Rewrite(1, Some(1), &[Entries(1, 5)]),
            Append(2, &[Truncate(3)]),
            Purge(APPENDED, 2),
        ],
        kept: "[1,3)",
        found: "[1,5)",
    },
    Case {
        steps: &[
            Append(1, &[Entries(1, 5)]),
            Rewrite(1, Some(1), &[Entries(1, 5)]),
            Append(2, &[Truncate(3)]),
            Tell(1, &[Truncate(3)]),
            Purge(APPENDED, 2),
        ],
        kept: "[1,3)",
        found: "[1,3)",
    },
    // A deletion of which a restart doesn't tell the rewrite queue, and one of which it does.
    Case {
        steps: &[
            Append(1, &[Put("v")]),
            Rewrite(1, Some(1), &[Put("v")]),
            Append(2, &[Delete]),
            Restart,
            Purge(APPENDED, 2),
        ],
        kept: "",
        found: "k=v",
    },
    Case {
        steps: &[
            Append(1, &[Put("v")]),
            Rewrite(1, Some(1), &[Put("v")]),
            Append(2, &[Delete]),
            Restart,
            Tell(1, &[Delete]),
            Purge(APPENDED, 2),
        ],
        kept: "",
        found: "",
    },
    // The same of a run that replaces rewritten entries.
    Case {
        steps: &[
            Append(1, &[Entries(1, 10)]),
            Rewrite(1, Some(1), &[Entries(1, 10)]),
            Append(2, &[Entries(5, 7)]),
            Append(2, &[Compact(7)]),
            Restart,
            Tell(1, &[Compact(7)]),
            Purge(APPENDED, 2),
        ],
        kept: "",
        found: "[7,10)",
    },
    Case {
        steps: &[
            Append(1, &[Entries(1, 10)]),
            Rewrite(1, Some(1), &[Entries(1, 10)]),
            Append(2, &[Entries(5, 7)]),
            Append(2, &[Compact(7)]),
            Restart,
            Tell(1, &[Truncate(5), Compact(7)]),
            Purge(APPENDED, 2),
        ],
        kept: "",
        found: "",
    },
    // A run that replaces rewritten entries, and is gone before it is rewritten: what it replaced comes back.
    Case {
        steps: &[
            Append(1, &[Entries(1, 10)]),
            Rewrite(1, Some(1), &[Entries(1, 10)]),
            Append(2, &[Entries(5, 7)]),
            Append(2, &[Compact(7)]),
            Tell(1, &[Compact(7)]),
            Purge(APPENDED, 2),
        ],
        kept: "",
        found: "[7,10)",
    },
    Case {
        steps: &[
            Append(1, &[Entries(1, 10)]),
            Rewrite(1, Some(1), &[Entries(1, 10)]),
            Append(2, &[Entries(5, 7)]),
            Append(2, &[Compact(7)]),
            Tell(1, &[Truncate(5), Compact(7)]),
            Purge(APPENDED, 2),
        ],
        kept: "",
        found: "",
    },
    // The same, and a new life.
    Case {
        steps: &[
            Append(1, &[Entries(1, 10)]),
            Rewrite(1, Some(1), &[Entries(1, 10)]),
            Append(2, &[Entries(5, 7)]),
            Append(2, &[Compact(7)]),
            Tell(1, &[Compact(7)]),
            Purge(APPENDED, 2),
            Append(3, &[Entries(8, 9)]),
            Rewrite(2, Some(3), &[Entries(8, 9)]),
            Purge(APPENDED, 3),
        ],
        kept: "[8,9)",
        found: "[7,9)",
    },
    Case {
        steps: &[
            Append(1, &[Entries(1, 10)]),
            Rewrite(1, Some(1), &[Entries(1, 10)]),
            Append(2, &[Entries(5, 7)]),
            Append(2, &[Compact(7)]),
            Tell(1, &[Truncate(5), Compact(7)]),
            Purge(APPENDED, 2),
            Append(3, &[Entries(8, 9)]),
            Rewrite(2, Some(3), &[Entries(8, 9)]),
            Purge(APPENDED, 3),
        ],
        kept: "[8,9)",
        found: "[8,9)",
    },
    // A key that is deleted and put again: what is told stands before the rewriting.
    Case {
        steps: &[
            Append(1, &[Put("1")]),
            Rewrite(1, Some(1), &[Put("1")]),
            Append(2, &[Delete]),
            Append(3, &[Put("2")]),
            Rewrite(1, Some(3), &[Put("2")]),
            Tell(1, &[Delete]),
            Purge(APPENDED, 3),
        ],
        kept: "k=2",
        found: "",
    },
    Case {
        steps: &[
            Append(1, &[Put("1")]),
            Rewrite(1, Some(1), &[Put("1")]),
            Append(2, &[Delete]),
            Append(3, &[Put("2")]),
            Tell(1, &[Delete]),
            Rewrite(1, Some(3), &[Put("2")]),
            Purge(APPENDED, 3),
        ],
        kept: "k=2",
        found: "k=2",
    },
];
