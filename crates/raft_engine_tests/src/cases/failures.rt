//! Histories of power failures: what has to be synced before what; and files that are deleted while records are on their way.

use crate::batches::Part::{Clean, Compact, Delete, Entries, Put};
use crate::cases::{APPENDED, Case, REWRITTEN};
use crate::engine::Step::{Append, Fail, Purge, Rewrite, Sync, SyncFile, Tell, TellCleaned};

/// Returns the histories of power failures.
pub fn cases() -> &'static [Case] {
    &CASES
}

static CASES: [Case; 14] = [
    // An older file that is deleted for the sake of records that a failure of power takes.
    Case {
        steps: &[
            Append(1, &[Put("1")]),
            Sync(APPENDED),
            Append(2, &[Put("2")]),
            Purge(APPENDED, 1),
            Fail,
        ],
        kept: "k=2",
        found: "",
    },
    Case {
        steps: &[
            Append(1, &[Put("1")]),
            Sync(APPENDED),
            Append(2, &[Put("2")]),
            Sync(APPENDED),
            Purge(APPENDED, 1),
            Fail,
        ],
        kept: "k=2",
        found: "k=2",
    },
    // A Clean that is told and then lost by the append queue, with the records that came after it.
    Case {
        steps: &[
            Append(1, &[Entries(1, 5)]),
            Sync(APPENDED),
            Rewrite(1, Some(1), &[Entries(1, 5)]),
            Sync(REWRITTEN),
            Purge(APPENDED, 1),
            Append(2, &[Clean, Entries(1, 3)]),
            TellCleaned(1),
            Sync(REWRITTEN),
            Fail,
        ],
        kept: "[1,3)",
        found: "",
    },
    Case {
        steps: &[
            Append(1, &[Entries(1, 5)]),
            Sync(APPENDED),
            Rewrite(1, Some(1), &[Entries(1, 5)]),
            Sync(REWRITTEN),
            Purge(APPENDED, 1),
            Append(2, &[Clean, Entries(1, 3)]),
            Sync(APPENDED),
            TellCleaned(1),
            Sync(REWRITTEN),
            Fail,
        ],
        kept: "[1,3)",
        found: "[1,3)",
    },
    // Records that moved, and whose append file is deleted before the rewrite queue is synced.
    Case {
        steps: &[
            Append(1, &[Entries(1, 5), Put("v")]),
            Sync(APPENDED),
            Rewrite(1, Some(1), &[Entries(1, 5), Put("v")]),
            Purge(APPENDED, 1),
            Fail,
        ],
        kept: "[1,5)k=v",
        found: "",
    },
    Case {
        steps: &[
            Append(1, &[Entries(1, 5), Put("v")]),
            Sync(APPENDED),
            Rewrite(1, Some(1), &[Entries(1, 5), Put("v")]),
            Sync(REWRITTEN),
            Purge(APPENDED, 1),
            Fail,
        ],
        kept: "[1,5)k=v",
        found: "[1,5)k=v",
    },
    // The same of records that moved again, and of their older rewrite file.
    Case {
        steps: &[
            Append(1, &[Entries(1, 5)]),
            Sync(APPENDED),
            Rewrite(1, Some(1), &[Entries(1, 5)]),
            Sync(REWRITTEN),
            Purge(APPENDED, 1),
            Rewrite(2, None, &[Entries(1, 5)]),
            Purge(REWRITTEN, 1),
            Fail,
        ],
        kept: "[1,5)",
        found: "",
    },
    Case {
        steps: &[
            Append(1, &[Entries(1, 5)]),
            Sync(APPENDED),
            Rewrite(1, Some(1), &[Entries(1, 5)]),
            Sync(REWRITTEN),
            Purge(APPENDED, 1),
            Rewrite(2, None, &[Entries(1, 5)]),
            Sync(REWRITTEN),
            Purge(REWRITTEN, 1),
            Fail,
        ],
        kept: "[1,5)",
        found: "[1,5)",
    },
    // A rotation that doesn't sync the file that it closes: what is synced later isn't behind what came before it.
    Case {
        steps: &[
            Append(1, &[Put("1")]),
            Append(2, &[Entries(1, 3)]),
            SyncFile(APPENDED, 2),
            Fail,
        ],
        kept: "[1,3)k=1",
        found: "[1,3)",
    },
    Case {
        steps: &[
            Append(1, &[Put("1")]),
            SyncFile(APPENDED, 1),
            Append(2, &[Entries(1, 3)]),
            SyncFile(APPENDED, 2),
            Fail,
        ],
        kept: "[1,3)k=1",
        found: "[1,3)k=1",
    },
    // Append files that are deleted between the reading of a record and its writing: nothing says any more that it was
    // deleted, since the rewrite queue didn't have it to be told.
    Case {
        steps: &[
            Append(1, &[Put("1")]),
            Append(2, &[Delete]),
            Purge(APPENDED, 2),
            Rewrite(1, Some(1), &[Put("1")]),
        ],
        kept: "",
        found: "k=1",
    },
    Case {
        steps: &[
            Append(1, &[Put("1")]),
            Append(2, &[Delete]),
            Rewrite(1, Some(1), &[Put("1")]),
            Tell(1, &[Delete]),
            Purge(APPENDED, 2),
        ],
        kept: "",
        found: "",
    },
    Case {
        steps: &[
            Append(1, &[Entries(1, 5)]),
            Append(2, &[Compact(5)]),
            Purge(APPENDED, 2),
            Rewrite(1, Some(1), &[Entries(1, 5)]),
        ],
        kept: "",
        found: "[1,5)",
    },
    Case {
        steps: &[
            Append(1, &[Entries(1, 5)]),
            Append(2, &[Compact(5)]),
            Rewrite(1, Some(1), &[Entries(1, 5)]),
            Tell(1, &[Compact(5)]),
            Purge(APPENDED, 2),
        ],
        kept: "",
        found: "",
    },
];
