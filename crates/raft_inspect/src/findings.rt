//! What a check of the files of both queues has found.

ghost use Rattle.std.specs.Prelude.{◌≡◌, ◌↔◌, length, true};
ghost use Rattle.raft_inspect.specs.Openings.{CutsNothing};
ghost use Rattle.raft_inspect.specs.Printed.{verdict_word};

use crate::opening::Opening;
use raft_survey::BothSizes;

/// What a check of the files of both queues has found, but for the damage, which is printed file by file.
#[derive(Drop)]
pub struct Findings {
    /// How many files the append queue has.
    pub append_files: usize,
    /// How many files the rewrite queue has.
    pub rewrite_files: usize,
    /// What an opening would do with the files.
    pub opening: Opening,
    /// Whether nothing is wrong: an opening accepts the files and cuts nothing off, and each batch of each file can be read, with the bytes
    /// of all its entries. It is set without files too.
    pub is_sound: bool,
}

/// Of which queues everything can be read, by scans of their files.
#[derive(Clone, Copy, PartialEq, Eq, Debug)]
pub(crate) struct UndamagedQueues {
    /// Whether it is so of the append queue.
    pub append: bool,
    /// Whether it is so of the rewrite queue.
    pub rewrite: bool,
}

impl Findings {
    /// Makes the findings of a check from what scans of all files found and what an opening would do.
    pub(crate) fn new(sizes: &BothSizes, undamaged: UndamagedQueues, opening: Opening) -> Findings
        ensures append { result.append_files ≡ length sizes.now.append.items }
        ensures rewrite { result.rewrite_files ≡ length sizes.now.rewrite.items }
        ensures opening { result.opening ≡ opening }
        ensures verdict { (result.is_sound ≡ true)
            ↔ ((undamaged.append ≡ true) × (undamaged.rewrite ≡ true) × CutsNothing result.opening) }
    {
        let is_sound = is_nothing_wrong(undamaged, &opening);
        Findings {
            append_files: sizes.append.len(),
            rewrite_files: sizes.rewrite.len(),
            opening,
            is_sound,
        }
    }

    /// Returns the verdict of a check: `empty` if there are no files, `sound` if nothing is wrong with them, else `damaged`.
    pub fn verdict(&self) -> &'static str
        ensures { result.now ≡ verdict_word self.now }
    {
        if self.append_files == 0 && self.rewrite_files == 0 {
            "empty"
        } else if self.is_sound {
            "sound"
        } else {
            "damaged"
        }
    }
}

/// Tests whether no scan has found damage, and an opening accepts the files and cuts nothing off them.
fn is_nothing_wrong(undamaged: UndamagedQueues, opening: &Opening) -> bool
    ensures { (result ≡ true)
        ↔ ((undamaged.append ≡ true) × (undamaged.rewrite ≡ true) × CutsNothing opening.now) }
{
    undamaged.append && undamaged.rewrite && opening.cuts_nothing()
}
