//! The traits for files that are found when the machine starts, and are read before they are noted as found.

ghost use Rattle.std.specs.Prelude.{◌≡◌, List, [], ◌∷◌};
ghost use Rattle.raft_base.specs.declared.pipe_log.LogQueue.TheVariants.{Append, Rewrite};
ghost use Rattle.raft_files.specs.Asks.{Found, NumberedBytes, ask};

use crate::{Asked, EngineFiles};

/// What is known of the bytes of found files, such as what was read of them, without the bytes themselves.
pub trait Found {
    /// These files of the append queue and of the rewrite queue, oldest first, may be those that were found.
    ghost are_found: { Self → List NumberedBytes → List NumberedBytes → Type 0 };
}

/// Files that were found, of which nothing is asked or noted before they are read.
pub trait NotesFound: EngineFiles {
    /// Makes `found` the list of what was asked so far. It must note the found files of both queues and nothing
    /// else, and nothing may have been asked or noted before.
    fn note_found(&mut self, found: Asked)
        requires none { Self.asked self.old ≡ [] }
        requires found { (append : List NumberedBytes) × (rewrite : List NumberedBytes)
            × (found.asks ≡ ask Rewrite (Found rewrite) ∷ ask Append (Found append) ∷ []) }
        ensures { Self.asked self.new ≡ found.asks };
}
