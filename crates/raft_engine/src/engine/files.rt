//! Access to the files of an engine.

ghost use Rattle.std.specs.Prelude.{◌≡◌};
ghost use Rattle.std.specs.Fn.{FnOnceReturnsAtMut};

use super::Engine;
use raft_files::EngineFiles;

impl<F: EngineFiles> Engine<F> {
    /// Calls `change` with the files, and returns what it returns. It may change them, but ask nothing of them.
    pub fn with_files<T, C: FnOnce(&mut F) -> T>(&mut self, change: C) -> T
        requires callable { C.IsAlwaysCallable change }
        requires silent { (before after : F) (r : T) → FnOnceReturnsAtMut C.FnOnce change before r after
            → F.asked after ≡ F.asked before }
        ensures same { self.new ≡ self.old }
        ensures changed { (before : F) × (after : F) × (F.asked before ≡ self.old.asks)
            × FnOnceReturnsAtMut C.FnOnce change before result after }
    {
        change(&mut self.files)
    }
}
