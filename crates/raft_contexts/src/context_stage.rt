//! Whether a context reads on.

ghost use Rattle.std.specs.Prelude.{◌≡◌, ◌≢◌, OnOk, IfErr};

use raft_base::{Error, Result};

/// Which calls a context accepts.
#[derive(Clone, Copy, PartialEq, Eq, Debug)]
pub enum ContextStage {
    /// It accepts batches and newer neighbors.
    Reading,
    /// The context of the append queue was put over it: its tables are those of both queues. It accepts only
    /// `kept` and `finish`.
    Overlaid,
    /// A call has failed while it was reading. It accepts no calls any more.
    Failed,
}

impl ContextStage {
    /// Begins a call on a context that reads on: sets the stage to `Failed`, until the call succeeds and sets
    /// it back.
    ///
    /// # Errors
    ///
    /// `Failed` if the stage isn't `Reading`. The stage is unchanged then.
    pub(crate) fn begin(&mut self) -> Result<()>
        ensures ok { OnOk result ((self.old ≡ ContextStage.Reading) × (self.new ≡ ContextStage.Failed)) }
        ensures err { IfErr result (λ e. (e ≡ Error.Failed) × (self.old ≢ ContextStage.Reading)
            × (self.new ≡ self.old)) }
    {
        if *self != ContextStage::Reading {
            return Err(Error::Failed);
        }
        *self = ContextStage::Failed;
        Ok(())
    }
}
