//! What an opening does if a queue's last file can't be read to its end.

/// What an opening does if a queue's last file can't be read to its end: which tails it cuts off, and which it refuses.
///
/// Each mode refuses files if one is missing between two, if one but the last of its queue can't be read, or if a last file is
/// of the other version.
#[derive(Clone, Copy, PartialEq, Eq, Debug)]
pub enum RecoveryMode {
    /// Nothing is cut off: whatever can't be read is refused, with its place.
    AbsoluteConsistency,
    /// What a crash can leave is cut off: all from the first byte on at which no batch can be read, if that can be all that is
    /// left of one batch, or if no batch stands after it. Anything else is damage, which is refused.
    TolerateTornTail,
    /// All is cut off from the first byte on at which no batch can be read, whatever stands after it. This loses sound batches
    /// if the file is damaged: a choice for those who have looked at the file.
    TolerateTailCorruption,
}

impl Default for RecoveryMode {
    ghost use Rattle.std.specs.Prelude.{◌≡◌};
    ghost use Rattle.raft_engine.specs.declared.recovery_mode.RecoveryMode.TheVariants.{TolerateTornTail};

    ghost is_default = { λ mode. mode ≡ TolerateTornTail };

    /// Returns the mode that cuts off what a crash can leave, and refuses damage.
    fn default() -> RecoveryMode {
        RecoveryMode::TolerateTornTail
    }
}
