//! A law of the moments of an engine: what was synced at one is synced at each later one.

ghost use Rattle.raft_engine.specs.Moments.{CallsGoOn, MomentsGoOn};

/// States that what was done to the files at one moment of an engine still counts at each later one, while it is being opened
/// too. The batches that were synced at the earlier moment are the first ones of those that are synced at the later one, and
/// so are those that were written. This is a law: it computes nothing.
pub fn moments_go_on()
    ensures moments { MomentsGoOn }
    ensures calls { CallsGoOn }
{}
