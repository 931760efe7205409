//! A law of the entries of the last append file.

ghost use Rattle.raft_engine.specs.NamedEntries.{EntriesAreSoundOrNamed};

/// States that each entry whose place is in the last append file that was found can be read once that file was opened, or is
/// named. Either a sound entry block stands at its place, or its batch is one of the damaged ones that
/// [`Opened`](crate::Opened) has. So it is of any files, whoever wrote them, and whatever pages a disk has lost. This is a
/// law: it computes nothing.
pub fn entries_are_sound_or_named()
    ensures { EntriesAreSoundOrNamed }
{}
