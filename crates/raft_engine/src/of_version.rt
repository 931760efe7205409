//! Laws of the version of the files that a crash leaves.

ghost use Rattle.std.specs.Prelude.{List};
ghost use Rattle.raft_base.specs.declared.pipe_log.LogQueue.{LogQueue};
ghost use Rattle.raft_base.specs.declared.pipe_log.Version.{Version};
ghost use Rattle.raft_files.specs.Asks.{Act};
ghost use Rattle.raft_engine.specs.OfVersion.{PrefixesAreNotOther, StaysOfVersion, WhatIsLeftIsNotOther};

/// States that no crash leaves a last file of the other version, so that refusing such a file never refuses what a crash left.
/// A prefix of bytes that begin with a batch isn't of the other version. Neither is what is left of files that were begun, or
/// found in this version, if bytes are put and cut off so that the files hold batches of this version, and no torn tail. These
/// are laws: they compute nothing.
pub fn no_crash_leaves_another_version()
    ensures front { PrefixesAreNotOther }
    ensures stays { (queue : LogQueue) (version : Version) (acts : List Act) → StaysOfVersion queue version acts }
    ensures left { WhatIsLeftIsNotOther }
{}
