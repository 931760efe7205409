//! Laws of what a crash may leave of files.

ghost use Rattle.std.specs.Prelude.{◌≡◌, List, ◌∷◌, ℕ};
ghost use Rattle.raft_base.specs.declared.pipe_log.FileBlockHandle.{FileBlockHandle};
ghost use Rattle.raft_base.specs.declared.pipe_log.LogQueue.{LogQueue};
ghost use Rattle.raft_base.specs.declared.pipe_log.LogQueue.TheVariants.{Append, Rewrite};
ghost use Rattle.raft_files.specs.Asks.{Act, Ask, Found, Put, Read, Sync, Unsynced, ask};
ghost use Rattle.raft_files.specs.Disk.{IsLeftOf, NumberedBytes, files_of};

/// States what a crash may leave of files. It may leave exactly what was asked. After a sync it leaves
/// nothing else, and right after files were found, exactly these. After bytes were put, it may still leave
/// everything that it might have left before. After a read, or a sync that failed, it may leave only what it
/// might have left before. What is asked of one queue changes nothing for the other. This is a law: it
/// computes nothing.
pub fn files_that_are_left()
    ensures whole { (queue : LogQueue) (asked : List Ask) → IsLeftOf queue asked (files_of queue asked) }
    ensures synced { (queue : LogQueue) (asked : List Ask) (files : List NumberedBytes)
        → IsLeftOf queue (ask queue Sync ∷ asked) files → files ≡ files_of queue asked }
    ensures found { (queue : LogQueue) (asked : List Ask) (files left : List NumberedBytes)
        → IsLeftOf queue (ask queue (Found files) ∷ asked) left → left ≡ files }
    ensures put { (queue : LogQueue) (asked : List Ask) (bytes : List ℕ) (files : List NumberedBytes)
        → IsLeftOf queue asked files → IsLeftOf queue (ask queue (Put bytes) ∷ asked) files }
    ensures read { (queue : LogQueue) (asked : List Ask) (place : FileBlockHandle) (bytes : List ℕ) (files : List NumberedBytes)
        → IsLeftOf queue (ask place.id.queue (Read place bytes) ∷ asked) files → IsLeftOf queue asked files }
    ensures unsynced { (queue : LogQueue) (asked : List Ask) (files : List NumberedBytes)
        → IsLeftOf queue (ask queue Unsynced ∷ asked) files → IsLeftOf queue asked files }
    ensures of_append { (asked : List Ask) (act : Act) (files : List NumberedBytes)
        → IsLeftOf Append (ask Rewrite act ∷ asked) files → IsLeftOf Append asked files }
    ensures of_rewrite { (asked : List Ask) (act : Act) (files : List NumberedBytes)
        → IsLeftOf Rewrite (ask Append act ∷ asked) files → IsLeftOf Rewrite asked files }
{}
