//! Laws of torn tails: a part of a batch is no batch, and a reader stops where the whole batches end.

ghost use Rattle.std.specs.Prelude.{◌≡◌, ◌≢◌, ℕ, List, [], ◌∷◌, ◌++◌, Option};
ghost use Rattle.raft_codec.specs.Reading.{HasNoFront, HasOneFront};
ghost use Rattle.raft_base.specs.declared.pipe_log.LogQueue.{LogQueue};
ghost use Rattle.raft_base.specs.declared.pipe_log.Version.{Version};
ghost use Rattle.raft_records.specs.Item.{Item};
ghost use Rattle.raft_records.specs.LogBatch.{IsReadable};
ghost use Rattle.raft_history.specs.Batches.{Event};
ghost use Rattle.raft_files.specs.Disk.{NumberedBytes, cut_last};
ghost use Rattle.raft_recover.specs.Files.{FilesHold, whole_file};
ghost use Rattle.raft_engine_prefixes.specs.TornTails.{AreUndamaged, FilesHoldTorn, ReadableFrontStops, StopsAt};

/// States that no readable batch is the start of another one, and that no proper part of one begins with a
/// readable batch, whatever the signature: its header gives the length of the whole. This is a law: it
/// computes nothing.
pub fn parts_of_batches_are_unreadable()
    ensures one_front { (signature : Option ℕ) → HasOneFront (λ bytes. IsReadable bytes signature) }
    ensures part { (bytes part rest : List ℕ) (signature other : Option ℕ) (items : List Item)
        → IsReadable bytes signature items → bytes ≡ part ++ rest → rest ≢ []
        → HasNoFront (λ xs. IsReadable xs other) part }
{}

/// States what is known of torn tails, bytes at the end of the last file that don't begin with a readable
/// batch. Files that hold batches also hold them with an empty tail. Files, with or without a tail, are read
/// in one way only. Where a reader stops in the last file, the whole batches end: cut there, the files hold
/// these batches. Files that hold batches with no tail aren't damaged. Files that hold batches once they are
/// cut held them with that tail before. `readable_front` tells where a reader stops. This is a law: it
/// computes nothing.
pub fn torn_tails_are_found()
    ensures whole { (queue : LogQueue) (version : Version) (files : List NumberedBytes) (h : List Event)
        → FilesHold queue version files h → FilesHoldTorn queue version files h }
    ensures one_reading { (queue : LogQueue) (version : Version) (files : List NumberedBytes)
        (g h : List Event) → FilesHoldTorn queue version files g → FilesHoldTorn queue version files h → g ≡ h }
    ensures cut { (queue : LogQueue) (version : Version) (closed : List NumberedBytes)
        (last : NumberedBytes) (h : List Event) (at : ℕ)
        → FilesHoldTorn queue version (closed ++ last ∷ []) h
        → StopsAt (whole_file queue version last) at
        → FilesHold queue version (cut_last at (closed ++ last ∷ [])) h }
    ensures undamaged { (queue : LogQueue) (version : Version) (files : List NumberedBytes) (h : List Event)
        → FilesHold queue version files h → AreUndamaged queue version files }
    ensures uncut { (queue : LogQueue) (version : Version) (closed : List NumberedBytes)
        (last : NumberedBytes) (h : List Event) (at : ℕ)
        → FilesHold queue version (cut_last at (closed ++ last ∷ [])) h
        → StopsAt (whole_file queue version last) at
        → FilesHoldTorn queue version (closed ++ last ∷ []) h }
    ensures readable_front { ReadableFrontStops }
{}
