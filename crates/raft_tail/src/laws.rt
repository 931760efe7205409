//! A law on batches that are broken off, as a function with an empty body.

ghost use Rattle.std.specs.Prelude.{◌≡◌, ◌≢◌, ℕ, ◌+◌, ◌^◌, ◌<◌, List, [], ◌++◌, length, Option};
ghost use Rattle.raft_base.specs.declared.compression_type.CompressionType.{CompressionType};
ghost use Rattle.raft_records.specs.Header.{IsHeader};
ghost use Rattle.raft_records.specs.Item.{Item};
ghost use Rattle.raft_records.specs.LogBatch.{IsBatchOf, IsLaidOut, encoded_length, log_batch_bytes};
ghost use Rattle.raft_records.specs.Range.{AreInRange};
ghost use Rattle.raft_tail.specs.Tails.{AreWhole, IsBroken};

/// States which bytes are broken off, that is can be all that is left of one batch. A proper prefix of the
/// bytes of a written batch is broken off, whatever its entries, keys and values are; so is that of every
/// readable batch that has nothing between its items and their checksum. Any prefix of bytes that are broken
/// off is so too. Bytes aren't broken off if whole items stand where their header says, whatever length it
/// gives. This is a law: it computes nothing.
#[tactic(auto, using(crate::proofs::BrokenLemmas::less_broken))]
pub fn parts_of_batches_are_broken_off()
    ensures written { (bytes part rest : List ℕ) (signature other : Option ℕ) (items : List Item) (entry_bytes : List ℕ)
        → IsBatchOf items entry_bytes → AreInRange items → encoded_length items entry_bytes < 2 ^ 56
        → bytes ≡ log_batch_bytes signature items entry_bytes → bytes ≡ part ++ rest → rest ≢ []
        → IsBroken other part }
    ensures laid_out { (bytes part rest between : List ℕ) (signature other : Option ℕ) (items : List Item)
        → (laid : IsLaidOut bytes signature items between) → laid.rest ≡ []
        → bytes ≡ part ++ rest → rest ≢ [] → IsBroken other part }
    ensures less { (bytes part rest : List ℕ) (signature : Option ℕ) → IsBroken signature bytes
        → bytes ≡ part ++ rest → IsBroken signature part }
    ensures whole { (bytes header between behind rest : List ℕ) (signature : Option ℕ) (items : List Item)
        (compression : CompressionType) (len : ℕ) → IsHeader header (16 + length between, compression, len)
        → AreWhole signature behind items → bytes ≡ header ++ (between ++ (behind ++ rest))
        → ¬ (IsBroken signature bytes) }
{}
