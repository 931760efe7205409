//! Checksums at the end of the bytes that they are of, signed or not.

ghost use Rattle.std.specs.Prelude.{◌≡◌, List, ℕ, length, IfOk, IfErr};
ghost use Rattle.raft_records.specs.Common.{little_bytes, signed_crc, HasSeal, IsSealFault};

use raft_base::{Error, Result};
use raft_checksum::crc32;
use raft_codec::codec;
use std::alloc::Global;

/// The length of a checksum in bytes.
pub(crate) const LOG_BATCH_CHECKSUM_LEN: usize = 4;

/// Returns `bytes` without their last four, which are checked to be the CRC-32 of the bytes before them,
/// little-endian. With a `signature`, the stored checksum is the CRC-32 combined with the signature by
/// exclusive or.
///
/// # Errors
///
/// `Corruption` if there are four bytes or fewer, or the checksum is a different one; `Memory` if there is
/// none for its text.
#[tactic(auto, using(crate::proofs::SealLemmas::not_sealed, crate::proofs::SealLemmas::sealed_by, crate::proofs::SealLemmas::checksum_fault))]
pub(crate) fn verify_checksum(alloc: Global, bytes: &[u8], signature: Option<u32>) -> Result<&[u8]>
    ensures ok { IfOk result (λ content. HasSeal signature bytes.now content.now) }
    ensures refused { IfErr result (λ e. (content : List ℕ) → HasSeal signature bytes.now content →
        ⊥) }
    ensures fault { IfErr result (IsSealFault signature bytes.now) }
{
    let len = bytes.len();
    if len <= LOG_BATCH_CHECKSUM_LEN {
        return Err(Error::Corruption(format!(in alloc; "Content too short {len}")?));
    }
    let (content, seal) = bytes.split_at(len - LOG_BATCH_CHECKSUM_LEN);
    let found = read_checksum(seal);
    let actual = crc32(content);
    if found != sign_checksum(actual, signature) {
        let expected = sign_checksum(found, signature);
        return Err(Error::Corruption(format!(in alloc;
            "Checksum expected {expected} but got {actual}"
        )?));
    }
    Ok(content)
}

/// Returns the checksum that is stored in `seal`, four little-endian bytes.
#[tactic(auto, using(crate::proofs::SealLemmas::all_four))]
fn read_checksum(seal: &[u8]) -> u32
    requires { length seal.now ≡ LOG_BATCH_CHECKSUM_LEN }
    ensures { seal.now ≡ little_bytes 4 result }
{
    let mut rest = seal;
    match codec::decode_u32_le(&mut rest) {
        Ok(checksum) => checksum,
        Err(_) => unreachable!(),
    }
}

/// Returns `checksum` combined with `signature` by exclusive or, or `checksum` itself without a signature.
/// Applied to a signed checksum, it gives the unsigned one back.
pub(crate) fn sign_checksum(checksum: u32, signature: Option<u32>) -> u32
    ensures { result ≡ signed_crc signature checksum }
{
    match signature {
        Some(signature) => checksum ^ signature,
        None => checksum,
    }
}
