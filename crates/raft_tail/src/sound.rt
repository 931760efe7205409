//! Searches for batches that can be read in their file (sound batches).

ghost use Rattle.std.specs.Prelude.{◌≡◌, ◌↔◌, ◌<◌, length, IfErr, IfOk, IsTrue};
ghost use Rattle.raft_tail.specs.Tails.{IsNextSound, IsSoundAt};

use crate::errors::check_not_memory;
use crate::header::read_header;
use raft_base::{Error, Result};
use raft_records::{FilePart, next_batch};

/// Returns the first position from `from` on at which a batch stands that can be read in the part's file, or
/// `None` if there is none.
///
/// At each position it looks at 16 bytes. If these can be the header of a batch that ends within the part, it
/// reads the items of that batch.
///
/// # Errors
///
/// `Memory` alone.
pub fn next_sound(part: &FilePart, from: usize) -> Result<Option<usize>>
    ensures ok { IfOk result (IsNextSound part.now from) }
    ensures memory { IfErr result (λ e. e ≡ Error.Memory) }
{
    for at in from..part.bytes().len() {
        if has_sound_batch_at(part, at)? {
            return Ok(Some(at));
        }
    }
    Ok(None)
}

/// Tests whether a batch that can be read in the part's file stands at position `at`. If no header stands
/// there, or its batch would end after the part, that is seen at once.
///
/// # Errors
///
/// `Memory` alone.
#[inline(always)]
fn has_sound_batch_at(part: &FilePart, at: usize) -> Result<bool>
    requires { at < length part.now.bytes }
    ensures ok { IfOk result (λ sound. IsTrue sound ↔ IsSoundAt part.now at) }
    ensures memory { IfErr result (λ e. e ≡ Error.Memory) }
{
    let (_, rest) = part.bytes().split_at(at);
    match read_header(rest) {
        Some((_, len)) if len <= rest.len() => can_read_batch_at(part, at),
        _ => Ok(false),
    }
}

/// Tests whether a batch that can be read in the part's file stands at position `at`, by reading it.
///
/// # Errors
///
/// `Memory` alone.
#[inline(never)]
fn can_read_batch_at(part: &FilePart, at: usize) -> Result<bool>
    requires { at < length part.now.bytes }
    ensures ok { IfOk result (λ sound. IsTrue sound ↔ IsSoundAt part.now at) }
    ensures memory { IfErr result (λ e. e ≡ Error.Memory) }
{
    match next_batch(part, at) {
        Ok(next) => Ok(next.is_some()),
        Err(error) => {
            check_not_memory(error)?;
            Ok(false)
        }
    }
}
