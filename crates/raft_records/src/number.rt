//! How numbers in base 128 are appended, and how a failed append is undone.

ghost use Rattle.std.specs.Prelude.{◌≡◌, ◌<◌, ◌++◌, OnOk, OnErr};
ghost use Rattle.raft_records.specs.Common.{varint};

use raft_base::AllocResult;
use raft_codec::codec;

/// Appends `number` in base 128 to `buf`, in its shortest form: 300 is `ac 02`. Numbers of at most two bytes,
/// as most are, take no further call; longer ones are appended by [`codec::append_var_u64`].
///
/// # Errors
///
/// `AllocError` if there is no memory to grow `buf`, which is unchanged then.
#[inline(always)]
#[tactic(auto, using(raft_codec::proofs::VarintLemmas::two_septets))]
pub(crate) fn append_number(buf: &mut Vec<u8>, number: u64) -> AllocResult<()>
    ensures ok { OnOk result (buf.new.items ≡ buf.old.items ++ varint number) }
    ensures err { OnErr result (buf.new.items ≡ buf.old.items) }
{
    if number < 0x80 {
        return Ok(buf.push(number as u8)?);
    }
    if number < 0x4000 {
        return buf.extend_from_slice(&[(number % 0x80) as u8 + 0x80, (number >> 7) as u8]);
    }
    codec::append_var_u64(buf, number)
}

/// Evaluates `$write`, a call that appends to `$buf`, and gives `Ok(())`. If the call fails, it cuts `$buf`
/// back to its old length and returns the error from the enclosing function.
macro_rules! append_whole {
    ($buf:ident, $write:expr) => {{
        let len = $buf.len();
        if let Err(e) = $write {
            $buf.truncate(len);
            return Err(e.into());
        }
        Ok(())
    }};
}

pub(crate) use append_whole;
