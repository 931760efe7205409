//! Reads headers of batches without making an error value where there is none.

ghost use Rattle.std.specs.Prelude.{◌≡◌, ◌+◌, ◌≤◌, length, IfNone, IfSome};
ghost use Rattle.raft_codec.specs.Fixed.{IsBig};
ghost use Rattle.raft_codec.specs.Reading.{HasNoFront, Reads};
ghost use Rattle.raft_records.specs.FilePart.{HasHeader};
ghost use Rattle.raft_records.specs.Header.{IsHeader};

use raft_codec::codec;

/// The length of the header of a log batch, in bytes.
pub(crate) const LOG_BATCH_HEADER_LEN: usize = 16;

/// Reads the header of a batch at the start of `bytes`. Returns the offset of the item batch in the batch,
/// and the length of the whole batch, both in bytes. Returns `None` if there is no header. Unlike
/// `LogBatch::decode_header` it makes no error value, which would cost too much in a search that looks at
/// each byte of a file.
#[inline(always)]
pub(crate) fn read_header(bytes: &[u8]) -> Option<(usize, usize)>
    ensures some { IfSome result (λ header. HasHeader bytes.now header.0 header.1) }
    ensures none { IfNone result (HasNoFront IsHeader bytes.now) }
{
    if bytes.len() < LOG_BATCH_HEADER_LEN {
        return None;
    }
    let (len_and_type, behind) = parse_u64(bytes);
    let (offset, _) = parse_u64(behind);
    let len = len_and_type / 256;
    if len_and_type % 256 != 0 || offset > len || offset < LOG_BATCH_HEADER_LEN as u64 {
        return None;
    }
    Some((offset as usize, len as usize))
}

/// Reads a number of eight bytes, the highest first, from the start of `bytes`. Returns it with the bytes
/// after it. There must be at least eight.
#[inline(always)]
fn parse_u64(bytes: &[u8]) -> (u64, &[u8])
    requires { 8 ≤ length bytes.now }
    ensures read { Reads (IsBig 8) bytes.now result.1.now result.0 }
    ensures len { length bytes.now ≡ 8 + length result.1.now }
{
    let mut rest = bytes;
    match codec::decode_u64(&mut rest) {
        Ok(number) => (number, rest),
        Err(_) => unreachable!(),
    }
}
