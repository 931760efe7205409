//! Key values, which change one key of a region, and their bytes.

ghost use Rattle.std.specs.Prelude.{◌≡◌, ◌≢◌, ◌↔◌, ◌<◌, ◌++◌, length, None, IsTrue, IfOk, IfErr, OnOk, OnErr};
ghost use Rattle.raft_records.specs.Common.{option_map, Reads, HasNoFront, IsByteString, IsKeyValue, pair_of, IsByteStringFault, IsKeyValueFault, IsOpTypeFault, IsPairRefusal, change_of, pair_size, at_most_usize, Keeps, byte_string};
ghost use Rattle.raft_records.specs.Common.{pair_bytes, IsWritablePair, op_type_byte};

use crate::number::{append_number, append_whole};
use raft_base::{AllocResult, Error, FileId, Result};
use raft_codec::codec::{self, BytesSlice};
use std::alloc::Global;

/// What is done to a key.
#[derive(Clone, Copy, PartialEq, Eq, Debug)]
pub enum OpType {
    /// The key gets a value, in place of one that it may have.
    Put = 1,
    /// The key is removed with its value.
    Del = 2,
}

impl OpType {
    /// Returns the operation that `byte` stands for: 1 for a put, 2 for a deletion. `alloc` is for the text
    /// of an error.
    ///
    /// # Errors
    ///
    /// `Corruption` for any other byte; `Memory` if there is none for its text.
    pub fn from_u8(alloc: Global, byte: u8) -> Result<OpType>
        ensures ok { IfOk result (λ op_type. byte ≡ op_type_byte op_type) }
        ensures fault { IfErr result (IsOpTypeFault byte) }
    {
        match byte {
            1 => Ok(OpType::Put),
            2 => Ok(OpType::Del),
            _ => Err(Error::Corruption(format!(in alloc; "Unrecognized op type: {byte}")?)),
        }
    }

    /// Returns the byte that stands for the operation: 1 for a put, 2 for a deletion.
    pub fn to_u8(self) -> u8
        ensures { result ≡ op_type_byte self }
    {
        self as u8
    }
}

/// A change of one key of a region.
#[derive(Clone, PartialEq, Eq, Debug, Drop)]
pub struct KeyValue {
    /// Whether the key gets a value or is removed.
    pub op_type: OpType,
    /// The key, which may be any bytes.
    pub key: Vec<u8>,
    /// The new value, of a `Put`.
    pub value: Option<Vec<u8>>,
    /// The file that the change is in; `None` until it is written to one.
    pub file_id: Option<FileId>,
}

impl KeyValue {
    /// Returns a change of `key` that isn't in a file yet. A put needs a `value`, and a deletion none; this
    /// isn't tested before the change is written.
    pub fn new(op_type: OpType, key: Vec<u8>, value: Option<Vec<u8>>) -> KeyValue
        ensures { result
            ≡ record { op_type = op_type; key = key; value = value; file_id = None } }
    {
        KeyValue {
            op_type,
            key,
            value,
            file_id: None,
        }
    }

    /// Returns a copy of the change.
    ///
    /// # Errors
    ///
    /// `Memory` alone.
    #[tactic(auto, using(crate::proofs::CloneLemmas::pair_clone))]
    pub fn clone(&self) -> Result<KeyValue>
        ensures ok { IfOk result (λ copy. pair_of copy ≡ pair_of self.now) }
        ensures memory { IfErr result (λ e. e ≡ Error.Memory) }
    {
        Ok(<KeyValue as Clone>::clone(self)?)
    }

    /// Returns the approximate length of the encoded change in bytes, at most `usize::MAX`: the lengths of
    /// key and value, and 17 for the operation and the two lengths.
    pub(crate) fn approximate_size(&self) -> usize
        ensures { result ≡ at_most_usize (pair_size (pair_of self.now)) }
    {
        let value = match &self.value {
            Some(value) => value.len(),
            None => 0,
        };
        let key = self.key.len();
        key.saturating_add(value).saturating_add(1 + 8 + 8)
    }

    /// Tests whether the change can be written: it isn't a put without a value.
    pub(crate) fn is_writable(&self) -> bool
        ensures { IsTrue result ↔ IsWritablePair (pair_of self.now) }
    {
        match (self.op_type, &self.value) {
            (OpType::Put, None) => false,
            _ => true,
        }
    }

    /// Appends the bytes of the change to `buf`: the operation, the length of the key in base 128, the key
    /// and, for a put, the length of the value and the value. A value of a deletion isn't written.
    ///
    /// # Errors
    ///
    /// `InvalidArgument` for a put without a value; `Memory`. `buf` is unchanged then.
    pub fn encode(&self, buf: &mut Vec<u8>) -> Result<()>
        ensures ok { OnOk result (buf.new.items ≡ buf.old.items ++ pair_bytes (pair_of self.now)) }
        ensures accepted { OnOk result (IsWritablePair (pair_of self.now)) }
        ensures err { OnErr result (buf.new.items ≡ buf.old.items) }
        ensures fault { IfErr result (IsPairRefusal (pair_of self.now)) }
    {
        if !self.is_writable() {
            return Err(Error::invalid_argument(*buf.allocator(), "a put has no value"));
        }
        append_whole!(buf, self.append_to(buf))
    }

    /// Appends the bytes of the change to `buf`, as [`KeyValue::encode`] does, without testing whether it can
    /// be written. Of a put without a value, only the operation and the key are appended.
    ///
    /// # Errors
    ///
    /// `AllocError` if there is no memory for the bytes. `buf` may have more bytes at its end then, which the
    /// caller cuts off.
    pub(crate) fn append_to(&self, buf: &mut Vec<u8>) -> AllocResult<()>
        ensures ok { OnOk result (buf.new.items ≡ buf.old.items ++ pair_bytes (pair_of self.now)) }
        ensures err { OnErr result (Keeps buf.old.items buf.new.items) }
    {
        buf.push(self.op_type.to_u8())?;
        append_byte_string(buf, self.key.as_slice())?;
        match (self.op_type, &self.value) {
            (OpType::Put, Some(value)) => append_byte_string(buf, value.as_slice()),
            _ => Ok(()),
        }
    }

    /// Reads a change from the start of `buf`, and moves `buf` past it. The change is in no file.
    ///
    /// # Errors
    ///
    /// `Codec` if the bytes end early or a length is malformed; `Corruption` for an unknown operation, or a
    /// key or a value that is longer than the bytes that are left; `Memory`. `buf` is unchanged then.
    #[tactic(auto, using(crate::proofs::ItemLemmas::no_room_for_pair))]
    pub fn decode(alloc: Global, buf: &mut BytesSlice<'_>) -> Result<KeyValue>
        ensures ok { IfOk result (λ kv. Reads IsKeyValue buf.old.now buf.new.now (pair_of kv)) }
        ensures err { OnErr result (buf.new.now ≡ buf.old.now) }
        ensures refused { IfErr result (λ e. e ≢ Error.Memory → HasNoFront IsKeyValue buf.old.now) }
        ensures fault { IfErr result (IsKeyValueFault buf.old.now) }
    {
        let (key, value, rest) = parse_pair(alloc, *buf)?;
        let kv = KeyValue::from_slices(alloc, key, value, None)?;
        *buf = rest;
        Ok(kv)
    }

    /// Returns a change in the file `file_id` with copies of `key` and `value`: a put, or a deletion if
    /// `value` is `None`.
    ///
    /// # Errors
    ///
    /// `Memory` alone.
    #[inline(always)]
    pub(crate) fn from_slices(
        alloc: Global,
        key: &[u8],
        value: Option<&[u8]>,
        file_id: Option<FileId>,
    ) -> Result<KeyValue>
        ensures ok { IfOk result (λ kv. pair_of kv
            ≡ change_of key.now (option_map (λ v. v.now) value.entry) file_id) }
        ensures memory { IfErr result (λ e. e ≡ Error.Memory) }
    {
        let key = Vec::from_slice(alloc, key)?;
        let (op_type, value) = match value {
            Some(value) => (OpType::Put, Some(Vec::from_slice(alloc, value)?)),
            None => (OpType::Del, None),
        };
        Ok(KeyValue {
            file_id,
            ..KeyValue::new(op_type, key, value)
        })
    }
}

/// Reads a change from the start of `bytes`. Returns its key, its value, which is `None` for a deletion, and
/// the bytes after the change. Nothing is copied.
///
/// # Errors
///
/// `Codec` if the bytes end early or a length is malformed; `Corruption` for an unknown operation, or a key
/// or a value that is longer than the bytes that are left; `Memory` if there is none for its text.
#[tactic(auto, using(crate::proofs::ItemLemmas::put_read, crate::proofs::ItemLemmas::del_read))]
pub(crate) fn parse_pair(alloc: Global, bytes: &[u8]) -> Result<(&[u8], Option<&[u8]>, &[u8])>
    ensures ok { IfOk result (λ read. Reads IsKeyValue bytes.now read.2.now
        (change_of read.0.now (option_map (λ v. v.now) read.1) None)) }
    ensures refused { OnErr result (HasNoFront IsKeyValue bytes.now) }
    ensures fault { IfErr result (IsKeyValueFault bytes.now) }
{
    let Some((byte, behind)) = bytes.split_first() else {
        return Err(Error::Codec(codec::Error::unexpected_eof()));
    };
    match OpType::from_u8(alloc, *byte)? {
        OpType::Put => {
            let (key, behind) = parse_byte_string(alloc, behind)?;
            let (value, rest) = parse_byte_string(alloc, behind)?;
            Ok((key, Some(value), rest))
        }
        OpType::Del => {
            let (key, rest) = parse_byte_string(alloc, behind)?;
            Ok((key, None, rest))
        }
    }
}

/// Appends the length of `text` in base 128, and then `text`, to `buf`.
///
/// # Errors
///
/// `AllocError` if there is no memory for them. `buf` may have more bytes at its end then, which the caller
/// cuts off.
fn append_byte_string(buf: &mut Vec<u8>, text: &[u8]) -> AllocResult<()>
    ensures ok { OnOk result (buf.new.items ≡ buf.old.items ++ byte_string text.now) }
    ensures err { OnErr result (Keeps buf.old.items buf.new.items) }
{
    append_number(buf, text.len() as u64)?;
    buf.extend_from_slice(text)
}

/// Reads a length in base 128 and as many bytes from the start of `bytes`. Returns those bytes, and the bytes
/// after them.
///
/// # Errors
///
/// `Codec` if the length ends early or is malformed; `Corruption` if fewer bytes are left; `Memory` if there
/// is none for its text.
#[tactic(auto, using(crate::proofs::ItemLemmas::text_read))]
fn parse_byte_string(alloc: Global, bytes: &[u8]) -> Result<(&[u8], &[u8])>
    ensures ok { IfOk result (λ read. Reads IsByteString bytes.now read.1.now read.0.now) }
    ensures refused { OnErr result (HasNoFront IsByteString bytes.now) }
    ensures fault { IfErr result (IsByteStringFault bytes.now) }
{
    let (len, rest) = codec::parse_var_u64(bytes)?;
    if len > rest.len() as u64 {
        let left = rest.len();
        return Err(Error::Corruption(format!(in alloc;
            "a length of {len} passes the {left} bytes that are left"
        )?));
    }
    let (text, behind) = rest.split_at(len as usize);
    Ok((text, behind))
}
