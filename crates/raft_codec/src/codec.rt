//! Encoders and decoders of numbers, with their error. An encoder appends to a [`Write`]; a decoder reads
//! from the start of a slice of bytes.

ghost use Rattle.std.specs.Prelude.{OnOk, IfErr};
ghost use Rattle.std.specs.Io.KnownBytes.{Appends};
ghost use Rattle.std.specs.Int.{w32, w64};
ghost use Rattle.byteorder.specs.Endian.{big_bytes, little_bytes};
ghost use Rattle.raft_codec.specs.Errors.{IsIo};
ghost use Rattle.raft_codec.specs.Fixed.{u64_desc_bytes, i64_bytes, i64_desc_bytes, signed_le_bytes};
ghost use Rattle.raft_codec.specs.Varint.{varint};
ghost use Rattle.raft_codec.specs.Zigzag.{zigzag};

pub mod fixed;
pub mod varint;
pub mod zigzag;

use crate::codec::fixed::SIGN_BIT;
pub use crate::codec::fixed::{
    decode_i32_le, decode_i64, decode_i64_desc, decode_i64_le, decode_u16, decode_u16_le,
    decode_u32, decode_u32_le, decode_u64, decode_u64_desc, decode_u64_le, read_u8,
};
pub use crate::codec::varint::{
    append_var_u64, decode_var_u64, parse_short_var_u64, parse_var_u64,
};
pub use crate::codec::zigzag::decode_var_i64;
use byteorder::{BigEndian, LittleEndian, WriteBytesExt};
use std::io;
use std::io::{ErrorKind, Write};
use thiserror::Error;

/// Bytes to decode: a decoder reads from the start of the slice and then moves the slice past what it read.
pub type BytesSlice<'a> = &'a [u8];

/// The reason why a number was not read or written. Decoders and encoders return [`Error::Io`] alone.
#[derive(Debug, Drop, Error)]
pub enum Error {
    /// The writer failed, or the bytes begin with no number: `UnexpectedEof` where they end within one,
    /// `InvalidData` where one in base 128 is too long or too large.
    #[error("{0}")]
    Io(io::Error),
    /// A key of the wrong length. No call here returns it: it is for layers above.
    #[error("bad format key(length)")]
    KeyLength,
    /// A key with the wrong padding. No call here returns it: it is for layers above.
    #[error("bad format key(padding)")]
    KeyPadding,
    /// A key that isn't there. No call here returns it: it is for layers above.
    #[error("key not found")]
    KeyNotFound,
}

impl From<io::Error> for Error {
    ghost use Rattle.std.specs.Prelude.{◌≡◌};
    ghost use Rattle.raft_codec.specs.declared.codec.Error.TheVariants.{Io};

    ghost from_gives = { λ e r. r ≡ Io e };

    /// Wraps `e` in `Io`, so that `?` hands on the error of a writer.
    fn from(e: io::Error) -> Error {
        Error::Io(e)
    }
}

impl Error {
    ghost use Rattle.std.specs.declared.io.ErrorKind.TheVariants.{UnexpectedEof};
    ghost use Rattle.raft_codec.specs.Errors.{IsIoOf};

    /// Returns the error for bytes that end before their number does: `Io` of the kind `UnexpectedEof`.
    pub fn unexpected_eof() -> Error
        ensures { IsIoOf result UnexpectedEof }
    {
        Error::Io(io::Error::new(ErrorKind::UnexpectedEof, "eof"))
    }
}

/// The result of an encoder or a decoder.
pub type Result<T> = std::result::Result<T, Error>;

/// Appends encoded numbers to any [`Write`]. The only error is the writer's, as [`Error::Io`]. The writer may
/// have taken some of the number's bytes by then.
pub trait NumberEncoder: Write {
    /// Writes `v` in eight bytes, big-endian, so that the encoded bytes sort as the numbers do.
    ///
    /// # Errors
    ///
    /// `Io` if the writer fails. It may have taken a part of the bytes then.
    final fn encode_u64(&mut self, v: u64) -> Result<()>
    where
        Self: Sized,
        ensures written { OnOk result (Appends (Self.contents self.old) (Self.contents self.new)
            (big_bytes 8 v)) }
        ensures io { IfErr result IsIo }
    {
        self.write_u64::<BigEndian>(v)?;
        Ok(())
    }

    /// Writes `v` in four bytes, big-endian, so that the encoded bytes sort as the numbers do.
    ///
    /// # Errors
    ///
    /// `Io` if the writer fails. It may have taken a part of the bytes then.
    final fn encode_u32(&mut self, v: u32) -> Result<()>
    where
        Self: Sized,
        ensures written { OnOk result (Appends (Self.contents self.old) (Self.contents self.new)
            (big_bytes 4 v)) }
        ensures io { IfErr result IsIo }
    {
        self.write_u32::<BigEndian>(v)?;
        Ok(())
    }

    /// Writes `v` in two bytes, big-endian, so that the encoded bytes sort as the numbers do.
    ///
    /// # Errors
    ///
    /// `Io` if the writer fails. It may have taken a part of the bytes then.
    final fn encode_u16(&mut self, v: u16) -> Result<()>
    where
        Self: Sized,
        ensures written { OnOk result (Appends (Self.contents self.old) (Self.contents self.new)
            (big_bytes 2 v)) }
        ensures io { IfErr result IsIo }
    {
        self.write_u16::<BigEndian>(v)?;
        Ok(())
    }

    /// Writes the complement `!v` in eight bytes, big-endian, so that the encoded bytes sort in descending
    /// order of the numbers.
    ///
    /// # Errors
    ///
    /// `Io` if the writer fails. It may have taken a part of the bytes then.
    final fn encode_u64_desc(&mut self, v: u64) -> Result<()>
    where
        Self: Sized,
        ensures written { OnOk result (Appends (Self.contents self.old) (Self.contents self.new)
            (u64_desc_bytes v)) }
        ensures io { IfErr result IsIo }
    {
        self.write_u64::<BigEndian>(!v)?;
        Ok(())
    }

    /// Writes `v` in two's complement with the sign bit flipped, in eight bytes, big-endian. So the encoded
    /// bytes sort as the numbers do, negative ones first.
    ///
    /// # Errors
    ///
    /// `Io` if the writer fails. It may have taken a part of the bytes then.
    final fn encode_i64(&mut self, v: i64) -> Result<()>
    where
        Self: Sized,
        ensures written { OnOk result (Appends (Self.contents self.old) (Self.contents self.new)
            (i64_bytes v)) }
        ensures io { IfErr result IsIo }
    {
        self.write_u64::<BigEndian>(v.cast_unsigned() ^ SIGN_BIT)?;
        Ok(())
    }

    /// Writes the complement of the bytes of [`NumberEncoder::encode_i64`], so that the encoded bytes sort in
    /// descending order of the numbers.
    ///
    /// # Errors
    ///
    /// `Io` if the writer fails. It may have taken a part of the bytes then.
    final fn encode_i64_desc(&mut self, v: i64) -> Result<()>
    where
        Self: Sized,
        ensures written { OnOk result (Appends (Self.contents self.old) (Self.contents self.new)
            (i64_desc_bytes v)) }
        ensures io { IfErr result IsIo }
    {
        self.write_u64::<BigEndian>(!(v.cast_unsigned() ^ SIGN_BIT))?;
        Ok(())
    }

    /// Writes `v` in two bytes, little-endian.
    ///
    /// # Errors
    ///
    /// `Io` if the writer fails. It may have taken a part of the bytes then.
    final fn encode_u16_le(&mut self, v: u16) -> Result<()>
    where
        Self: Sized,
        ensures written { OnOk result (Appends (Self.contents self.old) (Self.contents self.new)
            (little_bytes 2 v)) }
        ensures io { IfErr result IsIo }
    {
        self.write_u16::<LittleEndian>(v)?;
        Ok(())
    }

    /// Writes `v` in four bytes, little-endian.
    ///
    /// # Errors
    ///
    /// `Io` if the writer fails. It may have taken a part of the bytes then.
    final fn encode_u32_le(&mut self, v: u32) -> Result<()>
    where
        Self: Sized,
        ensures written { OnOk result (Appends (Self.contents self.old) (Self.contents self.new)
            (little_bytes 4 v)) }
        ensures io { IfErr result IsIo }
    {
        self.write_u32::<LittleEndian>(v)?;
        Ok(())
    }

    /// Writes `v` in eight bytes, little-endian.
    ///
    /// # Errors
    ///
    /// `Io` if the writer fails. It may have taken a part of the bytes then.
    final fn encode_u64_le(&mut self, v: u64) -> Result<()>
    where
        Self: Sized,
        ensures written { OnOk result (Appends (Self.contents self.old) (Self.contents self.new)
            (little_bytes 8 v)) }
        ensures io { IfErr result IsIo }
    {
        self.write_u64::<LittleEndian>(v)?;
        Ok(())
    }

    /// Writes `v` in two's complement in four bytes, little-endian.
    ///
    /// # Errors
    ///
    /// `Io` if the writer fails. It may have taken a part of the bytes then.
    final fn encode_i32_le(&mut self, v: i32) -> Result<()>
    where
        Self: Sized,
        ensures written { OnOk result
            (Appends (Self.contents self.old) (Self.contents self.new) (signed_le_bytes w32 v)) }
        ensures io { IfErr result IsIo }
    {
        self.write_i32::<LittleEndian>(v)?;
        Ok(())
    }

    /// Writes `v` in two's complement in eight bytes, little-endian.
    ///
    /// # Errors
    ///
    /// `Io` if the writer fails. It may have taken a part of the bytes then.
    final fn encode_i64_le(&mut self, v: i64) -> Result<()>
    where
        Self: Sized,
        ensures written { OnOk result
            (Appends (Self.contents self.old) (Self.contents self.new) (signed_le_bytes w64 v)) }
        ensures io { IfErr result IsIo }
    {
        self.write_i64::<LittleEndian>(v)?;
        Ok(())
    }

    /// Writes `v` in base 128 (a varint, as in protobuf), in its shortest form of one to ten bytes: 300 is
    /// `ac 02`.
    ///
    /// # Errors
    ///
    /// `Io` if the writer fails. It may have taken a part of the bytes then.
    final fn encode_var_u64(&mut self, v: u64) -> Result<()>
    where
        Self: Sized,
        ensures written { OnOk result (Appends (Self.contents self.old) (Self.contents self.new)
            (varint v)) }
        ensures io { IfErr result IsIo }
    {
        // Most numbers are this short, and one byte is quickly written.
        if v < 0x80 && varint::write_byte(self, v as u8)? {
            return Ok(());
        }
        let mut bytes = [0; varint::MAX_VAR_U64_LEN];
        let len = varint::put_var_u64(&mut bytes, v);
        self.write_all(&bytes[..len])?;
        Ok(())
    }

    /// Writes `v` as the varint of its zigzag code, which is small if `v` is near 0: `2v` if `v` is at least
    /// 0, and `-2v - 1` if it is negative. This is protobuf's `sint64`.
    ///
    /// # Errors
    ///
    /// `Io` if the writer fails. It may have taken a part of the bytes then.
    final fn encode_var_i64(&mut self, v: i64) -> Result<()>
    where
        Self: Sized,
        ensures written { OnOk result (Appends (Self.contents self.old) (Self.contents self.new)
            (varint (zigzag v))) }
        ensures io { IfErr result IsIo }
    {
        self.encode_var_u64(zigzag::to_zigzag(v))
    }
}

impl<W: Write> NumberEncoder for W {}
