//! How the entry bytes of a batch are compressed.

ghost use Rattle.std.specs.Prelude.{◌≡◌, IfOk, IfErr};
ghost use Rattle.raft_base.specs.Compression.{compression_byte, IsCompressionFault};

use crate::{Error, Result};
use std::alloc::Global;

/// How the entry bytes of a batch are compressed. Only uncompressed ones are supported.
#[derive(Clone, Copy, PartialEq, Eq, Debug)]
pub enum CompressionType {
    /// The entry bytes are stored uncompressed.
    None = 0,
}

impl CompressionType {
    /// Returns the compression type that a batch names by `byte`. Only 0 names one. `alloc` is for the text
    /// of an error.
    ///
    /// # Errors
    ///
    /// `Corruption` for any other byte; `Memory` if there is none for its text.
    pub fn from_u8(alloc: Global, byte: u8) -> Result<CompressionType>
        ensures ok { IfOk result (λ compression_type. byte ≡ compression_byte compression_type) }
        ensures fault { IfErr result (IsCompressionFault byte) }
    {
        match byte {
            0 => Ok(CompressionType::None),
            _ => Err(Error::Corruption(format!(in alloc;
                "Unrecognized compression type: {byte}"
            )?)),
        }
    }

    /// Returns the byte by which a batch names the compression type.
    pub fn to_u8(self) -> u8
        ensures { result ≡ compression_byte self }
    {
        self as u8
    }
}
