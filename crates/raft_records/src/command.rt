//! Commands, which change a region's log as a whole, and their bytes.

ghost use Rattle.std.specs.Prelude.{◌≡◌, ◌∷◌, ◌++◌, IfOk, IfErr, OnOk, OnErr};
ghost use Rattle.raft_records.specs.Common.{Reads, HasNoFront, varint, IsCommand, IsCommandFault, command_size, command_bytes};

use crate::number::append_number;
use raft_base::{AllocResult, Error, Result};
use raft_codec::codec::{self, BytesSlice};
use std::alloc::Global;

/// The type byte of a Clean.
const CMD_CLEAN: u8 = 1;

/// The type byte of a Compact.
const CMD_COMPACT: u8 = 2;

/// The type byte of a Truncate.
const CMD_TRUNCATE: u8 = 3;

/// A change of a region's log as a whole.
#[derive(Clone, PartialEq, Eq, Debug, Drop)]
pub enum Command {
    /// Removes all entries and key values of the region.
    Clean,
    /// Removes the entries below `index`.
    Compact { index: u64 },
    /// Removes the entries at or above `index`. The removed entries may still be in older files. If some are
    /// in the rewrite queue, write the command to that queue too before the append file with the command is
    /// deleted; otherwise recovery could bring them back.
    Truncate { index: u64 },
}

impl Command {
    /// Returns the approximate length of the encoded command in bytes: one, and eight more for an index. The
    /// exact length is at most that if the index is below 2^56.
    pub(crate) fn approximate_size(&self) -> usize
        ensures { result ≡ command_size self.now }
    {
        match self {
            Command::Clean => 1,
            Command::Compact { .. } | Command::Truncate { .. } => 1 + 8,
        }
    }

    /// Appends the bytes of the command to `buf`: `01` for a Clean, and `02` or `03` with the index in base
    /// 128 for a Compact or a Truncate.
    ///
    /// # Errors
    ///
    /// `Memory` alone. `buf` is unchanged then.
    pub fn encode(&self, buf: &mut Vec<u8>) -> Result<()>
        ensures ok { OnOk result (buf.new.items ≡ buf.old.items ++ command_bytes self.now) }
        ensures err { OnErr result (buf.new.items ≡ buf.old.items) }
        ensures memory { IfErr result (λ e. e ≡ Error.Memory) }
    {
        Ok(self.append_to(buf)?)
    }

    /// Appends the bytes of the command to `buf`, as [`Command::encode`] does, with an error that is only
    /// about memory.
    ///
    /// # Errors
    ///
    /// `AllocError` if there is no memory to grow `buf`, which is unchanged then.
    pub(crate) fn append_to(&self, buf: &mut Vec<u8>) -> AllocResult<()>
        ensures ok { OnOk result (buf.new.items ≡ buf.old.items ++ command_bytes self.now) }
        ensures err { OnErr result (buf.new.items ≡ buf.old.items) }
    {
        match self {
            Command::Clean => Ok(buf.push(CMD_CLEAN)?),
            Command::Compact { index } => append_command_with_index(buf, CMD_COMPACT, *index),
            Command::Truncate { index } => append_command_with_index(buf, CMD_TRUNCATE, *index),
        }
    }

    /// Reads a command from the start of `buf`, and moves `buf` past it. `alloc` is only for the text of an
    /// error.
    ///
    /// # Errors
    ///
    /// `Codec` if the bytes end early or the index is malformed; `Corruption` for an unknown type; `Memory`
    /// if there is none for its text. `buf` is unchanged then.
    pub fn decode(alloc: Global, buf: &mut BytesSlice<'_>) -> Result<Command>
        ensures ok { IfOk result (Reads IsCommand buf.old.now buf.new.now) }
        ensures err { OnErr result (buf.new.now ≡ buf.old.now) }
        ensures refused { OnErr result (HasNoFront IsCommand buf.old.now) }
        ensures fault { IfErr result (IsCommandFault buf.old.now) }
    {
        let (command, rest) = Command::parse(alloc, *buf)?;
        *buf = rest;
        Ok(command)
    }

    /// Reads a command from the start of `bytes`, and returns it with the bytes after it. `alloc` is only for
    /// the text of an error.
    ///
    /// # Errors
    ///
    /// `Codec` if the bytes end early or the index is malformed; `Corruption` for an unknown type; `Memory`
    /// if there is none for its text.
    #[tactic(auto, using(crate::proofs::ItemLemmas::compact_read, crate::proofs::ItemLemmas::truncate_read))]
    pub(crate) fn parse(alloc: Global, bytes: &[u8]) -> Result<(Command, &[u8])>
        ensures ok { IfOk result (λ read. Reads IsCommand bytes.now read.1.now read.0) }
        ensures refused { OnErr result (HasNoFront IsCommand bytes.now) }
        ensures fault { IfErr result (IsCommandFault bytes.now) }
    {
        let Some((kind, behind)) = bytes.split_first() else {
            return Err(Error::Codec(codec::Error::unexpected_eof()));
        };
        let kind = *kind;
        match kind {
            CMD_CLEAN => Ok((Command::Clean, behind)),
            CMD_COMPACT => {
                let (index, rest) = codec::parse_var_u64(behind)?;
                Ok((Command::Compact { index }, rest))
            }
            CMD_TRUNCATE => {
                let (index, rest) = codec::parse_var_u64(behind)?;
                Ok((Command::Truncate { index }, rest))
            }
            _ => Err(Error::Corruption(format!(in alloc; "Unrecognized command type: {kind}")?)),
        }
    }
}

/// Appends `kind`, the type byte of a command, and `index` in base 128 to `buf`.
///
/// # Errors
///
/// `AllocError` if there is no memory to grow `buf`, which is unchanged then.
fn append_command_with_index(buf: &mut Vec<u8>, kind: u8, index: u64) -> AllocResult<()>
    ensures ok { OnOk result (buf.new.items ≡ buf.old.items ++ kind ∷ varint index) }
    ensures err { OnErr result (buf.new.items ≡ buf.old.items) }
{
    let len = buf.len();
    buf.push(kind)?;
    if let Err(e) = append_number(buf, index) {
        buf.truncate(len);
        return Err(e);
    }
    Ok(())
}
