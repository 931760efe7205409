//! Tells lack of memory from the other errors of reading a batch.

ghost use Rattle.std.specs.Prelude.{◌≡◌, ◌≢◌, IfErr, OnOk};

use raft_base::{Error, Result};

/// Checks that `error` isn't `Memory`: any other error of reading a batch only says that none can be read
/// there.
///
/// # Errors
///
/// `Memory`, if `error` is that.
pub(crate) fn check_not_memory(error: Error) -> Result<()>
    ensures ok { OnOk result (error ≢ Error.Memory) }
    ensures memory { IfErr result (λ e. e ≡ Error.Memory) }
{
    if matches!(error, Error::Memory) {
        return Err(Error::Memory);
    }
    Ok(())
}
