//! The check of what stands in a found file after its readable prefix.

ghost use Rattle.std.specs.Prelude.{◌≡◌, ◌≢◌, ◌⊎◌, ℕ, IfErr, OnOk};
ghost use Rattle.raft_engine_prefixes.specs.TornTails.{IsDamagedAt};
ghost use Rattle.raft_engine.specs.FoundFiles.{BeginsInOther, IsDamageText, IsOfEngine, IsOtherText, IsRefusalText, IsRefusedAt};
ghost use Rattle.raft_opening.specs.SizedFiles.{IsRestOf};
ghost use Rattle.raft_records.specs.FilePart.{Part};

use raft_base::{Error, Result};
use raft_engine::RecoveryMode;
use raft_engine::found::{check_beginning, followed, of_elsewhere, uncut};
use raft_records::FilePart;
use raft_tail::{is_broken_off, next_sound, signed_elsewhere};

/// Checks that `mode` allows to cut `rest` off its file: all bytes from the first one on at which no batch can be read.
///
/// # Errors
///
/// `Corruption` if `mode` refuses that, or the file is of the other version; `InvalidArgument` if it is one of raft-engine;
/// `Memory`.
pub fn check_rest(mode: RecoveryMode, rest: &FilePart) -> Result<()>
    ensures tolerated { (whole : Part) (at : ℕ) → IsRestOf whole at rest.now → OnOk result (¬ (IsRefusedAt mode whole at)) }
    ensures of_version { (whole : Part) (at : ℕ) → IsRestOf whole at rest.now
        → OnOk result (at ≡ 0 → ¬ (BeginsInOther whole ⊎ IsOfEngine whole)) }
    ensures refused { (whole : Part) (at : ℕ) → IsRestOf whole at rest.now → IfErr result (λ e. e ≢ Error.Memory
        → (IsRefusedAt mode whole at × IsRefusalText mode whole at e) ⊎ ((at ≡ 0) × IsOtherText whole e)) }
{
    let at = rest.offset() as usize;
    check_beginning(rest, at)?;
    match mode {
        RecoveryMode::AbsoluteConsistency => Err(uncut(rest, at)),
        RecoveryMode::TolerateTornTail => check_undamaged(rest),
        RecoveryMode::TolerateTailCorruption => Ok(()),
    }
}

/// Checks that `rest`, at whose first byte no batch can be read, isn't damage. It isn't if it can be all that a crash left of one
/// batch, or if no batch stands in it that can be read or is signed for another file.
///
/// # Errors
///
/// `Corruption`, which names both places, if it is damage; `Memory`.
fn check_undamaged(rest: &FilePart) -> Result<()>
    ensures ok { (whole : Part) (at : ℕ) → IsRestOf whole at rest.now → OnOk result (¬ (IsDamagedAt whole at)) }
    ensures refused { (whole : Part) (at : ℕ) → IsRestOf whole at rest.now → IfErr result (λ e. e ≢ Error.Memory
        → IsDamagedAt whole at × IsDamageText whole at e) }
{
    let at = rest.offset() as usize;
    if is_broken_off(rest, 0)? {
        return Ok(());
    }
    if let Some(sound) = next_sound(rest, 0)? {
        return Err(followed(rest, at, at + sound));
    }
    if let Some((offset, seq)) = signed_elsewhere(rest, 0)? {
        return Err(of_elsewhere(rest, at, at + offset, seq));
    }
    Ok(())
}
