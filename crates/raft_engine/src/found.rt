//! Checks of the files that are found when an engine is opened: their numbers, and the end of the last one.

ghost use Rattle.std.specs.Prelude.{◌≡◌, ◌≢◌, suc, ◌∷◌, ◌++◌, ◌⊎◌, ◌↔◌, ◌≤◌, ◌<◌, [], codes, length, map, IfOk, IfErr, IsTrue, OnOk};
ghost use Rattle.raft_files.specs.HeldFiles.{file_shown};
ghost use Rattle.raft_base.specs.Corruption.{IsArgumentRefusal, IsCorruption};
ghost use Rattle.raft_engine_prefixes.specs.Done.{AreConsecutive, numbers};
ghost use Rattle.raft_files.specs.Disk.{cut_last};
ghost use Rattle.raft_recover.specs.Files.{whole_file};
ghost use Rattle.raft_replay.specs.Stops.{place_text};
ghost use Rattle.raft_engine.specs.CutTails.{IsTailTold, IsTornAs, tail_of};
ghost use Rattle.raft_engine.specs.FoundFiles.{AreAccepted, AreApartAs, AreReadyBy, BeginsInOther, IsApartAs, IsDamageText, IsFoundFault, IsOfEngine, IsOfOther, IsOtherAs, IsOtherText, IsRefusalText, IsRefusedAt, IsTailRefused, IsTailRefusedAs, elsewhere_text, followed_text, missing_text, other_version, uncut_text};
ghost use Rattle.raft_engine.specs.OpeningAsks.{missing_asks};
ghost use Rattle.raft_engine_prefixes.specs.TornTails.{IsDamagedAt};

use crate::recovered::CutTail;
use crate::recovery_mode::RecoveryMode;
use raft_base::{Error, FileId, FileSeq, LogFileContext, LogQueue, Result, Version};
use raft_records::{FilePart, next_in, readable_front};
use raft_replay::segment::{corruption_at, queue_name};
use raft_tail::{is_broken_off, next_sound, signed_elsewhere};
use std::alloc::Global;

/// The text of the error for files whose numbers don't rise.
const NOT_ABOVE: &str = "a file number isn't above the one before it";

/// The text of the error for a file of which nothing may be cut off.
const UNCUT: &str = "no batch can be read there, and nothing may be cut off";

/// How the files of raft-engine begin.
const ENGINE_HEADER: &[u8] = b"RAFT-LOG-FILE-HEADER";

/// The text of the error for a file of raft-engine.
const OF_ENGINE: &str = "the file is one of raft-engine, which begins with a header";

/// The text of the error for a file whose first batch can be read in the other version alone.
const OF_OTHER_VERSION: &str = "a batch of the other version stands there";

/// Checks that the number of each file of `queue` is one above that of the file before it.
///
/// # Errors
///
/// `Corruption` if one isn't; if files are missing between two, the text names the first one missing. `Memory`.
pub fn check_numbers(queue: LogQueue, files: &Vec<(FileSeq, Vec<u8>)>) -> Result<()>
    ensures ok { OnOk result (AreConsecutive (numbers (map file_shown files.now.items))) }
    ensures refused { IfErr result (λ e. e ≢ Error.Memory
        → AreApartAs queue (map file_shown files.now.items) e) }
{
    let Some((first, rest)) = files.split_first() else {
        return Ok(());
    };
    let mut last = first.0;
    for (seq, _) in rest {
        check_next(*files.allocator(), queue, last, *seq)?;
        last = *seq;
    }
    Ok(())
}

/// Checks that `next`, the number of a file of `queue`, is one above `last`, that of the file before it.
///
/// # Errors
///
/// `Corruption` if it isn't; if files are missing between the two, the text names the first one missing. `Memory`.
pub fn check_next(alloc: Global, queue: LogQueue, last: FileSeq, next: FileSeq) -> Result<()>
    ensures ok { OnOk result (next ≡ suc last) }
    ensures refused { IfErr result (λ e. e ≢ Error.Memory → IsApartAs queue last next e) }
{
    if next <= last {
        return Err(Error::corruption(alloc, NOT_ABOVE));
    }
    if next - last > 1 {
        return Err(missing_file_error(alloc, queue, last, next));
    }
    Ok(())
}

/// Returns the error for a queue in which at least one file is missing between the files `last` and `next`: `Corruption`,
/// which names the first one missing, or `Memory` if there is none for the text.
fn missing_file_error(alloc: Global, queue: LogQueue, last: FileSeq, next: FileSeq) -> Error
    requires { suc last < next }
    ensures { IsCorruption (missing_text queue last next) result }
{
    let name = queue_name(queue);
    let missing = last + 1;
    let text = format!(in alloc;
        "{name} file {missing}: it is missing, files {last} and {next} are there"
    );
    match text {
        Ok(text) => Error::Corruption(text),
        Err(_) => Error::Memory,
    }
}

/// Returns the tail of a whole file: its bytes from the first one on at which no batch can be read. `None` if all of the file
/// can be read.
///
/// # Errors
///
/// `Memory` alone.
pub fn tail_of(file: &FilePart) -> Result<Option<CutTail>>
    ensures ok { IfOk result (IsTornAs file.now) }
    ensures memory { IfErr result (λ e. e ≡ Error.Memory) }
{
    let (at, stopped) = readable_front(file);
    let Some(error) = stopped else {
        return Ok(None);
    };
    unless_memory(&error)?;
    Ok(Some(CutTail::from(file, at, error)))
}

/// Checks that `mode` allows to cut `tail` off the file, and that the file is neither of the other version nor one of
/// raft-engine. `tail` is what [`tail_of`] returned for it; without one nothing is checked.
///
/// # Errors
///
/// `Corruption` if `mode` refuses the tail, or the file is of the other version; `InvalidArgument` if it is one of
/// raft-engine; `Memory`.
pub fn check_tail(mode: RecoveryMode, file: &FilePart, tail: &Option<CutTail>) -> Result<()>
    requires { IsTornAs file.now tail.now }
    ensures tolerated { OnOk result (¬ (IsTailRefused mode file.now)) }
    ensures of_version { OnOk result (¬ (IsOfOther file.now)) }
    ensures refused { IfErr result (λ e. e ≢ Error.Memory
        → IsTailRefusedAs mode file.now e ⊎ IsOtherAs file.now e) }
{
    let Some(tail) = tail else {
        return Ok(());
    };
    let at = tail.offset as usize;
    check_beginning(file, at)?;
    check_tolerated(mode, file, at)
}

/// Checks that `mode` allows to cut off the tail of a file that begins at position `at`.
///
/// # Errors
///
/// `Corruption`, which names the place, if it doesn't; `Memory`.
fn check_tolerated(mode: RecoveryMode, file: &FilePart, at: usize) -> Result<()>
    requires { at < length file.now.bytes }
    ensures ok { OnOk result (¬ (IsRefusedAt mode file.now at)) }
    ensures refused { IfErr result (λ e. e ≢ Error.Memory
        → IsRefusedAt mode file.now at × IsRefusalText mode file.now at e) }
{
    match mode {
        RecoveryMode::AbsoluteConsistency => Err(uncut(file, at)),
        RecoveryMode::TolerateTornTail => check_undamaged(file, at),
        RecoveryMode::TolerateTailCorruption => Ok(()),
    }
}

/// Returns the error for a file of which nothing may be cut off, though no batch can be read at position `at`: `Corruption`,
/// which names the place, or `Memory`.
pub fn uncut(file: &FilePart, at: usize) -> Error
    ensures { IsCorruption (uncut_text file.now.id at) result }
{
    corruption_at(file.allocator(), file.id(), at as u64, UNCUT)
}

/// Checks that no damage begins at position `at` of a file, at which no batch can be read. There is none if the bytes from
/// there on can be all that a crash left of one batch. There is none either if no batch stands after that position that can be
/// read, or that is signed for another file.
///
/// # Errors
///
/// `Corruption`, which names both places, if there is damage; `Memory`.
fn check_undamaged(file: &FilePart, at: usize) -> Result<()>
    requires { at < length file.now.bytes }
    ensures ok { OnOk result (¬ (IsDamagedAt file.now at)) }
    ensures refused { IfErr result (λ e. e ≢ Error.Memory
        → IsDamagedAt file.now at × IsDamageText file.now at e) }
{
    if is_broken_off(file, at)? {
        return Ok(());
    }
    if let Some(sound) = next_sound(file, at)? {
        return Err(followed(file, at, sound));
    }
    if let Some((offset, seq)) = signed_elsewhere(file, at)? {
        return Err(of_elsewhere(file, at, offset, seq));
    }
    Ok(())
}

/// Returns the error for a file in which no batch can be read at position `at`, but one can at position `sound` after it:
/// `Corruption`, which names both, or `Memory`.
pub fn followed(file: &FilePart, at: usize, sound: usize) -> Error
    ensures { IsCorruption (followed_text file.now.id at sound) result }
{
    let alloc = file.allocator();
    let reason = format!(in alloc;
        "no batch can be read there, but one stands behind it, at offset {sound}"
    );
    match reason {
        Ok(reason) => corruption_at(alloc, file.id(), at as u64, reason.as_str()),
        Err(_) => Error::Memory,
    }
}

/// Returns the error for a file in which no batch can be read at position `at`, but one stands at position `offset` that is
/// signed for file `seq`: `Corruption`, which names them, or `Memory`.
pub fn of_elsewhere(file: &FilePart, at: usize, offset: usize, seq: FileSeq) -> Error
    ensures { IsCorruption (elsewhere_text file.now.id at offset seq) result }
{
    let alloc = file.allocator();
    let reason = format!(in alloc;
        "no batch can be read there, but at offset {offset} one stands that is signed for file {seq}"
    );
    match reason {
        Ok(reason) => corruption_at(alloc, file.id(), at as u64, reason.as_str()),
        Err(_) => Error::Memory,
    }
}

/// Checks that a file at whose first byte no batch can be read (`at` is 0) is neither of the other version nor one of
/// raft-engine. For any other `at` nothing is checked.
///
/// # Errors
///
/// `Corruption` for the other version, `InvalidArgument` for raft-engine, both with the place; `Memory`.
pub fn check_beginning(file: &FilePart, at: usize) -> Result<()>
    ensures ok { OnOk result (at ≡ 0 → ¬ (BeginsInOther file.now ⊎ IsOfEngine file.now)) }
    ensures refused { IfErr result (λ e. e ≢ Error.Memory
        → (at ≡ 0) × IsOtherText file.now e) }
{
    if at != 0 {
        return Ok(());
    }
    if has_raft_engine_header(file) {
        return Err(raft_engine_file_error(file));
    }
    if begins_in_other_version(file)? {
        return Err(corruption_at(file.allocator(), file.id(), 0, OF_OTHER_VERSION));
    }
    Ok(())
}

/// Tests whether a file begins with the header of raft-engine's files.
fn has_raft_engine_header(file: &FilePart) -> bool
    ensures { IsTrue result ↔ IsOfEngine file.now }
{
    file.bytes().starts_with(ENGINE_HEADER)
}

/// Returns the error for a file of raft-engine: `InvalidArgument`, which names the place, or `Memory`.
fn raft_engine_file_error(file: &FilePart) -> Error
    ensures { IsArgumentRefusal (place_text file.now.id 0 ++ codes "the file is one of raft-engine, which begins with a header") result }
{
    match corruption_at(file.allocator(), file.id(), 0, OF_ENGINE) {
        Error::Corruption(text) => Error::InvalidArgument(text),
        _ => Error::Memory,
    }
}

/// Tests whether at the first byte of a file a batch stands that can be read in the other version.
///
/// # Errors
///
/// `Memory` alone.
fn begins_in_other_version(file: &FilePart) -> Result<bool>
    ensures ok { IfOk result (λ begins. IsTrue begins ↔ BeginsInOther file.now) }
    ensures memory { IfErr result (λ e. e ≡ Error.Memory) }
{
    let context = LogFileContext::new(file.id(), version_other_than(file.version()));
    match next_in(file.allocator(), &context, file.offset(), file.bytes(), 0) {
        Ok(next) => Ok(next.is_some()),
        Err(error) => {
            unless_memory(&error)?;
            Ok(false)
        }
    }
}

/// Returns the version that `version` isn't.
fn version_other_than(version: Version) -> Version
    ensures { result ≡ other_version version }
{
    match version {
        Version::V1 => Version::V2,
        Version::V2 => Version::V1,
    }
}

/// Returns `Ok` for any error other than `Memory`: for calls in which that alone is passed on.
///
/// # Errors
///
/// `Memory`, if `error` is that.
pub fn unless_memory(error: &Error) -> Result<()>
    ensures ok { OnOk result (error.now ≢ Error.Memory) }
    ensures memory { IfErr result (λ e. e ≡ Error.Memory) }
{
    if matches!(error, Error::Memory) {
        return Err(Error::Memory);
    }
    Ok(())
}
