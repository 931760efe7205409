//! Opening an engine over files that are read in pieces.

ghost use Rattle.std.specs.Prelude.{◌≡◌, ◌⊎◌, [], IfErr, IfOk};
ghost use Rattle.raft_opening.specs.ReadOnce.{AreUnreadAs, IsHalfOpenedOver, IsOpenedOver, IsReadingOf};

use crate::piece_reading::read_in_pieces;
use raft_base::Version;
use raft_engine::reading::ReadFiles as FilesRead;
use raft_engine::{Engine, Opened, RecoveryMode, Unopened};
use raft_files::{Asked, Found, NotesFound};
use raft_reading::{FileSize, ReadFiles};
use std::alloc::Global;
use std::thread::Threads;

/// What is said of found files once they are read in pieces: they have the bytes that the reads gave.
#[derive(Drop)]
struct FoundByReading<'a, S: ReadFiles> {
    /// What the bytes were read from.
    source: &'a S,
    /// The mode in which the files were accepted.
    mode: RecoveryMode,
    /// The version of all files.
    version: Version,
    /// The numbers and lengths of the append files, oldest first.
    append: &'a [FileSize],
    /// The numbers and lengths of the rewrite files, oldest first.
    rewrite: &'a [FileSize],
    /// What was read.
    read: &'a FilesRead,
}

impl<S: ReadFiles> Found for FoundByReading<'_, S> {
    ghost use Rattle.raft_opening.specs.ReadOnce.{IsReadingOver};

    ghost are_found = { λ found. IsReadingOver (S.gives found.source.now) found.mode found.version found.append.now
        found.rewrite.now found.read.now };
}

/// Opens the files that a crash left, as [`Engine::open_telling`] does. `append` and `rewrite` are the numbers and lengths of
/// each queue's files, oldest first. The `workers` threads read their bytes through `source`, piece by piece, each byte once, and
/// let a piece go once its batches are replayed. So besides the tables no more is in memory than a piece of 4 MiB, or a longer
/// batch, for each worker, and what stands in a queue's last file after its readable prefix. What was found is what the reads
/// gave. `files` have to be the same files.
///
/// # Errors
///
/// The files are handed back with each error.
///
/// Nothing was asked of them, nor noted as found, if they are refused for a reason of [`Engine::open_telling`]; or for `Io`,
/// whose text begins with the queue, the file and the offset, if a read fails, or gives another number of bytes than it was asked
/// for. Files that are refused are read once more, to name what comes first. If they aren't refused then, the error is
/// `Corruption`: they changed meanwhile, or a read failed once.
///
/// If a call of `EngineFiles` fails, some of it was asked, and whatever is left of the files has the records that were found.
/// They may be found again, and opened.
pub fn open_in_pieces<R: Threads + Sync, F: NotesFound, S: ReadFiles>(
    rt: &R,
    alloc: Global,
    mode: RecoveryMode,
    version: Version,
    files: F,
    source: &S,
    append: &[FileSize],
    rewrite: &[FileSize],
    workers: usize,
) -> std::result::Result<Opened<F>, Unopened<F>>
    requires { F.asked files ≡ [] }
    ensures ok { IfOk result (λ opened. IsOpenedOver (S.gives source.now) mode version append.now rewrite.now opened.engine
        opened.recovered opened.damaged.items) }
    ensures err { IfErr result (λ unopened. ((F.asked unopened.files ≡ [])
        × AreUnreadAs (S.gives source.now) (S.may_fail source.now) mode version workers append.now rewrite.now unopened.error)
        ⊎ IsHalfOpenedOver (S.gives source.now) F.may_fail mode version append.now rewrite.now (F.asked unopened.files)
        unopened.error) }
{
    match read_in_pieces(rt, alloc, source, mode, version, append, rewrite, workers) {
        Ok(read) => open_after_reading(mode, version, files, source, append, rewrite, read),
        Err(error) => Err(Unopened { files, error }),
    }
}

/// Notes in `files` that the files of a reading were found, asks what is missing in them, and makes an engine over them.
///
/// # Errors
///
/// Those of `EngineFiles`. The files are handed back, as by [`open_in_pieces`].
fn open_after_reading<F: NotesFound, S: ReadFiles>(
    mode: RecoveryMode,
    version: Version,
    files: F,
    source: &S,
    append: &[FileSize],
    rewrite: &[FileSize],
    read: FilesRead,
) -> std::result::Result<Opened<F>, Unopened<F>>
    requires asked { F.asked files ≡ [] }
    requires read { IsReadingOf (S.gives source.now) mode version append.now rewrite.now read }
    ensures ok { IfOk result (λ opened. IsOpenedOver (S.gives source.now) mode version append.now rewrite.now opened.engine
        opened.recovered opened.damaged.items) }
    ensures err { IfErr result (λ unopened. IsHalfOpenedOver (S.gives source.now) F.may_fail mode version append.now
        rewrite.now (F.asked unopened.files) unopened.error) }
{
    let found = Asked::of_found(&FoundByReading {
        source,
        mode,
        version,
        append,
        rewrite,
        read: &read,
    });
    let mut files = files;
    files.note_found(found);
    Engine::of_reading(version, files, read.reading, read.damaged)
}
