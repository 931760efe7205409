//! The files of an engine in a folder, which `raft_folder` and `raft_opening` export.
//!
//! Each function pins names or types: it compiles only as long as these are there as it writes them. None is called for
//! its effect, but where the test at the end says so.

use raft_base::{Error, FileId, FileSeq, LogQueue, Result, Version};
use raft_engine::{Opened, RecoveryMode};
use raft_files::{EngineFiles, NotesFound};
use raft_folder::{
    FolderError, FolderFile, FolderFiles, FolderHost, FolderResult, FoundFolder, KeptTail,
    ReadFolder,
};
use raft_opening::open_folder;
use raft_recover::SharedFiles;
use std::thread::Threads;

type LogFiles = Vec<(FileSeq, Vec<u8>)>;

/// Makes each call of a folder that is open.
///
/// # Errors
///
/// That of the first call that fails.
fn calls<R: FolderHost>(files: &FolderFiles<'_, R>, id: FileId) -> FolderResult<()> {
    let listed: Vec<FolderFile> = FolderFiles::list(files, id.queue)?;
    for file in listed {
        let (_seq, _len): (FileSeq, u64) = (file.seq, file.len);
    }
    let _path: String = FolderFiles::path_of(files, id)?;
    for tail in FolderFiles::kept(files) {
        let KeptTail { len, kept } = tail;
        let (_len, _kept): (&usize, &String) = (len, kept);
    }
    Ok(())
}

/// Opens a folder, and returns the files that were found in it.
///
/// # Errors
///
/// Those of [`FolderFiles::open`] and [`calls`].
fn found(rt: &HostRuntime, path: &str) -> FolderResult<(LogFiles, LogFiles)> {
    let found: FoundFolder<'_, HostRuntime> = FolderFiles::open(rt, path)?;
    is_of_engine(&found.files);
    calls(&found.files, FileId::new(LogQueue::Append, 1))?;
    Ok((found.append, found.rewrite))
}

/// Compiles only for a type that implements `EngineFiles`.
fn is_of_engine<F: EngineFiles>(_files: &F) {}

/// Opens a folder without reading its files, and then the engine of a folder.
///
/// # Errors
///
/// Those of the opening.
fn open_unread<'a, R: FolderHost + SharedFiles + Threads>(
    rt: &'a R,
    path: &'a str,
) -> Result<Opened<FolderFiles<'a, R>>> {
    let files: FolderFiles<'a, R> = FolderFiles::open_unread(rt, path)?;
    notes_found(&files);
    let _paths: Vec<(FileSeq, String)> = FolderFiles::paths(&files, LogQueue::Append)?;
    open_folder(rt, path, RecoveryMode::TolerateTornTail, Version::V2, 1)
}

/// Compiles only for a type that implements `NotesFound`.
fn notes_found<F: NotesFound>(_files: &F) {}

/// Opens a folder to read it, and makes each call of it.
///
/// # Errors
///
/// That of the first call that fails.
fn read<'a, R: FolderHost>(rt: &'a R, path: &'a str) -> FolderResult<LogFiles> {
    let folder: ReadFolder<'a, R> = ReadFolder::open(rt, path)?;
    let _listed: Vec<FolderFile> = ReadFolder::list(&folder, LogQueue::Append)?;
    let _path: String = ReadFolder::path_of(&folder, FileId::new(LogQueue::Append, 1))?;
    let _paths: Vec<(FileSeq, String)> = ReadFolder::paths(&folder, LogQueue::Append)?;
    ReadFolder::bytes_of_files(&folder, LogQueue::Rewrite)
}

/// Returns the path that an error of a folder names. The match names every variant.
fn path_in(error: FolderError) -> Option<String> {
    match error {
        FolderError::System(path, _error) => Some(path),
        FolderError::Locked(path) | FolderError::Misnamed(path) | FolderError::Foreign(path) => {
            Some(path)
        }
        FolderError::Refused(path, _why) => Some(path),
        FolderError::Memory => None,
    }
}

/// Tests that the names above are exported with these types, and that what they give is as it is written here.
#[test]
fn folders_are_handed_on(rt: HostRuntime) {
    let opened: FolderResult<(LogFiles, LogFiles)> = found(&rt, "no_such_folder/folder");
    assert!(rt; matches!(opened, Err(FolderError::System(_, _))));
    assert!(rt; path_in(FolderError::Memory).is_none());
    let refused = read(&rt, "no_such_folder");
    assert!(rt; matches!(refused, Err(FolderError::System(_, _))));
    assert!(rt; matches!(Error::from(FolderError::Memory), Error::Memory));
}
