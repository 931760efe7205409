//! [`FolderHost`]: what a folder needs of the machine.

use std::fs::File;
use std::rt::Files;

/// A machine with files and memory, such as the `HostRuntime` of a program.
pub trait FolderHost: Files<File = File> + AllocGlobal + Clone + Drop {}

impl<R: Files<File = File> + AllocGlobal + Clone + Drop> FolderHost for R {}
