//! What the commands ask of the machine.

use raft_folder::FolderHost;
use raft_recover::SharedFiles;
use std::env;
use std::io::{IsTerminal, Write};
use std::thread::Threads;
use std::time::Clock;

/// A machine with files, folders and threads, and perhaps a terminal.
pub(crate) trait Host: FolderHost + SharedFiles + Threads + Sync + Screen {}

impl<R: FolderHost + SharedFiles + Threads + Sync + Screen> Host for R {}

/// What a progress bar needs: a clock, and standard error, which may be a terminal. Any number of threads may use it at once.
pub(crate) trait Screen: Sync {
    /// Returns the milliseconds since some fixed moment. `None` if no bar is to be shown: standard error isn't a terminal, `TERM` isn't set
    /// or is `dumb`, or the clock can't be read.
    fn millis(&self) -> Option<u64>;

    /// Writes text to standard error. That it can't be written is no error.
    fn show(&self, text: &str);
}

impl Screen for HostRuntime {
    /// Returns the milliseconds of the machine's monotonic clock. `None` if standard error isn't a terminal, `TERM` isn't set or is `dumb`,
    /// or the clock can't be read.
    fn millis(&self) -> Option<u64> {
        if !self.stderr().is_terminal() || is_dumb(self) {
            return None;
        }
        let since = self.monotonic().ok()?;
        u64::try_from(since.as_millis()).ok()
    }

    /// Writes text to standard error. That it can't be written is no error.
    fn show(&self, text: &str) {
        let _ = self.stderr().write_all(text.as_bytes());
    }
}

/// Tests whether the terminal may be unable to clear a line: `TERM` isn't set, or is `dumb`.
fn is_dumb(rt: &HostRuntime) -> bool {
    match env::var(rt, "TERM") {
        Ok(name) => name.as_str() == "dumb",
        Err(_) => true,
    }
}
