//! A progress bar for the reading of files.

use raft_base::AllocResult;
use std::alloc::Global;
use std::sync::atomic::{AtomicBool, AtomicU64, Ordering};

/// The number of milliseconds after which the bar is first shown.
const FIRST: u64 = 1000;

/// The number of milliseconds between two showings of the bar.
const NEXT: u64 = 200;

/// The width of the bar in characters: with the numbers after it, it fits into 40 columns.
const WIDTH: u64 = 12;

/// The text that clears the line of the bar.
const CLEAR: &str = "\r\x1b[K";

/// How far the reading of files is. If it takes more than a second, a bar shows it. Any number of threads may count their reads at once.
#[derive(Drop)]
pub(crate) struct Progress {
    /// What the text of the bar is allocated with.
    alloc: Global,
    /// The number of bytes that will be read.
    total: u64,
    /// The number of bytes that were asked for so far.
    done: AtomicU64,
    /// When the bar is shown next, in milliseconds of [`Screen::millis`](crate::host::Screen::millis); 2^64 - 1 for never.
    due: AtomicU64,
    /// Whether the bar is shown.
    is_shown: AtomicBool,
}

impl Progress {
    /// Begins a reading of `total` bytes. `now` is the time in milliseconds; `None` if no bar is to be shown.
    pub(crate) fn new(alloc: Global, now: Option<u64>, total: u64) -> Progress {
        let due = match now {
            Some(now) => now.saturating_add(FIRST),
            None => u64::MAX,
        };
        Progress {
            alloc,
            total,
            done: AtomicU64::new(0),
            due: AtomicU64::new(due),
            is_shown: AtomicBool::new(false),
        }
    }

    /// Counts `bytes` as read. Returns the text of the bar if it is due at `now`, the time in milliseconds; it counts as shown then. `None`
    /// if it isn't due, `now` is `None`, or there is no memory for the text.
    pub(crate) fn count_read_bytes(&self, now: Option<u64>, bytes: u64) -> Option<String> {
        self.done.fetch_add(bytes, Ordering::SeqCst);
        let now = now?;
        if now < self.due.load(Ordering::SeqCst) {
            return None;
        }
        self.due.store(now.saturating_add(NEXT), Ordering::SeqCst);
        self.is_shown.store(true, Ordering::SeqCst);
        self.bar_text().ok()
    }

    /// Returns the text of the bar.
    ///
    /// # Errors
    ///
    /// Fails only if there is no memory.
    fn bar_text(&self) -> AllocResult<String> {
        let done = self.done.load(Ordering::SeqCst).min(self.total);
        let full = match done.saturating_mul(WIDTH).checked_div(self.total) {
            Some(full) => full,
            None => WIDTH,
        };
        let mut text = String::new(self.alloc);
        append_bar(full, done, self.total, &mut text)?;
        Ok(text)
    }

    /// Returns the text that clears the bar, which then counts as not shown; `None` if it isn't shown. It comes again if the reading goes
    /// on.
    pub(crate) fn clear(&self) -> Option<&'static str> {
        if self.is_shown.swap(false, Ordering::SeqCst) {
            Some(CLEAR)
        } else {
            None
        }
    }
}

/// Appends the bar, of which `full` characters are filled, and how many of the `total` bytes are read, in MiB: `done` are.
fn append_bar(full: u64, done: u64, total: u64, text: &mut String) -> AllocResult<()> {
    text.push_str(CLEAR)?;
    text.push('[')?;
    for at in 0..WIDTH {
        text.push(if at < full { '#' } else { ' ' })?;
    }
    let (read, all) = (done >> 20, total >> 20);
    write!(text, "] {read} of {all} MiB\r")
}
