//! The outputs that the commands write to.

ghost use Rattle.std.specs.Prelude.{◌≡◌, [], IfOk};
ghost use Rattle.std.specs.Io.KnownBytes.{Keeps, append_known};
ghost use Rattle.raftlog.specs.Outputs.{lines_contents};

use crate::errors::{ToolError, ToolResult};
use crate::host::Screen;
use crate::progress::Progress;
use raft_base::{Error, Result};
use std::alloc::Global;
use std::io;
use std::io::{BufWriter, Write};

/// The number of bytes that are kept before they are written.
const KEPT: usize = 1 << 16;

/// An output that keeps lines and writes many at once. It remembers whether anything was written to it, and whether the output behind it
/// failed.
#[derive(Drop)]
pub(crate) struct Lines<W: Write + Drop> {
    /// The output, with the bytes that aren't written yet.
    out: BufWriter<W>,
    /// Whether a write to the output failed.
    has_failed: bool,
    /// Whether any byte was given to be written.
    is_any: bool,
}

impl<W: Write + Drop> Lines<W> {
    /// Makes an output that keeps lines and writes them to `out`. Nothing was written to it yet.
    ///
    /// # Errors
    ///
    /// `Memory` alone. `out` is lost then.
    pub(crate) fn new(alloc: Global, out: W) -> ToolResult<Lines<W>>
        ensures { IfOk result (λ lines. lines_contents W.contents lines ≡ append_known (W.contents out) []) }
    {
        match BufWriter::with_capacity(alloc, KEPT, out) {
            Ok(out) => Ok(Lines {
                out,
                has_failed: false,
                is_any: false,
            }),
            Err(_) => Err(ToolError::Memory),
        }
    }

    /// Tests whether no byte was given to be written.
    pub(crate) fn is_empty(&self) -> bool {
        !self.is_any
    }

    /// Writes the lines that are still kept. Returns the output, and the value that `made` holds: what the call that wrote them returned.
    ///
    /// # Errors
    ///
    /// `Output` if the output takes no more; else the error in `made`, as `Raft`. The lines that are kept are written then as far as they
    /// can be, and the output is lost.
    pub(crate) fn finish<T: Drop>(self, made: Result<T>) -> ToolResult<(W, T)>
        ensures made { IfOk result (λ ended. made ≡ Ok ended.1) }
        ensures whole { IfOk result (λ ended. Keeps (lines_contents W.contents self) (W.contents ended.0)) }
    {
        match made {
            Ok(made) => match self.out.into_inner() {
                Ok(out) => Ok((out, made)),
                Err(unwritten) => Err(ToolError::Output(unwritten.into_error())),
            },
            Err(Error::Io(error)) if self.has_failed => Err(ToolError::Output(error)),
            Err(error) => Err(ToolError::Raft(error)),
        }
    }
}

impl<W: Write + Drop> Write for Lines<W> {
    ghost use Rattle.raftlog.specs.Outputs.{lines_contents};

    ghost contents = { lines_contents W.contents };

    /// Keeps the bytes, or writes what is kept to make room. Notes whether that failed.
    fn write(&mut self, buf: &[u8]) -> io::Result<usize> {
        let written = self.out.write(buf);
        self.is_any = self.is_any || !buf.is_empty();
        self.has_failed = self.has_failed || written.is_err();
        written
    }

    /// Writes what is kept. Notes whether that failed.
    fn flush(&mut self) -> io::Result<()> {
        let flushed = self.out.flush();
        self.has_failed = self.has_failed || flushed.is_err();
        flushed
    }
}

/// An output that clears the progress bar before something is written, so that no line follows what is left of the bar.
#[derive(Drop)]
pub(crate) struct OverBar<'a, R: Screen, W: Write> {
    /// The machine, whose standard error has the bar.
    rt: &'a R,
    /// How far the reading is; it knows whether the bar is shown.
    progress: &'a Progress,
    /// The output that is written to.
    out: &'a mut W,
}

impl<'a, R: Screen, W: Write> OverBar<'a, R, W> {
    /// Makes an output that writes to `out`, and clears the bar of `progress` first.
    pub(crate) fn new(rt: &'a R, progress: &'a Progress, out: &'a mut W) -> OverBar<'a, R, W> {
        OverBar { rt, progress, out }
    }
}

impl<R: Screen, W: Write> Write for OverBar<'_, R, W> {
    ghost contents = { λ over. W.contents over.out.now };

    /// Clears the bar if it is shown, and writes.
    fn write(&mut self, buf: &[u8]) -> io::Result<usize> {
        if let Some(clear) = self.progress.clear() {
            self.rt.show(clear);
        }
        self.out.write(buf)
    }

    /// Clears the bar if it is shown, and writes all bytes.
    fn write_all(&mut self, buf: &[u8]) -> io::Result<()> {
        if let Some(clear) = self.progress.clear() {
            self.rt.show(clear);
        }
        self.out.write_all(buf)
    }

    /// Flushes the output. The bar stays.
    fn flush(&mut self) -> io::Result<()> {
        self.out.flush()
    }
}
