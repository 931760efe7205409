//! Cutting torn tails off files, as an opening would.

ghost use Rattle.std.specs.Prelude.{◌≡◌, ◌++◌, ◌<◌, ◌≤◌, IfErr, IfOk, OnErr, OnOk};
ghost use Rattle.std.specs.Io.KnownBytes.{Appends};
ghost use Rattle.raft_engine.specs.OpeningAsks.{FailsAmong};
ghost use Rattle.raft_inspect.specs.CutShort.{IsOpeningCutShort};
ghost use Rattle.raft_inspect.specs.Cuts.{IsCutAsOpened, IsCutFault, cut_asked, opening_cuts};
ghost use Rattle.raft_inspect.specs.PrintedForms.{opening_lines};

use crate::opening::{Opening, try_opening};
use crate::report::print_opening;
use raft_base::{LogQueue, Result, Version};
use raft_engine::CutTail;
use raft_files::EngineFiles;
use raft_reading::ReadFiles;
use raft_report::{Form, PrintResult};
use raft_survey::BothSizes;
use std::alloc::Global;
use std::io::Write;
use std::thread::Threads;

/// Finds out what an opening by `workers` threads, 1 to 256, would do with the files that `sizes` names, prints that to `out`, and then
/// cuts off what the opening would. Returns what the opening would do. Of files that an opening refuses nothing is asked. The files are
/// read through `source`, in pieces, and cut through `files`: both have to stand for the same files.
///
/// # Errors
///
/// - `Output` if the output takes no more; `Files` of `Io` if the system refuses a read, or of `Memory`. Nothing was asked of `files` then, and
///   nothing is printed, or a prefix of the lines.
/// - `Files` of an error of [`EngineFiles::truncate`]. All lines were printed then, and the tail of the append queue may have been cut off.
pub fn cut_as_opened<R: Threads + Sync, S: ReadFiles, F: EngineFiles, W: Write>(
    rt: &R,
    alloc: Global,
    form: Form,
    source: &S,
    version: Version,
    sizes: &BothSizes,
    workers: usize,
    files: &mut F,
    out: &mut W,
) -> PrintResult<Opening>
    requires { (0 < workers) × (workers ≤ 256) }
    ensures ok { IfOk result (IsCutAsOpened (S.gives source.now) (S.may_fail source.now) version workers
        sizes.now.append.items sizes.now.rewrite.items (F.asked files.old) (F.asked files.new)) }
    ensures printed { IfOk result (λ opening. Appends (W.contents out.old) (W.contents out.new)
        (opening_lines form opening)) }
    ensures cut_short { OnErr result (IsOpeningCutShort (S.gives source.now) (S.may_fail source.now) version workers
        sizes.now.append.items sizes.now.rewrite.items form (W.contents out.old) (W.contents out.new)) }
    ensures fault { IfErr result (IsCutFault F.may_fail (S.gives source.now) (S.may_fail source.now) version workers
        sizes.now.append.items sizes.now.rewrite.items (F.asked files.old) (F.asked files.new)) }
{
    let opening = try_opening(rt, alloc, source, version, sizes, workers)?;
    print_opening(form, alloc, &opening, out)?;
    cut_tails(&opening, files)?;
    Ok(opening)
}

/// Cuts off the tails that an opening would cut off, that of the append queue first. Nothing is asked if the opening refuses the files.
///
/// # Errors
///
/// Those of [`EngineFiles::truncate`]. The tail of the append queue may have been cut off then.
fn cut_tails<F: EngineFiles>(opening: &Opening, files: &mut F) -> Result<()>
    ensures ok { OnOk result (F.asked files.new ≡ opening_cuts opening.now ++ F.asked files.old) }
    ensures err { IfErr result (FailsAmong F.may_fail (opening_cuts opening.now) (F.asked files.old) (F.asked files.new)) }
{
    match opening {
        Opening::Refuses(_) => Ok(()),
        Opening::Opens(recovered) => {
            cut_tail(LogQueue::Append, &recovered.append, files)?;
            cut_tail(LogQueue::Rewrite, &recovered.rewrite, files)
        }
    }
}

/// Cuts `tail` off the last file of `queue`; asks nothing for `None`.
///
/// # Errors
///
/// Those of [`EngineFiles::truncate`].
fn cut_tail<F: EngineFiles>(queue: LogQueue, tail: &Option<CutTail>, files: &mut F) -> Result<()>
    ensures ok { OnOk result (F.asked files.new ≡ cut_asked queue tail.now ++ F.asked files.old) }
    ensures err { IfErr result (FailsAmong F.may_fail (cut_asked queue tail.now) (F.asked files.old) (F.asked files.new)) }
{
    match tail {
        None => Ok(()),
        Some(tail) => files.truncate(queue, tail.offset),
    }
}
