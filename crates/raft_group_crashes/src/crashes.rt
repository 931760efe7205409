//! Tries crashes of a store in random histories, after each batch and each deleted file, and in some
//! histories after each byte. A crash loses everything but the files, and of each queue's last file some of
//! the bytes that weren't synced.

mod crash;
mod disk;
mod history;
mod tail;

use crate::crashes::crash::{CRASHED, Crashes};
use crate::crashes::history::{FOLDER, History};
use crate::folder_pipe::remove_folder;
use crate::store::Host;
use raft_base::Result;

/// How many steps a history has.
const STEPS: u64 = 40;

/// Tries `histories` random histories, with the seeds from `seed` on. In the first `by_bytes` of them a crash
/// is tried at each byte that they write. Prints where a store has something else than it must have, and at
/// the end how many such differences there were. Returns whether there were none.
///
/// # Errors
///
/// `Io` for a file or the output; `Memory`; those of the store's calls. The folders of the histories are left
/// then.
pub(crate) fn try_histories<R: Host + Print + Eprint>(
    rt: &R,
    seed: u64,
    histories: u64,
    by_bytes: u64,
) -> Result<bool> {
    let mut crashes = Crashes {
        rt,
        each_byte: false,
        tried: 0,
        different: 0,
    };
    for number in 0..histories {
        crashes.each_byte = number < by_bytes;
        let different = crashes.different;
        let mut history = History::begin(rt, seed.wrapping_add(number))?;
        for step in 0..STEPS {
            history.run_step(&mut crashes)?;
            if crashes.different > different {
                println!(rt; "history {number}, step {step}: different")?;
                break;
            }
        }
    }
    remove_folder(rt, FOLDER)?;
    remove_folder(rt, CRASHED)?;
    eprintln!(rt; "{} recoveries", crashes.tried)?;
    println!(rt;
        "{histories} histories from seed {seed} on, {by_bytes} at each byte: {} different",
        crashes.different
    )?;
    Ok(crashes.different == 0)
}
