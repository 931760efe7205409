//! [`RegionStep`]: what an item of a batch does to the table of its region.

ghost use Rattle.std.specs.Prelude.{◌≡◌, option_map};
ghost use Rattle.raft_history.specs.Common.{pair, item_of, content_of, pair_of, step_shown, content_step, command_step, region_step_shown, item_step};

use raft_records::{Command, KeyValue, LogItem, LogItemContent, OpType, is_reserved};
use raft_table::Step;

/// A step on the table of a region.
#[derive(Debug, Drop)]
pub struct RegionStep {
    /// The id of the region.
    pub region: u64,
    /// What is done to its table.
    pub step: Step,
}

impl RegionStep {
    /// Returns the step that `item` makes. Returns `None` if it makes none: it changes the key that is
    /// reserved for group markers, or it is a put without a value or a file.
    pub fn of_item(item: LogItem) -> Option<RegionStep>
        ensures { option_map region_step_shown result ≡ item_step (item_of item) }
    {
        let step = content_step(item.content)?;
        Some(RegionStep {
            region: item.raft_group_id,
            step,
        })
    }
}

/// Returns the step that `content`, that of an item, makes on the table of its region, or `None` if it makes
/// none.
fn content_step(content: LogItemContent) -> Option<Step>
    ensures { option_map step_shown result ≡ content_step (content_of content) }
{
    match content {
        LogItemContent::EntryIndexes(entries) => Some(Step::Run(entries.0)),
        LogItemContent::Command(command) => Some(command_step(command)),
        LogItemContent::Kv(kv) => pair_step(kv),
    }
}

/// Returns the step that `command` makes: a clean, a compaction or a truncation.
fn command_step(command: Command) -> Step
    ensures { step_shown result ≡ command_step command }
{
    match command {
        Command::Clean => Step::Clean,
        Command::Compact { index } => Step::Compact { index },
        Command::Truncate { index } => Step::Truncate { index },
    }
}

/// Returns the step that `kv`, a change of a key, makes: a put or a deletion. Returns `None` if it changes
/// the key that is reserved for group markers, or is a put without a value or a file.
fn pair_step(kv: KeyValue) -> Option<Step>
    ensures { option_map step_shown result ≡ content_step (pair (pair_of kv)) }
{
    if is_reserved(&kv.key) {
        return None;
    }
    match kv.op_type {
        OpType::Put => Some(Step::Put {
            key: kv.key,
            value: kv.value?,
            file_id: kv.file_id?,
        }),
        OpType::Del => Some(Step::Del { key: kv.key }),
    }
}
