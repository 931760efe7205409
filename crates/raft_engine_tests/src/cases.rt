//! The histories, in a module for each subject.

pub mod failures;
pub mod groups;
pub mod removals;
pub mod rewritings;

use crate::engine::Step;
use raft_base::LogQueue;

/// A history of steps, with what must come of it.
pub struct Case {
    /// The steps, in order.
    pub steps: &'static [Step],
    /// What the tables hold at its end.
    pub kept: &'static str,
    /// What a restart finds in the files at its end.
    pub found: &'static str,
}

const APPENDED: LogQueue = LogQueue::Append;

const REWRITTEN: LogQueue = LogQueue::Rewrite;
