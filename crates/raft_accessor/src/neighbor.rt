//! The two ways in which tables are merged into others.

/// How tables that are merged into others are related to these.
#[derive(Clone, Copy, PartialEq, Eq, Debug)]
pub enum Neighbor {
    /// They have the steps that follow directly, in the same queue.
    Newer,
    /// They are those of the append queue; the others are those of the rewrite queue.
    Appended,
}
