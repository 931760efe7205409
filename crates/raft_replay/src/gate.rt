//! Gates: calls that workers make before each segment.

/// What a worker calls before it replays a segment, for whoever wants to watch a recovery or to slow it down.
pub trait Gate: Send + Sync {
    /// Is called by a worker before it replays the segment numbered `segment`, which it has drawn. The worker
    /// waits until it returns.
    fn pass(&self, segment: usize);
}

/// A gate that does nothing.
#[derive(Debug, Clone, Copy)]
pub struct OpenGate;

impl Gate for OpenGate {
    /// Returns at once, so that no worker waits.
    fn pass(&self, _segment: usize) {}
}
