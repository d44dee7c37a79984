//! How busy a loop is, for a page of metrics.

/// How busy a loop is.
#[derive(Clone, Copy, Debug, PartialEq, Eq)]
pub struct Load {
    /// The connections that are open.
    pub open: usize,
    /// Those of them that wait for a worker.
    pub called: usize,
    /// Those of them that wait for a worker and for the leave to take a slow step.
    pub called_slow: usize,
    /// The slow steps under way.
    pub slow: usize,
}
