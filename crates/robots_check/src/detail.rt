//! How much a check writes for each URL.
//! See docs/FORMATS.md.

/// How much a check writes for each URL.
#[derive(Clone, Copy, Debug, PartialEq, Eq)]
pub enum Detail {
    /// Only the answer.
    Plain,
    /// Before the answer, the lines that it comes from, and why the winning one wins.
    Explained,
}
