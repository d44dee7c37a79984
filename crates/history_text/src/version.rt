//! The two spellings of a text's entries.
//! See docs/FORMATS.md.

/// The spelling of a text's entries.
#[derive(Clone, Copy, Debug, PartialEq, Eq)]
pub enum Version {
    /// No first line of its own. Rules have no lifetime, which is the greatest.
    One,
    /// The first line is `V 2`, or that of a base, `V 3`. Rules follow their lifetime.
    Two,
}
