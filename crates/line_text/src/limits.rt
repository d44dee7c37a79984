//! The longest line of a session or history.
//! docs/FORMATS.md has it.

/// The most octets of such a line, without its end: room for an arrival's replies, or for their rules.
pub const MAX_LONG_LINE: usize = 2_097_152;
