//! What a crash leaves of a journal of lines, as a law.
//! docs/PARTS.md cites it.
ghost use Rattle.gate_journal.specs.Crashes.{CrashLeavesLines};

/// Cut as a recovery cuts it, what a crash leaves of lines is the first of those written, without gaps; they
/// include all that were kept.
pub fn a_crash_leaves_lines()
    ensures { CrashLeavesLines }
{}
