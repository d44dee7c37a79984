//! When a journal's file is synced.
//! docs/FORMATS.md has the words of `--journal-sync`.

/// When text is synced, to survive a crash of the machine. It survives the process in any case.
#[derive(Clone, Copy, Debug, PartialEq, Eq)]
pub enum SyncPolicy {
    /// Before anything of it is sent.
    Always,
    /// Once a second, beside the work.
    Second,
    /// When the system chooses, and at the end of a file.
    Never,
}
