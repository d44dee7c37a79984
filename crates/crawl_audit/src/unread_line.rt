//! Why a line was not read as an entry or as a line of a base, or why its entry was refused.
//! Used by every reader of lines, and by the tables that entries go into.
use std::alloc::AllocError;

/// Why a line was not read.
#[derive(Clone, Copy, PartialEq, Eq)]
pub(crate) enum UnreadLine {
    /// No entry or row that may come there has this line.
    NotOne,
    /// Out of memory.
    NoMemory,
}

impl From<AllocError> for UnreadLine {
    ghost use Rattle.std.specs.Prelude.{◌≡◌};
    ghost use Rattle.crawl_audit.specs.declared.unread_line.UnreadLine.{UnreadLine};

    ghost from_gives = { λ _ unread. unread ≡ UnreadLine.NoMemory };

    fn from(_: AllocError) -> UnreadLine {
        UnreadLine::NoMemory
    }
}
