//! What an operator may see of a gate: how much it keeps.
//! Read by each `Keeper`, for the verb INFO.
ghost use Rattle.std.specs.Prelude.{◌≡◌};
ghost use Rattle.keepers.specs.Counting.{counts_of};

use gate_core::Book;

/// How much a gate keeps, at one moment.
#[derive(Clone, Copy, Debug, PartialEq, Eq)]
pub struct Counts {
    /// The history's entries since the last seal.
    pub entries: u64,
    /// All entries, sealed ones included.
    pub ever: u64,
    /// All started fetches, sealed ones included.
    pub starts: u64,
    /// The unspent permits.
    pub permits: u64,
    /// The fetches of pages under way.
    pub running: u64,
    /// The fetches of robots.txt files under way.
    pub turns: u64,
    /// The authorities that have an answer or a turn.
    pub authorities: u64,
    /// The history's free entries, beside those promised to what is out and under way.
    pub room: u64,
}

/// The counts of a book.
pub(crate) fn counts_of(book: &Book) -> Counts
    ensures { result ≡ counts_of book.now }
{
    let entries = book.history().len() as u64;
    let permits = book.unspent_count();
    let running = book.running_count();
    let turns = book.flight_count();
    let most = book
        .limits()
        .log_limit
        .min(u64::MAX - book.base().entries());
    Counts {
        entries,
        ever: book.entry_count(),
        starts: book.started_count(),
        permits,
        running,
        turns,
        authorities: book.known_count(),
        room: most.saturating_sub(entries + (turns + 2 * permits + running)),
    }
}
