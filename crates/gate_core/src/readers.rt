//! What a caller that shares the book looks at while it waits, and settles by.
//! Each only reads and allocates nothing.
ghost use Rattle.std.specs.Prelude.{◌≡◌, length};
ghost use Rattle.std.specs.Option.{option_copied};
ghost use Rattle.gate_history.specs.History.{entry_count, started_count};
ghost use Rattle.gate_history.specs.Outstanding.{is_running, is_unspent, running, stands, unspent};
ghost use Rattle.gate_history.specs.Standing.{has_turn, in_flight, is_fetching, known_count};
ghost use Rattle.gate_core.specs.Gate.{history};
ghost use Rattle.gate_core.specs.PermitUrls.{IsPermitUrl};
ghost use Rattle.gate_core.specs.States.{IsStanding};

use crate::book::Book;
use authority_cache::{CachedAnswer, TurnNo};
use gate_history::Entry;
use path_normal::PageUrl;
use permit_book::PermitNo;
use robots_text::Token;

impl Book {
    /// Whether the number has an unspent permit.
    pub fn is_unspent(&self, number: PermitNo) -> bool
        ensures { result ≡ is_unspent (history self.now) number }
    {
        self.permits.is_unspent(number)
    }

    /// The URL of the number's unspent permit, if any.
    pub fn url_of(&self, number: PermitNo) -> Option<&PageUrl>
        ensures { IsPermitUrl (history self.now) number (option_copied result) }
    {
        if !self.permits.is_unspent(number) {
            return None;
        }
        self.permits.url_of(number)
    }

    /// Whether the number has an unspent permit for this token and URL.
    pub fn stands(&self, number: PermitNo, token: &Token, url: &PageUrl) -> bool
        ensures { result ≡ stands (history self.now) number token.now url.now }
    {
        self.permits.stands(number, token, url)
    }

    /// Whether a fetch under this number is running.
    pub fn is_running(&self, number: PermitNo) -> bool
        ensures { result ≡ is_running (history self.now) number }
    {
        self.permits.is_running(number)
    }

    /// Whether a turn of the authority is in flight.
    pub fn is_fetching(&self, authority: &str) -> bool
        ensures { result ≡ is_fetching (history self.now) authority.now }
    {
        self.cache.in_flight(authority)
    }

    /// Whether this turn of the authority is in flight.
    pub fn has_turn(&self, authority: &str, turn: TurnNo) -> bool
        ensures { result ≡ has_turn (history self.now) authority.now turn }
    {
        self.cache.has_turn(authority, turn)
    }

    /// The authority's answer, in force or older than its life, if any.
    pub fn standing(&self, authority: &str) -> Option<&CachedAnswer>
        ensures { IsStanding (history self.now) authority.now (option_copied result) }
    {
        self.cache.standing(authority)
    }

    /// The entries of the history, with those before its base.
    pub fn entry_count(&self) -> u64
        ensures { result ≡ entry_count (history self.now) }
    {
        self.base.entries() + self.entries.len() as u64
    }

    /// The started fetches, with those before the base.
    pub fn started_count(&self) -> u64
        ensures { result ≡ started_count (history self.now) }
    {
        self.starts
    }

    /// How many authorities have an answer or a turn.
    pub fn known_count(&self) -> u64
        ensures { result ≡ known_count (history self.now) }
    {
        self.cache.known_count()
    }

    /// Unspent permits.
    pub fn unspent_count(&self) -> u64
        ensures { result ≡ length (unspent (history self.now)) }
    {
        self.permits.unspent_count()
    }

    /// Running fetches.
    pub fn running_count(&self) -> u64
        ensures { result ≡ length (running (history self.now)) }
    {
        self.permits.running_count()
    }

    /// Turns in flight.
    pub fn flight_count(&self) -> u64
        ensures { result ≡ length (in_flight (history self.now)) }
    {
        self.cache.flight_count()
    }
}
