//! The book: the gate's history, and its state in tables.
//! RFC 9309, sections 2.3.1 and 2.4.
ghost use Rattle.std.specs.Prelude.{◌≡◌, ◌+◌, ◌≤◌, [], ◌↔◌, IfOk, IsTrue};
ghost use Rattle.gate_history.specs.Base.{empty_base};
ghost use Rattle.gate_history.specs.History.{at_moment, from};
ghost use Rattle.gate_history.specs.Legal.{AllRise};
ghost use Rattle.gate_core.specs.Gate.{HasLegalHistory, HasRoom, history, promised, room};
ghost use Rattle.gate_core.specs.Limits.{AreLimits, most_entries};

use crate::config::{Config, Limits};
use crate::place_counts::PlaceCounts;
use crate::refusal::NoMemory;
use crate::turn_names::TurnNames;
use authority_cache::Cache;
use gate_history::{Base, Entry};
use permit_book::Permits;
use std::alloc::Global;
use std::marker::Model;

/// The gate of one process: its history, and the calls that extend it.
pub struct Book {
    pub(crate) limits: Limits,
    pub(crate) base: Base,
    // Copies of the turns' authority names.
    pub(crate) names: TurnNames,
    // The valid answers and the turns in flight.
    pub(crate) cache: Cache,
    // What nearly every call changes stands together, since another processor has to fetch it anew: the
    // outstanding permits, also of each authority, the entries, and the gate's moment with the begins and
    // started fetches of the history.
    pub(crate) places: PlaceCounts,
    pub(crate) permits: Permits,
    pub(crate) entries: Vec<Entry>,
    pub(crate) clock: u64,
    pub(crate) begins: u64,
    pub(crate) starts: u64,
}

// Let go by one call: no crate above proves anew how its parts end.
impl Drop for Book {
    fn drop(self) {
        let Book {
            limits: _,
            base: _,
            names: _,
            cache: _,
            places: _,
            permits: _,
            entries: _,
            clock: _,
            begins: _,
            starts: _,
        } = self;
    }
}

impl Model for Book {
    ghost use Rattle.gate_core.specs.Gate.{Gate};

    ghost Value = { Gate };

    ghost use Rattle.gate_core.specs.Kept.{gate_of, IsKept};

    ghost view = { gate_of };

    ghost invariant = { IsKept };
}

impl Book {
    /// A book with an empty history. It takes about a hundred octets a slot.
    pub fn new(alloc: Global, config: Config) -> Result<Book, NoMemory>
        requires { AreLimits config.limits }
        ensures limits { IfOk result (λ book. book.limits ≡ config.limits) }
        ensures base { IfOk result (λ book. book.base ≡ empty_base) }
        ensures entries { IfOk result (λ book. book.entries ≡ []) }
    {
        let Config { limits, keys } = config;
        let permits = Permits::with_slots(alloc, limits.slots, limits.first_generation)?;
        Ok(Book {
            limits,
            base: Base::empty(alloc),
            entries: Vec::new(alloc),
            clock: 0,
            begins: 0,
            starts: 0,
            cache: Cache::new(alloc, limits.authority_limit, keys),
            permits,
            names: TurnNames::new(alloc, keys),
            places: PlaceCounts::new(alloc, keys),
        })
    }

    /// The entries since the base, oldest first.
    pub fn history(&self) -> &[Entry]
        ensures entries { result.now ≡ self.now.entries }
        ensures legal { HasLegalHistory self.now }
        ensures rises { AllRise (from self.now.base) self.now.entries }
        ensures bound { room self.now ≤ self.now.limits.log_limit }
    {
        self.entries.as_slice()
    }

    /// What the history continues from.
    pub fn base(&self) -> &Base
        ensures { result.now ≡ self.now.base }
    {
        &self.base
    }

    /// The limits of the book.
    pub fn limits(&self) -> Limits
        ensures value { result ≡ self.now.limits }
        ensures within { AreLimits self.now.limits }
    {
        self.limits
    }

    /// The moment of a call that hands in this one, in seconds.
    pub(crate) fn moment_of_call(&self, handed_in: u64) -> u64
        ensures { result ≡ at_moment (history self.now) handed_in }
    {
        handed_in.max(self.clock)
    }

    /// The entries promised to what is open.
    pub(crate) fn promised(&self) -> u64
        ensures value { result ≡ promised (history self.now) }
        ensures bound { room self.now ≤ most_entries }
    {
        self.cache.flight_count() + 2 * self.permits.unspent_count() + self.permits.running_count()
    }

    /// Whether this many more entries fit under the log's limit, and all ever made under
    /// 18,446,744,073,709,551,615.
    pub fn has_room(&self, more: u64) -> bool
        requires { more ≤ 3 }
        ensures { IsTrue result ↔ HasRoom self.now more }
    {
        let most = self.limits.log_limit.min(u64::MAX - self.base.entries());
        self.entries.len() as u64 + self.promised() + more <= most
    }
}
