//! The cache of what is known of each authority, by its text.
//! RFC 9309, sections 2.3.1 and 2.4.
ghost use Rattle.std.specs.Prelude.{◌≡◌, []};
ghost use Rattle.authority_cache.specs.Sites.{IsApart, flight_count, has_turn, is_flying, known_count, site_of};

use crate::ends::Ends;
use crate::site::Site;
use crate::turn::TurnNo;
use indexmap::IndexMap;
use robots_verdict::Answer;
use std::alloc::Global;
use std::cell::Cell;
use std::hash::RandomState;
use std::marker::Model;

// The hasher has random keys, so no site can choose its bucket.
pub type Sites = IndexMap<String, Site, RandomState>;

/// What is known of authorities: the answer and the turn in flight of each.
pub struct Cache {
    pub(crate) limit: u64,
    pub(crate) sites: Sites,
    pub(crate) flights: u64,
    // When the answers end, with room for the turns in flight.
    pub(crate) ends: Ends,
    // The answer that the last arrival replaced, freed by whoever takes it.
    pub(crate) replaced: Option<Answer>,
    // The place of the site that was found last: successive calls are mostly about one site.
    pub(crate) last: Cell<usize>,
}

// Let go by one call: no crate above proves anew how its parts end.
impl Drop for Cache {
    fn drop(self) {
        let Cache {
            limit: _,
            sites: _,
            flights: _,
            ends: _,
            replaced: _,
            last: _,
        } = self;
    }
}

impl Model for Cache {
    ghost use Rattle.authority_cache.specs.Sites.{Known};

    ghost Value = { Known };

    ghost use Rattle.authority_cache.specs.Kept.{known_of, IsSound};

    ghost view = { known_of };

    ghost invariant = { IsSound };
}

impl Cache {
    /// An empty cache for this many authorities, with the keys of its hasher.
    pub fn new(alloc: Global, limit: u64, keys: RandomState) -> Cache
        ensures limit { result.limit ≡ limit }
        ensures empty { result.sites ≡ [] }
    {
        Cache {
            limit,
            sites: IndexMap::with_hasher(alloc, keys),
            flights: 0,
            ends: Ends::new(alloc),
            replaced: None,
            last: Cell::new(0),
        }
    }

    /// This cache with another limit of authorities. If more are known they stay, and none is added until
    /// there are fewer. Takes no memory.
    pub fn limited(self, limit: u64) -> Cache
        ensures limit { result.limit ≡ limit }
        ensures sites { result.sites ≡ self.sites }
    {
        let mut cache = self;
        cache.limit = limit;
        cache
    }

    /// Whether a turn of the authority is in flight.
    pub fn in_flight(&self, authority: &str) -> bool
        ensures { result ≡ is_flying (site_of self.now authority.now) }
    {
        self.find(authority).is_fetching
    }

    /// Whether this turn of the authority is in flight.
    pub fn has_turn(&self, authority: &str, turn: TurnNo) -> bool
        ensures { result ≡ has_turn turn (site_of self.now authority.now) }
    {
        match self.sites.get(authority) {
            Some(site) => site.has_turn(turn),
            None => false,
        }
    }

    /// How many authorities have an answer or a turn in flight.
    pub fn known_count(&self) -> u64
        ensures value { result ≡ known_count self.now }
        ensures apart { IsApart self.now }
    {
        self.sites.len() as u64
    }

    /// How many turns are in flight.
    pub fn flight_count(&self) -> u64
        ensures value { result ≡ flight_count self.now }
        ensures apart { IsApart self.now }
    {
        // The map's length shows that its keys differ.
        let _ = self.sites.len();
        self.flights
    }

    /// How many authorities may be known.
    pub fn limit(&self) -> u64
        ensures { result ≡ self.now.limit }
    {
        self.limit
    }
}
