//! The begin of a turn to fetch a robots.txt.
//! RFC 9309, section 2.3.
ghost use Rattle.std.specs.Prelude.{◌≡◌, ℕ, ◌+◌, ◌*◌, ◌^◌, ◌<◌, ◌≤◌, List, ◌∷◌, ◌++◌, [], None, IfErr, OnErr, OnOk, length};
ghost use Rattle.std.specs.HashMap.{get_by_text};
ghost use Rattle.authority_cache.specs.Sites.{IsApart, nothing_known, site_of, with_flight};
ghost use Rattle.authority_cache.specs.Calls.{Begins, Changes, IsFound, MayBegin};
ghost use Rattle.authority_cache.specs.Ends.{Covers, HasRoomForEnds, KeptEnds};
ghost use Rattle.authority_cache.specs.Kept.{AllKnown, AreNamed, known_in, said_entries};

use crate::cache::{Cache, Sites};
use crate::ends::{Ends, keep_end};
use crate::find::FoundSite;
use crate::refusal::FlightRefusal;
use crate::site::{Flight, Site};
use crate::turn::TurnNo;
use path_normal::Authority;
use std::alloc::AllocError;

impl Cache {
    /// Begins a turn at this moment, in seconds. Makes room for its arrival.
    pub fn begin(
        &mut self,
        authority: &Authority,
        turn: TurnNo,
        moment: u64,
    ) -> Result<(), FlightRefusal>
        ensures reply { Begins self.old authority.now
            (record { turn = turn; begun = moment }) result self.new }
        ensures apart { IsApart self.old }
    {
        self.begin_at(self.find(authority.text()), authority, turn, moment)
    }

    /// Begins a turn of an authority already found, without a second look-up.
    pub fn begin_at(
        &mut self,
        found: FoundSite,
        authority: &Authority,
        turn: TurnNo,
        moment: u64,
    ) -> Result<(), FlightRefusal>
        requires { IsFound self.old authority.now found }
        ensures reply { Begins self.old authority.now
            (record { turn = turn; begun = moment }) result self.new }
        ensures apart { IsApart self.old }
    {
        may_begin(&self.sites, self.limit, found)?;
        make_room(&self.sites, &mut self.ends, self.flights)?;
        let flight = Flight {
            turn,
            begun: moment,
        };
        open(&mut self.sites, found, authority, flight)?;
        self.flights += 1;
        Ok(())
    }
}

// Whether a turn may begin: none is in flight, and there is a place for a new site.
fn may_begin(sites: &Sites, limit: u64, found: FoundSite) -> Result<(), FlightRefusal>
    requires all { AllKnown sites.now.entries }
    ensures may { (authority : List ℕ) → IsFound (known_in limit sites.now.entries) authority found
        → MayBegin (known_in limit sites.now.entries) authority result }
    ensures apart { IsApart (known_in limit sites.now.entries) }
    ensures few { length sites.now.entries < 2 ^ 63 }
{
    let is_full = sites.len() as u64 >= limit;
    if found.is_fetching {
        return Err(FlightRefusal::InFlight);
    }
    if found.index.is_none() && is_full {
        return Err(FlightRefusal::AuthoritiesFull);
    }
    Ok(())
}

// Makes room for the end of one more turn. If more than half of the ends are obsolete, rebuilds them first,
// so that they stay at most about twice the sites.
fn make_room(sites: &Sites, ends: &mut Ends, flights: u64) -> Result<(), AllocError>
    requires covered { Covers ends.old sites.now.entries }
    requires room { HasRoomForEnds ends.old flights × (flights ≤ length sites.now.entries) }
    ensures covered { Covers ends.new sites.now.entries }
    ensures room { HasRoomForEnds ends.new flights }
    ensures ok { OnOk result (HasRoomForEnds ends.new (flights + 1)) }
    ensures few { length ends.new.ends ≤ length sites.now.entries * 2 + 1 }
{
    if ends.len() / 2 > sites.len() {
        renew(sites, ends);
    }
    ends.reserve(flights as usize + 1)
}

fn renew(sites: &Sites, ends: &mut Ends)
    requires { length sites.now.entries ≤ ends.old.room }
    ensures covered { Covers ends.new sites.now.entries }
    ensures many { length ends.new.ends ≤ length sites.now.entries }
    ensures room { ends.old.room ≤ ends.new.room }
{
    ends.clear();
    for index in 0..sites.len() {
        keep_end(sites, ends, index);
    }
}

fn open(
    sites: &mut Sites,
    found: FoundSite,
    authority: &Authority,
    flight: Flight,
) -> Result<(), FlightRefusal>
    requires all { AllKnown sites.old.entries }
    requires found { IsFound (known_in 0 sites.old.entries) authority.now found }
    ensures opened { OnOk result ((limit : ℕ) → Changes (known_in limit sites.old.entries)
        authority.now (with_flight flight (site_of (known_in limit sites.old.entries) authority.now))
        (known_in limit sites.new.entries)) }
    ensures err { IfErr result (λ refusal. (refusal ≡ FlightRefusal.NoMemory)
        × (sites.new.entries ≡ sites.old.entries)) }
    ensures known { AllKnown sites.new.entries }
    ensures covered { (kept : KeptEnds) → Covers kept sites.old.entries
        → Covers kept sites.new.entries }
{
    let Some(index) = found.index else {
        return add(sites, authority, flight);
    };
    match sites.get_index_mut(index) {
        Some(site) => site.begin(flight),
        None => unreachable!(),
    }
    Ok(())
}

fn add(sites: &mut Sites, authority: &Authority, flight: Flight) -> Result<(), FlightRefusal>
    requires { get_by_text sites.old authority.now ≡ None }
    ensures named { AreNamed sites.old.entries → AreNamed sites.new.entries }
    ensures ok { OnOk result (said_entries sites.new.entries ≡ said_entries sites.old.entries
        ++ (authority.now, with_flight flight nothing_known) ∷ []) }
    ensures err { IfErr result (λ refusal. refusal ≡ FlightRefusal.NoMemory) }
    ensures same { OnErr result (sites.new.entries ≡ sites.old.entries) }
    ensures covered { (kept : KeptEnds) → Covers kept sites.old.entries
        → Covers kept sites.new.entries }
{
    let name = String::from_str(*sites.allocator(), authority.text())?;
    let site = Site {
        name: authority.copy()?,
        standing: None,
        in_flight: Some(flight),
    };
    match sites.insert(name, site) {
        Ok(_) => Ok(()),
        Err(_) => Err(FlightRefusal::NoMemory),
    }
}
