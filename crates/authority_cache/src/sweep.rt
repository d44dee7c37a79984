//! The sweep drops answers older than their lifetimes.
//! RFC 9309, section 2.4.
ghost use Rattle.std.specs.Prelude.{◌≡◌, ℕ, ◌+◌, ◌*◌, ◌^◌, ◌<◌, ◌≤◌, true, length};
ghost use Rattle.std.specs.HashMap.{IsUnique};
ghost use Rattle.std.specs.String.{string_eq};
ghost use Rattle.authority_cache.specs.Sites.{IsApart, flight_count};
ghost use Rattle.authority_cache.specs.Calls.{Sweeps, one_if};
ghost use Rattle.authority_cache.specs.Ends.{AddsOneAtMost, Covers, CoversBut, CoversPast, DropsAnswer, HasRoomForEnds, Removes, SaysPastAt, SweepsPart};
ghost use Rattle.authority_cache.specs.Kept.{AllKnown, IsTended, known_in};

use crate::cache::{Cache, Sites};
use crate::ends::{Ends, keep_end};

impl Cache {
    /// Drops the answers older than their lifetimes at this moment, in seconds, and returns how many. Turns
    /// stay in flight. Takes no memory, and doesn't walk over the sites.
    pub fn sweep(&mut self, moment: u64) -> u64
        ensures swept { Sweeps self.old moment result self.new }
        ensures apart { IsApart self.old }
    {
        // The map's length shows that its keys differ.
        let _ = self.sites.len();
        drop_past(&mut self.sites, &mut self.ends, moment)
    }
}

fn drop_past(sites: &mut Sites, ends: &mut Ends, moment: u64) -> u64
    requires tended { IsTended ends.old sites.old.entries }
    requires few { length sites.old.entries < 2 ^ 63 }
    ensures swept { (limit : ℕ) → Sweeps (known_in limit sites.old.entries) moment result
        (known_in limit sites.new.entries) }
    ensures tended { IsTended ends.new sites.new.entries }
{
    let mut dropped = 0;
    while let Some(index) = ends.pop_before(moment) {
        if drop_at(sites, ends, index, moment) {
            dropped += 1;
        }
    }
    dropped
}

fn drop_at(sites: &mut Sites, ends: &mut Ends, index: usize, moment: u64) -> bool
    requires known { AllKnown sites.old.entries }
    requires past { CoversPast moment index ends.old sites.old.entries }
    requires room { HasRoomForEnds ends.old (flight_count (known_in 0 sites.old.entries) + 1) }
    ensures part { SweepsPart (known_in 0 sites.old.entries) moment (one_if result)
        (known_in 0 sites.new.entries) }
    ensures tended { IsTended ends.new sites.new.entries }
    ensures fewer { length sites.new.entries * 2 + length ends.new.ends
        ≤ length sites.old.entries * 2 + length ends.old.ends }
{
    if !has_past_at(sites, index, moment) {
        return false;
    }
    if drop_answer(sites, index) {
        return true;
    }
    remove(sites, ends, index);
    true
}

fn has_past_at(sites: &Sites, index: usize, moment: u64) -> bool
    ensures value { SaysPastAt moment sites.now.entries index result }
    ensures within { result ≡ true → index < length sites.now.entries }
{
    match sites.get_index(index) {
        Some((_authority, site)) => site.has_past(moment),
        None => false,
    }
}

// Drops the answer at this index; returns whether a turn is in flight there.
fn drop_answer(sites: &mut Sites, index: usize) -> bool
    requires { index < length sites.old.entries }
    ensures drops { DropsAnswer sites.old.entries index result sites.new.entries }
    ensures unique { IsUnique string_eq sites.old }
{
    match sites.get_index_mut(index) {
        Some(site) => {
            site.standing = None;
            site.in_flight.is_some()
        }
        None => unreachable!(),
    }
}

// Removes a site of which nothing is known. The last site takes its index, and its end follows.
fn remove(sites: &mut Sites, ends: &mut Ends, index: usize)
    requires within { index < length sites.old.entries }
    requires others { CoversBut index ends.old sites.old.entries }
    requires room { length ends.old.ends < ends.old.room }
    ensures removed { Removes sites.old.entries index sites.new.entries }
    ensures covered { Covers ends.new sites.new.entries }
    ensures one { AddsOneAtMost ends.old ends.new }
{
    take_site(sites, index);
    keep_end(sites, ends, index);
}

fn take_site(sites: &mut Sites, index: usize)
    requires { index < length sites.old.entries }
    ensures { Removes sites.old.entries index sites.new.entries }
{
    let _ = sites.swap_remove_index(index);
}
