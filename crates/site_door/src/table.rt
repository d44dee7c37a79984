//! The table of doors, by the texts of their sites.
//! A site without an entry has the unused door.
ghost use Rattle.std.specs.Prelude.{◌≡◌, ℕ, ◌+◌, ◌≤◌, List, None, Some, Err, IfErr, OnErr, OnOk, if◌then◌else◌, is_some, length, true, false};
ghost use Rattle.std.specs.HashMap.{get_by_text};
ghost use Rattle.std.specs.Option.{IsSome};
ghost use Rattle.std.specs.Str.{bytes_eq};
ghost use Rattle.site_door.specs.Doors.{HasNoDoor, door_in, is_idle, later};
ghost use Rattle.site_door.specs.Limits.{most_sites};
ghost use Rattle.site_door.specs.declared.admission.NoDoor.{NoDoor};

use crate::admission::NoDoor;
use crate::door::DoorState;
use indexmap::IndexMap;
use std::hash::RandomState;

/// How many sites have a door.
pub const MOST_SITES: usize = 65_536;

// How many entries are looked at for each new one, so that those that are idle go before the table is full.
const LOOKS: usize = 8;

// The hasher has random keys, so no site can choose its bucket.
pub(crate) type DoorTable = IndexMap<String, DoorState, RandomState>;

/// The site's door, at this moment or later.
pub(crate) fn door_at(table: &DoorTable, latest: u64, site: &str) -> DoorState
    ensures { result ≡ door_in latest table.now site.now }
{
    match table.get(site) {
        Some(door) => door.later(latest),
        None => DoorState::unused().later(latest),
    }
}

/// Sets the door of a site, which may be new.
pub(crate) fn set(
    table: &mut DoorTable,
    hand: &mut usize,
    latest: u64,
    site: &str,
    door: DoorState,
) -> Result<(), NoDoor>
    requires { length table.old.entries ≤ most_sites }
    ensures ok { OnOk result ((other : List ℕ) → door_in latest table.new other
        ≡ later latest (if bytes_eq site.now other then door else door_in latest table.old other)) }
    ensures err { OnErr result ((other : List ℕ) → door_in latest table.new other
        ≡ door_in latest table.old other) }
    ensures none { IfErr result (λ none. HasNoDoor none (door_in latest table.old site.now)
        (length table.new.entries)) }
    ensures few { length table.new.entries ≤ most_sites }
{
    if write(table, site, door) {
        return Ok(());
    }
    drop_idle(table, hand, latest);
    add(table, site, door)
}

// Sets the door of a site that has an entry; returns whether it has.
fn write(table: &mut DoorTable, site: &str, door: DoorState) -> bool
    ensures wrote { result ≡ true → (other : List ℕ) → get_by_text table.new other
        ≡ (if bytes_eq site.now other then Some door else get_by_text table.old other) }
    ensures none { result ≡ false → (get_by_text table.old site.now ≡ None)
        × (table.new ≡ table.old) }
    ensures many { length table.new.entries ≡ length table.old.entries }
{
    match table.get_mut(site) {
        Some(kept) => {
            *kept = door;
            true
        }
        None => false,
    }
}

// Sets the door of a site that has no entry, if there is room for it.
fn add(table: &mut DoorTable, site: &str, door: DoorState) -> Result<(), NoDoor>
    requires none { get_by_text table.old site.now ≡ None }
    requires few { length table.old.entries ≤ most_sites }
    ensures ok { OnOk result ((other : List ℕ) → get_by_text table.new other
        ≡ (if bytes_eq site.now other then Some door else get_by_text table.old other)) }
    ensures err { OnErr result (table.new.entries ≡ table.old.entries) }
    ensures full { result ≡ Err NoDoor.TooManySites → length table.new.entries ≡ most_sites }
    ensures few { length table.new.entries ≤ most_sites }
{
    if table.len() >= MOST_SITES {
        return Err(NoDoor::TooManySites);
    }
    let name = String::from_str(*table.allocator(), site)?;
    match table.insert(name, door) {
        Ok(_) => Ok(()),
        Err(_) => Err(NoDoor::NoMemory),
    }
}

// Looks at some entries, in turn, and takes out those that are idle.
fn drop_idle(table: &mut DoorTable, hand: &mut usize, latest: u64)
    ensures doors { (other : List ℕ) → door_in latest table.new other
        ≡ door_in latest table.old other }
    ensures none { (other : List ℕ) → get_by_text table.old other ≡ None
        → get_by_text table.new other ≡ None }
    ensures few { length table.new.entries ≤ length table.old.entries }
{
    for _ in 0..LOOKS {
        *hand = look(table, *hand, latest);
    }
}

// Takes out the entry at this place if it is idle. Returns the place to look at next.
fn look(table: &mut DoorTable, hand: usize, latest: u64) -> usize
    ensures doors { (other : List ℕ) → door_in latest table.new other
        ≡ door_in latest table.old other }
    ensures none { (other : List ℕ) → get_by_text table.old other ≡ None
        → get_by_text table.new other ≡ None }
    ensures few { length table.new.entries ≤ length table.old.entries }
{
    let place = if hand < table.len() { hand } else { 0 };
    match table.get_index(place) {
        Some((_site, door)) if door.is_idle(latest) => {
            let _ = table.swap_remove_index(place);
            place
        }
        _ => place.saturating_add(1),
    }
}

/// Takes out the entry of a site.
pub(crate) fn take_out(table: &mut DoorTable, site: &str)
    ensures gone { (other : List ℕ) → get_by_text table.new other
        ≡ (if bytes_eq site.now other then None else get_by_text table.old other) }
    ensures fewer { length table.new.entries
        + (if is_some (get_by_text table.old site.now) then 1 else 0) ≡ length table.old.entries }
{
    let _ = table.swap_remove(site);
}

/// Sets the door of a site that has an entry, or takes the entry out if the door is idle.
pub(crate) fn reset(table: &mut DoorTable, latest: u64, site: &str, door: DoorState)
    requires { IsSome (get_by_text table.old site.now) }
    ensures doors { (other : List ℕ) → door_in latest table.new other
        ≡ later latest (if bytes_eq site.now other then door else door_in latest table.old other) }
    ensures many { length table.new.entries + (if is_idle latest door then 1 else 0)
        ≡ length table.old.entries }
{
    if door.is_idle(latest) {
        take_out(table, site);
    } else {
        write(table, site, door);
    }
}
