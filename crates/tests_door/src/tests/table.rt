//! A table with as many sites as may be: idle ones make room, and busy ones do not.

use super::demand;
use path_normal::Authority;
use site_door::{Admission, AskedPauses, Doors, MOST_SITES, Manners, NoDoor};
use std::alloc::Global;
use std::hash::RandomState;
use std::test::Fail;

fn site(alloc: Global, number: usize) -> Result<Authority, Fail> {
    let text = format!(in alloc; "s{number}.example")?;
    Authority::new(alloc, text.as_str()).map_err(|_| Fail::new("authority"))
}

#[test]
fn busy_sites_keep_their_doors(rt: HostRuntime) -> Result<(), Fail> {
    let manners = Manners::of_fetchers(2, 0, AskedPauses::Kept);
    let mut doors = Doors::new(rt.alloc(), manners, RandomState::new(&rt)?);
    for number in 0..MOST_SITES {
        let site = site(rt.alloc(), number)?;
        demand(
            doors.enter(&site, 0) == Ok::<Admission, NoDoor>(Admission::Admitted),
            "room",
        )?;
    }
    let more = site(rt.alloc(), MOST_SITES)?;
    demand(
        doors.enter(&more, 1) == Err::<Admission, NoDoor>(NoDoor::TooManySites),
        "no room",
    )?;
    demand(doors.kept_count() == MOST_SITES, "all are kept")?;
    doors.leave(&site(rt.alloc(), 77)?, 2, None);
    demand(
        doors.enter(&more, 2) == Ok::<Admission, NoDoor>(Admission::Admitted),
        "one has left",
    )?;
    Ok(())
}

#[test]
fn idle_sites_make_room(rt: HostRuntime) -> Result<(), Fail> {
    let manners = Manners::of_fetchers(2, 10, AskedPauses::Kept);
    let mut doors = Doors::new(rt.alloc(), manners, RandomState::new(&rt)?);
    for number in 0..2 * MOST_SITES {
        let site = site(rt.alloc(), number)?;
        let now = number as u64;
        demand(
            doors.enter(&site, now) == Ok::<Admission, NoDoor>(Admission::Admitted),
            "room",
        )?;
        doors.leave(&site, now, None);
    }
    demand(doors.kept_count() < 100, "idle ones are gone")?;
    Ok(())
}
