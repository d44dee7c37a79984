//! Visits that enter and leave, in rows.
//! A delay of 1,000 milliseconds, and two visits at once.

use super::demand;
use path_normal::Authority;
use site_door::{Admission, AskedPauses, Doors, Manners, NoDoor};
use std::hash::RandomState;
use std::test::Fail;

enum Call {
    Enter(Admission),
    Leave(Option<u64>),
}

// A name, a site, a moment, and what is called or must be answered.
const ROWS: &[(&str, &str, u64, Call)] = &[
    ("first", "a.example", 0, Call::Enter(Admission::Admitted)),
    (
        "too early",
        "a.example",
        999,
        Call::Enter(Admission::Later { at: 1_000 }),
    ),
    (
        "another site",
        "b.example",
        999,
        Call::Enter(Admission::Admitted),
    ),
    (
        "another port",
        "a.example:81",
        999,
        Call::Enter(Admission::Admitted),
    ),
    (
        "after the delay",
        "a.example",
        1_000,
        Call::Enter(Admission::Admitted),
    ),
    (
        "as many as may be",
        "a.example",
        2_000,
        Call::Enter(Admission::Full),
    ),
    ("one leaves", "a.example", 2_000, Call::Leave(None)),
    (
        "room again",
        "a.example",
        2_000,
        Call::Enter(Admission::Admitted),
    ),
    (
        "one leaves with a pause",
        "a.example",
        3_000,
        Call::Leave(Some(5_000)),
    ),
    (
        "within the pause",
        "a.example",
        7_999,
        Call::Enter(Admission::Later { at: 8_000 }),
    ),
    (
        "after the pause",
        "a.example",
        8_000,
        Call::Enter(Admission::Admitted),
    ),
    (
        "moments go back",
        "c.example",
        7_000,
        Call::Enter(Admission::Later { at: 8_000 }),
    ),
    ("two leave", "a.example", 9_000, Call::Leave(None)),
    ("two leave", "a.example", 9_000, Call::Leave(None)),
    (
        "none is left to leave",
        "a.example",
        9_000,
        Call::Leave(Some(5_000)),
    ),
    (
        "forgotten",
        "a.example",
        9_000,
        Call::Enter(Admission::Admitted),
    ),
    (
        "never",
        "d.example",
        u64::MAX,
        Call::Enter(Admission::Later { at: u64::MAX }),
    ),
];

#[test]
fn visits_in_rows(rt: HostRuntime) -> Result<(), Fail> {
    let manners = Manners {
        most: 2,
        delay: 1_000,
        pauses: AskedPauses::Kept,
    };
    let mut doors = Doors::new(rt.alloc(), manners, RandomState::new(&rt)?);
    for (name, site, now, call) in ROWS {
        let Ok(site) = Authority::new(rt.alloc(), site) else {
            return Err(Fail::new(name));
        };
        match call {
            Call::Enter(want) => {
                demand(
                    doors.enter(&site, *now) == Ok::<Admission, NoDoor>(*want),
                    name,
                )?;
            }
            Call::Leave(pause) => doors.leave(&site, *now, *pause),
        }
    }
    Ok(())
}

#[test]
fn pauses_are_ignored_if_asked(rt: HostRuntime) -> Result<(), Fail> {
    let manners = Manners::of_fetchers(3, 0, AskedPauses::Ignored);
    demand(manners.most == 1, "half of three fetchers")?;
    let mut doors = Doors::new(rt.alloc(), manners, RandomState::new(&rt)?);
    let Ok(site) = Authority::new(rt.alloc(), "a.example") else {
        return Err(Fail::new("authority"));
    };
    demand(
        doors.enter(&site, 5) == Ok::<Admission, NoDoor>(Admission::Admitted),
        "first",
    )?;
    doors.leave(&site, 6, Some(1_000));
    demand(
        doors.enter(&site, 6) == Ok::<Admission, NoDoor>(Admission::Admitted),
        "at once",
    )?;
    Ok(())
}
