//! Doors that several fetchers share.

use super::demand;
use path_normal::Authority;
use site_door::{AskedPauses, Manners, SiteDoors, Visitor};
use std::hash::RandomState;
use std::sync::Wait;
use std::test::Fail;
use std::time;

#[test]
fn one_visit_at_a_time(rt: HostRuntime) -> Result<(), Fail> {
    let manners = Manners::of_fetchers(2, 0, AskedPauses::Kept);
    let doors = SiteDoors::new(&rt, rt.alloc(), manners, RandomState::new(&rt)?)?;
    let Ok(site) = Authority::new(rt.alloc(), "a.example") else {
        return Err(Fail::new("authority"));
    };
    let Some(first) = doors.enter(&site, visitor(1)) else {
        return Err(Fail::new("first"));
    };
    if let Some(second) = doors.enter(&site, visitor(1)) {
        let _ = doors.leave(second, None);
        let _ = doors.leave(first, None);
        return Err(Fail::new("second"));
    }
    let _ = doors.leave(first, None);
    let Some(third) = doors.enter(&site, visitor(1)) else {
        return Err(Fail::new("third"));
    };
    let _ = doors.leave(third, Some(3_600_000));
    match doors.enter(&site, visitor(1)) {
        Some(fourth) => {
            let _ = doors.leave(fourth, None);
            Err(Fail::new("within the pause"))
        }
        None => Ok(()),
    }
}

// The visitor at this place, who came when the one before it had come.
fn visitor(place: usize) -> Visitor {
    Visitor {
        place,
        until: place as u64,
    }
}

// Who comes to a door where one visit may be under way, whether that one is let in, and who is called when it
// leaves. Whoever is let in leaves before the next row.
const LINE: &[(&str, usize, &[usize], Option<usize>)] = &[
    ("nobody waits", 3, &[], None),
    ("one waits", 3, &[2], Some(2)),
    ("whoever has waited longest", 2, &[3, 1, 4], Some(1)),
    ("the next one that came again", 1, &[4, 3], Some(3)),
    ("nobody is left who has come again", 3, &[], None),
];

#[test]
fn longest_first(rt: HostRuntime) -> Result<(), Fail> {
    let manners = Manners::of_fetchers(2, 0, AskedPauses::Kept);
    let doors = SiteDoors::new(&rt, rt.alloc(), manners, RandomState::new(&rt)?)?;
    let Ok(site) = Authority::new(rt.alloc(), "a.example") else {
        return Err(Fail::new("authority"));
    };
    for (name, place, waiting, next) in LINE {
        demand(visit(&doors, &site, *place, waiting) == Some(*next), name)?;
    }
    Ok(())
}

// Makes a visit during which others come in vain: who is called at its end.
fn visit<R: Wait + time::Clock>(
    doors: &SiteDoors<'_, R>,
    site: &Authority,
    place: usize,
    waiting: &[usize],
) -> Option<Option<usize>> {
    let visit = doors.enter(site, visitor(place))?;
    for other in waiting {
        if let Some(other) = doors.enter(site, visitor(*other)) {
            let _ = doors.leave(other, None);
            let _ = doors.leave(visit, None);
            return None;
        }
    }
    Some(doors.leave(visit, None))
}
