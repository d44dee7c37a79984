//! Numbers drawn in turn, of one or several sites, and gathered from no, some and all seats. Many threads draw in
//! each shift of the built program.

ghost use Rattle.std.specs.Prelude.{◌≡◌, ◌≤◌};

use super::demand;
use job_line::{Drawn, JobLine, JobSeat};
use std::alloc::{AllocError, Global};
use std::test::Fail;

// Whether none of three sites has a job, nor an unknown fourth; asked twice.
fn finds_nothing(line: &JobLine, seat: &mut JobSeat) -> bool
    requires { seat.old.line ≡ line.now }
    ensures { seat.new.line ≡ seat.old.line }
{
    let mut nothing = true;
    for n in 0..8 {
        nothing = line.draw_at(seat, n % 4).is_none() && nothing;
    }
    nothing
}

#[test]
fn three_jobs_for_two_seats(rt: HostRuntime) -> Result<(), Fail> {
    let (line, mut seats) = JobLine::new(rt.alloc(), 3, 2)?;
    let (Some(mut second), Some(mut first)) = (seats.pop(), seats.pop()) else {
        return Err(Fail::new("two seats"));
    };
    demand(draw_jobs(&line, &mut first, &mut second), "three jobs")
}

fn draw_jobs(line: &JobLine, first: &mut JobSeat, second: &mut JobSeat) -> bool
    requires { (first.old.line ≡ line.now) × (second.old.line ≡ line.now) }
{
    line.draw(first) == Some(0)
        && line.draw(second) == Some(1)
        && line.draw(first) == Some(2)
        && line.draw(first).is_none()
        && line.draw(second).is_none()
        && line.draw(first).is_none()
        && line.draw(second).is_none()
        && first.drawn() == [0, 2].as_slice()
        && second.drawn() == [1].as_slice()
}

#[test]
fn three_sites_for_two_seats(rt: HostRuntime) -> Result<(), Fail> {
    let (line, mut seats) = JobLine::of_sites(rt.alloc(), &[2, 0, 3], 2)?;
    let (Some(mut second), Some(mut first)) = (seats.pop(), seats.pop()) else {
        return Err(Fail::new("two seats"));
    };
    demand(draw_at_sites(&line, &mut first, &mut second), "three sites")
}

fn draw_at_sites(line: &JobLine, first: &mut JobSeat, second: &mut JobSeat) -> bool
    requires { (first.old.line ≡ line.now) × (second.old.line ≡ line.now) }
{
    first.sites() == 3
        && line.draw_at(first, 2) == Some(2)
        && line.draw_at(second, 2) == Some(3)
        && line.draw_at(second, 0) == Some(0)
        && line.draw_at(first, 2) == Some(4)
        && line.draw_at(first, 1).is_none()
        && line.draw_at(first, 0) == Some(1)
        && !first.has_ended()
        && finds_nothing(line, first)
        && first.has_ended()
        && !second.has_ended()
        && finds_nothing(line, second)
        && second.has_ended()
        && first.drawn() == [2, 4, 1].as_slice()
        && second.drawn() == [3, 0].as_slice()
}

#[test]
fn no_sites(rt: HostRuntime) -> Result<(), Fail> {
    let (line, mut seats) = JobLine::of_sites(rt.alloc(), &[], 2)?;
    let Some(mut seat) = seats.pop() else {
        return Err(Fail::new("two seats"));
    };
    let none = line.draw_at(&mut seat, 0).is_none();
    demand(none && seat.has_ended(), "no sites")
}

#[test]
fn gathers_one_none_and_all(rt: HostRuntime) -> Result<(), Fail> {
    demand(gathers_one(rt.alloc(), 2)?, "one of two seats")?;
    demand(gathers_one(rt.alloc(), 1)?, "the only seat")?;
    let (line, _seats) = JobLine::new(rt.alloc(), 2, 1)?;
    demand(
        line.gather(Vec::new(rt.alloc())).lists.is_empty(),
        "no seat",
    )
}

// Whether one of these seats has drawn the first number, by its list alone.
fn gathers_one(alloc: Global, seats: u64) -> Result<bool, Fail>
    requires { (1 ≤ seats) × (seats ≤ 16) }
{
    let (line, mut seats) = JobLine::new(alloc, 2, seats)?;
    let Some(mut first) = seats.pop() else {
        return Err(Fail::new("a seat"));
    };
    let number = line.draw(&mut first);
    let drawn = gather_one(alloc, line, first)?;
    Ok(number == Some(0) && is_first(drawn.lists.as_slice()))
}

// What one seat alone gathers.
fn gather_one(alloc: Global, line: JobLine, seat: JobSeat) -> Result<Drawn, AllocError>
    requires { seat.line ≡ line }
{
    let mut given = Vec::with_capacity(alloc, 1)?;
    given.push_reserved(seat);
    Ok(line.gather(given))
}

fn is_first(lists: &[Vec<u64>]) -> bool {
    match lists {
        [list] => list.as_slice() == [0].as_slice(),
        _ => false,
    }
}
