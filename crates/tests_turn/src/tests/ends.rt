//! Clients that leave, and loops that end.

use super::client::{asks, connect, hears_nothing, is_let_go, is_told, pause, send};
use super::dials::Dials;
use super::house::Stage;
use super::{Fault, demand};
use std::sync::Wait;
use std::time::Clock;

// How often the counts are read again before a test fails, 50 milliseconds apart.
const TRIES: u64 = 100;

/// A client that dies with an answer unread, and one in the middle of a message: their places are free.
pub(super) fn killed<R>(stage: &Stage<'_, '_, R>) -> Result<(), Fault>
where
    R: Dials + Wait + Clock,
{
    for octets in ["B", "[a", "BBBBBBBBBBBBBBBB", "a"] {
        let mut client = connect(stage)?;
        send(&mut client, octets)?;
    }
    becomes(stage, 0, "places of dead clients")?;
    let mut other = connect(stage)?;
    asks(&mut other, "a", "a", "after dead clients")
}

// So many connections are open soon.
fn becomes<R: Wait + Clock>(
    stage: &Stage<'_, '_, R>,
    open: usize,
    name: &'static str,
) -> Result<(), Fault> {
    for _ in 0..TRIES {
        pause(stage.rt, 50);
        if stage.dispatcher.load(stage.rt).open == open {
            return Ok(());
        }
    }
    Err(Fault::Row(name))
}

/// With all places taken nobody is let in. With a place free the one who waits is.
pub(super) fn full_house<R>(stage: &Stage<'_, '_, R>) -> Result<(), Fault>
where
    R: Dials + Wait + Clock,
{
    let mut first = connect(stage)?;
    let mut second = connect(stage)?;
    asks(&mut first, "a", "a", "first")?;
    asks(&mut second, "b", "b", "second")?;
    let mut third = connect(stage)?;
    send(&mut third, "c")?;
    hears_nothing(&mut third, 400, "a full house")?;
    asks(&mut first, "dQ", "d", "first leaves")?;
    is_told(&mut third, "c", "third")?;
    let mut fourth = connect(stage)?;
    send(&mut fourth, "e")?;
    hears_nothing(&mut fourth, 200, "a house that is full again")?;
    asks(&mut second, "Q", "", "second leaves")?;
    is_told(&mut fourth, "e", "fourth")
}

/// A loop that is shut lets all go: those who wait, are parked, read nothing or wait for a slow step.
pub(super) fn shut<R>(stage: &Stage<'_, '_, R>) -> Result<(), Fault>
where
    R: Dials + Wait + Clock,
{
    let mut clients = Vec::new(stage.alloc);
    for octets in [
        "",
        "[a",
        "P",
        "S",
        "SS",
        "SSS",
        "SSSSSSSSSSSSSS",
        "BBBBBBBB",
        "S",
        "P",
    ] {
        let mut client = connect(stage)?;
        send(&mut client, octets)?;
        clients.push(client)?;
    }
    pause(stage.rt, 200);
    stage.dispatcher.shut(stage.rt);
    let Some(client) = clients.first_mut() else {
        return Err(Fault::Row("no client"));
    };
    is_let_go(client, "shut")
}

/// Three clients may come.
pub(super) fn counted<R>(stage: &Stage<'_, '_, R>) -> Result<(), Fault>
where
    R: Dials + Wait + Clock,
{
    for _ in 0..3 {
        let mut client = connect(stage)?;
        asks(&mut client, "aQ", "a", "one of three")?;
        is_let_go(&mut client, "its end")?;
    }
    becomes(stage, 0, "none is left")?;
    let mut fourth = connect(stage)?;
    send(&mut fourth, "a")?;
    demand(
        hears_nothing(&mut fourth, 300, "one too many").is_ok(),
        "a fourth client",
    )
}
