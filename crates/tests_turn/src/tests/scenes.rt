//! The scenes: each is a loop of some places and workers, and what its clients see.

use super::client::{asks, connect, hears_nothing, is_let_go, is_told, pause, send};
use super::dials::Dials;
use super::house::{House, Stage, play};
use super::talk::LONG;
use super::{Fault, demand, ends, patience, queues};
use std::io::{Read, Write};
use std::net::TcpStream;
use std::sync::Wait;
use std::test::Fail;
use std::time::{Clock, Duration};
use turns::Clients;

/// What the clients of a loop do.
#[derive(Clone, Copy)]
pub(super) enum Scene {
    Echoes,
    HalfMessage,
    NeverReads,
    Killed,
    FullHouse,
    Silent,
    Dripping,
    Chatting,
    SlowSteps,
    Parked,
    Woken,
    Shut,
    Counted,
    SocketFile,
}

// A name, the scene, places, workers, and the patience in milliseconds.
const SCENES: &[(&str, Scene, usize, usize, u64)] = &[
    ("echoes and pipelined octets", Scene::Echoes, 20, 2, 60_000),
    ("echoes by one worker", Scene::Echoes, 20, 1, 60_000),
    ("a half-read message", Scene::HalfMessage, 4, 1, 60_000),
    ("a reader that never reads", Scene::NeverReads, 4, 1, 60_000),
    ("a client killed in the middle", Scene::Killed, 4, 2, 60_000),
    ("a full house", Scene::FullHouse, 2, 2, 60_000),
    ("a silent client", Scene::Silent, 4, 1, 300),
    ("a message that drips", Scene::Dripping, 4, 1, 500),
    ("a client that goes on", Scene::Chatting, 4, 1, 1_500),
    (
        "slow steps and a quick client",
        Scene::SlowSteps,
        20,
        3,
        60_000,
    ),
    ("parked places", Scene::Parked, 8, 1, 60_000),
    ("a place that is woken", Scene::Woken, 4, 2, 60_000),
    ("a socket file", Scene::SocketFile, 4, 2, 60_000),
    ("shut with connections open", Scene::Shut, 20, 3, 60_000),
];

#[test]
fn scenes(rt: HostRuntime) -> Result<(), Fail> {
    for (name, scene, places, workers, patience) in SCENES {
        let house = House {
            scene: *scene,
            places: *places,
            workers: *workers,
            clients: Clients::Endless,
            patience: *patience,
        };
        if let Err(fault) = play(&rt, rt.alloc(), house) {
            return Err(Fail::new(format_args!("{name}: {fault:?}")));
        }
    }
    Ok(())
}

// With its number of clients come and gone a loop ends by itself, and takes no more.
#[test]
fn counted_clients(rt: HostRuntime) -> Result<(), Fail> {
    let house = House {
        scene: Scene::Counted,
        places: 2,
        workers: 2,
        clients: Clients::Left(3),
        patience: 60_000,
    };
    match play(&rt, rt.alloc(), house) {
        Ok(()) => Ok(()),
        Err(fault) => Err(Fail::new(format_args!("{fault:?}"))),
    }
}

impl Scene {
    /// Plays the clients.
    pub(super) fn visit<R>(self, stage: &Stage<'_, '_, R>) -> Result<(), Fault>
    where
        R: Dials + Wait + Clock,
    {
        match self {
            Scene::Echoes => echoes(stage),
            Scene::HalfMessage => half_message(stage),
            Scene::NeverReads => never_reads(stage),
            Scene::Killed => ends::killed(stage),
            Scene::FullHouse => ends::full_house(stage),
            Scene::Silent => patience::silent(stage),
            Scene::Dripping => patience::dripping(stage),
            Scene::Chatting => patience::chatting(stage),
            Scene::SlowSteps => queues::slow_steps(stage),
            Scene::Parked => queues::parked(stage),
            Scene::Woken => queues::woken(stage),
            Scene::Shut => ends::shut(stage),
            Scene::Counted => ends::counted(stage),
            Scene::SocketFile => at_a_file(stage),
        }
    }
}

fn echoes<R>(stage: &Stage<'_, '_, R>) -> Result<(), Fault>
where
    R: Dials + Wait + Clock,
{
    let mut clients = Vec::new(stage.alloc);
    for _ in 0..12 {
        clients.push(connect(stage)?)?;
    }
    for client in &mut clients {
        send(client, "abc")?;
    }
    for client in &mut clients {
        asks(client, "defghijklmnop", "abcdefghijklmnop", "echoes")?;
    }
    demand(stage.dispatcher.load(stage.rt).open == 12, "open")?;
    for client in &mut clients {
        asks(client, "xQ", "x", "last words")?;
        is_let_go(client, "the end")?;
    }
    Ok(())
}

// Clients at a socket file.
fn at_a_file<R: Dials>(stage: &Stage<'_, '_, R>) -> Result<(), Fault> {
    for _ in 0..3 {
        let mut client = stage.rt.dial_file()?;
        client.set_read_timeout(Some(Duration::from_secs(10)))?;
        client.write_all(b"abcQ")?;
        let mut found = [0; 3];
        client.read_exact(&mut found)?;
        demand(&found == b"abc", "an answer")?;
    }
    Ok(())
}

// The octets of a half-read message wait, and no worker waits for the rest.
fn half_message<R>(stage: &Stage<'_, '_, R>) -> Result<(), Fault>
where
    R: Dials + Wait + Clock,
{
    let mut half = connect(stage)?;
    send(&mut half, "[")?;
    hears_nothing(&mut half, 200, "half a message")?;
    let mut other = connect(stage)?;
    asks(&mut other, "a", "a", "beside half a message")?;
    asks(&mut half, "bc]", "bc]", "the rest of the message")
}

// A client that does not read holds no worker, and loses nothing.
fn never_reads<R>(stage: &Stage<'_, '_, R>) -> Result<(), Fault>
where
    R: Dials + Wait + Clock,
{
    let mut slow = connect(stage)?;
    for _ in 0..16 {
        send(&mut slow, "BBBBBBBB")?;
    }
    send(&mut slow, "a")?;
    pause(stage.rt, 200);
    let mut other = connect(stage)?;
    asks(&mut other, "a", "a", "beside a slow reader")?;
    reads_long(&mut slow)?;
    is_told(&mut slow, "a", "after the long answers")
}

// Reads 128 long answers.
fn reads_long(stream: &mut TcpStream) -> Result<(), Fault> {
    let mut found = [0; 4_096];
    for _ in 0..(LONG / 4_096).saturating_mul(128) {
        stream.read_exact(&mut found)?;
        let is_long = found[0] == b'x' && found[4_095] == b'x';
        demand(is_long, "a long answer")?;
    }
    Ok(())
}
