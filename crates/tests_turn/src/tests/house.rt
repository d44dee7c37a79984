//! A loop with its workers, and one thread that plays its clients.
ghost use Rattle.std.specs.Prelude.{◌+◌, ◌≤◌, vec_len};

use super::dials::{Dials, SOCKET};
use super::scenes::Scene;
use super::talk::{Hand, Talk};
use super::{Fault, demand};
use std::alloc::Global;
use std::fs::Files;
use std::net::{Net, TcpListener, TcpStream};
use std::os::unix::net::UnixListener;
use std::sync::Wait;
use std::sync::atomic::AtomicU64;
use std::thread::Threads;
use std::time::Clock;
use std::{fs, thread};
use turns::{Clients, Dispatcher, EventLoop, LoopListener, LoopPlace, Places, Sizes};

// The octets of a worker's buffer.
const BUFFER: usize = 16_384;

/// A loop as a scene wants it.
#[derive(Clone, Copy)]
pub(super) struct House {
    pub(super) scene: Scene,
    pub(super) places: usize,
    pub(super) workers: usize,
    pub(super) clients: Clients,
    /// In milliseconds.
    pub(super) patience: u64,
}

/// What the clients of a scene see.
#[derive(Drop)]
pub(super) struct Stage<'a, 'b, R> {
    pub(super) rt: &'a R,
    pub(super) alloc: Global,
    pub(super) dispatcher: &'a Dispatcher,
    pub(super) port: u16,
    pub(super) bell: &'b AtomicU64,
    pub(super) parked: &'b AtomicU64,
}

// Who plays in a thread.
#[derive(Drop)]
enum Role {
    /// The clients of the scene, and what failed there.
    Visitors(Option<Fault>),
    /// A worker, with its buffer.
    Worker(Vec<u8>),
}

/// Plays a scene. All conversations are given back, and each client that came has left.
pub(super) fn play<R>(rt: &R, alloc: Global, house: House) -> Result<(), Fault>
where
    R: Dials
        + Files
        + Net<Listener = TcpListener, Stream = TcpStream>
        + Threads
        + Wait
        + Clock
        + Sync,
{
    let Some(sizes) = Sizes::new(house.places, house.workers) else {
        return Err(Fault::Row("sizes"));
    };
    let listener = listener_of(rt, house.scene)?;
    let dispatcher = Dispatcher::new(rt, alloc, sizes, house.clients)?;
    let roles = roles_of(alloc, house.workers)?;
    let talks = talks_of(alloc, house.places)?;
    match Places::new(alloc, talks) {
        Ok(places) => {
            let played = play_at(
                rt,
                alloc,
                house,
                &listener,
                &dispatcher,
                places.as_slice(),
                roles,
            );
            let is_whole = close(places.into_talks(), house.places);
            played?;
            demand(is_whole, "conversations given back")
        }
        Err(talks) => {
            close(talks, 0);
            Err(Fault::Row("memory"))
        }
    }
}

fn play_at<'x, R>(
    rt: &'x R,
    alloc: Global,
    house: House,
    listener: &'x LoopListener,
    dispatcher: &'x Dispatcher,
    places: &'x [LoopPlace<Talk>],
    mut roles: Vec<Role>,
) -> Result<(), Fault>
where
    R: Dials + Threads + Wait + Clock + Sync,
{
    let bell = AtomicU64::new(0);
    let parked = AtomicU64::new(0);
    let event_loop = EventLoop::new(dispatcher, listener, places)?;
    let stage = Stage {
        rt,
        alloc,
        dispatcher,
        port: listener.port().unwrap_or(0),
        bell: &bell,
        parked: &parked,
    };
    let threads = roles.len().max(1);
    thread::for_each_mut(
        rt,
        roles.as_mut_slice(),
        threads,
        &|_: usize, role: &mut Role| act(&stage, &event_loop, house, role),
    );
    fault_in(roles)
}

// Plays a role to its end. The clients shut the loop when they are through.
fn act<R>(stage: &Stage<'_, '_, R>, event_loop: &EventLoop<'_, Talk>, house: House, role: &mut Role)
where
    R: Dials + Wait + Clock,
{
    match role {
        Role::Visitors(fault) => {
            *fault = house.scene.visit(stage).err();
            stage.dispatcher.shut(stage.rt);
        }
        Role::Worker(buffer) => {
            let mut hand = Hand {
                rt: stage.rt,
                bell: stage.bell,
                parked: stage.parked,
                patience: house.patience,
            };
            if !buffer.is_empty() {
                event_loop.work(stage.rt, &mut hand, buffer.as_mut_slice());
            }
        }
    }
}

fn roles_of(alloc: Global, workers: usize) -> Result<Vec<Role>, Fault> {
    let mut roles = Vec::new(alloc);
    roles.push(Role::Visitors(None))?;
    for _ in 0..workers {
        roles.push(Role::Worker(Vec::from_elem(alloc, 0u8, BUFFER)?))?;
    }
    Ok(roles)
}

fn fault_in(roles: Vec<Role>) -> Result<(), Fault> {
    for role in roles {
        if let Role::Visitors(Some(fault)) = role {
            return Err(fault);
        }
    }
    Ok(())
}

// A port, or a socket file for the scene that wants one.
fn listener_of<R>(rt: &R, scene: Scene) -> Result<LoopListener, Fault>
where
    R: Files + Net<Listener = TcpListener, Stream = TcpStream>,
{
    let listener = match scene {
        Scene::SocketFile => {
            // An earlier run may have left one.
            let _ = fs::remove_file(rt, SOCKET);
            LoopListener::of_file(UnixListener::bind(rt, SOCKET)?)?
        }
        _ => LoopListener::bind(rt, 0)?,
    };
    Ok(listener)
}

// Conversations, as far as there is memory.
fn talks_of(alloc: Global, places: usize) -> Result<Vec<Talk>, Fault> {
    let mut talks = Vec::with_capacity(alloc, places)?;
    for _ in 0..places {
        if talks.len() < talks.capacity() {
            talks.push_reserved(Talk::new(alloc));
        }
    }
    Ok(talks)
}

// Whether these are so many conversations, and each client that came has left.
fn close(mut talks: Vec<Talk>, count: usize) -> bool {
    let mut is_whole = talks.len() == count;
    while let Some(talk) = talks.pop() {
        let clients = talk.close();
        is_whole = is_whole && clients.begun == clients.ended;
    }
    talks.destroy_empty();
    is_whole
}
