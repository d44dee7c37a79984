//! A server at a test clock that advances by more than a day with each reading: the gate is
//! swept at the clock's moments, and at no later one. RFC 9309, section 2.4.
ghost use Rattle.std.specs.Prelude.{◌≡◌, []};
ghost use Rattle.gate_history.specs.Base.{empty_base};

use super::{PAGES, demand};
use client_connections::{Connections, Listener};
use gate_core::{Book, Limits};
use gate_lock::{Blanks, Gate, GateLock};
use journal::{JournalFault, Unrecorded};
use keepers::Bounds;
use line_server::{Alarm, Server};
use page_worker::Clock;
use scripted_sites::{ScriptedSites, new_book};
use std::alloc::Global;
use std::io::{Read, Write};
use std::marker::Brand;
use std::net::{Ipv4Addr, Net, SocketAddr, TcpStream};
use std::random::RandomSource;
use std::sync::Wait;
use std::sync::atomic::{AtomicU64, Ordering};
use std::test::Fail;
use std::thread::Threads;
use std::time;
use std::time::Duration;

// The seconds between two readings: more than an answer lasts.
const STEP: u64 = 90_000;

// How long the server waits for the silent client, in milliseconds. It maintains its gate ten times a
// second.
const PATIENCE: u64 = 600;

// What the client after that one sends, and its replies: the answer expires between two readings. It would
// not if the gate were swept at a moment that no reading passes.
const LINES: &[u8] = b"REFRESH a.example\nASK foobot http://a.example/x\nQUIT\n";

const REPLIES: &str = "TAKEN a.example open\nNO a.example expired\nBYE\n";

// The entries of these lines: the begin, the arrival, and the denial. All others are sweeps.
const ENTRIES: u64 = 3;

#[derive(Drop)]
struct Rushing {
    readings: AtomicU64,
}

impl Clock for Rushing {
    fn now(&self) -> u64 {
        self.readings
            .fetch_add(1, Ordering::SeqCst)
            .saturating_mul(STEP)
    }
}

#[derive(Drop)]
struct Unheard;

impl Alarm for Unheard {
    fn log_is_full(&self) {}

    fn base_failed(&self, _fault: JournalFault) {}
}

// Serves the two connected clients, and returns the entries of the history.
fn serve_two<'x, G: Gate + Send + Sync, R: Threads + Wait + time::Clock + Sync>(
    rt: &'x R,
    alloc: Global,
    listener: &'x Listener,
    book: Book,
    blanks: Blanks,
) -> Result<u64, Fail>
    requires book { (book.base ≡ empty_base) × (book.entries ≡ []) }
    requires blanks { blanks ≡ G.ledgers }
{
    let (gate, past) = GateLock::<G>::resume(alloc, book, blanks);
    let sites = ScriptedSites {
        alloc,
        pages: &PAGES,
    };
    let clock = Rushing {
        readings: AtomicU64::new(0),
    };
    let overseers: Option<&'x Listener> = None;
    let server = Server {
        rt,
        alloc,
        listener,
        overseers,
        http: None,
        fetcher: &sites,
        clock: &clock,
        alarm: &Unheard,
        workers: 1,
        connections: Connections::AtMost(2),
        patience: Duration::from_millis(PATIENCE),
        ahead: None,
        bounds: Bounds::none(),
    };
    match server.run(&gate, past, &[], &Unrecorded) {
        Ok(served) => Ok(served.settled.events()),
        Err(fault) => Err(Fail::new(format_args!("{fault:?}"))),
    }
}

fn connect<R: Net<Stream = TcpStream>>(rt: &R, port: u16) -> Result<TcpStream, Fail> {
    let stream = TcpStream::connect(rt, SocketAddr::from((Ipv4Addr::LOCALHOST, port)))?;
    stream.set_read_timeout(Some(Duration::from_secs(10)))?;
    Ok(stream)
}

#[test]
fn a_sweep_in_time(rt: HostRuntime) -> Result<(), Fail> {
    let listener = Listener::bind(&rt, 0)?;
    sweeps(&rt, rt.alloc(), &listener)
}

fn sweeps<R>(rt: &R, alloc: Global, listener: &Listener) -> Result<(), Fail>
where
    R: Net<Stream = TcpStream> + RandomSource + Threads + Wait + time::Clock + Sync,
{
    let port = listener.port()?;
    let _silent = connect(rt, port)?;
    let mut client = connect(rt, port)?;
    sweeps_between(rt, alloc, listener, &mut client)
}

fn sweeps_between<R: RandomSource + Threads + Wait + time::Clock + Sync>(
    rt: &R,
    alloc: Global,
    listener: &Listener,
    client: &mut TcpStream,
) -> Result<(), Fail> {
    client.write_all(LINES)?;
    let events = events_of(rt, alloc, listener)?;
    demand(events > ENTRIES, "sweeps", events)?;
    is_answered(alloc, client)
}

fn events_of<R: RandomSource + Threads + Wait + time::Clock + Sync>(
    rt: &R,
    alloc: Global,
    listener: &Listener,
) -> Result<u64, Fail> {
    let book = new_book(rt, alloc, Limits::usual())?;
    serve_two::<Brand, R>(rt, alloc, listener, book, Blanks::new())
}

fn is_answered(alloc: Global, client: &mut TcpStream) -> Result<(), Fail> {
    let mut replies = Vec::new(alloc);
    client.read_to_end(&mut replies)?;
    demand(replies.as_slice() == REPLIES.as_bytes(), "replies", 0)
}
