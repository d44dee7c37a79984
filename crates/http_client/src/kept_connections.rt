//! Connections that stay open after a response, for the next page of the same server.
//! RFC 9112, sections 9.3 and 9.5.
ghost use Rattle.std.specs.Prelude.{◌≡◌, ◌+◌, ◌≤◌, IfOk, IfSome, IsTrue, false, vec_len};
ghost use Rattle.std.specs.Time.{instant_nanos};
ghost use Rattle.http_client.specs.Kept.{IsKeptFor, most_idle, most_kept};

use crate::host_port::host_port_of;
use crossbeam_utils::Backoff;
use path_normal::PageUrl;
use std::alloc::{AllocError, Global};
use std::io::ErrorKind;
use std::marker::Model;
use std::net::TcpStream;
use std::sync::atomic::{AtomicBool, Ordering};
use std::sync::{Mutex, MutexGuard};
use std::time::{Duration, Instant};

/// The most connections that are kept. The one that is idle longest goes first.
const MOST_KEPT: usize = 64;

// How often a thread looks whether nobody uses the list.
const TRIES: usize = 1_000;

/// The most requests over one connection.
const MOST_REQUESTS: u32 = 100;

/// The most seconds between a response and the next request.
const MOST_IDLE_SECONDS: u64 = 15;

/// An idle connection, and the server at its other end.
#[derive(Drop)]
pub(crate) struct KeptConnection {
    pub(crate) stream: TcpStream,
    pub(crate) https: bool,
    host: String,
    port: u16,
    /// How many requests were answered over it.
    pub(crate) requests: u32,
    since: Instant,
}

impl KeptConnection {
    fn new(
        alloc: Global,
        stream: TcpStream,
        url: &PageUrl,
        requests: u32,
        now: Instant,
    ) -> Result<KeptConnection, AllocError>
        ensures { IfOk result (IsKeptFor url.now) }
    {
        let server = host_port_of(url);
        Ok(KeptConnection {
            stream,
            https: url.is_https(),
            host: String::from_str(alloc, server.host)?,
            port: server.port,
            requests,
            since: now,
        })
    }

    // Whether it is to the page's server, by the page's scheme.
    fn is_for(&self, url: &PageUrl) -> bool
        ensures { IsTrue result → IsKeptFor url.now self.now }
    {
        let server = host_port_of(url);
        self.https == url.is_https()
            && self.port == server.port
            && self.host.as_str() == server.host
    }

    fn is_old(&self, now: Instant) -> bool
        ensures { result ≡ false → instant_nanos now ≤ instant_nanos self.now.since + most_idle }
    {
        let idle = now.saturating_duration_since(self.since);
        idle > Duration::from_secs(MOST_IDLE_SECONDS)
    }
}

/// Idle connections, the one that is idle longest first.
#[derive(Drop)]
struct KeptList {
    kept: Vec<KeptConnection>,
}

impl Model for KeptList {
    ghost use Rattle.std.specs.Prelude.{◌≤◌, List, vec_len};
    ghost use Rattle.http_client.specs.Kept.{most_kept};
    ghost use Rattle.http_client.specs.declared.kept_connections.KeptConnection.{KeptConnection};

    ghost Value = { List KeptConnection };

    ghost view = { λ list. list.kept.items };

    ghost invariant = { λ list. vec_len list.kept ≤ most_kept };
}

impl KeptList {
    fn new(alloc: Global) -> KeptList {
        KeptList {
            kept: Vec::new(alloc),
        }
    }

    // Takes out the connection to the page's server that is idle shortest, if there is one.
    fn take(&mut self, url: &PageUrl, now: Instant) -> Option<KeptConnection>
        ensures to { IfSome result (IsKeptFor url.now) }
        ensures soon { IfSome result
            (λ kept. instant_nanos now ≤ instant_nanos kept.since + most_idle) }
    {
        take_from(&mut self.kept, url, now)
    }

    // Puts a connection in, if there is memory for it.
    fn put(&mut self, kept: KeptConnection) {
        put_into(&mut self.kept, kept);
    }

    // Closes those that are idle too long.
    fn close_old(&mut self, now: Instant) {
        close_old(&mut self.kept, now);
    }
}

fn take_from(kept: &mut Vec<KeptConnection>, url: &PageUrl, now: Instant) -> Option<KeptConnection>
    ensures to { IfSome result (IsKeptFor url.now) }
    ensures soon { IfSome result
        (λ taken. instant_nanos now ≤ instant_nanos taken.since + most_idle) }
    ensures fewer { vec_len kept.new ≤ vec_len kept.old }
{
    let mut place = kept.len();
    while place > 0 {
        place -= 1;
        if kept[place].is_for(url) && !kept[place].is_old(now) {
            return Some(kept.remove(place));
        }
    }
    None
}

fn put_into(kept: &mut Vec<KeptConnection>, next: KeptConnection)
    requires { vec_len kept.old ≤ most_kept }
    ensures { vec_len kept.new ≤ most_kept }
{
    if kept.len() == MOST_KEPT {
        kept.remove(0);
    }
    let _ = kept.push(next);
}

fn close_old(kept: &mut Vec<KeptConnection>, now: Instant)
    ensures { vec_len kept.new ≤ vec_len kept.old }
{
    while let Some(first) = kept.first()
        && first.is_old(now)
    {
        kept.remove(0);
    }
}

/// The connections that a client keeps. Several threads may use it. One that finds it in use looks again for a
/// while, and then does without: to do so at once would open more and more connections to a server.
#[derive(Drop)]
pub(crate) struct KeptConnections {
    list: Mutex<Option<KeptList>>,
    closed: AtomicBool,
}

impl KeptConnections {
    /// None so far.
    pub(crate) fn new() -> KeptConnections {
        KeptConnections {
            list: Mutex::new(None),
            closed: AtomicBool::new(false),
        }
    }

    // The list. It is in use for about a microsecond at a time, or longer if its thread loses the processor.
    fn lend(&self) -> Option<MutexGuard<'_, Option<KeptList>>> {
        let backoff = Backoff::new();
        for _ in 0..TRIES {
            if let Some(list) = self.list.try_lock() {
                return Some(list);
            }
            backoff.snooze();
        }
        None
    }

    /// Takes out a silent connection to the page's server, by the page's scheme, if one is kept.
    pub(crate) fn take(&self, url: &PageUrl, now: Instant) -> Option<KeptConnection>
        ensures to { IfSome result (IsKeptFor url.now) }
        ensures soon { IfSome result
            (λ kept. instant_nanos now ≤ instant_nanos kept.since + most_idle) }
    {
        let kept = self.take_any(url, now)?;
        self.close_late();
        if is_silent(&kept.stream) {
            Some(kept)
        } else {
            None
        }
    }

    // Such a connection, silent or not.
    fn take_any(&self, url: &PageUrl, now: Instant) -> Option<KeptConnection>
        ensures to { IfSome result (IsKeptFor url.now) }
        ensures soon { IfSome result
            (λ kept. instant_nanos now ≤ instant_nanos kept.since + most_idle) }
    {
        let mut list = self.lend()?;
        match &mut *list {
            Some(list) => {
                list.close_old(now);
                list.take(url, now)
            }
            None => None,
        }
    }

    /// Keeps a connection to the page's server from now on, after so many requests over it. It is closed if
    /// these are too many or there is no memory.
    pub(crate) fn put(
        &self,
        alloc: Global,
        stream: TcpStream,
        url: &PageUrl,
        requests: u32,
        now: Instant,
    ) {
        if requests >= MOST_REQUESTS {
            return;
        }
        if let Ok(kept) = KeptConnection::new(alloc, stream, url, requests, now) {
            self.put_in(alloc, kept, now);
            self.close_late();
        }
    }

    fn put_in(&self, alloc: Global, kept: KeptConnection, now: Instant) {
        if let Some(mut list) = self.lend() {
            if list.is_none() {
                *list = Some(KeptList::new(alloc));
            }
            if let Some(list) = &mut *list {
                list.close_old(now);
                list.put(kept);
            }
        }
    }

    /// Closes those that are kept. None is kept from then on.
    pub(crate) fn close(&self) {
        self.closed.store(true, Ordering::SeqCst);
        self.close_late();
    }

    // Closes those that are kept after `close`. Whoever does without the list leaves it to its user, who comes
    // here afterwards.
    fn close_late(&self) {
        if self.closed.load(Ordering::SeqCst) {
            if let Some(mut list) = self.lend() {
                *list = None;
            }
        }
    }
}

// Whether the connection is open and no octet came unasked.
fn is_silent(stream: &TcpStream) -> bool {
    if stream.set_nonblocking(true).is_err() {
        return false;
    }
    let silent = match stream.peek(&mut [0]) {
        Ok(_) => false,
        Err(error) => error.kind() == ErrorKind::WouldBlock,
    };
    silent && stream.set_nonblocking(false).is_ok()
}
