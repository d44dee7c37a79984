//! Who is called, and whose turn it is: what the workers of a loop share, and those who wake its places.

use crate::load::Load;
use crate::moment::Moment;
use crate::queues::{Clients, Door, Queues};
use crate::sizes::Sizes;
use crate::turn::{AfterTurn, PlaceTurn};
use mio::{Events, Poll, Registry, Token, Waker};
use std::alloc::Global;
use std::net::Net;
use std::sync::{Mutex, Wait};
use std::time::{Clock, Instant};
use std::{io, time};

/// The token of the listener.
pub(crate) const LISTENER: usize = 0;

/// How many tokens there are before those of places: the listener's, and the waker's.
pub(crate) const OTHERS: usize = 2;

const WAKER: usize = 1;

// How many events one look takes.
const MOST_EVENTS: usize = 256;

/// What the workers of a loop share, and those who wake its places.
#[derive(Drop)]
pub struct Dispatcher {
    pub(crate) places: usize,
    pub(crate) registry: Registry,
    pub(crate) watch: Mutex<Watch>,
    waker: Waker,
    queues: Mutex<Queues>,
    begun: Instant,
}

/// What one worker at a time looks at: the set of sockets, and when the places were last gone through.
#[derive(Drop)]
pub(crate) struct Watch {
    pub(crate) poll: Poll,
    pub(crate) events: Events,
    /// When the parked places were last called.
    pub(crate) woken: Moment,
    /// When deadlines were last looked at.
    pub(crate) expired: Moment,
}

impl Dispatcher {
    /// All places are free.
    pub fn new<R: Net + Clock>(
        rt: &R,
        alloc: Global,
        sizes: Sizes,
        clients: Clients,
    ) -> io::Result<Dispatcher> {
        let poll = Poll::new(rt)?;
        let registry = poll.registry().try_clone()?;
        let waker = Waker::new(&registry, Token(WAKER))?;
        let watch = Watch {
            poll,
            events: Events::with_capacity(alloc, MOST_EVENTS)?,
            woken: Moment { milliseconds: 0 },
            expired: Moment { milliseconds: 0 },
        };
        Ok(Dispatcher {
            places: sizes.places(),
            registry,
            watch: Mutex::new(watch),
            waker,
            queues: Mutex::new(Queues::new(alloc, sizes, clients)?),
            begun: Instant::now(rt)?,
        })
    }

    /// The time since the loop began; 0 if the clock fails.
    pub fn now<R: Clock>(&self, rt: &R) -> Moment {
        let milliseconds = match self.begun.elapsed(rt) {
            Ok(time) => time.as_millis().min(u64::MAX as u128 - 1) as u64,
            Err(_) => 0,
        };
        Moment { milliseconds }
    }

    /// Has a parked place called. A place that is not parked loses nothing by it.
    pub fn wake<R: Wait>(&self, rt: &R, place: usize) {
        self.queues.lock(rt).call(place);
        self.rouse();
    }

    /// Shuts the loop: it takes no more clients, lets those that are here go, and its workers return.
    pub fn shut<R: Wait>(&self, rt: &R) {
        self.queues.lock(rt).shut();
        self.rouse();
    }

    /// How busy the loop is.
    pub fn load<R: Wait>(&self, rt: &R) -> Load {
        self.queues.lock(rt).load()
    }

    // Ends the wait of the worker that looks.
    fn rouse(&self) {
        let _ = self.waker.wake();
    }

    /// The next turn, if a place is called.
    pub(crate) fn take<R: Wait>(&self, rt: &R) -> Option<PlaceTurn> {
        self.queues.lock(rt).take()
    }

    /// Whether no client is to come and none is here; with the loop shut, those that are here are called to
    /// be let go.
    pub(crate) fn is_over<R: Wait>(&self, rt: &R) -> bool {
        self.queues.lock(rt).is_over()
    }

    /// Whether a place is called that a worker may take, or the loop is over.
    pub(crate) fn is_busy<R: Wait>(&self, rt: &R) -> bool {
        let mut queues = self.queues.lock(rt);
        queues.next_line().is_some() || queues.is_over()
    }

    /// Calls the places that are ready.
    pub(crate) fn hear<R: Wait>(&self, rt: &R, events: &Events) {
        let mut guard = self.queues.lock(rt);
        let queues = &mut *guard;
        for event in events {
            match event.token().0 {
                LISTENER => queues.knock(),
                WAKER => {}
                token => queues.call(token.saturating_sub(OTHERS)),
            }
        }
    }

    /// Whether a client may be waiting at the listener.
    pub(crate) fn door<R: Wait>(&self, rt: &R) -> Door {
        self.queues.lock(rt).door()
    }

    /// Calls the parked places.
    pub(crate) fn call_parked<R: Wait>(&self, rt: &R) {
        self.queues.lock(rt).call_parked();
    }

    /// Calls the places whose deadline is over, to let their clients go.
    pub(crate) fn call_expired<R: Wait>(&self, rt: &R, now: Moment) {
        self.queues.lock(rt).call_expired(now);
    }

    /// A free place for a client, with its turn.
    pub(crate) fn admit<R: Wait>(&self, rt: &R) -> Option<PlaceTurn> {
        self.queues.lock(rt).admit()
    }

    /// Gives back the turn of a place for which no client was there.
    pub(crate) fn refuse<R: Wait>(&self, rt: &R, turn: PlaceTurn, door: Door) {
        self.queues.lock(rt).refuse(turn, door);
    }

    /// Ends a turn. If a place is free now and a client may be waiting at the listener, the worker that looks
    /// is told.
    pub(crate) fn end_turn<R: Wait>(
        &self,
        rt: &R,
        turn: PlaceTurn,
        rest: AfterTurn,
        until: Moment,
    ) {
        let door = self.queues.lock(rt).end_turn(turn, rest, until);
        if rest == AfterTurn::Free && door == Door::Blocked {
            self.rouse();
        }
    }

    /// Has a waiting place end at the next look at deadlines: its socket can't be waited for.
    pub(crate) fn give_up<R: Wait>(&self, rt: &R, place: usize) {
        self.queues.lock(rt).give_up(place);
    }
}
