//! The loop: leader and followers. One worker at a time looks at the set of sockets, and the others serve
//! the places that it calls.
//!
//! That turns come is argued here, and no clause says it. Who takes a turn off a queue serves it, and looks
//! at the queues again. Who finds none there waits for the lock of the set, finds that nothing was called
//! meanwhile, and looks at the set, for a tenth of a second at most. A place that is called is called once:
//! what its socket reports meanwhile is lost. So when its turn is over its mark goes first, and its socket
//! is registered anew second, which makes the system report again what is ready. Whoever calls a place from
//! elsewhere ends the look. Slow steps are taken by all workers but one, so one serves the other places.
ghost use Rattle.std.specs.Prelude.{◌<◌, length};

use crate::conversation::Conversation;
use crate::dispatcher::{Dispatcher, LISTENER, OTHERS, Watch};
use crate::exchange::Pause;
use crate::listener::LoopListener;
use crate::moment::Moment;
use crate::place::LoopPlace;
use crate::queues::Door;
use crate::seat::{Seat, SeatClient};
use crate::turn::{AfterTurn, PlaceTurn};
use mio::net::TcpStream;
use mio::{Interest, Token};
use std::io::ErrorKind;
use std::sync::Wait;
use std::time::{Clock, Duration};
use std::{io, thread};

// How long one look waits, and how often parked places are called.
const LOOK_MILLISECONDS: u64 = 100;

// How often deadlines are looked at.
const EXPIRY_MILLISECONDS: u64 = 1_000;

// How many clients are let in one after the other.
const MOST_ACCEPTS: usize = 10_000;

/// A loop over places, for workers that share it.
#[derive(Drop)]
pub struct EventLoop<'a, C> {
    dispatcher: &'a Dispatcher,
    listener: &'a LoopListener,
    places: &'a [LoopPlace<C>],
}

impl<'a, C> EventLoop<'a, C> {
    /// A loop over as many places as the dispatcher has; `InvalidInput` if they are more or less.
    pub fn new(
        dispatcher: &'a Dispatcher,
        listener: &'a LoopListener,
        places: &'a [LoopPlace<C>],
    ) -> io::Result<EventLoop<'a, C>> {
        if places.len() != dispatcher.places {
            return Err(io::Error::from(ErrorKind::InvalidInput));
        }
        listener.register(&dispatcher.registry, Token(LISTENER))?;
        Ok(EventLoop {
            dispatcher,
            listener,
            places,
        })
    }

    /// Serves places until no client is to come and none is here. Each worker calls it, with a buffer of its
    /// own for what it reads.
    pub fn work<W, R: Wait + Clock>(&self, rt: &R, worker: &mut W, buffer: &mut [u8])
    where
        C: Conversation<W>,
        requires { 0 < length buffer.old }
    {
        for _ in rt.forever() {
            match self.next(rt) {
                Some(turn) => self.serve(rt, turn, worker, buffer),
                None => return,
            }
        }
        unreachable!()
    }

    // The next turn, or none if the loop is over.
    fn next<R: Wait + Clock>(&self, rt: &R) -> Option<PlaceTurn> {
        for _ in rt.forever() {
            match self.dispatcher.take(rt) {
                Some(turn) => return Some(turn),
                None if self.dispatcher.is_over(rt) => return None,
                None => self.look(rt),
            }
        }
        unreachable!()
    }

    // Looks at the set of sockets, unless something was called while this worker waited for the set.
    fn look<R: Wait + Clock>(&self, rt: &R) {
        let mut guard = self.dispatcher.watch.lock(rt);
        let watch = &mut *guard;
        if self.dispatcher.is_busy(rt) {
            return;
        }
        let time = Duration::from_millis(LOOK_MILLISECONDS);
        let looked = watch.poll.poll(&mut watch.events, Some(time));
        // Places whose deadline is over end, even if their clients have called just now.
        self.go_through(rt, watch);
        match looked {
            Ok(()) => self.dispatcher.hear(rt, &watch.events),
            Err(_) => thread::sleep(rt, time),
        }
        if self.dispatcher.door(rt) == Door::Blocked {
            self.accept_all(rt);
        }
    }

    // Calls the places whose time has come.
    fn go_through<R: Wait + Clock>(&self, rt: &R, watch: &mut Watch) {
        let now = self.dispatcher.now(rt);
        if watch.woken.after(LOOK_MILLISECONDS).is_over(now) {
            watch.woken = now;
            self.dispatcher.call_parked(rt);
        }
        if watch.expired.after(EXPIRY_MILLISECONDS).is_over(now) {
            watch.expired = now;
            self.dispatcher.call_expired(rt, now);
        }
    }

    // Lets those in who wait at the listener, as far as there are places.
    fn accept_all<R: Wait>(&self, rt: &R) {
        for _ in 0..MOST_ACCEPTS {
            let Some(turn) = self.dispatcher.admit(rt) else {
                return;
            };
            match self.listener.accept() {
                Ok(stream) => self.seat(rt, turn, stream),
                Err(error) => {
                    let is_clear = error.kind() == ErrorKind::WouldBlock;
                    let door = if is_clear { Door::Clear } else { Door::Blocked };
                    self.dispatcher.refuse(rt, turn, door);
                    return;
                }
            }
        }
    }

    // Gives a client its place, and has it called.
    fn seat<R: Wait>(&self, rt: &R, turn: PlaceTurn, mut stream: TcpStream) {
        let Some(at) = self.places.get(turn.place) else {
            self.dispatcher.refuse(rt, turn, Door::Blocked);
            return;
        };
        let token = token_of(turn.place);
        let registered = self
            .dispatcher
            .registry
            .register(&mut stream, token, Interest::READABLE);
        if registered.is_err() {
            self.dispatcher.refuse(rt, turn, Door::Blocked);
            return;
        }
        let mut guard = at.seat.lock(rt);
        guard.client = SeatClient::New(stream);
        self.dispatcher
            .end_turn(rt, turn, AfterTurn::Quick, Moment::NEVER);
    }

    // Takes a turn.
    fn serve<W, R: Wait + Clock>(&self, rt: &R, turn: PlaceTurn, worker: &mut W, buffer: &mut [u8])
    where
        C: Conversation<W>,
        requires { 0 < length buffer.old }
    {
        let Some(at) = self.places.get(turn.place) else {
            self.dispatcher
                .end_turn(rt, turn, AfterTurn::Free, Moment::NEVER);
            return;
        };
        let now = self.dispatcher.now(rt);
        let mut guard = at.seat.lock(rt);
        let seat = &mut *guard;
        let pause = seat.take_turn(worker, turn.place, turn.task, now, buffer);
        if pause == Pause::Over {
            seat.let_go(worker, buffer);
        }
        let until = seat.talk.until();
        self.rest(rt, seat, turn, pause, until);
    }

    // Ends a turn, and has the socket reported if the place waits for it.
    fn rest<R: Wait>(
        &self,
        rt: &R,
        seat: &mut Seat<C>,
        turn: PlaceTurn,
        pause: Pause,
        until: Moment,
    ) {
        let place = turn.place;
        let (rest, interest) = match pause {
            Pause::Octets => (AfterTurn::Waits, Some(Interest::READABLE)),
            Pause::Room => (AfterTurn::Waits, Some(Interest::WRITABLE)),
            Pause::Work => (AfterTurn::Slow, None),
            Pause::Wake => (AfterTurn::Parked, None),
            Pause::Over => (AfterTurn::Free, None),
        };
        // The mark goes first, and the socket is registered anew second.
        self.dispatcher.end_turn(rt, turn, rest, until);
        if let (SeatClient::Here(stream), Some(interest)) = (&mut seat.client, interest) {
            let token = token_of(place);
            let registered = self.dispatcher.registry.reregister(stream, token, interest);
            if registered.is_err() {
                self.dispatcher.give_up(rt, place);
            }
        }
    }
}

// The token of a place.
fn token_of(place: usize) -> Token {
    Token(place.saturating_add(OTHERS))
}
