//! The conversation with a client of HTTP.
//! RFC 9112, sections 9.3 and 9.5.
ghost use Rattle.std.specs.Prelude.{◌≡◌, [], length};
ghost use Rattle.http_server.specs.Connection.{history};

use crate::budget::AnswerBudget;
use crate::deferring::{Asker, DeferringService};
use crate::worker::HttpWorker;
use http_server::{Config, Connection, State};
use journal::CatchesUp;
use std::alloc::Global;
use std::hash::RandomState;
use std::mem;
use turns::{Conversation, Moment, Wants};

/// How long a request may take from its first octet to its end, in milliseconds.
pub const MESSAGE_MILLISECONDS: u64 = 10_000;

/// How long a request that came too early waits, in milliseconds. Then its client is told so.
pub const LATER_MILLISECONDS: u64 = 30_000;

/// Where a conversation stands.
#[derive(Clone, Copy, Debug, PartialEq, Eq)]
enum Stage {
    /// Between two requests.
    Idle,
    /// A part of a request has come.
    Begun,
    /// Octets have come that may end a request.
    Due,
    /// An answer was made, and is being sent.
    Answered,
    /// The request came too early, and waits until this moment.
    Deferred(Moment),
    /// The request came too early, and is asked again. It waits until this moment.
    DueAgain(Moment),
    /// The client is lost, or what was done can't be recorded.
    Over,
}

/// A conversation with one client of HTTP after the other.
#[derive(Drop)]
pub struct HttpTalk {
    connection: Connection,
    // The octets since the last answer. From them the connection can be made again.
    heard: Vec<u8>,
    stage: Stage,
    until: Moment,
    // Where its client is.
    place: usize,
    // How many octets of its answer the budget counts.
    counted: u64,
}

impl HttpTalk {
    /// A conversation without a client. Takes no memory.
    pub fn new(alloc: Global, keys: RandomState, config: Config) -> HttpTalk {
        HttpTalk {
            connection: Connection::new(alloc, keys, config),
            heard: Vec::new(alloc),
            stage: Stage::Over,
            until: Moment::NEVER,
            place: 0,
            counted: 0,
        }
    }

    // Has the budget count the octets of an answer, and those of the one before no longer.
    fn count(&mut self, budget: &AnswerBudget, octets: u64)
        ensures { self.new.connection ≡ self.old.connection }
    {
        budget.take(octets);
        budget.give(self.counted);
        self.counted = octets;
    }

    // Until when the request waits if it comes too early.
    fn wait_until(&self, now: Moment) -> Moment {
        match self.stage {
            Stage::DueAgain(until) => until,
            _ => now.after(LATER_MILLISECONDS),
        }
    }

    // What comes after a step of the connection in which no request was answered.
    fn stage_without_answer(&self) -> Stage {
        if self.connection.state() != State::Open {
            self.stage_of_end()
        } else if self.heard.is_empty() {
            Stage::Idle
        } else {
            Stage::Begun
        }
    }

    // What comes once a connection takes no more requests: its last octets are sent, if it has some.
    fn stage_of_end(&self) -> Stage {
        if self.connection.wants_write() {
            Stage::Answered
        } else {
            Stage::Over
        }
    }

    // Takes octets of the client, and keeps them for the case that their request came too early.
    fn take(&mut self, octets: &[u8]) -> Stage
        ensures { (history self.new.connection).pending ≡ (history self.old.connection).pending }
    {
        let kept = self.heard.extend_from_slice(octets).is_ok();
        if kept && feed(&mut self.connection, octets) {
            Stage::Due
        } else {
            Stage::Over
        }
    }

    // Makes the connection anew from what it has heard since its last answer, and says how it goes on then.
    fn renew(&mut self, alloc: Global, keys: RandomState, config: Config, next: Stage)
        ensures { (history self.new.connection).pending ≡ [] }
    {
        self.connection = Connection::new(alloc, keys, config);
        self.stage = if self.heard.is_empty() || feed(&mut self.connection, self.heard.as_slice()) {
            next
        } else {
            Stage::Over
        };
    }

    // How many milliseconds a client is waited for: between two requests its patience, else as long as a
    // request may take.
    fn patience_by(&self, patience: u64) -> u64 {
        match self.stage {
            Stage::Idle => patience,
            _ => MESSAGE_MILLISECONDS,
        }
    }

    // Goes on to the next request of a connection whose answer is sent: with the octets behind the last one.
    fn go_on(&mut self, alloc: Global, keys: RandomState, config: Config)
        requires { (history self.old.connection).pending ≡ [] }
        ensures { (history self.new.connection).pending ≡ [] }
    {
        if self.connection.state() != State::Open {
            self.stage = Stage::Over;
            return;
        }
        let empty = Connection::new(alloc, keys, config);
        let (unread, _) = mem::replace(&mut self.connection, empty).into_buffers();
        self.heard.clear();
        if unread.is_empty() {
            self.stage = Stage::Idle;
            return;
        }
        self.stage = self.take(unread.as_slice());
    }
}

// Whether the connection has taken all of these octets, of which none are the end of its input. It has not if
// memory ran out.
fn feed(connection: &mut Connection, octets: &[u8]) -> bool
    ensures { (history connection.new).pending ≡ (history connection.old).pending }
{
    let mut rest = octets;
    for _ in 0..octets.len() + 1 {
        if connection.read_from(&mut rest).is_err() {
            return false;
        }
        if rest.is_empty() {
            return true;
        }
    }
    false
}

impl<'w, S: DeferringService, A: CatchesUp> Conversation<HttpWorker<'w, S, A>> for HttpTalk {
    ghost use Rattle.http_server.specs.Connection.{history};

    ghost pending = { λ talk. (history talk.connection).pending };

    fn begin(&mut self, worker: &mut HttpWorker<'w, S, A>, place: usize, now: Moment) {
        self.place = place;
        self.heard.clear();
        self.renew(worker.alloc, worker.keys, worker.config, Stage::Idle);
        self.until = now.after(worker.patience);
    }

    fn wants(&self) -> Wants {
        match self.stage {
            Stage::Over => Wants::End,
            _ if self.connection.wants_write() => Wants::Write,
            Stage::Due | Stage::DueAgain(_) => Wants::Work,
            Stage::Deferred(_) => Wants::Wake,
            Stage::Idle | Stage::Begun => Wants::Read,
            Stage::Answered => Wants::End,
        }
    }

    fn until(&self) -> Moment {
        self.until
    }

    // A request has a deadline of its own, which further octets do not put off.
    fn hear(&mut self, _worker: &mut HttpWorker<'w, S, A>, now: Moment, octets: &[u8]) {
        if self.stage == Stage::Idle {
            self.until = now.after(MESSAGE_MILLISECONDS);
        }
        self.stage = self.take(octets);
    }

    fn output(&self) -> &[u8] {
        self.connection.output()
    }

    fn sent(&mut self, worker: &mut HttpWorker<'w, S, A>, now: Moment, count: usize) {
        self.connection.sent(count);
        let is_whole = !self.connection.wants_write();
        match self.stage {
            Stage::Answered => {
                self.until = now.after(worker.patience);
                if is_whole {
                    self.count(worker.budget, 0);
                    self.go_on(worker.alloc, worker.keys, worker.config);
                    self.until = now.after(self.patience_by(worker.patience));
                }
            }
            // A client that waited for a 100 may have sent its whole request before.
            Stage::Begun if is_whole => self.stage = Stage::Due,
            _ => {}
        }
    }

    // Answers a request that has come whole, and lets the answer go once what it tells is recorded.
    fn work(&mut self, worker: &mut HttpWorker<'w, S, A>, now: Moment) {
        if self.connection.wants_write() {
            return;
        }
        let until = self.wait_until(now);
        worker.service.set_asker(Asker {
            place: self.place,
            until,
        });
        let number = worker.service.number();
        self.connection.advance(&mut worker.service);
        let is_answered = worker.service.number() != number;
        if is_answered && worker.service.is_deferred() && !until.is_over(now) {
            self.renew(
                worker.alloc,
                worker.keys,
                worker.config,
                Stage::Deferred(until),
            );
            return;
        }
        self.stage = if worker.ahead.catch_up(number).is_err() {
            Stage::Over
        } else if is_answered {
            self.count(worker.budget, worker.service.answer_octets());
            self.stage_of_end()
        } else {
            self.stage_without_answer()
        };
        if self.stage != Stage::Begun {
            self.until = now.after(worker.patience);
        }
    }

    fn resume(&mut self, _worker: &mut HttpWorker<'w, S, A>, _now: Moment) {
        if let Stage::Deferred(until) = self.stage {
            self.stage = Stage::DueAgain(until);
        }
    }

    fn end(&mut self, worker: &mut HttpWorker<'w, S, A>) {
        self.count(worker.budget, 0);
        self.heard.clear();
        self.renew(worker.alloc, worker.keys, worker.config, Stage::Over);
    }
}
