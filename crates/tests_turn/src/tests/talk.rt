//! A conversation of single octets, which can't be dropped.
//! 'S' is a slow step, 'P' parks, 'B' has a long answer, '[' begins a message and ']' ends it, 'Q' is the
//! end. Any other octet is sent back.
ghost use Rattle.std.specs.Prelude.{◌≡◌, ◌++◌, ℕ, List};
ghost use Rattle.turns.specs.Exchanges.{Grows, IsFrontOf};

use bytes::{Buf, BufMut, BytesMut};
use std::alloc::Global;
use std::sync::atomic::{AtomicU64, Ordering};
use std::thread;
use std::time::{Clock, Duration};
use turns::{Conversation, Moment, Wants};

/// How long a slow step takes, in milliseconds.
pub(super) const SLOW: u64 = 300;

/// The octets of a long answer.
pub(super) const LONG: usize = 65_536;

/// A worker: what all conversations that it serves share.
#[derive(Drop)]
pub(super) struct Hand<'a, 'b, R> {
    pub(super) rt: &'a R,
    /// 0 as long as those who parked go on waiting.
    pub(super) bell: &'b AtomicU64,
    /// The last place that parked, and 1.
    pub(super) parked: &'b AtomicU64,
    /// How long a client may be silent, and how long a message may take, in milliseconds.
    pub(super) patience: u64,
}

#[derive(Clone, Copy, PartialEq, Eq)]
enum Stage {
    Hears,
    Works,
    Parks,
    Ends,
}

/// A conversation, which counts its clients as they come and go. It has no `Drop`.
pub(super) struct Talk {
    input: BytesMut,
    output: BytesMut,
    stage: Stage,
    place: usize,
    until: Moment,
    // The deadline of the message that has begun.
    message: Option<Moment>,
    begun: u64,
    ended: u64,
}

/// The clients of a conversation.
#[derive(Clone, Copy)]
pub(super) struct Clients {
    pub(super) begun: u64,
    pub(super) ended: u64,
}

impl Talk {
    pub(super) fn new(alloc: Global) -> Talk {
        Talk {
            input: BytesMut::new(alloc),
            output: BytesMut::new(alloc),
            stage: Stage::Hears,
            place: 0,
            until: Moment::NEVER,
            message: None,
            begun: 0,
            ended: 0,
        }
    }

    pub(super) fn close(self) -> Clients {
        let Talk {
            input: _,
            output: _,
            stage: _,
            place: _,
            until: _,
            message: _,
            begun,
            ended,
        } = self;
        Clients { begun, ended }
    }

    // Answers what was heard, one octet after the other, up to a step that is not at once.
    fn go_on(&mut self, patience: u64, now: Moment)
        ensures { Grows self.old.output.items self.new.output.items }
    {
        for _ in 0..self.input.len() {
            if self.stage != Stage::Hears || self.input.is_empty() {
                return;
            }
            let octet = self.input[0];
            self.input.advance(1);
            self.answer(octet, patience, now);
        }
    }

    fn answer(&mut self, octet: u8, patience: u64, now: Moment)
        ensures { Grows self.old.output.items self.new.output.items }
    {
        match octet {
            b'S' => self.stage = Stage::Works,
            b'P' => self.stage = Stage::Parks,
            b'Q' => self.stage = Stage::Ends,
            b'[' => self.message = Some(now.after(patience)),
            b'B' => self.say_long(),
            _ => self.say(octet),
        }
        if octet == b']' {
            self.message = None;
        }
    }

    fn say(&mut self, octet: u8)
        ensures { Grows self.old.output.items self.new.output.items }
    {
        let _ = self.output.put_u8(octet);
    }

    fn say_long(&mut self)
        ensures { Grows self.old.output.items self.new.output.items }
    {
        self.say_all(&[b'x'; LONG]);
    }

    fn say_all(&mut self, octets: &[u8])
        ensures { Grows self.old.output.items self.new.output.items }
    {
        let _ = self.output.put_slice(octets);
    }
}

impl<'a, 'b, R: Clock> Conversation<Hand<'a, 'b, R>> for Talk {
    ghost pending = { λ talk. talk.output.items };

    fn begin(&mut self, worker: &mut Hand<'a, 'b, R>, place: usize, now: Moment) {
        self.begun = self.begun.wrapping_add(1);
        self.place = place;
        self.until = now.after(worker.patience);
    }

    fn wants(&self) -> Wants {
        if !self.output.is_empty() {
            return Wants::Write;
        }
        match self.stage {
            Stage::Hears => Wants::Read,
            Stage::Works => Wants::Work,
            Stage::Parks => Wants::Wake,
            Stage::Ends => Wants::End,
        }
    }

    fn until(&self) -> Moment {
        match self.message {
            Some(until) => until,
            None => self.until,
        }
    }

    fn hear(&mut self, worker: &mut Hand<'a, 'b, R>, now: Moment, octets: &[u8]) {
        self.until = now.after(worker.patience);
        if octets.is_empty() || self.input.put_slice(octets).is_err() {
            self.stage = Stage::Ends;
        }
        self.go_on(worker.patience, now);
    }

    fn output(&self) -> &[u8]
        ensures { IsFrontOf result.now self.now.output.items }
    {
        self.output.as_slice()
    }

    fn sent(&mut self, worker: &mut Hand<'a, 'b, R>, now: Moment, count: usize) {
        self.until = now.after(worker.patience);
        self.output.advance(count);
        self.go_on(worker.patience, now);
    }

    fn work(&mut self, worker: &mut Hand<'a, 'b, R>, now: Moment) {
        thread::sleep(worker.rt, Duration::from_millis(SLOW));
        self.stage = Stage::Hears;
        self.say(b'S');
        self.go_on(worker.patience, now);
    }

    fn resume(&mut self, worker: &mut Hand<'a, 'b, R>, now: Moment) {
        let place = (self.place as u64).wrapping_add(1);
        worker.parked.store(place, Ordering::SeqCst);
        if worker.bell.load(Ordering::SeqCst) != 0 {
            self.stage = Stage::Hears;
            self.say(b'P');
            self.go_on(worker.patience, now);
        }
    }

    fn end(&mut self, _: &mut Hand<'a, 'b, R>) {
        self.ended = self.ended.wrapping_add(1);
        self.input.clear();
        self.output.clear();
        self.message = None;
        self.stage = Stage::Hears;
    }
}
