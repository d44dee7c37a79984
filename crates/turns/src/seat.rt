//! A conversation with the connection of its client.
//! What lies under the lock of a `LoopPlace`.
ghost use Rattle.std.specs.Prelude.{◌<◌, length};

use crate::conversation::{Conversation, Wants};
use crate::exchange::{Pause, exchange};
use crate::moment::Moment;
use crate::turn::Task;
use mio::net::TcpStream;
use std::io::Read;
use std::mem;
use std::net::Shutdown;

// How often what a client has sent is read out after the end of its conversation.
const MOST_READS: usize = 16;

/// The client of a place.
#[derive(Drop)]
pub(crate) enum SeatClient {
    /// There is none.
    Nobody,
    /// It has connected, and the conversation was not told yet.
    New(TcpStream),
    /// The conversation is with this one.
    Here(TcpStream),
}

/// A conversation with its client. It has no `Drop` unless the conversation has.
pub(crate) struct Seat<C> {
    pub(crate) client: SeatClient,
    pub(crate) talk: C,
}

impl<C> Seat<C> {
    /// A turn of the conversation at this place, which was called for this task.
    pub(crate) fn take_turn<W>(
        &mut self,
        worker: &mut W,
        place: usize,
        task: Task,
        now: Moment,
        buffer: &mut [u8],
    ) -> Pause
    where
        C: Conversation<W>,
        requires { 0 < length buffer.old }
    {
        if task == Task::End {
            return Pause::Over;
        }
        self.begin(worker, place, now);
        let SeatClient::Here(stream) = &self.client else {
            return Pause::Over;
        };
        match self.talk.wants() {
            Wants::Wake => self.talk.resume(worker, now),
            Wants::Work if task == Task::Work => self.talk.work(worker, now),
            _ => {}
        }
        let mut reader = stream;
        let mut writer = stream;
        let pause = exchange(
            &mut self.talk,
            worker,
            now,
            &mut reader,
            &mut writer,
            buffer,
        );
        self.in_time::<W>(pause, now)
    }

    // What a conversation waits for after its turn: no client past its deadline, however often that one
    // calls. Places that wait for nobody's octets or room are left alone.
    fn in_time<W>(&self, pause: Pause, now: Moment) -> Pause
    where
        C: Conversation<W>,
    {
        match pause {
            Pause::Octets | Pause::Room if self.talk.until().is_over(now) => Pause::Over,
            _ => pause,
        }
    }

    // Tells the conversation of a client that is new.
    fn begin<W>(&mut self, worker: &mut W, place: usize, now: Moment)
    where
        C: Conversation<W>,
    {
        match mem::replace(&mut self.client, SeatClient::Nobody) {
            SeatClient::New(stream) => {
                self.client = SeatClient::Here(stream);
                self.talk.begin(worker, place, now);
            }
            client => self.client = client,
        }
    }

    /// Lets the client go. What it has sent is read out as far as it is here: else the system would
    /// discard what was sent to it and not read yet.
    pub(crate) fn let_go<W>(&mut self, worker: &mut W, buffer: &mut [u8])
    where
        C: Conversation<W>,
    {
        if let SeatClient::Here(stream) = mem::replace(&mut self.client, SeatClient::Nobody) {
            self.talk.end(worker);
            let _ = stream.shutdown(Shutdown::Write);
            read_out(&stream, buffer);
        }
    }
}

// Reads what is here.
fn read_out(stream: &TcpStream, buffer: &mut [u8]) {
    let mut reader = stream;
    for _ in 0..MOST_READS {
        if !matches!(reader.read(buffer), Ok(count) if 0 < count) {
            return;
        }
    }
}
