//! A turn of a conversation over the octets that can be read and written without waiting.
ghost use Rattle.std.specs.Prelude.{◌<◌, [], ℕ, List, length};
ghost use Rattle.std.specs.Io.KnownBytes.{Appends, Consumes, Keeps};
ghost use Rattle.turns.specs.Exchanges.{Sends};

use crate::conversation::{Conversation, Wants};
use crate::moment::Moment;
use std::io::{ErrorKind, Read, Write};

// How many reads and writes a turn has at most, so that no client holds a worker.
const MOST_MOVES: usize = 64;

/// What a conversation waits for at the end of a turn.
#[derive(Clone, Copy, Debug, PartialEq, Eq)]
pub(crate) enum Pause {
    /// Octets to read.
    Octets,
    /// Room for octets.
    Room,
    /// The leave to take a slow step.
    Work,
    /// To be called again.
    Wake,
    /// Nothing: it is over, or its client is lost.
    Over,
}

/// Reads and writes until a read or write would wait, the conversation wants neither, or the turn is long
/// enough. What is read is heard, and what is written was pending, in order and each octet once.
pub(crate) fn exchange<W, C: Conversation<W>, R: Read, O: Write>(
    talk: &mut C,
    worker: &mut W,
    now: Moment,
    reader: &mut R,
    writer: &mut O,
    buffer: &mut [u8],
) -> Pause
    requires { 0 < length buffer.old }
    ensures heard { (more : List ℕ)
        × Consumes (R.remaining reader.old) (R.remaining reader.new) more
        × Appends (C.heard talk.old) (C.heard talk.new) more }
    ensures sent { (more : List ℕ)
        × Appends (O.contents writer.old) (O.contents writer.new) more
        × Sends (C.pending talk.old) more (C.pending talk.new) }
{
    for _ in 0..MOST_MOVES {
        if let Some(pause) = move_once(talk, worker, now, reader, writer, buffer) {
            return pause;
        }
    }
    pause_of(talk.wants())
}

// Reads or writes once, if that is what the conversation wants.
fn move_once<W, C: Conversation<W>, R: Read, O: Write>(
    talk: &mut C,
    worker: &mut W,
    now: Moment,
    reader: &mut R,
    writer: &mut O,
    buffer: &mut [u8],
) -> Option<Pause>
    requires { 0 < length buffer.old }
    ensures heard { (more : List ℕ)
        × Consumes (R.remaining reader.old) (R.remaining reader.new) more
        × Appends (C.heard talk.old) (C.heard talk.new) more }
    ensures sent { (more : List ℕ)
        × Appends (O.contents writer.old) (O.contents writer.new) more
        × Sends (C.pending talk.old) more (C.pending talk.new) }
{
    match talk.wants() {
        Wants::Read => read_once(talk, worker, now, reader, buffer),
        Wants::Write => write_once(talk, worker, now, writer),
        wants => Some(pause_of(wants)),
    }
}

// What a conversation waits for that may not go on now.
fn pause_of(wants: Wants) -> Pause {
    match wants {
        Wants::Read => Pause::Octets,
        Wants::Write => Pause::Room,
        Wants::Work => Pause::Work,
        Wants::Wake => Pause::Wake,
        Wants::End => Pause::Over,
    }
}

// Reads once. A conversation that would read past the end is over.
fn read_once<W, C: Conversation<W>, R: Read>(
    talk: &mut C,
    worker: &mut W,
    now: Moment,
    reader: &mut R,
    buffer: &mut [u8],
) -> Option<Pause>
    requires { 0 < length buffer.old }
    ensures heard { (more : List ℕ)
        × Consumes (R.remaining reader.old) (R.remaining reader.new) more
        × Appends (C.heard talk.old) (C.heard talk.new) more }
    ensures pending { Sends (C.pending talk.old) [] (C.pending talk.new) }
{
    match reader.read(buffer) {
        Ok(count) => {
            talk.hear(worker, now, &buffer[..count]);
            let is_past = count == 0 && talk.wants() == Wants::Read;
            if is_past { Some(Pause::Over) } else { None }
        }
        Err(error) => pause_at(error.kind(), Pause::Octets),
    }
}

// Writes once.
fn write_once<W, C: Conversation<W>, O: Write>(
    talk: &mut C,
    worker: &mut W,
    now: Moment,
    writer: &mut O,
) -> Option<Pause>
    ensures heard { Keeps (C.heard talk.old) (C.heard talk.new) }
    ensures sent { (more : List ℕ)
        × Appends (O.contents writer.old) (O.contents writer.new) more
        × Sends (C.pending talk.old) more (C.pending talk.new) }
{
    match writer.write(talk.output()) {
        Ok(0) => Some(Pause::Over),
        Ok(count) => {
            talk.sent(worker, now, count);
            None
        }
        Err(error) => pause_at(error.kind(), Pause::Room),
    }
}

// What a failed read or write waits for: nothing if it may be tried again at once.
fn pause_at(kind: ErrorKind, pause: Pause) -> Option<Pause> {
    match kind {
        ErrorKind::WouldBlock => Some(pause),
        ErrorKind::Interrupted => None,
        _ => Some(Pause::Over),
    }
}
