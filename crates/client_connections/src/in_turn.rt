//! A client's lines as they are read, and how long the gate fetches for lines sent ahead.
//! Used for the sessions of a server that limits that time.
ghost use Rattle.std.specs.Prelude.{◌≡◌, ◌≢◌, ◌≤◌, ◌<◌, [], Ok, IsErr, length, take, true};
ghost use Rattle.std.specs.Duration.{as_nanos};
ghost use Rattle.std.specs.Io.{ReadsAtMost};
ghost use Rattle.std.specs.Io.Buffered.{reader_buffer, reader_remaining};
ghost use Rattle.std.specs.Io.KnownBytes.{ReadConsumes};
ghost use Rattle.client_connections.specs.Ahead.{AreInTurn, BringsTurn, TakesTurn};
ghost use Rattle.client_connections.specs.Waiting.{IsOver};

use crate::at_hand::AtHand;
use crate::client_stream::ClientStream;
use crate::together::{begins_fetch, line_len, plain_len};
use crate::waiting::Waiting;
use std::alloc::Global;
use std::cell::Cell;
use std::io::{BufRead, BufReader, Read, Write};
use std::time::{Duration, Instant};
use std::{io, time};
use stream_waits::Waits;

/// The most seconds of fetches for lines sent ahead that a server may allow.
pub const AHEAD_SECONDS: u64 = 3_600;

/// How long the gate fetched for lines that a client had sent ahead, since it last waited: for a reply,
/// with nothing sent after its line, or with nothing sent at all.
#[derive(Clone, Copy, Debug, PartialEq, Eq)]
pub struct FetchedAhead {
    ahead: Waiting,
    // Since when the gate may be fetching for the line read last; none if it fetches nothing for that.
    since: Option<Instant>,
    // Whether octets were read but not returned yet.
    has_more: bool,
}

impl FetchedAhead {
    /// Nothing was fetched. `most` limits fetching for lines sent ahead.
    pub fn new(most: Duration) -> FetchedAhead {
        FetchedAhead {
            ahead: Waiting::new(most),
            since: None,
            has_more: false,
        }
    }

    // The client waits: earlier fetches no longer count.
    fn begun(self, now: Option<Instant>) -> FetchedAhead {
        FetchedAhead {
            ahead: Waiting::new(self.ahead.patience),
            since: now,
            has_more: self.has_more,
        }
    }
}

/// The kind of the line whose first octets were returned.
#[derive(Clone, Copy, Debug, PartialEq, Eq)]
enum Begun {
    /// None: a line begins next.
    Nothing,
    /// A line that makes the gate fetch nothing.
    Plain,
    /// A line for which the gate may fetch.
    Fetch,
}

/// The read side of a client's connection. A line for which the gate may fetch is returned alone, so the
/// next read comes after its reply. The time until that read counts if its octets were there before and the
/// client did not wait meanwhile; past the limit a read fails. So a client that sends such lines ahead, and
/// may read no reply, can't hold its worker longer, while one that waits for each reply is never cut off.
#[derive(Drop)]
pub struct LinesInTurn<'a, R: time::Clock, S: Waits + AtHand> {
    rt: &'a R,
    lines: BufReader<ClientStream<'a, R, S>>,
    turn: &'a Cell<FetchedAhead>,
    begun: Begun,
}

impl<'a, R: time::Clock, S: Waits + AtHand + Drop> LinesInTurn<'a, R, S> {
    /// This stream's lines, none read so far.
    pub fn new(
        alloc: Global,
        stream: ClientStream<'a, R, S>,
        turn: &'a Cell<FetchedAhead>,
    ) -> io::Result<LinesInTurn<'a, R, S>> {
        Ok(LinesInTurn {
            rt: stream.rt,
            lines: BufReader::new(alloc, stream)?,
            turn,
            begun: Begun::Nothing,
        })
    }

    // Whether octets were read but not returned, or can be read without waiting.
    fn is_at_hand(&self) -> io::Result<bool>
        ensures { reader_buffer self.now.lines ≢ [] → result ≡ Ok true }
    {
        if self.lines.buffer().is_empty() {
            self.lines.get_ref().stream.is_at_hand()
        } else {
            Ok(true)
        }
    }

    // How long was fetched for lines sent ahead when the next octets are read.
    fn ahead_of_next(&self) -> io::Result<Waiting> {
        let turn = self.turn.get();
        let spent = time_since(self.rt, turn.since);
        take_turn(turn.ahead, self.is_at_hand()?, spent)
    }

    // Notes that, and whether the gate may fetch for what was read now.
    fn note(&self, ahead: Waiting, is_fetch: bool) {
        self.turn.set(FetchedAhead {
            ahead,
            since: if is_fetch {
                Instant::now(self.rt).ok()
            } else {
                None
            },
            has_more: !self.lines.buffer().is_empty(),
        });
    }

    // Returns octets read before, or else what a read brings, as far as they may go together.
    fn hand_out(&mut self, buf: &mut [u8]) -> io::Result<usize>
        ensures bound { ReadsAtMost result buf.new }
        ensures bytes { ReadConsumes (reader_remaining (λ s. S.remaining s.stream) self.old.lines)
            (reader_remaining (λ s. S.remaining s.stream) self.new.lines) result buf.new }
        ensures turn { BringsTurn result buf.new }
    {
        let octets = self.lines.fill_buf()?;
        if octets.is_empty() {
            // (an octet behind the end, should there be one, is of one line)
            let most = buf.len().min(1);
            return self.lines.read(&mut buf[..most]);
        }
        let count = copy_together(octets, &mut self.begun, buf);
        self.lines.consume(count);
        Ok(count)
    }
}

impl<'a, R: time::Clock, S: Waits + AtHand + Drop> Read for LinesInTurn<'a, R, S> {
    ghost remaining = { λ s. reader_remaining (λ t. S.remaining t.stream) s.lines };

    fn read(&mut self, buf: &mut [u8]) -> io::Result<usize>
        ensures bound { ReadsAtMost result buf.new }
        ensures bytes { ReadConsumes (reader_remaining (λ s. S.remaining s.stream) self.old.lines)
            (reader_remaining (λ s. S.remaining s.stream) self.new.lines) result buf.new }
        ensures turn { BringsTurn result buf.new }
    {
        let ahead = self.ahead_of_next()?;
        let begun = self.begun;
        let taken = self.hand_out(buf)?;
        self.note(ahead, may_fetch(begun, &buf[..taken]));
        Ok(taken)
    }
}

/// The write side. A client that has sent nothing after the line whose reply is written counts as waiting.
#[derive(Drop)]
pub struct RepliesInTurn<'a, R: time::Clock, S: Waits + AtHand> {
    stream: ClientStream<'a, R, S>,
    turn: &'a Cell<FetchedAhead>,
}

impl<'a, R: time::Clock, S: Waits + AtHand> RepliesInTurn<'a, R, S> {
    /// The write side of this stream.
    pub fn new(
        stream: ClientStream<'a, R, S>,
        turn: &'a Cell<FetchedAhead>,
    ) -> RepliesInTurn<'a, R, S> {
        RepliesInTurn { stream, turn }
    }
}

impl<'a, R: time::Clock, S: Waits + AtHand> Write for RepliesInTurn<'a, R, S> {
    ghost contents = { λ s. S.contents s.stream.stream };

    fn write(&mut self, buf: &[u8]) -> io::Result<usize> {
        let turn = self.turn.get();
        if turn.since.is_some() && !turn.has_more && !self.stream.stream.is_at_hand()? {
            self.turn.set(turn.begun(Instant::now(self.stream.rt).ok()));
        }
        self.stream.write(buf)
    }

    fn flush(&mut self) -> io::Result<()> {
        self.stream.flush()
    }
}

// How long was fetched for lines sent ahead when the next one is read, this long after the one before it.
fn take_turn(ahead: Waiting, at_hand: bool, spent: Duration) -> io::Result<Waiting>
    ensures turn { TakesTurn ahead at_hand (as_nanos spent) result }
    ensures over { at_hand ≡ true → IsOver ahead → IsErr result }
{
    if !at_hand {
        return Ok(Waiting::new(ahead.patience));
    }
    let after = ahead.after(spent);
    after.try_time()?;
    Ok(after)
}

// The time since that. A clock that can't be read now counts as all time.
fn time_since<R: time::Clock>(rt: &R, since: Option<Instant>) -> Duration {
    match since {
        Some(moment) => moment.elapsed(rt).unwrap_or(Duration::MAX),
        None => Duration::ZERO,
    }
}

// Whether these octets, after that beginning, may make the gate fetch.
fn may_fetch(begun: Begun, octets: &[u8]) -> bool {
    match begun {
        Begun::Nothing => octets.first().is_some_and(|octet| begins_fetch(*octet)),
        Begun::Plain => false,
        Begun::Fetch => true,
    }
}

// Copies the leading octets that go together, as far as the buffer has room, and returns how many.
fn copy_together(octets: &[u8], begun: &mut Begun, buf: &mut [u8]) -> usize
    ensures len { length buf.new ≡ length buf.old }
    ensures fits { result ≤ length octets.now }
    ensures room { result ≤ length buf.new }
    ensures some { 0 < length octets.now → 0 < length buf.new → 0 < result }
    ensures copied { take result buf.new ≡ take result octets.now }
    ensures turn { AreInTurn (take result octets.now) }
{
    let is_fetch = may_fetch(*begun, octets);
    let count = together_len(octets, is_fetch, buf.len());
    buf[..count].copy_from_slice(&octets[..count]);
    *begun = match octets[..count].last() {
        None => *begun,
        Some(b'\n') => Begun::Nothing,
        Some(_) if is_fetch => Begun::Fetch,
        Some(_) => Begun::Plain,
    };
    count
}

// How many leading octets go together, up to a limit.
fn together_len(octets: &[u8], is_fetch: bool, most: usize) -> usize
    ensures fits { result ≤ length octets.now }
    ensures room { result ≤ most }
    ensures some { 0 < length octets.now → 0 < most → 0 < result }
    ensures turn { AreInTurn (take result octets.now) }
{
    if is_fetch {
        line_len(octets).min(most)
    } else {
        plain_len(octets).min(most)
    }
}
