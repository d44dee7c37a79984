//! What is served in turns: a conversation takes octets, offers octets, and says what it wants next.
ghost use Rattle.std.specs.Prelude.{◌≤◌, ℕ, List, None, Option, drop, length};
ghost use Rattle.std.specs.Io.KnownBytes.{Appends, Keeps};
ghost use Rattle.turns.specs.Exchanges.{Grows, IsFrontOf};

use crate::moment::Moment;

/// What a conversation wants next.
#[derive(Clone, Copy, Debug, PartialEq, Eq)]
pub enum Wants {
    /// Octets of its client.
    Read,
    /// To send its output, of which there is some.
    Write,
    /// A step that may take long, such as the fetch of a page.
    Work,
    /// To be called again: once somebody wakes it, or after a tenth of a second.
    Wake,
    /// Nothing: it is over.
    End,
}

/// A conversation with one client after the other, by a worker `W`. It is called by one worker at a time,
/// but not always by the same. No call but `work` may take long.
pub trait Conversation<W> {
    /// The octets that it has heard, where a contract is to speak of them.
    ghost heard: { Self → Option (List ℕ) } = { λ _. None };

    /// The octets that wait for its client, in order.
    ghost pending: { Self → List ℕ };

    /// A client has come, to the place of this number.
    fn begin(&mut self, worker: &mut W, place: usize, now: Moment);

    /// What it wants next. The loop asks after each call.
    fn wants(&self) -> Wants;

    /// When its patience with its client is over. The loop reads this after each turn. Past it the
    /// conversation ends if it waits for its client: after a turn that did not set a later deadline, or once
    /// the loop looks at deadlines, once a second. It may be a deadline of a whole message: `now` of the
    /// calls gives the time.
    fn until(&self) -> Moment;

    /// Takes octets of its client. None are the end of its input: it can't want to read after that.
    fn hear(&mut self, worker: &mut W, now: Moment, octets: &[u8])
        ensures heard { Appends (Self.heard self.old) (Self.heard self.new) octets.now }
        ensures pending { Grows (Self.pending self.old) (Self.pending self.new) };

    /// The next octets to send.
    fn output(&self) -> &[u8]
        ensures { IsFrontOf result.now (Self.pending self.now) };

    /// So many octets of the output were sent.
    fn sent(&mut self, worker: &mut W, now: Moment, count: usize)
        requires { count ≤ length (Self.pending self.old) }
        ensures heard { Keeps (Self.heard self.old) (Self.heard self.new) }
        ensures pending { Grows (drop count (Self.pending self.old)) (Self.pending self.new) };

    /// Takes the step that may take long.
    fn work(&mut self, worker: &mut W, now: Moment)
        ensures heard { Keeps (Self.heard self.old) (Self.heard self.new) }
        ensures pending { Grows (Self.pending self.old) (Self.pending self.new) };

    /// It wanted to be called again, and is. It may want so once more.
    fn resume(&mut self, worker: &mut W, now: Moment)
        ensures heard { Keeps (Self.heard self.old) (Self.heard self.new) }
        ensures pending { Grows (Self.pending self.old) (Self.pending self.new) };

    /// Its client is gone, whatever was pending. All that it holds for this client is given back, and
    /// another one may come.
    fn end(&mut self, worker: &mut W);
}
