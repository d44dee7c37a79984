//! Texts that are written in the order of their numbers, each as soon as it and all before it are known.
//! docs/FORMATS.md (Jobs and their report) has what is written so.
ghost use Rattle.std.specs.Prelude.{◌≡◌, ◌+◌, ◌<◌, ◌≤◌, ℕ, [], IfOk, IfSome, None, Ok, OnOk, OnErr, false, if◌then◌else◌, length, replicate};
ghost use Rattle.counted_io.specs.Device.{failures_after};
ghost use Rattle.texts_in_order.specs.Order.{FinishesKnown, FinishesWith, GoesPast, IsAsFarAsKnown, IsNew, Keeps, StaysInOrder, StaysWith, TakesText, WritesAll, WritesPrefix, WritesPrefixWith, is_known, waiting_at};

use crate::text::{Text, Texts};
use counted_io::{Counted, DeviceFault, Output, Sink};
use std::alloc::{AllocError, Global};
use std::marker::Model;

/// The texts of the numbers below a count. What is written is a prefix of all of them in order.
/// After a fault nothing more may be taken.
#[derive(Drop)]
pub struct TextsInOrder {
    alloc: Global,
    output: Output,
    // Spells a text that has to wait.
    spelling: Output,
    // How many texts, from the first on, were passed to the output.
    next: usize,
    // The texts that wait for earlier ones, by number.
    kept: Vec<Option<Vec<u8>>>,
}

impl Model for TextsInOrder {
    ghost use Rattle.std.specs.Prelude.{◌≡◌, []};
    ghost use Rattle.texts_in_order.specs.Order.{OrderView};

    ghost Value = { OrderView };

    ghost view = { λ t. record { next = t.next; kept = t.kept.items; pending = t.output } };

    ghost invariant = { λ t. t.spelling ≡ [] };
}

impl TextsInOrder {
    /// The texts of this many numbers, of which none is known. All memory is taken here, but for texts that
    /// have to wait.
    pub fn new(alloc: Global, count: usize) -> Result<TextsInOrder, AllocError>
        ensures { IfOk result (IsNew count) }
    {
        Ok(TextsInOrder {
            alloc,
            output: Output::new(alloc)?,
            spelling: Output::new(alloc)?,
            next: 0,
            kept: nothing_kept(alloc, count)?,
        })
    }

    /// How many texts, from the first on, were passed on to be written.
    pub fn passed(&self) -> usize
        ensures { result ≡ self.now.next }
    {
        self.next
    }

    /// Whether the text of a number was passed on, or waits for others.
    pub fn is_known(&self, number: usize) -> bool
        ensures { result ≡ is_known self.now number }
    {
        number < self.next || matches!(self.kept.get(number), Some(Some(_)))
    }

    /// Takes the text of a number, and passes on what is known from the next text on. Without memory for a
    /// text that has to wait, it stays unknown.
    pub fn take<T: Text, W: Sink>(
        &mut self,
        number: usize,
        text: &T,
        sink: &mut W,
    ) -> Result<(), DeviceFault>
        ensures ok { OnOk result (TakesText number (T.octets text.now)
            (W.written sink.old) (W.written sink.new) self.old self.new) }
        ensures soon { OnOk result (IsAsFarAsKnown self.old → IsAsFarAsKnown self.new) }
        ensures goes_on { OnOk result (number ≡ self.old.next → number < length self.old.kept
            → self.old.next < self.new.next) }
        ensures prefix { WritesPrefixWith number (T.octets text.now)
            (W.written sink.old) (W.written sink.new) self.old }
        ensures count { W.failures sink.new ≡ failures_after (W.failures sink.old) result }
    {
        if number != self.next || number >= self.kept.len() {
            self.keep(number, text);
            return Ok(());
        }
        text.push(&mut self.output, sink)?;
        self.next += 1;
        self.pass(sink)
    }

    /// Writes all that was passed on.
    pub fn flush<W: Sink>(&mut self, sink: &mut W) -> Result<(), DeviceFault>
        ensures ok { OnOk result
            (StaysInOrder (W.written sink.old) (W.written sink.new) self.old self.new) }
        ensures next { self.new.next ≡ self.old.next }
        ensures prefix { WritesPrefix (W.written sink.old) (W.written sink.new) self.old }
        ensures whole { OnOk result
            (WritesAll (W.written sink.old) (W.written sink.new) self.old) }
        ensures count { W.failures sink.new ≡ failures_after (W.failures sink.old) result }
    {
        self.output.flush(sink)
    }

    /// Passes on each text that is left, whether it waits or was not taken, and writes all.
    pub fn finish<A: Texts, W: Sink>(&mut self, all: &A, sink: &mut W) -> Result<(), DeviceFault>
        ensures { OnOk result (FinishesWith (A.texts all.now)
            (W.written sink.old) (W.written sink.new) self.old) }
    {
        let count = all.count().min(self.kept.len());
        'rest: while self.next < count {
            self.pass_next(all, sink)?;
        }
        self.flush(sink)
    }

    /// Passes on each text that waits, past those that are not known, and then this last one, and writes all.
    pub fn finish_known<T: Text, W: Sink>(
        &mut self,
        last: &T,
        sink: &mut W,
    ) -> Result<(), DeviceFault>
        ensures { OnOk result (FinishesKnown (T.octets last.now)
            (W.written sink.old) (W.written sink.new) self.old) }
    {
        'known: while self.next < self.kept.len() {
            self.go_past(sink)?;
        }
        let output = &mut self.output;
        last.push(output, sink)?;
        output.flush(sink)
    }

    // Passes on the next text if it waits, and goes on behind it.
    fn go_past<W: Sink>(&mut self, sink: &mut W) -> Result<(), DeviceFault>
        requires { self.old.next < length self.old.kept }
        ensures { OnOk result
            (GoesPast (W.written sink.old) (W.written sink.new) self.old self.new) }
    {
        if !self.pass_one(sink)? {
            self.next += 1;
        }
        Ok(())
    }

    // Passes on the next text, whether it waits or was not taken.
    fn pass_next<A: Texts, W: Sink>(&mut self, all: &A, sink: &mut W) -> Result<(), DeviceFault>
        requires texts { self.old.next < length (A.texts all.now) }
        requires kept { self.old.next < length self.old.kept }
        ensures ok { OnOk result (StaysWith (A.texts all.now)
            (W.written sink.old) (W.written sink.new) self.old self.new) }
        ensures next { OnOk result (self.new.next ≡ self.old.next + 1) }
        ensures len { OnOk result (length self.new.kept ≡ length self.old.kept) }
    {
        if self.pass_one(sink)? {
            return Ok(());
        }
        all.push_at(self.next, &mut self.output, sink)?;
        self.next += 1;
        Ok(())
    }

    // Keeps a text until those before it are known, if there is memory.
    fn keep<T: Text>(&mut self, number: usize, text: &T)
        ensures { Keeps number (T.octets text.now) self.old self.new }
    {
        let text = self.spell(text).ok();
        if number < self.kept.len() {
            self.kept[number] = text;
        }
    }

    // A text in memory. Its only fault is out of memory.
    fn spell<T: Text>(&mut self, text: &T) -> Result<Vec<u8>, DeviceFault>
        ensures octets { IfOk result (λ spelled. spelled.items ≡ T.octets text.now) }
        ensures same { self.new ≡ self.old }
    {
        let mut spelled = Counted::new(Vec::new(self.alloc));
        let pushed = text.push(&mut self.spelling, &mut spelled);
        let flushed = self.spelling.flush(&mut spelled);
        match (pushed, flushed) {
            (Ok(()), Ok(())) => Ok(spelled.into_inner()),
            _ => Err(DeviceFault),
        }
    }

    // Passes on the texts that wait, from the next one on, up to the first that is not known.
    fn pass<W: Sink>(&mut self, sink: &mut W) -> Result<(), DeviceFault>
        ensures ok { OnOk result
            (StaysInOrder (W.written sink.old) (W.written sink.new) self.old self.new) }
        ensures soon { OnOk result (IsAsFarAsKnown self.new) }
        ensures next { OnOk result (self.old.next ≤ self.new.next) }
        ensures prefix { WritesPrefix (W.written sink.old) (W.written sink.new) self.old }
        ensures count { W.failures sink.new ≡ failures_after (W.failures sink.old) result }
    {
        'passes: while self.next < self.kept.len() {
            if !self.pass_one(sink)? {
                return Ok(());
            }
        }
        Ok(())
    }

    // Passes on the next text if it waits. Returns whether it did.
    fn pass_one<W: Sink>(&mut self, sink: &mut W) -> Result<bool, DeviceFault>
        requires { self.old.next < length self.old.kept }
        ensures ok { OnOk result
            (StaysInOrder (W.written sink.old) (W.written sink.new) self.old self.new) }
        ensures next { IfOk result (λ passed.
            self.new.next ≡ self.old.next + (if passed then 1 else 0)) }
        ensures unknown { result ≡ Ok false → IsAsFarAsKnown self.new }
        ensures waited { result ≡ Ok false → IsAsFarAsKnown self.old }
        ensures others { (number : ℕ) → self.old.next < number
            → waiting_at self.new.kept number ≡ waiting_at self.old.kept number }
        ensures prefix { WritesPrefix (W.written sink.old) (W.written sink.new) self.old }
        ensures len { length self.new.kept ≡ length self.old.kept }
        ensures count { W.failures sink.new ≡ failures_after (W.failures sink.old) result }
    {
        let Some(text) = self.kept[self.next].take() else {
            return Ok(false);
        };
        self.output.push(sink, text.as_slice())?;
        self.next += 1;
        Ok(true)
    }
}

fn nothing_kept(alloc: Global, count: usize) -> Result<Vec<Option<Vec<u8>>>, AllocError>
    ensures { IfOk result (λ kept. kept.items ≡ replicate count None) }
{
    let mut kept = Vec::with_capacity(alloc, count)?;
    for _ in 0..count {
        kept.push(None)?;
    }
    Ok(kept)
}
