//! A sink that waits before each write until something else, such as a journal, has come up.
//! Clients' streams and reports are written behind a journal.
ghost use Rattle.std.specs.Prelude.{◌≡◌, ◌<◌, ◌≤◌, Result, length, IfOk};
ghost use Rattle.std.specs.Io.KnownBytes.{WriteAppends};
ghost use Rattle.counted_io.specs.Device.{failures_after, one_more};
ghost use Rattle.journal.specs.JournaledSink.{GoesFirst};
ghost use Rattle.journal.specs.Parts.{ahead_of, failures_of, number_of, sink_of};

use counted_io::{DeviceFault, Sink};

/// What must come up before anything is told.
pub trait CatchesUp {
    ghost use Rattle.std.specs.Prelude.{ℕ, Result};
    ghost use Rattle.counted_io.specs.declared.fault.DeviceFault.{DeviceFault};

    /// Holds of the number of a call and of each result that it may have.
    ghost comes: { Self → ℕ → Result Unit DeviceFault → Type 0 };

    /// Waits until all that was done so far may be told, or fails if it never may. A caller numbers its
    /// calls, so that no result of one can pass for that of another.
    fn catch_up(&self, number: u64) -> Result<(), DeviceFault>
        ensures { comes self.now number result };
}

/// A sink, and what comes up before each write.
#[derive(Drop)]
pub struct JournaledSink<A, W> {
    ahead: A,
    sink: W,
    failures: u64,
    // The number of the next write, modulo 2^64.
    number: u64,
}

impl<A: CatchesUp, W: Sink> JournaledSink<A, W> {
    /// A sink not yet written to.
    pub fn new(ahead: A, sink: W) -> JournaledSink<A, W>
        ensures ahead { ahead_of result ≡ ahead }
        ensures sink { sink_of result ≡ sink }
        ensures none { (failures_of result ≡ 0) × (number_of result ≡ 0) }
    {
        JournaledSink {
            ahead,
            sink,
            failures: 0,
            number: 0,
        }
    }

    /// The sink inside.
    pub fn into_sink(self) -> W
    where
        A: Drop,
        ensures { result ≡ sink_of self }
    {
        self.sink
    }

    // Comes up, then writes.
    fn write_after(&mut self, bytes: &[u8]) -> Result<usize, DeviceFault>
        ensures bound { IfOk result (λ n. n ≤ length bytes.now) }
        ensures takes { IfOk result (λ n. 0 < length bytes.now → 0 < n) }
        ensures bytes { WriteAppends (W.written (sink_of self.old)) (W.written (sink_of self.new))
            result bytes.now }
        ensures first { GoesFirst (A.comes (ahead_of self.old) (number_of self.old)) W.failures
            (sink_of self.old) (sink_of self.new) result }
        ensures next { (ahead_of self.new ≡ ahead_of self.old)
            × (number_of self.new ≡ one_more (number_of self.old)) }
        ensures count { failures_of self.new ≡ failures_of self.old }
    {
        let number = self.number;
        self.number = number.wrapping_add(1);
        self.ahead.catch_up(number)?;
        self.sink.write(bytes)
    }
}

impl<A: CatchesUp, W: Sink> Sink for JournaledSink<A, W> {
    ghost written = { λ s. W.written (sink_of s) };

    ghost failures = { failures_of };

    /// If coming up fails, the write fails and writes nothing.
    fn write(&mut self, bytes: &[u8]) -> Result<usize, DeviceFault>
        ensures bound { IfOk result (λ n. n ≤ length bytes.now) }
        ensures takes { IfOk result (λ n. 0 < length bytes.now → 0 < n) }
        ensures bytes { WriteAppends (W.written (sink_of self.old)) (W.written (sink_of self.new))
            result bytes.now }
        ensures count { failures_of self.new ≡ failures_after (failures_of self.old) result }
        ensures first { GoesFirst (A.comes (ahead_of self.old) (number_of self.old)) W.failures
            (sink_of self.old) (sink_of self.new) result }
        ensures next { (ahead_of self.new ≡ ahead_of self.old)
            × (number_of self.new ≡ one_more (number_of self.old)) }
    {
        let result = self.write_after(bytes);
        if result.is_err() {
            self.failures = self.failures.wrapping_add(1);
        }
        result
    }
}
