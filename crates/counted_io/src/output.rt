//! A buffer before a sink.
//! Used by everything that writes many short texts.
ghost use Rattle.std.specs.Prelude.{◌≡◌, ◌↔◌, ◌<◌, ◌≤◌, ◌+◌, ◌-◌, ◌++◌, [], length, IfOk, IsTrue, OnOk, OnErr};
ghost use Rattle.std.specs.Io.KnownBytes.{Appends};
ghost use Rattle.counted_io.specs.Device.{failures_after, AppendsPrefix};
ghost use Rattle.counted_io.specs.Limits.{output_buffer};
ghost use Rattle.counted_io.specs.Output.{Passes, Pushes};

use crate::fault::DeviceFault;
use crate::sink::{Sink, write_all};
use std::alloc::{AllocError, Global};
use std::marker::Model;

/// The most octets that an output holds before it writes them.
pub const OUTPUT_BUFFER: usize = 65536;

/// The octets not yet written. The sink is passed to each call.
/// After a fault none are pending: the unwritten ones are lost, so none is written twice.
#[derive(Drop)]
pub struct Output {
    buffer: Vec<u8>,
    len: usize,
}

impl Model for Output {
    ghost use Rattle.std.specs.Prelude.{◌≡◌, ◌≤◌, ℕ, List, take, vec_len};
    ghost use Rattle.counted_io.specs.declared.output.TheConstants.{OUTPUT_BUFFER};

    ghost Value = { List ℕ };

    ghost view = { λ o. take o.len o.buffer.items };

    ghost invariant = { λ o. (o.len ≤ OUTPUT_BUFFER) × (vec_len o.buffer ≡ OUTPUT_BUFFER) };
}

impl Output {
    /// An empty buffer of `OUTPUT_BUFFER` octets, an output's only memory.
    pub fn new(alloc: Global) -> Result<Output, AllocError>
        ensures empty { IfOk result (λ output. output ≡ []) }
        ensures size { OUTPUT_BUFFER ≡ output_buffer }
    {
        let mut buffer = Vec::new(alloc);
        buffer.resize(OUTPUT_BUFFER, 0)?;
        Ok(Output { buffer, len: 0 })
    }

    /// Appends octets to the pending ones. If they don't fit, the pending ones are written first; a piece
    /// larger than the buffer is then written directly.
    pub fn push<W: Sink>(&mut self, sink: &mut W, bytes: &[u8]) -> Result<(), DeviceFault>
        ensures ok { OnOk result (Passes (W.written sink.old) (W.written sink.new)
            (self.old ++ bytes.now) self.new) }
        ensures err { OnErr result (AppendsPrefix (W.written sink.old) (W.written sink.new)
            (self.old ++ bytes.now)) }
        ensures lost { OnErr result (self.new ≡ []) }
        ensures buffered { length self.old + length bytes.now ≤ output_buffer
            → sink.new ≡ sink.old }
        ensures count { W.failures sink.new ≡ failures_after (W.failures sink.old) result }
        ensures pushes { Pushes (W.written sink.old) (W.written sink.new)
            (W.failures sink.old) (W.failures sink.new)
            self.old self.new bytes.now result }
    {
        if bytes.len() <= self.room() {
            self.hold(bytes);
            return Ok(());
        }
        self.flush(sink)?;
        if bytes.len() > OUTPUT_BUFFER {
            return write_all(sink, bytes);
        }
        self.hold(bytes);
        Ok(())
    }

    /// Whether nothing is pending.
    pub fn is_empty(&self) -> bool
        ensures empty { IsTrue result ↔ (self.now ≡ []) }
        ensures bound { length self.now ≤ output_buffer }
    {
        self.len == 0
    }

    /// Writes all that is pending.
    pub fn flush<W: Sink>(&mut self, sink: &mut W) -> Result<(), DeviceFault>
        ensures ok { OnOk result (Appends (W.written sink.old) (W.written sink.new) self.old) }
        ensures err { OnErr result
            (AppendsPrefix (W.written sink.old) (W.written sink.new) self.old) }
        ensures empty { self.new ≡ [] }
        ensures count { W.failures sink.new ≡ failures_after (W.failures sink.old) result }
    {
        let len = self.len;
        self.len = 0;
        write_all(sink, &self.buffer.as_slice()[..len])
    }

    fn room(&self) -> usize
        ensures room { result ≡ OUTPUT_BUFFER - length self.now }
        ensures bound { length self.now ≤ OUTPUT_BUFFER }
    {
        OUTPUT_BUFFER - self.len
    }

    fn hold(&mut self, bytes: &[u8])
        requires { length bytes.now ≤ OUTPUT_BUFFER - length self.old }
        ensures { self.new ≡ self.old ++ bytes.now }
    {
        let end = self.len + bytes.len();
        self.buffer.as_mut_slice()[self.len..end].copy_from_slice(bytes);
        self.len = end;
    }
}
