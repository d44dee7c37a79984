//! What octets are written to, and a write of a whole text.
//! Used by every crate that writes.
ghost use Rattle.std.specs.Prelude.{◌≡◌, ℕ, List, Option, ◌<◌, ◌≤◌, length, IfOk, OnOk, OnErr};
ghost use Rattle.std.specs.Io.KnownBytes.{Appends, WriteAppends};
ghost use Rattle.counted_io.specs.Device.{failures_after, AppendsPrefix};

use crate::fault::DeviceFault;

/// A writer of octets, with a count of its failures.
pub trait Sink {
    /// The octets written so far, if known.
    ghost written: { Self → Option (List ℕ) };

    /// How many calls failed, modulo 2^64.
    ghost failures: { Self → ℕ };

    /// Writes a prefix of `bytes`, and returns its length. May wait for the device.
    fn write(&mut self, bytes: &[u8]) -> Result<usize, DeviceFault>
        ensures bound { IfOk result (λ n. n ≤ length bytes.now) }
        ensures takes { IfOk result (λ n. 0 < length bytes.now → 0 < n) }
        ensures bytes { WriteAppends (written self.old) (written self.new) result bytes.now }
        ensures count { failures self.new ≡ failures_after (failures self.old) result };
}

/// Writes all of `bytes`, in as many writes as needed, up to the first that fails.
pub fn write_all<W: Sink>(sink: &mut W, bytes: &[u8]) -> Result<(), DeviceFault>
    ensures ok { OnOk result (Appends (W.written sink.old) (W.written sink.new) bytes.now) }
    ensures err { OnErr result
        (AppendsPrefix (W.written sink.old) (W.written sink.new) bytes.now) }
    ensures count { W.failures sink.new ≡ failures_after (W.failures sink.old) result }
{
    let mut done = 0;
    while done < bytes.len() {
        done += sink.write(&bytes[done..])?;
    }
    Ok(())
}
