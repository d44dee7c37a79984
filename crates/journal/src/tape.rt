//! What a journal is written to: octets that are only appended, and synced.
//! Implemented by `FileTape` and `MemoryTape`.
ghost use Rattle.std.specs.Prelude.{◌≡◌, ℕ, List, Option, ◌<◌, ◌≤◌, length, IfOk, OnOk, OnErr};
ghost use Rattle.std.specs.Io.KnownBytes.{Appends, WriteAppends};
ghost use Rattle.counted_io.specs.Device.{failures_after, AppendsPrefix};
ghost use Rattle.journal.specs.Crash.{HasKept};

use counted_io::DeviceFault;
use std::io;

/// A file that is only appended to, with a count of its failures.
pub trait Tape {
    /// The octets appended so far, if known.
    ghost written: { Self → Option (List ℕ) };

    /// How many of the first of these survive any crash.
    ghost kept: { Self → ℕ };

    /// How many calls failed, modulo 2^64.
    ghost failures: { Self → ℕ };

    /// Appends a prefix of `bytes`, and returns its length. A crash of the machine may lose unsynced octets
    /// from some octet on.
    fn append(&mut self, bytes: &[u8]) -> Result<usize, DeviceFault>
        ensures bound { IfOk result (λ n. n ≤ length bytes.now) }
        ensures takes { IfOk result (λ n. 0 < length bytes.now → 0 < n) }
        ensures bytes { WriteAppends (written self.old) (written self.new) result bytes.now }
        ensures least { kept self.old ≤ kept self.new }
        ensures count { failures self.new ≡ failures_after (failures self.old) result };

    /// Waits until all that was appended survives any crash.
    fn sync(&mut self) -> Result<(), DeviceFault>
        ensures same { written self.new ≡ written self.old }
        ensures least { kept self.old ≤ kept self.new }
        ensures all { OnOk result (HasKept (written self.new) (kept self.new)) }
        ensures count { failures self.new ≡ failures_after (failures self.old) result };

    /// Why the last failed call failed, if known.
    fn cause(&self) -> Option<io::Error> {
        None
    }
}

/// Appends all of `bytes`, in as many calls as needed, up to the first failure.
pub fn append_all<T: Tape>(tape: &mut T, bytes: &[u8]) -> Result<(), DeviceFault>
    ensures ok { OnOk result (Appends (T.written tape.old) (T.written tape.new) bytes.now) }
    ensures err { OnErr result
        (AppendsPrefix (T.written tape.old) (T.written tape.new) bytes.now) }
    ensures least { T.kept tape.old ≤ T.kept tape.new }
    ensures count { T.failures tape.new ≡ failures_after (T.failures tape.old) result }
{
    let mut done = 0;
    while done < bytes.len() {
        done += tape.append(&bytes[done..])?;
    }
    Ok(())
}
