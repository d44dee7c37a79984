//! What octets are read from.
//! Used by every crate that reads.
ghost use Rattle.std.specs.Prelude.{◌≡◌, ℕ, List, Option, ◌≤◌, length, IfOk};
ghost use Rattle.std.specs.Io.KnownBytes.{ReadConsumes};
ghost use Rattle.counted_io.specs.Device.{failures_after};

use crate::fault::DeviceFault;

/// A reader of octets, with a count of its failures.
pub trait Source {
    /// The octets that reads will give, if known.
    ghost left: { Self → Option (List ℕ) };

    /// How many calls failed, modulo 2^64.
    ghost failures: { Self → ℕ };

    /// Reads into the front of `buffer`, and returns how many octets. May wait for the device.
    /// 0 for a nonempty buffer is the end of the input.
    fn read(&mut self, buffer: &mut [u8]) -> Result<usize, DeviceFault>
        ensures bound { IfOk result (λ n. n ≤ length buffer.new) }
        ensures bytes { ReadConsumes (left self.old) (left self.new) result buffer.new }
        ensures count { failures self.new ≡ failures_after (failures self.old) result };
}
