//! A std reader or writer with a count of its failures.
//! Used for files, sockets and standard streams.
ghost use Rattle.std.specs.Prelude.{◌≡◌};
ghost use Rattle.counted_io.specs.Counted.{device_of, failures_of};
ghost use Rattle.counted_io.specs.Device.{one_more};

use crate::fault::DeviceFault;
use crate::sink::Sink;
use crate::source::Source;
use std::io::{Read, Write};

/// A std reader or writer. Its octets, held or left, are those that std knows of it.
#[derive(Drop)]
pub struct Counted<D> {
    device: D,
    failures: u64,
}

impl<D> Counted<D> {
    /// A device without failures so far.
    pub fn new(device: D) -> Counted<D>
        ensures device { device_of result ≡ device }
        ensures failures { failures_of result ≡ 0 }
    {
        Counted {
            device,
            failures: 0,
        }
    }

    /// How many calls failed, modulo 2^64.
    pub fn failures(&self) -> u64
        ensures { result ≡ failures_of self.now }
    {
        self.failures
    }

    /// The reader or the writer itself.
    pub fn into_inner(self) -> D
        ensures { result ≡ device_of self }
    {
        self.device
    }

    fn fault(&mut self) -> DeviceFault
        ensures same { device_of self.new ≡ device_of self.old }
        ensures count { failures_of self.new ≡ one_more (failures_of self.old) }
    {
        self.failures = self.failures.wrapping_add(1);
        DeviceFault
    }
}

impl<R: Read> Source for Counted<R> {
    ghost left = { λ s. R.remaining (device_of s) };

    ghost failures = { failures_of };

    fn read(&mut self, buffer: &mut [u8]) -> Result<usize, DeviceFault> {
        match self.device.read(buffer) {
            Ok(count) => Ok(count),
            Err(_) => Err(self.fault()),
        }
    }
}

impl<W: Write> Sink for Counted<W> {
    ghost written = { λ s. W.contents (device_of s) };

    ghost failures = { failures_of };

    /// A write that takes nothing of a nonempty piece is a failure too.
    fn write(&mut self, bytes: &[u8]) -> Result<usize, DeviceFault> {
        match self.device.write(bytes) {
            Ok(count) if count > 0 || bytes.is_empty() => Ok(count),
            _ => Err(self.fault()),
        }
    }
}
