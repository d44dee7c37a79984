//! A reader or writer that keeps why it failed, for the standard streams.
ghost use Rattle.std.specs.Prelude.{◌≡◌, None};

use std::io;
use std::io::{ErrorKind, Read, Write};

/// A std reader or writer, and the kind of its last failure, if any.
#[derive(Drop)]
pub struct Reasoned<D> {
    pub device: D,
    pub reason: Option<ErrorKind>,
}

impl<D> Reasoned<D> {
    /// A device without failures so far.
    pub fn new(device: D) -> Reasoned<D>
        ensures device { result.device ≡ device }
        ensures reason { result.reason ≡ None }
    {
        Reasoned {
            device,
            reason: None,
        }
    }

    // Keeps the kind of an error.
    fn fail(&mut self, error: io::Error) -> io::Error
        ensures { self.new.device ≡ self.old.device }
    {
        self.reason = Some(error.kind());
        error
    }
}

impl<R: Read> Read for Reasoned<R> {
    ghost remaining = { λ s. R.remaining s.device };

    fn read(&mut self, buf: &mut [u8]) -> io::Result<usize> {
        match self.device.read(buf) {
            Ok(count) => Ok(count),
            Err(error) => Err(self.fail(error)),
        }
    }
}

impl<W: Write> Write for Reasoned<W> {
    ghost contents = { λ s. W.contents s.device };

    fn write(&mut self, buf: &[u8]) -> io::Result<usize> {
        match self.device.write(buf) {
            Ok(count) => Ok(count),
            Err(error) => Err(self.fail(error)),
        }
    }

    fn flush(&mut self) -> io::Result<()> {
        match self.device.flush() {
            Ok(()) => Ok(()),
            Err(error) => Err(self.fail(error)),
        }
    }
}
