//! A tape whose octets and syncs are counted.
//! A folder's files are written through it.
ghost use Rattle.std.specs.Prelude.{◌≡◌};

use crate::meter::JournalMeter;
use crate::tape::Tape;
use counted_io::DeviceFault;
use std::io;
use std::sync::Arc;
use std::time::{Clock, Duration, Instant};

/// A tape, and the meter and clock for it. A failed call counts like others: what it took was taken.
#[derive(Drop)]
pub struct MeteredTape<T, R> {
    pub(crate) tape: T,
    pub(crate) meter: Arc<JournalMeter>,
    pub(crate) rt: R,
}

impl<T: Tape, R: Clock> Tape for MeteredTape<T, R> {
    ghost written = { λ metered. T.written metered.tape };

    ghost kept = { λ metered. T.kept metered.tape };

    ghost failures = { λ metered. T.failures metered.tape };

    fn append(&mut self, bytes: &[u8]) -> Result<usize, DeviceFault> {
        let taken = self.tape.append(bytes)?;
        self.meter.write(taken as u64);
        Ok(taken)
    }

    fn sync(&mut self) -> Result<(), DeviceFault> {
        let begun = Instant::now(&self.rt).ok();
        let result = self.tape.sync();
        self.meter.sync(time_since(&self.rt, begun));
        result
    }

    fn cause(&self) -> Option<io::Error> {
        self.tape.cause()
    }
}

/// How long ago this moment was, if the clock can be read.
pub(crate) fn time_since<R: Clock>(rt: &R, begun: Option<Instant>) -> Option<Duration> {
    begun?.elapsed(rt).ok()
}
