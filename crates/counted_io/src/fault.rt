//! The one fault of a device.
//! Reported by every `Source` and `Sink`.
use std::error::Error;
use std::fmt;

/// A read or a write failed, and the count of failures rose by one. The device says no more.
#[derive(Clone, Copy, Debug, PartialEq, Eq)]
pub struct DeviceFault;

impl fmt::Display for DeviceFault {
    ghost use Rattle.std.specs.Prelude.{Some, codes};

    ghost output = { λ _. Some (codes "the device failed") };

    fn fmt<W: fmt::Write>(&self, f: &mut fmt::Formatter<W>) -> fmt::Result {
        f.write_str("the device failed")
    }
}

impl Error for DeviceFault {}
