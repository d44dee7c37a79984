//! Why `check` or `lines` stopped early.
//! Their error type.
use counted_io::{DeviceFault, ReadLineFault};
use std::alloc::AllocError;

/// Why a check, or the lines of a robots text, stopped.
#[derive(Clone, Copy, Debug, PartialEq, Eq)]
pub enum TextFault {
    /// A read failed. Nothing was written.
    Read,
    /// A write failed. Part of the output was written.
    Write,
    /// Out of memory. Part of the output was written.
    NoMemory,
}

impl From<AllocError> for TextFault {
    ghost use Rattle.std.specs.Prelude.{◌≡◌};
    ghost use Rattle.robots_check.specs.declared.fault.TextFault.TheVariants.{NoMemory};

    ghost from_gives = { λ _ fault. fault ≡ NoMemory };

    fn from(_: AllocError) -> TextFault {
        TextFault::NoMemory
    }
}

impl From<DeviceFault> for TextFault {
    ghost use Rattle.std.specs.Prelude.{◌≡◌};
    ghost use Rattle.robots_check.specs.declared.fault.TextFault.TheVariants.{Write};

    ghost from_gives = { λ _ fault. fault ≡ Write };

    /// Only writes report a device's fault unchanged.
    fn from(_: DeviceFault) -> TextFault {
        TextFault::Write
    }
}

impl From<ReadLineFault> for TextFault {
    ghost use Rattle.std.specs.Prelude.{◌≡◌};
    ghost use Rattle.robots_check.specs.Checks.{text_fault};

    ghost from_gives = { λ cause fault. fault ≡ text_fault cause };

    fn from(fault: ReadLineFault) -> TextFault {
        match fault {
            ReadLineFault::Read => TextFault::Read,
            ReadLineFault::NoMemory => TextFault::NoMemory,
        }
    }
}
