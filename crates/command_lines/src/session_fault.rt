//! Why a session stopped early.
//! Reported by `run_session`.
use counted_io::DeviceFault;
use std::alloc::AllocError;

/// Why a session stopped. All lines taken before were answered.
#[derive(Clone, Copy, Debug, PartialEq, Eq)]
pub enum SessionFault {
    /// The next line is longer than the limit. The session wrote `ERR long`.
    LongLine,
    /// The input has more lines than a session takes. The session wrote `ERR lines`.
    Lines,
    /// A read failed. The replies were written.
    Read,
    /// A write failed. Only a part of the replies was written.
    Write,
    /// No memory for the buffers or a line. The replies were written.
    NoMemory,
}

impl From<AllocError> for SessionFault {
    ghost use Rattle.std.specs.Prelude.{◌≡◌};
    ghost use Rattle.command_lines.specs.declared.session_fault.SessionFault.TheVariants.{NoMemory};

    ghost from_gives = { λ _ fault. fault ≡ NoMemory };

    fn from(_: AllocError) -> SessionFault {
        SessionFault::NoMemory
    }
}

impl From<DeviceFault> for SessionFault {
    ghost use Rattle.std.specs.Prelude.{◌≡◌};
    ghost use Rattle.command_lines.specs.declared.session_fault.SessionFault.TheVariants.{Write};

    ghost from_gives = { λ _ fault. fault ≡ Write };

    /// Only a session's writes report a device's fault unchanged.
    fn from(_: DeviceFault) -> SessionFault {
        SessionFault::Write
    }
}
