//! The result of reading one line, and why it may fail.
//! Returned by `LineReader::next_line`.
use crate::fault::DeviceFault;
use std::alloc::AllocError;
use std::error::Error;
use std::fmt;

/// What `LineReader::next_line` found.
#[derive(Clone, Copy, Debug, PartialEq, Eq)]
pub enum NextLine {
    /// A line with a line end.
    Line,
    /// The last line, not empty, without a line end. Nothing is left.
    Last,
    /// Nothing is left, and the line is empty.
    End,
    /// The line is longer than the limit. A prefix of it is consumed, and no further line can be read.
    TooLong,
}

/// Why no line was read, or no input to its end. The octets consumed are lost.
#[derive(Clone, Copy, Debug, PartialEq, Eq)]
pub enum ReadLineFault {
    /// The source failed.
    Read,
    /// No memory for the line.
    NoMemory,
}

impl fmt::Display for ReadLineFault {
    ghost use Rattle.std.specs.Prelude.{Some};
    ghost use Rattle.counted_io.specs.Messages.{read_line_fault_text};

    ghost output = { λ fault. Some (read_line_fault_text fault) };

    fn fmt<W: fmt::Write>(&self, f: &mut fmt::Formatter<W>) -> fmt::Result {
        match self {
            ReadLineFault::Read => f.write_str("a read failed"),
            ReadLineFault::NoMemory => f.write_str("no memory for a line"),
        }
    }
}

impl Error for ReadLineFault {}

impl From<AllocError> for ReadLineFault {
    ghost use Rattle.std.specs.Prelude.{◌≡◌};
    ghost use Rattle.counted_io.specs.declared.next_line.ReadLineFault.TheVariants.{NoMemory};

    ghost from_gives = { λ _ fault. fault ≡ NoMemory };

    fn from(_: AllocError) -> ReadLineFault {
        ReadLineFault::NoMemory
    }
}

impl From<DeviceFault> for ReadLineFault {
    ghost use Rattle.std.specs.Prelude.{◌≡◌};
    ghost use Rattle.counted_io.specs.declared.next_line.ReadLineFault.TheVariants.{Read};

    ghost from_gives = { λ _ fault. fault ≡ Read };

    fn from(_: DeviceFault) -> ReadLineFault {
        ReadLineFault::Read
    }
}
