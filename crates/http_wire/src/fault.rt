//! Why no response was read.
use counted_io::DeviceFault;
use std::alloc::AllocError;
use std::error::Error;
use std::fmt;

/// Why a request was not written, or no response read.
#[derive(Clone, Copy, Debug, PartialEq, Eq)]
pub enum WireFault {
    /// The input ended before the response.
    EarlyEnd,
    /// A head can't be parsed, or has the status 101 or one below 100.
    BadHead,
    /// A head is longer than `MAX_HEAD` octets or `MAX_HEADER_LINES` header lines.
    HeadTooLong,
    /// More than `MAX_INTERIM_HEADS` interim heads.
    TooManyInterim,
    /// The members of Content-Length are not all the same number below 2 to the 64.
    BadLength,
    /// A chunk's line, its end or a trailer can't be parsed, or the trailers are too long.
    BadChunk,
    /// The body has a transfer coding other than `chunked`, or a content coding.
    Coding,
    /// The device failed.
    Device,
    /// No memory for the octets of the response.
    NoMemory,
    /// The response is longer than a response may be: `MAX_RAW` octets, or more with a great limit of its body.
    TooMuch,
}

impl From<AllocError> for WireFault {
    ghost use Rattle.std.specs.Prelude.{◌≡◌};
    ghost use Rattle.http_wire.specs.declared.fault.WireFault.{WireFault};

    ghost from_gives = { λ _ fault. fault ≡ WireFault.NoMemory };

    fn from(_: AllocError) -> WireFault {
        WireFault::NoMemory
    }
}

impl From<DeviceFault> for WireFault {
    ghost use Rattle.std.specs.Prelude.{◌≡◌};
    ghost use Rattle.http_wire.specs.declared.fault.WireFault.{WireFault};

    ghost from_gives = { λ _ fault. fault ≡ WireFault.Device };

    fn from(_: DeviceFault) -> WireFault {
        WireFault::Device
    }
}

impl fmt::Display for WireFault {
    ghost use Rattle.std.specs.Prelude.{Some};
    ghost use Rattle.http_wire.specs.Messages.{wire_fault_text};

    ghost output = { λ fault. Some (wire_fault_text fault) };

    fn fmt<W: fmt::Write>(&self, f: &mut fmt::Formatter<W>) -> fmt::Result {
        f.write_str(match self {
            WireFault::EarlyEnd => "the input ended before the response did",
            WireFault::BadHead => "the head can't be read",
            WireFault::HeadTooLong => "the head is too long",
            WireFault::TooManyInterim => "too many interim heads",
            WireFault::BadLength => "the length of the body can't be read",
            WireFault::BadChunk => "the chunks of the body can't be read",
            WireFault::Coding => "the body is in a coding that is not read",
            WireFault::Device => "the device failed",
            WireFault::NoMemory => "no memory for the response",
            WireFault::TooMuch => "the response is too long",
        })
    }
}

impl Error for WireFault {}
