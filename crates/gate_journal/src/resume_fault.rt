//! Why no gate can continue a journal's last file.
//! docs/FAULTS.md has the messages.
use crawl_audit::RecoverFault;
use gate_core::{NoMemory, NotResumed};
use std::alloc::AllocError;

/// Why no gate can continue a text. Lines are numbered from 1.
#[derive(Clone, Copy, Debug, PartialEq, Eq)]
pub enum ResumeFault {
    /// This line is whole, and the first with which no right text goes on.
    BadLine(u64),
    /// The text ends before this line, where no entry may come yet: it is empty, or ends within its base.
    NoEntries(u64),
    /// The text has no room to end what is out: this line would be one of more than 1,000,000 entries.
    NoRoom(u64),
    /// Permits were granted in more slots than the gate may have.
    Slots,
    /// The text counts 2^63 started fetches or more.
    Starts,
    /// A read failed.
    Read,
    /// Out of memory.
    NoMemory,
}

impl From<NoMemory> for ResumeFault {
    fn from(_: NoMemory) -> ResumeFault {
        ResumeFault::NoMemory
    }
}

impl From<AllocError> for ResumeFault {
    fn from(_: AllocError) -> ResumeFault {
        ResumeFault::NoMemory
    }
}

impl From<NotResumed> for ResumeFault {
    fn from(fault: NotResumed) -> ResumeFault {
        match fault {
            NotResumed::Slots => ResumeFault::Slots,
            NotResumed::NoMemory => ResumeFault::NoMemory,
        }
    }
}

impl From<RecoverFault> for ResumeFault {
    fn from(fault: RecoverFault) -> ResumeFault {
        match fault {
            RecoverFault::BadLine(line) => ResumeFault::BadLine(line),
            RecoverFault::NoEntries(line) => ResumeFault::NoEntries(line),
            RecoverFault::NoRoom(line) => ResumeFault::NoRoom(line),
            RecoverFault::Read => ResumeFault::Read,
            RecoverFault::NoMemory => ResumeFault::NoMemory,
        }
    }
}
