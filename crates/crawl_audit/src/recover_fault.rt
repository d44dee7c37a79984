//! Why no gate can continue from a journal's text.
//! docs/FORMATS.md: the causes of a bad line.
use crate::fault::AuditFault;
use std::alloc::AllocError;

/// Why no gate can continue from a text.
#[derive(Clone, Copy, Debug, PartialEq, Eq)]
pub enum RecoverFault {
    /// This line, counted from 1, is whole or too long, and is the first that no valid text could have
    /// here.
    BadLine(u64),
    /// The text ends before or within this line, and no entry may come there: the text is empty, or ends
    /// within its base.
    NoEntries(u64),
    /// This line would end something outstanding, and there is no room for it: a text has at most 1,000,000
    /// entries. A gate keeps that room.
    NoRoom(u64),
    /// A read failed.
    Read,
    /// The allocator had no memory.
    NoMemory,
}

impl From<AllocError> for RecoverFault {
    ghost use Rattle.std.specs.Prelude.{◌≡◌};
    ghost use Rattle.crawl_audit.specs.declared.recover_fault.RecoverFault.{RecoverFault};

    ghost from_gives = { λ _ fault. fault ≡ RecoverFault.NoMemory };

    fn from(_: AllocError) -> RecoverFault {
        RecoverFault::NoMemory
    }
}

impl From<AuditFault> for RecoverFault {
    ghost use Rattle.std.specs.Prelude.{◌≡◌};
    ghost use Rattle.crawl_audit.specs.declared.recover_fault.RecoverFault.{RecoverFault};
    ghost use Rattle.crawl_audit.specs.Recovering.{fault_read};

    ghost from_gives = { λ fault told. told ≡ fault_read fault };

    fn from(fault: AuditFault) -> RecoverFault {
        match fault {
            AuditFault::BadLine(line) => RecoverFault::BadLine(line),
            AuditFault::Read => RecoverFault::Read,
            AuditFault::NoMemory => RecoverFault::NoMemory,
        }
    }
}
