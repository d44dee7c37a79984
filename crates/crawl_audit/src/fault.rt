//! The result of an audit.
//! docs/FORMATS.md has the causes of a bad line.
use counted_io::ReadLineFault;
use std::alloc::AllocError;

/// The counts of valid texts.
#[derive(Clone, Copy, Debug, PartialEq, Eq)]
pub struct Audited {
    /// Their entries.
    pub events: u64,
    /// The entries that are started fetches.
    pub starts: u64,
}

/// Why texts are not valid.
#[derive(Clone, Copy, Debug, PartialEq, Eq)]
pub enum AuditFault {
    /// This line, counted from 1 over all texts, is the first that no valid text could have here.
    BadLine(u64),
    /// A read failed.
    Read,
    /// The allocator had no memory.
    NoMemory,
}

impl From<AllocError> for AuditFault {
    ghost use Rattle.std.specs.Prelude.{◌≡◌};
    ghost use Rattle.crawl_audit.specs.declared.fault.AuditFault.{AuditFault};

    ghost from_gives = { λ _ fault. fault ≡ AuditFault.NoMemory };

    fn from(_: AllocError) -> AuditFault {
        AuditFault::NoMemory
    }
}
