//! Why a server does not end as it should.
use counted_io::DeviceFault;
use gate_lock::DesksFull;
use gate_settlement::SettleFault;
use keepers::NoKeeper;
use std::alloc::AllocError;

/// Why a server failed. Faults of clients don't count.
#[derive(Clone, Copy, Debug, PartialEq, Eq)]
pub enum ServeFault {
    /// No client could be accepted, or a line could not be written.
    Device,
    /// An allocation failed, before the first client or at the end.
    NoMemory,
    /// The gate has no more desks.
    DesksFull,
    /// The gate was not settled.
    Unsettled(SettleFault),
}

impl From<AllocError> for ServeFault {
    ghost use Rattle.std.specs.Prelude.{◌≡◌};
    ghost use Rattle.line_server.specs.declared.fault.ServeFault.TheVariants as faults;

    ghost from_gives = { λ _ told. told ≡ faults.NoMemory };

    fn from(_: AllocError) -> ServeFault {
        ServeFault::NoMemory
    }
}

impl From<DeviceFault> for ServeFault {
    ghost use Rattle.std.specs.Prelude.{◌≡◌};
    ghost use Rattle.line_server.specs.declared.fault.ServeFault.TheVariants as faults;

    ghost from_gives = { λ _ told. told ≡ faults.Device };

    fn from(_: DeviceFault) -> ServeFault {
        ServeFault::Device
    }
}

impl From<DesksFull> for ServeFault {
    ghost use Rattle.std.specs.Prelude.{◌≡◌};
    ghost use Rattle.line_server.specs.declared.fault.ServeFault.TheVariants as faults;

    ghost from_gives = { λ _ told. told ≡ faults.DesksFull };

    fn from(_: DesksFull) -> ServeFault {
        ServeFault::DesksFull
    }
}

impl From<NoKeeper> for ServeFault {
    ghost use Rattle.std.specs.Prelude.{◌≡◌};
    ghost use Rattle.line_server.specs.Faults.{serve_fault};

    ghost from_gives = { λ refusal told. told ≡ serve_fault refusal };

    fn from(refusal: NoKeeper) -> ServeFault {
        match refusal {
            NoKeeper::DesksFull => ServeFault::DesksFull,
            NoKeeper::NoMemory => ServeFault::NoMemory,
        }
    }
}

impl From<SettleFault> for ServeFault {
    ghost use Rattle.std.specs.Prelude.{◌≡◌};
    ghost use Rattle.line_server.specs.declared.fault.ServeFault.TheVariants as faults;

    ghost from_gives = { λ fault told. told ≡ faults.Unsettled fault };

    fn from(fault: SettleFault) -> ServeFault {
        ServeFault::Unsettled(fault)
    }
}
