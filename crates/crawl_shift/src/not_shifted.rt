//! Why a shift has no whole report.
use crate::job_lines::JobLinesFault;
use counted_io::DeviceFault;
use crawl_workers::ShiftFault;
use gate_settlement::SettleFault;
use std::alloc::AllocError;

/// Why a shift has no whole report.
#[derive(Clone, Copy, Debug, PartialEq, Eq)]
pub enum NotShifted {
    /// This line, counted from 1, can't be read as a job. Nothing was fetched.
    BadLine(u64),
    /// An allocation failed.
    NoMemory,
    /// A read or a write failed, or others used the gate too.
    Device,
    /// The shift ended early, with jobs left. What was done is written.
    Over,
}

impl From<JobLinesFault> for NotShifted {
    ghost use Rattle.std.specs.Prelude.{◌≡◌};
    ghost use Rattle.crawl_shift.specs.NotShifted.{by_jobs};

    ghost from_gives = { λ fault told. told ≡ by_jobs fault };

    fn from(fault: JobLinesFault) -> NotShifted {
        match fault {
            JobLinesFault::BadLine(bad) => NotShifted::BadLine(bad.number),
            JobLinesFault::Read => NotShifted::Device,
            JobLinesFault::NoMemory => NotShifted::NoMemory,
        }
    }
}

impl From<AllocError> for NotShifted {
    ghost use Rattle.std.specs.Prelude.{◌≡◌};
    ghost use Rattle.crawl_shift.specs.declared.not_shifted.NotShifted.TheVariants.{NoMemory};

    ghost from_gives = { λ _ told. told ≡ NoMemory };

    fn from(_: AllocError) -> NotShifted {
        NotShifted::NoMemory
    }
}

impl From<DeviceFault> for NotShifted {
    ghost use Rattle.std.specs.Prelude.{◌≡◌};
    ghost use Rattle.crawl_shift.specs.declared.not_shifted.NotShifted.TheVariants.{Device};

    ghost from_gives = { λ _ told. told ≡ Device };

    fn from(_: DeviceFault) -> NotShifted {
        NotShifted::Device
    }
}

impl From<ShiftFault> for NotShifted {
    ghost use Rattle.std.specs.Prelude.{◌≡◌};
    ghost use Rattle.crawl_shift.specs.NotShifted.{by_workers};

    ghost from_gives = { λ fault told. told ≡ by_workers fault };

    fn from(fault: ShiftFault) -> NotShifted {
        match fault {
            ShiftFault::NoMemory | ShiftFault::Unsettled(SettleFault::NoMemory) => {
                NotShifted::NoMemory
            }
            ShiftFault::DesksFull | ShiftFault::Unsettled(_) => NotShifted::Device,
            ShiftFault::Over => NotShifted::Over,
        }
    }
}
