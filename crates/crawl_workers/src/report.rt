//! The report of a shift of several workers, and why there may be none.
//! For callers of `run_shift`.

use crawl_job::{Hop, Job, Outcome};
use gate_lock::{DesksFull, Gate, Receipts};
use gate_settlement::{SettleFault, Settled};
use page_worker::Event;
use std::alloc::AllocError;
use std::marker::Model;

/// The kept outcome: its hops in order. The body is dropped when the job is done.
#[derive(Drop)]
pub struct Crawled {
    pub hops: Vec<Hop>,
}

/// What a shift did, after its gate is settled.
#[derive(Drop)]
pub struct Report<G: Gate> {
    /// The jobs' outcomes, in order.
    pub outcomes: Vec<Crawled>,
    /// The numbers, from 0, of the jobs that each worker drew, in the order drawn.
    pub drawn: Vec<Vec<u64>>,
    /// The receipts of each worker's desk, in the same order.
    pub receipts: Vec<Receipts<G>>,
    /// The gate, settled by these receipts.
    pub settled: Settled<G>,
}

impl<G: Gate> Model for Report<G> {
    ghost use Rattle.std.specs.Prelude.{map};
    ghost use Rattle.crawl_workers.specs.Shifts.{ReportView};

    ghost Value = { ReportView };

    ghost view = { λ report. record {
      outcomes = report.outcomes.items;
      drawn = map (λ numbers. numbers.items) report.drawn.items;
      receipts = report.receipts.items;
      settled = report.settled;
    } };
}

/// Why a shift has no report. No permit, running fetch or turn of the shift is outstanding.
#[derive(Clone, Copy, Debug, PartialEq, Eq)]
pub enum ShiftFault {
    /// An allocation failed.
    NoMemory,
    /// The gate has no desk for one of the workers.
    DesksFull,
    /// The watcher said that the shift is over before all jobs were done.
    Over,
    /// The jobs were done, but the shift's receipts don't settle the gate: others used it too.
    Unsettled(SettleFault),
}

impl From<AllocError> for ShiftFault {
    ghost use Rattle.std.specs.Prelude.{◌≡◌};
    ghost use Rattle.crawl_workers.specs.declared.report.ShiftFault.{ShiftFault};

    ghost from_gives = { λ _ fault. fault ≡ ShiftFault.NoMemory };

    fn from(_: AllocError) -> ShiftFault {
        ShiftFault::NoMemory
    }
}

impl From<DesksFull> for ShiftFault {
    ghost use Rattle.std.specs.Prelude.{◌≡◌};
    ghost use Rattle.crawl_workers.specs.declared.report.ShiftFault.{ShiftFault};

    ghost from_gives = { λ _ fault. fault ≡ ShiftFault.DesksFull };

    fn from(_: DesksFull) -> ShiftFault {
        ShiftFault::DesksFull
    }
}

impl From<SettleFault> for ShiftFault {
    ghost use Rattle.std.specs.Prelude.{◌≡◌};
    ghost use Rattle.crawl_workers.specs.declared.report.ShiftFault.{ShiftFault};

    ghost from_gives = { λ fault shift_fault. shift_fault ≡ ShiftFault.Unsettled fault };

    fn from(fault: SettleFault) -> ShiftFault {
        ShiftFault::Unsettled(fault)
    }
}

/// Receives the events of jobs. Workers call it concurrently, each on its own thread.
pub trait Watcher {
    /// The next event in the job of this number, from 0.
    fn sees(&self, number: u64, event: Event<'_>);

    /// The job of this number, from 0, is done with this outcome, bodies included.
    fn done(&self, number: u64, job: &Job, outcome: &Outcome);

    /// Whether the shift is over, so that no fetch is wanted any more. A worker asks once it has drawn a job,
    /// and once it has worked at it, before it is done; in a pause it asks each second.
    fn is_over(&self) -> bool {
        false
    }
}

/// Ignores all events.
impl Watcher for () {
    fn sees(&self, _number: u64, _event: Event<'_>) {}

    fn done(&self, _number: u64, _job: &Job, _outcome: &Outcome) {}
}
