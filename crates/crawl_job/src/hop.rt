//! The hops of a job: each fetch of a page, or why there is none.
//! RFC 9309, sections 2.2 and 2.3.1; RFC 9110, section 15.4.
use gate_core::Denial;
use gate_history::Reason;
use http_wire::WireFault;
use permit_book::PermitNo;
use robots_fetch::Stop;

/// A hop of a job. A page with a redirect status is followed by its target's hop; every other hop is the
/// last.
#[derive(Drop)]
pub enum Hop {
    /// This permit fetched a page.
    Page {
        number: PermitNo,
        /// Why it was allowed.
        reason: Reason,
        status: u16,
        /// The octets taken of its body.
        length: u64,
        /// Whether its body is longer.
        cut: bool,
    },
    /// The robots answer does not allow it, or there is none.
    No(Denial),
    /// Its fetch failed.
    Fault {
        number: PermitNo,
        fault: WireFault,
    },
    /// No permit, though no robots answer denied it.
    Err(Refusal),
    /// The redirect before it is not followed.
    Stop(Stop),
}

/// Why a gate grants no permit, or begins no turn, though no robots answer denies it.
#[derive(Clone, Copy, Debug, PartialEq, Eq)]
pub enum Refusal {
    /// The authority is unknown, and the limit is reached.
    AuthoritiesFull,
    /// The history has no room.
    LogFull,
    /// The authority is at its limit of permits.
    Busy,
    /// No slot is free.
    PermitsFull,
    /// An allocation failed.
    NoMemory,
}
