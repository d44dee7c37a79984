//! What closed a site as two small numbers, which hold what its words tell.
//! Used by `ClosingNotes`.
ghost use Rattle.std.specs.Prelude.{◌≡◌, IfSome};
ghost use Rattle.fetchers.specs.Notes.{closing_code, coded, early_code, failure_code, fault_code, past_code};

use crate::closed_by::ClosedBy;
use http_client::Failure;
use http_wire::WireFault;
use std::time::Duration;

/// A cause as the number of its kind, from 1, and the number that its words have, or 0.
#[derive(Clone, Copy)]
pub(crate) struct ClosingCode {
    pub(crate) kind: u8,
    pub(crate) number: u16,
}

// What is told of a failure of the device that is not known.
const UNKNOWN: ClosingCode = ClosingCode {
    kind: 13,
    number: 0,
};

impl ClosingCode {
    /// The code of a cause; none if its seconds are too many.
    pub(crate) fn of(by: ClosedBy) -> Option<ClosingCode>
        ensures { IfSome result (λ code. code ≡ closing_code by) }
    {
        match by {
            ClosedBy::Status(status) => Some(ClosingCode {
                kind: 1,
                number: status,
            }),
            ClosedBy::BadRedirect => plain(2),
            ClosedBy::Https => plain(3),
            ClosedBy::OtherScheme => plain(4),
            ClosedBy::NoMemory => plain(5),
            ClosedBy::Fault(fault, failure) => of_fault(fault, failure),
        }
    }

    /// A cause with this code; none if no cause has it.
    pub(crate) fn cause(self) -> Option<ClosedBy>
        ensures { IfSome result (λ by. closing_code by ≡ self) }
    {
        match (self.kind, self.number) {
            (1, status) => Some(ClosedBy::Status(status)),
            (2, 0) => Some(ClosedBy::BadRedirect),
            (3, 0) => Some(ClosedBy::Https),
            (4, 0) => Some(ClosedBy::OtherScheme),
            (5, 0) => Some(ClosedBy::NoMemory),
            (kind, 0) if kind < 14 || 23 < kind => told_fault(kind),
            (kind, number) => told_failure(kind, number),
        }
    }
}

fn plain(kind: u8) -> Option<ClosingCode>
    ensures { IfSome result (λ code. code ≡ coded kind 0) }
{
    Some(ClosingCode { kind, number: 0 })
}

// An exceeded time limit, in whole seconds.
fn past(kind: u8, limit: Duration) -> Option<ClosingCode>
    ensures { IfSome result (λ code. code ≡ past_code kind limit) }
{
    match u16::try_from(limit.as_secs()) {
        Ok(number) => Some(ClosingCode { kind, number }),
        Err(_) => None,
    }
}

fn of_fault(fault: WireFault, failure: Option<Failure>) -> Option<ClosingCode>
    ensures { IfSome result (λ code. code ≡ fault_code fault failure) }
{
    match fault {
        WireFault::EarlyEnd => of_early_end(failure),
        WireFault::BadHead => plain(7),
        WireFault::HeadTooLong => plain(8),
        WireFault::TooManyInterim => plain(9),
        WireFault::BadLength => plain(10),
        WireFault::BadChunk => plain(11),
        WireFault::Coding => plain(12),
        WireFault::NoMemory => plain(5),
        WireFault::TooMuch => plain(24),
        WireFault::Device => match failure {
            Some(failure) => of_failure(failure),
            None => Some(UNKNOWN),
        },
    }
}

#[tactic(auto, using(crate::proofs::CauseLemmas::not_tls_code))]
fn of_early_end(failure: Option<Failure>) -> Option<ClosingCode>
    ensures { IfSome result (λ code. code ≡ early_code failure) }
{
    match failure {
        None => plain(6),
        Some(Failure::NoTls) => plain(21),
        Some(_) => plain(6),
    }
}

fn of_failure(failure: Failure) -> Option<ClosingCode>
    ensures { IfSome result (λ code. code ≡ failure_code failure) }
{
    match failure {
        Failure::NoName => plain(14),
        Failure::Refused => plain(15),
        Failure::Unreachable => plain(16),
        Failure::Reset => plain(17),
        Failure::NotConnected(limit) => past(18, limit),
        Failure::Silent(limit) => past(19, limit),
        Failure::TooLong(limit) => past(20, limit),
        Failure::NoTls => plain(21),
        Failure::NoTlsProgram => plain(22),
        Failure::Stopped => plain(23),
        Failure::Other => Some(UNKNOWN),
    }
}

// A fault that no device's failure explains.
fn told_fault(kind: u8) -> Option<ClosedBy>
    ensures { IfSome result (λ by. closing_code by ≡ coded kind 0) }
{
    let fault = match kind {
        6 => WireFault::EarlyEnd,
        7 => WireFault::BadHead,
        8 => WireFault::HeadTooLong,
        9 => WireFault::TooManyInterim,
        10 => WireFault::BadLength,
        11 => WireFault::BadChunk,
        12 => WireFault::Coding,
        13 => WireFault::Device,
        24 => WireFault::TooMuch,
        _ => return None,
    };
    Some(ClosedBy::Fault(fault, None))
}

// A device's failure.
fn told_failure(kind: u8, number: u16) -> Option<ClosedBy>
    ensures { IfSome result (λ by. closing_code by ≡ coded kind number) }
{
    let limit = Duration::from_secs(u64::from(number));
    let failure = match (kind, number) {
        (14, 0) => Failure::NoName,
        (15, 0) => Failure::Refused,
        (16, 0) => Failure::Unreachable,
        (17, 0) => Failure::Reset,
        (18, _) => Failure::NotConnected(limit),
        (19, _) => Failure::Silent(limit),
        (20, _) => Failure::TooLong(limit),
        (21, 0) => Failure::NoTls,
        (22, 0) => Failure::NoTlsProgram,
        (23, 0) => Failure::Stopped,
        _ => return None,
    };
    Some(ClosedBy::Fault(WireFault::Device, Some(failure)))
}
