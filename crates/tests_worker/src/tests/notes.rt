//! What a meter notes of closed sites: each cause is told again for its own turn, until a later turn of the same
//! slot displaces it. docs/FORMATS.md, `WHY`.

use authority_cache::TurnNo;
use fetchers::{ClosedBy, FetchMeter};
use http_client::Failure;
use http_wire::WireFault;
use std::alloc::Global;
use std::test::Fail;
use std::time::Duration;

// A row: what it shows, what closed a site, and what is told of that.
type Row = (&'static str, ClosedBy, Option<ClosedBy>);

// A cause that is told as it is.
fn same(name: &'static str, by: ClosedBy) -> Row {
    (name, by, Some(by))
}

fn device(failure: Failure) -> ClosedBy {
    ClosedBy::Fault(WireFault::Device, Some(failure))
}

fn fault(fault: WireFault) -> ClosedBy {
    ClosedBy::Fault(fault, None)
}

// Without a failure of the device.
fn plain_rows() -> [Row; 15] {
    [
        same("a status", ClosedBy::Status(503)),
        same("the greatest status", ClosedBy::Status(65_535)),
        same("a redirect without a target", ClosedBy::BadRedirect),
        same("a redirect to https", ClosedBy::Https),
        same("a redirect to another scheme", ClosedBy::OtherScheme),
        same("no memory", ClosedBy::NoMemory),
        same("an early end", fault(WireFault::EarlyEnd)),
        same("a bad head", fault(WireFault::BadHead)),
        same("a long head", fault(WireFault::HeadTooLong)),
        same("interim heads", fault(WireFault::TooManyInterim)),
        same("a bad length", fault(WireFault::BadLength)),
        same("a bad chunk", fault(WireFault::BadChunk)),
        same("a coding", fault(WireFault::Coding)),
        same("a device", fault(WireFault::Device)),
        same("too much", fault(WireFault::TooMuch)),
    ]
}

// Failures of the device.
fn device_rows() -> [Row; 10] {
    let limit = Duration::from_secs(30);
    [
        same("no name", device(Failure::NoName)),
        same("refused", device(Failure::Refused)),
        same("unreachable", device(Failure::Unreachable)),
        same("reset", device(Failure::Reset)),
        same("no connection", device(Failure::NotConnected(limit))),
        same("silent", device(Failure::Silent(limit))),
        same("unfinished", device(Failure::TooLong(limit))),
        same("no TLS", device(Failure::NoTls)),
        same("no TLS program", device(Failure::NoTlsProgram)),
        same("stopped", device(Failure::Stopped)),
    ]
}

// Causes that are told as another one in the same words, or not at all.
fn other_rows() -> [Row; 5] {
    [
        (
            "another fault of the system",
            device(Failure::Other),
            Some(fault(WireFault::Device)),
        ),
        (
            "no memory for a response",
            fault(WireFault::NoMemory),
            Some(ClosedBy::NoMemory),
        ),
        (
            "an early end of TLS",
            ClosedBy::Fault(WireFault::EarlyEnd, Some(Failure::NoTls)),
            Some(device(Failure::NoTls)),
        ),
        (
            "a bad head after a reset",
            ClosedBy::Fault(WireFault::BadHead, Some(Failure::Reset)),
            Some(fault(WireFault::BadHead)),
        ),
        (
            "more seconds than a note has room for",
            device(Failure::Silent(Duration::from_secs(65_536))),
            None,
        ),
    ]
}

// How many turns have slots of their own.
const SLOTS: u64 = 65_536;

fn check(alloc: Global, rows: &[Row]) -> Result<(), Fail> {
    for (name, by, told) in rows {
        let meter = FetchMeter::with_notes(alloc)?;
        if !is_told(&meter, *by, *told) {
            return Err(Fail::new(name));
        }
    }
    Ok(())
}

fn is_told(meter: &FetchMeter, by: ClosedBy, told: Option<ClosedBy>) -> bool {
    for turn in [1, SLOTS - 1, SLOTS, 5 * SLOTS + 7, 281_474_976_710_655] {
        let turn = TurnNo::new(turn);
        meter.note_closed(turn, by);
        if meter.closed_by(turn) != told {
            return false;
        }
    }
    true
}

#[test]
fn each_cause_is_told_again(rt: HostRuntime) -> Result<(), Fail> {
    check(rt.alloc(), &plain_rows())?;
    check(rt.alloc(), &device_rows())?;
    check(rt.alloc(), &other_rows())
}

#[test]
fn later_turns_displace_notes(rt: HostRuntime) -> Result<(), Fail> {
    let meter = FetchMeter::with_notes(rt.alloc())?;
    let (first, next, later) = (TurnNo::new(7), TurnNo::new(8), TurnNo::new(7 + SLOTS));
    let nothing_yet = meter.closed_by(first).is_none();
    meter.note_closed(first, ClosedBy::Status(503));
    let is_of_its_turn = meter.closed_by(first) == Some(ClosedBy::Status(503))
        && meter.closed_by(next).is_none()
        && meter.closed_by(later).is_none();
    meter.note_closed(later, ClosedBy::BadRedirect);
    let is_displaced = meter.closed_by(first).is_none()
        && meter.closed_by(later) == Some(ClosedBy::BadRedirect);
    if nothing_yet && is_of_its_turn && is_displaced {
        Ok(())
    } else {
        Err(Fail::new("a note of another turn"))
    }
}

#[test]
fn no_notes_without_room_for_them(_rt: HostRuntime) -> Result<(), Fail> {
    let meter = FetchMeter::new();
    meter.note_closed(TurnNo::new(1), ClosedBy::Status(503));
    match meter.closed_by(TurnNo::new(1)) {
        None => Ok(()),
        Some(_) => Err(Fail::new("a note")),
    }
}
