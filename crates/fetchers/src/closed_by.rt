//! What closed a site, and which count of failed fetches it belongs to.
//! Told by workers, and kept by a `FetchMeter`. RFC 9309, section 2.3.1.4.
ghost use Rattle.std.specs.Prelude.{◌≡◌};
ghost use Rattle.fetchers.specs.Closings.{closing_of, fault_of, fault_of_early_end, fault_of_failure, robots_fault_of};

use http_client::Failure;
use http_wire::{HttpReply, WireFault};

/// What closed a site: the response to the request for its robots.txt, or for a redirect's target.
#[derive(Clone, Copy, Debug, PartialEq, Eq)]
pub enum ClosedBy {
    /// A response with this status.
    Status(u16),
    /// A redirect whose target is missing or no page URL.
    BadRedirect,
    /// A redirect to https.
    Https,
    /// A redirect to another scheme than http.
    OtherScheme,
    /// The fetch failed; with this failure, if its device failed.
    Fault(WireFault, Option<Failure>),
    /// No memory for the fetch.
    NoMemory,
}

impl ClosedBy {
    /// What a fetch met, with its device's failure, if any.
    pub fn met(given: &Result<HttpReply, WireFault>, failure: Option<Failure>) -> ClosedBy
        ensures { result ≡ closing_of given.now failure }
    {
        match given {
            Ok(reply) => ClosedBy::Status(reply.status),
            Err(fault) => ClosedBy::Fault(*fault, failure),
        }
    }
}

/// Why a fetch of a robots.txt failed, as far as its counts tell it.
#[derive(Clone, Copy, Debug, PartialEq, Eq)]
pub(crate) enum RobotsFault {
    /// The host's name has no address, or can't be looked up.
    NoName,
    /// Nothing accepts connections there, or there is no route.
    Refused,
    /// A time limit was exceeded.
    TimedOut,
    /// There is no TLS connection, or no program that opens one.
    Tls,
    /// A response of the status of a server's error.
    Status,
    /// Another one.
    Other,
}

impl RobotsFault {
    /// The one for what a fetch met; none if it gave a response without a server's error.
    pub(crate) fn of(met: ClosedBy) -> Option<RobotsFault>
        ensures { result ≡ robots_fault_of met }
    {
        match met {
            ClosedBy::Status(500..=599) => Some(RobotsFault::Status),
            ClosedBy::Status(_) => None,
            ClosedBy::Fault(fault, failure) => Some(of_fault(fault, failure)),
            ClosedBy::BadRedirect | ClosedBy::Https | ClosedBy::OtherScheme | ClosedBy::NoMemory =>
                None,
        }
    }
}

fn of_fault(fault: WireFault, failure: Option<Failure>) -> RobotsFault
    ensures { result ≡ fault_of fault failure }
{
    match fault {
        WireFault::Device => match failure {
            Some(failure) => of_failure(failure),
            None => RobotsFault::Other,
        },
        WireFault::EarlyEnd => of_early_end(failure),
        WireFault::BadHead
        | WireFault::HeadTooLong
        | WireFault::TooManyInterim
        | WireFault::BadLength
        | WireFault::BadChunk
        | WireFault::Coding
        | WireFault::NoMemory
        | WireFault::TooMuch => RobotsFault::Other,
    }
}

// A response that ended early; over TLS there may have been no connection.
#[tactic(auto, using(crate::proofs::CauseLemmas::not_tls_fault))]
fn of_early_end(failure: Option<Failure>) -> RobotsFault
    ensures { result ≡ fault_of_early_end failure }
{
    match failure {
        None => RobotsFault::Other,
        Some(Failure::NoTls) => RobotsFault::Tls,
        Some(_) => RobotsFault::Other,
    }
}

fn of_failure(failure: Failure) -> RobotsFault
    ensures { result ≡ fault_of_failure failure }
{
    match failure {
        Failure::NoName => RobotsFault::NoName,
        Failure::Refused | Failure::Unreachable => RobotsFault::Refused,
        Failure::NotConnected(_) | Failure::Silent(_) | Failure::TooLong(_) =>
            RobotsFault::TimedOut,
        Failure::NoTls | Failure::NoTlsProgram => RobotsFault::Tls,
        Failure::Reset | Failure::Stopped | Failure::Other => RobotsFault::Other,
    }
}
