//! Why there is no page: a failed fetch's status and type of error, and the words of a denial.
//! RFC 9209, section 2.3; RFC 9110, sections 15.6.3 and 15.6.5.
ghost use Rattle.std.specs.Prelude.{◌≡◌, ◌++◌, ◌∷◌, IfOk, OnOk, decimal};
ghost use Rattle.std.specs.List.{join_with_byte};
ghost use Rattle.robots_text.specs.Octets.{space};
ghost use Rattle.gate_history.specs.Wording.{words_in};
ghost use Rattle.http_front.specs.Causes.{denial_details, device_error, device_status, failure_error, fault_error, fault_status, reason_details};

use crate::proxy_status::push_number;
use gate_core::Denial;
use gate_history::{Reason, Wording};
use http::StatusCode;
use http_client::Failure;
use http_wire::WireFault;
use permit_book::PermitNo;
use std::alloc::{AllocError, Global};

/// The type of error of a fetch that failed.
pub(crate) fn fault_error(fault: WireFault, failure: Option<Failure>) -> &'static str
    ensures { result.now ≡ fault_error fault failure }
{
    match fault {
        WireFault::EarlyEnd => "http_response_incomplete",
        WireFault::BadHead => "http_protocol_error",
        WireFault::HeadTooLong => "http_response_header_section_size",
        WireFault::TooManyInterim => "http_protocol_error",
        WireFault::BadLength => "http_protocol_error",
        WireFault::BadChunk => "http_protocol_error",
        WireFault::Coding => "http_response_content_coding",
        WireFault::Device => device_error(failure),
        WireFault::NoMemory => "proxy_internal_error",
        WireFault::TooMuch => "http_response_body_size",
    }
}

fn device_error(failure: Option<Failure>) -> &'static str
    ensures { result.now ≡ device_error failure }
{
    match failure {
        Some(failure) => failure_error(failure),
        None => "connection_terminated",
    }
}

fn failure_error(failure: Failure) -> &'static str
    ensures { result.now ≡ failure_error failure }
{
    match failure {
        Failure::NoName => "dns_error",
        Failure::Refused => "connection_refused",
        Failure::Unreachable => "destination_ip_unroutable",
        Failure::Reset => "connection_terminated",
        Failure::NotConnected(_) => "connection_timeout",
        Failure::Silent(_) => "connection_read_timeout",
        Failure::TooLong(_) => "http_response_timeout",
        Failure::NoTls => "connection_terminated",
        Failure::NoTlsProgram => "proxy_configuration_error",
        Failure::Stopped => "proxy_internal_error",
        Failure::Other => "connection_terminated",
    }
}

/// The status of a fetch that failed.
pub(crate) fn fault_status(fault: WireFault, failure: Option<Failure>) -> StatusCode
    ensures { result ≡ fault_status fault failure }
{
    match fault {
        WireFault::Device => device_status(failure),
        WireFault::NoMemory => StatusCode::SERVICE_UNAVAILABLE,
        _ => StatusCode::BAD_GATEWAY,
    }
}

fn device_status(failure: Option<Failure>) -> StatusCode
    ensures { result ≡ device_status failure }
{
    match failure {
        Some(Failure::NotConnected(_) | Failure::Silent(_) | Failure::TooLong(_)) => {
            StatusCode::GATEWAY_TIMEOUT
        }
        _ => StatusCode::BAD_GATEWAY,
    }
}

/// The words of a denial: the authority, and the cause.
pub(crate) fn denial_details(alloc: Global, denial: &Denial) -> Result<Vec<u8>, AllocError>
    ensures { IfOk result (λ text. text.items ≡ denial_details denial.now) }
{
    let mut text = Vec::from_slice(alloc, denial.authority().as_bytes())?;
    push_wording(&mut text, denial.cause.wording())?;
    Ok(text)
}

/// The number of a permit, and why its page was allowed.
pub(crate) fn reason_details(
    alloc: Global,
    number: PermitNo,
    reason: Reason,
) -> Result<Vec<u8>, AllocError>
    ensures { IfOk result (λ text. text.items ≡ reason_details (decimal number) reason) }
{
    let mut text = Vec::new(alloc);
    push_number(&mut text, number.number())?;
    push_wording(&mut text, reason.wording())?;
    Ok(text)
}

// Pushes the words behind what is there, each after a space.
fn push_wording(text: &mut Vec<u8>, wording: Wording) -> Result<(), AllocError>
    ensures { OnOk result
        (text.new.items ≡ join_with_byte space (text.old.items ∷ words_in wording)) }
{
    text.extend_from_slice(b" ")?;
    text.extend_from_slice(wording.word.as_bytes())?;
    match wording.line {
        Some(line) => {
            text.extend_from_slice(b" ")?;
            push_number(text, line)
        }
        None => Ok(()),
    }
}
