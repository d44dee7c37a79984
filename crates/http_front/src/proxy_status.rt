//! The value of Proxy-Status: whose answer a response is, and why.
//! RFC 9209, section 2; RFC 8941, sections 3.1, 3.1.2 and 3.3.3.
ghost use Rattle.std.specs.Prelude.{◌≡◌, ◌++◌, IfOk, OnOk, decimal};
ghost use Rattle.http_front.specs.ProxyStatus.{cut_error, details_begin, details_end, details_part, error_part, own_value, passed_value, quoted, quoted_octet};

use itoa::Buffer;
use std::alloc::{AllocError, Global};

/// The gate's own answer, with a type of error, if any, and the details.
pub(crate) fn own_value(alloc: Global, error: &str, details: &[u8]) -> Result<Vec<u8>, AllocError>
    ensures { IfOk result (λ value. value.items ≡ own_value error.now details.now) }
{
    let mut value = Vec::from_slice(alloc, b"crawlgate")?;
    push_error(&mut value, error)?;
    push_details(&mut value, details)?;
    Ok(value)
}

/// A site's answer with this status, of which the rest may be cut, and the details.
pub(crate) fn passed_value(
    alloc: Global,
    status: u16,
    cut: bool,
    details: &[u8],
) -> Result<Vec<u8>, AllocError>
    ensures { IfOk result (λ value. value.items ≡ passed_value status cut details.now) }
{
    let mut value = Vec::from_slice(alloc, b"crawlgate; received-status=")?;
    push_number(&mut value, u64::from(status))?;
    push_error(&mut value, cut_error(cut))?;
    push_details(&mut value, details)?;
    Ok(value)
}

/// Pushes the digits of a number.
pub(crate) fn push_number(text: &mut Vec<u8>, number: u64) -> Result<(), AllocError>
    ensures { OnOk result (text.new.items ≡ text.old.items ++ decimal number) }
{
    let mut buffer = Buffer::new();
    text.extend_from_slice(buffer.format(number).as_bytes())
}

fn cut_error(cut: bool) -> &'static str
    ensures { result.now ≡ cut_error cut }
{
    if cut { "http_response_body_size" } else { "" }
}

fn push_error(text: &mut Vec<u8>, error: &str) -> Result<(), AllocError>
    ensures { OnOk result (text.new.items ≡ text.old.items ++ error_part error.now) }
{
    match error.as_bytes() {
        [] => Ok(()),
        error => {
            text.extend_from_slice(b"; error=")?;
            text.extend_from_slice(error)
        }
    }
}

fn push_details(text: &mut Vec<u8>, details: &[u8]) -> Result<(), AllocError>
    ensures { OnOk result (text.new.items ≡ text.old.items ++ details_part details.now) }
{
    push_begin(text)?;
    push_quoted(text, details)?;
    push_end(text)
}

#[tactic(auto, unfolding(crate::specs::ProxyStatus::details_begin))]
fn push_begin(text: &mut Vec<u8>) -> Result<(), AllocError>
    ensures { OnOk result (text.new.items ≡ text.old.items ++ details_begin) }
{
    text.extend_from_slice(b"; details=\"")
}

#[tactic(auto, unfolding(crate::specs::ProxyStatus::details_end))]
fn push_end(text: &mut Vec<u8>) -> Result<(), AllocError>
    ensures { OnOk result (text.new.items ≡ text.old.items ++ details_end) }
{
    text.extend_from_slice(b"\"")
}

fn push_quoted(text: &mut Vec<u8>, octets: &[u8]) -> Result<(), AllocError>
    ensures { OnOk result (text.new.items ≡ text.old.items ++ quoted octets.now) }
{
    let mut rest = octets;
    while let [octet, after @ ..] = rest {
        push_quoted_octet(text, *octet)?;
        rest = after;
    }
    Ok(())
}

fn push_quoted_octet(text: &mut Vec<u8>, octet: u8) -> Result<(), AllocError>
    ensures { OnOk result (text.new.items ≡ text.old.items ++ quoted_octet octet) }
{
    if octet == b'"' || octet == b'\\' {
        text.extend_from_slice(&[b'\\', octet])
    } else {
        text.extend_from_slice(&[octet])
    }
}
