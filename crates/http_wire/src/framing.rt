//! Where the body of a response ends.
//! RFC 9112, section 6.3.
ghost use Rattle.std.specs.Prelude.{◌≡◌};
ghost use Rattle.std.specs.List.{list_all};
ghost use Rattle.http_wire.specs.Fields.{chunked, counted, framing_of, has_coding, is_coded, is_number_of, is_unencoded, IsLocation};
ghost use Rattle.http_wire.specs.Left.{members_left, pairs, text_of};

use crate::fields::{Field, Members, Values};
use crate::numbers::number_in;
use robots_text::is_same_word;

/// How the end of a body is found.
#[derive(Clone, Copy, PartialEq, Eq)]
pub(crate) enum Framing {
    /// By its number of octets.
    Counted(u64),
    /// By its chunks.
    Chunked,
    /// By the end of the input.
    ToEnd,
}

/// Why the fields of a head give no framing.
#[derive(Clone, Copy, PartialEq, Eq)]
pub(crate) enum Unframed {
    /// The members of Content-Length are not all the same number below 2 to the 64.
    BadLength,
    /// The body has a transfer coding other than `chunked`.
    OtherCoding,
}

/// The framing of the body that follows a head.
pub(crate) fn framing_of(status: u16, fields: &[Field<'_>]) -> Result<Framing, Unframed>
    ensures { result ≡ framing_of status (pairs fields.now) }
{
    if status == 204 || status == 304 {
        return Ok(Framing::Counted(0));
    }
    let mut codings = Members::of(fields, b"transfer-encoding");
    if let Some(coding) = codings.next() {
        return chunked(coding, codings);
    }
    let mut lengths = Members::of(fields, b"content-length");
    match lengths.next() {
        Some(length) => counted(length, lengths),
        None => Ok(Framing::ToEnd),
    }
}

// Transfer-Encoding = #transfer-coding: the framing by the first coding and the others.
fn chunked(coding: &[u8], mut others: Members<'_>) -> Result<Framing, Unframed>
    ensures { result ≡ chunked coding.now (members_left others.entry) }
{
    if others.next().is_none() && is_same_word(coding, b"chunked") {
        Ok(Framing::Chunked)
    } else {
        Err(Unframed::OtherCoding)
    }
}

fn counted(length: &[u8], others: Members<'_>) -> Result<Framing, Unframed>
    ensures { result ≡ counted length.now (members_left others.entry) }
{
    match number_in(length) {
        Some(size) if are_all(size, others) => Ok(Framing::Counted(size)),
        _ => Err(Unframed::BadLength),
    }
}

fn are_all(number: u64, mut members: Members<'_>) -> bool
    ensures { result ≡ list_all (is_number_of number) (members_left members.entry) }
{
    members.all(|member| is_number_of(number, member))
}

fn is_number_of(number: u64, member: &[u8]) -> bool
    ensures { result ≡ is_number_of number member.now }
{
    number_in(member) == Some(number)
}

/// Whether the body would be used and has a content coding.
pub(crate) fn is_coded(status: u16, fields: &[Field<'_>]) -> bool
    ensures { result ≡ is_coded status (pairs fields.now) }
{
    status >= 200 && status < 300 && has_coding(fields)
}

fn has_coding(fields: &[Field<'_>]) -> bool
    ensures { result ≡ has_coding (pairs fields.now) }
{
    Values::of(fields, b"content-encoding").any(|coding| !is_unencoded(coding))
}

fn is_unencoded(coding: &[u8]) -> bool
    ensures { result ≡ is_unencoded coding.now }
{
    coding.is_empty() || is_same_word(coding, b"identity")
}

/// The first Location field, if it is UTF-8.
pub(crate) fn location_of<'h>(fields: &'h [Field<'h>]) -> Option<&'h str>
    ensures { IsLocation (pairs fields.now) (text_of result) }
{
    let value = Values::of(fields, b"location").next()?;
    str::from_utf8(value).ok()
}
