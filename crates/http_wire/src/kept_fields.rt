//! The fields of a head that are kept for a client to which the page is passed on.
//! RFC 9110, sections 5, 6.6.1, 8, 10.2 and 12.5.5; RFC 9111, section 5; RFC 8288; RFC 9309, section 1.
ghost use Rattle.std.specs.Prelude.{◌≡◌, length, map, take, IfOk};
ghost use Rattle.httparse.specs.Grammar.{ResponseHead};
ghost use Rattle.httparse.specs.Spans.{IsResponseWithin, header_bytes};
ghost use Rattle.http_wire.specs.Finding.{IsHeadAt};
ghost use Rattle.http_wire.specs.Kept.{KeepsOf, is_kept, is_of_content, is_of_crawling, is_of_time, is_of_version, kept_of, kept_pairs};
ghost use Rattle.http_wire.specs.Left.{pairs};

use crate::fields::{EMPTY_FIELD, Field, cover};
use crate::head::{Parsed, parse};
use crate::limits::{MAX_HEAD, MAX_HEADER_LINES};
use httparse::spans::{EMPTY_HEADER_SPAN, HeaderSpan, ResponseSpans};
use robots_text::is_same_word;
use std::alloc::{AllocError, Global};

/// A field of a head, as its server wrote it.
#[derive(Drop)]
pub struct KeptField {
    /// The name, in the server's case.
    pub name: Vec<u8>,
    /// The value, without surrounding white space.
    pub value: Vec<u8>,
}

/// The fields that are kept of a head's octets. Octets that are not exactly one head have none.
pub(crate) fn kept_in(alloc: Global, octets: &[u8]) -> Result<Vec<KeptField>, AllocError>
    ensures { IfOk result (λ kept. KeepsOf octets.now (kept_pairs kept.items)) }
{
    if octets.len() > MAX_HEAD {
        return Ok(Vec::new(alloc));
    }
    let mut headers = [EMPTY_HEADER_SPAN; MAX_HEADER_LINES];
    match parse(octets, &mut headers) {
        Parsed::Head(spans) => kept_at(alloc, octets, spans, &headers),
        Parsed::Open | Parsed::TooMany | Parsed::Bad => Ok(Vec::new(alloc)),
    }
}

fn kept_at(
    alloc: Global,
    octets: &[u8],
    spans: ResponseSpans,
    headers: &[HeaderSpan],
) -> Result<Vec<KeptField>, AllocError>
    requires at { (head : ResponseHead) × IsHeadAt octets.now headers.now spans head }
    requires room { length headers.now ≡ MAX_HEADER_LINES }
    ensures { IfOk result (λ kept. KeepsOf octets.now (kept_pairs kept.items)) }
{
    // Other octets follow the head.
    if spans.len < octets.len() {
        return Ok(Vec::new(alloc));
    }
    kept_among(alloc, octets, spans, headers)
}

fn kept_among(
    alloc: Global,
    text: &[u8],
    spans: ResponseSpans,
    headers: &[HeaderSpan],
) -> Result<Vec<KeptField>, AllocError>
    requires within { IsResponseWithin text.now headers.now spans }
    requires room { length headers.now ≡ MAX_HEADER_LINES }
    ensures { IfOk result (λ kept. kept_pairs kept.items
        ≡ kept_of (map (header_bytes text.now) (take spans.headers headers.now))) }
{
    let mut slots = [EMPTY_FIELD; MAX_HEADER_LINES];
    cover(text, &headers[..spans.headers], &mut slots);
    kept_of(alloc, &slots[..spans.headers])
}

fn kept_of(alloc: Global, fields: &[Field<'_>]) -> Result<Vec<KeptField>, AllocError>
    ensures { IfOk result (λ kept. kept_pairs kept.items ≡ kept_of (pairs fields.now)) }
{
    let mut kept = Vec::new(alloc);
    let mut rest = fields;
    while let [field, after @ ..] = rest {
        if is_kept(field.name) {
            kept.push(copy_of(alloc, field)?)?;
        }
        rest = after;
    }
    Ok(kept)
}

fn copy_of(alloc: Global, field: &Field<'_>) -> Result<KeptField, AllocError>
    ensures name { IfOk result (λ kept. kept.name.items ≡ field.now.name.now) }
    ensures value { IfOk result (λ kept. kept.value.items ≡ field.now.value.now) }
{
    Ok(KeptField {
        name: Vec::from_slice(alloc, field.name)?,
        value: Vec::from_slice(alloc, field.value)?,
    })
}

fn is_kept(name: &[u8]) -> bool
    ensures { result ≡ is_kept name.now }
{
    is_of_content(name) || is_of_time(name) || is_of_version(name) || is_of_crawling(name)
}

fn is_of_content(name: &[u8]) -> bool
    ensures { result ≡ is_of_content name.now }
{
    is_same_word(name, b"content-disposition")
        || is_same_word(name, b"content-encoding")
        || is_same_word(name, b"content-language")
        || is_same_word(name, b"content-location")
        || is_same_word(name, b"content-type")
}

fn is_of_time(name: &[u8]) -> bool
    ensures { result ≡ is_of_time name.now }
{
    is_same_word(name, b"age")
        || is_same_word(name, b"cache-control")
        || is_same_word(name, b"date")
        || is_same_word(name, b"expires")
}

fn is_of_version(name: &[u8]) -> bool
    ensures { result ≡ is_of_version name.now }
{
    is_same_word(name, b"etag")
        || is_same_word(name, b"last-modified")
        || is_same_word(name, b"vary")
}

fn is_of_crawling(name: &[u8]) -> bool
    ensures { result ≡ is_of_crawling name.now }
{
    is_same_word(name, b"link")
        || is_same_word(name, b"location")
        || is_same_word(name, b"retry-after")
        || is_same_word(name, b"x-robots-tag")
}
