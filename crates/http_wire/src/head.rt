//! Heads of responses, found in the octets received.
//! RFC 9112, sections 2 to 5.
ghost use Rattle.std.specs.Prelude.{◌≡◌, ◌≤◌, ◌<◌, ◌≢◌, ◌+◌, ℕ, List, Err, drop, take, map, length, IfOk, IfErr, IsTrue, Bool, option_map, false};
ghost use Rattle.std.specs.String.{string_bytes};
ghost use Rattle.httparse.specs.Grammar.{ResponseHead};
ghost use Rattle.httparse.specs.Spans.{IsResponseWithin, header_bytes};
ghost use Rattle.http_wire.specs.Fields.{IsLocation};
ghost use Rattle.http_wire.specs.Finding.{Faults, FindsHead, HasNoPlan, IsClass, IsFound, IsHeadAt, IsPlan, LooksAt, Parses, Passes, SeesHead};
ghost use Rattle.http_wire.specs.Left.{pairs};
ghost use Rattle.http_wire.specs.Response.{Cause};

use crate::buffer::Buffer;
use crate::fault::WireFault;
use crate::fields::{EMPTY_FIELD, Field, cover};
use crate::framing::{Framing, Unframed, framing_of, is_coded, location_of};
use crate::freshness::max_age_of;
use crate::head_scan::HeadScan;
use crate::limits::{MAX_HEAD, MAX_HEADER_LINES, MAX_INTERIM_HEADS};
use crate::line_ends::count_line_ends;
use crate::part::Part;
use crate::persistence::persists;
use httparse::spans::{EMPTY_HEADER_SPAN, HeaderSpan, ResponseSpans, parse_response};
use httparse::{Error, Status};
use std::alloc::{AllocError, Global};

/// The final head of a response, as far as its reader needs it.
#[derive(Drop)]
pub(crate) struct FinalHead {
    pub status: u16,
    pub framing: Framing,
    pub location: Option<String>,
    pub max_age: Option<u64>,
    /// Whether a connection may go on after its response.
    pub persists: bool,
    /// Its octets, with its empty line and the empty lines before it.
    pub octets: Vec<u8>,
    /// Where the body begins, counted from the start of the input.
    pub end: usize,
}

/// What the parser finds in a text.
#[derive(Clone, Copy)]
pub(crate) enum Parsed {
    /// A head at the front.
    Head(ResponseSpans),
    /// A prefix of a head.
    Open,
    /// More header lines than a head may have.
    TooMany,
    /// No head begins like this.
    Bad,
}

/// The result of one look at the octets.
#[derive(Drop)]
pub(crate) enum Seen {
    /// The final head.
    Final(FinalHead),
    /// An interim head, which is skipped.
    Interim,
    /// Nothing yet.
    More,
}

/// The class of a status.
#[derive(Clone, Copy, PartialEq, Eq)]
pub(crate) enum Class {
    Interim,
    Final,
    /// 101, and those below 100.
    Strange,
}

impl Class {
    fn of(status: u16) -> Class
        ensures { IsClass status result }
    {
        match status {
            100 | 102..200 => Class::Interim,
            200.. => Class::Final,
            _ => Class::Strange,
        }
    }
}

/// The place after the interim heads skipped so far.
#[derive(Clone, Copy)]
pub(crate) struct HeadFinder {
    at: usize,
    passed: usize,
    // When to parse; no answer depends on it.
    scan: HeadScan,
}

// *( line-end ) status-line line-end *( field-line line-end ) line-end, where
// status-line = HTTP-version SP status-code [ SP reason-phrase ] and line-end = [ CR ] LF.
pub(crate) fn parse(text: &[u8], headers: &mut [HeaderSpan]) -> Parsed
    requires short { length text.now ≤ MAX_HEAD }
    requires room { length headers.old ≡ MAX_HEADER_LINES }
    ensures parses { Parses text.now headers.new result }
    ensures room_kept { length headers.new ≡ MAX_HEADER_LINES }
{
    match parse_response(text, headers) {
        Ok(Status::Complete(spans)) => Parsed::Head(spans),
        Ok(Status::Partial) => Parsed::Open,
        Err(Error::TooManyHeaders) => Parsed::TooMany,
        Err(_) => Parsed::Bad,
    }
}

impl HeadFinder {
    /// The place before the first head.
    pub(crate) fn new() -> HeadFinder
        ensures { (bytes : List ℕ) → Passes result bytes }
    {
        HeadFinder {
            at: 0,
            passed: 0,
            scan: HeadScan::new(),
        }
    }

    /// Looks for the final head at the end of the input.
    pub(crate) fn end(mut self, alloc: Global, bytes: &[u8]) -> Result<FinalHead, WireFault>
        requires { Passes self bytes.now }
        ensures found { IfOk result (IsFound bytes.now) }
        ensures faults { IfErr result (λ fault. (limit : ℕ) → Cause fault bytes.now limit) }
        ensures no_device { result ≢ Err WireFault.Device }
    {
        match self.find(alloc, bytes, true)? {
            Some(head) => Ok(head),
            None if count_line_ends(&bytes[self.at..]) > MAX_HEADER_LINES => {
                Err(WireFault::HeadTooLong)
            }
            None => Err(WireFault::EarlyEnd),
        }
    }

    // Looks for the final head. `last`: no look follows, so the octets are parsed in any case.
    fn find(
        &mut self,
        alloc: Global,
        bytes: &[u8],
        last: bool,
    ) -> Result<Option<FinalHead>, WireFault>
        requires { Passes self.old bytes.now }
        ensures finds { IfOk result (FindsHead bytes.now last self.new) }
        ensures faults { IfErr result (Faults bytes.now) }
        ensures no_device { result ≢ Err WireFault.Device }
    {
        loop {
            match self.step(alloc, bytes, last)? {
                Seen::Final(head) => return Ok(Some(head)),
                Seen::More => return Ok(None),
                Seen::Interim => {}
            }
        }
    }

    fn step(&mut self, alloc: Global, bytes: &[u8], last: bool) -> Result<Seen, WireFault>
        requires { Passes self.old bytes.now }
        ensures sees { IfOk result (SeesHead bytes.now last self.old.passed self.new) }
        ensures faults { IfErr result (Faults bytes.now) }
        ensures no_device { result ≢ Err WireFault.Device }
    {
        let text = prefix_of(bytes, self.at);
        if self.waits(text, last) {
            return Ok(Seen::More);
        }
        let mut headers = [EMPTY_HEADER_SPAN; MAX_HEADER_LINES];
        match parse(text, &mut headers) {
            Parsed::Head(spans) => self.take(alloc, bytes, text, spans, &headers),
            Parsed::Open if text.len() < MAX_HEAD => Ok(Seen::More),
            Parsed::Open => Err(WireFault::HeadTooLong),
            Parsed::TooMany if text.len() < MAX_HEAD && !last => {
                self.scan.stop();
                Ok(Seen::More)
            }
            Parsed::TooMany => Err(WireFault::HeadTooLong),
            Parsed::Bad => Err(WireFault::BadHead),
        }
    }

    fn waits(&mut self, text: &[u8], last: bool) -> bool
        ensures short { IsTrue result → (last ≡ false) × (length text.now < MAX_HEAD) }
        ensures at { self.new.at ≡ self.old.at }
        ensures passed { self.new.passed ≡ self.old.passed }
    {
        !last && text.len() < MAX_HEAD && !self.scan.may_tell(text)
    }

    fn take(
        &mut self,
        alloc: Global,
        bytes: &[u8],
        text: &[u8],
        spans: ResponseSpans,
        headers: &[HeaderSpan],
    ) -> Result<Seen, WireFault>
        requires looks { LooksAt self.old bytes.now text.now }
        requires at { (head : ResponseHead) × IsHeadAt text.now headers.now spans head }
        requires room { length headers.now ≡ MAX_HEADER_LINES }
        ensures sees { IfOk result (λ seen. (last : Bool)
            → SeesHead bytes.now last self.old.passed self.new seen) }
        ensures faults { IfErr result (Faults bytes.now) }
        ensures no_device { result ≢ Err WireFault.Device }
    {
        match Class::of(spans.code) {
            Class::Interim if self.passed < MAX_INTERIM_HEADS => {
                self.at += spans.len;
                self.passed += 1;
                self.scan = HeadScan::new();
                Ok(Seen::Interim)
            }
            Class::Interim => Err(WireFault::TooManyInterim),
            Class::Final => {
                let end = self.at + spans.len;
                Ok(Seen::Final(plan(alloc, text, spans, headers, end)?))
            }
            Class::Strange => Err(WireFault::BadHead),
        }
    }
}

impl Part for HeadFinder {
    ghost use Rattle.std.specs.Prelude.{◌≡◌, ◌+◌, ◌<◌, length};
    ghost use Rattle.http_wire.specs.Finding.{Faults, IsFound, Passes};
    ghost use Rattle.http_wire.specs.Limits.{max_head};

    type Parsed = FinalHead;

    ghost Kept = { Unit {0} };

    ghost kept = { λ _. tt };

    ghost stands = { Passes };

    ghost waits = { λ finder bytes. Passes finder bytes × (length bytes < finder.at + max_head) };

    ghost gives = { λ _ seen left found. IsFound seen found × (left ≡ seen) };

    ghost refuses = { λ _ seen. Faults seen };

    fn look(&mut self, alloc: Global, buffer: &mut Buffer) -> Result<Option<FinalHead>, WireFault> {
        self.find(alloc, buffer.octets(), false)
    }
}

fn prefix_of(bytes: &[u8], at: usize) -> &[u8]
    requires { at ≤ length bytes.now }
    ensures { result.now ≡ take MAX_HEAD (drop at bytes.now) }
{
    let text = &bytes[at..];
    if text.len() < MAX_HEAD {
        text
    } else {
        &text[..MAX_HEAD]
    }
}

fn plan(
    alloc: Global,
    text: &[u8],
    spans: ResponseSpans,
    headers: &[HeaderSpan],
    end: usize,
) -> Result<FinalHead, WireFault>
    requires within { IsResponseWithin text.now headers.now spans }
    requires room { length headers.now ≡ MAX_HEADER_LINES }
    ensures ok { IfOk result (IsPlan spans.code spans.version
        (map (header_bytes text.now) (take spans.headers headers.now)) (take spans.len text.now) end) }
    ensures err { IfErr result (HasNoPlan spans.code
        (map (header_bytes text.now) (take spans.headers headers.now))) }
{
    let mut slots = [EMPTY_FIELD; MAX_HEADER_LINES];
    cover(text, &headers[..spans.headers], &mut slots);
    plan_of(
        alloc,
        &spans,
        &slots[..spans.headers],
        &text[..spans.len],
        end,
    )
}

fn plan_of(
    alloc: Global,
    line: &ResponseSpans,
    fields: &[Field<'_>],
    octets: &[u8],
    end: usize,
) -> Result<FinalHead, WireFault>
    ensures ok { IfOk result
        (IsPlan line.now.code line.now.version (pairs fields.now) octets.now end) }
    ensures err { IfErr result (HasNoPlan line.now.code (pairs fields.now)) }
{
    let status = line.code;
    if is_coded(status, fields) {
        return Err(WireFault::Coding);
    }
    let framing = match framing_of(status, fields) {
        Ok(framing) => framing,
        Err(Unframed::BadLength) => return Err(WireFault::BadLength),
        Err(Unframed::OtherCoding) => return Err(WireFault::Coding),
    };
    let location = location_text(alloc, fields)?;
    Ok(FinalHead {
        status,
        framing,
        location,
        max_age: max_age_of(fields),
        persists: persists(line.version, fields),
        octets: Vec::from_slice(alloc, octets)?,
        end,
    })
}

fn location_text(alloc: Global, fields: &[Field<'_>]) -> Result<Option<String>, AllocError>
    ensures { IfOk result (λ text.
        IsLocation (pairs fields.now) (option_map string_bytes text)) }
{
    match location_of(fields) {
        Some(text) => Ok(Some(String::from_str(alloc, text)?)),
        None => Ok(None),
    }
}
