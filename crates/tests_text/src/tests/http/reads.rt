//! The results of response rows, and how they are read.
//! In a row's text `|` stands for CR LF, and `~` for the octet FF.
ghost use Rattle.std.specs.Prelude.{◌<◌};

use super::{chunks, freshness, limits, responses, stops};
use crate::tests::demand;
use Want::{Cut, Fault, Fresh, Leads, Octets, Whole};
use counted_io::FailAt;
use http_wire::{HttpReply, WireFault, read_response};
use std::alloc::{AllocError, Global};
use std::test::Fail;

/// What a row gives: a status and a body, whole or cut; a body's length and whether it is cut; how long the
/// response may be used; where it leads; or a fault.
#[derive(Clone, Copy)]
pub(super) enum Want {
    Whole(u16, &'static str),
    Cut(u16, &'static str),
    Octets(usize, bool),
    Fresh(Option<u64>),
    Leads(Option<&'static str>),
    Fault(WireFault),
}

/// A name, a text, the limit, and the result.
pub(super) type Row = (&'static str, &'static str, usize, Want);

/// A name, the start of a text, a part and how often it is repeated, the end, the limit, and the result.
pub(super) type LongRow = (
    &'static str,
    &'static str,
    &'static str,
    usize,
    &'static str,
    usize,
    Want,
);

#[test]
fn gives_each_row_whatever_the_reads(rt: HostRuntime) -> Result<(), Fail> {
    give_whole_responses(rt.alloc())?;
    give_bodies_in_chunks(rt.alloc())?;
    give_fields(rt.alloc())?;
    give_ages(rt.alloc())?;
    give_redirects(rt.alloc())?;
    give_stops(rt.alloc())
}

// (A table is a slice: an array is a value that each function which names it holds whole, and proves its end.)
fn give_whole_responses(alloc: Global) -> Result<(), Fail> {
    give_rows(alloc, "", responses::ROWS)
}

fn give_bodies_in_chunks(alloc: Global) -> Result<(), Fail> {
    give_rows(alloc, chunks::HEAD, chunks::ROWS)
}

fn give_fields(alloc: Global) -> Result<(), Fail> {
    give_rows(alloc, freshness::HEAD, freshness::FIELDS)
}

fn give_ages(alloc: Global) -> Result<(), Fail> {
    give_rows(alloc, "", freshness::RESPONSES)
}

fn give_redirects(alloc: Global) -> Result<(), Fail> {
    give_rows(alloc, limits::REDIRECT, limits::LOCATIONS)
}

fn give_stops(alloc: Global) -> Result<(), Fail> {
    give_rows(alloc, "", stops::STOPS)
}

fn give_rows(alloc: Global, head: &str, rows: &[Row]) -> Result<(), Fail> {
    for (name, text, limit, want) in rows {
        let octets = octets_of(alloc, head, text)?;
        demand(gives(alloc, octets.as_slice(), *limit, *want)?, name)?;
    }
    Ok(())
}

// Whether it does at each read size, from one octet to all at once.
fn gives(alloc: Global, octets: &[u8], limit: usize, want: Want) -> Result<bool, AllocError> {
    for step in 0..octets.len() {
        let mut source = FailAt::new(octets.to_vec(alloc)?, step.saturating_add(1), None);
        if !reads(alloc, &mut source, limit, want, 0) {
            return Ok(false);
        }
    }
    Ok(true)
}

fn reads(alloc: Global, source: &mut FailAt, limit: usize, want: Want, failures: u64) -> bool {
    let given = read_response(alloc, source, limit);
    is_wanted(&given, want) && source.failures() == failures
}

fn is_wanted(given: &Result<HttpReply, WireFault>, want: Want) -> bool {
    match given {
        Ok(reply) => has(reply, want),
        Err(fault) => matches!(want, Fault(wanted) if wanted == *fault),
    }
}

fn has(reply: &HttpReply, want: Want) -> bool {
    match want {
        Whole(status, body) => has_body(reply, status, body) && !reply.cut,
        Cut(status, body) => has_body(reply, status, body) && reply.cut,
        Octets(count, cut) => reply.body.len() == count && reply.cut == cut,
        Fresh(seconds) => reply.max_age == seconds,
        Leads(location) => reply.location.as_deref() == location,
        Fault(_) => false,
    }
}

fn has_body(reply: &HttpReply, status: u16, body: &str) -> bool {
    reply.status == status && reply.body.as_slice() == body.as_bytes()
}

pub(super) fn octets_of(alloc: Global, head: &str, text: &str) -> Result<Vec<u8>, AllocError> {
    let mut octets = Vec::new(alloc);
    push_text(&mut octets, head)?;
    push_text(&mut octets, text)?;
    Ok(octets)
}

fn push_text(octets: &mut Vec<u8>, text: &str) -> Result<(), AllocError> {
    for octet in text.as_bytes() {
        match octet {
            b'|' => octets.extend_from_slice(b"\r\n")?,
            b'~' => octets.push(0xFF)?,
            _ => octets.push(*octet)?,
        }
    }
    Ok(())
}

#[test]
fn ends_early_in_each_prefix_and_tells_each_failed_read(rt: HostRuntime) -> Result<(), Fail> {
    for text in [
        "",
        responses::COUNTED,
        responses::CHUNKED,
        responses::NO_CONTENT,
    ] {
        let octets = octets_of(rt.alloc(), "", text)?;
        demand(fails_within(rt.alloc(), octets.as_slice())?, text)?;
    }
    Ok(())
}

fn fails_within(alloc: Global, octets: &[u8]) -> Result<bool, AllocError> {
    for end in 0..octets.len() {
        if !ends_early(alloc, &octets[..end])? || !fails_at(alloc, octets, end as u64)? {
            return Ok(false);
        }
    }
    Ok(true)
}

fn ends_early(alloc: Global, prefix: &[u8]) -> Result<bool, AllocError> {
    let mut source = FailAt::new(prefix.to_vec(alloc)?, 7, None);
    Ok(reads(alloc, &mut source, 9, Fault(WireFault::EarlyEnd), 0))
}

fn fails_at(alloc: Global, octets: &[u8], call: u64) -> Result<bool, AllocError> {
    let mut source = FailAt::new(octets.to_vec(alloc)?, 1, Some(call));
    Ok(reads(alloc, &mut source, 9, Fault(WireFault::Device), 1))
}

// The source gives one octet a read, and fails after the last.
#[test]
fn reads_no_octet_more_than_it_needs(rt: HostRuntime) -> Result<(), Fail> {
    stop_behind(rt.alloc(), stops::STOPS)
}

fn stop_behind(alloc: Global, rows: &[Row]) -> Result<(), Fail> {
    for (name, text, limit, want) in rows {
        let octets = octets_of(alloc, "", text)?;
        demand(stops_behind(alloc, octets, *limit, *want), name)?;
    }
    Ok(())
}

fn stops_behind(alloc: Global, octets: Vec<u8>, limit: usize, want: Want) -> bool {
    let calls = octets.len() as u64;
    let mut source = FailAt::new(octets, 1, Some(calls));
    reads(alloc, &mut source, limit, want, 0) && source.unread().is_empty()
}

#[test]
fn gives_each_long_row(rt: HostRuntime) -> Result<(), Fail> {
    give_long_rows(rt.alloc(), limits::LONG)
}

fn give_long_rows(alloc: Global, rows: &[LongRow]) -> Result<(), Fail> {
    for (name, front, again, times, end, limit, want) in rows {
        let octets = long_text(alloc, front, again, *times, end)?;
        demand(gives_long(alloc, octets.as_slice(), *limit, *want)?, name)?;
    }
    Ok(())
}

fn gives_long(alloc: Global, octets: &[u8], limit: usize, want: Want) -> Result<bool, AllocError> {
    Ok(gives_at(alloc, octets, 7, limit, want)? && gives_at(alloc, octets, 65_536, limit, want)?)
}

// Whether it does at so many octets a read.
fn gives_at(
    alloc: Global,
    octets: &[u8],
    step: usize,
    limit: usize,
    want: Want,
) -> Result<bool, AllocError>
    requires { 0 < step }
{
    let mut source = FailAt::new(octets.to_vec(alloc)?, step, None);
    Ok(reads(alloc, &mut source, limit, want, 0))
}

fn long_text(
    alloc: Global,
    front: &str,
    again: &str,
    times: usize,
    end: &str,
) -> Result<Vec<u8>, AllocError> {
    let mut octets = octets_of(alloc, front, "")?;
    push_again(&mut octets, again, times)?;
    push_text(&mut octets, end)?;
    Ok(octets)
}

fn push_again(octets: &mut Vec<u8>, text: &str, times: usize) -> Result<(), AllocError> {
    for _ in 0..times {
        push_text(octets, text)?;
    }
    Ok(())
}
