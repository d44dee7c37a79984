//! A request, whole at any write size, and a prefix of it if a write fails.
//! The definition on real octets.

use crate::tests::demand;
use counted_io::FailAt;
use http_wire::{WireFault, write_get};
use path_normal::PageUrl;
use std::alloc::Global;
use std::test::Fail;

const PAGE: &str = "http://a.example:8080/x?q";

const REQUEST: &[u8] = b"GET /x?q HTTP/1.1\r\nHost: a.example:8080\r\nUser-Agent: crawlgate\r\n\
Accept: */*\r\nAccept-Encoding: identity\r\nConnection: close\r\n\r\n";

// The most octets of a write, and the failing write. One write of many octets suffices.
const WRITES: [(usize, Option<u64>); 4] = [(1, None), (2, None), (7, None), (1_000, Some(1))];

#[test]
fn whole_or_cut_by_a_failed_write(rt: HostRuntime) -> Result<(), Fail> {
    let page = PageUrl::parse(rt.alloc(), PAGE)?;
    demand(writes_all_so(rt.alloc(), &page), "what is written and told")
}

fn writes_all_so(alloc: Global, page: &PageUrl) -> bool {
    for (per_call, fails_at) in WRITES {
        if !writes(alloc, page, per_call, fails_at, REQUEST.len()) {
            return false;
        }
    }
    for octets in 0..REQUEST.len() {
        if !writes(alloc, page, 1, Some(octets as u64), octets) {
            return false;
        }
    }
    true
}

// Whether so many octets of the request are written, or a failure is reported.
fn writes(
    alloc: Global,
    page: &PageUrl,
    per_call: usize,
    fails_at: Option<u64>,
    octets: usize,
) -> bool {
    let mut writer = FailAt::new(Vec::new(alloc), per_call.max(1), fails_at);
    let written = write_get(&mut writer, page, "crawlgate");
    has_written(&writer, written, octets)
}

fn has_written(writer: &FailAt, written: Result<(), WireFault>, octets: usize) -> bool {
    let is_told = if octets == REQUEST.len() {
        written == Ok(()) && writer.failures() == 0
    } else {
        written == Err(WireFault::Device) && writer.failures() != 0
    };
    is_told && writer.bytes().len() == octets && REQUEST.starts_with(writer.bytes())
}

#[test]
fn a_long_agent_is_written_whole(rt: HostRuntime) -> Result<(), Fail> {
    let page = PageUrl::parse(rt.alloc(), PAGE)?;
    demand(writes_long(rt.alloc(), &page), "a long agent")
}

fn writes_long(alloc: Global, page: &PageUrl) -> bool {
    let mut writer = FailAt::new(Vec::new(alloc), 1_000, None);
    match std::str::from_utf8(&[b'a'; 8_192]) {
        Ok(agent) => {
            write_get(&mut writer, page, agent).is_ok() && has_ends(writer.bytes(), agent.len())
        }
        Err(_) => false,
    }
}

// The octets start and end like the request, plus an agent of this length.
fn has_ends(octets: &[u8], agent: usize) -> bool {
    let (before, behind) = REQUEST.split_at(REQUEST.len() / 2);
    octets.len() == (REQUEST.len() - 9).saturating_add(agent)
        && octets.starts_with(&before[..40])
        && octets.ends_with(&behind[behind.len() - 40..])
}
