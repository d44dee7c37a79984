//! A gate behind the front: its answers are refreshed, its lines decide, and each page is a start of its
//! history.

use super::demand;
use super::dialogue::{Talked, talk};
use super::script::octets_of;
use gate_core::Limits;
use gate_lock::{Gate, GateLock};
use gate_settlement::{SettleFault, Visit, settle, with_gate};
use keepers::DeskKeeper;
use scripted_sites::{ScriptedPage, ScriptedSites, new_book};
use std::alloc::Global;
use std::random::RandomSource;
use std::sync::Wait;
use std::test::Fail;

const PAGES: &[ScriptedPage<'static>] = &[
    ScriptedPage {
        url: "http://a.example/robots.txt",
        response: b"HTTP/1.1 200 OK\r\nContent-Length: 49\r\n\r\nUser-agent: foobot\nDisallow: /no\nAllow: /page/yes",
    },
    ScriptedPage {
        url: "http://a.example/page/yes",
        response: b"HTTP/1.1 200 OK\r\nSet-Cookie: a\r\nContent-Type: text/plain\r\nContent-Length: 4\r\n\r\nyes\n",
    },
];

// A page that a line allows, one that a line denies, one that nothing is known of, and no request.
const SENT: &str =
    "GET /http://a.example/page/yes HTTP/1.1|Host: localhost|Crawlgate-Token: foobot||\
    GET /http://a.example/no HTTP/1.1|Host: localhost|Crawlgate-Token: foobot||\
    GET /http://a.example/none HTTP/1.1|Host: localhost|Crawlgate-Token: barbot||\
    GET /http://a.example/page/yes HTTP/1.1|Host: localhost||";

const TOLD: &str = "HTTP/1.1 200 OK|content-type: text/plain|\
    proxy-status: crawlgate; received-status=200; details=\"65536 line 3\"|content-length: 4||yes\n\
    HTTP/1.1 403 Forbidden|proxy-status: crawlgate; error=http_request_denied; \
    details=\"a.example line 2\"|content-length: 0||\
    HTTP/1.1 502 Bad Gateway|proxy-status: crawlgate; error=connection_terminated; \
    details=\"the device failed\"|content-length: 0||\
    HTTP/1.1 400 Bad Request|proxy-status: crawlgate; error=http_request_error; \
    details=\"no token\"|content-length: 0||";

#[derive(Drop)]
struct Client<'r, R: Wait + RandomSource> {
    rt: &'r R,
    alloc: Global,
}

// What was answered, and the gate's events and starts, if that is settled.
type Ended = (Talked, Result<(u64, u64), SettleFault>);

impl<R: Wait + RandomSource> Visit for Client<'_, R> {
    type Output = Result<Ended, Fail>;

    fn visit<G: Gate>(self, gate: &GateLock<G>) -> Self::Output {
        let sent = octets_of(self.alloc, SENT)?;
        answers_at(self.rt, self.alloc, gate, sent.as_slice())
    }
}

fn answers_at<G: Gate, R: Wait + RandomSource>(
    rt: &R,
    alloc: Global,
    gate: &GateLock<G>,
    sent: &[u8],
) -> Result<Ended, Fail> {
    let sites = ScriptedSites {
        alloc,
        pages: PAGES,
    };
    let mut all = Vec::with_capacity(alloc, 1)?;
    let mut keeper = DeskKeeper::open(rt, alloc, gate, &sites)?;
    let told = talk(rt, alloc, &mut keeper, &(), sent);
    all.push_reserved(keeper.close());
    let totals = match settle(rt, alloc, gate, all.as_slice()) {
        Ok(settled) => Ok((settled.events(), settled.starts())),
        Err(fault) => Err(fault),
    };
    Ok((told?, totals))
}

#[test]
fn each_page_is_a_start(rt: HostRuntime) -> Result<(), Fail> {
    let book = new_book(&rt, rt.alloc(), Limits::usual())?;
    let client = Client {
        rt: &rt,
        alloc: rt.alloc(),
    };
    let (talked, totals) = with_gate(book, client)?;
    talked.demand(rt.alloc(), "a gate", TOLD)?;
    // The answer is begun and arrives; two pages are granted, started and ended; one is denied.
    demand(totals == Ok((9, 2)), "a gate", "other totals")
}
