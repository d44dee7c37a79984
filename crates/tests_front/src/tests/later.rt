//! Requests that are not begun: the robots.txt is being fetched for another, or the door lets no visit in.

use super::demand;
use super::dialogue::talk;
use super::script::{Scene, Script, octets_of};
use http_front::SiteDoor;
use http_turns::Asker;
use http_wire::HttpReply;
use path_normal::Authority;
use std::alloc::Global;
use std::random::RandomSource;
use std::sync::atomic::{AtomicU64, Ordering};
use std::test::Fail;

const ASKED: &str = "GET /http://a.example/x HTTP/1.1|Host: localhost|Crawlgate-Token: foobot||";

const TWO: &str = "GET /http://a.example/x HTTP/1.1|Host: localhost|Crawlgate-Token: foobot||\
    GET /http://a.example/x HTTP/1.1|Host: localhost||";

const VISITED: &str = "foobot http://a.example/x\n";

const PAGE: &str = "HTTP/1.1 200 OK|\
    proxy-status: crawlgate; received-status=200; details=\"65536 line 3\"|content-length: 4||page";

const IN_FLIGHT: &str = "HTTP/1.1 503 Service Unavailable|retry-after: 1|proxy-status: crawlgate; \
    error=proxy_internal_response; details=\"inflight\"|content-length: 0||";

const KEPT_OUT: &str = "HTTP/1.1 503 Service Unavailable|retry-after: 1|proxy-status: crawlgate; \
    error=proxy_internal_response; details=\"site busy\"|content-length: 0||";

const TWO_ANSWERS: &str =
    "HTTP/1.1 503 Service Unavailable|retry-after: 1|proxy-status: crawlgate; \
    error=proxy_internal_response; details=\"inflight\"|content-length: 0||\
    HTTP/1.1 400 Bad Request|proxy-status: crawlgate; error=http_request_error; \
    details=\"no token\"|content-length: 0||";

const OWN_503: &str = "HTTP/1.1 503 Service Unavailable|retry-after: 9|\
    proxy-status: crawlgate; received-status=503; details=\"65536 line 3\"|content-length: 0||";

const NUMBERS: &str = "GET /metrics HTTP/1.1|Host: localhost||";

const COUNTED: &str = "HTTP/1.1 200 OK|content-type: text/plain; version=0.0.4; charset=utf-8|\
    proxy-status: crawlgate; details=\"metrics\"|content-length: 24||crawlgate_authorities 7\n";

/// How often a door was asked and left, and the sum of the statuses that it was left with.
#[derive(Clone, Copy, PartialEq, Eq, Debug)]
struct Notes {
    asked: u64,
    left: u64,
    statuses: u64,
}

const UNASKED: Notes = Notes {
    asked: 0,
    left: 0,
    statuses: 0,
};

const LEFT: Notes = Notes {
    asked: 1,
    left: 1,
    statuses: 0,
};

// A name, what a visit comes to, whether the door is open, what is sent, the visits, what is answered, whether the last
// request was not begun, and what the door saw.
type Row = (
    &'static str,
    Scene,
    bool,
    &'static str,
    &'static str,
    &'static str,
    bool,
    Notes,
);

const ROWS: &[Row] = &[
    (
        "in flight",
        Scene::InFlight,
        true,
        ASKED,
        VISITED,
        IN_FLIGHT,
        true,
        LEFT,
    ),
    (
        "a shut door",
        Scene::Page(200, "", "page", false),
        false,
        ASKED,
        "",
        KEPT_OUT,
        true,
        Notes {
            asked: 1,
            left: 0,
            statuses: 0,
        },
    ),
    (
        "an open door",
        Scene::Page(200, "", "page", false),
        true,
        ASKED,
        VISITED,
        PAGE,
        false,
        Notes {
            asked: 1,
            left: 1,
            statuses: 200,
        },
    ),
    (
        "a site that says when to ask again",
        Scene::Page(503, "Retry-After: 9|", "", false),
        true,
        ASKED,
        VISITED,
        OWN_503,
        false,
        Notes {
            asked: 1,
            left: 1,
            statuses: 503,
        },
    ),
    (
        "a keeper that fetches nothing",
        Scene::Nothing,
        true,
        ASKED,
        "",
        "HTTP/1.1 500 Internal Server Error|proxy-status: crawlgate; \
         error=proxy_internal_error; details=\"no fetch\"|content-length: 0||",
        false,
        LEFT,
    ),
    (
        "numbers behind a shut door",
        Scene::Nothing,
        false,
        NUMBERS,
        "",
        COUNTED,
        false,
        UNASKED,
    ),
    (
        "nothing that is asked for, after one in flight",
        Scene::InFlight,
        true,
        TWO,
        VISITED,
        TWO_ANSWERS,
        false,
        LEFT,
    ),
];

/// A door that is open or shut, and counts.
#[derive(Drop)]
struct CountingDoor {
    is_open: bool,
    asked: AtomicU64,
    left: AtomicU64,
    statuses: AtomicU64,
}

// A visit that is under way: it can be spent by the door alone.
struct UnderWay;

impl CountingDoor {
    fn notes(&self) -> Notes {
        Notes {
            asked: self.asked.load(Ordering::SeqCst),
            left: self.left.load(Ordering::SeqCst),
            statuses: self.statuses.load(Ordering::SeqCst),
        }
    }
}

impl SiteDoor for CountingDoor {
    type Pass = UnderWay;

    ghost answers = { λ _ _ _. Unit {0} };

    ghost leaves = { λ _ _ _. Unit {0} };

    fn enter(&self, site: &Authority, _asker: Asker) -> Option<UnderWay> {
        if site.text() == "a.example" {
            let _ = self.asked.fetch_add(1, Ordering::SeqCst);
        }
        if self.is_open { Some(UnderWay) } else { None }
    }

    fn leave(&self, pass: UnderWay, reply: Option<&HttpReply>) {
        let UnderWay = pass;
        let _ = self.left.fetch_add(1, Ordering::SeqCst);
        if let Some(reply) = reply {
            let _ = self
                .statuses
                .fetch_add(u64::from(reply.status), Ordering::SeqCst);
        }
    }
}

fn check_row<R: RandomSource>(rt: &R, alloc: Global, row: &Row) -> Result<(), Fail> {
    let (name, scene, is_open, sent, visits, answer, later, notes) = row;
    let mut keeper = Script {
        alloc,
        scene: *scene,
        visits: Vec::new(alloc),
    };
    let door = CountingDoor {
        is_open: *is_open,
        asked: AtomicU64::new(0),
        left: AtomicU64::new(0),
        statuses: AtomicU64::new(0),
    };
    let sent = octets_of(alloc, sent)?;
    let talked = talk(rt, alloc, &mut keeper, &door, sent.as_slice())?;
    talked.demand(alloc, name, answer)?;
    demand(talked.later == *later, name, "later")?;
    demand(door.notes() == *notes, name, "the door")?;
    let visited = String::from_utf8_lossy(alloc, keeper.visits.as_slice())?;
    demand(visited.as_str() == *visits, name, visited.as_str())
}

#[test]
fn requests_that_are_not_begun(rt: HostRuntime) -> Result<(), Fail> {
    for row in ROWS {
        check_row(&rt, rt.alloc(), row)?;
    }
    Ok(())
}
