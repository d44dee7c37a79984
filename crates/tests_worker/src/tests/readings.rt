//! Jobs by a clock that advances with each reading: the moments of their entries, and how often a robots.txt
//! is fetched. RFC 9309, section 2.4.

use crawl_job::Job;
use fetchers::{FULL_CLOSURE, Fetcher, PAGE_LIMIT, PageLeave, RobotsLeave};
use gate_core::Limits;
use gate_history::Entry;
use gate_lock::{Gate, GateLock, Mark};
use gate_settlement::{Visit, with_gate};
use http_client::Failure;
use http_wire::{ForwardedFields, HttpReply, WireFault};
use page_worker::{Clock, work};
use path_normal::{PageUrl, Schemes};
use robots_text::Token;
use scripted_sites::new_book;
use std::alloc::Global;
use std::random::RandomSource;
use std::sync::Wait;
use std::sync::atomic::{AtomicU64, Ordering};
use std::test::Fail;
use stream_waits::Deadline;

// An entry's letter and its moment, if it has one: `B`, `A`, `G`, `N`, `S` and `F` are begun, arrived, granted,
// denied, started and finished.
type Told = (char, u64);

// A row: what it shows; the seconds between two readings of the clock, which starts at 100; the status of the first
// response to a fetch of the robots.txt, or none for a network fault; for how many seconds such a fault keeps the
// site closed; the entries of two jobs of the site; and how often its robots.txt was fetched, which denies all from
// its second fetch on. A job reads the clock to look for an answer, once more to bring one, to ask and to start.
type Row = (&'static str, u64, Option<u16>, u64, &'static [Told], u64);

const ROWS: [Row; 8] = [
    (
        "the clock stands",
        0,
        Some(404),
        60,
        &[
            ('B', 100),
            ('A', 100),
            ('G', 100),
            ('S', 100),
            ('F', 0),
            ('G', 100),
            ('S', 100),
            ('F', 0),
        ],
        1,
    ),
    (
        "an answer in force is not fetched anew",
        30,
        Some(404),
        60,
        &[
            ('B', 100),
            ('A', 130),
            ('G', 160),
            ('S', 190),
            ('F', 0),
            ('G', 250),
            ('S', 280),
            ('F', 0),
        ],
        1,
    ),
    (
        "an answer older than a day is fetched anew",
        25_000,
        Some(404),
        FULL_CLOSURE,
        &[
            ('B', 100),
            ('A', 25_100),
            ('G', 50_100),
            ('S', 75_100),
            ('F', 0),
            ('B', 100_100),
            ('A', 125_100),
            ('N', 150_100),
        ],
        2,
    ),
    (
        "a site that a network fault closed is asked anew after its seconds",
        20,
        None,
        60,
        &[
            ('B', 100),
            ('A', 120),
            ('N', 140),
            ('B', 160),
            ('A', 180),
            ('N', 200),
        ],
        2,
    ),
    (
        "a site that a network fault closed is not asked a second too early",
        20,
        None,
        61,
        &[('B', 100), ('A', 120), ('N', 140), ('N', 180)],
        1,
    ),
    (
        "a site that a status closed is not asked anew",
        20,
        Some(503),
        60,
        &[('B', 100), ('A', 120), ('N', 140), ('N', 180)],
        1,
    ),
    (
        "a site that a network fault closed stays closed for its answer's life",
        28_800,
        None,
        FULL_CLOSURE,
        &[('B', 100), ('A', 28_900), ('N', 57_700), ('N', 115_300)],
        1,
    ),
    (
        "a site that a network fault closed is asked anew past its answer's life",
        28_801,
        None,
        FULL_CLOSURE,
        &[
            ('B', 100),
            ('A', 28_901),
            ('N', 57_702),
            ('B', 86_503),
            ('A', 115_304),
            ('N', 144_105),
        ],
        2,
    ),
];

// A clock that advances by so many seconds with each reading.
#[derive(Drop)]
struct Stepping {
    next: AtomicU64,
    seconds: u64,
}

impl Clock for Stepping {
    fn now(&self) -> u64 {
        self.next.fetch_add(self.seconds, Ordering::SeqCst)
    }
}

// A site that has a robots.txt from its second fetch on, and counts the requests for it. Its first response has
// this status, unless there is none for a network fault, which keeps the site closed for so many seconds.
#[derive(Drop)]
struct Changing {
    alloc: Global,
    first: Option<u16>,
    closed_for: u64,
    robots: AtomicU64,
}

impl Fetcher for Changing {
    ghost use Rattle.fetchers.specs.Limits.{page_limit};
    ghost use Rattle.path_normal.specs.declared.schemes.Schemes.TheVariants.{Http};

    ghost gives = { λ site. record {
      page_limit = page_limit;
      closed_for = site.closed_for;
      holds = λ _ _ _. Unit {0};
    } };

    ghost follows = { λ _. Http };

    fn schemes(&self) -> Schemes {
        Schemes::Http
    }

    fn page_limit(&self) -> usize {
        PAGE_LIMIT
    }

    fn closed_for(&self) -> u64 {
        self.closed_for
    }

    fn load_page(
        &self,
        leave: PageLeave<'_>,
        _fields: &ForwardedFields<'_>,
        _limit: usize,
        _failure: &mut Option<Failure>,
    ) -> Result<HttpReply, WireFault> {
        leave.spend();
        Ok(reply(self.alloc, 200, Vec::new(self.alloc)))
    }

    fn load_robots(
        &self,
        leave: RobotsLeave<'_>,
        _time: Option<Deadline>,
        _failure: &mut Option<Failure>,
    ) -> Result<HttpReply, WireFault> {
        leave.spend();
        if self.robots.fetch_add(1, Ordering::SeqCst) == 0 {
            return match self.first {
                Some(status) => Ok(reply(self.alloc, status, Vec::new(self.alloc))),
                None => Err(WireFault::Device),
            };
        }
        match Vec::from_slice(self.alloc, b"User-agent: *\nDisallow: /\n") {
            Ok(body) => Ok(reply(self.alloc, 200, body)),
            Err(_) => Err(WireFault::Device),
        }
    }
}

fn reply(alloc: Global, status: u16, body: Vec<u8>) -> HttpReply {
    HttpReply {
        status,
        location: None,
        max_age: None,
        head: Vec::new(alloc),
        body,
        cut: false,
    }
}

// Does two jobs at one desk: whether its entries are the wanted ones.
#[derive(Drop)]
struct TwoJobs<'r, R: Wait> {
    rt: &'r R,
    alloc: Global,
    first: Job,
    second: Job,
    site: &'r Changing,
    clock: &'r Stepping,
    want: &'r [Told],
}

impl<R: Wait> Visit for TwoJobs<'_, R> {
    type Output = Result<bool, Fail>;

    fn visit<G: Gate>(self, gate: &GateLock<G>) -> Self::Output {
        let TwoJobs {
            rt,
            alloc,
            first,
            second,
            site,
            clock,
            want,
        } = self;
        let mut desk = gate.desk(rt, alloc)?;
        let _ = work(rt, alloc, first, &mut desk, site, clock);
        let _ = work(rt, alloc, second, &mut desk, site, clock);
        let receipts = desk.close();
        Ok(are_wanted(receipts.marks(), want))
    }
}

fn are_wanted(marks: &[Mark], want: &[Told]) -> bool {
    for (mark, want) in marks.iter().zip(want) {
        if told(&mark.entry) != *want {
            return false;
        }
    }
    marks.len() == want.len()
}

fn told(entry: &Entry) -> Told {
    match entry {
        Entry::Begun { moment, .. } => ('B', *moment),
        Entry::Arrived { moment, .. } => ('A', *moment),
        Entry::Granted { moment, .. } => ('G', *moment),
        Entry::AskDenied { moment, .. } => ('N', *moment),
        Entry::Started { moment, .. } => ('S', *moment),
        Entry::Finished { .. } => ('F', 0),
        _ => ('?', 0),
    }
}

#[test]
fn jobs_by_a_clock_that_goes_on(rt: HostRuntime) -> Result<(), Fail> {
    for row in &ROWS {
        if !check(&rt, rt.alloc(), row)? {
            return Err(Fail::new(row.0));
        }
    }
    Ok(())
}

fn check<R: Wait + RandomSource>(rt: &R, alloc: Global, row: &Row) -> Result<bool, Fail> {
    let (_, seconds, first, closed_for, want, fetches) = *row;
    let clock = Stepping {
        next: AtomicU64::new(100),
        seconds,
    };
    let site = Changing {
        alloc,
        first,
        closed_for,
        robots: AtomicU64::new(0),
    };
    let holds = do_jobs(rt, alloc, &site, &clock, want)?;
    Ok(holds && site.robots.load(Ordering::SeqCst) == fetches)
}

fn do_jobs<R: Wait + RandomSource>(
    rt: &R,
    alloc: Global,
    site: &Changing,
    clock: &Stepping,
    want: &[Told],
) -> Result<bool, Fail> {
    let jobs = TwoJobs {
        rt,
        alloc,
        first: job(alloc, "http://a.example/x")?,
        second: job(alloc, "http://a.example/y")?,
        site,
        clock,
        want,
    };
    with_gate(new_book(rt, alloc, Limits::usual())?, jobs)
}

fn job(alloc: Global, url: &str) -> Result<Job, Fail> {
    let token = Token::new(alloc, b"foobot")?;
    Ok(Job {
        token,
        url: PageUrl::parse(alloc, url)?,
    })
}
