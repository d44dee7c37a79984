//! The interface of fetchers, and the leaves that they need.
ghost use Rattle.std.specs.Prelude.{◌≡◌};
ghost use Rattle.fetchers.specs.Leaves.{page_of, robots_page_of, token_of_leave};
ghost use Rattle.fetchers.specs.Limits.{robots_limit};
ghost use Rattle.fetchers.specs.Walks.{IsOnWalk};

use crate::fetch_meter::FetchMeter;
use gate_lock::{Fetched, Gate, RobotsTurn, Running};
use http_client::Failure;
use http_wire::{ForwardedFields, HttpReply, WireFault};
use path_normal::{PageUrl, Schemes};
use robots_text::Token;
use stream_waits::Deadline;

/// Leave to fetch a page once. `Fetcher::fetch_page` makes it for a started permit; nothing else does. It
/// has no `Drop`: `spend` uses it up.
#[must_use]
pub struct PageLeave<'a> {
    token: &'a Token,
    url: &'a PageUrl,
}

impl PageLeave<'_> {
    /// The token for the fetch.
    pub fn token(&self) -> &Token
        ensures { result.now ≡ token_of_leave self.now }
    {
        self.token
    }

    /// The page.
    pub fn url(&self) -> &PageUrl
        ensures { result.now ≡ page_of self.now }
    {
        self.url
    }

    /// Uses it up.
    pub fn spend(self) {
        let PageLeave { token: _, url: _ } = self;
    }
}

/// Leave to fetch a robots.txt, or the target of a redirect of one, once.
/// `Fetcher::fetch_robots` makes it for a turn in flight; nothing else does. It has no `Drop`: `spend` uses
/// it up.
#[must_use]
pub struct RobotsLeave<'a> {
    url: &'a PageUrl,
}

impl RobotsLeave<'_> {
    /// The file.
    pub fn url(&self) -> &PageUrl
        ensures { result.now ≡ robots_page_of self.now }
    {
        self.url
    }

    /// Uses it up.
    pub fn spend(self) {
        let RobotsLeave { url: _ } = self;
    }
}

/// Fetches pages and robots.txt files. A redirect is a reply like others, and is not followed. If the
/// device of a fetch fails, `failure` gets the reason, if known.
pub trait Fetcher {
    ghost use Rattle.fetchers.specs.Giving.{Giving};
    ghost use Rattle.path_normal.specs.declared.schemes.Schemes.{Schemes};

    /// The most octets of a page's body, for how many seconds a network fault keeps a site closed, and what
    /// holds of the limit of a body, a URL, and each result of such a fetch.
    ghost gives: { Self → Giving };

    /// The schemes of the pages that it fetches.
    ghost follows: { Self → Schemes };

    /// The schemes of the pages that it fetches. Texts read for it may name no other pages, and redirects
    /// to others are not followed.
    fn schemes(&self) -> Schemes
        ensures { result ≡ follows self.now };

    /// The most octets of a page's body that it gives.
    fn page_limit(&self) -> usize
        ensures { result ≡ (gives self.now).page_limit };

    /// For how many seconds a site stays closed whose robots.txt could not be fetched for a network fault,
    /// from the begin of that turn on: a page of it that is wanted later has the file fetched anew. With more
    /// than 86,400 that is never sooner than the answer's life ends.
    fn closed_for(&self) -> u64
        ensures { result ≡ (gives self.now).closed_for };

    /// The shared time limit of one robots.txt walk, from now on; none without a limit or clock.
    fn begin_walk(&self) -> Option<Deadline> {
        None
    }

    /// Makes all fetches fail from now on, running ones as soon as possible. Instant fetches need no stop.
    fn stop(&self) {}

    /// Takes room for a robots text of so many octets beside those that are kept, if there is any. A site whose
    /// text has none is closed.
    fn takes_text(&self, _octets: u64) -> bool {
        true
    }

    /// Tells it how many octets of robots texts are kept now. It counts on from there.
    fn counts_texts(&self, _octets: u64) {}

    /// What counts the fetches that failed, if anything does.
    fn meter(&self) -> Option<&FetchMeter> {
        None
    }

    /// Fetches a page with these fields of a client's request, and with at most `limit` octets of its body.
    fn load_page(
        &self,
        leave: PageLeave<'_>,
        fields: &ForwardedFields<'_>,
        limit: usize,
        failure: &mut Option<Failure>,
    ) -> Result<HttpReply, WireFault>
        ensures { (gives self.now).holds limit (page_of leave.entry) result };

    /// Fetches a robots.txt, with at most 512,001 octets of its body: the limit, and one that shows that
    /// there are more.
    fn load_robots(
        &self,
        leave: RobotsLeave<'_>,
        time: Option<Deadline>,
        failure: &mut Option<Failure>,
    ) -> Result<HttpReply, WireFault>
        ensures { (gives self.now).holds robots_limit (robots_page_of leave.entry) result };

    /// Makes an allowed fetch under its token, with these fields of a client's request, and with as many
    /// octets of the page's body as it gives. Whatever happens, the fetch counts as made.
    final fn fetch_page<G: Gate>(
        &self,
        running: Running<G>,
        fields: &ForwardedFields<'_>,
        failure: &mut Option<Failure>,
    ) -> (Fetched<G>, Result<HttpReply, WireFault>)
        ensures spent { result.0 ≡ running.pass }
        ensures given { (gives self.now).holds (gives self.now).page_limit
            running.pass.url result.1 }
    {
        let leave = PageLeave {
            token: running.token(),
            url: running.url(),
        };
        let limit = self.page_limit();
        let reply = self.load_page(leave, fields, limit, failure);
        (running.spend(), reply)
    }

    /// Fetches a robots.txt, or the target of its redirects, while a turn of its authority is in flight.
    final fn fetch_robots<G: Gate>(
        &self,
        _turn: &RobotsTurn<G>,
        url: &PageUrl,
        time: Option<Deadline>,
        failure: &mut Option<Failure>,
    ) -> Result<HttpReply, WireFault>
        requires { IsOnWalk (follows self.now)
            ((gives self.now).holds robots_limit) _turn.now.authority url.now }
        ensures { (gives self.now).holds robots_limit url.now result }
    {
        self.load_robots(RobotsLeave { url }, time, failure)
    }
}
