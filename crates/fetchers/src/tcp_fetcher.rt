//! Pages and robots.txt files fetched over TCP, each under its agent.
//! RFC 9309, section 2.2.1; RFC 9110, section 10.1.5.
ghost use Rattle.std.specs.Prelude.{◌≡◌, IfOk, IfSome, None, Some, string_bytes};
ghost use Rattle.path_normal.specs.declared.schemes.Schemes.TheVariants.{Http};
ghost use Rattle.http_wire.specs.Response.{Tells};
ghost use Rattle.http_wire.specs.declared.ending.ConnectionEnding.TheVariants.{KeepAlive};
ghost use Rattle.http_client.specs.Agent.{IsAgent};
ghost use Rattle.http_client.specs.TimeLimits.{AreStandard};
ghost use Rattle.http_client.specs.declared.reach.Reach.TheVariants.{Anywhere};
ghost use Rattle.fetchers.specs.Limits.{robots_limit};
ghost use Rattle.fetchers.specs.Network.{IsFetcherOf, agent_with, schemes_by};

use crate::fetch_meter::FetchMeter;
use crate::fetcher::{Fetcher, PageLeave, RobotsLeave};
use crate::text_room::TextRoom;
use authority_cache::LIFE;
use http_client::{AddressBlock, Failure, PageRequest, Reach, TcpClient, TimeLimits};
use http_wire::{ConnectionEnding, ForwardedFields, HttpReply, WireFault};
use path_normal::Schemes;
use robots_text::MAX_TEXT;
use std::alloc::{AllocError, Global};
use std::marker::Model;
use std::net::{Net, SocketAddr, TcpStream};
use std::time;
use stream_waits::Deadline;

/// The most octets of a page's body where no other limit is set.
pub const PAGE_LIMIT: usize = 1_048_576;

/// For how many seconds a network fault keeps a site closed where no other time is set: an answer of that age
/// is past its life.
pub const FULL_CLOSURE: u64 = LIFE + 1;

/// The most octets of a robots.txt: those kept, and one that shows that there are more.
const ROBOTS_LIMIT: usize = MAX_TEXT + 1;

/// Fetches pages under crawlers' tokens, and robots.txt files under its own agent.
///
/// A clause sees it as that agent (the value of User-Agent), the comment after a crawler's token, its time
/// limits, its reach, the blocks that it avoids, the schemes of its pages, the most octets of a page's body
/// and of robots texts, for how many seconds a network fault keeps a site closed, and what becomes of a
/// connection after a page.
#[derive(Drop)]
pub struct TcpFetcher<R: Net<Stream = TcpStream> + time::Clock> {
    client: TcpClient<R>,
    alloc: Global,
    agent: String,
    contact: Option<String>,
    schemes: Schemes,
    page_limit: usize,
    texts: TextRoom,
    closed_for: u64,
    ending: ConnectionEnding,
    meter: FetchMeter,
}

impl<R: Net<Stream = TcpStream> + time::Clock> Model for TcpFetcher<R> {
    ghost use Rattle.std.specs.Prelude.{string_bytes};
    ghost use Rattle.http_client.specs.Agent.{IsAgent};
    ghost use Rattle.fetchers.specs.Network.{TcpView, contact_of, IsContact};

    ghost Value = { TcpView };

    ghost view = { λ fetcher. record {
      agent = string_bytes fetcher.agent;
      contact = contact_of fetcher.contact;
      limits = fetcher.client.limits;
      reach = fetcher.client.reach;
      not_to = fetcher.client.not_to;
      schemes = fetcher.schemes;
      page_limit = fetcher.page_limit;
      texts = fetcher.texts;
      closed_for = fetcher.closed_for;
      ending = fetcher.ending;
    } };

    ghost invariant = { λ fetcher. IsAgent (string_bytes fetcher.agent)
        × IsContact (contact_of fetcher.contact) };
}

impl<R: Net<Stream = TcpStream> + time::Clock> TcpFetcher<R> {
    /// A fetcher of http with the standard time limits.
    pub fn new(alloc: Global, rt: R, agent: &str) -> Result<TcpFetcher<R>, AllocError>
    where
        R: Drop,
        requires { IsAgent agent.now }
        ensures limits { IfOk result (λ fetcher. AreStandard fetcher.limits) }
        ensures told { IfOk result
            (λ fetcher. IsFetcherOf agent.now fetcher.limits Anywhere Http fetcher) }
    {
        TcpFetcher::with_limits(alloc, rt, agent, TimeLimits::standard(), Reach::Anywhere)
    }

    /// A fetcher of http within these time limits and this reach.
    pub fn with_limits(
        alloc: Global,
        rt: R,
        agent: &str,
        limits: TimeLimits,
        reach: Reach,
    ) -> Result<TcpFetcher<R>, AllocError>
    where
        R: Drop,
        requires { IsAgent agent.now }
        ensures { IfOk result (IsFetcherOf agent.now limits reach Http) }
    {
        TcpFetcher::with_tls(alloc, rt, agent, limits, reach, None)
    }

    /// Like `with_limits`, for https too if a program opens TLS at an address.
    pub fn with_tls(
        alloc: Global,
        rt: R,
        agent: &str,
        limits: TimeLimits,
        reach: Reach,
        tls_by: Option<SocketAddr>,
    ) -> Result<TcpFetcher<R>, AllocError>
    where
        R: Drop,
        requires { IsAgent agent.now }
        ensures { IfOk result (IsFetcherOf agent.now limits reach (schemes_by tls_by)) }
    {
        Ok(TcpFetcher {
            alloc,
            agent: String::from_str(alloc, agent)?,
            contact: None,
            client: TcpClient::with_tls(rt, limits, reach, tls_by),
            schemes: schemes_by(tls_by),
            page_limit: PAGE_LIMIT,
            texts: TextRoom::new(),
            closed_for: FULL_CLOSURE,
            ending: ConnectionEnding::Close,
            meter: FetchMeter::new(),
        })
    }

    /// This fetcher with a contact in each request: a comment after the agent or a crawler's token.
    pub fn with_contact(self, contact: &str) -> Result<TcpFetcher<R>, AllocError>
    where
        R: Drop,
        requires { IsAgent contact.now }
        ensures { IfOk result (λ fetcher. fetcher ≡ record self {
          agent = agent_with self.agent (Some contact.now);
          contact = Some contact.now;
        }) }
    {
        let whole = with_comment(self.alloc, self.agent.as_str(), contact)?;
        let contact = String::from_str(self.alloc, contact)?;
        Ok(TcpFetcher {
            agent: whole,
            contact: Some(contact),
            ..self
        })
    }

    /// This fetcher, which connects to no address in these blocks, whatever its reach. They do not apply to
    /// the TLS program.
    pub fn avoiding(self, not_to: Vec<AddressBlock>) -> TcpFetcher<R>
    where
        R: Drop,
        ensures { result ≡ record self { not_to = not_to.items } }
    {
        TcpFetcher {
            client: self.client.avoiding(not_to),
            ..self
        }
    }

    /// This fetcher, with at most so many octets of a page's body.
    pub fn with_page_limit(self, most: usize) -> TcpFetcher<R>
    where
        R: Drop,
        ensures { result ≡ record self { page_limit = most } }
    {
        TcpFetcher {
            page_limit: most,
            ..self
        }
    }

    /// This fetcher, which keeps at most so many octets of robots texts together.
    pub fn keeping(self, most: u64) -> TcpFetcher<R>
    where
        R: Drop,
        ensures { result ≡ record self { texts = most } }
    {
        TcpFetcher {
            texts: TextRoom::of(most),
            ..self
        }
    }

    /// This fetcher, for which a network fault keeps a site closed for so many seconds.
    pub fn retrying_closed(self, closed_for: u64) -> TcpFetcher<R>
    where
        R: Drop,
        ensures { result ≡ record self { closed_for = closed_for } }
    {
        TcpFetcher { closed_for, ..self }
    }

    /// This fetcher, which keeps a connection open after a page for the next page of the same scheme, host and
    /// port, if the site lets it. Each robots.txt has a connection of its own.
    pub fn keeping_alive(self) -> TcpFetcher<R>
    where
        R: Drop,
        ensures { result ≡ record self { ending = KeepAlive } }
    {
        TcpFetcher {
            ending: ConnectionEnding::KeepAlive,
            ..self
        }
    }

    /// This fetcher, whose meter begins anew and notes what closed sites.
    pub fn noting_causes(self) -> Result<TcpFetcher<R>, AllocError>
    where
        R: Drop,
        ensures { IfOk result (λ fetcher. fetcher ≡ self) }
    {
        let meter = FetchMeter::with_notes(self.alloc)?;
        Ok(TcpFetcher { meter, ..self })
    }

    // Fetches a page under a crawler's agent, with the contact after it.
    fn fetch_under(
        &self,
        page: &PageRequest<'_, '_>,
        failure: &mut Option<Failure>,
    ) -> Result<HttpReply, WireFault>
        requires { IsAgent page.now.agent.now }
        ensures { Tells None page.now.limit result }
    {
        match &self.contact {
            None => self.client.fetch_page(self.alloc, page, failure),
            Some(contact) => {
                let agent = with_comment(self.alloc, page.agent, contact.as_str())?;
                let page = PageRequest {
                    url: page.url,
                    agent: agent.as_str(),
                    fields: page.fields,
                    limit: page.limit,
                    ending: page.ending,
                };
                self.client.fetch_page(self.alloc, &page, failure)
            }
        }
    }
}

/// A network is unknown, so each fetch gives some octets as a response.
impl<R: Net<Stream = TcpStream> + time::Clock> Fetcher for TcpFetcher<R> {
    ghost use Rattle.fetchers.specs.Network.{GivesAny};

    ghost gives = { λ fetcher. record {
      page_limit = fetcher.page_limit;
      closed_for = fetcher.closed_for;
      holds = GivesAny;
    } };

    ghost follows = { λ fetcher. fetcher.schemes };

    fn schemes(&self) -> Schemes {
        self.schemes
    }

    fn page_limit(&self) -> usize {
        self.page_limit
    }

    fn closed_for(&self) -> u64 {
        self.closed_for
    }

    /// All fetches of a walk take no longer than one may.
    fn begin_walk(&self) -> Option<Deadline>
        ensures { IfSome result (λ deadline. deadline.whole ≡ self.now.limits.whole) }
    {
        self.client.begin().ok()
    }

    fn stop(&self) {
        self.client.stop();
    }

    fn takes_text(&self, octets: u64) -> bool {
        self.texts.take(octets)
    }

    fn counts_texts(&self, octets: u64) {
        self.texts.count_from(octets);
    }

    fn meter(&self) -> Option<&FetchMeter> {
        Some(&self.meter)
    }

    fn load_page(
        &self,
        leave: PageLeave<'_>,
        fields: &ForwardedFields<'_>,
        limit: usize,
        failure: &mut Option<Failure>,
    ) -> Result<HttpReply, WireFault>
        ensures { Tells None limit result }
    {
        let page = PageRequest {
            url: leave.url(),
            agent: leave.token().text(),
            fields,
            limit,
            ending: self.ending,
        };
        let given = self.fetch_under(&page, failure);
        leave.spend();
        given
    }

    fn load_robots(
        &self,
        leave: RobotsLeave<'_>,
        time: Option<Deadline>,
        failure: &mut Option<Failure>,
    ) -> Result<HttpReply, WireFault>
        ensures { Tells None robots_limit result }
    {
        let Some(deadline) = time else {
            self.meter.note_robots(&Err(WireFault::Device), None);
            leave.spend();
            return Err(WireFault::Device);
        };
        let fields = ForwardedFields::none();
        let page = PageRequest {
            url: leave.url(),
            agent: self.agent.as_str(),
            fields: &fields,
            limit: ROBOTS_LIMIT,
            // No octet that a page left behind is read as a robots.txt.
            ending: ConnectionEnding::Close,
        };
        let given = self.client.fetch_by(self.alloc, &page, deadline, failure);
        self.meter.note_robots(&given, *failure);
        leave.spend();
        given
    }
}

// The agent and the comment. RFC 9110, section 5.6.5.
fn with_comment(alloc: Global, agent: &str, comment: &str) -> Result<String, AllocError>
    requires { IsAgent agent.now × IsAgent comment.now }
    ensures text { IfOk result
        (λ made. string_bytes made ≡ agent_with agent.now (Some comment.now)) }
    ensures line { IfOk result (λ made. IsAgent (string_bytes made)) }
{
    let mut made = String::from_str(alloc, agent)?;
    made.push_str(" (")?;
    made.push_str(comment)?;
    made.push_str(")")?;
    Ok(made)
}

// The schemes of its pages: https if a program opens TLS at an address.
fn schemes_by(tls_by: Option<SocketAddr>) -> Schemes
    ensures { result ≡ schemes_by tls_by }
{
    match tls_by {
        Some(_) => Schemes::HttpAndHttps,
        None => Schemes::Http,
    }
}
