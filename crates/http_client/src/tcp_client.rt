//! Pages fetched over TCP, each over a connection of its own or over one that was kept.
ghost use Rattle.std.specs.Prelude.{◌≡◌, [], None, IfOk, IfSome, false, true};
ghost use Rattle.std.specs.Net.Socket.{socket_ip};
ghost use Rattle.path_normal.specs.PageText.{is_https};
ghost use Rattle.http_wire.specs.Response.{Tells};
ghost use Rattle.http_wire.specs.declared.ending.ConnectionEnding.TheVariants.{Close};
ghost use Rattle.http_client.specs.Agent.{IsAgent};
ghost use Rattle.http_client.specs.Reach.{MayReach};
ghost use Rattle.http_client.specs.declared.reach.Reach.TheVariants.{Anywhere};

use crate::address_block::AddressBlock;
use crate::connector::Connector;
use crate::exchanged::{Exchanged, exchange_by_tls, exchange_straight};
use crate::failure::{Failure, fault_for};
use crate::kept_connections::KeptConnections;
use crate::network::{Network, Way};
use crate::page_request::PageRequest;
use crate::reach::Reach;
use crate::time_limits::TimeLimits;
use crate::timed_stream::TimedStream;
use crate::tls_header::{TlsHeaderFault, tls_header_of};
use http_wire::{ConnectionEnding, ForwardedFields, HttpReply, WireFault};
use path_normal::PageUrl;
use std::alloc::Global;
use std::marker::Model;
use std::net::{Net, SocketAddr, TcpStream};
use std::sync::atomic::{AtomicBool, Ordering};
use std::{io, time};
use stream_waits::Deadline;

/// Fetches pages over TCP, and follows no redirect. Another program does TLS: it reads a PROXY protocol header,
/// opens TLS to the address there, and forwards octets.
///
/// A connection is kept after the response to a request whose `ending` is `KeepAlive`, if the response lets it
/// go on: at most 64 at a time, each for at most 15 seconds, or until the client is next used after these, and
/// for at most 100 requests. It serves only such requests for pages of the same scheme, host and port.
#[derive(Drop)]
pub struct TcpClient<R: Net<Stream = TcpStream> + time::Clock> {
    network: Network<R>,
    limits: TimeLimits,
    stopped: AtomicBool,
    kept: KeptConnections,
}

/// A request for a page, and its time.
#[derive(Clone, Copy)]
struct Asked<'a> {
    page: &'a PageRequest<'a, 'a>,
    deadline: Deadline,
}

impl<R: Net<Stream = TcpStream> + time::Clock> Model for TcpClient<R> {
    ghost use Rattle.http_client.specs.Clients.{ClientView};

    ghost Value = { ClientView };

    ghost view = { λ client. record {
      limits = client.limits;
      reach = client.network.reach;
      not_to = client.network.not_to;
      tls_by = client.network.tls_by;
    } };
}

impl<R: Net<Stream = TcpStream> + time::Clock> TcpClient<R> {
    /// A client that connects to any address, within these time limits.
    pub fn new(rt: R, limits: TimeLimits) -> TcpClient<R>
        ensures { result ≡ record {
          limits = limits;
          reach = Anywhere;
          not_to = [];
          tls_by = None;
        } }
    {
        TcpClient::reaching(rt, limits, Reach::Anywhere)
    }

    /// A client that connects to addresses within this reach, within these time limits.
    pub fn reaching(rt: R, limits: TimeLimits, reach: Reach) -> TcpClient<R>
        ensures { result ≡ record { limits = limits; reach = reach; not_to = []; tls_by = None } }
    {
        TcpClient::with_tls(rt, limits, reach, None)
    }

    /// Like `reaching`, and fetches https pages through the TLS program at this address. That must be on
    /// this machine, since the connection to it is not encrypted; the reach does not apply to it. Checking
    /// certificates is up to that program.
    pub fn with_tls(
        rt: R,
        limits: TimeLimits,
        reach: Reach,
        tls_by: Option<SocketAddr>,
    ) -> TcpClient<R>
        ensures { result ≡ record { limits = limits; reach = reach; not_to = []; tls_by = tls_by } }
    {
        TcpClient {
            network: Network::new(rt, reach, tls_by),
            limits,
            stopped: AtomicBool::new(false),
            kept: KeptConnections::new(),
        }
    }

    /// This client, which connects to no address in these blocks, whatever its reach. They do not apply to
    /// the TLS program.
    pub fn avoiding(self, not_to: Vec<AddressBlock>) -> TcpClient<R>
    where
        R: Drop,
        ensures { result ≡ record self { not_to = not_to.items } }
    {
        let TcpClient {
            network,
            limits,
            stopped,
            kept: _,
        } = self;
        // What was kept may be to these addresses.
        TcpClient {
            network: network.avoiding(not_to),
            limits,
            stopped,
            kept: KeptConnections::new(),
        }
    }

    /// Makes all fetches fail: running ones within a second, or the time limit of a connection being made,
    /// and others before they connect. Closes the connections that are kept.
    pub fn stop(&self) {
        self.stopped.store(true, Ordering::SeqCst);
        self.kept.close();
    }

    /// The time of a whole fetch, from now on. Several fetches may share it.
    pub fn begin(&self) -> io::Result<Deadline>
        ensures { IfOk result (λ deadline. deadline.whole ≡ self.now.limits.whole) }
    {
        self.network.begin(self.limits.whole)
    }

    /// Fetches a page, with at most `limit` octets of its body. `agent` is the value of User-Agent.
    ///
    /// `Device` if the host has no address, none is within reach or accepts a connection, a read or write
    /// fails, a time limit is exceeded or the client was stopped; `failure` then says which. The system
    /// looks up the addresses of a name, within its own time limits, and they are tried in order.
    ///
    /// A page of https is fetched through the TLS program. If that closes the connection before an octet
    /// has come back, the host's next address is tried, so a request may reach several of them (RFC 9110,
    /// section 9.2.2); `EarlyEnd` if the last one ends in this way. `Device` if there is no TLS program.
    ///
    /// Over a connection of its own.
    pub fn fetch(
        &self,
        alloc: Global,
        url: &PageUrl,
        agent: &str,
        limit: usize,
        failure: &mut Option<Failure>,
    ) -> Result<HttpReply, WireFault>
        // No octet of the agent ends its line.
        requires { IsAgent agent.now }
        ensures { Tells None limit result }
    {
        let fields = ForwardedFields::none();
        let page = PageRequest {
            url,
            agent,
            fields: &fields,
            limit,
            ending: ConnectionEnding::Close,
        };
        self.fetch_page(alloc, &page, failure)
    }

    /// `fetch` of such a request. If it may use a connection that was kept, and that one ends before an octet
    /// of the response has come, the request is sent once more, over a new connection.
    pub fn fetch_page(
        &self,
        alloc: Global,
        page: &PageRequest<'_, '_>,
        failure: &mut Option<Failure>,
    ) -> Result<HttpReply, WireFault>
        requires { IsAgent page.now.agent.now }
        ensures { Tells None page.now.limit result }
    {
        match self.begin() {
            Ok(deadline) => self.fetch_by(alloc, page, deadline, failure),
            Err(_) => Err(WireFault::Device),
        }
    }

    /// Like `fetch_page`, within the remaining time.
    pub fn fetch_by(
        &self,
        alloc: Global,
        page: &PageRequest<'_, '_>,
        deadline: Deadline,
        failure: &mut Option<Failure>,
    ) -> Result<HttpReply, WireFault>
        requires { IsAgent page.now.agent.now }
        ensures { Tells None page.now.limit result }
    {
        let asked = Asked { page, deadline };
        if let Some(given) = self.fetch_again(alloc, &asked, failure) {
            return given;
        }
        if page.url.is_https() {
            self.fetch_by_tls(alloc, &asked, failure)
        } else {
            self.fetch_straight(alloc, &asked, failure)
        }
    }

    // Fetches a page over a connection that was kept. None if the request wants one of its own, if none is
    // kept, or if it ended before an octet of the response came.
    fn fetch_again(
        &self,
        alloc: Global,
        asked: &Asked<'_>,
        failure: &mut Option<Failure>,
    ) -> Option<Result<HttpReply, WireFault>>
        requires { IsAgent asked.now.page.now.agent.now }
        ensures tells { IfSome result (Tells None asked.now.page.now.limit) }
        ensures asked { asked.now.page.now.ending ≡ Close → result ≡ None }
    {
        if asked.page.ending == ConnectionEnding::Close {
            return None;
        }
        let kept = self.kept.take(asked.page.url, asked.deadline.begun)?;
        let exchanged = if kept.https {
            self.exchange_by_tls(alloc, &kept.stream, &[], asked)
        } else {
            self.exchange_straight(alloc, &kept.stream, asked)
        };
        if exchanged.is_unheard() {
            return None;
        }
        *failure = exchanged.told;
        Some(self.end(alloc, exchanged, kept.stream, kept.requests, asked.page.url))
    }

    // Fetches a page of http from the first address of its server that is within reach and accepts.
    fn fetch_straight(
        &self,
        alloc: Global,
        asked: &Asked<'_>,
        failure: &mut Option<Failure>,
    ) -> Result<HttpReply, WireFault>
        requires plain { is_https asked.now.page.now.url.now ≡ false }
        requires agent { IsAgent asked.now.page.now.agent.now }
        ensures { Tells None asked.now.page.now.limit result }
    {
        let stream = match self.connector().connect(asked.page.url, &asked.deadline) {
            Ok(stream) => stream,
            Err(why) => return Err(fault_for(why, failure)),
        };
        let exchanged = self.exchange_straight(alloc, &stream, asked);
        *failure = exchanged.told;
        self.end(alloc, exchanged, stream, 0, asked.page.url)
    }

    // Fetches a page of https from the first address of its server that is within reach and sends an octet.
    fn fetch_by_tls(
        &self,
        alloc: Global,
        asked: &Asked<'_>,
        failure: &mut Option<Failure>,
    ) -> Result<HttpReply, WireFault>
        requires https { is_https asked.now.page.now.url.now ≡ true }
        requires agent { IsAgent asked.now.page.now.agent.now }
        ensures { Tells None asked.now.page.now.limit result }
    {
        if !self.network.has_tls() {
            return Err(fault_for(Failure::NoTlsProgram, failure));
        }
        let Ok(addresses) = self.network.addresses_of(asked.page.url) else {
            return Err(fault_for(Failure::NoName, failure));
        };
        let mut last = fault_for(Failure::NoName, failure);
        for address in addresses {
            let Some(way) = self.network.way_to(address) else {
                last = fault_for(Failure::Unreachable, failure);
                continue;
            };
            match self.fetch_over(alloc, &way, asked, failure) {
                Err(fault) if *failure == Some(Failure::NoTls) => last = fault,
                ended => return ended,
            }
        }
        Err(last)
    }

    // One exchange with one address. The failure is `NoTls` if the TLS program ended it before an octet
    // came.
    fn fetch_over(
        &self,
        alloc: Global,
        way: &Way,
        asked: &Asked<'_>,
        failure: &mut Option<Failure>,
    ) -> Result<HttpReply, WireFault>
        requires way { MayReach self.now.reach self.now.not_to (socket_ip way.now.address) }
        requires https { is_https asked.now.page.now.url.now ≡ true }
        requires agent { IsAgent asked.now.page.now.agent.now }
        ensures { Tells None asked.now.page.now.limit result }
    {
        *failure = None;
        let header = match tls_header_of(alloc, asked.page.url, way.ip()) {
            Ok(header) => header,
            Err(TlsHeaderFault::NoMemory) => return Err(WireFault::NoMemory),
            Err(TlsHeaderFault::LongName) => return Err(fault_for(Failure::NoName, failure)),
        };
        let stream = match self.connector().connect_program(&asked.deadline) {
            Ok(stream) => stream,
            Err(why) => return Err(fault_for(why, failure)),
        };
        let exchanged = self.exchange_by_tls(alloc, &stream, header.as_slice(), asked);
        *failure = if exchanged.is_unheard() {
            Some(Failure::NoTls)
        } else {
            exchanged.told
        };
        self.end(alloc, exchanged, stream, 0, asked.page.url)
    }

    // An exchange with the site over this connection to it.
    fn exchange_straight(&self, alloc: Global, stream: &TcpStream, asked: &Asked<'_>) -> Exchanged
        requires plain { is_https asked.now.page.now.url.now ≡ false }
        requires agent { IsAgent asked.now.page.now.agent.now }
        ensures { Tells None asked.now.page.now.limit result.given }
    {
        let reader = self.timed(stream, asked.deadline);
        let writer = self.timed(stream, asked.deadline);
        exchange_straight(alloc, reader, writer, asked.page)
    }

    // An exchange with the site over this connection to the TLS program, to which the header goes first.
    fn exchange_by_tls(
        &self,
        alloc: Global,
        stream: &TcpStream,
        header: &[u8],
        asked: &Asked<'_>,
    ) -> Exchanged
        requires https { is_https asked.now.page.now.url.now ≡ true }
        requires agent { IsAgent asked.now.page.now.agent.now }
        ensures { Tells None asked.now.page.now.limit result.given }
    {
        let reader = self.timed(stream, asked.deadline);
        let writer = self.timed(stream, asked.deadline);
        exchange_by_tls(alloc, reader, writer, header, asked.page)
    }

    // Ends an exchange with the page's server, after so many others over its connection, which is kept if it
    // goes on.
    fn end(
        &self,
        alloc: Global,
        exchanged: Exchanged,
        stream: TcpStream,
        before: u32,
        url: &PageUrl,
    ) -> Result<HttpReply, WireFault>
        ensures { result ≡ exchanged.given }
    {
        if exchanged.ending == ConnectionEnding::KeepAlive
            && let Ok(now) = self.network.now()
        {
            self.kept
                .put(alloc, stream, url, before.saturating_add(1), now);
        }
        exchanged.given
    }

    fn connector(&self) -> Connector<'_, R> {
        Connector {
            network: &self.network,
            most: self.limits.connect,
            stopped: &self.stopped,
        }
    }

    fn timed<'a>(
        &'a self,
        stream: &'a TcpStream,
        deadline: Deadline,
    ) -> TimedStream<'a, R, &'a TcpStream>
        ensures step { result.step ≡ self.now.limits.step }
        ensures deadline { result.deadline ≡ deadline }
    {
        let step = self.limits.step;
        self.network.timed(stream, deadline, step, &self.stopped)
    }
}
