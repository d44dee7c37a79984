//! The fetcher of a shift or server, by the options.
//! RFC 9309, section 2.2.1; RFC 9110, section 10.1.5.
ghost use Rattle.program_arguments.specs.Contacts.{IsAllowedContact};

use fetchers::{FULL_CLOSURE, TcpFetcher};
use http_client::{AddressBlock, Reach, TimeLimits};
use program_arguments::{Contact, PageConnections};
use std::alloc::AllocError;
use std::net::SocketAddr;

// The agent for robots.txt files. Pages have their job's token.
const AGENT: &str = "crawlgate";

/// How fetches reach sites.
#[derive(Clone, Copy)]
pub(crate) struct Ways<'a> {
    /// The time limits of fetches.
    pub(crate) times: TimeLimits,
    /// The addresses that they may reach.
    pub(crate) reach: Reach,
    /// The addresses that they never reach.
    pub(crate) not_to: &'a [AddressBlock],
    /// The address of the program that opens TLS; without one only `http` is fetched.
    pub(crate) tls_by: Option<SocketAddr>,
    /// For how many seconds a network fault keeps a site closed, if not for its answer's life.
    pub(crate) retry_closed: Option<u64>,
    /// Over which connections pages are fetched.
    pub(crate) page_connections: PageConnections,
    /// How many octets of robots texts are kept together, if that is bounded.
    pub(crate) texts: Option<u64>,
    /// How many octets of a page are read at most, if not the usual number.
    pub(crate) page_limit: Option<u64>,
}

/// A fetcher by these ways, with a contact if given.
pub(crate) fn new_fetcher(
    host: &HostRuntime,
    ways: Ways<'_>,
    contact: &Contact,
) -> Result<TcpFetcher<HostRuntime>, AllocError>
    requires { IsAllowedContact contact.now }
{
    let alloc = host.alloc();
    let fetcher = TcpFetcher::with_tls(alloc, *host, AGENT, ways.times, ways.reach, ways.tls_by)?;
    let fetcher = fetcher.avoiding(Vec::from_slice(alloc, ways.not_to)?);
    let fetcher = fetcher.retrying_closed(ways.retry_closed.unwrap_or(FULL_CLOSURE));
    let fetcher = fetcher.keeping(ways.texts.unwrap_or(u64::MAX));
    let fetcher = match ways.page_limit {
        Some(most) => fetcher.with_page_limit(most as usize),
        None => fetcher,
    };
    let fetcher = match ways.page_connections {
        PageConnections::Kept => fetcher.keeping_alive(),
        PageConnections::Single => fetcher,
    };
    match contact {
        Contact::Untold => Ok(fetcher),
        Contact::Text(text) => fetcher.with_contact(text.as_str()),
    }
}

/// Such a fetcher, which notes what closed sites.
pub(crate) fn new_noting_fetcher(
    host: &HostRuntime,
    ways: Ways<'_>,
    contact: &Contact,
) -> Result<TcpFetcher<HostRuntime>, AllocError>
    requires { IsAllowedContact contact.now }
{
    new_fetcher(host, ways, contact)?.noting_causes()
}
