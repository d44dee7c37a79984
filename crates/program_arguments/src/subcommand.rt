//! The subcommands of the program, and their options.
//! See docs/crawlgate.1.md.
use client_connections::Connections;
use gate_core::Limits;
use http_client::{AddressBlock, Reach, TimeLimits};
use journal::SyncPolicy;
use path_normal::Schemes;
use robots_text::Token;
use std::net::SocketAddr;

/// What the program should do.
#[derive(Drop)]
pub enum Subcommand {
    /// Reads replay lines from standard input, and writes the replies to standard output.
    Replay(ReplayOptions),
    /// Reads replay lines from standard input, and writes the text of the book's history at the end.
    Export(ReplayOptions),
    /// Reads a robots text from standard input, and explains each of its lines.
    Lines(Notes),
    /// Says whether a robots text allows URLs.
    Check(CheckOptions),
    /// Audits a history, whole or in segments, from standard input, with pages of these schemes.
    Audit(Schemes),
    /// Workers do the jobs on standard input, and the report goes to standard output.
    Shift(ShiftOptions),
    /// Workers serve clients of this machine.
    Serve(ServeOptions),
}

/// How to replay lines.
#[derive(Clone, Copy)]
pub struct ReplayOptions {
    /// The book's limits.
    pub limits: Limits,
    /// The schemes that the lines' pages may have.
    pub schemes: Schemes,
}

/// Whether to note what may surprise in a robots text.
#[derive(Clone, Copy, Debug, PartialEq, Eq)]
pub enum Notes {
    /// Notes go to standard error.
    Told,
    /// No notes.
    Untold,
}

/// The options of a shift.
#[derive(Drop)]
pub struct ShiftOptions {
    /// How many jobs are done at once.
    pub workers: u64,
    /// The least seconds, from 0 to 600, between the starts of two fetches at a site.
    pub delay: u64,
    /// Its book's limits.
    pub limits: Limits,
    /// The time limits of its fetches.
    pub times: TimeLimits,
    /// The addresses that fetches may reach.
    pub reach: Reach,
    /// The addresses that they never reach.
    pub not_to: Vec<AddressBlock>,
    /// The address of the program that opens TLS; without one only `http` is fetched.
    pub tls_by: Option<SocketAddr>,
    /// The contact that requests name after the agent.
    pub contact: Contact,
    /// For how many seconds, from 60 to 86,400, a network fault keeps a site closed; without them for its
    /// answer's life.
    pub retry_closed: Option<u64>,
    /// Over which connections pages are fetched.
    pub page_connections: PageConnections,
    pub told: ShiftOutput,
    pub bad_jobs: BadJobs,
    /// The pipe, if any: the shift ends early once no process holds it open for writing.
    pub until: Option<String>,
    /// The journal, if any: the gate's history is written there before it is told.
    pub journal: Option<JournalOptions>,
}

/// What a line that is no job does to a shift.
#[derive(Clone, Copy, Debug, PartialEq, Eq)]
pub enum BadJobs {
    /// Ends the shift before any fetch.
    End,
    /// It is reported, and the other jobs are done.
    Skip,
}

/// Where clients connect.
#[derive(Drop)]
pub enum ListenAddress {
    /// At this port of the loopback; 0 for any free one.
    Port(u16),
    /// At a socket file of this path.
    Socket(String),
}

/// How a server serves HTTP clients.
#[derive(Drop)]
pub struct HttpOptions {
    /// Where they connect.
    pub place: ListenAddress,
    /// How many connections they have at a time, from 1 to 10,000.
    pub connections: u64,
    /// How many threads fetch pages for them, from 1 to 1,024.
    pub fetchers: u64,
    /// How many seconds lie at least between the begins of two of their visits of one site, at most 600.
    pub delay: u64,
    /// Whether a site's own word on when to come again counts.
    pub retry_after: RetryAfter,
    /// What becomes of a client's conditions and preferences.
    pub fields: ClientFields,
}

/// Whether If-None-Match, If-Modified-Since, Accept and Accept-Language of a client go to the site.
#[derive(Clone, Copy, Debug, PartialEq, Eq)]
pub enum ClientFields {
    /// They do.
    Forwarded,
    /// Each request to a site is the same.
    Dropped,
}

/// Whether a site's Retry-After counts: the one of a response with status 429 or 503.
#[derive(Clone, Copy, Debug, PartialEq, Eq)]
pub enum RetryAfter {
    /// The site is left alone for that time.
    Heeded,
    /// It is told to the client alone.
    Ignored,
}

/// The folder of a gate's journal, when it is synced, and its room.
#[derive(Drop)]
pub struct JournalOptions {
    /// The folder of its files.
    pub folder: String,
    pub sync: SyncPolicy,
    /// How many octets its files may have together, if that is bounded.
    pub room: Option<u64>,
}

/// Over which connections pages are fetched. A robots.txt always has one of its own.
#[derive(Clone, Copy, Debug, PartialEq, Eq)]
pub enum PageConnections {
    /// Each page over one of its own.
    Single,
    /// Over one that stays open for the next page of the same scheme, host and port, if the site lets it.
    Kept,
}

/// Whom a site may write to about a crawl.
#[derive(Drop)]
pub enum Contact {
    /// Requests name nobody.
    Untold,
    /// Requests have this comment after the agent, in parentheses: 1 to 256 octets from 32 to 126, without
    /// parentheses and backslashes.
    Text(String),
}

/// How long the gate fetches for lines that a client sent ahead of the replies.
#[derive(Clone, Copy, Debug, PartialEq, Eq)]
pub enum Ahead {
    /// As long as it takes.
    Unbounded,
    /// For so many seconds, from 1 to 3,600, between two waits for the client.
    Seconds(u64),
}

/// The options of a server.
#[derive(Drop)]
pub struct ServeOptions {
    pub place: ListenAddress,
    /// Where overseers connect, if they have a place of their own.
    pub seal_place: Option<ListenAddress>,
    /// How HTTP clients are served, if they are.
    pub http: Option<HttpOptions>,
    /// How many clients are served at once.
    pub workers: u64,
    /// How many connections are accepted in all.
    pub connections: Connections,
    /// The book's limits.
    pub limits: Limits,
    /// The time limits of fetches.
    pub times: TimeLimits,
    /// The addresses that fetches may reach.
    pub reach: Reach,
    /// The addresses that they never reach.
    pub not_to: Vec<AddressBlock>,
    /// The address of the program that opens TLS; without one only `http` is fetched.
    pub tls_by: Option<SocketAddr>,
    /// The contact that requests name after the agent.
    pub contact: Contact,
    /// For how many seconds, from 60 to 86,400, a network fault keeps a site closed; without them for its
    /// answer's life.
    pub retry_closed: Option<u64>,
    /// Over which connections pages are fetched.
    pub page_connections: PageConnections,
    /// How many octets of robots texts are kept together, if that is bounded.
    pub texts: Option<u64>,
    /// How many octets of a page are read at most, from 1 to 67,108,864.
    pub page_limit: u64,
    /// The seconds to wait for a client between two line ends.
    pub patience: u64,
    /// How long the gate may fetch for lines sent ahead.
    pub ahead: Ahead,
    /// How many permits a client may have out, if that is bounded.
    pub client_permits: Option<u64>,
    /// How many authorities a client may make known, if that is bounded.
    pub client_authorities: Option<u64>,
    /// How many entries of the history a client may make, if that is bounded.
    pub client_entries: Option<u64>,
    /// The journal, if any: the gate's history is written there before it is told.
    pub journal: Option<JournalOptions>,
}

/// The options of a check.
#[derive(Drop)]
pub struct CheckOptions {
    /// The crawler's token.
    pub token: Token,
    pub text: CheckedText,
    pub urls: CheckedUrls,
    pub detail: CheckDetail,
}

/// What a check writes for each URL.
#[derive(Clone, Copy)]
pub enum CheckDetail {
    /// The verdict and the line that decides.
    Plain,
    /// Before it, what its token's groups and rules say of the URL.
    Explained,
}

/// The source of the robots text.
#[derive(Drop)]
pub enum CheckedText {
    /// The input, or its part before the URLs if these are its lines.
    Input,
    /// The file of this name.
    File(String),
}

/// The source of the URLs.
#[derive(Drop)]
pub enum CheckedUrls {
    /// Arguments of the command line.
    Words(Vec<String>),
    /// Lines of the input, after the robots text if that is there too.
    Input,
}

/// What a shift writes.
#[derive(Clone, Copy, Debug, PartialEq, Eq)]
pub enum ShiftOutput {
    /// The outcomes of its jobs.
    Outcomes,
    /// A table of its hops.
    Table,
    /// The text of its book's history.
    History,
}
