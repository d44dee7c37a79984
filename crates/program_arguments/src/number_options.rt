//! The number options: their names and ranges. The arguments are built and read by this table;
//! docs/crawlgate.1.md describes it.
use client_connections::{AHEAD_SECONDS, MAX_CONNECTIONS, PATIENCE_SECONDS};
use gate_core::{MAX_AUTHORITIES, MAX_LOG, MAX_PLACES};
use http_client::{CONNECT_SECONDS, STEP_SECONDS, WHOLE_SECONDS};
use job_line::MAX_WORKERS;
use permit_book::{LAST_GENERATION, MAX_SLOTS};
use robots_text::MAX_TEXT;

// The least octets that a journal's files may be given: more than its longest entry takes.
const MIN_JOURNAL_ROOM: u64 = 1 << 23;

// The most octets that files or texts may be given: those that a file may have.
const MAX_ROOM: u64 = (1 << 63) - 1;

// The most HTTP connections at a time.
const MAX_HTTP_CONNECTIONS: u64 = 10_000;

// The most threads that fetch pages for HTTP clients.
const MAX_FETCHERS: u64 = 1_024;

/// An option that is a number from `least` to `most`.
#[derive(Clone, Copy)]
pub(crate) struct NumberOption {
    pub(crate) name: &'static str,
    pub(crate) least: u64,
    pub(crate) most: u64,
}

/// The permits of a gate.
pub(crate) const SLOTS: NumberOption = NumberOption {
    name: "slots",
    least: 1,
    most: MAX_SLOTS,
};

/// The first generation of a replay.
pub(crate) const GENERATION: NumberOption = NumberOption {
    name: "generation",
    least: 1,
    most: LAST_GENERATION,
};

/// The entries of a gate.
pub(crate) const LOG: NumberOption = NumberOption {
    name: "log",
    least: 1,
    most: MAX_LOG,
};

/// The sites that a gate knows.
pub(crate) const AUTHORITIES: NumberOption = NumberOption {
    name: "authorities",
    least: 1,
    most: MAX_AUTHORITIES,
};

/// The permits of one site.
pub(crate) const PLACES: NumberOption = NumberOption {
    name: "places",
    least: 1,
    most: MAX_PLACES,
};

/// The workers of a shift.
pub(crate) const JOBS: NumberOption = NumberOption {
    name: "workers",
    least: 1,
    most: MAX_WORKERS,
};

/// The pause at a site, in a shift.
pub(crate) const DELAY: NumberOption = NumberOption {
    name: "delay",
    least: 0,
    most: 600,
};

/// The time of a connection.
pub(crate) const CONNECT: NumberOption = NumberOption {
    name: "connect-timeout",
    least: 1,
    most: CONNECT_SECONDS,
};

/// The time of a read or a write.
pub(crate) const READ: NumberOption = NumberOption {
    name: "read-timeout",
    least: 1,
    most: STEP_SECONDS,
};

/// The time of a whole fetch.
pub(crate) const FETCH: NumberOption = NumberOption {
    name: "fetch-timeout",
    least: 1,
    most: WHOLE_SECONDS,
};

/// How long a network fault keeps a site closed.
pub(crate) const RETRY_CLOSED: NumberOption = NumberOption {
    name: "retry-closed",
    least: 60,
    most: 86_400,
};

/// The port for clients.
pub(crate) const PORT: NumberOption = NumberOption {
    name: "port",
    least: 0,
    most: 65_535,
};

/// The octets of the robots texts that a server keeps.
pub(crate) const TEXTS: NumberOption = NumberOption {
    name: "texts",
    least: MAX_TEXT as u64,
    most: MAX_ROOM,
};

/// The octets of a journal's files.
pub(crate) const JOURNAL_ROOM: NumberOption = NumberOption {
    name: "journal-room",
    least: MIN_JOURNAL_ROOM,
    most: MAX_ROOM,
};

/// The port for overseers.
pub(crate) const SEAL_PORT: NumberOption = NumberOption {
    name: "seal-port",
    least: 0,
    most: 65_535,
};

/// The octets of a page.
pub(crate) const PAGE_LIMIT: NumberOption = NumberOption {
    name: "page-limit",
    least: 1,
    most: 67_108_864,
};

/// The port for HTTP clients.
pub(crate) const HTTP: NumberOption = NumberOption {
    name: "http",
    least: 0,
    most: 65_535,
};

/// The HTTP connections at a time.
pub(crate) const HTTP_CONNECTIONS: NumberOption = NumberOption {
    name: "http-connections",
    least: 1,
    most: MAX_HTTP_CONNECTIONS,
};

/// The threads that fetch pages for HTTP clients.
pub(crate) const FETCHERS: NumberOption = NumberOption {
    name: "fetchers",
    least: 1,
    most: MAX_FETCHERS,
};

/// The workers of a server.
pub(crate) const CLIENTS: NumberOption = NumberOption {
    name: "workers",
    least: 1,
    most: MAX_WORKERS,
};

/// The connections of a server.
pub(crate) const CONNECTIONS: NumberOption = NumberOption {
    name: "connections",
    least: 1,
    most: MAX_CONNECTIONS,
};

/// How long to wait for a client.
pub(crate) const PATIENCE: NumberOption = NumberOption {
    name: "patience",
    least: 1,
    most: PATIENCE_SECONDS,
};

/// How long the gate may fetch for lines that a client sent ahead.
pub(crate) const AHEAD: NumberOption = NumberOption {
    name: "ahead",
    least: 1,
    most: AHEAD_SECONDS,
};

/// The permits of one client.
pub(crate) const CLIENT_PERMITS: NumberOption = NumberOption {
    name: "client-permits",
    least: 1,
    most: MAX_SLOTS,
};

/// The sites that one client may make known.
pub(crate) const CLIENT_AUTHORITIES: NumberOption = NumberOption {
    name: "client-authorities",
    least: 1,
    most: MAX_AUTHORITIES,
};

/// The entries of one client.
pub(crate) const CLIENT_ENTRIES: NumberOption = NumberOption {
    name: "client-entries",
    least: 1,
    most: MAX_LOG,
};
