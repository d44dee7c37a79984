//! The number options as the help has them: with their defaults and what they are.
//! docs/crawlgate.1.md describes them.
ghost use Rattle.std.specs.Prelude.{◌≡◌, true};

use crate::number_options as options;
use crate::number_options::NumberOption;
use client_connections::{MAX_CONNECTIONS, PATIENCE_SECONDS};
use gate_core::{Limits, MAX_AUTHORITIES, MAX_LOG, MAX_PLACES};
use http_client::{CONNECT_SECONDS, STEP_SECONDS, WHOLE_SECONDS};

/// An argument that is a number.
#[derive(Clone, Copy)]
pub(crate) struct NumberArgument {
    pub(crate) option: NumberOption,
    /// The default, if any.
    pub(crate) usual: Option<u64>,
    /// The help before its range.
    pub(crate) about: &'static str,
    /// The options that must stand beside it.
    pub(crate) needs: &'static [&'static str],
}

/// The permits of a gate.
pub(crate) const SLOTS: NumberArgument = NumberArgument {
    option: options::SLOTS,
    usual: Some(1_024),
    about: "Permits that may be outstanding at once",
    needs: &[],
};

/// The first generation of a replay.
pub(crate) const GENERATION: NumberArgument = NumberArgument {
    option: options::GENERATION,
    usual: Some(1),
    about: "Generation from which the permits of each slot are numbered",
    needs: &[],
};

/// The entries of a gate.
pub(crate) const LOG: NumberArgument = NumberArgument {
    option: options::LOG,
    usual: Some(MAX_LOG),
    about: "Entries that the history may have",
    needs: &[],
};

/// The sites that a gate knows.
pub(crate) const AUTHORITIES: NumberArgument = NumberArgument {
    option: options::AUTHORITIES,
    usual: Some(MAX_AUTHORITIES),
    about: "Sites (a host with its port) known at once",
    needs: &[],
};

/// The permits of one site.
pub(crate) const PLACES: NumberArgument = NumberArgument {
    option: options::PLACES,
    usual: Some(MAX_PLACES),
    about: "Permits that may be outstanding for one site at once",
    needs: &[],
};

/// The workers of a shift.
pub(crate) const JOBS: NumberArgument = NumberArgument {
    option: options::JOBS,
    usual: Some(4),
    about: "Jobs done at once",
    needs: &[],
};

/// The pause at a site, in a shift.
pub(crate) const DELAY: NumberArgument = NumberArgument {
    option: options::DELAY,
    usual: Some(0),
    about: "Minimum seconds between the starts of two fetches from one site",
    needs: &[],
};

/// The time of a connection.
pub(crate) const CONNECT: NumberArgument = NumberArgument {
    option: options::CONNECT,
    usual: Some(CONNECT_SECONDS),
    about: "Seconds to connect to one address",
    needs: &[],
};

/// The time of a read or a write.
pub(crate) const READ: NumberArgument = NumberArgument {
    option: options::READ,
    usual: Some(STEP_SECONDS),
    about: "Seconds for one read or one write",
    needs: &[],
};

/// The time of a whole fetch.
pub(crate) const FETCH: NumberArgument = NumberArgument {
    option: options::FETCH,
    usual: Some(WHOLE_SECONDS),
    about: "Seconds for a page, or for a robots.txt with its redirects",
    needs: &[],
};

/// How long a network fault keeps a site closed.
pub(crate) const RETRY_CLOSED: NumberArgument = NumberArgument {
    option: options::RETRY_CLOSED,
    usual: None,
    about: "Seconds until a site closed by a network fault has its robots.txt fetched anew (a day if not given)",
    needs: &[],
};

/// The port for clients.
pub(crate) const PORT: NumberArgument = NumberArgument {
    option: options::PORT,
    usual: Some(0),
    about: "Port of 127.0.0.1 to listen on; 0 takes a free one",
    needs: &[],
};

/// The port for overseers.
pub(crate) const SEAL_PORT: NumberArgument = NumberArgument {
    option: options::SEAL_PORT,
    usual: None,
    about: "Another port, only for SEAL, INFO, WHY, STATE and QUIT; 0 takes a free one",
    needs: &[],
};

/// The octets of a page.
pub(crate) const PAGE_LIMIT: NumberArgument = NumberArgument {
    option: options::PAGE_LIMIT,
    usual: Some(1_048_576),
    about: "Bytes read of a page",
    needs: &[],
};

/// The port for HTTP clients.
pub(crate) const HTTP: NumberArgument = NumberArgument {
    option: options::HTTP,
    usual: None,
    about: "Port of 127.0.0.1 on which HTTP clients fetch pages through the gate; 0 takes a free one",
    needs: &[],
};

/// The HTTP connections at a time.
pub(crate) const HTTP_CONNECTIONS: NumberArgument = NumberArgument {
    option: options::HTTP_CONNECTIONS,
    usual: None,
    about: "HTTP connections served at once (1024 if not given)",
    needs: &[],
};

/// The threads that fetch pages for HTTP clients.
pub(crate) const FETCHERS: NumberArgument = NumberArgument {
    option: options::FETCHERS,
    usual: None,
    about: "Pages fetched for HTTP clients at once (as many as --workers if not given)",
    needs: &[],
};

/// The pause at a site, for HTTP clients of a server.
pub(crate) const DELAY_OF_SERVER: NumberArgument = NumberArgument {
    option: options::DELAY,
    usual: None,
    about: "Minimum seconds between the starts of two visits to one site for HTTP clients (0 if not given)",
    needs: &[],
};

/// The workers of a server.
pub(crate) const CLIENTS: NumberArgument = NumberArgument {
    option: options::CLIENTS,
    usual: Some(4),
    about: "Clients served at once",
    needs: &[],
};

/// The connections of a server.
pub(crate) const CONNECTIONS: NumberArgument = NumberArgument {
    option: options::CONNECTIONS,
    usual: Some(MAX_CONNECTIONS),
    about: "Connections accepted before the server ends",
    needs: &[],
};

/// How long to wait for a client.
pub(crate) const PATIENCE: NumberArgument = NumberArgument {
    option: options::PATIENCE,
    usual: Some(PATIENCE_SECONDS),
    about: "Seconds to wait for a client's next line",
    needs: &[],
};

/// How long the gate may fetch for lines that a client sent ahead.
pub(crate) const AHEAD: NumberArgument = NumberArgument {
    option: options::AHEAD,
    usual: None,
    about: "Seconds that fetches for lines sent ahead may take (no limit if not given)",
    needs: &[],
};

/// The permits of one client.
pub(crate) const CLIENT_PERMITS: NumberArgument = NumberArgument {
    option: options::CLIENT_PERMITS,
    usual: None,
    about: "Permits that one client may hold (all if not given)",
    needs: &[],
};

/// The sites that one client may make known.
pub(crate) const CLIENT_AUTHORITIES: NumberArgument = NumberArgument {
    option: options::CLIENT_AUTHORITIES,
    usual: None,
    about: "Sites that one client may make known (all if not given)",
    needs: &[],
};

/// The entries of one client.
pub(crate) const CLIENT_ENTRIES: NumberArgument = NumberArgument {
    option: options::CLIENT_ENTRIES,
    usual: None,
    about: "History entries that one client may make (all if not given)",
    needs: &[],
};

/// The octets of the robots texts that a server keeps.
pub(crate) const TEXTS: NumberArgument = NumberArgument {
    option: options::TEXTS,
    usual: None,
    about: "Bytes of robots.txt files kept in all; a file past them closes its site (no limit if not given)",
    needs: &[],
};

/// The octets of a journal's files.
pub(crate) const JOURNAL_ROOM: NumberArgument = NumberArgument {
    option: options::JOURNAL_ROOM,
    usual: None,
    about: "Bytes that the journal's files may have together (no limit if not given)",
    needs: &["journal"],
};

/// Whether the defaults of the limits are those of a book. Always true.
pub(crate) fn limits_are_usual() -> bool
    ensures { result ≡ true }
{
    let usual = Limits::usual();
    SLOTS.usual == Some(usual.slots)
        && GENERATION.usual == Some(usual.first_generation)
        && LOG.usual == Some(usual.log_limit)
        && AUTHORITIES.usual == Some(usual.authority_limit)
        && PLACES.usual == Some(usual.places)
}
