//! The host and port where a page's server listens.
//! RFC 3986, section 3.2; RFC 9110, section 4.2.1.
ghost use Rattle.std.specs.Prelude.{◌≡◌, ◌++◌, ℕ, List, Option, ◌^◌, ◌<◌, IfSome, unwrap_or};
ghost use Rattle.url.specs.declared.host.Host.{Host};
ghost use Rattle.url.specs.declared.scheme.SchemeType.TheVariants.{SpecialNotFile};
ghost use Rattle.url.specs.Host.{host_text, IsHostOf};
ghost use Rattle.path_normal.specs.PageText.{is_https};
ghost use Rattle.path_normal.specs.PageUrl.{port_text};
ghost use Rattle.http_client.specs.HostPort.{IsHostPortOf, bare_host, scheme_port};

use path_normal::PageUrl;

/// The default port of `http`.
const HTTP_PORT: u16 = 80;

/// The default port of `https`.
const HTTPS_PORT: u16 = 443;

/// The host and the port of a page.
#[derive(Clone, Copy, PartialEq, Eq)]
pub struct HostPort<'a> {
    /// A name or an address, without the brackets of IPv6 in URLs.
    pub host: &'a str,
    pub port: u16,
}

/// The server of a page.
pub fn host_port_of(url: &PageUrl) -> HostPort<'_>
    ensures { IsHostPortOf url.now result.host.now result.port }
{
    let (host, tail) = split_host(url.host());
    HostPort {
        host,
        port: port_of(tail, scheme_port(url)),
    }
}

fn scheme_port(url: &PageUrl) -> u16
    ensures { result ≡ scheme_port (is_https url.now) }
{
    if url.is_https() {
        HTTPS_PORT
    } else {
        HTTP_PORT
    }
}

// The host, without brackets, and what follows it.
fn split_host(authority: &str) -> (&str, &str)
    ensures { (host : Host (List ℕ)) (port : Option ℕ) → IsHostOf SpecialNotFile host
        → authority.now ≡ host_text host ++ port_text port
        → (result.0.now ≡ bare_host host) × (result.1.now ≡ port_text port) }
{
    match authority.strip_prefix('[') {
        Some(bracketed) => bracketed.split_once(']').unwrap_or((bracketed, "")),
        None => match authority.find(':') {
            Some(end) => authority.split_at(end),
            None => (authority, ""),
        },
    }
}

// The port after a host, or the scheme's.
fn port_of(tail: &str, own: u16) -> u16
    ensures { (port : Option ℕ) → IfSome port (λ n. n < 2 ^ 16) → tail.now ≡ port_text port
        → result ≡ unwrap_or port own }
{
    match tail.strip_prefix(':') {
        Some(digits) => digits.parse().unwrap_or(own),
        None => own,
    }
}
