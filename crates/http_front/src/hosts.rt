//! The hosts of the loopback. A page whose name is led to this machine has another host.
//! RFC 9110, section 7.2; RFC 6761, section 6.3.
ghost use Rattle.std.specs.Prelude.{◌≡◌};
ghost use Rattle.std.specs.List.{list_all};
ghost use Rattle.std.specs.Char.{is_ascii_digit};
ghost use Rattle.http_front.specs.Hosts.{is_loopback, is_named, is_port};

use robots_text::is_same_word;

/// Whether the value of `Host` is an address or the name of the loopback, with any port.
pub(crate) fn is_loopback(host: &[u8]) -> bool
    ensures { result ≡ is_loopback host.now }
{
    is_named(b"127.0.0.1", host) || is_named(b"[::1]", host) || is_named(b"localhost", host)
}

fn is_named(name: &[u8], host: &[u8]) -> bool
    ensures { result ≡ is_named name.now host.now }
{
    let end = name.len().min(host.len());
    is_same_word(&host[..end], name) && is_port(&host[end..])
}

// [ ":" port ]
fn is_port(octets: &[u8]) -> bool
    ensures { result ≡ is_port octets.now }
{
    match octets {
        [] => true,
        [first, digits @ ..] => *first == b':' && are_digits(digits),
    }
}

fn are_digits(octets: &[u8]) -> bool
    ensures { result ≡ list_all is_ascii_digit octets.now }
{
    octets.iter().all(|octet| octet.is_ascii_digit())
}
