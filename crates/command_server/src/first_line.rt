//! Which first line a session takes.
//! Used by all that serve clients over a connection. RFC 9112, section 3, has request lines of HTTP.
ghost use Rattle.std.specs.Prelude.{◌≡◌};
ghost use Rattle.command_lines.specs.CallOf.{has_line_octets};
ghost use Rattle.command_server.specs.FirstLines.{is_request_line, is_turned_away};

// The octets of ` HTTP/1.1`.
const VERSION_OCTETS: usize = 9;

/// Which first line a session takes. It is always answered.
#[derive(Clone, Copy, Debug, PartialEq, Eq)]
pub enum FirstLine {
    /// Any line.
    Any,
    /// Any but a request line of HTTP/1.0 or HTTP/1.1, and one with an octet that no command has, as TLS
    /// begins with. The reply to such a line ends the session: a web page can make a browser send it to a port
    /// of its own machine, followed by lines of the page.
    NoRequest,
}

impl FirstLine {
    /// Whether a session ends after this line with this reading.
    pub(crate) fn turns_away(self, number: u64, line: &[u8]) -> bool
        ensures { result ≡ is_turned_away self number line.now }
    {
        match self {
            FirstLine::Any => false,
            FirstLine::NoRequest => number == 0 && (is_request_line(line) || !is_text(line)),
        }
    }
}

// Whether a line has only octets of command lines.
fn is_text(line: &[u8]) -> bool
    ensures { result ≡ has_line_octets line.now }
{
    line.iter().all(|octet| (32..=126).contains(octet))
}

// Whether a line ends like an HTTP/1.0 or HTTP/1.1 request line.
fn is_request_line(line: &[u8]) -> bool
    ensures { result ≡ is_request_line line.now }
{
    let end = &line[line.len().saturating_sub(VERSION_OCTETS)..];
    end == b" HTTP/1.0".as_slice() || end == b" HTTP/1.1".as_slice()
}
