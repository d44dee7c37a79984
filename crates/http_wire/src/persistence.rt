//! Whether a connection goes on after a response.
//! RFC 9112, sections 6.3, 9.3 and 9.6.
ghost use Rattle.std.specs.Prelude.{◌≡◌};
ghost use Rattle.http_wire.specs.Fields.{values_of};
ghost use Rattle.http_wire.specs.Left.{pairs};
ghost use Rattle.http_wire.specs.Options.{is_close, is_framed_twice, is_given, persists, says_close};
ghost use Rattle.http_wire.specs.Persistence.{MayGoOn};
ghost use Rattle.http_wire.specs.declared.ending.ConnectionEnding.TheVariants.{KeepAlive};

use crate::body::Body;
use crate::ending::ConnectionEnding;
use crate::fields::{Field, Members, Values};
use crate::framing::Framing;
use crate::head::FinalHead;
use robots_text::is_same_word;

/// Whether a connection may go on after a response with this minor version of HTTP/1 and these fields.
pub(crate) fn persists(minor: u8, fields: &[Field<'_>]) -> bool
    ensures { result ≡ persists minor (pairs fields.now) }
{
    minor == 1 && !says_close(fields) && !is_framed_twice(fields)
}

// Whether both Transfer-Encoding and Content-Length tell where the body ends. The first one is believed, but
// such a response may hold another one within it (RFC 9112, section 6.3).
fn is_framed_twice(fields: &[Field<'_>]) -> bool
    ensures { result ≡ is_framed_twice (pairs fields.now) }
{
    is_given(fields, b"transfer-encoding") && is_given(fields, b"content-length")
}

fn is_given(fields: &[Field<'_>], name: &'static [u8]) -> bool
    ensures { result ≡ is_given (values_of name.now (pairs fields.now)) }
{
    Values::of(fields, name).next().is_some()
}

fn says_close(fields: &[Field<'_>]) -> bool
    ensures { result ≡ says_close (pairs fields.now) }
{
    Members::of(fields, b"connection").any(is_close)
}

fn is_close(option: &[u8]) -> bool
    ensures { result ≡ is_close option.now }
{
    is_same_word(option, b"close")
}

/// What becomes of a connection on which this was received last. It goes on if the head lets it, and the body
/// is whole, ended by itself, and nothing was received behind it.
pub(crate) fn ending_after(head: &FinalHead, body: &Body) -> ConnectionEnding
    ensures { result ≡ KeepAlive → MayGoOn head.now body.now }
{
    match head.framing {
        Framing::Counted(_) | Framing::Chunked if head.persists && body.alone && !body.cut => {
            ConnectionEnding::KeepAlive
        }
        _ => ConnectionEnding::Close,
    }
}
