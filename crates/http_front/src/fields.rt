//! The fields of a request that count.
//! RFC 9110, section 5.3.
ghost use Rattle.std.specs.Prelude.{◌≡◌, Ok, Err, IfOk, IfErr, option_copied};
ghost use Rattle.http_front.specs.Fields.{has_field, sole, text_of, value_named};

use crate::asked::Misasked;
use http::{HeaderMap, HeaderValue};
use http_header::GetAll;

/// The value of this name, in any case, or none.
pub(crate) fn value_named<'h>(
    headers: &'h HeaderMap<HeaderValue>,
    name: &str,
) -> Result<Option<&'h [u8]>, Misasked>
    ensures ok { IfOk result (λ found.
        value_named name.now headers.now ≡ Ok (option_copied found)) }
    ensures err { IfErr result (λ why. value_named name.now headers.now ≡ Err why) }
{
    sole(headers.get_all(name))
}

// The one value.
fn sole<'h>(values: GetAll<'h, HeaderValue>) -> Result<Option<&'h [u8]>, Misasked>
    ensures ok { IfOk result (λ found. sole values.entry ≡ Ok (option_copied found)) }
    ensures err { IfErr result (λ why. sole values.entry ≡ Err why) }
{
    let mut rest = values.iter();
    let Some(value) = rest.next() else {
        return Ok(None);
    };
    match rest.next() {
        Some(_) => Err(Misasked::Twice),
        None => Ok(Some(value.as_bytes())),
    }
}

/// Whether there is a field of this name.
pub(crate) fn has_field(headers: &HeaderMap<HeaderValue>, name: &str) -> bool
    ensures { result ≡ has_field name.now headers.now }
{
    headers.get(name).is_some()
}

/// The octets as text, if they are UTF-8.
pub(crate) fn text_of(octets: &[u8]) -> Option<&str>
    ensures { option_copied result ≡ text_of octets.now }
{
    match str::from_utf8(octets) {
        Ok(text) => Some(text),
        Err(_) => None,
    }
}
