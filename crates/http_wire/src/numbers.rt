//! Numbers in members of a head's fields.
//! RFC 9110, section 8.6; RFC 9111, section 1.2.2.
ghost use Rattle.std.specs.Prelude.{◌≡◌};
ghost use Rattle.line_text.specs.Number.{number_of};

use line_text::number_of;

/// 1*DIGIT: the member as a number below 2 to the 64.
pub(crate) fn number_in(member: &[u8]) -> Option<u64>
    ensures { result ≡ number_of member.now }
{
    match str::from_utf8(member) {
        Ok(text) => number_of(text),
        Err(_) => None,
    }
}
