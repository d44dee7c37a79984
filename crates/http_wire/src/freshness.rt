//! How long a response may be used.
//! RFC 9111, sections 1.2.2, 5.2 and 5.2.2.1.
ghost use Rattle.std.specs.Prelude.{◌≡◌, ℕ, List, MatchOption};
ghost use Rattle.http_wire.specs.Freshness.{HasMaxAge, IsMaxAge, IsNoMaxAge, IsQuoted, WritesSeconds, delta_seconds};
ghost use Rattle.http_wire.specs.Left.{pairs};

use crate::fields::{Field, Members};
use crate::numbers::number_in;
use line_text::is_numeral;
use robots_text::is_same_word;

/// The directive, up to its argument.
const MAX_AGE: &[u8] = b"max-age=";

/// The seconds of the first max-age in Cache-Control.
pub(crate) fn max_age_of(fields: &[Field<'_>]) -> Option<u64>
    ensures { HasMaxAge (pairs fields.now) result }
{
    let mut members = Members::of(fields, b"cache-control");
    while let Some(member) = members.next() {
        if let Some(seconds) = max_age(member) {
            return Some(seconds);
        }
    }
    None
}

// cache-directive = token [ "=" ( token / quoted-string ) ]: the seconds of a max-age.
fn max_age(member: &[u8]) -> Option<u64>
    ensures { MatchOption result (IsNoMaxAge member.now) (IsMaxAge member.now) }
{
    match member.split_at_checked(MAX_AGE.len()) {
        Some((name, argument)) if is_same_word(name, MAX_AGE) => seconds_in(argument),
        _ => None,
    }
}

fn seconds_in(argument: &[u8]) -> Option<u64>
    ensures { MatchOption result ((seconds : ℕ) → ¬ (WritesSeconds argument.now seconds))
        (WritesSeconds argument.now) }
{
    match unquoted(argument) {
        Some(digits) => delta_seconds(digits),
        None => delta_seconds(argument),
    }
}

// quoted-string = DQUOTE *( qdtext / quoted-pair ) DQUOTE: the text between the quotation marks.
fn unquoted(argument: &[u8]) -> Option<&[u8]>
    ensures { MatchOption result ((text : List ℕ) → ¬ (IsQuoted argument.now text))
        (λ text. IsQuoted argument.now text.now) }
{
    let Some(opened) = argument.strip_prefix(b"\"") else {
        return None;
    };
    opened.strip_suffix(b"\"")
}

// delta-seconds = 1*DIGIT: too large a number counts as the largest.
fn delta_seconds(digits: &[u8]) -> Option<u64>
    ensures { result ≡ delta_seconds digits.now }
{
    match number_in(digits) {
        None if is_numeral(digits) => Some(u64::MAX),
        number => number,
    }
}
