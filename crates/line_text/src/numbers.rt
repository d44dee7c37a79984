//! Numbers in text, without sign, with any leading zeros.
//! Used where a moment, a number, a status or a Content-Length is read.
ghost use Rattle.std.specs.Prelude.{◌≡◌};
ghost use Rattle.std.specs.Char.{is_ascii_digit};
ghost use Rattle.std.specs.List.{list_all};
ghost use Rattle.line_text.specs.Number.{is_numeral, number_of};

/// The number of a word.
pub fn number_of(word: &str) -> Option<u64>
    ensures { result ≡ number_of word.now }
{
    // `parse` would accept a sign.
    if !is_numeral(word.as_bytes()) {
        return None;
    }
    word.parse().ok()
}

/// Whether the octets are one or more digits.
pub fn is_numeral(octets: &[u8]) -> bool
    ensures { result ≡ is_numeral octets.now }
{
    !octets.is_empty() && are_digits(octets)
}

fn are_digits(octets: &[u8]) -> bool
    ensures { result ≡ list_all is_ascii_digit octets.now }
{
    octets.iter().all(|octet| octet.is_ascii_digit())
}
