//! The host of a plain URL with its port, as the URL Standard writes it: a domain or an IPv4 address.
//! URL Standard, sections 3.3 and 3.5. Used by `plain_url`.
ghost use Rattle.std.specs.Prelude.{◌≡◌, ◌<◌, ◌++◌, ◌∷◌, ◌^◌, IfSome, IsTrue, decimal, true};
ghost use Rattle.std.specs.Char.{is_ascii_digit};
ghost use Rattle.std.specs.List.{list_all};
ghost use Rattle.path_normal.specs.PlainUrl.{HasPlainHost, IsAddress, IsPlainAuthority, IsPortText, has_leading_zero, is_label_octet, is_plain_domain};
ghost use Rattle.url.specs.Ascii.{dot};

// The port that a URL of `http` does not write.
const DEFAULT_PORT: u16 = 80;

/// Whether the octets are a plain host, with a port or without.
#[tactic(auto, using(crate::proofs::PlainHosts::with_port, crate::proofs::PlainHosts::without_port))]
pub(crate) fn is_plain_authority(octets: &[u8]) -> bool
    ensures { IsTrue result → IsPlainAuthority octets.now }
{
    match cut_at(octets, b':') {
        Some((host, port)) => is_port(port) && is_plain_host(host),
        None => is_plain_host(octets),
    }
}

#[tactic(auto, using(crate::proofs::PlainHosts::domain_host))]
fn is_plain_host(octets: &[u8]) -> bool
    ensures { IsTrue result → HasPlainHost octets.now }
{
    is_plain_domain(octets) || is_address(octets)
}

// Whether the octets are a domain whose labels begin with letters.
fn is_plain_domain(host: &[u8]) -> bool
    ensures { result ≡ is_plain_domain true host.now }
{
    let mut begins = true;
    for octet in host {
        if begins {
            if !octet.is_ascii_lowercase() {
                return false;
            }
            begins = false;
        } else if *octet == b'.' {
            begins = true;
        } else if !is_label_octet(*octet) {
            return false;
        }
    }
    !begins
}

fn is_label_octet(octet: u8) -> bool
    ensures { result ≡ is_label_octet octet }
{
    octet.is_ascii_lowercase() || octet.is_ascii_digit() || octet == b'-'
}

fn is_port(octets: &[u8]) -> bool
    ensures { IsTrue result → IsPortText octets.now }
{
    match number_of(octets) {
        Some(port) => port != DEFAULT_PORT,
        None => false,
    }
}

fn is_address(octets: &[u8]) -> bool
    ensures { IsTrue result → HasPlainHost octets.now }
{
    match address_of(octets) {
        Some(_) => true,
        None => false,
    }
}

// The octets of an IPv4 address in four decimal numbers.
fn address_of(text: &[u8]) -> Option<(u8, u8, u8, u8)>
    ensures { IfSome result
        (λ address. IsAddress text.now address.0 address.1 address.2 address.3) }
{
    let (first, behind_first) = cut_octet(text)?;
    let (second, behind_second) = cut_octet(behind_first)?;
    let (third, last) = cut_octet(behind_second)?;
    Some((first, second, third, octet_of(last)?))
}

// The number before the first dot, and what follows the dot.
fn cut_octet(text: &[u8]) -> Option<(u8, &[u8])>
    ensures { IfSome result
        (λ cut. (cut.0 < 2 ^ 8) × (text.now ≡ decimal cut.0 ++ dot ∷ cut.1.now)) }
{
    let (digits, rest) = cut_at(text, b'.')?;
    Some((octet_of(digits)?, rest))
}

fn octet_of(digits: &[u8]) -> Option<u8>
    ensures { IfSome result (λ n. (n < 2 ^ 8) × (digits.now ≡ decimal n)) }
{
    u8::try_from(number_of(digits)?).ok()
}

// The number that the octets write in decimal without leading zeros.
#[tactic(auto, using(crate::proofs::PlainHosts::number_spelled))]
fn number_of(digits: &[u8]) -> Option<u16>
    ensures { IfSome result (λ n. (n < 2 ^ 16) × (digits.now ≡ decimal n)) }
{
    if !are_digits(digits) || has_leading_zero(digits) {
        return None;
    }
    text_of(digits)?.parse().ok()
}

fn text_of(digits: &[u8]) -> Option<&str>
    ensures { IfSome result (λ text. text.now ≡ digits.now) }
{
    std::str::from_utf8(digits).ok()
}

fn are_digits(octets: &[u8]) -> bool
    ensures { result ≡ list_all is_ascii_digit octets.now }
{
    octets.iter().all(|octet| octet.is_ascii_digit())
}

fn has_leading_zero(digits: &[u8]) -> bool
    ensures { result ≡ has_leading_zero digits.now }
{
    digits.len() > 1 && digits[0] == b'0'
}

// The octets before the first one like this, and those behind it.
fn cut_at(text: &[u8], octet: u8) -> Option<(&[u8], &[u8])>
    ensures { IfSome result (λ cut. text.now ≡ cut.0.now ++ octet ∷ cut.1.now) }
{
    let place = text.iter().position(|at| *at == octet)?;
    Some((&text[..place], &text[place + 1..]))
}
