//! The user of Basic credentials, who is to be a product token. The password does not count.
//! RFC 7617, section 2; RFC 9110, section 11.4.
ghost use Rattle.std.specs.Prelude.{◌≡◌, ◌⊎◌, ◌≤◌, Ok, Err, IfOk, IfErr, length, option_copied};
ghost use Rattle.http_front.specs.Credentials.{behind_spaces, encoded_in, space_len, user_in, user_len, user_of, user_or_none};

use crate::asked::Misasked;
use base64::DecodeAllocError;
use base64::engine::general_purpose::STANDARD;
use robots_text::is_same_word;
use std::alloc::Global;

/// The user of the credentials.
pub(crate) fn user_of(alloc: Global, credentials: &[u8]) -> Result<Vec<u8>, Misasked>
    ensures ok { IfOk result (λ user. user_or_none (user_of credentials.now) ≡ Ok user.items) }
    ensures err { IfErr result (λ why. (why ≡ Misasked.NoMemory)
        ⊎ (user_or_none (user_of credentials.now) ≡ Err why)) }
{
    let Some(encoded) = encoded_in(credentials) else {
        return Err(Misasked::NoCredentials);
    };
    let pair = match STANDARD.decode(alloc, encoded) {
        Ok(pair) => pair,
        Err(DecodeAllocError::DecodeError(_)) => return Err(Misasked::NoCredentials),
        Err(DecodeAllocError::OutOfMemory) => return Err(Misasked::NoMemory),
    };
    match user_in(pair.as_slice()) {
        Some(user) => Ok(Vec::from_slice(alloc, user)?),
        None => Err(Misasked::NoCredentials),
    }
}

// credentials = "Basic" 1*SP token68
fn encoded_in(credentials: &[u8]) -> Option<&[u8]>
    ensures { option_copied result ≡ encoded_in credentials.now }
{
    if credentials.len() < 5 {
        return None;
    }
    let (scheme, behind) = credentials.split_at(5);
    if is_same_word(scheme, b"basic") {
        behind_spaces(behind)
    } else {
        None
    }
}

fn behind_spaces(octets: &[u8]) -> Option<&[u8]>
    ensures { option_copied result ≡ behind_spaces octets.now }
{
    let spaces = space_len(octets);
    if spaces > 0 {
        Some(&octets[spaces..])
    } else {
        None
    }
}

fn space_len(octets: &[u8]) -> usize
    ensures value { result ≡ space_len octets.now }
    ensures within { result ≤ length octets.now }
{
    octets.iter().take_while(|octet| **octet == b' ').count()
}

// user-pass = user-id ":" password
fn user_in(pair: &[u8]) -> Option<&[u8]>
    ensures { option_copied result ≡ user_in pair.now }
{
    let end = user_len(pair);
    if 0 < end && end < pair.len() {
        Some(&pair[..end])
    } else {
        None
    }
}

fn user_len(pair: &[u8]) -> usize
    ensures value { result ≡ user_len pair.now }
    ensures within { result ≤ length pair.now }
{
    pair.iter().take_while(|octet| **octet != b':').count()
}
