//! Plain `http` URLs, which the URL Standard writes unchanged, found in one pass.
//! URL Standard, section 4.4. Used by `page_url`, which has all other URLs parsed.
ghost use Rattle.std.specs.Prelude.{◌≡◌, ◌<◌, ◌++◌, IfSome, codes, length, true};
ghost use Rattle.std.specs.List.{position};
ghost use Rattle.path_normal.specs.PlainUrl.{IsPlain, is_plain_path, is_slash};

use crate::normal::is_unreserved;
use crate::page_url::MAX_AUTHORITY;
use crate::plain_host::is_plain_authority;

/// The end of the host with its port, if the text is a plain URL.
pub(crate) fn plain_host_end(text: &str) -> Option<usize>
    ensures { IfSome result (IsPlain text.now) }
{
    let rest = behind_start(text.as_bytes())?;
    let len = slash_place(rest)?;
    if len <= MAX_AUTHORITY && is_plain_authority(&rest[..len]) && is_plain_path(&rest[len + 1..]) {
        Some("http://".len() + len)
    } else {
        None
    }
}

fn behind_start(text: &[u8]) -> Option<&[u8]>
    ensures { IfSome result (λ rest. text.now ≡ codes "http://" ++ rest.now) }
{
    match text {
        [b'h', b't', b't', b'p', b':', b'/', b'/', rest @ ..] => Some(rest),
        _ => None,
    }
}

fn slash_place(text: &[u8]) -> Option<usize>
    ensures place { result ≡ position is_slash text.now }
    ensures within { IfSome result (λ place. place < length text.now) }
{
    text.iter().position(|octet| *octet == b'/')
}

// Whether the octets after the first `/` are a path without dot segments.
fn is_plain_path(path: &[u8]) -> bool
    ensures { result ≡ is_plain_path true path.now }
{
    let mut begins = true;
    for octet in path {
        if *octet == b'/' {
            begins = true;
        } else if is_unreserved(*octet) && !(begins && *octet == b'.') {
            begins = false;
        } else {
            return false;
        }
    }
    true
}
