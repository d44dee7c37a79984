//! The page that a URL of a check names: a path has any host, and https is read as http.
//! Only path and query count; RFC 9309, section 2.2.2.
ghost use Rattle.std.specs.Prelude.{◌≡◌, ◌++◌, false, true, IfNone, IfSome, drop};
ghost use Rattle.robots_check.specs.Targets.{IsReadAs, begins_https, page_named, page_octets, page_read};

use path_normal::{PageUrl, Unread, UrlFault};
use robots_text::is_same_word;
use std::alloc::Global;

pub(crate) fn read_page(alloc: Global, url: &[u8]) -> Result<PageUrl, Unread>
    ensures { IsReadAs (page_named url.now) result }
{
    let (front, rest) = split_url(url);
    if front.is_empty() {
        return read_octets(alloc, rest);
    }
    let mut octets = Vec::from_slice(alloc, front)?;
    octets.extend_from_slice(rest)?;
    read_octets(alloc, octets.as_slice())
}

// A prefix for the URL, and the part of the URL after it.
fn split_url(url: &[u8]) -> (&[u8], &[u8])
    ensures { page_octets url.now ≡ result.0.now ++ result.1.now }
{
    match (url, behind_https(url)) {
        ([b'/', ..], _) => (b"http://h".as_slice(), url),
        (_, Some(rest)) => (b"http:".as_slice(), rest),
        _ => (b"".as_slice(), url),
    }
}

/// What follows a leading `https:`, in any case.
pub(crate) fn behind_https(url: &[u8]) -> Option<&[u8]>
    ensures some { IfSome result
        (λ rest. (begins_https url.now ≡ true) × (rest.now ≡ drop 6 url.now)) }
    ensures none { IfNone result (begins_https url.now ≡ false) }
{
    match url {
        [one, two, three, four, five, six, rest @ ..]
            if is_same_word(&[*one, *two, *three, *four, *five, *six], b"https:") => Some(rest),
        _ => None,
    }
}

fn read_octets(alloc: Global, octets: &[u8]) -> Result<PageUrl, Unread>
    ensures { IsReadAs (page_read octets.now) result }
{
    match std::str::from_utf8(octets) {
        Ok(text) => PageUrl::read(alloc, text),
        Err(_) => Err(Unread::Fault(UrlFault::BadUrl)),
    }
}
