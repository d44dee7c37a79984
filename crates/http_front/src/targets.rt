//! The page that a request's target names.
//! RFC 9112, sections 3.2.1 and 3.2.2.
ghost use Rattle.std.specs.Prelude.{◌≡◌, [], IfOk, unwrap_or};
ghost use Rattle.http_uri.specs.Uri.{uri_authority};
ghost use Rattle.http_front.specs.Targets.{behind_slash, ends_site, form_of, is_written_so, page_text, rest_of, site_end, up_to, whole_text};

use crate::asked::TargetForm;
use http::Uri;
use path_normal::PageUrl;
use std::alloc::{AllocError, Global};

/// The form of a request.
pub(crate) fn form_of(uri: &Uri) -> TargetForm
    ensures { result ≡ form_of uri.now }
{
    if uri.scheme_str().is_some() {
        TargetForm::Absolute
    } else {
        TargetForm::Path
    }
}

/// The octets of the page's URL: an absolute target whole, or what follows another's first slash.
pub(crate) fn page_text(alloc: Global, uri: &Uri) -> Result<Vec<u8>, AllocError>
    ensures { IfOk result (λ text. text.items ≡ page_text uri.now) }
{
    match uri.scheme_str() {
        Some(scheme) => whole_text(alloc, scheme.as_bytes(), authority_of(uri), rest_of(uri)),
        None => Vec::from_slice(alloc, behind_slash(rest_of(uri))),
    }
}

fn whole_text(
    alloc: Global,
    scheme: &[u8],
    authority: &[u8],
    rest: &[u8],
) -> Result<Vec<u8>, AllocError>
    ensures { IfOk result (λ text. text.items ≡ whole_text scheme.now authority.now rest.now) }
{
    let mut text = Vec::from_slice(alloc, scheme)?;
    text.extend_from_slice(b"://")?;
    text.extend_from_slice(authority)?;
    text.extend_from_slice(rest)?;
    Ok(text)
}

fn authority_of(uri: &Uri) -> &[u8]
    ensures { result.now ≡ unwrap_or (uri_authority uri.now) [] }
{
    match uri.authority() {
        Some(authority) => authority.as_str().as_bytes(),
        None => b"",
    }
}

/// The path and the query of the target.
pub(crate) fn rest_of(uri: &Uri) -> &[u8]
    ensures { result.now ≡ rest_of uri.now }
{
    match uri.path_and_query() {
        Some(rest) => rest.as_str().as_bytes(),
        None => b"",
    }
}

fn behind_slash(text: &[u8]) -> &[u8]
    ensures { result.now ≡ behind_slash text.now }
{
    match text {
        [b'/', behind @ ..] => behind,
        _ => b"",
    }
}

/// Whether a text has the scheme and the authority of its page as the page's URL has them, so that
/// who looks at the text alone finds the same authority.
pub(crate) fn is_written_so(page: &PageUrl, text: &[u8]) -> bool
    ensures { result ≡ is_written_so page.now text.now }
{
    let site = site_end(page);
    let (own, behind) = text.split_at(site.min(text.len()));
    own == up_to(site, page.text().as_bytes()) && ends_site(behind)
}

fn site_end(page: &PageUrl) -> usize
    ensures { result ≡ site_end page.now }
{
    let start = if page.is_https() { 8 } else { 7 };
    start + page.host().len()
}

fn up_to(end: usize, text: &[u8]) -> &[u8]
    ensures { result.now ≡ up_to end text.now }
{
    &text[..end.min(text.len())]
}

fn ends_site(octets: &[u8]) -> bool
    ensures { result ≡ ends_site octets.now }
{
    match octets {
        [] => true,
        [octet, ..] => *octet == b'/' || *octet == b'?',
    }
}
