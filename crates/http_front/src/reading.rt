//! What a request asks for: one reading of its method, its target and its fields.
//! RFC 9110, sections 7.4, 9.3.1 and 11.7.2; RFC 9112, section 3.2; RFC 9309, section 2.2.1.
ghost use Rattle.std.specs.Prelude.{◌≡◌, ◌⊎◌, Ok, Err, IfOk, IfErr, bytes_eq, codes};
ghost use Rattle.http.specs.Request.{head_of};
ghost use Rattle.http_front.specs.Asking.{cut_by, is_of_browser, local_wish, named_in, page_of_text, page_wish, path_wish, token_by, wish_in, wish_of};
ghost use Rattle.http_front.specs.Fields.{text_of, value_named};
ghost use Rattle.http_front.specs.Targets.{page_text};

use crate::asked::{CutRule, Misasked, PageWish, TargetForm, Wish};
use crate::credentials::user_of;
use crate::fields::{has_field, text_of, value_named};
use crate::hosts::is_loopback;
use crate::targets::{form_of, is_written_so, page_text, rest_of};
use bytes::Bytes;
use http::{HeaderMap, HeaderValue, Method, Request, Uri};
use path_normal::{PageUrl, Schemes, Unread, UrlFault};
use robots_text::{Token, TokenFault, is_same_word};
use std::alloc::Global;

/// Reads a request, for pages of these schemes. Allocates the token and the page's URL.
pub fn read_request(
    alloc: Global,
    schemes: Schemes,
    request: &Request<Bytes>,
) -> Result<Wish, Misasked>
    ensures ok { IfOk result (λ wish. wish_of schemes (head_of request.now) ≡ Ok wish) }
    ensures err { IfErr result (λ why. (why ≡ Misasked.NoMemory)
        ⊎ (wish_of schemes (head_of request.now) ≡ Err why)) }
{
    if !is_get(request.method()) {
        return Err(Misasked::Method);
    }
    match form_of(request.uri()) {
        TargetForm::Absolute => read_page(alloc, schemes, TargetForm::Absolute, request),
        TargetForm::Path => read_path_form(alloc, schemes, request),
    }
}

fn is_get(method: &Method) -> bool
    ensures { result ≡ bytes_eq method.now (codes "GET") }
{
    method.as_str() == "GET"
}

// The wish of a request in path form. Its host is to be the gate's own.
fn read_path_form(
    alloc: Global,
    schemes: Schemes,
    request: &Request<Bytes>,
) -> Result<Wish, Misasked>
    ensures ok { IfOk result (λ wish. path_wish schemes (head_of request.now)
        (value_named (codes "host") (head_of request.now).headers) ≡ Ok wish) }
    ensures err { IfErr result (λ why. (why ≡ Misasked.NoMemory)
        ⊎ (path_wish schemes (head_of request.now)
        (value_named (codes "host") (head_of request.now).headers) ≡ Err why)) }
{
    match value_named(request.headers(), "host")? {
        Some(host) if is_loopback(host) => read_local(alloc, schemes, request),
        _ => Err(Misasked::Host),
    }
}

fn read_local(alloc: Global, schemes: Schemes, request: &Request<Bytes>) -> Result<Wish, Misasked>
    ensures ok { IfOk result (λ wish. local_wish schemes (head_of request.now) ≡ Ok wish) }
    ensures err { IfErr result (λ why. (why ≡ Misasked.NoMemory)
        ⊎ (local_wish schemes (head_of request.now) ≡ Err why)) }
{
    if rest_of(request.uri()) == b"/metrics".as_slice() {
        return Ok(Wish::Metrics);
    }
    if is_of_browser(request.headers()) {
        return Err(Misasked::Browser);
    }
    read_page(alloc, schemes, TargetForm::Path, request)
}

fn is_of_browser(headers: &HeaderMap<HeaderValue>) -> bool
    ensures { result ≡ is_of_browser headers.now }
{
    has_field(headers, "origin") || has_field(headers, "sec-fetch-site")
}

// The page that is asked for in this form.
fn read_page(
    alloc: Global,
    schemes: Schemes,
    form: TargetForm,
    request: &Request<Bytes>,
) -> Result<Wish, Misasked>
    ensures ok { IfOk result (λ wish. page_wish form schemes (head_of request.now) ≡ Ok wish) }
    ensures err { IfErr result (λ why. (why ≡ Misasked.NoMemory)
        ⊎ (page_wish form schemes (head_of request.now) ≡ Err why)) }
{
    let token = token_of(alloc, form, request.headers())?;
    let cut = cut_rule(request.headers())?;
    let url = url_of(alloc, schemes, form, request.uri())?;
    Ok(Wish::Page(PageWish {
        form,
        cut,
        token,
        url,
    }))
}

fn token_of(
    alloc: Global,
    form: TargetForm,
    headers: &HeaderMap<HeaderValue>,
) -> Result<Token, Misasked>
    ensures ok { IfOk result (λ token. token_by (named_in form headers.now) ≡ Ok token) }
    ensures err { IfErr result (λ why. (why ≡ Misasked.NoMemory)
        ⊎ (token_by (named_in form headers.now) ≡ Err why)) }
{
    let octets = named_in(alloc, form, headers)?;
    match Token::new(alloc, octets.as_slice()) {
        Ok(token) => Ok(token),
        Err(TokenFault::BadToken) => Err(Misasked::BadToken),
        Err(TokenFault::NoMemory) => Err(Misasked::NoMemory),
    }
}

// What should be a product token. In absolute form it is the user of the proxy's credentials, which
// no page can make a browser send; else a field that a page can send to its own site alone.
fn named_in(
    alloc: Global,
    form: TargetForm,
    headers: &HeaderMap<HeaderValue>,
) -> Result<Vec<u8>, Misasked>
    ensures ok { IfOk result (λ octets. named_in form headers.now ≡ Ok octets.items) }
    ensures err { IfErr result (λ why. (why ≡ Misasked.NoMemory)
        ⊎ (named_in form headers.now ≡ Err why)) }
{
    match form {
        TargetForm::Absolute => match value_named(headers, "proxy-authorization")? {
            Some(credentials) => user_of(alloc, credentials),
            None => Err(Misasked::NoCredentials),
        },
        TargetForm::Path => match value_named(headers, "crawlgate-token")? {
            Some(token) => Ok(Vec::from_slice(alloc, token)?),
            None => Err(Misasked::NoToken),
        },
    }
}

// What comes of the page if it is cut.
fn cut_rule(headers: &HeaderMap<HeaderValue>) -> Result<CutRule, Misasked>
    ensures ok { IfOk result (λ rule.
        cut_by (value_named (codes "crawlgate-cut") headers.now) ≡ Ok rule) }
    ensures err { IfErr result (λ why.
        cut_by (value_named (codes "crawlgate-cut") headers.now) ≡ Err why) }
{
    match value_named(headers, "crawlgate-cut")? {
        Some(value) if is_same_word(value, b"pass") => Ok(CutRule::Pass),
        Some(_) => Err(Misasked::BadCut),
        None => Ok(CutRule::Refuse),
    }
}

fn url_of(alloc: Global, schemes: Schemes, form: TargetForm, uri: &Uri) -> Result<PageUrl, Misasked>
    ensures ok { IfOk result (λ url.
        page_of_text schemes form (text_of (page_text uri.now)) ≡ Ok url) }
    ensures err { IfErr result (λ why. (why ≡ Misasked.NoMemory)
        ⊎ (page_of_text schemes form (text_of (page_text uri.now)) ≡ Err why)) }
{
    let octets = page_text(alloc, uri)?;
    let Some(text) = text_of(octets.as_slice()) else {
        return Err(Misasked::Url(UrlFault::BadUrl));
    };
    match schemes.read_page(alloc, text) {
        Ok(url) if is_written_so(&url, text.as_bytes()) => Ok(url),
        Ok(url) => Err(Misasked::Elsewhere(form, url)),
        Err(Unread::Fault(fault)) => Err(Misasked::Url(fault)),
        // Neither is a fault of the text.
        Err(Unread::Overflow | Unread::NoMemory) => Err(Misasked::NoMemory),
    }
}
