//! A page's URL as one text, with the places of its parts.
//! URL Standard, sections 4.4 and 4.5.
ghost use Rattle.std.specs.Prelude.{◌≡◌, ◌≤◌, Err, Ok, IfOk, IsAscii, MatchOption, length, string_bytes};
ghost use Rattle.url.specs.Parts.{IsValid};
ghost use Rattle.path_normal.specs.Limits.{max_url};
ghost use Rattle.path_normal.specs.Normal.{normal_path};
ghost use Rattle.path_normal.specs.PageText.{authority_of, host_of, host_start, is_https, robots_url_of, scheme_of, target_of};
ghost use Rattle.path_normal.specs.PageUrl.{HasPartsOf, IsAnswer, IsFaultless, IsPage, authority_of_parts, host_of_parts, page_of_parts, page_url_of_parts, target_of_parts};
ghost use Rattle.path_normal.specs.PagePlaces.{form_in, host_in};
ghost use Rattle.path_normal.specs.PlainUrl.{IsPlain};
ghost use Rattle.path_normal.specs.Authority.{IsAuthority};

use crate::authority::Authority;
use crate::fault::{Unread, UrlFault};
use crate::normal::normal_path;
use crate::page_url::{MAX_AUTHORITY, MAX_URL};
use crate::schemes::{Schemes, is_https};
use std::alloc::{AllocError, Global};
use std::boxed::Box;
use std::marker::Model;
use url::{Position, Url};

// The path of a robots.txt, in normal form.
const ROBOTS_PATH: &str = "/robots.txt";

/// The URL of a page, which the copies of a `PageUrl` share. It is small, since each permit and
/// each entry of a history has one: 40 octets, and 48 with the count of its copies.
pub(crate) struct Page {
    text: String,
    places: PagePlaces,
}

// Where the host is, with the normal form of the target if it differs. An enum has room for the
// host beside its tag, so this takes 16 octets, as many as an `Option` of the form alone.
#[derive(Drop)]
enum PagePlaces {
    Kept(HostRange),
    Rewritten(HostRange, Box<Vec<u8>>),
}

// Where the host begins, and where it ends with its port: in a URL of at most `MAX_URL` octets.
#[derive(Clone, Copy)]
struct HostRange {
    start: u16,
    end: u16,
}

// Let go by one call: no crate above proves anew how its parts end.
impl Drop for Page {
    fn drop(self) {
        let Page { text: _, places: _ } = self;
    }
}

impl Model for Page {
    ghost use Rattle.std.specs.Prelude.{List, ℕ, ◌≡◌, ◌+◌, length, string_bytes};
    ghost use Rattle.std.specs.Coded.{coded_list, coded_ℕ};

    ghost Value = { List ℕ };

    ghost coded = { coded_list coded_ℕ };

    ghost use Rattle.path_normal.specs.Normal.{normal_path};
    ghost use Rattle.path_normal.specs.PageText.{host_of, host_start, target_of};
    ghost use Rattle.path_normal.specs.PageUrl.{IsPage};
    ghost use Rattle.path_normal.specs.PagePlaces.{form_in, host_in};

    ghost view = { λ page. string_bytes page.text };

    ghost invariant = { λ page. IsPage (string_bytes page.text)
        × ((host_in page.places).start ≡ host_start (string_bytes page.text))
        × ((host_in page.places).end
        ≡ host_start (string_bytes page.text) + length (host_of (string_bytes page.text)))
        × (form_in page.places (target_of (string_bytes page.text))
        ≡ normal_path (target_of (string_bytes page.text))) };
}

impl Page {
    /// The page of an authority's robots.txt.
    pub(crate) fn of_robots(authority: &Authority) -> Result<Page, AllocError>
        ensures url { IfOk result (λ page. page ≡ robots_url_of authority.now) }
        ensures authority { IfOk result (λ page. authority_of page ≡ authority.now) }
    {
        let alloc = authority.allocator();
        let text = robots_text(alloc, authority)?;
        let page = text.as_str();
        let host = HostRange {
            start: host_start(page),
            end: (page.len() - ROBOTS_PATH.len()) as u16,
        };
        Ok(Page {
            text,
            places: PagePlaces::Kept(host),
        })
    }

    /// The page of a plain URL whose host ends at `end`.
    pub(crate) fn of_plain(alloc: Global, text: &str, end: usize) -> Result<Page, AllocError>
        requires plain { IsPlain text.now end }
        requires short { length text.now ≤ max_url }
        ensures { IfOk result (λ page. page ≡ text.now) }
    {
        let host = HostRange {
            start: "http://".len() as u16,
            end: end as u16,
        };
        Ok(Page {
            text: String::from_str(alloc, text)?,
            places: PagePlaces::Kept(host),
        })
    }

    /// The page of a parsed URL, if it has one.
    pub(crate) fn of_parsed(alloc: Global, schemes: Schemes, url: &Url) -> Result<Page, Unread>
        ensures answer { IsAnswer result (page_url_of_parts schemes url.now) }
        ensures parts { IfOk result (λ page. HasPartsOf page url.now) }
    {
        if let Some(fault) = fault_in(schemes, url) {
            return Err(Unread::Fault(fault));
        }
        let start = host_start(page_in(url));
        let end = usize::from(start) + host_in(url).len();
        let host = HostRange {
            start,
            end: end as u16,
        };
        Ok(Page {
            text: String::from_str(alloc, page_in(url))?,
            places: PagePlaces::of(alloc, host, target_in(url).as_bytes())?,
        })
    }

    /// The URL.
    pub(crate) fn text(&self) -> &str
        ensures value { result.now ≡ self.now }
        ensures page { IsPage self.now }
    {
        self.text.as_str()
    }

    /// Whether the scheme is `https`.
    pub(crate) fn is_https(&self) -> bool
        ensures value { result ≡ is_https self.now }
        ensures page { IsPage self.now }
    {
        self.places.start() > "http://".len()
    }

    /// The host, with any port.
    pub(crate) fn host(&self) -> &str
        ensures value { result.now ≡ host_of self.now }
        ensures page { IsPage self.now }
    {
        &self.text.as_str()[self.places.start()..self.places.end()]
    }

    /// The authority.
    pub(crate) fn authority(&self) -> &str
        ensures value { result.now ≡ authority_of self.now }
        ensures page { IsPage self.now }
    {
        if self.is_https() {
            &self.text.as_str()[..self.places.end()]
        } else {
            self.host()
        }
    }

    /// The path and any query.
    pub(crate) fn target(&self) -> &str
        ensures value { result.now ≡ target_of self.now }
        ensures page { IsPage self.now }
    {
        &self.text.as_str()[self.places.end()..]
    }

    /// The target in normal form.
    pub(crate) fn path_to_match(&self) -> &[u8]
        ensures value { result.now ≡ normal_path (target_of self.now) }
        ensures page { IsPage self.now }
    {
        self.places.form(self.target().as_bytes())
    }

    /// The allocator of the text.
    pub(crate) fn allocator(&self) -> Global {
        *self.text.allocator()
    }
}

impl PagePlaces {
    // Those of a page with this target.
    fn of(alloc: Global, host: HostRange, target: &[u8]) -> Result<PagePlaces, AllocError>
        ensures host { IfOk result (λ places. host_in places ≡ host) }
        ensures form { IfOk result (λ places. form_in places target.now ≡ normal_path target.now) }
    {
        let form = normal_path(alloc, target)?;
        if form.as_slice() == target {
            return Ok(PagePlaces::Kept(host));
        }
        Ok(PagePlaces::Rewritten(host, Box::new(alloc, form)?))
    }

    fn start(&self) -> usize
        ensures { result ≡ (host_in self.now).start }
    {
        usize::from(self.host().start)
    }

    fn end(&self) -> usize
        ensures { result ≡ (host_in self.now).end }
    {
        usize::from(self.host().end)
    }

    fn host(&self) -> HostRange
        ensures { result ≡ host_in self.now }
    {
        match self {
            PagePlaces::Kept(host) => *host,
            PagePlaces::Rewritten(host, _) => *host,
        }
    }

    // The normal form of the page's target.
    fn form<'a>(&'a self, target: &'a [u8]) -> &'a [u8]
        ensures { result.now ≡ form_in self.now target.now }
    {
        match self {
            PagePlaces::Kept(_) => target,
            PagePlaces::Rewritten(_, form) => form.as_slice(),
        }
    }
}

fn robots_text(alloc: Global, authority: &Authority) -> Result<String, AllocError>
    ensures value { IfOk result (λ text. string_bytes text ≡ robots_url_of authority.now) }
    ensures authority { IsAuthority authority.now }
{
    let authority = authority.text();
    let mut text = String::from_str(alloc, scheme_of(authority))?;
    text.push_str(authority)?;
    text.push_str(ROBOTS_PATH)?;
    Ok(text)
}

/// The prefix of an authority in its pages' URLs.
pub(crate) fn scheme_of(authority: &str) -> &'static str
    ensures { result.now ≡ scheme_of authority.now }
{
    if is_https(authority) { "" } else { "http://" }
}

fn host_start(page: &str) -> u16
    ensures { result ≡ host_start page.now }
{
    if is_https(page) {
        "https://".len() as u16
    } else {
        "http://".len() as u16
    }
}

fn fault_in(schemes: Schemes, url: &Url) -> Option<UrlFault>
    ensures { MatchOption result (IsFaultless schemes url.now)
        (λ fault. page_url_of_parts schemes url.now ≡ Err fault) }
{
    if !schemes.reads(url.scheme()) {
        return Some(UrlFault::NotHttp);
    }
    if !url.username().is_empty() || url.password().is_some() {
        return Some(UrlFault::HasUser);
    }
    if page_in(url).len() > MAX_URL || authority_len(url) > MAX_AUTHORITY {
        return Some(UrlFault::TooLong);
    }
    None
}

fn authority_len(url: &Url) -> usize
    ensures value { result ≡ length (authority_of_parts url.now) }
    ensures valid { IsValid url.now }
{
    let host = host_in(url).len();
    if url.scheme() == "https" {
        "https://".len() + host
    } else {
        host
    }
}

fn page_in(url: &Url) -> &str
    ensures value { result.now ≡ page_of_parts url.now }
    ensures ascii { IsAscii result.now }
{
    url.slice(Position::BeforeScheme, Position::AfterQuery)
}

fn target_in(url: &Url) -> &str
    ensures { result.now ≡ target_of_parts url.now }
{
    url.slice(Position::BeforePath, Position::AfterQuery)
}

fn host_in(url: &Url) -> &str
    ensures value { result.now ≡ host_of_parts url.now }
    ensures valid { IsValid url.now }
{
    url.slice(Position::BeforeHost, Position::AfterPort)
}
