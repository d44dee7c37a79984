//! The schemes that page URLs may have, and the reading of such URLs.
//! RFC 9110, sections 4.2.1 and 4.2.2; URL Standard, sections 4.4 and 4.5.
ghost use Rattle.std.specs.Prelude.{◌≡◌, None, Ok, IfOk, length, nat_lt};
ghost use Rattle.url.specs.Parser.{parse_url};
ghost use Rattle.url.specs.Parts.{Parts};
ghost use Rattle.path_normal.specs.Authority.{authority_among};
ghost use Rattle.path_normal.specs.Capacity.{IsRead, IsReadWith};
ghost use Rattle.path_normal.specs.Limits.{max_url};
ghost use Rattle.path_normal.specs.PageText.{is_https};
ghost use Rattle.path_normal.specs.PageUrl.{HasPartsOf, IsNamedOn, page_url_among, page_url_on_among};
ghost use Rattle.path_normal.specs.Schemes.{reads};

use crate::authority::{Authority, has_delimiter, root_text, written_host};
use crate::fault::{AuthorityFault, Unread, UrlFault};
use crate::page::Page;
use crate::page_url::{MAX_URL, PageUrl};
use crate::plain_url::plain_host_end;
use std::alloc::Global;
use url::Url;

/// The schemes that page URLs may have; others are refused. Its calls read URLs of pages of these schemes;
/// those of `PageUrl` and `Authority` read `http` alone.
#[derive(Clone, Copy, Debug, PartialEq, Eq)]
pub enum Schemes {
    /// Only `http`.
    Http,
    /// `http` and `https`.
    HttpAndHttps,
}

impl Schemes {
    /// Whether the scheme, in lower case and without `:`, is one of these.
    pub fn reads(self, scheme: &str) -> bool
        ensures { result ≡ reads self scheme.now }
    {
        match self {
            Schemes::Http => scheme == "http",
            Schemes::HttpAndHttps => scheme == "http" || scheme == "https",
        }
    }

    /// Reads the URL of a page of these schemes, and drops its fragment.
    pub fn parse_page(self, alloc: Global, text: &str) -> Result<PageUrl, UrlFault>
        ensures answer { IsRead result (page_url_among self None text.now) }
        ensures parts { IfOk result (λ page. (url : Parts) × (parse_url None text.now ≡ Ok url)
            × HasPartsOf page url) }
    {
        Ok(self.read_page(alloc, text)?)
    }

    /// Like `parse_page`, but distinguishes an overflow of the crate `url`, which is no fault of the text,
    /// from a text that is too long.
    pub fn read_page(self, alloc: Global, text: &str) -> Result<PageUrl, Unread>
        ensures answer { IsReadWith result (page_url_among self None text.now) }
        ensures parts { IfOk result (λ page. (url : Parts) × (parse_url None text.now ≡ Ok url)
            × HasPartsOf page url) }
    {
        if is_long(text) {
            return Err(Unread::Fault(UrlFault::TooLong));
        }
        // Most URLs are plain: the parser would not change them.
        if let Some(end) = plain_host_end(text) {
            return Ok(PageUrl::shared(alloc, Page::of_plain(alloc, text, end)?)?);
        }
        let url = Url::parse(alloc, text)?;
        PageUrl::of_parsed(alloc, self, &url)
    }

    /// Resolves a reference to a page of these schemes against a page's URL, as for a link or a redirect (RFC
    /// 3986, 5.2), and reports an overflow as `PageUrl::read_on` does.
    pub fn read_page_on(self, base: &PageUrl, text: &str) -> Result<PageUrl, Unread>
        ensures answer { IsReadWith result (page_url_on_among self base.now text.now) }
        ensures parts { IfOk result (IsNamedOn base.now text.now) }
    {
        if is_long(text) {
            return Err(Unread::Fault(UrlFault::TooLong));
        }
        let alloc = base.allocator();
        let base = Url::parse(alloc, base.text())?;
        let url = base.join(text)?;
        PageUrl::of_parsed(alloc, self, &url)
    }

    /// Reads an authority of pages of these schemes: host and port as in a URL, after a lower-case
    /// `https://` if that is the scheme.
    pub fn parse_authority(self, alloc: Global, text: &str) -> Result<Authority, AuthorityFault>
        ensures { IsRead result (authority_among self text.now) }
    {
        if has_delimiter(written_host(self, text).as_bytes()) {
            return Err(AuthorityFault::BadAuthority);
        }
        let root = root_text(alloc, text)?;
        let url = self.parse_page(alloc, root.as_str())?;
        Ok(Authority::of(&url)?)
    }
}

fn is_long(text: &str) -> bool
    ensures { result ≡ nat_lt max_url (length text.now) }
{
    text.len() > MAX_URL
}

pub(crate) fn is_https(text: &str) -> bool
    ensures { result ≡ is_https text.now }
{
    text.starts_with("https://")
}
