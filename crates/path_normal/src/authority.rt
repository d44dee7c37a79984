//! The authority of a page's URL: its host and any non-default port, after `https://` if that is the
//! scheme. RFC 3986, section 3.2; RFC 9309, section 2.3.
ghost use Rattle.std.specs.Prelude.{◌≡◌, Some, Err, IfOk, bytes_eq, string_bytes};
ghost use Rattle.std.specs.Cmp.{partial_equiv_from_equiv};
ghost use Rattle.std.specs.Cmp.Lexicographic.{nat_list_eq_equiv};
ghost use Rattle.std.specs.List.{list_any};
ghost use Rattle.path_normal.specs.PageText.{authority_of};
ghost use Rattle.path_normal.specs.Authority.{IsAuthority, authority_among, authority_from, is_delimiter, root_of, written_host};
ghost use Rattle.path_normal.specs.Capacity.{IsRead};

use crate::fault::AuthorityFault;
use crate::page::scheme_of;
use crate::page_url::PageUrl;
use crate::schemes::Schemes;
use std::alloc::{AllocError, Global};
use std::fmt;
use std::marker::Model;
use std::sync::Arc;

/// The authority of a page's URL: the host in lower case, with `:` and the port unless it is the scheme's
/// default (80 or 443), after `https://` if that is the scheme.
#[derive(Drop)]
pub struct Authority {
    // Shared by its copies.
    text: Arc<String>,
}

impl Model for Authority {
    ghost use Rattle.std.specs.Prelude.{List, ℕ, string_bytes};
    ghost use Rattle.std.specs.Coded.{coded_list, coded_ℕ};

    ghost Value = { List ℕ };

    ghost coded = { coded_list coded_ℕ };

    ghost use Rattle.std.specs.Arc.{arc_value};
    ghost use Rattle.path_normal.specs.Authority.{IsAuthority};

    ghost view = { λ authority. string_bytes (arc_value authority.text) };

    ghost invariant = { λ authority. IsAuthority (string_bytes (arc_value authority.text)) };
}

impl Authority {
    /// Reads an authority of `http` pages as in a URL: port 80 and letters of either case are allowed.
    pub fn new(alloc: Global, text: &str) -> Result<Authority, AuthorityFault>
        ensures { IsRead result (authority_from text.now) }
    {
        Schemes::Http.parse_authority(alloc, text)
    }

    /// The authority of a page's URL.
    pub fn of(url: &PageUrl) -> Result<Authority, AllocError>
        ensures { IfOk result (λ authority. authority ≡ authority_of url.now) }
    {
        let alloc = url.allocator();
        let text = String::from_str(alloc, url.authority())?;
        Ok(Authority {
            text: Arc::new(alloc, text)?,
        })
    }

    /// A copy of the authority. Takes no memory: the text is shared.
    pub fn copy(&self) -> Result<Authority, AllocError>
        ensures { IfOk result (λ copy. copy ≡ self.now) }
    {
        Ok(Authority {
            text: Arc::try_clone(&self.text)?,
        })
    }

    /// The authority as the URL Standard writes it.
    pub fn text(&self) -> &str
        ensures value { result.now ≡ self.now }
        ensures authority { IsAuthority self.now }
    {
        self.text.as_str()
    }

    /// The allocator of the text.
    pub(crate) fn allocator(&self) -> Global {
        *self.text.allocator()
    }
}

pub(crate) fn written_host(schemes: Schemes, text: &str) -> &str
    ensures { result.now ≡ written_host schemes text.now }
{
    match schemes {
        Schemes::Http => text,
        Schemes::HttpAndHttps => text.strip_prefix("https://").unwrap_or(text),
    }
}

pub(crate) fn has_delimiter(octets: &[u8]) -> bool
    ensures { result ≡ list_any is_delimiter octets.now }
{
    octets.iter().any(|octet| matches!(*octet, b'/' | b'\\' | b'?' | b'#' | b'@'))
}

/// The URL of the authority's root.
pub fn root_text(alloc: Global, text: &str) -> Result<String, AllocError>
    ensures { IfOk result (λ page. string_bytes page ≡ root_of text.now) }
{
    let mut page = String::from_str(alloc, scheme_of(text))?;
    page.push_str(text)?;
    page.push_str("/")?;
    Ok(page)
}

impl PartialEq for Authority {
    ghost eq = { λ a b. bytes_eq a b };

    ghost laws = { partial_equiv_from_equiv nat_list_eq_equiv };

    fn eq(&self, other: &Authority) -> bool {
        self.text() == other.text()
    }
}

impl Eq for Authority {
    ghost laws = { nat_list_eq_equiv };
}

impl fmt::Display for Authority {
    ghost output = { λ authority. Some authority };

    fn fmt<W: fmt::Write>(&self, f: &mut fmt::Formatter<W>) -> fmt::Result {
        fmt::Display::fmt(&self.text(), f)
    }
}
