//! What is asked of a site.
//! RFC 9110, section 9.3.1.

use http_wire::{ConnectionEnding, ForwardedFields};
use path_normal::PageUrl;

/// A request for a page, and how much of its response is read.
#[derive(Clone, Copy)]
pub struct PageRequest<'a, 'f> {
    /// The page.
    pub url: &'a PageUrl,
    /// The value of User-Agent.
    pub agent: &'a str,
    /// The fields of a client's request that are handed on.
    pub fields: &'f ForwardedFields<'f>,
    /// The most octets of the response's body that are read.
    pub limit: usize,
    /// Whether the connection may be one that was kept, and is kept after the response.
    pub ending: ConnectionEnding,
}
