//! The fields of a request that its visit hands on to the site.
//! RFC 9110, sections 12.5.1, 12.5.4, 13.1.2 and 13.1.3.
ghost use Rattle.http.specs.Request.{head_of};
ghost use Rattle.http_front.specs.Forwarding.{AreHandedOn, HandsOnNamed};

use crate::fields::value_named;
use bytes::Bytes;
use http::{HeaderMap, HeaderValue, Request};
use http_wire::{FieldValue, ForwardedFields};

/// Whether conditions and preferences of a client go to the site.
#[derive(Clone, Copy, Debug, PartialEq, Eq)]
pub enum Forwarding {
    /// If-None-Match, If-Modified-Since, Accept and Accept-Language do, each that stands once and has 1 to
    /// 1,024 octets of 32 to 126.
    Conditions,
    /// No field does.
    Nothing,
}

impl Forwarding {
    /// The fields of this request that are handed on.
    pub(crate) fn fields_of(self, request: &Request<Bytes>) -> ForwardedFields<'_>
        ensures { AreHandedOn self (head_of request.now).headers result }
    {
        let headers = request.headers();
        match self {
            Forwarding::Conditions => ForwardedFields {
                if_none_match: forwarded_value(headers, "if-none-match"),
                if_modified_since: forwarded_value(headers, "if-modified-since"),
                accept: forwarded_value(headers, "accept"),
                accept_language: forwarded_value(headers, "accept-language"),
            },
            Forwarding::Nothing => ForwardedFields::none(),
        }
    }
}

fn forwarded_value<'h>(headers: &'h HeaderMap<HeaderValue>, name: &str) -> Option<FieldValue<'h>>
    ensures { HandsOnNamed name.now headers.now result }
{
    match value_named(headers, name) {
        Ok(Some(value)) => FieldValue::of(value),
        Ok(None) | Err(_) => None,
    }
}
