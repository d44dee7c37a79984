//! Fields of a client's request that a request for a page hands on.
//! RFC 9110, sections 5.5, 12.5.1, 12.5.4, 13.1.2 and 13.1.3.
ghost use Rattle.std.specs.Prelude.{◌≡◌, ◌↔◌, All, IfSome, IsTrue, None};
ghost use Rattle.http_wire.specs.FieldValues.{IsFieldOctet, IsFieldValue};
ghost use Rattle.http_wire.specs.Request.{no_fields};

use std::marker::Model;

// The most octets of a value.
const MAX_VALUE: usize = 1_024;

/// The value of a field that is handed on: 1 to 1,024 octets of 32 to 126, so none of them ends its line.
#[derive(Drop)]
pub struct FieldValue<'a> {
    octets: &'a [u8],
}

impl<'a> Model for FieldValue<'a> {
    ghost use Rattle.std.specs.Prelude.{ℕ, List};
    ghost use Rattle.http_wire.specs.FieldValues.{IsFieldValue};

    ghost Value = { List ℕ };

    ghost view = { λ value. value.octets.now };

    ghost invariant = { λ value. IsFieldValue value.octets.now };
}

impl<'a> FieldValue<'a> {
    /// These octets as a value; none if they are none that may be handed on.
    pub fn of(octets: &'a [u8]) -> Option<FieldValue<'a>>
        ensures some { IfSome result (λ value. (value ≡ octets.now) × IsFieldValue octets.now) }
        ensures none { result ≡ None → IsFieldValue octets.now → ⊥ }
    {
        if is_field_value(octets) {
            Some(FieldValue { octets })
        } else {
            None
        }
    }

    /// Its octets.
    pub fn octets(&self) -> &'a [u8]
        ensures is { result.now ≡ self.now }
        ensures value { IsFieldValue self.now }
    {
        self.octets
    }
}

/// The fields of a client's request that a request for a page hands on, in the order of their lines.
#[derive(Drop)]
pub struct ForwardedFields<'a> {
    /// The entity tags of the copies that the client has.
    pub if_none_match: Option<FieldValue<'a>>,
    /// The date of the client's copy.
    pub if_modified_since: Option<FieldValue<'a>>,
    /// The media types that the client prefers, beside all others.
    pub accept: Option<FieldValue<'a>>,
    /// The languages that the client prefers.
    pub accept_language: Option<FieldValue<'a>>,
}

impl ForwardedFields<'_> {
    /// No fields.
    pub fn none() -> ForwardedFields<'static>
        ensures { result ≡ no_fields }
    {
        ForwardedFields {
            if_none_match: None,
            if_modified_since: None,
            accept: None,
            accept_language: None,
        }
    }
}

fn is_field_value(octets: &[u8]) -> bool
    ensures { IsTrue result ↔ IsFieldValue octets.now }
{
    !octets.is_empty() && octets.len() <= MAX_VALUE && are_field_octets(octets)
}

fn are_field_octets(octets: &[u8]) -> bool
    ensures { IsTrue result ↔ All IsFieldOctet octets.now }
{
    octets.iter().all(|octet| is_field_octet(*octet))
}

fn is_field_octet(octet: u8) -> bool
    ensures { IsTrue result ↔ IsFieldOctet octet }
{
    matches!(octet, b' '..=b'~')
}
