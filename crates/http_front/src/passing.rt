//! What of a site's response is passed on.
//! RFC 9110, sections 7.6, 10.2.2, 15.3.5, 15.3.6 and 15.4.5.
ghost use Rattle.std.specs.Prelude.{◌≡◌, ◌++◌, OnOk, option_copied};
ghost use Rattle.std.specs.List.{list_all};
ghost use Rattle.http_header.specs.Token.{is_value_byte};
ghost use Rattle.http_server.specs.Response.{fields_of};
ghost use Rattle.http_wire.specs.Kept.{kept_pair, kept_pairs};
ghost use Rattle.http_front.specs.Passing.{is_bodiless, led_by, passed_body, passed_field, passed_fields, sent_field, site_status};

use crate::asked::TargetForm;
use crate::fields::text_of;
use crate::own_answers::path_target;
use bytes::Bytes;
use http::StatusCode;
use http_header::{HeaderName, HeaderValue};
use http_server::Response;
use http_wire::KeptField;
use path_normal::{PageUrl, Schemes, Unread};
use robots_text::is_same_word;
use std::alloc::{AllocError, Global};

/// A site's status.
pub(crate) fn site_status(status: u16) -> StatusCode
    ensures { result ≡ site_status status }
{
    if 200 <= status && status <= 999 {
        match StatusCode::from_u16(status) {
            Ok(status) => return status,
            Err(_) => unreachable!(),
        }
    }
    StatusCode::BAD_GATEWAY
}

/// Pushes the body, but where a response of this status has none.
pub(crate) fn push_passed_body(
    status: u16,
    octets: Vec<u8>,
    response: &mut Response,
) -> Result<(), AllocError>
    ensures body { OnOk result
        (response.new.body.items ≡ response.old.body.items ++ passed_body status octets.items) }
    ensures fields { fields_of response.new ≡ fields_of response.old }
    ensures status { response.new.status ≡ response.old.status }
{
    if is_bodiless(status) {
        return Ok(());
    }
    push_octets(octets, response)
}

/// Pushes octets that are copied nowhere.
pub(crate) fn push_octets(octets: Vec<u8>, response: &mut Response) -> Result<(), AllocError>
    ensures body { OnOk result
        (response.new.body.items ≡ response.old.body.items ++ octets.items) }
    ensures fields { fields_of response.new ≡ fields_of response.old }
    ensures status { response.new.status ≡ response.old.status }
{
    let Ok(octets) = Bytes::from_vec(octets) else {
        return Err(AllocError);
    };
    response.body.push(octets)
}

fn is_bodiless(status: u16) -> bool
    ensures { result ≡ is_bodiless status }
{
    status == 204 || status == 205 || status == 304
}

/// Adds the kept fields of a page that was asked for in this form.
pub(crate) fn pass_fields(
    alloc: Global,
    schemes: Schemes,
    form: TargetForm,
    url: &PageUrl,
    kept: &[KeptField],
    response: &mut Response,
) -> Result<(), AllocError>
    ensures fields { OnOk result (fields_of response.new
        ≡ fields_of response.old ++ passed_fields schemes form url.now (kept_pairs kept.now)) }
    ensures status { response.new.status ≡ response.old.status }
    ensures body { response.new.body ≡ response.old.body }
{
    let mut rest = kept;
    while let [field, after @ ..] = rest {
        pass_field(alloc, schemes, form, url, field, response)?;
        rest = after;
    }
    Ok(())
}

fn pass_field(
    alloc: Global,
    schemes: Schemes,
    form: TargetForm,
    url: &PageUrl,
    field: &KeptField,
    response: &mut Response,
) -> Result<(), AllocError>
    ensures fields { OnOk result (fields_of response.new
        ≡ fields_of response.old ++ passed_field schemes form url.now (kept_pair field.now)) }
    ensures status { response.new.status ≡ response.old.status }
    ensures body { response.new.body ≡ response.old.body }
{
    let (name, value) = (field.name.as_slice(), field.value.as_slice());
    match form {
        TargetForm::Path if is_same_word(name, b"location") => {
            lead_on(alloc, schemes, url, text_of(value), response)
        }
        _ => add_field(alloc, name, value, response),
    }
}

// Adds where a redirect leads, as a target in path form.
fn lead_on(
    alloc: Global,
    schemes: Schemes,
    url: &PageUrl,
    text: Option<&str>,
    response: &mut Response,
) -> Result<(), AllocError>
    ensures fields { OnOk result (fields_of response.new
        ≡ fields_of response.old ++ led_by schemes url.now (option_copied text.entry)) }
    ensures status { response.new.status ≡ response.old.status }
    ensures body { response.new.body ≡ response.old.body }
{
    let Some(text) = text else {
        return Ok(());
    };
    match schemes.read_page_on(url, text) {
        Ok(target) => {
            let target = path_target(alloc, &target)?;
            add_field(alloc, b"location", target.as_slice(), response)
        }
        Err(Unread::Fault(_)) => Ok(()),
        Err(Unread::Overflow | Unread::NoMemory) => Err(AllocError),
    }
}

/// Adds a field, its name in lower case, unless its value is none that a field may have.
pub(crate) fn add_field(
    alloc: Global,
    name: &[u8],
    value: &[u8],
    response: &mut Response,
) -> Result<(), AllocError>
    ensures fields { OnOk result
        (fields_of response.new ≡ fields_of response.old ++ sent_field name.now value.now) }
    ensures status { response.new.status ≡ response.old.status }
    ensures body { response.new.body ≡ response.old.body }
{
    if !is_value(value) {
        return Ok(());
    }
    // The names are the gate's own, or those of kept fields, which are names.
    let Ok(name) = HeaderName::from_bytes(alloc, name) else {
        return Err(AllocError);
    };
    let Ok(value) = HeaderValue::from_bytes(alloc, value) else {
        return Err(AllocError);
    };
    response.add_header(name, value)
}

fn is_value(octets: &[u8]) -> bool
    ensures { result ≡ list_all is_value_byte octets.now }
{
    octets.iter().all(|octet| is_value_octet(*octet))
}

fn is_value_octet(octet: u8) -> bool
    ensures { result ≡ is_value_byte octet }
{
    octet == b'\t' || (32 <= octet && octet != 127)
}
