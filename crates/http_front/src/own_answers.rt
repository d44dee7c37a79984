//! What the gate itself answers: a table for each part of a response, by what a request is told.
//! RFC 9110, sections 7.4, 10.2.1, 10.2.3, 11.7.1 and 15; RFC 9209, section 2.3.
ghost use Rattle.std.specs.Prelude.{◌≡◌, [], ◌∷◌, ◌++◌, codes, IfOk, IsTrue, OnOk};
ghost use Rattle.http_header.specs.FieldValue.{is_visible_text, plain_value};
ghost use Rattle.http_wire.specs.Messages.{wire_fault_text};
ghost use Rattle.http_server.specs.Response.{fields_of};
ghost use Rattle.http_front.specs.OwnAnswers.{absolute_line, again, allow_field, challenge, challenge_name, challenge_words, connect_line, elsewhere, later_words, method_text, metrics_words, misasked_error, misasked_fields, misasked_status, misasked_words, own_body, own_details, own_error, own_fields, own_status, path_line, text_type, text_words};

use crate::asked::{Misasked, TargetForm};
use crate::causes::{denial_details, fault_error, fault_status};
use crate::passing::add_field;
use crate::told::{Later, OwnAnswer};
use bytes::Bytes;
use command_lines::refusal_word;
use crawl_job::Refusal;
use http::StatusCode;
use http_header::{HeaderName, HeaderValue};
use http_server::Response;
use http_wire::WireFault;
use path_normal::PageUrl;
use std::alloc::{AllocError, Global};

/// The status.
pub(crate) fn own_status(own: &OwnAnswer) -> StatusCode
    ensures { result ≡ own_status own.now }
{
    match own {
        OwnAnswer::Misasked(why) => misasked_status(why),
        OwnAnswer::CutShort => StatusCode::BAD_GATEWAY,
        OwnAnswer::Denied(_) => StatusCode::FORBIDDEN,
        OwnAnswer::Refused(_) => StatusCode::SERVICE_UNAVAILABLE,
        OwnAnswer::Later(_) => StatusCode::SERVICE_UNAVAILABLE,
        OwnAnswer::Failed(fault, failure) => fault_status(*fault, *failure),
        OwnAnswer::Unfetched => StatusCode::INTERNAL_SERVER_ERROR,
    }
}

fn misasked_status(why: &Misasked) -> StatusCode
    ensures { result ≡ misasked_status why.now }
{
    match why {
        Misasked::Method => StatusCode::METHOD_NOT_ALLOWED,
        Misasked::Host => StatusCode::MISDIRECTED_REQUEST,
        Misasked::Browser => StatusCode::FORBIDDEN,
        Misasked::NoCredentials => StatusCode::PROXY_AUTHENTICATION_REQUIRED,
        Misasked::Elsewhere(_, _) => StatusCode::PERMANENT_REDIRECT,
        Misasked::NoMemory => StatusCode::SERVICE_UNAVAILABLE,
        _ => StatusCode::BAD_REQUEST,
    }
}

/// The type of error, or nothing.
pub(crate) fn own_error(own: &OwnAnswer) -> &'static str
    ensures { result.now ≡ own_error own.now }
{
    match own {
        OwnAnswer::Misasked(why) => misasked_error(why),
        OwnAnswer::CutShort => "http_response_body_size",
        OwnAnswer::Denied(_) => "http_request_denied",
        OwnAnswer::Refused(_) => "proxy_internal_response",
        OwnAnswer::Later(_) => "proxy_internal_response",
        OwnAnswer::Failed(fault, failure) => fault_error(*fault, *failure),
        OwnAnswer::Unfetched => "proxy_internal_error",
    }
}

fn misasked_error(why: &Misasked) -> &'static str
    ensures { result.now ≡ misasked_error why.now }
{
    match why {
        Misasked::Elsewhere(_, _) => "proxy_internal_response",
        Misasked::NoMemory => "proxy_internal_response",
        _ => "http_request_error",
    }
}

/// The details.
pub(crate) fn own_details(alloc: Global, own: &OwnAnswer) -> Result<Vec<u8>, AllocError>
    ensures { IfOk result (λ text. text.items ≡ own_details own.now) }
{
    let words = match own {
        OwnAnswer::Denied(denial) => return denial_details(alloc, denial),
        OwnAnswer::Failed(fault, _) => return fault_details(alloc, *fault),
        OwnAnswer::Misasked(why) => misasked_words(why),
        OwnAnswer::CutShort => "cut",
        OwnAnswer::Refused(refusal) => refusal_word(*refusal),
        OwnAnswer::Later(why) => later_words(*why),
        OwnAnswer::Unfetched => "no fetch",
    };
    Vec::from_slice(alloc, words.as_bytes())
}

fn fault_details(alloc: Global, fault: WireFault) -> Result<Vec<u8>, AllocError>
    ensures { IfOk result (λ text. text.items ≡ wire_fault_text fault) }
{
    Ok(fault.to_string(alloc)?.into_bytes())
}

fn misasked_words(why: &Misasked) -> &'static str
    ensures { result.now ≡ misasked_words why.now }
{
    match why {
        Misasked::Method => "method",
        Misasked::Host => "host",
        Misasked::Browser => "browser",
        Misasked::Twice => "field twice",
        Misasked::NoCredentials => "no credentials",
        Misasked::NoToken => "no token",
        Misasked::BadToken => "token",
        Misasked::BadCut => "cut",
        Misasked::Url(fault) => fault.words(),
        Misasked::Elsewhere(_, _) => "authority",
        Misasked::NoMemory => refusal_word(Refusal::NoMemory),
    }
}

fn later_words(why: Later) -> &'static str
    ensures { result.now ≡ later_words why }
{
    match why {
        Later::InFlight => "inflight",
        Later::Door => "site busy",
    }
}

/// Adds the fields beside Proxy-Status.
pub(crate) fn add_own_fields(
    alloc: Global,
    own: &OwnAnswer,
    response: &mut Response,
) -> Result<(), AllocError>
    ensures fields { OnOk result
        (fields_of response.new ≡ fields_of response.old ++ own_fields own.now) }
    ensures status { response.new.status ≡ response.old.status }
    ensures body { response.new.body ≡ response.old.body }
{
    match own {
        OwnAnswer::Misasked(why) => add_misasked_fields(alloc, why, response),
        OwnAnswer::Refused(Refusal::LogFull) => add_again("60", response),
        OwnAnswer::Refused(_) => add_again("1", response),
        OwnAnswer::Later(_) => add_again("1", response),
        OwnAnswer::Failed(WireFault::NoMemory, _) => add_again("1", response),
        _ => Ok(()),
    }
}

fn add_misasked_fields(
    alloc: Global,
    why: &Misasked,
    response: &mut Response,
) -> Result<(), AllocError>
    ensures fields { OnOk result
        (fields_of response.new ≡ fields_of response.old ++ misasked_fields why.now) }
    ensures status { response.new.status ≡ response.old.status }
    ensures body { response.new.body ≡ response.old.body }
{
    match why {
        Misasked::Method => add_method_fields(response),
        Misasked::NoCredentials => add_challenge(response),
        Misasked::Elsewhere(form, url) => {
            let place = elsewhere(alloc, *form, url)?;
            add_field(alloc, b"location", place.as_slice(), response)
        }
        Misasked::NoMemory => add_again("1", response),
        _ => Ok(()),
    }
}

fn add_method_fields(response: &mut Response) -> Result<(), AllocError>
    ensures fields { OnOk result
        (fields_of response.new ≡ fields_of response.old ++ misasked_fields Misasked.Method) }
    ensures status { response.new.status ≡ response.old.status }
    ensures body { response.new.body ≡ response.old.body }
{
    add_allow(response)?;
    add_text_type(response)
}

#[tactic(auto, unfolding(crate::specs::OwnAnswers::allow_field))]
fn add_allow(response: &mut Response) -> Result<(), AllocError>
    ensures fields { OnOk result
        (fields_of response.new ≡ fields_of response.old ++ allow_field ∷ []) }
    ensures status { response.new.status ≡ response.old.status }
    ensures body { response.new.body ≡ response.old.body }
{
    response.add_header(
        HeaderName::from_static("allow"),
        HeaderValue::from_static("GET"),
    )
}

#[tactic(auto, unfolding(crate::specs::OwnAnswers::text_type))]
fn add_text_type(response: &mut Response) -> Result<(), AllocError>
    ensures fields { OnOk result
        (fields_of response.new ≡ fields_of response.old ++ text_type ∷ []) }
    ensures status { response.new.status ≡ response.old.status }
    ensures body { response.new.body ≡ response.old.body }
{
    response.add_header(HeaderName::from_static("content-type"), text_words())
}

fn add_challenge(response: &mut Response) -> Result<(), AllocError>
    ensures fields { OnOk result
        (fields_of response.new ≡ fields_of response.old ++ challenge ∷ []) }
    ensures status { response.new.status ≡ response.old.status }
    ensures body { response.new.body ≡ response.old.body }
{
    response.add_header(challenge_name(), challenge_words())
}

#[tactic(auto, unfolding(crate::specs::OwnAnswers::challenge_name))]
fn challenge_name() -> HeaderName
    ensures { result ≡ challenge_name }
{
    HeaderName::from_static("proxy-authenticate")
}

#[tactic(auto, unfolding(crate::specs::OwnAnswers::text_words))]
fn text_words() -> HeaderValue
    ensures { result ≡ plain_value text_words }
{
    HeaderValue::from_static("text/plain; charset=utf-8")
}

#[tactic(auto, unfolding(crate::specs::OwnAnswers::challenge_words))]
fn challenge_words() -> HeaderValue
    ensures { result ≡ plain_value challenge_words }
{
    HeaderValue::from_static("Basic realm=\"product token\"")
}

/// The type of numbers for Prometheus.
#[tactic(auto, unfolding(crate::specs::OwnAnswers::metrics_words))]
pub(crate) fn metrics_words() -> HeaderValue
    ensures { result ≡ plain_value metrics_words }
{
    HeaderValue::from_static("text/plain; version=0.0.4; charset=utf-8")
}

// When to ask again, in seconds.
fn add_again(seconds: &'static str, response: &mut Response) -> Result<(), AllocError>
    requires { IsTrue (is_visible_text seconds.now) }
    ensures fields { OnOk result
        (fields_of response.new ≡ fields_of response.old ++ again seconds.now) }
    ensures status { response.new.status ≡ response.old.status }
    ensures body { response.new.body ≡ response.old.body }
{
    response.add_header(
        HeaderName::from_static("retry-after"),
        HeaderValue::from_static(seconds),
    )
}

fn elsewhere(alloc: Global, form: TargetForm, url: &PageUrl) -> Result<Vec<u8>, AllocError>
    ensures { IfOk result (λ text. text.items ≡ elsewhere form url.now) }
{
    match form {
        TargetForm::Absolute => Vec::from_slice(alloc, url.text().as_bytes()),
        TargetForm::Path => path_target(alloc, url),
    }
}

/// A page's URL as a target in path form.
pub(crate) fn path_target(alloc: Global, url: &PageUrl) -> Result<Vec<u8>, AllocError>
    ensures { IfOk result (λ text. text.items ≡ codes "/" ++ url.now) }
{
    let mut text = Vec::from_slice(alloc, b"/")?;
    text.extend_from_slice(url.text().as_bytes())?;
    Ok(text)
}

/// Pushes the body.
pub(crate) fn push_own_body(own: &OwnAnswer, response: &mut Response) -> Result<(), AllocError>
    ensures body { OnOk result
        (response.new.body.items ≡ response.old.body.items ++ own_body own.now) }
    ensures fields { fields_of response.new ≡ fields_of response.old }
    ensures status { response.new.status ≡ response.old.status }
{
    match own {
        OwnAnswer::Misasked(Misasked::Method) => push_method_text(response),
        _ => Ok(()),
    }
}

fn push_method_text(response: &mut Response) -> Result<(), AllocError>
    ensures body { OnOk result
        (response.new.body.items ≡ response.old.body.items ++ method_text) }
    ensures fields { fields_of response.new ≡ fields_of response.old }
    ensures status { response.new.status ≡ response.old.status }
{
    response.body.push(absolute_line())?;
    response.body.push(path_line())?;
    response.body.push(connect_line())
}

#[tactic(auto, unfolding(crate::specs::OwnAnswers::absolute_line))]
fn absolute_line() -> Bytes
    ensures { result ≡ absolute_line }
{
    Bytes::from_static(b"Pages are fetched by GET alone; those of http as a proxy is asked.\n")
}

#[tactic(auto, unfolding(crate::specs::OwnAnswers::path_line))]
fn path_line() -> Bytes
    ensures { result ≡ path_line }
{
    Bytes::from_static(
        b"Pages of https: GET /https://a.example/ with the field Crawlgate-Token, and no CONNECT.\n",
    )
}

#[tactic(auto, unfolding(crate::specs::OwnAnswers::connect_line))]
fn connect_line() -> Bytes
    ensures { result ≡ connect_line }
{
    Bytes::from_static(
        b"Who can send CONNECT alone needs a proxy before this one that ends its TLS and asks so.\n",
    )
}
