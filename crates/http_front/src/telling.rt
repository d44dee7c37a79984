//! The response to what a request is told.
//! RFC 9110, section 15; RFC 9209, section 2.
ghost use Rattle.std.specs.Prelude.{◌≡◌, ◌++◌, ◌⊎◌, OnOk};
ghost use Rattle.http_server.specs.Response.{IsBlank, fields_of};
ghost use Rattle.http_front.specs.Telling.{IsCounted, IsOwn, TellsPage, IsTold, RanOut, status_field};

use crate::asked::PageWish;
use crate::causes::reason_details;
use crate::metrics::Metrics;
use crate::own_answers::{
    add_own_fields, metrics_words, own_details, own_error, own_status, push_own_body,
};
use crate::passing::{add_field, pass_fields, push_octets, push_passed_body, site_status};
use crate::proxy_status::{own_value, passed_value};
use crate::told::{OwnAnswer, Told};
use gate_history::Reason;
use http::StatusCode;
use http_header::{HeaderName, HeaderValue};
use http_server::Response;
use http_wire::HttpReply;
use keepers::Counts;
use path_normal::Schemes;
use permit_book::PermitNo;
use std::alloc::{AllocError, Global};

/// Fills the response, or says in it that memory ran out: how many octets its body has.
pub(crate) fn answer<M: Metrics>(
    alloc: Global,
    schemes: Schemes,
    metrics: &M,
    told: Told,
    response: &mut Response,
) -> u64
    requires { IsBlank response.old }
    ensures { IsTold (M.tells metrics.now) schemes told response.new ⊎ RanOut response.new }
{
    if tell(alloc, schemes, metrics, told, response).is_err() {
        give_up(response);
    }
    response.body.len() as u64
}

// Fills the response. After an error it is to be cleared.
fn tell<M: Metrics>(
    alloc: Global,
    schemes: Schemes,
    metrics: &M,
    told: Told,
    response: &mut Response,
) -> Result<(), AllocError>
    requires { IsBlank response.old }
    ensures { OnOk result (IsTold (M.tells metrics.now) schemes told response.new) }
{
    match told {
        Told::Page(asked, number, reason, reply) => {
            pass(alloc, schemes, &asked, number, reason, reply, response)
        }
        Told::Metrics(counts) => count(alloc, metrics, counts, response),
        Told::Own(own) => tell_own(alloc, &own, response),
    }
}

// Says that memory ran out, if there is any for that.
fn give_up(response: &mut Response)
    ensures { RanOut response.new }
{
    response.clear();
    response.status = StatusCode::SERVICE_UNAVAILABLE;
    let name = HeaderName::from_static("proxy-status");
    let value = HeaderValue::from_static(
        "crawlgate; error=proxy_internal_response; details=\"memory\"",
    );
    let _ = response.add_header(name, value);
}

// The gate's own answer.
fn tell_own(alloc: Global, own: &OwnAnswer, response: &mut Response) -> Result<(), AllocError>
    requires { IsBlank response.old }
    ensures { OnOk result (IsOwn own.now response.new) }
{
    let details = own_details(alloc, own)?;
    let value = own_value(alloc, own_error(own), details.as_slice())?;
    response.status = own_status(own);
    add_own_fields(alloc, own, response)?;
    add_status(alloc, value.as_slice(), response)?;
    push_own_body(own, response)?;
    Ok(())
}

// The gate's numbers.
fn count<M: Metrics>(
    alloc: Global,
    metrics: &M,
    counts: Counts,
    response: &mut Response,
) -> Result<(), AllocError>
    requires { IsBlank response.old }
    ensures { OnOk result (IsCounted (M.tells metrics.now) counts response.new) }
{
    let text = metrics.text(alloc, counts)?;
    let value = own_value(alloc, "", b"metrics")?;
    response.add_header(HeaderName::from_static("content-type"), metrics_words())?;
    add_status(alloc, value.as_slice(), response)?;
    push_octets(text, response)?;
    Ok(())
}

// The site's response.
fn pass(
    alloc: Global,
    schemes: Schemes,
    asked: &PageWish,
    number: PermitNo,
    reason: Reason,
    reply: HttpReply,
    response: &mut Response,
) -> Result<(), AllocError>
    requires { IsBlank response.old }
    ensures { OnOk result (TellsPage schemes asked.now number reason reply response.new) }
{
    let kept = reply.kept_fields(alloc)?;
    let details = reason_details(alloc, number, reason)?;
    let value = passed_value(alloc, reply.status, reply.cut, details.as_slice())?;
    response.status = site_status(reply.status);
    pass_fields(
        alloc,
        schemes,
        asked.form,
        &asked.url,
        kept.as_slice(),
        response,
    )?;
    add_status(alloc, value.as_slice(), response)?;
    let HttpReply { status, body, .. } = reply;
    push_passed_body(status, body, response)?;
    Ok(())
}

// The field that says whose answer it is.
fn add_status(alloc: Global, value: &[u8], response: &mut Response) -> Result<(), AllocError>
    ensures fields { OnOk result
        (fields_of response.new ≡ fields_of response.old ++ status_field value.now) }
    ensures status { response.new.status ≡ response.old.status }
    ensures body { response.new.body ≡ response.old.body }
{
    add_field(alloc, b"proxy-status", value, response)
}
