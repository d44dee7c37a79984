//! One request and its response.
//! RFC 9112, sections 2 and 3.
ghost use Rattle.std.specs.Prelude.{◌≡◌, ◌++◌, Err, OnOk, OnErr};
ghost use Rattle.std.specs.Io.KnownBytes.{Appends};
ghost use Rattle.counted_io.specs.Device.{failures_after, AppendsPrefix};
ghost use Rattle.path_normal.specs.PageText.{host_of, target_of};
ghost use Rattle.http_wire.specs.Persistence.{EndsAs};
ghost use Rattle.http_wire.specs.Request.{request};
ghost use Rattle.http_wire.specs.declared.ending.ConnectionEnding.TheVariants.{KeepAlive};
ghost use Rattle.http_wire.specs.declared.fault.WireFault.TheVariants.{Device};
ghost use Rattle.http_client.specs.Agent.{IsAgent};
ghost use Rattle.http_client.specs.Exchange.{Exchanges};
ghost use Rattle.http_client.specs.Requests.{octets_of};

use crate::page_request::PageRequest;
use counted_io::{Sink, Source, write_all};
use http_wire::{
    ConnectionEnding, ForwardedFields, HttpReply, WireFault, read_response, read_response_with,
    write_get_with,
};
use path_normal::PageUrl;
use std::alloc::Global;

/// Writes the request for a page, as `write_get` does, and reads the response, as `read_response` does,
/// with at most `limit` octets of its body. `agent` is the value of User-Agent. If the request can't be
/// written, nothing is read.
pub fn exchange<S: Source, W: Sink>(
    alloc: Global,
    reader: &mut S,
    writer: &mut W,
    url: &PageUrl,
    agent: &str,
    limit: usize,
) -> Result<HttpReply, WireFault>
    // No octet of the agent ends its line.
    requires { IsAgent agent.now }
    ensures { Exchanges (request (target_of url.now) (host_of url.now) agent.now) limit
        (W.written writer.old) (W.written writer.new)
        (W.failures writer.old) (W.failures writer.new) (S.left reader.old)
        (S.failures reader.old) (S.failures reader.new) result }
{
    let fields = ForwardedFields::none();
    let page = PageRequest {
        url,
        agent,
        fields: &fields,
        limit,
        ending: ConnectionEnding::Close,
    };
    exchange_with_header(alloc, reader, writer, &[], &page)
}

/// `exchange` of such a request, with a header before it, for a program between both ends.
pub fn exchange_with_header<S: Source, W: Sink>(
    alloc: Global,
    reader: &mut S,
    writer: &mut W,
    header: &[u8],
    page: &PageRequest<'_, '_>,
) -> Result<HttpReply, WireFault>
    requires { IsAgent page.now.agent.now }
    ensures { Exchanges (header.now ++ octets_of page.now) page.now.limit
        (W.written writer.old) (W.written writer.new)
        (W.failures writer.old) (W.failures writer.new) (S.left reader.old)
        (S.failures reader.old) (S.failures reader.new) result }
{
    exchange_ending(
        alloc,
        reader,
        writer,
        header,
        page,
        &mut ConnectionEnding::Close,
    )
}

/// `exchange_with_header`, and what becomes of the connection. It is kept alive only if the request says so and
/// `read_response_with` does.
pub(crate) fn exchange_ending<S: Source, W: Sink>(
    alloc: Global,
    reader: &mut S,
    writer: &mut W,
    header: &[u8],
    page: &PageRequest<'_, '_>,
    ending: &mut ConnectionEnding,
) -> Result<HttpReply, WireFault>
    requires { IsAgent page.now.agent.now }
    ensures exchanges { Exchanges (header.now ++ octets_of page.now) page.now.limit
        (W.written writer.old) (W.written writer.new)
        (W.failures writer.old) (W.failures writer.new) (S.left reader.old)
        (S.failures reader.old) (S.failures reader.new) result }
    ensures ends { EndsAs (S.left reader.old) (S.left reader.new) page.now.limit result ending.new }
    ensures asked { ending.new ≡ KeepAlive → page.now.ending ≡ KeepAlive }
{
    *ending = ConnectionEnding::Close;
    write_behind(writer, header, page)?;
    match page.ending {
        ConnectionEnding::Close => read_response(alloc, reader, page.limit),
        ConnectionEnding::KeepAlive => read_response_with(alloc, reader, page.limit, ending),
    }
}

// Writes the header, and then the request.
fn write_behind<W: Sink>(
    writer: &mut W,
    header: &[u8],
    page: &PageRequest<'_, '_>,
) -> Result<(), WireFault>
    requires { IsAgent page.now.agent.now }
    ensures ok { OnOk result (Appends (W.written writer.old) (W.written writer.new)
        (header.now ++ octets_of page.now)) }
    ensures err { OnErr result (AppendsPrefix (W.written writer.old) (W.written writer.new)
        (header.now ++ octets_of page.now)) }
    ensures fault { OnErr result (result ≡ Err Device) }
    ensures count { W.failures writer.new ≡ failures_after (W.failures writer.old) result }
{
    write_all(writer, header)?;
    write_get_with(writer, page.url, page.agent, page.fields, page.ending)
}
