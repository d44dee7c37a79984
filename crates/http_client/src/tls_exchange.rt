//! One request and its response through the TLS program.
//! RFC 9112, sections 8 and 9.8.
ghost use Rattle.std.specs.Prelude.{◌≡◌, None, false, true};
ghost use Rattle.std.specs.Io.KnownBytes.{append_known};
ghost use Rattle.http_wire.specs.Persistence.{EndsAs};
ghost use Rattle.http_wire.specs.Response.{Tells};
ghost use Rattle.http_wire.specs.declared.ending.ConnectionEnding.TheVariants.{Close, KeepAlive};
ghost use Rattle.http_client.specs.Agent.{IsAgent};
ghost use Rattle.http_client.specs.Cut.{IsWholeBefore, unless_ended};

use crate::heard::{Heard, Unseen};
use crate::http_exchange::exchange_ending;
use crate::page_request::PageRequest;
use counted_io::{Counted, Sink};
use http_wire::{ConnectionEnding, HttpReply, WireFault};
use std::alloc::Global;
use std::io::Read;

/// `exchange_ending` over a connection to the TLS program, which is given back.
///
/// Where TLS was cut that connection ends as if it had been ended, so a response which only that end would
/// end is `EarlyEnd`: one with neither a length nor chunks, unless its body is over the limit.
#[tactic(auto, using(crate::proofs::Ends::through_ends))]
pub(crate) fn exchange_through<S: Read, W: Sink, U: Unseen>(
    alloc: Global,
    stream: S,
    writer: &mut W,
    header: &[u8],
    page: &PageRequest<'_, '_>,
    ending: &mut ConnectionEnding,
) -> (Result<HttpReply, WireFault>, Heard<S, U>)
    requires { IsAgent page.now.agent.now }
    ensures tells { Tells None page.now.limit result.0 }
    ensures ends { EndsAs (append_known (S.remaining stream) U.octets)
        (append_known (S.remaining result.1.stream) U.octets) page.now.limit result.0 ending.new }
    ensures asked { ending.new ≡ KeepAlive → page.now.ending ≡ KeepAlive }
    ensures whole { IsWholeBefore U.octets (S.remaining stream) page.now.limit result.0 }
{
    let mut reader = Counted::new(Heard::new(stream));
    let given = exchange_ending(alloc, &mut reader, writer, header, page, ending);
    let heard: Heard<S, U> = reader.into_inner();
    close_if(heard.ended, ending);
    (unless_ended(given, heard.ended), heard)
}

// A connection whose end was read does not go on.
fn close_if(is_over: bool, ending: &mut ConnectionEnding)
    ensures ended { is_over ≡ true → ending.new ≡ Close }
    ensures open { is_over ≡ false → ending.new ≡ ending.old }
{
    if is_over {
        *ending = ConnectionEnding::Close;
    }
}

// The result of an exchange, by whether the connection's end was read.
fn unless_ended(given: Result<HttpReply, WireFault>, ended: bool) -> Result<HttpReply, WireFault>
    ensures { result ≡ unless_ended ended given }
{
    if ended {
        Err(WireFault::EarlyEnd)
    } else {
        given
    }
}
