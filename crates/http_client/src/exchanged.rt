//! What an exchange over one connection comes to.
//! RFC 9112, sections 9.3 to 9.6.
ghost use Rattle.std.specs.Prelude.{◌≡◌, None};
ghost use Rattle.http_wire.specs.Response.{Tells};
ghost use Rattle.http_wire.specs.declared.ending.ConnectionEnding.TheVariants.{KeepAlive};
ghost use Rattle.http_client.specs.Agent.{IsAgent};

use crate::failure::Failure;
use crate::heard::{Heard, Nothing};
use crate::http_exchange::exchange_ending;
use crate::noted::Noted;
use crate::page_request::PageRequest;
use crate::timed_stream::TimedStream;
use crate::tls_exchange::exchange_through;
use counted_io::Counted;
use http_wire::{ConnectionEnding, HttpReply, WireFault};
use std::alloc::Global;
use std::time;
use stream_waits::Waits;

/// The result of an exchange, and its connection.
#[derive(Drop)]
pub(crate) struct Exchanged {
    pub(crate) given: Result<HttpReply, WireFault>,
    /// Why the connection failed, as far as the system knows.
    pub(crate) told: Option<Failure>,
    /// Whether an octet of the response came.
    pub(crate) heard: bool,
    /// What becomes of the connection.
    pub(crate) ending: ConnectionEnding,
}

impl Exchanged {
    /// Whether the connection ended before an octet of the response came. A time limit is no such end.
    pub(crate) fn is_unheard(&self) -> bool {
        match (&self.given, self.told) {
            (Err(WireFault::EarlyEnd), None) => !self.heard,
            (Err(WireFault::Device), Some(Failure::Reset)) => !self.heard,
            _ => false,
        }
    }
}

/// An exchange over a connection to the site.
pub(crate) fn exchange_straight<R: time::Clock, S: Waits + Drop>(
    alloc: Global,
    reader: TimedStream<'_, R, S>,
    writer: TimedStream<'_, R, S>,
    page: &PageRequest<'_, '_>,
) -> Exchanged
    requires { IsAgent page.now.agent.now }
    ensures tells { Tells None page.now.limit result.given }
    ensures asked { result.ending ≡ KeepAlive → page.now.ending ≡ KeepAlive }
{
    let mut reader = Counted::new(Noted {
        stream: reader,
        any: false,
    });
    let mut writer = Counted::new(writer);
    let mut ending = ConnectionEnding::Close;
    let given = exchange_ending(alloc, &mut reader, &mut writer, &[], page, &mut ending);
    let noted = reader.into_inner();
    Exchanged {
        given,
        told: writer.into_inner().failure.or(noted.stream.failure),
        heard: noted.any,
        ending,
    }
}

/// An exchange over a connection to the TLS program, to which the header goes first.
pub(crate) fn exchange_by_tls<R: time::Clock, S: Waits + Drop>(
    alloc: Global,
    reader: TimedStream<'_, R, S>,
    writer: TimedStream<'_, R, S>,
    header: &[u8],
    page: &PageRequest<'_, '_>,
) -> Exchanged
    requires { IsAgent page.now.agent.now }
    ensures tells { Tells None page.now.limit result.given }
    ensures asked { result.ending ≡ KeepAlive → page.now.ending ≡ KeepAlive }
{
    let mut writer = Counted::new(writer);
    let mut ending = ConnectionEnding::Close;
    let (given, heard): (_, Heard<_, Nothing>) = exchange_through(
        alloc,
        reader,
        &mut writer,
        header,
        page,
        &mut ending,
    );
    Exchanged {
        given,
        told: writer.into_inner().failure.or(heard.stream.failure),
        heard: heard.any,
        ending,
    }
}
