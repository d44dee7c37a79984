//! The address of the program that opens TLS, on this machine only, since what goes there is plain.
//! See docs/crawlgate.1.md.
ghost use Rattle.std.specs.Prelude.{IfErr, IfOk, IfSome};
ghost use Rattle.clap.specs.Words.{found_of};
ghost use Rattle.program_arguments.specs.Tls.{IsLoopback, IsTlsByOf, NamesNoLoopback};

use clap::ArgMatches;
use std::net::SocketAddr;

/// The option names no address and port of this machine.
#[derive(Clone, Copy, Debug, PartialEq, Eq)]
pub(crate) struct NotLoopback;

/// The address and port from the option, if any.
pub(crate) fn tls_by_of(matches: &ArgMatches<'_>) -> Result<Option<SocketAddr>, NotLoopback>
    ensures range { IfOk result (λ found. IfSome found IsLoopback) }
    ensures words { IfOk result (IsTlsByOf (found_of matches.now)) }
    ensures refused { IfErr result (λ _. NamesNoLoopback (found_of matches.now)) }
{
    let Some(text) = matches.get_str("tls-by") else {
        return Ok(None);
    };
    match text.parse::<SocketAddr>() {
        Ok(address) if address.ip().is_loopback() => Ok(Some(address)),
        _ => Err(NotLoopback),
    }
}
