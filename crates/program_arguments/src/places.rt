//! Where a server's clients and its overseers connect.
//! See docs/crawlgate.1.md.
ghost use Rattle.std.specs.Prelude.{IfOk};
ghost use Rattle.clap.specs.Words.{found_of};
ghost use Rattle.program_arguments.specs.Options.{ArePlacesOf, IsHttpPlaceOf, IsPlaceOf, IsSealPlaceOf, IsSocketAt};

use crate::number_options::{HTTP, PORT, SEAL_PORT};
use crate::numbers::port_of;
use crate::subcommand::ListenAddress;
use crate::word_fault::WordFault;
use clap::ArgMatches;
use std::alloc::Global;

// The most octets of a socket's path. (Linux takes 107; the socket is made at a path with 11 more.)
const MAX_PATH: usize = 96;

/// Where clients connect, and overseers and HTTP clients, if they have places of their own.
#[derive(Drop)]
pub(crate) struct ServePlaces {
    pub(crate) clients: ListenAddress,
    pub(crate) overseers: Option<ListenAddress>,
    pub(crate) http: Option<ListenAddress>,
}

/// The places from the options.
pub(crate) fn places_of(alloc: Global, matches: &ArgMatches<'_>) -> Result<ServePlaces, WordFault>
    ensures { IfOk result (ArePlacesOf (found_of matches.now)) }
{
    Ok(ServePlaces {
        clients: place_of(alloc, matches)?,
        overseers: seal_place_of(alloc, matches)?,
        http: http_place_of(alloc, matches)?,
    })
}

fn place_of(alloc: Global, matches: &ArgMatches<'_>) -> Result<ListenAddress, WordFault>
    ensures { IfOk result (IsPlaceOf (found_of matches.now)) }
{
    if let Some(path) = matches.get_str("socket") {
        return socket_at(alloc, path);
    }
    match port_of(matches, PORT) {
        Some(port) => Ok(ListenAddress::Port(port)),
        None => Err(WordFault::Number),
    }
}

fn seal_place_of(
    alloc: Global,
    matches: &ArgMatches<'_>,
) -> Result<Option<ListenAddress>, WordFault>
    ensures { IfOk result (IsSealPlaceOf (found_of matches.now)) }
{
    if let Some(path) = matches.get_str("seal-socket") {
        return Ok(Some(socket_at(alloc, path)?));
    }
    if matches.get_str("seal-port").is_none() {
        return Ok(None);
    }
    match port_of(matches, SEAL_PORT) {
        Some(port) => Ok(Some(ListenAddress::Port(port))),
        None => Err(WordFault::Number),
    }
}

fn http_place_of(
    alloc: Global,
    matches: &ArgMatches<'_>,
) -> Result<Option<ListenAddress>, WordFault>
    ensures { IfOk result (IsHttpPlaceOf (found_of matches.now)) }
{
    if let Some(path) = matches.get_str("http-socket") {
        return Ok(Some(socket_at(alloc, path)?));
    }
    if matches.get_str("http").is_none() {
        return Ok(None);
    }
    match port_of(matches, HTTP) {
        Some(port) => Ok(Some(ListenAddress::Port(port))),
        None => Err(WordFault::Number),
    }
}

fn socket_at(alloc: Global, path: &str) -> Result<ListenAddress, WordFault>
    ensures { IfOk result (IsSocketAt path.now) }
{
    if !is_path(path) {
        return Err(WordFault::Path);
    }
    Ok(ListenAddress::Socket(String::from_str(alloc, path)?))
}

/// Whether a socket may have this path: one line of text, short enough for a socket made beside it.
pub(crate) fn is_path(path: &str) -> bool {
    !path.is_empty()
        && path.len() <= MAX_PATH
        && !path.bytes().any(|octet| octet.is_ascii_control())
}
