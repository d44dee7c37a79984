//! The values of number options, each matched under its own name and in its range.
//! `number_options` has their table.
ghost use Rattle.std.specs.Prelude.{◌≡◌, ◌≤◌, IfSome};
ghost use Rattle.permit_book.specs.Numbers.{last_generation};
ghost use Rattle.gate_core.specs.Limits.{AreLimits};
ghost use Rattle.clap.specs.Words.{found_of};
ghost use Rattle.client_connections.specs.Accepts.{AreServed};
ghost use Rattle.program_arguments.specs.Options.{AreClientBounds, AreClientBoundsOf, AreConnectionsOf, AreLimitsOf, AreServeNumbers, AreServeNumbersOf, AreShiftNumbers, AreShiftNumbersOf, AreTimesOf, IsAheadOf, IsAllowedAhead};
ghost use Rattle.program_arguments.specs.Numbers.{IsBoundOf, IsBoundWithin, IsNumberOf};
ghost use Rattle.http_client.specs.TimeLimits.{AreWithin};

use crate::http::{HttpNumbers, http_numbers_of};
use crate::number_options::{
    AHEAD, AUTHORITIES, CLIENT_AUTHORITIES, CLIENT_ENTRIES, CLIENT_PERMITS, CLIENTS, CONNECT,
    CONNECTIONS, DELAY, FETCH, JOBS, LOG, NumberOption, PAGE_LIMIT, PATIENCE, PLACES, READ, SLOTS,
    TEXTS,
};
use crate::subcommand::Ahead;
use clap::ArgMatches;
use client_connections::Connections;
use gate_core::Limits;
use http_client::TimeLimits;

/// The limits from the options, if in range.
pub(crate) fn limits_of(matches: &ArgMatches<'_>, first_generation: u64) -> Option<Limits>
    requires { (1 ≤ first_generation) × (first_generation ≤ last_generation) }
    ensures range { IfSome result AreLimits }
    ensures first { IfSome result (λ limits. limits.first_generation ≡ first_generation) }
    ensures words { IfSome result (AreLimitsOf (found_of matches.now)) }
{
    Some(Limits {
        slots: number_of(matches, SLOTS)?,
        first_generation,
        log_limit: number_of(matches, LOG)?,
        authority_limit: number_of(matches, AUTHORITIES)?,
        places: number_of(matches, PLACES)?,
    })
}

/// The bound from an option, or none without it; if in range.
pub(crate) fn bound_of(matches: &ArgMatches<'_>, option: NumberOption) -> Option<Option<u64>>
    ensures range { IfSome result (IsBoundWithin option.least option.most) }
    ensures word { IfSome result (IsBoundOf (found_of matches.now) option.name.now) }
{
    match matches.get_str(option.name) {
        Some(_) => Some(Some(number_of(matches, option)?)),
        None => Some(None),
    }
}

/// The number from the option, if in range.
pub(crate) fn number_of(matches: &ArgMatches<'_>, option: NumberOption) -> Option<u64>
    ensures least { IfSome result (λ number. option.least ≤ number) }
    ensures most { IfSome result (λ number. number ≤ option.most) }
    ensures word { IfSome result (IsNumberOf (found_of matches.now) option.name.now) }
{
    let number = matches.get_one::<u64>(option.name)?;
    if option.least <= number && number <= option.most {
        Some(number)
    } else {
        None
    }
}

/// The port from the option.
pub(crate) fn port_of(matches: &ArgMatches<'_>, option: NumberOption) -> Option<u16>
    ensures { IfSome result (IsNumberOf (found_of matches.now) option.name.now) }
{
    u16::try_from(number_of(matches, option)?).ok()
}

/// The time limits from the options, if in range.
pub(crate) fn times_of(matches: &ArgMatches<'_>) -> Option<TimeLimits>
    ensures within { IfSome result AreWithin }
    ensures words { IfSome result (AreTimesOf (found_of matches.now)) }
{
    let connect = number_of(matches, CONNECT)?;
    let step = number_of(matches, READ)?;
    let whole = number_of(matches, FETCH)?;
    Some(TimeLimits::of_seconds(connect, step, whole))
}

/// How long the gate fetches for lines sent ahead; unlimited without the option.
pub(crate) fn ahead_of(matches: &ArgMatches<'_>) -> Option<Ahead>
    ensures range { IfSome result IsAllowedAhead }
    ensures words { IfSome result (IsAheadOf (found_of matches.now)) }
{
    match matches.get_str("ahead") {
        Some(_) => Some(Ahead::Seconds(number_of(matches, AHEAD)?)),
        None => Some(Ahead::Unbounded),
    }
}

/// The number of connections from the option, or no limit.
pub(crate) fn connections_of(matches: &ArgMatches<'_>) -> Option<Connections>
    ensures range { IfSome result AreServed }
    ensures words { IfSome result (AreConnectionsOf (found_of matches.now)) }
{
    let count = number_of(matches, CONNECTIONS)?;
    if matches.get_flag("endless") {
        Some(Connections::Endless)
    } else {
        Some(Connections::AtMost(count))
    }
}

/// What one client of a server may have.
#[derive(Clone, Copy)]
pub(crate) struct ClientBounds {
    pub(crate) patience: u64,
    pub(crate) ahead: Ahead,
    pub(crate) client_permits: Option<u64>,
    pub(crate) client_authorities: Option<u64>,
    pub(crate) client_entries: Option<u64>,
}

/// The bounds of each client from the options, if in range.
pub(crate) fn client_bounds_of(matches: &ArgMatches<'_>) -> Option<ClientBounds>
    ensures range { IfSome result AreClientBounds }
    ensures words { IfSome result (AreClientBoundsOf (found_of matches.now)) }
{
    Some(ClientBounds {
        patience: number_of(matches, PATIENCE)?,
        ahead: ahead_of(matches)?,
        client_permits: bound_of(matches, CLIENT_PERMITS)?,
        client_authorities: bound_of(matches, CLIENT_AUTHORITIES)?,
        client_entries: bound_of(matches, CLIENT_ENTRIES)?,
    })
}

/// The options of a shift that are numbers.
#[derive(Clone, Copy)]
pub(crate) struct ShiftNumbers {
    pub(crate) workers: u64,
    pub(crate) delay: u64,
    pub(crate) limits: Limits,
    pub(crate) times: TimeLimits,
}

/// The numbers of a shift from the options, if in range.
pub(crate) fn shift_numbers_of(matches: &ArgMatches<'_>) -> Option<ShiftNumbers>
    ensures range { IfSome result AreShiftNumbers }
    ensures words { IfSome result (AreShiftNumbersOf (found_of matches.now)) }
{
    Some(ShiftNumbers {
        workers: number_of(matches, JOBS)?,
        delay: number_of(matches, DELAY)?,
        limits: limits_of(matches, Limits::usual().first_generation)?,
        times: times_of(matches)?,
    })
}

/// The options of a server that are numbers.
#[derive(Clone, Copy)]
pub(crate) struct ServeNumbers {
    pub(crate) workers: u64,
    pub(crate) connections: Connections,
    pub(crate) limits: Limits,
    pub(crate) times: TimeLimits,
    pub(crate) texts: Option<u64>,
    pub(crate) page_limit: u64,
    pub(crate) http: HttpNumbers,
    pub(crate) clients: ClientBounds,
}

/// The numbers of a server from the options, if in range.
pub(crate) fn serve_numbers_of(matches: &ArgMatches<'_>) -> Option<ServeNumbers>
    ensures range { IfSome result AreServeNumbers }
    ensures words { IfSome result (AreServeNumbersOf (found_of matches.now)) }
{
    Some(ServeNumbers {
        workers: number_of(matches, CLIENTS)?,
        connections: connections_of(matches)?,
        limits: limits_of(matches, Limits::usual().first_generation)?,
        times: times_of(matches)?,
        texts: bound_of(matches, TEXTS)?,
        page_limit: number_of(matches, PAGE_LIMIT)?,
        http: http_numbers_of(matches)?,
        clients: client_bounds_of(matches)?,
    })
}
