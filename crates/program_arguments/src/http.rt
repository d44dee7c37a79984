//! How a server serves HTTP clients, by the options.
//! See docs/crawlgate.1.md.
ghost use Rattle.std.specs.Prelude.{◌≡◌, ◌≤◌, IfOk, IfSome};
ghost use Rattle.job_line.specs.Limits.{IsCrew};
ghost use Rattle.clap.specs.Words.{found_of};
ghost use Rattle.program_arguments.specs.Options.{AreHttpNumbers, AreHttpNumbersOf, AreClientFieldsOf, AreHttpWithin, IsHttpOf, IsHttpPlaceOf, IsRetryAfterOf};

use crate::number_options::{DELAY, FETCHERS, HTTP_CONNECTIONS};
use crate::numbers::bound_of;
use crate::subcommand::{ClientFields, HttpOptions, ListenAddress, RetryAfter};
use crate::word_fault::WordFault;
use clap::ArgMatches;

// How many connections HTTP clients have at a time without the option.
const USUAL_CONNECTIONS: u64 = 1_024;

/// The options for HTTP clients that are numbers, each if it is there.
#[derive(Clone, Copy)]
pub(crate) struct HttpNumbers {
    pub(crate) connections: Option<u64>,
    pub(crate) fetchers: Option<u64>,
    pub(crate) delay: Option<u64>,
}

/// The numbers for HTTP clients from the options, if in range.
pub(crate) fn http_numbers_of(matches: &ArgMatches<'_>) -> Option<HttpNumbers>
    ensures range { IfSome result AreHttpNumbers }
    ensures words { IfSome result (AreHttpNumbersOf (found_of matches.now)) }
{
    Some(HttpNumbers {
        connections: bound_of(matches, HTTP_CONNECTIONS)?,
        fetchers: bound_of(matches, FETCHERS)?,
        delay: bound_of(matches, DELAY)?,
    })
}

/// How HTTP clients are served at this place, if there is one. Without `--fetchers` as many threads fetch for
/// them as there are workers.
pub(crate) fn http_of(
    matches: &ArgMatches<'_>,
    place: Option<ListenAddress>,
    numbers: HttpNumbers,
    workers: u64,
) -> Result<Option<HttpOptions>, WordFault>
    requires place { IsHttpPlaceOf (found_of matches.now) place }
    requires numbers { AreHttpNumbers numbers × AreHttpNumbersOf (found_of matches.now) numbers }
    requires workers { IsCrew workers }
    ensures range { IfOk result (λ http. IfSome http AreHttpWithin) }
    ensures words { IfOk result (IsHttpOf (found_of matches.now) workers) }
{
    let retry_after = retry_after_of(matches);
    let fields = fields_of(matches);
    let Some(place) = place else {
        let flags = (retry_after, fields);
        return match (numbers.connections, numbers.fetchers, numbers.delay, flags) {
            (None, None, None, (RetryAfter::Ignored, ClientFields::Dropped)) => Ok(None),
            _ => Err(WordFault::NoHttp),
        };
    };
    Ok(Some(HttpOptions {
        place,
        connections: numbers.connections.unwrap_or(USUAL_CONNECTIONS),
        fetchers: numbers.fetchers.unwrap_or(workers),
        delay: numbers.delay.unwrap_or(0),
        retry_after,
        fields,
    }))
}

fn fields_of(matches: &ArgMatches<'_>) -> ClientFields
    ensures { AreClientFieldsOf (found_of matches.now) result }
{
    if matches.get_flag("forward") {
        ClientFields::Forwarded
    } else {
        ClientFields::Dropped
    }
}

fn retry_after_of(matches: &ArgMatches<'_>) -> RetryAfter
    ensures { IsRetryAfterOf (found_of matches.now) result }
{
    if matches.get_flag("heed-retry-after") {
        RetryAfter::Heeded
    } else {
        RetryAfter::Ignored
    }
}
