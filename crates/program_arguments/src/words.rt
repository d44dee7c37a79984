//! The arguments of the program's command line, read by `clap`.
//! No lower crate sees `clap`.
ghost use Rattle.std.specs.Prelude.{IfOk, IfSome, codes};
ghost use Rattle.clap.specs.Words.{found_of};
ghost use Rattle.gate_core.specs.Limits.{AreLimits};
ghost use Rattle.program_arguments.specs.Numbers.{IsNumberOf};
ghost use Rattle.program_arguments.specs.Options.{AreBadJobsOf, AreLimitsOf, AreNotesOf, AreSchemesOf, IsChosen, IsInRange, IsPipeOf, IsSetBy};

use crate::arguments::{SUBCOMMANDS, SubcommandArguments, texts};
use crate::checked::check_of;
use crate::command::program;
use crate::fetching::fetching_of;
use crate::http::http_of;
use crate::number_options::GENERATION;
use crate::numbers::{limits_of, number_of, serve_numbers_of, shift_numbers_of};
use crate::places::places_of;
use crate::refusal::{has_sign, refusal_of};
use crate::subcommand::{
    BadJobs, Notes, ReplayOptions, ServeOptions, ShiftOptions, ShiftOutput, Subcommand,
};
use crate::word_fault::WordFault;
use clap::error::ErrorKind;
use clap::{ArgMatches, Command, Error};
use gate_core::Limits;
use path_normal::Schemes;
use std::alloc::{AllocError, Global};

/// The result of reading the arguments.
#[derive(Drop)]
pub(crate) enum Chosen {
    Taken(Subcommand),
    /// Refused for this reason, though `clap` takes them.
    Refused(WordFault),
}

/// Reads the program's arguments, the first of which is its own name. The error is `clap`'s answer: its
/// help, or why it refuses them.
pub fn options<'a>(alloc: Global, words: &'a [&'a str]) -> Result<Subcommand, Error>
    ensures { IfOk result IsInRange }
{
    options_of(alloc, &SUBCOMMANDS, words)
}

// (The table is long: the proof of each function that names it holds all of it.)
fn options_of<'a>(
    alloc: Global,
    subcommands: &[SubcommandArguments],
    words: &'a [&'a str],
) -> Result<Subcommand, Error>
    ensures { IfOk result IsInRange }
{
    let texts = texts(alloc, subcommands)?;
    let mut program = program(alloc, subcommands, texts.as_slice())?;
    read_words(alloc, &mut program, words)
}

// (`clap`'s values are large: each has one owner, which makes one call.)
fn read_words<'a>(
    alloc: Global,
    program: &mut Command<'a>,
    words: &'a [&'a str],
) -> Result<Subcommand, Error>
    ensures { IfOk result IsInRange }
{
    match chosen_by(alloc, program, words)? {
        Chosen::Taken(subcommand) => Ok(subcommand),
        Chosen::Refused(fault) => {
            let said = refusal_of(alloc, words, fault)?;
            Err(program.error(ErrorKind::ValueValidation, said.as_str())?)
        }
    }
}

// The subcommand of the arguments, with options in range and no plus signs.
fn chosen_by<'a>(
    alloc: Global,
    program: &mut Command<'a>,
    words: &'a [&'a str],
) -> Result<Chosen, Error>
    ensures { IfOk result IsChosen }
{
    let matches = program.try_get_matches_from_mut(words)?;
    Ok(chosen_of(alloc, &matches, words)?)
}

fn chosen_of(alloc: Global, matches: &ArgMatches<'_>, words: &[&str]) -> Result<Chosen, AllocError>
    ensures { IfOk result IsChosen }
{
    match matches.subcommand() {
        Some(("check", check)) => check_of(alloc, check),
        _ if has_sign(words) => choice_of(Err(WordFault::Number)),
        Some(("serve", serve)) => choice_of(serve_of(alloc, serve)),
        Some(("shift", shift)) => choice_of(shift_of(alloc, shift)),
        _ => choice_of(piped_of(matches)),
    }
}

fn choice_of(read: Result<Subcommand, WordFault>) -> Result<Chosen, AllocError>
    requires { IfOk read IsInRange }
    ensures { IfOk result IsChosen }
{
    match read {
        Ok(subcommand) => Ok(Chosen::Taken(subcommand)),
        Err(WordFault::NoMemory) => Err(AllocError),
        Err(fault) => Ok(Chosen::Refused(fault)),
    }
}

// One of the subcommands that only read and write. `clap` has refused numbers out of range.
fn piped_of(matches: &ArgMatches<'_>) -> Result<Subcommand, WordFault>
    ensures { IfOk result IsInRange }
{
    match matches.subcommand() {
        Some(("replay", replay)) => replay_of(replay),
        Some(("audit", audit)) => Ok(audit_of(audit)),
        Some((_, lines)) => Ok(lines_of(lines)),
        // A subcommand is required.
        None => Ok(Subcommand::Lines(Notes::Untold)),
    }
}

fn replay_of(matches: &ArgMatches<'_>) -> Result<Subcommand, WordFault>
    ensures range { IfOk result IsInRange }
    ensures words { IfOk result (IsSetBy (found_of matches.now)) }
{
    let Some(limits) = replay_limits_of(matches) else {
        return Err(WordFault::Number);
    };
    let options = ReplayOptions {
        limits,
        schemes: schemes_of(matches),
    };
    if matches.get_flag("export") {
        Ok(Subcommand::Export(options))
    } else {
        Ok(Subcommand::Replay(options))
    }
}

fn replay_limits_of(matches: &ArgMatches<'_>) -> Option<Limits>
    ensures range { IfSome result AreLimits }
    ensures words { IfSome result (AreLimitsOf (found_of matches.now)) }
    ensures generation { IfSome result (λ limits.
        IsNumberOf (found_of matches.now) (codes "generation") limits.first_generation) }
{
    let first_generation = number_of(matches, GENERATION)?;
    limits_of(matches, first_generation)
}

fn audit_of(matches: &ArgMatches<'_>) -> Subcommand
    ensures range { IsInRange result }
    ensures words { IsSetBy (found_of matches.now) result }
{
    Subcommand::Audit(schemes_of(matches))
}

fn lines_of(matches: &ArgMatches<'_>) -> Subcommand
    ensures range { IsInRange result }
    ensures words { IsSetBy (found_of matches.now) result }
{
    Subcommand::Lines(notes_of(matches))
}

fn schemes_of(matches: &ArgMatches<'_>) -> Schemes
    ensures { AreSchemesOf (found_of matches.now) result }
{
    if matches.get_flag("https") {
        Schemes::HttpAndHttps
    } else {
        Schemes::Http
    }
}

fn notes_of(matches: &ArgMatches<'_>) -> Notes
    ensures { AreNotesOf (found_of matches.now) result }
{
    if matches.get_flag("notes") {
        Notes::Told
    } else {
        Notes::Untold
    }
}

fn shift_of(alloc: Global, matches: &ArgMatches<'_>) -> Result<Subcommand, WordFault>
    ensures range { IfOk result IsInRange }
    ensures words { IfOk result (IsSetBy (found_of matches.now)) }
{
    let Some(numbers) = shift_numbers_of(matches) else {
        return Err(WordFault::Number);
    };
    let fetching = fetching_of(alloc, matches)?;
    Ok(Subcommand::Shift(ShiftOptions {
        workers: numbers.workers,
        delay: numbers.delay,
        limits: numbers.limits,
        times: numbers.times,
        reach: fetching.reach,
        not_to: fetching.not_to,
        tls_by: fetching.tls_by,
        contact: fetching.contact,
        retry_closed: fetching.retry_closed,
        page_connections: fetching.page_connections,
        told: told_by(matches),
        bad_jobs: bad_jobs_of(matches),
        until: until_of(alloc, matches)?,
        journal: fetching.journal,
    }))
}

fn serve_of(alloc: Global, matches: &ArgMatches<'_>) -> Result<Subcommand, WordFault>
    ensures range { IfOk result IsInRange }
    ensures words { IfOk result (IsSetBy (found_of matches.now)) }
{
    let Some(numbers) = serve_numbers_of(matches) else {
        return Err(WordFault::Number);
    };
    let places = places_of(alloc, matches)?;
    let http = http_of(matches, places.http, numbers.http, numbers.workers)?;
    let fetching = fetching_of(alloc, matches)?;
    Ok(Subcommand::Serve(ServeOptions {
        place: places.clients,
        seal_place: places.overseers,
        http,
        workers: numbers.workers,
        connections: numbers.connections,
        limits: numbers.limits,
        times: numbers.times,
        texts: numbers.texts,
        page_limit: numbers.page_limit,
        reach: fetching.reach,
        not_to: fetching.not_to,
        tls_by: fetching.tls_by,
        contact: fetching.contact,
        retry_closed: fetching.retry_closed,
        page_connections: fetching.page_connections,
        patience: numbers.clients.patience,
        ahead: numbers.clients.ahead,
        client_permits: numbers.clients.client_permits,
        client_authorities: numbers.clients.client_authorities,
        client_entries: numbers.clients.client_entries,
        journal: fetching.journal,
    }))
}

fn bad_jobs_of(matches: &ArgMatches<'_>) -> BadJobs
    ensures { AreBadJobsOf (found_of matches.now) result }
{
    if matches.get_flag("skip") {
        BadJobs::Skip
    } else {
        BadJobs::End
    }
}

fn until_of(alloc: Global, matches: &ArgMatches<'_>) -> Result<Option<String>, AllocError>
    ensures { IfOk result (IsPipeOf (found_of matches.now)) }
{
    match matches.get_str("until") {
        Some(path) => Ok(Some(String::from_str(alloc, path)?)),
        None => Ok(None),
    }
}

fn told_by(matches: &ArgMatches<'_>) -> ShiftOutput {
    if matches.get_flag("export") {
        ShiftOutput::History
    } else if matches.get_flag("tsv") {
        ShiftOutput::Table
    } else {
        ShiftOutput::Outcomes
    }
}
