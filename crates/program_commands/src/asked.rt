//! Carries out the program's arguments.
//! See docs/crawlgate.1.md.
ghost use Rattle.std.specs.Prelude.{IfOk};
ghost use Rattle.program_arguments.specs.Options.{IsInRange};
ghost use Rattle.program_commands.specs.Ready.{IsReady};

use crate::audits::audit_streams;
use crate::checks::check_streams;
use crate::ending::Ending;
use crate::next::Next;
use crate::records::lines_streams;
use crate::replays::{export_streams, replay_streams};
use crate::streams::closed_stream;
use clap::Error;
use clap::error::ErrorKind;
use program_arguments::{Subcommand, options};
use std::alloc::{AllocError, Global};
use std::{env, io};

/// Reads the program's arguments, and does what they ask for, except a shift or a server.
pub fn run(rt: &HostRuntime) -> Next
    ensures { IsReady result }
{
    let mut owned = Vec::new(rt.alloc());
    match run_taken(rt, &mut owned) {
        Ok(next) => next,
        // The error comes from printing, or from a lack of memory outside a session.
        Err(error) if error.kind() == io::ErrorKind::OutOfMemory => Next::Ends(Ending::NoMemory),
        Err(_) => Next::Ends(Ending::Device),
    }
}

fn run_taken(rt: &HostRuntime, owned: &mut Vec<String>) -> io::Result<Next>
    ensures { IfOk result IsReady }
{
    match take_words(rt, owned)? {
        None => run_owned(rt, owned.as_slice()),
        Some(ending) => Ok(Next::Ends(ending)),
    }
}

// Takes the program's arguments, or the ending without them.
fn take_words(rt: &HostRuntime, owned: &mut Vec<String>) -> io::Result<Option<Ending>> {
    match env::args(rt) {
        Ok(given) => {
            for word in given {
                owned.push(word)?;
            }
            Ok(None)
        }
        Err(error) if error.kind() == io::ErrorKind::OutOfMemory => Ok(Some(Ending::NoMemory)),
        Err(_) => {
            // The arguments are bad even if this can't be printed.
            let _ = eprintln!(rt; "crawlgate: an argument is not UTF-8");
            Ok(Some(Ending::BadWords))
        }
    }
}

fn run_owned(rt: &HostRuntime, owned: &[String]) -> io::Result<Next>
    ensures { IfOk result IsReady }
{
    let mut words = Vec::new(rt.alloc());
    for word in owned {
        words.push(word.as_str())?;
    }
    run_words(rt, words.as_slice())
}

fn run_words(rt: &HostRuntime, words: &[&str]) -> io::Result<Next>
    ensures { IfOk result IsReady }
{
    match options(rt.alloc(), words) {
        Ok(subcommand) => Ok(run_subcommand(rt, subcommand)),
        Err(error) if error.kind() == ErrorKind::OutOfMemory => Ok(Next::Ends(Ending::NoMemory)),
        Err(error) => {
            tell_refused(rt, words, error)?;
            Ok(Next::Ends(Ending::BadWords))
        }
    }
}

// Tells why words are refused. If the message would show control characters of them, they are told with
// these escaped, since a terminal would obey them.
fn tell_refused(rt: &HostRuntime, words: &[&str], error: Error) -> io::Result<()> {
    let message = error.to_string(rt.alloc())?;
    if !has_controls(message.as_str()) && !words.iter().any(|word| word.contains('\n')) {
        let _ = eprint!(rt; "{message}");
        return Ok(());
    }
    let mut escaped = Vec::new(rt.alloc());
    for word in words {
        escaped.push(escaped_of(rt.alloc(), word)?)?;
    }
    tell_escaped(rt, escaped.as_slice())
}

// Reads the words once more, as they are told.
fn tell_escaped(rt: &HostRuntime, escaped: &[String]) -> io::Result<()> {
    let mut words = Vec::new(rt.alloc());
    for word in escaped {
        words.push(word.as_str())?;
    }
    let _ = match options(rt.alloc(), words.as_slice()) {
        Err(error) => eprint!(rt; "{}", error.to_string(rt.alloc())?),
        Ok(_) => eprintln!(rt; "crawlgate: an argument has control characters"),
    };
    Ok(())
}

// Whether a message has control characters other than line feeds.
fn has_controls(message: &str) -> bool {
    message
        .chars()
        .any(|letter| letter.is_control() && letter != '\n')
}

fn escaped_of(alloc: Global, word: &str) -> Result<String, AllocError> {
    let mut escaped = String::new(alloc);
    for letter in word.escape_debug() {
        escaped.push(letter)?;
    }
    Ok(escaped)
}

fn run_subcommand(rt: &HostRuntime, subcommand: Subcommand) -> Next
    requires { IsInRange subcommand }
    ensures { IsReady result }
{
    if let Some(stream) = closed_stream(rt) {
        return Next::Ends(Ending::ClosedStream(stream));
    }
    match subcommand {
        Subcommand::Replay(options) => Next::Ends(replay_streams(rt, options)),
        Subcommand::Export(options) => Next::Ends(export_streams(rt, options)),
        Subcommand::Lines(notes) => Next::Ends(lines_streams(rt, notes)),
        Subcommand::Check(options) => Next::Ends(check_streams(rt, options)),
        Subcommand::Audit(schemes) => Next::Ends(audit_streams(rt, schemes)),
        Subcommand::Shift(options) => Next::Shift(options),
        Subcommand::Serve(options) => Next::Serve(options),
    }
}
