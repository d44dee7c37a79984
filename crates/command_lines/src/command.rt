//! One command line as a command, or its first fault.
//! Used by the session; `CallOf` has the order of the checks.
ghost use Rattle.std.specs.Prelude.{◌≡◌, IfOk, IsTrue, MatchOption, false, true};
ghost use Rattle.path_normal.specs.Capacity.{IsRead};
ghost use Rattle.command_lines.specs.CallOf.{arguments_of, CanBeMade, command_of};
ghost use Rattle.command_lines.specs.CallOf.{is_line_octet};
ghost use Rattle.command_lines.specs.CallOf.{has_line_octets, takes, timed_words_of, verb_words_of};

use crate::arrival::Arrival;
use crate::calls::{
    read_arrive, read_authority_alone, read_begin, read_job_words, read_page_alone,
    read_permit_alone, read_start,
};
use crate::fault::LineFault;
use crate::known_pages::{Known, KnownPages, NoPages};
use crate::line_words::{FRONT, LineWords};
use crate::verbs::{Dialogue, Verb};
use crawl_job::Job;
use gate_core::Call;
use line_text::number_of;
use path_normal::{Authority, PageUrl, Schemes};
use robots_text::LastToken;
use std::alloc::Global;

/// What a command line asks for.
#[derive(Drop)]
pub enum Command<'a> {
    /// A call of the book.
    Call(Call),
    /// The book's call that brings the answer of a robots fetch.
    Arrive(Arrival<'a>),
    /// What is known of an authority.
    State { authority: Authority, moment: u64 },
    /// The entries since the last seal.
    Seal,
    /// A robots fetch of an authority.
    Refresh { authority: Authority },
    /// The fetch of a page, and of its redirects.
    Fetch(Job),
    /// The text of a page's URL.
    Url(PageUrl),
    /// How much the gate keeps.
    Info,
    /// The standing answer of an authority.
    Why { authority: Authority },
    /// The end of the session.
    Quit,
}

/// Reads a command line of a dialogue, without its line end, with what is known of pages and tokens.
pub fn read_command<'a, P: KnownPages>(
    alloc: Global,
    schemes: Schemes,
    dialogue: Dialogue,
    line: &'a [u8],
    known: &Known<'_, P>,
) -> Result<Command<'a>, LineFault>
    ensures read { IsRead result (command_of schemes dialogue line.now) }
    ensures spare { IfOk result CanBeMade }
{
    let mut room = [""; FRONT];
    let words = match LineWords::of(line, &mut room) {
        Ok(words) => words,
        Err(fault) => return Err(fault),
    };
    match dialogue {
        Dialogue::Replay => read_timed(alloc, schemes, words, known),
        Dialogue::Client { moment, .. } | Dialogue::Overseer { moment } => {
            read_verb(alloc, schemes, dialogue, moment, words, known)
        }
    }
}

pub(crate) fn plain_text(line: &[u8]) -> Option<&str>
    ensures { MatchOption result (has_line_octets line.now ≡ false)
        (λ text. (has_line_octets line.now ≡ true) × (text.now ≡ line.now)) }
{
    if !has_line_octets(line) {
        return None;
    }
    std::str::from_utf8(line).ok()
}

/// Whether a line has only the octets of command lines. It has no early end, so that many octets are tested at
/// once.
pub(crate) fn has_line_octets(line: &[u8]) -> bool
    ensures { result ≡ has_line_octets line.now }
{
    let mut has = true;
    for octet in line {
        has &= is_line_octet(*octet);
    }
    has
}

fn is_line_octet(octet: u8) -> bool
    ensures { result ≡ is_line_octet octet }
{
    (32..=126).contains(&octet)
}

fn read_timed<'a, P: KnownPages>(
    alloc: Global,
    schemes: Schemes,
    words: LineWords<'a, '_>,
    known: &Known<'_, P>,
) -> Result<Command<'a>, LineFault>
    ensures read { IsRead result (timed_words_of schemes words.entry) }
    ensures spare { IfOk result CanBeMade }
{
    let mut words = words;
    let Some(first) = words.next() else {
        return Err(LineFault::Moment);
    };
    let Some(moment) = number_of(first) else {
        return Err(LineFault::Moment);
    };
    read_verb(alloc, schemes, Dialogue::Replay, moment, words, known)
}

fn read_verb<'a, P: KnownPages>(
    alloc: Global,
    schemes: Schemes,
    dialogue: Dialogue,
    moment: u64,
    words: LineWords<'a, '_>,
    known: &Known<'_, P>,
) -> Result<Command<'a>, LineFault>
    ensures read { IsRead result (verb_words_of schemes dialogue moment words.entry) }
    ensures spare { IfOk result CanBeMade }
{
    let mut words = words;
    let Some(name) = words.next() else {
        return Err(LineFault::Verb);
    };
    let Some(verb) = Verb::of(dialogue, name) else {
        return Err(LineFault::Verb);
    };
    let row = verb.row();
    if !words.count_is_within(row.least, row.most) {
        return Err(LineFault::Words);
    }
    read_arguments(alloc, schemes, verb, moment, words, known)
}

fn read_arguments<'a, P: KnownPages>(
    alloc: Global,
    schemes: Schemes,
    verb: Verb,
    moment: u64,
    words: LineWords<'a, '_>,
    known: &Known<'_, P>,
) -> Result<Command<'a>, LineFault>
    requires { IsTrue (takes verb words) }
    ensures read { IsRead result (arguments_of schemes verb moment words.entry) }
    ensures spare { IfOk result CanBeMade }
{
    Ok(Command::Call(match verb {
        Verb::Begin => read_begin(alloc, schemes, moment, words)?,
        Verb::Arrive => {
            let arrival = read_arrive(alloc, schemes, moment, words.left())?;
            return Ok(Command::Arrive(arrival));
        }
        Verb::Ask => {
            let Job { token, url } = read_job_words(alloc, schemes, words, known.last)?;
            Call::Ask { token, url, moment }
        }
        Verb::Start => read_start(alloc, schemes, moment, words, known)?,
        Verb::Back => Call::Back {
            number: read_permit_alone(words)?,
        },
        Verb::Done => Call::Finish {
            number: read_permit_alone(words)?,
        },
        Verb::State => {
            let authority = read_authority_alone(alloc, schemes, words)?;
            return Ok(Command::State { authority, moment });
        }
        Verb::Sweep => Call::Sweep { moment },
        Verb::Seal => return Ok(Command::Seal),
        Verb::Refresh => {
            let authority = read_authority_alone(alloc, schemes, words)?;
            return Ok(Command::Refresh { authority });
        }
        Verb::Fetch => return Ok(Command::Fetch(read_job_words(
            alloc, schemes, words, known.last,
        )?)),
        Verb::Url => return Ok(Command::Url(read_page_alone(alloc, schemes, words)?)),
        Verb::Info => return Ok(Command::Info),
        Verb::Why => {
            let authority = read_authority_alone(alloc, schemes, words)?;
            return Ok(Command::Why { authority });
        }
        Verb::Quit => return Ok(Command::Quit),
    }))
}
