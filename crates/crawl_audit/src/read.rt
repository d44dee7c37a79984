//! Reads a line as an entry. It is lenient: to accept only the canonical text, the entry is written again
//! and compared.
//! See docs/FORMATS.md.
ghost use Rattle.std.specs.Prelude.{◌≡◌, ◌≢◌, ◌↔◌, ◌∷◌, codes, Err, IfOk, IfSome, IsTrue, Some};
ghost use Rattle.line_text.specs.Number.{number_of};
ghost use Rattle.line_text.specs.Words.{words_left, words_of};
ghost use Rattle.robots_verdict.specs.declared.answer.Closure.{Closure};
ghost use Rattle.robots_verdict.specs.declared.answer.Opening.{Opening};
ghost use Rattle.gate_history.specs.Wording.{cause_named, reason_named};
ghost use Rattle.gate_history.specs.declared.entry.Entry.{Entry};
ghost use Rattle.history_text.specs.Entries.{HasFields, HasLife, IsEntry};
ghost use Rattle.crawl_audit.specs.Reading.{Reads, ReadsAnswer, ReadsEntry, head_word, tail_words};
ghost use Rattle.crawl_audit.specs.Records.{entry_of};
ghost use Rattle.history_text.specs.Spell.{closure_word, entry_line, opening_word};
ghost use Rattle.history_text.specs.declared.version.Version.{Version};

use crate::fields::{next_number, next_word, read_authority, read_body, read_page, read_token};
use crate::record::Record;
use crate::record_pieces::record_pieces;
use crate::unread_line::UnreadLine;
use authority_cache::{LIFE, TurnNo, life_of};
use gate_history::{Cause, Reason};
use history_text::Version;
use line_text::{Words, number_of};
use permit_book::{Fetch, PermitNo};
use robots_verdict::{Answer, Closure, Opening};
use std::alloc::Global;

/// Parses a line, without its end, as an entry.
pub(crate) fn read_line(alloc: Global, version: Version, line: &[u8]) -> Result<Record, UnreadLine>
    ensures spelled { IfOk result (λ found. line.now ≡ entry_line version (entry_of found)) }
    ensures entry { IfOk result (λ found. IsEntry version (entry_of found)) }
    ensures none { result ≡ Err UnreadLine.NotOne
        → (e : Entry) → IsEntry version e → line.now ≢ entry_line version e }
{
    let Ok(text) = str::from_utf8(line) else {
        return Err(UnreadLine::NotOne);
    };
    let found = read_words(alloc, version, text)?;
    if is_spelled(version, &found, line) {
        Ok(found)
    } else {
        drop(found);
        Err(UnreadLine::NotOne)
    }
}

// Whether this is the canonical line of the entry in the version.
fn is_spelled(version: Version, found: &Record, line: &[u8]) -> bool
    ensures spelled { IsTrue result ↔ (HasLife version (entry_of found.now)
        × (line.now ≡ entry_line version (entry_of found.now))) }
    ensures fields { HasFields (entry_of found.now) }
{
    let pieces = record_pieces(version, found);
    has_life(version, found) && pieces.is(line)
}

// Whether an arrival's life is one that the version allows.
fn has_life(version: Version, found: &Record) -> bool
    ensures { IsTrue result ↔ HasLife version (entry_of found.now) }
{
    match found {
        Record::Arrived { answer, life, .. } => match version {
            Version::One => *life == LIFE,
            Version::Two => life_of(answer, *life) == *life,
        },
        _ => true,
    }
}

fn read_words(alloc: Global, version: Version, text: &str) -> Result<Record, UnreadLine>
    ensures { ReadsEntry version (words_of text.now) result }
{
    let mut words = Words::of(text);
    let letter = next_word(&mut words);
    match letter {
        "B" => read_begun(alloc, words),
        "A" => read_arrived(alloc, version, words),
        "G" => read_granted(alloc, words),
        "N" => read_ask_denied(alloc, words),
        "S" => read_started(words),
        "D" => read_start_denied(words),
        "K" => read_returned(words),
        "F" => read_finished(words),
        "W" => read_swept(words),
        _ => Err(UnreadLine::NotOne),
    }
}

fn read_begun(alloc: Global, words: Words<'_>) -> Result<Record, UnreadLine>
    ensures { (version : Version) → ReadsEntry version (codes "B" ∷ words_left words.entry) result }
{
    let mut words = words;
    let moment = next_number(&mut words)?;
    let authority = read_authority(alloc, next_word(&mut words))?;
    let turn = TurnNo::new(next_number(&mut words)?);
    Ok(Record::Begun {
        moment,
        authority,
        turn,
    })
}

fn read_arrived(alloc: Global, version: Version, words: Words<'_>) -> Result<Record, UnreadLine>
    ensures { ReadsEntry version (codes "A" ∷ words_left words.entry) result }
{
    let mut words = words;
    let moment = next_number(&mut words)?;
    let authority = read_authority(alloc, next_word(&mut words))?;
    let turn = TurnNo::new(next_number(&mut words)?);
    let (answer, life) = read_answer(alloc, version, words)?;
    Ok(Record::Arrived {
        moment,
        authority,
        turn,
        answer,
        life,
    })
}

fn read_granted(alloc: Global, words: Words<'_>) -> Result<Record, UnreadLine>
    ensures { (version : Version) → ReadsEntry version (codes "G" ∷ words_left words.entry) result }
{
    let mut words = words;
    let moment = next_number(&mut words)?;
    let number = PermitNo::new(next_number(&mut words)?);
    let token = read_token(alloc, next_word(&mut words))?;
    let url = read_page(alloc, next_word(&mut words))?;
    Ok(Record::Granted {
        moment,
        number,
        fetch: Fetch { token, url },
    })
}

fn read_ask_denied(alloc: Global, words: Words<'_>) -> Result<Record, UnreadLine>
    ensures { (version : Version) → ReadsEntry version (codes "N" ∷ words_left words.entry) result }
{
    let mut words = words;
    let moment = next_number(&mut words)?;
    let token = read_token(alloc, next_word(&mut words))?;
    let url = read_page(alloc, next_word(&mut words))?;
    let cause = next_cause(&mut words)?;
    Ok(Record::AskDenied {
        moment,
        fetch: Fetch { token, url },
        cause,
    })
}

fn read_started(words: Words<'_>) -> Result<Record, UnreadLine>
    ensures { (version : Version) → ReadsEntry version (codes "S" ∷ words_left words.entry) result }
{
    let mut words = words;
    let moment = next_number(&mut words)?;
    let number = PermitNo::new(next_number(&mut words)?);
    let reason = next_reason(&mut words)?;
    Ok(Record::Started {
        moment,
        number,
        reason,
    })
}

fn read_start_denied(words: Words<'_>) -> Result<Record, UnreadLine>
    ensures { (version : Version) → ReadsEntry version (codes "D" ∷ words_left words.entry) result }
{
    let mut words = words;
    let moment = next_number(&mut words)?;
    let number = PermitNo::new(next_number(&mut words)?);
    let cause = next_cause(&mut words)?;
    Ok(Record::StartDenied {
        moment,
        number,
        cause,
    })
}

fn read_returned(words: Words<'_>) -> Result<Record, UnreadLine>
    ensures { (version : Version) → ReadsEntry version (codes "K" ∷ words_left words.entry) result }
{
    let mut words = words;
    let number = PermitNo::new(next_number(&mut words)?);
    Ok(Record::Returned { number })
}

fn read_finished(words: Words<'_>) -> Result<Record, UnreadLine>
    ensures { (version : Version) → ReadsEntry version (codes "F" ∷ words_left words.entry) result }
{
    let mut words = words;
    let number = PermitNo::new(next_number(&mut words)?);
    Ok(Record::Finished { number })
}

fn read_swept(words: Words<'_>) -> Result<Record, UnreadLine>
    ensures { (version : Version) → ReadsEntry version (codes "W" ∷ words_left words.entry) result }
{
    let mut words = words;
    let moment = next_number(&mut words)?;
    let count = next_number(&mut words)?;
    Ok(Record::Swept { moment, count })
}

/// An answer, and its life in seconds.
pub(crate) fn read_answer(
    alloc: Global,
    version: Version,
    words: Words<'_>,
) -> Result<(Answer, u64), UnreadLine>
    ensures { ReadsAnswer version (words_left words.entry) result }
{
    let mut words = words;
    match next_word(&mut words) {
        "R" => read_rules(alloc, version, words),
        "O" => match opening_named(next_word(&mut words)) {
            Some(opening) => Ok((Answer::Open(opening), LIFE)),
            None => Err(UnreadLine::NotOne),
        },
        "C" => match closure_named(next_word(&mut words)) {
            Some(closure) => Ok((Answer::Closed(closure), LIFE)),
            None => Err(UnreadLine::NotOne),
        },
        _ => Err(UnreadLine::NotOne),
    }
}

fn read_rules(
    alloc: Global,
    version: Version,
    words: Words<'_>,
) -> Result<(Answer, u64), UnreadLine>
    ensures { ReadsAnswer version (codes "R" ∷ words_left words.entry) result }
{
    let mut words = words;
    let life = match version {
        Version::One => LIFE,
        Version::Two => next_number(&mut words)?,
    };
    let text = read_body(alloc, next_word(&mut words))?;
    Ok((Answer::rules(alloc, text)?, life))
}

fn opening_named(word: &str) -> Option<Opening>
    ensures word { IfSome result (λ opening. word.now ≡ opening_word opening) }
    ensures each { (opening : Opening) → word.now ≡ opening_word opening → result ≡ Some opening }
{
    match word {
        "unavailable" => Some(Opening::Unavailable),
        "redirects" => Some(Opening::TooManyRedirects),
        _ => None,
    }
}

fn closure_named(word: &str) -> Option<Closure>
    ensures word { IfSome result (λ closure. word.now ≡ closure_word closure) }
    ensures each { (closure : Closure) → word.now ≡ closure_word closure → result ≡ Some closure }
{
    match word {
        "server" => Some(Closure::Server),
        "network" => Some(Closure::Network),
        "redirect" => Some(Closure::BadRedirect),
        "scheme" => Some(Closure::Scheme),
        "coding" => Some(Closure::Coding),
        "other" => Some(Closure::Other),
        _ => None,
    }
}

fn next_reason(words: &mut Words<'_>) -> Result<Reason, UnreadLine>
    ensures { let left = words_left words.old in Reads result
        (reason_named (head_word left) (number_of (head_word (tail_words left)))) }
{
    let word = next_word(words);
    match Reason::named(word, number_of(next_word(words))) {
        Some(reason) => Ok(reason),
        None => Err(UnreadLine::NotOne),
    }
}

fn next_cause(words: &mut Words<'_>) -> Result<Cause, UnreadLine>
    ensures { let left = words_left words.old in Reads result
        (cause_named (head_word left) (number_of (head_word (tail_words left)))) }
{
    let word = next_word(words);
    match Cause::named(word, number_of(next_word(words))) {
        Some(cause) => Ok(cause),
        None => Err(UnreadLine::NotOne),
    }
}
