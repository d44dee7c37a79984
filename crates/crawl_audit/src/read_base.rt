//! Reads a line of a base as a thing left open, or as its numbers. It is lenient: to accept only the
//! canonical text, what was read is written again and compared.
//! See docs/FORMATS.md.
ghost use Rattle.std.specs.Prelude.{◌≡◌, ◌≢◌, ◌↔◌, [], ◌∷◌};
ghost use Rattle.std.specs.Prelude.{codes, decimal, Err, IfOk, IsTrue, Some};
ghost use Rattle.line_text.specs.Pieces.{pieces_text};
ghost use Rattle.line_text.specs.Words.{words_left, words_of};
ghost use Rattle.permit_book.specs.Outstanding.{permit_for};
ghost use Rattle.permit_book.specs.declared.granted_permit.GrantedPermit.{GrantedPermit};
ghost use Rattle.gate_history.specs.Base.{Base};
ghost use Rattle.gate_history.specs.declared.base.Numbers.{Numbers};
ghost use Rattle.gate_history.specs.Grants.{IsSlotGrant};
ghost use Rattle.history_text.specs.BaseFields.{HasNumbers, IsPermitRow};
ghost use Rattle.crawl_audit.specs.Numbered.{numbered};
ghost use Rattle.crawl_audit.specs.OpenRows.{HasRowFields, IsInRange, IsOpenRow};
ghost use Rattle.crawl_audit.specs.OpenRows.{OpenRow, row_line, row_of};
ghost use Rattle.crawl_audit.specs.Reading.{IsRead, ReadsRow};
ghost use Rattle.history_text.specs.SpellBase.{numbers_line};

use crate::base_row::BaseRow;
use crate::fields::{next_number, next_word, read_authority, read_page, read_token};
use crate::read::read_answer;
use crate::unread_line::UnreadLine;
use authority_cache::{TurnNo, life_of};
use gate_history::{Numbers, SlotGrant};
use history_text::base_kinds::{counts, greatest, in_flight, permit, standing};
use history_text::{Version, told_by};
use line_text::{Pieces, Words, number_of};
use permit_book::{Fetch, LAST_GENERATION, MAX_SLOTS, PermitNo};
use std::alloc::Global;

/// Parses a line, without its end, as a thing that a base left open.
pub(crate) fn read_row(alloc: Global, line: &[u8]) -> Result<BaseRow, UnreadLine>
    ensures spelled { IfOk result (λ found. line.now ≡ row_line (row_of found)) }
    ensures row { IfOk result (λ found. IsOpenRow (row_of found)) }
    ensures none { result ≡ Err UnreadLine.NotOne
        → (r : OpenRow) → IsOpenRow r → line.now ≢ row_line r }
{
    let Ok(text) = str::from_utf8(line) else {
        return Err(UnreadLine::NotOne);
    };
    let found = read_words(alloc, text)?;
    if is_spelled(&found, line) {
        Ok(found)
    } else {
        drop(found);
        Err(UnreadLine::NotOne)
    }
}

// Whether the thing is in range and this is its canonical line.
fn is_spelled(found: &BaseRow, line: &[u8]) -> bool
    ensures spelled { IsTrue result ↔ (IsInRange (row_of found.now)
        × (line.now ≡ row_line (row_of found.now))) }
    ensures fields { HasRowFields (row_of found.now) }
{
    let pieces = row_pieces(found);
    is_in_range(found) && pieces.is(line)
}

fn row_pieces(found: &BaseRow) -> Pieces<'_>
    ensures text { pieces_text result ≡ row_line (row_of found.now) }
    ensures fields { HasRowFields (row_of found.now) }
{
    match found {
        BaseRow::Answered {
            authority,
            turn,
            begun,
            answer,
            life,
        } => standing("H ", authority, *turn, *begun, told_by(answer), *life),
        BaseRow::InFlight {
            authority,
            turn,
            begun,
        } => in_flight(authority, *turn, *begun),
        BaseRow::Greatest(grant) => greatest(grant.slot, grant.generation),
        BaseRow::Unspent { number, fetch } => permit("U", *number, &fetch.token, &fetch.url),
        BaseRow::Running { number, fetch } => permit("Y", *number, &fetch.token, &fetch.url),
    }
}

// Whether an answer's life suits its kind, and a slot and its generation are possible.
fn is_in_range(found: &BaseRow) -> bool
    ensures { IsTrue result ↔ IsInRange (row_of found.now) }
{
    match found {
        BaseRow::Answered { answer, life, .. } => life_of(answer, *life) == *life,
        BaseRow::Greatest(grant) => is_slot_grant(*grant),
        _ => true,
    }
}

fn is_slot_grant(grant: SlotGrant) -> bool
    ensures { IsTrue result ↔ IsSlotGrant grant }
{
    grant.slot < MAX_SLOTS && grant.generation <= LAST_GENERATION
}

fn read_words(alloc: Global, text: &str) -> Result<BaseRow, UnreadLine>
    ensures { ReadsRow (words_of text.now) result }
{
    let mut words = Words::of(text);
    let letter = next_word(&mut words);
    match letter {
        "H" => read_answered(alloc, words),
        "I" => read_in_flight(alloc, words),
        "L" => read_greatest(words),
        "U" => read_unspent(alloc, words),
        "Y" => read_running(alloc, words),
        _ => Err(UnreadLine::NotOne),
    }
}

fn read_answered(alloc: Global, words: Words<'_>) -> Result<BaseRow, UnreadLine>
    ensures { ReadsRow (codes "H" ∷ words_left words.entry) result }
{
    let mut words = words;
    let authority = read_authority(alloc, next_word(&mut words))?;
    let turn = TurnNo::new(next_number(&mut words)?);
    let begun = next_number(&mut words)?;
    let (answer, life) = read_answer(alloc, Version::Two, words)?;
    Ok(BaseRow::Answered {
        authority,
        turn,
        begun,
        answer,
        life,
    })
}

fn read_in_flight(alloc: Global, words: Words<'_>) -> Result<BaseRow, UnreadLine>
    ensures { ReadsRow (codes "I" ∷ words_left words.entry) result }
{
    let mut words = words;
    let authority = read_authority(alloc, next_word(&mut words))?;
    let turn = TurnNo::new(next_number(&mut words)?);
    let begun = next_number(&mut words)?;
    Ok(BaseRow::InFlight {
        authority,
        turn,
        begun,
    })
}

fn read_greatest(words: Words<'_>) -> Result<BaseRow, UnreadLine>
    ensures { ReadsRow (codes "L" ∷ words_left words.entry) result }
{
    let mut words = words;
    let slot = next_number(&mut words)?;
    let generation = next_number(&mut words)?;
    Ok(BaseRow::Greatest(SlotGrant { slot, generation }))
}

fn read_unspent(alloc: Global, words: Words<'_>) -> Result<BaseRow, UnreadLine>
    ensures { ReadsRow (codes "U" ∷ words_left words.entry) result }
{
    let (number, fetch) = read_permit(alloc, words)?;
    Ok(BaseRow::Unspent { number, fetch })
}

fn read_running(alloc: Global, words: Words<'_>) -> Result<BaseRow, UnreadLine>
    ensures { ReadsRow (codes "Y" ∷ words_left words.entry) result }
{
    let (number, fetch) = read_permit(alloc, words)?;
    Ok(BaseRow::Running { number, fetch })
}

// A permit's number, and its fetch.
fn read_permit(alloc: Global, words: Words<'_>) -> Result<(PermitNo, Fetch), UnreadLine>
    ensures { (p : GrantedPermit) → IsPermitRow p
        → words_left words.entry ≡ decimal p.number ∷ p.token ∷ p.url ∷ []
        → IsRead result (λ pair. permit_for pair.0 pair.1 ≡ p) }
{
    let mut words = words;
    let number = PermitNo::new(next_number(&mut words)?);
    let token = read_token(alloc, next_word(&mut words))?;
    let url = read_page(alloc, next_word(&mut words))?;
    Ok((number, Fetch { token, url }))
}

/// Parses a line, without its end, as the numbers of a base. It allocates nothing.
pub(crate) fn read_numbers(line: &[u8]) -> Result<Numbers, UnreadLine>
    ensures spelled { IfOk result (λ numbers. line.now ≡ numbers_line (numbered numbers)) }
    ensures numbers { IfOk result (λ numbers. HasNumbers (numbered numbers)) }
    ensures none { result ≡ Err UnreadLine.NotOne
        → (b : Base) → HasNumbers b → line.now ≢ numbers_line b }
    ensures memory { result ≢ Err UnreadLine.NoMemory }
{
    let Ok(text) = str::from_utf8(line) else {
        return Err(UnreadLine::NotOne);
    };
    let Some(numbers) = numbers_named(text) else {
        return Err(UnreadLine::NotOne);
    };
    if counts(numbers).is(line) {
        Ok(numbers)
    } else {
        Err(UnreadLine::NotOne)
    }
}

fn numbers_named(text: &str) -> Option<Numbers>
    ensures { (numbers : Numbers) → HasNumbers (numbered numbers)
        → text.now ≡ numbers_line (numbered numbers) → result ≡ Some numbers }
{
    let mut words = Words::of(text);
    match next_word(&mut words) {
        "T" => numbers_behind(words),
        _ => None,
    }
}

fn numbers_behind(words: Words<'_>) -> Option<Numbers>
    ensures { (numbers : Numbers) → HasNumbers (numbered numbers)
        → codes "T" ∷ words_left words.entry ≡ words_of (numbers_line (numbered numbers))
        → result ≡ Some numbers }
{
    let mut words = words;
    let entries = number_of(next_word(&mut words))?;
    let started = number_of(next_word(&mut words))?;
    let begins = number_of(next_word(&mut words))?;
    let moment = number_of(next_word(&mut words))?;
    Some(Numbers {
        begins,
        moment,
        entries,
        started,
    })
}
