//! The line of each kind of entry, by its fields.
//! Only an arrival's has two spellings. docs/FORMATS.md has the kinds as a table.
ghost use Rattle.std.specs.Prelude.{◌≡◌, ◌++◌, [], ◌∷◌, codes, decimal};
ghost use Rattle.path_normal.specs.Authority.{IsAuthority};
ghost use Rattle.gate_history.specs.Wording.{words_in};
ghost use Rattle.gate_history.specs.declared.entry.Entry.TheVariants.{AskDenied, Arrived, Begun};
ghost use Rattle.gate_history.specs.declared.entry.Entry.TheVariants.{Finished, Granted, Returned};
ghost use Rattle.gate_history.specs.declared.entry.Entry.TheVariants.{StartDenied, Started, Swept};
ghost use Rattle.line_text.specs.Pieces.{piece_text, pieces_text};
ghost use Rattle.history_text.specs.Entries.{IsCause, IsFetch, IsNumber, IsReason};
ghost use Rattle.history_text.specs.AnswerContent.{said_content};
ghost use Rattle.history_text.specs.Spell.{answer_fields, body_word, closure_word};
ghost use Rattle.history_text.specs.Spell.{entry_line, opening_word, spaced_fields};

use crate::entry_pieces::{token_octets, url_octets};
use crate::version::Version;
use authority_cache::TurnNo;
use gate_history::{Cause, Reason, Wording};
use line_text::{Piece, Pieces};
use path_normal::Authority;
use permit_book::{Fetch, PermitNo};
use robots_verdict::{Closure, Opening};

const NONE: Piece<'static> = Piece::Text("");

const SPACE: Piece<'static> = Piece::Text(" ");

/// What an answer says, with the octets of its rules.
#[derive(Clone, Copy)]
pub enum AnswerContent<'a> {
    Rules(&'a [u8]),
    Open(Opening),
    Closed(Closure),
}

pub fn begun(moment: u64, authority: &Authority, turn: TurnNo) -> Pieces<'_>
    ensures text { pieces_text result ≡ entry_line Version.Two (Begun moment authority.now turn) }
    ensures authority { IsAuthority authority.now }
    ensures turn { IsNumber turn }
{
    Pieces::of(&[
        Piece::Text("B "),
        Piece::Number(moment),
        SPACE,
        Piece::Text(authority.text()),
        SPACE,
        Piece::Number(turn.number()),
    ])
}

pub fn arrived<'a>(
    version: Version,
    moment: u64,
    authority: &'a Authority,
    turn: TurnNo,
    told: AnswerContent<'a>,
    life: u64,
) -> Pieces<'a>
    ensures text { pieces_text result
        ≡ entry_line version (Arrived life moment authority.now turn (said_content told.entry)) }
    ensures authority { IsAuthority authority.now }
    ensures turn { IsNumber turn }
{
    let answer = answer_pieces(version, told, life);
    Pieces::of(&[
        Piece::Text("A "),
        Piece::Number(moment),
        SPACE,
        Piece::Text(authority.text()),
        SPACE,
        Piece::Number(turn.number()),
        answer.0,
        answer.1,
        answer.2,
        answer.3,
    ])
}

pub fn granted(moment: u64, number: PermitNo, fetch: &Fetch) -> Pieces<'_>
    ensures text { pieces_text result ≡ entry_line Version.Two (Granted moment number fetch.now) }
    ensures number { IsNumber number }
    ensures fetch { IsFetch fetch.now }
{
    Pieces::of(&[
        Piece::Text("G "),
        Piece::Number(moment),
        SPACE,
        Piece::Number(number.number()),
        SPACE,
        Piece::Octets(token_octets(&fetch.token)),
        SPACE,
        Piece::Octets(url_octets(&fetch.url)),
    ])
}

pub fn ask_denied(moment: u64, fetch: &Fetch, cause: Cause) -> Pieces<'_>
    ensures text { pieces_text result ≡ entry_line Version.Two
        (AskDenied moment fetch.now cause) }
    ensures fetch { IsFetch fetch.now }
    ensures cause { IsCause cause }
{
    let cause = wording_pieces(cause.wording());
    Pieces::of(&[
        Piece::Text("N "),
        Piece::Number(moment),
        SPACE,
        Piece::Octets(token_octets(&fetch.token)),
        SPACE,
        Piece::Octets(url_octets(&fetch.url)),
        cause.0,
        cause.1,
        cause.2,
        cause.3,
    ])
}

pub fn started(moment: u64, number: PermitNo, reason: Reason) -> Pieces<'static>
    ensures text { pieces_text result ≡ entry_line Version.Two (Started moment number reason) }
    ensures number { IsNumber number }
    ensures reason { IsReason reason }
{
    spent("S ", moment, number, reason.wording())
}

pub fn start_denied(moment: u64, number: PermitNo, cause: Cause) -> Pieces<'static>
    ensures text { pieces_text result ≡ entry_line Version.Two (StartDenied moment number cause) }
    ensures number { IsNumber number }
    ensures cause { IsCause cause }
{
    spent("D ", moment, number, cause.wording())
}

pub fn returned(number: PermitNo) -> Pieces<'static>
    ensures text { pieces_text result ≡ entry_line Version.Two (Returned number) }
    ensures number { IsNumber number }
{
    Pieces::of(&[Piece::Text("K "), Piece::Number(number.number())])
}

pub fn finished(number: PermitNo) -> Pieces<'static>
    ensures text { pieces_text result ≡ entry_line Version.Two (Finished number) }
    ensures number { IsNumber number }
{
    Pieces::of(&[Piece::Text("F "), Piece::Number(number.number())])
}

pub fn swept(moment: u64, count: u64) -> Pieces<'static>
    ensures { pieces_text result ≡ entry_line Version.Two (Swept moment count) }
{
    Pieces::of(&[
        Piece::Text("W "),
        Piece::Number(moment),
        SPACE,
        Piece::Number(count),
    ])
}

// A start that spent a permit, and its verdict.
fn spent(letter: &'static str, moment: u64, number: PermitNo, decided: Wording) -> Pieces<'static>
    ensures text { pieces_text result ≡ letter.now ++ (decimal moment
        ++ spaced_fields (decimal number ∷ words_in decided)) }
    ensures number { IsNumber number }
{
    let decided = wording_pieces(decided);
    Pieces::of(&[
        Piece::Text(letter),
        Piece::Number(moment),
        SPACE,
        Piece::Number(number.number()),
        decided.0,
        decided.1,
        decided.2,
        decided.3,
    ])
}

type FourPieces<'a> = (Piece<'a>, Piece<'a>, Piece<'a>, Piece<'a>);

fn wording_pieces(wording: Wording) -> FourPieces<'static>
    ensures { spaced_fields (words_in wording)
        ≡ piece_text result.0 ++ (piece_text result.1 ++ (piece_text result.2
        ++ (piece_text result.3 ++ []))) }
{
    let word = Piece::Text(wording.word);
    match wording.line {
        Some(line) => (SPACE, word, SPACE, Piece::Number(line)),
        None => (SPACE, word, NONE, NONE),
    }
}

/// What an answer says, as the pieces after its other fields.
pub(crate) fn answer_pieces(version: Version, told: AnswerContent<'_>, life: u64) -> FourPieces<'_>
    ensures { spaced_fields (answer_fields version (said_content told.entry) life)
        ≡ piece_text result.0 ++ (piece_text result.1 ++ (piece_text result.2
        ++ (piece_text result.3 ++ []))) }
{
    match told {
        AnswerContent::Rules(octets) => match version {
            Version::One => (Piece::Text(" R "), body_piece(octets), NONE, NONE),
            Version::Two => (
                Piece::Text(" R "),
                Piece::Number(life),
                SPACE,
                body_piece(octets),
            ),
        },
        AnswerContent::Open(opening) => (opening_piece(opening), NONE, NONE, NONE),
        AnswerContent::Closed(closure) => (closure_piece(closure), NONE, NONE, NONE),
    }
}

fn body_piece(octets: &[u8]) -> Piece<'_>
    ensures { piece_text result ≡ body_word octets.now }
{
    if octets.is_empty() {
        Piece::Text("-")
    } else if octets == b"-".as_slice() {
        Piece::Text("%2D")
    } else {
        Piece::Body(octets)
    }
}

fn opening_piece(opening: Opening) -> Piece<'static>
    ensures { piece_text result ≡ codes " O " ++ opening_word opening }
{
    match opening {
        Opening::Unavailable => Piece::Text(" O unavailable"),
        Opening::TooManyRedirects => Piece::Text(" O redirects"),
    }
}

fn closure_piece(closure: Closure) -> Piece<'static>
    ensures { piece_text result ≡ codes " C " ++ closure_word closure }
{
    match closure {
        Closure::Server => Piece::Text(" C server"),
        Closure::Network => Piece::Text(" C network"),
        Closure::BadRedirect => Piece::Text(" C redirect"),
        Closure::Scheme => Piece::Text(" C scheme"),
        Closure::Coding => Piece::Text(" C coding"),
        Closure::Other => Piece::Text(" C other"),
    }
}
