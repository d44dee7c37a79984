//! The line of each kind of thing that a base left open, and that of its numbers.
//! docs/FORMATS.md has the kinds as a table.
ghost use Rattle.std.specs.Prelude.{◌≡◌, ◌++◌, [], ◌∷◌, Some, codes, decimal};
ghost use Rattle.line_text.specs.Pieces.{pieces_text};
ghost use Rattle.path_normal.specs.Authority.{IsAuthority};
ghost use Rattle.path_normal.specs.PageUrl.{IsPage};
ghost use Rattle.robots_text.specs.Token.{token_of};
ghost use Rattle.history_text.specs.declared.version.Version.TheVariants.{Two};
ghost use Rattle.history_text.specs.Entries.{IsNumber};
ghost use Rattle.history_text.specs.AnswerContent.{said_content};
ghost use Rattle.history_text.specs.Spell.{answer_fields, spaced_fields};

use crate::entry_pieces::{token_octets, url_octets};
use crate::kinds::{AnswerContent, answer_pieces};
use crate::version::Version;
use authority_cache::TurnNo;
use gate_history::Numbers;
use line_text::{Piece, Pieces};
use path_normal::{Authority, PageUrl};
use permit_book::PermitNo;
use robots_text::Token;

const SPACE: Piece<'static> = Piece::Text(" ");

/// An answer, after this word and its space.
pub fn standing<'a>(
    word: &'static str,
    authority: &'a Authority,
    turn: TurnNo,
    begun: u64,
    told: AnswerContent<'a>,
    life: u64,
) -> Pieces<'a>
    ensures text { pieces_text result ≡ word.now ++ (authority.now ++ spaced_fields (decimal turn
        ∷ decimal begun ∷ answer_fields Two (said_content told.entry) life)) }
    ensures authority { IsAuthority authority.now }
    ensures turn { IsNumber turn }
    ensures begun { IsNumber begun }
    ensures life { IsNumber life }
{
    let says = answer_pieces(Version::Two, told, life);
    Pieces::of(&[
        Piece::Text(word),
        Piece::Text(authority.text()),
        SPACE,
        Piece::Number(turn.number()),
        SPACE,
        Piece::Number(begun),
        says.0,
        says.1,
        says.2,
        says.3,
    ])
}

/// A turn in flight.
pub fn in_flight(authority: &Authority, turn: TurnNo, begun: u64) -> Pieces<'_>
    ensures text { pieces_text result ≡ codes "I"
        ++ spaced_fields (authority.now ∷ decimal turn ∷ decimal begun ∷ []) }
    ensures authority { IsAuthority authority.now }
    ensures turn { IsNumber turn }
    ensures begun { IsNumber begun }
{
    Pieces::of(&[
        Piece::Text("I "),
        Piece::Text(authority.text()),
        SPACE,
        Piece::Number(turn.number()),
        SPACE,
        Piece::Number(begun),
    ])
}

/// The largest generation of a slot.
pub fn greatest(slot: u64, generation: u64) -> Pieces<'static>
    ensures text { pieces_text result ≡ codes "L"
        ++ spaced_fields (decimal slot ∷ decimal generation ∷ []) }
    ensures slot { IsNumber slot }
    ensures generation { IsNumber generation }
{
    Pieces::of(&[
        Piece::Text("L "),
        Piece::Number(slot),
        SPACE,
        Piece::Number(generation),
    ])
}

/// A permit that is out, after the letter that says how.
pub fn permit<'a>(
    letter: &'static str,
    number: PermitNo,
    token: &'a Token,
    url: &'a PageUrl,
) -> Pieces<'a>
    ensures text { pieces_text result ≡ letter.now
        ++ spaced_fields (decimal number ∷ token.now ∷ url.now ∷ []) }
    ensures number { IsNumber number }
    ensures token { token_of token.now ≡ Some token.now }
    ensures url { IsPage url.now }
{
    Pieces::of(&[
        Piece::Text(letter),
        SPACE,
        Piece::Number(number.number()),
        SPACE,
        Piece::Octets(token_octets(token)),
        SPACE,
        Piece::Octets(url_octets(url)),
    ])
}

/// The numbers of a base.
pub fn counts(numbers: Numbers) -> Pieces<'static>
    ensures text { pieces_text result ≡ codes "T" ++ spaced_fields (decimal numbers.entries
        ∷ decimal numbers.started ∷ decimal numbers.begins ∷ decimal numbers.moment ∷ []) }
    ensures entries { IsNumber numbers.entries }
    ensures started { IsNumber numbers.started }
    ensures begins { IsNumber numbers.begins }
    ensures moment { IsNumber numbers.moment }
{
    Pieces::of(&[
        Piece::Text("T "),
        Piece::Number(numbers.entries),
        SPACE,
        Piece::Number(numbers.started),
        SPACE,
        Piece::Number(numbers.begins),
        SPACE,
        Piece::Number(numbers.moment),
    ])
}
