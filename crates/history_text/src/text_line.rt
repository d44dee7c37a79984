//! One line of a text: an entry, or a thing that a base left open.
//! See docs/FORMATS.md.
ghost use Rattle.std.specs.Prelude.{◌≡◌, ◌++◌, List, ℕ};
ghost use Rattle.line_text.specs.Pieces.{pieces_text};
ghost use Rattle.history_text.specs.declared.version.Version.TheVariants.{Two};
ghost use Rattle.history_text.specs.BaseFields.{IsAnswerRow, IsGrantRow, IsPermitRow, IsTurnRow};
ghost use Rattle.history_text.specs.Entries.{HasFields};
ghost use Rattle.history_text.specs.Spell.{entry_line};
ghost use Rattle.history_text.specs.SpellBase.{answer_line, answer_words, grant_line, permit_line, turn_line};

use crate::base_kinds::{greatest, in_flight, permit, standing};
use crate::entry_pieces::{entry_pieces, told_in};
use crate::version::Version;
use authority_cache::{StandingAnswer, Turn};
use gate_history::{Entry, SlotGrant};
use line_text::Pieces;
use permit_book::GrantedPermit;

/// One line of a text.
pub trait TextLine {
    /// Its line, without its end. A permit's begins with its list's letter.
    ghost line: { List ℕ → Self → List ℕ };

    /// Whether its fields are valid.
    ghost has_fields: { Self → Type 0 };

    /// The pieces of the line.
    fn pieces(&self, letter: &'static str) -> Pieces<'_>
        ensures text { pieces_text result ≡ line letter.now self.now }
        ensures fields { has_fields self.now };
}

impl TextLine for Entry {
    ghost line = { λ _ entry. entry_line Two entry };

    ghost has_fields = { HasFields };

    fn pieces(&self, _letter: &'static str) -> Pieces<'_> {
        entry_pieces(Version::Two, self)
    }
}

impl TextLine for StandingAnswer {
    ghost line = { λ _ answer. answer_line answer };

    ghost has_fields = { IsAnswerRow };

    fn pieces(&self, _letter: &'static str) -> Pieces<'_> {
        standing_pieces("H ", self)
    }
}

// An answer of those that were put in order.
impl TextLine for &StandingAnswer {
    ghost line = { λ _ answer. answer_line answer.now };

    ghost has_fields = { λ answer. IsAnswerRow answer.now };

    fn pieces(&self, _letter: &'static str) -> Pieces<'_> {
        standing_pieces("H ", self)
    }
}

/// The pieces of an answer in a base, after this word instead of the line's letter and space. They have no
/// line feed.
pub fn standing_pieces<'a>(word: &'static str, answer: &'a StandingAnswer) -> Pieces<'a>
    ensures text { pieces_text result ≡ word.now ++ answer_words answer.now }
    ensures fields { IsAnswerRow answer.now }
{
    let told = told_in(&answer.says);
    standing(
        word,
        &answer.authority,
        answer.turn,
        answer.begun,
        told,
        answer.life,
    )
}

impl TextLine for Turn {
    ghost line = { λ _ turn. turn_line turn };

    ghost has_fields = { IsTurnRow };

    fn pieces(&self, _letter: &'static str) -> Pieces<'_> {
        in_flight(&self.authority, self.turn, self.begun)
    }
}

impl TextLine for SlotGrant {
    ghost line = { λ _ grant. grant_line grant };

    ghost has_fields = { IsGrantRow };

    fn pieces(&self, _letter: &'static str) -> Pieces<'_> {
        greatest(self.slot, self.generation)
    }
}

impl TextLine for GrantedPermit {
    ghost line = { permit_line };

    ghost has_fields = { IsPermitRow };

    fn pieces(&self, letter: &'static str) -> Pieces<'_> {
        permit(letter, self.number, &self.token, &self.url)
    }
}
