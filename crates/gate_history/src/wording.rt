//! The words for why a fetch is allowed or denied, in one table.
//! RFC 9309, sections 2.2.2 and 2.3.1; docs/FORMATS.md.
ghost use Rattle.std.specs.Prelude.{◌≡◌, [], ◌∷◌, codes, decimal};
ghost use Rattle.gate_history.specs.Wording.{cause_named, cause_words, reason_named, reason_words};
ghost use Rattle.gate_history.specs.Wording.{words_in};

use crate::outcome::{Cause, Reason};

/// A reason or cause in words; `line` is followed by the line's number.
#[derive(Clone, Copy, Debug, PartialEq, Eq)]
pub struct Wording {
    /// The word.
    pub word: &'static str,
    /// The line's number, if there is one.
    pub line: Option<u64>,
}

impl Wording {
    fn of(word: &'static str) -> Wording
        ensures { words_in result ≡ word.now ∷ [] }
    {
        Wording { word, line: None }
    }

    fn of_line(line: u64) -> Wording
        ensures { words_in result ≡ codes "line" ∷ decimal line ∷ [] }
    {
        Wording {
            word: "line",
            line: Some(line),
        }
    }
}

impl Reason {
    /// Its words.
    pub fn wording(self) -> Wording
        ensures { words_in result ≡ reason_words self }
    {
        match self {
            Reason::Open => Wording::of("open"),
            Reason::Line(line) => Wording::of_line(line),
            Reason::NoRule => Wording::of("norule"),
            Reason::RobotsPath => Wording::of("robots"),
        }
    }

    /// The reason for a word, with a line's number if it follows.
    pub fn named(word: &str, line: Option<u64>) -> Option<Reason>
        ensures { result ≡ reason_named word.now line }
    {
        match word {
            "open" => Some(Reason::Open),
            "norule" => Some(Reason::NoRule),
            "robots" => Some(Reason::RobotsPath),
            "line" => Some(Reason::Line(line?)),
            _ => None,
        }
    }
}

impl Cause {
    /// Its words.
    pub fn wording(self) -> Wording
        ensures { words_in result ≡ cause_words self }
    {
        match self {
            Cause::Spent => Wording::of("spent"),
            Cause::Unknown => Wording::of("unknown"),
            Cause::Expired => Wording::of("expired"),
            Cause::Closed => Wording::of("closed"),
            Cause::Line(line) => Wording::of_line(line),
        }
    }

    /// The cause for a word, with a line's number if it follows.
    pub fn named(word: &str, line: Option<u64>) -> Option<Cause>
        ensures { result ≡ cause_named word.now line }
    {
        match word {
            "spent" => Some(Cause::Spent),
            "unknown" => Some(Cause::Unknown),
            "expired" => Some(Cause::Expired),
            "closed" => Some(Cause::Closed),
            "line" => Some(Cause::Line(line?)),
            _ => None,
        }
    }
}
