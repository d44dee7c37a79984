//! What a call of a desk waits for before it is made. For values that this gate issued the condition is
//! already true;
//! the check exists so that a contract can rely on it. RFC 9309, section 2.4.
ghost use Rattle.std.specs.Prelude.{◌↔◌, IsTrue};
ghost use Rattle.gate_core.specs.Gate.{history};
ghost use Rattle.gate_lock.specs.Awaiting.{IsMet};

use authority_cache::TurnNo;
use gate_core::Book;
use path_normal::PageUrl;
use permit_book::PermitNo;
use robots_text::Token;

/// What is awaited. `out` is how many such values the desk must still spend.
#[derive(Clone, Copy)]
pub(crate) enum Awaited<'a> {
    /// Nothing.
    Nothing,
    /// A permit of this number is good for this token and URL.
    Permit {
        out: u64,
        number: PermitNo,
        token: &'a Token,
        url: &'a PageUrl,
    },
    /// A permit of this number is unspent.
    Unspent {
        out: u64,
        number: PermitNo,
    },
    /// A fetch of this number is running.
    Running {
        out: u64,
        number: PermitNo,
    },
    /// This turn of the authority is in flight.
    Turn {
        out: u64,
        authority: &'a str,
        turn: TurnNo,
    },
    /// No turn of the authority is in flight.
    Idle {
        authority: &'a str,
    },
}

impl<'a> Awaited<'a> {
    /// Whether the condition holds.
    pub(crate) fn is_met(&self, book: &Book) -> bool
        ensures { IsTrue result ↔ IsMet self.now (history book.now) }
    {
        match self {
            Awaited::Nothing => true,
            Awaited::Permit {
                out,
                number,
                token,
                url,
            } => *out > 0 && book.stands(*number, token, url),
            Awaited::Unspent { out, number } => *out > 0 && book.is_unspent(*number),
            Awaited::Running { out, number } => *out > 0 && book.is_running(*number),
            Awaited::Turn {
                out,
                authority,
                turn,
            } => *out > 0 && book.has_turn(authority, *turn),
            Awaited::Idle { authority } => !book.is_fetching(authority),
        }
    }
}
