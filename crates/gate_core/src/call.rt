//! The calls of a book and their replies, as values.
//! RFC 9309, sections 2.2.2, 2.3.1 and 2.4.

use crate::refusal::{AskRefusal, BeginRefusal, Denial, Started, SweepRefusal};
use crate::state::Standing;
use authority_cache::{Stale, TimedAnswer, TurnNo};
use path_normal::{Authority, PageUrl};
use permit_book::{NotOut, PermitNo};
use robots_text::Token;

/// A call of a book. Moments are seconds, any u64.
#[derive(Drop)]
pub enum Call {
    /// Begins a turn.
    Begin {
        authority: Authority,
        moment: u64,
    },
    /// Brings a turn's answer, with its life.
    Arrive {
        authority: Authority,
        turn: TurnNo,
        answer: TimedAnswer,
        moment: u64,
    },
    /// Asks for a permit.
    Ask {
        token: Token,
        url: PageUrl,
        moment: u64,
    },
    /// Spends a permit by starting its fetch.
    Start {
        number: PermitNo,
        token: Token,
        url: PageUrl,
        moment: u64,
    },
    /// Gives an unspent permit back.
    Back {
        number: PermitNo,
    },
    /// Ends a started fetch.
    Finish {
        number: PermitNo,
    },
    /// Drops the answers older than their lives.
    Sweep {
        moment: u64,
    },
}

/// The reply to a call: its result, and the parts of the call that the reply line names.
#[derive(Drop)]
pub enum Reply {
    /// To [`Call::Begin`].
    Begin {
        authority: Authority,
        result: Result<TurnNo, BeginRefusal>,
    },
    /// To [`Call::Arrive`], with the answer's word.
    Arrive {
        authority: Authority,
        brought: Standing,
        result: Result<(), Stale>,
    },
    /// To [`Call::Ask`].
    Ask {
        result: Result<PermitNo, AskRefusal>,
    },
    /// To [`Call::Start`].
    Start {
        result: Result<Started, Denial>,
    },
    /// To [`Call::Back`].
    Back {
        number: PermitNo,
        result: Result<(), NotOut>,
    },
    /// To [`Call::Finish`].
    Finish {
        number: PermitNo,
        result: Result<(), NotOut>,
    },
    /// To [`Call::Sweep`]: the number of dropped answers.
    Sweep {
        result: Result<u64, SweepRefusal>,
    },
}
