//! An entry read from a line, with its token, URL and answer parsed.
//! The history keeps only their texts.

use authority_cache::TurnNo;
use gate_history::{Cause, Reason};
use path_normal::Authority;
use permit_book::{Fetch, PermitNo};
use robots_verdict::Answer;

#[derive(Drop)]
pub(crate) enum Record {
    Begun {
        moment: u64,
        authority: Authority,
        turn: TurnNo,
    },
    Arrived {
        moment: u64,
        authority: Authority,
        turn: TurnNo,
        answer: Answer,
        life: u64,
    },
    Granted {
        moment: u64,
        number: PermitNo,
        fetch: Fetch,
    },
    AskDenied {
        moment: u64,
        fetch: Fetch,
        cause: Cause,
    },
    Started {
        moment: u64,
        number: PermitNo,
        reason: Reason,
    },
    StartDenied {
        moment: u64,
        number: PermitNo,
        cause: Cause,
    },
    Returned {
        number: PermitNo,
    },
    Finished {
        number: PermitNo,
    },
    Swept {
        moment: u64,
        count: u64,
    },
}
