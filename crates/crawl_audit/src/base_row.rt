//! A thing that a base left open, parsed with its token, URL and answer.
//! Used by `read_base` and `first_base`.

use authority_cache::TurnNo;
use gate_history::SlotGrant;
use path_normal::Authority;
use permit_book::{Fetch, PermitNo};
use robots_verdict::Answer;

/// A thing that a base left open.
#[derive(Drop)]
pub(crate) enum BaseRow {
    Answered {
        authority: Authority,
        turn: TurnNo,
        begun: u64,
        answer: Answer,
        life: u64,
    },
    InFlight {
        authority: Authority,
        turn: TurnNo,
        begun: u64,
    },
    /// The greatest generation of a slot.
    Greatest(SlotGrant),
    /// A permit that was not used yet.
    Unspent {
        number: PermitNo,
        fetch: Fetch,
    },
    /// A permit whose fetch was started and has not ended.
    Running {
        number: PermitNo,
        fetch: Fetch,
    },
}
