//! An answer in the lists of a history or of a segment.
//! RFC 9309, sections 2.3.1 and 2.4.

use crate::turn::TurnNo;
use path_normal::Authority;
use robots_verdict::Said;

/// An answer for an authority.
#[derive(Drop)]
pub struct StandingAnswer {
    /// The authority.
    pub authority: Authority,
    /// The turn that brought it.
    pub turn: TurnNo,
    /// When that turn began, in seconds; its age counts from then.
    pub begun: u64,
    /// The greatest age in force, in seconds.
    pub life: u64,
    /// What it says.
    pub says: Said,
}
