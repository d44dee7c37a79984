//! An ARRIVE line's answer, by its replies (RFC 9309, section 2.3.1).
//! The walk over the replies is that of robots fetches.
ghost use Rattle.std.specs.Prelude.{◌≡◌, IfOk};
ghost use Rattle.command_lines.specs.Arrival.{BringsAmong};

use crate::fault::LineFault;
use crate::reply_words::ReplyWords;
use authority_cache::{TimedAnswer, TurnNo};
use path_normal::{Authority, Schemes};
use robots_fetch::{Step, Walk};
use std::alloc::Global;

/// The replies to a turn's robots fetch.
#[derive(Drop)]
pub struct Arrival<'a> {
    pub authority: Authority,
    pub turn: TurnNo,
    pub replies: ReplyWords<'a>,
    /// The moment of the call, in seconds.
    pub moment: u64,
}

/// The authority's answer by the replies, with its lifetime, in these schemes.
pub(crate) fn decide(
    alloc: Global,
    schemes: Schemes,
    authority: &Authority,
    replies: ReplyWords<'_>,
) -> Result<TimedAnswer, LineFault>
    ensures brings { BringsAmong schemes authority.now replies.entry result }
    ensures spares { IfOk result (λ brought. brought.spares ≡ 2) }
{
    let mut replies = replies;
    let mut walk = Walk::new(authority)?;
    while let Some(reply) = replies.next(alloc)? {
        walk = match walk.step_among(alloc, schemes, &reply) {
            Step::Go(next) => next,
            Step::Done(answer) if replies.is_empty() => return Ok(answer),
            Step::Done(_) => return Err(LineFault::Replies),
            Step::NoMemory(_) => return Err(LineFault::Memory),
        };
    }
    Err(LineFault::Replies)
}
