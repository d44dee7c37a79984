//! The answer for an authority, outliving the gate's lock.
//! Read by each `Keeper`, for the verb WHY. RFC 9309, section 2.4.
ghost use Rattle.keepers.specs.Counting.{TellsAnswer};

use authority_cache::StandingAnswer;
use gate_core::{Book, NoMemory};
use path_normal::Authority;
use std::alloc::{AllocError, Global};

/// The answer for an authority in a book, if any. Allocates its name, not its text.
pub(crate) fn standing_answer(
    alloc: Global,
    book: &Book,
    authority: &Authority,
) -> Result<Option<StandingAnswer>, NoMemory>
    ensures { TellsAnswer book.now authority.now result }
{
    let Some(cached) = book.standing(authority.text()) else {
        return Ok(None);
    };
    Ok(Some(StandingAnswer {
        authority: authority.copy()?,
        turn: cached.turn,
        begun: cached.begun,
        life: cached.life,
        says: cached.answer.says()?,
    }))
}
