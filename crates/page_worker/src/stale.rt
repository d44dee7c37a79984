//! A turn that begins if it is due. One hold of the lock covers check and begin, so no two desks fetch one
//! robots.txt. RFC 9309, sections 2.3.1.4 and 2.4.
ghost use Rattle.std.specs.Prelude.{◌↔◌, ◌≤◌, IsTrue};
ghost use Rattle.path_normal.specs.PageText.{authority_of};
ghost use Rattle.gate_history.specs.History.{entry_count};
ghost use Rattle.gate_history.specs.Standing.{standing_of};
ghost use Rattle.gate_core.specs.Gate.{history};
ghost use Rattle.gate_core.specs.Replies.{moment_at};
ghost use Rattle.gate_core.specs.States.{StandsAs};
ghost use Rattle.page_worker.specs.Newcomers.{CountsStale};
ghost use Rattle.page_worker.specs.Stale.{BeginsIfStale, IsDue, WasClosed};

use crate::newcomers::begin_within;
use gate_core::{BeginRefusal, Book, Standing};
use gate_lock::{Desk, Gate, Held, RobotsTurn};
use path_normal::{Authority, PageUrl};
use robots_verdict::{Answer, Closure};

/// Begins a turn of a page's authority if it is due: the gate has no answer in force, or a network fault has
/// kept the site closed for so many seconds. The bound of authorities that may become known holds.
pub(crate) fn begin_if_stale<G: Gate>(
    url: &PageUrl,
    closed_for: u64,
    desk: &mut Desk<'_, G>,
    held: &mut Held<'_, G>,
    moment: u64,
    newcomers: &mut u64,
) -> Result<Option<RobotsTurn<G>>, BeginRefusal>
    requires { desk.old.seen ≤ entry_count (history held.old) }
    ensures begins { BeginsIfStale closed_for desk.old held.old
        (authority_of url.now) moment result held.new desk.new }
    ensures counts { CountsStale held.old (authority_of url.now)
        newcomers.old result newcomers.new }
{
    let state = desk.state_in(held, url.authority(), moment);
    if !is_due(closed_for, held.book(), url.authority(), moment, state.word) {
        return Ok(None);
    }
    // If another worker is fetching, return before allocating.
    if state.fetching {
        return Err(BeginRefusal::InFlight);
    }
    let Ok(authority) = Authority::of(url) else {
        return Err(BeginRefusal::NoMemory);
    };
    Ok(Some(begin_within(&authority, desk, held, moment, newcomers)?))
}

// Whether a turn is due of an authority whose answer stands so.
fn is_due(closed_for: u64, book: &Book, authority: &str, moment: u64, word: Standing) -> bool
    requires { StandsAs (standing_of (history book.now) authority.now)
        (moment_at book.now moment) word }
    ensures { IsTrue result ↔ IsDue closed_for book.now authority.now moment }
{
    match word {
        Standing::Unknown | Standing::Expired => true,
        Standing::Closed => was_closed(book, authority, closed_for, moment),
        Standing::Open | Standing::Rules => false,
    }
}

// Whether a network fault closed the authority, in a turn that began so many seconds ago, or earlier.
fn was_closed(book: &Book, authority: &str, seconds: u64, moment: u64) -> bool
    ensures { IsTrue result
        ↔ WasClosed (standing_of (history book.now) authority.now) seconds moment }
{
    let Some(cached) = book.standing(authority) else {
        return false;
    };
    match &cached.answer {
        Answer::Closed(Closure::Network) => {
            cached.begun <= moment && seconds <= moment - cached.begun
        }
        _ => false,
    }
}
