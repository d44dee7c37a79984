//! Turns of authorities without an answer, which make them known, where only so many more may become known.
//! Used by refreshes and jobs for one client of many.
ghost use Rattle.std.specs.Prelude.{◌≡◌, ◌≤◌, OnErr};
ghost use Rattle.gate_history.specs.History.{entry_count};
ghost use Rattle.gate_core.specs.Gate.{history};
ghost use Rattle.gate_lock.specs.Desks.{Looks};
ghost use Rattle.gate_lock.specs.Steps.{Somewhere};
ghost use Rattle.page_worker.specs.Newcomers.{BeginsWithin, LooksFor};

use gate_core::{BeginRefusal, Standing};
use gate_lock::{Desk, Gate, Held, RobotsTurn};
use path_normal::Authority;
use std::sync::Wait;

/// Whether the gate has no answer of the authority, of any age.
pub fn is_unknown<G: Gate, R: Wait>(rt: &R, desk: &mut Desk<'_, G>, authority: &str) -> bool
    ensures { Somewhere desk.old
        (λ old new. LooksFor desk.old old authority.now result new desk.new) }
{
    let mut held = desk.lend(rt);
    is_unknown_in(desk, &mut held, authority)
}

/// Begins a turn of the authority. If it has no answer of any age, one authority less may become known
/// then, and without one left the turn is refused.
pub(crate) fn begin_within<G: Gate>(
    authority: &Authority,
    desk: &mut Desk<'_, G>,
    held: &mut Held<'_, G>,
    moment: u64,
    newcomers: &mut u64,
) -> Result<RobotsTurn<G>, BeginRefusal>
    requires { desk.old.seen ≤ entry_count (history held.old) }
    ensures begins { BeginsWithin desk.old held.old authority.now moment newcomers.old
        result newcomers.new held.new desk.new }
    ensures err { OnErr result ((held.new ≡ held.old) × Looks desk.old held.old desk.new) }
{
    if !is_unknown_in(desk, held, authority.text()) {
        return desk.begin_in(held, authority, moment);
    }
    let Some(left) = newcomers.checked_sub(1) else {
        return Err(BeginRefusal::AuthoritiesFull);
    };
    let turn = desk.begin_in(held, authority, moment)?;
    *newcomers = left;
    Ok(turn)
}

fn is_unknown_in<G: Gate>(desk: &mut Desk<'_, G>, held: &mut Held<'_, G>, authority: &str) -> bool
    requires { desk.old.seen ≤ entry_count (history held.old) }
    ensures { LooksFor desk.old held.old authority.now result held.new desk.new }
{
    match desk.state_in(held, authority, 0).word {
        Standing::Unknown => true,
        Standing::Expired | Standing::Closed | Standing::Open | Standing::Rules => false,
    }
}
