//! Calls of desks for the tests, in both forms.
//! RFC 9309, sections 2.2 to 2.4.
ghost use Rattle.std.specs.Prelude.{◌≡◌, IfNone, IfSome, OnErr, IfOk};
ghost use Rattle.gate_lock.specs.Desks.{HasOut, KeepsOut, out_of};

use super::gates::PAGE;
use authority_cache::{LIFE, TimedAnswer};
use gate_core::{AskRefusal, BeginRefusal, Judged};
use gate_lock::{Desk, DesksFull, Gate, GateLock, Permit, Receipts, RobotsTurn};
use gate_settlement::{SettleFault, settle};
use path_normal::{Authority, PageUrl};
use robots_text::Token;
use robots_verdict::{Answer, Opening};
use std::alloc::Global;
use std::sync::Wait;
use std::test::Fail;

// The form of the calls.
#[derive(Clone, Copy)]
pub(super) enum CallForm {
    Plain,
    Held,
}

// Begins a turn of the authority if possible, and brings that there is no robots.txt.
fn fetch<G: Gate, R: Wait>(
    rt: &R,
    desk: &mut Desk<'_, G>,
    form: CallForm,
    site: &Authority,
    moment: u64,
) -> bool
    ensures out { KeepsOut desk.old desk.new }
{
    match begin(rt, desk, form, site, moment) {
        Ok(turn) => {
            let open = TimedAnswer::new(Answer::Open(Opening::Unavailable), LIFE);
            desk.arrive(rt, turn, open, moment);
            true
        }
        Err(_) => false,
    }
}

fn begin<G: Gate, R: Wait>(
    rt: &R,
    desk: &mut Desk<'_, G>,
    form: CallForm,
    site: &Authority,
    moment: u64,
) -> Result<RobotsTurn<G>, BeginRefusal>
    ensures no { desk.new.no ≡ desk.old.no }
    ensures ok { IfOk result (λ t. (t.desk ≡ desk.old.no) × HasOut desk.old desk.new 0 0 0 0 1 0) }
    ensures err { OnErr result (KeepsOut desk.old desk.new) }
{
    match form {
        CallForm::Plain => desk.begin(rt, site, moment),
        CallForm::Held => {
            let mut held = desk.lend(rt);
            desk.begin_in(&mut held, site, moment)
        }
    }
}

// Asks for a page with foobot at 110.
fn granted<G: Gate, R: Wait>(
    rt: &R,
    alloc: Global,
    desk: &mut Desk<'_, G>,
    form: CallForm,
    page: &str,
) -> Option<Permit<G>>
    ensures no { desk.new.no ≡ desk.old.no }
    ensures some { IfSome result
        (λ p. (p.desk ≡ desk.old.no) × HasOut desk.old desk.new 1 0 0 0 0 0) }
    ensures none { IfNone result (KeepsOut desk.old desk.new) }
{
    let token = Token::new(alloc, b"foobot").ok()?;
    let url = PageUrl::parse(alloc, page).ok()?;
    asked(rt, alloc, desk, form, token, url).ok()
}

fn asked<G: Gate, R: Wait>(
    rt: &R,
    alloc: Global,
    desk: &mut Desk<'_, G>,
    form: CallForm,
    token: Token,
    url: PageUrl,
) -> Result<Permit<G>, AskRefusal>
    ensures no { desk.new.no ≡ desk.old.no }
    ensures ok { IfOk result (λ p. (p.desk ≡ desk.old.no) × HasOut desk.old desk.new 1 0 0 0 0 0) }
    ensures err { OnErr result (KeepsOut desk.old desk.new) }
{
    match form {
        CallForm::Plain => desk.ask(rt, token, url, 110),
        CallForm::Held => {
            let mut held = desk.lend(rt);
            desk.ask_in(&mut held, Judged::new(None, token, url), 110)
        }
    }
}

// A desk that brings the answer of a.example, and closes: its receipts are added.
pub(super) fn bring<G: Gate, R: Wait>(
    rt: &R,
    alloc: Global,
    gate: &GateLock<G>,
    form: CallForm,
    all: &mut Vec<Receipts<G>>,
) -> Result<(), Fail> {
    let site = Authority::new(alloc, "a.example")?;
    bring_for(rt, alloc, gate, form, &site, all)
}

fn bring_for<G: Gate, R: Wait>(
    rt: &R,
    alloc: Global,
    gate: &GateLock<G>,
    form: CallForm,
    site: &Authority,
    all: &mut Vec<Receipts<G>>,
) -> Result<(), Fail> {
    let mut desk = gate.desk(rt, alloc)?;
    let is_brought = fetch(rt, &mut desk, form, site, 100);
    all.push(desk.close())?;
    if is_brought {
        Ok(())
    } else {
        Err(Fail::new("no turn"))
    }
}

// The settlement before and after a permit is given back.
type Settlements = [Totals; 2];

// A settlement's events and starts, or its fault.
pub(super) type Totals = Result<(u64, u64), SettleFault>;

// Settles a gate by these receipts.
pub(super) fn totals<G: Gate, R: Wait>(
    rt: &R,
    alloc: Global,
    gate: &GateLock<G>,
    all: &[Receipts<G>],
) -> Totals {
    let settled = settle(rt, alloc, gate, all)?;
    Ok((settled.events(), settled.starts()))
}

// A desk that asks for the page, gives the permit back, and closes: its receipts are added. Returns the
// settlement without them.
pub(super) fn give_back<G: Gate, R: Wait>(
    rt: &R,
    alloc: Global,
    gate: &GateLock<G>,
    form: CallForm,
    page: &str,
    all: &mut Vec<Receipts<G>>,
) -> Result<Settlements, Fail> {
    let mut desk = gate.desk(rt, alloc)?;
    let found = settlements(rt, alloc, gate, form, page, &mut desk, all.as_slice());
    all.push(desk.close())?;
    match found {
        Some(found) => Ok(found),
        None => Err(Fail::new("no permit")),
    }
}

fn settlements<G: Gate, R: Wait>(
    rt: &R,
    alloc: Global,
    gate: &GateLock<G>,
    form: CallForm,
    page: &str,
    desk: &mut Desk<'_, G>,
    others: &[Receipts<G>],
) -> Option<Settlements>
    ensures { KeepsOut desk.old desk.new }
{
    let permit = granted(rt, alloc, desk, form, page)?;
    let before = totals(rt, alloc, gate, others);
    desk.back(rt, permit);
    let after = totals(rt, alloc, gate, others);
    Some([before, after])
}

// A round of an allowed fetch: whether each step is.
fn round<G: Gate, R: Wait>(rt: &R, alloc: Global, desk: &mut Desk<'_, G>) -> bool
    ensures no { desk.new.no ≡ desk.old.no }
    ensures out { KeepsOut desk.old desk.new }
{
    let Some(permit) = granted(rt, alloc, desk, CallForm::Plain, PAGE) else {
        return false;
    };
    let Ok(run) = desk.start(rt, permit, 110) else {
        return false;
    };
    desk.finish(rt, run.spend());
    true
}

pub(super) fn rounds<G: Gate, R: Wait>(rt: &R, alloc: Global, desk: &mut Desk<'_, G>)
    requires { out_of desk.old ≡ 0 }
    ensures { out_of desk.new ≡ 0 }
{
    for _ in 0..100 {
        if !round(rt, alloc, desk) {
            break;
        }
    }
}

// A desk that closes after a hundred rounds.
pub(super) fn worked<G: Gate, R: Wait>(
    rt: &R,
    alloc: Global,
    gate: &GateLock<G>,
) -> Result<Receipts<G>, DesksFull> {
    let mut desk = gate.desk(rt, alloc)?;
    rounds(rt, alloc, &mut desk);
    Ok(desk.close())
}
