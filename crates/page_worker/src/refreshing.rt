//! `refresh`: fetches an authority's robots answer anew.
//! RFC 9309, sections 2.3.1 and 2.4.
ghost use Rattle.std.specs.Prelude.{◌≡◌, IfOk, OnErr};
ghost use Rattle.gate_lock.specs.Desks.{HasOut, KeepsOut};
ghost use Rattle.gate_lock.specs.Steps.{Somewhere};
ghost use Rattle.fetchers.specs.Limits.{robots_limit};
ghost use Rattle.fetchers.specs.Walks.{robots_reply_of};
ghost use Rattle.page_worker.specs.Newcomers.{BeginsWithin, RefreshesWithin};
ghost use Rattle.page_worker.specs.Refreshes.{Brings, IsBrought, IsUndecided, Refreshes};
ghost use Rattle.page_worker.specs.World.{world_of};

use crate::clock::Clock;
use crate::closing::decided_by;
use crate::event::{Event, EventObserver};
use crate::newcomers::begin_within;
use authority_cache::{LIFE, TimedAnswer, TurnNo};
use fetchers::{ClosedBy, Fetcher};
use gate_core::{BeginRefusal, Standing};
use gate_lock::{Desk, Gate, RobotsTurn};
use http_wire::{HttpReply, WireFault};
use path_normal::Authority;
use robots_fetch::{RobotsReply, Step, Walk};
use robots_verdict::{Answer, Closure};
use std::alloc::Global;
use std::sync::Wait;

/// Fetches the authority's robots.txt and has the desk bring the answer, which is in force from now on.
/// Returns the answer's word: rules, open or closed. No lock is held while it fetches.
///
/// Out of memory for the fetch closes the authority. It fails only if `Desk::begin` does, and then nothing
/// is fetched.
pub fn refresh<G: Gate, F: Fetcher, C: Clock, R: Wait>(
    rt: &R,
    alloc: Global,
    authority: &Authority,
    desk: &mut Desk<'_, G>,
    fetcher: &F,
    clock: &C,
) -> Result<Standing, BeginRefusal>
    ensures refreshes { Refreshes
        (world_of (F.gives fetcher.now) (F.follows fetcher.now) (C.reads clock.now))
        authority.now result desk.old desk.new }
    ensures no { desk.new.no ≡ desk.old.no }
    ensures out { KeepsOut desk.old desk.new }
{
    let turn = desk.begin(rt, authority, clock.now())?;
    Ok(bring_answer(rt, alloc, turn, desk, fetcher, clock, &()))
}

/// `refresh` for one who may make only so many more authorities known. Without one left, an authority
/// without an answer of any age is refused as `AuthoritiesFull`, and nothing is done.
pub fn refresh_within<G: Gate, F: Fetcher, C: Clock, R: Wait>(
    rt: &R,
    alloc: Global,
    authority: &Authority,
    desk: &mut Desk<'_, G>,
    fetcher: &F,
    clock: &C,
    newcomers: &mut u64,
) -> Result<Standing, BeginRefusal>
    ensures refreshes { RefreshesWithin
        (world_of (F.gives fetcher.now) (F.follows fetcher.now) (C.reads clock.now))
        authority.now newcomers.old result newcomers.new desk.old desk.new }
    ensures no { desk.new.no ≡ desk.old.no }
    ensures out { KeepsOut desk.old desk.new }
{
    let turn = begin_at(rt, authority, desk, clock.now(), newcomers)?;
    Ok(bring_answer(rt, alloc, turn, desk, fetcher, clock, &()))
}

// Begins a turn within the bound, under one hold of the lock.
fn begin_at<G: Gate, R: Wait>(
    rt: &R,
    authority: &Authority,
    desk: &mut Desk<'_, G>,
    moment: u64,
    newcomers: &mut u64,
) -> Result<RobotsTurn<G>, BeginRefusal>
    ensures step { Somewhere desk.old (λ old new. BeginsWithin desk.old old authority.now moment
        newcomers.old result newcomers.new new desk.new) }
    ensures no { desk.new.no ≡ desk.old.no }
    ensures ok { IfOk result (λ t. (t.desk ≡ desk.old.no) × HasOut desk.old desk.new 0 0 0 0 1 0) }
    ensures err { OnErr result (KeepsOut desk.old desk.new) }
{
    let mut held = desk.lend(rt);
    begin_within(authority, desk, &mut held, moment, newcomers)
}

/// Fetches the robots.txt of a turn's authority, brings the answer, and returns its word.
pub(crate) fn bring_answer<G: Gate, F: Fetcher, C: Clock, N: EventObserver, R: Wait>(
    rt: &R,
    alloc: Global,
    turn: RobotsTurn<G>,
    desk: &mut Desk<'_, G>,
    fetcher: &F,
    clock: &C,
    notes: &N,
) -> Standing
    requires own { turn.desk ≡ desk.old.no }
    ensures brings { Brings
        (world_of (F.gives fetcher.now) (F.follows fetcher.now) (C.reads clock.now))
        turn result desk.old desk.new }
    ensures no { desk.new.no ≡ desk.old.no }
    ensures out { HasOut desk.old desk.new 0 0 0 0 0 1 }
{
    let mut why = ClosedBy::NoMemory;
    let answer = answer_to_keep(rt, alloc, &turn, desk, fetcher, notes, &mut why);
    let closed_by = match answer.answer() {
        Answer::Closed(_) => Some(why),
        Answer::Rules(_) | Answer::Open(_) => None,
    };
    // Before the answer is in force, so whoever finds it finds the note.
    note_closing(fetcher, turn.number(), closed_by);
    notes.sees(Event::Brought(turn.authority().text(), closed_by));
    let word = Standing::of(answer.answer());
    desk.arrive(rt, turn, answer, clock.now());
    word
}

// Notes what closes the site of a turn, if its answer is a closed one.
fn note_closing<F: Fetcher>(fetcher: &F, turn: TurnNo, closed_by: Option<ClosedBy>) {
    if let (Some(by), Some(meter)) = (closed_by, fetcher.meter()) {
        meter.note_closed(turn, by);
    }
}

// The answer of the authority's robots.txt, with its life; a closed one if there is no room for its text.
// `why` gets what decided it.
fn answer_to_keep<G: Gate, F: Fetcher, N: EventObserver, R: Wait>(
    rt: &R,
    alloc: Global,
    turn: &RobotsTurn<G>,
    desk: &Desk<'_, G>,
    fetcher: &F,
    notes: &N,
    why: &mut ClosedBy,
) -> TimedAnswer
    ensures brings { IsBrought (F.follows fetcher.now) ((F.gives fetcher.now).holds robots_limit)
        turn.now.authority result.says result.life }
    ensures spares { result.spares ≡ 2 }
{
    let mut answer = fetch_answer(alloc, turn, fetcher, notes, why);
    let is_in_memory = share_text(rt, desk, turn.authority(), &mut answer);
    if is_in_memory || fetcher.takes_text(text_of(answer.answer()).len() as u64) {
        return answer;
    }
    *why = ClosedBy::NoMemory;
    undecided()
}

// The answer of the authority's robots.txt, with its life. `why` gets what decided it, if that was a reply.
fn fetch_answer<G: Gate, F: Fetcher, N: EventObserver>(
    alloc: Global,
    turn: &RobotsTurn<G>,
    fetcher: &F,
    notes: &N,
    why: &mut ClosedBy,
) -> TimedAnswer
    ensures brings { IsBrought (F.follows fetcher.now) ((F.gives fetcher.now).holds robots_limit)
        turn.now.authority result.says result.life }
    ensures spares { result.spares ≡ 2 }
{
    let Ok(mut walk) = Walk::new(turn.authority()) else {
        return undecided();
    };
    let schemes = fetcher.schemes();
    let time = fetcher.begin_walk();
    loop {
        let mut failure = None;
        let url = walk.url();
        notes.begins_at(url.authority());
        let given = fetcher.fetch_robots(turn, url, time, &mut failure);
        let met = ClosedBy::met(&given, failure);
        let reply = robots_reply(given);
        walk = match walk.step_among(alloc, schemes, &reply) {
            Step::Go(next) => next,
            Step::Done(answer) => {
                *why = decided_by(met, &reply, answer.answer());
                return answer;
            }
            Step::NoMemory(_) => return undecided(),
        };
    }
}

// Lets the answer share the text in force if it has the same octets, so a robots.txt fetched again and
// again is in memory once. Whether it has them.
fn share_text<G: Gate, R: Wait>(
    rt: &R,
    desk: &Desk<'_, G>,
    authority: &Authority,
    answer: &mut TimedAnswer,
) -> bool
    ensures { answer.new ≡ answer.old }
{
    let in_force = desk.lend(rt).book().hint(authority.text(), 0);
    let Some(policy) = in_force else {
        return false;
    };
    let is_same = policy.text().bytes() == text_of(answer.answer());
    answer.share(policy);
    is_same
}

// The octets of an answer's robots text, of which one without rules has none.
fn text_of(answer: &Answer) -> &[u8] {
    match answer {
        Answer::Rules(rules) => rules.policy().text().bytes(),
        Answer::Open(_) | Answer::Closed(_) => &[],
    }
}

// The answer when memory runs out: closing the site is the safe side.
fn undecided() -> TimedAnswer
    ensures undecided { IsUndecided result.says result.life }
    ensures spares { result.spares ≡ 2 }
{
    TimedAnswer::new(Answer::Closed(Closure::Other), LIFE)
}

fn robots_reply(given: Result<HttpReply, WireFault>) -> RobotsReply
    ensures { result ≡ robots_reply_of given }
{
    match given {
        Ok(reply) => RobotsReply::Status {
            code: reply.status,
            location: reply.location,
            body: reply.body,
            max_age: reply.max_age,
        },
        Err(WireFault::Coding) => RobotsReply::CodingFault,
        Err(_) => RobotsReply::NetworkFault,
    }
}
