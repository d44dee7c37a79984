//! The open_state: what the entries so far say, in tables that judge the next entry.
//! RFC 9309, sections 2.2.2, 2.3.1 and 2.4.
ghost use Rattle.std.specs.Prelude.{◌≡◌, ◌+◌, ◌<◌, ◌↔◌, IfOk, IsTrue, false};
ghost use Rattle.robots_verdict.specs.Answer.{said};
ghost use Rattle.authority_cache.specs.Lives.{life_of};
ghost use Rattle.gate_history.specs.declared.entry.Entry.TheVariants.{AskDenied, Arrived, Begun, Finished, Granted, Returned, StartDenied, Started, Swept};
ghost use Rattle.gate_history.specs.Base.{empty_base};
ghost use Rattle.gate_history.specs.History.{History, from, is_start};
ghost use Rattle.gate_history.specs.Legal.{IsLegal, SpendsAs};
ghost use Rattle.history_text.specs.Entries.{HasLife};
ghost use Rattle.crawl_audit.specs.Records.{entry_of};
ghost use Rattle.crawl_audit.specs.Tables.{EntersLegally, FollowsLegally, KeepsCounts, Tells, TellsAll};
ghost use Rattle.gate_core.specs.Limits.{greatest_number};

use crate::numbers::PermitNumbers;
use crate::record::Record;
use crate::unread_line::UnreadLine;
use authority_cache::{Cache, TimedAnswer, TurnNo};
use gate_history::{Cause, Reason, decide};
use history_text::Version;
use path_normal::Authority;
use permit_book::{Fetch, PermitNo};
use robots_verdict::Answer;
use std::alloc::Global;
use std::hash::RandomState;

/// What the entries so far say. Unusable after a refused entry.
#[derive(Drop)]
pub(crate) struct OpenState {
    pub(crate) clock: u64,
    pub(crate) begins: u64,
    /// How many entries there were ever, and how many of them are started fetches.
    pub(crate) entries: u64,
    pub(crate) started: u64,
    pub(crate) cache: Cache,
    pub(crate) numbers: PermitNumbers,
}

impl OpenState {
    /// The open_state of no entry, with the hash keys of its tables.
    pub(crate) fn new(alloc: Global, keys: RandomState) -> OpenState
        ensures tells { TellsAll result (from empty_base) }
        ensures any { result.numbers.rising ≡ false }
    {
        OpenState {
            clock: 0,
            begins: 0,
            entries: 0,
            started: 0,
            // The authorities of a text are not limited.
            cache: Cache::new(alloc, u64::MAX, keys),
            numbers: PermitNumbers::new(alloc, keys),
        }
    }

    /// Enters an entry, if it is legal after those so far, and returns whether it starts a fetch.
    pub(crate) fn enter(&mut self, found: Record) -> Result<bool, UnreadLine>
        requires life { HasLife Version.Two (entry_of found) }
        requires room { self.old.entries < greatest_number }
        ensures enters { (h : History) → IsLegal h → TellsAll self.old h
            → EntersLegally self.old h (entry_of found) result self.new }
        ensures start { IfOk result (λ starts. starts ≡ is_start (entry_of found)) }
    {
        let is_start = is_start(&found);
        self.enter_open(found)?;
        self.entries += 1;
        if is_start {
            self.started = self.started.saturating_add(1);
        }
        Ok(is_start)
    }

    fn enter_open(&mut self, found: Record) -> Result<(), UnreadLine>
        requires { HasLife Version.Two (entry_of found) }
        ensures tells { (h : History) → IsLegal h → Tells self.old h
            → FollowsLegally self.old h (entry_of found) result self.new }
        ensures counts { KeepsCounts self.old self.new }
    {
        match found {
            Record::Begun {
                moment,
                authority,
                turn,
            } => self.enter_begun(moment, &authority, turn),
            Record::Arrived {
                moment,
                authority,
                turn,
                answer,
                life,
            } => self.enter_arrived(moment, &authority, turn, answer, life),
            Record::Granted {
                moment,
                number,
                fetch,
            } => self.enter_granted(moment, number, fetch),
            Record::AskDenied {
                moment,
                fetch,
                cause,
            } => self.enter_ask_denied(moment, &fetch, cause),
            Record::Started {
                moment,
                number,
                reason,
            } => self.enter_started(moment, number, reason),
            Record::StartDenied {
                moment,
                number,
                cause,
            } => self.enter_start_denied(moment, number, cause),
            Record::Returned { number } => self.enter_returned(number),
            Record::Finished { number } => self.enter_finished(number),
            Record::Swept { moment, count } => self.enter_swept(moment, count),
        }
    }

    fn enter_begun(
        &mut self,
        moment: u64,
        authority: &Authority,
        turn: TurnNo,
    ) -> Result<(), UnreadLine>
        ensures tells { (h : History) → Tells self.old h
            → FollowsLegally self.old h (Begun moment authority.now turn) result self.new }
        ensures counts { KeepsCounts self.old self.new }
    {
        if moment < self.clock || self.cache.in_flight(authority.text()) || !self.is_next(turn) {
            return Err(UnreadLine::NotOne);
        }
        if self.cache.begin(authority, turn, moment).is_err() {
            return Err(UnreadLine::NoMemory);
        }
        self.clock = moment;
        self.begins = turn.number();
        Ok(())
    }

    fn is_next(&self, turn: TurnNo) -> bool
        ensures { IsTrue result ↔ (turn ≡ self.now.begins + 1) }
    {
        turn.number() > 0 && turn.number() - 1 == self.begins
    }

    fn enter_arrived(
        &mut self,
        moment: u64,
        authority: &Authority,
        turn: TurnNo,
        answer: Answer,
        life: u64,
    ) -> Result<(), UnreadLine>
        requires { life_of (said answer) life ≡ life }
        ensures tells { (h : History) → IsLegal h → Tells self.old h
            → FollowsLegally self.old h (Arrived life moment authority.now turn (said answer))
            result self.new }
        ensures counts { KeepsCounts self.old self.new }
    {
        if moment < self.clock {
            return Err(UnreadLine::NotOne);
        }
        let brought = TimedAnswer::new(answer, life);
        if self.cache.arrive(authority, turn, brought).is_err() {
            return Err(UnreadLine::NotOne);
        }
        self.clock = moment;
        Ok(())
    }

    fn enter_granted(
        &mut self,
        moment: u64,
        number: PermitNo,
        fetch: Fetch,
    ) -> Result<(), UnreadLine>
        ensures tells { (h : History) → Tells self.old h
            → FollowsLegally self.old h (Granted moment number fetch) result self.new }
        ensures counts { KeepsCounts self.old self.new }
    {
        if moment < self.clock || !self.numbers.is_new(number) {
            return Err(UnreadLine::NotOne);
        }
        self.cache.make_index(fetch.url.authority());
        if decide(&self.cache, &fetch.token, &fetch.url, None, moment).is_err() {
            return Err(UnreadLine::NotOne);
        }
        self.numbers.grant(number, fetch)?;
        self.clock = moment;
        Ok(())
    }

    fn enter_ask_denied(
        &mut self,
        moment: u64,
        fetch: &Fetch,
        cause: Cause,
    ) -> Result<(), UnreadLine>
        ensures tells { (h : History) → Tells self.old h
            → FollowsLegally self.old h (AskDenied moment fetch.now cause) result self.new }
        ensures counts { KeepsCounts self.old self.new }
    {
        self.cache.make_index(fetch.url.authority());
        let decided = decide(&self.cache, &fetch.token, &fetch.url, None, moment);
        if moment < self.clock || !is_same(decided, Err(cause)) {
            return Err(UnreadLine::NotOne);
        }
        self.clock = moment;
        Ok(())
    }

    fn enter_started(
        &mut self,
        moment: u64,
        number: PermitNo,
        reason: Reason,
    ) -> Result<(), UnreadLine>
        ensures tells { (h : History) → Tells self.old h
            → FollowsLegally self.old h (Started moment number reason) result self.new }
        ensures counts { KeepsCounts self.old self.new }
    {
        if moment < self.clock || !self.decides(number, moment, Ok(reason)) {
            return Err(UnreadLine::NotOne);
        }
        self.numbers.start(number)?;
        self.clock = moment;
        Ok(())
    }

    fn enter_start_denied(
        &mut self,
        moment: u64,
        number: PermitNo,
        cause: Cause,
    ) -> Result<(), UnreadLine>
        ensures tells { (h : History) → Tells self.old h
            → FollowsLegally self.old h (StartDenied moment number cause) result self.new }
        ensures counts { KeepsCounts self.old self.new }
    {
        if moment < self.clock || !self.decides(number, moment, Err(cause)) {
            return Err(UnreadLine::NotOne);
        }
        self.numbers.end(number);
        self.clock = moment;
        Ok(())
    }

    // Whether the number has an unused permit whose fetch is decided in this way.
    fn decides(&self, number: PermitNo, moment: u64, outcome: Result<Reason, Cause>) -> bool
        ensures { (h : History) → Tells self.now h
            → IsTrue result ↔ SpendsAs h number moment outcome }
    {
        match self.numbers.unspent(number) {
            Some(fetch) => is_same(
                decide(&self.cache, &fetch.token, &fetch.url, None, moment),
                outcome,
            ),
            None => false,
        }
    }

    fn enter_returned(&mut self, number: PermitNo) -> Result<(), UnreadLine>
        ensures tells { (h : History) → Tells self.old h
            → FollowsLegally self.old h (Returned number) result self.new }
        ensures counts { KeepsCounts self.old self.new }
    {
        if self.numbers.unspent(number).is_none() {
            return Err(UnreadLine::NotOne);
        }
        self.numbers.end(number);
        Ok(())
    }

    fn enter_finished(&mut self, number: PermitNo) -> Result<(), UnreadLine>
        ensures tells { (h : History) → Tells self.old h
            → FollowsLegally self.old h (Finished number) result self.new }
        ensures counts { KeepsCounts self.old self.new }
    {
        if !self.numbers.is_running(number) {
            return Err(UnreadLine::NotOne);
        }
        self.numbers.end(number);
        Ok(())
    }

    fn enter_swept(&mut self, moment: u64, count: u64) -> Result<(), UnreadLine>
        ensures tells { (h : History) → Tells self.old h
            → FollowsLegally self.old h (Swept moment count) result self.new }
        ensures counts { KeepsCounts self.old self.new }
    {
        if moment < self.clock || self.cache.sweep(moment) != count {
            return Err(UnreadLine::NotOne);
        }
        self.clock = moment;
        Ok(())
    }
}

fn is_start(found: &Record) -> bool
    ensures { result ≡ is_start (entry_of found.now) }
{
    matches!(found, Record::Started { .. })
}

fn is_same(one: Result<Reason, Cause>, other: Result<Reason, Cause>) -> bool
    ensures { IsTrue result ↔ (one ≡ other) }
{
    one == other
}
