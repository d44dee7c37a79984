//! The base of a first text, which is trusted: each line is only checked against those before it, and
//! loaded.
//! See docs/FORMATS.md; RFC 9309, sections 2.3.1 and 2.4.
ghost use Rattle.std.specs.Prelude.{◌≡◌, ◌≢◌, ℕ, ◌+◌, ◌<◌, ◌≤◌, ◌==◌, ◌||◌, ◌↔◌};
ghost use Rattle.std.specs.Prelude.{◌∷◌, [], IsTrue, List, OnOk, codes};
ghost use Rattle.gate_history.specs.Base.{Base, empty_base};
ghost use Rattle.gate_history.specs.History.{from};
ghost use Rattle.crawl_audit.specs.FirstBase.{Reads, ReadsHead, ReadsRows, SaysBase, TakesBaseLine};
ghost use Rattle.crawl_audit.specs.FirstBase.{Loads, answered_row, fits, is_behind, is_used};
ghost use Rattle.crawl_audit.specs.FirstBase.{key_of, kind_place, may_have_begun, permit_row, turn_row};
ghost use Rattle.crawl_audit.specs.OpenRows.{Greatest, IsOpenRow, MayStand};
ghost use Rattle.crawl_audit.specs.OpenRows.{row_of};
ghost use Rattle.crawl_audit.specs.Tables.{TellsAll};

use crate::base_row::BaseRow;
use crate::numbers::Phase;
use crate::open_state::OpenState;
use crate::read_base::{read_numbers, read_row};
use crate::unread_line::UnreadLine;
use authority_cache::{TimedAnswer, TurnNo};
use gate_history::{Numbers, SlotGrant};
use indexmap::IndexMap;
use path_normal::Authority;
use permit_book::PermitNo;
use std::alloc::{AllocError, Global};
use std::hash::RandomState;

/// The last line read of a base, by kind and key.
#[derive(Drop)]
pub(crate) enum LastLine {
    /// The line of numbers; no row was read.
    Numbers,
    Answered(Authority),
    InFlight(TurnNo),
    Greatest(u64),
    Unspent(PermitNo),
    Running(PermitNo),
}

/// A first text's base as far as it was read. The open_state holds what it left open.
#[derive(Drop)]
pub(crate) struct FirstBase {
    // None if only the first line was read.
    last: Option<LastLine>,
    // The turns read so far, in flight or answered.
    turns: IndexMap<u64, (), RandomState>,
}

impl FirstBase {
    /// A base whose first line was read, with the hash keys of its table.
    pub(crate) fn new(alloc: Global, keys: RandomState) -> FirstBase
        ensures { (open_state : OpenState) → TellsAll open_state (from empty_base)
            → Reads result open_state (codes "V 3" ∷ []) }
    {
        FirstBase {
            last: None,
            turns: IndexMap::with_hasher(alloc, keys),
        }
    }

    /// Takes the next line of the base; true if it was the last one.
    pub(crate) fn take(
        &mut self,
        alloc: Global,
        open_state: &mut OpenState,
        line: &[u8],
    ) -> Result<bool, UnreadLine>
        ensures { (lines : List (List ℕ)) → Reads self.old open_state.old lines
            → TakesBaseLine lines line.now result self.new open_state.new }
    {
        if self.last.is_none() {
            return self.take_numbers(open_state, line);
        }
        if line == b"E".as_slice() {
            return Ok(true);
        }
        self.take_row(alloc, open_state, line)
    }

    fn take_numbers(&mut self, open_state: &mut OpenState, line: &[u8]) -> Result<bool, UnreadLine>
        ensures { (lines : List (List ℕ)) → ReadsHead self.old open_state.old lines
            → TakesBaseLine lines line.now result self.new open_state.new }
    {
        let numbers = read_numbers(line)?;
        if !may_be_of_base(numbers) {
            return Err(UnreadLine::NotOne);
        }
        open_state.load_numbers(numbers);
        self.last = Some(LastLine::Numbers);
        Ok(false)
    }

    fn take_row(
        &mut self,
        alloc: Global,
        open_state: &mut OpenState,
        line: &[u8],
    ) -> Result<bool, UnreadLine>
        ensures { (lines : List (List ℕ)) → ReadsRows self.old open_state.old lines
            → line.now ≢ codes "E" → TakesBaseLine lines line.now result self.new open_state.new }
    {
        let row = read_row(alloc, line)?;
        if !self.may_stand(open_state, &row) {
            drop(row);
            return Err(UnreadLine::NotOne);
        }
        self.load(open_state, row)?;
        Ok(false)
    }

    fn may_stand(&self, open_state: &OpenState, row: &BaseRow) -> bool
        ensures { (b : Base) → SaysBase self.now open_state.now b → IsOpenRow (row_of row.now)
            → IsTrue result ↔ MayStand b (row_of row.now) }
    {
        match &self.last {
            Some(last) => last.is_before(row) && self.fits(open_state, row),
            None => false,
        }
    }

    // Whether the row is consistent with those read, apart from their order.
    fn fits(&self, open_state: &OpenState, row: &BaseRow) -> bool
        ensures { result ≡ fits self.now open_state.now (row_of row.now) }
    {
        match row {
            BaseRow::Answered { turn, begun, .. } => self.may_have_begun(open_state, *turn, *begun),
            BaseRow::InFlight {
                authority,
                turn,
                begun,
            } => {
                !open_state.cache.in_flight(authority.text())
                    && self.may_have_begun(open_state, *turn, *begun)
            }
            BaseRow::Greatest(_) => true,
            BaseRow::Unspent { number, .. } => open_state.numbers.is_granted(*number),
            BaseRow::Running { number, .. } => {
                open_state.numbers.is_granted(*number) && !open_state.numbers.is_out(*number)
            }
        }
    }

    // Whether the turn was not read yet and could have begun at this moment.
    fn may_have_begun(&self, open_state: &OpenState, turn: TurnNo, begun: u64) -> bool
        ensures { result ≡ may_have_begun self.now open_state.now turn begun }
    {
        self.turns.get(&turn.number()).is_none()
            && turn.number() <= open_state.begins
            && begun <= open_state.clock
    }

    // Loads a row that may come next into the open_state.
    fn load(&mut self, open_state: &mut OpenState, row: BaseRow) -> Result<(), AllocError>
        ensures { (b : Base) → SaysBase self.old open_state.old b
            → Loads b (row_of row) result self.new open_state.new }
    {
        match row {
            BaseRow::Answered {
                authority,
                turn,
                begun,
                answer,
                life,
            } => self.load_answer(
                open_state,
                authority,
                turn,
                begun,
                TimedAnswer::new(answer, life),
            ),
            BaseRow::InFlight {
                authority,
                turn,
                begun,
            } => self.load_turn(open_state, authority, turn, begun),
            BaseRow::Greatest(grant) => self.load_grant(open_state, grant),
            BaseRow::Unspent { number, fetch } => {
                self.load_permit(open_state, number, Phase::Unspent(fetch))
            }
            BaseRow::Running { number, fetch } => {
                self.load_permit(open_state, number, Phase::Running(fetch))
            }
        }
    }

    fn load_answer(
        &mut self,
        open_state: &mut OpenState,
        authority: Authority,
        turn: TurnNo,
        begun: u64,
        answer: TimedAnswer,
    ) -> Result<(), AllocError>
        ensures { (b : Base) → SaysBase self.old open_state.old b
            → Loads b (answered_row authority turn begun answer) result self.new open_state.new }
    {
        open_state.load_answer(&authority, turn, begun, answer)?;
        self.use_turn(turn)?;
        self.last = Some(LastLine::Answered(authority));
        Ok(())
    }

    fn load_turn(
        &mut self,
        open_state: &mut OpenState,
        authority: Authority,
        turn: TurnNo,
        begun: u64,
    ) -> Result<(), AllocError>
        ensures { (b : Base) → SaysBase self.old open_state.old b
            → Loads b (turn_row authority turn begun) result self.new open_state.new }
    {
        open_state.load_turn(&authority, turn, begun)?;
        self.use_turn(turn)?;
        self.last = Some(LastLine::InFlight(turn));
        Ok(())
    }

    fn load_grant(&mut self, open_state: &mut OpenState, grant: SlotGrant) -> Result<(), AllocError>
        ensures { (b : Base) → SaysBase self.old open_state.old b
            → Loads b (Greatest grant) result self.new open_state.new }
    {
        open_state.numbers.load_grant(grant)?;
        self.last = Some(LastLine::Greatest(grant.slot));
        Ok(())
    }

    fn load_permit(
        &mut self,
        open_state: &mut OpenState,
        number: PermitNo,
        phase: Phase,
    ) -> Result<(), AllocError>
        ensures { (b : Base) → SaysBase self.old open_state.old b
            → Loads b (permit_row number phase) result self.new open_state.new }
    {
        let last = LastLine::of_permit(number, &phase);
        open_state.numbers.put(number, phase)?;
        self.last = Some(last);
        Ok(())
    }

    fn use_turn(&mut self, turn: TurnNo) -> Result<(), AllocError>
        ensures used { OnOk result ((other : ℕ)
            → is_used self.new other ≡ (turn == other || is_used self.old other)) }
        ensures last { self.new.last ≡ self.old.last }
    {
        match self.turns.insert(turn.number(), ()) {
            Ok(_) => Ok(()),
            Err(_) => Err(AllocError),
        }
    }
}

impl LastLine {
    fn of_permit(number: PermitNo, phase: &Phase) -> LastLine
        ensures { result ≡ key_of (permit_row number phase.now) }
    {
        match phase {
            Phase::Unspent(_) => LastLine::Unspent(number),
            Phase::Running(_) => LastLine::Running(number),
        }
    }

    // Whether the row sorts after this line: by kind, then by key.
    fn is_before(&self, row: &BaseRow) -> bool
        ensures { result ≡ is_behind self.now (row_of row.now) }
    {
        match (self, row) {
            (LastLine::Answered(last), BaseRow::Answered { authority, .. }) => {
                last.text() < authority.text()
            }
            (LastLine::InFlight(last), BaseRow::InFlight { turn, .. }) => {
                last.number() < turn.number()
            }
            (LastLine::Greatest(last), BaseRow::Greatest(grant)) => *last < grant.slot,
            (LastLine::Unspent(last), BaseRow::Unspent { number, .. })
            | (LastLine::Running(last), BaseRow::Running { number, .. }) => {
                last.number() < number.number()
            }
            _ => self.kind_place() < kind_place(row),
        }
    }

    fn kind_place(&self) -> u8
        ensures { result ≡ kind_place self.now }
    {
        match self {
            LastLine::Numbers => 0,
            LastLine::Answered(_) => 1,
            LastLine::InFlight(_) => 2,
            LastLine::Greatest(_) => 3,
            LastLine::Unspent(_) => 4,
            LastLine::Running(_) => 5,
        }
    }
}

fn kind_place(row: &BaseRow) -> u8
    ensures { result ≡ kind_place (key_of (row_of row.now)) }
{
    match row {
        BaseRow::Answered { .. } => 1,
        BaseRow::InFlight { .. } => 2,
        BaseRow::Greatest(_) => 3,
        BaseRow::Unspent { .. } => 4,
        BaseRow::Running { .. } => 5,
    }
}

// Whether a base can have these numbers: no entry is both a begin and a start.
fn may_be_of_base(numbers: Numbers) -> bool
    ensures { IsTrue result ↔ ((0 < numbers.entries)
        × (numbers.begins + numbers.started ≤ numbers.entries)) }
{
    0 < numbers.entries
        && numbers.begins <= numbers.entries
        && numbers.started <= numbers.entries - numbers.begins
}
