//! Loads what a base left open into an `OpenState`, one thing at a time.
//! Used by `first_base`; RFC 9309, sections 2.3.1 and 2.4.
ghost use Rattle.std.specs.Prelude.{◌≡◌, OnOk, is_some};
ghost use Rattle.crawl_audit.specs.FirstBase.{is_granted};
ghost use Rattle.crawl_audit.specs.Loading.{LoadsAnswer, LoadsTurn, Sets, counted_from, risen};
ghost use Rattle.crawl_audit.specs.Tables.{phases_of};

use crate::numbers::PermitNumbers;
use crate::open_state::OpenState;
use authority_cache::{TimedAnswer, TurnNo};
use gate_history::SlotGrant;
use path_normal::Authority;
use permit_book::PermitNo;
use std::alloc::AllocError;

impl OpenState {
    /// Loads the numbers of a base. From then on grants must rise.
    pub(crate) fn load_numbers(&mut self, numbers: gate_history::Numbers)
        ensures { self.new ≡ counted_from self.old numbers }
    {
        self.clock = numbers.moment;
        self.begins = numbers.begins;
        self.entries = numbers.entries;
        self.started = numbers.started;
        self.numbers.rise();
    }

    pub(crate) fn load_turn(
        &mut self,
        authority: &Authority,
        turn: TurnNo,
        begun: u64,
    ) -> Result<(), AllocError>
        ensures { OnOk result (LoadsTurn self.old authority.now turn begun self.new) }
    {
        match self.cache.begin(authority, turn, begun) {
            Ok(()) => Ok(()),
            Err(_) => Err(AllocError),
        }
    }

    /// Loads the answer to a turn that began at this moment.
    pub(crate) fn load_answer(
        &mut self,
        authority: &Authority,
        turn: TurnNo,
        begun: u64,
        answer: TimedAnswer,
    ) -> Result<(), AllocError>
        ensures { OnOk result
            (LoadsAnswer self.old authority.now turn begun answer self.new) }
    {
        self.load_turn(authority, turn, begun)?;
        // The turn has just begun, so it is in flight.
        let _ = self.cache.arrive(authority, turn, answer);
        Ok(())
    }
}

impl PermitNumbers {
    /// From now on, each grant must have a generation above all earlier ones of its slot.
    pub(crate) fn rise(&mut self)
        ensures { self.new ≡ risen self.old }
    {
        self.rising = true;
    }

    /// Whether the number's slot had a grant of its generation or a later one.
    pub(crate) fn is_granted(&self, number: PermitNo) -> bool
        ensures { result ≡ is_granted self.now number }
    {
        match self.by_slot.get(&number.slot()) {
            Some(last) => number.generation() <= *last,
            None => false,
        }
    }

    pub(crate) fn is_out(&self, number: PermitNo) -> bool
        ensures { result ≡ is_some (phases_of self.now number) }
    {
        self.get(number).is_some()
    }

    pub(crate) fn load_grant(&mut self, grant: SlotGrant) -> Result<(), AllocError>
        ensures { OnOk result (Sets self.old grant self.new) }
    {
        match self.by_slot.insert(grant.slot, grant.generation) {
            Ok(_) => Ok(()),
            Err(_) => Err(AllocError),
        }
    }
}
