//! The contents of the open_state, as lists that outlive it.
//! RFC 9309, sections 2.3.1 and 2.4.
ghost use Rattle.std.specs.Prelude.{◌≡◌, ◌++◌, IfOk, OnOk, Some};
ghost use Rattle.permit_book.specs.Outstanding.{permit_for};
ghost use Rattle.crawl_audit.specs.NextBase.{TellsLeft};
ghost use Rattle.crawl_audit.specs.Tables.{ListsGrants, ListsRunning, ListsUnspent};
ghost use Rattle.crawl_audit.specs.Tables.{running_under, unspent_under};

use crate::numbers::{PermitNumbers, Phase};
use crate::open_state::OpenState;
use gate_history::{LeftOpen, SlotGrant};
use permit_book::{Fetch, GrantedPermit, PermitNo};
use std::alloc::{AllocError, Global};

impl OpenState {
    /// What the entries so far left open, unordered.
    pub(crate) fn left_open(&self, alloc: Global) -> Result<LeftOpen, AllocError>
        ensures { IfOk result (λ left. TellsLeft self.now left) }
    {
        let (unspent, running) = self.numbers.permits(alloc)?;
        Ok(LeftOpen {
            standing: self.cache.standing_answers(alloc)?,
            in_flight: self.cache.turns(alloc)?,
            unspent,
            running,
            grants: self.numbers.slot_grants(alloc)?,
        })
    }
}

impl PermitNumbers {
    /// The unused permits and those whose fetch runs, each list unordered.
    pub(crate) fn permits(
        &self,
        alloc: Global,
    ) -> Result<(Vec<GrantedPermit>, Vec<GrantedPermit>), AllocError>
        ensures unspent { IfOk result (λ lists. ListsUnspent self.now lists.0.items) }
        ensures running { IfOk result (λ lists. ListsRunning self.now lists.1.items) }
    {
        let mut unspent = Vec::new(alloc);
        let mut running = Vec::new(alloc);
        for index in 0..self.out.len() {
            match self.out.get_index(index) {
                Some((number, phase)) => push_permit(&mut unspent, &mut running, *number, phase)?,
                None => unreachable!(),
            }
        }
        Ok((unspent, running))
    }

    /// The greatest generation of each slot in which something was granted, unordered.
    pub(crate) fn slot_grants(&self, alloc: Global) -> Result<Vec<SlotGrant>, AllocError>
        ensures { IfOk result (λ grants. ListsGrants self.now grants.items) }
    {
        let mut grants = Vec::new(alloc);
        for index in 0..self.by_slot.len() {
            match self.by_slot.get_index(index) {
                Some((slot, last)) => grants.push(SlotGrant {
                    slot: *slot,
                    generation: *last,
                })?,
                None => unreachable!(),
            }
        }
        Ok(grants)
    }
}

fn push_permit(
    unspent: &mut Vec<GrantedPermit>,
    running: &mut Vec<GrantedPermit>,
    number: u64,
    phase: &Phase,
) -> Result<(), AllocError>
    ensures unspent { OnOk result (unspent.new.items
        ≡ unspent.old.items ++ unspent_under number (Some phase.now)) }
    ensures running { OnOk result (running.new.items
        ≡ running.old.items ++ running_under number (Some phase.now)) }
{
    match phase {
        Phase::Unspent(fetch) => unspent.push(permit_for(number, fetch)?)?,
        Phase::Running(fetch) => running.push(permit_for(number, fetch)?)?,
    }
    Ok(())
}

fn permit_for(number: u64, fetch: &Fetch) -> Result<GrantedPermit, AllocError>
    ensures { IfOk result (λ permit. permit ≡ permit_for number fetch.now) }
{
    Ok(GrantedPermit {
        number: PermitNo::new(number),
        token: fetch.token.copy()?,
        url: fetch.url.copy()?,
    })
}
