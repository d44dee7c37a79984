//! What is outstanding, in lists that outlive the table.
//! Used by `Book::seal` for the base that it leaves.
ghost use Rattle.std.specs.Prelude.{◌≡◌, ◌<◌, ◌≤◌, ◌++◌, IfOk, OnOk};
ghost use Rattle.permit_book.specs.Numbers.{last_generation, most_slots, number_in};
ghost use Rattle.permit_book.specs.Outstanding.{listed_in, ListsAt, ListsRunning, ListsUnspent, permit_for};

use crate::granted_permit::GrantedPermit;
use crate::number::PermitNo;
use crate::out::{Fetch, Slot, SlotContent};
use crate::permits::Permits;
use std::alloc::{AllocError, Global};

// The stage of an outstanding permit.
#[derive(Clone, Copy)]
pub(crate) enum PermitState {
    Unspent,
    // Its fetch was started.
    Running,
}

impl Permits {
    /// The unspent permits, in the order of their slots.
    pub fn unspent_permits(&self, alloc: Global) -> Result<Vec<GrantedPermit>, AllocError>
        ensures { IfOk result (λ permits. ListsUnspent self.now permits.items) }
    {
        self.permits_at(alloc, PermitState::Unspent)
    }

    /// The permits whose fetch runs, in the order of their slots.
    pub fn running_permits(&self, alloc: Global) -> Result<Vec<GrantedPermit>, AllocError>
        ensures { IfOk result (λ permits. ListsRunning self.now permits.items) }
    {
        self.permits_at(alloc, PermitState::Running)
    }

    // The permits at this stage, in the order of their slots.
    fn permits_at(
        &self,
        alloc: Global,
        stage: PermitState,
    ) -> Result<Vec<GrantedPermit>, AllocError>
        ensures { IfOk result (λ permits. ListsAt stage self.now permits.items) }
    {
        let mut permits = Vec::new(alloc);
        for place in 0..self.slots.len() {
            push_at(&mut permits, stage, place as u64, &self.slots[place])?;
        }
        Ok(permits)
    }
}

// Adds a slot's permit, if it is at this stage.
fn push_at(
    permits: &mut Vec<GrantedPermit>,
    stage: PermitState,
    place: u64,
    slot: &Slot,
) -> Result<(), AllocError>
    requires place { place < most_slots }
    requires last { slot.now.last ≤ last_generation }
    ensures { OnOk result (permits.new.items
        ≡ permits.old.items ++ listed_in stage (number_in place slot.now.last) slot.now.out) }
{
    match (stage, &slot.out) {
        (PermitState::Unspent, SlotContent::Unspent(fetch))
        | (PermitState::Running, SlotContent::Running(fetch)) => {
            permits.push(permit_for(place, slot.last, fetch)?)?;
        }
        _ => {}
    }
    Ok(())
}

fn permit_for(place: u64, last: u64, fetch: &Fetch) -> Result<GrantedPermit, AllocError>
    requires place { place < most_slots }
    requires last { last ≤ last_generation }
    ensures { IfOk result (λ permit. permit ≡ permit_for (number_in place last) fetch.now) }
{
    Ok(GrantedPermit {
        number: PermitNo::granted_in(place, last),
        token: fetch.token.copy()?,
        url: fetch.url.copy()?,
    })
}
