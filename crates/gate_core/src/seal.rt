//! `Book::seal`: hands out the entries since the base, and continues from their base.
//! RFC 9309, sections 2.3.1 and 2.4.
ghost use Rattle.std.specs.Prelude.{◌≡◌, IfOk};
ghost use Rattle.gate_history.specs.History.{from};
ghost use Rattle.gate_history.specs.Seal.{SaysAs};
ghost use Rattle.gate_core.specs.Gate.{history};
ghost use Rattle.gate_core.specs.Sealing.{ListsGrants, Seals};

use crate::book::Book;
use crate::refusal::NoMemory;
use gate_history::{Base, LeftOpen, Numbers, Segment, SlotGrant};
use permit_book::Permits;
use std::alloc::{AllocError, Global};
use std::mem;

impl Book {
    /// Hands out the entries since the base, with it. The book continues from the base that they lead to,
    /// which is allocated first: if that fails, nothing changes. No entry is copied. Without entries, the
    /// segment is empty.
    pub fn seal(&mut self) -> Result<Segment, NoMemory>
        ensures { Seals self.old result self.new }
    {
        let alloc = *self.entries.allocator();
        if self.entries.is_empty() {
            return Ok(Segment::empty(alloc));
        }
        let next = self.next_base(alloc)?;
        let room = Vec::with_capacity(alloc, self.promised() as usize)?;
        let base = mem::replace(&mut self.base, next);
        let entries = mem::replace(&mut self.entries, room);
        Ok(Segment::of(base, entries))
    }

    // The base that the history leads to.
    fn next_base(&self, alloc: Global) -> Result<Base, AllocError>
        ensures { IfOk result (λ base. SaysAs (from base) (history self.now)) }
    {
        let left = LeftOpen {
            standing: self.cache.standing_answers(alloc)?,
            in_flight: self.cache.turns(alloc)?,
            unspent: self.permits.unspent_permits(alloc)?,
            running: self.permits.running_permits(alloc)?,
            grants: grants_in(&self.permits, alloc)?,
        };
        let numbers = Numbers {
            begins: self.begins,
            moment: self.clock,
            entries: self.entry_count(),
            started: self.starts,
        };
        Ok(Base::of(left, numbers))
    }
}

// The greatest generation of each slot in which something was granted.
fn grants_in(permits: &Permits, alloc: Global) -> Result<Vec<SlotGrant>, AllocError>
    ensures { IfOk result (λ grants. ListsGrants permits.now grants.items) }
{
    let mut grants = Vec::new(alloc);
    let slots = permits.slots();
    for place in 0..slots.len() {
        let last = slots[place].last;
        if last > 0 {
            grants.push(SlotGrant {
                slot: place as u64,
                generation: last,
            })?;
        }
    }
    Ok(grants)
}
