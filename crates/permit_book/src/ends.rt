//! The ends of a permit: a start, which spends it, a return, and the end of its fetch.
//! Used by `Book::start`, `Book::back` and `Book::finish`.
ghost use Rattle.std.specs.Prelude.{◌≡◌, ◌↔◌, ◌*◌, ◌<◌, ◌≤◌, true, IsOk, IsTrue, OnErr, OnOk, length};
ghost use Rattle.permit_book.specs.declared.out.SlotContent.TheVariants.{Nothing};
ghost use Rattle.permit_book.specs.Table.{decided, is_running, is_unspent, out_under, with_out};
ghost use Rattle.permit_book.specs.Kept.{Vacates};

use crate::free_slots::FreeSlots;
use crate::number::PermitNo;
use crate::out::{Slot, SlotContent};
use crate::permits::Permits;
use crate::refusal::NotOut;

impl Permits {
    /// Spends an unspent permit by its start: if allowed, its fetch runs from now on; if denied, nothing is
    /// outstanding.
    pub fn decide(&mut self, number: PermitNo, allowed: bool)
        requires { IsTrue (is_unspent self.old number) }
        ensures { self.new
            ≡ with_out self.old number (decided allowed (out_under self.old number)) }
    {
        if allowed {
            self.run(number);
        } else {
            self.withdraw(number);
        }
    }

    /// Takes an unspent permit back.
    pub fn give_back(&mut self, number: PermitNo) -> Result<(), NotOut>
        ensures out { IsOk result ↔ IsTrue (is_unspent self.old number) }
        ensures ok { OnOk result (self.new ≡ with_out self.old number Nothing) }
        ensures err { OnErr result (self.new ≡ self.old) }
    {
        if !self.is_unspent(number) {
            return Err(NotOut);
        }
        self.withdraw(number);
        Ok(())
    }

    /// Ends a running fetch.
    pub fn finish(&mut self, number: PermitNo) -> Result<(), NotOut>
        ensures out { IsOk result ↔ IsTrue (is_running self.old number) }
        ensures ok { OnOk result (self.new ≡ with_out self.old number Nothing) }
        ensures err { OnErr result (self.new ≡ self.old) }
    {
        if !self.is_running(number) {
            return Err(NotOut);
        }
        vacate(&mut self.slots, &mut self.free, number.slot());
        self.running -= 1;
        Ok(())
    }

    fn run(&mut self, number: PermitNo)
        requires { IsTrue (is_unspent self.old number) }
        ensures { self.new ≡ with_out self.old number (decided true (out_under self.old number)) }
    {
        self.slots[number.slot() as usize].out.start();
        self.unspent -= 1;
        self.running += 1;
    }

    fn withdraw(&mut self, number: PermitNo)
        requires { IsTrue (is_unspent self.old number) }
        ensures { self.new ≡ with_out self.old number Nothing }
    {
        vacate(&mut self.slots, &mut self.free, number.slot());
        self.unspent -= 1;
    }
}

// Ends what is outstanding in a slot, and frees the slot unless its last generation was granted.
fn vacate(slots: &mut [Slot], free: &mut FreeSlots, place: u64)
    requires within { place < length slots.old }
    requires room { length slots.old ≤ 64 * length free.old }
    ensures { Vacates slots.old free.old place slots.new free.new }
{
    let slot = &mut slots[place as usize];
    slot.out = SlotContent::Nothing;
    if slot.is_free() {
        free.insert(place);
    }
}
