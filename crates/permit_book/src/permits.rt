//! The table of permits, and its readers.
//! Used by the book, which has one table.
ghost use Rattle.std.specs.Prelude.{◌≡◌, ◌*◌, ◌≤◌, length, replicate, IfNone, IfOk, IfSome};
ghost use Rattle.permit_book.specs.declared.out.SlotContent.TheVariants.{Nothing};
ghost use Rattle.permit_book.specs.Numbers.{last_generation, most_slots};
ghost use Rattle.permit_book.specs.Bits.{AreFirst};
ghost use Rattle.std.specs.Option.{option_copied};
ghost use Rattle.permit_book.specs.Table.{held_count, is_running, is_unspent, out_under, running_count, stands, unspent_count, unused, url_out};
ghost use Rattle.permit_book.specs.Kept.{IsWithin};

use crate::free_slots::FreeSlots;
use crate::number::PermitNo;
use crate::out::{Slot, SlotContent};
use path_normal::PageUrl;
use robots_text::Token;
use std::alloc::{AllocError, Global};
use std::marker::Model;

/// A gate's permits, in slots with at most one outstanding permit each.
pub struct Permits {
    pub(crate) first_generation: u64,
    pub(crate) slots: Vec<Slot>,
    pub(crate) free: FreeSlots,
    // The counts of unspent permits and running fetches.
    pub(crate) unspent: u64,
    pub(crate) running: u64,
}

// Let go by one call: no crate above proves anew how its parts end.
impl Drop for Permits {
    fn drop(self) {
        let Permits {
            first_generation: _,
            slots: _,
            free: _,
            unspent: _,
            running: _,
        } = self;
    }
}

impl Model for Permits {
    ghost use Rattle.permit_book.specs.Table.{Table};

    ghost Value = { Table };

    ghost use Rattle.permit_book.specs.Kept.{table_of, IsSound};

    ghost view = { table_of };

    ghost invariant = { IsSound };
}

impl Permits {
    /// This many free slots, from 1 to [`crate::MAX_SLOTS`]. Each slot's first generation is this one, from
    /// 1 to [`crate::LAST_GENERATION`]. No later call allocates.
    pub fn with_slots(
        alloc: Global,
        slots: u64,
        first_generation: u64,
    ) -> Result<Permits, AllocError>
        requires slots { slots ≤ most_slots }
        requires first { 1 ≤ first_generation }
        requires last { first_generation ≤ last_generation }
        ensures slots { IfOk result (λ table. table.slots ≡ replicate slots unused) }
        ensures first { IfOk result (λ table. table.first_generation ≡ first_generation) }
    {
        Ok(Permits {
            first_generation,
            slots: unused_slots(alloc, slots)?,
            free: all_free(alloc, slots)?,
            unspent: 0,
            running: 0,
        })
    }

    /// The slots, in their order.
    pub fn slots(&self) -> &[Slot]
        ensures slots { result.now ≡ self.now.slots }
        ensures within { IsWithin self.now }
    {
        self.slots.as_slice()
    }

    /// Whether the number has an unspent permit.
    pub fn is_unspent(&self, number: PermitNo) -> bool
        ensures { result ≡ is_unspent self.now number }
    {
        match self.granted(number) {
            Some(slot) => slot.out.is_unspent(),
            None => false,
        }
    }

    /// Whether a fetch under this number is running.
    pub fn is_running(&self, number: PermitNo) -> bool
        ensures { result ≡ is_running self.now number }
    {
        match self.granted(number) {
            Some(slot) => slot.out.is_running(),
            None => false,
        }
    }

    /// Whether the number has an unspent permit for this token and URL.
    pub fn stands(&self, number: PermitNo, token: &Token, url: &PageUrl) -> bool
        ensures { result ≡ stands self.now number token.now url.now }
    {
        match self.granted(number) {
            Some(slot) => slot.out.is_permit_for(token, url),
            None => false,
        }
    }

    /// The URL of the number's permit, unspent or running.
    pub fn url_of(&self, number: PermitNo) -> Option<&PageUrl>
        ensures { option_copied result ≡ url_out (out_under self.now number) }
    {
        self.granted(number)?.out.url()
    }

    /// Unspent permits.
    pub fn unspent_count(&self) -> u64
        ensures value { result ≡ unspent_count self.now }
        ensures bound { result ≤ most_slots }
    {
        self.unspent
    }

    /// Running fetches.
    pub fn running_count(&self) -> u64
        ensures value { result ≡ running_count self.now }
        ensures bound { result ≤ most_slots }
    {
        self.running
    }

    /// The authority's outstanding permits, unspent or running. It looks at every slot.
    pub fn held(&self, authority: &str) -> u64
        ensures value { result ≡ held_count self.now authority.now }
        ensures bound { result ≤ most_slots }
    {
        self.slots
            .iter()
            .filter(|slot| slot.out.is_for(authority))
            .count() as u64
    }

    // The number's slot, if no later number was granted there.
    fn granted(&self, number: PermitNo) -> Option<&Slot>
        ensures some { IfSome result (λ slot. out_under self.now number ≡ slot.now.out) }
        ensures none { IfNone result (out_under self.now number ≡ Nothing) }
    {
        match self.slots.get(number.slot() as usize) {
            Some(slot) if slot.last == number.generation() => Some(slot),
            _ => None,
        }
    }
}

// This many slots in which nothing was granted.
fn unused_slots(alloc: Global, count: u64) -> Result<Vec<Slot>, AllocError>
    ensures { IfOk result (λ slots. slots.items ≡ replicate count unused) }
{
    let mut slots = Vec::with_capacity(alloc, count as usize)?;
    for _ in 0..count {
        slots.push_reserved(Slot {
            last: 0,
            out: SlotContent::Nothing,
        });
    }
    Ok(slots)
}

// This many free slots.
fn all_free(alloc: Global, count: u64) -> Result<FreeSlots, AllocError>
    requires { count ≤ most_slots }
    ensures bits { IfOk result (λ free. AreFirst free count) }
    ensures room { IfOk result (λ free. count ≤ 64 * length free) }
{
    let mut free = FreeSlots::with_room(alloc, count)?;
    for slot in 0..count {
        free.insert(slot);
    }
    Ok(free)
}
