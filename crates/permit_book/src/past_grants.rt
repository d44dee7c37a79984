//! Grants from before the table was made, in a history that continues.
//! Used by `Book::resume`.
ghost use Rattle.std.specs.Prelude.{◌≡◌, ◌<◌, ◌≤◌, IsTrue, length};
ghost use Rattle.permit_book.specs.Numbers.{last_generation};
ghost use Rattle.permit_book.specs.Table.{is_nothing, noted, slot_at};

use crate::number::LAST_GENERATION;
use crate::permits::Permits;

impl Permits {
    /// Notes an earlier grant of this generation in an idle slot: the next grant there has a higher one,
    /// and after [`LAST_GENERATION`] there is none. A generation of 0, or one not above the slot's last,
    /// changes nothing. It allocates nothing.
    pub fn note_grant(&mut self, slot: u64, generation: u64)
        requires slot { slot < length self.old.slots }
        requires generation { generation ≤ last_generation }
        requires idle { IsTrue (is_nothing (slot_at self.old slot).out) }
        ensures { self.new ≡ noted self.old slot generation }
    {
        let last = self.slots[slot as usize].last.max(generation);
        self.slots[slot as usize].last = last;
        if last == LAST_GENERATION {
            self.free.remove(slot);
        }
    }
}
