//! `Book::back` and `Book::finish`: how a caller ends a permit.
//! Called for `BACK` and `DONE`, and by a desk whose permit or fetch ends.
ghost use Rattle.gate_core.specs.Replies.{Finishes, Returns};

use crate::book::Book;
use gate_history::Entry;
use permit_book::{NotOut, PermitNo};

impl Book {
    /// Gives an unspent permit back. It allocates nothing.
    pub fn back(&mut self, number: PermitNo) -> Result<(), NotOut>
        ensures { Returns self.old number result self.new }
    {
        if !self.permits.is_unspent(number) {
            return Err(NotOut);
        }
        self.places.leave(&self.permits, number);
        self.permits.give_back(number)?;
        self.entries.push_reserved(Entry::Returned { number });
        Ok(())
    }

    /// Ends the fetch started under this number. It allocates nothing.
    pub fn finish(&mut self, number: PermitNo) -> Result<(), NotOut>
        ensures { Finishes self.old number result self.new }
    {
        if !self.permits.is_running(number) {
            return Err(NotOut);
        }
        self.places.leave(&self.permits, number);
        self.permits.finish(number)?;
        self.entries.push_reserved(Entry::Finished { number });
        Ok(())
    }
}
