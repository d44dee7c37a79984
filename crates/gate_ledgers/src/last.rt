//! Where and when a book's last entry was made, and the mark of it.
ghost use Rattle.std.specs.Prelude.{◌≡◌};
ghost use Rattle.gate_history.specs.History.{moment_of};
ghost use Rattle.gate_ledgers.specs.Entered.{IsLastEntry};
ghost use Rattle.gate_marks.specs.Marks.{mark_at};

use gate_core::Book;
use gate_history::Entry;
use gate_history::laws::no_later_entry_closes;
use gate_marks::Mark;

// The place of the last entry, and its moment.
#[derive(Clone, Copy)]
pub(crate) struct Last {
    pub place: u64,
    pub moment: u64,
}

impl Last {
    pub fn of(book: &Book) -> Last
        ensures { IsLastEntry book.now result }
    {
        no_later_entry_closes();
        let moment = match book.history().last() {
            Some(entry) => moment_of(entry),
            None => 0,
        };
        Last {
            place: book.entry_count().saturating_sub(1),
            moment,
        }
    }

    pub fn mark(self, entry: Entry) -> Mark
        ensures { result ≡ mark_at self.place entry }
    {
        Mark {
            place: self.place,
            entry,
        }
    }
}

// The moment of the entry, 0 if it has none.
fn moment_of(entry: &Entry) -> u64
    ensures { result ≡ moment_of entry.now }
{
    match entry {
        Entry::Begun { moment, .. }
        | Entry::Arrived { moment, .. }
        | Entry::Granted { moment, .. }
        | Entry::AskDenied { moment, .. }
        | Entry::Started { moment, .. }
        | Entry::StartDenied { moment, .. }
        | Entry::Swept { moment, .. } => *moment,
        Entry::Returned { .. } | Entry::Finished { .. } => 0,
    }
}
