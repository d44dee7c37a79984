//! `Book::sweep`: drops the answers older than their lives.
//! RFC 9309, section 2.4.
ghost use Rattle.gate_core.specs.Replies.{Sweeps};

use crate::book::Book;
use crate::refusal::SweepRefusal;
use gate_history::Entry;

impl Book {
    /// Drops the answers older than their lives, and returns how many.
    pub fn sweep(&mut self, moment: u64) -> Result<u64, SweepRefusal>
        ensures { Sweeps self.old moment result self.new }
    {
        if !self.has_room(1) {
            return Err(SweepRefusal::LogFull);
        }
        let moment = self.moment_of_call(moment);
        let promised = self.promised();
        self.entries.reserve(promised as usize + 1)?;
        let count = self.cache.sweep(moment);
        self.entries.push_reserved(Entry::Swept { moment, count });
        self.clock = moment;
        Ok(count)
    }
}
