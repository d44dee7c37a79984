//! A journal's next file: what is recorded is sealed, and the file goes on from there without a text.
//! docs/SEALING.md has what a seal of a gate hands out.
ghost use Rattle.std.specs.Prelude.{◌≡◌, IfOk};
ghost use Rattle.journal.specs.Writing.{Turns};

use crate::chronicle::{Rest, Sealer};
use crate::distance::Distance;
use crate::fault::JournalFault;
use crate::group::{GroupJournal, WriterAccess};
use crate::shelf::Shelf;
use crate::writer::Writer;
use std::sync::Wait;

// How far a file was turned over.
#[derive(Clone, Copy)]
enum Turned {
    // Some of what was sealed was written.
    Part,
    // The next file was begun, or nothing was sealed.
    Done,
}

impl<S: Shelf + Drop> GroupJournal<S> {
    /// Seals the entries, with the result that it has without a journal, and begins a new file. If nothing
    /// was sealed, the file continues. If the journal fails, the seal is made all the same, and nothing may
    /// be sent. It takes no memory but for the seal itself and the new file's name.
    pub fn rotate<R: Wait, K: Sealer>(&self, rt: &R, sealer: &mut K) -> K::Sealed
        ensures { K.seals sealer.old result sealer.new }
    {
        let (sealed, _) = self.rotate_from(rt, sealer);
        sealed
    }

    // The same; and how far the beginning of the file that it ended is from the last base, if it ended one.
    pub(crate) fn rotate_from<R: Wait, K: Sealer>(
        &self,
        rt: &R,
        sealer: &mut K,
    ) -> (K::Sealed, Option<Distance>)
        ensures { K.seals sealer.old result.0 sealer.new }
    {
        match self.take_writer(rt, u64::MAX) {
            WriterAccess::Taken(writer) => {
                let mut writer = writer;
                let begun = writer.begun();
                let sealed = sealer.seal();
                let outcome = writer.turn_over_all::<R, K>(rt, &sealed);
                // The writer keeps a fault, and each later call returns it.
                let kept = self.put_back(rt, writer, outcome);
                (sealed, kept.ok().map(|()| begun))
            }
            WriterAccess::Reached | WriterAccess::Failed => (sealer.seal(), None),
        }
    }
}

impl<S: Shelf> Writer<S> {
    // Ends the file if something was sealed, and begins the next one.
    fn turn_over_all<R: Wait, K: Sealer>(
        &mut self,
        rt: &R,
        sealed: &K::Sealed,
    ) -> Result<(), JournalFault> {
        for _ in rt.forever() {
            match self.turn_over::<K>(sealed)? {
                Turned::Part => {}
                Turned::Done => return Ok(()),
            }
        }
        unreachable!()
    }

    // Writes some of what was sealed, or the rest of it, and then begins the next file.
    fn turn_over<K: Sealer>(&mut self, sealed: &K::Sealed) -> Result<Turned, JournalFault>
        ensures { IfOk result (Turns (K.parts sealed.now self.old.place)
            (K.ends sealed.now self.old.place) (K.nothing sealed.now) self.old self.new) }
    {
        match self.rest::<K>(sealed)? {
            Rest::Nothing(memory) => {
                self.give_back(memory);
                Ok(Turned::Done)
            }
            Rest::Part(text, place) => {
                self.write_part(text.as_slice(), place)?;
                self.give_back(text);
                Ok(Turned::Part)
            }
            Rest::Last(text, next) => {
                self.end_file(text.as_slice(), next.spelled)?;
                self.give_back(text);
                self.begin_log(next)?;
                Ok(Turned::Done)
            }
        }
    }
}
