//! A locked gate, for a journal.
//! The lock is held while entries are formatted, not while they are written. It is held while the text that
//! begins a first file is written, which is not held in memory; no later file has such a text.
ghost use Rattle.std.specs.Prelude.{◌≡◌, []};
ghost use Rattle.gate_journal.specs.Recorded.{BeginsWith, OfSome, SpellsUpTo, place_of};

use crate::pieces::{ROOM, next_piece};
use counted_io::{Counted, DeviceFault, Output, Sink};
use gate_core::Book;
use gate_lock::{Gate, SharedBook};
use history_text::export;
use journal::{Chronicle, JournalFault, JournalPosition, Spelled};
use std::alloc::{AllocError, Global};
use std::io;
use std::sync::Wait;

/// A gate's book, and the runtime that waits for its lock. A journal has no more of the gate, so it opens no
/// desk.
#[derive(Drop)]
pub struct Recording<'a, G: Gate, R: Wait> {
    pub alloc: Global,
    pub rt: &'a R,
    pub shared: &'a SharedBook<G>,
}

impl<'a, G: Gate, R: Wait> Chronicle for Recording<'a, G, R> {
    ghost follows = { λ r place text next. OfSome r.shared.now (SpellsUpTo place text next) };

    ghost begins = { λ r text place. OfSome r.shared.now (BeginsWith text place) };

    fn entry_count(&self) -> u64 {
        let held = self.shared.lend(self.rt);
        held.book().entry_count()
    }

    fn room(&self) -> Result<Vec<u8>, AllocError> {
        let mut room = Vec::new(self.alloc);
        room.reserve(ROOM)?;
        Ok(room)
    }

    fn follow(
        &self,
        output: &mut Output,
        place: JournalPosition,
        room: Vec<u8>,
    ) -> Result<Spelled, JournalFault> {
        let held = self.shared.lend(self.rt);
        let book = held.book();
        next_piece(book.base(), book.history(), output, place, room)
    }

    fn begin<W: Sink>(
        &self,
        output: &mut Output,
        sink: &mut W,
    ) -> Result<JournalPosition, DeviceFault> {
        let held = self.shared.lend(self.rt);
        let book = held.book();
        let told = export(book, output, sink);
        // (nothing is pending behind an export: this says so)
        let _ = output.flush(&mut Counted::new(io::sink()));
        told?;
        Ok(place_of(book))
    }

    /// Half of the history's limit is used.
    fn is_due(&self) -> bool {
        let held = self.shared.lend(self.rt);
        let book = held.book();
        let limit = book.limits().log_limit;
        // (of a limit of 1 that is 1: nothing is sealed where there is nothing)
        book.history().len() as u64 >= limit - limit / 2
    }
}

// The place where the text of a book's whole history ends.
fn place_of(book: &Book) -> JournalPosition
    ensures { result ≡ place_of book.now }
{
    JournalPosition {
        begun: book.base().entries(),
        spelled: book.entry_count(),
    }
}
