//! What a journal records: a growing list of entries, and their text.
//! A locked gate is a chronicle. Texts are formatted through an empty output.
ghost use Rattle.std.specs.Prelude.{◌≡◌, [], IfOk, IfSome, None, OnOk};
ghost use Rattle.journal.specs.Shelves.{WritesHead, WritesSome};
ghost use Rattle.journal.specs.Writing.{IsRest};

use crate::fault::JournalFault;
use crate::position::JournalPosition;
use counted_io::{DeviceFault, Output, Sink};
use std::alloc::AllocError;

/// A text and its end.
pub type Spelled = (Vec<u8>, JournalPosition);

/// What is recorded; others may add entries at any time.
pub trait Chronicle {
    ghost use Rattle.std.specs.Prelude.{ℕ, List};
    ghost use Rattle.journal.specs.declared.position.JournalPosition.{JournalPosition};

    /// Holds of a place, a text that may follow it, and where that ends.
    ghost follows: { Self → JournalPosition → List ℕ → JournalPosition → Type 0 };

    /// Holds of each text that may begin a file, and its end.
    ghost begins: { Self → List ℕ → JournalPosition → Type 0 };

    /// How many entries there are, from the first ever.
    fn entry_count(&self) -> u64;

    /// Memory for the text of any piece: where a journal has it once, no text of entries needs more.
    fn room(&self) -> Result<Vec<u8>, AllocError>
        ensures { IfOk result (λ room. room.items ≡ []) };

    /// The text of the next piece of the entries after a place, in the memory of `room`, and where the
    /// piece ends. It has an entry if there is one. It fails if the room is too small and memory runs out,
    /// or if the entries do not continue there.
    fn follow(
        &self,
        output: &mut Output,
        place: JournalPosition,
        room: Vec<u8>,
    ) -> Result<Spelled, JournalFault>
        requires idle { output.old ≡ [] }
        requires empty { room.items ≡ [] }
        ensures follows { IfOk result (λ text. follows self.now place text.0.items text.1) }
        ensures idle { output.new ≡ [] };

    /// Writes the text that begins a file, and returns its end. No entry comes before all is written.
    fn begin<W: Sink>(
        &self,
        output: &mut Output,
        sink: &mut W,
    ) -> Result<JournalPosition, DeviceFault>
        requires { output.old ≡ [] }
        ensures begins { IfOk result
            (WritesHead (begins self.now) (W.written sink.old) (W.written sink.new)) }
        ensures idle { output.new ≡ [] };

    /// Whether a new file is due by the number of entries.
    fn is_due(&self) -> bool;
}

/// What a file lacks of what was sealed.
#[derive(Drop)]
pub enum Rest {
    /// Nothing was sealed, so the file goes on. It gives the memory back.
    Nothing(Vec<u8>),
    /// The text of some entries and its end: others follow.
    Part(Vec<u8>, JournalPosition),
    /// The text that ends the file, and the place where the next one begins.
    Last(Vec<u8>, JournalPosition),
}

/// Ends the entries of one file, so that the next file continues from them: a gate's desk seals in this
/// way.
pub trait Sealer {
    ghost use Rattle.std.specs.Prelude.{ℕ, List};
    ghost use Rattle.journal.specs.declared.position.JournalPosition.{JournalPosition};

    /// The result of a seal.
    type Sealed;

    /// What a seal does, and its result.
    ghost seals: { Self → Self.Sealed → Self → Type 0 };

    /// Holds of a seal's result, a place, the text of some entries after it, and where that ends.
    ghost parts: { Self.Sealed → JournalPosition → List ℕ → JournalPosition → Type 0 };

    /// Holds of a seal's result, a place, the text after it that ends the file, and the next file's place.
    ghost ends: { Self.Sealed → JournalPosition → List ℕ → JournalPosition → Type 0 };

    /// Holds of the result of a seal that sealed nothing.
    ghost nothing: { Self.Sealed → Type 0 };

    /// Holds of a seal's result, and how many entries precede those that it sealed.
    ghost numbers: { Self.Sealed → ℕ → Type 0 };

    /// Holds of a seal's result, and the text of what stood before the entries that it sealed: their base.
    ghost bases: { Self.Sealed → List ℕ → Type 0 };

    /// Seals.
    fn seal(&mut self) -> Self::Sealed
        ensures { seals self.old result self.new };

    /// The next text of what a file lacks of what was sealed, in the memory of `room`: no more than a piece.
    /// It fails if the room is too small and memory runs out, or if the entries do not continue there.
    fn rest(
        sealed: &Self::Sealed,
        output: &mut Output,
        place: JournalPosition,
        room: Vec<u8>,
    ) -> Result<Rest, JournalFault>
        requires idle { output.old ≡ [] }
        requires empty { room.items ≡ [] }
        ensures rest { IfOk result
            (IsRest (parts sealed.now place) (ends sealed.now place) (nothing sealed.now)) }
        ensures idle { output.new ≡ [] };

    /// How many entries precede those that were sealed: the number of the base before them. There is none if
    /// nothing was sealed.
    fn base_entries(sealed: &Self::Sealed) -> Option<u64>
        ensures number { IfSome result (numbers sealed.now) }
        ensures none { result ≡ None → nothing sealed.now };

    /// Writes the text of the base before what was sealed.
    fn write_base<W: Sink>(
        sealed: &Self::Sealed,
        output: &mut Output,
        sink: &mut W,
    ) -> Result<(), DeviceFault>
        requires { output.old ≡ [] }
        ensures writes { OnOk result
            (WritesSome (bases sealed.now) (W.written sink.old) (W.written sink.new)) }
        ensures idle { output.new ≡ [] };
}
