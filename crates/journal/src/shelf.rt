//! The place for a journal's files.
//! `Folder` is a shelf.
ghost use Rattle.std.specs.Prelude.{◌≡◌, [], IfOk};
ghost use Rattle.journal.specs.Shelves.{IsBegun, IsEmptyLog};

use crate::base_shelf::BaseShelf;
use crate::chronicle::Chronicle;
use crate::fault::JournalFault;
use crate::meter::JournalMeter;
use crate::position::JournalPosition;
use crate::tape::Tape;
use counted_io::Output;
use std::alloc::AllocError;
use std::sync::Arc;

/// A new file: what it is written to, the end of the text that begins it, and the octets of that.
#[derive(Drop)]
pub struct BegunFile<T> {
    pub tape: T,
    pub place: JournalPosition,
    pub octets: u64,
}

/// Creates a journal's files in order.
pub trait Shelf {
    /// What a file is written to.
    type Tape: Tape + Drop;

    /// What puts bases before its logs.
    type Bases: BaseShelf + Drop;

    /// Creates the next file of a chronicle, with the text that begins it. A crash leaves it whole under its
    /// name, or not at all, and once created leaves it. No entry comes before the text is written; that a
    /// crash keeps it is waited for without holding up entries.
    fn put_up<H: Chronicle>(
        &mut self,
        chronicle: &H,
        output: &mut Output,
    ) -> Result<BegunFile<Self::Tape>, JournalFault>
        requires { output.old ≡ [] }
        ensures begins { IfOk result (λ file. IsBegun (H.begins chronicle.now)
            (Self.Tape.written file.tape) (Self.Tape.kept file.tape) file.place) }
        ensures idle { output.new ≡ [] };

    /// Creates the log of the entries after so many: a file without any text. If it is there and has no octet,
    /// it is that file. A crash leaves it under its name.
    fn put_log(&mut self, entries: u64) -> Result<BegunFile<Self::Tape>, JournalFault>
        ensures { IfOk result (λ file. IsEmptyLog entries
            (Self.Tape.written file.tape) (Self.Tape.kept file.tape) file.place) };

    /// What puts bases before its logs, while others write them.
    fn bases(&self) -> Result<Self::Bases, JournalFault>;

    /// Whether it is still the place that it was: `Gone` if not. To be called each second.
    fn look(&self) -> Result<(), JournalFault>;

    /// How many octets its files have, those of earlier processes too. It asks for each file.
    fn octets(&self) -> Result<u64, JournalFault>;

    /// What counts the octets and syncs of its files, if anything does.
    fn meter(&self) -> Result<Option<Arc<JournalMeter>>, AllocError> {
        Ok(None)
    }
}
