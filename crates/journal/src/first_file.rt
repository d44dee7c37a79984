//! How a journal begins: with a base, or with a log that goes on from the files that a start read.
//! Used by `GroupJournal::begin`.
ghost use Rattle.std.specs.Prelude.{◌≡◌, [], IfOk};
ghost use Rattle.journal.specs.Shelves.{IsFirst};

use crate::chronicle::Chronicle;
use crate::distance::Distance;
use crate::fault::JournalFault;
use crate::position::JournalPosition;
use crate::shelf::{BegunFile, Shelf};
use counted_io::Output;

/// What a journal's first file begins with.
#[derive(Clone, Copy, Debug, PartialEq, Eq)]
pub enum FirstFile {
    /// The whole chronicle: its base and its entries. For a folder without files, and where nobody puts bases
    /// later.
    WithBase,
    /// Nothing: it is a log behind earlier files, whose end is so far from their last base. The chronicle has
    /// no entry since then. If the text since that base has no room, the file begins with a base all the same.
    Log(Distance),
}

/// Creates a first file, whose end is so far from its last base.
pub(crate) fn first_file<H: Chronicle, S: Shelf>(
    shelf: &mut S,
    chronicle: &H,
    output: &mut Output,
    first: FirstFile,
) -> Result<(BegunFile<S::Tape>, Distance), JournalFault>
    requires { output.old ≡ [] }
    ensures begins { IfOk result (λ both. IsFirst (H.begins chronicle.now)
        (S.Tape.written both.0.tape) (S.Tape.kept both.0.tape) both.0.place) }
    ensures idle { output.new ≡ [] }
{
    match first {
        FirstFile::Log(distance) if distance.has_text_room() => {
            let file = shelf.put_log(chronicle.entry_count())?;
            let mut distance = distance;
            distance.add_file();
            Ok((file, distance))
        }
        FirstFile::Log(_) | FirstFile::WithBase => {
            let file = shelf.put_up(chronicle, output)?;
            let mut distance = Distance::behind(file.octets);
            distance.add_entries(entries_in(file.place));
            Ok((file, distance))
        }
    }
}

fn entries_in(place: JournalPosition) -> u64 {
    place.spelled.saturating_sub(place.begun)
}
