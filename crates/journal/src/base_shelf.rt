//! The place for a journal's bases, which are put beside its writer: each before the log of the entries that
//! follow it.
//! `FolderBases` is one.
ghost use Rattle.std.specs.Prelude.{◌≡◌, ℕ, List, Option, IfOk, None};
ghost use Rattle.journal.specs.Shelves.{IfKnown};

use crate::chronicle::Sealer;
use crate::fault::JournalFault;
use crate::journaled_sink::CatchesUp;

/// Puts bases before a journal's logs.
pub trait BaseShelf {
    /// The text of the base that was put last, if that is known.
    ghost last: { Self → Option (List ℕ) };

    /// Puts the base before what was sealed, in front of the log after so many entries, and returns the
    /// octets that it wrote: none where that base stands already. A crash leaves it whole or not at all.
    /// Between its pieces something else comes up, such as the journal; if that fails, or anything else,
    /// nothing of the base is left.
    fn put_base<K: Sealer, A: CatchesUp>(
        &mut self,
        sealed: &K::Sealed,
        entries: u64,
        between: &A,
    ) -> Result<u64, JournalFault>
        ensures puts { IfOk result (λ _. IfKnown (K.bases sealed.now) (last self.new)) };
}

/// No place: no base is ever put.
#[derive(Clone, Copy, Debug)]
pub struct NoBases;

impl BaseShelf for NoBases {
    ghost last = { λ _. None };

    fn put_base<K: Sealer, A: CatchesUp>(
        &mut self,
        _sealed: &K::Sealed,
        _entries: u64,
        _between: &A,
    ) -> Result<u64, JournalFault> {
        Ok(0)
    }
}
