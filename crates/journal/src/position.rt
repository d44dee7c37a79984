//! Where a journal's text ends.
ghost use Rattle.std.specs.Prelude.{◌≡◌};

/// How many entries precede the journal's last file, and how many all its files have, from the first ever.
#[derive(Clone, Copy, Debug, PartialEq, Eq)]
pub struct JournalPosition {
    pub begun: u64,
    pub spelled: u64,
}

impl JournalPosition {
    /// The place after so many entries, where a file begins.
    pub fn after(entries: u64) -> JournalPosition
        ensures { result ≡ record { begun = entries; spelled = entries } }
    {
        JournalPosition {
            begun: entries,
            spelled: entries,
        }
    }
}
