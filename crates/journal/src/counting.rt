//! Whether a journal's files are named by the count of entries before them.
//! A start asks when it has read them: it steps over no missing file.
ghost use Rattle.std.specs.Prelude.{◌≡◌, ◌<◌, ◌^◌};
ghost use Rattle.journal.specs.Counting.{ends_at, first_misplaced, misplaced_in, number_behind};

/// The number in a file's name, and how many entries it has.
#[derive(Clone, Copy, Debug, PartialEq, Eq)]
pub(crate) struct NumberedFile {
    pub(crate) number: u64,
    pub(crate) entries: u64,
}

/// Which of these files, in order, is the first whose number is not that of the entries before it, where all
/// up to their end are so many, if that is known. If there are more or fewer than the last one says, it is
/// that one.
pub(crate) fn first_misplaced(files: &[NumberedFile], entries: Option<u64>) -> Option<usize>
    ensures { result ≡ first_misplaced 0 files.now entries }
{
    let mut rest = files;
    let mut part = 0;
    while let [file, behind @ ..] = rest {
        if !ends_at(file, number_behind(behind, entries)) {
            return Some(misplaced_in(part, behind));
        }
        rest = behind;
        part += 1;
    }
    None
}

// How many entries there are up to the end of a file before these ones.
fn number_behind(behind: &[NumberedFile], entries: Option<u64>) -> Option<u64>
    ensures { result ≡ number_behind behind.now entries }
{
    match behind {
        [next, ..] => Some(next.number),
        [] => entries,
    }
}

// Whether a file has so many entries up to its end, if that is known.
fn ends_at(file: &NumberedFile, entries: Option<u64>) -> bool
    ensures { result ≡ ends_at file.now entries }
{
    match entries {
        Some(entries) => file.number.checked_add(file.entries) == Some(entries),
        None => true,
    }
}

// Which file is misplaced, where one that is before these has another end.
fn misplaced_in(part: usize, behind: &[NumberedFile]) -> usize
    requires { part < 2 ^ 63 }
    ensures { result ≡ misplaced_in part behind.now }
{
    match behind {
        [_, ..] => part + 1,
        [] => part,
    }
}
