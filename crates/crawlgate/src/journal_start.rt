//! The folder of a gate's journal, if any, and the gate's beginning: what an earlier process wrote, or
//! nothing.
//! docs/crawlgate.1.md has the options.
ghost use Rattle.std.specs.Prelude.{IfOk};
ghost use Rattle.gate_core.specs.Limits.{AreLimits};
ghost use Rattle.gate_core.specs.Resuming.{IsIdle};

use counted_io::Counted;
use gate_clock::{Beginning, SteadyClock};
use gate_core::{Book, Limits};
use gate_journal::{ResumeFault, Resumed, resume};
use gate_lock::{Gate, Receipts};
use journal::{FirstFile, Folder, JournalFault, LastFiles, SyncPolicy};
use path_normal::{Authority, Schemes};
use program_arguments::JournalOptions;
use program_commands::{
    Ending, Reasoned, new_book, tell_bad_folder, tell_bad_journal, tell_begins_alone,
    tell_clock_set_back, tell_failed_journal, tell_few_slots, tell_full_journal, tell_left_alone,
    tell_misplaced, tell_no_room_to_end, tell_short_journal, tell_torn_line, tell_unread_journal,
    tell_without_base,
};
use std::alloc::AllocError;
use std::hash::RandomState;
use std::io::ErrorKind;
use std::sync::Wait;
use std::{io, time};

/// The locked folder of a journal, with its name, its sync policy, and how many octets it may have.
#[derive(Drop)]
pub(crate) struct OpenJournal<'a> {
    pub(crate) name: &'a str,
    pub(crate) folder: Folder<HostRuntime>,
    pub(crate) sync: SyncPolicy,
    pub(crate) room: Option<u64>,
}

/// A gate's beginning: its book, the sites whose robots.txt files to fetch anew, and how its journal goes on.
#[derive(Drop)]
pub(crate) struct JournalStart {
    pub(crate) book: Book,
    pub(crate) sites: Vec<Authority>,
    pub(crate) first: FirstFile,
}

/// The earlier receipts of a gate, those sites, and how its journal goes on.
#[derive(Drop)]
pub(crate) struct Past<G: Gate> {
    pub(crate) receipts: Receipts<G>,
    pub(crate) sites: Vec<Authority>,
    pub(crate) first: FirstFile,
}

/// Opens the folder that the options name, if any. Reports why it can't be a journal's.
pub(crate) fn open_journal<'a>(
    host: &HostRuntime,
    options: &'a Option<JournalOptions>,
) -> Result<Option<OpenJournal<'a>>, Ending> {
    let Some(options) = options else {
        return Ok(None);
    };
    let name = options.folder.as_str();
    match Folder::open(*host, name) {
        Ok(folder) => {
            tell_left_alone(host, name, folder.foreign_names(), folder.unread_names());
            Ok(Some(OpenJournal {
                name,
                folder,
                sync: options.sync,
                room: options.room,
            }))
        }
        Err(fault) => Err(tell_bad_folder(host, name, fault)),
    }
}

/// The name of a journal's folder, or nothing.
pub(crate) fn folder_of<'a>(journal: &Option<OpenJournal<'a>>) -> &'a str {
    match journal {
        Some(journal) => journal.name,
        None => "",
    }
}

/// A gate's beginning with these limits: the state of the journal's last files, whose text is ended; or
/// nothing. Reports why it can't continue there.
pub(crate) fn begin_with(
    host: &HostRuntime,
    limits: Limits,
    journal: &Option<OpenJournal<'_>>,
) -> Result<JournalStart, Ending>
    requires { AreLimits limits }
    ensures { IfOk result (λ begun. IsIdle begun.book) }
{
    let Some(journal) = journal else {
        return begin_new(host, limits);
    };
    match journal.folder.last_files() {
        Ok(Some(files)) => go_on_if_named(host, limits, journal.name, files),
        Ok(None) => begin_new(host, limits),
        Err(fault) => Err(tell_bad_folder(host, journal.name, fault)),
    }
}

fn begin_new(host: &HostRuntime, limits: Limits) -> Result<JournalStart, Ending>
    requires { AreLimits limits }
    ensures { IfOk result (λ begun. IsIdle begun.book) }
{
    match new_book(host, limits) {
        Ok(book) => Ok(JournalStart {
            book,
            sites: Vec::new(host.alloc()),
            first: FirstFile::WithBase,
        }),
        Err(ending) => Err(ending),
    }
}

/// The clock of a gate that begins with this book. Reports a wall clock that was set back since the book's
/// last moment.
pub(crate) fn clock_of<'a, R: Wait + time::Clock>(
    rt: &'a R,
    host: &HostRuntime,
    book: &Book,
) -> SteadyClock<'a, R> {
    let (clock, beginning) = SteadyClock::new(rt, book.base().moment());
    if let Beginning::SetBack(seconds) = beginning {
        tell_clock_set_back(host, seconds);
    }
    clock
}

// Goes on from a journal's last files if their names say what they begin with.
fn go_on_if_named(
    host: &HostRuntime,
    limits: Limits,
    folder: &str,
    files: LastFiles<HostRuntime>,
) -> Result<JournalStart, Ending>
    requires { AreLimits limits }
    ensures { IfOk result (λ begun. IsIdle begun.book) }
{
    if files.lacks_base() {
        return Err(tell_without_base(host, files.first_path()));
    }
    match files.misnamed() {
        Ok(None) => {}
        Ok(Some(wrong)) => return Err(tell_bad_journal(host, wrong.path, wrong.line)),
        Err(cause) => return Err(tell_unread_journal(host, Some(cause))),
    }
    if let Some(entries) = files.begins_alone() {
        tell_begins_alone(host, files.first_path(), entries);
    }
    go_on(host, limits, folder, files)
}

// Reads a journal's last files, and ends their text.
fn go_on(
    host: &HostRuntime,
    limits: Limits,
    folder: &str,
    files: LastFiles<HostRuntime>,
) -> Result<JournalStart, Ending>
    requires { AreLimits limits }
    ensures { IfOk result (λ begun. IsIdle begun.book) }
{
    let Ok(keys) = RandomState::new(host) else {
        return Err(Ending::Device);
    };
    let mut files = files;
    let mut reader = Counted::new(Reasoned::new(&mut files));
    let resumed = resume(
        host.alloc(),
        keys,
        Schemes::HttpAndHttps,
        limits,
        &mut reader,
    );
    let reason = reader.into_inner().reason;
    match resumed {
        Ok(resumed) => go_on_if_placed(host, folder, files, resumed),
        Err(fault) => Err(tell_fault(host, &files, fault, reason)),
    }
}

// Ends the text of a journal's last files if each begins where the ones before it end.
fn go_on_if_placed(
    host: &HostRuntime,
    folder: &str,
    files: LastFiles<HostRuntime>,
    resumed: Resumed,
) -> Result<JournalStart, Ending>
    requires { IsIdle resumed.book }
    ensures { IfOk result (λ begun. IsIdle begun.book) }
{
    let entries = resumed
        .book
        .entry_count()
        .saturating_sub(lines_in(resumed.ending.as_slice()));
    match files.first_misplaced(Some(entries)) {
        Ok(None) => {}
        Ok(Some(path)) => return Err(tell_misplaced(host, path)),
        Err(AllocError) => return Err(Ending::NoMemory),
    }
    match files.in_last(resumed.whole) {
        Some(whole) => end_files(host, folder, files, resumed, whole),
        // The last file has no whole line.
        None => Err(tell_short_journal(host, files.path(), 1)),
    }
}

fn lines_in(text: &[u8]) -> u64 {
    text.iter().filter(|octet| **octet == b'\n').count() as u64
}

// Ends the text of a journal's last file after so many of its octets, from which the gate continues.
fn end_files(
    host: &HostRuntime,
    folder: &str,
    files: LastFiles<HostRuntime>,
    resumed: Resumed,
    whole: u64,
) -> Result<JournalStart, Ending>
    requires { IsIdle resumed.book }
    ensures { IfOk result (λ begun. IsIdle begun.book) }
{
    let Resumed {
        book,
        whole: _,
        ending,
        begun,
    } = resumed;
    let torn = files.torn(whole);
    if torn > 0 {
        tell_torn_line(host, files.path(), torn);
    }
    let distance = files.distance(book.entry_count());
    match files.end(whole, ending.as_slice()) {
        Ok(()) => Ok(JournalStart {
            book,
            sites: begun,
            first: FirstFile::Log(distance),
        }),
        Err(JournalFault::NoRoom(octets)) => Err(tell_no_room_to_end(host, folder, octets)),
        Err(fault) => Err(tell_failed_journal(host, folder, fault)),
    }
}

// Reports why no gate can continue from a journal's last files.
fn tell_fault(
    host: &HostRuntime,
    files: &LastFiles<HostRuntime>,
    fault: ResumeFault,
    reason: Option<ErrorKind>,
) -> Ending {
    match fault {
        ResumeFault::BadLine(line) => tell_bad_line_in(host, files, line),
        ResumeFault::NoEntries(line) => {
            let short = files.line_of(line);
            tell_short_journal(host, short.path, short.line)
        }
        ResumeFault::NoRoom(_) => tell_full_journal(host, files.path()),
        ResumeFault::Starts => tell_full_journal(host, files.path()),
        ResumeFault::Slots => tell_few_slots(host, files.path()),
        ResumeFault::Read => tell_unread_journal(host, reason.map(io::Error::from)),
        ResumeFault::NoMemory => Ending::NoMemory,
    }
}

// Reports a wrong line; or, where it is in or after a file before which one is not here, that. (The names of
// files are in their order.)
fn tell_bad_line_in(host: &HostRuntime, files: &LastFiles<HostRuntime>, line: u64) -> Ending {
    let wrong = files.line_of(line);
    match files.first_misplaced(None) {
        Ok(Some(path)) if path <= wrong.path => tell_misplaced(host, path),
        Ok(_) => tell_bad_journal(host, wrong.path, wrong.line),
        Err(AllocError) => Ending::NoMemory,
    }
}
