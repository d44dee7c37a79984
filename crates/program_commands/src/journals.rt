//! The messages for a bad journal folder and for a failed journal.
//! docs/FAULTS.md has each.

use crate::ending::Ending;
use journal::{FolderFault, JournalFault};
use std::io;

/// Prints why a folder can't be a journal's; the program ends.
pub fn tell_bad_folder(rt: &HostRuntime, folder: &str, fault: FolderFault) -> Ending {
    match fault {
        FolderFault::Altered(path) => tell(
            rt,
            path.as_str(),
            "has the name of a journal's file and more: restore the file, as with gunzip, or move this one away",
        ),
        FolderFault::NotRegular(path) => tell(rt, path.as_str(), "is no regular file"),
        FolderFault::InUse => tell(rt, folder, "is in use by another process"),
        FolderFault::Device(cause) => tell_cause(rt, Some(cause)),
        FolderFault::NoMemory => Ending::NoMemory,
    }
}

/// Prints which names of a journal's folder are not a journal's. The program goes on, and leaves them alone.
pub fn tell_left_alone(rt: &HostRuntime, folder: &str, names: &[String], unread: u64) {
    for name in names {
        // If standard error fails, the journal stays.
        let _ = eprintln!(rt;
            "crawlgate: journal: {folder:?} has {:?}, which is not a journal's and is left alone",
            name.as_str()
        );
    }
    if unread > 0 {
        let _ = eprintln!(rt;
            "crawlgate: journal: {folder:?} has names that are not UTF-8 and are left alone: {unread}"
        );
    }
}

/// Prints which line of a journal's file is wrong, so that no gate can continue it; the program ends.
pub fn tell_bad_journal(rt: &HostRuntime, file: &str, line: u64) -> Ending {
    // If standard error fails too, the status stays.
    let _ = eprintln!(rt; "crawlgate: journal: {file:?} line {line} is wrong");
    Ending::NoJournal
}

/// Prints at which line a journal's file ends before an entry may come; the program ends.
pub fn tell_short_journal(rt: &HostRuntime, file: &str, line: u64) -> Ending {
    // If standard error fails too, the status stays.
    let _ = eprintln!(rt;
        "crawlgate: journal: {file:?} ends at line {line}, before its entries begin"
    );
    Ending::NoJournal
}

/// Prints which file of a journal does not begin where the files before it end, so that one is missing, or has
/// fewer lines than it had; the program ends.
pub fn tell_misplaced(rt: &HostRuntime, file: &str) -> Ending {
    tell(rt, file, "does not begin where the files before it end")
}

/// Prints which file of a journal is the first that is here, and has no base before it; the program ends.
pub fn tell_without_base(rt: &HostRuntime, file: &str) -> Ending {
    tell(rt, file, "goes on from files that are not here")
}

/// Prints after how many entries a journal's file begins whose earlier files are not in its folder. The program
/// goes on.
pub fn tell_begins_alone(rt: &HostRuntime, file: &str, entries: &str) {
    // If standard error fails, the journal stays.
    let _ = eprintln!(rt;
        "crawlgate: journal: {file:?} begins at entry {entries}, the files before are not here"
    );
}

/// Prints how many octets of a line torn by a crash are removed from a journal's file. The program goes on.
pub fn tell_torn_line(rt: &HostRuntime, file: &str, octets: u64) {
    // If standard error fails, the journal stays.
    let _ = eprintln!(rt;
        "crawlgate: journal: {file:?} ends in a torn line, whose {octets} octets are removed"
    );
}

/// Prints by how many seconds the clock is behind a journal's last entry. The program goes on.
pub fn tell_clock_set_back(rt: &HostRuntime, seconds: u64) {
    // If standard error fails, the clock stays.
    let _ = eprintln!(rt;
        "crawlgate: journal: the clock is {seconds} s behind the last entry, so each robots.txt is fetched anew"
    );
}

/// Prints that a journal's file has no room for the lines that would end what is out; the program ends.
pub fn tell_full_journal(rt: &HostRuntime, file: &str) -> Ending {
    tell(rt, file, "has as many entries as a text may have")
}

/// Prints that a journal's file has permits of more slots than the gate may have; the program ends.
pub fn tell_few_slots(rt: &HostRuntime, file: &str) -> Ending {
    tell(rt, file, "has permits of more slots than --slots allows")
}

/// Prints that the disk has no room for what ends a journal's last file; the program ends.
pub fn tell_no_room_to_end(rt: &HostRuntime, folder: &str, octets: u64) -> Ending {
    // If standard error fails too, the status stays.
    let _ = eprintln!(rt;
        "crawlgate: journal: {folder:?} has no room for the lines that end its last file, which need {octets} octets"
    );
    Ending::NoJournal
}

/// Prints why a journal's file can't be read; the program ends.
pub fn tell_unread_journal(rt: &HostRuntime, cause: Option<io::Error>) -> Ending {
    tell_cause(rt, cause)
}

/// Prints why a journal failed; the program ends.
pub fn tell_failed_journal(rt: &HostRuntime, folder: &str, fault: JournalFault) -> Ending {
    match fault {
        JournalFault::Device(cause) => tell_cause(rt, cause),
        JournalFault::NoRoom(octets) => tell_no_room(rt, folder, octets),
        JournalFault::NoMemory => Ending::NoMemory,
        JournalFault::Elsewhere => tell(rt, folder, "does not go on where its files end"),
        JournalFault::Gone => tell(rt, folder, "was removed or replaced"),
    }
}

/// Prints why a base could not be put before a journal's log. The program goes on, and tries again.
pub fn tell_failed_base(rt: &HostRuntime, folder: &str, fault: JournalFault) {
    // If standard error fails, the journal stays.
    let _ = match fault {
        JournalFault::NoRoom(octets) => eprintln!(rt;
            "crawlgate: journal: {folder:?} has no room for a base, which needs {octets} octets and is tried again each minute"
        ),
        JournalFault::Device(Some(cause)) => eprintln!(rt;
            "crawlgate: journal: {folder:?} lacks a base, which is tried again each minute: {cause}"
        ),
        _ => eprintln!(rt;
            "crawlgate: journal: {folder:?} lacks a base, which is tried again each minute"
        ),
    };
}

// Prints that the disk has no room for a journal's next file.
fn tell_no_room(rt: &HostRuntime, folder: &str, octets: u64) -> Ending {
    // If standard error fails too, the status stays.
    let _ = eprintln!(rt;
        "crawlgate: journal: {folder:?} has no room for the next file, which needs {octets} octets"
    );
    Ending::NoJournal
}

// Prints what is wrong with a folder.
fn tell(rt: &HostRuntime, folder: &str, what: &str) -> Ending {
    // If standard error fails too, the status stays.
    let _ = eprintln!(rt; "crawlgate: journal: {folder:?} {what}");
    Ending::NoJournal
}

// Prints the system's reason, if known.
fn tell_cause(rt: &HostRuntime, cause: Option<io::Error>) -> Ending {
    let _ = match cause {
        Some(cause) => eprintln!(rt; "crawlgate: device: journal: {cause}"),
        None => eprintln!(rt; "crawlgate: device: journal"),
    };
    Ending::NoJournal
}
