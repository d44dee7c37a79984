//! How the program ends: its exit status, and its message on standard error.
//! docs/crawlgate.1.md has the table.
ghost use Rattle.std.specs.Prelude.{◌≡◌, option_map};
ghost use Rattle.program_commands.specs.Endings.{ending_of, ending_of_check, ending_of_fault, ending_of_lines, message_of, message_text, exit_status};

use crate::message::Message;
use crate::streams::Stream;
use command_lines::SessionFault;
use robots_check::{CheckOutcome, TextFault};
use std::net::SocketAddr;

/// How a run of the program ended.
#[derive(Clone, Copy, Debug, PartialEq, Eq)]
pub enum Ending {
    /// All was done.
    Done,
    /// A line of the input is longer than the limit.
    LongLine,
    /// The input has more lines than a session takes.
    ManyLines,
    /// The audit found a bad line, and printed its number.
    BadLine,
    /// A check found a denied URL, and could read all URLs.
    DeniedUrl,
    /// A check met a URL that could not be read.
    BadUrl,
    /// A check found no URL in its input.
    NoUrls,
    /// The file of a robots text could not be opened or read; printed already.
    BadFile,
    /// The arguments were refused, or asked for help.
    BadWords,
    /// Out of memory.
    NoMemory,
    /// A standard stream failed.
    Device,
    /// This standard stream was closed from the start.
    ClosedStream(Stream),
    /// A stream failed, or nothing can listen at the place; printed already with the system's reason.
    ToldDevice,
    /// Nobody listens at the address of the program that opens TLS.
    NoTlsProgram(SocketAddr),
    /// A shift ended early, with jobs left; these were printed already.
    EndedEarly,
    /// The folder can't be a journal's, or the journal failed; printed already.
    NoJournal,
}

impl Ending {
    /// The ending of a session.
    pub fn of(end: Result<(), SessionFault>) -> Ending
        ensures { result ≡ ending_of end }
    {
        match end {
            Ok(()) => Ending::Done,
            Err(SessionFault::LongLine) => Ending::LongLine,
            Err(SessionFault::Lines) => Ending::ManyLines,
            Err(SessionFault::Read | SessionFault::Write) => Ending::Device,
            Err(SessionFault::NoMemory) => Ending::NoMemory,
        }
    }

    /// The ending of `lines`.
    pub fn of_lines(end: Result<(), TextFault>) -> Ending
        ensures { result ≡ ending_of_lines end }
    {
        match end {
            Ok(()) => Ending::Done,
            Err(fault) => Ending::of_fault(fault),
        }
    }

    /// The ending of a check.
    pub fn of_check(end: Result<CheckOutcome, TextFault>) -> Ending
        ensures { result ≡ ending_of_check end }
    {
        match end {
            Ok(CheckOutcome::NoUrls) => Ending::NoUrls,
            Ok(CheckOutcome::Allowed) => Ending::Done,
            Ok(CheckOutcome::Denied) => Ending::DeniedUrl,
            Ok(CheckOutcome::Unread) => Ending::BadUrl,
            Err(fault) => Ending::of_fault(fault),
        }
    }

    // The ending after a fault in a report on a robots text.
    fn of_fault(fault: TextFault) -> Ending
        ensures { result ≡ ending_of_fault fault }
    {
        match fault {
            TextFault::Read | TextFault::Write => Ending::Device,
            TextFault::NoMemory => Ending::NoMemory,
        }
    }

    /// The exit status.
    pub fn status(self) -> u8
        ensures { result ≡ exit_status self }
    {
        match self {
            Ending::Done => 0,
            Ending::LongLine | Ending::ManyLines | Ending::BadLine | Ending::DeniedUrl => 1,
            Ending::EndedEarly => 1,
            Ending::BadUrl | Ending::NoUrls | Ending::BadWords => 2,
            Ending::BadFile | Ending::NoMemory | Ending::Device | Ending::NoJournal => 3,
            Ending::ClosedStream(_) | Ending::ToldDevice | Ending::NoTlsProgram(_) => 3,
        }
    }

    /// The message after the program's name on standard error, unless printed already.
    pub fn message(self) -> Option<Message>
        ensures { option_map message_text result ≡ message_of self }
    {
        match self {
            Ending::Done
            | Ending::BadLine
            | Ending::DeniedUrl
            | Ending::BadUrl
            | Ending::BadFile
            | Ending::ToldDevice
            | Ending::BadWords
            | Ending::EndedEarly
            | Ending::NoJournal => None,
            Ending::NoUrls => Some(Message::Words("no URL in the input")),
            Ending::LongLine => Some(Message::Words("line too long")),
            Ending::ManyLines => Some(Message::Words("too many lines")),
            Ending::NoMemory => Some(Message::Words("no memory")),
            Ending::Device => Some(Message::Words("device")),
            Ending::ClosedStream(stream) => Some(Message::Closed(stream)),
            Ending::NoTlsProgram(at) => Some(Message::NoTlsProgram(at)),
        }
    }
}
