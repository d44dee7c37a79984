//! The message on standard error at the end of the program.
//! docs/crawlgate.1.md has the table.

use crate::streams::Stream;
use std::fmt;
use std::net::SocketAddr;

/// The message after the program's name.
#[derive(Clone, Copy, Debug, PartialEq, Eq)]
pub enum Message {
    /// These words.
    Words(&'static str),
    /// A standard stream is closed.
    Closed(Stream),
    /// Nobody listens here, at the address of the program that opens TLS.
    NoTlsProgram(SocketAddr),
}

impl fmt::Display for Message {
    ghost use Rattle.std.specs.Prelude.{Some};
    ghost use Rattle.program_commands.specs.Endings.{message_text};

    ghost output = { λ message. Some (message_text message) };

    fn fmt<W: fmt::Write>(&self, f: &mut fmt::Formatter<W>) -> fmt::Result {
        match self {
            Message::Words(words) => f.write_str(words),
            Message::Closed(stream) => {
                f.write_str("device: ")?;
                f.write_str(stream.name())?;
                f.write_str(": closed")
            }
            Message::NoTlsProgram(at) => {
                f.write_str("device: no TLS program at ")?;
                fmt::Display::fmt(at, f)
            }
        }
    }
}
