//! The lines of a server: where it listens, and what it has done.
//! See docs/FORMATS.md.
ghost use Rattle.std.specs.Prelude.{◌≡◌};
ghost use Rattle.line_text.specs.Pieces.{pieces_text};
ghost use Rattle.program_commands.specs.ServerLines.{server_text};

use line_text::{Piece, Pieces};

/// A line of a server.
#[derive(Clone, Copy)]
pub enum ServerLine<'a> {
    /// Clients may connect at this loopback port.
    Listens { port: u16 },
    /// Clients may connect at the socket of this path.
    ListensAt { path: &'a str },
    /// Overseers may connect at this loopback port.
    Seals { port: u16 },
    /// Overseers may connect at the socket of this path.
    SealsAt { path: &'a str },
    /// Clients of HTTP may connect at this loopback port.
    ServesHttp { port: u16 },
    /// Clients of HTTP may connect at the socket of this path.
    ServesHttpAt { path: &'a str },
    /// The connections accepted, and the entries of the history.
    Served { connections: u64, events: u64 },
}

impl<'a> ServerLine<'a> {
    /// The line.
    pub fn pieces(self) -> Pieces<'a>
        ensures { pieces_text result ≡ server_text self.entry }
    {
        match self {
            ServerLine::Listens { port } => Pieces::of(&[
                Piece::Text("LISTEN 127.0.0.1:"),
                Piece::Number(u64::from(port)),
                Piece::Text("\n"),
            ]),
            ServerLine::ListensAt { path } => Pieces::two_words("LISTEN", Piece::Text(path)),
            ServerLine::Seals { port } => Pieces::of(&[
                Piece::Text("SEAL 127.0.0.1:"),
                Piece::Number(u64::from(port)),
                Piece::Text("\n"),
            ]),
            ServerLine::SealsAt { path } => Pieces::two_words("SEAL", Piece::Text(path)),
            ServerLine::ServesHttp { port } => Pieces::of(&[
                Piece::Text("HTTP 127.0.0.1:"),
                Piece::Number(u64::from(port)),
                Piece::Text("\n"),
            ]),
            ServerLine::ServesHttpAt { path } => Pieces::two_words("HTTP", Piece::Text(path)),
            ServerLine::Served {
                connections,
                events,
            } => Pieces::of(&[
                Piece::Text("SERVED connections "),
                Piece::Number(connections),
                Piece::Text(" events "),
                Piece::Number(events),
                Piece::Text("\n"),
            ]),
        }
    }
}
