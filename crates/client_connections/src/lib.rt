//! Clients over TCP or over a socket file: accepting them, waiting for them, and closing their connections.
//! docs/FORMATS.md has the limits.
#![tactic(auto)]

mod accept_fault;
mod at_hand;
mod backlog;
mod client_stream;
mod closing;
mod connections;
mod in_turn;
mod listener;
mod one_by_one;
mod seated;
mod socket_file;
mod together;
mod waiting;

pub use accept_fault::{AcceptFault, MAX_ACCEPT_FAULTS};
pub use at_hand::AtHand;
pub use client_stream::ClientStream;
pub use closing::{CLOSING_OCTETS, CLOSING_SECONDS, Closes, close, read_out};
pub use connections::{Connections, MAX_CONNECTIONS};
pub use in_turn::{AHEAD_SECONDS, FetchedAhead, LinesInTurn, RepliesInTurn};
pub use listener::{Accepts, Listener, accept_from};
pub use one_by_one::OneByOne;
pub use seated::{Queue, SILENT_SECONDS, Seated};
pub use socket_file::bind_socket_file;
pub use waiting::{PATIENCE_SECONDS, Waiting};
