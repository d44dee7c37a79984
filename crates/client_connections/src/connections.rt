//! When a server ends, by its connections.

/// The most connections that a server counts before it ends.
pub const MAX_CONNECTIONS: u64 = 4_096;

/// After how many connections a server ends.
#[derive(Clone, Copy, Debug, PartialEq, Eq)]
pub enum Connections {
    /// After this many, from 1 to 4,096.
    AtMost(u64),
    /// Never: it serves until its process ends.
    Endless,
}
