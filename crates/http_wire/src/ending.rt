//! What becomes of a connection after a response.
//! RFC 9112, sections 9.3 and 9.6.

/// What becomes of a connection after a response.
#[derive(Clone, Copy, Debug, PartialEq, Eq)]
pub enum ConnectionEnding {
    /// It closes.
    Close,
    /// It stays open for another request.
    KeepAlive,
}
