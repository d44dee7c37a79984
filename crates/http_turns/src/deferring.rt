//! A service that some requests come to too early.

use http_server::Service;
use turns::Moment;

/// Whose request is answered.
#[derive(Clone, Copy, Debug, PartialEq, Eq)]
pub struct Asker {
    /// The place of the client, by which its loop can be told to call it again.
    pub place: usize,
    /// Until when the request waits if it comes too early. Of two, the one with the earlier moment has waited
    /// longer.
    pub until: Moment,
}

/// A service that may answer that a request came too early, in a response that its client can be sent. Whoever
/// drives the connection may throw that response away instead, and have the request answered again.
pub trait DeferringService: Service {
    /// The next request is of this client.
    fn set_asker(&mut self, asker: Asker);

    /// Whether its last answer was that the request came too early.
    fn is_deferred(&self) -> bool;

    /// The number of its next answer, which no answer shares with the one before.
    fn number(&self) -> u64;

    /// How many octets the body of its last answer has.
    fn answer_octets(&self) -> u64;
}
