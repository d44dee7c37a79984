//! The result of a look at the octets received.
//! Each part of a response is read by looks, with a read of the source between them.

/// What the octets so far are of one part of a response.
#[derive(Clone, Copy, PartialEq, Eq)]
pub(crate) enum PartSeen {
    /// The whole part. So many octets were received behind it.
    Whole(usize),
    /// The octet after the last one to give has come.
    Cut,
    /// No part, whatever follows.
    Bad,
    /// The most lines that trailers may have, without an end.
    Full,
    /// Undecided without more octets.
    More,
}
