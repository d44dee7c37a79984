//! The limits of a response; specs/Limits.antt has the same numbers.
//! Used by the readers of heads and bodies.
ghost use Rattle.std.specs.Prelude.{◌≡◌, ◌≤◌};
ghost use Rattle.http_wire.specs.Limits.{raw_limit};

/// The most octets of a head, with its empty line and the empty lines before it.
pub const MAX_HEAD: usize = 65_536;

/// The most header lines of a head.
pub const MAX_HEADER_LINES: usize = 100;

/// The most interim heads before the final one.
pub const MAX_INTERIM_HEADS: usize = 8;

/// The most lines of the trailers of a body in chunks.
pub const MAX_TRAILERS: usize = 100;

/// The most octets of the trailers of a body in chunks, with their empty line.
pub const MAX_TRAILER_BYTES: usize = 65_536;

/// The most octets of a response in all, with its heads, where at most `USUAL_LIMIT` octets of its body are
/// read.
pub const MAX_RAW: usize = 8_388_608;

/// The most octets of a body to read for which a response has no more than `MAX_RAW` in all.
pub const USUAL_LIMIT: usize = 1_048_576;

/// The most octets of a body to read for which a response may have more in all.
pub const LARGEST_LIMIT: usize = 67_108_864;

/// The most octets of any response in all.
pub(crate) const MOST_RAW: usize = 74_448_896;

/// The most octets of a response in all, with its heads, where at most `limit` octets of its body are read.
pub(crate) fn raw_limit(limit: usize) -> usize
    ensures is { result ≡ raw_limit limit }
    ensures bounds { (MAX_RAW ≤ result) × (result ≤ MOST_RAW) }
{
    MAX_RAW + limit.min(LARGEST_LIMIT).saturating_sub(USUAL_LIMIT)
}
