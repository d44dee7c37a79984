//! How many of a client's octets are returned together: a line that may make the gate fetch is alone.
//! Asked by `LinesInTurn`.
ghost use Rattle.std.specs.Prelude.{◌≡◌, ◌↔◌, ◌≢◌, ◌-◌, ◌≤◌, ◌<◌, All, IsTrue, length, take};
ghost use Rattle.client_connections.specs.Ahead.{BeginsFetch, HasNoFetchBefore};

/// Whether a line with this first octet may make the gate fetch: FETCH or REFRESH.
pub(crate) fn begins_fetch(octet: u8) -> bool
    ensures { IsTrue result ↔ BeginsFetch octet }
{
    matches!(octet, b'F' | b'R')
}

/// The octets up to and with the first LF, or all.
pub(crate) fn line_len(octets: &[u8]) -> usize
    ensures fits { result ≤ length octets.now }
    ensures some { 0 < length octets.now → 0 < result }
    ensures line { All (λ octet. octet ≢ 10) (take (result - 1) octets.now) }
{
    match octets.iter().position(|octet| *octet == b'\n') {
        Some(at) => at + 1,
        None => octets.len(),
    }
}

/// The octets up to the first line, after the one that they begin with, for which the gate may fetch; or
/// all.
pub(crate) fn plain_len(octets: &[u8]) -> usize
    ensures fits { result ≤ length octets.now }
    ensures some { 0 < length octets.now → 0 < result }
    ensures plain { HasNoFetchBefore result octets.now }
{
    let mut has_ended = false;
    for at in 0..octets.len() {
        if has_ended && begins_fetch(octets[at]) {
            return at;
        }
        has_ended = octets[at] == b'\n';
    }
    octets.len()
}
