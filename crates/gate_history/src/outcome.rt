//! Why a fetch is allowed or denied.
//! RFC 9309, sections 2.2.2, 2.3.1 and 2.4.

/// Why a fetch is allowed. Lines count from 1.
#[derive(Clone, Copy, Debug, PartialEq, Eq)]
pub enum Reason {
    /// The authority's answer is open.
    Open,
    /// This line allows it.
    Line(u64),
    /// No line for the token matches its path.
    NoRule,
    /// Its path is that of robots.txt.
    RobotsPath,
}

/// Why an ask or a start is denied: the first cause that holds.
#[derive(Clone, Copy, Debug, PartialEq, Eq)]
pub enum Cause {
    /// Of a start only: the number has no unspent permit for that token and URL.
    Spent,
    /// The URL's authority has no answer.
    Unknown,
    /// The answer is older than its life.
    Expired,
    /// The answer is closed.
    Closed,
    /// This line denies it.
    Line(u64),
}
