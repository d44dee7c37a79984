//! The joint outcome of the answers to all URLs.
//! It is the exit status of `crawlgate check`.
ghost use Rattle.std.specs.Prelude.{◌≡◌};
ghost use Rattle.robots_check.specs.Outcomes.{worse};

/// The joint outcome of answers.
#[derive(Clone, Copy, Debug, PartialEq, Eq)]
pub enum CheckOutcome {
    /// There is no URL.
    NoUrls,
    /// All URLs are allowed.
    Allowed,
    /// A URL is denied, and all could be read.
    Denied,
    /// A URL could not be read.
    Unread,
}

impl CheckOutcome {
    /// The worse of both.
    pub(crate) fn worse(self, other: CheckOutcome) -> CheckOutcome
        ensures { result ≡ worse self other }
    {
        match (self, other) {
            (CheckOutcome::NoUrls, one) | (one, CheckOutcome::NoUrls) => one,
            (CheckOutcome::Unread, _) | (_, CheckOutcome::Unread) => CheckOutcome::Unread,
            (CheckOutcome::Denied, _) | (_, CheckOutcome::Denied) => CheckOutcome::Denied,
            (CheckOutcome::Allowed, CheckOutcome::Allowed) => CheckOutcome::Allowed,
        }
    }
}
