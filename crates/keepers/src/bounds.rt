//! The bounds of one session in a shared gate.
//! Enforced by `DeskKeeper`.
ghost use Rattle.std.specs.Prelude.{◌≡◌, Bool};
ghost use Rattle.keepers.specs.Bounding.{are_all, has_enough};

/// How many permits a session may have out, and how many authorities it may make known and entries make.
#[derive(Clone, Copy, Debug, PartialEq, Eq)]
pub struct Bounds {
    /// The most permits out, started ones included. The gate's own fetches for it are not counted.
    pub permits: u64,
    /// How many authorities the gate's fetches for it may make known. Others are refused then.
    pub authorities: u64,
    /// How many entries of the history it may make before asks, refreshes and fetches are refused. What it
    /// has out may still be started, given back and finished, and its last fetch may go on.
    pub entries: u64,
}

impl Bounds {
    /// No bounds but the gate's.
    pub fn none() -> Bounds
        ensures { are_all result }
    {
        Bounds {
            permits: u64::MAX,
            authorities: u64::MAX,
            entries: u64::MAX,
        }
    }

    /// Whether a session with so many permits out gets no more.
    pub(crate) fn has_permits(self, out: u64) -> bool
        ensures { result ≡ has_enough self.permits out }
    {
        self.permits <= out
    }

    /// Whether a session that made so many entries makes no more by asks, refreshes and fetches.
    pub(crate) fn has_entries(self, count: u64) -> bool
        ensures { result ≡ has_enough self.entries count }
    {
        self.entries <= count
    }
}
