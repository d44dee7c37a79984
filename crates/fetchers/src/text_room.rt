//! The room for the robots texts that a gate keeps.
//! `TcpFetcher` has one.
ghost use Rattle.std.specs.Prelude.{◌≡◌, ◌+◌, ◌<◌, ◌≤◌, IfSome, None};
ghost use Rattle.fetchers.specs.Limits.{no_bound};

use std::marker::Model;
use std::sync::atomic::{AtomicU64, Ordering};

/// How many octets of robots texts may be kept together, and how many are. A clause sees how many may be.
#[derive(Drop)]
pub(crate) struct TextRoom {
    most: u64,
    held: AtomicU64,
}

impl Model for TextRoom {
    ghost use Rattle.std.specs.Prelude.{ℕ};

    ghost Value = { ℕ };

    ghost view = { λ room. room.most };
}

impl TextRoom {
    /// Room without a bound.
    pub fn new() -> TextRoom
        ensures { result ≡ no_bound }
    {
        TextRoom::of(u64::MAX)
    }

    /// Room for at most so many octets.
    pub fn of(most: u64) -> TextRoom
        ensures { result ≡ most }
    {
        TextRoom {
            most,
            held: AtomicU64::new(0),
        }
    }

    /// Takes room for a text of so many octets, if there is. One that has none takes nothing, even for a
    /// moment.
    pub fn take(&self, octets: u64) -> bool {
        self.held
            .fetch_update(Ordering::Relaxed, Ordering::Relaxed, |held| {
                held_with(held, octets, self.most)
            })
            .is_ok()
    }

    /// So many octets are kept now; more are counted from them on.
    pub fn count_from(&self, octets: u64) {
        self.held.store(octets, Ordering::Relaxed);
    }
}

// What is held with a text of so many octets more, if that may be.
fn held_with(held: u64, octets: u64, most: u64) -> Option<u64>
    ensures within { IfSome result (λ sum. (sum ≡ held + octets) × (sum ≤ most)) }
    ensures past { result ≡ None → most < held + octets }
{
    match held.checked_add(octets) {
        Some(sum) if sum <= most => Some(sum),
        _ => None,
    }
}
