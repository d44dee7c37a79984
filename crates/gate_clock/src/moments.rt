//! The moments of readings, as a function of what the clocks showed.
//! Used by `SteadyClock`.
ghost use Rattle.std.specs.Prelude.{◌≡◌, ◌≤◌, ◌-◌, ◌^◌, min};
ghost use Rattle.std.specs.Duration.{as_nanos};
ghost use Rattle.gate_clock.specs.Moments.{ahead_after, day_past, epoch_of, moment_at, slack_seconds};

use std::time::Duration;

/// By how many seconds the wall clock may be behind a gate's last moment when the gate goes on.
pub const SLACK_SECONDS: u64 = 60;

/// How many seconds behind its last moment a gate goes on whose wall clock was set back by more: one more
/// than an answer lasts.
pub const DAY_PAST: u64 = 86_401;

// 146 years in nanoseconds; more is never counted.
pub(crate) const MOST_NANOSECONDS: u64 = 1 << 62;

const NANOSECONDS: u64 = 1_000_000_000;

/// What both clocks show: by how many nanoseconds the wall clock is past the epoch, and the nanoseconds of
/// the steady clock since the clock began.
#[derive(Clone, Copy, Debug)]
pub(crate) struct ClockReading {
    pub(crate) past: u64,
    pub(crate) elapsed: u64,
}

/// From which moment on a clock counts, in seconds, where a gate ended at `last` and the wall clock shows
/// `wall`.
pub(crate) fn epoch_of(last: u64, wall: u64) -> u64
    ensures { result ≡ min (epoch_of last wall) (2 ^ 64 - 1) }
{
    if is_set_back(last, wall) {
        last.saturating_add(DAY_PAST)
    } else {
        last.max(wall)
    }
}

/// Whether the wall clock is behind a gate's last moment by more than the slack.
pub(crate) fn is_set_back(last: u64, wall: u64) -> bool
    ensures { result ≡ Rattle.gate_clock.specs.Moments.is_set_back last wall }
{
    last.saturating_sub(wall) > SLACK_SECONDS
}

/// By how many nanoseconds the moments are ahead of the steady clock, after a reading.
pub(crate) fn ahead_after(ahead: u64, reading: ClockReading) -> u64
    ensures { result ≡ ahead_after ahead reading }
{
    ahead.max(reading.past.saturating_sub(reading.elapsed))
}

/// The moment of a reading, in seconds, where the moments are so far ahead.
pub(crate) fn moment_at(epoch: u64, ahead: u64, reading: ClockReading) -> u64
    requires elapsed { reading.elapsed ≤ 2 ^ 62 }
    requires ahead { ahead ≤ 2 ^ 62 }
    ensures { result ≡ min (moment_at epoch ahead reading) (2 ^ 64 - 1) }
{
    epoch.saturating_add((reading.elapsed + ahead) / NANOSECONDS)
}

/// The nanoseconds of a duration, 146 years at most.
pub(crate) fn nanoseconds(duration: Duration) -> u64
    ensures { result ≡ min (as_nanos duration) (2 ^ 62) }
{
    duration.as_nanos().min(MOST_NANOSECONDS as u128) as u64
}
