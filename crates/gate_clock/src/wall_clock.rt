//! The wall clock, for each moment.
//! Used by `SteadyClock`.

use libc::types::timespec;
use std::time;
use std::time::Duration;

// Linux's CLOCK_REALTIME_COARSE.
const WALL_AT_TICK: i32 = 5;

/// The time since the beginning of 1970, UTC; zero if the clock can't be read.
pub(crate) fn wall_of<R: time::Clock>(rt: &R) -> Duration {
    rt.since_1970().unwrap_or(Duration::ZERO)
}

/// The same as it was at the system's last tick, some milliseconds ago. That is read in a sixth of the time.
pub(crate) fn wall_at_tick<R: time::Clock>(rt: &R) -> Duration {
    let mut time = timespec {
        tv_sec: 0,
        tv_nsec: 0,
    };
    if libc::clock_gettime(WALL_AT_TICK, &mut time) != 0 || time.tv_sec < 0 {
        return wall_of(rt);
    }
    let seconds = Duration::from_secs(time.tv_sec.unsigned_abs());
    seconds.saturating_add(Duration::from_nanos(time.tv_nsec.unsigned_abs()))
}
