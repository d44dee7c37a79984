//! The numbers of connections: workers draw them from a line of jobs, each once.
//! Made by `Server::run`, for its workers.
ghost use Rattle.std.specs.Prelude.{◌≡◌, ◌≤◌, All};
ghost use Rattle.job_line.specs.Limits.{max_jobs};
ghost use Rattle.line_server.specs.Servers.{AreNumbered, Draws};

use client_connections::Connections;
use job_line::{JobLine, JobSeat, MAX_JOBS, MAX_WORKERS};
use std::alloc::{AllocError, Global};

// The connections of each number in an endless server: the sixteen numbers cover as many as 64 bits count,
// so no worker runs out.
const ENDLESS_SHARE: u64 = 1 << 60;

/// How many numbers a server has.
pub(crate) fn count_of(connections: Connections) -> u64
    ensures line { result ≤ max_jobs }
    ensures numbers { AreNumbered connections result }
{
    match connections {
        Connections::AtMost(count) => count.min(MAX_JOBS),
        Connections::Endless => MAX_WORKERS,
    }
}

/// The connections that a worker takes for one number.
pub(crate) fn share_of(connections: Connections) -> u64 {
    match connections {
        Connections::AtMost(_) => 1,
        Connections::Endless => ENDLESS_SHARE,
    }
}

/// A worker's line and seat.
#[derive(Drop)]
pub(crate) struct ConnectionNumbers<'l> {
    pub(crate) line: &'l JobLine,
    pub(crate) seat: JobSeat,
    ghost is_of: { seat.line ≡ line.now },
}

impl ConnectionNumbers<'_> {
    /// Draws a number; false if none was left.
    pub(crate) fn draw(&mut self) -> bool
        ensures { Draws self.old.seat self.new.seat result }
    {
        self.line.draw(&mut self.seat).is_some()
    }
}

/// The numbers that each of these seats draws.
pub(crate) fn numbers_at<'l>(
    alloc: Global,
    line: &'l JobLine,
    seats: Vec<JobSeat>,
) -> Result<Vec<ConnectionNumbers<'l>>, AllocError>
    requires own { All (λ seat. seat.line ≡ line.now) seats.items }
{
    let mut numbers = Vec::new(alloc);
    for seat in seats {
        let of_seat = ConnectionNumbers { line, seat };
        numbers.push(of_seat).map_err(AllocError::from)?;
    }
    Ok(numbers)
}
