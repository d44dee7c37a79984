//! A worker's seat at a line of jobs.
//! Made by `JobLine::of_sites`, used by `JobLine::draw_at` and spent by `JobLine::gather`.
ghost use Rattle.std.specs.Prelude.{◌≡◌, length};
ghost use Rattle.job_line.specs.Covers.{has_ended};

use crate::rule::Hand;
use atomic_table::Seat;
use std::marker::Model;

/// What a worker drew, in order. It belongs to the line that made it.
#[derive(Drop)]
pub struct JobSeat {
    pub(crate) seat: Seat<(), Hand>,
    // Each site's jobs, and where their indexes begin.
    pub(crate) counts: Vec<u64>,
    pub(crate) begins: Vec<u64>,
    // Whether this seat found each site's end.
    pub(crate) ended: Vec<bool>,
    pub(crate) drawn: Vec<u64>,
}

impl Model for JobSeat {
    ghost use Rattle.job_line.specs.Covers.{SeatView};

    ghost Value = { SeatView };

    ghost use Rattle.job_line.specs.Seats.{IsSeated, seat_view};

    ghost view = { seat_view };

    ghost invariant = { IsSeated };
}

impl JobSeat {
    /// This seat's draws, in order.
    pub fn drawn(&self) -> &[u64]
        ensures { result.now ≡ self.now.drawn }
    {
        self.drawn.as_slice()
    }

    /// The line's sites.
    pub fn sites(&self) -> usize
        ensures { result ≡ length self.now.counts }
    {
        self.counts.len()
    }

    /// Whether this seat found each site's end.
    pub fn has_ended(&self) -> bool
        ensures { result ≡ has_ended self.now }
    {
        self.ended.iter().all(|ended| *ended)
    }
}
