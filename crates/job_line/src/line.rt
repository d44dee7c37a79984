//! The line of jobs: a counter of draws for each site, and the seats that draw.
ghost use Rattle.std.specs.Prelude.{◌≡◌, ℕ, ◌≤◌, ◌<◌, ◌-◌, ◌++◌, ◌∷◌, [], true, false, All, IfNone, IfOk, IfSome, List, OnOk, length, replicate, set, vec_len};
ghost use Rattle.job_line.specs.Limits.{max_jobs, max_workers};
ghost use Rattle.job_line.specs.Sums.{begins_from, jobs_in};
ghost use Rattle.job_line.specs.Covers.{Covers, IsIndexOf, IsNew, dealt_seat, drawn_lists, first_seat, jobs_of, lists_of, parts_of};

use crate::rule::{Deal, Draw, DrawnOnce, Hand, Learn, TakeIn};
use crate::seat::JobSeat;
use atomic_table::Table;
use std::alloc::{AllocError, Global};
use std::marker::Model;

/// The most jobs of a line.
pub const MAX_JOBS: u64 = 4096;

/// The most workers of a line.
pub const MAX_WORKERS: u64 = 16;

/// A line of jobs, of one or several sites, numbered from 0. Many threads may draw at once, each at its own
/// seat.
#[derive(Drop)]
pub struct JobLine {
    table: Table<(), Hand, Vec<u64>, DrawnOnce, Global>,
    // Room for the lists of all seats.
    lists: Vec<Vec<u64>>,
}

impl Model for JobLine {
    ghost use Rattle.atomic_table.specs.Seated.{TableId};

    ghost Value = { TableId };

    ghost use Rattle.job_line.specs.Seats.{IsLine, line_id};

    ghost view = { line_id };

    ghost invariant = { IsLine };
}

/// What each seat drew, in order.
#[derive(Drop)]
pub struct Drawn {
    pub lists: Vec<Vec<u64>>,
}

impl JobLine {
    /// A line of this many jobs of one site, and a seat for each worker.
    pub fn new(
        alloc: Global,
        jobs: u64,
        workers: u64,
    ) -> Result<(JobLine, Vec<JobSeat>), AllocError>
        requires jobs { jobs ≤ max_jobs }
        requires workers { (1 ≤ workers) × (workers ≤ max_workers) }
        ensures count { IfOk result (λ made. vec_len made.1 ≡ workers) }
        ensures seats { IfOk result (λ made. All (IsNew made.0 (jobs ∷ [])) made.1.items) }
        ensures parts { IfOk result (λ made. parts_of made.1.items ≡ max_workers) }
    {
        JobLine::of_sites(alloc, &[jobs], workers)
    }

    /// A line of the jobs of several sites, site by site, and a seat for each worker. All lists are
    /// allocated here.
    pub fn of_sites(
        alloc: Global,
        counts: &[u64],
        workers: u64,
    ) -> Result<(JobLine, Vec<JobSeat>), AllocError>
        requires jobs { jobs_in counts.now ≤ max_jobs }
        requires workers { (1 ≤ workers) × (workers ≤ max_workers) }
        ensures count { IfOk result (λ made. vec_len made.1 ≡ workers) }
        ensures seats { IfOk result (λ made. All (IsNew made.0 counts.now) made.1.items) }
        ensures parts { IfOk result (λ made. parts_of made.1.items ≡ max_workers) }
    {
        let (line, mut last) = JobLine::start(alloc, counts)?;
        let mut seats = Vec::with_capacity(alloc, workers as usize)?;
        for _ in 1..workers {
            seats.push_reserved(line.deal(alloc, &mut last)?);
        }
        seats.push_reserved(last);
        Ok((line, seats))
    }

    // A line, and a seat with all its parts.
    fn start(alloc: Global, counts: &[u64]) -> Result<(JobLine, JobSeat), AllocError>
        requires { jobs_in counts.now ≤ max_jobs }
        ensures { IfOk result (λ made. made.1 ≡ first_seat made.0 counts.now) }
    {
        let counts = counts.to_vec(alloc)?;
        // A line without sites has a word too, so that `gather` learns that nothing was drawn.
        let words = vec![in alloc; 0; counts.len().max(1)]?;
        let ended = vec![in alloc; false; counts.len()]?;
        let (begins, jobs) = begins(alloc, counts.as_slice())?;
        let (table, seat) = Table::of_words(alloc, words.as_slice(), &counts)?;
        let line = JobLine {
            table,
            lists: Vec::with_capacity(alloc, MAX_WORKERS as usize)?,
        };
        let first = JobSeat {
            seat,
            counts,
            begins,
            ended,
            drawn: Vec::with_capacity(alloc, jobs as usize)?,
        };
        Ok((line, first))
    }

    // A new seat with one part of another's, and as much room.
    fn deal(&self, alloc: Global, seat: &mut JobSeat) -> Result<JobSeat, AllocError>
        requires line { seat.old.line ≡ self.now }
        requires parts { 1 < seat.old.parts }
        requires goes { seat.old.ended ≡ replicate (length seat.old.counts) false }
        ensures dealt { IfOk result (λ dealt. dealt ≡ dealt_seat seat.old) }
        ensures left { OnOk result (seat.new ≡ record seat.old { parts = seat.old.parts - 1 }) }
    {
        let counts = seat.counts.to_vec(alloc)?;
        let begins = seat.begins.to_vec(alloc)?;
        let ended = seat.ended.to_vec(alloc)?;
        let drawn = Vec::with_capacity(alloc, seat.drawn.capacity())?;
        Ok(JobSeat {
            seat: self.table.shared.split_seat::<Deal>(&mut seat.seat),
            counts,
            begins,
            ended,
            drawn,
        })
    }

    /// The next index of the first site, which has all jobs of a line from `new`.
    pub fn draw(&self, seat: &mut JobSeat) -> Option<u64>
        requires { seat.old.line ≡ self.now }
        ensures some { IfSome result (λ n. (n < jobs_of seat.old)
            × (seat.new ≡ record seat.old { drawn = seat.old.drawn ++ n ∷ [] })) }
        ensures none { IfNone result
            (seat.new ≡ record seat.old { ended = set seat.old.ended 0 true }) }
        ensures same { (seat.new.line ≡ seat.old.line) × (seat.new.parts ≡ seat.old.parts) }
    {
        self.draw_at(seat, 0)
    }

    /// The next index of a site's jobs, which no other draw gives; none at the site's end, where the seat
    /// makes no further step, and none for an unknown site. No allocation, no lock.
    pub fn draw_at(&self, seat: &mut JobSeat, site: usize) -> Option<u64>
        requires { seat.old.line ≡ self.now }
        ensures some { IfSome result (λ n. (n < jobs_of seat.old)
            × (seat.new ≡ record seat.old { drawn = seat.old.drawn ++ n ∷ [] })) }
        ensures site { IfSome result (IsIndexOf seat.old.counts site) }
        ensures none { IfNone result
            (seat.new ≡ record seat.old { ended = set seat.old.ended site true }) }
        ensures same { (seat.new.line ≡ seat.old.line) × (seat.new.parts ≡ seat.old.parts) }
    {
        if site >= seat.counts.len() || seat.ended[site] {
            return None;
        }
        let number = self.table.shared.fetch_add::<Draw>(&mut seat.seat, site, 1);
        if number < seat.counts[site] {
            let index = seat.begins[site] + number;
            seat.drawn.push_reserved(index);
            Some(index)
        } else {
            seat.ended[site] = true;
            None
        }
    }

    /// Each seat's draws, in the order of the seats. It allocates nothing.
    pub fn gather(self, seats: Vec<JobSeat>) -> Drawn
        requires few { vec_len seats ≤ max_workers }
        requires own { All (λ seat. seat.line ≡ self) seats.items }
        ensures lists { drawn_lists result ≡ lists_of seats.items }
        ensures covers { (counts : List ℕ) → All (λ seat. seat.counts ≡ counts) seats.items
            → parts_of seats.items ≡ max_workers → Covers counts seats.items }
    {
        let JobLine { table, mut lists } = self;
        let mut seats = seats.into_iter();
        let Some(first) = seats.next() else {
            return Drawn { lists };
        };
        let JobSeat {
            seat: mut hand,
            drawn,
            ..
        } = first;
        lists.push_reserved(drawn);
        for seat in seats {
            let JobSeat {
                seat: other,
                drawn: list,
                ..
            } = seat;
            lists.push_reserved(list);
            table.shared.join_seat::<TakeIn>(&mut hand, other);
        }
        table.shared.load::<Learn>(&mut hand, 0);
        Drawn { lists }
    }
}

// The index at which each site's jobs begin, and the number of jobs.
fn begins(alloc: Global, counts: &[u64]) -> Result<(Vec<u64>, u64), AllocError>
    requires { jobs_in counts.now ≤ max_jobs }
    ensures { IfOk result (λ found. (found.0.items ≡ begins_from 0 counts.now)
        × (found.1 ≡ jobs_in counts.now)) }
{
    let mut begins = Vec::with_capacity(alloc, counts.len())?;
    let mut jobs = 0;
    for count in counts {
        begins.push_reserved(jobs);
        jobs += *count;
    }
    Ok((begins, jobs))
}

/// The constants are those of the definitions.
pub fn constants_are_the_limits()
    ensures jobs { MAX_JOBS ≡ max_jobs }
    ensures workers { MAX_WORKERS ≡ max_workers }
{}
