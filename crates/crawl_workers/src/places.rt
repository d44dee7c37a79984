//! Puts a shift's outcomes in the places of their jobs.
//! Called by `run_shift`, after the last job.
ghost use Rattle.std.specs.Prelude.{◌≡◌, ◌≤◌, ℕ, length, map};
ghost use Rattle.std.specs.List.{slice_get};
ghost use Rattle.job_line.specs.Sums.{weigh, weigh_all};
ghost use Rattle.crawl_workers.specs.Crews.{AllPlaced, all_numbers, one_below, one_at_number};
ghost use Rattle.crawl_workers.specs.Shifts.{ArePlaced, numbers_of};

use crate::crew::Done;
use crate::report::Crawled;

/// Puts each job's outcome at its number. No number comes twice.
pub(crate) fn place_all(outcomes: &mut [Crawled], done: Vec<Vec<Done>>)
    requires { (n : ℕ)
        → weigh_all (one_at_number n) (all_numbers (map (λ list. list.items) done.items))
        ≤ one_below (length outcomes.old) n }
    ensures len { length outcomes.new ≡ length outcomes.old }
    ensures placed { AllPlaced outcomes.new (map (λ list. list.items) done.items) }
{
    for list in done {
        place(outcomes, list);
    }
}

// Puts one worker's outcomes, and leaves the others.
fn place(outcomes: &mut [Crawled], done: Vec<Done>)
    requires { (n : ℕ) → weigh (one_at_number n) (numbers_of done.items)
        ≤ one_below (length outcomes.old) n }
    ensures len { length outcomes.new ≡ length outcomes.old }
    ensures placed { ArePlaced outcomes.new done.items }
    ensures others { (n : ℕ) → weigh (one_at_number n) (numbers_of done.items) ≡ 0
        → slice_get outcomes.new n ≡ slice_get outcomes.old n }
{
    for job in done {
        let Done { number, crawled } = job;
        outcomes[number as usize] = crawled;
    }
}
