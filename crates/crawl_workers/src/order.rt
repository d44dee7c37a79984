//! A shift's jobs by site: how many each site has, and their order in a line.
//! Called by `run_shift`, before a worker begins.
ghost use Rattle.std.specs.Prelude.{◌≡◌, ◌+◌, ◌<◌, ℕ, IfOk, IfSome, OnOk, length, map, vec_len};
ghost use Rattle.job_line.specs.Sums.{jobs_in, weigh, weigh_all, weigh_below};
ghost use Rattle.crawl_workers.specs.Orders.{IsOrder, lists_in};

use crawl_job::Job;
use std::alloc::{AllocError, Global};
use std::collections::BTreeMap;

/// The jobs site by site, each by its number in the list of all jobs.
#[derive(Drop)]
pub(crate) struct Order {
    /// The sites by authority, numbered by their first jobs.
    pub(crate) names: BTreeMap<String, usize>,
    /// How many jobs each site has.
    pub(crate) counts: Vec<u64>,
    /// The numbers of the jobs; a site's jobs keep their order.
    pub(crate) numbers: Vec<u64>,
}

#[derive(Drop)]
struct BySite {
    names: BTreeMap<String, usize>,
    lists: Vec<Vec<u64>>,
}

impl Order {
    pub(crate) fn of_jobs(alloc: Global, jobs: &[Job]) -> Result<Order, AllocError>
        ensures { IfOk result (λ order.
            IsOrder (length jobs.now) order.counts.items order.numbers.items) }
    {
        let BySite { names, lists } = by_site(alloc, jobs)?;
        Ok(Order {
            names,
            counts: lengths(alloc, &lists)?,
            numbers: joined(alloc, &lists)?,
        })
    }
}

fn by_site(alloc: Global, jobs: &[Job]) -> Result<BySite, AllocError>
    ensures { IfOk result (λ sites. (weight : ℕ → ℕ)
        → weigh_all weight (lists_in sites.lists.items) ≡ weigh_below weight (length jobs.now)) }
{
    let mut sites = BySite {
        names: BTreeMap::new(alloc),
        lists: Vec::new(alloc),
    };
    for (number, job) in jobs.iter().enumerate() {
        sites.add(alloc, job.url.authority(), number as u64)?;
    }
    Ok(sites)
}

fn lengths(alloc: Global, lists: &[Vec<u64>]) -> Result<Vec<u64>, AllocError>
    ensures { IfOk result (λ counts.
        jobs_in counts.items ≡ weigh_all (λ _. 1) (lists_in lists.now)) }
{
    let mut counts = Vec::with_capacity(alloc, lists.len())?;
    for list in lists {
        counts.push_reserved(list.len() as u64);
    }
    Ok(counts)
}

// The concatenated lists.
fn joined(alloc: Global, lists: &[Vec<u64>]) -> Result<Vec<u64>, AllocError>
    ensures { IfOk result (λ numbers. (weight : ℕ → ℕ)
        → weigh weight numbers.items ≡ weigh_all weight (lists_in lists.now)) }
{
    let mut numbers = Vec::new(alloc);
    for list in lists {
        numbers.extend_from_slice(list.as_slice())?;
    }
    Ok(numbers)
}

impl BySite {
    fn add(&mut self, alloc: Global, authority: &str, number: u64) -> Result<(), AllocError>
        ensures { OnOk result ((weight : ℕ → ℕ) → weigh_all weight (lists_in self.new.lists.items)
            ≡ weigh_all weight (lists_in self.old.lists.items) + weight number) }
    {
        let site = self.site_of(alloc, authority)?;
        self.lists[site].push(number)?;
        Ok(())
    }

    // The authority's site, which is added without jobs if it is new.
    fn site_of(&mut self, alloc: Global, authority: &str) -> Result<usize, AllocError>
        ensures there { IfOk result (λ site. site < vec_len self.new.lists) }
        ensures same { OnOk result ((weight : ℕ → ℕ)
            → weigh_all weight (lists_in self.new.lists.items)
            ≡ weigh_all weight (lists_in self.old.lists.items)) }
    {
        if let Some(site) = self.known(authority) {
            return Ok(site);
        }
        let site = self.lists.len();
        self.names
            .insert(String::from_str(alloc, authority)?, site)?;
        self.lists.push(Vec::new(alloc))?;
        Ok(site)
    }

    fn known(&self, authority: &str) -> Option<usize>
        ensures { IfSome result (λ site. site < vec_len self.now.lists) }
    {
        let site = *self.names.get(authority)?;
        (site < self.lists.len()).then_some(site)
    }
}
