//! `work`: a job, page after page over redirects, each with its own permit.
//! RFC 9309, sections 2.2 and 2.3.1; RFC 9110, section 15.4.
ghost use Rattle.std.specs.Prelude.{◌≡◌, ◌≤◌, ◌+◌, IfOk, OnErr};
ghost use Rattle.gate_lock.specs.Desks.{KeepsOut};
ghost use Rattle.gate_marks.specs.Marks.{starts_in};
ghost use Rattle.page_worker.specs.Outcomes.{Works, fetches_in};
ghost use Rattle.page_worker.specs.World.{world_of};

use crate::clock::Clock;
use crate::event::EventObserver;
use crate::worker::Worker;
use crawl_job::{Job, Outcome};
use fetchers::Fetcher;
use gate_lock::{Desk, Gate};
use std::alloc::{AllocError, Global};
use std::sync::Wait;

/// The most hops of a job: five followed redirects, the page they lead to, and why that is not followed if
/// it redirects too.
pub(crate) const MAX_HOPS: usize = 7;

/// Fetches a job's page, and follows at most five redirects. Each page has its own ask and start. Before
/// the ask, the robots answer of the page's authority is refreshed if none is in force; if another desk is
/// refreshing it, this waits for that.
///
/// Only the allocation of the hops, made first, can fail here. If memory runs out later, the list of hops
/// ends.
pub fn work<G: Gate, F: Fetcher, C: Clock, R: Wait>(
    rt: &R,
    alloc: Global,
    job: Job,
    desk: &mut Desk<'_, G>,
    fetcher: &F,
    clock: &C,
) -> Result<Outcome, AllocError>
    ensures no { desk.new.no ≡ desk.old.no }
    ensures out { KeepsOut desk.old desk.new }
    ensures ok { IfOk result
        (λ outcome. Works (world_of (F.gives fetcher.now) (F.follows fetcher.now)
        (C.reads clock.now))
        job outcome desk.old desk.new) }
    ensures starts { IfOk result (λ outcome. starts_in desk.new.marks
        ≡ starts_in desk.old.marks + fetches_in outcome.hops.items) }
    ensures err { OnErr result (desk.new ≡ desk.old) }
{
    work_observed(rt, alloc, job, desk, fetcher, clock, &())
}

/// `work` that tells an observer each event of the job.
pub fn work_observed<G: Gate, F: Fetcher, C: Clock, N: EventObserver, R: Wait>(
    rt: &R,
    alloc: Global,
    job: Job,
    desk: &mut Desk<'_, G>,
    fetcher: &F,
    clock: &C,
    observer: &N,
) -> Result<Outcome, AllocError>
    ensures no { desk.new.no ≡ desk.old.no }
    ensures out { KeepsOut desk.old desk.new }
    ensures ok { IfOk result
        (λ outcome. Works (world_of (F.gives fetcher.now) (F.follows fetcher.now)
        (C.reads clock.now))
        job outcome desk.old desk.new) }
    ensures starts { IfOk result (λ outcome. starts_in desk.new.marks
        ≡ starts_in desk.old.marks + fetches_in outcome.hops.items) }
    ensures err { OnErr result (desk.new ≡ desk.old) }
{
    let room = Vec::with_capacity(alloc, MAX_HOPS)?;
    let worker = Worker {
        rt,
        alloc,
        fetcher,
        clock,
        notes: observer,
    };
    let Job { token, url } = job;
    let mut newcomers = u64::MAX;
    Ok(worker.hops_from(&token, url, room, desk, &mut newcomers))
}

/// `work` for one who may make only so many more authorities known: those without an answer of any age at
/// the begin of a hop, the first or one that a redirect leads to. Without one left, the job ends with the
/// hop `Err(AuthoritiesFull)`.
pub fn work_within<G: Gate, F: Fetcher, C: Clock, R: Wait>(
    rt: &R,
    alloc: Global,
    job: Job,
    desk: &mut Desk<'_, G>,
    fetcher: &F,
    clock: &C,
    newcomers: &mut u64,
) -> Result<Outcome, AllocError>
    ensures no { desk.new.no ≡ desk.old.no }
    ensures out { KeepsOut desk.old desk.new }
    ensures ok { IfOk result
        (λ outcome. Works (world_of (F.gives fetcher.now) (F.follows fetcher.now)
        (C.reads clock.now))
        job outcome desk.old desk.new) }
    ensures starts { IfOk result (λ outcome. starts_in desk.new.marks
        ≡ starts_in desk.old.marks + fetches_in outcome.hops.items) }
    ensures newcomers { newcomers.new ≤ newcomers.old }
    ensures err { OnErr result ((desk.new ≡ desk.old) × (newcomers.new ≡ newcomers.old)) }
{
    let room = Vec::with_capacity(alloc, MAX_HOPS)?;
    let worker = Worker {
        rt,
        alloc,
        fetcher,
        clock,
        notes: &(),
    };
    let Job { token, url } = job;
    Ok(worker.hops_from(&token, url, room, desk, newcomers))
}
