//! The fetches of `DeskKeeper` for its session: a job with its redirects, and a visit to one page.
//! RFC 9309, sections 2.2 to 2.4.
ghost use Rattle.std.specs.Prelude.{◌≡◌, ◌≤◌, Some};
ghost use Rattle.page_worker.specs.World.{world_of};
ghost use Rattle.keepers.specs.DeskKeeping.{Behind, KeeperFetches, KeeperVisits};

use crate::desk_keeper::DeskKeeper;
use crate::records::DeskRecords;
use crawl_job::{Job, Outcome};
use fetchers::Fetcher;
use gate_core::NoMemory;
use gate_lock::Gate;
use http_wire::ForwardedFields;
use page_worker::{Clock, PageVisitor, Visited, work_within};
use std::alloc::Global;
use std::sync::Wait;

impl<'a, 'g, G: Gate, F: Fetcher, R: Wait, N: DeskRecords + Drop> DeskKeeper<'a, 'g, G, F, R, N> {
    /// Fetches the page of a job, and follows its redirects.
    pub(crate) fn fetch_desk<C: Clock>(
        &mut self,
        alloc: Global,
        job: Job,
        clock: &C,
    ) -> Result<Outcome, NoMemory>
        ensures rest { (self.new.fetcher ≡ self.old.fetcher) × (self.new.records ≡ self.old.records)
            × (self.new.bounds ≡ self.old.bounds) × (self.new.begun ≡ self.old.begun) }
        ensures newcomers { self.new.newcomers ≤ self.old.newcomers }
        ensures fetches { Behind self.old.desk (λ d. KeeperFetches
            (world_of (F.gives self.old.fetcher.now) (F.follows self.old.fetcher.now) (C.reads clock.now))
            d self.old.bag job (Some result) self.new.desk self.new.bag) }
    {
        self.make_way();
        let newcomers = &mut self.newcomers;
        match work_within(
            self.rt,
            alloc,
            job,
            &mut self.desk,
            self.fetcher,
            clock,
            newcomers,
        ) {
            Ok(outcome) => Ok(outcome),
            Err(_) => Err(NoMemory),
        }
    }

    /// Visits the page of a job, with these fields of a client's request.
    pub(crate) fn visit_desk<C: Clock>(
        &mut self,
        alloc: Global,
        job: Job,
        fields: &ForwardedFields<'_>,
        clock: &C,
    ) -> Visited
        ensures rest { (self.new.fetcher ≡ self.old.fetcher) × (self.new.records ≡ self.old.records)
            × (self.new.bounds ≡ self.old.bounds) × (self.new.begun ≡ self.old.begun) }
        ensures newcomers { self.new.newcomers ≤ self.old.newcomers }
        ensures visits { Behind self.old.desk (λ d. KeeperVisits
            (world_of (F.gives self.old.fetcher.now) (F.follows self.old.fetcher.now) (C.reads clock.now))
            d self.old.bag job self.old.newcomers (Some result) self.new.newcomers self.new.desk self.new.bag) }
    {
        self.make_way();
        let newcomers = &mut self.newcomers;
        let visitor = PageVisitor {
            rt: self.rt,
            alloc,
            fetcher: self.fetcher,
            clock,
        };
        visitor.visit(job, fields, &mut self.desk, newcomers)
    }
}
