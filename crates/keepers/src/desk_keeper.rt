//! `DeskKeeper`: a desk of a gate, a bag of what the session has out, a fetcher, and the gate's records.
//! RFC 9309, sections 2.2 to 2.4.
ghost use Rattle.std.specs.Prelude.{◌≡◌, ◌≤◌, [], IfOk, Some};
ghost use Rattle.permit_bag.specs.Bags.{held_in};
ghost use Rattle.gate_lock.specs.Desks.{IsNew, out_of};
ghost use Rattle.keepers.specs.Bounding.{are_all, has_enough, made_since};
ghost use Rattle.page_worker.specs.World.{world_of};
ghost use Rattle.keepers.specs.DeskKeeping.{Behind, IsClosed, KeeperAsks, KeeperRefreshes, MayCondense};

use crate::answers::standing_answer;
use crate::bounds::Bounds;
use crate::counts::{Counts, counts_of};
use crate::fetch_refusal::refused_fetch;
use crate::keeper::Keeper;
use crate::no_keeper::NoKeeper;
use crate::records::{DeskRecords, NoRecords};
use authority_cache::StandingAnswer;
use crawl_job::{Hop, Job, Outcome, Refusal};
use fetchers::Fetcher;
use gate_core::{AskRefusal, BeginRefusal, Denial, NoMemory, Standing, State};
use gate_history::{Reason, Segment};
use gate_lock::{Desk, Gate, GateLock, Receipts};
use http_wire::ForwardedFields;
use page_worker::{Clock, PageVisit, Visited, is_unknown, refresh_within};
use path_normal::{Authority, PageUrl, Schemes};
use permit_bag::Bag;
use permit_book::{NotOut, PermitNo};
use robots_text::Token;
use std::alloc::Global;
use std::sync::Wait;

/// A desk with the permits and started fetches of one session after the other. Each session can spend only
/// its own. It has no `Drop`: `close` makes receipts of it.
#[must_use]
pub struct DeskKeeper<'a, 'g, G: Gate, F: Fetcher, R: Wait, N: DeskRecords + Drop> {
    pub(crate) rt: &'a R,
    pub(crate) fetcher: &'a F,
    pub(crate) records: N,
    pub(crate) bounds: Bounds,
    // How many more authorities the session may make known.
    pub(crate) newcomers: u64,
    // How many entries the desk had made when the session began.
    pub(crate) begun: u64,
    pub(crate) desk: Desk<'g, G>,
    pub(crate) bag: Bag<G>,
    ghost is_of: { bag.desk ≡ desk.no },
    ghost balances: { out_of desk ≡ held_in bag },
}

impl<'a, 'g, G: Gate, F: Fetcher, R: Wait> DeskKeeper<'a, 'g, G, F, R, NoRecords> {
    /// A keeper at its own desk, with no bounds but the gate's, and no records.
    pub fn open(
        rt: &'a R,
        alloc: Global,
        gate: &'g GateLock<G>,
        fetcher: &'a F,
    ) -> Result<DeskKeeper<'a, 'g, G, F, R, NoRecords>, NoKeeper>
        ensures desk { IfOk result (λ keeper. IsNew gate.now keeper.desk) }
        ensures bag { IfOk result (λ keeper. (keeper.bag.permits ≡ []) × (keeper.bag.runs ≡ [])) }
        ensures fetcher { IfOk result (λ keeper. keeper.fetcher ≡ fetcher.entry) }
        ensures bounds { IfOk result (λ keeper. are_all keeper.bounds) }
    {
        DeskKeeper::open_within(rt, alloc, gate, fetcher, NoRecords, Bounds::none())
    }
}

impl<'a, 'g, G: Gate, F: Fetcher, R: Wait, N: DeskRecords + Drop> DeskKeeper<'a, 'g, G, F, R, N> {
    /// A keeper at its own desk beside these records, with bounds for each session.
    pub fn open_within(
        rt: &'a R,
        alloc: Global,
        gate: &'g GateLock<G>,
        fetcher: &'a F,
        records: N,
        bounds: Bounds,
    ) -> Result<DeskKeeper<'a, 'g, G, F, R, N>, NoKeeper>
        ensures desk { IfOk result (λ keeper. IsNew gate.now keeper.desk) }
        ensures bag { IfOk result (λ keeper. (keeper.bag.permits ≡ []) × (keeper.bag.runs ≡ [])) }
        ensures fetcher { IfOk result (λ keeper. keeper.fetcher ≡ fetcher.entry) }
        ensures records { IfOk result (λ keeper. keeper.records ≡ records) }
        ensures bounds { IfOk result (λ keeper. (keeper.bounds ≡ bounds)
            × (keeper.newcomers ≡ bounds.authorities) × (keeper.begun ≡ 0)) }
    {
        let desk = gate.desk(rt, alloc)?;
        match Bag::new(alloc, &desk) {
            Ok(bag) => Ok(DeskKeeper {
                rt,
                fetcher,
                records,
                bounds,
                newcomers: bounds.authorities,
                begun: 0,
                desk,
                bag,
            }),
            Err(_) => {
                // Safe to close: it made no entries.
                desk.close();
                Err(NoKeeper::NoMemory)
            }
        }
    }

    /// Condenses the desk's marks if there is no room for the next ones.
    pub(crate) fn make_way(&mut self)
        ensures rest { (self.new.fetcher ≡ self.old.fetcher) × (self.new.records ≡ self.old.records)
            × (self.new.bounds ≡ self.old.bounds) × (self.new.begun ≡ self.old.begun) }
        ensures newcomers { self.new.newcomers ≡ self.old.newcomers }
        ensures bag { self.new.bag ≡ self.old.bag }
        ensures desk { MayCondense self.old.desk self.new.desk }
    {
        if self.desk.is_full() {
            self.desk.condense(self.rt);
        }
    }

    fn ask_desk(&mut self, token: Token, url: PageUrl, moment: u64) -> Result<PermitNo, AskRefusal>
        ensures rest { (self.new.fetcher ≡ self.old.fetcher) × (self.new.records ≡ self.old.records)
            × (self.new.bounds ≡ self.old.bounds) × (self.new.begun ≡ self.old.begun) }
        ensures newcomers { self.new.newcomers ≡ self.old.newcomers }
        ensures asks { Behind self.old.desk (λ d. KeeperAsks d self.old.bag token url moment result
            self.new.desk self.new.bag) }
    {
        self.make_way();
        if self.bag.make_room().is_err() {
            return Err(AskRefusal::NoMemory);
        }
        let permit = self.desk.ask(self.rt, token, url, moment)?;
        let number = permit.number();
        match self.bag.keep(permit) {
            Ok(()) => Ok(number),
            Err((permit, _)) => {
                self.desk.back(self.rt, permit);
                Err(AskRefusal::NoMemory)
            }
        }
    }

    fn refresh_desk<C: Clock>(
        &mut self,
        alloc: Global,
        authority: &Authority,
        clock: &C,
    ) -> Result<Standing, BeginRefusal>
        ensures rest { (self.new.fetcher ≡ self.old.fetcher) × (self.new.records ≡ self.old.records)
            × (self.new.bounds ≡ self.old.bounds) × (self.new.begun ≡ self.old.begun) }
        ensures refreshes { Behind self.old.desk (λ d. KeeperRefreshes
            (world_of (F.gives self.old.fetcher.now) (F.follows self.old.fetcher.now) (C.reads clock.now))
            d self.old.bag authority.now self.old.newcomers
            (Some result) self.new.newcomers self.new.desk self.new.bag) }
    {
        self.make_way();
        let newcomers = &mut self.newcomers;
        refresh_within(
            self.rt,
            alloc,
            authority,
            &mut self.desk,
            self.fetcher,
            clock,
            newcomers,
        )
    }

    // Whether the session made as many entries as it may.
    fn has_entries(&self) -> bool
        ensures { result ≡ has_enough self.now.bounds.entries
            (made_since self.now.begun self.now.desk) }
    {
        self.bounds
            .has_entries(self.desk.share().saturating_sub(self.begun))
    }

    /// Ends the last session, and closes the desk.
    pub fn close(self) -> Receipts<G>
        ensures { IsClosed self.entry.desk self.entry.bag result }
    {
        let DeskKeeper {
            rt,
            fetcher: _,
            records: _,
            bounds: _,
            newcomers: _,
            begun: _,
            mut desk,
            bag,
        } = self;
        bag.end(rt, &mut desk);
        desk.close()
    }
}

impl<'a, 'g, G: Gate, F: Fetcher, R: Wait, N: DeskRecords + Drop> Keeper
    for DeskKeeper<'a, 'g, G, F, R, N> {
    ghost use Rattle.std.specs.Prelude.{◌≡◌, ◌≤◌, true};
    ghost use Rattle.permit_bag.specs.Bags.{BagFinishes, BagReturns, BagStarts, IsUrlIn};
    ghost use Rattle.page_worker.specs.World.{world_of};
    ghost use Rattle.gate_lock.specs.Desks.{out_of};
    ghost use Rattle.keepers.specs.Bounding.{Bounded, BoundedFetch, RefusesAsk, RefusesFetch, RefusesRefresh, RefusesVisit, has_enough, made_since};
    ghost use Rattle.gate_core.specs.declared.refusal.AskRefusal.TheVariants as asks;
    ghost use Rattle.crawl_job.specs.declared.hop.Refusal.TheVariants as hops;
    ghost use Rattle.keepers.specs.Rooms.{InRoom, RefusesSeal};
    ghost use Rattle.keepers.specs.Counting.{AnswersSome, CountsSome};
    ghost use Rattle.keepers.specs.DeskKeeping.{Behind, KeeperAsks, KeeperEnds, KeeperFetches, KeeperReads, KeeperRefreshes, KeeperSeals, KeeperVisits};

    ghost deals = { record {
      can_fetch = λ _. true;
      schemes = λ k. F.follows k.fetcher.now;
      asks = λ k token url m result k2. ((k2.fetcher ≡ k.fetcher) × (k2.records ≡ k.records)
          × (k2.bounds ≡ k.bounds) × (k2.begun ≡ k.begun) × (k2.newcomers ≡ k.newcomers))
          × InRoom (N.rooms k.records)
          (RefusesAsk asks.LogFull k.desk k.bag result k2.desk k2.bag)
          (Bounded (has_enough k.bounds.entries (made_since k.begun k.desk))
          (RefusesAsk asks.LogFull k.desk k.bag result k2.desk k2.bag)
          (Bounded (has_enough k.bounds.permits (out_of k.desk))
          (RefusesAsk asks.PermitsFull k.desk k.bag result k2.desk k2.bag)
          (Behind k.desk (λ d. KeeperAsks d k.bag token url m result k2.desk k2.bag))));
      starts = λ k number token url m result k2. ((k2.fetcher ≡ k.fetcher) × (k2.records ≡ k.records)
          × (k2.bounds ≡ k.bounds) × (k2.begun ≡ k.begun) × (k2.newcomers ≡ k.newcomers))
          × BagStarts k.bag k.desk number token url m result k2.bag k2.desk;
      urls = λ k number url. IsUrlIn k.bag number url;
      returns = λ k number result k2. ((k2.fetcher ≡ k.fetcher) × (k2.records ≡ k.records)
          × (k2.bounds ≡ k.bounds) × (k2.begun ≡ k.begun) × (k2.newcomers ≡ k.newcomers))
          × BagReturns k.bag k.desk number result k2.bag k2.desk;
      finishes = λ k number result k2. ((k2.fetcher ≡ k.fetcher) × (k2.records ≡ k.records)
          × (k2.bounds ≡ k.bounds) × (k2.begun ≡ k.begun) × (k2.newcomers ≡ k.newcomers))
          × BagFinishes k.bag k.desk number result k2.bag k2.desk;
      counts = λ k counts. CountsSome k.desk counts;
      answers = λ k authority result. AnswersSome k.desk authority result;
      reads = λ k authority m state k2. ((k2.fetcher ≡ k.fetcher) × (k2.records ≡ k.records)
          × (k2.bounds ≡ k.bounds) × (k2.begun ≡ k.begun) × (k2.newcomers ≡ k.newcomers))
          × KeeperReads k.desk k.bag authority m state k2.desk k2.bag;
      refreshes = λ reads k authority told k2. ((k2.fetcher ≡ k.fetcher) × (k2.records ≡ k.records)
          × (k2.bounds ≡ k.bounds) × (k2.begun ≡ k.begun))
          × InRoom (N.rooms k.records)
          (RefusesRefresh k.desk k.bag k.newcomers told k2.newcomers k2.desk k2.bag)
          (Bounded (has_enough k.bounds.entries (made_since k.begun k.desk))
          (RefusesRefresh k.desk k.bag k.newcomers told k2.newcomers k2.desk k2.bag)
          (Behind k.desk (λ d. KeeperRefreshes
          (world_of (F.gives k.fetcher.now) (F.follows k.fetcher.now) reads)
          d k.bag authority k.newcomers told k2.newcomers k2.desk k2.bag)));
      fetches = λ reads k job told k2. ((k2.fetcher ≡ k.fetcher) × (k2.records ≡ k.records)
          × (k2.bounds ≡ k.bounds) × (k2.begun ≡ k.begun) × (k2.newcomers ≤ k.newcomers))
          × InRoom (N.rooms k.records)
          ((k2.newcomers ≡ k.newcomers)
          × RefusesFetch hops.LogFull k.desk k.bag told k2.desk k2.bag)
          (Bounded (has_enough k.bounds.entries (made_since k.begun k.desk))
          (RefusesFetch hops.LogFull k.desk k.bag told k2.desk k2.bag)
          (BoundedFetch k.newcomers k.desk job
          (λ d. RefusesFetch hops.AuthoritiesFull d k.bag told k2.desk k2.bag)
          (λ d. Behind d (λ d1. KeeperFetches
          (world_of (F.gives k.fetcher.now) (F.follows k.fetcher.now) reads)
          d1 k.bag job told k2.desk k2.bag))));
      visits = λ reads k job told k2. ((k2.fetcher ≡ k.fetcher) × (k2.records ≡ k.records)
          × (k2.bounds ≡ k.bounds) × (k2.begun ≡ k.begun) × (k2.newcomers ≤ k.newcomers))
          × InRoom (N.rooms k.records)
          ((k2.newcomers ≡ k.newcomers)
          × RefusesVisit hops.LogFull k.desk k.bag told k2.desk k2.bag)
          (Bounded (has_enough k.bounds.entries (made_since k.begun k.desk))
          ((k2.newcomers ≡ k.newcomers)
          × RefusesVisit hops.LogFull k.desk k.bag told k2.desk k2.bag)
          (Behind k.desk (λ d. KeeperVisits
          (world_of (F.gives k.fetcher.now) (F.follows k.fetcher.now) reads)
          d k.bag job k.newcomers told k2.newcomers k2.desk k2.bag)));
      seals = λ k result k2. ((k2.fetcher ≡ k.fetcher) × (k2.records ≡ k.records)
          × (k2.bounds ≡ k.bounds) × (k2.begun ≡ k.begun) × (k2.newcomers ≡ k.newcomers))
          × InRoom (N.rooms k.records) (RefusesSeal k.desk k.bag result k2.desk k2.bag)
          (N.seals k.records k.desk result k2.desk
          × KeeperSeals k.desk k.bag result k2.desk k2.bag);
      ends = λ k k2. ((k2.fetcher ≡ k.fetcher)
          × (k2.records ≡ k.records) × (k2.bounds ≡ k.bounds)
          × (k2.newcomers ≡ k.bounds.authorities) × (made_since k2.begun k2.desk ≡ 0))
          × KeeperEnds k.desk k.bag k2.desk k2.bag;
    } };

    fn can_fetch(&self) -> bool {
        true
    }

    fn schemes(&self) -> Schemes {
        self.fetcher.schemes()
    }

    fn ask(&mut self, token: Token, url: PageUrl, moment: u64) -> Result<PermitNo, AskRefusal> {
        if !self.records.has_room() || self.has_entries() {
            return Err(AskRefusal::LogFull);
        }
        if self.bounds.has_permits(self.desk.out()) {
            return Err(AskRefusal::PermitsFull);
        }
        self.ask_desk(token, url, moment)
    }

    fn start(
        &mut self,
        number: PermitNo,
        token: &Token,
        url: PageUrl,
        moment: u64,
    ) -> Result<Reason, Denial> {
        self.bag
            .start(self.rt, number, token, url, &mut self.desk, moment)
    }

    fn url_of(&self, number: PermitNo) -> Option<&PageUrl> {
        self.bag.url_of(number)
    }

    fn back(&mut self, number: PermitNo) -> Result<(), NotOut> {
        self.bag.back(self.rt, number, &mut self.desk)
    }

    fn finish(&mut self, number: PermitNo) -> Result<(), NotOut> {
        self.bag.finish(self.rt, number, &mut self.desk)
    }

    fn counts(&self) -> Counts {
        counts_of(self.desk.lend(self.rt).book())
    }

    fn answer(
        &self,
        alloc: Global,
        authority: &Authority,
    ) -> Result<Option<StandingAnswer>, NoMemory> {
        standing_answer(alloc, self.desk.lend(self.rt).book(), authority)
    }

    fn state(&mut self, authority: &Authority, moment: u64) -> State {
        self.desk.state_of(self.rt, authority.text(), moment)
    }

    fn refresh<C: Clock>(
        &mut self,
        alloc: Global,
        authority: &Authority,
        clock: &C,
    ) -> Option<Result<Standing, BeginRefusal>> {
        if !self.records.has_room() || self.has_entries() {
            return Some(Err(BeginRefusal::LogFull));
        }
        Some(self.refresh_desk(alloc, authority, clock))
    }

    fn fetch<C: Clock>(
        &mut self,
        alloc: Global,
        job: Job,
        clock: &C,
    ) -> Option<Result<Outcome, NoMemory>> {
        if !self.records.has_room() || self.has_entries() {
            return Some(refused_fetch(alloc, Refusal::LogFull));
        }
        if self.newcomers == 0 && is_unknown(self.rt, &mut self.desk, job.url.authority()) {
            return Some(refused_fetch(alloc, Refusal::AuthoritiesFull));
        }
        Some(self.fetch_desk(alloc, job, clock))
    }

    fn visit<C: Clock>(
        &mut self,
        alloc: Global,
        job: Job,
        fields: &ForwardedFields<'_>,
        clock: &C,
    ) -> Option<Visited> {
        if !self.records.has_room() || self.has_entries() {
            let refused = PageVisit::without(Hop::Err(Refusal::LogFull));
            return Some(Visited::Done(refused));
        }
        Some(self.visit_desk(alloc, job, fields, clock))
    }

    /// The records seal at the desk, if they have room.
    fn seal(&mut self) -> Result<Segment, NoMemory> {
        if !self.records.has_room() {
            return Err(NoMemory);
        }
        self.records.seal(self.rt, &mut self.desk)
    }

    fn end(&mut self) {
        self.bag.clear(self.rt, &mut self.desk);
        self.newcomers = self.bounds.authorities;
        self.begun = self.desk.share();
    }
}
