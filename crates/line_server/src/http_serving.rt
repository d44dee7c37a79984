//! Clients of HTTP, beside those that send lines: any worker of theirs serves each of them in turns.
//! What a request has had done is recorded before its answer is sent.

ghost use Rattle.std.specs.Prelude.{◌<◌, length};

use crate::fault::ServeFault;
use crate::http_metrics::ServerMetrics;
use crate::recorded::Recorded;
use crate::server::Server;
use crate::site_doors::FrontDoors;
use crate::warden::Alarm;
use command_server::NumberedClock;
use fetchers::Fetcher;
use gate_lock::{Gate, Receipts};
use http_front::{Forwarding, Front, Metrics, SiteDoor, front_config};
use http_turns::{AnswerBudget, Asker, HttpTalk, HttpWorker};
use journal::{CatchesUp, Recorder};
use keepers::{Bounds, DeskKeeper, Keeper};
use site_door::SiteDoors;
use std::alloc::AllocError;
use std::hash::RandomState;
use std::sync::Wait;
use std::thread::Threads;
use std::time;
use turns::{Dispatcher, EventLoop, LoopListener, LoopPlace, Moment, Places, Sizes};
use worker_pool::Pool;

// How many octets of a client are read at a time.
const READ_OCTETS: usize = 16_384;

/// Where clients of HTTP connect, and how they are served.
#[derive(Drop)]
pub struct HttpEntrance<'a, R: Wait + time::Clock> {
    pub listener: &'a LoopListener,
    /// What has their turns taken. The server shuts it at its end.
    pub dispatcher: &'a Dispatcher,
    /// How many connections there are at a time, and how many workers.
    pub sizes: Sizes,
    /// The keys of tables whose names clients choose.
    pub keys: RandomState,
    /// What of their requests goes to the sites.
    pub forwarding: Forwarding,
    /// Counts the octets of answers that wait for them.
    pub budget: &'a AnswerBudget,
    /// The doors to the sites that they visit.
    pub doors: &'a SiteDoors<'a, R>,
}

impl<
    F: Fetcher + Sync,
    C: NumberedClock + Sync,
    A: Alarm + Sync,
    R: Threads + Wait + time::Clock + Sync,
> Server<'_, F, C, A, R> {
    /// Serves clients of HTTP until the dispatcher is shut: the receipts of their workers' desks.
    pub(crate) fn serve_http<G: Gate + Send + Sync, J: Recorder + Sync>(
        &self,
        recorded: &Recorded<'_, G, J, R>,
        entrance: &HttpEntrance<'_, R>,
    ) -> Result<Vec<Receipts<G>>, ServeFault> {
        let Ok(places) = Places::new(self.alloc, self.talks(entrance)?) else {
            return Err(ServeFault::NoMemory);
        };
        let served = self.serve_places(recorded, entrance, places.as_slice());
        let _ = places.into_talks();
        served
    }

    // Serves these places until the dispatcher is shut.
    fn serve_places<G: Gate + Send + Sync, J: Recorder + Sync>(
        &self,
        recorded: &Recorded<'_, G, J, R>,
        entrance: &HttpEntrance<'_, R>,
        places: &[LoopPlace<HttpTalk>],
    ) -> Result<Vec<Receipts<G>>, ServeFault> {
        let HttpEntrance {
            listener,
            dispatcher,
            ..
        } = entrance;
        let Ok(event_loop) = EventLoop::new(dispatcher, listener, places) else {
            return Err(ServeFault::Device);
        };
        let workers = Pool::new(self.alloc, self.seats(entrance)?)?;
        let returned = workers.run(
            self.rt,
            &|_: HttpSeat| self.take_turns(recorded, entrance, &event_loop),
        )?;
        Ok(returned.receipts)
    }

    // A conversation for each place.
    fn talks(&self, entrance: &HttpEntrance<'_, R>) -> Result<Vec<HttpTalk>, AllocError> {
        let mut talks = Vec::with_capacity(self.alloc, entrance.sizes.places())?;
        for _ in 0..entrance.sizes.places() {
            talks.push(HttpTalk::new(self.alloc, entrance.keys, front_config()))?;
        }
        Ok(talks)
    }

    // A seat for each worker.
    fn seats(&self, entrance: &HttpEntrance<'_, R>) -> Result<Vec<HttpSeat>, AllocError> {
        let mut seats = Vec::with_capacity(self.alloc, entrance.sizes.workers())?;
        for _ in 0..entrance.sizes.workers() {
            seats.push(HttpSeat)?;
        }
        Ok(seats)
    }

    // Opens a desk, takes turns at it until the loop is over, and closes it. A worker's desk serves all of
    // these clients, so the bounds of a client are none of its.
    fn take_turns<G: Gate, J: Recorder>(
        &self,
        recorded: &Recorded<'_, G, J, R>,
        entrance: &HttpEntrance<'_, R>,
        event_loop: &EventLoop<'_, HttpTalk>,
    ) -> Result<((), Receipts<G>), ServeFault> {
        let mut buffer = Vec::from_elem(self.alloc, 0, READ_OCTETS)?;
        let fetcher = recorded.journaled(self.fetcher);
        let (records, bounds) = (recorded.records(), Bounds::none());
        let mut keeper = DeskKeeper::open_within(
            self.rt,
            self.alloc,
            recorded.gate,
            &fetcher,
            records,
            bounds,
        )?;
        self.serve_turns(
            recorded,
            entrance,
            event_loop,
            &mut keeper,
            buffer.as_mut_slice(),
        );
        Ok(((), keeper.close()))
    }

    // Takes turns with this keeper until the loop is over.
    fn serve_turns<G: Gate, J: Recorder, K: Keeper>(
        &self,
        recorded: &Recorded<'_, G, J, R>,
        entrance: &HttpEntrance<'_, R>,
        event_loop: &EventLoop<'_, HttpTalk>,
        keeper: &mut K,
        buffer: &mut [u8],
    )
        requires { 0 < length buffer.old }
    {
        let metrics = ServerMetrics {
            rt: self.rt,
            counters: &recorded.counters,
            dispatcher: entrance.dispatcher,
        };
        let ahead = recorded.caught_up();
        let door = FrontDoors {
            alloc: self.alloc,
            rt: self.rt,
            doors: entrance.doors,
            dispatcher: entrance.dispatcher,
            budget: entrance.budget,
        };
        let mut worker = self.http_worker(entrance, keeper, self.clock, &metrics, &ahead, &door);
        event_loop.work(self.rt, &mut worker, buffer);
    }

    // A worker whose front has these parts. It has one lifetime for them, so they are lent to it here for as
    // long as all of them are there.
    fn http_worker<'x, K: Keeper, M: Metrics, H: CatchesUp, D: SiteDoor>(
        &self,
        entrance: &'x HttpEntrance<'x, R>,
        keeper: &'x mut K,
        clock: &'x C,
        metrics: &'x M,
        ahead: &'x H,
        door: &'x D,
    ) -> HttpWorker<'x, Front<'x, K, D, C, M>, H> {
        let front = Front {
            alloc: self.alloc,
            keeper,
            clock,
            metrics,
            door,
            forwarding: entrance.forwarding,
            asker: Asker {
                place: 0,
                until: Moment::NEVER,
            },
            number: 0,
            later: false,
            octets: 0,
        };
        HttpWorker {
            alloc: self.alloc,
            keys: entrance.keys,
            config: front_config(),
            service: front,
            ahead,
            budget: entrance.budget,
            patience: u64::try_from(self.patience.as_millis()).unwrap_or(u64::MAX),
        }
    }
}

// The seat of a worker.
#[derive(Drop)]
struct HttpSeat;
