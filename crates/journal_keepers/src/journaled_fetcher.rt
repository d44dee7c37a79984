//! A fetcher that first waits for something else, like a journal's recording.
//! Used by a server's sessions.
ghost use Rattle.std.specs.Prelude.{◌≡◌, Err};
ghost use Rattle.http_wire.specs.declared.fault.WireFault.{WireFault};

use counted_io::DeviceFault;
use fetchers::{FetchMeter, Fetcher, PageLeave, RobotsLeave};
use http_client::Failure;
use http_wire::{ForwardedFields, HttpReply, WireFault};
use journal::CatchesUp;
use path_normal::Schemes;
use stream_waits::Deadline;

// The number of each call: there is no place here to keep the result of one for another.
const ANY_NUMBER: u64 = 0;

/// A fetcher, and what precedes each fetch.
#[derive(Drop)]
pub struct JournaledFetcher<'a, A, F> {
    /// What comes first.
    pub ahead: A,
    /// The fetcher.
    pub fetcher: &'a F,
}

impl<'a, A: CatchesUp, F: Fetcher> Fetcher for JournaledFetcher<'a, A, F> {
    ghost use Rattle.journal_keepers.specs.Fetching.{GivesBehind};

    ghost gives = { λ behind. record {
      page_limit = (F.gives behind.fetcher.now).page_limit;
      closed_for = (F.gives behind.fetcher.now).closed_for;
      holds = λ limit url reply.
          GivesBehind (A.comes behind.ahead 0) ((F.gives behind.fetcher.now).holds limit url) reply;
    } };

    ghost follows = { λ behind. F.follows behind.fetcher.now };

    fn schemes(&self) -> Schemes {
        self.fetcher.schemes()
    }

    fn page_limit(&self) -> usize {
        self.fetcher.page_limit()
    }

    fn closed_for(&self) -> u64 {
        self.fetcher.closed_for()
    }

    fn begin_walk(&self) -> Option<Deadline> {
        self.fetcher.begin_walk()
    }

    fn stop(&self) {
        self.fetcher.stop();
    }

    fn takes_text(&self, octets: u64) -> bool {
        self.fetcher.takes_text(octets)
    }

    fn counts_texts(&self, octets: u64) {
        self.fetcher.counts_texts(octets);
    }

    fn meter(&self) -> Option<&FetchMeter> {
        self.fetcher.meter()
    }

    /// If the wait fails, nothing is fetched: a device's fault.
    fn load_page(
        &self,
        leave: PageLeave<'_>,
        fields: &ForwardedFields<'_>,
        limit: usize,
        failure: &mut Option<Failure>,
    ) -> Result<HttpReply, WireFault> {
        match self.ahead.catch_up(ANY_NUMBER) {
            Ok(()) => self.fetcher.load_page(leave, fields, limit, failure),
            Err(fault) => leave_page(leave, fault),
        }
    }

    /// Like `load_page`, for robots.txt files.
    fn load_robots(
        &self,
        leave: RobotsLeave<'_>,
        time: Option<Deadline>,
        failure: &mut Option<Failure>,
    ) -> Result<HttpReply, WireFault> {
        match self.ahead.catch_up(ANY_NUMBER) {
            Ok(()) => self.fetcher.load_robots(leave, time, failure),
            Err(fault) => leave_file(leave, fault),
        }
    }
}

// The fault of an unfetched page.
fn leave_page(leave: PageLeave<'_>, fault: DeviceFault) -> Result<HttpReply, WireFault>
    ensures { result ≡ Err WireFault.Device }
{
    leave.spend();
    Err(WireFault::from(fault))
}

// The fault of an unfetched robots.txt.
fn leave_file(leave: RobotsLeave<'_>, fault: DeviceFault) -> Result<HttpReply, WireFault>
    ensures { result ≡ Err WireFault.Device }
{
    leave.spend();
    Err(WireFault::from(fault))
}
