//! `Keeper`: makes a session's calls, and knows its permits.
ghost use Rattle.std.specs.Prelude.{◌≡◌};
ghost use Rattle.std.specs.Option.{option_copied};

use crate::counts::Counts;
use authority_cache::StandingAnswer;
use crawl_job::{Job, Outcome};
use gate_core::{AskRefusal, BeginRefusal, Denial, NoMemory, Standing, State};
use gate_history::{Reason, Segment};
use http_wire::ForwardedFields;
use page_worker::{Clock, Visited};
use path_normal::{Authority, PageUrl, Schemes};
use permit_book::{NotOut, PermitNo};
use robots_text::Token;
use std::alloc::Global;

/// Makes the calls of one session after the other. Moments are in seconds, and may go back.
pub trait Keeper {
    ghost use Rattle.keepers.specs.Deals.{Deals};

    /// The effect and the answer of each call.
    ghost deals: { Deals Self };

    /// Whether it refreshes and fetches.
    fn can_fetch(&self) -> bool
        ensures { result ≡ deals.can_fetch self.now };

    /// The schemes of its pages and authorities.
    fn schemes(&self) -> Schemes
        ensures { result ≡ deals.schemes self.now };

    /// Asks for a permit to fetch the page once under the token.
    fn ask(&mut self, token: Token, url: PageUrl, moment: u64) -> Result<PermitNo, AskRefusal>
        ensures { deals.asks self.old token url moment result self.new };

    /// Starts the fetch of the session's permit of this number, token and URL, which it spends.
    fn start(
        &mut self,
        number: PermitNo,
        token: &Token,
        url: PageUrl,
        moment: u64,
    ) -> Result<Reason, Denial>
        ensures { deals.starts self.old number token.now url moment result self.new };

    /// The URL of the session's permit of this number, if it may start one.
    fn url_of(&self, number: PermitNo) -> Option<&PageUrl>
        ensures { deals.urls self.now number (option_copied result) };

    /// Gives back the session's permit of this number.
    fn back(&mut self, number: PermitNo) -> Result<(), NotOut>
        ensures { deals.returns self.old number result self.new };

    /// Ends the session's fetch of this number.
    fn finish(&mut self, number: PermitNo) -> Result<(), NotOut>
        ensures { deals.finishes self.old number result self.new };

    /// How much the gate keeps.
    fn counts(&self) -> Counts
        ensures { deals.counts self.now result };

    /// The answer for an authority, of any age. Allocates its name, not its text.
    fn answer(
        &self,
        alloc: Global,
        authority: &Authority,
    ) -> Result<Option<StandingAnswer>, NoMemory>
        ensures { deals.answers self.now authority.now result };

    /// What is known of an authority.
    fn state(&mut self, authority: &Authority, moment: u64) -> State
        ensures { deals.reads self.old authority.now moment result self.new };

    /// Fetches the robots.txt of an authority, whose answer is then in force. None if it fetches nothing.
    fn refresh<C: Clock>(
        &mut self,
        alloc: Global,
        authority: &Authority,
        clock: &C,
    ) -> Option<Result<Standing, BeginRefusal>>
        ensures { deals.refreshes (C.reads clock.now) self.old authority.now result self.new };

    /// Fetches the page of a job, and follows its redirects. None if it fetches nothing.
    fn fetch<C: Clock>(
        &mut self,
        alloc: Global,
        job: Job,
        clock: &C,
    ) -> Option<Result<Outcome, NoMemory>>
        ensures { deals.fetches (C.reads clock.now) self.old job result self.new };

    /// Fetches the page of a job once, with these fields of a client's request, and hands out its response; no
    /// redirect is followed. It does not wait for a robots.txt that is being fetched for another. None if it
    /// fetches nothing.
    fn visit<C: Clock>(
        &mut self,
        alloc: Global,
        job: Job,
        fields: &ForwardedFields<'_>,
        clock: &C,
    ) -> Option<Visited>
        ensures { deals.visits (C.reads clock.now) self.old job result self.new };

    /// Hands out the gate's entries since the last seal, of all sessions, with what they follow.
    fn seal(&mut self) -> Result<Segment, NoMemory>
        ensures { deals.seals self.old result self.new };

    /// Gives back and finishes all that the session has out, so that the next one may begin.
    fn end(&mut self)
        ensures { deals.ends self.old self.new };
}
