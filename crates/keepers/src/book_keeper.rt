//! `BookKeeper`: a book alone keeps the permits; nothing is fetched.
ghost use Rattle.std.specs.Prelude.{◌≡◌};

use crate::answers::standing_answer;
use crate::counts::{Counts, counts_of};
use crate::keeper::Keeper;
use authority_cache::StandingAnswer;
use crawl_job::{Job, Outcome};
use gate_core::{AskRefusal, BeginRefusal, Book, Denial, NoMemory, Standing, Started, State};
use gate_history::{Reason, Segment};
use http_wire::ForwardedFields;
use page_worker::{Clock, Visited};
use path_normal::{Authority, PageUrl, Schemes};
use permit_book::{NotOut, PermitNo};
use robots_text::Token;
use std::alloc::Global;

/// A book lent for one session after the other. A session may spend what another left out, and gives
/// nothing back at its end: the book holds the permits of all.
#[derive(Drop)]
pub struct BookKeeper<'a> {
    book: &'a mut Book,
}

impl<'a> BookKeeper<'a> {
    /// A keeper over the book.
    pub fn new(book: &'a mut Book) -> BookKeeper<'a>
        ensures { result.book ≡ book.entry }
    {
        BookKeeper { book }
    }
}

impl<'a> Keeper for BookKeeper<'a> {
    ghost use Rattle.std.specs.Prelude.{◌≡◌, false};
    ghost use Rattle.gate_core.specs.Gate.{history};
    ghost use Rattle.gate_core.specs.PermitUrls.{IsPermitUrl};
    ghost use Rattle.gate_core.specs.Replies.{Asks, Finishes, Returns};
    ghost use Rattle.gate_core.specs.Sealing.{Seals};
    ghost use Rattle.path_normal.specs.declared.schemes.Schemes.TheVariants.{Http};
    ghost use Rattle.keepers.specs.BookKeeping.{BookReads, BookStarts, OffersNone};
    ghost use Rattle.keepers.specs.Counting.{TellsAnswer, counts_of};

    ghost deals = { record {
      can_fetch = λ _. false;
      schemes = λ _. Http;
      asks = λ k token url m result k2. (k2.book.ghost_name ≡ k.book.ghost_name)
          × Asks k.book.now token url m result k2.book.now;
      starts = λ k number token url m result k2. (k2.book.ghost_name ≡ k.book.ghost_name)
          × BookStarts k.book.now number token url m result k2.book.now;
      urls = λ k number url. IsPermitUrl (history k.book.now) number url;
      returns = λ k number result k2. (k2.book.ghost_name ≡ k.book.ghost_name)
          × Returns k.book.now number result k2.book.now;
      finishes = λ k number result k2. (k2.book.ghost_name ≡ k.book.ghost_name)
          × Finishes k.book.now number result k2.book.now;
      counts = λ k counts. counts ≡ counts_of k.book.now;
      answers = λ k authority result. TellsAnswer k.book.now authority result;
      reads = λ k authority m state k2. (k2.book.ghost_name ≡ k.book.ghost_name)
          × BookReads k.book.now authority m state k2.book.now;
      refreshes =
          λ _ k _ result k2. (k2.book.ghost_name ≡ k.book.ghost_name) × OffersNone k.book.now result k2.book.now;
      fetches = λ _ k _ result k2. (k2.book.ghost_name ≡ k.book.ghost_name) × OffersNone k.book.now result k2.book.now;
      visits = λ _ k _ result k2. (k2.book.ghost_name ≡ k.book.ghost_name) × OffersNone k.book.now result k2.book.now;
      seals = λ k result k2. (k2.book.ghost_name ≡ k.book.ghost_name) × Seals k.book.now result k2.book.now;
      ends = λ k k2. k2 ≡ k;
    } };

    fn can_fetch(&self) -> bool {
        false
    }

    fn schemes(&self) -> Schemes {
        Schemes::Http
    }

    fn ask(&mut self, token: Token, url: PageUrl, moment: u64) -> Result<PermitNo, AskRefusal> {
        self.book.ask(token, url, moment)
    }

    fn start(
        &mut self,
        number: PermitNo,
        token: &Token,
        url: PageUrl,
        moment: u64,
    ) -> Result<Reason, Denial> {
        match self.book.start(number, token, url, moment) {
            Ok(Started { reason, .. }) => Ok(reason),
            Err(denial) => Err(denial),
        }
    }

    fn url_of(&self, number: PermitNo) -> Option<&PageUrl> {
        self.book.url_of(number)
    }

    fn back(&mut self, number: PermitNo) -> Result<(), NotOut> {
        self.book.back(number)
    }

    fn finish(&mut self, number: PermitNo) -> Result<(), NotOut> {
        self.book.finish(number)
    }

    fn counts(&self) -> Counts {
        counts_of(self.book)
    }

    fn answer(
        &self,
        alloc: Global,
        authority: &Authority,
    ) -> Result<Option<StandingAnswer>, NoMemory> {
        standing_answer(alloc, self.book, authority)
    }

    fn state(&mut self, authority: &Authority, moment: u64) -> State {
        self.book.state_of(authority.text(), moment)
    }

    fn refresh<C: Clock>(
        &mut self,
        _alloc: Global,
        _authority: &Authority,
        _clock: &C,
    ) -> Option<Result<Standing, BeginRefusal>> {
        None
    }

    fn fetch<C: Clock>(
        &mut self,
        _alloc: Global,
        _job: Job,
        _clock: &C,
    ) -> Option<Result<Outcome, NoMemory>> {
        None
    }

    fn visit<C: Clock>(
        &mut self,
        _alloc: Global,
        _job: Job,
        _fields: &ForwardedFields<'_>,
        _clock: &C,
    ) -> Option<Visited> {
        None
    }

    fn seal(&mut self) -> Result<Segment, NoMemory> {
        self.book.seal()
    }

    fn end(&mut self) {}
}
