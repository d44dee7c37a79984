//! A keeper whose visits are written, and which tells under which token and to what it was sent.

use authority_cache::StandingAnswer;
use crawl_job::{Hop, Job, Outcome, Refusal};
use gate_core::{AskRefusal, BeginRefusal, Denial, NoMemory, Standing, State};
use gate_history::{Cause, Reason, Segment};
use http_client::Failure;
use http_front::Metrics;
use http_wire::{ForwardedFields, HttpReply, WireFault};
use keepers::{Counts, Keeper};
use page_worker::{Clock, PageVisit, Visited};
use path_normal::{Authority, PageUrl, Schemes};
use permit_book::{NotOut, PermitNo};
use robots_text::Token;
use std::alloc::{AllocError, Global};

/// What each visit comes to.
#[derive(Clone, Copy)]
pub(super) enum Scene {
    /// A page: its status, its head's fields, its body, and whether it is cut.
    Page(u16, &'static str, &'static str, bool),
    No(Cause),
    Fault(WireFault, Option<Failure>),
    Err(Refusal),
    /// Another desk fetches the robots.txt.
    InFlight,
    /// The keeper fetches nothing.
    Nothing,
}

/// A keeper with such visits.
#[derive(Drop)]
pub(super) struct Script {
    pub(super) alloc: Global,
    pub(super) scene: Scene,
    /// A line for each visit: its token and its URL.
    pub(super) visits: Vec<u8>,
}

impl Script {
    fn note(&mut self, job: &Job) -> Result<(), AllocError> {
        self.visits.extend_from_slice(job.token.text().as_bytes())?;
        self.visits.push(b' ')?;
        self.visits.extend_from_slice(job.url.text().as_bytes())?;
        Ok(self.visits.push(b'\n')?)
    }

    fn hop(&self, url: PageUrl) -> Hop {
        match self.scene {
            Scene::Page(status, _, body, cut) => Hop::Page {
                number: PermitNo::new(65_536),
                reason: Reason::Line(3),
                status,
                length: body.len() as u64,
                cut,
            },
            Scene::No(cause) => Hop::No(Denial { url, cause }),
            Scene::Fault(fault, _) => Hop::Fault {
                number: PermitNo::new(65_536),
                fault,
            },
            Scene::Err(refusal) => Hop::Err(refusal),
            Scene::InFlight | Scene::Nothing => Hop::Err(Refusal::LogFull),
        }
    }

    fn reply(&self) -> Result<Option<HttpReply>, AllocError> {
        let Scene::Page(status, fields, body, cut) = self.scene else {
            return Ok(None);
        };
        let mut head = Vec::from_slice(self.alloc, b"HTTP/1.1 200 OK\r\n")?;
        head.extend_from_slice(octets_of(self.alloc, fields)?.as_slice())?;
        head.extend_from_slice(b"\r\n")?;
        Ok(Some(HttpReply {
            status,
            location: None,
            max_age: None,
            head,
            body: Vec::from_slice(self.alloc, body.as_bytes())?,
            cut,
        }))
    }

    fn failure(&self) -> Option<Failure> {
        match self.scene {
            Scene::Fault(_, failure) => failure,
            _ => None,
        }
    }
}

/// The octets of a row's text.
pub(super) fn octets_of(alloc: Global, text: &str) -> Result<Vec<u8>, AllocError> {
    let mut octets = Vec::new(alloc);
    for octet in text.as_bytes() {
        match *octet {
            b'|' => octets.extend_from_slice(b"\r\n")?,
            b'~' => octets.push(0xFF)?,
            other => octets.push(other)?,
        }
    }
    Ok(octets)
}

/// The number of a gate's authorities, for metrics.
#[derive(Clone, Copy)]
pub(super) struct Numbers;

impl Metrics for Numbers {
    ghost tells = { λ _ _ _. Unit {0} };

    fn text(&self, alloc: Global, counts: Counts) -> Result<Vec<u8>, AllocError> {
        let text = format!(in alloc; "crawlgate_authorities {}\n", counts.authorities)?;
        Ok(text.into_bytes())
    }
}

impl Keeper for Script {
    ghost deals = { record {
      can_fetch = λ _. true;
      schemes = λ _. HttpAndHttps;
      asks = λ _ _ _ _ _ _. Unit {0};
      starts = λ _ _ _ _ _ _ _. Unit {0};
      urls = λ _ _ _. Unit {0};
      returns = λ _ _ _ _. Unit {0};
      finishes = λ _ _ _ _. Unit {0};
      counts = λ _ _. Unit {0};
      answers = λ _ _ _. Unit {0};
      reads = λ _ _ _ _ _. Unit {0};
      refreshes = λ _ _ _ _ _. Unit {0};
      fetches = λ _ _ _ _ _. Unit {0};
      visits = λ _ _ _ _ _. Unit {0};
      seals = λ _ _ _. Unit {0};
      ends = λ _ _. Unit {0};
    } };

    ghost use Rattle.std.specs.Prelude.{true};
    ghost use Rattle.path_normal.specs.declared.schemes.Schemes.TheVariants.{HttpAndHttps};

    fn can_fetch(&self) -> bool {
        true
    }

    fn schemes(&self) -> Schemes {
        Schemes::HttpAndHttps
    }

    fn ask(&mut self, _: Token, _: PageUrl, _: u64) -> Result<PermitNo, AskRefusal> {
        Err(AskRefusal::LogFull)
    }

    fn start(&mut self, _: PermitNo, _: &Token, url: PageUrl, _: u64) -> Result<Reason, Denial> {
        Err(Denial {
            url,
            cause: Cause::Spent,
        })
    }

    fn url_of(&self, _: PermitNo) -> Option<&PageUrl> {
        None
    }

    fn back(&mut self, _: PermitNo) -> Result<(), NotOut> {
        Err(NotOut)
    }

    fn finish(&mut self, _: PermitNo) -> Result<(), NotOut> {
        Err(NotOut)
    }

    fn counts(&self) -> Counts {
        Counts {
            entries: 0,
            ever: 0,
            starts: 0,
            permits: 0,
            running: 0,
            turns: 0,
            authorities: 7,
            room: 0,
        }
    }

    fn answer(&self, _: Global, _: &Authority) -> Result<Option<StandingAnswer>, NoMemory> {
        Ok(None)
    }

    fn state(&mut self, _: &Authority, _: u64) -> State {
        State {
            word: Standing::Unknown,
            fetching: false,
        }
    }

    fn refresh<C: Clock>(
        &mut self,
        _: Global,
        _: &Authority,
        _: &C,
    ) -> Option<Result<Standing, BeginRefusal>> {
        None
    }

    fn fetch<C: Clock>(&mut self, _: Global, _: Job, _: &C) -> Option<Result<Outcome, NoMemory>> {
        None
    }

    fn visit<C: Clock>(
        &mut self,
        _: Global,
        job: Job,
        _: &ForwardedFields<'_>,
        _: &C,
    ) -> Option<Visited> {
        if matches!(self.scene, Scene::Nothing) {
            return None;
        }
        if self.note(&job).is_err() {
            return None;
        }
        if matches!(self.scene, Scene::InFlight) {
            return Some(Visited::InFlight);
        }
        let Ok(reply) = self.reply() else {
            return None;
        };
        Some(Visited::Done(PageVisit {
            hop: self.hop(job.url),
            reply,
            failure: self.failure(),
        }))
    }

    fn seal(&mut self) -> Result<Segment, NoMemory> {
        Err(NoMemory)
    }

    fn end(&mut self) {}
}
