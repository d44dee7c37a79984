//! The hops in progress, and what is known of each until it ends.
use crate::hop_row::HopRow;
use crawl_job::Hop;
use fetchers::ClosedBy;
use http_client::Failure;
use job_line::MAX_WORKERS;
use path_normal::PageUrl;
use robots_text::Token;
use std::alloc::{AllocError, Global};
use std::time::Instant;

/// A place for each running job's hop.
#[derive(Drop)]
pub(crate) struct UnderWay {
    places: Vec<Place>,
}

/// The current hop of a job.
#[derive(Drop)]
pub(crate) struct Place {
    // The job, from 0, if the place is taken.
    job: Option<u64>,
    // Its ended hops.
    ended: u64,
    token: String,
    url: String,
    begun: Option<Instant>,
    milliseconds: Option<u64>,
    failure: Option<Failure>,
}

impl UnderWay {
    /// No job is running. There is a place for each worker.
    pub(crate) fn new(alloc: Global) -> Result<UnderWay, AllocError> {
        let mut places = Vec::with_capacity(alloc, MAX_WORKERS as usize)?;
        for _ in 0..MAX_WORKERS {
            places.push(Place {
                job: None,
                ended: 0,
                token: String::new(alloc),
                url: String::new(alloc),
                begun: None,
                milliseconds: None,
                failure: None,
            })?;
        }
        Ok(UnderWay { places })
    }

    /// The place of a running job.
    pub(crate) fn at(&mut self, job: u64) -> Option<&mut Place> {
        self.places.iter_mut().find(|place| place.job == Some(job))
    }

    /// A job begins a hop at this page, after this many others.
    pub(crate) fn begin(&mut self, job: u64, before: u64, token: &Token, url: &PageUrl) {
        let found = self
            .places
            .iter()
            .position(|place| place.job == Some(job))
            .or(self.places.iter().position(|place| place.job.is_none()));
        if let Some(place) = found.and_then(|index| self.places.get_mut(index)) {
            place.job = Some(job);
            place.ended = before;
            place.forget();
            copy_text(&mut place.token, token.text());
            copy_text(&mut place.url, url.text());
        }
    }

    /// A job is done.
    pub(crate) fn leave(&mut self, job: u64) {
        if let Some(place) = self.at(job) {
            place.job = None;
        }
    }
}

impl Place {
    /// The fetch of its page begins, at this moment if known.
    pub(crate) fn fetch(&mut self, now: Option<Instant>) {
        self.begun = now;
    }

    /// The fetch ends, with its device's failure if there was one.
    pub(crate) fn end_fetch(&mut self, now: Option<Instant>, failure: Option<Failure>) {
        self.failure = failure;
        if let (Some(begun), Some(now)) = (self.begun, now) {
            let spent = now.saturating_duration_since(begun);
            self.milliseconds = u64::try_from(spent.as_millis()).ok();
        }
    }

    /// A hop ended; this closed its site.
    pub(crate) fn row<'a>(&'a mut self, end: &'a Hop, closed_by: Option<ClosedBy>) -> HopRow<'a> {
        self.ended = self.ended.saturating_add(1);
        let (milliseconds, failure) = (self.milliseconds, self.failure);
        self.forget();
        HopRow {
            job: self.job.map_or(0, |job| job.saturating_add(1)),
            hop: self.ended,
            token: self.token.as_str(),
            url: self.url.as_str(),
            end,
            milliseconds,
            failure,
            closed_by,
        }
    }

    // Forgets the fetch.
    fn forget(&mut self) {
        self.begun = None;
        self.milliseconds = None;
        self.failure = None;
    }
}

// Out of memory leaves the text empty.
fn copy_text(text: &mut String, of: &str) {
    text.clear();
    let _ = text.push_str(of);
}
