//! The sites that their robots.txt files closed in a shift, and why, reported once each.
ghost use Rattle.std.specs.Prelude.{◌≡◌, ◌++◌};
ghost use Rattle.line_text.specs.Pieces.{pieces_text};
ghost use Rattle.fetchers.specs.CauseText.{words_text};
ghost use Rattle.crawl_shift.specs.ClosedText.{closed_site_text};

use crate::causes::robots_words;
use counted_io::{DeviceFault, Output, Sink};
use crawl_job::{Job, Outcome};
use crawl_workers::Watcher;
use fetchers::{CauseWords, ClosedBy};
use http_client::Failure;
use line_text::{AsPieces, Piece, Pieces, push_each};
use page_worker::Event;
use std::alloc::{AllocError, Global};
use std::sync::{Mutex, Wait};

/// A watcher for closed sites. Its lock is taken only by a worker that holds no other lock.
#[derive(Drop)]
pub struct ClosedSites<'a, R: Wait> {
    rt: &'a R,
    alloc: Global,
    sites: Mutex<Vec<ClosedSite>>,
}

/// A site, and what closed it last.
#[derive(Drop)]
pub(crate) struct ClosedSite {
    pub(crate) authority: String,
    pub(crate) by: ClosedBy,
}

impl<'a, R: Wait> ClosedSites<'a, R> {
    /// No closed sites.
    pub fn new(rt: &'a R, alloc: Global) -> ClosedSites<'a, R> {
        ClosedSites {
            rt,
            alloc,
            sites: Mutex::new(Vec::new(alloc)),
        }
    }

    /// Writes a line for each site, in the order of closing.
    pub fn tell<E: Sink>(self, errors: &mut E) -> Result<(), DeviceFault> {
        let mut output = Output::new(self.alloc).map_err(|_| DeviceFault)?;
        push_each(self.sites.into_inner().as_slice(), &mut output, errors)?;
        output.flush(errors)
    }
}

impl<R: Wait> Watcher for ClosedSites<'_, R> {
    fn sees(&self, _number: u64, event: Event<'_>) {
        match event {
            // A fetch that was given up says nothing of its site.
            Event::Brought(_, Some(ClosedBy::Fault(_, Some(Failure::Stopped)))) => {}
            Event::Brought(authority, Some(by)) => {
                // (a site is left out if there is no memory for it)
                let _ = keep(self.alloc, &mut self.sites.lock(self.rt), authority, by);
            }
            _ => {}
        }
    }

    fn done(&self, _number: u64, _job: &Job, _outcome: &Outcome) {}
}

// Keeps what closed a site, replacing an earlier cause.
fn keep(
    alloc: Global,
    sites: &mut Vec<ClosedSite>,
    authority: &str,
    by: ClosedBy,
) -> Result<(), AllocError> {
    let found = sites
        .iter()
        .position(|site| site.authority.as_str() == authority);
    if let Some(site) = found.and_then(|index| sites.get_mut(index)) {
        site.by = by;
        return Ok(());
    }
    sites.reserve(1)?;
    let authority = String::from_str(alloc, authority)?;
    sites.push_reserved(ClosedSite { authority, by });
    Ok(())
}

impl AsPieces for ClosedSite {
    ghost use Rattle.crawl_shift.specs.ClosedText.{closed_site_text};

    ghost text = { closed_site_text };

    fn pieces(&self) -> Pieces<'_> {
        line_of(
            self.authority.as_str(),
            " is closed: ",
            robots_words(self.by),
            "\n",
        )
    }
}

// A line with a name and a cause.
fn line_of<'a>(
    name: &'a str,
    middle: &'static str,
    words: CauseWords,
    end: &'static str,
) -> Pieces<'a>
    ensures { pieces_text result ≡ name.now ++ (middle.now ++ (words_text words ++ end.now)) }
{
    Pieces::of(&[
        Piece::Text(name),
        Piece::Text(middle),
        Piece::Text(words.of),
        Piece::Text(words.text),
        words.number,
        Piece::Text(words.unit),
        Piece::Text(end),
    ])
}
