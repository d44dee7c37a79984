//! The events that workers report while they do a job.
//! For watchers of a crawl: a table, a progress line, the closed sites.

use crawl_job::Hop;
use fetchers::ClosedBy;
use http_client::Failure;
use path_normal::PageUrl;
use robots_text::Token;

/// The next event of a job.
#[derive(Clone, Copy)]
pub enum Event<'a> {
    /// A hop begins, after this many others: a page under a token.
    Begins {
        before: u64,
        token: &'a Token,
        url: &'a PageUrl,
    },
    /// The fetch of the authority's robots.txt begins.
    AsksRobots(&'a str),
    /// That fetch has ended with an answer for the authority, and with what closed it, if it did.
    Brought(&'a str, Option<ClosedBy>),
    /// An answer for the authority is known, or none will come.
    Answered(&'a str),
    /// The fetch of the hop's page begins.
    Fetches,
    /// The fetch has ended; with this failure, if its device failed.
    Fetched(Option<Failure>),
    /// A hop ended. A job's last hop may be a redirect that is not followed, which has no begin of its own.
    Ends(&'a Hop),
}

/// Receives a job's events while a worker does it.
pub trait EventObserver {
    /// The next event.
    fn sees(&self, event: Event<'_>);

    /// A page of this authority is to be fetched. Returns once its fetch may begin.
    fn awaits_turn(&self, _authority: &str) {}

    /// The fetch of this authority's robots.txt, or of a robots redirect to this authority, begins.
    fn begins_at(&self, _authority: &str) {}
}

impl EventObserver for () {
    fn sees(&self, _event: Event<'_>) {}
}
