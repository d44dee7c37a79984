//! A crawler's job and its outcome.
ghost use Rattle.std.specs.Prelude.{◌≡◌, IfOk};

use crate::hop::Hop;
use path_normal::PageUrl;
use robots_text::Token;
use std::alloc::AllocError;

/// A page to fetch under a crawler's product token (RFC 9309, 2.2.1).
#[derive(Drop)]
pub struct Job {
    pub token: Token,
    pub url: PageUrl,
}

impl Job {
    /// A copy. It allocates its token and URL.
    pub fn copy(&self) -> Result<Job, AllocError>
        ensures token { IfOk result (λ job. job.token ≡ self.now.token) }
        ensures url { IfOk result (λ job. job.url ≡ self.now.url) }
    {
        Ok(Job {
            token: self.token.copy()?,
            url: self.url.copy()?,
        })
    }
}

/// A job's outcome: its hops in order, at least one, and the last page's octets.
#[derive(Drop)]
pub struct Outcome {
    pub hops: Vec<Hop>,
    /// The last hop's body, at most 1,048,576 octets; empty if it is no page.
    pub body: Vec<u8>,
}
