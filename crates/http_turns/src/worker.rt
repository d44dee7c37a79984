//! What a worker serves clients of HTTP with.

use crate::budget::AnswerBudget;
use http_server::Config;
use journal::CatchesUp;
use std::alloc::Global;
use std::hash::RandomState;

/// What a worker serves clients of HTTP with: its own service, of which nothing is out between two requests.
#[derive(Drop)]
pub struct HttpWorker<'w, S, A: CatchesUp> {
    pub alloc: Global,
    /// The keys of the tables of headers, whose names clients choose.
    pub keys: RandomState,
    /// The limits of connections. `max_pending` is 0: a request is answered once the answer before it is sent.
    pub config: Config,
    /// What answers requests.
    pub service: S,
    /// What has to have caught up before an answer is sent, such as the journal.
    pub ahead: &'w A,
    /// Counts the octets of answers that wait for their clients.
    pub budget: &'w AnswerBudget,
    /// How many milliseconds a client is waited for between two requests, or for room to send to it.
    pub patience: u64,
}
