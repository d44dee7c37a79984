//! How long a stream may wait: the deadline of a fetch, and streams whose reads and writes have a limit. The
//! clients of sites and the server of clients stand on it.
#![tactic(auto)]

mod deadline;
mod waits;

pub use deadline::Deadline;
pub use waits::Waits;
