//! A front of HTTP: what a request asks of the gate, and how it is answered.
//! RFC 9110 and RFC 9112; RFC 9209 for `Proxy-Status`.
#![tactic(auto)]

mod asked;
mod causes;
mod credentials;
mod deferring;
mod door;
mod fields;
mod forwarding;
mod front;
mod hosts;
mod metrics;
mod own_answers;
mod passing;
mod proxy_status;
mod reading;
mod targets;
mod telling;
mod told;

pub use asked::{CutRule, Misasked, PageWish, TargetForm, Wish};
pub use door::SiteDoor;
pub use forwarding::Forwarding;
pub use front::{Front, front_config};
pub use metrics::Metrics;
pub use reading::read_request;
pub use told::{Later, OwnAnswer, Told};
