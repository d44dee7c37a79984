//! A server of lines: workers serve one client after the other, and others maintain the gate meanwhile.
//! docs/crawlgate.1.md describes it for operators.
#![tactic(auto)]

mod clerk;
mod fault;
mod http_metrics;
mod http_serving;
mod line_turns;
mod numbers;
mod overseeing;
mod recorded;
mod refetching;
mod servant;
mod server;
mod site_doors;
mod warden;

pub use fault::ServeFault;
pub use http_serving::HttpEntrance;
pub use server::{Served, Server};
pub use warden::Alarm;
