//! Pools of workers: one for each seat, each on its own thread and at its own desk.
//! Shifts and servers hire their workers here.
#![tactic(auto)]

mod pool;
mod slot;

pub use pool::{Pool, Returned};
