//! Requests written, and responses read.

mod chunks;
mod endings;
mod forwarded;
mod freshness;
mod limits;
mod reads;
mod requests;
mod responses;
mod stops;
