//! Tests of a gate's desks. Rows of the built program show its replies call by call, and cases of checks/serve
//! its desks among threads.
//! RFC 9309, sections 2.2 to 2.4.

mod desk_calls;
mod entries;
mod gates;
mod indexes;
mod judged;
mod limits;
mod resumed;
mod verdicts;
