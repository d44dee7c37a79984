//! Command lines as calls, their replies as text, and the sessions that answer them.
//! docs/FORMATS.md has the lines, the replies and the faults.
#![tactic(auto)]

mod answerer;
mod arguments;
mod arrival;
mod book_lines;
mod buffers;
mod calls;
mod command;
mod fault;
mod hop_lines;
mod hop_text;
mod job_words;
mod known_pages;
mod line_words;
mod page_replies;
mod refusal_text;
mod reply_text;
mod reply_words;
mod seal_text;
mod session;
mod session_fault;
mod verbs;
mod why_text;

pub use answerer::{Answerer, Flow};
pub use arrival::Arrival;
pub use book_lines::{MAX_LINES, replay, replay_among};
pub use command::{Command, read_command};
pub use fault::LineFault;
pub use hop_lines::push_hops;
pub use hop_text::hop_pieces;
pub use job_words::read_job;
pub use known_pages::{Known, KnownPages};
pub use page_replies::{push_done, push_go, push_permit};
pub use refusal_text::{refusal_pieces, refusal_word};
pub use reply_text::{
    arrive_pieces, ask_pieces, back_pieces, begin_pieces, bye_pieces, denial_pieces, fault_pieces,
    finish_pieces, go_pieces, reply_pieces, state_pieces, url_pieces,
};
pub use reply_words::ReplyWords;
pub use seal_text::push_sealed;
pub use session::run_session;
pub use session_fault::SessionFault;
pub use verbs::{Dialogue, Speaker};
pub use why_text::push_why;
