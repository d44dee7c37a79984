//! The program's commands over the standard streams, except a shift and a server, and its endings.
//! docs/crawlgate.1.md is the program's manual page.
#![tactic(auto)]

mod asked;
mod audit_result;
mod audits;
mod books;
mod checks;
mod ending;
mod journals;
mod message;
mod next;
mod reasoned;
mod records;
mod replays;
mod robots_file;
mod server_line;
mod streams;
mod telling;

pub use asked::run;
pub use books::new_book;
pub use ending::Ending;
pub use journals::{
    tell_bad_folder, tell_bad_journal, tell_begins_alone, tell_clock_set_back, tell_failed_base,
    tell_failed_journal, tell_few_slots, tell_full_journal, tell_left_alone, tell_misplaced,
    tell_no_room_to_end, tell_short_journal, tell_torn_line, tell_unread_journal,
    tell_without_base,
};
pub use message::Message;
pub use next::Next;
pub use reasoned::Reasoned;
pub use server_line::ServerLine;
pub use streams::Stream;
pub use telling::{
    tell_bad_line, tell_bad_pipe, tell_ending, tell_failed, tell_full_log, tell_http, tell_http_at,
    tell_listening, tell_listening_at, tell_no_pipe, tell_no_place, tell_sealing, tell_sealing_at,
    tell_served, tell_usual_end,
};
