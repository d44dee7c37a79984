//! The arguments of the program's command line, and the options that they set.
//! See docs/crawlgate.1.md.
#![tactic(auto)]

mod arguments;
mod checked;
mod command;
mod contact;
mod fetching;
mod help;
mod http;
mod journal_options;
mod number_arguments;
mod number_options;
mod numbers;
mod places;
mod refusal;
mod subcommand;
mod tls;
mod word_arguments;
mod word_fault;
mod words;

pub use subcommand::{
    Ahead, BadJobs, CheckDetail, CheckOptions, CheckedText, CheckedUrls, ClientFields, Contact,
    HttpOptions, JournalOptions, ListenAddress, Notes, PageConnections, ReplayOptions, RetryAfter,
    ServeOptions, ShiftOptions, ShiftOutput, Subcommand,
};
pub use words::options;
