//! The subcommands with their arguments, in the order of the help, and the texts that the help has of these.
//! The command is built by this table; docs/crawlgate.1.md describes it.
use crate::help;
use crate::number_arguments::{
    AHEAD, AUTHORITIES, CLIENT_AUTHORITIES, CLIENT_ENTRIES, CLIENT_PERMITS, CLIENTS, CONNECT,
    CONNECTIONS, DELAY, DELAY_OF_SERVER, FETCH, FETCHERS, GENERATION, HTTP, HTTP_CONNECTIONS, JOBS,
    JOURNAL_ROOM, LOG, NumberArgument, PAGE_LIMIT, PATIENCE, PLACES, PORT, READ, RETRY_CLOSED,
    SEAL_PORT, SLOTS, TEXTS,
};
use crate::word_arguments::{
    CONTACT, ENDLESS, EXPLAIN, EXPORT, EXPORT_OF_SHIFT, FORWARD, HEED_RETRY_AFTER, HTTP_SOCKET,
    HTTPS, HTTPS_PAGES, JOURNAL, JOURNAL_OF_SHIFT, JOURNAL_SYNC, KEEP_ALIVE, NOT_TO, NOTES, PUBLIC,
    ROBOTS, SEAL_SOCKET, SKIP, SOCKET, TLS_BY, TOKEN, TSV, UNTIL, URL, WordArgument,
};
use std::alloc::{AllocError, Global};

/// An argument of a subcommand.
#[derive(Clone, Copy)]
pub(crate) enum Argument {
    Number(NumberArgument),
    Word(WordArgument),
}

/// A subcommand, its help and its arguments.
#[derive(Clone, Copy)]
pub(crate) struct SubcommandArguments {
    pub(crate) name: &'static str,
    pub(crate) about: &'static str,
    /// The help behind its arguments.
    pub(crate) lines: &'static str,
    pub(crate) arguments: &'static [Argument],
}

/// The subcommands, in the order of the help.
pub(crate) const SUBCOMMANDS: [SubcommandArguments; 6] = [
    REPLAY, SHIFT, SERVE, CHECK, LINES, AUDIT,
];

const REPLAY: SubcommandArguments = SubcommandArguments {
    name: "replay",
    about: "Answer each line of standard input with one reply",
    lines: help::REPLAY,
    arguments: &[
        Argument::Number(SLOTS),
        Argument::Number(LOG),
        Argument::Number(AUTHORITIES),
        Argument::Number(PLACES),
        Argument::Number(GENERATION),
        Argument::Word(HTTPS),
        Argument::Word(EXPORT),
    ],
};

const SHIFT: SubcommandArguments = SubcommandArguments {
    name: "shift",
    about: "Fetch the pages of the jobs on standard input, and report the results",
    lines: help::SHIFT,
    arguments: &[
        Argument::Number(SLOTS),
        Argument::Number(LOG),
        Argument::Number(AUTHORITIES),
        Argument::Number(PLACES),
        Argument::Number(JOBS),
        Argument::Number(DELAY),
        Argument::Number(CONNECT),
        Argument::Number(READ),
        Argument::Number(FETCH),
        Argument::Number(RETRY_CLOSED),
        Argument::Word(KEEP_ALIVE),
        Argument::Word(PUBLIC),
        Argument::Word(NOT_TO),
        Argument::Word(TLS_BY),
        Argument::Word(CONTACT),
        Argument::Word(EXPORT_OF_SHIFT),
        Argument::Word(TSV),
        Argument::Word(SKIP),
        Argument::Word(UNTIL),
        Argument::Word(JOURNAL_OF_SHIFT),
        Argument::Word(JOURNAL_SYNC),
    ],
};

const SERVE: SubcommandArguments = SubcommandArguments {
    name: "serve",
    about: "Run one gate for the crawlers of this machine, over lines or HTTP",
    lines: help::SERVE,
    arguments: &[
        Argument::Number(PORT),
        Argument::Word(SOCKET),
        Argument::Number(SEAL_PORT),
        Argument::Word(SEAL_SOCKET),
        Argument::Number(HTTP),
        Argument::Word(HTTP_SOCKET),
        Argument::Number(HTTP_CONNECTIONS),
        Argument::Number(FETCHERS),
        Argument::Number(DELAY_OF_SERVER),
        Argument::Word(HEED_RETRY_AFTER),
        Argument::Word(FORWARD),
        Argument::Number(CLIENTS),
        Argument::Number(CONNECTIONS),
        Argument::Number(SLOTS),
        Argument::Number(LOG),
        Argument::Number(AUTHORITIES),
        Argument::Number(PLACES),
        Argument::Number(CONNECT),
        Argument::Number(READ),
        Argument::Number(FETCH),
        Argument::Number(RETRY_CLOSED),
        Argument::Word(KEEP_ALIVE),
        Argument::Number(TEXTS),
        Argument::Number(PAGE_LIMIT),
        Argument::Word(PUBLIC),
        Argument::Word(NOT_TO),
        Argument::Word(TLS_BY),
        Argument::Word(CONTACT),
        Argument::Word(JOURNAL),
        Argument::Word(JOURNAL_SYNC),
        Argument::Number(JOURNAL_ROOM),
        Argument::Number(PATIENCE),
        Argument::Number(AHEAD),
        Argument::Number(CLIENT_PERMITS),
        Argument::Number(CLIENT_AUTHORITIES),
        Argument::Number(CLIENT_ENTRIES),
        Argument::Word(ENDLESS),
    ],
};

const CHECK: SubcommandArguments = SubcommandArguments {
    name: "check",
    about: "Say whether a robots.txt allows URLs, and by which line",
    lines: help::CHECK,
    arguments: &[
        Argument::Word(TOKEN),
        Argument::Word(URL),
        Argument::Word(ROBOTS),
        Argument::Word(EXPLAIN),
    ],
};

const LINES: SubcommandArguments = SubcommandArguments {
    name: "lines",
    about: "Write what each line of the robots.txt on standard input means",
    lines: help::LINES,
    arguments: &[Argument::Word(NOTES)],
};

const AUDIT: SubcommandArguments = SubcommandArguments {
    name: "audit",
    about: "Check every decision in the history on standard input",
    lines: help::AUDIT,
    arguments: &[Argument::Word(HTTPS_PAGES)],
};

/// The help's text of an argument, and its default, if any.
#[derive(Drop)]
pub(crate) struct ArgumentText {
    pub(crate) about: String,
    pub(crate) usual: Option<String>,
}

/// The texts of all arguments, a list for each subcommand.
pub(crate) fn texts(
    alloc: Global,
    subcommands: &[SubcommandArguments],
) -> Result<Vec<Vec<ArgumentText>>, AllocError> {
    let mut texts = Vec::new(alloc);
    for subcommand in subcommands {
        texts.push(texts_of(alloc, subcommand.arguments)?)?;
    }
    Ok(texts)
}

fn texts_of(alloc: Global, arguments: &[Argument]) -> Result<Vec<ArgumentText>, AllocError> {
    let mut texts = Vec::new(alloc);
    for argument in arguments {
        texts.push(text_of(alloc, argument)?)?;
    }
    Ok(texts)
}

fn text_of(alloc: Global, argument: &Argument) -> Result<ArgumentText, AllocError> {
    match argument {
        Argument::Number(number) => number_text(alloc, *number),
        Argument::Word(word) => Ok(ArgumentText {
            about: String::from_str(alloc, word.about)?,
            usual: None,
        }),
    }
}

fn number_text(alloc: Global, number: NumberArgument) -> Result<ArgumentText, AllocError> {
    let (least, most, about) = (number.option.least, number.option.most, number.about);
    let usual = match number.usual {
        Some(usual) => Some(format!(in alloc; "{usual}")?),
        None => None,
    };
    Ok(ArgumentText {
        about: format!(in alloc; "{about}, {least} to {most}")?,
        usual,
    })
}
