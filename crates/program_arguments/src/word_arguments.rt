//! The arguments that are no numbers: flags, options with a text, and the words of `check`.
//! docs/crawlgate.1.md describes them.
use clap::ArgAction;

/// An argument that is no number.
#[derive(Clone, Copy)]
pub(crate) struct WordArgument {
    pub(crate) name: &'static str,
    pub(crate) form: WordForm,
    /// What the help calls its values.
    pub(crate) values: &'static [&'static str],
    /// Its help.
    pub(crate) about: &'static str,
    /// The options that may not stand beside it.
    pub(crate) conflicts: &'static [&'static str],
    /// The options that must stand beside it.
    pub(crate) needs: &'static [&'static str],
}

/// How an argument is written.
#[derive(Clone, Copy)]
pub(crate) enum WordForm {
    /// A flag, without a value.
    Flag,
    /// An option with a value.
    Text,
    /// An option with a value that may be there again and again.
    Texts,
    /// A value that is known by its place, and has to be there.
    Word,
    /// One or more of them.
    Words,
}

impl WordForm {
    /// What such an argument does.
    pub(crate) fn action(&self) -> ArgAction {
        match self {
            WordForm::Flag => ArgAction::SetTrue,
            WordForm::Text | WordForm::Word => ArgAction::Set,
            WordForm::Texts | WordForm::Words => ArgAction::Append,
        }
    }

    /// Whether it has to be there.
    pub(crate) fn is_required(&self) -> bool {
        matches!(self, WordForm::Word | WordForm::Words)
    }
}

/// Whether a replay reads https too.
pub(crate) const HTTPS: WordArgument = WordArgument {
    name: "https",
    form: WordForm::Flag,
    values: &[],
    about: "Accept https URLs too",
    conflicts: &[],
    needs: &[],
};

/// Whether an audit takes https too.
pub(crate) const HTTPS_PAGES: WordArgument = WordArgument {
    name: "https",
    form: WordForm::Flag,
    values: &[],
    about: "Accept lines that name https pages too",
    conflicts: &[],
    needs: &[],
};

/// Whether a replay writes a history.
pub(crate) const EXPORT: WordArgument = WordArgument {
    name: "export",
    form: WordForm::Flag,
    values: &[],
    about: "Write the history at the end instead of replies",
    conflicts: &[],
    needs: &[],
};

/// Whether a shift writes a history.
pub(crate) const EXPORT_OF_SHIFT: WordArgument = WordArgument {
    name: "export",
    form: WordForm::Flag,
    values: &[],
    about: "Write the history at the end instead of the report",
    conflicts: &[],
    needs: &[],
};

/// Whether a shift writes a table.
pub(crate) const TSV: WordArgument = WordArgument {
    name: "tsv",
    form: WordForm::Flag,
    values: &[],
    about: "Write a table with a row for each hop, as soon as it ends",
    conflicts: &["export"],
    needs: &[],
};

/// Whether a shift goes on past lines that are no jobs.
pub(crate) const SKIP: WordArgument = WordArgument {
    name: "skip",
    form: WordForm::Flag,
    values: &[],
    about: "Report invalid lines on standard error, and do the other jobs",
    conflicts: &[],
    needs: &[],
};

/// The pipe whose end ends a shift early.
pub(crate) const UNTIL: WordArgument = WordArgument {
    name: "until",
    form: WordForm::Text,
    values: &["PIPE"],
    about: "End early, and report what is done, once no process holds this pipe open for writing",
    conflicts: &[],
    needs: &[],
};

/// The addresses that fetches may reach.
pub(crate) const PUBLIC: WordArgument = WordArgument {
    name: "public",
    form: WordForm::Flag,
    values: &[],
    about: "Connect only to addresses of the public internet",
    conflicts: &[],
    needs: &[],
};

/// Whether connections to sites stay open.
pub(crate) const KEEP_ALIVE: WordArgument = WordArgument {
    name: "keep-alive",
    form: WordForm::Flag,
    values: &[],
    about: "Keep a connection to a site open for its next page, if the site lets it",
    conflicts: &[],
    needs: &[],
};

/// The addresses that fetches never reach.
pub(crate) const NOT_TO: WordArgument = WordArgument {
    name: "not-to",
    form: WordForm::Texts,
    values: &["ADDRESS/BITS"],
    about: "Connect to no address of this network; may be repeated",
    conflicts: &[],
    needs: &[],
};

/// The TLS program for https sites.
pub(crate) const TLS_BY: WordArgument = WordArgument {
    name: "tls-by",
    form: WordForm::Text,
    values: &["ADDRESS:PORT"],
    about: "Accept https URLs too; the TLS program at this loopback address makes their connections",
    conflicts: &[],
    needs: &[],
};

/// Whom a site may write to.
pub(crate) const CONTACT: WordArgument = WordArgument {
    name: "contact",
    form: WordForm::Text,
    values: &["TEXT"],
    about: "Contact for site owners: User-Agent becomes the product token and (TEXT)",
    conflicts: &[],
    needs: &[],
};

/// The folder of a server's journal.
pub(crate) const JOURNAL: WordArgument = WordArgument {
    name: "journal",
    form: WordForm::Text,
    values: &["FOLDER"],
    about: "Keep the history in files of this folder, written before each reply, and continue from them",
    conflicts: &[],
    needs: &[],
};

/// The folder of a shift's journal.
pub(crate) const JOURNAL_OF_SHIFT: WordArgument = WordArgument {
    conflicts: &["export"],
    ..JOURNAL
};

/// When a journal is synced.
pub(crate) const JOURNAL_SYNC: WordArgument = WordArgument {
    name: "journal-sync",
    form: WordForm::Text,
    values: &["WHEN"],
    about: "When the journal is synced to disk: always (before each reply; the default), second (once a second) or never",
    conflicts: &[],
    needs: &["journal"],
};

/// The socket at which a server listens.
pub(crate) const SOCKET: WordArgument = WordArgument {
    name: "socket",
    form: WordForm::Text,
    values: &["PATH"],
    about: "Unix socket to listen on instead of a port; only its owner can connect",
    conflicts: &["port", "seal-port"],
    needs: &[],
};

/// The socket at which a server listens for overseers.
pub(crate) const SEAL_SOCKET: WordArgument = WordArgument {
    name: "seal-socket",
    form: WordForm::Text,
    values: &["PATH"],
    about: "Another Unix socket, only for SEAL, INFO, WHY, STATE and QUIT",
    conflicts: &["port", "seal-port"],
    needs: &["socket"],
};

/// The socket at which a server listens for HTTP clients.
pub(crate) const HTTP_SOCKET: WordArgument = WordArgument {
    name: "http-socket",
    form: WordForm::Text,
    values: &["PATH"],
    about: "Unix socket for HTTP clients instead of a port; only its owner can connect",
    conflicts: &["http"],
    needs: &[],
};

/// Whether a site's word on when to come again counts.
pub(crate) const HEED_RETRY_AFTER: WordArgument = WordArgument {
    name: "heed-retry-after",
    form: WordForm::Flag,
    values: &[],
    about: "Send a site no request of an HTTP client until the time of its Retry-After, up to an hour",
    conflicts: &[],
    needs: &[],
};

/// Whether fields of a client's request go to the site.
pub(crate) const FORWARD: WordArgument = WordArgument {
    name: "forward",
    form: WordForm::Flag,
    values: &[],
    about: "Send If-None-Match, If-Modified-Since, Accept and Accept-Language of HTTP clients to the site",
    conflicts: &[],
    needs: &[],
};

/// Whether a server's connections have no end.
pub(crate) const ENDLESS: WordArgument = WordArgument {
    name: "endless",
    form: WordForm::Flag,
    values: &[],
    about: "Accept connections until the process is killed",
    conflicts: &["connections"],
    needs: &[],
};

/// The crawler of a check.
pub(crate) const TOKEN: WordArgument = WordArgument {
    name: "token",
    form: WordForm::Word,
    values: &["TOKEN"],
    about: "Product token of the crawler: 1 to 64 letters, `-` and `_`",
    conflicts: &[],
    needs: &[],
};

/// The URLs of a check.
pub(crate) const URL: WordArgument = WordArgument {
    name: "url",
    form: WordForm::Words,
    values: &["URL"],
    about: "URLs, or paths that begin with `/`; a single `-` reads them from standard input",
    conflicts: &[],
    needs: &[],
};

/// The file of a check's robots text.
pub(crate) const ROBOTS: WordArgument = WordArgument {
    name: "robots",
    form: WordForm::Text,
    values: &["FILE"],
    about: "Read the robots.txt from this file instead of standard input",
    conflicts: &[],
    needs: &[],
};

/// Whether a check explains its answers.
pub(crate) const EXPLAIN: WordArgument = WordArgument {
    name: "explain",
    form: WordForm::Flag,
    values: &[],
    about: "Write before each answer the lines that apply, and why one of them decides",
    conflicts: &[],
    needs: &[],
};

/// Whether what may surprise in a robots text is told.
pub(crate) const NOTES: WordArgument = WordArgument {
    name: "notes",
    form: WordForm::Flag,
    values: &[],
    about: "Report what in the robots.txt may surprise its author, on standard error",
    conflicts: &[],
    needs: &[],
};
