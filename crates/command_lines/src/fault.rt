//! Why a command line is no call, and its reply line (docs/FORMATS.md).
ghost use Rattle.std.specs.Prelude.{◌≡◌};
ghost use Rattle.command_lines.specs.FaultText.{fault_words};

use crate::refusal_text::refusal_word;
use crawl_job::Refusal;
use path_normal::{AuthorityFault, UrlFault};
use robots_text::TokenFault;
use std::alloc::AllocError;

/// The first fault of a command line, which makes no call.
#[derive(Clone, Copy, Debug, PartialEq, Eq)]
pub enum LineFault {
    /// The line is longer than the limit, and the session ends.
    Long,
    /// The line comes after the last one of a session, which ends.
    Lines,
    /// An octet is outside 32 to 126.
    Chars,
    /// A word is empty, or the verb takes another number of arguments.
    Words,
    /// The first word is no number.
    Moment,
    /// The verb is missing, or not one of the session's.
    Verb,
    /// An argument is no number below 2 to the 64.
    Number,
    /// An argument is no product token.
    Token,
    /// An argument is no authority.
    Authority,
    /// An argument is no URL.
    BadUrl,
    /// A URL has another scheme than http.
    NotHttp,
    /// A URL has a user name or a password.
    HasUser,
    /// A URL, or its authority, is too long, or the crate `url` overflowed.
    LongUrl,
    /// An argument is no status that an arrival takes.
    Status,
    /// The replies of an arrival are not those of one walk.
    Replies,
    /// Out of memory.
    Memory,
}

impl From<AllocError> for LineFault {
    ghost use Rattle.std.specs.Prelude.{◌≡◌};
    ghost use Rattle.command_lines.specs.declared.fault.LineFault.TheVariants.{Memory};

    ghost from_gives = { λ _ told. told ≡ Memory };

    fn from(_: AllocError) -> LineFault {
        LineFault::Memory
    }
}

impl From<TokenFault> for LineFault {
    ghost use Rattle.std.specs.Prelude.{◌≡◌};
    ghost use Rattle.command_lines.specs.Arguments.{token_fault};

    ghost from_gives = { λ fault told. told ≡ token_fault fault };

    fn from(fault: TokenFault) -> LineFault {
        match fault {
            TokenFault::BadToken => LineFault::Token,
            TokenFault::NoMemory => LineFault::Memory,
        }
    }
}

impl From<AuthorityFault> for LineFault {
    ghost use Rattle.std.specs.Prelude.{◌≡◌};
    ghost use Rattle.command_lines.specs.Arguments.{fault_of_authority};

    ghost from_gives = { λ fault told. told ≡ fault_of_authority fault };

    fn from(fault: AuthorityFault) -> LineFault {
        match fault {
            AuthorityFault::BadAuthority => LineFault::Authority,
            AuthorityFault::NoMemory => LineFault::Memory,
        }
    }
}

impl From<UrlFault> for LineFault {
    ghost use Rattle.std.specs.Prelude.{◌≡◌};
    ghost use Rattle.command_lines.specs.Arguments.{url_fault};

    ghost from_gives = { λ fault told. told ≡ url_fault fault };

    fn from(fault: UrlFault) -> LineFault {
        match fault {
            UrlFault::TooLong => LineFault::LongUrl,
            UrlFault::BadUrl => LineFault::BadUrl,
            UrlFault::NotHttp => LineFault::NotHttp,
            UrlFault::HasUser => LineFault::HasUser,
            UrlFault::NoMemory => LineFault::Memory,
        }
    }
}

impl LineFault {
    /// The words after `ERR` in the reply line.
    pub fn words(self) -> &'static str
        ensures { result.now ≡ fault_words self }
    {
        match self {
            LineFault::Long => "long",
            LineFault::Lines => "lines",
            LineFault::Chars => "chars",
            LineFault::Words => "words",
            LineFault::Moment => "moment",
            LineFault::Verb => "verb",
            LineFault::Number => "number",
            LineFault::Token => "token",
            LineFault::Authority => "authority",
            LineFault::BadUrl => UrlFault::BadUrl.words(),
            LineFault::NotHttp => UrlFault::NotHttp.words(),
            LineFault::HasUser => UrlFault::HasUser.words(),
            LineFault::LongUrl => UrlFault::TooLong.words(),
            LineFault::Status => "status",
            LineFault::Replies => "replies",
            LineFault::Memory => refusal_word(Refusal::NoMemory),
        }
    }
}
