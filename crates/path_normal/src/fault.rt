//! Why a text is no page URL, or no authority.
//! URL Standard, sections 4.4 and 4.5.
ghost use Rattle.std.specs.Prelude.{◌≡◌};
ghost use Rattle.path_normal.specs.Messages.{url_fault_words};

use std::alloc::AllocError;
use std::error::Error;
use std::fmt;
use url::ParseError;

/// Why a text is no page URL, in the order of the tests.
#[derive(Clone, Copy, Debug, PartialEq, Eq)]
pub enum UrlFault {
    /// The text, or the URL as written back, has more than 4,096 bytes, or the latter's authority more than
    /// 4,000; or the crate `url` overflowed, as it does at 4 GB.
    TooLong,
    /// The URL Standard's parser refuses the text.
    BadUrl,
    /// The scheme is not read: `http` always is, `https` only on request.
    NotHttp,
    /// The user name or the password is not empty.
    HasUser,
    /// Out of memory.
    NoMemory,
}

impl UrlFault {
    /// Its words in replies and reports.
    pub fn words(self) -> &'static str
        ensures { result.now ≡ url_fault_words self }
    {
        match self {
            UrlFault::TooLong => "url long",
            UrlFault::BadUrl => "url bad",
            UrlFault::NotHttp => "url scheme",
            UrlFault::HasUser => "url user",
            UrlFault::NoMemory => "url memory",
        }
    }
}

impl From<AllocError> for UrlFault {
    ghost use Rattle.std.specs.Prelude.{◌≡◌};
    ghost use Rattle.path_normal.specs.declared.fault.UrlFault.{UrlFault};

    ghost from_gives = { λ _ fault. fault ≡ UrlFault.NoMemory };

    fn from(_: AllocError) -> UrlFault {
        UrlFault::NoMemory
    }
}

impl From<Unread> for UrlFault {
    ghost use Rattle.std.specs.Prelude.{◌≡◌};
    ghost use Rattle.path_normal.specs.Capacity.{fault_of_unread};

    ghost from_gives = { λ unread fault. fault ≡ fault_of_unread unread };

    fn from(unread: Unread) -> UrlFault {
        match unread {
            Unread::Fault(fault) => fault,
            Unread::Overflow => UrlFault::TooLong,
            Unread::NoMemory => UrlFault::NoMemory,
        }
    }
}

impl fmt::Display for UrlFault {
    ghost use Rattle.std.specs.Prelude.{Some};
    ghost use Rattle.path_normal.specs.Messages.{url_fault_text};

    ghost output = { λ fault. Some (url_fault_text fault) };

    fn fmt<W: fmt::Write>(&self, f: &mut fmt::Formatter<W>) -> fmt::Result {
        f.write_str(match self {
            UrlFault::TooLong => "the URL is too long",
            UrlFault::BadUrl => "the text is no URL",
            UrlFault::NotHttp => "the URL's scheme is not http",
            UrlFault::HasUser => "the URL has a user name or a password",
            UrlFault::NoMemory => "no memory for the URL",
        })
    }
}

impl Error for UrlFault {}

/// Why a text was not read as a page URL: its own fault, or a lack of room.
#[derive(Clone, Copy, Debug, PartialEq, Eq)]
pub enum Unread {
    /// The first fault of the text, whenever it is read.
    Fault(UrlFault),
    /// The crate `url` overflowed, as it does at 4 GB, though its contract allows it for any text.
    Overflow,
    /// Out of memory.
    NoMemory,
}

impl From<AllocError> for Unread {
    ghost use Rattle.std.specs.Prelude.{◌≡◌};
    ghost use Rattle.path_normal.specs.declared.fault.Unread.{Unread};

    ghost from_gives = { λ _ unread. unread ≡ Unread.NoMemory };

    fn from(_: AllocError) -> Unread {
        Unread::NoMemory
    }
}

impl From<ParseError> for Unread {
    ghost use Rattle.std.specs.Prelude.{◌≡◌};
    ghost use Rattle.path_normal.specs.PageUrl.{unread_of};

    ghost from_gives = { λ error unread. unread ≡ unread_of error };

    fn from(error: ParseError) -> Unread {
        match error {
            ParseError::Overflow => Unread::Overflow,
            ParseError::OutOfMemory => Unread::NoMemory,
            _ => Unread::Fault(UrlFault::BadUrl),
        }
    }
}

impl fmt::Display for Unread {
    ghost use Rattle.std.specs.Prelude.{Some};
    ghost use Rattle.path_normal.specs.Messages.{unread_text};

    ghost output = { λ unread. Some (unread_text unread) };

    fn fmt<W: fmt::Write>(&self, f: &mut fmt::Formatter<W>) -> fmt::Result {
        match self {
            Unread::Fault(fault) => fmt::Display::fmt(fault, f),
            Unread::Overflow => f.write_str("the URL parser overflowed"),
            Unread::NoMemory => f.write_str("no memory for the URL"),
        }
    }
}

impl Error for Unread {}

/// Why a text is no authority.
#[derive(Clone, Copy, Debug, PartialEq, Eq)]
pub enum AuthorityFault {
    /// The text has one of `/ \ ? # @` (except in a leading `https://` if that is read), or with `http://`
    /// (if it has no scheme) before it and `/` after it is no page URL.
    BadAuthority,
    /// Out of memory.
    NoMemory,
}

impl From<AllocError> for AuthorityFault {
    ghost use Rattle.std.specs.Prelude.{◌≡◌};
    ghost use Rattle.path_normal.specs.declared.fault.AuthorityFault.{AuthorityFault};

    ghost from_gives = { λ _ fault. fault ≡ AuthorityFault.NoMemory };

    fn from(_: AllocError) -> AuthorityFault {
        AuthorityFault::NoMemory
    }
}

impl From<UrlFault> for AuthorityFault {
    ghost use Rattle.std.specs.Prelude.{◌≡◌};
    ghost use Rattle.path_normal.specs.Authority.{authority_fault_of};

    ghost from_gives = { λ fault told. told ≡ authority_fault_of fault };

    fn from(fault: UrlFault) -> AuthorityFault {
        match fault {
            UrlFault::NoMemory => AuthorityFault::NoMemory,
            _ => AuthorityFault::BadAuthority,
        }
    }
}

impl fmt::Display for AuthorityFault {
    ghost use Rattle.std.specs.Prelude.{Some};
    ghost use Rattle.path_normal.specs.Messages.{authority_fault_text};

    ghost output = { λ fault. Some (authority_fault_text fault) };

    fn fmt<W: fmt::Write>(&self, f: &mut fmt::Formatter<W>) -> fmt::Result {
        f.write_str(match self {
            AuthorityFault::BadAuthority => "the text is no authority",
            AuthorityFault::NoMemory => "no memory for the authority",
        })
    }
}

impl Error for AuthorityFault {}
