//! Why arguments that `clap` takes are refused.
use crate::journal_options::NoSync;
use crate::tls::NotLoopback;
use std::alloc::AllocError;

/// Why arguments that `clap` takes are refused.
#[derive(Clone, Copy, Debug, PartialEq, Eq)]
pub(crate) enum WordFault {
    /// A number with a sign.
    Number,
    /// A path that no socket can have.
    Path,
    /// An option for HTTP clients, of whom there are none.
    NoHttp,
    /// A text that can't be a comment in a request.
    Contact,
    /// A time of a sync that is none.
    Sync,
    /// An address of another machine, or no address.
    TlsBy,
    /// No block of addresses.
    Block,
    /// A token of `check` that is none.
    Token,
    /// Out of memory.
    NoMemory,
}

impl WordFault {
    /// What would be taken.
    pub(crate) fn reason(self) -> &'static str {
        match self {
            WordFault::Number => "it must be written with digits only, without a sign",
            WordFault::Path => {
                "the path of a socket must have 1 to 96 bytes and no control characters"
            },
            WordFault::NoHttp => {
                "--http-connections, --fetchers, --delay, --heed-retry-after and --forward need --http or --http-socket"
            }
            WordFault::Contact => {
                "it must have 1 to 256 ASCII characters, and no parenthesis or backslash"
            }
            WordFault::Sync => "it must be always, second or never",
            WordFault::TlsBy => {
                "it must be a loopback address and a port, such as 127.0.0.1:3131 or [::1]:3131"
            }
            WordFault::Block => {
                "it must be an address and the number of its first bits, such as 192.0.2.0/24 or 2001:db8::/32"
            }
            WordFault::Token => "a product token has 1 to 64 letters, - and _",
            WordFault::NoMemory => "out of memory",
        }
    }
}

impl From<AllocError> for WordFault {
    ghost use Rattle.std.specs.Prelude.{◌≡◌};
    ghost use Rattle.program_arguments.specs.declared.word_fault.WordFault.TheVariants as faults;

    ghost from_gives = { λ _ told. told ≡ faults.NoMemory };

    fn from(_: AllocError) -> WordFault {
        WordFault::NoMemory
    }
}

impl From<NoSync> for WordFault {
    ghost use Rattle.std.specs.Prelude.{◌≡◌};
    ghost use Rattle.program_arguments.specs.declared.word_fault.WordFault.TheVariants as faults;

    ghost from_gives = { λ _ told. told ≡ faults.Sync };

    fn from(_: NoSync) -> WordFault {
        WordFault::Sync
    }
}

impl From<NotLoopback> for WordFault {
    ghost use Rattle.std.specs.Prelude.{◌≡◌};
    ghost use Rattle.program_arguments.specs.declared.word_fault.WordFault.TheVariants as faults;

    ghost from_gives = { λ _ told. told ≡ faults.TlsBy };

    fn from(_: NotLoopback) -> WordFault {
        WordFault::TlsBy
    }
}
