//! Why no connection was accepted.
//! The numbers are those of Linux: accept(2) and errno(3).
ghost use Rattle.std.specs.Prelude.{◌≡◌, option_map};
ghost use Rattle.std.specs.Duration.{as_nanos};
ghost use Rattle.std.specs.IoError.{raw_os_error};
ghost use Rattle.client_connections.specs.Accepts.{fault_in, fault_of, passing_faults, wait_after};

use std::io;
use std::time::Duration;

/// How many accepts in a row may fail before the device counts as failed. With the waits between, that
/// takes three minutes.
pub const MAX_ACCEPT_FAULTS: u32 = 900;

// The wait for descriptors and memory before the next try.
const WANT_MILLISECONDS: u64 = 200;

const EPERM: u32 = 1;

const ENOMEM: u32 = 12;

const ENFILE: u32 = 23;

const EMFILE: u32 = 24;

const ENONET: u32 = 64;

const EPROTO: u32 = 71;

const ENOPROTOOPT: u32 = 92;

const EOPNOTSUPP: u32 = 95;

const ENETDOWN: u32 = 100;

const ENETUNREACH: u32 = 101;

const ECONNABORTED: u32 = 103;

const ENOBUFS: u32 = 105;

const ETIMEDOUT: u32 = 110;

const EHOSTDOWN: u32 = 112;

const EHOSTUNREACH: u32 = 113;

/// Why no connection was accepted.
#[derive(Clone, Copy, Debug, PartialEq, Eq)]
pub enum AcceptFault {
    /// The first connection had failed already, or is forbidden. Another may come.
    Client,
    /// No descriptor or memory for a connection now.
    Want,
    /// The listener itself fails.
    Device,
}

impl AcceptFault {
    /// The fault of a system error.
    pub fn of(error: &io::Error) -> AcceptFault
        ensures { result ≡ fault_of (raw_os_error error.now) }
    {
        match error.raw_os_error() {
            None => AcceptFault::Device,
            Some(number) if number < 0 => AcceptFault::Device,
            Some(number) => AcceptFault::of_number(number.unsigned_abs()),
        }
    }

    /// How long to wait before the next try, after this many faults in a row; `None` if the device has
    /// failed.
    pub fn wait_after(self, faults: u32) -> Option<Duration>
        ensures { option_map as_nanos result ≡ wait_after self faults }
    {
        if MAX_ACCEPT_FAULTS <= faults {
            return None;
        }
        match self {
            AcceptFault::Client => Some(Duration::ZERO),
            AcceptFault::Want => Some(Duration::from_millis(WANT_MILLISECONDS)),
            AcceptFault::Device => None,
        }
    }

    fn of_number(number: u32) -> AcceptFault
        ensures { result ≡ fault_in passing_faults number }
    {
        match number {
            EPERM
            | ENONET
            | EPROTO
            | ENOPROTOOPT
            | EOPNOTSUPP
            | ENETDOWN
            | ENETUNREACH
            | ECONNABORTED
            | ETIMEDOUT
            | EHOSTDOWN
            | EHOSTUNREACH => AcceptFault::Client,
            ENOMEM | ENFILE | EMFILE | ENOBUFS => AcceptFault::Want,
            _ => AcceptFault::Device,
        }
    }
}
