//! The classes of statuses of a robots.txt.
//! RFC 9309, sections 2.3.1.1 to 2.3.1.4.
ghost use Rattle.std.specs.Prelude.{◌≡◌};
ghost use Rattle.robots_fetch.specs.Statuses.{class_of};

/// What a status means for a robots.txt.
#[derive(Clone, Copy, Debug, PartialEq, Eq)]
pub enum StatusClass {
    /// 200 to 299: the file is the body.
    Successful,
    /// 301, 302, 303, 307 and 308: the file is elsewhere.
    Redirect,
    /// 400 to 499: there is no file.
    Unavailable,
    /// 500 to 599: the server failed.
    Unreachable,
    /// Every other status.
    Other,
}

/// What the status means for a robots.txt.
pub fn class_of(code: u16) -> StatusClass
    ensures { result ≡ class_of code }
{
    match code {
        301 | 302 | 303 | 307 | 308 => StatusClass::Redirect,
        200..=299 => StatusClass::Successful,
        400..=499 => StatusClass::Unavailable,
        500..=599 => StatusClass::Unreachable,
        _ => StatusClass::Other,
    }
}
