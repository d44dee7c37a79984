//! The causes of failed fetches and of closed sites in words: the one table of their names (docs/FORMATS.md).
//! Used by all that reports them.
ghost use Rattle.std.specs.Prelude.{◌≡◌, ◌++◌, decimal};
ghost use Rattle.fetchers.specs.CauseText.{closing_phrase, early_end_phrase, failure_text, past_text, wire_fault_phrase, words_text};

use crate::closed_by::ClosedBy;
use http_client::Failure;
use http_wire::WireFault;
use line_text::Piece;
use std::time::Duration;

/// A cause in words: its kind, a text, and perhaps a number with its unit.
#[derive(Clone, Copy)]
pub struct CauseWords {
    /// Its kind, if that is told.
    pub of: &'static str,
    /// The text.
    pub text: &'static str,
    /// The number, or an empty text.
    pub number: Piece<'static>,
    /// The number's unit, with what stands before it.
    pub unit: &'static str,
}

impl CauseWords {
    /// A text alone.
    pub fn plain(of: &'static str, text: &'static str) -> CauseWords
        ensures { words_text result ≡ of.now ++ text.now }
    {
        CauseWords {
            of,
            text,
            number: Piece::Text(""),
            unit: "",
        }
    }

    /// A text with a number.
    pub fn numbered(
        of: &'static str,
        text: &'static str,
        number: u64,
        unit: &'static str,
    ) -> CauseWords
        ensures { words_text result ≡ of.now ++ (text.now ++ (decimal number ++ unit.now)) }
    {
        CauseWords {
            of,
            text,
            number: Piece::Number(number),
            unit,
        }
    }
}

/// What closed a site, after the word for its kind.
pub fn closing_words(of: &'static str, by: ClosedBy) -> CauseWords
    ensures { words_text result ≡ of.now ++ closing_phrase by }
{
    match by {
        ClosedBy::Status(status) => CauseWords::numbered(of, "", u64::from(status), ""),
        ClosedBy::BadRedirect => CauseWords::plain(of, "redirect to no page"),
        ClosedBy::Https => CauseWords::plain(of, "redirect to https"),
        ClosedBy::OtherScheme => CauseWords::plain(of, "redirect to another scheme"),
        ClosedBy::Fault(fault, failure) => fault_words(of, fault, failure),
        ClosedBy::NoMemory => CauseWords::plain(of, "no memory"),
    }
}

/// Why a fetch failed, with its device's or TLS connection's failure.
pub fn fault_words(of: &'static str, fault: WireFault, failure: Option<Failure>) -> CauseWords
    ensures { words_text result ≡ of.now ++ wire_fault_phrase fault failure }
{
    match fault {
        WireFault::EarlyEnd => early_words(of, failure),
        WireFault::BadHead => CauseWords::plain(of, "bad head"),
        WireFault::HeadTooLong => CauseWords::plain(of, "head too long"),
        WireFault::TooManyInterim => CauseWords::plain(of, "too many interim heads"),
        WireFault::BadLength => CauseWords::plain(of, "bad length"),
        WireFault::BadChunk => CauseWords::plain(of, "bad chunk"),
        WireFault::Coding => CauseWords::plain(of, "coded"),
        WireFault::NoMemory => CauseWords::plain(of, "no memory"),
        WireFault::TooMuch => CauseWords::plain(of, "too much"),
        WireFault::Device => match failure {
            Some(failure) => failure_words(of, failure),
            None => CauseWords::plain(of, "network"),
        },
    }
}

// Why a response ended early.
#[tactic(auto, using(crate::proofs::CauseLemmas::not_tls))]
fn early_words(of: &'static str, failure: Option<Failure>) -> CauseWords
    ensures { words_text result ≡ of.now ++ early_end_phrase failure }
{
    match failure {
        None => CauseWords::plain(of, "ended early"),
        Some(Failure::NoTls) => CauseWords::plain(of, "no TLS connection"),
        Some(_) => CauseWords::plain(of, "ended early"),
    }
}

fn failure_words(of: &'static str, failure: Failure) -> CauseWords
    ensures { words_text result ≡ of.now ++ failure_text failure }
{
    match failure {
        Failure::NoName => CauseWords::plain(of, "no such name"),
        Failure::Refused => CauseWords::plain(of, "refused"),
        Failure::Unreachable => CauseWords::plain(of, "unreachable"),
        Failure::Reset => CauseWords::plain(of, "reset"),
        Failure::NotConnected(limit) => past_words(of, "no connection ", limit),
        Failure::Silent(limit) => past_words(of, "silent ", limit),
        Failure::TooLong(limit) => past_words(of, "unfinished ", limit),
        Failure::NoTls => CauseWords::plain(of, "no TLS connection"),
        Failure::NoTlsProgram => CauseWords::plain(of, "no TLS program"),
        Failure::Stopped => CauseWords::plain(of, "stopped"),
        Failure::Other => CauseWords::plain(of, "network"),
    }
}

// An exceeded time limit, in whole seconds.
fn past_words(of: &'static str, text: &'static str, limit: Duration) -> CauseWords
    ensures { words_text result ≡ of.now ++ past_text text.now limit }
{
    CauseWords::numbered(of, text, limit.as_secs(), " s")
}
