//! The causes of a table of hops in words (docs/FORMATS.md, the table of a shift).
//! Those of faults and of closed sites are the words of `fetchers`.
ghost use Rattle.std.specs.Prelude.{◌≡◌};
ghost use Rattle.gate_history.specs.Wording.{words_in};
ghost use Rattle.fetchers.specs.CauseText.{words_text};
ghost use Rattle.crawl_shift.specs.Causes.{closing_text, denial_phrase, refusal_phrase, spaced_words, stop_phrase};

use command_lines::refusal_word;
use crawl_job::Refusal;
use fetchers::{CauseWords, ClosedBy, closing_words};
use gate_history::{Cause, Wording};
use robots_fetch::Stop;

pub(crate) fn worded(wording: Wording) -> CauseWords
    ensures { words_text result ≡ spaced_words (words_in wording) }
{
    match wording.line {
        Some(line) => CauseWords::numbered(wording.word, " ", line, ""),
        None => CauseWords::plain("", wording.word),
    }
}

/// Why a page was denied; for a closed site what closed it, if known.
#[tactic(auto, using(crate::proofs::CauseLemmas::not_closed))]
pub(crate) fn denial_words(cause: Cause, by: Option<ClosedBy>) -> CauseWords
    ensures { words_text result ≡ denial_phrase cause by }
{
    match cause {
        Cause::Closed => match by {
            Some(by) => robots_words(by),
            None => worded(cause.wording()),
        },
        _ => worded(cause.wording()),
    }
}

#[tactic(auto, using(crate::proofs::CauseLemmas::not_memory))]
pub(crate) fn refusal_words(refusal: Refusal) -> CauseWords
    ensures { words_text result ≡ refusal_phrase refusal }
{
    match refusal {
        Refusal::NoMemory => CauseWords::plain("", "no memory"),
        _ => CauseWords::plain("", refusal_word(refusal)),
    }
}

pub(crate) fn stop_words(stop: Stop) -> CauseWords
    ensures { words_text result ≡ stop_phrase stop }
{
    match stop {
        Stop::TooManyRedirects => CauseWords::plain("", "too many redirects"),
        Stop::BadRedirect => CauseWords::plain("", "redirect to no page"),
        Stop::Scheme => CauseWords::plain("", "redirect to another scheme"),
    }
}

/// What closed a site.
pub(crate) fn robots_words(by: ClosedBy) -> CauseWords
    ensures { words_text result ≡ closing_text by }
{
    closing_words("robots: ", by)
}
