//! The answers to URLs, one after another.
//! See docs/FORMATS.md.
ghost use Rattle.std.specs.Prelude.{◌≡◌, ◌∷◌, [], Ok, IfErr, IfOk, IfSome, OnErr, map};
ghost use Rattle.robots_text.specs.Records.{numbered_records};
ghost use Rattle.robots_check.specs.Answering.{Passing, PassingFront};
ghost use Rattle.robots_check.specs.Targets.{HasFault, HasPath, page_named};
ghost use Rattle.robots_check.specs.Ready.{IsReady};
ghost use Rattle.robots_check.specs.Checks.{IsTellFault, Tells, failures_after_writes};
ghost use Rattle.robots_check.specs.Notes.{IsNoted, notes_of};

use crate::check_outcome::CheckOutcome;
use crate::detail::Detail;
use crate::explaining::{octets_of, push_explanation, reason_pieces, second_for};
use crate::fault::TextFault;
use crate::finding::{Finding, finding_pieces};
use crate::judge::Judge;
use crate::notes::tell_said_notes;
use crate::page::read_page;
use crate::rows::compare;
use crate::said::SaidLines;
use crate::token_lines::token_lines;
use counted_io::{Output, Sink};
use path_normal::{PageUrl, Unread, UrlFault};
use path_pattern::{Path, SuffixArray, empty_room};
use robots_text::{RobotsText, Token};
use robots_verdict::{Policy, verdict_on};
use std::alloc::{AllocError, Global};

// The most URLs without an index: to make one takes as long as to try each rule on so many.
const FEW_URLS: usize = 16;

/// What is asked of a text: whether a crawler of this token may fetch each URL, in what detail.
#[derive(Clone, Copy)]
pub(crate) struct Question<'q> {
    pub(crate) token: &'q Token,
    pub(crate) urls: &'q [&'q [u8]],
    pub(crate) detail: Detail,
}

/// Reports what may surprise in a text, whose body had so many octets. Then writes the answer to each URL,
/// and returns their joint outcome. An explanation tries each rule anyway, so it needs no index.
pub(crate) fn answer<W: Sink, E: Sink>(
    alloc: Global,
    text: RobotsText,
    count: usize,
    question: Question<'_>,
    writer: &mut W,
    errors: &mut E,
) -> Result<CheckOutcome, TextFault>
    ensures tells { Tells question.entry.detail text question.entry.token.now
        (map (λ url. url.now) question.entry.urls.now)
        (W.written writer.old) (W.written writer.new) result }
    ensures writes { W.failures writer.new
        ≡ failures_after_writes (W.failures writer.old) result }
    ensures notes { IfOk result (λ _. IsNoted (notes_of count (numbered_records text))
        (E.written errors.old) (E.written errors.new)
        (E.failures errors.old) (E.failures errors.new)) }
{
    if question.urls.len() <= FEW_URLS || question.detail == Detail::Explained {
        return answer_by(alloc, &text, None, count, question, writer, errors);
    }
    let policy = indexed(alloc, text)?;
    let text = policy.text();
    let policy = Some(&policy);
    answer_by(alloc, text, policy, count, question, writer, errors)
}

fn indexed(alloc: Global, text: RobotsText) -> Result<Policy, AllocError>
    ensures { IfOk result (λ policy. policy ≡ text) }
{
    Policy::new(alloc, text)?.indexed(alloc)
}

// `answer` for a text, perhaps with its policy.
fn answer_by<W: Sink, E: Sink>(
    alloc: Global,
    text: &RobotsText,
    policy: Option<&Policy>,
    count: usize,
    question: Question<'_>,
    writer: &mut W,
    errors: &mut E,
) -> Result<CheckOutcome, TextFault>
    requires { IfSome policy (λ policy. policy.now ≡ text.now) }
    ensures tells { Tells question.entry.detail text.now question.entry.token.now
        (map (λ url. url.now) question.entry.urls.now)
        (W.written writer.old) (W.written writer.new) result }
    ensures writes { W.failures writer.new
        ≡ failures_after_writes (W.failures writer.old) result }
    ensures notes { IfOk result (λ _. IsNoted (notes_of count (numbered_records text.now))
        (E.written errors.old) (E.written errors.new)
        (E.failures errors.old) (E.failures errors.new)) }
{
    let Question {
        token,
        urls,
        detail,
    } = question;
    let said = SaidLines::of(alloc, text)?;
    tell_said_notes(alloc, &said, count, errors)?;
    let lines = token_lines(alloc, &said, token, detail)?;
    let judge = Judge {
        text,
        policy,
        token,
        rules: lines.rules.as_slice(),
        agents: lines.agents.as_slice(),
        detail,
    };
    write_answers(alloc, judge, urls, writer)
}

fn write_answers<W: Sink>(
    alloc: Global,
    judge: Judge<'_>,
    urls: &[&[u8]],
    writer: &mut W,
) -> Result<CheckOutcome, TextFault>
    requires { IsReady judge }
    ensures tells { Tells judge.entry.detail judge.entry.text.now judge.entry.token.now
        (map (λ url. url.now) urls.now) (W.written writer.old) (W.written writer.new) result }
    ensures writes { W.failures writer.new
        ≡ failures_after_writes (W.failures writer.old) result }
{
    let mut output = Output::new(alloc)?;
    let outcome = push_answers(alloc, judge, urls, &mut output, writer)?;
    output.flush(writer)?;
    Ok(outcome)
}

fn push_answers<W: Sink>(
    alloc: Global,
    judge: Judge<'_>,
    urls: &[&[u8]],
    output: &mut Output,
    sink: &mut W,
) -> Result<CheckOutcome, TextFault>
    requires { IsReady judge }
    ensures passes { IfOk result (Passing judge.entry.detail
        (numbered_records judge.entry.text.now) judge.entry.token.now (map (λ url. url.now) urls.now)
        (W.written sink.old) (W.written sink.new) output.old output.new) }
    ensures cut { OnErr result (PassingFront judge.entry.detail
        (numbered_records judge.entry.text.now) judge.entry.token.now (map (λ url. url.now) urls.now)
        (W.written sink.old) (W.written sink.new) output.old) }
    ensures faults { IfErr result IsTellFault }
    ensures count { W.failures sink.new ≡ failures_after_writes (W.failures sink.old) result }
{
    let mut outcome = CheckOutcome::NoUrls;
    for url in urls {
        outcome = outcome.worse(push_answer(alloc, judge, url, output, sink)?);
    }
    Ok(outcome)
}

// Pushes the answer to a URL, with its explanation.
fn push_answer<W: Sink>(
    alloc: Global,
    judge: Judge<'_>,
    url: &[u8],
    output: &mut Output,
    sink: &mut W,
) -> Result<CheckOutcome, TextFault>
    requires { IsReady judge }
    ensures passes { IfOk result (Passing judge.entry.detail
        (numbered_records judge.entry.text.now) judge.entry.token.now (url.now ∷ [])
        (W.written sink.old) (W.written sink.new) output.old output.new) }
    ensures cut { OnErr result (PassingFront judge.entry.detail
        (numbered_records judge.entry.text.now) judge.entry.token.now (url.now ∷ [])
        (W.written sink.old) (W.written sink.new) output.old) }
    ensures faults { IfErr result IsTellFault }
    ensures count { W.failures sink.new ≡ failures_after_writes (W.failures sink.old) result }
{
    match read_page(alloc, url) {
        Ok(page) => push_page(alloc, judge, url, &page, output, sink),
        Err(Unread::Fault(fault)) => push_unread(judge, url, fault, output, sink),
        Err(_) => Err(TextFault::NoMemory),
    }
}

// Pushes the answer to an unreadable URL.
fn push_unread<W: Sink>(
    judge: Judge<'_>,
    url: &[u8],
    fault: UrlFault,
    output: &mut Output,
    sink: &mut W,
) -> Result<CheckOutcome, TextFault>
    requires { HasFault url.now fault }
    ensures passes { IfOk result (Passing judge.entry.detail
        (numbered_records judge.entry.text.now) judge.entry.token.now (url.now ∷ [])
        (W.written sink.old) (W.written sink.new) output.old output.new) }
    ensures cut { OnErr result (PassingFront judge.entry.detail
        (numbered_records judge.entry.text.now) judge.entry.token.now (url.now ∷ [])
        (W.written sink.old) (W.written sink.new) output.old) }
    ensures faults { IfErr result IsTellFault }
    ensures count { W.failures sink.new ≡ failures_after_writes (W.failures sink.old) result }
{
    let finding = Finding::Unread(fault);
    finding_pieces(finding, url).push(output, sink)?;
    Ok(finding.outcome())
}

// Pushes the answer to a URL's page.
fn push_page<W: Sink>(
    alloc: Global,
    judge: Judge<'_>,
    url: &[u8],
    page: &PageUrl,
    output: &mut Output,
    sink: &mut W,
) -> Result<CheckOutcome, TextFault>
    requires ready { IsReady judge }
    requires named { page_named url.now ≡ Ok page.now }
    ensures passes { IfOk result (Passing judge.entry.detail
        (numbered_records judge.entry.text.now) judge.entry.token.now (url.now ∷ [])
        (W.written sink.old) (W.written sink.new) output.old output.new) }
    ensures cut { OnErr result (PassingFront judge.entry.detail
        (numbered_records judge.entry.text.now) judge.entry.token.now (url.now ∷ [])
        (W.written sink.old) (W.written sink.new) output.old) }
    ensures faults { IfErr result IsTellFault }
    ensures count { W.failures sink.new ≡ failures_after_writes (W.failures sink.old) result }
{
    let octets = page.path_to_match();
    if judge.wants_places(octets) {
        push_slow(alloc, judge, url, octets, output, sink)
    } else {
        push_path(alloc, judge, url, &mut Path::new(octets), output, sink)
    }
}

// Pushes the answer to a URL when many wildcards may be tried on its long path. Takes much stack, which
// other answers don't need.
#[inline(never)]
fn push_slow<W: Sink>(
    alloc: Global,
    judge: Judge<'_>,
    url: &[u8],
    octets: &[u8],
    output: &mut Output,
    sink: &mut W,
) -> Result<CheckOutcome, TextFault>
    requires ready { IsReady judge }
    requires has_path { HasPath url.now octets.now }
    ensures passes { IfOk result (Passing judge.entry.detail
        (numbered_records judge.entry.text.now) judge.entry.token.now (url.now ∷ [])
        (W.written sink.old) (W.written sink.new) output.old output.new) }
    ensures cut { OnErr result (PassingFront judge.entry.detail
        (numbered_records judge.entry.text.now) judge.entry.token.now (url.now ∷ [])
        (W.written sink.old) (W.written sink.new) output.old) }
    ensures faults { IfErr result IsTellFault }
    ensures count { W.failures sink.new ≡ failures_after_writes (W.failures sink.old) result }
{
    let places = SuffixArray::of(octets);
    let mut room = empty_room();
    let mut path = Path::with(octets, &places, &mut room);
    push_path(alloc, judge, url, &mut path, output, sink)
}

// Pushes the answer to a URL with this path.
fn push_path<W: Sink>(
    alloc: Global,
    judge: Judge<'_>,
    url: &[u8],
    path: &mut Path<'_, '_>,
    output: &mut Output,
    sink: &mut W,
) -> Result<CheckOutcome, TextFault>
    requires ready { IsReady judge }
    requires has_path { HasPath url.now path.old }
    ensures passes { IfOk result (Passing judge.entry.detail
        (numbered_records judge.entry.text.now) judge.entry.token.now (url.now ∷ [])
        (W.written sink.old) (W.written sink.new) output.old output.new) }
    ensures cut { OnErr result (PassingFront judge.entry.detail
        (numbered_records judge.entry.text.now) judge.entry.token.now (url.now ∷ [])
        (W.written sink.old) (W.written sink.new) output.old) }
    ensures faults { IfErr result IsTellFault }
    ensures count { W.failures sink.new ≡ failures_after_writes (W.failures sink.old) result }
{
    match judge.detail {
        Detail::Plain => push_plain(judge, url, path, output, sink),
        Detail::Explained => push_explained(alloc, judge, url, path, output, sink),
    }
}

fn push_plain<W: Sink>(
    judge: Judge<'_>,
    url: &[u8],
    path: &mut Path<'_, '_>,
    output: &mut Output,
    sink: &mut W,
) -> Result<CheckOutcome, TextFault>
    requires ready { IsReady judge × (judge.detail ≡ Detail.Plain) }
    requires has_path { HasPath url.now path.old }
    ensures passes { IfOk result (Passing judge.entry.detail
        (numbered_records judge.entry.text.now) judge.entry.token.now (url.now ∷ [])
        (W.written sink.old) (W.written sink.new) output.old output.new) }
    ensures cut { OnErr result (PassingFront judge.entry.detail
        (numbered_records judge.entry.text.now) judge.entry.token.now (url.now ∷ [])
        (W.written sink.old) (W.written sink.new) output.old) }
    ensures faults { IfErr result IsTellFault }
    ensures count { W.failures sink.new ≡ failures_after_writes (W.failures sink.old) result }
{
    let finding = judge.find(path);
    finding_pieces(finding, url).push(output, sink)?;
    Ok(finding.outcome())
}

// Pushes an answer after its explanation. All memory is allocated before anything is pushed.
fn push_explained<W: Sink>(
    alloc: Global,
    judge: Judge<'_>,
    url: &[u8],
    path: &mut Path<'_, '_>,
    output: &mut Output,
    sink: &mut W,
) -> Result<CheckOutcome, TextFault>
    requires ready { IsReady judge × (judge.detail ≡ Detail.Explained) }
    requires has_path { HasPath url.now path.old }
    ensures passes { IfOk result (Passing judge.entry.detail
        (numbered_records judge.entry.text.now) judge.entry.token.now (url.now ∷ [])
        (W.written sink.old) (W.written sink.new) output.old output.new) }
    ensures cut { OnErr result (PassingFront judge.entry.detail
        (numbered_records judge.entry.text.now) judge.entry.token.now (url.now ∷ [])
        (W.written sink.old) (W.written sink.new) output.old) }
    ensures faults { IfErr result IsTellFault }
    ensures count { W.failures sink.new ≡ failures_after_writes (W.failures sink.old) result }
{
    let compared = compare(alloc, judge.rules, path)?;
    let rows = compared.rows.as_slice();
    let finding = judge.find_by(verdict_on(path.octets(), compared.strongest));
    let octets = octets_of(compared.strongest);
    let reason = reason_pieces(octets, finding, second_for(rows, finding));
    push_explanation(judge.agents, rows, reason, output, sink)?;
    finding_pieces(finding, url).push(output, sink)?;
    Ok(finding.outcome())
}
