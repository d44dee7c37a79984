//! `check`: whether a robots text allows URLs to a crawler, and by which line.
//! `crawlgate check` runs it over standard input and output.
ghost use Rattle.std.specs.Prelude.{◌≡◌, IfOk, map};
ghost use Rattle.robots_check.specs.Checks.{Checks, ChecksInput, ChecksLines, failures_after_reads, failures_after_writes};
ghost use Rattle.robots_check.specs.Notes.{IsNoted, NotesFront, NotesText, notes_text};

use crate::answering::{Question, answer};
use crate::body::{read_body, read_whole};
use crate::check_outcome::CheckOutcome;
use crate::detail::Detail;
use crate::fault::TextFault;
use crate::input::{split_input, urls_of};
use counted_io::{Sink, Source};
use robots_text::{RobotsText, Token};
use std::alloc::Global;

/// Reads a robots text, at most one octet more than the limit, and writes for each URL whether a crawler of
/// this token may fetch it, and by which line. A URL may be a path, and its scheme https. First it reports
/// to `errors` what may surprise: that the text is cut, that no line is a record, and rules that match no
/// URL.
pub fn check<R: Source, W: Sink, E: Sink>(
    alloc: Global,
    reader: &mut R,
    writer: &mut W,
    errors: &mut E,
    token: &Token,
    urls: &[&[u8]],
    detail: Detail,
) -> Result<CheckOutcome, TextFault>
    ensures checks { Checks detail (R.left reader.old) (R.left reader.new) token.now
        (map (λ url. url.now) urls.now) (W.written writer.old) (W.written writer.new) result }
    ensures reads { R.failures reader.new ≡ failures_after_reads (R.failures reader.old) result }
    ensures writes { W.failures writer.new
        ≡ failures_after_writes (W.failures writer.old) result }
    ensures notes { IfOk result (λ _. NotesText (R.left reader.old) (R.left reader.new)
        (E.written errors.old) (E.written errors.new)
        (E.failures errors.old) (E.failures errors.new)) }
{
    let body = read_body(alloc, reader)?;
    let count = body.len();
    let text = RobotsText::of(body);
    let question = Question {
        token,
        urls,
        detail,
    };
    answer(alloc, text, count, question, writer, errors)
}

/// `check` with the URLs in the input, one a line, after the robots text: that ends at the first empty line
/// before a line that begins with `/`, `http:` or `https:`. The author of the text can thus end it and add
/// URLs: `check_lines` keeps the two apart.
pub fn check_input<R: Source, W: Sink, E: Sink>(
    alloc: Global,
    reader: &mut R,
    writer: &mut W,
    errors: &mut E,
    token: &Token,
    detail: Detail,
) -> Result<CheckOutcome, TextFault>
    ensures checks { ChecksInput detail (R.left reader.old) (R.left reader.new) token.now
        (W.written writer.old) (W.written writer.new) result }
    ensures reads { R.failures reader.new ≡ failures_after_reads (R.failures reader.old) result }
    ensures writes { W.failures writer.new
        ≡ failures_after_writes (W.failures writer.old) result }
    ensures notes { IfOk result (λ _. NotesFront (R.left reader.old) (R.left reader.new)
        (E.written errors.old) (E.written errors.new)
        (E.failures errors.old) (E.failures errors.new)) }
{
    let input = read_whole(alloc, reader)?;
    let (front, lines) = split_input(input.as_slice());
    let urls = urls_of(alloc, lines)?;
    let text = RobotsText::read(alloc, front)?;
    let count = front.len();
    let question = Question {
        token,
        urls: urls.as_slice(),
        detail,
    };
    answer(alloc, text, count, question, writer, errors)
}

/// `check` with only URLs in the input, one a line, and the robots text from this body: nothing in the body
/// is read as a URL.
pub fn check_lines<R: Source, W: Sink, E: Sink>(
    alloc: Global,
    body: &[u8],
    reader: &mut R,
    writer: &mut W,
    errors: &mut E,
    token: &Token,
    detail: Detail,
) -> Result<CheckOutcome, TextFault>
    ensures checks { ChecksLines detail body.now (R.left reader.old) (R.left reader.new) token.now
        (W.written writer.old) (W.written writer.new) result }
    ensures reads { R.failures reader.new ≡ failures_after_reads (R.failures reader.old) result }
    ensures writes { W.failures writer.new
        ≡ failures_after_writes (W.failures writer.old) result }
    ensures notes { IfOk result (λ _. IsNoted (notes_text body.now)
        (E.written errors.old) (E.written errors.new)
        (E.failures errors.old) (E.failures errors.new)) }
{
    let lines = read_whole(alloc, reader)?;
    let urls = urls_of(alloc, lines.as_slice())?;
    let text = RobotsText::read(alloc, body)?;
    let count = body.len();
    let question = Question {
        token,
        urls: urls.as_slice(),
        detail,
    };
    answer(alloc, text, count, question, writer, errors)
}
