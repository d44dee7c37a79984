//! The reply to WHY: the answer that stands, and what closed its site, if that is known.
//! Used by `ClientReply`. RFC 9309, sections 2.3.1.4 and 2.4.
ghost use Rattle.std.specs.Prelude.{◌≡◌, ◌++◌, IfSome, codes, true};
ghost use Rattle.counted_io.specs.Output.{Pushes};
ghost use Rattle.line_text.specs.Pieces.{pieces_text};
ghost use Rattle.fetchers.specs.CauseText.{closing_phrase, words_text};
ghost use Rattle.command_server.specs.WhyReply.{closed_text, is_closed, why_reply_text};

use crate::server_counters::ServerCounters;
use authority_cache::StandingAnswer;
use command_lines::push_why;
use counted_io::{DeviceFault, Output, Sink};
use fetchers::{CauseWords, ClosedBy, closing_words};
use gate_core::NoMemory;
use history_text::standing_pieces;
use line_text::{Piece, Pieces};
use path_normal::Authority;
use robots_verdict::Said;

/// What closed the site of this answer, if it is closed and the server knows it.
pub(crate) fn cause_of(
    counters: &ServerCounters<'_>,
    found: &Result<Option<StandingAnswer>, NoMemory>,
) -> Option<ClosedBy>
    ensures { IfSome result (λ by. is_closed found.now ≡ true) }
{
    match found {
        Ok(Some(answer)) => match &answer.says {
            Said::Closed(_) => counters.closed_by(answer.turn),
            Said::Rules(_) | Said::Open(_) => None,
        },
        Ok(None) | Err(_) => None,
    }
}

/// Pushes the line.
pub(crate) fn push_why_reply<W: Sink>(
    authority: &Authority,
    found: &Result<Option<StandingAnswer>, NoMemory>,
    closed_by: Option<ClosedBy>,
    output: &mut Output,
    sink: &mut W,
) -> Result<(), DeviceFault>
    ensures { Pushes (W.written sink.old) (W.written sink.new)
        (W.failures sink.old) (W.failures sink.new) output.old output.new
        (why_reply_text authority.now found.now closed_by) result }
{
    match (found, closed_by) {
        (Ok(Some(answer)), Some(by)) => push_closed(answer, by, output, sink),
        (Ok(Some(_)), None) => push_why(authority, found, output, sink),
        (Ok(None) | Err(_), _) => push_why(authority, found, output, sink),
    }
}

fn push_closed<W: Sink>(
    answer: &StandingAnswer,
    by: ClosedBy,
    output: &mut Output,
    sink: &mut W,
) -> Result<(), DeviceFault>
    ensures { Pushes (W.written sink.old) (W.written sink.new)
        (W.failures sink.old) (W.failures sink.new) output.old output.new
        (closed_text answer.now by) result }
{
    standing_pieces("WHY ", answer).push(output, sink)?;
    cause_pieces(by).push(output, sink)
}

// What closed a site, and the end of its line.
fn cause_pieces(by: ClosedBy) -> Pieces<'static>
    ensures { pieces_text result ≡ codes " " ++ (closing_phrase by ++ codes "\n") }
{
    line_pieces(closing_words(" ", by))
}

// Words and the end of their line.
fn line_pieces(words: CauseWords) -> Pieces<'static>
    ensures { pieces_text result ≡ words_text words ++ codes "\n" }
{
    Pieces::of(&[
        Piece::Text(words.of),
        Piece::Text(words.text),
        words.number,
        Piece::Text(words.unit),
        Piece::Text("\n"),
    ])
}
