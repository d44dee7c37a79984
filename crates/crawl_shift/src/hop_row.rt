//! A line of a table of hops (docs/FORMATS.md, the table of a shift).
ghost use Rattle.std.specs.Prelude.{◌≡◌, ◌++◌, codes};
ghost use Rattle.counted_io.specs.Output.{Pushes};
ghost use Rattle.line_text.specs.Pieces.{piece_text, pieces_text};
ghost use Rattle.fetchers.specs.CauseText.{words_text};
ghost use Rattle.crawl_shift.specs.TableText.{cause_text, columns_text, number_text, octets_of, outcome_text};
ghost use Rattle.crawl_shift.specs.TableText.{outcome_word, place_text, row_text, hop_status};

use crate::causes::{denial_words, refusal_words, stop_words, worded};
use counted_io::{DeviceFault, Output, Sink};
use crawl_job::Hop;
use fetchers::{CauseWords, ClosedBy, fault_words};
use http_client::Failure;
use line_text::{Piece, Pieces};

/// A hop that has ended. Jobs and hops count from 1.
#[derive(Clone, Copy)]
pub(crate) struct HopRow<'a> {
    pub(crate) job: u64,
    pub(crate) hop: u64,
    pub(crate) token: &'a str,
    pub(crate) url: &'a str,
    pub(crate) end: &'a Hop,
    /// How long the page's fetch took, if there was one.
    pub(crate) milliseconds: Option<u64>,
    /// Why its device failed, if it did.
    pub(crate) failure: Option<Failure>,
    /// What closed its site, if known.
    pub(crate) closed_by: Option<ClosedBy>,
}

/// The first line, with the names of the columns.
pub(crate) fn columns() -> Pieces<'static>
    ensures { pieces_text result ≡ columns_text }
{
    Pieces::whole("job\thop\ttoken\turl\toutcome\tstatus\toctets\tmilliseconds\tcause\n")
}

impl HopRow<'_> {
    pub(crate) fn push<W: Sink>(&self, output: &mut Output, sink: &mut W) -> Result<(), DeviceFault>
        ensures { Pushes (W.written sink.old) (W.written sink.new)
            (W.failures sink.old) (W.failures sink.new) output.old output.new
            (row_text self.now) result }
    {
        self.place().push(output, sink)?;
        self.push_outcome(output, sink)
    }

    // Pushes what follows the page.
    fn push_outcome<W: Sink>(&self, output: &mut Output, sink: &mut W) -> Result<(), DeviceFault>
        ensures { Pushes (W.written sink.old) (W.written sink.new)
            (W.failures sink.old) (W.failures sink.new) output.old output.new
            (outcome_text self.now.end.now self.now.milliseconds
            ++ (cause_text self.now.end.now self.now.failure self.now.closed_by
            ++ codes "\n")) result }
    {
        self.outcome().push(output, sink)?;
        self.cause().push(output, sink)
    }

    fn place(&self) -> Pieces<'_>
        ensures { pieces_text result
            ≡ place_text self.now.job self.now.hop self.now.token.now self.now.url.now }
    {
        let tab = Piece::Text("\t");
        Pieces::of(&[
            Piece::Number(self.job),
            tab,
            Piece::Number(self.hop),
            tab,
            Piece::Text(self.token),
            tab,
            Piece::Text(self.url),
            tab,
        ])
    }

    fn outcome(&self) -> Pieces<'static>
        ensures { pieces_text result ≡ outcome_text self.now.end.now self.now.milliseconds }
    {
        let tab = Piece::Text("\t");
        Pieces::of(&[
            Piece::Text(outcome_word(self.end)),
            tab,
            number(hop_status(self.end)),
            tab,
            number(octets_of(self.end)),
            tab,
            number(self.milliseconds),
            tab,
        ])
    }

    fn cause(&self) -> Pieces<'static>
        ensures { pieces_text result
            ≡ cause_text self.now.end.now self.now.failure self.now.closed_by ++ codes "\n" }
    {
        match self.end {
            Hop::Page {
                reason,
                cut: true,
                ..
            } => ended(worded(reason.wording()), ", cut\n"),
            Hop::Page { reason, .. } => ended(worded(reason.wording()), "\n"),
            Hop::No(denial) => ended(denial_words(denial.cause, self.closed_by), "\n"),
            Hop::Fault { fault, .. } => ended(fault_words("", *fault, self.failure), "\n"),
            Hop::Err(refusal) => ended(refusal_words(*refusal), "\n"),
            Hop::Stop(stop) => ended(stop_words(*stop), "\n"),
        }
    }
}

// A cause, and the end of its line.
fn ended(words: CauseWords, end: &'static str) -> Pieces<'static>
    ensures { pieces_text result ≡ words_text words ++ end.now }
{
    Pieces::of(&[
        Piece::Text(words.of),
        Piece::Text(words.text),
        words.number,
        Piece::Text(words.unit),
        Piece::Text(end),
    ])
}

fn outcome_word(hop: &Hop) -> &'static str
    ensures { result.now ≡ outcome_word hop.now }
{
    match hop {
        Hop::Page { .. } => "PAGE",
        Hop::No(_) => "NO",
        Hop::Fault { .. } => "FAULT",
        Hop::Err(_) => "ERR",
        Hop::Stop(_) => "STOP",
    }
}

fn hop_status(hop: &Hop) -> Option<u64>
    ensures { result ≡ hop_status hop.now }
{
    match hop {
        Hop::Page { status, .. } => Some(u64::from(*status)),
        _ => None,
    }
}

fn octets_of(hop: &Hop) -> Option<u64>
    ensures { result ≡ octets_of hop.now }
{
    match hop {
        Hop::Page { length, .. } => Some(*length),
        _ => None,
    }
}

// A number, or an empty cell, which readers of numeric tables take for none.
fn number(number: Option<u64>) -> Piece<'static>
    ensures { piece_text result ≡ number_text number }
{
    number.map_or(Piece::Text(""), |number| Piece::Number(number))
}
