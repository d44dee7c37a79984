//! The text of a hop: its part of a shift's report, without the numbers (docs/FORMATS.md, hops).
ghost use Rattle.std.specs.Prelude.{◌≡◌};
ghost use Rattle.line_text.specs.Pieces.{pieces_text};
ghost use Rattle.command_lines.specs.HopText.{fault_hop_text, fault_word, hop_text, page_text};
ghost use Rattle.command_lines.specs.HopText.{stop_text, stop_word};

use crate::refusal_text::refusal_pieces;
use crate::reply_text::denial_pieces;
use crawl_job::Hop;
use gate_history::{Reason, Wording};
use http_wire::WireFault;
use line_text::{Piece, Pieces};
use robots_fetch::Stop;

/// The line of a hop.
pub fn hop_pieces(hop: &Hop) -> Pieces<'_>
    ensures { pieces_text result ≡ hop_text hop.now }
{
    match hop {
        Hop::Page {
            number: _,
            reason,
            status,
            length,
            cut,
        } => page_pieces(*reason, u64::from(*status), *length, *cut),
        Hop::No(denial) => denial_pieces(denial),
        Hop::Fault { number: _, fault } => fault_pieces(*fault),
        Hop::Err(refusal) => refusal_pieces(*refusal),
        Hop::Stop(stop) => stop_pieces(*stop),
    }
}

fn page_pieces(reason: Reason, status: u64, length: u64, cut: bool) -> Pieces<'static>
    ensures { pieces_text result ≡ page_text reason status length cut }
{
    let Wording { word, line } = reason.wording();
    let (page, word, space) = (Piece::Text("PAGE "), Piece::Text(word), Piece::Text(" "));
    let (status, length) = (Piece::Number(status), Piece::Number(length));
    let end = Piece::Text(if cut { " cut\n" } else { " whole\n" });
    match line {
        Some(line) => {
            let line = Piece::Number(line);
            Pieces::of(&[page, word, space, line, space, status, space, length, end])
        }
        None => Pieces::of(&[page, word, space, status, space, length, end]),
    }
}

fn fault_pieces(fault: WireFault) -> Pieces<'static>
    ensures { pieces_text result ≡ fault_hop_text fault }
{
    Pieces::two_words("FAULT", Piece::Text(fault_word(fault)))
}

fn fault_word(fault: WireFault) -> &'static str
    ensures { result.now ≡ fault_word fault }
{
    match fault {
        WireFault::EarlyEnd => "H1",
        WireFault::BadHead => "H2",
        WireFault::HeadTooLong => "H3",
        WireFault::TooManyInterim => "H4",
        WireFault::BadLength => "H5",
        WireFault::BadChunk => "H6",
        WireFault::Coding => "H7",
        WireFault::Device => "H8",
        WireFault::NoMemory => "H9",
        WireFault::TooMuch => "H10",
    }
}

fn stop_pieces(stop: Stop) -> Pieces<'static>
    ensures { pieces_text result ≡ stop_text stop }
{
    Pieces::two_words("STOP", Piece::Text(stop_word(stop)))
}

fn stop_word(stop: Stop) -> &'static str
    ensures { result.now ≡ stop_word stop }
{
    match stop {
        Stop::TooManyRedirects => "toomany",
        Stop::BadRedirect => "redirect",
        Stop::Scheme => "scheme",
    }
}
