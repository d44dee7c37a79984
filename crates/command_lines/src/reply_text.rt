//! The reply of each call as pieces (docs/FORMATS.md, replies).
//! Used by the session, which writes them.
ghost use Rattle.std.specs.Prelude.{◌≡◌, ◌∷◌};
ghost use Rattle.gate_history.specs.Wording.{words_in};
ghost use Rattle.command_lines.specs.FaultText.{line_fault_text};
ghost use Rattle.line_text.specs.Pieces.{line_of, piece_text, pieces_text};
ghost use Rattle.command_lines.specs.ReplyText.{arrive_text, ask_text, back_text, begin_text};
ghost use Rattle.command_lines.specs.ReplyText.{bye_text, denial_text, finish_text, reply_text};
ghost use Rattle.command_lines.specs.ReplyText.{go_text, standing_word, start_text, state_text, sweep_text, url_text};

use crate::fault::LineFault;
use crate::refusal_text::{error_pieces, refusal_pieces};
use authority_cache::{Stale, TurnNo};
use crawl_job::Refusal;
use gate_core::{AskRefusal, BeginRefusal, Denial, Reply, Standing, Started, State, SweepRefusal};
use gate_history::{Reason, Wording};
use line_text::{Piece, Pieces};
use path_normal::{Authority, PageUrl};
use permit_book::{NotOut, PermitNo};

/// The line of a reply.
pub fn reply_pieces(reply: &Reply) -> Pieces<'_>
    ensures { pieces_text result ≡ reply_text reply.now }
{
    match reply {
        Reply::Begin { authority, result } => begin_pieces(authority, result),
        Reply::Arrive {
            authority,
            brought,
            result,
        } => arrive_pieces(authority, *brought, result),
        Reply::Ask { result } => ask_pieces(result),
        Reply::Start { result } => start_pieces(result),
        Reply::Back { number, result } => back_pieces(*number, result),
        Reply::Finish { number, result } => finish_pieces(*number, result),
        Reply::Sweep { result } => sweep_pieces(result),
    }
}

/// The reply to BEGIN.
pub fn begin_pieces<'a>(
    authority: &'a Authority,
    reply: &Result<TurnNo, BeginRefusal>,
) -> Pieces<'a>
    ensures { pieces_text result ≡ begin_text authority.now reply.now }
{
    match reply {
        Ok(turn) => {
            let turn = Piece::Number(turn.number());
            Pieces::three_words("TURN", Piece::Text(authority.text()), turn)
        }
        Err(BeginRefusal::InFlight) => error_pieces("inflight"),
        Err(BeginRefusal::LogFull) => refusal_pieces(Refusal::LogFull),
        Err(BeginRefusal::AuthoritiesFull) => refusal_pieces(Refusal::AuthoritiesFull),
        Err(BeginRefusal::NoMemory) => refusal_pieces(Refusal::NoMemory),
    }
}

/// The reply to ARRIVE.
pub fn arrive_pieces<'a>(
    authority: &'a Authority,
    brought: Standing,
    reply: &Result<(), Stale>,
) -> Pieces<'a>
    ensures { pieces_text result ≡ arrive_text authority.now brought reply.now }
{
    match reply {
        Ok(()) => {
            let word = Piece::Text(standing_word(brought));
            Pieces::three_words("TAKEN", Piece::Text(authority.text()), word)
        }
        Err(Stale) => error_pieces("stale"),
    }
}

/// The reply to ASK.
pub fn ask_pieces(reply: &Result<PermitNo, AskRefusal>) -> Pieces<'_>
    ensures { pieces_text result ≡ ask_text reply.now }
{
    match reply {
        Ok(number) => Pieces::two_words("PERMIT", Piece::Number(number.number())),
        Err(AskRefusal::LogFull) => refusal_pieces(Refusal::LogFull),
        Err(AskRefusal::Denied(denial)) => denial_pieces(denial),
        Err(AskRefusal::Busy) => refusal_pieces(Refusal::Busy),
        Err(AskRefusal::PermitsFull) => refusal_pieces(Refusal::PermitsFull),
        Err(AskRefusal::NoMemory) => refusal_pieces(Refusal::NoMemory),
    }
}

fn start_pieces(reply: &Result<Started, Denial>) -> Pieces<'_>
    ensures { pieces_text result ≡ start_text reply.now }
{
    match reply {
        Ok(started) => go_pieces(started.number, started.reason),
        Err(denial) => denial_pieces(denial),
    }
}

/// The reply to an allowed start.
pub fn go_pieces<'a>(number: PermitNo, reason: Reason) -> Pieces<'a>
    ensures { pieces_text result ≡ go_text number reason }
{
    worded("GO", Piece::Number(number.number()), reason.wording())
}

/// The reply to BACK.
pub fn back_pieces(number: PermitNo, reply: &Result<(), NotOut>) -> Pieces<'static>
    ensures { pieces_text result ≡ back_text number reply.now }
{
    match reply {
        Ok(()) => Pieces::two_words("BACK", Piece::Number(number.number())),
        Err(NotOut) => error_pieces("notout"),
    }
}

/// The reply to DONE.
pub fn finish_pieces(number: PermitNo, reply: &Result<(), NotOut>) -> Pieces<'static>
    ensures { pieces_text result ≡ finish_text number reply.now }
{
    match reply {
        Ok(()) => Pieces::two_words("DONE", Piece::Number(number.number())),
        Err(NotOut) => error_pieces("notout"),
    }
}

fn sweep_pieces(reply: &Result<u64, SweepRefusal>) -> Pieces<'static>
    ensures { pieces_text result ≡ sweep_text reply.now }
{
    match reply {
        Ok(count) => Pieces::two_words("SWEPT", Piece::Number(*count)),
        Err(SweepRefusal::LogFull) => refusal_pieces(Refusal::LogFull),
        Err(SweepRefusal::NoMemory) => refusal_pieces(Refusal::NoMemory),
    }
}

/// The reply to STATE.
pub fn state_pieces(authority: &Authority, state: State) -> Pieces<'_>
    ensures { pieces_text result ≡ state_text authority.now state }
{
    let word = Piece::Text(standing_word(state.word));
    let fetching = Piece::Text(if state.fetching { "fetching" } else { "idle" });
    Pieces::four_words("STATE", Piece::Text(authority.text()), word, fetching)
}

/// The reply to URL.
pub fn url_pieces(url: &PageUrl) -> Pieces<'_>
    ensures { pieces_text result ≡ url_text url.now }
{
    Pieces::two_words("URL", Piece::Text(url.text()))
}

/// The reply to QUIT.
pub fn bye_pieces() -> Pieces<'static>
    ensures { pieces_text result ≡ bye_text }
{
    Pieces::whole("BYE\n")
}

/// The reply to a line with a fault.
pub fn fault_pieces(fault: LineFault) -> Pieces<'static>
    ensures { pieces_text result ≡ line_fault_text fault }
{
    error_pieces(fault.words())
}

/// The line of a denial.
pub fn denial_pieces(denial: &Denial) -> Pieces<'_>
    ensures { pieces_text result ≡ denial_text denial.now }
{
    worded(
        "NO",
        Piece::Text(denial.authority()),
        denial.cause.wording(),
    )
}

// A line of two words, then those of a reason or a cause.
fn worded<'a>(first: &'a str, second: Piece<'a>, wording: Wording) -> Pieces<'a>
    ensures { pieces_text result
        ≡ line_of (first.now ∷ piece_text second.entry ∷ words_in wording) }
{
    let word = Piece::Text(wording.word);
    match wording.line {
        Some(line) => Pieces::four_words(first, second, word, Piece::Number(line)),
        None => Pieces::three_words(first, second, word),
    }
}

fn standing_word(standing: Standing) -> &'static str
    ensures { result.now ≡ standing_word standing }
{
    match standing {
        Standing::Unknown => "unknown",
        Standing::Expired => "expired",
        Standing::Closed => "closed",
        Standing::Open => "open",
        Standing::Rules => "rules",
    }
}
