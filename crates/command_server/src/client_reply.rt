//! The reply to a client's line as one value, whose text is in docs/FORMATS.md, replies.
ghost use Rattle.std.specs.Prelude.{◌≡◌, ◌∷◌, ◌++◌, []};
ghost use Rattle.counted_io.specs.Output.{Pushes};
ghost use Rattle.counted_io.specs.Lines.{line_feed};
ghost use Rattle.line_text.specs.Pieces.{pieces_text};
ghost use Rattle.command_lines.specs.Answers.{ends_session};
ghost use Rattle.command_server.specs.Clients.{is_farewell};
ghost use Rattle.command_server.specs.ClientReplyText.{body_text, fetched_text, refresh_text, spent_text, client_reply_text};

use crate::info_text::push_info;
use crate::server_counters::{ServerCounters, ServerCounts};
use crate::why_reply::push_why_reply;
use authority_cache::StandingAnswer;
use command_lines::{
    Flow, LineFault, arrive_pieces, ask_pieces, back_pieces, begin_pieces, bye_pieces,
    denial_pieces, fault_pieces, finish_pieces, go_pieces, push_done, push_go, push_hops,
    push_permit, push_sealed, refusal_pieces, state_pieces, url_pieces,
};
use counted_io::{DeviceFault, Output, Sink};
use crawl_job::{Outcome, Refusal};
use fetchers::ClosedBy;
use gate_core::{AskRefusal, BeginRefusal, Denial, NoMemory, Standing, State};
use gate_history::{Reason, Segment};
use keepers::Counts;
use line_text::{Piece, Pieces};
use path_normal::{Authority, PageUrl};
use permit_book::{NotOut, PermitNo};

/// How much the gate keeps, and the server's connections.
#[derive(Clone, Copy, Debug, PartialEq, Eq)]
pub(crate) struct InfoCounts {
    pub(crate) gate: Counts,
    pub(crate) server: ServerCounts,
}

/// The reply to a client. It is moved for each line, so it has no wide parts.
#[derive(Drop)]
pub(crate) enum ClientReply<'i> {
    /// The line asks for nothing that the session has.
    Fault(LineFault),
    Asked(Result<PermitNo, AskRefusal>),
    /// Whether the fetch of this permit may begin.
    Started {
        number: PermitNo,
        result: Result<Reason, Denial>,
    },
    Returned {
        number: PermitNo,
        result: Result<(), NotOut>,
    },
    Finished {
        number: PermitNo,
        result: Result<(), NotOut>,
    },
    Known {
        authority: Authority,
        state: State,
    },
    Refreshed {
        authority: Authority,
        result: Result<Standing, BeginRefusal>,
    },
    Fetched(Outcome),
    Sealed(Result<Segment, NoMemory>),
    /// The URL of a page as the gate writes it.
    Written(PageUrl),
    /// The counts of INFO.
    Counted(&'i InfoCounts),
    /// The authority's standing answer, in force or not, and what closed its site, if that is known.
    Explained {
        authority: Authority,
        result: Result<Option<StandingAnswer>, NoMemory>,
        closed_by: Option<ClosedBy>,
    },
    /// No memory to fetch.
    NoMemory,
    /// The session ends.
    Bye,
}

impl ClientReply<'_> {
    /// Whether the session goes on.
    pub(crate) fn flow(&self) -> Flow
        ensures { ends_session result ≡ is_farewell self.now }
    {
        match self {
            ClientReply::Bye => Flow::Ends,
            _ => Flow::Goes,
        }
    }

    /// Counts the denials and failed fetches that it tells.
    pub(crate) fn count_in(&self, counters: &ServerCounters<'_>) {
        match self {
            ClientReply::Asked(Err(AskRefusal::Denied(denial))) => counters.deny(denial.cause),
            ClientReply::Started {
                result: Err(denial),
                ..
            } => counters.deny(denial.cause),
            ClientReply::Fetched(outcome) => {
                for hop in outcome.hops.as_slice() {
                    counters.note_hop(hop);
                }
            }
            _ => {}
        }
    }

    /// Pushes the reply. If the gate fetched for it, also writes all that is pending: a lost client shows
    /// before the gate fetches for it again.
    pub(crate) fn tell<W: Sink>(&self, output: &mut Output, sink: &mut W) -> Result<(), DeviceFault>
        ensures { Pushes (W.written sink.old) (W.written sink.new)
            (W.failures sink.old) (W.failures sink.new) output.old output.new
            (client_reply_text self.now) result }
    {
        self.push(output, sink)?;
        if self.is_of_a_fetch() {
            output.flush(sink)?;
        }
        Ok(())
    }

    fn is_of_a_fetch(&self) -> bool {
        matches!(
            self,
            ClientReply::Refreshed { .. } | ClientReply::Fetched(_)
        )
    }

    fn push<W: Sink>(&self, output: &mut Output, sink: &mut W) -> Result<(), DeviceFault>
        ensures { Pushes (W.written sink.old) (W.written sink.new)
            (W.failures sink.old) (W.failures sink.new) output.old output.new
            (client_reply_text self.now) result }
    {
        match self {
            ClientReply::Asked(Ok(number)) => push_permit(*number, output, sink),
            ClientReply::Started {
                number,
                result: Ok(reason),
            } => push_go(*number, *reason, output, sink),
            ClientReply::Finished {
                number,
                result: Ok(()),
            } => push_done(*number, output, sink),
            _ => self.push_other(output, sink),
        }
    }

    // Not inlined, and with one row of pieces: the stack that it takes is cleared whenever it is called.
    #[inline(never)]
    fn push_other<W: Sink>(&self, output: &mut Output, sink: &mut W) -> Result<(), DeviceFault>
        ensures { Pushes (W.written sink.old) (W.written sink.new)
            (W.failures sink.old) (W.failures sink.new) output.old output.new
            (client_reply_text self.now) result }
    {
        let line = match self {
            ClientReply::Fetched(outcome) => return push_fetched(outcome, output, sink),
            ClientReply::Sealed(result) => return push_sealed(result, output, sink),
            ClientReply::Counted(info) => return push_info(info.gate, info.server, output, sink),
            ClientReply::Explained {
                authority,
                result,
                closed_by,
            } => {
                return push_why_reply(authority, result, *closed_by, output, sink);
            }
            ClientReply::Fault(fault) => fault_pieces(*fault),
            ClientReply::Asked(result) => ask_pieces(result),
            ClientReply::Started { number, result } => begun_pieces(*number, result),
            ClientReply::Returned { number, result } => back_pieces(*number, result),
            ClientReply::Finished { number, result } => finish_pieces(*number, result),
            ClientReply::Known { authority, state } => state_pieces(authority, *state),
            ClientReply::Refreshed { authority, result } => refreshed_pieces(authority, result),
            ClientReply::Written(url) => url_pieces(url),
            ClientReply::NoMemory => refusal_pieces(Refusal::NoMemory),
            ClientReply::Bye => bye_pieces(),
        };
        line.push(output, sink)
    }
}

fn begun_pieces(number: PermitNo, told: &Result<Reason, Denial>) -> Pieces<'_>
    ensures { pieces_text result ≡ spent_text number told.now }
{
    match told {
        Ok(reason) => go_pieces(number, *reason),
        Err(denial) => denial_pieces(denial),
    }
}

fn refreshed_pieces<'a>(
    authority: &'a Authority,
    told: &Result<Standing, BeginRefusal>,
) -> Pieces<'a>
    ensures { pieces_text result ≡ refresh_text authority.now told.now }
{
    match told {
        Ok(standing) => arrive_pieces(authority, *standing, &Ok(())),
        Err(refusal) => begin_pieces(authority, &Err(*refusal)),
    }
}

// The lines of the hops, and the body after its length in octets.
fn push_fetched<W: Sink>(
    outcome: &Outcome,
    output: &mut Output,
    sink: &mut W,
) -> Result<(), DeviceFault>
    ensures { Pushes (W.written sink.old) (W.written sink.new)
        (W.failures sink.old) (W.failures sink.new) output.old output.new
        (fetched_text outcome.now) result }
{
    push_hops(Piece::Text("HOP"), 1, outcome.hops.as_slice(), output, sink)?;
    push_body(outcome.body.as_slice(), output, sink)
}

fn push_body<W: Sink>(body: &[u8], output: &mut Output, sink: &mut W) -> Result<(), DeviceFault>
    ensures { Pushes (W.written sink.old) (W.written sink.new)
        (W.failures sink.old) (W.failures sink.new) output.old output.new
        (body_text body.now) result }
{
    Pieces::two_words("BODY", Piece::Number(body.len() as u64)).push(output, sink)?;
    push_octets(body, output, sink)
}

fn push_octets<W: Sink>(octets: &[u8], output: &mut Output, sink: &mut W) -> Result<(), DeviceFault>
    ensures { Pushes (W.written sink.old) (W.written sink.new)
        (W.failures sink.old) (W.failures sink.new) output.old output.new
        (octets.now ++ line_feed ∷ []) result }
{
    output.push(sink, octets)?;
    output.push(sink, b"\n")
}
