//! Replay: a book answers the lines of a session.
//! `crawlgate replay` runs it over standard input and output.
ghost use Rattle.std.specs.Prelude.{◌≡◌, OnErr, OnOk};
ghost use Rattle.counted_io.specs.Device.{failures_after};
ghost use Rattle.counted_io.specs.Output.{Pushes};
ghost use Rattle.command_lines.specs.Answers.{CutsReply, GivesReply};
ghost use Rattle.command_lines.specs.FaultText.{line_fault_text};
ghost use Rattle.command_lines.specs.Limits.{max_lines};
ghost use Rattle.command_lines.specs.Replay.{AnswersArrival, AnswersCall, AnswersLine, AnswersLineAmong, AnswersSeal};
ghost use Rattle.command_lines.specs.ReplyText.{bye_text, reply_text, state_text};
ghost use Rattle.gate_core.specs.Calls.{HasSpare};
ghost use Rattle.line_text.specs.Limits.{max_long_line};
ghost use Rattle.command_lines.specs.Session.{Session, failures_after_reads, failures_after_writes};

use crate::answerer::{Answerer, Flow};
use crate::arrival::{Arrival, decide};
use crate::command::{Command, read_command};
use crate::fault::LineFault;
use crate::known_pages::Known;
use crate::page_replies::{push_done, push_go, push_permit};
use crate::reply_text::{bye_pieces, fault_pieces, reply_pieces, state_pieces};
use crate::seal_text::push_sealed;
use crate::session::run_session;
use crate::session_fault::SessionFault;
use crate::verbs::Dialogue;
use counted_io::{DeviceFault, Output, Sink, Source};
use gate_core::{Book, Call, Reply, State};
use line_text::MAX_LONG_LINE;
use path_normal::{Authority, Schemes};
use robots_text::LastToken;
use std::alloc::Global;

/// A lent book, which answers lines by their calls in these schemes.
#[derive(Drop)]
struct BookLines {
    schemes: Schemes,
    last: LastToken,
}

impl Answerer<Book> for BookLines {
    ghost use Rattle.command_lines.specs.Replay.{AnswersLineAmong};

    ghost answers = { λ lines _. AnswersLineAmong lines.schemes };

    fn answer<W: Sink>(
        &self,
        alloc: Global,
        book: &mut Book,
        line: &[u8],
        output: &mut Output,
        sink: &mut W,
    ) -> Result<Flow, DeviceFault> {
        let (pages, last) = (&*book, &self.last);
        let known = Known { pages, last };
        match read_command(alloc, self.schemes, Dialogue::Replay, line, &known) {
            Ok(Command::Call(call)) => {
                answer_call(book, call, output, sink)?;
                Ok(Flow::Goes)
            }
            Ok(Command::Arrive(arrival)) => {
                answer_arrival(book, alloc, self.schemes, arrival, output, sink)?;
                Ok(Flow::Goes)
            }
            Ok(Command::State { authority, moment }) => {
                let state = book.state_of(authority.text(), moment);
                push_state(&authority, state, output, sink)?;
                Ok(Flow::Goes)
            }
            Ok(Command::Seal) => {
                answer_seal(book, output, sink)?;
                Ok(Flow::Goes)
            }
            Ok(
                Command::Refresh { .. }
                | Command::Fetch(_)
                | Command::Url(_)
                | Command::Info
                | Command::Why { .. },
            ) => {
                push_fault(LineFault::Verb, output, sink)?;
                Ok(Flow::Goes)
            }
            Ok(Command::Quit) => {
                push_bye(output, sink)?;
                Ok(Flow::Ends)
            }
            Err(fault) => {
                push_fault(fault, output, sink)?;
                Ok(Flow::Goes)
            }
        }
    }
}

/// The most lines of a session.
pub const MAX_LINES: u64 = 1000000;

/// Reads lines, makes their calls on the book, and writes their replies, before each read that may wait and
/// at the end. Even after a fault the book keeps the lines' effects. Only pages of `http` are read.
pub fn replay<R: Source, W: Sink>(
    alloc: Global,
    reader: &mut R,
    writer: &mut W,
    book: &mut Book,
) -> Result<(), SessionFault>
    ensures session { Session AnswersLine max_long_line max_lines book.old book.new
        (R.left reader.old) (R.left reader.new)
        (W.written writer.old) (W.written writer.new) result }
    ensures reads { R.failures reader.new ≡ failures_after_reads (R.failures reader.old) result }
    ensures writes { W.failures writer.new
        ≡ failures_after_writes (W.failures writer.old) result }
{
    replay_among(alloc, Schemes::Http, reader, writer, book)
}

/// Like `replay`, with pages of these schemes.
pub fn replay_among<R: Source, W: Sink>(
    alloc: Global,
    schemes: Schemes,
    reader: &mut R,
    writer: &mut W,
    book: &mut Book,
) -> Result<(), SessionFault>
    ensures session { Session (AnswersLineAmong schemes) max_long_line max_lines book.old book.new
        (R.left reader.old) (R.left reader.new)
        (W.written writer.old) (W.written writer.new) result }
    ensures reads { R.failures reader.new ≡ failures_after_reads (R.failures reader.old) result }
    ensures writes { W.failures writer.new
        ≡ failures_after_writes (W.failures writer.old) result }
{
    run_session(
        alloc,
        reader,
        writer,
        &BookLines {
            schemes,
            last: LastToken::none(),
        },
        book,
        MAX_LONG_LINE,
        MAX_LINES,
    )
}

// The reply to a line that asks a book for nothing. This and the next two are not inlined: the stack that their
// pieces take would be cleared for every line.
#[inline(never)]
fn push_fault<W: Sink>(
    fault: LineFault,
    output: &mut Output,
    sink: &mut W,
) -> Result<(), DeviceFault>
    ensures { Pushes (W.written sink.old) (W.written sink.new)
        (W.failures sink.old) (W.failures sink.new) output.old output.new
        (line_fault_text fault) result }
{
    fault_pieces(fault).push(output, sink)
}

#[inline(never)]
fn push_bye<W: Sink>(output: &mut Output, sink: &mut W) -> Result<(), DeviceFault>
    ensures { Pushes (W.written sink.old) (W.written sink.new)
        (W.failures sink.old) (W.failures sink.new) output.old output.new
        bye_text result }
{
    bye_pieces().push(output, sink)
}

#[inline(never)]
fn push_state<W: Sink>(
    authority: &Authority,
    state: State,
    output: &mut Output,
    sink: &mut W,
) -> Result<(), DeviceFault>
    ensures { Pushes (W.written sink.old) (W.written sink.new)
        (W.failures sink.old) (W.failures sink.new) output.old output.new
        (state_text authority.now state) result }
{
    state_pieces(authority, state).push(output, sink)
}

fn answer_call<W: Sink>(
    book: &mut Book,
    call: Call,
    output: &mut Output,
    sink: &mut W,
) -> Result<(), DeviceFault>
    requires { HasSpare call }
    ensures ok { OnOk result (GivesReply (λ reply. AnswersCall book.old call reply book.new)
        (W.written sink.old) (W.written sink.new) output.old output.new) }
    ensures err { OnErr result (CutsReply (λ reply. AnswersCall book.old call reply book.new)
        (W.written sink.old) (W.written sink.new) output.old) }
    ensures count { W.failures sink.new ≡ failures_after (W.failures sink.old) result }
{
    let reply = book.answer(call);
    push_reply(&reply, output, sink)
}

fn push_reply<W: Sink>(reply: &Reply, output: &mut Output, sink: &mut W) -> Result<(), DeviceFault>
    ensures { Pushes (W.written sink.old) (W.written sink.new)
        (W.failures sink.old) (W.failures sink.new) output.old output.new
        (reply_text reply.now) result }
{
    match reply {
        Reply::Ask { result: Ok(number) } => push_permit(*number, output, sink),
        Reply::Start {
            result: Ok(started),
        } => { push_go(started.number, started.reason, output, sink) }
        Reply::Finish {
            number,
            result: Ok(()),
        } => push_done(*number, output, sink),
        _ => push_other(reply, output, sink),
    }
}

#[inline(never)]
fn push_other<W: Sink>(reply: &Reply, output: &mut Output, sink: &mut W) -> Result<(), DeviceFault>
    ensures { Pushes (W.written sink.old) (W.written sink.new)
        (W.failures sink.old) (W.failures sink.new) output.old output.new
        (reply_text reply.now) result }
{
    reply_pieces(reply).push(output, sink)
}

fn answer_seal<W: Sink>(
    book: &mut Book,
    output: &mut Output,
    sink: &mut W,
) -> Result<(), DeviceFault>
    ensures ok { OnOk result (GivesReply (λ reply. AnswersSeal book.old reply book.new)
        (W.written sink.old) (W.written sink.new) output.old output.new) }
    ensures err { OnErr result (CutsReply (λ reply. AnswersSeal book.old reply book.new)
        (W.written sink.old) (W.written sink.new) output.old) }
    ensures count { W.failures sink.new ≡ failures_after (W.failures sink.old) result }
{
    let sealed = book.seal();
    push_sealed(&sealed, output, sink)
}

// Brings the answer of the replies.
fn answer_arrival<W: Sink>(
    book: &mut Book,
    alloc: Global,
    schemes: Schemes,
    arrival: Arrival<'_>,
    output: &mut Output,
    sink: &mut W,
) -> Result<(), DeviceFault>
    ensures ok { OnOk result (GivesReply
        (λ reply. AnswersArrival schemes book.old arrival.entry reply book.new)
        (W.written sink.old) (W.written sink.new) output.old output.new) }
    ensures err { OnErr result (CutsReply
        (λ reply. AnswersArrival schemes book.old arrival.entry reply book.new)
        (W.written sink.old) (W.written sink.new) output.old) }
    ensures count { W.failures sink.new ≡ failures_after (W.failures sink.old) result }
{
    let Arrival {
        authority,
        turn,
        replies,
        moment,
    } = arrival;
    match decide(alloc, schemes, &authority, replies) {
        Ok(answer) => {
            let call = Call::Arrive {
                authority,
                turn,
                answer,
                moment,
            };
            answer_call(book, call, output, sink)
        }
        Err(fault) => fault_pieces(fault).push(output, sink),
    }
}
