//! A keeper answers the lines of a client.
//! Used by `serve` for a session.
ghost use Rattle.std.specs.Prelude.{◌≡◌, ◌||◌};
ghost use Rattle.command_lines.specs.Answers.{ends_session};
ghost use Rattle.command_server.specs.Clients.{DoesCall, DoesRequest, Explains, TellsCounts, fetched, is_farewell, refreshed};
ghost use Rattle.command_server.specs.FirstLines.{is_turned_away};

use crate::client_reply::{ClientReply, InfoCounts};
use crate::first_line::FirstLine;
use crate::kept_pages::KeptPages;
use crate::numbered_clock::{FetchClock, NumberedClock, next_reading};
use crate::server_counters::ServerCounters;
use crate::why_reply::cause_of;
use command_lines::{Answerer, Command, Flow, Known, LineFault, Speaker, read_command};
use counted_io::{DeviceFault, Output, Sink};
use crawl_job::Outcome;
use gate_core::{BeginRefusal, Call, NoMemory, Standing};
use keepers::Keeper;
use path_normal::Authority;
use robots_text::LastToken;
use std::alloc::Global;

/// A client's session between two lines: a lent keeper, and the clock's next reading.
#[derive(Drop)]
pub(crate) struct Client<'k, K: Keeper> {
    pub(crate) keeper: &'k mut K,
    pub(crate) number: u64,
}

/// Answers a line by the keeper's call at the clock's moment. The first line may end the session.
#[derive(Drop)]
pub(crate) struct ClientLines<'c, C: NumberedClock> {
    pub(crate) speaker: Speaker,
    pub(crate) clock: &'c C,
    pub(crate) first: FirstLine,
    pub(crate) counters: &'c ServerCounters<'c>,
    pub(crate) last: LastToken,
}

impl<'k, K: Keeper, C: NumberedClock> Answerer<Client<'k, K>> for ClientLines<'_, C> {
    ghost use Rattle.command_server.specs.Clients.{AnswersClient};

    ghost answers = { λ lines _ old line text ended new.
        (new.keeper.ghost_name ≡ old.keeper.ghost_name)
        × AnswersClient K.deals lines.speaker lines.first (C.reads lines.clock.now)
        (record { keeper = old.keeper.now; number = old.number }) line text ended
        (record { keeper = new.keeper.now; number = new.number }) };

    fn answer<W: Sink>(
        &self,
        alloc: Global,
        client: &mut Client<'k, K>,
        line: &[u8],
        output: &mut Output,
        sink: &mut W,
    ) -> Result<Flow, DeviceFault> {
        // (in the reply itself the counts would be moved for each line)
        let mut counts = None;
        let told = self.told_of(alloc, client.number, client.keeper, line, &mut counts);
        let flow = flow_behind(self.first, client.number, line, &told);
        client.number = next_reading(next_reading(client.number));
        told.count_in(self.counters);
        told.tell(output, sink)?;
        Ok(flow)
    }
}

impl<C: NumberedClock> ClientLines<'_, C> {
    // Makes the call of a line at this reading, in the keeper's schemes. Its fetches have the next number. The
    // counts are INFO's.
    fn told_of<'i, K: Keeper>(
        &self,
        alloc: Global,
        number: u64,
        keeper: &mut K,
        line: &[u8],
        counts: &'i mut Option<InfoCounts>,
    ) -> ClientReply<'i>
        ensures { DoesRequest K.deals self.now.speaker
            (C.reads self.now.clock.now) number keeper.old line.now result keeper.new }
    {
        let moment = self.clock.read(number);
        let dialogue = self.speaker.dialogue(moment, keeper.can_fetch());
        let clock = &FetchClock {
            clock: self.clock,
            number: next_reading(number),
        };
        let pages = KeptPages { keeper: &*keeper };
        let known = Known {
            pages: &pages,
            last: &self.last,
        };
        match read_command(alloc, pages.keeper.schemes(), dialogue, line, &known) {
            Ok(Command::Call(call)) => told_of_call(keeper, call),
            Ok(Command::State { authority, moment }) => {
                let state = keeper.state(&authority, moment);
                ClientReply::Known { authority, state }
            }
            Ok(Command::Seal) => ClientReply::Sealed(keeper.seal()),
            Ok(Command::Refresh { authority }) => {
                let result = keeper.refresh(alloc, &authority, clock);
                told_of_refresh(authority, result)
            }
            Ok(Command::Fetch(job)) => told_of_fetch(keeper.fetch(alloc, job, clock)),
            Ok(Command::Url(url)) => ClientReply::Written(url),
            Ok(Command::Info) => self.told_of_info(keeper, counts),
            Ok(Command::Why { authority }) => self.told_of_why(alloc, keeper, authority),
            Ok(Command::Quit) => {
                keeper.end();
                ClientReply::Bye
            }
            // No line of a client reads so.
            Ok(Command::Arrive(_)) => ClientReply::Fault(LineFault::Verb),
            Err(fault) => ClientReply::Fault(fault),
        }
    }

    fn told_of_info<'i, K: Keeper>(
        &self,
        keeper: &K,
        counts: &'i mut Option<InfoCounts>,
    ) -> ClientReply<'i>
        ensures { TellsCounts K.deals keeper.now result }
    {
        ClientReply::Counted(counts.insert(InfoCounts {
            gate: keeper.counts(),
            server: self.counters.read(),
        }))
    }

    fn told_of_why<'i, K: Keeper>(
        &self,
        alloc: Global,
        keeper: &K,
        authority: Authority,
    ) -> ClientReply<'i>
        ensures { Explains K.deals keeper.now authority result }
    {
        let result = keeper.answer(alloc, &authority);
        let closed_by = cause_of(self.counters, &result);
        ClientReply::Explained {
            authority,
            result,
            closed_by,
        }
    }
}

// Whether the session goes on after a line with this reading.
fn flow_behind(first: FirstLine, number: u64, line: &[u8], told: &ClientReply<'_>) -> Flow
    ensures { ends_session result ≡ (is_turned_away first number line.now || is_farewell told.now) }
{
    if first.turns_away(number, line) {
        Flow::Ends
    } else {
        told.flow()
    }
}

// Without a result the keeper fetches nothing, so it does not know the verb.
fn told_of_refresh<'i>(
    authority: Authority,
    standing: Option<Result<Standing, BeginRefusal>>,
) -> ClientReply<'i>
    ensures { result ≡ refreshed authority standing }
{
    match standing {
        Some(result) => ClientReply::Refreshed { authority, result },
        None => ClientReply::Fault(LineFault::Verb),
    }
}

fn told_of_fetch<'i>(outcome: Option<Result<Outcome, NoMemory>>) -> ClientReply<'i>
    ensures { result ≡ fetched outcome }
{
    match outcome {
        Some(Ok(outcome)) => ClientReply::Fetched(outcome),
        Some(Err(_)) => ClientReply::NoMemory,
        None => ClientReply::Fault(LineFault::Verb),
    }
}

fn told_of_call<'i, K: Keeper>(keeper: &mut K, call: Call) -> ClientReply<'i>
    ensures { DoesCall K.deals keeper.old call result keeper.new }
{
    match call {
        Call::Ask { token, url, moment } => ClientReply::Asked(keeper.ask(token, url, moment)),
        Call::Start {
            number,
            token,
            url,
            moment,
        } => {
            let result = keeper.start(number, &token, url, moment);
            ClientReply::Started { number, result }
        }
        Call::Back { number } => {
            let result = keeper.back(number);
            ClientReply::Returned { number, result }
        }
        Call::Finish { number } => {
            let result = keeper.finish(number);
            ClientReply::Finished { number, result }
        }
        // No line of a client makes one.
        Call::Begin { .. } | Call::Arrive { .. } | Call::Sweep { .. } => {
            ClientReply::Fault(LineFault::Verb)
        }
    }
}
