//! Makes a list of calls in order.
//! RFC 9309, sections 2.2.2, 2.3.1 and 2.4.
ghost use Rattle.std.specs.Prelude.{◌≡◌, ◌<◌, All, IfOk, OnErr};
ghost use Rattle.gate_core.specs.declared.call.Call.TheVariants.{Arrive};
ghost use Rattle.gate_core.specs.Calls.{HasSpare, Replies, Step};
ghost use Rattle.gate_core.specs.Gate.{history};
ghost use Rattle.gate_core.specs.Headline.{IsTold, RunTells};

use crate::book::Book;
use crate::call::{Call, Reply};
use crate::refusal::NoMemory;
use crate::state::Standing;
use authority_cache::{TimedAnswer, TurnNo};
use path_normal::Authority;
use std::alloc::Global;

impl Book {
    /// Makes a call given as a value.
    pub fn answer(&mut self, call: Call) -> Reply
        requires { HasSpare call }
        ensures step { Step self.old call result self.new }
        ensures told { IsTold (history self.old) call result }
    {
        // A history is legal, so no answer in force is older than a day.
        let _ = self.history();
        self.make(call)
    }

    fn make(&mut self, call: Call) -> Reply
        requires { HasSpare call }
        ensures { Step self.old call result self.new }
    {
        match call {
            Call::Begin { authority, moment } => {
                let result = self.begin(&authority, moment);
                Reply::Begin { authority, result }
            }
            Call::Arrive {
                authority,
                turn,
                answer,
                moment,
            } => self.bring(authority, turn, answer, moment),
            Call::Ask { token, url, moment } => Reply::Ask {
                result: self.ask(token, url, moment),
            },
            Call::Start {
                number,
                token,
                url,
                moment,
            } => Reply::Start {
                result: self.start(number, &token, url, moment),
            },
            Call::Back { number } => Reply::Back {
                number,
                result: self.back(number),
            },
            Call::Finish { number } => Reply::Finish {
                number,
                result: self.finish(number),
            },
            Call::Sweep { moment } => Reply::Sweep {
                result: self.sweep(moment),
            },
        }
    }

    // Makes an arrival; the reply names the answer.
    fn bring(
        &mut self,
        authority: Authority,
        turn: TurnNo,
        answer: TimedAnswer,
        moment: u64,
    ) -> Reply
        requires { 0 < answer.spares }
        ensures { Step self.old (Arrive authority turn answer moment) result self.new }
    {
        let brought = Standing::of(answer.answer());
        let result = self.arrive(&authority, turn, answer, moment);
        Reply::Arrive {
            authority,
            brought,
            result,
        }
    }
}

/// Makes the calls in order, and returns their replies. Room for all replies is allocated first; without it
/// no call is made.
#[tactic(auto, using(std::proofs::lemmas::Grind::common_steps, crate::proofs::Headlines::run_told))]
pub fn run(alloc: Global, book: &mut Book, calls: Vec<Call>) -> Result<Vec<Reply>, NoMemory>
    requires { All HasSpare calls.items }
    ensures replies { IfOk result (λ replies. Replies book.old calls.items replies.items book.new) }
    ensures tells { IfOk result (λ replies. RunTells book.old calls.items replies.items book.new) }
    ensures err { OnErr result (book.new ≡ book.old) }
{
    let _ = book.history();
    let Ok(mut replies) = Vec::with_capacity(alloc, calls.len()) else {
        return Err(NoMemory);
    };
    for call in calls {
        replies.push_reserved(book.answer(call));
    }
    Ok(replies)
}
