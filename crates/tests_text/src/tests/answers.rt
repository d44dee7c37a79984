//! Answers and their twins, and what both say.
//! RFC 9309, section 2.3.1.
ghost use Rattle.std.specs.Prelude.{◌≡◌, IfOk};
ghost use Rattle.robots_verdict.specs.Answer.{spares_of};

use super::demand;
use super::policies::EXAMPLE;
use robots_text::RobotsText;
use robots_verdict::laws::are_equal;
use robots_verdict::{Answer, Opening, Said};
use std::alloc::{AllocError, Global};
use std::test::Fail;

#[test]
fn answers_give_twins(rt: HostRuntime) -> Result<(), Fail> {
    let mut answer = answer_of(rt.alloc())?;
    demand(gives_twins(&mut answer), "the twins say the same")
}

fn answer_of(alloc: Global) -> Result<Answer, AllocError>
    ensures { IfOk result (λ answer. spares_of answer ≡ 2) }
{
    Answer::rules(alloc, RobotsText::read(alloc, EXAMPLE.as_bytes())?)
}

fn gives_twins(answer: &mut Answer) -> bool {
    if answer.spares() != 2 {
        return false;
    }
    let twin = answer.twin();
    let is_first = is_first(answer, &twin);
    let last = answer.twin();
    is_first && is_last(answer, &twin, &last)
}

fn is_first(answer: &Answer, twin: &Answer) -> bool {
    answer.spares() == 1 && twin.spares() == 0 && are_equal(twin, answer)
}

fn is_last(answer: &Answer, twin: &Answer, last: &Answer) -> bool {
    last == twin && answer.spares() == 0 && *last != Answer::Open(Opening::Unavailable)
}

#[test]
fn answers_say_what_their_twins_say(rt: HostRuntime) -> Result<(), Fail> {
    let mut answer = answer_of(rt.alloc())?;
    let twin = answer.twin().into_said();
    demand(
        say_the_same(&answer.into_said(), &twin),
        "the text that binds",
    )
}

fn say_the_same(said: &Said, twin: &Said) -> bool {
    said == twin && *said != Said::Open(Opening::Unavailable) && binds(said)
}

fn binds(said: &Said) -> bool {
    match said {
        Said::Rules(handle) => handle.policy().text().bytes() == EXAMPLE.as_bytes(),
        _ => false,
    }
}
