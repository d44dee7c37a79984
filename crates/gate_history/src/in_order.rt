//! A base's answers in order, by their authorities' octets: for its text.
//! RFC 9309, sections 2.3.1 and 2.4.
ghost use Rattle.std.specs.Prelude.{◌≡◌, IfOk, map};
ghost use Rattle.std.specs.Option.{option_copied};
ghost use Rattle.gate_history.specs.Order.{IsEarliest, IsNextAnswer, earlier_of, is_before, is_behind};

use crate::base::Base;
use authority_cache::StandingAnswer;
use std::alloc::{AllocError, Global};

impl Base {
    /// The valid answers in order. Allocates a reference to each.
    pub fn answers_in_order(&self) -> Result<Vec<&StandingAnswer>, AllocError>
        ensures { IfOk result (λ answers. map (λ answer. answer.now) answers.items
            ≡ self.now.standing) }
    {
        let standing = &self.left.standing;
        let mut answers = references(*standing.allocator(), standing.as_slice())?;
        answers.sort_unstable_by(|one, other| one.authority.text().cmp(other.authority.text()));
        Ok(answers)
    }

    /// The next answer in order, behind the last one if there is one. It allocates nothing, but looks at
    /// every answer.
    pub fn answer_behind(&self, last: Option<&StandingAnswer>) -> Option<&StandingAnswer>
        ensures { IsNextAnswer self.now.standing (option_copied last.entry) (option_copied result) }
    {
        earliest(self.left.standing.as_slice(), last)
    }
}

fn references(alloc: Global, answers: &[StandingAnswer]) -> Result<Vec<&StandingAnswer>, AllocError>
    ensures { IfOk result (λ made. map (λ answer. answer.now) made.items ≡ answers.now) }
{
    let mut made = Vec::with_capacity(alloc, answers.len())?;
    for answer in answers {
        made.push(answer)?;
    }
    Ok(made)
}

fn earliest<'a>(
    answers: &'a [StandingAnswer],
    last: Option<&StandingAnswer>,
) -> Option<&'a StandingAnswer>
    ensures { IsEarliest (option_copied last.entry) answers.now (option_copied result) }
{
    let mut next = None;
    for answer in answers {
        next = earlier(last, next, answer);
    }
    next
}

// The earlier of the answer and the next one so far, if the answer is behind the last one.
fn earlier<'a>(
    last: Option<&StandingAnswer>,
    next: Option<&'a StandingAnswer>,
    answer: &'a StandingAnswer,
) -> Option<&'a StandingAnswer>
    ensures { option_copied result
        ≡ earlier_of (option_copied last.entry) (option_copied next.entry) answer.now }
{
    if !is_behind(last, answer) {
        return next;
    }
    match next {
        Some(next) if !is_before(answer, next) => Some(next),
        _ => Some(answer),
    }
}

fn is_behind(last: Option<&StandingAnswer>, answer: &StandingAnswer) -> bool
    ensures { result ≡ is_behind (option_copied last.entry) answer.now }
{
    match last {
        Some(last) => is_before(last, answer),
        None => true,
    }
}

fn is_before(one: &StandingAnswer, other: &StandingAnswer) -> bool
    ensures { result ≡ is_before one.now other.now }
{
    one.authority.text().cmp(other.authority.text()).is_lt()
}
