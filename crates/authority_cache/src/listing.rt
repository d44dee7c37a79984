//! The contents of the cache, in lists that outlive it.
//! RFC 9309, sections 2.3.1 and 2.4.
ghost use Rattle.std.specs.Prelude.{◌≡◌, ◌++◌, IfOk, OnOk};
ghost use Rattle.authority_cache.specs.Lists.{ListsAnswers, ListsTurns, answers_in, turns_in};
ghost use Rattle.authority_cache.specs.Sites.{said_site};

use crate::cache::Cache;
use crate::site::Site;
use crate::standing_answer::StandingAnswer;
use crate::turn::Turn;
use std::alloc::{AllocError, Global};

impl Cache {
    /// The answers, in no order. Allocates the list alone: names and texts are shared.
    pub fn standing_answers(&self, alloc: Global) -> Result<Vec<StandingAnswer>, AllocError>
        ensures { IfOk result (λ answers. ListsAnswers self.now answers.items) }
    {
        let mut answers = Vec::with_capacity(alloc, self.sites.len())?;
        for index in 0..self.sites.len() {
            match self.sites.get_index(index) {
                Some((_name, site)) => push_answer(&mut answers, site)?,
                None => unreachable!(),
            }
        }
        Ok(answers)
    }

    /// The turns in flight, in no order. Allocates the list alone: names are shared.
    pub fn turns(&self, alloc: Global) -> Result<Vec<Turn>, AllocError>
        ensures { IfOk result (λ turns. ListsTurns self.now turns.items) }
    {
        let mut turns = Vec::with_capacity(alloc, self.flights as usize)?;
        for index in 0..self.sites.len() {
            match self.sites.get_index(index) {
                Some((_name, site)) => push_turn(&mut turns, site)?,
                None => unreachable!(),
            }
        }
        Ok(turns)
    }
}

fn push_answer(answers: &mut Vec<StandingAnswer>, site: &Site) -> Result<(), AllocError>
    ensures { OnOk result (answers.new.items
        ≡ answers.old.items ++ answers_in site.now.name (said_site site.now)) }
{
    if let Some(cached) = &site.standing {
        answers.push(StandingAnswer {
            authority: site.name.copy()?,
            turn: cached.turn,
            begun: cached.begun,
            life: cached.life,
            says: cached.answer.says()?,
        })?;
    }
    Ok(())
}

fn push_turn(turns: &mut Vec<Turn>, site: &Site) -> Result<(), AllocError>
    ensures { OnOk result
        (turns.new.items ≡ turns.old.items ++ turns_in site.now.name (said_site site.now)) }
{
    if let Some(flight) = &site.in_flight {
        turns.push(Turn {
            authority: site.name.copy()?,
            turn: flight.turn,
            begun: flight.begun,
        })?;
    }
    Ok(())
}
