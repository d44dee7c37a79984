//! What closed sites, by the turns that found it.
//! A `FetchMeter` has them, for the reply to WHY.
ghost use Rattle.std.specs.Prelude.{◌≡◌, IfSome};
ghost use Rattle.fetchers.specs.Notes.{closing_code, note_of};

use crate::closed_by::ClosedBy;
use crate::closing_code::ClosingCode;
use authority_cache::TurnNo;
use std::alloc::{AllocError, Global};
use std::sync::atomic::{AtomicU64, Ordering};

// Turns whose numbers differ by a multiple of this share a slot.
const SLOTS: u64 = 65_536;

// One more than the most of a turn's rounds over all slots that a note has room for.
const ROUNDS: u64 = 1 << 40;

/// A slot for each of so many turns, one after the other. Later ones displace them.
#[derive(Drop)]
pub(crate) struct ClosingNotes {
    slots: Vec<AtomicU64>,
}

impl ClosingNotes {
    /// No notes so far.
    pub(crate) fn new(alloc: Global) -> Result<ClosingNotes, AllocError> {
        let mut slots = Vec::new(alloc);
        for _ in 0..SLOTS {
            slots.push(AtomicU64::new(0)).map_err(AllocError::from)?;
        }
        Ok(ClosingNotes { slots })
    }

    /// The answer of this turn is a closed one, for this.
    pub(crate) fn note(&self, turn: TurnNo, by: ClosedBy) {
        if let (Some(slot), Some(note)) = (self.slot_of(turn), note_of(turn.number(), by)) {
            slot.store(note, Ordering::Relaxed);
        }
    }

    /// What closed the site of this turn, if that was noted, and no other turn has taken the slot since.
    pub(crate) fn told(&self, turn: TurnNo) -> Option<ClosedBy> {
        match self.slot_of(turn) {
            Some(slot) => noted(slot.load(Ordering::Relaxed), turn.number()),
            None => None,
        }
    }

    fn slot_of(&self, turn: TurnNo) -> Option<&AtomicU64> {
        self.slots.get((turn.number() % SLOTS) as usize)
    }
}

// The cause of a turn as one number.
#[tactic(auto, unfolding(crate::specs::Notes::note_of))]
fn note_of(turn: u64, by: ClosedBy) -> Option<u64>
    ensures { IfSome result (λ note. note ≡ note_of turn (closing_code by)) }
{
    let round = turn / SLOTS;
    match ClosingCode::of(by) {
        Some(code) if round < ROUNDS => {
            let above = round * 256 + u64::from(code.kind);
            Some(above * 65_536 + u64::from(code.number))
        }
        _ => None,
    }
}

// The cause that is noted for this turn.
#[tactic(auto, unfolding(crate::specs::Notes::note_of))]
fn noted(note: u64, turn: u64) -> Option<ClosedBy>
    ensures { IfSome result (λ by. note ≡ note_of turn (closing_code by)) }
{
    let above = note / 65_536;
    if above / 256 != turn / SLOTS {
        return None;
    }
    let code = ClosingCode {
        kind: (above % 256) as u8,
        number: (note % 65_536) as u16,
    };
    code.cause()
}
