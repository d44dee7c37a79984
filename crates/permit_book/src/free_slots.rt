//! A table's free slots: a bit for each, and two levels of words that summarize the words below.
//! The lowest free slot is found in three steps, however many slots there are.
ghost use Rattle.std.specs.Prelude.{◌≡◌, ◌*◌, ◌<◌, ◌≤◌, length, replicate, IfOk, MatchOption};
ghost use Rattle.permit_book.specs.Bits.{IsClear, IsLowestBit, SetsBit};
ghost use Rattle.permit_book.specs.Numbers.{most_slots};

use crate::words::{clear_bit, lowest_in, set_bit, sum_up};
use std::alloc::{AllocError, Global};
use std::marker::Model;

/// The free slots among at most 65,536. A clause sees the words of their bits.
#[derive(Drop)]
pub struct FreeSlots {
    // A bit for each slot, set while it is free.
    low: Vec<u64>,
    // A bit for each word of `low`, set while that word has one.
    middle: Vec<u64>,
    // A bit for each word of `middle`, at most 64.
    top: [u64; 1],
}

impl Model for FreeSlots {
    ghost use Rattle.std.specs.Prelude.{List, ℕ};
    ghost use Rattle.std.specs.Coded.{coded_list, coded_ℕ};

    ghost Value = { List ℕ };

    ghost coded = { coded_list coded_ℕ };

    ghost use Rattle.permit_book.specs.FreeSlots.{IsSummedUp};

    ghost view = { λ free. free.low.items };

    ghost invariant = { IsSummedUp };
}

impl FreeSlots {
    /// No free slots, with room for this many.
    pub fn with_room(alloc: Global, slots: u64) -> Result<FreeSlots, AllocError>
        requires { slots ≤ most_slots }
        ensures clear { IfOk result IsClear }
        ensures room { IfOk result (λ free. slots ≤ 64 * length free) }
    {
        let words = slots.div_ceil(64);
        Ok(FreeSlots {
            low: no_bits(alloc, words)?,
            middle: no_bits(alloc, words.div_ceil(64))?,
            top: [0],
        })
    }

    /// Makes a slot free.
    pub fn insert(&mut self, slot: u64)
        requires { slot < 64 * length self.old }
        ensures bits { SetsBit self.old slot 1 self.new }
        ensures room { length self.new ≡ length self.old }
    {
        set_bit(&mut self.low, slot);
        set_bit(&mut self.middle, slot / 64);
        set_bit(&mut self.top, slot / 64 / 64);
    }

    /// Removes a slot.
    pub fn remove(&mut self, slot: u64)
        requires { slot < 64 * length self.old }
        ensures bits { SetsBit self.old slot 0 self.new }
        ensures room { length self.new ≡ length self.old }
    {
        clear_bit(&mut self.low, slot);
        sum_up(&mut self.middle, &self.low, slot / 64);
        sum_up(&mut self.top, &self.middle, slot / 64 / 64);
    }

    /// The lowest free slot.
    pub fn lowest(&self) -> Option<u64>
        ensures { MatchOption result (IsClear self.now) (IsLowestBit self.now) }
    {
        if self.top[0] == 0 {
            return None;
        }
        let middle = lowest_in(&self.top, 0);
        let low = lowest_in(&self.middle, middle);
        Some(lowest_in(&self.low, low))
    }
}

// This many words without bits.
fn no_bits(alloc: Global, words: u64) -> Result<Vec<u64>, AllocError>
    ensures { IfOk result (λ v. v.items ≡ replicate words 0) }
{
    let mut bits = Vec::new(alloc);
    bits.resize(words as usize, 0)?;
    Ok(bits)
}
