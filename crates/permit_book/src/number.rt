//! The number of a permit: its slot, and which grant of that slot it is.
//! Used wherever a permit is named: by crawlers, histories and audits.
ghost use Rattle.std.specs.Prelude.{◌≡◌, ◌<◌, ◌≤◌};
ghost use Rattle.permit_book.specs.Numbers.{slot_of, generation_of, number_in, last_generation, most_slots};

use std::fmt;
use std::marker::Model;

/// The most slots of a table of permits.
pub const MAX_SLOTS: u64 = 65_536;

/// Numbers per generation: a permit's number is `generation * 65536 + slot`.
pub const SLOTS_PER_GENERATION: u64 = 65_536;

/// The last generation of a slot. A slot whose permit of this generation was freed is retired.
pub const LAST_GENERATION: u64 = 281_474_976_710_655;

/// A permit's number: `generation * 65536 + slot`. Clients may send any number; only the table knows
/// whether its permit is outstanding.
#[derive(Clone, Copy, Debug, PartialEq, Eq)]
pub struct PermitNo {
    number: u64,
}

impl Model for PermitNo {
    ghost use Rattle.std.specs.Prelude.{ℕ};

    ghost Value = { ℕ };

    ghost view = { λ n. n.number };

    ghost inverse = { λ n. record { number = n } };
}

impl PermitNo {
    /// The number that a client sent.
    pub fn new(number: u64) -> PermitNo
        ensures { result ≡ number }
    {
        PermitNo { number }
    }

    /// A generation's number in a slot.
    pub fn granted_in(slot: u64, generation: u64) -> PermitNo
        requires slot { slot < most_slots }
        requires generation { generation ≤ last_generation }
        ensures number { result ≡ number_in slot generation }
        ensures slot { slot_of result ≡ slot }
        ensures generation { generation_of result ≡ generation }
    {
        PermitNo {
            number: generation * SLOTS_PER_GENERATION + slot,
        }
    }

    /// The plain number.
    pub fn number(self) -> u64
        ensures { result ≡ self }
    {
        self.number
    }

    /// The slot of the grant, below 65,536.
    pub fn slot(self) -> u64
        ensures value { result ≡ slot_of self }
        ensures bound { result < most_slots }
    {
        self.number % SLOTS_PER_GENERATION
    }

    /// The slot's grant, counted from its first generation.
    pub fn generation(self) -> u64
        ensures value { result ≡ generation_of self }
        ensures bound { result ≤ last_generation }
    {
        self.number / SLOTS_PER_GENERATION
    }
}
