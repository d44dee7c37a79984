//! Numbers under 2^24, kept in three octets.
//! Used by `RuleRow`: an index has a row for each rule, so it takes a third less memory.
ghost use Rattle.std.specs.Prelude.{◌≡◌, ◌<◌, ◌^◌};

use std::marker::Model;

/// A number under 2^24, without alignment.
#[derive(Drop)]
pub(crate) struct ThreeOctets {
    low: u8,
    middle: u8,
    high: u8,
}

impl Model for ThreeOctets {
    ghost use Rattle.std.specs.Prelude.{ℕ, ◌+◌, ◌*◌};

    ghost Value = { ℕ };

    ghost view = { λ number. number.low + 256 * (number.middle + 256 * number.high) };
}

impl ThreeOctets {
    pub(crate) fn of(number: u32) -> ThreeOctets
        requires { number < 2 ^ 24 }
        ensures { result ≡ number }
    {
        let rest = number / 256;
        ThreeOctets {
            low: (number % 256) as u8,
            middle: (rest % 256) as u8,
            high: (rest / 256) as u8,
        }
    }

    pub(crate) fn number(&self) -> u32
        ensures { result ≡ self.now }
    {
        u32::from(self.low) + 256 * (u32::from(self.middle) + 256 * u32::from(self.high))
    }
}
