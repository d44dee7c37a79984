//! That the limits are those of specs/Limits.antt.
ghost use Rattle.std.specs.Prelude.{◌≡◌};
ghost use Rattle.http_turns.specs.Limits.{later_milliseconds, message_milliseconds, most_answer_octets};

use crate::budget::MOST_ANSWER_OCTETS;
use crate::talk::{LATER_MILLISECONDS, MESSAGE_MILLISECONDS};

/// The limits are these numbers. Does nothing.
pub fn limits_are()
    ensures message { MESSAGE_MILLISECONDS ≡ message_milliseconds }
    ensures later { LATER_MILLISECONDS ≡ later_milliseconds }
    ensures answers { MOST_ANSWER_OCTETS ≡ most_answer_octets }
{}
