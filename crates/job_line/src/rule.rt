//! The rule for the shared words, and their kinds of atomic step. These types exist only for proofs.
//! `specs/Rule.antt` has what each says.
use atomic_table::{Join, Play, Split, TableRule};
use std::collections::LinkedList;

/// What a seat knows; no value of it is made.
pub struct Hand {
    /// Each site's jobs.
    pub counts: LinkedList<u64>,
    /// How many of the line's 16 parts it has.
    pub parts: u64,
    /// The ends that it found.
    pub ends: LinkedList<u64>,
    /// What it drew.
    pub drawn: LinkedList<u64>,
}

/// All draws are each site's first indexes, as many as its word counts, each once.
pub struct DrawnOnce;

impl TableRule<(), Hand, Vec<u64>> for DrawnOnce {
    ghost use Rattle.job_line.specs.Rule.{first_hand, Holds};

    ghost holds = { λ counts. Holds counts.items };

    ghost first = { λ counts. first_hand counts.items };
}

/// A seat gets one of another's parts.
pub struct Deal;

impl Split<Hand> for Deal {
    ghost use Rattle.job_line.specs.Rule.{hand_left, hand_dealt};

    ghost left = { hand_left };

    ghost right = { hand_dealt };
}

/// An index is drawn, or a site's end is found.
pub struct Draw;

impl Play<(), Hand> for Draw {
    ghost use Rattle.job_line.specs.Rule.{Draws};

    ghost then = { Draws };
}

/// A seat takes over another's draws.
pub struct TakeIn;

impl Join<Hand> for TakeIn {
    ghost use Rattle.job_line.specs.Rule.{hand_of_both, spent_hand};

    ghost both = { hand_of_both };

    ghost spent = { spent_hand };
}

/// A seat with all parts learns that each site's first indexes were drawn, each once.
pub struct Learn;

impl Play<(), Hand> for Learn {
    ghost use Rattle.job_line.specs.Rule.{Learns};

    ghost then = { Learns };
}
