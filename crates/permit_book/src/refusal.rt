//! Why a call on the permits was refused, which then changed nothing.
//! Returned by `draft`, `give_back` and `finish`.

use std::error::Error;
use std::fmt;

/// No slot is free.
#[derive(Clone, Copy, Debug, PartialEq, Eq)]
pub struct PermitsFull;

/// The number has no permit in the state that the call needs.
#[derive(Clone, Copy, Debug, PartialEq, Eq)]
pub struct NotOut;

impl fmt::Display for PermitsFull {
    ghost use Rattle.std.specs.Prelude.{Some, codes};

    ghost output = { λ _. Some (codes "no permit is free") };

    fn fmt<W: fmt::Write>(&self, f: &mut fmt::Formatter<W>) -> fmt::Result {
        f.write_str("no permit is free")
    }
}

impl fmt::Display for NotOut {
    ghost use Rattle.std.specs.Prelude.{Some, codes};

    ghost output = { λ _. Some (codes "no such permit is out") };

    fn fmt<W: fmt::Write>(&self, f: &mut fmt::Formatter<W>) -> fmt::Result {
        f.write_str("no such permit is out")
    }
}

impl Error for PermitsFull {}

impl Error for NotOut {}
