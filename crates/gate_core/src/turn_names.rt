//! Copies of the authority names of turns in flight, so that their arrivals allocate nothing.
//! RFC 9309, section 2.3.1.
ghost use Rattle.std.specs.Prelude.{◌≡◌, Some, None, OnErr, OnOk};
ghost use Rattle.gate_core.specs.TurnNames.{KeepsName, names_by};

use authority_cache::TurnNo;
use indexmap::IndexMap;
use path_normal::Authority;
use std::alloc::{AllocError, Global};
use std::hash::RandomState;

/// The names by turn number.
#[derive(Drop)]
pub(crate) struct TurnNames {
    by_turn: IndexMap<u64, Authority, RandomState>,
}

impl TurnNames {
    pub(crate) fn new(alloc: Global, keys: RandomState) -> TurnNames {
        TurnNames {
            by_turn: IndexMap::with_hasher(alloc, keys),
        }
    }

    pub(crate) fn put(&mut self, turn: TurnNo, name: Authority) -> Result<(), AllocError>
        ensures ok { OnOk result
            (KeepsName (names_by self.old) turn (Some name) (names_by self.new)) }
        ensures err { OnErr result (names_by self.new ≡ names_by self.old) }
    {
        match self.by_turn.insert(turn.number(), name) {
            Ok(_) => Ok(()),
            Err(_) => Err(AllocError),
        }
    }

    /// Removes and returns the name of a turn's authority.
    pub(crate) fn take(&mut self, turn: TurnNo) -> Option<Authority>
        ensures name { result ≡ names_by self.old turn }
        ensures taken { KeepsName (names_by self.old) turn None (names_by self.new) }
    {
        self.by_turn.swap_remove(&turn.number())
    }
}
